//! Elements that are kept as bits.
ghost use Rattle.std.specs.Prelude.{◌≡◌, ◌≢◌, ℕ, ◌+◌, ◌*◌, ◌<◌, ◌≤◌, [], ◌∷◌, ◌++◌, true, false, length, map, take, drop, replicate, slice_index_or, IfOk, IfErr, IfSome, IsNone};
ghost use Rattle.std.specs.List.{list_all};
ghost use Rattle.ten_unit.specs.declared.character.Element.{Element as AnElement};
ghost use Rattle.ten_unit.specs.inside.Marks.{IsPlanes};
ghost use Rattle.ten_unit.specs.Signs.{element_of, is_sign};
ghost use Rattle.phasing.specs.Packed.{Keep, elements_in};
ghost use Rattle.phasing.specs.inside.Places.{element_at};

use crate::marking::shifted;
use crate::reception::LEAD_OF_FIRST;
use crate::window::Elements;
use std::alloc::{AllocError, Global};
use std::marker::Model;
use ten_unit::{Element, Planes, pack_signs};

/// The elements that one receiver heard, in their order, 64 of them in two words of bits. Contracts see it as the list
/// of them.
#[derive(Debug, Drop)]
pub struct Reception {
    planes: Vec<Planes>,
    count: usize,
}

impl Model for Reception {
    ghost use Rattle.std.specs.Prelude.{List};
    ghost use Rattle.ten_unit.specs.declared.character.Element.{Element};
    ghost use Rattle.phasing.specs.Packed.{Keep, elements_in};

    ghost Value = { List Element };

    ghost view = { λ p. elements_in p.planes.items p.count };

    ghost invariant = { λ p. Keep p.planes.items (elements_in p.planes.items p.count) };
}

impl Reception {
    /// So many elements that these words keep.
    fn of(planes: Vec<Planes>, count: usize) -> Reception
        requires { Keep planes.items (elements_in planes.items count) }
        ensures { result ≡ elements_in planes.items count }
    {
        Reception { planes, count }
    }

    /// No elements. It takes no memory.
    pub fn new(alloc: Global) -> Reception
        ensures { result ≡ [] }
    {
        Reception::of(Vec::new(alloc), 0)
    }

    /// Puts one element last. The error is want of memory, and then nothing changed.
    pub fn push(&mut self, e: Element) -> Result<(), AllocError>
        ensures pushed { IfOk result (λ _. self.new ≡ self.old ++ e ∷ []) }
        ensures unchanged { IfErr result (λ _. self.new ≡ self.old) }
    {
        // More elements than a `usize` counts would be 4 EiB of words.
        let Some(count) = self.count.checked_add(1) else {
            return Err(AllocError);
        };
        let number = self.count / 64;
        let here = with_element(self.words(number), (self.count % 64) as u32, e);
        if number < self.planes.len() {
            self.planes[number] = here;
        } else {
            self.planes.push(here)?;
        }
        self.count = count;
        Ok(())
    }

    /// The elements as a list. They are kept as bits, so that no slice of them can be lent. The error is want of
    /// memory.
    pub fn elements(&self, alloc: Global) -> Result<Vec<Element>, AllocError>
        ensures { IfOk result (λ list. list.items ≡ self.now) }
    {
        let mut list = Vec::with_capacity(alloc, self.count)?;
        for i in 0..self.count {
            list.push(self.element(i))?;
        }
        Ok(list)
    }

    /// The elements of these signs, which are `Y`, `B`, and `-` for a lost one (this project's profile), and `None`
    /// where a byte is no sign. The error is want of memory.
    pub fn of_signs(alloc: Global, signs: &[u8]) -> Result<Option<Reception>, AllocError>
        ensures some { IfOk result (λ packed. IfSome packed (λ p. (list_all is_sign signs.now ≡ true)
            × (p ≡ map element_of signs.now))) }
        ensures none { IfOk result (λ packed. IsNone packed → list_all is_sign signs.now ≡ false) }
    {
        let mut planes = Vec::with_capacity(alloc, signs.len().div_ceil(64))?;
        let mut rest = signs;
        while let Some((block, more)) = rest.split_first_chunk::<64>() {
            let Some(here) = pack_signs(block) else {
                return Ok(None);
            };
            planes.push_reserved(here);
            rest = more;
        }
        if rest.is_empty() {
            return Ok(Some(Reception::of(planes, signs.len())));
        }
        let Some(here) = pack_signs(&padded_signs(rest)) else {
            return Ok(None);
        };
        planes.push_reserved(here);
        Ok(Some(Reception::of(planes, signs.len())))
    }

    /// The elements of a list. The error is want of memory.
    pub fn of_elements(alloc: Global, e: &[Element]) -> Result<Reception, AllocError>
        ensures { IfOk result (λ reception. reception ≡ e.now) }
    {
        let blocks = e.len().div_ceil(64);
        let mut planes = Vec::with_capacity(alloc, blocks)?;
        for block in 0..blocks {
            planes.push(e.planes_from(64 * block))?;
        }
        Ok(Reception::of(planes, e.len()))
    }

    /// The element with this number.
    fn element(&self, number: usize) -> Element
        requires { number < length self.now }
        ensures { result ≡ slice_index_or self.now number Element.Lost }
    {
        let here = self.planes[number / 64];
        let at = (number % 64) as u32;
        if here.y >> at & 1 == 1 {
            Element::Y
        } else if here.b >> at & 1 == 1 {
            Element::B
        } else {
            Element::Lost
        }
    }

    /// The words with this number, and lost elements past the last ones.
    #[inline(always)]
    fn words(&self, number: usize) -> Planes
        ensures { IsPlanes result.y result.b (64 * number + LEAD_OF_FIRST) (element_at self.now) }
    {
        match self.planes.get(number) {
            Some(planes) => *planes,
            None => Planes { y: 0, b: 0 },
        }
    }
}

impl Elements for &Reception {
    ghost list = { λ p. p.now };

    fn count(self) -> usize {
        self.count
    }

    #[inline(always)]
    fn planes_from(self, begin: usize) -> Planes {
        let here = self.words(begin / 64);
        let next = self.words(begin / 64 + 1);
        let shift = (begin % 64) as u32;
        Planes {
            y: shifted(here.y, next.y, shift),
            b: shifted(here.b, next.b, shift),
        }
    }
}

/// These 64 elements with this one at a place where one is lost.
fn with_element(here: Planes, at: u32, element: Element) -> Planes
    requires { at < 64 }
    ensures { (base : ℕ) (e f : ℕ → AnElement) → IsPlanes here.y here.b base e → e (base + at) ≡ Element.Lost
        → f (base + at) ≡ element → ((i : ℕ) → i < 64 → i ≢ at → f (base + i) ≡ e (base + i))
        → IsPlanes result.y result.b base f }
{
    match element {
        Element::Y => Planes {
            y: here.y | 1 << at,
            b: here.b,
        },
        Element::B => Planes {
            y: here.y,
            b: here.b | 1 << at,
        },
        Element::Lost => here,
    }
}

/// These signs, fewer than 64, and after them those of lost elements.
pub(crate) fn padded_signs(signs: &[u8]) -> [u8; 64]
    requires { length signs.now < 64 }
    ensures { result ≡ signs.now ++ drop (length signs.now) (replicate 64 45) }
{
    let mut block = [b'-'; 64];
    block[..signs.len()].copy_from_slice(signs);
    block
}
