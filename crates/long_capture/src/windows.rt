//! The last elements of a stream, as their signs.
ghost use Rattle.std.specs.Prelude.{◌≡◌, [], ◌∷◌, ◌++◌, ◌-◌, ◌<◌, ◌≤◌, length, map, take, drop, replicate};
ghost use Rattle.ten_unit.specs.declared.character.Element.TheVariants.{Lost};
ghost use Rattle.ten_unit.specs.Signs.{element_of};

use crate::bounds::WINDOW;
use std::marker::Model;
use ten_unit::Element;

/// Elements that are held before the last ones move to the front.
const ROOM: usize = 4096;

/// The last 1,600 elements of a stream. They are kept as signs, since lines have them so: they are copied, and each is
/// made an element only where it is searched. Contracts see the list of elements.
#[derive(Drop)]
pub(crate) struct Window {
    buffer: [u8; ROOM],
    end: usize,
}

impl Model for Window {
    ghost use Rattle.std.specs.Prelude.{◌≡◌, List, ◌≤◌, ◌-◌, length, map, take, drop};
    ghost use Rattle.ten_unit.specs.declared.character.Element.{Element};
    ghost use Rattle.ten_unit.specs.Signs.{element_of};
    ghost use Rattle.long_capture.specs.declared.bounds.TheConstants.{WINDOW};
    ghost use Rattle.long_capture.specs.declared.windows.TheConstants.{ROOM};

    ghost Value = { List Element };

    ghost view = { λ w. map element_of (take WINDOW (drop (w.end - WINDOW) w.buffer)) };

    ghost invariant = { λ w. (WINDOW ≤ w.end) × (w.end ≤ ROOM) × (length w.buffer ≡ ROOM) };
}

impl Window {
    /// Lost elements alone.
    pub fn new() -> Window
        ensures { result ≡ replicate WINDOW Lost }
    {
        Window {
            buffer: [b'-'; ROOM],
            end: WINDOW,
        }
    }

    /// Puts an element after the others. The first one goes.
    #[inline(always)]
    pub fn push(&mut self, x: Element)
        ensures { self.new ≡ drop 1 self.old ++ x ∷ [] }
    {
        let end = free(&mut self.buffer, self.end);
        self.buffer[end] = sign_of(x);
        self.end = end + 1;
    }

    /// Puts a front of the elements of these signs after the others, as far as there is room before the last ones move,
    /// and answers how many they are: at least one, if there is one. As many first ones go.
    pub fn push_front(&mut self, signs: &[u8]) -> usize
        ensures front { result ≤ length signs.now }
        ensures some { 0 < length signs.now → 0 < result }
        ensures pushed { self.new ≡ drop result (self.old ++ take result (map element_of signs.now)) }
    {
        let begin = free(&mut self.buffer, self.end);
        let count = signs.len().min(ROOM - begin);
        self.end = begin + count;
        self.buffer[begin..self.end].copy_from_slice(&signs[..count]);
        count
    }

    /// The signs of the elements, in their order.
    pub fn signs(&self) -> &[u8]
        ensures elements { map element_of result.now ≡ self.now }
        ensures length { length result.now ≡ WINDOW }
    {
        &self.buffer[self.end - WINDOW..self.end]
    }
}

/// A sign of an element: `-` of a lost one (this project's profile).
fn sign_of(element: Element) -> u8
    ensures { element_of result ≡ element }
{
    match element {
        Element::Y => b'Y',
        Element::B => b'B',
        Element::Lost => b'-',
    }
}

/// Where the next element goes: at the window's end, or, where there is no room, after the last elements, which move to
/// the front.
#[inline(always)]
fn free(buffer: &mut [u8; ROOM], end: usize) -> usize
    requires low { WINDOW ≤ end }
    requires high { end ≤ ROOM }
    ensures low { WINDOW ≤ result }
    ensures high { result < ROOM }
    ensures length { length buffer.new ≡ ROOM }
    ensures same { take WINDOW (drop (result - WINDOW) buffer.new) ≡ take WINDOW (drop (end - WINDOW) buffer.old) }
{
    if end == ROOM {
        move_to_front(buffer);
        return WINDOW;
    }
    end
}

/// Moves the last 1,600 elements to the front.
#[inline(never)]
fn move_to_front(buffer: &mut [u8; ROOM])
    ensures moved { take WINDOW buffer.new ≡ drop (ROOM - WINDOW) buffer.old }
    ensures length { length buffer.new ≡ ROOM }
{
    for k in 0..WINDOW {
        buffer[k] = buffer[ROOM - WINDOW + k];
    }
}
