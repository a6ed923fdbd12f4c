//! Elements that are read 64 at once from any place on.
ghost use Rattle.std.specs.Prelude.{◌≡◌, ℕ, ◌+◌, ◌<◌, List, length, map, slice_index_or};
ghost use Rattle.ten_unit.specs.declared.character.Element.{Element as AnElement};
ghost use Rattle.ten_unit.specs.Signs.{element_of};
ghost use Rattle.ten_unit.specs.inside.Marks.{IsPlanes};
ghost use Rattle.phasing.specs.inside.Places.{element_at};

use crate::packed::padded_signs;
use crate::reception::LEAD_OF_FIRST;
use ten_unit::{Element, Planes, pack_elements, sign_planes};

/// These elements, fewer than 64, and lost ones after them.
fn padded(e: &[Element]) -> [Element; 64]
    requires { length e.now < 64 }
    ensures { (i : ℕ) → i < 64 → slice_index_or result i Element.Lost ≡ slice_index_or e.now i Element.Lost }
{
    let mut block = [Element::Lost; 64];
    block[..e.len()].copy_from_slice(e);
    block
}

/// The elements of these signs, fewer than 64, and lost ones after them, as bits. It is a call: a search reads signs at
/// several places, and the compiler inlines the search of a block only while that is small.
#[inline(never)]
fn last_planes(rest: &[u8]) -> Planes
    requires { length rest.now < 64 }
    ensures { (base : ℕ) (e : ℕ → AnElement) → ((i : ℕ) → i < 64
        → e (base + i) ≡ slice_index_or (map element_of rest.now) i Element.Lost) → IsPlanes result.y result.b base e }
{
    sign_planes(&padded_signs(rest))
}

/// Elements in a row that are had as bits.
pub trait Elements: Copy {
    /// The list of them.
    ghost list: { Self → List AnElement };

    /// How many they are.
    fn count(self) -> usize
        ensures { result ≡ length (list self) };

    /// The 64 elements from one on as bits, of which those past the last one are lost. Places count, as leads do, from
    /// 150 elements before the first one.
    fn planes_from(self, begin: usize) -> Planes
        ensures { IsPlanes result.y result.b (begin + LEAD_OF_FIRST) (element_at (list self)) };
}

impl Elements for &[Element] {
    ghost list = { λ e. e.now };

    fn count(self) -> usize {
        self.len()
    }

    #[inline(always)]
    fn planes_from(self, begin: usize) -> Planes {
        let rest = &self[begin.min(self.len())..];
        match rest.first_chunk::<64>() {
            Some(block) => pack_elements(block),
            None => pack_elements(&padded(rest)),
        }
    }
}

/// The elements of signs: of `Y`, of `B`, and lost ones of all other bytes (this project's profile).
impl Elements for &[u8] {
    ghost list = { λ signs. map element_of signs.now };

    fn count(self) -> usize {
        self.len()
    }

    #[inline(always)]
    fn planes_from(self, begin: usize) -> Planes {
        let rest = &self[begin.min(self.len())..];
        match rest.first_chunk::<64>() {
            Some(block) => sign_planes(block),
            None => last_planes(rest),
        }
    }
}
