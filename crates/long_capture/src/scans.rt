//! The search for starts, element by element.
ghost use Rattle.std.specs.Prelude.{◌≡◌, ℕ, ◌+◌, ◌-◌, ◌<◌, ◌≤◌, ◌^◌, true, false, List, length, map, slice_index_or};
ghost use Rattle.ten_unit.specs.declared.character.Element.{Element};
ghost use Rattle.ten_unit.specs.Signs.{element_of};
ghost use Rattle.phasing.specs.Origin.{is_phased};
ghost use Rattle.phasing.specs.inside.Places.{element_at};
ghost use Rattle.long_capture.specs.Told.{AreQuiet, Tells};
ghost use Rattle.long_capture.specs.inside.Reads.{IsNextIndex, IsWindow, Looks, Reads};

use crate::bounds::{DECIDING, UNDECIDED, WINDOW};
use crate::starts::Start;
use crate::windows::Window;
use phasing::{
    FRONT_INDICES, LEAD_OF_FIRST, elements_decide, first_phased, none_past_the_end, search_front,
};
use slot_evidence::sheet_at;
use ten_unit::Element;

/// The last elements of a stream, how many it had, and how many of the next origins are known not to be phased.
#[derive(Drop)]
pub(crate) struct Scan {
    pub(crate) window: Window,
    pub(crate) seen: u64,
    pub(crate) quiet: u32,
}

impl Scan {
    /// Before the first element. The first 1,449 elements decide no origin.
    pub fn new() -> Scan
        ensures seen { result.seen ≡ 0 }
        ensures reads { (e : List Element) → Reads result e 0 }
    {
        Scan {
            window: Window::new(),
            seen: 0,
            quiet: UNDECIDED,
        }
    }

    /// Takes the next element, and answers whether the origin that it decides, 1,600 elements back, is a start.
    #[inline(always)]
    pub fn step(&mut self, x: Element) -> Option<Start>
        requires { self.old.seen < 2 ^ 62 }
        ensures seen { self.new.seen ≡ self.old.seen + 1 }
        ensures reads { (e : List Element) (n : ℕ) → Reads self.old e n → element_at e (n + LEAD_OF_FIRST) ≡ x
            → Reads self.new e (n + 1) }
        ensures tells { (e : List Element) (n : ℕ) → Reads self.old e n → element_at e (n + LEAD_OF_FIRST) ≡ x
            → Tells e (n - UNDECIDED) (n + 1 - UNDECIDED) result }
    {
        self.window.push(x);
        self.seen += 1;
        if self.quiet > 0 {
            self.quiet -= 1;
            return None;
        }
        self.look()
    }

    /// Takes a front of the next elements, of which these are signs, that decide that no origin is a start, and answers
    /// how many they are. It takes none only where there is none, or where the next one wants a search.
    pub fn skip(&mut self, signs: &[u8]) -> usize
        requires { self.old.seen + length signs.now < 2 ^ 62 }
        ensures front { result ≤ length signs.now }
        ensures seen { self.new.seen ≡ self.old.seen + result }
        ensures reads { (e : List Element) (n : ℕ) → Reads self.old e n
            → ((k : ℕ) → k < result
            → element_at e (n + LEAD_OF_FIRST + k) ≡ slice_index_or (map element_of signs.now) k Element.Lost)
            → Reads self.new e (n + result) }
        ensures quiet { (e : List Element) (n : ℕ) → Reads self.old e n → AreQuiet e (n - UNDECIDED) (n + result - UNDECIDED) }
    {
        let most = signs.len().min(self.quiet as usize);
        let count = self.window.push_front(&signs[..most]);
        self.seen += count as u64;
        self.quiet -= count as u32;
        count
    }

    /// Whether the origin at the window's first element is a start, and how many after it are no starts.
    #[inline(never)]
    fn look(&mut self) -> Option<Start>
        requires { self.old.seen < 2 ^ 63 }
        ensures window { self.new.window ≡ self.old.window }
        ensures seen { self.new.seen ≡ self.old.seen }
        ensures looks { (e : List Element) (q : ℕ) → IsWindow self.old.window e q → self.old.seen ≡ q + DECIDING
            → Looks e q result self.new.quiet }
    {
        elements_decide();
        none_past_the_end();
        let window = self.window.signs();
        let front = search_front(window);
        self.quiet = front.next - 1;
        if !front.begins {
            return None;
        }
        let next = next_index(window, front.next);
        let sheet = sheet_at(&window[..next], LEAD_OF_FIRST);
        Some(Start {
            at: self.seen as i64 - WINDOW as i64,
            sheet,
        })
    }
}

/// The window's first index after 0 that is a phased origin, by what a search of its front found. Indices from 1,440 on
/// matter to no fact.
fn next_index(window: &[u8], found: u32) -> usize
    requires long { length window.now ≡ WINDOW }
    requires from { 1 ≤ found }
    requires within { found ≤ FRONT_INDICES }
    requires phased { found < FRONT_INDICES
        → is_phased (map element_of window.now) (found + LEAD_OF_FIRST) ≡ true }
    requires none { (k : ℕ) → 1 ≤ k → k < found
        → is_phased (map element_of window.now) (k + LEAD_OF_FIRST) ≡ false }
    ensures { IsNextIndex (map element_of window.now) result }
{
    elements_decide();
    none_past_the_end();
    if found < FRONT_INDICES {
        return found as usize;
    }
    let rest = &window[FRONT_INDICES as usize..];
    (FRONT_INDICES + first_phased(rest)) as usize
}
