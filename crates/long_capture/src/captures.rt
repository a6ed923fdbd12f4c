//! A capture: it takes a long stream element by element, and answers its starts.
ghost use Rattle.std.specs.Prelude.{◌+◌, ◌≤◌, ◌^◌};
ghost use Rattle.long_capture.specs.declared.bounds.TheConstants.{TAIL};

use crate::bounds::TAIL;
use crate::scans::Scan;
use crate::starts::Start;
use phasing::LEAD_OF_FIRST;
use ten_unit::{Element, element_of};

/// The starts of a long stream, element by element. It holds a fixed number of elements and takes no memory.
#[derive(Drop)]
pub struct Capture {
    scan: Scan,
    lost: u32,
    ghost few: { scan.seen ≤ 2 ^ 40 + lost },
    ghost most: { lost ≤ TAIL },
}

/// What `take_signs` took: how many elements, and the start that the last of them decides, if there is one.
#[derive(Clone, Copy, Debug, PartialEq, Eq)]
pub struct Taken {
    pub count: usize,
    pub start: Option<Start>,
}

impl Capture {
    ghost use Rattle.std.specs.Prelude.{◌≡◌, [], ◌∷◌, ◌++◌, ◌<◌, ◌≤◌, ◌^◌, List, length, map, take, IsSome, IsNone};
    ghost use Rattle.ten_unit.specs.declared.character.Element.{Element};
    ghost use Rattle.ten_unit.specs.Signs.{element_of};
    ghost use Rattle.long_capture.specs.Captures.{taken, reached, left, IsOpen, StandsFor, Ending};
    ghost use Rattle.long_capture.specs.Told.{Tells};

    /// It stands for the empty stream and has decided nothing.
    pub fn new() -> Capture
        ensures stands { StandsFor result [] }
    {
        Capture {
            scan: Scan::new(),
            lost: 0,
        }
    }

    /// Takes the next element of the stream. With N elements taken it decides the origin N - 1600, where that is at
    /// least -150, and answers the start there, if the origin is phased. It may be called up to 2^40 times, and not
    /// after `finish`.
    ///
    /// An element mostly costs a store and a count: 64 origins are searched at once, and only where the last search
    /// ended.
    pub fn take(&mut self, x: Element) -> Option<Start>
        requires few { taken self.old < 2 ^ 40 }
        requires going { IsOpen self.old }
        ensures stands { (e : List Element) → StandsFor self.old e → StandsFor self.new (e ++ x ∷ []) }
        ensures tells { (e more : List Element) → StandsFor self.old e
            → Tells (e ++ x ∷ more) (reached self.old) (reached self.new) result }
    {
        self.scan.step(x)
    }

    /// Takes a front of the next elements, of which these are signs (`Y`, `B`, and any other byte for a lost one), at
    /// least one if there is one: as many as decide that no origin is a start, in one copy, or the one that wants a
    /// search. It is as if `take` had taken them one by one, and only the last of them can decide a start.
    pub fn take_signs(&mut self, signs: &[u8]) -> Taken
        requires few { taken self.old + length signs.now ≤ 2 ^ 40 }
        requires going { IsOpen self.old }
        ensures front { result.count ≤ length signs.now }
        ensures some { 0 < length signs.now → 0 < result.count }
        ensures stands { (e : List Element) → StandsFor self.old e
            → StandsFor self.new (e ++ take result.count (map element_of signs.now)) }
        ensures tells { (e more : List Element) → StandsFor self.old e
            → Tells (e ++ (take result.count (map element_of signs.now) ++ more)) (reached self.old) (reached self.new)
            result.start }
    {
        let count = self.scan.skip(signs);
        if count > 0 {
            return Taken { count, start: None };
        }
        match signs.first() {
            Some(sign) => Taken {
                count: 1,
                start: self.scan.step(element_of(*sign)),
            },
            None => Taken { count, start: None },
        }
    }

    /// Answers the next start of the whole stream after the last origin that was decided, and decides it and all before
    /// it. `None` comes exactly where there is no further one.
    pub fn finish(&mut self) -> Option<Start>
        ensures ending { (e : List Element) → Ending self.old e → Ending self.new e }
        ensures tells { (e : List Element) → Ending self.old e → Tells e (reached self.old) (reached self.new) result }
        ensures none { (e : List Element) → Ending self.old e → IsNone result → reached self.new ≡ length e + LEAD_OF_FIRST }
        ensures some { IsSome result → left self.new < left self.old }
    {
        while self.lost < TAIL {
            self.lost += 1;
            let start = self.scan.step(Element::Lost);
            if start.is_some() {
                return start;
            }
        }
        None
    }
}
