//! An expansion: its three sets, of which at least one is there.
ghost use Rattle.std.specs.Prelude.{◌≡◌, ◌↔◌, IfSome, IsSome};
ghost use Rattle.expansion.specs.declared.values.Sets.{Sets};
ghost use Rattle.expansion.specs.Parts.{IsUpTo};
ghost use Rattle.expansion.specs.Expansions.{IsExpansion};

use crate::bounds::{LAST_COURSE, LAST_ENHANCEMENT, LAST_SPEED};
use crate::parts::Part;
use std::marker::Model;

/// The three sets of an expansion, whatever they say (this project's profile).
#[derive(Clone, Copy, Debug, PartialEq, Eq)]
pub struct Sets {
    /// The enhanced position: four digits of decimal minutes of latitude, and four of longitude.
    pub enhanced: Part,
    /// The speed in tenths of a knot.
    pub speed: Part,
    /// The course in tenths of a degree.
    pub course: Part,
}

/// What may follow a call: an enhanced position, a speed and a course, of which one is there at least (this project's
/// profile).
#[derive(Clone, Copy, Debug, PartialEq, Eq)]
pub struct Expansion {
    sets: Sets,
}

impl Model for Expansion {
    ghost Value = { Sets };

    ghost view = { λ expansion. expansion.sets };

    ghost invariant = { λ expansion. IsExpansion expansion.sets };

    ghost inverse = { λ sets. record { sets = sets } };
}

impl Expansion {
    /// The expansion of these sets, and `None` exactly where all three are left out, the enhanced position's digits
    /// pass 99,999,999, the speed 9,999 or the course 3,599.
    pub fn new(enhanced: Part, speed: Part, course: Part) -> Option<Expansion>
        ensures value { IfSome result (λ x. x ≡ record { enhanced = enhanced; speed = speed; course = course }) }
        ensures some { IsSome result ↔ IsExpansion (record { enhanced = enhanced; speed = speed; course = course }) }
    {
        let is_some = enhanced.is_there() || speed.is_there() || course.is_there();
        let is_in_range = enhanced.is_up_to(LAST_ENHANCEMENT)
            && speed.is_up_to(LAST_SPEED)
            && course.is_up_to(LAST_COURSE);
        if is_some && is_in_range {
            Some(Expansion {
                sets: Sets {
                    enhanced,
                    speed,
                    course,
                },
            })
        } else {
            None
        }
    }

    /// The enhanced position, in eight digits.
    pub fn enhanced(&self) -> Part
        ensures value { result ≡ self.now.enhanced }
        ensures range { IsUpTo LAST_ENHANCEMENT result }
    {
        self.sets.enhanced
    }

    /// The speed in tenths of a knot.
    pub fn speed(&self) -> Part
        ensures value { result ≡ self.now.speed }
        ensures range { IsUpTo LAST_SPEED result }
    {
        self.sets.speed
    }

    /// The course in tenths of a degree.
    pub fn course(&self) -> Part
        ensures value { result ≡ self.now.course }
        ensures range { IsUpTo LAST_COURSE result }
    {
        self.sets.course
    }

    /// The law that a set of every expansion is there and that its digits are in their ranges. It does nothing.
    pub fn lawful(&self)
        ensures { IsExpansion self.now }
    {
        let _sets = self.sets;
    }
}
