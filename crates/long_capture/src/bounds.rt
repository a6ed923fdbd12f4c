//! How far a capture looks ahead of an origin.
use phasing::{LEAD_OF_FIRST, PHASING_ELEMENTS};
use ten_unit::ELEMENTS;
use time_diversity::SLOTS;

/// The elements from an origin on that its facts may rest on: those of the slots of all places. So many origins after
/// the first one of a window may matter to them.
pub const SEARCHED_AHEAD: u32 = SLOTS as u32 * ELEMENTS as u32;

/// So many elements decide the origin at the first of them: its slots are among them, and a start inside of these slots
/// shows by the phasing slots.
pub const WINDOW: usize = (SEARCHED_AHEAD + PHASING_ELEMENTS) as usize;

/// Lost elements after the end that decide its last origins.
pub const TAIL: u32 = WINDOW as u32 - 1;

/// A lead is decided as soon as so many elements more than its number were taken.
pub const DECIDING: u32 = WINDOW as u32 - LEAD_OF_FIRST;

/// So many first elements decide no origin.
pub const UNDECIDED: u32 = DECIDING - 1;
