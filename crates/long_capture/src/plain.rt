//! The starts of a stream as their definition says it, lead by lead, with which tests compare those of a capture.
ghost use Rattle.std.specs.Prelude.{◌≤◌, length};

use crate::starts::Start;
use phasing::{LAST_LEAD, LEAD_OF_FIRST, LONGEST, phased};
use slot_evidence::sheet_at;
use std::alloc::{AllocError, Global};
use ten_unit::Element;

/// Whether a lead is phased.
fn is_phased(e: &[Element], lead: u32) -> bool
    requires length { length e.now ≤ LONGEST }
    requires lead { lead ≤ LAST_LEAD }
{
    phased(e, lead as i32 - LEAD_OF_FIRST as i32)
}

/// The elements before the next start after a lead.
fn before_next(e: &[Element], lead: u32) -> &[Element]
    requires length { length e.now ≤ LONGEST }
    requires lead { lead ≤ LAST_LEAD }
    ensures { length result.now ≤ LONGEST }
{
    match (lead + 1..e.len() as u32 + LEAD_OF_FIRST).find(|lead| is_phased(e, *lead)) {
        Some(next) => &e[..next.saturating_sub(LEAD_OF_FIRST).min(e.len() as u32) as usize],
        None => e,
    }
}

/// The starts of a stream. None is below lead 40, where three phasing symbols can't be right.
pub(crate) fn starts_of(alloc: Global, e: &[Element]) -> Result<Vec<Start>, AllocError>
    requires { length e.now ≤ LONGEST }
{
    let mut list = Vec::new(alloc);
    for lead in 40..e.len() as u32 + LEAD_OF_FIRST {
        if is_phased(e, lead) {
            let sheet = sheet_at(before_next(e, lead), lead);
            let at = lead as i64 - LEAD_OF_FIRST as i64;
            list.push(Start { at, sheet })?;
        }
    }
    Ok(list)
}
