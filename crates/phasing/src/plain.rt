//! The search for the origin as its definition says it, lead by lead.
ghost use Rattle.std.specs.Prelude.{◌≡◌, ◌+◌, ◌<◌, ◌≤◌, length, IfSome};
ghost use Rattle.phasing.specs.Origin as sequence;

use crate::one_lead::{is_phased, rx_words};
use crate::reception::{LEAD_OF_FIRST, LONGEST};
use ten_unit::Element;

/// The lead of a reception's origin.
pub(crate) fn lead(e: &[Element]) -> Option<u32>
    requires { length e.now ≤ LONGEST }
    ensures least { result ≡ sequence.lead_of e.now }
    ensures within { IfSome result (λ lead. lead < length e.now + LEAD_OF_FIRST) }
{
    let words = rx_words();
    (0..e.len() as u32 + LEAD_OF_FIRST).find(|lead| is_phased(e, *lead, &words))
}

/// The origin of a reception.
pub(crate) fn origin(e: &[Element]) -> Option<i32>
    requires { length e.now ≤ LONGEST }
    ensures { result ≡ sequence.origin_of e.now }
{
    lead(e).map(|lead| lead as i32 - LEAD_OF_FIRST as i32)
}
