//! A whole stream through a capture, as a list: a caller of all its calls, which has the definition of the starts as
//! its contract.
ghost use Rattle.std.specs.Prelude.{◌≡◌, ◌≤◌, ◌++◌, length, option_to_list, IfOk, OnOk};
ghost use Rattle.long_capture.specs.Starts.{starts};
ghost use Rattle.long_capture.specs.Told.{AreStarts};

use crate::captures::Capture;
use crate::laws::{answers_add_up, taking_ends};
use crate::starts::Start;
use phasing::LONGEST;
use std::alloc::{AllocError, Global};
use ten_unit::Element;

/// Puts an answer's start after the others, if it has one.
fn add(list: &mut Vec<Start>, answer: Option<Start>) -> Result<(), AllocError>
    ensures { OnOk result (list.new.items ≡ list.old.items ++ option_to_list answer) }
{
    if let Some(start) = answer {
        list.push(start)?;
    }
    Ok(())
}

/// The starts of a stream.
pub(crate) fn starts_of(alloc: Global, e: &[Element]) -> Result<Vec<Start>, AllocError>
    requires { length e.now ≤ LONGEST }
    ensures { IfOk result (λ list. AreStarts e.now (starts e.now) list.items) }
{
    taking_ends();
    answers_add_up();
    let mut list = Vec::new(alloc);
    let mut capture = Capture::new();
    for x in e {
        let answer = capture.take(*x);
        add(&mut list, answer)?;
    }
    while let Some(start) = capture.finish() {
        add(&mut list, Some(start))?;
    }
    Ok(list)
}
