//! The join of generated groups.
ghost use Rattle.std.specs.Prelude.{◌≤◌, IfOk};
ghost use Rattle.join_groups.specs.Groups.{group_facts};
ghost use Rattle.slot_join.specs.Answer.{IsAnswer};
ghost use Rattle.generated_join.specs.Generator.{generated, lines_of_group};
ghost use Rattle.generated_join.specs.Summary.{IsSummary};

use crate::alerts::alert;
use crate::hearing::{RECEPTIONS, heard};
use crate::summary::Summary;
use encode_calls::{append_signs, slots_of};
use receiver_pool::Gate;
use slot_evidence::{Reception, Sheet, shown_by};
use slot_join::{Joined, report};
use std::alloc::{AllocError, Global};

/// At most so many groups are generated.
pub const MOST_MADE: u16 = 1000;

/// The answer to a group: what each of its receptions shows is met in one sheet, as one worker of `join` has it, and
/// the answer to this is reported.
fn answer_to(alloc: Global, group: u16) -> Result<Joined, AllocError>
    requires { group ≤ MOST_MADE }
    ensures { IfOk result (IsAnswer (group_facts (lines_of_group group) group)) }
{
    let slots = slots_of(&alert(group), &None);
    let mut sent = Vec::with_capacity(alloc, 20 + 10 * slots.len())?;
    append_signs(&mut sent, &slots, false)?;
    let mut sheet = Sheet::empty();
    for receiver in 0..RECEPTIONS {
        let signs = heard(alloc, group, receiver, &slots, &sent)?;
        let reception = Reception::of_signs(alloc, &signs)?.unwrap();
        sheet.meet(&shown_by(&reception));
    }
    Ok(report(&sheet))
}

/// The summary of the join of so many generated groups, at most 1,000, by one worker, which enters the gate once,
/// before the first reception. It joins one group after another, and keeps four numbers of those that it is done with.
/// The error is want of memory.
pub fn summary_of<G: Gate>(alloc: Global, groups: u16, gate: &G) -> Result<Summary, AllocError>
    requires { groups ≤ MOST_MADE }
    ensures { IfOk result (IsSummary (generated groups)) }
{
    gate.enter(0);
    let mut summary = Summary::new();
    for group in 0..groups {
        let answer = answer_to(alloc, group)?;
        summary = summary.with(&answer);
    }
    Ok(summary)
}
