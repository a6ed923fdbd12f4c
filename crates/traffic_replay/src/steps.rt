//! What happens at an event line of a traffic file.
ghost use Rattle.std.specs.Prelude.{◌≡◌, ◌<◌, ◌≤◌, ◌∷◌, ◌++◌, false, is_ok, length, OnOk, IfOk};
ghost use Rattle.traffic_rules.specs.Histories.{History};
ghost use Rattle.traffic_rules.specs.Rules.{answer_to, continued};
ghost use Rattle.traffic_lines.specs.declared.lines.TrafficLine.TheVariants as line;
ghost use Rattle.traffic_lines.specs.Lines.{event_with};
ghost use Rattle.traffic_lines.specs.declared.lines.StationOwn.{StationOwn};
ghost use Rattle.input_lines.specs.PointLine.{traffic};
ghost use Rattle.join_groups.specs.Holds.{HoldsSome};
ghost use Rattle.traffic_replay.specs.Said.{Said, base_of};
ghost use Rattle.traffic_replay.specs.Happenings.{Taking};
ghost use Rattle.station_lines.specs.Answers.{answer_lines};
ghost use Rattle.traffic_replay.specs.Output.{unreported_line};
ghost use Rattle.traffic_replay.specs.inside.Happens.{Takes, Happens};
ghost use Rattle.traffic_replay.specs.inside.Kept.{KeepsGroups};

use crate::heard::hear;
use crate::outcomes::{Unreported, heard_call};
use call_texts::put_answer_line;
use call_values::bounds::LAST_BASE;
use itoa::Buffer;
use join_groups::{MOST_IN_BATCH, NamedGroups};
use receiver_pool::Joiner;
use station_lines::{OfLines, append_answer};
use stations::Station;
use std::alloc::AllocError;
use traffic_lines::{Event, Hearing};
use traffic_rules::Acts;

/// Appends the line of a heard group that isn't reported, and answers that no event was accepted.
#[tactic(auto, unfolding(crate::specs::Output::unreported_line))]
fn append_unreported(
    out: &mut Vec<u8>,
    at: u32,
    unreported: &Unreported,
) -> Result<bool, AllocError>
    ensures line { OnOk result (out.new.items ≡ out.old.items ++ unreported_line at unreported.now) }
    ensures accepted { IfOk result (λ accepted. accepted ≡ false) }
{
    let mut moment = Buffer::new();
    out.extend_from_slice(moment.format(at).as_bytes())?;
    out.extend_from_slice(b" ")?;
    out.extend_from_slice(&put_answer_line(unreported.group, &unreported.answer))?;
    Ok(false)
}

/// Gives a station an event, appends the lines of what it answers, and answers whether it accepted the event.
fn step<S: Station>(
    station: &mut S,
    at: u32,
    what: &S::What,
    acts: &mut Acts,
    out: &mut Vec<u8>,
) -> Result<bool, AllocError>
    ensures stands { OnOk result ((who : S.Who) (h : History S.What) → S.stands station.old who h
        → S.stands station.new who (continued (S.rules who) h at what.now)) }
    ensures lines { OnOk result ((who : S.Who) (h : History S.What) → S.stands station.old who h
        → out.new.items ≡ out.old.items ++ answer_lines at (answer_to (S.rules who) h at what.now)) }
    ensures accepted { IfOk result (λ accepted. (who : S.Who) (h : History S.What) → S.stands station.old who h
        → accepted ≡ is_ok (answer_to (S.rules who) h at what.now)) }
{
    let answer = station.happen(u64::from(at), what, acts);
    let accepted = append_answer(out, at, &answer, acts)?;
    Ok(accepted)
}

/// Goes through what happens at the event of a line, where moments count from the second `base` (at a coast station
/// from any: nothing that it does has a time of day): appends what is written of it, and answers whether an event was
/// accepted.
pub(crate) fn happen<S: OfLines, W: Joiner>(
    station: &mut S,
    groups: &mut NamedGroups,
    workers: &W,
    base: u64,
    at: u32,
    what: &Event<S::Own, Hearing>,
    acts: &mut Acts,
    out: &mut Vec<u8>,
) -> Result<bool, AllocError>
    requires base { base ≤ LAST_BASE }
    requires heard { HoldsSome groups.old }
    requires joins { W.can_join workers.now }
    ensures kept { OnOk result ((said : Said) (own : S.Own → StationOwn) → KeepsGroups groups.old said
        → KeepsGroups groups.new (traffic (line.Event at (event_with own what.now)) ∷ said)) }
    ensures few { OnOk result (length groups.old.batch.items < MOST_IN_BATCH
        → length groups.new.batch.items < MOST_IN_BATCH) }
    ensures happens { IfOk result (λ accepted. (said : Said) (taking : Taking S.What) (own : S.Own → StationOwn) (who : S.Who)
        (h : History S.What) → Takes taking own (S.does base) S.hears (base_of said)
        → KeepsGroups groups.old said → S.stands station.old who h
        → Happens (S.rules who) taking (S.stands station.new who) h said at (event_with own what.now) out.old.items out.new.items
        accepted) }
{
    match what {
        Event::Does(deed) => step(station, at, &S::deed(base, at, deed), acts, out),
        Event::Comes(hearing) => match hearing {
            Hearing::Hear(call, _expansion) => step(station, at, &S::heard(*call), acts, out),
            Hearing::Heard(group) => {
                let answer = hear(groups, workers, *group)?;
                match heard_call(*group, &answer) {
                    Ok(call) => step(station, at, &S::heard(call), acts, out),
                    Err(unreported) => append_unreported(out, at, &unreported),
                }
            }
        },
    }
}
