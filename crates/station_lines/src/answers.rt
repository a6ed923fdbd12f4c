//! The lines of what a station answers to an event.
ghost use Rattle.std.specs.Prelude.{◌≡◌, ◌++◌, ◌∷◌, [], is_ok, OnOk, IfOk};
ghost use Rattle.std.specs.List.{flat_map};
ghost use Rattle.line_grammar.specs.Bytes.{line_feed};
ghost use Rattle.traffic_rules.specs.Giving.{answer_with};
ghost use Rattle.station_lines.specs.Answers.{act_line, refusal_line, answer_lines};

use crate::{append_act_text, append_refusal_text};
use arrayvec::ArrayVec;
use std::alloc::AllocError;
use traffic_rules::{Act, StationRefusal};

/// Appends a text and a line feed.
fn append_line(out: &mut Vec<u8>, text: &[u8]) -> Result<(), AllocError>
    ensures { OnOk result (out.new.items ≡ out.old.items ++ (text.now ++ line_feed ∷ [])) }
{
    out.extend_from_slice(text)?;
    out.extend_from_slice(b"\n")?;
    Ok(())
}

/// Appends the line of an act.
#[tactic(auto, unfolding(crate::specs::Answers::act_line))]
fn append_act(out: &mut Vec<u8>, at: u32, act: &Act) -> Result<(), AllocError>
    ensures { OnOk result (out.new.items ≡ out.old.items ++ act_line at act.now) }
{
    let mut text: ArrayVec<u8, 160> = ArrayVec::new();
    append_act_text(&mut text, at, act);
    append_line(out, &text)
}

/// Appends the lines of acts, each after what names the station: nothing where an output has one station.
pub fn append_acts(
    out: &mut Vec<u8>,
    station: &[u8],
    at: u32,
    acts: &[Act],
) -> Result<(), AllocError>
    ensures { OnOk result (out.new.items ≡ out.old.items ++ flat_map (λ act. station.now ++ act_line at act) acts.now) }
{
    for act in acts {
        out.extend_from_slice(station)?;
        append_act(out, at, act)?;
    }
    Ok(())
}

/// Appends the line of a refusal.
#[tactic(auto, unfolding(crate::specs::Answers::refusal_line))]
pub fn append_refusal(
    out: &mut Vec<u8>,
    at: u32,
    refusal: &StationRefusal,
) -> Result<(), AllocError>
    ensures { OnOk result (out.new.items ≡ out.old.items ++ refusal_line at refusal.now) }
{
    let mut text: ArrayVec<u8, 80> = ArrayVec::new();
    append_refusal_text(&mut text, at, refusal);
    append_line(out, &text)
}

/// Appends the lines of what a station answers, where these are the acts that it gave, and answers whether it accepted
/// the event.
pub fn append_answer(
    out: &mut Vec<u8>,
    at: u32,
    answer: &Result<(), StationRefusal>,
    acts: &[Act],
) -> Result<bool, AllocError>
    ensures lines { OnOk result (out.new.items ≡ out.old.items ++ answer_lines at (answer_with answer.now acts.now)) }
    ensures accepted { IfOk result (λ accepted. accepted ≡ is_ok (answer_with answer.now acts.now)) }
{
    match answer {
        Ok(()) => {
            append_acts(out, b"", at, acts)?;
            Ok(true)
        }
        Err(refusal) => {
            append_refusal(out, at, refusal)?;
            Ok(false)
        }
    }
}
