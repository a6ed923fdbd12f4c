//! Steps of an exchange, and what is written of them.
ghost use Rattle.std.specs.Prelude.{◌≡◌, ◌≤◌, IfOk};
ghost use Rattle.exchange.specs.StandsFor.{StandsFor as WorldStandsFor};
ghost use Rattle.exchange.specs.WorldHistories.{WorldHistory};
ghost use Rattle.exchange.specs.WorldRules.{Parties, IsFromOutside};
ghost use Rattle.station_exchange.specs.Events as events;
ghost use Rattle.station_exchange.specs.Output.{end_text, moment_of};
ghost use Rattle.station_exchange.specs.inside.Happens.{Happens};

use crate::events::event_of;
use crate::telling::append_nothing;
use call_values::bounds::LAST_BASE;
use exchange::{Outcome, World, WorldEvent};
use station_lines::{append_acts, append_refusal};
use std::alloc::AllocError;
use traffic_lines::EndEvent;
use traffic_rules::Acts;

/// Does what is due at an event, appends the lines of what it gives, each after what names its end, and answers whether
/// it was accepted. One list of acts serves all events. After want of memory what was appended has no meaning.
fn step(
    world: &mut World,
    event: &WorldEvent,
    end: &[u8],
    at: u32,
    acts: &mut Acts,
    out: &mut Vec<u8>,
) -> Result<bool, AllocError>
    requires outside { IsFromOutside event.now }
    requires end { end.now ≡ end_text event.now }
    requires moment { at ≡ moment_of event.now }
    ensures { IfOk result (λ accepted. (who : Parties) (w : WorldHistory) → WorldStandsFor world.old who w
        → Happens who w event.now world.new out.old.items out.new.items accepted) }
{
    match world.step_into(event, acts)? {
        Outcome::Done => {
            append_acts(out, end, at, acts)?;
            Ok(true)
        }
        Outcome::Refused(refusal) => {
            out.extend_from_slice(end)?;
            append_refusal(out, at, &refusal)?;
            Ok(false)
        }
        Outcome::Nothing(number) => {
            out.extend_from_slice(end)?;
            append_nothing(out, at, number)?;
            Ok(false)
        }
    }
}

/// Does the same at the event of a line, where moments count from this second.
pub(crate) fn happen(
    world: &mut World,
    base: u64,
    entry: &EndEvent,
    acts: &mut Acts,
    out: &mut Vec<u8>,
) -> Result<bool, AllocError>
    requires { base ≤ LAST_BASE }
    ensures { IfOk result (λ accepted. (who : Parties) (w : WorldHistory) → WorldStandsFor world.old who w
        → Happens who w (events.event_of base entry.now) world.new out.old.items out.new.items accepted) }
{
    let event = event_of(base, entry);
    match *entry {
        EndEvent::AtShip { at, .. } => step(world, &event, b"s ", at, acts, out),
        EndEvent::AtCoast { at, .. } => step(world, &event, b"c ", at, acts, out),
    }
}
