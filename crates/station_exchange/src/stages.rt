//! What the lines of a file of an exchange have come to.
ghost use Rattle.std.specs.Prelude.{◌≡◌, ◌≤◌, ◌++◌, ℕ, List, OnOk, IfOk, IfErr};
ghost use Rattle.line_engine.specs.Commands.{KeepsText};
ghost use Rattle.station_exchange.specs.Said.{Said};
ghost use Rattle.station_exchange.specs.declared.stages.Stage.TheVariants as stage;
ghost use Rattle.station_exchange.specs.inside.Progress.{IsOwnLine, IsRefusedAt, Keeps, LeadsTo, Refuses, Takes};
ghost use Rattle.station_exchange.specs.inside.Progress as progress;

use crate::steps::happen;
use call_values::bounds::LAST_BASE;
use call_values::{Band, Mmsi};
use exchange::World;
use line_engine::Refusal;
use std::alloc::Global;
use traffic_lines::{read_end_event, read_exchange_base, read_exchange_coast, read_exchange_ship};
use traffic_rules::Acts;

/// An exchange whose ends and base are named, at its events.
#[derive(Drop)]
pub(crate) struct Events {
    /// The second that moments count from.
    pub base: u64,
    pub world: World,
    /// No step was refused, and each delivery was that of a call.
    pub is_well: bool,
}

/// What the next line is to name.
#[derive(Drop)]
pub(crate) enum Stage {
    /// The ship.
    Ship,
    /// The coast station, after this ship.
    Coast { ship: Mmsi },
    /// The base, after these ends.
    Base { ship: Mmsi, coast: Mmsi, band: Band },
    /// An event.
    Events(Events),
}

impl Stage {
    /// Whether no step was refused and each delivery was that of a call.
    pub(crate) fn is_well(&self) -> bool
        ensures { result ≡ progress.is_well_at self.now }
    {
        match self {
            Stage::Ship | Stage::Coast { .. } | Stage::Base { .. } => true,
            Stage::Events(events) => events.is_well,
        }
    }
}

/// The stage after the line that names the ship.
pub(crate) fn behind_ship(line: &[u8]) -> Result<Stage, Refusal>
    requires { IsOwnLine line.now }
    ensures ok { IfOk result (λ next. LeadsTo stage.Ship line.now next) }
    ensures err { IfErr result (λ refusal. IsRefusedAt stage.Ship line.now refusal) }
    ensures unsaid { IfErr result (λ refusal. (text : List ℕ) → KeepsText refusal text text) }
{
    let ship = read_exchange_ship(line)?;
    Ok(Stage::Coast { ship })
}

/// The stage after the line that names the coast station, which comes after that of this ship.
pub(crate) fn behind_coast(ship: Mmsi, line: &[u8]) -> Result<Stage, Refusal>
    requires { IsOwnLine line.now }
    ensures ok { IfOk result (λ next. LeadsTo (stage.Coast ship) line.now next) }
    ensures err { IfErr result (λ refusal. IsRefusedAt (stage.Coast ship) line.now refusal) }
    ensures unsaid { IfErr result (λ refusal. (text : List ℕ) → KeepsText refusal text text) }
{
    let (coast, band) = read_exchange_coast(ship, line)?;
    Ok(Stage::Base { ship, coast, band })
}

/// The stage after the line that names the base, which comes after those of these ends.
pub(crate) fn behind_base(
    alloc: Global,
    ship: Mmsi,
    coast: Mmsi,
    band: Band,
    line: &[u8],
) -> Result<Stage, Refusal>
    requires { IsOwnLine line.now }
    ensures ok { IfOk result (λ next. LeadsTo (stage.Base ship coast band) line.now next) }
    ensures err { IfErr result (λ refusal. IsRefusedAt (stage.Base ship coast band) line.now refusal) }
    ensures unsaid { IfErr result (λ refusal. (text : List ℕ) → KeepsText refusal text text) }
{
    let base = read_exchange_base(line)?;
    let world = World::new(alloc, ship, coast, band);
    let is_well = true;
    Ok(Stage::Events(Events {
        base,
        world,
        is_well,
    }))
}

impl Events {
    /// Takes an event line.
    pub(crate) fn take(
        &mut self,
        acts: &mut Acts,
        line: &[u8],
        out: &mut Vec<u8>,
    ) -> Result<(), Refusal>
        requires own { IsOwnLine line.now }
        requires within { self.old.base ≤ LAST_BASE }
        ensures ok { OnOk result ((said : Said) (text : List ℕ)
            → Keeps (stage.Events self.old) said (text ++ out.old.items)
            → Takes (stage.Events self.new) said line.now (text ++ out.new.items)) }
        ensures err { IfErr result (λ refusal. IsRefusedAt (stage.Events self.old) line.now refusal) }
        ensures unsaid { IfErr result (λ refusal. KeepsText refusal out.old.items out.new.items) }
    {
        match read_end_event(line) {
            Ok(entry) => {
                self.is_well &= happen(&mut self.world, self.base, &entry, acts, out)?;
                Ok(())
            }
            Err(n) => Err(Refusal::Column(n)),
        }
    }
}
