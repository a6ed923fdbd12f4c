//! The command `replay`.
ghost use Rattle.std.specs.Prelude.{◌≡◌, ◌⊎◌, ◌∷◌, ◌++◌, ◌≤◌, ℕ, List, [], length, OnOk, IfErr};
ghost use Rattle.line_engine.specs.Commands.{KeepsText};
ghost use Rattle.input_lines.specs.PointLine.{joined, traffic, IsBody};
ghost use Rattle.input_lines.specs.ReceiverLine.{ReceiverLine};
ghost use Rattle.input_lines.specs.Lines.{Says};
ghost use Rattle.slot_evidence.specs.Facts.{Facts, facts_of};
ghost use Rattle.slot_evidence.specs.Sheet.{IsEnds};
ghost use Rattle.join_groups.specs.Meanings.{BringsTooMany};
ghost use Rattle.traffic_replay.specs.Said.{Said};
ghost use Rattle.traffic_replay.specs.HeardGroups.{of_receivers};
ghost use Rattle.traffic_replay.specs.Meaning.{replay_meaning};
ghost use Rattle.traffic_lines.specs.declared.lines.Point.TheVariants as point;
ghost use Rattle.traffic_lines.specs.declared.lines.StationOwn.TheVariants as own;
ghost use Rattle.traffic_lines.specs.declared.lines.TrafficLine.TheVariants as line;
ghost use Rattle.traffic_lines.specs.Lines.{event_with};
ghost use Rattle.traffic_replay.specs.declared.stages.Stage.TheVariants as stage;
ghost use Rattle.traffic_replay.specs.inside.Progress.{AreGroups, Begins, IsBegun, Keeps, StandsFor, IsOwnLine, IsReady, IsShort, IsShown, MayBeRead, RefusesGroup, RefusesLine, TakesLine, point_at};
ghost use Rattle.traffic_replay.specs.inside.Gives.{gives_text};

use crate::stages::{Stage, behind_base};
use crate::steps::happen;
use arrayvec::ArrayVec;
use input_lines::{JoinLine, LineFault, Status, joined_line, one_point_line};
use join_groups::NamedGroups;
use line_engine::{Command, LONGEST_LINE, Refusal};
use phasing::LONGEST;
use receiver_pool::Joiner;
use slot_evidence::{Reception, Sheet};
use std::alloc::{AllocError, Global};
use traffic_lines::{
    Event, Hearing, ShipLine, ShipOwn, StationLine, read_base, read_coast_line, read_ship_event,
    read_ship_line, read_station,
};
use traffic_rules::Acts;

/// What a replay of a traffic file has come to: the station that its lines name went through the events that they gave
/// it, and wrote what it did at each.
#[derive(Drop)]
pub struct Replay {
    alloc: Global,
    pub(crate) stage: Stage,
    pub(crate) heard: NamedGroups,
    /// No event was refused, and each heard group was reported.
    pub(crate) is_well: bool,
    /// What the station did at the last event; one list serves every event.
    acts: Acts,
}

impl Replay {
    /// The replay before its first line.
    #[inline(never)]
    pub fn new(alloc: Global) -> Replay
        ensures { StandsFor result [] [] }
    {
        Replay {
            alloc,
            stage: Stage::Station,
            heard: NamedGroups::new(alloc),
            is_well: true,
            acts: ArrayVec::new(),
        }
    }

    /// Takes a line.
    fn take_line<W: Joiner>(
        &mut self,
        workers: &W,
        line: &[u8],
        out: &mut Vec<u8>,
    ) -> Result<(), Refusal>
        requires short { length line.now ≤ LONGEST_LINE }
        requires ready { IsReady self.old }
        requires joins { W.can_join workers.now }
        ensures ok { OnOk result (TakesLine self.old self.new line.now out.old.items out.new.items) }
        ensures err { IfErr result (RefusesLine self.old line.now) }
        ensures unsaid { IfErr result (λ refusal. KeepsText refusal out.old.items out.new.items) }
    {
        let joined = match joined_line(self.alloc, self.stage.point(), line) {
            Ok(joined) => joined,
            Err(LineFault::Column(n)) => return Err(Refusal::Column(n)),
            Err(LineFault::NoMemory) => return Err(Refusal::Memory),
        };
        match joined {
            Some(says) => self.take_joined(workers, says),
            None => self.take_own(workers, line, out),
        }
    }

    /// Takes a line of receivers, or one that says nothing.
    fn take_joined<W: Joiner>(&mut self, workers: &W, read: JoinLine) -> Result<(), Refusal>
        requires short { IsShort read }
        requires may { MayBeRead (point_at self.old.stage) read }
        requires ready { IsReady self.old }
        requires joins { W.can_join workers.now }
        ensures ok { OnOk result ((said : Said) (line : ReceiverLine) (text : List ℕ) → Keeps self.old said text
            → Says line read
            → (BringsTooMany (of_receivers said) line → ⊥) × Keeps self.new (joined line ∷ said) text) }
        ensures err { IfErr result (λ refusal. (refusal ≡ Refusal.Memory)
            ⊎ ((said : Said) (line : ReceiverLine) (text : List ℕ) → Keeps self.old said text
            → Says line read → (refusal ≡ Refusal.TooManyGroups) × BringsTooMany (of_receivers said) line)) }
    {
        match read {
            JoinLine::Nothing => Ok(()),
            JoinLine::Reception { group, elements } => self.hear(workers, group, elements),
            JoinLine::Evidence { group, sheet } => self.meet(group, &sheet),
        }
    }

    /// Takes in what a line showed of its group.
    fn meet(&mut self, group: u32, shown: &Sheet) -> Result<(), Refusal>
        requires ready { IsReady self.old }
        requires body { IsBody (point_at self.old.stage) }
        ensures ok { OnOk result ((said : Said) (line : ReceiverLine) (G : Facts) (text : List ℕ)
            → Keeps self.old said text → IsShown line group G → IsEnds G shown.now
            → (BringsTooMany (of_receivers said) line → ⊥) × Keeps self.new (joined line ∷ said) text) }
        ensures err { IfErr result (RefusesGroup self.old group) }
    {
        self.heard.meet(group, shown)?;
        self.stage.begin();
        Ok(())
    }

    /// Takes in what a receiver heard of its group.
    fn hear<W: Joiner>(&mut self, workers: &W, group: u32, heard: Reception) -> Result<(), Refusal>
        requires short { length heard ≤ LONGEST }
        requires ready { IsReady self.old }
        requires body { IsBody (point_at self.old.stage) }
        requires joins { W.can_join workers.now }
        ensures ok { OnOk result ((said : Said) (line : ReceiverLine) (text : List ℕ) → Keeps self.old said text
            → IsShown line group (facts_of heard)
            → (BringsTooMany (of_receivers said) line → ⊥) × Keeps self.new (joined line ∷ said) text) }
        ensures err { IfErr result (RefusesGroup self.old group) }
    {
        self.heard.hear(workers, group, heard)?;
        self.stage.begin();
        Ok(())
    }

    /// Takes the line that names the station.
    fn take_station(&mut self, line: &[u8]) -> Result<(), Refusal>
        requires stage { self.old.stage ≡ stage.Station }
        requires own { IsOwnLine (point_at self.old.stage) line.now }
        ensures ok { OnOk result (Begins self.old self.new line.now) }
        ensures err { IfErr result (RefusesLine self.old line.now) }
        ensures unsaid { IfErr result (λ refusal. (text : List ℕ) → KeepsText refusal text text) }
    {
        let named = read_station(line)?;
        self.stage = Stage::Base(named);
        Ok(())
    }

    /// Takes the line of the base, after that of this station.
    fn take_base(&mut self, named: StationLine, line: &[u8]) -> Result<(), Refusal>
        requires stage { self.old.stage ≡ stage.Base named }
        requires own { IsOwnLine (point_at self.old.stage) line.now }
        ensures ok { OnOk result (Begins self.old self.new line.now) }
        ensures err { IfErr result (RefusesLine self.old line.now) }
        ensures unsaid { IfErr result (λ refusal. (text : List ℕ) → KeepsText refusal text text) }
    {
        let base = read_base(line)?;
        self.stage = behind_base(self.alloc, named, base);
        Ok(())
    }

    /// Takes a line of the station.
    fn take_own<W: Joiner>(
        &mut self,
        workers: &W,
        line: &[u8],
        out: &mut Vec<u8>,
    ) -> Result<(), Refusal>
        requires ready { IsReady self.old }
        requires joins { W.can_join workers.now }
        requires own { IsOwnLine (point_at self.old.stage) line.now }
        ensures ok { OnOk result (TakesLine self.old self.new line.now out.old.items out.new.items) }
        ensures err { IfErr result (RefusesLine self.old line.now) }
        ensures unsaid { IfErr result (λ refusal. KeepsText refusal out.old.items out.new.items) }
    {
        match &self.stage {
            Stage::Station => self.take_station(line),
            Stage::Base(named) => {
                let named = *named;
                self.take_base(named, line)
            }
            Stage::Groups(_) => self.take_among_groups(workers, line, out),
            Stage::Ship { .. } => self.take_of_ship(workers, line, out),
            Stage::Coast(_) => self.take_of_coast(workers, line, out),
        }
    }

    /// Takes a line of a ship whose groups are being named: no line after them pays for what this holds.
    #[inline(never)]
    fn take_among_groups<W: Joiner>(
        &mut self,
        workers: &W,
        line: &[u8],
        out: &mut Vec<u8>,
    ) -> Result<(), Refusal>
        requires ready { IsReady self.old }
        requires groups { AreGroups self.old.stage }
        requires joins { W.can_join workers.now }
        requires own { IsOwnLine (point_at self.old.stage) line.now }
        ensures ok { OnOk result (TakesLine self.old self.new line.now out.old.items out.new.items) }
        ensures err { IfErr result (RefusesLine self.old line.now) }
        ensures unsaid { IfErr result (λ refusal. KeepsText refusal out.old.items out.new.items) }
    {
        let Stage::Groups(groups) = &mut self.stage else {
            unreachable!();
        };
        let says = match read_ship_line(Some(groups.held()), line) {
            Ok(says) => says,
            Err(n) => return Err(Refusal::Column(n)),
        };
        match says {
            ShipLine::Group(mmsi) => groups.name(mmsi)?,
            ShipLine::Event { at, what } => {
                self.stage.begin();
                self.take_at_ship(workers, at, &what, out)?;
            }
        }
        Ok(())
    }

    /// Takes a line of a ship that was begun. The event is taken where it was read, without a copy.
    fn take_of_ship<W: Joiner>(
        &mut self,
        workers: &W,
        line: &[u8],
        out: &mut Vec<u8>,
    ) -> Result<(), Refusal>
        requires ready { IsReady self.old }
        requires ship { point_at self.old.stage ≡ point.Ship }
        requires joins { W.can_join workers.now }
        requires own { IsOwnLine (point_at self.old.stage) line.now }
        ensures ok { OnOk result (TakesLine self.old self.new line.now out.old.items out.new.items) }
        ensures err { IfErr result (RefusesLine self.old line.now) }
        ensures unsaid { IfErr result (λ refusal. KeepsText refusal out.old.items out.new.items) }
    {
        let read = read_ship_event(line);
        let says = match &read {
            Ok(says) => says,
            Err(n) => return Err(Refusal::Column(*n)),
        };
        self.take_at_ship(workers, says.0, &says.1, out)?;
        Ok(())
    }

    /// Takes a line of a coast station. The event is taken where it was read, without a copy.
    fn take_of_coast<W: Joiner>(
        &mut self,
        workers: &W,
        line: &[u8],
        out: &mut Vec<u8>,
    ) -> Result<(), Refusal>
        requires ready { IsReady self.old }
        requires coast { point_at self.old.stage ≡ point.Coast }
        requires joins { W.can_join workers.now }
        requires own { IsOwnLine (point_at self.old.stage) line.now }
        ensures ok { OnOk result (TakesLine self.old self.new line.now out.old.items out.new.items) }
        ensures err { IfErr result (RefusesLine self.old line.now) }
        ensures unsaid { IfErr result (λ refusal. KeepsText refusal out.old.items out.new.items) }
    {
        let Stage::Coast(coast) = &mut self.stage else {
            unreachable!();
        };
        let read = read_coast_line(line);
        let says = match &read {
            Ok(says) => says,
            Err(n) => return Err(Refusal::Column(*n)),
        };
        let heard = &mut self.heard;
        let acts = &mut self.acts;
        self.is_well &= happen(coast, heard, workers, 0, says.0, &says.1, acts, out)?;
        Ok(())
    }

    /// Takes an event of a ship that was begun.
    fn take_at_ship<W: Joiner>(
        &mut self,
        workers: &W,
        at: u32,
        what: &Event<ShipOwn, Hearing>,
        out: &mut Vec<u8>,
    ) -> Result<(), AllocError>
        requires ready { IsReady self.old }
        requires ship { point_at self.old.stage ≡ point.Ship }
        requires joins { W.can_join workers.now }
        ensures { OnOk result ((said : Said) (text : List ℕ) → IsBegun self.old said (text ++ out.old.items)
            → Keeps self.new (traffic (line.Event at (event_with own.Ship what.now)) ∷ said) (text ++ out.new.items)) }
    {
        let Stage::Ship { base, ship } = &mut self.stage else {
            unreachable!();
        };
        let heard = &mut self.heard;
        let acts = &mut self.acts;
        self.is_well &= happen(ship, heard, workers, *base, at, what, acts, out)?;
        Ok(())
    }
}

/// The command that replays a traffic file. Workers join the receptions of its groups.
#[derive(Drop)]
pub struct Replaying<W: Joiner> {
    workers: W,
    replay: Replay,
}

impl<W: Joiner> Replaying<W> {
    /// The command before its first line. It is made in a frame of its own, so that the copies of it that making it
    /// takes are gone while it runs.
    #[inline(never)]
    pub fn new(alloc: Global, workers: W) -> Replaying<W>
        ensures replay { StandsFor result.replay [] [] }
        ensures workers { result.workers ≡ workers }
    {
        Replaying {
            workers,
            replay: Replay::new(alloc),
        }
    }
}

impl<W: Joiner> Command for Replaying<W> {
    ghost meaning = { replay_meaning };

    ghost stands_for = { λ command lines text. W.can_join command.workers × StandsFor command.replay lines text };

    fn take(&mut self, line: &[u8], out: &mut Vec<u8>) -> Result<(), Refusal> {
        one_point_line();
        self.replay.take_line(&self.workers, line, out)
    }

    fn finish(&mut self, _out: &mut Vec<u8>) -> Result<Status, AllocError> {
        Ok(Status::of(self.replay.is_well))
    }

    ghost gives = { λ command lines text stands. gives_text command.replay lines text stands.1 };
}
