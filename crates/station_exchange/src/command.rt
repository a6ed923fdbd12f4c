//! The command `exchange`.
ghost use Rattle.std.specs.Prelude.{◌≡◌, ℕ, List, [], ◌∷◌, ◌++◌, ◌≤◌, length, OnOk, IfErr};
ghost use Rattle.line_engine.specs.Lines.{Lines};
ghost use Rattle.line_engine.specs.Commands.{KeepsText};
ghost use Rattle.station_exchange.specs.Said.{Said};
ghost use Rattle.station_exchange.specs.Meaning.{exchange_meaning};
ghost use Rattle.station_exchange.specs.inside.Progress.{IsOwnLine, IsReady, IsRefusedAt, Keeps, LeadsTo, Refuses, StandsFor, Takes};
ghost use Rattle.station_exchange.specs.declared.stages.Stage.TheVariants as stage;
ghost use Rattle.station_exchange.specs.inside.Gives.{gives_text};

use crate::stages::{Stage, behind_base, behind_coast, behind_ship};
use call_values::{Band, Mmsi};
use input_lines::{Status, exchange_columns, one_exchange_line, says_nothing};
use line_engine::{Command, Refusal};
use std::alloc::{AllocError, Global};
use traffic_rules::Acts;

/// The command that plays a ship and a coast station against each other: each event is written as soon as it happens.
#[derive(Drop)]
pub struct Exchanging {
    alloc: Global,
    pub(crate) stage: Stage,
    /// What an end did at the last event; one list serves every event.
    acts: Acts,
}

impl Exchanging {
    /// The command before its first line. It is made in a frame of its own, so that the copies of it that making it
    /// takes are gone while it runs.
    #[inline(never)]
    pub fn new(alloc: Global) -> Exchanging
        ensures { StandsFor result [] [] }
    {
        Exchanging {
            alloc,
            stage: Stage::Ship,
            acts: Acts::new(),
        }
    }

    /// Takes the line that names the ship. Naming has frames of its own, since a stage is large and only three lines
    /// lead to another.
    #[inline(never)]
    fn name_ship(&mut self, line: &[u8]) -> Result<(), Refusal>
        requires own { IsOwnLine line.now }
        requires stage { self.old.stage ≡ stage.Ship }
        ensures ok { OnOk result (LeadsTo self.old.stage line.now self.new.stage) }
        ensures err { IfErr result (λ refusal. IsRefusedAt self.old.stage line.now refusal) }
        ensures unsaid { IfErr result (λ refusal. (text : List ℕ) → KeepsText refusal text text) }
    {
        self.stage = behind_ship(line)?;
        Ok(())
    }

    /// Takes the line that names the coast station.
    #[inline(never)]
    fn name_coast(&mut self, ship: Mmsi, line: &[u8]) -> Result<(), Refusal>
        requires own { IsOwnLine line.now }
        requires stage { self.old.stage ≡ stage.Coast ship }
        ensures ok { OnOk result (LeadsTo self.old.stage line.now self.new.stage) }
        ensures err { IfErr result (λ refusal. IsRefusedAt self.old.stage line.now refusal) }
        ensures unsaid { IfErr result (λ refusal. (text : List ℕ) → KeepsText refusal text text) }
    {
        self.stage = behind_coast(ship, line)?;
        Ok(())
    }

    /// Takes the line that names the base.
    #[inline(never)]
    fn name_base(&mut self, ship: Mmsi, coast: Mmsi, band: Band, line: &[u8]) -> Result<(), Refusal>
        requires own { IsOwnLine line.now }
        requires stage { self.old.stage ≡ stage.Base ship coast band }
        ensures ok { OnOk result (LeadsTo self.old.stage line.now self.new.stage) }
        ensures err { IfErr result (λ refusal. IsRefusedAt self.old.stage line.now refusal) }
        ensures unsaid { IfErr result (λ refusal. (text : List ℕ) → KeepsText refusal text text) }
    {
        self.stage = behind_base(self.alloc, ship, coast, band, line)?;
        Ok(())
    }

    /// Takes a line that says something.
    fn take_said(&mut self, line: &[u8], out: &mut Vec<u8>) -> Result<(), Refusal>
        requires own { IsOwnLine line.now }
        requires ready { IsReady self.old.stage }
        ensures ok { OnOk result ((said : Said) (text : List ℕ) → Keeps self.old.stage said (text ++ out.old.items)
            → Takes self.new.stage said line.now (text ++ out.new.items)) }
        ensures err { IfErr result (λ refusal. (said : Said) (text : List ℕ) → Keeps self.old.stage said text
            → Refuses said line.now refusal) }
        ensures unsaid { IfErr result (λ refusal. KeepsText refusal out.old.items out.new.items) }
    {
        match &mut self.stage {
            Stage::Ship => self.name_ship(line),
            Stage::Coast { ship } => {
                let ship = *ship;
                self.name_coast(ship, line)
            }
            Stage::Base { ship, coast, band } => {
                let (ship, coast, band) = (*ship, *coast, *band);
                self.name_base(ship, coast, band, line)
            }
            Stage::Events(events) => events.take(&mut self.acts, line, out),
        }
    }

    /// Takes a line.
    fn take_line(&mut self, line: &[u8], out: &mut Vec<u8>) -> Result<(), Refusal>
        requires { IsReady self.old.stage }
        ensures ok { OnOk result ((said : Said) (text : List ℕ) → Keeps self.old.stage said (text ++ out.old.items)
            → Takes self.new.stage said line.now (text ++ out.new.items)) }
        ensures err { IfErr result (λ refusal. (said : Said) (text : List ℕ) → Keeps self.old.stage said text
            → Refuses said line.now refusal) }
        ensures unsaid { IfErr result (λ refusal. KeepsText refusal out.old.items out.new.items) }
    {
        if says_nothing(line) {
            return Ok(());
        }
        exchange_columns();
        self.take_said(line, out)
    }
}

impl Command for Exchanging {
    ghost meaning = { exchange_meaning };

    ghost stands_for = { StandsFor };

    fn take(&mut self, line: &[u8], out: &mut Vec<u8>) -> Result<(), Refusal> {
        one_exchange_line();
        self.take_line(line, out)
    }

    fn finish(&mut self, _out: &mut Vec<u8>) -> Result<Status, AllocError> {
        Ok(Status::of(self.stage.is_well()))
    }

    ghost gives = { gives_text };
}
