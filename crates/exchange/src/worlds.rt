//! An exchange: a ship, a coast station, and the calls that each has sent.
ghost use Rattle.std.specs.Prelude.{◌≡◌, [], IfOk, OnOk, OnErr};
ghost use Rattle.exchange.specs.WorldHistories.{WorldHistory, histories_of};
ghost use Rattle.exchange.specs.WorldRules.{Parties, IsFromOutside, answer_behind, world_continued};
ghost use Rattle.exchange.specs.StandsFor.{StandsFor, IsStill, given_of, given_with};

use crate::events::WorldEvent;
use crate::sent::MOST_SENT;
use crate::steps::{gets, step};
use crate::told::{Outcome, Told};
use call_values::{Band, Call, Mmsi};
use coast_station::Coast;
use ship_station::Ship;
use std::alloc::{AllocError, Global};
use std::marker::Model;
use traffic_rules::Acts;

/// A ship and a coast station, with the calls that each has sent. Contracts see the stations and the lists, and not how
/// much room is kept for these.
#[derive(Drop)]
pub struct World {
    ship: Ship,
    coast: Coast,
    from_ship: Vec<Call>,
    from_coast: Vec<Call>,
}

impl Model for World {
    ghost use Rattle.exchange.specs.StandsFor.{WorldParts};

    ghost Value = { WorldParts };

    ghost view = { λ world. record {
      ship = world.ship;
      coast = world.coast;
      from_ship = world.from_ship.items;
      from_coast = world.from_coast.items;
    } };
}

impl World {
    /// A ship without groups and a coast station that works in this band, before their first events. Nothing was sent.
    /// The two identities are to differ: no station hears calls of its own identity. It takes no memory.
    pub fn new(alloc: Global, ship: Mmsi, coast: Mmsi, band: Band) -> World
        ensures { StandsFor result (record {
          ship = record { own = ship; groups = [] };
          coast = record { own = coast; band = band };
        }) [] }
    {
        World {
            ship: Ship::new(ship, &[]),
            coast: Coast::new(coast, band),
            from_ship: Vec::new(alloc),
            from_coast: Vec::new(alloc),
        }
    }

    /// Does what is due at an event, which at an end isn't a heard call (this project's profile; the stations'
    /// procedures are those of ITU-R M.541). A delivery is the hearing of the call of its number out of those that the
    /// other end had sent by then, and gives `Nothing` exactly where there is none. After `Refused`, `Nothing` and want
    /// of memory the world is unchanged. Room for 32 more calls of the acting end is taken before anything else. An act
    /// puts its call into the list once, however often in a row it sends it.
    pub fn step(&mut self, event: &WorldEvent) -> Result<Told, AllocError>
        requires { IsFromOutside event.now }
        ensures answer { IfOk result (λ told. (who : Parties) (w : WorldHistory) → StandsFor self.old who w
            → given_of told ≡ answer_behind who (histories_of w) event.now) }
        ensures stands { OnOk result ((who : Parties) (w : WorldHistory) → StandsFor self.old who w
            → StandsFor self.new who (world_continued who w event.now)) }
        ensures still { IfOk result (λ told. IsStill (given_of told) → self.new ≡ self.old) }
        ensures unchanged { OnErr result (self.new ≡ self.old) }
    {
        let mut acts = Acts::new();
        Ok(match self.step_into(event, &mut acts)? {
            Outcome::Done => Told::Acts(acts),
            Outcome::Refused(refusal) => Told::Refused(refusal),
            Outcome::Nothing(number) => Told::Nothing(number),
        })
    }

    /// The same as `step`, with the acts in a list of the caller. They are there where the outcome is `Done`; after
    /// another one the list has no meaning.
    pub fn step_into(&mut self, event: &WorldEvent, acts: &mut Acts) -> Result<Outcome, AllocError>
        requires { IsFromOutside event.now }
        ensures answer { IfOk result (λ outcome. (who : Parties) (w : WorldHistory) → StandsFor self.old who w
            → given_with outcome acts.new.items ≡ answer_behind who (histories_of w) event.now) }
        ensures stands { OnOk result ((who : Parties) (w : WorldHistory) → StandsFor self.old who w
            → StandsFor self.new who (world_continued who w event.now)) }
        ensures still { IfOk result (λ outcome. IsStill (given_with outcome acts.new.items) → self.new ≡ self.old) }
        ensures unchanged { OnErr result (self.new ≡ self.old) }
    {
        match *event {
            WorldEvent::Ship(event) => {
                self.from_ship.reserve(MOST_SENT)?;
                Ok(step(
                    &mut self.ship,
                    &mut self.from_ship,
                    event.at,
                    &event.what,
                    acts,
                ))
            }
            WorldEvent::Coast(event) => {
                self.from_coast.reserve(MOST_SENT)?;
                Ok(step(
                    &mut self.coast,
                    &mut self.from_coast,
                    event.at,
                    &event.what,
                    acts,
                ))
            }
            WorldEvent::ShipGets { at, number } => {
                self.from_ship.reserve(MOST_SENT)?;
                Ok(gets(
                    &mut self.ship,
                    &mut self.from_ship,
                    &self.from_coast,
                    at,
                    number,
                    acts,
                ))
            }
            WorldEvent::CoastGets { at, number } => {
                self.from_coast.reserve(MOST_SENT)?;
                Ok(gets(
                    &mut self.coast,
                    &mut self.from_coast,
                    &self.from_ship,
                    at,
                    number,
                    acts,
                ))
            }
        }
    }
}
