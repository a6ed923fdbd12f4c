//! Exchanges of a ship and a coast station, compared with a plain program that keeps the accepted events of both ends,
//! and goes through them from the beginning for each answer.
ghost use Rattle.std.specs.Prelude.{IsTrue};
ghost use Rattle.exchange.specs.WorldRules.{IsOwnOfShip, IsOwnOfCoast, IsFromOutside};

use crate::tests::worked::{individual, mmsi, nothing, sent, service, unplaced};
use call_values::{AlertDelay, Band, Call, CoastDelay, Comm, End, Kind, Nature, To};
use coast_station::{Coast, CoastEvent, CoastWhat};
use exchange::{Told, World, WorldEvent};
use ship_station::{Ship, ShipEvent, ShipWhat};
use std::alloc::Global;
use std::test::Fail;
use traffic_rules::{Act, StationRefusal, single};

const SHIP: u32 = 338_040_079;

const COAST: u32 = 2_241_022;

fn is_own_of_ship(what: &ShipWhat) -> bool
    ensures { IsTrue result → IsOwnOfShip what.now }
{
    match what {
        ShipWhat::Heard(_) => false,
        ShipWhat::Position(..)
        | ShipWhat::Delay(_)
        | ShipWhat::Alert(..)
        | ShipWhat::Cancel
        | ShipWhat::Tick
        | ShipWhat::Send(_)
        | ShipWhat::Answer(..) => true,
    }
}

fn is_own_of_coast(what: &CoastWhat) -> bool
    ensures { IsTrue result → IsOwnOfCoast what.now }
{
    match what {
        CoastWhat::Heard(_) => false,
        CoastWhat::Accept(..)
        | CoastWhat::Tick
        | CoastWhat::Relay(..)
        | CoastWhat::Send(_)
        | CoastWhat::Answer(..) => true,
    }
}

fn is_from_outside(event: &WorldEvent) -> bool
    ensures { IsTrue result → IsFromOutside event.now }
{
    match event {
        WorldEvent::Ship(event) => is_own_of_ship(&event.what),
        WorldEvent::Coast(event) => is_own_of_coast(&event.what),
        WorldEvent::ShipGets { .. } | WorldEvent::CoastGets { .. } => true,
    }
}

/// A step at an event that is no heard call.
fn step(world: &mut World, event: &WorldEvent) -> Result<Told, Fail> {
    if is_from_outside(event) {
        Ok(world.step(event)?)
    } else {
        Err("a heard call".into())
    }
}

fn world(alloc: Global) -> Result<World, Fail> {
    Ok(World::new(alloc, mmsi(SHIP)?, mmsi(COAST)?, Band::Mf))
}

fn at_ship(at: u64, what: ShipWhat) -> WorldEvent {
    WorldEvent::Ship(ShipEvent { at, what })
}

fn at_coast(at: u64, what: CoastWhat) -> WorldEvent {
    WorldEvent::Coast(CoastEvent { at, what })
}

fn ship_gets(at: u64, number: u32) -> WorldEvent {
    WorldEvent::ShipGets { at, number }
}

fn coast_gets(at: u64, number: u32) -> WorldEvent {
    WorldEvent::CoastGets { at, number }
}

#[test]
fn an_acknowledgement_that_comes_late_and_twice(rt: HostRuntime) -> Result<(), Fail> {
    let own = unplaced(SHIP)?;
    let delay = ShipWhat::Delay(AlertDelay::new(210_000).ok_or("delay")?);
    let accept = CoastWhat::Accept(own.mmsi, CoastDelay::new(60_000));
    let attempt = Act::Send {
        call: Call::Alert(own),
        times: 5,
    };
    let from = mmsi(COAST)?;
    let acknowledgement = Call::Ack {
        from,
        casualty: own,
    };
    let distress = Act::Distress(own);
    let back = StationRefusal::TimeBack {
        last: 67_000,
        given: 66_999,
    };
    let mut world = world(rt.alloc())?;
    let rows = [
        (at_ship(0, delay), Told::Acts(nothing())),
        (
            at_ship(0, ShipWhat::Alert(own.nature, own.comm)),
            Told::Acts(single(attempt)),
        ),
        (coast_gets(5_000, 0), Told::Acts(single(distress))),
        (coast_gets(6_000, 0), Told::Acts(single(distress))),
        (at_coast(7_000, accept), Told::Acts(nothing())),
        (at_coast(65_999, CoastWhat::Tick), Told::Acts(nothing())),
        (
            at_coast(66_000, CoastWhat::Tick),
            Told::Acts(sent(acknowledgement)),
        ),
        (ship_gets(66_000, 0), Told::Acts(single(Act::AlertEnded))),
        (ship_gets(67_000, 0), Told::Acts(nothing())),
        (ship_gets(67_000, 1), Told::Nothing(1)),
        (coast_gets(67_000, 1), Told::Nothing(1)),
        (at_ship(66_999, ShipWhat::Tick), Told::Refused(back)),
        (at_ship(67_000, ShipWhat::Tick), Told::Acts(nothing())),
    ];
    for (event, want) in rows {
        assert_eq!(rt; step(&mut world, &event)?, want, "at {event:?}");
    }
    Ok(())
}

#[test]
fn nothing_comes_where_nothing_was_sent(rt: HostRuntime) -> Result<(), Fail> {
    let mut world = world(rt.alloc())?;
    assert_eq!(rt; step(&mut world, &ship_gets(5, 1))?, Told::Nothing(1));
    assert_eq!(rt; step(&mut world, &coast_gets(5, 0))?, Told::Nothing(0));
    assert_eq!(rt;
        step(&mut world, &ship_gets(5, u32::MAX))?,
        Told::Nothing(u32::MAX)
    );
    Ok(())
}

/// An event at an end, which may be a heard call.
#[derive(Clone, Copy)]
enum AtEnd {
    Ship(ShipEvent),
    Coast(CoastEvent),
}

/// Both ends, and the calls that each sent.
#[derive(Drop)]
struct Ends {
    ship: Ship,
    coast: Coast,
    from_ship: Vec<Call>,
    from_coast: Vec<Call>,
}

/// The calls that these acts send are put last, each once.
fn add_sent(sent: &mut Vec<Call>, acts: &[Act]) -> Result<(), Fail> {
    for act in acts {
        if let Act::Send { call, .. } = act {
            sent.push(*call)?;
        }
    }
    Ok(())
}

impl Ends {
    /// Both ends after these events.
    fn after(alloc: Global, events: &[AtEnd]) -> Result<Ends, Fail> {
        let mut ends = Ends {
            ship: Ship::new(mmsi(SHIP)?, &[]),
            coast: Coast::new(mmsi(COAST)?, Band::Mf),
            from_ship: Vec::new(alloc),
            from_coast: Vec::new(alloc),
        };
        for event in events {
            ends.step(event)?;
        }
        Ok(ends)
    }

    fn step(&mut self, event: &AtEnd) -> Result<Told, Fail> {
        let mut acts = nothing();
        let done = match event {
            AtEnd::Ship(event) => self.ship.step_into(event, &mut acts),
            AtEnd::Coast(event) => self.coast.step_into(event, &mut acts),
        };
        if let Err(refusal) = done {
            return Ok(Told::Refused(refusal));
        }
        match event {
            AtEnd::Ship(_) => add_sent(&mut self.from_ship, &acts)?,
            AtEnd::Coast(_) => add_sent(&mut self.from_coast, &acts)?,
        }
        Ok(Told::Acts(acts))
    }

    /// What an event of an exchange is at its end; or what is given for a number that no sent call has.
    fn event(&self, event: &WorldEvent) -> Result<AtEnd, Told> {
        match *event {
            WorldEvent::Ship(event) => Ok(AtEnd::Ship(event)),
            WorldEvent::Coast(event) => Ok(AtEnd::Coast(event)),
            WorldEvent::ShipGets { at, number } => {
                let what = ShipWhat::Heard(call_of(&self.from_coast, number)?);
                Ok(AtEnd::Ship(ShipEvent { at, what }))
            }
            WorldEvent::CoastGets { at, number } => {
                let what = CoastWhat::Heard(call_of(&self.from_ship, number)?);
                Ok(AtEnd::Coast(CoastEvent { at, what }))
            }
        }
    }
}

fn call_of(sent: &[Call], number: u32) -> Result<Call, Told> {
    match sent.get(number as usize) {
        Some(call) => Ok(*call),
        None => Err(Told::Nothing(number)),
    }
}

/// What the event gives after those that were accepted; it joins them where it is accepted.
fn plain_step(alloc: Global, accepted: &mut Vec<AtEnd>, event: &WorldEvent) -> Result<Told, Fail> {
    let mut ends = Ends::after(alloc, accepted)?;
    let event = match ends.event(event) {
        Ok(event) => event,
        Err(told) => return Ok(told),
    };
    let told = ends.step(&event)?;
    if matches!(told, Told::Acts(_)) {
        accepted.push(event)?;
    }
    Ok(told)
}

/// What happens at the ship, by a random number.
fn ship_what(choice: u32) -> Result<ShipWhat, Fail> {
    Ok(match choice % 6 {
        0 => ShipWhat::Delay(AlertDelay::new(210_000 + choice % 60_000).ok_or("delay")?),
        1 => ShipWhat::Alert(
            Nature::new(106).ok_or("nature")?,
            Comm::new(100).ok_or("communication")?,
        ),
        2 => ShipWhat::Cancel,
        3 => ShipWhat::Send(service(COAST, SHIP, Kind::Test { reply: false })?),
        4 => ShipWhat::Answer((choice % 3) as u8, choice % 2 == 0),
        _ => ShipWhat::Tick,
    })
}

/// What happens at the coast station, by a random number.
fn coast_what(choice: u32) -> Result<CoastWhat, Fail> {
    Ok(match choice % 6 {
        0 | 1 => CoastWhat::Accept(mmsi(SHIP)?, CoastDelay::new(60_000 + choice % 100_000)),
        2 => CoastWhat::Relay(mmsi(SHIP)?, To::All, choice % 4 < 2),
        3 => CoastWhat::Send(individual(SHIP, COAST, 126, End::Ask)?),
        4 => CoastWhat::Answer((choice % 3) as u8, choice % 2 == 0),
        _ => CoastWhat::Tick,
    })
}

/// Whether a distress acknowledgement is sent.
fn is_acknowledgement(told: &Told) -> bool {
    match told {
        Told::Acts(acts) => acts.iter().any(|act| matches!(
            act,
            Act::Send {
                call: Call::Ack { .. },
                ..
            }
        )),
        _ => false,
    }
}

/// Whether what came to the ship ends its alert.
fn is_end(event: &WorldEvent, told: &Told) -> bool {
    let is_delivery = matches!(event, WorldEvent::ShipGets { .. });
    match told {
        Told::Acts(acts) => is_delivery && acts.contains(&Act::AlertEnded),
        _ => false,
    }
}

fn next(seed: u32) -> u32 {
    seed.wrapping_mul(1664525).wrapping_add(1013904223)
}

/// How each exchange begins: an alert that comes to the coast station, which accepts it.
fn opening() -> Result<[WorldEvent; 4], Fail> {
    Ok([
        at_ship(0, ship_what(0)?),
        at_ship(0, ship_what(1)?),
        coast_gets(0, 0),
        at_coast(0, coast_what(0)?),
    ])
}

/// What happens at this moment, by a random number.
fn any_event(at: u64, choice: u32) -> Result<WorldEvent, Fail> {
    let (kind, rest) = (choice / 256 % 6, choice / 1536);
    Ok(match kind {
        0 | 1 => at_ship(at, ship_what(rest)?),
        2 | 3 => at_coast(at, coast_what(rest)?),
        4 => ship_gets(at, rest % 5),
        _ => coast_gets(at, rest % 5),
    })
}

#[test]
fn random_exchanges_agree_with_a_plain_program(rt: HostRuntime) -> Result<(), Fail> {
    let opening = opening()?;
    let mut seed = 1u32;
    let (mut acknowledged, mut ended, mut refused) = (0u32, 0u32, 0u32);
    for _ in 0..100 {
        let mut world = world(rt.alloc())?;
        let mut accepted = Vec::new(rt.alloc());
        let mut at = 0u64;
        for turn in 0..40 {
            seed = next(seed);
            at = at.wrapping_add(u64::from(seed >> 17)).saturating_sub(500);
            seed = next(seed);
            let event = match opening.get(turn) {
                Some(event) => *event,
                None => any_event(at, seed)?,
            };
            let want = plain_step(rt.alloc(), &mut accepted, &event)?;
            let told = step(&mut world, &event)?;
            assert_eq!(rt; told, want, "at {event:?}");
            acknowledged = acknowledged.saturating_add(u32::from(is_acknowledgement(&told)));
            ended = ended.saturating_add(u32::from(is_end(&event, &told)));
            refused = refused.saturating_add(u32::from(matches!(told, Told::Refused(_))));
        }
    }
    let counts = [acknowledged, ended, refused];
    assert!(rt; counts.iter().all(|count| 20 < *count), "{counts:?}");
    Ok(())
}
