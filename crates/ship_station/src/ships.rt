//! A ship: what it keeps, and what it does at each event.
ghost use Rattle.std.specs.Prelude.{◌≡◌, ◌≤◌, ◌==◌, ◌&&◌, not, [], ◌∷◌, length, drop, is_some, if◌then◌else◌, Ok, OnOk, OnErr};
ghost use Rattle.std.specs.List.{list_any};
ghost use Rattle.area_rules.specs.Addressing.{is_for_ship};
ghost use Rattle.call_values.specs.Views.{sender_of};
ghost use Rattle.traffic_rules.specs.Hearing.{heard_refusal, heard_due};
ghost use Rattle.traffic_rules.specs.After.{after_hearing};
ghost use Rattle.ship_station.specs.Past.{is_attempt};
ghost use Rattle.traffic_rules.specs.declared.acts.Act.TheVariants.{AlertEnded};
ghost use Rattle.traffic_rules.specs.Rules.{listed, refusal_or};
ghost use Rattle.traffic_rules.specs.Giving.{answer_with};
ghost use Rattle.traffic_rules.specs.Stepping.{IsStep, AnswersByRules, GoesOnByRules};
ghost use Rattle.ship_station.specs.declared.events.ShipWhat.{ShipWhat as What};
ghost use Rattle.ship_station.specs.ShipRules.{attempt, at_tick, ship_rules};
ghost use Rattle.ship_station.specs.StandsFor.{StandsFor};
ghost use Rattle.ship_station.specs.inside.Handling.{AnswersEvent, GoesOn};

use crate::alerts::OwnAlert;
use crate::events::{ShipEvent, ShipWhat};
use crate::groups::OwnGroups;
use area_rules::for_ship;
use arrayvec::ArrayVec;
use call_values::{AlertDelay, Call, Casualty, Comm, HourMinute, Mmsi, Nature, Position};
use traffic_rules::{
    Act, Acts, HeldCalls, StationRefusal, answer, give, has_passed, hear, repeat, send, time_back,
};

/// How many times in a row a distress alert is sent at an attempt.
const CALLS_OF_AN_ATTEMPT: u8 = 5;

/// A ship's station, which goes from event to event.
#[derive(Drop)]
pub struct Ship {
    own: Mmsi,
    groups: OwnGroups,
    /// The moment of the last accepted event.
    last: u64,
    position: Position,
    time: HourMinute,
    /// The distress alert that is on.
    alert: Option<OwnAlert>,
    /// The moment of the last attempt.
    attempted_at: u64,
    /// The delays that are held, in milliseconds.
    delays: ArrayVec<u32, 16>,
    /// The calls that wait for an answer.
    held: HeldCalls,
}

impl Ship {
    /// A ship with its own identity and those of its groups, at most 16. It knows no position nor time, has no alert on
    /// and holds no delay, and its last moment is 0.
    pub fn new(own: Mmsi, groups: &[Mmsi]) -> Ship
        requires { length groups.now ≤ 16 }
        ensures { StandsFor result (record { own = own; groups = groups.now }) [] }
    {
        Ship {
            own,
            groups: OwnGroups::new(groups, own),
            last: 0,
            position: Position::unknown(),
            time: HourMinute::unknown(),
            alert: None,
            attempted_at: 0,
            delays: ArrayVec::new(),
            held: HeldCalls::empty(),
        }
    }

    /// Does what is due at an event (the attempts of its distress alert are those of ITU-R M.541; all else is this
    /// project's profile). The acts are at most 32; they are in a list of the caller, which is cleared first and is
    /// empty where the event is refused. Refused, in this order: an event before the last accepted one (`TimeBack`); a
    /// delay where 16 are held (`Full`); an alert where one is on (`AlertActive`) or no delay is held (`NeedsDelay`); a
    /// cancel where no alert is on (`NoAlert`); a tick where an alert is on and no delay is held (`NeedsDelay`); a call
    /// that the operator may not send (`NotSendable`); an answer to a number under which no call that was got is held
    /// (`NoSuchCall`); a sent or heard call that must be held where no number is free (`Full`).
    pub fn step_into(&mut self, event: &ShipEvent, acts: &mut Acts) -> Result<(), StationRefusal>
        ensures answers { AnswersByRules ship_rules StandsFor self.old event.now.at event.now.what (answer_with result acts.new.items) }
        ensures goes_on { GoesOnByRules ship_rules StandsFor self.old event.now.at event.now.what self.new }
        ensures none { OnErr result (acts.new.items ≡ []) }
        ensures unchanged { OnErr result (self.new ≡ self.old) }
    {
        self.take(event.at, &event.what, acts)
    }

    /// The same as `step_into`, of an event in two parts: a caller that has them makes no event of them, which would be a
    /// copy.
    pub fn take(&mut self, at: u64, what: &ShipWhat, acts: &mut Acts) -> Result<(), StationRefusal>
        ensures answers { AnswersByRules ship_rules StandsFor self.old at what.now (answer_with result acts.new.items) }
        ensures goes_on { GoesOnByRules ship_rules StandsFor self.old at what.now self.new }
        ensures none { OnErr result (acts.new.items ≡ []) }
        ensures unchanged { OnErr result (self.new ≡ self.old) }
    {
        what.lawful();
        acts.clear();
        if let Some(refusal) = time_back(self.last, at) {
            return Err(refusal);
        }
        match *what {
            ShipWhat::Position(position, time) => {
                self.keep_position(at, position, time);
                Ok(())
            }
            ShipWhat::Delay(delay) => self.keep_delay(at, delay),
            ShipWhat::Alert(nature, comm) => self.alert(at, nature, comm, acts),
            ShipWhat::Cancel => self.cancel(at, acts),
            ShipWhat::Tick => self.tick(at, acts),
            ShipWhat::Send(call) => self.send(at, &call, acts),
            ShipWhat::Answer(number, accepts) => self.answer(at, number, accepts, acts),
            ShipWhat::Heard(call) => self.hear(at, &call, acts),
        }
    }

    /// The same as `step_into`, with the acts in a list of its own.
    pub fn step(&mut self, event: &ShipEvent) -> Result<Acts, StationRefusal>
        ensures { IsStep ship_rules StandsFor self.old event.now.at event.now.what (listed result) self.new }
    {
        let mut acts = ArrayVec::new();
        self.step_into(event, &mut acts)?;
        Ok(acts)
    }

    /// Keeps a position and its time, for the attempts and answers that follow.
    fn keep_position(&mut self, at: u64, position: Position, time: HourMinute)
        ensures answer { AnswersEvent self.old at (What.Position position time) (Ok []) }
        ensures goes_on { GoesOn self.old at (What.Position position time) self.new }
    {
        self.last = at;
        self.position = position;
        self.time = time;
    }

    /// Keeps one more delay between attempts; `Full` where there is no room for it.
    fn keep_delay(&mut self, at: u64, delay: AlertDelay) -> Result<(), StationRefusal>
        ensures answer { AnswersEvent self.old at (What.Delay delay) (answer_with result []) }
        ensures goes_on { GoesOn self.old at (What.Delay delay) self.new }
        ensures unchanged { OnErr result (self.new ≡ self.old) }
    {
        if self.delays.is_full() {
            return Err(StationRefusal::Full);
        }
        self.last = at;
        self.delays.push(delay.number());
        Ok(())
    }

    /// Begins an alert, with its first attempt.
    fn alert(
        &mut self,
        at: u64,
        nature: Nature,
        comm: Comm,
        acts: &mut Acts,
    ) -> Result<(), StationRefusal>
        requires { acts.old.items ≡ [] }
        ensures answer { AnswersEvent self.old at (What.Alert nature comm) (answer_with result acts.new.items) }
        ensures goes_on { GoesOn self.old at (What.Alert nature comm) self.new }
        ensures none { OnErr result (acts.new.items ≡ []) }
        ensures unchanged { OnErr result (self.new ≡ self.old) }
    {
        if self.alert.is_some() {
            return Err(StationRefusal::AlertActive);
        }
        if self.delays.is_empty() {
            return Err(StationRefusal::NeedsDelay);
        }
        let alert = OwnAlert { nature, comm };
        self.last = at;
        self.alert = Some(alert);
        self.attempted_at = at;
        give(acts, self.attempt(&alert));
        Ok(())
    }

    /// Ends the alert by hand.
    fn cancel(&mut self, at: u64, acts: &mut Acts) -> Result<(), StationRefusal>
        requires { acts.old.items ≡ [] }
        ensures answer { AnswersEvent self.old at What.Cancel (answer_with result acts.new.items) }
        ensures goes_on { GoesOn self.old at What.Cancel self.new }
        ensures none { OnErr result (acts.new.items ≡ []) }
        ensures unchanged { OnErr result (self.new ≡ self.old) }
    {
        if self.alert.is_none() {
            return Err(StationRefusal::NoAlert);
        }
        self.last = at;
        self.alert = None;
        give(acts, Act::AlertEnded);
        Ok(())
    }

    /// Repeats the alert that is on, where its time has come, and then the held calls.
    fn tick(&mut self, at: u64, acts: &mut Acts) -> Result<(), StationRefusal>
        requires { acts.old.items ≡ [] }
        ensures answer { AnswersEvent self.old at What.Tick (answer_with result acts.new.items) }
        ensures goes_on { GoesOn self.old at What.Tick self.new }
        ensures none { OnErr result (acts.new.items ≡ []) }
        ensures unchanged { OnErr result (self.new ≡ self.old) }
    {
        if self.lacks_delay() {
            return Err(StationRefusal::NeedsDelay);
        }
        self.last = at;
        self.attempt_again(at, acts);
        repeat(&mut self.held, at, acts);
        Ok(())
    }

    /// Whether an alert is on and no delay is held.
    fn lacks_delay(&self) -> bool
        ensures { result ≡ (is_some self.now.alert && (length self.now.delays.items == 0)) }
    {
        self.alert.is_some() && self.delays.is_empty()
    }

    /// Makes an attempt of the alert that is on, where at least the first delay has passed since the last attempt.
    fn attempt_again(&mut self, at: u64, acts: &mut Acts)
        requires { acts.old.items ≡ [] }
        ensures acts { acts.new.items
            ≡ at_tick self.old.own (self.old.position, self.old.time) self.old.alert self.old.delays.items
            self.old.attempted_at at }
        ensures few { length acts.new.items ≤ 1 }
        ensures attempted { self.new.attempted_at
            ≡ if list_any is_attempt acts.new.items then at else self.old.attempted_at }
        ensures delays { self.new.delays.items
            ≡ if list_any is_attempt acts.new.items then drop 1 self.old.delays.items else self.old.delays.items }
        ensures others { self.new ≡ record self.old { attempted_at = self.new.attempted_at; delays = self.new.delays } }
    {
        let Some(alert) = self.alert else {
            return;
        };
        if self.delays.is_empty() || !has_passed(self.delays[0].into(), self.attempted_at, at) {
            return;
        }
        self.delays.remove(0);
        self.attempted_at = at;
        give(acts, self.attempt(&alert));
    }

    /// Sends a call that the operator gives.
    fn send(&mut self, at: u64, call: &Call, acts: &mut Acts) -> Result<(), StationRefusal>
        requires { acts.old.items ≡ [] }
        ensures answer { AnswersEvent self.old at (What.Send call.now) (answer_with result acts.new.items) }
        ensures goes_on { GoesOn self.old at (What.Send call.now) self.new }
        ensures none { OnErr result (acts.new.items ≡ []) }
        ensures unchanged { OnErr result (self.new ≡ self.old) }
    {
        send(&mut self.held, self.own, call, at, acts)?;
        self.last = at;
        Ok(())
    }

    /// Answers the call that was got under a number, as the operator accepts or declines it.
    fn answer(
        &mut self,
        at: u64,
        number: u8,
        accepts: bool,
        acts: &mut Acts,
    ) -> Result<(), StationRefusal>
        requires { acts.old.items ≡ [] }
        ensures answer { AnswersEvent self.old at (What.Answer number accepts) (answer_with result acts.new.items) }
        ensures goes_on { GoesOn self.old at (What.Answer number accepts) self.new }
        ensures none { OnErr result (acts.new.items ≡ []) }
        ensures unchanged { OnErr result (self.new ≡ self.old) }
    {
        answer(&mut self.held, self.own, number, accepts, acts)?;
        self.last = at;
        Ok(())
    }

    /// Does what is due at a heard call. A call that isn't for this ship changes the last moment alone.
    fn hear(&mut self, at: u64, call: &Call, acts: &mut Acts) -> Result<(), StationRefusal>
        requires { acts.old.items ≡ [] }
        ensures answer { AnswersEvent self.old at (What.Heard call.now) (answer_with result acts.new.items) }
        ensures goes_on { GoesOn self.old at (What.Heard call.now) self.new }
        ensures none { OnErr result (acts.new.items ≡ []) }
        ensures unchanged { OnErr result (self.new ≡ self.old) }
    {
        if !self.is_for_this(call) {
            self.last = at;
            return Ok(());
        }
        match *call {
            Call::Alert(casualty) => {
                self.last = at;
                give(acts, Act::Distress(casualty));
                Ok(())
            }
            Call::Ack { casualty, .. } => {
                self.last = at;
                self.hear_acknowledgement(&casualty, acts);
                Ok(())
            }
            _ => self.hear_traffic(at, call, acts),
        }
    }

    /// Whether another station sent a call that is for this ship.
    fn is_for_this(&self, call: &Call) -> bool
        ensures { result ≡ (not (sender_of call.now == self.now.own)
            && is_for_ship call.now self.now.own self.now.groups self.now.position) }
    {
        call.sender().number() != self.own.number()
            && for_ship(call, self.own, self.groups.list(), &self.position)
    }

    /// Hears a call for this ship that is neither a distress alert nor its acknowledgement.
    fn hear_traffic(&mut self, at: u64, call: &Call, acts: &mut Acts) -> Result<(), StationRefusal>
        requires { acts.old.items ≡ [] }
        ensures answer { answer_with result acts.new.items ≡ refusal_or (heard_refusal self.old.held call.now)
            (heard_due self.old.own (Some (self.old.position, self.old.time)) self.old.held call.now) }
        ensures held { OnOk result (self.new
            ≡ record self.old { last = at; held = after_hearing self.old.held call.now at }) }
        ensures none { OnErr result (acts.new.items ≡ []) }
        ensures unchanged { OnErr result (self.new ≡ self.old) }
    {
        let place = (self.position, self.time);
        hear(&mut self.held, self.own, Some(place), call, at, acts)?;
        self.last = at;
        Ok(())
    }

    /// Ends the alert that is on, where its acknowledgement names this ship.
    fn hear_acknowledgement(&mut self, casualty: &Casualty, acts: &mut Acts)
        requires { acts.old.items ≡ [] }
        ensures acts { acts.new.items ≡ if is_some self.old.alert
            && (casualty.now.mmsi == self.old.own) then AlertEnded ∷ [] else [] }
        ensures ended { self.new ≡ record self.old {
          alert = if is_some self.old.alert
              && (casualty.now.mmsi == self.old.own) then None else self.old.alert;
        } }
    {
        if self.alert.is_some() && casualty.mmsi.number() == self.own.number() {
            self.alert = None;
            give(acts, Act::AlertEnded);
        }
    }

    /// An attempt of an alert, with the position and the time that are kept.
    fn attempt(&self, alert: &OwnAlert) -> Act
        ensures { result ≡ attempt self.now.own (self.now.position, self.now.time) alert.now }
    {
        Act::Send {
            call: Call::Alert(Casualty {
                mmsi: self.own,
                nature: alert.nature,
                position: self.position,
                time: self.time,
                comm: alert.comm,
            }),
            times: CALLS_OF_AN_ATTEMPT,
        }
    }
}
