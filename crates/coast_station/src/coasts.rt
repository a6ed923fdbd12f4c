//! A coast station: what it keeps, and what it does at each event.
ghost use Rattle.std.specs.Prelude.{◌≡◌, true, [], Ok, OnOk, OnErr};
ghost use Rattle.traffic_rules.specs.Rules.{listed};
ghost use Rattle.traffic_rules.specs.Giving.{answer_with};
ghost use Rattle.traffic_rules.specs.Stepping.{IsStep, AnswersByRules, GoesOnByRules};
ghost use Rattle.call_values.specs.declared.calls.Call.TheVariants as form;
ghost use Rattle.coast_station.specs.declared.events.CoastWhat.{CoastWhat as What};
ghost use Rattle.coast_station.specs.Accepting as accepting;
ghost use Rattle.coast_station.specs.CoastRules as rules;
ghost use Rattle.coast_station.specs.CoastRules.{coast_rules};
ghost use Rattle.coast_station.specs.StandsFor.{StandsFor};
ghost use Rattle.coast_station.specs.inside.Afterwards.{answer_by, afterwards};

use crate::casualties::{Casualties, OpenCasualty, acknowledgement};
use crate::events::{CoastEvent, CoastWhat};
use area_rules::for_coast;
use arrayvec::ArrayVec;
use call_values::{Band, Call, Casualty, CoastDelay, Mmsi, To};
use traffic_rules::{
    Act, Acts, HeldCalls, StationRefusal, answer, give, hear, repeat, send, time_back,
};

/// A coast station, which goes from event to event.
#[derive(Drop)]
pub struct Coast {
    own: Mmsi,
    band: Band,
    casualties: Casualties,
    held: HeldCalls,
    /// The moment of the last accepted event.
    last: u64,
}

impl Coast {
    /// A coast station with its identity, which works in this band. It knows of no casualty and holds no call, and its
    /// last moment is 0.
    pub fn new(own: Mmsi, band: Band) -> Coast
        ensures { StandsFor result (record { own = own; band = band }) [] }
    {
        Coast {
            own,
            band,
            casualties: Casualties::none(),
            held: HeldCalls::empty(),
            last: 0,
        }
    }

    /// Does what is due at an event (when an alert is acknowledged is ITU-R M.541's; all else is this project's
    /// profile). The acts are at most 32; they are in a list of the caller, which is cleared first and is empty where
    /// the event is refused. Refused, in this order: an event before the last accepted one (`TimeBack`); accepting or
    /// relaying an alert of a ship of which no casualty is open (`NoCasualty`); accepting on MF or HF without a delay
    /// (`NeedsDelay`); a call that the operator may not send (`NotSendable`); an answer to a number under which no call
    /// that was got is held (`NoSuchCall`); what would begin a seventeenth casualty or held call (`Full`).
    pub fn step_into(&mut self, event: &CoastEvent, acts: &mut Acts) -> Result<(), StationRefusal>
        ensures answers { AnswersByRules coast_rules StandsFor self.old event.now.at event.now.what (answer_with result acts.new.items) }
        ensures goes_on { GoesOnByRules coast_rules StandsFor self.old event.now.at event.now.what self.new }
        ensures none { OnErr result (acts.new.items ≡ []) }
        ensures unchanged { OnErr result (self.new ≡ self.old) }
    {
        let at = event.at;
        self.take(at, &event.what, acts)
    }

    /// The same as `step_into`, with the acts in a list of its own.
    pub fn step(&mut self, event: &CoastEvent) -> Result<Acts, StationRefusal>
        ensures { IsStep coast_rules StandsFor self.old event.now.at event.now.what (listed result) self.new }
    {
        let mut acts = ArrayVec::new();
        self.step_into(event, &mut acts)?;
        Ok(acts)
    }

    /// The same as `step_into`, of an event in two parts: a caller that has them makes no event of them, which would be a
    /// copy.
    pub fn take(&mut self, at: u64, what: &CoastWhat, acts: &mut Acts) -> Result<(), StationRefusal>
        ensures answers { AnswersByRules coast_rules StandsFor self.old at what.now (answer_with result acts.new.items) }
        ensures goes_on { GoesOnByRules coast_rules StandsFor self.old at what.now self.new }
        ensures none { OnErr result (acts.new.items ≡ []) }
        ensures unchanged { OnErr result (self.new ≡ self.old) }
    {
        match time_back(self.last, at) {
            Some(refusal) => {
                acts.clear();
                Err(refusal)
            }
            None => {
                acts.clear();
                what.lawful();
                self.handle(at, what, acts)
            }
        }
    }

    /// Does what is due at an event that isn't before the last accepted one.
    fn handle(&mut self, at: u64, what: &CoastWhat, acts: &mut Acts) -> Result<(), StationRefusal>
        requires { acts.old.items ≡ [] }
        ensures answer { answer_with result acts.new.items ≡ answer_by self.old at what.now }
        ensures after { OnOk result (self.new ≡ record (afterwards self.old at what.now) { last = at }) }
        ensures none { OnErr result (acts.new.items ≡ []) }
        ensures unchanged { OnErr result (self.new ≡ self.old) }
    {
        match *what {
            CoastWhat::Accept(mmsi, delay) => self.accept(at, mmsi, delay, acts)?,
            CoastWhat::Tick => self.tick(at, acts),
            CoastWhat::Relay(mmsi, to, ask) => {
                let Some(told) = self.casualties.find(mmsi) else {
                    return Err(StationRefusal::NoCasualty(mmsi));
                };
                let relay = relay(self.own, to, &told.alert, ask);
                send(&mut self.held, self.own, &relay, at, acts)?;
            }
            CoastWhat::Send(call) => send(&mut self.held, self.own, &call, at, acts)?,
            CoastWhat::Answer(number, accepts) => {
                answer(&mut self.held, self.own, number, accepts, acts)?;
            }
            CoastWhat::Heard(call) => self.hear(at, &call, acts)?,
        }
        self.last = at;
        Ok(())
    }

    /// Accepts the alert of a ship, and acknowledges it where that is due at once.
    fn accept(
        &mut self,
        at: u64,
        mmsi: Mmsi,
        delay: Option<CoastDelay>,
        acts: &mut Acts,
    ) -> Result<(), StationRefusal>
        requires { acts.old.items ≡ [] }
        ensures answer { answer_with result acts.new.items ≡ answer_by self.old at (What.Accept mmsi delay) }
        ensures after { OnOk result (self.new ≡ afterwards self.old at (What.Accept mmsi delay)) }
        ensures none { OnErr result (acts.new.items ≡ []) }
        ensures unchanged { OnErr result (self.new ≡ self.old) }
    {
        let Some(casualty) = self.casualties.find(mmsi) else {
            return Err(StationRefusal::NoCasualty(mmsi));
        };
        if waits(self.band) && delay.is_none() {
            return Err(StationRefusal::NeedsDelay);
        }
        if casualty.delay.is_some() {
            return Ok(());
        }
        let accepted = OpenCasualty { delay, ..casualty };
        if is_due_at_once(self.band, &accepted, at) {
            self.casualties.close(mmsi);
            give(acts, acknowledgement(self.own, &accepted.alert));
            return Ok(());
        }
        self.casualties.replace(&accepted);
        Ok(())
    }

    /// Acknowledges the alerts whose delay has passed, and then sends held calls again or gives them up.
    fn tick(&mut self, at: u64, acts: &mut Acts)
        requires { acts.old.items ≡ [] }
        ensures answer { Ok acts.new.items ≡ answer_by self.old at What.Tick }
        ensures after { self.new ≡ afterwards self.old at What.Tick }
    {
        self.casualties.acknowledge_due(self.own, at, acts);
        repeat(&mut self.held, at, acts);
    }

    /// Hears a call, which is for the station where another station sent it and it reaches this one.
    fn hear(&mut self, at: u64, call: &Call, acts: &mut Acts) -> Result<(), StationRefusal>
        requires { acts.old.items ≡ [] }
        ensures answer { answer_with result acts.new.items ≡ answer_by self.old at (What.Heard call.now) }
        ensures after { OnOk result (self.new ≡ afterwards self.old at (What.Heard call.now)) }
        ensures none { OnErr result (acts.new.items ≡ []) }
        ensures unchanged { OnErr result (self.new ≡ self.old) }
    {
        if !is_for(self.own, call) {
            return Ok(());
        }
        match *call {
            Call::Alert(alert) => self.hear_alert(at, &alert, acts),
            Call::Ack { from, casualty } => {
                self.hear_acknowledgement(at, from, &casualty, acts);
                Ok(())
            }
            _ => {
                hear(&mut self.held, self.own, None, call, at, acts)?;
                Ok(())
            }
        }
    }

    /// Hears the alert of another station, which is for this one.
    fn hear_alert(
        &mut self,
        at: u64,
        alert: &Casualty,
        acts: &mut Acts,
    ) -> Result<(), StationRefusal>
        requires reaches { rules.is_for self.old.own (form.Alert alert.now) ≡ true }
        requires empty { acts.old.items ≡ [] }
        ensures answer { answer_with result acts.new.items ≡ answer_by self.old at (What.Heard (form.Alert alert.now)) }
        ensures after { OnOk result (self.new ≡ afterwards self.old at (What.Heard (form.Alert alert.now))) }
        ensures none { OnErr result (acts.new.items ≡ []) }
        ensures unchanged { OnErr result (self.new ≡ self.old) }
    {
        self.casualties.note(alert, at)?;
        give(acts, Act::Distress(*alert));
        Ok(())
    }

    /// Hears that another station has acknowledged the alert of a ship: its casualty is closed.
    fn hear_acknowledgement(&mut self, at: u64, from: Mmsi, casualty: &Casualty, acts: &mut Acts)
        requires reaches { rules.is_for self.old.own (form.Ack from casualty.now) ≡ true }
        requires empty { acts.old.items ≡ [] }
        ensures answer { Ok acts.new.items ≡ answer_by self.old at (What.Heard (form.Ack from casualty.now)) }
        ensures after { self.new ≡ afterwards self.old at (What.Heard (form.Ack from casualty.now)) }
    {
        match self.casualties.find(casualty.mmsi) {
            Some(_) => {
                self.casualties.close(casualty.mmsi);
                give(acts, Act::CasualtyClosed(casualty.mmsi));
            }
            None => {}
        }
    }
}

/// Whether an acknowledgement waits for a delay: on MF and HF (ITU-R M.541, acknowledgement by coast stations).
fn waits(band: Band) -> bool
    ensures { result ≡ accepting.waits band }
{
    match band {
        Band::Mf | Band::Hf => true,
        Band::Vhf => false,
    }
}

/// Whether a casualty is acknowledged as it is accepted: on VHF, or where its delay has passed since its alert.
fn is_due_at_once(band: Band, accepted: &OpenCasualty, at: u64) -> bool
    ensures { result ≡ accepting.is_due_at_once band at accepted.now.delay accepted.now }
{
    !waits(band) || accepted.is_due(at)
}

/// Whether a call is for this station: another station sent it, and it reaches this one.
fn is_for(own: Mmsi, call: &Call) -> bool
    ensures { result ≡ rules.is_for own call.now }
{
    call.sender().number() != own.number() && for_coast(call, own)
}

/// A relay of the alert of a ship (ITU-R M.493, distress relay).
fn relay(own: Mmsi, to: To, alert: &Casualty, ask: bool) -> Call
    ensures { result ≡ form.Relay to own alert.now ask }
{
    Call::Relay {
        to,
        from: own,
        casualty: *alert,
        ask,
    }
}
