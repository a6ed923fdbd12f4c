//! The open casualties of a coast station, at most 16.
ghost use Rattle.std.specs.Prelude.{◌≡◌, ◌<◌, ◌≤◌, ◌==◌, [], ◌∷◌, ◌++◌, IfSome, IsErr, OnOk, OnErr, length, position, slice_set, is_none, ◌&&◌, ◌↔◌, IsTrue};
ghost use Rattle.traffic_rules.specs.declared.refusals.StationRefusal.TheVariants as refusal;
ghost use Rattle.coast_station.specs.Accepting as accepting;
ghost use Rattle.coast_station.specs.inside.Left as left;

use arrayvec::ArrayVec;
use call_values::{Call, Casualty, CoastDelay, Comm, HourMinute, Mmsi, Nature, Position};
use dsc_symbols::{natures, telecommands};
use std::marker::Model;
use traffic_rules::{Act, Acts, StationRefusal, add_act, has_passed};

/// The most casualties that a station keeps open at once (this project's profile).
pub const MOST_CASUALTIES: usize = 16;

/// A ship in distress whose alert was heard and not acknowledged (ITU-R M.541, acknowledgement by coast stations).
#[derive(Clone, Copy)]
pub(crate) struct OpenCasualty {
    pub alert: Casualty,
    /// The moment at which the alert was heard, in milliseconds.
    pub heard_at: u64,
    /// The delay with which the alert was accepted.
    pub delay: Option<CoastDelay>,
}

impl Default for OpenCasualty {
    /// What an empty place of a list holds. It has no meaning.
    fn default() -> OpenCasualty {
        OpenCasualty {
            alert: Casualty {
                mmsi: Mmsi::new(0).unwrap(),
                nature: Nature::new(natures::UNDESIGNATED).unwrap(),
                position: Position::unknown(),
                time: HourMinute::unknown(),
                comm: Comm::new(telecommands::ALL_MODES).unwrap(),
            },
            heard_at: 0,
            delay: None,
        }
    }
}

impl OpenCasualty {
    /// A casualty as its alert is heard.
    fn new(alert: Casualty, heard_at: u64) -> OpenCasualty
        ensures { result ≡ left.newly_open alert heard_at }
    {
        OpenCasualty {
            alert,
            heard_at,
            delay: None,
        }
    }

    /// Whether the acknowledgement is due: the delay with which the alert was accepted has passed since the alert.
    pub(crate) fn is_due(&self, at: u64) -> bool
        ensures { result ≡ accepting.is_due at self.now }
    {
        match self.delay {
            Some(delay) => has_passed(delay.number().into(), self.heard_at, at),
            None => false,
        }
    }
}

/// The acknowledgement of a distress alert (ITU-R M.493, distress acknowledgement).
pub(crate) fn acknowledgement(own: Mmsi, alert: &Casualty) -> Act
    ensures { result ≡ accepting.acknowledgement own alert.now }
{
    Act::Send {
        call: Call::Ack {
            from: own,
            casualty: *alert,
        },
        times: 1,
    }
}

/// At most 16 open casualties, in the order in which their first alerts were heard.
#[derive(Drop)]
pub(crate) struct Casualties {
    entries: ArrayVec<OpenCasualty, MOST_CASUALTIES>,
}

impl Model for Casualties {
    ghost use Rattle.std.specs.Prelude.{◌≤◌, List, length};
    ghost use Rattle.coast_station.specs.declared.casualties.OpenCasualty.{OpenCasualty};

    ghost Value = { List OpenCasualty };

    ghost view = { λ c. c.entries.items };

    ghost invariant = { λ c. length c.entries.items ≤ 16 };
}

impl Casualties {
    /// No open casualty.
    pub(crate) fn none() -> Casualties
        ensures { result ≡ [] }
    {
        Casualties {
            entries: ArrayVec::new(),
        }
    }

    /// The open casualty of this identity.
    pub(crate) fn find(&self, mmsi: Mmsi) -> Option<OpenCasualty>
        ensures { result ≡ accepting.find_casualty mmsi self.now }
    {
        match self.place_of(mmsi) {
            Some(index) => Some(self.entries[index]),
            None => None,
        }
    }

    /// Takes the casualty of this identity out.
    pub(crate) fn close(&mut self, mmsi: Mmsi)
        ensures { self.new ≡ left.without mmsi self.old }
    {
        match self.place_of(mmsi) {
            Some(index) => {
                self.entries.remove(index);
            }
            None => {}
        }
    }

    /// Puts a casualty in place of that of its identity.
    pub(crate) fn replace(&mut self, casualty: &OpenCasualty)
        ensures { self.new ≡ left.replaced casualty.now.alert.mmsi casualty.now self.old }
    {
        match self.place_of(casualty.alert.mmsi) {
            Some(index) => replace_at(&mut self.entries, index, casualty),
            None => {}
        }
    }

    /// Notes an alert: it begins a casualty, or takes the place of the alert of one that isn't accepted. `Full` exactly
    /// where it begins one and 16 are open.
    pub(crate) fn note(&mut self, alert: &Casualty, at: u64) -> Result<(), StationRefusal>
        ensures full { IsErr result ↔ IsTrue (is_none (accepting.find_casualty alert.now.mmsi self.old)
            && (length self.old == 16)) }
        ensures noted { OnOk result (self.new ≡ left.noted alert.now at self.old) }
        ensures refused { OnErr result (result ≡ Err refusal.Full) }
        ensures unchanged { OnErr result (self.new ≡ self.old) }
    {
        match self.find(alert.mmsi) {
            None => {
                if self.entries.is_full() {
                    return Err(StationRefusal::Full);
                }
                self.entries.push(OpenCasualty::new(*alert, at));
            }
            Some(casualty) => {
                if casualty.delay.is_none() {
                    self.replace(&OpenCasualty::new(*alert, at));
                }
            }
        }
        Ok(())
    }

    /// Acknowledges each casualty whose acknowledgement is due, in their order, and takes them out.
    pub(crate) fn acknowledge_due(&mut self, own: Mmsi, at: u64, acts: &mut Acts)
        requires { acts.old.items ≡ [] }
        ensures acts { acts.new.items ≡ accepting.acknowledgements_due own at self.old }
        ensures room { length acts.new.items ≤ 16 }
        ensures rest { self.new ≡ left.not_due at self.old }
    {
        if !self.entries.is_empty() {
            self.acknowledge_some(own, at, acts);
        }
    }

    /// The same where casualties are open. It isn't inlined, since the list of those that stay is zeroed where it begins.
    #[inline(never)]
    fn acknowledge_some(&mut self, own: Mmsi, at: u64, acts: &mut Acts)
        requires { acts.old.items ≡ [] }
        ensures acts { acts.new.items ≡ accepting.acknowledgements_due own at self.old }
        ensures room { length acts.new.items ≤ 16 }
        ensures rest { self.new ≡ left.not_due at self.old }
    {
        acknowledge(&self.entries, own, at, acts);
        self.entries = not_due(&self.entries, at);
    }

    /// The place of the casualty of this identity.
    fn place_of(&self, mmsi: Mmsi) -> Option<usize>
        ensures value { result ≡ position (accepting.is_of mmsi) self.now }
        ensures range { IfSome result (λ index. index < length self.now) }
    {
        place_of(&self.entries, mmsi)
    }
}

/// The index of the casualty of this identity, if it is there.
fn place_of(entries: &[OpenCasualty], mmsi: Mmsi) -> Option<usize>
    ensures value { result ≡ position (accepting.is_of mmsi) entries.now }
    ensures range { IfSome result (λ index. index < length entries.now) }
{
    entries
        .iter()
        .position(|casualty| casualty.alert.mmsi.number() == mmsi.number())
}

/// Puts a casualty in the place of the one at this index.
fn replace_at(
    entries: &mut ArrayVec<OpenCasualty, MOST_CASUALTIES>,
    index: usize,
    casualty: &OpenCasualty,
)
    requires { index < length entries.old.items }
    ensures { entries.new.items ≡ slice_set entries.old.items index casualty.now }
{
    entries[index] = *casualty;
}

/// Gives the acknowledgements that are due.
fn acknowledge(entries: &[OpenCasualty], own: Mmsi, at: u64, acts: &mut Acts)
    requires few { length entries.now ≤ 16 }
    requires empty { acts.old.items ≡ [] }
    ensures acts { acts.new.items ≡ accepting.acknowledgements_due own at entries.now }
    ensures room { length acts.new.items ≤ 16 }
{
    for casualty in entries {
        if casualty.is_due(at) {
            add_act(acts, acknowledgement(own, &casualty.alert));
        }
    }
}

/// The casualties whose acknowledgement isn't due.
fn not_due(entries: &[OpenCasualty], at: u64) -> ArrayVec<OpenCasualty, MOST_CASUALTIES>
    requires { length entries.now ≤ 16 }
    ensures { result.items ≡ left.not_due at entries.now }
{
    let mut rest = ArrayVec::new();
    for casualty in entries {
        if !casualty.is_due(at) {
            rest.push(*casualty);
        }
    }
    rest
}
