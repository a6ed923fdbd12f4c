//! What both kinds of station have in common.
ghost use Rattle.std.specs.Prelude.{◌≡◌, [], OnErr};
ghost use Rattle.traffic_rules.specs.Histories.{History};
ghost use Rattle.traffic_rules.specs.Rules.{Rules};
ghost use Rattle.traffic_rules.specs.Giving.{answer_with};
ghost use Rattle.traffic_rules.specs.Stepping.{AnswersByRules, GoesOnByRules};
ghost use Rattle.ship_station.specs.declared.events.ShipWhat.TheVariants as at_ship;
ghost use Rattle.ship_station.specs.ShipRules.{Identities, ship_rules};
ghost use Rattle.ship_station.specs.StandsFor.{StandsFor as ShipStandsFor};
ghost use Rattle.coast_station.specs.declared.events.CoastWhat.TheVariants as at_coast;
ghost use Rattle.coast_station.specs.CoastRules.{Station as CoastIdentity, coast_rules};
ghost use Rattle.coast_station.specs.StandsFor.{StandsFor as CoastStandsFor};
ghost use Rattle.call_values.specs.declared.calls.Call.{Call as AnyCall};

use call_values::Call;
use coast_station::{Coast, CoastWhat};
use ship_station::{Ship, ShipWhat};
use traffic_rules::{Acts, StationRefusal};

/// A station of one kind, which goes from event to event.
pub trait Station {
    /// What happens at it.
    type What: Copy;

    /// Who it is: its identities.
    ghost Who: { Type 0 };

    /// The rules of its kind.
    ghost rules: { Who → Rules Self.What };

    /// It stands for this history.
    ghost stands: { Self → Who → History Self.What → Type 0 };

    /// A call is heard.
    ghost hears: { AnyCall → Self.What };

    /// This call is heard.
    fn heard(call: Call) -> Self::What
        ensures { result ≡ hears call };

    /// Does what is due at an event, with the acts in a list of the caller, which is cleared first. Where the event is
    /// refused, the list is empty.
    fn happen(&mut self, at: u64, what: &Self::What, acts: &mut Acts) -> Result<(), StationRefusal>
        ensures answers { AnswersByRules rules stands self.old at what.now (answer_with result acts.new.items) }
        ensures goes_on { GoesOnByRules rules stands self.old at what.now self.new }
        ensures none { OnErr result (acts.new.items ≡ []) }
        ensures unchanged { OnErr result (self.new ≡ self.old) };
}

impl Station for Ship {
    type What = ShipWhat;

    ghost Who = { Identities };

    ghost rules = { ship_rules };

    ghost stands = { ShipStandsFor };

    ghost hears = { at_ship.Heard };

    fn heard(call: Call) -> ShipWhat {
        ShipWhat::Heard(call)
    }

    fn happen(&mut self, at: u64, what: &ShipWhat, acts: &mut Acts) -> Result<(), StationRefusal> {
        Ship::take(self, at, what, acts)
    }
}

impl Station for Coast {
    type What = CoastWhat;

    ghost Who = { CoastIdentity };

    ghost rules = { coast_rules };

    ghost stands = { CoastStandsFor };

    ghost hears = { at_coast.Heard };

    fn heard(call: Call) -> CoastWhat {
        CoastWhat::Heard(call)
    }

    fn happen(&mut self, at: u64, what: &CoastWhat, acts: &mut Acts) -> Result<(), StationRefusal> {
        Coast::take(self, at, what, acts)
    }
}
