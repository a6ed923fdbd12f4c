//! Laws: each function here does nothing, and its contract is a theorem over definitions.
ghost use Rattle.std.specs.Prelude.{◌≡◌, ◌∷◌, ◌++◌, false, IsTrue};
ghost use Rattle.std.specs.List.{list_any};
ghost use Rattle.traffic_rules.specs.Sendings.{is_alert, sends};
ghost use Rattle.ship_station.specs.Past.{is_end};
ghost use Rattle.exchange.specs.AlertEnds.{begins_alert, ship_does, MayEnd};
ghost use Rattle.exchange.specs.WorldHistories.{WorldEntry, WorldHistory};
ghost use Rattle.exchange.specs.declared.events.WorldEvent.{WorldEvent as Happens};
ghost use Rattle.exchange.specs.WorldRules.{Parties, IsFromOutside, IsWorldEvent, world_continued, IsLegal};

use coast_station::acknowledgements_go_back_to_accepted_alerts;
use ship_station::alerts_end_by_hand_or_acknowledgement;

/// The law that in every legal history of an exchange the ship's distress alert ends only at a cancel, or where an
/// acknowledgement of the coast station comes to the ship. The acknowledged alert was sent by the ship before, came to
/// the coast station before, and its identity was accepted there. It may belong to an earlier emergency of the ship.
#[tactic(auto, using(crate::proofs::Endings::may_end))]
pub fn alerts_end_by_cancel_or_acknowledgement()
    ensures { (who : Parties) (later earlier : WorldHistory) (ended : WorldEntry)
        → IsLegal who (later ++ ended ∷ earlier)
        → IsTrue (ship_does is_end ended) → MayEnd who.ship.own ended.event earlier }
{
    alerts_end_by_hand_or_acknowledgement();
    acknowledgements_go_back_to_accepted_alerts();
}

/// The law that in an exchange the ship sends no distress alert after the end of one, before the next event that begins
/// one, however many acknowledgements come, in every legal history.
pub fn no_alert_after_an_end()
    ensures { (who : Parties) (later earlier : WorldHistory) (ended : WorldEntry)
        → IsLegal who (later ++ ended ∷ earlier)
        → IsTrue (ship_does is_end ended) → list_any begins_alert later ≡ false
        → list_any (ship_does (sends is_alert)) later ≡ false }
{
    ship_station::no_alert_after_an_end();
}

/// The law that an exchange goes on legally with each event from outside whose own parts are in their ranges, whatever
/// it gives.
pub fn exchanges_go_on_legally()
    ensures { (who : Parties) (w : WorldHistory) (event : Happens) → IsFromOutside event → IsWorldEvent event
        → IsLegal who w → IsLegal who (world_continued who w event) }
{}
