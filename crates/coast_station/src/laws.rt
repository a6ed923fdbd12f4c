//! Laws: each function here does nothing, and its contract is a theorem over definitions.
ghost use Rattle.std.specs.Prelude.{◌≡◌, ◌==◌, ◌+◌, ◌≤◌, ◌∷◌, ◌++◌, ℕ, List, false, length, IsTrue};
ghost use Rattle.std.specs.List.{list_any};
ghost use Rattle.traffic_rules.specs.declared.acts.Act.{Act};
ghost use Rattle.traffic_rules.specs.declared.acts.Act.TheVariants as act;
ghost use Rattle.traffic_rules.specs.Histories.{Entry, History, does};
ghost use Rattle.traffic_rules.specs.Holding.{calls_held};
ghost use Rattle.traffic_rules.specs.Repeating.{repeats};
ghost use Rattle.traffic_rules.specs.Rules.{Legal};
ghost use Rattle.call_values.specs.declared.calls.Call.TheVariants as call;
ghost use Rattle.call_values.specs.declared.calls.Casualty.{Casualty};
ghost use Rattle.coast_station.specs.declared.events.CoastWhat.{CoastWhat};
ghost use Rattle.coast_station.specs.Acknowledged.{GoesBackToAlert};
ghost use Rattle.coast_station.specs.Casualties.{acknowledges, born, is_alert, is_born, open_casualties};
ghost use Rattle.coast_station.specs.CoastRules.{Station, held, coast_rules};
ghost use Rattle.coast_station.specs.Events.{coast_occurs};
ghost use Rattle.traffic_rules.specs.Sendings.{AreSentAtMostTwice};
ghost use Rattle.traffic_rules.specs.TrafficActs.{AreRepeatedAsTraffic};

use crate::casualties::MOST_CASUALTIES;

/// The law that the identities of the open casualties, after every history, are those of which an alert was heard since
/// they were last ended.
pub fn casualties_are_born()
    ensures { (own mmsi : ℕ) (h : History CoastWhat)
        → list_any (λ (identity : ℕ). identity == mmsi) (born own h) ≡ is_born own mmsi h }
{}

/// The law that a sent distress acknowledgement carries an alert that was heard before and whose identity was accepted
/// after that, and that on MF and HF at least 60,000 ms have passed since this alert, in every legal history.
pub fn acknowledgements_go_back_to_accepted_alerts()
    ensures { (who : Station) (later earlier : History CoastWhat) (sent : Entry CoastWhat) (from times : ℕ)
        (casualty : Casualty) (first last : List Act)
        → Legal (coast_rules who) (later ++ sent ∷ earlier)
        → sent.acts ≡ first ++ act.Send (call.Ack from casualty) times ∷ last
        → GoesBackToAlert who.band casualty sent earlier }
{}

/// The law that between two acknowledgements of one identity an alert of it was heard, in every legal history.
pub fn an_alert_is_heard_between_acknowledgements()
    ensures { (who : Station) (later between earlier : History CoastWhat) (first second : Entry CoastWhat) (mmsi : ℕ)
        → Legal (coast_rules who) (later ++ second ∷ (between ++ first ∷ earlier))
        → IsTrue (does (acknowledges mmsi) first) → IsTrue (does (acknowledges mmsi) second)
        → IsTrue (list_any (is_alert who.own mmsi) between) }
{}

/// The law that at one event an identity is acknowledged once at most, in every legal history.
pub fn an_identity_is_acknowledged_once()
    ensures { (who : Station) (later earlier : History CoastWhat) (sent : Entry CoastWhat) (mmsi : ℕ)
        (first last : List Act) (acknowledgement : Act)
        → Legal (coast_rules who) (later ++ sent ∷ earlier) → sent.acts ≡ first ++ acknowledgement ∷ last
        → IsTrue (acknowledges mmsi acknowledgement) → list_any (acknowledges mmsi) last ≡ false }
{}

/// The law that in every legal history a call that asks for an acknowledgement is sent at most twice for each time that
/// it is held: once as it begins to be held, and at most once more, at a tick. This also holds of each part of a
/// history: what is sent again in it, and what then waits to be sent again, waited as the part began or was held in it.
/// So a holding that was answered leaves its second sending to no other. Any such calls may be counted: one call alone,
/// those to one station, or all of them.
pub fn held_calls_are_sent_at_most_twice()
    ensures { (who : Station) → AreSentAtMostTwice coast_occurs (coast_rules who) }
{}

/// The law that an operator may send each call that a coast station holds as sent, so that all that it repeats at a
/// tick is of traffic, in every legal history.
pub fn repeated_calls_are_sendable()
    ensures { (who : Station) (h : History CoastWhat) → Legal (coast_rules who) h
        → AreRepeatedAsTraffic who.own (held h) }
{}

/// The law that sixteen casualties are open at most, in every legal history.
pub fn sixteen_casualties()
    ensures places { MOST_CASUALTIES ≡ 16 }
    ensures casualties { (who : Station) (h : History CoastWhat) → Legal (coast_rules who) h
        → length (open_casualties who.own h) ≤ 16 }
{}

/// The law that a coast station holds sixteen calls at most, after every history.
pub fn sixteen_calls_are_held()
    ensures { (h : History CoastWhat) → calls_held (held h) ≤ 16 }
{}
