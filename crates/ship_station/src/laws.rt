//! Laws: each function here does nothing, and its contract is a theorem over definitions.
ghost use Rattle.std.specs.Prelude.{◌≡◌, ℕ, ◌+◌, ◌≤◌, ◌⊎◌, false, List, ◌∷◌, ◌++◌, IsTrue};
ghost use Rattle.call_values.specs.declared.calls.Call.{Call};
ghost use Rattle.traffic_rules.specs.declared.acts.Act.{Act};
ghost use Rattle.traffic_rules.specs.declared.acts.Act.TheVariants as act;
ghost use Rattle.traffic_rules.specs.Histories.{Entry, History, does, NoneIs};
ghost use Rattle.traffic_rules.specs.Holding.{calls_held};
ghost use Rattle.traffic_rules.specs.Repeating.{repeats};
ghost use Rattle.traffic_rules.specs.Rules.{Legal};
ghost use Rattle.traffic_rules.specs.Sendings.{AreSentAtMostTwice, is_alert, sends};
ghost use Rattle.traffic_rules.specs.TrafficActs.{AreRepeatedAsTraffic};
ghost use Rattle.ship_station.specs.declared.events.ShipWhat.{ShipWhat};
ghost use Rattle.ship_station.specs.Attempted.{IsAttempted};
ghost use Rattle.ship_station.specs.Events.{ship_occurs, begins_alert, MayEndAlert};
ghost use Rattle.ship_station.specs.Past.{is_attempt, is_end};
ghost use Rattle.ship_station.specs.ShipRules.{Identities, held, ship_rules};

use call_values::bounds::SHORTEST_ALERT_DELAY;

/// The law that after the end of a distress alert no attempt comes before the next event that begins one, in every
/// legal history.
pub fn no_attempt_after_an_end()
    ensures { (who : Identities) (later earlier : History ShipWhat) (ended : Entry ShipWhat)
        → Legal (ship_rules who) (later ++ ended ∷ earlier)
        → IsTrue (does is_end ended) → NoneIs begins_alert later → NoneIs (does is_attempt) later }
{}

/// The law that after the end of its distress alert a ship sends no distress alert, however often in a row, before the
/// next event that begins one, in every legal history.
pub fn no_alert_after_an_end()
    ensures { (who : Identities) (later earlier : History ShipWhat) (ended : Entry ShipWhat)
        → Legal (ship_rules who) (later ++ ended ∷ earlier)
        → IsTrue (does is_end ended) → NoneIs begins_alert later → NoneIs (does (sends is_alert)) later }
{}

/// The law that a distress alert ends only at a cancel, or where a distress acknowledgement that names the ship is
/// heard, in every legal history.
pub fn alerts_end_by_hand_or_acknowledgement()
    ensures { (who : Identities) (later earlier : History ShipWhat) (ended : Entry ShipWhat)
        → Legal (ship_rules who) (later ++ ended ∷ earlier)
        → IsTrue (does is_end ended) → MayEndAlert who.own ended.what }
{}

/// The law that two attempts of one distress alert which follow each other are at least 210,000 ms apart, in every
/// legal history. The second one belongs to another alert where its event begins one.
pub fn attempts_are_apart()
    ensures { (who : Identities) (later between earlier : History ShipWhat) (first second : Entry ShipWhat)
        → Legal (ship_rules who) (later ++ second ∷ (between ++ first ∷ earlier))
        → IsTrue (does is_attempt first) → NoneIs (does is_attempt) between → IsTrue (does is_attempt second)
        → begins_alert second ≡ false
        → first.at + SHORTEST_ALERT_DELAY ≤ second.at }
{}

/// The law that in every legal history a ship sends its distress alert as attempts alone: 5 times in a row, as its own,
/// with the position and the time that are kept. An attempt comes at the event that begins the alert, or at a tick at
/// which it is on. The ship sends every other call once.
pub fn alerts_are_sent_as_attempts()
    ensures { (who : Identities) (later earlier : History ShipWhat) (sent : Entry ShipWhat) (call : Call) (times : ℕ)
        (first last : List Act)
        → Legal (ship_rules who) (later ++ sent ∷ earlier) → sent.acts ≡ first ++ act.Send call times ∷ last
        → IsAttempted who.own earlier sent.what (act.Send call times) ⊎ ((is_alert call ≡ false) × (times ≡ 1)) }
{}

/// The law that in every legal history a call that asks for an acknowledgement is sent at most twice for each time that
/// it is held: once as it begins to be held, and at most once more, at a tick. This also holds of each part of a
/// history: what is sent again in it, and what then waits to be sent again, waited as the part began or was held in it.
/// So a holding that was answered leaves its second sending to no other. Any such calls may be counted: one call alone,
/// those to one station, or all of them.
pub fn held_calls_are_sent_at_most_twice()
    ensures { (who : Identities) → AreSentAtMostTwice ship_occurs (ship_rules who) }
{}

/// The law that a ship holds sixteen calls at most, after every history.
pub fn sixteen_calls_are_held()
    ensures { (h : History ShipWhat) → calls_held (held h) ≤ 16 }
{}

/// The law that an operator may send each call that a ship holds as sent, so that all that it repeats at a tick is of
/// traffic, in every legal history.
pub fn repeated_calls_are_sendable()
    ensures { (who : Identities) (h : History ShipWhat) → Legal (ship_rules who) h
        → AreRepeatedAsTraffic who.own (held h) }
{}
