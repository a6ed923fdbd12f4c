//! Laws: each function here does nothing, and its contract is a theorem over definitions.
ghost use Rattle.std.specs.Prelude.{◌≡◌, List, ◌∷◌, ◌++◌, IsTrue};
ghost use Rattle.call_values.specs.declared.choices.Band.{Band};
ghost use Rattle.coast_station.specs.CoastRules.{coast_rules};
ghost use Rattle.coast_station.specs.declared.events.CoastWhat.{CoastWhat};
ghost use Rattle.line_engine.specs.Determined.{IsDetermined, LacksNoOutput};
ghost use Rattle.line_engine.specs.Lines.{Lines};
ghost use Rattle.ship_station.specs.Events.{MayEndAlert};
ghost use Rattle.ship_station.specs.Past.{is_end};
ghost use Rattle.ship_station.specs.ShipRules.{ship_rules};
ghost use Rattle.ship_station.specs.declared.events.ShipWhat.{ShipWhat};
ghost use Rattle.traffic_rules.specs.Histories.{Entry, History, does};
ghost use Rattle.traffic_rules.specs.Rules.{Legal};
ghost use Rattle.traffic_replay.specs.Happenings.{taking_ship, taking_coast, Happening, AreHappenings};
ghost use Rattle.traffic_replay.specs.Meaning.{replay_meaning};
ghost use Rattle.traffic_replay.specs.Output.{history_of};
ghost use Rattle.traffic_replay.specs.Said.{Said, identities_of, station_of, AreSaid};

use input_lines::one_point_line;
use slot_join::{no_answer_is_lacking, one_answer};

/// The law that the lines of a traffic file determine what `replay` writes. It does nothing.
#[tactic(auto, using(crate::proofs::Determined::replay_determined))]
pub fn lines_determine_output()
    ensures { IsDetermined replay_meaning }
{
    one_point_line();
    one_answer();
}

/// The law that the history of a traffic file is legal: the laws of stations hold of each file. It does nothing.
pub fn histories_are_legal()
    ensures ship { (said : Said) (lines : Lines) (happened : List (Happening ShipWhat)) → AreSaid said lines
        → AreHappenings taking_ship said happened
        → Legal (ship_rules (identities_of said)) (history_of (ship_rules (identities_of said)) happened) }
    ensures coast { (band : Band) (said : Said) (lines : Lines) (happened : List (Happening CoastWhat)) → AreSaid said lines
        → AreHappenings taking_coast said happened
        → Legal (coast_rules (station_of band said)) (history_of (coast_rules (station_of band said)) happened) }
{}

/// The law that in the history of a ship's traffic file the ship's distress alert ends only at a cancel, or where a
/// distress acknowledgement that names the ship is heard. It does nothing.
pub fn alerts_end_by_hand_or_acknowledgement()
    ensures { (said : Said) (lines : Lines) (happened : List (Happening ShipWhat)) (later earlier : History ShipWhat)
        (ended : Entry ShipWhat) → AreSaid said lines → AreHappenings taking_ship said happened
        → history_of (ship_rules (identities_of said)) happened ≡ later ++ ended ∷ earlier
        → IsTrue (does is_end ended) → MayEndAlert (identities_of said).own ended.what }
{
    histories_are_legal();
    ship_station::alerts_end_by_hand_or_acknowledgement();
}

/// The law that no traffic file lacks an output. It does nothing.
#[tactic(auto, using(crate::proofs::NotLacking::replay_lacks_none))]
pub fn no_output_is_lacking()
    ensures { LacksNoOutput replay_meaning }
{
    no_answer_is_lacking();
}
