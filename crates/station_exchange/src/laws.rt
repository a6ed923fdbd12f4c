//! Laws: each function here does nothing, and its contract is a theorem over definitions.
ghost use Rattle.std.specs.Prelude.{◌≡◌, ◌∷◌, ◌++◌, IsTrue};
ghost use Rattle.line_engine.specs.Determined.{IsDetermined, HasOutputs};
ghost use Rattle.line_engine.specs.Lines.{Lines};
ghost use Rattle.ship_station.specs.Past.{is_end};
ghost use Rattle.exchange.specs.AlertEnds.{ship_does, MayEnd};
ghost use Rattle.exchange.specs.WorldHistories.{WorldEntry, WorldHistory};
ghost use Rattle.exchange.specs.WorldRules.{IsLegal};
ghost use Rattle.station_exchange.specs.Meaning.{exchange_meaning};
ghost use Rattle.station_exchange.specs.Said.{Said, parties_of, world_of, AreSaid};

use exchange::exchanges_go_on_legally;
use input_lines::one_exchange_line;

/// The law that the lines of a file of an exchange determine what `exchange` writes. It does nothing.
#[tactic(auto, using(crate::proofs::Determined::exchange_determined))]
pub fn lines_determine_output()
    ensures { IsDetermined exchange_meaning }
{
    one_exchange_line();
}

/// The law that the history of the exchange in a file is legal: the laws of exchanges hold of each file. It does
/// nothing.
#[tactic(auto, using(crate::proofs::Legal::said_legal))]
pub fn histories_are_legal()
    ensures { (said : Said) (lines : Lines) → AreSaid said lines → IsLegal (parties_of said) (world_of said) }
{
    exchanges_go_on_legally();
}

/// The law that in the exchange of a file the ship's distress alert ends only at a cancel, or where an acknowledgement
/// of the coast station comes to the ship. The acknowledged alert was sent by the ship before, came to the coast
/// station before, and its identity was accepted there. It does nothing.
pub fn alerts_end_by_cancel_or_acknowledgement()
    ensures { (said : Said) (lines : Lines) (later earlier : WorldHistory) (ended : WorldEntry) → AreSaid said lines
        → world_of said ≡ later ++ ended ∷ earlier
        → IsTrue (ship_does is_end ended) → MayEnd (parties_of said).ship.own ended.event earlier }
{
    histories_are_legal();
    exchange::alerts_end_by_cancel_or_acknowledgement();
}

/// The law that each file of an exchange has an output. It does nothing.
#[tactic(auto, using(crate::proofs::Complete::exchange_has_outputs))]
pub fn inputs_have_outputs()
    ensures { HasOutputs exchange_meaning }
{
    one_exchange_line();
}
