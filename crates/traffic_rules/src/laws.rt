//! Laws: each function here does nothing, and its contract is a theorem over definitions.
ghost use Rattle.std.specs.Prelude.{◌≡◌, ℕ, false, Bool, Option, None, List, IsTrue};
ghost use Rattle.std.specs.List.{list_any};
ghost use Rattle.call_values.specs.declared.calls.Call.{Call};
ghost use Rattle.traffic_rules.specs.declared.acts.Act.{Act};
ghost use Rattle.traffic_rules.specs.Holding.{Places};
ghost use Rattle.traffic_rules.specs.Answering.{answer_due};
ghost use Rattle.traffic_rules.specs.Hearing.{Whereabouts, heard_due};
ghost use Rattle.traffic_rules.specs.Repeating.{repeats};
ghost use Rattle.traffic_rules.specs.Sending.{is_sendable, send_refusal, send_due};
ghost use Rattle.traffic_rules.specs.Sendings.{sends};
ghost use Rattle.traffic_rules.specs.TrafficActs.{is_of_traffic, AreTrafficActs, AreSentSuch};

use crate::held::MOST_HELD;

/// The law that fixes the number of the places in which calls are held: 16. That no more are held is a law of each
/// station.
pub fn sixteen_held_calls()
    ensures { MOST_HELD ≡ 16 }
{}

/// The law that the rules of traffic send only sendable calls and replies, each once: where an operator's call isn't
/// refused, where a call is answered or heard, and where held calls are repeated, if those that are held as sent are
/// sendable, as they are in every legal history of a station. So they send no call of a kind that has no sendable call
/// and no reply.
pub fn traffic_is_sendable_or_a_reply()
    ensures sent { (own : ℕ) (places : Places) (call : Call) → send_refusal own places call ≡ None
        → AreTrafficActs (is_of_traffic own) (send_due places call) }
    ensures answered { (own number : ℕ) (places : Places) (accepts : Bool)
        → AreTrafficActs (is_of_traffic own) (answer_due own places number accepts) }
    ensures heard { (own : ℕ) (place : Option Whereabouts) (places : Places) (call : Call)
        → AreTrafficActs (is_of_traffic own) (heard_due own place places call) }
    ensures repeated { (own at : ℕ) (places : Places) → AreSentSuch (is_sendable own) places
        → AreTrafficActs (is_of_traffic own) (repeats at 1 places) }
    ensures others { (own : ℕ) (acts : List Act) (is_such : Call → Bool) → AreTrafficActs (is_of_traffic own) acts
        → ((call : Call) → IsTrue (is_of_traffic own call) → is_such call ≡ false)
        → list_any (sends is_such) acts ≡ false }
{}
