//! Laws: each function here does nothing, and its contract is a theorem over definitions.
ghost use Rattle.std.specs.Prelude.{◌≡◌, ℕ, true};
ghost use Rattle.call_values.specs.declared.calls.Call.{Call};
ghost use Rattle.call_values.specs.Calls.{IsCall};
ghost use Rattle.call_grammar.specs.Spelling.{through_check};
ghost use Rattle.slot_evidence.specs.Facts.{Facts};
ghost use Rattle.slot_join.specs.declared.joined.Joined.TheVariants.{Reported};
ghost use Rattle.slot_join.specs.declared.joined.Extra.{Extra};
ghost use Rattle.slot_join.specs.Answer.{IsAnswer};
ghost use Rattle.slot_join.specs.OneCall.{ShowsNoOther};
ghost use Rattle.live_watch.specs.Told.{IsTold};

use call_grammar::{formats_begin_calls, one_check_place, one_end_place};
use slot_join::call_or_missing_place;

/// The laws of told calls. A call that facts report may be told; what may be told of facts may be told of more; and
/// where the places of a call that was sent showed no other symbols than its own, no other call may be told. It does
/// nothing.
pub fn told_calls()
    ensures answered { (F : Facts) (call : Call) (extra : Extra) → IsAnswer F (Reported call extra) → IsTold F call }
    ensures more { (F G : Facts) (call : Call) → ((p v : ℕ) → F p v ≡ true → G p v ≡ true) → IsTold F call
        → IsTold G call }
    ensures sent { (F : Facts) (call told : Call) → IsCall call → ShowsNoOther F (through_check call) → IsTold F told
        → told ≡ call }
{
    call_or_missing_place();
    formats_begin_calls();
    one_check_place();
    one_end_place();
}
