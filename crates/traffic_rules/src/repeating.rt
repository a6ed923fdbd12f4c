//! What is due at a tick: held calls are sent again, or given up.
ghost use Rattle.std.specs.Prelude.{◌≡◌, ◌<◌, ◌≤◌, ◌++◌, ◌+◌, length};
ghost use Rattle.traffic_rules.specs.Holding.{place_of, with_place};
ghost use Rattle.traffic_rules.specs.Repeating as repeating;
ghost use Rattle.traffic_rules.specs.After.{after_tick};

use crate::acts::{Act, Acts, add_act};
use crate::held::{Held, HeldCalls, Side};
use crate::moments::has_passed;
use crate::waits::ANSWER_WAIT;

/// At a tick: sends each sent call again that has waited for its answer and was sent once, gives up each that was sent
/// again, by rising number, and puts the acts last (this project's profile). Where no call was ever held, it looks at no
/// place.
pub fn repeat(held: &mut HeldCalls, at: u64, acts: &mut Acts)
    requires { length acts.old.items ≤ 16 }
    ensures acts { acts.new.items ≡ acts.old.items ++ repeating.repeats at 1 held.old }
    ensures held { held.new ≡ after_tick held.old at }
{
    if held.is_free() {
        return;
    }
    let _ = held.places();
    for index in 0..16u8 {
        repeat_one(held, index + 1, at, acts);
    }
}

/// Whether a sent call has waited for its answer to the end.
fn is_overdue(held: &Held, at: u64) -> bool
    ensures { result ≡ repeating.is_overdue at held.now.side held.now.at }
{
    match held.side {
        Side::Sent => has_passed(ANSWER_WAIT, held.at, at),
        Side::Got => false,
    }
}

/// What is due at a tick of the call that is held under a number, 1 to 16.
fn repeat_one(held: &mut HeldCalls, number: u8, at: u64, acts: &mut Acts)
    requires number { (1 ≤ number) × (number ≤ 16) }
    requires room { length acts.old.items < 32 }
    ensures acts { acts.new.items ≡ acts.old.items ++ repeating.repeated at number (place_of held.old number) }
    ensures few { length acts.new.items ≤ length acts.old.items + 1 }
    ensures held { held.new ≡ with_place held.old number (repeating.ticked at (place_of held.old number)) }
{
    let Some(waiting) = held.find(number) else {
        return;
    };
    if !is_overdue(&waiting, at) {
        return;
    }
    if waiting.times == 1 {
        held.sent_again(number, at);
        add_act(
            acts,
            Act::Send {
                call: waiting.call,
                times: 1,
            },
        );
    } else {
        let _ = held.release(number);
        add_act(acts, Act::GaveUp(number));
    }
}
