//! The calls that an end has sent, by their numbers.
ghost use Rattle.std.specs.Prelude.{◌≡◌, ◌+◌, ◌≤◌, ◌++◌, length, vec_len, vec_capacity};
ghost use Rattle.exchange.specs.Sent.{calls_of};

use call_values::Call;
use traffic_rules::Act;

/// How many calls an end sends at one event at most.
pub(crate) const MOST_SENT: usize = 32;

/// Puts the calls that these acts send last, each once, however often in a row it is sent.
pub(crate) fn note_sent(sent: &mut Vec<Call>, acts: &[Act])
    requires { vec_len sent.old + length acts.now ≤ vec_capacity sent.old }
    ensures { sent.new.items ≡ sent.old.items ++ calls_of acts.now }
{
    for act in acts {
        if let Act::Send { call, .. } = act {
            sent.push_reserved(*call);
        }
    }
}
