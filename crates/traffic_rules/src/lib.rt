//! What ship and coast stations share: what stations do and why they refuse an event, the calls that they hold, the
//! rules of their histories; how an operator's calls are sent, held, repeated and answered, and what is done at a heard
//! call.
#![tactic(auto)]

mod acts;
mod answering;
mod equality;
mod giving;
mod hearing;
mod held;
mod laws;
mod moments;
mod refusals;
mod repeating;
mod replies;
mod sending;
mod waits;

pub use acts::{Act, Acts, add_act, single};
pub use answering::answer;
pub use equality::are_equal;
pub use giving::give;
pub use hearing::hear;
pub use held::{Held, HeldCalls, Holding, MOST_HELD, Side};
pub use laws::{sixteen_held_calls, traffic_is_sendable_or_a_reply};
pub use moments::has_passed;
pub use refusals::{StationRefusal, time_back};
pub use repeating::repeat;
pub use replies::answers;
pub use sending::send;
pub use waits::{ANSWER_WAIT, wait_for_answers};
