//! What lines say to a station, what a station answers in lines, and the civil time of their moments: for each command that leads stations
//! by events of files.
#![tactic(auto)]

mod answers;
mod events;
mod minutes;
mod moments;
mod texts;

pub use answers::{append_acts, append_answer, append_refusal};
pub use events::OfLines;
pub use minutes::civil_minute;
pub use texts::{append_act_text, append_refusal_text, put_act, put_refused};
