//! Values of calls of ITU-R M.493: identities, positions, areas, times, symbols, frequencies, and the parts that calls
//! are made of; and the delays of ITU-R M.541.
#![tactic(auto)]

mod areas;
mod bodies;
pub mod bounds;
mod calls;
mod choices;
mod clock;
mod fields;
mod numbers;
mod parts;
mod positions;
pub mod worked;

pub use areas::Area;
pub use bodies::Body;
pub use calls::{Call, Casualty};
pub use choices::{Band, Category, End};
pub use clock::HourMinute;
pub use fields::{Field, FieldKind};
pub use numbers::{AlertDelay, CoastDelay, Comm, First, Mmsi, Nature, Second};
pub use parts::{Kind, Message, To};
pub use positions::{Fix, Position};
