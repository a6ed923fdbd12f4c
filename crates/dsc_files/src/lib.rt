//! One reader for a line of a file of any kind, over the readers of each kind.
#![tactic(auto)]

mod events;
mod laws;
mod lines;
mod points;
mod reading;
mod worlds;

pub use events::{EventLine, ExchangeLine};
pub use laws::{evidence_lines_are_read, written_calls_are_read};
pub use lines::{FileKind, Line};
pub use points::{PointLine, point_line, read_traffic};
pub use reading::line_of;
pub use worlds::{read_world, world_line};
