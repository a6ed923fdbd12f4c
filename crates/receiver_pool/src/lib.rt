//! Receptions read by several workers: each posts what it heard on shared boards, one for each group of a batch.
#![tactic(auto)]

mod at_once;
mod batch_groups;
mod batches;
mod beside;
mod boards;
mod gate;
mod group_entries;
mod news;
mod pools;
mod posts;
mod rendezvous;
mod threads;
mod workers;

pub use batches::{meet_sheet, pool_groups, take_sheet};
pub use beside::{Beside, pool_groups_beside};
pub use boards::look_at;
pub use evidence_board::{AllFacts, Allowed, Board, Seat, WHOLE};
pub use gate::{Gate, Open};
pub use group_entries::{GroupReception, GroupSheet};
pub use pools::{pool, post_all};
pub use posts::Posts;
pub use rendezvous::Rendezvous;
pub use slot_evidence::Reception;
pub use workers::{Joiner, Reading, Workers, meet_entries};
