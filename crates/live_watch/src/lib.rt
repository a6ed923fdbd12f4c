//! A call told while receivers still post: a watcher's seat looks at the board on which they join it.
#![tactic(auto)]

mod batches;
mod laws;
mod showing;
mod watchers;
mod watching;

pub use batches::{BatchWatcher, WatchedJoiner, WatchedWorkers, watch_batch};
pub use laws::told_calls;
pub use showing::{Unreported, call_to_tell, judge, shows_call};
pub use watchers::{News, Watcher};
pub use watching::watch;
