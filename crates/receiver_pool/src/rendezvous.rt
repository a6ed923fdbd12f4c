//! A gate for tests: it shows that workers are in it at the same time.

use crate::gate::Gate;
use std::sync::atomic::{AtomicU32, Ordering};
use std::thread::yield_now;

/// A gate that counts who enters, and in which each waits, for at most 100,000,000 turns, until so many have entered.
/// It is for tests.
#[derive(Drop)]
pub struct Rendezvous {
    awaited: u32,
    entered: AtomicU32,
    came_together: AtomicU32,
}

impl Rendezvous {
    /// The gate in which workers wait until so many have entered.
    pub fn of(awaited: u32) -> Rendezvous {
        Rendezvous {
            awaited,
            entered: AtomicU32::new(0),
            came_together: AtomicU32::new(0),
        }
    }

    /// How many have entered.
    pub fn entered(&self) -> u32 {
        self.entered.load(Ordering::SeqCst)
    }

    /// How many of them saw that as many had entered as each waited for.
    pub fn came_together(&self) -> u32 {
        self.came_together.load(Ordering::SeqCst)
    }
}

impl Gate for Rendezvous {
    fn enter(&self, _worker: u32) {
        self.entered.fetch_add(1, Ordering::SeqCst);
        for turn in 0..100_000_000u32 {
            if self.entered.load(Ordering::SeqCst) >= self.awaited {
                self.came_together.fetch_add(1, Ordering::SeqCst);
                return;
            }
            if turn % 64 == 0 {
                yield_now();
            }
        }
    }
}
