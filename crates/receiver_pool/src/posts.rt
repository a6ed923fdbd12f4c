//! What is new on the boards of a batch, for somebody who looks at them. No clause speaks of it.

use slot_evidence::Sheet;
use std::alloc::{AllocError, Global};
use std::sync::atomic::{AtomicBool, AtomicU32, Ordering};

/// How often something new was posted on each board, and whether all was posted.
#[derive(Drop)]
pub struct Posts {
    counts: Vec<AtomicU32>,
    /// What was known of the group of each board before the batch.
    known: Vec<Sheet>,
    is_over: AtomicBool,
}

impl Posts {
    /// The posts on boards at which nobody looks.
    pub(crate) fn none(alloc: Global) -> Posts {
        Posts {
            counts: Vec::new(alloc),
            known: Vec::new(alloc),
            is_over: AtomicBool::new(false),
        }
    }

    /// The posts on the boards of these groups, whose numbers are those of the sheets that were known.
    pub(crate) fn of(
        alloc: Global,
        known: &[Sheet],
        groups: &[usize],
    ) -> Result<Posts, AllocError> {
        let mut counts = Vec::new(alloc);
        let mut sheets = Vec::new(alloc);
        for group in groups {
            counts.push(AtomicU32::new(0))?;
            sheets.push(known.get(*group).copied().unwrap_or(Sheet::empty()))?;
        }
        Ok(Posts {
            counts,
            known: sheets,
            is_over: AtomicBool::new(false),
        })
    }

    /// Whether somebody looks at the boards.
    pub(crate) fn is_watched(&self) -> bool {
        !self.counts.is_empty()
    }

    /// Whether this shows something of the group of the board with this number that wasn't known before.
    fn is_news(&self, number: usize, shown: &Sheet) -> bool {
        match self.known.get(number) {
            Some(known) => {
                let mut all = *known;
                all.meet(shown);
                all != *known
            }
            None => true,
        }
    }

    /// Notes that this was posted on the board with this number, where it is new.
    pub(crate) fn note(&self, number: usize, shown: &Sheet) {
        if number < self.counts.len() && self.is_news(number, shown) {
            self.counts[number].fetch_add(1, Ordering::SeqCst);
        }
    }

    /// Notes that all was posted.
    pub(crate) fn end(&self) {
        self.is_over.store(true, Ordering::SeqCst);
    }

    /// How often something new was posted on the board with this number.
    pub fn posts_on(&self, number: usize) -> u32 {
        if number < self.counts.len() {
            self.counts[number].load(Ordering::SeqCst)
        } else {
            0
        }
    }

    /// Whether all was posted.
    pub fn is_over(&self) -> bool {
        self.is_over.load(Ordering::SeqCst)
    }
}
