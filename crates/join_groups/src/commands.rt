//! The commands `join` and `evidence`.
ghost use Rattle.std.specs.Prelude.{◌≡◌, []};
ghost use Rattle.join_groups.specs.Meanings.{groups_meaning};
ghost use Rattle.join_groups.specs.inside.Kept.{StandsFor};

use crate::groups::NamedGroups;
use crate::taking::take_line;
use crate::telling::{GroupWriter, append_groups};
use byte_streams::Status;
use input_lines::one_line;
use line_engine::{Command, Refusal};
use receiver_pool::Joiner;
use std::alloc::{AllocError, Global};

/// The command that writes a line of each group once its lines are all known: `join` the group's answer, `evidence` its
/// ends. Workers join its receptions.
#[derive(Drop)]
pub struct WriteGroups<W: Joiner, T: GroupWriter> {
    alloc: Global,
    workers: W,
    groups: NamedGroups,
    teller: T,
}

impl<W: Joiner, T: GroupWriter> WriteGroups<W, T> {
    /// The command before its first line.
    pub fn new(alloc: Global, workers: W, teller: T) -> WriteGroups<W, T>
        ensures groups { StandsFor result.groups [] [] }
        ensures workers { result.workers ≡ workers }
    {
        WriteGroups {
            alloc,
            workers,
            groups: NamedGroups::new(alloc),
            teller,
        }
    }
}

impl<W: Joiner, T: GroupWriter> Command for WriteGroups<W, T> {
    ghost meaning = { groups_meaning T.tells };

    ghost stands_for = { λ command lines text. W.can_join command.workers × StandsFor command.groups lines text };

    fn take(&mut self, line: &[u8], _out: &mut Vec<u8>) -> Result<(), Refusal> {
        one_line();
        take_line(&mut self.groups, &self.workers, self.alloc, line)
    }

    fn finish(&mut self, out: &mut Vec<u8>) -> Result<Status, AllocError> {
        self.groups.close_batch(&self.workers)?;
        Ok(Status::of(append_groups::<T>(&self.groups, out)?))
    }

    ghost gives = { λ command lines text stands. stands.1.text_is };
}
