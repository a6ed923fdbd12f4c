//! The command `watch`.
ghost use Rattle.std.specs.Prelude.{◌≡◌, ◌≢◌, ◌⊎◌, ℕ, ◌+◌, ◌<◌, ◌++◌, ◌∷◌, [], true, List, IfErr, OnOk};
ghost use Rattle.input_lines.specs.ReceiverLine.{ReceiverLine as Line};
ghost use Rattle.input_lines.specs.Lines.{Says};
ghost use Rattle.join_groups.specs.Meanings.{BringsTooMany};
ghost use Rattle.join_groups.specs.Holds.{HoldsSome};
ghost use Rattle.join_groups.specs.Groups.{is_among, is_named};
ghost use Rattle.join_groups.specs.declared.groups.NamedGroups.{NamedGroups as Held};
ghost use Rattle.join_groups.specs.inside.Kept.{Keeps, IsShort};
ghost use Rattle.watch_groups.specs.Meaning.{watch_meaning};
ghost use Rattle.watch_groups.specs.Telling.{told_text};
ghost use Rattle.watch_groups.specs.inside.Names.{Names};
ghost use Rattle.watch_groups.specs.inside.Kept.{Watches, StandsFor, LooksThrough};
ghost use Rattle.watch_groups.specs.inside.Gives.{gives_told};

use crate::closing::close_watched;
use crate::telling::{Judged, ToldCalls, look_through, note_untold, watcher_of};
use byte_streams::Status;
use input_lines::{JoinLine, LineFault, join_line, one_line};
use join_groups::{MOST_IN_BATCH, NamedGroups, Waiting, WriteAnswers, append_groups, take_read};
use line_engine::{Command, Refusal};
use live_watch::{WatchedJoiner, told_calls};
use std::alloc::{AllocError, Global};

/// The command that writes a call of each group as soon as a batch ends that reports it, and at the input's end answers
/// as `join` does. A batch ends at each 256th reception, and where the engine pauses, before it reads on. Workers join
/// its receptions while a watcher looks on. Where one worker works alone, a reception waits for the batch only if it
/// shows something new of a group of which no call was told.
#[derive(Drop)]
pub struct WatchGroups<W: WatchedJoiner> {
    alloc: Global,
    workers: W,
    groups: NamedGroups,
    /// How many receptions came since the last 256th one. A pause ends the batch too, and leaves this as it is.
    heard: usize,
    /// The groups that the lines of the open batch named, but for those of which a call was told.
    named: Vec<u32>,
    told: ToldCalls,
    judged: Judged,
}

/// What a line names.
#[derive(Clone, Copy, Debug, PartialEq, Eq)]
enum Naming {
    Nothing,
    /// A group, by evidence.
    Evidence(u32),
    /// A group, by a reception.
    Reception(u32),
}

/// What a line that was read names.
fn named_by(read: &JoinLine) -> Naming
    ensures { (line : Line) → Says line read.now → Names line result }
{
    match read {
        JoinLine::Nothing => Naming::Nothing,
        JoinLine::Evidence { group, .. } => Naming::Evidence(*group),
        JoinLine::Reception { group, .. } => Naming::Reception(*group),
    }
}

/// A reception of a group of which a call is still to be told waits if it shows something new.
fn waiting_of(told: &ToldCalls, named: Naming) -> Waiting {
    match named {
        Naming::Reception(group) if !told.has(group) => Waiting::WithMore,
        _ => Waiting::Never,
    }
}

impl<W: WatchedJoiner> WatchGroups<W> {
    /// The command before its first line.
    pub fn new(alloc: Global, workers: W) -> WatchGroups<W>
        ensures stands { StandsFor result.groups result.named.items result.told result.heard [] [] }
        ensures workers { result.workers ≡ workers }
    {
        told_calls();
        WatchGroups {
            alloc,
            workers,
            groups: NamedGroups::new(alloc),
            heard: 0,
            named: Vec::new(alloc),
            told: ToldCalls::new(alloc),
            judged: Judged::new(alloc),
        }
    }

    /// Ends the open batch, and writes the calls of the groups that its lines named.
    fn end_batch(&mut self, out: &mut Vec<u8>) -> Result<(), AllocError>
        requires joins { W.can_join self.old.workers }
        requires ready { HoldsSome self.old.groups }
        ensures workers { OnOk result (self.new.workers ≡ self.old.workers) }
        ensures ended { OnOk result ((self.new.groups.batch.items ≡ []) × (self.new.named.items ≡ [])
            × (self.new.heard ≡ self.old.heard)) }
        ensures keeps { OnOk result ((said : List Line) → Keeps self.old.groups said → Keeps self.new.groups said) }
        ensures told { OnOk result ((said : List Line) → Keeps self.old.groups said
            → ((k : ℕ) → is_among self.old.named.items k ≡ true → is_named said k ≡ true)
            → LooksThrough said self.old.named.items [] self.old.told out.old.items self.new.told
            out.new.items) }
    {
        let begun = watcher_of(self.alloc, &self.groups, &self.named, &self.judged)?;
        let watcher = close_watched(&mut self.groups, &self.workers, begun)?;
        look_through(
            &self.groups,
            &watcher,
            &self.named,
            &mut self.told,
            &mut self.judged,
            out,
        )?;
        self.named.clear();
        Ok(())
    }

    /// Counts a line after which the groups are as they are now. A reception may end the batch.
    fn count(&mut self, named: Naming, out: &mut Vec<u8>) -> Result<(), AllocError>
        requires joins { W.can_join self.old.workers }
        requires ready { HoldsSome self.old.groups }
        requires few { self.old.heard < MOST_IN_BATCH }
        ensures workers { OnOk result (self.new.workers ≡ self.old.workers) }
        ensures stands { OnOk result ((before : Held) (said : List Line) (line : Line) (written : List ℕ)
            → Watches before self.old.named.items self.old.told self.old.heard said
            → Keeps self.old.groups (said ++ line ∷ []) → Names line named
            → written ++ out.old.items ≡ told_text self.old.told
            → Watches self.new.groups self.new.named.items self.new.told self.new.heard (said ++ line ∷ [])
            × (written ++ out.new.items ≡ told_text self.new.told)) }
    {
        told_calls();
        match named {
            Naming::Nothing => Ok(()),
            Naming::Evidence(group) => {
                note_untold(&mut self.named, &self.told, group)?;
                Ok(())
            }
            Naming::Reception(group) => {
                note_untold(&mut self.named, &self.told, group)?;
                self.heard += 1;
                if self.heard == MOST_IN_BATCH {
                    self.heard = 0;
                    self.end_batch(out)?;
                }
                Ok(())
            }
        }
    }

    /// Takes a line that was read.
    fn take_line(&mut self, read: JoinLine, out: &mut Vec<u8>) -> Result<(), Refusal>
        requires short { IsShort read }
        requires joins { W.can_join self.old.workers }
        requires ready { (said : List Line) × Keeps self.old.groups said }
        requires says { (line : Line) × Says line read }
        requires few { self.old.heard < MOST_IN_BATCH }
        ensures workers { OnOk result (self.new.workers ≡ self.old.workers) }
        ensures stands { OnOk result ((said : List Line) (line : Line) (written : List ℕ)
            → Watches self.old.groups self.old.named.items self.old.told self.old.heard said
            → Says line read → written ++ out.old.items ≡ told_text self.old.told
            → (BringsTooMany said line → ⊥)
            × Watches self.new.groups self.new.named.items self.new.told self.new.heard (said ++ line ∷ [])
            × (written ++ out.new.items ≡ told_text self.new.told)) }
        ensures refused { IfErr result (λ refusal. (refusal ≡ Refusal.Memory)
            ⊎ ((said : List Line) (line : Line) → Keeps self.old.groups said
            → Says line read → (refusal ≡ Refusal.TooManyGroups) × BringsTooMany said line)) }
        ensures unsaid { IfErr result (λ refusal. refusal ≢ Refusal.Memory → out.new.items ≡ out.old.items) }
    {
        let named = named_by(&read);
        let waiting = waiting_of(&self.told, named);
        take_read(&mut self.groups, self.workers.reading(), waiting, read)?;
        self.count(named, out)?;
        Ok(())
    }
}

impl<W: WatchedJoiner> Command for WatchGroups<W> {
    ghost meaning = { watch_meaning };

    ghost stands_for = { λ command lines text. W.can_join command.workers
        × StandsFor command.groups command.named.items command.told command.heard lines text };

    fn take(&mut self, line: &[u8], out: &mut Vec<u8>) -> Result<(), Refusal> {
        one_line();
        match join_line(self.alloc, line) {
            Ok(read) => self.take_line(read, out),
            Err(LineFault::Column(n)) => Err(Refusal::Column(n)),
            Err(LineFault::NoMemory) => Err(Refusal::Memory),
        }
    }

    fn pause(&mut self, out: &mut Vec<u8>) -> Result<(), AllocError> {
        if !self.named.is_empty() {
            self.end_batch(out)?;
        }
        Ok(())
    }

    fn finish(&mut self, out: &mut Vec<u8>) -> Result<Status, AllocError> {
        self.end_batch(out)?;
        Ok(Status::of(append_groups::<WriteAnswers>(&self.groups, out)?))
    }

    ghost gives = { λ command lines text stands. gives_told stands.1 };
}
