//! The bytes that were read and not yet taken.
ghost use Rattle.std.specs.Prelude.{◌≡◌, ℕ, ◌+◌, ◌-◌, ◌≤◌, List, [], ◌++◌, length, drop, IfOk, OnOk, OnErr};
ghost use Rattle.byte_streams.specs.Streams.{Loses, Rises, IsEnded};

use crate::bounds::{LONGEST_LINE, PIECE};
use byte_streams::{Failed, Source};
use std::alloc::{AllocError, Global};
use std::marker::Model;

/// The bytes of an open line, and one piece.
const ROOM: usize = LONGEST_LINE + PIECE;

/// The bytes of the input that were read and are not yet done with.
#[derive(Drop)]
pub(crate) struct Window {
    room: Vec<u8>,
    len: usize,
}

impl Model for Window {
    ghost use Rattle.std.specs.Prelude.{◌≡◌, ◌≤◌, ℕ, List, take, vec_len};
    ghost use Rattle.line_engine.specs.declared.window.TheConstants.{ROOM};

    ghost Value = { List ℕ };

    ghost view = { λ w. take w.len w.room.items };

    ghost invariant = { λ w. (vec_len w.room ≡ ROOM) × (w.len ≤ ROOM) };
}

impl Window {
    /// A window on nothing.
    pub(crate) fn new(alloc: Global) -> Result<Window, AllocError>
        ensures { IfOk result (λ window. window ≡ []) }
    {
        Ok(Window {
            room: vec![in alloc; 0; ROOM]?,
            len: 0,
        })
    }

    /// Its bytes.
    pub(crate) fn bytes(&self) -> &[u8]
        ensures { result.now ≡ self.now }
    {
        &self.room[..self.len]
    }

    /// Keeps the last bytes alone, so many of them.
    pub(crate) fn keep_last(&mut self, left: usize)
        requires { left ≤ length self.old }
        ensures { self.new ≡ drop (length self.old - left) self.old }
    {
        let start = self.len - left;
        self.room.copy_within(start..self.len, 0);
        self.len = left;
    }

    /// Reads at most one piece after its bytes, and answers how many came, 0 at the end of the input.
    pub(crate) fn read<S: Source>(&mut self, source: &mut S) -> Result<usize, Failed>
        requires { length self.old ≤ LONGEST_LINE }
        ensures given { IfOk result (λ n. (given : List ℕ) × (self.new ≡ self.old ++ given) × (length given ≡ n)
            × Loses (S.left source.old) (S.left source.new) given) }
        ensures most { IfOk result (λ n. n ≤ PIECE) }
        ensures end { IfOk result (λ n. n ≡ 0 → IsEnded (S.left source.new)) }
        ensures sound { OnOk result (S.faults source.new ≡ S.faults source.old) }
        ensures kept { OnErr result (self.new ≡ self.old) }
        ensures lost { OnErr result (Loses (S.left source.old) (S.left source.new) []) }
        ensures cause { OnErr result (Rises (S.faults source.old) (S.faults source.new)) }
    {
        let end = self.len + PIECE;
        match source.read(&mut self.room[self.len..end]) {
            Ok(n) => {
                self.len += n;
                Ok(n)
            }
            Err(Failed) => Err(Failed),
        }
    }
}
