//! Sources and sinks: what contracts say of them.
ghost use Rattle.std.specs.Prelude.{◌≡◌, ℕ, ◌<◌, ◌≤◌, Option, List, [], length, IfOk, OnOk, OnErr};
ghost use Rattle.byte_streams.specs.Streams.{ReadLoses, Gains, WriteGains, Rises, RisesOnErr, IsEnded, IsFlushed, next};

/// A read, a write or a flush that did not come about.
#[derive(Clone, Copy, Debug, PartialEq, Eq)]
pub struct Failed;

/// The next value of a count, which stays at 2^64 - 1.
pub(crate) fn after(count: u64) -> u64
    ensures value { result ≡ next count }
    ensures rises { Rises count result }
{
    count.saturating_add(1)
}

/// Where bytes come from.
pub trait Source {
    /// The bytes that are left, where contracts see them.
    ghost left: { Self → Option (List ℕ) };

    /// How often it has failed. At 2^64 - 1 the count stays.
    ghost faults: { Self → ℕ };

    /// Reads into the first bytes of a buffer and says how many, 0 at the end of the input. After a
    /// failure what was left is still left.
    fn read(&mut self, into: &mut [u8]) -> Result<usize, Failed>
        requires { 0 < length into.old }
        ensures count { IfOk result (λ n. n ≤ length into.new) }
        ensures bytes { ReadLoses (left self.old) (left self.new) result into.new }
        ensures end { IfOk result (λ n. n ≡ 0 → IsEnded (left self.new)) }
        ensures cause { RisesOnErr (faults self.old) (faults self.new) result };
}

/// Where bytes go to.
pub trait Sink {
    /// The bytes that were written, where contracts see them.
    ghost written: { Self → Option (List ℕ) };

    /// How many of them are flushed.
    ghost flushed: { Self → ℕ };

    /// How often it has failed. At 2^64 - 1 the count stays.
    ghost faults: { Self → ℕ };

    /// Writes the first bytes of a piece, at least one, and says how many. After a failure none is written.
    fn write(&mut self, piece: &[u8]) -> Result<usize, Failed>
        requires { 0 < length piece.now }
        ensures some { IfOk result (λ n. 0 < n) }
        ensures count { IfOk result (λ n. n ≤ length piece.now) }
        ensures bytes { WriteGains (written self.old) (written self.new) result piece.now }
        ensures not_flushed { flushed self.new ≡ flushed self.old }
        ensures cause { RisesOnErr (faults self.old) (faults self.new) result };

    /// Sends on what was written. After a failure no more is flushed than before.
    fn flush(&mut self) -> Result<(), Failed>
        ensures bytes { Gains (written self.old) (written self.new) [] }
        ensures all { OnOk result (IsFlushed (written self.new) (flushed self.new)) }
        ensures none { OnErr result (flushed self.new ≡ flushed self.old) }
        ensures cause { RisesOnErr (faults self.old) (faults self.new) result };
}
