//! Streams of the system as sources and sinks.
ghost use Rattle.std.specs.Prelude.{◌≡◌, None, ◌<◌, ◌≤◌, [], length, IfOk, OnOk, OnErr};
ghost use Rattle.std.specs.Io.KnownBytes.{Keeps, ReadConsumes, WriteAppends};
ghost use Rattle.byte_streams.specs.Streams.{ReadLoses, Gains, WriteGains, Rises, RisesOnErr, IsEnded, IsFlushed, next};
ghost use Rattle.byte_streams.specs.Standard.{Port, untold};

use crate::streams::after;
use crate::{Failed, Sink, Source};
use std::io::{self, ErrorKind, Read, Write};
use std::marker::Model;

/// Reads, and reads again where a signal interrupted the call.
fn read_uninterrupted<R: Read>(reader: &mut R, into: &mut [u8]) -> io::Result<usize>
    ensures count { IfOk result (λ n. n ≤ length into.new) }
    ensures consumes { ReadConsumes (R.remaining reader.old) (R.remaining reader.new) result into.new }
    ensures len { length into.new ≡ length into.old }
{
    for _ in 0..u64::MAX {
        match reader.read(into) {
            Err(error) if error.kind() == ErrorKind::Interrupted => {}
            done => return done,
        }
    }
    Err(io::Error::from(ErrorKind::Interrupted))
}

/// Writes, and writes again where a signal interrupted the call.
fn write_uninterrupted<W: Write>(writer: &mut W, piece: &[u8]) -> io::Result<usize>
    ensures count { IfOk result (λ n. n ≤ length piece.now) }
    ensures appends { WriteAppends (W.contents writer.old) (W.contents writer.new) result piece.now }
{
    for _ in 0..u64::MAX {
        match writer.write(piece) {
            Err(error) if error.kind() == ErrorKind::Interrupted => {}
            done => return done,
        }
    }
    Err(io::Error::from(ErrorKind::Interrupted))
}

/// Flushes, and flushes again where a signal interrupted the call.
fn flush_uninterrupted<W: Write>(writer: &mut W) -> io::Result<()>
    ensures keeps { Keeps (W.contents writer.old) (W.contents writer.new) }
{
    for _ in 0..u64::MAX {
        match writer.flush() {
            Err(error) if error.kind() == ErrorKind::Interrupted => {}
            done => return done,
        }
    }
    Err(io::Error::from(ErrorKind::Interrupted))
}

/// A stream of the system. Contracts see the count of its failures, and none of its bytes.
#[derive(Drop)]
pub struct StdStream<S> {
    stream: S,
    faults: u64,
}

/// A reader of the system as a source. The clause `consumes` says what a read took from the reader, where the reader's
/// contract speaks of it.
pub type StdSource<R> = StdStream<R>;

/// A writer of the system as a sink. The clause `appends` says what a write appended to the writer, where the writer's
/// contract speaks of it; that a flush reaches the system no clause can say.
pub type StdSink<W> = StdStream<W>;

impl<S> Model for StdStream<S> {
    ghost Value = { Port S };

    ghost view = { λ a. record { stream = a.stream; faults = a.faults } };
}

impl<S> StdStream<S> {
    /// A stream that has not failed yet.
    pub fn new(stream: S) -> StdStream<S>
        ensures { result ≡ record { stream = stream; faults = 0 } }
    {
        StdStream { stream, faults: 0 }
    }

    /// Counts a failure.
    fn fail(&mut self) -> Failed
        ensures rises { Rises self.old.faults self.new.faults }
        ensures once { self.new.faults ≡ next self.old.faults }
        ensures stream { self.new.stream ≡ self.old.stream }
    {
        self.faults = after(self.faults);
        Failed
    }
}

impl<R: Read> Source for StdStream<R> {
    ghost left = { λ _. untold };

    ghost faults = { λ s. s.faults };

    fn read(&mut self, into: &mut [u8]) -> Result<usize, Failed>
        requires { 0 < length into.old }
        ensures count { IfOk result (λ n. n ≤ length into.new) }
        ensures bytes { ReadLoses untold untold result into.new }
        ensures end { IfOk result (λ n. n ≡ 0 → IsEnded untold) }
        ensures cause { RisesOnErr self.old.faults self.new.faults result }

        ensures once { OnErr result (self.new.faults ≡ next self.old.faults) }

        // Where the reader's contract speaks of its bytes: exactly these were taken from it, and none only at its end.
        ensures consumes { ReadConsumes (R.remaining self.old.stream) (R.remaining self.new.stream) result into.new }
    {
        match read_uninterrupted(&mut self.stream, into) {
            Ok(n) => Ok(n),
            Err(_) => Err(self.fail()),
        }
    }
}

impl<W: Write> Sink for StdStream<W> {
    ghost written = { λ _. untold };

    ghost flushed = { λ _. 0 };

    ghost faults = { λ s. s.faults };

    fn write(&mut self, piece: &[u8]) -> Result<usize, Failed>
        requires { 0 < length piece.now }
        ensures some { IfOk result (λ n. 0 < n) }
        ensures count { IfOk result (λ n. n ≤ length piece.now) }
        ensures bytes { WriteGains untold untold result piece.now }
        ensures cause { RisesOnErr self.old.faults self.new.faults result }

        ensures once { OnErr result (self.new.faults ≡ next self.old.faults) }

        // Where the writer's contract speaks of its bytes: exactly these were appended to it.
        ensures appends { WriteAppends (W.contents self.old.stream) (W.contents self.new.stream) result piece.now }
    {
        match write_uninterrupted(&mut self.stream, piece) {
            // A writer that takes nothing would be asked forever.
            Ok(0) | Err(_) => Err(self.fail()),
            Ok(taken) => Ok(taken),
        }
    }

    fn flush(&mut self) -> Result<(), Failed>
        ensures bytes { Gains untold untold [] }
        ensures all { OnOk result (IsFlushed untold 0) }
        ensures cause { RisesOnErr self.old.faults self.new.faults result }
        ensures once { OnErr result (self.new.faults ≡ next self.old.faults) }
        ensures keeps { Keeps (W.contents self.old.stream) (W.contents self.new.stream) }
    {
        match flush_uninterrupted(&mut self.stream) {
            Ok(()) => Ok(()),
            Err(_) => Err(self.fail()),
        }
    }
}
