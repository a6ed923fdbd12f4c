//! In-memory streams of which some calls fail, for tests.
ghost use Rattle.std.specs.Prelude.{◌≡◌, ◌+◌, ◌-◌, ◌<◌, ◌≤◌, ◌⊎◌, ◌↔◌, Some, [], length, IfOk, IsErr, OnOk, OnErr};
ghost use Rattle.std.specs.List.{Contains};
ghost use Rattle.byte_streams.specs.Streams.{ReadLoses, Gains, WriteGains, Rises, RisesOnErr, IsEnded, IsFlushed, next};

use crate::streams::after;
use crate::{Failed, NoMemory, Sink, Source, SureSink, SureSource};
use std::alloc::Global;
use std::marker::Model;

/// The calls of an object in memory: the numbers, from 1, of those that fail, how many there were, and
/// how many failed.
#[derive(Drop)]
struct Calls {
    fail: Vec<u64>,
    count: u64,
    faults: u64,
}

impl Calls {
    /// No calls yet, of which those with these numbers are to fail.
    fn new(fail: Vec<u64>) -> Calls
        ensures { result ≡ record { fail = fail; count = 0; faults = 0 } }
    {
        Calls {
            fail,
            count: 0,
            faults: 0,
        }
    }

    /// Counts a call, and fails where it is one of those that fail.
    fn begin(&mut self) -> Result<(), Failed>
        ensures fails { IsErr result ↔ Contains self.old.fail.items (next self.old.count) }
        ensures count { self.new.count ≡ next self.old.count }
        ensures cause { RisesOnErr self.old.faults self.new.faults result }
        ensures once { OnErr result (self.new.faults ≡ next self.old.faults) }
        ensures fail { self.new.fail ≡ self.old.fail }
    {
        self.count = after(self.count);
        if self.fail.contains(&self.count) {
            return Err(self.fault());
        }
        Ok(())
    }

    /// Counts a failure.
    fn fault(&mut self) -> Failed
        ensures rises { Rises self.old.faults self.new.faults }
        ensures once { self.new.faults ≡ next self.old.faults }
        ensures count { self.new.count ≡ self.old.count }
        ensures fail { self.new.fail ≡ self.old.fail }
    {
        self.faults = after(self.faults);
        Failed
    }
}

/// An in-memory source of which some reads fail. Contracts see its bytes.
#[derive(Drop)]
pub struct ByteSource {
    source: SureSource,
    calls: Calls,
}

impl Model for ByteSource {
    ghost use Rattle.byte_streams.specs.Failing.{FailingSupply};

    ghost Value = { FailingSupply };

    ghost view = { λ a. record {
      left = a.source.left;
      piece = a.source.piece;
      fail = a.calls.fail.items;
      calls = a.calls.count;
      faults = a.calls.faults;
    } };
}

impl ByteSource {
    /// A source of these bytes, of which a read gives at most `piece`. Reads are numbered from 1, and
    /// those whose number is in `fail` fail.
    pub fn new(bytes: Vec<u8>, piece: usize, fail: Vec<u64>) -> ByteSource
        requires { 1 ≤ piece }
        ensures { result ≡ record { left = bytes.items; piece = piece; fail = fail.items; calls = 0; faults = 0 } }
    {
        ByteSource {
            source: SureSource::new(bytes, piece),
            calls: Calls::new(fail),
        }
    }
}

impl Source for ByteSource {
    ghost left = { λ s. Some s.left };

    ghost faults = { λ s. s.faults };

    fn read(&mut self, into: &mut [u8]) -> Result<usize, Failed>
        requires { 0 < length into.old }
        ensures count { IfOk result (λ n. n ≤ length into.new) }
        ensures bytes { ReadLoses (Some self.old.left) (Some self.new.left) result into.new }
        ensures end { IfOk result (λ n. n ≡ 0 → IsEnded (Some self.new.left)) }
        ensures cause { RisesOnErr self.old.faults self.new.faults result }
        ensures once { OnErr result (self.new.faults ≡ next self.old.faults) }
        ensures fails { IsErr result ↔ Contains self.old.fail (next self.old.calls) }
        ensures calls { self.new.calls ≡ next self.old.calls }
        ensures most { IfOk result (λ n. n ≤ self.old.piece) }
        ensures piece { self.new.piece ≡ self.old.piece }
        ensures fail { self.new.fail ≡ self.old.fail }
    {
        self.calls.begin()?;
        self.source.read(into)
    }
}

/// An in-memory sink of which some calls fail, and each write without room. Contracts see its bytes.
#[derive(Drop)]
pub struct ByteSink {
    sink: SureSink,
    calls: Calls,
}

impl Model for ByteSink {
    ghost use Rattle.byte_streams.specs.Failing.{FailingStore};

    ghost Value = { FailingStore };

    ghost view = { λ a. record {
      kept = a.sink.kept;
      room = a.sink.room;
      piece = a.sink.piece;
      flushed = a.sink.flushed;
      fail = a.calls.fail.items;
      calls = a.calls.count;
      faults = a.calls.faults;
    } };
}

impl ByteSink {
    /// A sink with room for so many bytes, of which a write takes at most `piece`. Writes and flushes
    /// are numbered together from 1, and those whose number is in `fail` fail.
    pub fn new(
        alloc: Global,
        room: usize,
        piece: usize,
        fail: Vec<u64>,
    ) -> Result<ByteSink, NoMemory>
        requires { 1 ≤ piece }
        ensures { IfOk result (λ s. s
            ≡ record { kept = []; room = room; piece = piece; flushed = 0; fail = fail.items; calls = 0; faults = 0 }) }
    {
        Ok(ByteSink {
            sink: SureSink::new(alloc, room, piece)?,
            calls: Calls::new(fail),
        })
    }

    /// The bytes that it has kept.
    pub fn bytes(&self) -> &[u8]
        ensures { result.now ≡ self.now.kept }
    {
        self.sink.bytes()
    }
}

impl Sink for ByteSink {
    ghost written = { λ s. Some s.kept };

    ghost flushed = { λ s. s.flushed };

    ghost faults = { λ s. s.faults };

    fn write(&mut self, piece: &[u8]) -> Result<usize, Failed>
        requires { 0 < length piece.now }
        ensures some { IfOk result (λ n. 0 < n) }
        ensures count { IfOk result (λ n. n ≤ length piece.now) }
        ensures bytes { WriteGains (Some self.old.kept) (Some self.new.kept) result piece.now }
        ensures not_flushed { self.new.flushed ≡ self.old.flushed }
        ensures cause { RisesOnErr self.old.faults self.new.faults result }
        ensures once { OnErr result (self.new.faults ≡ next self.old.faults) }
        ensures fails { IsErr result ↔ (Contains self.old.fail (next self.old.calls)
            ⊎ (self.old.room ≤ length self.old.kept)) }
        ensures calls { self.new.calls ≡ next self.old.calls }
        ensures most { IfOk result (λ n. n ≤ self.old.piece) }
        ensures fits { IfOk result (λ _. length self.new.kept ≤ self.new.room) }
        ensures room { self.new.room ≡ self.old.room }
        ensures piece { self.new.piece ≡ self.old.piece }
        ensures fail { self.new.fail ≡ self.old.fail }
    {
        self.calls.begin()?;
        let fits = piece.len().min(self.sink.room_left());
        if fits == 0 {
            return Err(self.calls.fault());
        }
        self.sink.write(&piece[..fits])
    }

    fn flush(&mut self) -> Result<(), Failed>
        ensures bytes { Gains (Some self.old.kept) (Some self.new.kept) [] }
        ensures all { OnOk result (IsFlushed (Some self.new.kept) self.new.flushed) }
        ensures none { OnErr result (self.new.flushed ≡ self.old.flushed) }
        ensures cause { RisesOnErr self.old.faults self.new.faults result }
        ensures once { OnErr result (self.new.faults ≡ next self.old.faults) }
        ensures fails { IsErr result ↔ Contains self.old.fail (next self.old.calls) }
        ensures calls { self.new.calls ≡ next self.old.calls }
        ensures room { self.new.room ≡ self.old.room }
        ensures piece { self.new.piece ≡ self.old.piece }
        ensures fail { self.new.fail ≡ self.old.fail }
    {
        self.calls.begin()?;
        self.sink.flush()
    }
}
