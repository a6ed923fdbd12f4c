//! In-memory streams that never fail.
ghost use Rattle.std.specs.Prelude.{◌≡◌, ◌+◌, ◌-◌, ◌<◌, ◌≤◌, Some, [], true, drop, length, take, vec_len, vec_capacity, IfOk, IsOk, OnOk, OnErr};
ghost use Rattle.byte_streams.specs.Streams.{ReadLoses, Gains, WriteGains, RisesOnErr, IsEnded, IsFlushed};
ghost use Rattle.byte_streams.specs.Sure.{Supply, Store, no_faults, told, stored};

use crate::{Failed, NoMemory, Sink, Source};
use std::alloc::Global;
use std::marker::Model;

/// An in-memory source that never fails. Contracts see its bytes.
#[derive(Drop)]
pub struct SureSource {
    bytes: Vec<u8>,
    at: usize,
    piece: usize,
}

impl Model for SureSource {
    ghost Value = { Supply };

    ghost view = { λ a. record { left = drop a.at a.bytes.items; piece = a.piece } };

    ghost invariant = { λ a. (a.at ≤ length a.bytes.items) × (1 ≤ a.piece) };
}

impl SureSource {
    /// A source of these bytes, of which a read gives at most `piece`.
    pub fn new(bytes: Vec<u8>, piece: usize) -> SureSource
        requires { 1 ≤ piece }
        ensures left { result.left ≡ bytes.items }
        ensures piece { result.piece ≡ piece }
    {
        SureSource {
            bytes,
            at: 0,
            piece,
        }
    }
}

impl Source for SureSource {
    ghost left = { λ s. Some s.left };

    ghost faults = { λ _. no_faults };

    fn read(&mut self, into: &mut [u8]) -> Result<usize, Failed>
        requires { 0 < length into.old }
        ensures count { IfOk result (λ n. n ≤ length into.new) }
        ensures bytes { ReadLoses (Some self.old.left) (Some self.new.left) result into.new }
        ensures end { IfOk result (λ n. n ≡ 0 → IsEnded (Some self.new.left)) }
        ensures cause { RisesOnErr no_faults no_faults result }
        ensures sure { IsOk result }
        ensures most { IfOk result (λ n. n ≤ self.old.piece) }
        ensures piece { self.new.piece ≡ self.old.piece }
    {
        let rest = &self.bytes[self.at..];
        let n = rest.len().min(into.len()).min(self.piece);
        into[..n].copy_from_slice(&rest[..n]);
        self.at += n;
        Ok(n)
    }
}

/// An in-memory sink that never fails. It drops what has no room, and contracts see its bytes while it has dropped
/// none.
#[derive(Drop)]
pub struct SureSink {
    kept: Vec<u8>,
    room: usize,
    whole: bool,
    piece: usize,
    flushed: usize,
}

impl Model for SureSink {
    ghost Value = { Store };

    ghost view = { λ a. record {
      kept = a.kept.items;
      room = a.room;
      whole = a.whole;
      piece = a.piece;
      flushed = a.flushed;
    } };

    ghost invariant = { λ a. (vec_len a.kept ≤ a.room) × (a.room ≤ vec_capacity a.kept) × (1 ≤ a.piece) };
}

impl SureSink {
    /// A sink with room for so many bytes, of which a write takes at most `piece`.
    pub fn new(alloc: Global, room: usize, piece: usize) -> Result<SureSink, NoMemory>
        requires { 1 ≤ piece }
        ensures { IfOk result (λ s. s ≡ record { kept = []; room = room; whole = true; piece = piece; flushed = 0 }) }
    {
        Ok(SureSink {
            kept: Vec::with_capacity(alloc, room)?,
            room,
            whole: true,
            piece,
            flushed: 0,
        })
    }

    /// The bytes that it has kept.
    pub fn bytes(&self) -> &[u8]
        ensures { result.now ≡ self.now.kept }
    {
        &self.kept
    }

    /// How many more bytes it can keep.
    pub(crate) fn room_left(&self) -> usize
        ensures { result ≡ self.now.room - length self.now.kept }
    {
        self.room - self.kept.len()
    }

    /// Keeps as many of these bytes as have room.
    fn keep(&mut self, bytes: &[u8])
        ensures { self.new ≡ stored self.old bytes.now }
    {
        let fits = bytes.len().min(self.room - self.kept.len());
        self.whole = self.whole && fits == bytes.len();
        // It has the capacity.
        let _ = self.kept.extend_from_slice(&bytes[..fits]);
    }
}

impl Sink for SureSink {
    ghost written = { told };

    ghost flushed = { λ s. s.flushed };

    ghost faults = { λ _. no_faults };

    fn write(&mut self, piece: &[u8]) -> Result<usize, Failed>
        requires { 0 < length piece.now }
        ensures some { IfOk result (λ n. 0 < n) }
        ensures count { IfOk result (λ n. n ≤ length piece.now) }
        ensures bytes { WriteGains (told self.old) (told self.new) result piece.now }
        ensures not_flushed { self.new.flushed ≡ self.old.flushed }
        ensures cause { RisesOnErr no_faults no_faults result }
        ensures sure { IsOk result }
        ensures most { IfOk result (λ n. n ≤ self.old.piece) }
        ensures kept { IfOk result (λ n. self.new ≡ stored self.old (take n piece.now)) }
        ensures fits { length self.new.kept ≤ self.new.room }
    {
        let n = piece.len().min(self.piece);
        self.keep(&piece[..n]);
        Ok(n)
    }

    fn flush(&mut self) -> Result<(), Failed>
        ensures bytes { Gains (told self.old) (told self.new) [] }
        ensures all { OnOk result (IsFlushed (told self.new) self.new.flushed) }
        ensures none { OnErr result (self.new.flushed ≡ self.old.flushed) }
        ensures cause { RisesOnErr no_faults no_faults result }
        ensures sure { IsOk result }
        ensures kept { self.new ≡ record self.old { flushed = length self.old.kept } }
    {
        self.flushed = self.kept.len();
        Ok(())
    }
}
