//! Sources and sinks in memory, which tell what they hold, and of which calls may be made to fail.

ghost use Rattle.std.specs.Prelude.{◌≡◌, ◌≤◌, ◌<◌, [], ◌^◌, ◌-◌, length, IfOk, OnOk, Some};
ghost use Rattle.std.specs.Io.{ReadsAtMost, WritesAtMost};
ghost use Rattle.std.specs.Io.KnownBytes.{ReadConsumes, WriteAppends};
ghost use Rattle.xf_base.specs.Faults.{HasCause};
ghost use Rattle.std.specs.Result.{result_ok, is_err};
ghost use Rattle.xf_io.specs.Failing.{fails_next, one_more};
ghost use Rattle.xf_io.specs.Memory.{read_count, after_read, write_count, after_write, takes_some, after_flush};

use crate::{Bytes, Failed, FailingCalls, Sink, Source};
use std::alloc::{AllocError, Global};
use std::marker::Model;

/// Bytes in memory, which are read one piece after the other.
#[derive(Drop)]
pub struct MemorySource {
    held: Vec<u8>,
    at: usize,
    piece: usize,
    calls: FailingCalls,
    failed: u64,
}

impl Model for MemorySource {
    ghost use Rattle.std.specs.Prelude.{◌≤◌, ◌<◌, drop, vec_len};
    ghost use Rattle.xf_io.specs.Memory.{HeldSource};

    ghost Value = { HeldSource };

    ghost view = { λ s. record { left = drop s.at s.held.items; piece = s.piece; calls = s.calls; faults = s.failed } };

    ghost invariant = { λ s. (s.at ≤ vec_len s.held) × (0 < s.piece) };
}

impl MemorySource {
    ghost use Rattle.std.specs.Prelude.{max};

    /// A source of these bytes. The reads whose numbers are listed fail, the first being 0, and no other.
    pub fn new(bytes: Vec<u8>, fails: Vec<u64>) -> Self
        ensures { result ≡ record { left = bytes.items; piece = 2 ^ 64 - 1; calls = record { fails = fails.items; made = 0 }; faults = 0 } }
    {
        MemorySource {
            held: bytes,
            at: 0,
            piece: usize::MAX,
            calls: FailingCalls::new(fails),
            failed: 0,
        }
    }

    /// From now on a read gives so many bytes at the most, and one at the least.
    pub fn read_at_most(&mut self, piece: usize)
        ensures { self.new ≡ record self.old { piece = max piece 1 } }
    {
        self.piece = piece.max(1);
    }
}

impl Source for MemorySource {
    ghost left = { λ s. Some s.left };

    ghost faults = { λ s. s.faults };

    fn read(&mut self, into: &mut [u8]) -> Result<usize, Failed>
        ensures bound { ReadsAtMost result into.new }
        ensures bytes { ReadConsumes (Some self.old.left) (Some self.new.left) result into.new }
        ensures cause { HasCause self.old.faults self.new.faults result }
        ensures answer { result_ok result ≡ read_count self.old (length into.old) }
        ensures after { self.new ≡ after_read self.old (result_ok result) }
    {
        if self.calls.fails_now() {
            self.failed = self.failed.saturating_add(1);
            return Err(Failed);
        }
        let rest = &self.held[self.at..];
        let count = rest.len().min(into.len()).min(self.piece);
        into[..count].copy_from_slice(&rest[..count]);
        self.at += count;
        Ok(count)
    }
}

/// A sink in memory. It takes its room when it is made; a write that needs more fails and is counted.
#[derive(Drop)]
pub struct MemorySink {
    held: Vec<u8>,
    flushed: usize,
    room: usize,
    piece: usize,
    calls: FailingCalls,
    failed: u64,
}

impl Model for MemorySink {
    ghost use Rattle.std.specs.Prelude.{◌≤◌, vec_len, vec_capacity};
    ghost use Rattle.xf_io.specs.Memory.{HeldSink};

    ghost Value = { HeldSink };

    ghost view = { λ s. record { taken = s.held.items; flushed = s.flushed; room = s.room; piece = s.piece; calls = s.calls; faults = s.failed } };

    ghost invariant = { λ s. (s.flushed ≤ vec_len s.held) × (s.room ≤ vec_capacity s.held) };
}

impl MemorySink {
    /// An empty sink with room for so many bytes. The calls whose numbers are listed fail, the first being 0.
    pub fn new(alloc: Global, room: usize, fails: Vec<u64>) -> Result<Self, AllocError>
        ensures { IfOk result (λ sink. sink ≡ record { taken = []; flushed = 0; room = room; piece = 2 ^ 64 - 1; calls = record { fails = fails.items; made = 0 }; faults = 0 }) }
    {
        Ok(MemorySink {
            held: Vec::with_capacity(alloc, room)?,
            flushed: 0,
            room,
            piece: usize::MAX,
            calls: FailingCalls::new(fails),
            failed: 0,
        })
    }

    /// From now on a write takes so many bytes at the most.
    pub fn take_at_most(&mut self, piece: usize)
        ensures { self.new ≡ record self.old { piece = piece } }
    {
        self.piece = piece;
    }

    /// How many of the bytes that were taken are flushed.
    pub fn flushed(&self) -> usize
        ensures { result ≡ self.now.flushed }
    {
        self.flushed
    }

    /// The bytes that were taken.
    pub fn into_bytes(self) -> Bytes
        ensures { result ≡ self.taken }
    {
        Bytes::from_vec(self.held)
    }

    // Whether a write of so many bytes is taken.
    fn takes_some(&self, size: usize) -> bool
        ensures { result ≡ takes_some self.now size }
    {
        let count = size.min(self.piece);
        (self.piece > 0 || size == 0)
            && self.held.len() <= self.room
            && count <= self.room - self.held.len()
    }

    fn fault(&mut self) -> Failed
        ensures same { self.new ≡ record self.old { faults = one_more self.old.faults } }
        ensures later { self.old.faults ≤ self.new.faults }
    {
        self.failed = self.failed.saturating_add(1);
        Failed
    }
}

impl Sink for MemorySink {
    ghost taken = { λ s. Some s.taken };

    ghost flushed = { λ s. Some s.flushed };

    ghost faults = { λ s. s.faults };

    fn write(&mut self, bytes: &[u8]) -> Result<usize, Failed>
        ensures bound { WritesAtMost result bytes.now }
        ensures bytes { WriteAppends (Some self.old.taken) (Some self.new.taken) result bytes.now }
        ensures flushed { self.old.flushed ≤ self.new.flushed }
        ensures cause { HasCause self.old.faults self.new.faults result }
        ensures some { 0 < length bytes.now → IfOk result (λ count. 0 < count) }
        ensures steady { OnOk result (self.new.faults ≡ self.old.faults) }
        ensures answer { result_ok result ≡ write_count self.old (length bytes.now) }
        ensures after { self.new ≡ after_write self.old bytes.now (result_ok result) }
    {
        let fails = self.calls.fails_now();
        if fails || !self.takes_some(bytes.len()) {
            return Err(self.fault());
        }
        let count = bytes.len().min(self.piece);
        match self.held.extend_from_slice(&bytes[..count]) {
            Ok(()) => Ok(count),
            Err(_) => Err(self.fault()),
        }
    }

    fn flush(&mut self) -> Result<(), Failed>
        ensures bytes { self.new.taken ≡ self.old.taken }
        ensures all { OnOk result (self.new.flushed ≡ length self.new.taken) }
        ensures flushed { self.old.flushed ≤ self.new.flushed }
        ensures cause { HasCause self.old.faults self.new.faults result }
        ensures steady { OnOk result (self.new.faults ≡ self.old.faults) }
        ensures answer { is_err result ≡ fails_next self.old.calls }
        ensures after { self.new ≡ after_flush self.old }
    {
        if self.calls.fails_now() {
            return Err(self.fault());
        }
        self.flushed = self.held.len();
        Ok(())
    }
}
