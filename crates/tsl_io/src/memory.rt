//! A source and a sink in memory, whose calls fail where a caller asks for it.
ghost use Rattle.std.specs.Prelude.{◌≡◌, ℕ, ◌+◌, ◌-◌, ◌<◌, ◌≤◌, ◌↔◌, ◌⊎◌, ◌++◌, [], List, length, take, drop, min, Option, Some, IfOk, IsErr, IsTrue, OnOk, OnErr, Contains};
ghost use Rattle.tsl_io.specs.Told.{before, with_added, WhereTold};
ghost use Rattle.tsl_io.specs.Faults.{next_count, Faulted};
ghost use Rattle.tsl_io.specs.Memory.{no_calls, FailsNext, with_success, with_fault, room_left};

use crate::{Failed, Sink, Source, count_fault};
use std::alloc::{AllocError as NoMemory, Global};
use std::marker::Model;

/// Which calls of a device fail, and how many were made and failed.
#[derive(Drop)]
struct Schedule {
    named: Vec<u64>,
    made: u64,
    faults: u64,
}

impl Model for Schedule {
    ghost use Rattle.tsl_io.specs.Memory.{Calls};

    ghost Value = { Calls };

    ghost view = { λ s. record { named = s.named.items; made = s.made; faults = s.faults } };
}

impl Schedule {
    /// No call was made.
    fn new(named: Vec<u64>) -> Schedule
        ensures { result ≡ no_calls named.items }
    {
        Schedule {
            named,
            made: 0,
            faults: 0,
        }
    }

    /// Whether the next call fails by its ordinal.
    fn fails_next(&self) -> bool
        ensures { IsTrue result ↔ FailsNext self.now }
    {
        self.named.contains(&self.made.saturating_add(1))
    }

    /// Counts a call that did not fail.
    fn succeed(&mut self)
        ensures { self.new ≡ with_success self.old }
    {
        self.made = self.made.saturating_add(1);
    }

    /// Counts a call that failed.
    fn fail(&mut self)
        ensures after { self.new ≡ with_fault self.old }
        ensures cause { Faulted self.old.faults self.new.faults }
    {
        self.made = self.made.saturating_add(1);
        let _ = count_fault(&mut self.faults);
    }
}

/// A source of bytes in memory, which tells them. It gives at most `piece` bytes a call, and the
/// calls that were named fail.
#[derive(Drop)]
pub struct MemorySource {
    bytes: Vec<u8>,
    given: usize,
    piece: usize,
    schedule: Schedule,
}

impl Model for MemorySource {
    ghost use Rattle.std.specs.Prelude.{◌≤◌, length, drop};
    ghost use Rattle.tsl_io.specs.Memory.{SourceState};

    ghost Value = { SourceState };

    ghost view = { λ s. record { left = drop s.given s.bytes.items; piece = s.piece; calls = s.schedule } };

    ghost invariant = { λ s. (s.given ≤ length s.bytes.items) × (1 ≤ s.piece) };
}

impl MemorySource {
    /// A source of these bytes, that gives at most `piece` of them a call. The calls whose ordinal,
    /// from 1, stands in `fail` fail. It takes no memory.
    pub fn new(bytes: Vec<u8>, piece: usize, fail: Vec<u64>) -> MemorySource
        requires { 1 ≤ piece }
        ensures { result ≡ record { left = bytes.items; piece = piece; calls = no_calls fail.items } }
    {
        MemorySource {
            bytes,
            given: 0,
            piece,
            schedule: Schedule::new(fail),
        }
    }
}

impl Source for MemorySource {
    ghost left = { λ source. Some source.left };

    ghost faults = { λ source. source.calls.faults };

    fn read(&mut self, buf: &mut [u8]) -> Result<usize, Failed>
        // A call fails exactly where its ordinal was named.
        ensures fails { IsErr result ↔ FailsNext self.old.calls }

        // It gives the first bytes that are left, as many as the piece and the buffer allow.
        ensures amount { IfOk result (λ count.
            count ≡ min self.old.piece (min (length buf.old) (length self.old.left))) }
        ensures bytes { IfOk result (λ count. take count buf.new ≡ take count self.old.left) }
        ensures ok { IfOk result (λ count. self.new ≡ record self.old {
          left = drop count self.old.left;
          calls = with_success self.old.calls;
        }) }
        ensures failed { OnErr result (self.new ≡ record self.old { calls = with_fault self.old.calls }) }

        // As for every source.
        ensures end { IfOk result (λ count. 0 < length buf.old →
            WhereTold (Some self.old.left) (λ bytes. (count ≡ 0) ↔ (bytes ≡ []))) }
        ensures cause { OnErr result (Faulted self.old.calls.faults self.new.calls.faults) }
    {
        if self.schedule.fails_next() {
            self.schedule.fail();
            return Err(Failed);
        }
        self.schedule.succeed();
        let left = &self.bytes[self.given..];
        let count = self.piece.min(buf.len().min(left.len()));
        buf[..count].copy_from_slice(&left[..count]);
        self.given += count;
        Ok(count)
    }
}

/// A sink in memory with a fixed room, which tells its bytes. It takes at most `piece` bytes a call.
/// The calls that were named fail, and so does a write of some bytes where no room is left. It keeps
/// how many of its bytes a flush has handed on.
#[derive(Drop)]
pub struct MemorySink {
    bytes: Vec<u8>,
    flushed: usize,
    room: usize,
    piece: usize,
    schedule: Schedule,
}

impl Model for MemorySink {
    ghost use Rattle.std.specs.Prelude.{◌≤◌, length, vec_capacity};
    ghost use Rattle.tsl_io.specs.Memory.{SinkState};

    ghost Value = { SinkState };

    ghost view = { λ s. record { written = s.bytes.items; flushed = s.flushed; room = s.room; piece = s.piece; calls = s.schedule } };

    ghost invariant = { λ s. (s.flushed ≤ length s.bytes.items) × (length s.bytes.items ≤ s.room)
        × (s.room ≤ vec_capacity s.bytes) × (1 ≤ s.piece) };
}

impl MemorySink {
    /// An empty sink with room for `room` bytes, that takes at most `piece` of them a call. The calls
    /// whose ordinal, from 1, stands in `fail` fail; writes and flushes are counted together. It takes
    /// memory for its room, and an `Err` says that there was none.
    pub fn new(
        alloc: Global,
        room: usize,
        piece: usize,
        fail: Vec<u64>,
    ) -> Result<MemorySink, NoMemory>
        requires { 1 ≤ piece }
        ensures { IfOk result (λ sink.
            sink ≡ record { written = []; flushed = 0; room = room; piece = piece; calls = no_calls fail.items }) }
    {
        Ok(MemorySink {
            bytes: Vec::with_capacity(alloc, room)?,
            flushed: 0,
            room,
            piece,
            schedule: Schedule::new(fail),
        })
    }

    /// The bytes that were written.
    pub fn bytes(&self) -> &[u8]
        ensures { result.now ≡ self.now.written }
    {
        self.bytes.as_slice()
    }

    /// How many of them were there when a flush last succeeded.
    pub fn flushed(&self) -> usize
        ensures { result ≡ self.now.flushed }
    {
        self.flushed
    }
}

impl Sink for MemorySink {
    ghost written = { λ sink. Some sink.written };

    // Nothing was added since a flush last succeeded.
    ghost flushed = { λ sink. sink.flushed ≡ length sink.written };

    ghost faults = { λ sink. sink.calls.faults };

    fn write(&mut self, piece: &[u8]) -> Result<usize, Failed>
        // A write fails exactly where its ordinal was named, or where it brings bytes and finds no room.
        ensures fails { IsErr result ↔ (FailsNext self.old.calls
            ⊎ ((0 < length piece.now) × (room_left self.old ≡ 0))) }

        // It takes the first bytes of its piece, as many as the sink takes a call and has room for.
        ensures amount { IfOk result (λ count.
            count ≡ min self.old.piece (min (length piece.now) (room_left self.old))) }
        ensures ok { IfOk result (λ count. self.new ≡ record self.old {
          written = self.old.written ++ take count piece.now;
          calls = with_success self.old.calls;
        }) }
        ensures failed { OnErr result (self.new ≡ record self.old { calls = with_fault self.old.calls }) }

        // As for every sink.
        ensures progress { IfOk result (λ count. 0 < length piece.now → 0 < count) }
        ensures cause { OnErr result (Faulted self.old.calls.faults self.new.calls.faults) }
    {
        let free = self.room - self.bytes.len();
        let is_full = free == 0 && !piece.is_empty();
        if is_full || self.schedule.fails_next() {
            self.schedule.fail();
            return Err(Failed);
        }
        self.schedule.succeed();
        let count = self.piece.min(piece.len().min(free));
        self.bytes.extend_from_slice(&piece[..count]).unwrap();
        Ok(count)
    }

    fn flush(&mut self) -> Result<(), Failed>
        // A flush fails exactly where its ordinal was named.
        ensures fails { IsErr result ↔ FailsNext self.old.calls }
        ensures ok { OnOk result (self.new ≡ record self.old {
          flushed = length self.old.written;
          calls = with_success self.old.calls;
        }) }
        ensures failed { OnErr result (self.new ≡ record self.old { calls = with_fault self.old.calls }) }
        ensures cause { OnErr result (Faulted self.old.calls.faults self.new.calls.faults) }
    {
        if self.schedule.fails_next() {
            self.schedule.fail();
            return Err(Failed);
        }
        self.schedule.succeed();
        self.flushed = self.bytes.len();
        Ok(())
    }
}
