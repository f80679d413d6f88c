ghost use Rattle.std.specs.Prelude.{◌≡◌, ◌+◌, ◌≤◌, ◌<◌, ◌↔◌, [], take, drop, ◌++◌, length, IsErr, IfOk, OnErr, Some};
ghost use Rattle.vchan_io.specs.Counts.{one_more, IsNextToFail};
ghost use Rattle.vchan_io.specs.MemSink.{FailsToWrite, taken_count, after_taken, after_failed_write};

use crate::faults::{Failed, Memory};
use crate::sink::Sink;
use std::alloc::Global;
use std::marker::Model;

/// A sink into memory that it reserves when it is made. Each call takes at most a set number of bytes,
/// and chosen calls fail. Contracts see its bytes.
#[derive(Debug, Drop)]
pub struct MemSink {
    held: Vec<u8>,
    room: usize,
    most: usize,
    fails: Vec<u64>,
    calls: u64,
    faults: u64,
}

impl Model for MemSink {
    ghost use Rattle.std.specs.Prelude.{length, vec_capacity, ◌≤◌};
    ghost use Rattle.vchan_io.specs.MemSink.{MemSinkState};

    ghost Value = { MemSinkState };

    ghost view = { λ s. record { held = s.held.items; room = s.room; most = s.most; fails = s.fails.items; calls = s.calls; faults = s.faults } };

    ghost invariant = { λ s. (length s.held.items ≤ s.room) × (s.room ≤ vec_capacity s.held) × (1 ≤ s.most) };
}

impl MemSink {
    /// Makes a sink with room for `room` bytes, which it reserves at once. Each write takes at most `most`
    /// bytes.
    ///
    /// A write fails if its number, counted from 1, is in `fails`, or if it has at least one byte and the room
    /// is used up; no other write fails.
    ///
    /// Returns `Memory` if memory runs out.
    pub fn new(alloc: Global, room: usize, most: usize, fails: Vec<u64>) -> Result<MemSink, Memory>
        requires { 1 ≤ most }
        ensures held { IfOk result (λ sink. sink.held ≡ []) }
        ensures room { IfOk result (λ sink. sink.room ≡ room) }
        ensures most { IfOk result (λ sink. sink.most ≡ most) }
        ensures fails { IfOk result (λ sink. sink.fails ≡ fails.items) }
        ensures calls { IfOk result (λ sink. sink.calls ≡ 0) }
        ensures faults { IfOk result (λ sink. sink.faults ≡ 0) }
    {
        Ok(MemSink {
            held: Vec::with_capacity(alloc, room)?,
            room,
            most,
            fails,
            calls: 0,
            faults: 0,
        })
    }

    /// Returns the bytes that the sink holds.
    pub fn bytes(&self) -> &[u8]
        ensures { result.now ≡ self.now.held }
    {
        self.held.as_slice()
    }
}

impl Sink for MemSink {
    ghost held = { λ s. Some s.held };

    ghost faults = { λ s. s.faults };

    fn write(&mut self, piece: &[u8]) -> Result<usize, Failed>
        ensures fails { IsErr result ↔ FailsToWrite self.old piece.now }
        ensures count { IfOk result (λ count. count ≡ taken_count self.old piece.now) }
        ensures some { IfOk result (λ count. 0 < length piece.now → 0 < count) }
        ensures ok { IfOk result (λ count. self.new ≡ after_taken self.old piece.now count) }
        ensures err { OnErr result (self.new ≡ after_failed_write self.old) }
        ensures counted { self.old.faults ≤ self.new.faults }
    {
        self.calls = self.calls.saturating_add(1);
        let is_to_fail = self.calls < u64::MAX && self.fails.contains(&self.calls);
        let room_left = self.room - self.held.len();
        if is_to_fail || (room_left == 0 && !piece.is_empty()) {
            self.faults = self.faults.saturating_add(1);
            return Err(Failed);
        }
        let count = piece.len().min(self.most).min(room_left);
        self.held.extend_from_slice(&piece[..count]).unwrap();
        Ok(count)
    }
}
