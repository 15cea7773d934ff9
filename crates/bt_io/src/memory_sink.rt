//! A sink in memory with limits and faults of its own, for the tests of what writes.
ghost use Rattle.std.specs.Prelude.{◌≡◌, ◌≤◌, ◌↔◌, alloc_error, IfOk, IsErr, OnErr, Some};
ghost use Rattle.std.specs.Io.{WritesAtMost};
ghost use Rattle.std.specs.Io.KnownBytes.{WriteAppends};
ghost use Rattle.bt_text.specs.Answers.{Answers};
ghost use Rattle.bt_io.specs.Bytes.{TakesSome};
ghost use Rattle.bt_io.specs.Causes.{HasCause};
ghost use Rattle.bt_io.specs.InMemory.{RefusesPiece, count_taken, after_taking, after_failed_write};

use crate::fault::Failed;
use crate::sink::Sink;
use std::alloc::{AllocError, Global};
use std::marker::Model;

/// A sink in memory that fails at the listed calls, and where its room is used up.
#[derive(Drop)]
pub struct MemSink {
    held: Vec<u8>,
    room: usize,
    fails: Vec<u64>,
    most: usize,
    calls: u64,
    faults: u64,
}

impl Model for MemSink {
    ghost use Rattle.std.specs.Prelude.{◌≤◌, length, vec_capacity};
    ghost use Rattle.bt_io.specs.InMemory.{SinkState, sink_state};

    ghost Value = { SinkState };

    ghost view = { λ s. sink_state s.held.items s.room s.fails.items s.most s.calls s.faults };

    ghost invariant = { λ s. (length s.held.items ≤ s.room) × (s.room ≤ vec_capacity s.held) × (1 ≤ s.most) };
}

impl MemSink {
    ghost use Rattle.bt_io.specs.InMemory.{IsEmptySink};

    /// An empty sink that takes its memory here, for `room` bytes.
    ///
    /// Calls are numbered from 1. Those in `fails` fail, and so does each call with a nonempty
    /// piece where the sink holds `room` bytes. Each other call takes the least of `most`, the
    /// length of its piece and the room that is left. The numbers of calls and of faults stay at
    /// 2^64 - 1 once they are there.
    pub fn new(
        alloc: Global,
        room: usize,
        fails: Vec<u64>,
        most: usize,
    ) -> Result<MemSink, AllocError>
        requires { 1 ≤ most }
        ensures { Answers alloc_error (IsEmptySink room fails.items most) result }
    {
        let held = Vec::with_capacity(alloc, room)?;
        Ok(MemSink {
            held,
            room,
            fails,
            most,
            calls: 0,
            faults: 0,
        })
    }

    /// The bytes that were written.
    pub fn held(&self) -> &[u8]
        ensures { result.now ≡ self.now.held }
    {
        &self.held
    }
}

impl Sink for MemSink {
    ghost held = { λ s. Some s.held };

    ghost faults = { λ s. s.faults };

    /// Appends the first bytes of `piece`, and gives their number, or fails where this call is listed or no room is
    /// left.
    fn write(&mut self, piece: &[u8]) -> Result<usize, Failed>
        ensures bound { WritesAtMost result piece.now }
        ensures some { TakesSome result piece.now }
        ensures bytes { WriteAppends (Some self.old.held) (Some self.new.held) result piece.now }
        ensures cause { HasCause self.old.faults self.new.faults result }

        // It fails at the listed calls, where a piece finds no room, and at no other call.
        ensures fails { IsErr result ↔ RefusesPiece self.old piece.now }
        ensures count { IfOk result (λ n. n ≡ count_taken self.old piece.now) }
        ensures taken { IfOk result (λ n. self.new ≡ after_taking self.old piece.now n) }
        ensures failed { OnErr result (self.new ≡ after_failed_write self.old) }
    {
        self.calls = self.calls.saturating_add(1);
        let left = self.room - self.held.len();
        if self.fails.contains(&self.calls) || (left == 0 && !piece.is_empty()) {
            self.faults = self.faults.saturating_add(1);
            return Err(Failed);
        }
        let count = self.most.min(piece.len()).min(left);
        self.held.extend_from_slice(&piece[..count]).unwrap();
        Ok(count)
    }
}
