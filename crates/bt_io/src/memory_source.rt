//! A source in memory with faults of its own, for the tests of what reads.
ghost use Rattle.std.specs.Prelude.{◌≡◌, ◌≤◌, ◌+◌, ◌↔◌, length, take, drop, IfOk, IsErr, OnErr, Contains, Some};
ghost use Rattle.std.specs.Io.{ReadsAtMost};
ghost use Rattle.std.specs.Io.KnownBytes.{ReadConsumes};
ghost use Rattle.bt_io.specs.Causes.{HasCause, next_count};
ghost use Rattle.bt_io.specs.InMemory.{source_state, count_given, after_giving, after_failed_read};

use crate::fault::Failed;
use crate::source::Source;
use std::marker::Model;

/// A source over bytes in memory that fails at the listed calls.
#[derive(Drop)]
pub struct MemSource {
    bytes: Vec<u8>,
    fails: Vec<u64>,
    most: usize,
    at: usize,
    calls: u64,
    faults: u64,
}

impl Model for MemSource {
    ghost use Rattle.std.specs.Prelude.{◌≤◌, drop, length};
    ghost use Rattle.bt_io.specs.InMemory.{SourceState, source_state};

    ghost Value = { SourceState };

    ghost view = { λ s. source_state (drop s.at s.bytes.items) s.fails.items s.most s.calls s.faults };

    ghost invariant = { λ s. (s.at ≤ length s.bytes.items) × (1 ≤ s.most) };
}

impl MemSource {
    /// A source of these bytes.
    ///
    /// Calls are numbered from 1, and those in `fails` fail. Each other call gives the least of
    /// `most`, the length of its buffer and the number of bytes that are left. The numbers of
    /// calls and of faults stay at 2^64 - 1 once they are there.
    pub fn new(bytes: Vec<u8>, fails: Vec<u64>, most: usize) -> MemSource
        requires { 1 ≤ most }
        ensures { result ≡ source_state bytes.items fails.items most 0 0 }
    {
        MemSource {
            bytes,
            fails,
            most,
            at: 0,
            calls: 0,
            faults: 0,
        }
    }
}

/// Copies so many bytes from a place on to the front of a buffer.
fn copy_from(bytes: &[u8], at: usize, count: usize, buf: &mut [u8])
    requires bytes { at + count ≤ length bytes.now }
    requires buf { count ≤ length buf.old }
    ensures front { take count buf.new ≡ take count (drop at bytes.now) }
    ensures length { length buf.new ≡ length buf.old }
{
    buf[..count].copy_from_slice(&bytes[at..at + count]);
}

impl Source for MemSource {
    ghost left = { λ s. Some s.left };

    ghost faults = { λ s. s.faults };

    /// Copies the next bytes to the front of `buf`, and gives their number, or fails where this call is listed.
    fn read(&mut self, buf: &mut [u8]) -> Result<usize, Failed>
        ensures bound { ReadsAtMost result buf.new }
        ensures bytes { ReadConsumes (Some self.old.left) (Some self.new.left) result buf.new }
        ensures cause { HasCause self.old.faults self.new.faults result }

        // It fails at the listed calls and at no other, and each other call gives all that it may.
        ensures fails { IsErr result ↔ Contains self.old.fails (next_count self.old.calls) }
        ensures count { IfOk result (λ n. n ≡ count_given self.old (length buf.old)) }
        ensures given { IfOk result (λ n. self.new ≡ after_giving self.old n) }
        ensures failed { OnErr result (self.new ≡ after_failed_read self.old) }
    {
        self.calls = self.calls.saturating_add(1);
        if self.fails.contains(&self.calls) {
            self.faults = self.faults.saturating_add(1);
            return Err(Failed);
        }
        let left = self.bytes.len() - self.at;
        let count = self.most.min(buf.len()).min(left);
        copy_from(&self.bytes, self.at, count, buf);
        self.at += count;
        Ok(count)
    }
}
