//! A line of text in a buffer of its own, so that printing takes no memory.
ghost use Rattle.std.specs.Prelude.{◌≡◌, ◌==◌, ◌+◌, ◌≤◌, ◌++◌, [], length, codes, decimal};
ghost use Rattle.std.specs.Prelude.{if◌then◌else◌};
ghost use Rattle.bt_net.specs.NetText.{start_text, target_text, cap_text};

use bt_net::{Start, Target};
use itoa::Buffer;
use std::marker::Model;

/// A line while it is written, which has at most 48 bytes.
#[derive(Drop)]
pub struct LineBuffer {
    bytes: [u8; 48],
    len: usize,
}

impl Model for LineBuffer {
    ghost use Rattle.std.specs.Prelude.{ℕ, ◌≤◌, List, take};

    ghost Value = { List ℕ };

    ghost view = { λ b. take b.len b.bytes };

    ghost invariant = { λ b. b.len ≤ 48 };
}

impl LineBuffer {
    /// A line without bytes yet.
    pub fn new() -> Self
        ensures { result ≡ [] }
    {
        LineBuffer {
            bytes: [0; 48],
            len: 0,
        }
    }

    /// What was written so far.
    pub fn as_bytes(&self) -> &[u8]
        ensures { result.now ≡ self.now }
    {
        &self.bytes[..self.len]
    }

    /// Adds some bytes.
    pub fn push(&mut self, piece: &[u8])
        requires { length self.old + length piece.now ≤ 48 }
        ensures { self.new ≡ self.old ++ piece.now }
    {
        let end = self.len + piece.len();
        self.bytes[self.len..end].copy_from_slice(piece);
        self.len = end;
    }

    /// Adds a number in decimal digits, which are 10 at most.
    pub fn push_number(&mut self, number: u32)
        requires { length self.old + 10 ≤ 48 }
        ensures number { self.new ≡ self.old ++ decimal number }
        ensures short { length self.new ≤ length self.old + 10 }
    {
        let mut buffer = Buffer::new();
        let digits = buffer.format(number).as_bytes();
        self.push(digits);
    }

    /// Adds a space and a number.
    pub fn push_spaced(&mut self, number: u32)
        requires { length self.old + 11 ≤ 48 }
        ensures number { self.new ≡ self.old ++ codes " " ++ decimal number }
        ensures short { length self.new ≤ length self.old + 11 }
    {
        self.push(b" ");
        self.push_number(number);
    }

    /// Adds a space and a cap, or nothing where the cap is 1.
    pub fn push_cap(&mut self, cap: u32)
        requires { length self.old + 11 ≤ 48 }
        ensures cap { self.new ≡ self.old ++ (if cap == 1 then [] else cap_text cap) }
        ensures short { length self.new ≤ length self.old + 11 }
    {
        if cap != 1 {
            self.push_spaced(cap);
        }
    }

    /// Adds the letter and the number of a start.
    pub fn push_start(&mut self, start: Start)
        requires { length self.old + 11 ≤ 48 }
        ensures start { self.new ≡ self.old ++ start_text start }
        ensures short { length self.new ≤ length self.old + 11 }
    {
        match start {
            Start::Input(i) => {
                self.push(b"i");
                self.push_number(i);
            }
            Start::Split(s) => {
                self.push(b"s");
                self.push_number(s);
            }
        }
    }

    /// Adds the letter and the number of a target.
    pub fn push_target(&mut self, target: Target)
        requires { length self.old + 11 ≤ 48 }
        ensures target { self.new ≡ self.old ++ target_text target }
        ensures short { length self.new ≤ length self.old + 11 }
    {
        match target {
            Target::Split(s) => {
                self.push(b"s");
                self.push_number(s);
            }
            Target::Output(o) => {
                self.push(b"o");
                self.push_number(o);
            }
        }
    }
}
