//! A source over bytes that are lent.
ghost use Rattle.std.specs.Prelude.{◌≡◌, Some};

use crate::fault::Failed;
use crate::source::Source;
use std::marker::Model;

/// A source over bytes that are lent, which never fails.
#[derive(Drop)]
pub struct SliceSource<'a> {
    rest: &'a [u8],
}

impl<'a> Model for SliceSource<'a> {
    ghost use Rattle.std.specs.Prelude.{ℕ, List};

    ghost Value = { List ℕ };

    ghost view = { λ s. s.rest.now };
}

impl<'a> SliceSource<'a> {
    /// A source of these bytes.
    pub fn new(bytes: &'a [u8]) -> SliceSource<'a>
        ensures { result ≡ bytes.now }
    {
        SliceSource { rest: bytes }
    }
}

impl<'a> Source for SliceSource<'a> {
    ghost left = { λ s. Some s };

    ghost faults = { λ _. 0 };

    /// Copies the next bytes to the front of `buf`, as many as it holds or as are left, and gives their number.
    fn read(&mut self, buf: &mut [u8]) -> Result<usize, Failed> {
        let count = buf.len().min(self.rest.len());
        let (piece, rest) = self.rest.split_at(count);
        buf[..count].copy_from_slice(piece);
        self.rest = rest;
        Ok(count)
    }
}
