//! A source of one's own.
ghost use Rattle.std.specs.Prelude.{◌++◌, Some};

use bt_io::{Failed, SliceSource, Source};

/// Tells two texts that are lent, one behind the other, and never fails.
#[derive(Drop)]
pub struct Joined<'a> {
    pub first: SliceSource<'a>,
    pub second: SliceSource<'a>,
}

impl<'a> Source for Joined<'a> {
    ghost left = { λ s. Some (s.first ++ s.second) };

    ghost faults = { λ _. 0 };

    fn read(&mut self, buf: &mut [u8]) -> Result<usize, Failed> {
        let count = self.first.read(buf)?;
        if count > 0 || buf.is_empty() {
            return Ok(count);
        }
        self.second.read(buf)
    }
}
