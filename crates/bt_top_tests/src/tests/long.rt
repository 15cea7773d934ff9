//! Inputs of which the front tells the answer, where the source fails behind it: what follows is read and dropped, and
//! so the fault is met.
ghost use Rattle.std.specs.Prelude.{None};

use super::{SINK_ROOM, asked_alone, fields, number_of, sink_of};
use bt_io::{Failed, Source};
use std::alloc::{AllocError, Global};
use std::test::Fail;

/// A source of a text and so many bytes behind it, at whose end it fails. It takes no memory for them.
#[derive(Drop)]
struct Long<'a> {
    text: &'a [u8],
    behind: usize,
    faults: u64,
}

impl Source for Long<'_> {
    ghost left = { λ _. None };

    ghost faults = { λ s. s.faults };

    fn read(&mut self, buf: &mut [u8]) -> Result<usize, Failed> {
        if !self.text.is_empty() {
            let count = buf.len().min(self.text.len());
            let (piece, rest) = self.text.split_at(count);
            buf[..count].copy_from_slice(piece);
            self.text = rest;
            return Ok(count);
        }
        if self.behind == 0 {
            self.faults = self.faults.saturating_add(1);
            return Err(Failed);
        }
        let count = buf.len().min(self.behind);
        self.behind -= count;
        Ok(count)
    }
}

/// The words, the text, and how many bytes follow it before the source fails, though the text tells the answer.
const CUT_OFF: &[&str] = &[
    "check unlimited|net x\n|200000",
    "check unlimited|net 1 1 0\nedge i0 o0\nend\nmaybe\n|200000",
    "check-layout --grid 1x1|net x\n|200000",
    "check-same|net 1 1 0\nedge i0 o0\nend\nnet 1 1 0\nedge i0 o0\nend\nmaybe\n|200000",
    "check-same|{}net 1 1 0\nedge i0 o0\nend\n|200000",
];

/// Whether a row's run ends without a text, by the fault of its source.
fn ends_by_fault(alloc: Global, row: &str) -> Result<bool, AllocError> {
    let [words, text, behind, ..] = fields(row);
    let mut source = Long {
        text: text.as_bytes(),
        behind: number_of(behind),
        faults: 0,
    };
    let mut sink = sink_of(alloc, SINK_ROOM, 1000, 0)?;
    let status = asked_alone(alloc, words, &mut source, &mut sink)?;
    Ok(status == 6 && sink.held().is_empty())
}

#[test]
fn ends_by_faults_behind_the_front(rt: HostRuntime) -> Result<(), Fail> {
    for row in CUT_OFF {
        assert!(rt; ends_by_fault(rt.alloc(), row)?, "{row}");
    }
    Ok(())
}
