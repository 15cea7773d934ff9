//! Makes a certificate's steps of a formula in DIMACS and the proof of another solver behind it (DRAT, a step a line),
//! which stand on standard input. Ends with status 3 where the proof isn't taken, and says why; with 6 where the input
//! can't be read, with 7 where nothing can be written, and with 8 where memory is wanting.
#![tactic(auto)]

use bt_io::{ReadAll, Sink, StdSink, StdSource, read_all, write_all_of};
use hint_certify::{Refusal, print, refutation};
use std::alloc::Global;
use std::io::BufWriter;
use std::process::ExitCode;

/// The most bytes of a formula and a proof.
const INPUT_LIMIT: usize = 1 << 32;

/// The statuses, as those of `beltproof`.
const REFUSED: u8 = 3;

const UNREAD: u8 = 6;

const UNWRITTEN: u8 = 7;

const NO_MEMORY: u8 = 8;

/// Writes a line that says why a proof isn't taken, and gives the status.
fn refuse<K: Sink>(alloc: Global, refusal: Refusal, sink: &mut K) -> u8 {
    let line = match refusal {
        Refusal::Formula => format!(in alloc; "no formula\n"),
        Refusal::Step(step) => format!(in alloc; "step {step} is no clause\n"),
        Refusal::Open => format!(in alloc; "the proof ends, and nothing false follows\n"),
        Refusal::Unshown(step) => format!(in alloc; "step {step} isn't shown by propagation\n"),
        Refusal::Memory => return NO_MEMORY,
    };
    match line {
        Ok(line) if write_all_of(sink, line.as_bytes()).is_ok() => REFUSED,
        Ok(_) => UNWRITTEN,
        Err(_) => NO_MEMORY,
    }
}

/// Writes the steps of the refutation that the text holds, or why there is none, and gives the status.
fn certify<K: Sink>(alloc: Global, text: &[u8], sink: &mut K) -> u8 {
    match refutation(alloc, text) {
        Ok(steps) => match print(alloc, &steps, sink) {
            Ok(true) => 0,
            Ok(false) => UNWRITTEN,
            Err(_) => NO_MEMORY,
        },
        Err(refusal) => refuse(alloc, refusal, sink),
    }
}

/// Reads standard input, writes to standard output, and ends with the status.
fn main(rt: HostRuntime) -> ExitCode {
    let alloc = rt.alloc();
    let mut source = StdSource::new(rt.stdin());
    let text = match read_all(alloc, &mut source, INPUT_LIMIT) {
        Ok(text) => text,
        Err(ReadAll::Memory) => return ExitCode::from(NO_MEMORY),
        Err(ReadAll::ReadFault | ReadAll::TooLong) => return ExitCode::from(UNREAD),
    };
    let Ok(output) = BufWriter::new(alloc, rt.stdout()) else {
        return ExitCode::from(NO_MEMORY);
    };
    let mut sink = StdSink::new(output);
    let status = certify(alloc, &text, &mut sink);
    match sink.flush() {
        Ok(()) => ExitCode::from(status),
        Err(_) => ExitCode::from(UNWRITTEN),
    }
}
