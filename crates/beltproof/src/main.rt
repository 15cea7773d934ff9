//! The program: its words, standard input and standard output.
#![tactic(auto)]

use bt_choosers::Active;
use bt_cnf::Chooser;
use bt_io::{StdSink, StdSource};
use bt_top::{Choosers, NO_MEMORY, WRITE_FAULT, run};
use std::alloc::AllocError;
use std::env;
use std::io::{BufWriter, ErrorKind};
use std::process::ExitCode;

/// The words after the program's name, or no words where they can't be had; `None` where there is no
/// memory for them.
fn words_of(rt: &HostRuntime) -> Option<Vec<String>> {
    let mut words = Vec::new(rt.alloc());
    let args = match env::args(rt) {
        Ok(args) => args,
        Err(error) if error.kind() == ErrorKind::OutOfMemory => return None,
        Err(_) => return Some(words),
    };
    for word in args.skip(1) {
        if words.push(word).is_err() {
            return None;
        }
    }
    Some(words)
}

/// Runs the program over the words. A chooser steers decisions, by the activity of variables, and another one of its kind
/// the search for layouts. What is written is gathered into large writes, since a log has hundreds of thousands of
/// words; so the last of it is passed on at the end.
fn status(rt: &HostRuntime, words: &[String]) -> Result<u8, AllocError> {
    let alloc = rt.alloc();
    let deciding: Box<dyn Chooser> = Box::new(alloc, Active::new(alloc)?)?;
    let laying: Box<dyn Chooser> = Box::new(alloc, Active::new(alloc)?)?;
    let choosers = Choosers {
        decisions: vec![in alloc; deciding]?,
        layouts: vec![in alloc; laying]?,
    };
    let mut source = StdSource::new(rt.stdin());
    let Ok(output) = BufWriter::new(alloc, rt.stdout()) else {
        return Ok(NO_MEMORY);
    };
    let mut sink = StdSink::new(output);
    let status = run(alloc, words, &mut source, &mut sink, choosers);
    match sink.flush() {
        Ok(()) => Ok(status),
        Err(_) => Ok(WRITE_FAULT),
    }
}

/// Runs the program over its words, and ends with its status, or with that for want of memory.
fn main(rt: HostRuntime) -> ExitCode {
    let Some(words) = words_of(&rt) else {
        return ExitCode::from(NO_MEMORY);
    };
    ExitCode::from(status(&rt, &words).unwrap_or(NO_MEMORY))
}
