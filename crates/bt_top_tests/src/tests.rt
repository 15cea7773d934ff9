//! What no run of the program shows: streams that give and take few bytes a call or fail at one, and choosers that
//! nobody would choose. All else that the program answers is in the rows of the folder `rows/`.
//!
//! A row is one text, whose fields stand between bars: a table of structs takes far longer to prove.
mod choosers;
mod long;
mod streams;

use bt_io::{MemSink, Sink, Source};
use bt_top::{Choosers, run};
use std::alloc::{AllocError, Global};

/// The most bytes that a sink holds, unless a test says otherwise.
const SINK_ROOM: usize = 4_000_000;

/// The fields of a row; those that it lacks are empty.
fn fields(row: &str) -> [&str; 6] {
    let mut fields = [""; 6];
    for (place, text) in row.split('|').enumerate() {
        if place < 6 {
            fields[place] = text;
        }
    }
    fields
}

/// The number that a field spells.
fn number_of(field: &str) -> usize {
    field.parse::<usize>().unwrap_or(0)
}

/// Whether a status is the one that a field spells.
fn is_status(status: u8, field: &str) -> bool {
    usize::from(status) == number_of(field)
}

/// The words of a text, between which spaces stand.
fn words_of(alloc: Global, words: &str) -> Result<Vec<String>, AllocError> {
    let mut all = Vec::new(alloc);
    for word in words.split(' ') {
        all.push(String::from_str(alloc, word)?)?;
    }
    Ok(all)
}

/// A sink with room for so many bytes, which takes at most `most` at a call, and fails at the call with the number
/// `fails`, from 1, or at none for 0.
fn sink_of(alloc: Global, room: usize, most: usize, fails: u64) -> Result<MemSink, AllocError> {
    let fails = vec![in alloc; fails]?;
    MemSink::new(alloc, room, fails, most.max(1))
}

/// The status with which words are answered.
fn asked<R: Source, W: Sink>(
    alloc: Global,
    words: &str,
    source: &mut R,
    sink: &mut W,
    choosers: Choosers,
) -> Result<u8, AllocError> {
    let words = words_of(alloc, words)?;
    Ok(run(alloc, &words, source, sink, choosers))
}

/// The status with which words are answered where nobody steers.
fn asked_alone<R: Source, W: Sink>(
    alloc: Global,
    words: &str,
    source: &mut R,
    sink: &mut W,
) -> Result<u8, AllocError> {
    let choosers = Choosers {
        decisions: Vec::new(alloc),
        layouts: Vec::new(alloc),
    };
    asked(alloc, words, source, sink, choosers)
}
