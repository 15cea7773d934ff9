//! Streams that give and take few bytes a call, a sink without room, and calls that fail.
ghost use Rattle.std.specs.Prelude.{◌≤◌};

use super::{SINK_ROOM, asked_alone, fields, number_of, sink_of};
use bt_io::{MemSink, MemSource};
use std::alloc::{AllocError, Global};
use std::test::Fail;

/// The words, the input, the status and the text: of each command one, and of each way to read and to write. The last
/// ones read nothing.
const ANSWERED: &[&str] = &[
    "recover|net 1 2 1\nedge i0 s0\nedge s0 o0\nedge s0 o1\ntake s0 0\ngive s0 2\nend\n \t\r\n|0|net 1 2 1\nedge i0 s0\n\
     edge s0 o0\nedge s0 o1\ngive s0 2\ntake s0 0\nend\n",
    concat!(
        r#"recover|{"blueprint":{"entities":[{"name":"splitter","position":{"x":1,"y":0.5}}"#,
        r#",{"name":"transport-belt","position":{"x":0.5,"y":1.5},"direction":0}"#,
        r#",{"name":"transport-belt","position":{"x":1.5,"y":1.5},"direction":0}"#,
        r#",{"name":"transport-belt","position":{"x":0.5,"y":-0.5},"direction":0}"#,
        r#",{"name":"transport-belt","position":{"x":1.5,"y":-0.5},"direction":0}"#,
        "]}}|0|net 2 2 1\nedge i0 s0\nedge i1 s0\nedge s0 o0\nedge s0 o1\nend\n",
    ),
    "recover|{\"a\":1,\"\\u0061\":2}|3|refused 12 DuplicateKey 7\n",
    "recover||3|refused 40 NetLine 1\n",
    "flow-check unlimited|net 1 3 3\nedge i0 s0\nedge s0 s1\nedge s0 s2\nedge s1 o0\nedge s1 o1\nedge s2 o2\n\
     edge s2 s0\nend\nno unlimited\nload 1\nroom 0 0 1\nflow 1/2 0 1 0 0 1/2 1/2\nmark b b f b b f f\nend\n\
     |0|breaks unlimited\n",
    "decide full|net 1 1 0\nedge i0 o0\nend\n\n\nno full\n|3|refused 40 NetLine 6\n",
    "check unlimited|net 1 1 0\nedge i0 o0\nend\n\n \t\r\nyes unlimited\nf -10 -16 0 1 1\nf -12 -17 0 1 1\n\
     r 0 14 15 16 17 11 13 0\nend\n\n \n|0|yes unlimited\n",
    "check unlimited|net 1 1 0\nedge i0 o0\nend\nyes unlimited\nv -1 8 0\np 0 1 1 -1 2 0\nc 1 1 -1 1 0 0 0\n\
     f -10 -16 0 1 1\nf -12 -17 0 1 1\nr 0 14 15 28 29 11 13 0\nend\n|0|yes unlimited\n",
    "check unlimited|net 1 1 0\nedge i0 o0\nend\nyes unlimited\nf -10 -16 0 1 1\nf -12 -17 0 1 1\n\
     r 0 14 15 16 17 11 13 0\nend\nx\n|9|refused 50 CertLine 6\n",
    "layout --grid 1x1|net 1 1 0\nedge i0 o0\nblock 1 0\nend\n|3|refused 46 Block 3\n",
    "check-layout --grid 1x6|net 2 2 1\nedge i0 s0\nedge i1 s0\nedge s0 o0\nedge s0 o1\nend\nnone\n\
     r 0 226 228 621 623 1019 1021 1411 1413 1803 1805 2201 2202 2203 2204 2391 2399 2407 2415 2423 2431 \
     2439 2447 2455 2463 243 254 638 649 1036 1047 1428 1439 1820 1831 2218 2223 2228 2233 2369 0\n\
     end\n|1|none\n",
    "smallest --learnt 0|net 2 2 1\nedge i0 s0\nedge i1 s0\nedge s0 o0\nedge s0 o1\nend\n|4|\
     spent 0\ngrid 1x1\nend\n",
    "formula unlimited|net 1 1 0\nedge i0 o0\nend\n|0|c block 1 1 mark edge\nc row 2 >= 0 1*f0\nc \
     row 3 >= -1 -1*f0\nc row 4 >= 0 1*c0\nc row 5 >= -1 -1*c0\nc row 6 >= 0 1*d0\nc row 7 >= -1 \
     -1*d0\nc row 8 >= 1 1*f0\nc row 9 > -1 -1*f0\nc row 10 >= 0 1*f0 -1*c0\nc row 11 > 0 -1*f0 \
     1*c0\nc row 12 >= 0 1*f0 -1*d0\nc row 13 > 0 -1*f0 1*d0\nc row 14 >= 0 -1*f0 1*c0\nc row 15 >= \
     0 -1*f0 1*d0\nc row 16 > 0 -1*f0 1*c0\nc row 17 > 0 -1*f0 1*d0\np cnf 17 15\n2 0\n3 0\n4 0\n5 \
     0\n6 0\n7 0\n8 9 0\n10 11 0\n12 13 0\n14 0\n1 10 0\n15 0\n-1 12 0\n16 0\n17 0\n",
    "same|net 1 1 0\nedge i0 o0\nend\nnet 2 2 1\nedge i0 s0\nedge i1 s0\nedge s0 o0\nedge s0 o1\nend\n\
     |3|refused 47 Ends\n",
    "check-same|net 2 2 1\nedge i0 s0\nedge i1 s0\nedge s0 o0\nedge s0 o1\nend\n\n \nnet 2 2 0\nedge i0 o0\n\
     edge i1 o1\nend\n \ndiffer\nload 1/2 1\nroom 1 3/4\nflow 1/2 1 3/4 3/4\nmark f f f f\nflow 1/2 3/4\nmark f b\n\
     end\n\n|1|differ\n",
    "make 2|no input is read|0|butterfly 2\nedges 12\noutputs 4\nyes balanced\n",
    "build full 1 1 --request|no input is read|0|net 1 1 0\nedge i0 o0\nside inputs south\nside outputs north\n\
     row inputs\nrow outputs\nend\n",
    "decide balanced full|no input is read|2|usage\n",
];

/// The input of rows that read nothing.
const UNREAD: &str = "no input is read";

/// What a source and a sink do.
#[derive(Clone, Copy)]
struct Streams {
    /// The call at which the source fails, or 0.
    source_fails: u64,
    /// The call at which the sink fails, or 0.
    sink_fails: u64,
    /// The most bytes that they give and take at a call.
    most: usize,
    /// The most bytes that the sink holds.
    room: usize,
}

/// Streams that never fail.
const fn smooth(most: usize) -> Streams {
    Streams {
        source_fails: 0,
        sink_fails: 0,
        most,
        room: SINK_ROOM,
    }
}

/// The status of a row, and how long its text is.
fn told_by(row: &str) -> (usize, usize) {
    let [_, _, status, text, ..] = fields(row);
    (number_of(status), text.len())
}

/// A source of a text that gives at most so many bytes at a call, and fails where the streams say so.
fn source_of(alloc: Global, input: &str, streams: Streams) -> Result<MemSource, AllocError> {
    let input = Vec::from_slice(alloc, input.as_bytes())?;
    let fails = vec![in alloc; streams.source_fails]?;
    Ok(MemSource::new(input, fails, streams.most.max(1)))
}

/// The status with which a row's words and input are answered.
fn status_of(
    alloc: Global,
    row: &str,
    streams: Streams,
    sink: &mut MemSink,
) -> Result<u8, AllocError> {
    let [words, input, ..] = fields(row);
    let mut source = source_of(alloc, input, streams)?;
    asked_alone(alloc, words, &mut source, sink)
}

/// Whether these bytes are the first ones of a row's text, so many.
fn is_front(row: &str, written: &[u8], length: usize) -> bool {
    let [_, _, _, text, ..] = fields(row);
    text.as_bytes().get(..length) == Some(written)
}

/// Whether a row's run ends with a status, and has written so many of the first bytes of its text.
fn ends_with(
    alloc: Global,
    row: &str,
    streams: Streams,
    status: usize,
    length: usize,
) -> Result<bool, AllocError> {
    let mut sink = sink_of(alloc, streams.room, streams.most, streams.sink_fails)?;
    let given = status_of(alloc, row, streams, &mut sink)?;
    Ok(usize::from(given) == status && is_front(row, sink.held(), length))
}

/// Whether a row is answered, whole and by few bytes a call.
fn is_answered(alloc: Global, row: &str) -> Result<bool, AllocError> {
    let (status, length) = told_by(row);
    for most in [1, 2, 7, 1000] {
        if !ends_with(alloc, row, smooth(most), status, length)? {
            return Ok(false);
        }
    }
    Ok(true)
}

/// How far apart some forty places in a text of this length are, and of a short one all places.
const fn step(length: usize) -> usize
    ensures { 1 ≤ result }
{
    1 + length / 40
}

/// Whether a source that fails at a call ends the run without a text, or, where nothing is read, changes nothing.
fn ends_at_call(alloc: Global, row: &str, most: usize, call: u64) -> Result<bool, AllocError> {
    let [_, input, ..] = fields(row);
    let streams = Streams {
        source_fails: call,
        ..smooth(most)
    };
    let (status, length) = if input == UNREAD {
        told_by(row)
    } else {
        (6, 0)
    };
    ends_with(alloc, row, streams, status, length)
}

/// Whether each call of the source is one that may fail. The last call finds the end.
fn ends_where_its_source_fails(alloc: Global, row: &str) -> Result<bool, AllocError> {
    let [_, input, ..] = fields(row);
    let most = step(input.len());
    for calls in 0..=input.len() / most {
        if !ends_at_call(alloc, row, most, (calls as u64).saturating_add(1))? {
            return Ok(false);
        }
    }
    Ok(true)
}

/// Whether a call of the sink that fails behind so many bytes, or finds no room there, ends the run with these.
fn ends_behind(alloc: Global, row: &str, written: usize) -> Result<bool, AllocError> {
    let failing = Streams {
        sink_fails: (written as u64).saturating_add(1),
        ..smooth(1)
    };
    let narrow = Streams {
        room: written,
        ..smooth(7)
    };
    Ok(ends_with(alloc, row, failing, 7, written)? && ends_with(alloc, row, narrow, 7, written)?)
}

/// Whether calls of the sink that fail, and too little room, end the run with the text before.
fn ends_where_its_sink_fails(alloc: Global, row: &str) -> Result<bool, AllocError> {
    let [_, _, _, text, ..] = fields(row);
    let mut written: usize = 0;
    for piece in text.as_bytes().chunks(step(text.len())) {
        if !ends_behind(alloc, row, written)? {
            return Ok(false);
        }
        written = written.saturating_add(piece.len());
    }
    Ok(true)
}

#[test]
fn answers_by_few_bytes_a_call(rt: HostRuntime) -> Result<(), Fail> {
    for row in ANSWERED {
        assert!(rt; is_answered(rt.alloc(), row)?, "{row}");
    }
    Ok(())
}

#[test]
fn ends_at_calls_that_fail(rt: HostRuntime) -> Result<(), Fail> {
    for row in ANSWERED {
        assert!(rt; ends_where_its_source_fails(rt.alloc(), row)?, "{row}");
        assert!(rt; ends_where_its_sink_fails(rt.alloc(), row)?, "{row}");
    }
    Ok(())
}
