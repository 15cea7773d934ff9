//! Choosers that nobody would choose: the program's answers are as with any other.
ghost use Rattle.std.specs.Prelude.{None};

use super::{SINK_ROOM, asked, asked_alone, fields, is_status, sink_of};
use bt_cnf::{Chooser, Lit, Pick, Var};
use bt_io::{MemSink, SliceSource};
use bt_top::Choosers;
use std::alloc::{AllocError, Global};
use std::cell::Cell;
use std::rc::Rc;
use std::test::Fail;

/// Who steers a search.
#[derive(Clone, Copy)]
enum Steering {
    /// Picks the last variable, and changes the sign each time.
    Last,
    /// Picks a variable by how many literals it was told, and sets it to true.
    Kept,
    /// Picks the first variable, and sets it to false.
    First,
    /// Does the same, and finds no memory for the third clause.
    Forgetful,
}

/// A chooser that counts how often it is asked and told, and keeps the literals that it was told.
#[derive(Drop)]
struct Odd {
    steering: Steering,
    asked: Rc<Cell<u64>>,
    lits: Vec<Lit>,
    told: u64,
}

impl Chooser for Odd {
    ghost told_clauses = { λ _. None };

    fn pick(&mut self, unset: &[Var]) -> Pick {
        self.asked.set(self.asked.get().saturating_add(1));
        match self.steering {
            Steering::Last => Pick {
                place: unset.len() - 1,
                positive: self.asked.get() % 2 == 1,
            },
            Steering::Kept => Pick {
                place: self.lits.len() % unset.len(),
                positive: true,
            },
            _ => Pick {
                place: 0,
                positive: false,
            },
        }
    }

    fn told(&mut self, clause: &[Lit]) -> Result<(), AllocError> {
        if matches!(self.steering, Steering::Forgetful) && self.told == 2 {
            return Err(AllocError);
        }
        self.lits.extend_from_slice(clause)?;
        self.told = self.told.saturating_add(1);
        Ok(())
    }
}

/// The words, the input, the status, the first line of the text or how it begins, and `asks` where each chooser is
/// asked.
const STEERED: &[&str] = &[
    "decide balanced|net 2 2 1\nedge i0 s0\nedge i1 s0\nedge s0 o0\nedge s0 o1\nend\n|0|yes balanced\n",
    "decide balanced|net 4 4 4\nedge i0 s0\nedge i1 s0\nedge i2 s1\nedge i3 s1\nedge s0 s2\nedge s0 s3\n\
     edge s1 s2\nedge s1 s3\nedge s2 o0\nedge s2 o1\nedge s3 o2\nedge s3 o3\nend\n|0|yes balanced\n|asks",
    "decide balanced|net 1 3 3\nedge i0 s0\nedge s0 s1\nedge s0 s2\nedge s1 o0\nedge s1 o1\nedge s2 o2\n\
     edge s2 s0\nend\n|0|yes balanced\n",
    "decide unlimited|net 2 2 1\nedge i0 s0\nedge i1 s0\nedge s0 o0\nedge s0 o1\nend\n|0|yes unlimited\n",
    "decide full|net 4 4 4\nedge i0 s0\nedge i1 s0\nedge i2 s1\nedge i3 s1\nedge s0 s2\nedge s0 s3\n\
     edge s1 s2\nedge s1 s3\nedge s2 o0\nedge s2 o1\nedge s3 o2\nedge s3 o3\nend\n|0|yes full\n",
    "decide unlimited|net 4 4 4\nedge i0 s0\nedge i1 s0\nedge i2 s1\nedge i3 s1\nedge s0 s2\nedge s0 s3\n\
     edge s1 s2\nedge s1 s3\nedge s2 o0\nedge s2 o1\nedge s3 o2\nedge s3 o3\nend\n|1|no unlimited\n",
    "decide unlimited|net 1 3 3\nedge i0 s0\nedge s0 s1\nedge s0 s2\nedge s1 o0\nedge s1 o1\nedge s2 o2\n\
     edge s2 s0\nend\n|1|no unlimited\n",
    "layout --grid 2x2|net 2 2 1\nedge i0 s0\nedge i1 s0\nedge s0 o0\nedge s0 o1\nend\n|1|none\n",
    "layout --grid 2x3|net 2 2 1\nedge i0 s0\nedge i1 s0\nedge s0 o0\nedge s0 o1\nend\n|0|{\"blueprint\":",
];

/// A chooser that was told nothing yet.
fn untold(alloc: Global, steering: Steering, asked: &Rc<Cell<u64>>) -> Result<Odd, AllocError> {
    Ok(Odd {
        steering,
        asked: asked.clone()?,
        lits: Vec::new(alloc),
        told: 0,
    })
}

/// The status with which a row's words and input are answered, where these steer.
fn steered(
    alloc: Global,
    row: &str,
    sink: &mut MemSink,
    decisions: Odd,
    layouts: Odd,
) -> Result<u8, AllocError> {
    let decisions: Box<dyn Chooser> = Box::new(alloc, decisions)?;
    let layouts: Box<dyn Chooser> = Box::new(alloc, layouts)?;
    let choosers = Choosers {
        decisions: vec![in alloc; decisions]?,
        layouts: vec![in alloc; layouts]?,
    };
    let [words, input, ..] = fields(row);
    asked(
        alloc,
        words,
        &mut SliceSource::new(input.as_bytes()),
        sink,
        choosers,
    )
}

/// The status with which a row's words and input are answered, where two choosers of a kind steer, which count in
/// `asked` how often they are asked.
fn steered_by(
    alloc: Global,
    row: &str,
    sink: &mut MemSink,
    steering: Steering,
    asked: &Rc<Cell<u64>>,
) -> Result<u8, AllocError> {
    let decisions = untold(alloc, steering, asked)?;
    let layouts = untold(alloc, steering, asked)?;
    steered(alloc, row, sink, decisions, layouts)
}

/// Whether a status and a text are a row's.
fn is_told(row: &str, status: u8, text: &[u8]) -> bool {
    let [_, _, wanted, begins, ..] = fields(row);
    is_status(status, wanted) && text.starts_with(begins.as_bytes())
}

/// Whether a status and a text are a row's, and a chooser was asked where the row says so. One that finds no memory may
/// end the run in place of that.
fn is_told_by(row: &str, steering: Steering, is_asked: bool, status: u8, text: &[u8]) -> bool {
    let [_, _, _, _, asks, ..] = fields(row);
    match steering {
        Steering::Forgetful if status == 8 => text.is_empty(),
        _ => (is_asked || asks.is_empty()) && is_told(row, status, text),
    }
}

/// Whether a row is answered as it says, where this one steers.
fn is_answered_by(alloc: Global, row: &str, steering: Steering) -> Result<bool, AllocError> {
    let asked = Rc::new(alloc, Cell::new(0))?;
    let mut sink = sink_of(alloc, SINK_ROOM, 1000, 0)?;
    let status = steered_by(alloc, row, &mut sink, steering, &asked)?;
    Ok(is_told_by(row, steering, asked.get() > 0, status, sink.held()))
}

/// Whether a row is answered as it says, where nobody steers.
fn is_answered_alone(alloc: Global, row: &str) -> Result<bool, AllocError> {
    let [words, input, ..] = fields(row);
    let mut sink = sink_of(alloc, SINK_ROOM, 1000, 0)?;
    let mut source = SliceSource::new(input.as_bytes());
    let status = asked_alone(alloc, words, &mut source, &mut sink)?;
    Ok(is_told(row, status, sink.held()))
}

#[test]
fn answers_where_nobody_steers(rt: HostRuntime) -> Result<(), Fail> {
    for row in STEERED {
        assert!(rt; is_answered_alone(rt.alloc(), row)?, "{row}");
    }
    Ok(())
}

#[test]
fn answers_whoever_steers(rt: HostRuntime) -> Result<(), Fail> {
    for steering in [
        Steering::Last,
        Steering::Kept,
        Steering::First,
        Steering::Forgetful,
    ] {
        for row in STEERED {
            assert!(rt; is_answered_by(rt.alloc(), row, steering)?, "{row}");
        }
    }
    Ok(())
}
