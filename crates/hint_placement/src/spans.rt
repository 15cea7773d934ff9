//! Where ends stand side by side of which a request wants that they stand in a row.
use crate::lines::View;
use bt_model::Request;
use bt_net::{Demand, End, EndKind};
use bt_parts::{Cell, Dir, Rect};
use bt_random::Random;
use hint_numbering::{Wanted, place_wanted};
use hint_routing::{Span, Spans, is_upright};

/// Whether a request wants the ends of this kind in a row.
fn wants_row(request: &Request, kind: EndKind) -> bool {
    for demand in request.demands() {
        if let Demand::Row(row) = demand {
            if row.kind == kind {
                return true;
            }
        }
    }
    false
}

/// Whether a request wants ends in a row.
pub fn wants_rows(request: &Request) -> bool {
    wants_row(request, EndKind::Inputs) || wants_row(request, EndKind::Outputs)
}

/// The end of this kind with this number.
fn end_of(kind: EndKind, number: u32) -> End {
    match kind {
        EndKind::Inputs => End::Input(number),
        EndKind::Outputs => End::Output(number),
    }
}

/// How many ends of this kind a request has.
fn count_of(request: &Request, kind: EndKind) -> u32 {
    match kind {
        EndKind::Inputs => request.net().inputs(),
        EndKind::Outputs => request.net().outputs(),
    }
}

/// The side at which ends of this kind are asked to stand, where one is.
fn asked_side(request: &Request, kind: EndKind) -> Option<Dir> {
    let mut side = None;
    for number in 0..count_of(request, kind) {
        if let Wanted::At(dir) = place_wanted(request, end_of(kind, number)) {
            side = Some(dir);
        }
    }
    side
}

/// Where a network goes whose ends a request wants in a row: to the side of the outputs, or away from that of the inputs.
pub fn way_of(request: &Request) -> Option<Dir> {
    if !wants_rows(request) {
        return None;
    }
    match (
        asked_side(request, EndKind::Outputs),
        asked_side(request, EndKind::Inputs),
    ) {
        (Some(dir), _) => Some(dir),
        (None, Some(dir)) => Some(dir.opposite()),
        (None, None) => None,
    }
}

/// The side at which all ends of this kind may stand: the one that is asked, or else this one. None where one is pinned.
fn side_of(request: &Request, kind: EndKind, otherwise: Dir) -> Option<Dir> {
    let mut side = otherwise;
    for number in 0..count_of(request, kind) {
        match place_wanted(request, end_of(kind, number)) {
            Wanted::Anywhere => (),
            Wanted::At(dir) => side = dir,
            Wanted::On(..) => return None,
        }
    }
    Some(side)
}

/// The cell at a place of a side, from 0 in the west or the north.
fn cell_at(rect: Rect, side: Dir, place: u32) -> Cell {
    let (mut cell, along) = match side {
        Dir::North | Dir::West => (Cell { x: 0, y: 0 }, 0),
        Dir::South => (Cell { x: 0, y: -1 }, rect.height),
        Dir::East => (Cell { x: -1, y: 0 }, rect.width),
    };
    for _ in 0..along {
        cell = cell.next(side);
    }
    let beside = if is_upright(side) {
        Dir::East
    } else {
        Dir::South
    };
    for _ in 0..place {
        cell = cell.next(beside);
    }
    cell
}

/// Where on a side with so many cells to spare a span begins: in the middle, or by chance where the seed isn't 0.
fn place_in(room: u32, random: &mut Random, seed: usize) -> u32 {
    let middle = room / 2;
    if seed == 0 || random.below(2) == 0 {
        return middle;
    }
    let chance = random.below((room as usize).saturating_add(1));
    (chance as u32).min(room)
}

/// Where the ends of this kind stand side by side, where a request wants them in a row and there is room: at the side
/// `otherwise` where none is asked.
fn span_of(
    request: &Request,
    kind: EndKind,
    otherwise: Dir,
    random: &mut Random,
    seed: usize,
) -> Option<Span> {
    let (rect, count) = (request.rect(), count_of(request, kind));
    if !wants_row(request, kind) || count == 0 {
        return None;
    }
    let side = side_of(request, kind, otherwise)?;
    let length = if is_upright(side) {
        rect.width
    } else {
        rect.height
    };
    let place = place_in(length.checked_sub(count)?, random, seed);
    Some(Span {
        first: cell_at(rect, side, place),
        count,
        dir: match kind {
            EndKind::Inputs => side.opposite(),
            EndKind::Outputs => side,
        },
    })
}

/// Where ends stand side by side that a request wants in a row: where no side is asked, outputs ahead in the view and
/// inputs behind; in the middle of a side, or by chance where the seed isn't 0.
pub fn spans_of(request: &Request, view: View, seed: usize) -> Spans {
    let mut random = Random::new(seed as u64);
    let (inputs, outputs) = (EndKind::Inputs, EndKind::Outputs);
    Spans {
        inputs: span_of(request, inputs, view.dir.opposite(), &mut random, seed),
        outputs: span_of(request, outputs, view.dir, &mut random, seed),
    }
}

/// Where ends stand side by side that a request wants in a row, in the middle of their sides, where all goes to the north.
pub fn middle_spans(request: &Request) -> Spans {
    let view = View {
        rect: request.rect(),
        dir: Dir::North,
    };
    spans_of(request, view, 0)
}
