//! Splitters on seats that lie evenly in a rectangle, so that edges are short: they change seats by chance, at first also where
//! edges get longer, then less and less so (simulated annealing, with thresholds by Dueck and Scheuer).
use crate::lines::View;
use bt_net::{Edge, Start, Target};
use bt_random::Random;
use hint_numbering::{from, to};
use hint_routing::{Span, Spans, Stand, is_upright};
use std::alloc::{AllocError, Global};

/// So many moves are made for each splitter.
const MOVES_EACH: usize = 600;

/// The most moves.
const MOST_MOVES: usize = 200_000;

/// What an edge costs more that leads back, since it goes round both of its splitters.
const BACK: usize = 8;

/// Seats in so many columns and lines, which are spread evenly over a rectangle.
#[derive(Clone, Copy)]
pub struct Seats {
    view: View,
    columns: usize,
    lines: usize,
}

/// The place and the line of a seat.
#[derive(Clone, Copy)]
struct Seat {
    place: usize,
    line: usize,
}

impl Seats {
    /// Seats for so many splitters, in so many lines of seats, with about so many percent of the seats more than are
    /// needed. None where they don't fit.
    pub fn new(view: View, splitters: usize, lines: usize, spare: usize) -> Option<Seats> {
        let wanted = splitters.saturating_mul(spare.saturating_add(100)) / 100;
        let lines = lines.max(1);
        let columns = wanted.saturating_add(lines).saturating_sub(1) / lines;
        if columns.saturating_mul(2) > view.across() || lines.saturating_mul(2) > view.along() {
            return None;
        }
        Some(Seats {
            view,
            columns: columns.max(1),
            lines,
        })
    }

    /// How many seats there are.
    fn count(self) -> usize {
        self.columns.saturating_mul(self.lines)
    }

    /// The place and the line of the seat of this number.
    fn seat(self, number: usize) -> Seat {
        let (column, line) = (number % self.columns.max(1), number / self.columns.max(1));
        let across = self.view.across();
        let middle = across.saturating_mul(column.saturating_mul(2).saturating_add(1));
        let place = middle / self.columns.saturating_mul(2).max(1);
        let along = self.view.along().saturating_sub(2);
        let height = along.saturating_mul(line.saturating_mul(2).saturating_add(1));
        Seat {
            place: place.saturating_sub(1),
            line: (height / self.lines.saturating_mul(2).max(1)).saturating_add(1),
        }
    }

    /// How a splitter stands on the seat of this number.
    fn stand(self, number: usize) -> Stand {
        let Seat { place, line } = self.seat(number);
        Stand {
            cell: self.view.cell(place, line),
            dir: self.view.dir,
        }
    }
}

/// What an edge costs from one seat to another: its way across and along, and more where it doesn't lead on in the
/// view.
fn way(start: Seat, target: Seat) -> usize {
    let across = start.place.abs_diff(target.place);
    let along = start.line.abs_diff(target.line);
    let way = across.saturating_add(along);
    if target.line < start.line {
        way
    } else {
        way.saturating_add(BACK).saturating_sub(across.min(3))
    }
}

/// How far a place lies from those of a span; 0 where there is none.
fn beside(span: Option<Span>, place: usize) -> usize {
    let Some(span) = span else {
        return 0;
    };
    let first = if is_upright(span.dir) {
        span.first.x.unsigned_abs() as usize
    } else {
        span.first.y.unsigned_abs() as usize
    };
    let last = first.saturating_add(span.count as usize).saturating_sub(1);
    first
        .saturating_sub(place)
        .saturating_add(place.saturating_sub(last))
}

/// A network whose splitters sit somewhere.
#[derive(Drop)]
struct Seating<'a> {
    seats: Seats,
    spans: Spans,
    edges: &'a [Edge],
    /// The numbers of the edges at each splitter.
    joined: Vec<Vec<usize>>,
    /// The number of each splitter's seat.
    taken: Vec<usize>,
    /// Who sits on each seat.
    sitting: Vec<Option<usize>>,
}

impl Seating<'_> {
    /// Where a splitter sits.
    fn seat(&self, splitter: u32) -> Seat {
        let number = self.taken.get(splitter as usize).copied().unwrap_or(0);
        self.seats.seat(number)
    }

    /// What an edge costs: its way between seats, or from a seat to the border or the span where its end stands.
    fn cost(&self, edge: &Edge) -> usize {
        let last = self.seats.view.along();
        match (edge.start, edge.target) {
            (Start::Split(start), Target::Split(target)) => {
                way(self.seat(start), self.seat(target))
            }
            (Start::Input(_), Target::Split(target)) => {
                let seat = self.seat(target);
                last.saturating_sub(seat.line)
                    .saturating_add(beside(self.spans.inputs, seat.place))
            }
            (Start::Split(start), Target::Output(_)) => {
                let seat = self.seat(start);
                seat.line
                    .saturating_add(beside(self.spans.outputs, seat.place))
            }
            (Start::Input(_), Target::Output(_)) => 0,
        }
    }

    /// What the edges at a splitter cost.
    fn cost_at(&self, splitter: Option<usize>) -> usize {
        let mut sum = 0usize;
        let Some(splitter) = splitter else {
            return sum;
        };
        if let Some(numbers) = self.joined.get(splitter) {
            for number in numbers {
                if let Some(edge) = self.edges.get(*number) {
                    sum = sum.saturating_add(self.cost(edge));
                }
            }
        }
        sum
    }

    /// Who sits on a seat.
    fn who(&self, seat: usize) -> Option<usize> {
        self.sitting.get(seat).copied().unwrap_or(None)
    }

    /// Lets somebody, or nobody, sit on a seat.
    fn sit(&mut self, who: Option<usize>, seat: usize) {
        if let Some(place) = self.sitting.get_mut(seat) {
            *place = who;
        }
        if let Some(splitter) = who {
            if let Some(taken) = self.taken.get_mut(splitter) {
                *taken = seat;
            }
        }
    }

    /// What the edges cost of those who sit on two seats.
    fn cost_of(&self, one: Option<usize>, other: Option<usize>) -> usize {
        self.cost_at(one).saturating_add(self.cost_at(other))
    }

    /// Exchanges those who sit on two seats, unless their edges then cost more than `more` above what they did.
    fn exchange(&mut self, one: usize, other: usize, more: usize) {
        let (first, second) = (self.who(one), self.who(other));
        let before = self.cost_of(first, second);
        self.sit(first, other);
        self.sit(second, one);
        let after = self.cost_of(first, second);
        if after > before.saturating_add(more) {
            self.sit(first, one);
            self.sit(second, other);
        }
    }

    /// Makes exchanges by chance. What one may cost more gets less and less, and is nothing at the end.
    fn settle(&mut self, random: &mut Random) {
        let (splitters, seats) = (self.taken.len(), self.seats.count());
        let moves = splitters.saturating_mul(MOVES_EACH).min(MOST_MOVES);
        let warmth = self
            .seats
            .view
            .across()
            .saturating_add(self.seats.view.along())
            / 4;
        for step in 0..moves {
            let left = moves.saturating_sub(step);
            let bound = warmth.saturating_mul(left) / moves.max(1);
            let splitter = random.below(splitters);
            let seat = self.taken.get(splitter).copied().unwrap_or(0);
            let other = random.below(seats);
            let more = random.below(bound.saturating_add(1));
            self.exchange(seat, other, more);
        }
    }
}

/// The numbers of the edges at each of so many splitters.
fn joined_edges(
    alloc: Global,
    edges: &[Edge],
    splitters: usize,
) -> Result<Vec<Vec<usize>>, AllocError> {
    let mut joined = Vec::new(alloc);
    for splitter in 0..splitters {
        let mut numbers = Vec::new(alloc);
        for (number, edge) in edges.iter().enumerate() {
            if from(edge) == Some(splitter) || to(edge) == Some(splitter) {
                numbers.push(number)?;
            }
        }
        joined.push(numbers)?;
    }
    Ok(joined)
}

/// Who sits on so many seats at first: each splitter on the seat of its number.
fn first_sitting(
    alloc: Global,
    splitters: usize,
    seats: usize,
) -> Result<Vec<Option<usize>>, AllocError> {
    let mut sitting = Vec::new(alloc);
    for seat in 0..seats {
        sitting.push(if seat < splitters { Some(seat) } else { None })?;
    }
    Ok(sitting)
}

/// The stands of so many splitters on seats, after exchanges by chance from this seed.
pub fn seated(
    alloc: Global,
    edges: &[Edge],
    splitters: usize,
    seats: Seats,
    spans: Spans,
    seed: usize,
) -> Result<Vec<Stand>, AllocError> {
    let mut taken = Vec::new(alloc);
    for splitter in 0..splitters {
        taken.push(splitter)?;
    }
    let mut seating = Seating {
        seats,
        spans,
        edges,
        joined: joined_edges(alloc, edges, splitters)?,
        taken,
        sitting: first_sitting(alloc, splitters, seats.count())?,
    };
    seating.settle(&mut Random::new(seed as u64));
    let mut stands = Vec::new(alloc);
    for seat in &seating.taken {
        stands.push(seats.stand(*seat))?;
    }
    Ok(stands)
}
