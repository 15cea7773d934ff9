//! In which order the splitters of each rank stand. A block of a rank stands over two halves side by side, which are
//! blocks of the rank before; the core is a block of eight lines with the ranks under it.
use crate::eight::CORE_ACROSS;
use crate::wiring::{Beside, Wiring, both_at};
use std::alloc::{AllocError, Global};
use std::mem::replace;

/// The splitters of ranks, from the last one to the first, each in the order of their columns.
pub type Rows = Vec<Vec<usize>>;

/// The most ranks of a butterfly: so many lines has none that a grid holds.
const MOST_RANKS: usize = 7;

/// Whether no splitter stands twice in a row; all have numbers below `count`.
fn are_apart(alloc: Global, row: &[usize], count: usize) -> Result<bool, AllocError> {
    let mut seen = vec![in alloc; false; count]?;
    for splitter in row {
        match seen.get_mut(*splitter) {
            Some(is_seen) if !*is_seen => *is_seen = true,
            _ => return Ok(false),
        }
    }
    Ok(true)
}

/// The splitters to which those of a row lead: one of each, in this order, and then the others. In the core the two
/// stand side by side. None where one doesn't lead to two.
fn next_row(
    alloc: Global,
    row: &[usize],
    behind: &[Beside],
) -> Result<Option<Vec<usize>>, AllocError> {
    let mut next = Vec::new(alloc);
    let mut others = Vec::new(alloc);
    for splitter in row {
        let Some((one, other)) = both_at(behind, *splitter) else {
            return Ok(None);
        };
        next.push(one)?;
        if are_side_by_side(row.len()) {
            next.push(other)?;
        } else {
            others.push(other)?;
        }
    }
    next.extend_from_slice(&others)?;
    Ok(Some(next))
}

/// Whether two splitters of the upper row that come from the same two stand side by side, where half a block has so many
/// splitters: so they do in the core, and over a channel they stand half a block apart.
fn are_side_by_side(half: usize) -> bool {
    half.saturating_mul(2) == CORE_ACROSS
}

/// The splitters of the last of `ranks` ranks to which `first`, in the first of them, leads, in the order of their
/// columns. None where one on the way doesn't lead to two, or is reached twice in the last rank.
fn reached(
    alloc: Global,
    behind: &[Beside],
    first: usize,
    ranks: usize,
) -> Result<Option<Vec<usize>>, AllocError> {
    let mut row = Vec::new(alloc);
    row.push(first)?;
    for _ in 1..ranks {
        match next_row(alloc, &row, behind)? {
            Some(next) => row = next,
            None => return Ok(None),
        }
    }
    if are_apart(alloc, &row, behind.len())? {
        Ok(Some(row))
    } else {
        Ok(None)
    }
}

/// The splitters from which those of a row come, each once. None where one of the row doesn't come from two.
fn row_before(
    alloc: Global,
    row: &[usize],
    before: &[Beside],
) -> Result<Option<Vec<usize>>, AllocError> {
    let mut seen = vec![in alloc; false; before.len()]?;
    let mut found = Vec::new(alloc);
    for splitter in row {
        let Some((one, other)) = both_at(before, *splitter) else {
            return Ok(None);
        };
        for source in &[one, other] {
            if let Some(is_seen) = seen.get_mut(*source) {
                if !*is_seen {
                    *is_seen = true;
                    found.push(*source)?;
                }
            }
        }
    }
    Ok(Some(found))
}

/// The splitters of so many ranks, from the last one, which is given, to the first, each rank in any order. None where
/// one doesn't come from two.
fn ranks_before(
    alloc: Global,
    last: &[usize],
    before: &[Beside],
    ranks: usize,
) -> Result<Option<Rows>, AllocError> {
    let mut row = Vec::from_slice(alloc, last)?;
    let mut rows = Vec::new(alloc);
    for _ in 1..ranks {
        match row_before(alloc, &row, before)? {
            Some(next) => rows.push(replace(&mut row, next))?,
            None => return Ok(None),
        }
    }
    rows.push(row)?;
    Ok(Some(rows))
}

/// The label of a splitter: two splitters of one rank have the same where they belong to the same half, or quarter, and so
/// on, of the ranks up to theirs.
fn label_at(labels: &[usize], splitter: usize) -> usize {
    labels.get(splitter).copied().unwrap_or(usize::MAX)
}

/// A label for each splitter of these ranks, which are listed from the last to the first: in the first rank that of
/// `first`, in each later one the lesser of the two that it comes from.
fn labels_of(
    alloc: Global,
    ranks: &[Vec<usize>],
    before: &[Beside],
    first: &[usize],
) -> Result<Vec<usize>, AllocError> {
    let mut labels = vec![in alloc; usize::MAX; before.len()]?;
    for (place, rank) in ranks.iter().rev().enumerate() {
        for splitter in rank {
            let label = match both_at(before, *splitter) {
                Some((one, other)) if place > 0 => {
                    label_at(&labels, one).min(label_at(&labels, other))
                }
                _ => label_at(first, *splitter),
            };
            if let Some(known) = labels.get_mut(*splitter) {
                *known = label;
            }
        }
    }
    Ok(labels)
}

/// The two splitters from which both at these places of a row come, first that of the half with the lesser label. None
/// where they don't come from the same two.
fn sources(
    row: &[usize],
    places: (usize, usize),
    before: &[Beside],
    labels: &[usize],
) -> Option<(usize, usize)> {
    let (one, other) = both_at(before, *row.get(places.0)?)?;
    if both_at(before, *row.get(places.1)?) != Some((one, other)) {
        None
    } else if label_at(labels, one) < label_at(labels, other) {
        Some((one, other))
    } else {
        Some((other, one))
    }
}

/// Writes a splitter's number to a place of a row, where the row has it.
fn write(row: &mut [usize], place: usize, splitter: usize) {
    if let Some(number) = row.get_mut(place) {
        *number = splitter;
    }
}

/// The row under one whose blocks have twice `half` splitters, each over two halves side by side, of which that with
/// the lesser labels stands to the left. None where two splitters don't come from the same two, as they should.
fn row_under(
    alloc: Global,
    row: &[usize],
    half: usize,
    before: &[Beside],
    labels: &[usize],
) -> Result<Option<Vec<usize>>, AllocError> {
    let mut next = vec![in alloc; usize::MAX; row.len()]?;
    for pair in 0..row.len() / 2 {
        let place = block_start(pair, half).saturating_add(pair % half.max(1));
        let opposite = place.saturating_add(half);
        let upper = if are_side_by_side(half) {
            (
                pair.saturating_mul(2),
                pair.saturating_mul(2).saturating_add(1),
            )
        } else {
            (place, opposite)
        };
        let Some((left, right)) = sources(row, upper, before, labels) else {
            return Ok(None);
        };
        write(&mut next, place, left);
        write(&mut next, opposite, right);
    }
    Ok(Some(next))
}

/// Where the block begins in which a pair with this number stands, where half a block has so many splitters.
fn block_start(pair: usize, half: usize) -> usize {
    (pair / half.max(1)).saturating_mul(half).saturating_mul(2)
}

/// The rows of a butterfly, from its last one, which is given, to its first. None where a row isn't one of a butterfly.
fn rows_under(
    alloc: Global,
    last: Vec<usize>,
    before: &[Beside],
    labels: &[usize],
) -> Result<Option<Rows>, AllocError> {
    let mut half = last.len() / 2;
    let mut row = last;
    let mut rows = Vec::new(alloc);
    for _ in 0..MOST_RANKS {
        if half == 0 {
            break;
        }
        match row_under(alloc, &row, half, before, labels)? {
            Some(next) => rows.push(replace(&mut row, next))?,
            None => return Ok(None),
        }
        half /= 2;
    }
    rows.push(row)?;
    Ok(Some(rows))
}

/// A direction in which a network is gone through: what lies before and behind each splitter, and the labels that splitters
/// of the first rank have: of two halves the one with the lesser labels stands to the left.
#[derive(Clone, Copy)]
struct Way<'a> {
    before: &'a [Beside],
    behind: &'a [Beside],
    labels: &'a [usize],
}

/// The rows of a butterfly of so many ranks, from the last to the first, that has this splitter in its first one. None
/// where there is no such butterfly.
fn butterfly_from(
    alloc: Global,
    way: Way,
    first: usize,
    ranks: usize,
) -> Result<Option<Rows>, AllocError> {
    let Some(last) = reached(alloc, way.behind, first, ranks)? else {
        return Ok(None);
    };
    let Some(sets) = ranks_before(alloc, &last, way.before, ranks)? else {
        return Ok(None);
    };
    let labels = labels_of(alloc, &sets, way.before, way.labels)?;
    rows_under(alloc, last, way.before, &labels)
}

/// A label for each splitter: its number.
fn numbers(alloc: Global, count: usize) -> Result<Vec<usize>, AllocError> {
    let mut labels = Vec::new(alloc);
    for number in 0..count {
        labels.push(number)?;
    }
    Ok(labels)
}

/// A label for each of so many splitters: its place in a row, or the greatest number where it isn't there.
fn places(alloc: Global, row: &[usize], count: usize) -> Result<Vec<usize>, AllocError> {
    let mut labels = vec![in alloc; usize::MAX; count]?;
    for (place, splitter) in row.iter().enumerate() {
        write(&mut labels, *splitter, place);
    }
    Ok(labels)
}

/// The rows of a butterfly that is followed along its edges, where this splitter stands in its first one; none where it
/// is no butterfly.
fn rows_onward(
    alloc: Global,
    wiring: &Wiring,
    first: usize,
    ranks: usize,
) -> Result<Option<Rows>, AllocError> {
    let labels = numbers(alloc, wiring.before.len())?;
    let way = Way {
        before: &wiring.before,
        behind: &wiring.behind,
        labels: &labels,
    };
    butterfly_from(alloc, way, first, ranks)
}

/// The rows of a butterfly that is followed against its edges from the row `shared` on. None where it is no butterfly,
/// or its first row doesn't come out in the order of `shared`.
fn rows_against(
    alloc: Global,
    wiring: &Wiring,
    shared: &[usize],
    ranks: usize,
) -> Result<Option<Rows>, AllocError> {
    let labels = places(alloc, shared, wiring.before.len())?;
    let way = Way {
        before: &wiring.behind,
        behind: &wiring.before,
        labels: &labels,
    };
    let Some(first) = shared.first().copied() else {
        return Ok(None);
    };
    let Some(rows) = butterfly_from(alloc, way, first, ranks)? else {
        return Ok(None);
    };
    match rows.last() {
        Some(row) if **row == *shared => Ok(Some(rows)),
        _ => Ok(None),
    }
}

/// The rows of a network that is laid stage by stage.
#[derive(Drop)]
pub struct Arranged {
    /// The rows of the butterfly whose last rank has the outputs.
    pub upper: Rows,
    /// Of a Benes network the rows of the butterfly against its edges, whose last rank has the inputs.
    pub lower: Rows,
}

/// What network it may be, by the number of its splitters.
#[derive(Clone, Copy)]
pub enum Shape {
    /// A butterfly of so many ranks.
    Butterfly(usize),
    /// A Benes network: two butterflies of so many ranks, which share one.
    Benes(usize),
}

impl Shape {
    /// How many ranks the network has.
    pub fn ranks(self) -> usize {
        match self {
            Shape::Butterfly(ranks) => ranks,
            Shape::Benes(ranks) => ranks.saturating_mul(2).saturating_sub(1),
        }
    }
}

/// What a network of so many splitters may be: `ranks` rows of 2^(`ranks` - 1) are a butterfly, and twice as many rows
/// but one a Benes network. None for other numbers.
pub fn shape_of(splitters: usize) -> Option<Shape> {
    let mut across = 1usize;
    for ranks in 1..=MOST_RANKS {
        if splitters == ranks.saturating_mul(across) {
            return Some(Shape::Butterfly(ranks));
        }
        let both = ranks.saturating_mul(2).saturating_sub(1);
        if splitters == both.saturating_mul(across) {
            return Some(Shape::Benes(ranks));
        }
        across = across.saturating_mul(2);
    }
    None
}

/// The rows of a Benes network of two butterflies of so many ranks each, where `first` has an input: the upper one
/// begins with the rank to which `first` leads, and the lower one goes back from there. None where it is no such
/// network.
fn benes_from(
    alloc: Global,
    wiring: &Wiring,
    first: usize,
    ranks: usize,
) -> Result<Option<Arranged>, AllocError> {
    let Some(middle) = reached(alloc, &wiring.behind, first, ranks)? else {
        return Ok(None);
    };
    let Some(beginning) = middle.first().copied() else {
        return Ok(None);
    };
    let Some(upper) = rows_onward(alloc, wiring, beginning, ranks)? else {
        return Ok(None);
    };
    let Some(shared) = upper.last() else {
        return Ok(None);
    };
    match rows_against(alloc, wiring, shared, ranks)? {
        Some(lower) => Ok(Some(Arranged { upper, lower })),
        None => Ok(None),
    }
}

/// The rows of a network of this shape, where it is one.
pub fn arrange(
    alloc: Global,
    wiring: &Wiring,
    shape: Shape,
) -> Result<Option<Arranged>, AllocError> {
    let Some(first) = wiring.first else {
        return Ok(None);
    };
    match shape {
        Shape::Butterfly(ranks) => match rows_onward(alloc, wiring, first, ranks)? {
            Some(upper) => Ok(Some(Arranged {
                upper,
                lower: Vec::new(alloc),
            })),
            None => Ok(None),
        },
        Shape::Benes(ranks) => benes_from(alloc, wiring, first, ranks),
    }
}
