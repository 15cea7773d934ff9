//! The scopes of a flow formula: for each splitter the rows that speak of its edges alone, one of all rows that compare
//! flows, and one for each edge that leads from an input straight to an output. Of two networks that are equal up to
//! numbering those of two splitters beside each other.
//!
//! What a search refutes is mostly refuted at one splitter, so these rows are worth asking before all. A proof by
//! hand goes from the outputs back, splitter by splitter, and so do the scopes. What is left then is a matter of
//! comparisons alone: flows that are equal at each splitter, and ends whose flows differ.
ghost use Rattle.std.specs.Prelude.{ℕ, ◌<◌, length, IfOk};
ghost use Rattle.std.specs.List.{All};
ghost use Rattle.hint_graphs.specs.Places.{AreBelow};

use bt_flow::{Property, Role};
use bt_frac::{Frac, Row};
use bt_net::{Edge, Net};
use hint_graphs::{add, empty_lists, ranked_splitters};
use std::alloc::{AllocError, Global};
use std::mem::replace;

/// The splitters at the two ends of an edge.
#[derive(Clone, Copy, PartialEq, Eq)]
struct Sides {
    start: Option<u32>,
    target: Option<u32>,
}

impl Sides {
    const NONE: Sides = Sides {
        start: None,
        target: None,
    };

    /// The splitters from which an edge comes and to which it leads.
    fn of(edge: &Edge) -> Sides {
        Sides {
            start: Role::OutOf.number_in(edge),
            target: Role::Into.number_in(edge),
        }
    }

    /// The splitters that are among those of both.
    fn common(self, other: Sides) -> Sides {
        Sides {
            start: other.with(self.start),
            target: other.with(self.target),
        }
    }

    /// Whether the splitter is one of these.
    fn has(self, splitter: usize) -> bool {
        is_number(self.start, splitter) || is_number(self.target, splitter)
    }

    /// The splitter, where it is one of these.
    fn with(self, splitter: Option<u32>) -> Option<u32> {
        if splitter == self.start || splitter == self.target {
            splitter
        } else {
            None
        }
    }
}

/// Whether there is a splitter, and it has this number.
fn is_number(splitter: Option<u32>, number: usize) -> bool {
    match splitter {
        Some(splitter) => splitter as usize == number,
        None => false,
    }
}

/// How many columns that are of no edge of a network stand before the flows of its edges, and how many behind these.
#[derive(Clone, Copy)]
struct Gaps {
    before: usize,
    behind: usize,
}

/// The scopes of the rows of a network's flow formula, as lists of their places. Each splitter has one: the rows whose
/// columns are all flows of its edges, or the load or the room at one of these. The splitters nearest to the outputs
/// come first, and for `drawn-evenly` and `drawn-fairly` the farthest. Behind them comes a scope of the rows that
/// compare flows, and then one for each edge that touches no splitter.
pub fn scopes_of(
    alloc: Global,
    net: &Net,
    property: Property,
    rows: &[Row],
) -> Result<Vec<Vec<usize>>, AllocError>
    ensures { IfOk result (λ scopes. All (λ scope. AreBelow (length rows.now) scope.items) scopes.items) }
{
    let gaps = Gaps {
        before: 0,
        behind: 0,
    };
    let farthest_first = property == Property::DrawnEvenly || property == Property::DrawnFairly;
    let mut scopes = splitter_scopes(alloc, Vec::new(alloc), net, gaps, farthest_first, rows)?;
    scopes.push(comparisons(alloc, net.edges().len(), farthest_first, rows)?)?;
    direct_scopes(alloc, scopes, net, gaps, rows)
}

/// The scopes of the rows of two networks' formula: those of the splitters of the first, of the second, then one of the
/// rows that compare flows, and those of edges that touch no splitter. The splitters nearest to the outputs come first.
pub fn scopes_of_both(
    alloc: Global,
    first: &Net,
    second: &Net,
    rows: &[Row],
) -> Result<Vec<Vec<usize>>, AllocError>
    ensures { IfOk result (λ scopes. All (λ scope. AreBelow (length rows.now) scope.items) scopes.items) }
{
    let edges = first.edges().len();
    let more = second.edges().len();
    let of_first = Gaps {
        before: 0,
        behind: more,
    };
    let of_second = Gaps {
        before: edges,
        behind: 0,
    };
    let ones = splitter_scopes(alloc, Vec::new(alloc), first, of_first, false, rows)?;
    let mut scopes = splitter_scopes(alloc, ones, second, of_second, false, rows)?;
    scopes.push(comparisons(alloc, edges + more, false, rows)?)?;
    let ones = direct_scopes(alloc, scopes, first, of_first, rows)?;
    direct_scopes(alloc, ones, second, of_second, rows)
}

/// A splitter of one network, and the one of another beside it, which is likely to do the same.
#[derive(Clone, Copy)]
pub struct Couple {
    pub first: usize,
    pub second: usize,
}

/// The scopes of couples of splitters: for each the rows that speak of the edges of both alone.
pub fn scopes_of_couples(
    alloc: Global,
    first: &Net,
    second: &Net,
    couples: &[Couple],
    rows: &[Row],
) -> Result<Vec<Vec<usize>>, AllocError>
    ensures { IfOk result (λ scopes. All (λ scope. AreBelow (length rows.now) scope.items) scopes.items) }
{
    let of_first = Gaps {
        before: 0,
        behind: second.edges().len(),
    };
    let of_second = Gaps {
        before: first.edges().len(),
        behind: 0,
    };
    let columns = BothSides {
        first: splitter_columns(alloc, first, of_first)?,
        second: splitter_columns(alloc, second, of_second)?,
    };
    let mut scopes = Vec::new(alloc);
    for couple in couples {
        scopes.push(couple_scope(alloc, &columns, couple, rows)?)?;
    }
    Ok(scopes)
}

/// For each column its sides in either of two networks.
#[derive(Drop)]
struct BothSides {
    first: Vec<Sides>,
    second: Vec<Sides>,
}

impl BothSides {
    /// Whether all terms are of columns at one splitter or the other of a couple, each of its own network.
    fn have(&self, couple: &Couple, terms: &[(usize, Frac)]) -> bool {
        terms.iter().all(|(column, _)| sides_at(&self.first, *column).has(couple.first)
            || sides_at(&self.second, *column).has(couple.second))
    }
}

/// The rows that speak of the edges of a couple of splitters alone.
fn couple_scope(
    alloc: Global,
    columns: &BothSides,
    couple: &Couple,
    rows: &[Row],
) -> Result<Vec<usize>, AllocError>
    ensures { IfOk result (λ scope. AreBelow (length rows.now) scope.items) }
{
    let mut scope = Vec::new(alloc);
    for place in 0..rows.len() {
        if columns.have(couple, rows[place].terms()) {
            scope.push(place)?;
        }
    }
    Ok(scope)
}

/// The scopes of a network's splitters, in the order of their distances from the outputs, behind others.
fn splitter_scopes(
    alloc: Global,
    before: Vec<Vec<usize>>,
    net: &Net,
    gaps: Gaps,
    farthest_first: bool,
    rows: &[Row],
) -> Result<Vec<Vec<usize>>, AllocError>
    requires { All (λ scope. AreBelow (length rows.now) scope.items) before.items }
    ensures { IfOk result (λ scopes. All (λ scope. AreBelow (length rows.now) scope.items) scopes.items) }
{
    let columns = splitter_columns(alloc, net, gaps)?;
    let mut lists = lists_of(alloc, net.splitters(), &columns, rows)?;
    let order = ranked_splitters(alloc, net, farthest_first)?;
    in_order(alloc, before, &mut lists, &order)
}

/// The scopes of a network's edges that lead from an input straight to an output, behind others: for each the rows that
/// speak of it alone.
fn direct_scopes(
    alloc: Global,
    before: Vec<Vec<usize>>,
    net: &Net,
    gaps: Gaps,
    rows: &[Row],
) -> Result<Vec<Vec<usize>>, AllocError>
    requires { All (λ scope. AreBelow (length rows.now) scope.items) before.items }
    ensures { IfOk result (λ scopes. All (λ scope. AreBelow (length rows.now) scope.items) scopes.items) }
{
    let (sides, order) = direct_sides(alloc, net)?;
    let columns = columns_of(alloc, net, &sides, gaps)?;
    let count = u32::try_from(order.len()).unwrap_or(0);
    let mut lists = lists_of(alloc, count, &columns, rows)?;
    in_order(alloc, before, &mut lists, &order)
}

/// For each edge its number among those that lead from an input straight to an output, as if it were a splitter's, where
/// it is one of these; and all these numbers.
fn direct_sides(alloc: Global, net: &Net) -> Result<(Vec<Sides>, Vec<usize>), AllocError> {
    let mut all = Vec::new(alloc);
    let mut numbers = Vec::new(alloc);
    for edge in net.edges() {
        if Sides::of(edge) == Sides::NONE {
            all.push(Sides {
                start: u32::try_from(numbers.len()).ok(),
                target: None,
            })?;
            numbers.push(numbers.len())?;
        } else {
            all.push(Sides::NONE)?;
        }
    }
    Ok((all, numbers))
}

/// For each column the splitters at its edge.
fn splitter_columns(alloc: Global, net: &Net, gaps: Gaps) -> Result<Vec<Sides>, AllocError> {
    let mut sides = Vec::with_capacity(alloc, net.edges().len())?;
    for edge in net.edges() {
        sides.push(Sides::of(edge))?;
    }
    columns_of(alloc, net, &sides, gaps)
}

/// The rows that compare flows or add them up: those of two flows or more, and of nothing else. A check takes rows in
/// this order, so for `drawn-evenly`, whose conclusion is about the inputs, the last one comes first.
fn comparisons(
    alloc: Global,
    flows: usize,
    last_first: bool,
    rows: &[Row],
) -> Result<Vec<usize>, AllocError>
    ensures { IfOk result (λ scope. AreBelow (length rows.now) scope.items) }
{
    let mut scope = Vec::new(alloc);
    for step in 0..rows.len() {
        let place = place_after(rows.len(), step, last_first);
        if compares(rows[place].terms(), flows) {
            scope.push(place)?;
        }
    }
    Ok(scope)
}

/// The place that comes after `step` others, of so many places from the first on or from the last back.
fn place_after(count: usize, step: usize, last_first: bool) -> usize
    requires { step < count }
    ensures { result < count }
{
    if last_first { count - 1 - step } else { step }
}

/// Whether these are terms of two flows or more, which are the first so many columns, and of nothing else.
fn compares(terms: &[(usize, Frac)], flows: usize) -> bool {
    terms.len() > 1 && terms.iter().all(|(column, _)| *column < flows)
}

/// Takes the lists in this order, and puts them behind others. A list that the order names once more is empty there,
/// and a place without a list is passed over.
fn in_order(
    alloc: Global,
    before: Vec<Vec<usize>>,
    lists: &mut [Vec<usize>],
    order: &[usize],
) -> Result<Vec<Vec<usize>>, AllocError>
    ensures { (end : ℕ) → All (λ list. AreBelow end list.items) before.items
        → All (λ list. AreBelow end list.items) lists.old
        → IfOk result (λ scopes. All (λ list. AreBelow end list.items) scopes.items) }
{
    let mut scopes = before;
    for splitter in order {
        if *splitter < lists.len() {
            scopes.push(replace(&mut lists[*splitter], Vec::new(alloc)))?;
        }
    }
    Ok(scopes)
}

/// For each of so many splitters the places of the rows whose columns are all at it.
fn lists_of(
    alloc: Global,
    count: u32,
    columns: &[Sides],
    rows: &[Row],
) -> Result<Vec<Vec<usize>>, AllocError>
    ensures { IfOk result (λ lists. All (λ list. AreBelow (length rows.now) list.items) lists.items) }
{
    let mut lists = empty_lists(alloc, count)?;
    for (place, row) in rows.iter().enumerate() {
        let sides = sides_of(columns, row.terms());
        add(&mut lists, sides.start, place)?;
        if sides.target != sides.start {
            add(&mut lists, sides.target, place)?;
        }
    }
    Ok(lists)
}

/// For each column the sides, of those of all edges, of the edge whose flow it is, or of which it is the load or the room.
fn columns_of(
    alloc: Global,
    net: &Net,
    edges: &[Sides],
    gaps: Gaps,
) -> Result<Vec<Sides>, AllocError> {
    let mut columns = vec![in alloc; Sides::NONE; gaps.before]?;
    let mut loads = vec![in alloc; Sides::NONE; net.inputs() as usize]?;
    let mut rooms = vec![in alloc; Sides::NONE; net.outputs() as usize]?;
    for (edge, sides) in net.edges().iter().zip(edges) {
        columns.push(*sides)?;
        put(&mut loads, Role::FromInput.number_in(edge), *sides);
        put(&mut rooms, Role::ToOutput.number_in(edge), *sides);
    }
    for _ in 0..gaps.behind {
        columns.push(Sides::NONE)?;
    }
    columns.extend_from_slice(&loads)?;
    columns.extend_from_slice(&rooms)?;
    Ok(columns)
}

/// Puts the sides at a number, where there is one.
fn put(all: &mut [Sides], number: Option<u32>, sides: Sides) {
    if let Some(number) = number {
        let place = number as usize;
        if place < all.len() {
            all[place] = sides;
        }
    }
}

/// The splitters of whose edges all terms speak: none where there is no term.
fn sides_of(columns: &[Sides], terms: &[(usize, Frac)]) -> Sides {
    let mut sides = match terms.first() {
        Some((column, _)) => sides_at(columns, *column),
        None => Sides::NONE,
    };
    for (column, _) in terms {
        sides = sides.common(sides_at(columns, *column));
    }
    sides
}

/// The splitters at the edge of a column, none where it is of no edge.
fn sides_at(columns: &[Sides], column: usize) -> Sides {
    columns.get(column).copied().unwrap_or(Sides::NONE)
}
