//! The order in which the search places splitters.
ghost use Rattle.std.specs.Prelude.{◌≡◌, ◌<◌, ◌==◌, map, length, count_by, IfOk, OnOk};
ghost use Rattle.std.specs.List.{range_with_len, position_or_len};
ghost use Rattle.bt_place.specs.Numbering as numbering;
ghost use Rattle.bt_place.specs.PlaceFormula as formula;
ghost use Rattle.bt_place.specs.inner.Order.{IsNextPlaced};

use bt_demands::{enters, leaves};
use bt_net::{Edge, Net};
use std::alloc::{AllocError, Global};

/// Whether the edge goes from one of the placed splitters to this one, or from this one to one of those.
fn joins(placed: &[usize], splitter: usize, edge: Edge) -> bool
    ensures { result ≡ numbering.joins placed.now splitter edge }
{
    let mut rest = placed;
    while let Some((other, others)) = rest.split_first() {
        if leaves(*other, edge) && enters(splitter, edge)
            || leaves(splitter, edge) && enters(*other, edge)
        {
            return true;
        }
        rest = others;
    }
    false
}

/// The number of edges between the placed splitters and this one.
fn joining(edges: &[Edge], placed: &[usize], splitter: usize) -> usize
    ensures { result ≡ numbering.joining edges.now placed.now splitter }
{
    let mut count = 0;
    for edge in edges {
        if joins(placed, splitter, *edge) {
            count += 1;
        }
    }
    count
}

/// The place in `left` of the first splitter with the most edges to those that are placed; 0 where none is left.
fn first_most(edges: &[Edge], placed: &[usize], left: &[usize]) -> usize
    ensures { result ≡ numbering.first_most (map (numbering.joining edges.now placed.now) left.now) }
{
    let Some((first, others)) = left.split_first() else {
        return 0;
    };
    let mut most = joining(edges, placed, *first);
    let mut place = 0;
    let mut next = 1;
    let mut rest = others;
    while let Some((splitter, others)) = rest.split_first() {
        let count = joining(edges, placed, *splitter);
        if most < count {
            most = count;
            place = next;
        }
        next += 1;
        rest = others;
    }
    place
}

/// Moves behind the splitters that are placed the first of those that are left with the most edges to them.
fn place_next(
    edges: &[Edge],
    placed: &mut Vec<usize>,
    left: &mut Vec<usize>,
) -> Result<(), AllocError>
    requires { 0 < length left.old.items }
    ensures { OnOk result (IsNextPlaced edges.now placed.old.items left.old.items placed.new.items
        left.new.items) }
{
    let place = first_most(edges, placed, left);
    placed.push(left.remove(place))?;
    Ok(())
}

/// The numbers of so many splitters, from 0.
fn all_splitters(alloc: Global, splitters: usize) -> Result<Vec<usize>, AllocError>
    ensures { IfOk result (λ all. all.items ≡ range_with_len 0 splitters) }
{
    let mut all = Vec::new(alloc);
    for splitter in 0..splitters {
        all.push(splitter)?;
    }
    Ok(all)
}

/// The splitters in the order in which the search places them. The next one is that with the most edges to those that are
/// placed: it has the fewest places left, so what can't be shows soon.
fn splitter_order(alloc: Global, net: &Net) -> Result<Vec<usize>, AllocError>
    ensures { IfOk result (λ order. order.items ≡ formula.splitter_order net.now) }
{
    let edges = net.edges();
    let mut left = all_splitters(alloc, net.splitters() as usize)?;
    let mut placed = Vec::new(alloc);
    while !left.is_empty() {
        place_next(edges, &mut placed, &mut left)?;
    }
    Ok(placed)
}

/// The place of the splitter in an order; the order's length where it isn't there.
fn rank(order: &[usize], splitter: usize) -> usize
    ensures { result ≡ position_or_len (λ k. k == splitter) order.now }
{
    let mut place = 0;
    let mut rest = order;
    while let Some((other, others)) = rest.split_first() {
        if *other == splitter {
            return place;
        }
        place += 1;
        rest = others;
    }
    place
}

/// The place of each of so many splitters in an order.
fn ranks_in(alloc: Global, order: &[usize], splitters: usize) -> Result<Vec<usize>, AllocError>
    ensures { IfOk result (λ ranks. ranks.items
        ≡ map (λ s. position_or_len (λ k. k == s) order.now) (range_with_len 0 splitters)) }
{
    let mut ranks = Vec::new(alloc);
    for splitter in 0..splitters {
        ranks.push(rank(order, splitter))?;
    }
    Ok(ranks)
}

/// The rank of each splitter: its place in the order in which the search places them.
pub fn ranks_of(alloc: Global, net: &Net) -> Result<Vec<usize>, AllocError>
    ensures { IfOk result (λ ranks. ranks.items ≡ formula.ranks_of net.now) }
{
    let order = splitter_order(alloc, net)?;
    ranks_in(alloc, &order, net.splitters() as usize)
}
