//! Rules that some layout keeps, where there is any, though not each does.

use crate::around::{is_border, mate};
use crate::network::is_full;
use crate::twins::twins;
use bt_demands::{Plan, Way};
use bt_facts::{Class, Content, Draft, Fact, Half, Shape, cells_of, holds, sides_of};
use bt_model::Request;
use bt_parts::{Cell, DIRS, Dir, Rect, inside};
use std::alloc::{AllocError, Global};
/// A pair doesn't pass empty cells alone, which belts would do for.
fn add_pair(
    alloc: Global,
    draft: &mut Draft,
    cell: Cell,
    dir: Dir,
    distance: u32,
) -> Result<(), AllocError> {
    let mut given = Vec::new(alloc);
    given.push(Fact::Pair(cell, dir, distance as usize))?;
    let mut between = cell;
    for _ in 1..distance {
        between = between.next(dir);
        given.push(Fact::Kind(between, Content::Empty))?;
    }
    draft.add(&given, &[])
}

/// A pair from this cell whose pieces are at most so far apart passes a cell that isn't empty; so its pieces aren't
/// next to one another.
fn add_pairs(
    alloc: Global,
    draft: &mut Draft,
    cell: Cell,
    dir: Dir,
    most: u32,
) -> Result<(), AllocError> {
    for distance in 1..=most {
        add_pair(alloc, draft, cell, dir, distance)?;
    }
    Ok(())
}

/// No belts turn to a side and then back, to a belt beside the first of them to which that could have turned at once,
/// unless an input begins there.
fn add_turn(draft: &mut Draft, cell: Cell, dir: Dir, side: Dir) -> Result<(), AllocError> {
    let next = cell.next(dir);
    let given = [
        holds(cell, Shape::Belt, dir),
        holds(next, Shape::Belt, side),
        holds(next.next(side), Shape::Belt, dir.opposite()),
        Fact::BeltOn(cell.next(side)),
    ];
    draft.add(&given, &[Fact::Begins(cell)])
}

/// Of the two cells by which belts can lead around a corner, the lesser one is taken where it is empty, unless an input
/// begins before it.
fn add_corner(draft: &mut Draft, cell: Cell, dir: Dir, side: Dir) -> Result<(), AllocError> {
    let next = cell.next(dir);
    let other = cell.next(side);
    if (other.y, other.x) >= (next.y, next.x) {
        return Ok(());
    }
    let given = [
        holds(cell, Shape::Belt, dir),
        holds(next, Shape::Belt, side),
        Fact::BeltOn(next.next(side)),
        Fact::Kind(other, Content::Empty),
    ];
    draft.add(&given, &[Fact::Begins(cell)])
}

/// A splitter doesn't stand before two belts that lead on from it, over which it could slide.
fn add_slide(draft: &mut Draft, rect: &Rect, cell: Cell, dir: Dir) -> Result<(), AllocError> {
    if !inside(rect, cell.next(dir).next(dir)) {
        return Ok(());
    }
    let given = [
        holds(cell, Shape::Half(Half::Lesser), dir),
        holds(cell.next(dir), Shape::Belt, dir),
        holds(mate(cell, dir).next(dir), Shape::Belt, dir),
    ];
    draft.add(&given, &[])
}

/// On the border, an edge from an input begins where it first can.
fn add_beginning(draft: &mut Draft, cell: Cell, dir: Dir, class: Class) -> Result<(), AllocError> {
    let begins = [Fact::Begins(cell)];
    let carries = Fact::Carries(cell, class);
    draft.add(&[carries, holds(cell, Shape::Belt, dir)], &begins)?;
    draft.add(&[carries, holds(cell, Shape::Entrance, dir)], &begins)
}

/// Where what is behind the cell is outside, an edge of each of the classes begins where it first can.
fn add_beginnings(
    draft: &mut Draft,
    rect: &Rect,
    cell: Cell,
    dir: Dir,
    classes: &[Class],
) -> Result<(), AllocError> {
    if inside(rect, cell.next(dir.opposite())) {
        return Ok(());
    }
    for class in classes {
        add_beginning(draft, cell, dir, *class)?;
    }
    Ok(())
}

/// On the border, a belt of a class whose edges all end at outputs looks out, unless an input begins there.
fn add_endings(
    draft: &mut Draft,
    rect: &Rect,
    cell: Cell,
    dir: Dir,
    ways: &[Way],
) -> Result<(), AllocError> {
    if !is_border(rect, cell) || !inside(rect, cell.next(dir)) {
        return Ok(());
    }
    for way in ways {
        if way.goals.is_empty() {
            let carries = Fact::Carries(cell, way.class);
            draft.add(
                &[carries, holds(cell, Shape::Belt, dir)],
                &[Fact::Begins(cell)],
            )?;
        }
    }
    Ok(())
}

/// Where the twin with the lesser number stands in this row, the other one stands in no row above.
fn add_rows(draft: &mut Draft, one: usize, other: usize, row: usize) -> Result<(), AllocError> {
    for above in 0..row {
        draft.add(&[Fact::Row(one, row), Fact::Row(other, above)], &[])?;
    }
    Ok(())
}

/// Of twins in one row the one with the lesser number stands in an earlier column.
fn add_columns(
    draft: &mut Draft,
    one: usize,
    other: usize,
    row: usize,
    width: usize,
) -> Result<(), AllocError> {
    for column in 0..width {
        for before in 0..=column {
            let given = [
                Fact::Row(one, row),
                Fact::Row(other, row),
                Fact::Column(one, column),
                Fact::Column(other, before),
            ];
            draft.add(&given, &[])?;
        }
    }
    Ok(())
}

/// Twins stand in the order of their numbers.
fn add_twins(draft: &mut Draft, rect: Rect, one: usize, other: usize) -> Result<(), AllocError> {
    for row in 0..rect.height as usize {
        add_rows(draft, one, other, row)?;
        add_columns(draft, one, other, row, rect.width as usize)?;
    }
    Ok(())
}

/// What is known of a request before its cells are looked at.
#[derive(Drop)]
struct RequestTraits {
    plan: Plan,
    rect: Rect,
    /// The greatest distance of pairs that must not pass empty cells alone.
    most: u32,
    /// Whether two edges leave each splitter, and no cell is blocked.
    is_free: bool,
    /// Whether nothing is asked of where ends stand.
    is_unpinned: bool,
}

/// Adds the rules of a cell and a direction.
fn add_towards(
    alloc: Global,
    draft: &mut Draft,
    known: &RequestTraits,
    cell: Cell,
    dir: Dir,
) -> Result<(), AllocError> {
    let RequestTraits { plan, rect, .. } = known;
    add_pairs(alloc, draft, cell, dir, known.most)?;
    add_slide(draft, rect, cell, dir)?;
    for side in &sides_of(dir) {
        add_turn(draft, cell, dir, *side)?;
        if known.is_free {
            add_corner(draft, cell, dir, *side)?;
        }
    }
    if known.is_unpinned {
        add_beginnings(draft, rect, cell, dir, &plan.inputs)?;
        add_endings(draft, rect, cell, dir, &plan.ways)?;
    }
    Ok(())
}

/// What is known of a request.
fn known_of(alloc: Global, request: &Request) -> Result<RequestTraits, AllocError> {
    let net = request.net();
    let is_free = is_full(net.edges(), net.splitters() as usize) && request.blocks().is_empty();
    Ok(RequestTraits {
        plan: Plan::new(alloc, request)?,
        rect: request.rect(),
        most: if is_free {
            request.tier().reach() + 1
        } else {
            1
        },
        is_free,
        is_unpinned: request.demands().is_empty(),
    })
}

/// Adds what a layout keeps around each cell.
fn add_around(alloc: Global, draft: &mut Draft, request: &Request) -> Result<(), AllocError> {
    let known = known_of(alloc, request)?;
    for cell in &cells_of(alloc, request.rect())? {
        for dir in &DIRS {
            add_towards(alloc, draft, &known, *cell, *dir)?;
        }
    }
    Ok(())
}

/// Adds the order of the splitters that may change places.
fn add_all_twins(alloc: Global, draft: &mut Draft, request: &Request) -> Result<(), AllocError> {
    let net = request.net();
    for (one, other) in &twins(alloc, net.edges(), net.splitters() as usize)? {
        add_twins(draft, request.rect(), *one, *other)?;
    }
    Ok(())
}

/// Rules over the facts of a request that a layout keeps which has few underground pieces and belts, and whose
/// splitters stand as far to the front as can be and, of those that may change places, in the order of their numbers.
/// They may speak of cells that the request doesn't have.
pub fn narrowings(alloc: Global, request: &Request) -> Result<Draft, AllocError> {
    let mut draft = Draft::new(alloc)?;
    add_around(alloc, &mut draft, request)?;
    add_all_twins(alloc, &mut draft, request)?;
    Ok(draft)
}
