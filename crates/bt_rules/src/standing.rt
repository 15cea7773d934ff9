//! Rules of where splitters stand.
ghost use Rattle.std.specs.Prelude.{◌≡◌, ◌++◌, ◌∷◌, [], map, flat_map, IfOk, OnOk};
ghost use Rattle.std.specs.List.{range_with_len};
ghost use Rattle.bt_facts.specs.Rules.{at_most_one};
ghost use Rattle.bt_facts.specs.Spots.{dirs, cells_of};
ghost use Rattle.bt_rules.specs.Standing as standing;
ghost use Rattle.bt_facts.specs.Near.{IsNear};
ghost use Rattle.bt_facts.specs.declared.fact.Fact.TheVariants as fact;

use bt_facts::{
    Class, Draft, Fact, Half, Shape, add_at_most_one, add_implied, columns, holds, mate, owners,
    push_inside, rows,
};
use bt_model::Request;
use bt_parts::{Cell, DIRS, Dir, Rect};
use std::alloc::{AllocError, Global};

/// Adds that a lesser half so turned is that of some splitter of the network: the layout has no others.
fn add_owner(
    alloc: Global,
    draft: &mut Draft,
    splitters: usize,
    cell: Cell,
    dir: Dir,
) -> Result<(), AllocError>
    ensures { OnOk result (draft.new ≡ draft.old
        ++ standing.owner_rule (range_with_len 0 splitters) cell dir ∷ []) }
{
    let owners = owners(alloc, cell, dir, splitters)?;
    draft.add(&[holds(cell, Shape::Half(Half::Lesser), dir)], &owners)
}

/// Adds that a lesser half, however it is turned, is that of some splitter of the network.
fn add_owners(
    alloc: Global,
    draft: &mut Draft,
    splitters: usize,
    cell: Cell,
) -> Result<(), AllocError>
    ensures { OnOk result (draft.new ≡ draft.old
        ++ map (standing.owner_rule (range_with_len 0 splitters) cell) dirs) }
{
    for dir in DIRS {
        add_owner(alloc, draft, splitters, cell, dir)?;
    }
    Ok(())
}

/// Adds what follows where a splitter stands with its lesser half here, so turned: that half, its class on both cells,
/// and its column, row and direction. The greater half follows from the lesser one by another rule.
fn add_at(
    alloc: Global,
    draft: &mut Draft,
    rect: Rect,
    splitter: usize,
    cell: Cell,
    dir: Dir,
) -> Result<(), AllocError>
    requires { IsNear cell }
    ensures { OnOk result (draft.new ≡ draft.old ++ standing.at_rules rect splitter cell dir) }
{
    let class = Class::Split(splitter);
    let mut facts = vec![in alloc;
        holds(cell, Shape::Half(Half::Lesser), dir),
        Fact::Carries(cell, class),
        Fact::Column(splitter, cell.x.unsigned_abs() as usize),
        Fact::Row(splitter, cell.y.unsigned_abs() as usize),
        Fact::Points(splitter, dir),
    ]?;
    let other = mate(Half::Lesser, dir, cell);
    push_inside(&mut facts, rect, other, &[Fact::Carries(other, class)])?;
    add_implied(draft, &[Fact::At(splitter, cell, dir)], &facts)
}

/// Adds what follows where a splitter stands with its lesser half here, however it is turned.
fn add_here(
    alloc: Global,
    draft: &mut Draft,
    rect: Rect,
    splitter: usize,
    cell: Cell,
) -> Result<(), AllocError>
    requires { IsNear cell }
    ensures { OnOk result (draft.new ≡ draft.old ++ flat_map (standing.at_rules rect splitter cell) dirs) }
{
    for dir in DIRS {
        add_at(alloc, draft, rect, splitter, cell, dir)?;
    }
    Ok(())
}

/// Adds what follows where any of so many splitters stands with its lesser half here.
fn add_all_here(
    alloc: Global,
    draft: &mut Draft,
    rect: Rect,
    splitters: usize,
    cell: Cell,
) -> Result<(), AllocError>
    requires { IsNear cell }
    ensures { OnOk result (draft.new ≡ draft.old
        ++ flat_map (λ s. flat_map (standing.at_rules rect s cell) dirs) (range_with_len 0 splitters)) }
{
    for splitter in 0..splitters {
        add_here(alloc, draft, rect, splitter, cell)?;
    }
    Ok(())
}

/// Adds the facts that the splitter stands, so turned, with its lesser half on the cell, or with its greater one, where
/// the cell of its lesser half is then inside.
fn push_stands_on(
    facts: &mut Vec<Fact>,
    rect: Rect,
    splitter: usize,
    cell: Cell,
    dir: Dir,
) -> Result<(), AllocError>
    requires { IsNear cell }
    ensures { OnOk result (facts.new.items ≡ facts.old.items ++ standing.stands_on rect splitter cell dir) }
{
    facts.push(Fact::At(splitter, cell, dir))?;
    let other = mate(Half::Greater, dir, cell);
    push_inside(facts, rect, other, &[Fact::At(splitter, other, dir)])
}

/// The facts that the splitter stands with one of its halves on the cell, in each direction.
fn stands_on(
    alloc: Global,
    rect: Rect,
    splitter: usize,
    cell: Cell,
) -> Result<Vec<Fact>, AllocError>
    requires { IsNear cell }
    ensures { IfOk result (λ facts. facts.items ≡ flat_map (standing.stands_on rect splitter cell) dirs) }
{
    let mut facts = Vec::new(alloc);
    for dir in DIRS {
        push_stands_on(&mut facts, rect, splitter, cell, dir)?;
    }
    Ok(facts)
}

/// Adds that a half with the class of the splitter is one of its halves: so no half is left over beside those of the
/// places where splitters stand.
fn add_name(
    alloc: Global,
    draft: &mut Draft,
    rect: Rect,
    cell: Cell,
    splitter: usize,
) -> Result<(), AllocError>
    requires { IsNear cell }
    ensures { OnOk result (draft.new ≡ draft.old ++ standing.name_rule rect cell splitter ∷ []) }
{
    let facts = stands_on(alloc, rect, splitter, cell)?;
    let class = Fact::Carries(cell, Class::Split(splitter));
    draft.add(&[Fact::HalfOn(cell), class], &facts)
}

/// Adds for each of so many splitters that a half with its class is one of its halves.
fn add_names(
    alloc: Global,
    draft: &mut Draft,
    rect: Rect,
    cell: Cell,
    splitters: usize,
) -> Result<(), AllocError>
    requires { IsNear cell }
    ensures { OnOk result (draft.new ≡ draft.old ++ map (standing.name_rule rect cell)
        (range_with_len 0 splitters)) }
{
    for splitter in 0..splitters {
        add_name(alloc, draft, rect, cell, splitter)?;
    }
    Ok(())
}

/// Adds the rules of which splitter stands on a cell, and what follows from that.
pub fn add_standing(
    alloc: Global,
    draft: &mut Draft,
    request: &Request,
    cell: Cell,
) -> Result<(), AllocError>
    requires { IsNear cell }
    ensures { OnOk result (draft.new ≡ draft.old ++ standing.standing_rules request.now cell) }
{
    let rect = request.rect();
    let splitters = request.net().splitters() as usize;
    add_owners(alloc, draft, splitters, cell)?;
    add_all_here(alloc, draft, rect, splitters, cell)?;
    add_names(alloc, draft, rect, cell, splitters)
}

/// Adds for each direction the fact that the splitter stands with its lesser half on the cell, turned that way.
fn push_ats(facts: &mut Vec<Fact>, splitter: usize, cell: Cell) -> Result<(), AllocError>
    ensures { OnOk result (facts.new.items ≡ facts.old.items ++ map (fact.At splitter cell) dirs) }
{
    for dir in DIRS {
        facts.push(Fact::At(splitter, cell, dir))?;
    }
    Ok(())
}

/// The facts that the splitter stands with its lesser half on a cell, for each cell and direction.
fn stands_at(alloc: Global, cells: &[Cell], splitter: usize) -> Result<Vec<Fact>, AllocError>
    ensures { IfOk result (λ facts. facts.items ≡ flat_map (λ c. map (fact.At splitter c) dirs) cells.now) }
{
    let mut facts = Vec::new(alloc);
    for cell in cells {
        push_ats(&mut facts, splitter, *cell)?;
    }
    Ok(facts)
}

/// Adds that the lesser half of the splitter is in at most one column.
fn add_one_column(
    alloc: Global,
    draft: &mut Draft,
    rect: Rect,
    splitter: usize,
) -> Result<(), AllocError>
    ensures { OnOk result (draft.new ≡ draft.old
        ++ at_most_one (map (fact.Column splitter) (range_with_len 0 rect.width))) }
{
    let facts = columns(alloc, splitter, rect.width as usize)?;
    add_at_most_one(draft, &facts)
}

/// Adds that the lesser half of the splitter is in at most one row.
fn add_one_row(
    alloc: Global,
    draft: &mut Draft,
    rect: Rect,
    splitter: usize,
) -> Result<(), AllocError>
    ensures { OnOk result (draft.new ≡ draft.old
        ++ at_most_one (map (fact.Row splitter) (range_with_len 0 rect.height))) }
{
    let facts = rows(alloc, splitter, rect.height as usize)?;
    add_at_most_one(draft, &facts)
}

/// Adds that the splitter is turned in at most one direction.
fn add_one_direction(draft: &mut Draft, splitter: usize) -> Result<(), AllocError>
    ensures { OnOk result (draft.new ≡ draft.old ++ at_most_one (map (fact.Points splitter) dirs)) }
{
    let north = Fact::Points(splitter, Dir::North);
    let east = Fact::Points(splitter, Dir::East);
    let south = Fact::Points(splitter, Dir::South);
    let west = Fact::Points(splitter, Dir::West);
    add_at_most_one(draft, &[north, east, south, west])
}

/// Adds that the splitter stands in exactly one place, since it is one part. A place is a column, a row and a
/// direction: that there is at most one of each takes fewer clauses than that no two places are taken.
pub fn add_place(
    alloc: Global,
    draft: &mut Draft,
    rect: Rect,
    cells: &[Cell],
    splitter: usize,
) -> Result<(), AllocError>
    requires { cells.now ≡ cells_of rect }
    ensures { OnOk result (draft.new ≡ draft.old ++ standing.place_rules rect splitter) }
{
    let facts = stands_at(alloc, cells, splitter)?;
    draft.add(&[], &facts)?;
    add_one_column(alloc, draft, rect, splitter)?;
    add_one_row(alloc, draft, rect, splitter)?;
    add_one_direction(draft, splitter)?;
    Ok(())
}
