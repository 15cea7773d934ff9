//! Lists of facts that rules share.
ghost use Rattle.std.specs.Prelude.{◌≡◌, ◌≤◌, ◌<◌, ◌-◌, ◌++◌, ◌∷◌, [], map, flat_map, IfOk, OnOk};
ghost use Rattle.std.specs.List.{range_with_len};
ghost use Rattle.bt_parts.specs.Cells.{steps};
ghost use Rattle.bt_facts.specs.Facts as told;
ghost use Rattle.bt_facts.specs.Spots as spots;
ghost use Rattle.bt_facts.specs.Near.{IsNear};
ghost use Rattle.bt_facts.specs.declared.fact.Class.TheVariants as class;
ghost use Rattle.bt_facts.specs.declared.fact.Fact.TheVariants as fact;

use crate::fact::{Class, Content, Fact, Shape};
use crate::spots::{behind, far, push_inside};
use bt_parts::{Cell, Dir, Rect};
use std::alloc::{AllocError, Global};

/// The fact that the cell holds a part of this shape, turned this way.
pub fn holds(cell: Cell, shape: Shape, dir: Dir) -> Fact
    ensures { result ≡ told.holds cell shape dir }
{
    Fact::Kind(cell, Content::Turned(shape, dir))
}

/// For each direction the fact that the cell holds a part of this shape, turned that way.
pub fn turned(cell: Cell, shape: Shape) -> [Fact; 4]
    ensures { result ≡ map (told.holds cell shape) spots.dirs }
{
    [
        holds(cell, shape, Dir::North),
        holds(cell, shape, Dir::East),
        holds(cell, shape, Dir::South),
        holds(cell, shape, Dir::West),
    ]
}

/// For each class the fact that the cell carries it.
pub fn carries(alloc: Global, cell: Cell, classes: &[Class]) -> Result<Vec<Fact>, AllocError>
    ensures { IfOk result (λ facts. facts.items ≡ map (fact.Carries cell) classes.now) }
{
    classes
        .iter()
        .map(|class| Fact::Carries(cell, *class))
        .collect(alloc)
}

/// For each of these splitters the fact that the cell carries the class of its out edges.
pub fn carries_split(
    alloc: Global,
    cell: Cell,
    splitters: &[usize],
) -> Result<Vec<Fact>, AllocError>
    ensures { IfOk result (λ facts. facts.items
        ≡ map (λ t. fact.Carries cell (class.Split t)) splitters.now) }
{
    splitters
        .iter()
        .map(|splitter| Fact::Carries(cell, Class::Split(*splitter)))
        .collect(alloc)
}

/// For each of so many columns, from 0, the fact that the lesser half of the splitter stands in it.
pub fn columns(alloc: Global, splitter: usize, width: usize) -> Result<Vec<Fact>, AllocError>
    ensures { IfOk result (λ facts. facts.items ≡ map (fact.Column splitter) (range_with_len 0 width)) }
{
    (0..width).map(|x| Fact::Column(splitter, x)).collect(alloc)
}

/// For each of so many rows, from 0, the fact that the lesser half of the splitter stands in it.
pub fn rows(alloc: Global, splitter: usize, height: usize) -> Result<Vec<Fact>, AllocError>
    ensures { IfOk result (λ facts. facts.items ≡ map (fact.Row splitter) (range_with_len 0 height)) }
{
    (0..height).map(|y| Fact::Row(splitter, y)).collect(alloc)
}

/// For each of so many splitters the fact that its lesser half stands on the cell, and it is turned this way.
pub fn owners(
    alloc: Global,
    cell: Cell,
    dir: Dir,
    splitters: usize,
) -> Result<Vec<Fact>, AllocError>
    ensures { IfOk result (λ facts. facts.items
        ≡ map (λ s. fact.At s cell dir) (range_with_len 0 splitters)) }
{
    (0..splitters)
        .map(|s| Fact::At(s, cell, dir))
        .collect(alloc)
}

/// For each of these cells the fact that the first part of the input stands on it.
pub fn starts_on(alloc: Global, border: &[Cell], input: usize) -> Result<Vec<Fact>, AllocError>
    ensures { IfOk result (λ facts. facts.items ≡ map (λ c. fact.Starts c input) border.now) }
{
    border
        .iter()
        .map(|cell| Fact::Starts(*cell, input))
        .collect(alloc)
}

/// For each of these cells the fact that the last part of the output stands on it.
pub fn stops_on(alloc: Global, border: &[Cell], output: usize) -> Result<Vec<Fact>, AllocError>
    ensures { IfOk result (λ facts. facts.items ≡ map (λ c. fact.Stops c output) border.now) }
{
    border
        .iter()
        .map(|cell| Fact::Stops(*cell, output))
        .collect(alloc)
}

/// Adds the fact that the cell behind this one hands to it in this direction. Adds nothing where that cell is outside.
pub fn push_goes_into(
    facts: &mut Vec<Fact>,
    rect: Rect,
    cell: Cell,
    dir: Dir,
) -> Result<(), AllocError>
    requires { IsNear cell }
    ensures { OnOk result (facts.new.items ≡ facts.old.items ++ told.goes_into rect cell dir) }
{
    let before = behind(dir, cell);
    push_inside(facts, rect, before, &[Fact::Goes(before, dir)])
}

/// The fact that the cell behind this one hands to it in this direction; no fact where that cell is outside.
pub fn goes_into(alloc: Global, rect: Rect, cell: Cell, dir: Dir) -> Result<Vec<Fact>, AllocError>
    requires { IsNear cell }
    ensures { IfOk result (λ facts. facts.items ≡ told.goes_into rect cell dir) }
{
    let mut facts = Vec::new(alloc);
    push_goes_into(&mut facts, rect, cell, dir)?;
    Ok(facts)
}

/// Adds for each cell ahead that is nearer than `distance` the fact that an underground pair of this direction runs
/// from it to the next one.
pub fn push_tunnels(
    facts: &mut Vec<Fact>,
    cell: Cell,
    dir: Dir,
    distance: usize,
) -> Result<(), AllocError>
    requires near { IsNear cell }
    requires some { 1 ≤ distance }
    requires few { distance < 64 }
    ensures { OnOk result (facts.new.items ≡ facts.old.items
        ++ map (λ j. fact.Tunnel (steps j dir cell) dir) (range_with_len 1 (distance - 1))) }
{
    for place in 1..distance {
        facts.push(Fact::Tunnel(far(dir, cell, place), dir))?;
    }
    Ok(())
}
