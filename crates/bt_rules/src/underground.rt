//! Rules of underground pairs. A tunnel is the way of a pair from one cell to the next in its direction.
ghost use Rattle.std.specs.Prelude.{◌≡◌, ◌≤◌, ◌<◌, ◌-◌, ◌++◌, ◌∷◌, [], map, flat_map, IfOk, OnOk};
ghost use Rattle.std.specs.List.{range_with_len};
ghost use Rattle.bt_demands.specs.Plans.{IsPlan};
ghost use Rattle.bt_facts.specs.Rules.{rule};
ghost use Rattle.bt_facts.specs.Spots.{dirs};
ghost use Rattle.bt_rules.specs.Underground as underground;
ghost use Rattle.bt_facts.specs.Near.{IsNear};
ghost use Rattle.bt_rules.specs.inner.Parts as parts;

use bt_demands::Plan;
use bt_facts::{
    Class, Draft, Fact, Shape, add_excluded, add_implied, add_one_where, ahead, behind, far, holds,
    is_inside, push_inside, push_tunnels,
};
use bt_model::Request;
use bt_parts::{Cell, DIRS, Dir, Rect};
use std::alloc::{AllocError, Global};

/// Adds the fact that a tunnel of this direction comes to the cell from behind. Adds nothing where the cell behind is
/// outside.
fn push_tunnel_into(
    facts: &mut Vec<Fact>,
    rect: Rect,
    cell: Cell,
    dir: Dir,
) -> Result<(), AllocError>
    requires { IsNear cell }
    ensures { OnOk result (facts.new.items ≡ facts.old.items ++ underground.tunnel_into rect cell dir) }
{
    let before = behind(dir, cell);
    push_inside(facts, rect, before, &[Fact::Tunnel(before, dir)])
}

/// Adds that an entrance so turned begins a tunnel and that one comes to an exit from behind, as each is in a pair.
fn add_end_tunnels(
    alloc: Global,
    draft: &mut Draft,
    rect: Rect,
    cell: Cell,
    dir: Dir,
) -> Result<(), AllocError>
    requires { IsNear cell }
    ensures { OnOk result (draft.new ≡ draft.old ++ parts.end_tunnel_rules rect cell dir) }
{
    let mut into = Vec::new(alloc);
    push_tunnel_into(&mut into, rect, cell, dir)?;
    draft.add(
        &[holds(cell, Shape::Entrance, dir)],
        &[Fact::Tunnel(cell, dir)],
    )?;
    draft.add(&[holds(cell, Shape::Exit, dir)], &into)
}

/// Adds that a tunnel on from the cell comes from an entrance there or from a tunnel behind, and that none goes on
/// behind an exit: a tunnel is there for pairs alone.
fn add_sources(
    alloc: Global,
    draft: &mut Draft,
    rect: Rect,
    cell: Cell,
    dir: Dir,
) -> Result<(), AllocError>
    requires { IsNear cell }
    ensures { OnOk result (draft.new ≡ draft.old ++ parts.source_rules rect cell dir) }
{
    let tunnel = Fact::Tunnel(cell, dir);
    let mut from = vec![in alloc; holds(cell, Shape::Entrance, dir)]?;
    push_tunnel_into(&mut from, rect, cell, dir)?;
    draft.add(&[tunnel], &from)?;
    draft.add(&[tunnel, holds(cell, Shape::Exit, dir)], &[])
}

/// Adds that a tunnel doesn't leave the rectangle, where its pair would have no exit, and passes no entrance of its
/// direction and no piece that points back: no piece of its axis lies between the two ends of a pair.
fn add_passing(draft: &mut Draft, rect: Rect, cell: Cell, dir: Dir) -> Result<(), AllocError>
    requires { IsNear cell }
    ensures { OnOk result (draft.new ≡ draft.old ++ parts.passing_rules rect cell dir) }
{
    let tunnel = Fact::Tunnel(cell, dir);
    let next = ahead(dir, cell);
    if is_inside(rect, next) {
        let entrance = holds(next, Shape::Entrance, dir);
        let facing = holds(next, Shape::Entrance, dir.opposite());
        add_excluded(
            draft,
            tunnel,
            &[entrance, facing, holds(next, Shape::Exit, dir.opposite())],
        )
    } else {
        draft.add(&[tunnel], &[])
    }
}

/// Adds the rules of a tunnel on from the cell in a direction.
fn add_tunnel(
    alloc: Global,
    draft: &mut Draft,
    rect: Rect,
    cell: Cell,
    dir: Dir,
) -> Result<(), AllocError>
    requires { IsNear cell }
    ensures { OnOk result (draft.new ≡ draft.old ++ underground.tunnel_rules rect cell dir) }
{
    add_end_tunnels(alloc, draft, rect, cell, dir)?;
    add_sources(alloc, draft, rect, cell, dir)?;
    add_passing(draft, rect, cell, dir)
}

/// Adds the fact of the pair of this distance that an entrance on the cell may begin. Adds nothing where its exit is
/// outside.
fn push_pair_from(
    facts: &mut Vec<Fact>,
    rect: Rect,
    cell: Cell,
    dir: Dir,
    distance: usize,
) -> Result<(), AllocError>
    requires near { IsNear cell }
    requires few { distance < 64 }
    ensures { OnOk result (facts.new.items ≡ facts.old.items ++ parts.pair_from rect cell dir distance) }
{
    let end = far(dir, cell, distance);
    push_inside(facts, rect, end, &[Fact::Pair(cell, dir, distance)])
}

/// The facts of the pairs of at most this distance that an entrance on the cell may begin, in this direction.
fn pairs_from(
    alloc: Global,
    rect: Rect,
    most: usize,
    cell: Cell,
    dir: Dir,
) -> Result<Vec<Fact>, AllocError>
    requires near { IsNear cell }
    requires few { most < 63 }
    ensures { IfOk result (λ facts. facts.items ≡ underground.pairs_from rect most cell dir) }
{
    let mut facts = Vec::new(alloc);
    for distance in 1..most + 1 {
        push_pair_from(&mut facts, rect, cell, dir, distance)?;
    }
    Ok(facts)
}

/// Adds the fact of the pair of this distance that an exit on the cell may end. Adds nothing where its entrance is
/// outside.
fn push_pair_into(
    facts: &mut Vec<Fact>,
    rect: Rect,
    cell: Cell,
    dir: Dir,
    distance: usize,
) -> Result<(), AllocError>
    requires near { IsNear cell }
    requires few { distance < 64 }
    ensures { OnOk result (facts.new.items ≡ facts.old.items ++ parts.pair_into rect cell dir distance) }
{
    let entrance = far(dir.opposite(), cell, distance);
    push_inside(
        facts,
        rect,
        entrance,
        &[Fact::Pair(entrance, dir, distance)],
    )
}

/// The facts of the pairs of at most this distance that an exit on the cell may end, in this direction.
fn pairs_into(
    alloc: Global,
    rect: Rect,
    most: usize,
    cell: Cell,
    dir: Dir,
) -> Result<Vec<Fact>, AllocError>
    requires near { IsNear cell }
    requires few { most < 63 }
    ensures { IfOk result (λ facts. facts.items ≡ underground.pairs_into rect most cell dir) }
{
    let mut facts = Vec::new(alloc);
    for distance in 1..most + 1 {
        push_pair_into(&mut facts, rect, cell, dir, distance)?;
    }
    Ok(facts)
}

/// Adds that an entrance so turned begins a pair and an exit ends one, since a piece without its other end leads
/// nowhere; and that no two pairs of this direction begin on the cell, or end there.
fn add_paired(
    alloc: Global,
    draft: &mut Draft,
    rect: Rect,
    most: usize,
    cell: Cell,
    dir: Dir,
) -> Result<(), AllocError>
    requires near { IsNear cell }
    requires few { most < 63 }
    ensures { OnOk result (draft.new ≡ draft.old ++ underground.paired_rules rect most cell dir) }
{
    let from = pairs_from(alloc, rect, most, cell, dir)?;
    let into = pairs_into(alloc, rect, most, cell, dir)?;
    add_one_where(draft, &[holds(cell, Shape::Entrance, dir)], &from)?;
    add_one_where(draft, &[holds(cell, Shape::Exit, dir)], &into)
}

/// Adds that a pair has its two ends, and that the way between is a tunnel: so no piece of its axis lies between them.
fn add_way(
    alloc: Global,
    draft: &mut Draft,
    cell: Cell,
    dir: Dir,
    distance: usize,
) -> Result<(), AllocError>
    requires near { IsNear cell }
    requires some { 1 ≤ distance }
    requires few { distance < 64 }
    ensures { OnOk result (draft.new ≡ draft.old ++ underground.way_rules cell dir distance) }
{
    let entrance = holds(cell, Shape::Entrance, dir);
    let exit = holds(far(dir, cell, distance), Shape::Exit, dir);
    let mut facts = vec![in alloc; entrance, exit]?;
    push_tunnels(&mut facts, cell, dir, distance)?;
    add_implied(draft, &[Fact::Pair(cell, dir, distance)], &facts)
}

/// Adds that the two ends of a pair both have this class, or neither: what goes in comes out.
fn add_pair_class(
    draft: &mut Draft,
    cell: Cell,
    dir: Dir,
    distance: usize,
    class: Class,
) -> Result<(), AllocError>
    requires near { IsNear cell }
    requires few { distance < 64 }
    ensures { OnOk result (draft.new ≡ draft.old ++ underground.pair_class_rules cell dir distance class) }
{
    let pair = Fact::Pair(cell, dir, distance);
    let here = Fact::Carries(cell, class);
    let there = Fact::Carries(far(dir, cell, distance), class);
    draft.add(&[pair, here], &[there])?;
    draft.add(&[pair, there], &[here])
}

/// Adds that the two ends of a pair have one class.
fn add_pair_classes(
    draft: &mut Draft,
    classes: &[Class],
    cell: Cell,
    dir: Dir,
    distance: usize,
) -> Result<(), AllocError>
    requires near { IsNear cell }
    requires few { distance < 64 }
    ensures { OnOk result (draft.new ≡ draft.old
        ++ flat_map (underground.pair_class_rules cell dir distance) classes.now) }
{
    for class in classes {
        add_pair_class(draft, cell, dir, distance, *class)?;
    }
    Ok(())
}

/// Adds the rules of a pair of this distance that begins on the cell; nothing where its exit would be outside.
fn add_pair(
    alloc: Global,
    draft: &mut Draft,
    request: &Request,
    plan: &Plan,
    cell: Cell,
    dir: Dir,
    distance: usize,
) -> Result<(), AllocError>
    requires near { IsNear cell }
    requires plan { IsPlan request.now plan.now }
    requires some { 1 ≤ distance }
    requires few { distance < 64 }
    ensures { OnOk result (draft.new ≡ draft.old ++ underground.pair_rules request.now cell dir distance) }
{
    if is_inside(request.rect(), far(dir, cell, distance)) {
        add_way(alloc, draft, cell, dir, distance)?;
        add_pair_classes(draft, &plan.classes, cell, dir, distance)?;
    }
    Ok(())
}

/// Adds the rules of pairs of each distance from 1 to this one that begin on the cell.
fn add_pairs(
    alloc: Global,
    draft: &mut Draft,
    request: &Request,
    plan: &Plan,
    most: usize,
    cell: Cell,
    dir: Dir,
) -> Result<(), AllocError>
    requires near { IsNear cell }
    requires plan { IsPlan request.now plan.now }
    requires few { most < 63 }
    ensures { OnOk result (draft.new ≡ draft.old
        ++ flat_map (underground.pair_rules request.now cell dir) (range_with_len 1 most)) }
{
    for distance in 1..most + 1 {
        add_pair(alloc, draft, request, plan, cell, dir, distance)?;
    }
    Ok(())
}

/// The greatest distance between the two ends of an underground pair: one more than the cells between them, of which
/// the tier of the request bounds the number.
fn most_distance(request: &Request) -> usize
    ensures most { result ≡ underground.most_distance request.now }
    ensures few { result < 63 }
{
    request.tier().reach() as usize + 1
}

/// Adds the rules of tunnels and underground pairs in a direction, at a cell.
fn add_pieces(
    alloc: Global,
    draft: &mut Draft,
    request: &Request,
    plan: &Plan,
    cell: Cell,
    dir: Dir,
) -> Result<(), AllocError>
    requires near { IsNear cell }
    requires plan { IsPlan request.now plan.now }
    ensures { OnOk result (draft.new ≡ draft.old ++ underground.piece_rules request.now cell dir) }
{
    let rect = request.rect();
    let most = most_distance(request);
    add_tunnel(alloc, draft, rect, cell, dir)?;
    add_paired(alloc, draft, rect, most, cell, dir)?;
    add_pairs(alloc, draft, request, plan, most, cell, dir)
}

/// Adds the rules of underground pairs, at a cell.
pub fn add_underground(
    alloc: Global,
    draft: &mut Draft,
    request: &Request,
    plan: &Plan,
    cell: Cell,
) -> Result<(), AllocError>
    requires near { IsNear cell }
    requires plan { IsPlan request.now plan.now }
    ensures { OnOk result (draft.new ≡ draft.old ++ underground.underground_rules request.now cell) }
{
    for dir in DIRS {
        add_pieces(alloc, draft, request, plan, cell, dir)?;
    }
    Ok(())
}
