//! Rules that count: a sequential counter over cells in their order, each of which holds a half of a splitter or none.
//! `Fact::Held(spare, half)` says that of the cells up to number `spare + half`, more than `half` hold halves.
//! That splitters have no room a search would else find out place by place: a refutation of the balancer of 12
//! splitters in 7x7 took 515,899 conflicts, and 23,705 with the counter. Other counters saved nothing on top, and the
//! direction from the cells to the count would help no refutation.
ghost use Rattle.std.specs.Prelude.{◌≡◌, ◌++◌, ◌∷◌, [], ◌<◌, ◌≤◌, ◌+◌, length, OnOk, IfOk};
ghost use Rattle.std.specs.List.{flat_map, range_with_len};
ghost use Rattle.bt_facts.specs.Counters as counters;

use crate::draft::Draft;
use crate::fact::Fact;
use bt_parts::Cell;
use std::alloc::{AllocError, Global};

/// The fact that of the cells before number `spare + half`, more than `half` hold halves; no fact where `spare` is 0,
/// since there are only `half` such cells.
fn among_less(alloc: Global, spare: usize, half: usize) -> Result<Vec<Fact>, AllocError>
    ensures { IfOk result (λ facts. facts.items ≡ counters.among_less spare half) }
{
    let mut facts = Vec::new(alloc);
    if 0 < spare {
        facts.push(Fact::Held(spare - 1, half))?;
    }
    Ok(facts)
}

/// Adds that where `Held(spare, half)` is so, the cell of number `spare + half` holds a half, or more than `half` of
/// the cells before it do.
fn add_last_cell(
    alloc: Global,
    draft: &mut Draft,
    cells: &[Cell],
    spare: usize,
    half: usize,
) -> Result<(), AllocError>
    requires { spare + half < length cells.now }
    ensures { OnOk result (draft.new ≡ draft.old ++ counters.last_cell_rule cells.now spare half ∷ []) }
{
    let mut facts = among_less(alloc, spare, half)?;
    facts.push(Fact::HalfOn(cells[spare + half]))?;
    draft.add(&[Fact::Held(spare, half)], &facts)?;
    Ok(())
}

/// Adds that where `Held(spare, half)` is so, at least `half` of the cells before number `spare + half` hold halves,
/// since that one holds one at most. Adds nothing where `half` is 0.
fn add_one_fewer(
    alloc: Global,
    draft: &mut Draft,
    spare: usize,
    half: usize,
) -> Result<(), AllocError>
    ensures { OnOk result (draft.new ≡ draft.old ++ counters.one_fewer_rules spare half) }
{
    if 0 < half {
        let mut facts = among_less(alloc, spare, half)?;
        facts.push(Fact::Held(spare, half - 1))?;
        draft.add(&[Fact::Held(spare, half)], &facts)?;
    }
    Ok(())
}

/// Adds both rules of the fact `Held(spare, half)`.
fn add_held(
    alloc: Global,
    draft: &mut Draft,
    cells: &[Cell],
    spare: usize,
    half: usize,
) -> Result<(), AllocError>
    requires { spare + half < length cells.now }
    ensures { OnOk result (draft.new ≡ draft.old ++ counters.held_rules cells.now spare half) }
{
    add_last_cell(alloc, draft, cells, spare, half)?;
    add_one_fewer(alloc, draft, spare, half)
}

/// Adds the rules of the facts `Held(spare, half)` for each `half` below the number of halves.
fn add_each_held(
    alloc: Global,
    draft: &mut Draft,
    cells: &[Cell],
    spare: usize,
    halves: usize,
) -> Result<(), AllocError>
    requires { spare + halves ≤ length cells.now }
    ensures { OnOk result (draft.new ≡ draft.old
        ++ flat_map (counters.held_rules cells.now spare) (range_with_len 0 halves)) }
{
    for half in 0..halves {
        add_held(alloc, draft, cells, spare, half)?;
    }
    Ok(())
}

/// Adds the rules of the facts `Held(spare, half)` for each `half` below the number of halves and each `spare` up to
/// the number of cells that hold none where all halves are among the cells.
pub fn add_counter(
    alloc: Global,
    draft: &mut Draft,
    cells: &[Cell],
    halves: usize,
) -> Result<(), AllocError>
    requires { halves ≤ length cells.now }
    ensures { OnOk result (draft.new ≡ draft.old ++ counters.counter_rules cells.now halves) }
{
    for spare in 0..cells.len() - halves + 1 {
        add_each_held(alloc, draft, cells, spare, halves)?;
    }
    Ok(())
}

/// Adds that at least so many halves are among so many cells. Adds nothing where there are no halves.
pub fn add_all_held(draft: &mut Draft, cells: usize, halves: usize) -> Result<(), AllocError>
    requires { halves ≤ cells }
    ensures { OnOk result (draft.new ≡ draft.old ++ counters.all_held_rules cells halves) }
{
    if 0 < halves {
        draft.add(&[], &[Fact::Held(cells - halves, halves - 1)])?;
    }
    Ok(())
}
