//! The clauses of a splitter.
ghost use Rattle.std.specs.Prelude.{◌≡◌, ◌<◌, ◌^◌, ◌∷◌, [], OnOk, IfOk, flat_map, map};
ghost use Rattle.std.specs.List.{AllByRecursion};
ghost use Rattle.bt_flow.specs.Ports.{numbers_of};
ghost use Rattle.bt_flow_formula.specs.Families as families;
ghost use Rattle.bt_flow_formula.specs.Pairs.{pair_clause, even_pairs, side_pairs, beside};
ghost use Rattle.bt_flow_formula.specs.inner.Adding.{with_clauses};
ghost use Rattle.bt_flow_formula.specs.inner.Merging.{merged};
ghost use Rattle.bt_flow_formula.specs.inner.Variables.{at_in, HasColumns};
ghost use Rattle.bt_flow_formula.specs.inner.Within.{IsWithin, AreWithin};

use crate::numbering::{add_three, add_two};
use crate::rows::{first_row, minus, opposite_row, plus};
use crate::state_literal::{Pair, Side, StateLiteral};
use crate::variables::PairVars;
use bt_cnf::Formula;
use bt_flow::{Port, cap_at};
use bt_frac::Frac;
use bt_net::Net;
use std::alloc::{AllocError, Global};

/// The mark with which an edge at a side of a splitter needn't be even: backed if it goes out, free if it comes in.
fn excuse(side: Side) -> bool
    ensures { result ≡ families.excuse side }
{
    match side {
        Side::Out => true,
        Side::In => false,
    }
}

/// Adds the clause that an edge has the mark that excuses it, or at least the flow of the other, or is full. The last
/// literal is left out where its cap isn't less: full, it would have at least the other's flow.
fn add_even_clause(
    net: &Net,
    pairs: &PairVars,
    formula: &mut Formula,
    side: Side,
    splitter: usize,
    edge: u16,
    other: u16,
) -> Result<(), AllocError>
    requires { AllByRecursion (IsWithin (at_in pairs.now) formula.old.vars)
        (families.even_clause net.now side splitter edge other) }
    ensures { OnOk result (formula.new ≡ with_clauses (at_in pairs.now) formula.old
        (families.even_clause net.now side splitter edge other ∷ [])) }
{
    let edge = edge as usize;
    let other = other as usize;
    let cap = cap_at(net, edge);
    let marked = StateLiteral::Mark {
        edge,
        backed: excuse(side),
    };
    let even = StateLiteral::First(Pair::Even {
        side,
        splitter,
        edge,
        other,
    });
    if cap < cap_at(net, other) {
        let full = StateLiteral::First(Pair::Full { edge, cap });
        add_three(formula, pairs, marked, even, full)
    } else {
        add_two(formula, pairs, marked, even)
    }
}

/// Adds for each of the two edges at a side of a splitter that it has the mark that excuses it, or at least the flow of
/// the other, or is full; nothing where there aren't two.
fn add_even(
    net: &Net,
    pairs: &PairVars,
    formula: &mut Formula,
    side: Side,
    splitter: usize,
    port: Port,
) -> Result<(), AllocError>
    requires { AreWithin (at_in pairs.now) formula.old.vars
        (families.even_clauses net.now side splitter (numbers_of port)) }
    ensures { OnOk result (formula.new ≡ with_clauses (at_in pairs.now) formula.old
        (families.even_clauses net.now side splitter (numbers_of port))) }
{
    let Port::Two(first, second) = port else {
        return Ok(());
    };
    add_even_clause(net, pairs, formula, side, splitter, first, second)?;
    add_even_clause(net, pairs, formula, side, splitter, second, first)
}

/// Adds that of the two edges at a side of a splitter each has at least the flow of the other, or less.
fn add_even_pairs(
    alloc: Global,
    pairs: &PairVars,
    formula: &mut Formula,
    side: Side,
    splitter: usize,
    port: Port,
) -> Result<(), AllocError>
    ensures { OnOk result (formula.new ≡ with_clauses (at_in pairs.now) formula.old
        (map pair_clause (even_pairs side splitter (numbers_of port)))) }
{
    let Port::Two(lower, higher) = port else {
        return Ok(());
    };
    let [lower, higher] = [lower as usize, higher as usize];
    let first = Pair::Even {
        side,
        splitter,
        edge: lower,
        other: higher,
    };
    add_pair(alloc, pairs, formula, first)?;
    let second = Pair::Even {
        side,
        splitter,
        edge: higher,
        other: lower,
    };
    add_pair(alloc, pairs, formula, second)
}

/// Of two edges the one that isn't preferred.
fn beside(preferred: usize, first: u16, second: u16) -> usize
    ensures beside { result ≡ beside preferred first second }
    ensures small { result < 2 ^ 16 }
{
    if preferred == first as usize {
        second as usize
    } else {
        first as usize
    }
}

/// Adds the pairs of the two edges at a side of a splitter, which may prefer one; nothing where there aren't two.
pub fn add_pairs(
    alloc: Global,
    pairs: &PairVars,
    formula: &mut Formula,
    side: Side,
    splitter: usize,
    port: Port,
    preferred: Option<usize>,
) -> Result<(), AllocError>
    ensures { OnOk result (formula.new ≡ with_clauses (at_in pairs.now) formula.old
        (map pair_clause (side_pairs preferred side splitter (numbers_of port)))) }
{
    let Some(edge) = preferred else {
        return add_even_pairs(alloc, pairs, formula, side, splitter, port);
    };
    let Port::Two(lower, higher) = port else {
        return Ok(());
    };
    let empty = Pair::Empty {
        side,
        splitter,
        edge: beside(edge, lower, higher),
    };
    add_pair(alloc, pairs, formula, empty)
}

/// Adds the clause that a preferred edge has a mark, or is full, or the edge beside it is empty.
/// That is all that a preference says, so such a side has one pair, that the edge beside is empty or carries
/// something, where others compare two edges both ways.
fn add_prior(
    net: &Net,
    pairs: &PairVars,
    formula: &mut Formula,
    side: Side,
    splitter: usize,
    edge: usize,
    other: usize,
) -> Result<(), AllocError>
    requires { AllByRecursion (IsWithin (at_in pairs.now) formula.old.vars)
        (families.prior_clause net.now side splitter edge other) }
    ensures { OnOk result (formula.new ≡ with_clauses (at_in pairs.now) formula.old
        (families.prior_clause net.now side splitter edge other ∷ [])) }
{
    let marked = StateLiteral::Mark {
        edge,
        backed: excuse(side),
    };
    let full = Pair::Full {
        edge,
        cap: cap_at(net, edge),
    };
    let empty = Pair::Empty {
        side,
        splitter,
        edge: other,
    };
    add_three(
        formula,
        pairs,
        marked,
        StateLiteral::First(full),
        StateLiteral::First(empty),
    )
}

/// Adds how the two edges at a side of a splitter share, which may prefer one; nothing where there aren't two.
pub fn add_sharing(
    net: &Net,
    pairs: &PairVars,
    formula: &mut Formula,
    side: Side,
    splitter: usize,
    port: Port,
    preferred: Option<usize>,
) -> Result<(), AllocError>
    requires { AreWithin (at_in pairs.now) formula.old.vars
        (families.side_clauses preferred net.now side splitter (numbers_of port)) }
    ensures { OnOk result (formula.new ≡ with_clauses (at_in pairs.now) formula.old
        (families.side_clauses preferred net.now side splitter (numbers_of port))) }
{
    let Some(edge) = preferred else {
        return add_even(net, pairs, formula, side, splitter, port);
    };
    let Port::Two(lower, higher) = port else {
        return Ok(());
    };
    let other = beside(edge, lower, higher);
    add_prior(net, pairs, formula, side, splitter, edge, other)
}

/// Adds the clause that the first row of a pair holds or its opposite.
pub fn add_pair(
    alloc: Global,
    pairs: &PairVars,
    formula: &mut Formula,
    pair: Pair,
) -> Result<(), AllocError>
    requires { HasColumns pair }
    ensures { OnOk result (formula.new
        ≡ with_clauses (at_in pairs.now) formula.old (pair_clause pair ∷ [])) }
{
    let first = first_row(alloc, pair)?;
    let opposite = opposite_row(alloc, pair)?;
    add_two(
        formula,
        pairs,
        StateLiteral::Says(first),
        StateLiteral::Says(opposite),
    )
}

/// Adds that an in edge isn't backed, or an out edge is backed or full.
fn add_backing_of(
    net: &Net,
    pairs: &PairVars,
    formula: &mut Formula,
    entering: usize,
    leaving: usize,
) -> Result<(), AllocError>
    requires { AllByRecursion (IsWithin (at_in pairs.now) formula.old.vars)
        (families.backing_clause net.now entering leaving) }
    ensures { OnOk result (formula.new ≡ with_clauses (at_in pairs.now) formula.old
        (families.backing_clause net.now entering leaving ∷ [])) }
{
    let free = StateLiteral::Mark {
        edge: entering,
        backed: false,
    };
    let backed = StateLiteral::Mark {
        edge: leaving,
        backed: true,
    };
    let full = Pair::Full {
        edge: leaving,
        cap: cap_at(net, leaving),
    };
    add_three(formula, pairs, free, backed, StateLiteral::First(full))
}

/// Adds for each in edge and each out edge that the one isn't backed, or the other is backed or full.
pub fn add_backing(
    net: &Net,
    pairs: &PairVars,
    formula: &mut Formula,
    entering: &[usize],
    leaving: &[usize],
) -> Result<(), AllocError>
    requires { AreWithin (at_in pairs.now) formula.old.vars
        (flat_map (λ a. map (families.backing_clause net.now a) leaving.now) entering.now) }
    ensures { OnOk result (formula.new ≡ with_clauses (at_in pairs.now) formula.old
        (flat_map (λ a. map (families.backing_clause net.now a) leaving.now) entering.now)) }
{
    for edge in entering {
        add_backing_at(net, pairs, formula, *edge, leaving)?;
    }
    Ok(())
}

/// Adds for each out edge that the in edge isn't backed, or the out edge is backed or full.
fn add_backing_at(
    net: &Net,
    pairs: &PairVars,
    formula: &mut Formula,
    entering: usize,
    leaving: &[usize],
) -> Result<(), AllocError>
    requires { AreWithin (at_in pairs.now) formula.old.vars
        (map (families.backing_clause net.now entering) leaving.now) }
    ensures { OnOk result (formula.new ≡ with_clauses (at_in pairs.now) formula.old
        (map (families.backing_clause net.now entering) leaving.now)) }
{
    for edge in leaving {
        add_backing_of(net, pairs, formula, entering, *edge)?;
    }
    Ok(())
}

/// The terms of two ascending lists of columns: those of the first are added and those of the second
/// subtracted. A column of both is left out.
pub fn merge(
    alloc: Global,
    added: &[usize],
    subtracted: &[usize],
) -> Result<Vec<(usize, Frac)>, AllocError>
    ensures { IfOk result (λ terms. terms.items ≡ merged added.now subtracted.now) }
{
    let mut terms = Vec::new(alloc);
    let mut left = 0;
    let mut right = 0;
    while left < added.len() && right < subtracted.len() {
        if added[left] < subtracted[right] {
            terms.push(plus(added[left]))?;
            left += 1;
        } else if subtracted[right] < added[left] {
            terms.push(minus(subtracted[right]))?;
            right += 1;
        } else {
            left += 1;
            right += 1;
        }
    }
    for column in &added[left..] {
        terms.push(plus(*column))?;
    }
    for column in &subtracted[right..] {
        terms.push(minus(*column))?;
    }
    Ok(terms)
}
