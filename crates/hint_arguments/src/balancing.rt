//! Aims for `balanced` and `drawn-evenly` of networks without loops: from the outputs back a backed edge is full, so the
//! edges out of each splitter carry the same, and so do all outputs. From the inputs on it is the other way round: an edge
//! that is free is full, so the edges into each splitter carry the same.
use crate::equalling::{is_equalled, is_plain};
use bt_cnf::{Formula, Lit};
use bt_flow::{Property, Role};
use bt_net::Net;
use hint_graphs::{edges_at, list_at, loopless, places_of};
use hint_scopes::{Aim, Atoms, add_aim, add_both, add_opposites, mark_of, named_as};
use std::alloc::{AllocError, Global};

/// What aims are made of.
#[derive(Drop)]
struct Sources<'a> {
    formula: &'a Formula,
    atoms: Atoms,
    /// The mark of an edge that is known to be full then: that it is backed.
    backed: bool,
    /// For each splitter the edges at the side that is dealt with before it.
    before: Vec<Vec<usize>>,
    /// For each splitter the edges at its other side.
    behind: Vec<Vec<usize>>,
    /// For each splitter the place of its scope.
    scopes: Vec<usize>,
    aims: Vec<Aim>,
}

/// The aims of a property of a network, over its formula and the scopes that `scopes_of` makes. There are none where a
/// splitter prefers an edge, where edges have different caps, where the network has loops or no splitters, and of other
/// properties.
pub fn aims_of(
    alloc: Global,
    net: &Net,
    property: Property,
    formula: &Formula,
) -> Result<Vec<Aim>, AllocError> {
    match property {
        Property::Balanced => even_aims(alloc, net, formula, false),
        Property::DrawnEvenly => even_aims(alloc, net, formula, true),
        Property::Unlimited | Property::Full | Property::Fair | Property::DrawnFairly => {
            Ok(Vec::new(alloc))
        }
    }
}

/// The aims, from the outputs back or from the inputs on. There are none where the network has loops, no splitters,
/// preferred edges or different caps.
fn even_aims(
    alloc: Global,
    net: &Net,
    formula: &Formula,
    from_inputs: bool,
) -> Result<Vec<Aim>, AllocError> {
    let order = loopless(alloc, net, from_inputs)?;
    if order.is_empty() || order.len() < net.splitters() as usize || !is_plain(net) {
        return Ok(Vec::new(alloc));
    }
    let mut sources = sources_of(alloc, net, formula, from_inputs)?;
    sources.add_all(alloc, &order)?;
    if !is_equalled(alloc, net)? {
        sources.add_last(alloc)?;
    }
    Ok(sources.aims)
}

/// What the aims are made of, with none made yet.
fn sources_of<'a>(
    alloc: Global,
    net: &Net,
    formula: &'a Formula,
    from_inputs: bool,
) -> Result<Sources<'a>, AllocError> {
    let outs = edges_at(alloc, net, Role::OutOf)?;
    let ins = edges_at(alloc, net, Role::Into)?;
    let (before, behind) = if from_inputs {
        (ins, outs)
    } else {
        (outs, ins)
    };
    Ok(Sources {
        formula,
        atoms: Atoms::of(alloc, net, formula)?,
        backed: !from_inputs,
        before,
        behind,
        scopes: places_of(alloc, net, from_inputs)?,
        aims: Vec::new(alloc),
    })
}

impl<'a> Sources<'a> {
    /// Adds the aims of the splitters in this order: that edges are full, and then that edges carry the same.
    fn add_all(&mut self, alloc: Global, order: &[usize]) -> Result<(), AllocError> {
        for splitter in order {
            self.add_full(alloc, *splitter)?;
        }
        for splitter in order {
            self.add_even(alloc, *splitter)?;
        }
        Ok(())
    }

    /// Adds that the literals of the last clause are false, so that nothing breaks the property, by all rows that
    /// compare flows.
    fn add_last(&mut self, alloc: Global) -> Result<(), AllocError> {
        let comparisons = self.scopes.len();
        add_opposites(alloc, self.formula, &mut self.aims, comparisons)
    }

    /// Adds that where an edge behind a splitter has the mark, each edge before the splitter is full, and so is the
    /// edge itself.
    fn add_full(&mut self, alloc: Global, splitter: usize) -> Result<(), AllocError> {
        let place = self.scopes.get(splitter).copied().unwrap_or(0);
        for edge in list_at(&self.behind, splitter) {
            for other in list_at(&self.before, splitter) {
                let marked = mark_of(self.formula, *edge, !self.backed);
                let full = self.atoms.full(*other);
                add_both_of(alloc, &mut self.aims, marked, full, place)?;
            }
        }
        for edge in list_at(&self.behind, splitter) {
            let marked = mark_of(self.formula, *edge, !self.backed);
            let full = self.atoms.full(*edge);
            add_both_of(alloc, &mut self.aims, marked, full, place)?;
        }
        Ok(())
    }

    /// Adds that each of two edges before a splitter carries at least what the other one does.
    fn add_even(&mut self, alloc: Global, splitter: usize) -> Result<(), AllocError> {
        let place = self.scopes.get(splitter).copied().unwrap_or(0);
        if let [first, second] = list_at(&self.before, splitter) {
            let one = self.atoms.not_below(*first, *second);
            let other = self.atoms.not_below(*second, *first);
            add_one(alloc, &mut self.aims, one, place)?;
            add_one(alloc, &mut self.aims, other, place)?;
        }
        Ok(())
    }
}

/// Adds the aim of two literals, in both orders, where there are both.
fn add_both_of(
    alloc: Global,
    aims: &mut Vec<Aim>,
    first: Option<Lit>,
    second: Option<Lit>,
    place: usize,
) -> Result<(), AllocError> {
    match (first, second) {
        (Some(one), Some(other)) => add_both(alloc, aims, named_as(one), named_as(other), place),
        _ => Ok(()),
    }
}

/// Adds the aim of a literal, where there is one.
fn add_one(
    alloc: Global,
    aims: &mut Vec<Aim>,
    lit: Option<Lit>,
    place: usize,
) -> Result<(), AllocError> {
    match lit {
        Some(lit) => add_aim(alloc, aims, &[named_as(lit)], place),
        None => Ok(()),
    }
}
