//! The atoms of a flow formula that aims speak of, by the edges whose flows their rows compare.
use bt_cnf::{Formula, Lit, Var};
use bt_frac::{Frac, Relation, Row};
use bt_net::Net;
use std::alloc::{AllocError, Global};

/// The atom that says that a flow is at least that of another edge.
#[derive(Clone, Copy)]
struct NotBelow {
    other: usize,
    var: Var,
}

/// For each edge the atoms that say that its flow is as large as its cap, and at least that of another edge.
#[derive(Drop)]
pub struct Atoms {
    full: Vec<Option<Var>>,
    not_below: Vec<Vec<NotBelow>>,
}

impl Atoms {
    /// The atoms of a network's formula.
    pub fn of(alloc: Global, net: &Net, formula: &Formula) -> Result<Atoms, AllocError> {
        let edges = net.edges().len();
        let mut atoms = Atoms {
            full: vec![in alloc; None; edges]?,
            not_below: Vec::new(alloc),
        };
        for _ in 0..edges {
            atoms.not_below.push(Vec::new(alloc))?;
        }
        for place in 0..formula.vars() {
            atoms.take(net, formula, place)?;
        }
        Ok(atoms)
    }

    /// Takes the variable at a place, where its row says that an edge is full, or that a flow is at least another one.
    fn take(&mut self, net: &Net, formula: &Formula, place: usize) -> Result<(), AllocError> {
        let Some(var) = formula.var_at(place) else {
            return Ok(());
        };
        match row_of(formula, var) {
            Some(row) if row.relation() == Relation::AtLeast => self.take_row(net, row, var),
            _ => Ok(()),
        }
    }

    /// Takes the variable of a row that says what a sum is at least.
    fn take_row(&mut self, net: &Net, row: &Row, var: Var) -> Result<(), AllocError> {
        match row.terms() {
            [(edge, one)] => self.take_full(net, *edge, one, &row.bound(), var),
            [(lower, first), (higher, _)] => {
                if first.numerator() > 0 {
                    self.take_not_below(*lower, *higher, var)?;
                } else {
                    self.take_not_below(*higher, *lower, var)?;
                }
            }
            _ => {}
        }
        Ok(())
    }

    /// Takes the variable that says that a column, times the number `one`, is at least a bound, where that is an edge's
    /// cap.
    fn take_full(&mut self, net: &Net, edge: usize, one: &Frac, bound: &Frac, var: Var) {
        if edge < self.full.len() && edge < net.edges().len() && one.numerator() > 0 {
            if bound.numerator() == i128::from(net.edges()[edge].cap) {
                self.full[edge] = Some(var);
            }
        }
    }

    /// Takes the variable that says that a column is at least another, where both are flows.
    fn take_not_below(&mut self, edge: usize, other: usize, var: Var) -> Result<(), AllocError> {
        if edge < self.not_below.len() && other < self.not_below.len() {
            self.not_below[edge].push(NotBelow { other, var })?;
        }
        Ok(())
    }

    /// The literal that says that an edge is full, where there is one.
    pub fn full(&self, edge: usize) -> Option<Lit> {
        Some(positive((*self.full.get(edge)?)?))
    }

    /// The literal that says that the flow of an edge is at least that of another, where there is one.
    pub fn not_below(&self, edge: usize, other: usize) -> Option<Lit> {
        for atom in self.not_below.get(edge)? {
            if atom.other == other {
                return Some(positive(atom.var));
            }
        }
        None
    }
}

/// The literal that is true where a variable is.
fn positive(var: Var) -> Lit {
    Lit {
        var,
        positive: true,
    }
}

/// The row of a variable, none where it isn't an atom.
pub fn row_of(formula: &Formula, var: Var) -> Option<&Row> {
    formula.rows().get(formula.row_of(var)?)
}

/// The literal that says that an edge is backed, or without `backed` that it is free; none where there is no such edge.
/// The variables of the edges' marks stand first in a flow formula.
pub fn mark_of(formula: &Formula, edge: usize, backed: bool) -> Option<Lit> {
    Some(Lit {
        var: formula.var_at(edge)?,
        positive: backed,
    })
}
