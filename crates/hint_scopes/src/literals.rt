//! The literals of a flow formula that aims speak of.
use crate::atoms::Atoms;
use crate::line::{named, opposite_of};
use bt_cnf::Formula;
use bt_extend::NamedLit;
use bt_frac::{Relation, Row};
use bt_net::Net;
use std::alloc::{AllocError, Global};

/// The literals of a formula that aims speak of.
#[derive(Drop)]
pub struct FormulaLits {
    atoms: Atoms,
    /// For each edge the literal that says that the flow at an end reaches its load or its room.
    meets: Vec<Option<NamedLit>>,
}

impl FormulaLits {
    /// The literals of a network's formula.
    pub fn of(alloc: Global, net: &Net, formula: &Formula) -> Result<FormulaLits, AllocError> {
        let mut literals = FormulaLits {
            atoms: Atoms::of(alloc, net, formula)?,
            meets: vec![in alloc; None; net.edges().len()]?,
        };
        for place in 0..formula.vars() {
            literals.take(net, formula, place);
        }
        Ok(literals)
    }

    /// Takes in a variable, where it says that the flow of an edge reaches what is at its end.
    fn take(&mut self, net: &Net, formula: &Formula, place: usize) {
        if let Some(edge) = met_edge(net, formula, place) {
            if edge < self.meets.len() {
                self.meets[edge] = Some(named(place, true));
            }
        }
    }

    /// The literal that says that an edge isn't full, where there is one.
    pub fn not_full(&self, edge: usize) -> Option<NamedLit> {
        Some(opposite_of(self.atoms.full(edge)?))
    }

    /// The literal that says that the flow of an edge at an end reaches its load or its room, where there is one.
    pub fn meets(&self, edge: usize) -> Option<NamedLit> {
        *self.meets.get(edge)?
    }
}

/// The row of the variable at a place.
fn row_at(formula: &Formula, place: usize) -> Option<&Row> {
    formula.rows().get(formula.row_of(formula.var_at(place)?)?)
}

/// The edge of whose flow the variable at a place says that it reaches the load or the room at its end; none where it
/// doesn't.
fn met_edge(net: &Net, formula: &Formula, place: usize) -> Option<usize> {
    let row = row_at(formula, place)?;
    if row.relation() != Relation::AtLeast {
        return None;
    }
    match row.terms() {
        [(edge, one), (end, _)] if is_limit(net, *end) && one.numerator() > 0 => Some(*edge),
        _ => None,
    }
}

/// Whether a column is the load or the room of an end.
fn is_limit(net: &Net, column: usize) -> bool {
    let flows = net.edges().len();
    let ends = (net.inputs() as usize).saturating_add(net.outputs() as usize);
    flows <= column && column < flows.saturating_add(ends)
}
