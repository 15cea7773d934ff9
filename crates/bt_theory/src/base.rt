//! What stands in a formula before the definitions that extend it.
ghost use Rattle.std.specs.Prelude.{◌≡◌, IfOk};
ghost use Rattle.bt_theory.specs.Reaching.{atom_vars};
ghost use Rattle.bt_theory.specs.inner.Bases.{IsWhole};

use bt_cnf::{Formula, Var};
use std::alloc::{AllocError, Global};

/// How much of a formula stands before its definitions. All of it is numbered before what they add.
#[derive(Drop)]
pub struct Base {
    /// The number of variables.
    pub vars: usize,
    /// The number of clauses.
    pub clauses: usize,
    /// The number of columns.
    pub columns: usize,
    /// The variables of the atoms, in the order of their rows.
    pub atoms: Vec<Var>,
}

impl Base {
    /// The variables of the atoms.
    pub fn atoms(&self) -> &[Var]
        ensures { result.now ≡ self.now.atoms.items }
    {
        &self.atoms
    }
}

/// The variables of the atoms, in the order of their rows.
pub fn atoms_of(alloc: Global, formula: &Formula) -> Result<Vec<Var>, AllocError>
    ensures { IfOk result (λ atoms. atoms.items ≡ atom_vars formula.now) }
{
    let mut atoms = Vec::new(alloc);
    for place in 0..formula.vars() {
        let Some(var) = formula.var_at(place) else {
            unreachable!()
        };
        if formula.row_of(var).is_some() {
            atoms.push(var)?;
        }
    }
    Ok(atoms)
}

/// The base that is all of a formula, before definitions extend it.
pub fn base_of(alloc: Global, formula: &Formula) -> Result<Base, AllocError>
    ensures { IfOk result (IsWhole formula.now) }
{
    let atoms = atoms_of(alloc, formula)?;
    Ok(Base {
        vars: formula.vars(),
        clauses: formula.clauses(),
        columns: formula.columns(),
        atoms,
    })
}
