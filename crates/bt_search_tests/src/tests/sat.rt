//! Which chooser serves, and how a search ends.
ghost use Rattle.std.specs.Prelude.{◌<◌, IfOk, None};
ghost use Rattle.bt_cnf.specs.Formulas.{LitsBelow};

use super::{fields, number_of};
use bt_cnf::{Chooser, Formula, Lit, Pick, Var};
use bt_sat::{Answer, Solver};
use std::alloc::{AllocError, Global};
use std::test::Fail;

/// Numbers without a pattern.
#[derive(Drop)]
struct Chance(u64);

impl Chance {
    /// The next number, which is below an end.
    fn below(&mut self, end: usize) -> usize
        requires { 0 < end }
        ensures { result < end }
    {
        self.0 = self.0.wrapping_mul(6364136223846793005).wrapping_add(1);
        (self.0 >> 33) as usize % end
    }
}

/// A clause of so many literals over the first so many variables, some perhaps written twice or with both
/// signs.
fn clause_over(
    alloc: Global,
    chance: &mut Chance,
    formula: &Formula,
    size: usize,
    vars: usize,
) -> Result<Vec<Lit>, AllocError>
    requires { 0 < vars }
    ensures { IfOk result (λ lits. LitsBelow formula.now.vars lits.items) }
{
    let mut lits = Vec::new(alloc);
    for _ in 0..size {
        if let Some(var) = formula.var_at(chance.below(vars)) {
            lits.push(Lit {
                var,
                positive: chance.below(2) == 0,
            })?;
        }
    }
    Ok(lits)
}

/// Adds a clause of so many literals over the first so many variables, as the numbers without a pattern say.
fn add_clause(
    alloc: Global,
    chance: &mut Chance,
    formula: &mut Formula,
    size: usize,
    vars: usize,
) -> Result<(), AllocError>
    requires { 0 < vars }
{
    let lits = clause_over(alloc, chance, formula, size, vars)?;
    formula.add_clause(&lits)?;
    Ok(())
}

/// Picks the highest variable or the lowest one, and lacks memory once it was told of so many steps.
#[derive(Drop)]
struct Picky {
    is_high: bool,
    left: u64,
}

impl Chooser for Picky {
    ghost told_clauses = { λ _. None };

    fn pick(&mut self, unset: &[Var]) -> Pick {
        Pick {
            place: if self.is_high { unset.len() - 1 } else { 0 },
            positive: self.is_high,
        }
    }

    fn told(&mut self, _clause: &[Lit]) -> Result<(), AllocError> {
        self.left = self.left.checked_sub(1).ok_or(AllocError)?;
        Ok(())
    }
}

/// Adds 290 clauses of the first 70 variables.
fn add_many(alloc: Global, formula: &mut Formula) -> Result<(), AllocError> {
    let mut chance = Chance(3);
    for _ in 0..290 {
        add_clause(alloc, &mut chance, formula, 3, 70)?;
    }
    Ok(())
}

/// A search over 71 variables, the last of which stands in no clause.
fn with_free(alloc: Global, limit: u64, choosers: Vec<Picky>) -> Result<Solver<Picky>, AllocError> {
    let mut formula = Formula::new(alloc, 71)?;
    add_many(alloc, &mut formula)?;
    Solver::new(alloc, formula, choosers, limit)
}

/// The value of the free variable in the first model, where there is one.
fn free_value(solver: &mut Solver<Picky>) -> Result<Option<bool>, AllocError> {
    match solver.next_model()? {
        Answer::Model(model) => Ok(model.last().copied()),
        Answer::Refuted | Answer::Spent => Ok(None),
    }
}

/// Whether the free variable has this value in the first model, which comes after an epoch.
fn is_free_value(solver: &mut Solver<Picky>, value: bool) -> Result<bool, AllocError> {
    Ok(free_value(solver)? == Some(value) && solver.log().len() > 128)
}

/// A chooser that picks the lowest variable, and where there is one, another.
fn choosers_of(alloc: Global, next: Option<Picky>) -> Result<Vec<Picky>, AllocError> {
    let first = Picky {
        is_high: false,
        left: 1000,
    };
    let mut choosers = vec![in alloc; first]?;
    if let Some(next) = next {
        choosers.push(next)?;
    }
    Ok(choosers)
}

/// Whether the free variable has this value once one that picks the lowest variable has served an epoch, and where there is
/// one, another chooser serves.
fn is_picked(alloc: Global, next: Option<Picky>, value: bool) -> Result<bool, AllocError> {
    let choosers = choosers_of(alloc, next)?;
    is_free_value(&mut with_free(alloc, 1000, choosers)?, value)
}

#[test]
fn asks_the_next_chooser_after_an_epoch(rt: HostRuntime) -> Result<(), Fail> {
    let next = Picky {
        is_high: true,
        left: 1000,
    };
    assert!(rt; is_picked(rt.alloc(), None, false)?);
    assert!(rt; is_picked(rt.alloc(), Some(next), true)?);
    Ok(())
}

/// The most steps, the steps that the chooser may be told of, how a search ends, and its steps.
const ENDS: &[&str] = &["0|9|spent|0", "1|9|spent|1", "9|2|no memory|3"];

/// A search of so many steps at most, whose chooser lacks memory once it was told of so many.
fn limited(alloc: Global, limit: &str, left: &str) -> Result<Solver<Picky>, AllocError> {
    let chooser = Picky {
        is_high: false,
        left: number_of(left) as u64,
    };
    with_free(alloc, number_of(limit) as u64, vec![in alloc; chooser]?)
}

/// Whether a search ends like this after so many steps.
fn is_end(solver: &mut Solver<Picky>, end: &str, steps: usize) -> bool {
    let told = match free_value(solver) {
        Ok(None) => "spent",
        Ok(Some(_)) => "model",
        Err(_) => "no memory",
    };
    told == end && solver.log().len() == steps
}

/// Whether a search ends like this, and again where it goes on.
fn ends_twice(solver: &mut Solver<Picky>, end: &str, steps: usize) -> bool {
    is_end(solver, end, steps) && is_end(solver, end, steps)
}

/// Whether a search ends as a row says, and again where it goes on.
fn ends(alloc: Global, row: &str) -> Result<bool, AllocError> {
    let [limit, left, end, steps, ..] = fields(row, '|');
    let mut solver = limited(alloc, limit, left)?;
    Ok(ends_twice(&mut solver, end, number_of(steps)))
}

#[test]
fn ends_at_its_limit_or_without_memory(rt: HostRuntime) -> Result<(), Fail> {
    for row in ENDS {
        assert!(rt; ends(rt.alloc(), row)?, "{row}");
    }
    Ok(())
}
