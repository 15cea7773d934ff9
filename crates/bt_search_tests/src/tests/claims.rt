//! One case each of calls whose contracts say all of their answers, so that no contract is met by nothing.
use super::{formula_of, is_modelled, row_of};
use bt_cert::{Cause, CertFault, check_log};
use bt_choosers::Lowest;
use bt_cnf::Formula;
use bt_farkas::farkas;
use bt_frac::{Frac, Row};
use bt_io::SliceSource;
use bt_sat::{Answer, Solver};
use bt_simplex::{Check, Tableau, are_over};
use bt_theory::{Limits, Outcome, solve};
use std::alloc::{AllocError, Global};
use std::test::Fail;

/// That the first column is at least 1, and that it is at most 0.
const ROWS: &[&str] = &[">= 1 1", ">= 0 -1"];

/// Two clauses of two variables that one assignment meets, and three that none does.
const MET: &str = "1 2,-1";

const UNMET: &str = "1 2,-1,-2";

/// The two rows that no value meets.
fn two_rows(alloc: Global) -> Result<Vec<Row>, AllocError> {
    let mut rows = Vec::new(alloc);
    for row in ROWS {
        if let Some(row) = row_of(alloc, row)? {
            rows.push(row)?;
        }
    }
    Ok(rows)
}

/// Whether two rows add up to one that no value meets.
fn are_weighed(rows: &[Row]) -> bool {
    let one = Frac::whole(1);
    rows.len() == 2 && farkas(rows, &[0, 1], &[one, one]) == Ok(true)
}

/// Requires a row. Does nothing where there is no such row.
fn bind(tableau: &mut Tableau, row: usize) {
    if row < tableau.rows().len() {
        tableau.set_bound(row);
    }
}

/// Whether a check of rows over one column, all of which are bound, finds that no value meets them.
fn is_refuted(alloc: Global, rows: &[Row]) -> Result<bool, AllocError> {
    if !are_over(rows, 1) {
        return Ok(false);
    }
    let mut tableau = Tableau::new(alloc, rows, 1)?;
    for row in 0..rows.len() {
        bind(&mut tableau, row);
    }
    Ok(matches!(tableau.check(alloc, 9)?, Check::Unsat(_)))
}

#[test]
fn rows_without_a_value(rt: HostRuntime) -> Result<(), Fail> {
    let rows = two_rows(rt.alloc())?;
    assert!(rt; are_weighed(&rows) && is_refuted(rt.alloc(), &rows)?);
    Ok(())
}

/// A search for a model of clauses.
fn solver_of(alloc: Global, clauses: &str) -> Result<Solver<Lowest>, AllocError> {
    let choosers = vec![in alloc; Lowest::new()]?;
    Solver::new(alloc, formula_of(alloc, 2, &[], clauses)?, choosers, 9)
}

#[test]
fn a_model_and_none(rt: HostRuntime) -> Result<(), Fail> {
    assert!(rt; is_modelled(&mut solver_of(rt.alloc(), MET)?, "ft")?);
    let answer = solver_of(rt.alloc(), UNMET)?.next_model()?;
    assert!(rt; matches!(answer, Answer::Refuted));
    Ok(())
}

/// What a formula comes to.
fn outcome_of(alloc: Global, formula: Formula) -> Result<Outcome, AllocError> {
    let choosers: Vec<Lowest> = Vec::new(alloc);
    let limits = Limits {
        learnt: 9,
        pivots: 9,
    };
    solve(
        alloc,
        formula,
        &mut Vec::new(alloc),
        &[],
        &[],
        choosers,
        limits,
    )
}

#[test]
fn a_formula_with_rows(rt: HostRuntime) -> Result<(), Fail> {
    let formula = formula_of(rt.alloc(), 0, ROWS, "1,2")?;
    assert!(rt; matches!(outcome_of(rt.alloc(), formula)?, Outcome::Refuted(_)));
    let formula = formula_of(rt.alloc(), 0, ROWS, "1,-2")?;
    assert!(rt; matches!(outcome_of(rt.alloc(), formula)?, Outcome::Sat { .. }));
    Ok(())
}

/// What is answered to a certificate of the clauses that nothing meets.
fn checked(alloc: Global, text: &[u8]) -> Result<Result<(), CertFault>, AllocError> {
    let formula = formula_of(alloc, 2, &[], UNMET)?;
    Ok(check_log(alloc, formula, b"", &mut SliceSource::new(text), 99))
}

#[test]
fn certificates(rt: HostRuntime) -> Result<(), Fail> {
    assert!(rt; checked(rt.alloc(), b"r 0 2 3 1 0\nend\n")? == Ok(()));
    let told = checked(rt.alloc(), b"r 0 1 2 3 0\nend\n")?;
    assert!(rt; told == Err(CertFault::BadStep(2, Cause::Unit)));
    Ok(())
}
