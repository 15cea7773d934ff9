//! What the choosers pick.
use super::{add_clauses, fields, is_modelled, literals_of, number_of};
use bt_choosers::{Active, Highest, Lowest, Recent};
use bt_cnf::{Chooser, Formula};
use bt_sat::Solver;
use std::alloc::{AllocError, Global};
use std::process::Abort;
use std::test::Fail;

/// A clause of four variables that `Recent` is told of, and which of the first and the third one it picks then.
const PICKS: &[&str] = &["4 3|1", "3 1|1", "2 1|0", "2|0", "|0"];

/// Clauses of four variables that `Active` is told of, and which of the first and the third one it picks then, with its
/// sign.
const ACTIVE_PICKS: &[&str] = &[
    "|0|false",
    "4|0|false",
    "3|1|true",
    "-3|1|false",
    "1,3|1|true",
    "3,1|0|true",
    "1 -3|0|true",
    "1,3 2,-1|0|false",
    "3 3,1|1|true",
    "3 1,1,-3|1|false",
];

/// Choosers, clauses of three variables, and the first model. In the last rows the first chooser's epoch hasn't ended.
const MODELS: &[&str] = &[
    "||fff",
    "lowest||fff",
    "highest||ttt",
    "recent||fff",
    "active||fff",
    "highest|-3 -2,-3 2|ttf",
    "lowest highest|-3 -2,-3 2|fff",
    "highest lowest|-3 -2,-3 2|ttf",
    "lowest active|1 2 3|fft",
    "highest active|1 2 3|ttt",
    "active highest|1 2 3|fft",
];

/// Whether a chooser that is told of a row's clauses picks, of the first and the third variable, the one with this place,
/// with this sign.
fn is_picked(
    alloc: Global,
    formula: &Formula,
    chooser: &mut impl Chooser,
    row: &str,
) -> Result<bool, AllocError> {
    let [clauses, place, sign, ..] = fields(row, '|');
    for clause in clauses.split(',') {
        chooser.told(&literals_of(alloc, formula, clause)?)?;
    }
    let (Some(first), Some(third)) = (formula.var_at(0), formula.var_at(2)) else {
        return Ok(false);
    };
    let pick = chooser.pick(&[first, third]);
    Ok(pick.place == number_of(place) && pick.positive == (sign == "true"))
}

/// Adds the chooser of a name.
fn add_chooser(
    alloc: Global,
    choosers: &mut Vec<Box<dyn Chooser>>,
    name: &str,
) -> Result<(), AllocError> {
    match name {
        "lowest" => choosers.push(Box::new(alloc, Lowest::new())?)?,
        "highest" => choosers.push(Box::new(alloc, Highest::new())?)?,
        "recent" => choosers.push(Box::new(alloc, Recent::new(alloc)?)?)?,
        "active" => choosers.push(Box::new(alloc, Active::new(alloc)?)?)?,
        _ => (),
    }
    Ok(())
}

/// Adds a row's choosers and clauses.
fn add_row(
    alloc: Global,
    choosers: &mut Vec<Box<dyn Chooser>>,
    formula: &mut Formula,
    row: &str,
) -> Result<(), AllocError> {
    let [names, clauses, ..] = fields(row, '|');
    for name in names.split(' ') {
        add_chooser(alloc, choosers, name)?;
    }
    add_clauses(alloc, formula, clauses)
}

/// A search with a row's choosers and clauses of three variables.
fn solver_of(alloc: Global, row: &str) -> Result<Solver<Box<dyn Chooser>>, AllocError> {
    let mut formula = Formula::new(alloc, 3)?;
    let mut choosers = Vec::new(alloc);
    add_row(alloc, &mut choosers, &mut formula, row)?;
    Solver::new(alloc, formula, choosers, 9)
}

/// Whether the first model is what a row says.
fn is_decided(alloc: Global, row: &str) -> Result<bool, AllocError> {
    let [_, _, values, ..] = fields(row, '|');
    is_modelled(&mut solver_of(alloc, row)?, values)
}

/// Whether `Recent` picks what a row says.
fn is_most_recent(alloc: Global, formula: &Formula, row: &str) -> Result<bool, AllocError> {
    is_picked(alloc, formula, &mut Recent::new(alloc)?, row)
}

/// Whether `Active` picks what a row says.
fn is_most_active(alloc: Global, formula: &Formula, row: &str) -> Result<bool, AllocError> {
    is_picked(alloc, formula, &mut Active::new(alloc)?, row)
}

/// Judges the rows of picks.
fn judge(rt: &impl Abort, alloc: Global, formula: &Formula) -> Result<(), Fail> {
    for row in PICKS {
        assert!(rt; is_most_recent(alloc, formula, row)?, "{row}");
    }
    for row in ACTIVE_PICKS {
        assert!(rt; is_most_active(alloc, formula, row)?, "{row}");
    }
    Ok(())
}

#[test]
fn picks_the_first_unset_or_the_greatest_score(rt: HostRuntime) -> Result<(), Fail> {
    judge(&rt, rt.alloc(), &Formula::new(rt.alloc(), 4)?)
}

#[test]
fn picks_decide_the_first_model(rt: HostRuntime) -> Result<(), Fail> {
    for row in MODELS {
        assert!(rt; is_decided(rt.alloc(), row)?, "{row}");
    }
    Ok(())
}
