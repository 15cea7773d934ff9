//! What a line of argument defines over a formula, by the numbers of what that adds: comparisons of sums with nothing,
//! which is 0, and columns that count in one of two cases.
use crate::line::{Line, add_disjunction, add_rows, named};
use bt_cnf::Formula;
use bt_extend::{Definition, Form, NamedLit};
use bt_frac::Frac;
use std::alloc::{AllocError, Global};

/// How many variables, and how many rows, a comparison adds.
const OF_COMPARISON: usize = 2;

/// How many variables, and how many rows, a column by cases adds.
const OF_CASES: usize = 8;

/// How many variables of these compare the column with one of its forms.
const OF_CASE: usize = 4;

/// A comparison of a sum with nothing.
#[derive(Clone, Copy)]
pub struct Comparison {
    /// The first of its variables.
    var: usize,
    /// The place of the first of its rows.
    row: usize,
}

impl Comparison {
    /// The literal that says that the sum is at least nothing.
    pub fn is_some(self) -> NamedLit {
        named(self.var, true)
    }

    /// The literal that says that the sum is less than nothing.
    pub fn is_less(self) -> NamedLit {
        named(self.var.saturating_add(1), true)
    }

    /// Lists the rows that say what it compares: a scope that speaks of it takes these.
    pub fn add_rows(self, rows: &mut Vec<usize>) -> Result<(), AllocError> {
        add_rows(rows, self.row, OF_COMPARISON)
    }
}

/// A column that counts in one of two cases: it is a form there, and nothing in the other.
#[derive(Clone, Copy)]
pub struct Counted {
    column: usize,
    /// The first of the variables that compare it with nothing.
    nothing: usize,
    /// The first of those that compare it with the form.
    form: usize,
    /// The place of the first of its rows.
    row: usize,
}

impl Counted {
    /// The column.
    pub fn column(self) -> usize {
        self.column
    }

    /// The literal that says that the column is at least nothing.
    pub fn is_some(self) -> NamedLit {
        named(self.nothing, true)
    }

    /// The literal that says that the column is at most nothing.
    pub fn is_none(self) -> NamedLit {
        named(self.nothing.saturating_add(2), true)
    }

    /// The literal that says that the column is at least the form.
    pub fn is_all(self) -> NamedLit {
        named(self.form, true)
    }

    /// The literal that says that the column is at most the form.
    pub fn is_no_more(self) -> NamedLit {
        named(self.form.saturating_add(2), true)
    }

    /// Lists the rows that say what it is in its two cases: a scope that speaks of it takes these.
    pub fn add_rows(self, rows: &mut Vec<usize>) -> Result<(), AllocError> {
        add_rows(rows, self.row, OF_CASES)
    }
}

/// A column that is one of two forms: the first in one case, and the second in the other.
#[derive(Clone, Copy)]
pub struct Chosen {
    column: usize,
    /// The first of the variables that compare it with the first form.
    first: usize,
    /// The first of those that compare it with the second.
    second: usize,
    /// The place of the first of its rows.
    row: usize,
}

impl Chosen {
    /// The column.
    pub fn column(self) -> usize {
        self.column
    }

    /// The literal that says that the column is at least the first form.
    pub fn at_least_first(self) -> NamedLit {
        named(self.first, true)
    }

    /// The literal that says that the column is at most the first form.
    pub fn at_most_first(self) -> NamedLit {
        named(self.first.saturating_add(2), true)
    }

    /// The literal that says that the column is at least the second form.
    pub fn at_least_second(self) -> NamedLit {
        named(self.second, true)
    }

    /// The literal that says that the column is at most the second form.
    pub fn at_most_second(self) -> NamedLit {
        named(self.second.saturating_add(2), true)
    }

    /// Lists the rows that say which form it is in which case: a scope that speaks of it takes these.
    pub fn add_rows(self, rows: &mut Vec<usize>) -> Result<(), AllocError> {
        add_rows(rows, self.row, OF_CASES)
    }
}

/// The numbers of what is defined next.
#[derive(Clone, Copy)]
pub struct Next {
    var: usize,
    column: usize,
    /// The place of a row.
    row: usize,
}

impl Next {
    /// The numbers of what is defined first over a formula, behind all that it has.
    pub fn behind(formula: &Formula) -> Next {
        Next {
            var: formula.vars(),
            column: formula.columns(),
            row: formula.rows().len(),
        }
    }

    /// The column that is defined next.
    pub fn column(&self) -> usize {
        self.column
    }

    /// Defines the comparison of a form with nothing.
    pub fn compare(&mut self, line: &mut Line, form: Form) -> Result<Comparison, AllocError> {
        line.definitions.push(Definition::Comparison(form))?;
        let comparison = Comparison {
            var: self.var,
            row: self.row,
        };
        self.pass(OF_COMPARISON, OF_COMPARISON);
        Ok(comparison)
    }

    /// Defines the comparison of a sum of columns with nothing. None where the columns don't ascend, or a coefficient
    /// is 0.
    pub fn compare_sum(
        &mut self,
        line: &mut Line,
        terms: Vec<(usize, Frac)>,
    ) -> Result<Option<Comparison>, AllocError> {
        match sum_of(terms) {
            Some(form) => Ok(Some(self.compare(line, form)?)),
            None => Ok(None),
        }
    }

    /// Defines the variable that is true just where one of the literals is, and tells its place.
    pub fn disjoin(
        &mut self,
        alloc: Global,
        line: &mut Line,
        lits: &[NamedLit],
    ) -> Result<usize, AllocError> {
        add_disjunction(alloc, line, lits)?;
        let var = self.var;
        self.pass(1, 0);
        Ok(var)
    }

    /// Defines the column that is the form where the variable at a place has this value, and else nothing. The answer
    /// is never none.
    pub fn count(
        &mut self,
        alloc: Global,
        line: &mut Line,
        var: usize,
        value: bool,
        form: Form,
    ) -> Result<Option<Counted>, AllocError> {
        let Some(nothing) = sum_of(Vec::new(alloc)) else {
            return Ok(None);
        };
        let definition = if value {
            Definition::Cases(var, form, nothing)
        } else {
            Definition::Cases(var, nothing, form)
        };
        line.definitions.push(definition)?;
        Ok(Some(self.take_counted(value)))
    }

    /// Defines the column that is the first form where the variable at a place has this value, and else the second.
    pub fn choose(
        &mut self,
        line: &mut Line,
        var: usize,
        value: bool,
        first: Form,
        second: Form,
    ) -> Result<Chosen, AllocError> {
        let definition = if value {
            Definition::Cases(var, first, second)
        } else {
            Definition::Cases(var, second, first)
        };
        line.definitions.push(definition)?;
        let counted = self.take_counted(value);
        Ok(Chosen {
            column: counted.column,
            first: counted.form,
            second: counted.nothing,
            row: counted.row,
        })
    }

    /// The numbers of the column that is defined next, whose form stands first or second of its two. They are passed
    /// over then.
    fn take_counted(&mut self, is_first: bool) -> Counted {
        let second = self.var.saturating_add(OF_CASE);
        let (form, nothing) = if is_first {
            (self.var, second)
        } else {
            (second, self.var)
        };
        let counted = Counted {
            column: self.column,
            nothing,
            form,
            row: self.row,
        };
        self.column = self.column.saturating_add(1);
        self.pass(OF_CASES, OF_CASES);
        counted
    }

    /// Passes over so many variables and rows.
    fn pass(&mut self, vars: usize, rows: usize) {
        self.var = self.var.saturating_add(vars);
        self.row = self.row.saturating_add(rows);
    }
}

/// The form of a sum of columns with their coefficients. None where the columns don't ascend, or a coefficient is 0.
pub fn sum_of(terms: Vec<(usize, Frac)>) -> Option<Form> {
    Form::new(Frac::whole(0), terms)
}

/// The edges that are in one of two lists alone, in order: with 1 those of the first, and with -1 those of the second.
pub fn apart(
    alloc: Global,
    plus: &[usize],
    minus: &[usize],
) -> Result<Vec<(usize, Frac)>, AllocError> {
    let mut edges = Vec::from_slice(alloc, plus)?;
    edges.extend_from_slice(minus)?;
    in_order(&mut edges)?;
    let mut signed = Vec::new(alloc);
    for edge in &edges {
        let adds = plus.contains(edge);
        if adds != minus.contains(edge) {
            signed.push((*edge, Frac::whole(if adds { 1 } else { -1 })))?;
        }
    }
    Ok(signed)
}

/// Sorts numbers, and drops those that stand there twice.
pub fn in_order(numbers: &mut Vec<usize>) -> Result<(), AllocError> {
    numbers.sort()?;
    numbers.dedup();
    Ok(())
}
