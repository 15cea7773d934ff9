//! Definitions: rows, columns and variables that a formula doesn't have.
ghost use Rattle.std.specs.Prelude.{◌≡◌, ◌↔◌, ◌+◌, ◌≤◌, IsTrue};
ghost use Rattle.bt_extend.specs.Definitions.{AreSortedBelow, IsDefinition};
ghost use Rattle.bt_extend.specs.Forms.{IsFormOver};

use crate::form::Form;
use bt_cnf::Formula;
use std::marker::Model;

/// A literal by the place of its variable, whether or not a formula has that.
#[derive(Clone, Copy, PartialEq, Eq)]
pub struct NamedLit {
    /// The place of the variable.
    pub var: usize,
    /// Whether the literal is true where the variable is.
    pub positive: bool,
}

/// Literals, as one list.
#[derive(Drop)]
pub struct Literals {
    lits: Vec<NamedLit>,
}

impl Model for Literals {
    ghost use Rattle.std.specs.Prelude.{List};
    ghost use Rattle.bt_extend.specs.declared.definition.NamedLit.{NamedLit};

    ghost Value = { List NamedLit };

    ghost view = { λ l. l.lits.items };
}

impl Literals {
    /// The literals of a vector.
    pub fn new(lits: Vec<NamedLit>) -> Literals
        ensures { result ≡ lits.items }
    {
        Literals { lits }
    }

    /// The literals.
    pub fn as_slice(&self) -> &[NamedLit]
        ensures { result.now ≡ self.now }
    {
        &self.lits
    }
}

/// What extends a formula.
#[derive(Drop)]
pub enum Definition {
    /// Two variables: one where the form's terms reach its number, and one where they don't.
    Comparison(Form),
    /// A column that is the first form, number included, where the variable at this place is true, and else
    /// the second.
    Cases(usize, Form, Form),
    /// A variable that is true just where one of the literals is.
    Disjunction(Literals),
}

/// Whether a definition may extend a formula: its forms are over the formula's columns, its literals are of
/// the formula's variables, at least one, in ascending order and none twice, and a column that it defines is
/// below `usize::MAX`.
pub fn is_definition(formula: &Formula, definition: &Definition) -> bool
    ensures { IsTrue result ↔ IsDefinition formula.now definition.now }
{
    let columns = formula.columns();
    let vars = formula.vars();
    match definition {
        Definition::Comparison(form) => is_over(form, columns),
        Definition::Cases(var, first, second) => {
            *var < vars
                && is_over(first, columns)
                && is_over(second, columns)
                && columns < usize::MAX
        }
        Definition::Disjunction(lits) => are_sorted_below(lits.as_slice(), vars),
    }
}

/// Whether all columns of a form are below this number.
fn is_over(form: &Form, columns: usize) -> bool
    ensures { IsTrue result ↔ IsFormOver columns form.now }
{
    match form.terms().last() {
        Some((column, _)) => *column < columns,
        None => true,
    }
}

/// Whether there is a literal, and the variables of the literals ascend strictly and are below `vars`.
fn are_sorted_below(lits: &[NamedLit], vars: usize) -> bool
    ensures { IsTrue result ↔ AreSortedBelow vars lits.now }
{
    let mut least = 0;
    for lit in lits {
        if lit.var < least || vars <= lit.var {
            return false;
        }
        least = lit.var + 1;
    }
    !lits.is_empty()
}
