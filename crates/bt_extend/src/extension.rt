//! Extending a formula by a definition.
ghost use Rattle.std.specs.Prelude.{◌≡◌, ◌<◌, ◌≤◌, ◌-◌, ◌^◌, ◌∷◌, map, IfOk, OnOk};
ghost use Rattle.bt_frac.specs.Rows.{HaveColumns};
ghost use Rattle.bt_cnf.specs.Formulas.{LitsBelow};
ghost use Rattle.bt_extend.specs.Definitions.{AreSortedBelow, IsDefinition};
ghost use Rattle.bt_extend.specs.Extending as extending;
ghost use Rattle.bt_extend.specs.Extending.{with_comparison, with_column, with_cases, with_definition, with_disjunction};
ghost use Rattle.bt_extend.specs.Forms as forms;
ghost use Rattle.bt_extend.specs.Forms.{IsFormOver};
ghost use Rattle.bt_extend.specs.inner.Adding.{with_pair, with_choices, with_opposites};
ghost use Rattle.bt_extend.specs.declared.definition.Definition.TheVariants.{Cases};

use crate::definition::{Definition, NamedLit};
use crate::form::Form;
use bt_cnf::{Formula, Lit, Var};
use bt_frac::{Frac, Relation, Row};
use std::alloc::{AllocError, Global};

/// The formula that a definition extends.
pub fn extend(
    alloc: Global,
    mut formula: Formula,
    definition: &Definition,
) -> Result<Formula, AllocError>
    requires { IsDefinition formula definition.now }
    ensures { IfOk result (λ extended. extended ≡ with_definition formula definition.now) }
{
    add_definition(alloc, &mut formula, definition)?;
    Ok(formula)
}

/// Adds what a definition says. Where memory runs out, a part of it may have been added.
pub fn add_definition(
    alloc: Global,
    formula: &mut Formula,
    definition: &Definition,
) -> Result<(), AllocError>
    requires { IsDefinition formula.old definition.now }
    ensures { OnOk result (formula.new ≡ with_definition formula.old definition.now) }
{
    match definition {
        Definition::Comparison(form) => {
            let terms = Vec::from_slice(alloc, form.terms())?;
            add_comparison(alloc, formula, terms, form.constant())
        }
        Definition::Cases(var, first, second) => add_cases(alloc, formula, *var, first, second),
        Definition::Disjunction(lits) => add_disjunction(alloc, formula, lits.as_slice()),
    }
}

/// The row of terms whose columns ascend.
fn row_of(terms: Vec<(usize, Frac)>, relation: Relation, bound: Frac) -> Row
    requires { HaveColumns terms.items }
    ensures { result ≡ record { terms = terms.items; relation = relation; bound = bound } }
{
    match Row::from_vec(terms, relation, bound) {
        Some(row) => row,
        None => unreachable!(),
    }
}

/// The terms with their signs turned.
fn turned(alloc: Global, terms: &[(usize, Frac)]) -> Result<Vec<(usize, Frac)>, AllocError>
    ensures { IfOk result (λ v. v.items ≡ forms.turned terms.now) }
{
    let mut turned = Vec::new(alloc);
    for (column, coefficient) in terms {
        turned.push((*column, coefficient.negate()))?;
    }
    Ok(turned)
}

/// Adds two atoms, that terms reach a number and that they don't, and the clause that one of the two is true.
fn add_comparison(
    alloc: Global,
    formula: &mut Formula,
    terms: Vec<(usize, Frac)>,
    number: Frac,
) -> Result<(), AllocError>
    requires { HaveColumns terms.items }
    ensures { OnOk result (formula.new
        ≡ with_comparison formula.old (record { constant = number; terms = terms.items })) }
{
    let opposite = turned(alloc, &terms)?;
    let first = formula.add_atom(row_of(terms, Relation::AtLeast, number))?;
    let second = formula.add_atom(row_of(opposite, Relation::Above, number.negate()))?;
    let clause = [asserted(first), asserted(second)];
    formula.add_clause(&clause)?;
    Ok(())
}

/// The literal that is true where the variable is.
fn asserted(var: Var) -> Lit
    ensures { result ≡ extending.asserted var }
{
    Lit {
        var,
        positive: true,
    }
}

/// The terms of a column less a form, whose number is left out.
fn column_less(alloc: Global, column: usize, form: &Form) -> Result<Vec<(usize, Frac)>, AllocError>
    ensures { IfOk result (λ v. v.items ≡ (forms.column_less column form.now).terms) }
{
    let mut terms = turned(alloc, form.terms())?;
    terms.push((column, Frac::whole(1)))?;
    Ok(terms)
}

/// The terms of a form, whose number is left out, less a column.
fn less_column(alloc: Global, column: usize, form: &Form) -> Result<Vec<(usize, Frac)>, AllocError>
    ensures { IfOk result (λ v. v.items ≡ (forms.less_column column form.now).terms) }
{
    let mut terms = Vec::from_slice(alloc, form.terms())?;
    terms.push((column, Frac::whole(1).negate()))?;
    Ok(terms)
}

/// Adds both comparisons of a column with a form: of the column less the form, and of the form less the column.
fn add_column(
    alloc: Global,
    formula: &mut Formula,
    column: usize,
    form: &Form,
) -> Result<(), AllocError>
    requires over { IsFormOver column form.now }
    requires below { column < 2 ^ 64 - 1 }
    ensures { OnOk result (formula.new ≡ with_column formula.old column form.now) }
{
    let number = form.constant();
    let above = column_less(alloc, column, form)?;
    add_comparison(alloc, formula, above, number)?;
    let below = less_column(alloc, column, form)?;
    add_comparison(alloc, formula, below, number.negate())
}

/// Adds a column that is the first form where the variable at the place `var` is true, and else the second.
fn add_cases(
    alloc: Global,
    formula: &mut Formula,
    var: usize,
    first: &Form,
    second: &Form,
) -> Result<(), AllocError>
    requires { IsDefinition formula.old (Cases var first.now second.now) }
    ensures { OnOk result (formula.new ≡ with_cases formula.old var first.now second.now) }
{
    let column = formula.columns();
    add_column(alloc, formula, column, first)?;
    add_column(alloc, formula, column, second)?;
    add_choices(formula, var)
}

/// Adds the clauses by which a variable chooses among the last eight variables: where it is true, the first and the
/// third of them are, and else the fifth and the seventh.
fn add_choices(formula: &mut Formula, var: usize) -> Result<(), AllocError>
    requires { 8 ≤ formula.old.vars }
    ensures { OnOk result (formula.new ≡ with_choices formula.old (formula.old.vars - 8) var) }
{
    let first = formula.vars() - 8;
    add_pair(formula, named(var, false), named(first, true))?;
    add_pair(formula, named(var, false), named(first + 2, true))?;
    add_pair(formula, named(var, true), named(first + 4, true))?;
    add_pair(formula, named(var, true), named(first + 6, true))
}

/// A literal by the place of its variable.
fn named(var: usize, positive: bool) -> NamedLit
    ensures { result ≡ record { var = var; positive = positive } }
{
    NamedLit { var, positive }
}

/// Adds a clause of two literals. Memory counts as run out where the formula lacks a variable of theirs.
fn add_pair(formula: &mut Formula, first: NamedLit, second: NamedLit) -> Result<(), AllocError>
    ensures { OnOk result (formula.new ≡ with_pair formula.old first second) }
{
    let clause = [lit_in(formula, first)?, lit_in(formula, second)?];
    formula.add_clause(&clause)?;
    Ok(())
}

/// The literal of a formula that is named so. Memory counts as run out where the formula lacks its variable.
fn lit_in(formula: &Formula, named: NamedLit) -> Result<Lit, AllocError>
    ensures lit { IfOk result (λ lit. lit ≡ extending.lit_of named) }
    ensures below { IfOk result (λ lit. lit.var < formula.now.vars) }
{
    match formula.var_at(named.var) {
        Some(var) => Ok(Lit {
            var,
            positive: named.positive,
        }),
        None => Err(AllocError),
    }
}

/// Adds a variable that is true just where one of the literals is.
fn add_disjunction(
    alloc: Global,
    formula: &mut Formula,
    lits: &[NamedLit],
) -> Result<(), AllocError>
    requires { AreSortedBelow formula.old.vars lits.now }
    ensures { OnOk result (formula.new ≡ with_disjunction formula.old lits.now) }
{
    let var = formula.add_variable()?;
    let clause = one_of(alloc, formula, var, lits)?;
    formula.add_clause(&clause)?;
    add_opposites(formula, var, lits)
}

/// The clause that one of the literals is true where the variable is.
fn one_of(
    alloc: Global,
    formula: &Formula,
    var: Var,
    lits: &[NamedLit],
) -> Result<Vec<Lit>, AllocError>
    requires { var < formula.now.vars }
    ensures clause { IfOk result
        (λ clause. clause.items ≡ extending.denied var ∷ map extending.lit_of lits.now) }
    ensures below { IfOk result (λ clause. LitsBelow formula.now.vars clause.items) }
{
    let mut clause = Vec::new(alloc);
    clause.push(Lit {
        var,
        positive: false,
    })?;
    for lit in lits {
        clause.push(lit_in(formula, *lit)?)?;
    }
    Ok(clause)
}

/// Adds for each literal the clause that the variable is true where the literal is.
fn add_opposites(formula: &mut Formula, var: Var, lits: &[NamedLit]) -> Result<(), AllocError>
    requires { var < formula.old.vars }
    ensures { OnOk result (formula.new ≡ with_opposites formula.old var lits.now) }
{
    for lit in lits {
        add_pair(
            formula,
            named(var.place(), true),
            named(lit.var, !lit.positive),
        )?;
    }
    Ok(())
}
