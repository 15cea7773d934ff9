//! The order in which variables are decided, which lasts from one conflict to the next: a scan for the greatest score at
//! each choice took 57 % of the time of a search, and a heap would have to be told of all that a backjump unsets.
//!
//! The chooser that serves is the first of the choosers, where there is one.
ghost use Rattle.std.specs.Prelude.{◌≡◌, ◌≤◌, ℕ, [], drop, length, map, IfOk, OnOk, Contains};
ghost use Rattle.std.specs.List.Sorted.{IsPermutation};
ghost use Rattle.bt_cnf.specs.Choosing.{Ascends};
ghost use Rattle.bt_choosers.specs.inner.Orders.{FindsUnset, IsAmong, IsLitAt};
ghost use Rattle.bt_choosers.specs.Orders.{HasFirst, HasUnset, IsNext};

use crate::asking::ask;
use bt_cnf::{Chooser, Lit, Values, Var, lacks_value, list_unset};
use std::alloc::{AllocError, Global};
use std::marker::Model;

/// Where choices come from since the last conflict.
#[derive(Clone, Copy, PartialEq, Eq)]
enum Source {
    /// No chooser has been asked.
    Unknown,
    /// The chooser put the variables in its order.
    Arranged,
    /// The chooser has no order, and is asked each time.
    Asked,
}

/// All variables, in an order, from which those that are decided next are taken. The order lasts from one conflict to the
/// next, and then little of it changes.
#[derive(Drop)]
pub struct Order {
    vars: Vec<Var>,
    /// All variables before this place have a value.
    at: usize,
    source: Source,
    /// Where the chooser is asked each time: the variables that have no value.
    unset: Vec<Var>,
}

impl Model for Order {
    ghost use Rattle.std.specs.Prelude.{ℕ, List, drop, length};
    ghost use Rattle.bt_choosers.specs.Orders.{HasFirst};

    ghost Value = { List ℕ };

    ghost view = { λ o. drop o.at o.vars.items };

    ghost invariant = { λ o. HasFirst (length o.vars.items) o.vars.items };
}

impl Order {
    /// An order without variables.
    pub fn new(alloc: Global) -> Order
        ensures { result ≡ [] }
    {
        Order {
            vars: Vec::new(alloc),
            at: 0,
            source: Source::Unknown,
            unset: Vec::new(alloc),
        }
    }

    /// Begins with all variables again, since any of them may be unset by now.
    pub fn begin(&mut self, values: &Values) -> Result<(), AllocError>
        ensures { OnOk result (HasFirst (length values.now) self.new) }
    {
        self.at = 0;
        self.source = Source::Unknown;
        cover(&mut self.vars, values)
    }

    /// A literal of a variable that has no value, where there is one, as the chooser that serves would have it.
    pub fn next<C: Chooser>(
        &mut self,
        values: &Values,
        choosers: &mut [C],
    ) -> Result<Option<Lit>, AllocError>
        requires { HasUnset values.now self.old }
        ensures next { IfOk result (IsNext values.now) }
        ensures left { HasUnset values.now self.new }
        ensures same { map C.told_clauses choosers.new ≡ map C.told_clauses choosers.old }
    {
        if self.is_arranged(choosers) {
            self.at = pass(&self.vars, self.at, values);
            return Ok(literal_at(&self.vars, self.at, choosers));
        }
        list_unset(&mut self.unset, values)?;
        Ok(asked(choosers, &self.unset))
    }

    /// Whether the chooser that serves has an order. The first time after a conflict, the variables are put in it.
    fn is_arranged<C: Chooser>(&mut self, choosers: &[C]) -> bool
        ensures { (v : ℕ) → Contains self.old v → Contains self.new v }
    {
        self.source = source_of(choosers, &mut self.vars, &mut self.at, self.source);
        self.source == Source::Arranged
    }
}

/// Appends the variables of these values that are not there yet.
fn cover(vars: &mut Vec<Var>, values: &Values) -> Result<(), AllocError>
    requires { HasFirst (length vars.old.items) vars.old.items }
    ensures each { HasFirst (length vars.new.items) vars.new.items }
    ensures size { OnOk result (length values.now ≤ length vars.new.items) }
{
    while vars.len() < values.len() {
        vars.push(values.id_of(vars.len()))?;
    }
    Ok(())
}

/// Has the chooser that serves put variables in its order, and tells whether it has one; false where none serves.
fn arrange<C: Chooser>(choosers: &[C], vars: &mut [Var]) -> bool
    ensures { IsPermutation vars.old vars.new }
{
    match choosers.first() {
        Some(chooser) => chooser.arrange(vars),
        None => false,
    }
}

/// Where choices come from: where no chooser has been asked, the one that serves puts variables in its order, if it has
/// one, and the walk through them goes back to the first.
#[tactic(auto, using(crate::proofs::Listing::left_permuted))]
fn source_of<C: Chooser>(choosers: &[C], vars: &mut [Var], at: &mut usize, source: Source) -> Source
    ensures same { IsPermutation vars.old vars.new }
    ensures left { (v : ℕ) → Contains (drop at.old vars.old) v → Contains (drop at.new vars.new) v }
{
    if source != Source::Unknown {
        return source;
    }
    *at = 0;
    if arrange(choosers, vars) {
        return Source::Arranged;
    }
    Source::Asked
}

/// The first place from a place on of a variable that has no value, or the end.
fn pass(vars: &[Var], from: usize, values: &Values) -> usize
    ensures { FindsUnset values.now vars.now from result }
{
    for place in from..vars.len() {
        if lacks_value(values, vars[place]) {
            return place;
        }
    }
    vars.len()
}

/// Whether the chooser that serves sets a variable to true; false where it says nothing of it.
fn phase_of<C: Chooser>(choosers: &[C], var: Var) -> bool {
    match choosers.first() {
        Some(chooser) => chooser.phase(var).unwrap_or(false),
        None => false,
    }
}

/// The literal of the variable at a place, where there is one, as the chooser that serves sets it.
fn literal_at<C: Chooser>(vars: &[Var], place: usize, choosers: &[C]) -> Option<Lit>
    ensures { IsLitAt vars.now place result }
{
    if place >= vars.len() {
        return None;
    }
    let var = vars[place];
    Some(Lit {
        var,
        positive: phase_of(choosers, var),
    })
}

/// The choice of the chooser that serves among variables, where there are any.
fn asked<C: Chooser>(choosers: &mut [C], unset: &[Var]) -> Option<Lit>
    requires { Ascends unset.now }
    ensures among { IsAmong unset.now result }
    ensures same { map C.told_clauses choosers.new ≡ map C.told_clauses choosers.old }
{
    if unset.is_empty() {
        return None;
    }
    let pick = ask(choosers, unset);
    Some(Lit {
        var: unset[pick.place],
        positive: pick.positive,
    })
}
