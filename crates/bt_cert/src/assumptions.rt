//! What is assumed of a formula's variables while a step is judged.
ghost use Rattle.std.specs.Prelude.{◌≡◌, ◌<◌, length, IsTrue, ◌↔◌, IfOk, OnOk, OnErr};
ghost use Rattle.bt_cert.specs.inner.Assuming.{AreUnset, IsFalseIn, IsTrueIn, Stands, with_value};

use bt_cnf::{Lbool, Lit, Var};
use std::alloc::{AllocError, Global};
use std::marker::Model;

/// Which variables are assumed to be true, and which to be false.
///
/// What is assumed is taken back variable by variable, so that a step costs nothing for the variables
/// that it doesn't touch.
#[derive(Drop)]
pub struct Assumptions {
    /// For each variable of the formula, whether it is true, where that is assumed.
    values: Vec<Option<bool>>,
    /// The places of the variables with a value.
    trail: Vec<usize>,
}

impl Model for Assumptions {
    ghost use Rattle.std.specs.Prelude.{List, Option, Bool};
    ghost use Rattle.bt_cert.specs.inner.Assuming.{AreTrailed};

    ghost Value = { List (Option Bool) };

    ghost view = { λ a. a.values.items };

    ghost invariant = { λ a. AreTrailed a.values.items a.trail.items };
}

impl Assumptions {
    /// No assumptions over so many variables.
    pub fn new(alloc: Global, vars: usize) -> Result<Assumptions, AllocError>
        ensures size { IfOk result (λ values. length values ≡ vars) }
        ensures unset { IfOk result AreUnset }
    {
        Ok(Assumptions {
            values: vec![in alloc; None; vars]?,
            trail: Vec::new(alloc),
        })
    }

    /// Assumes that a variable is true or that it is false.
    pub fn assume(&mut self, var: Var, value: bool) -> Result<(), AllocError>
        requires { var < length self.old }
        ensures set { OnOk result (self.new ≡ with_value self.old var value) }
        ensures same { OnErr result (self.new ≡ self.old) }
    {
        let place = var.place();
        self.trail.push(place)?;
        self.values[place] = Some(value);
        Ok(())
    }

    /// The value of a literal: `Unset` where nothing is assumed of its variable.
    pub fn truth_of(&self, lit: Lit) -> Lbool
        requires { lit.var < length self.now }
        ensures { Stands self.now lit result }
    {
        match self.values[lit.var.place()] {
            None => Lbool::Unset,
            Some(value) if value == lit.positive => Lbool::True,
            Some(_) => Lbool::False,
        }
    }

    /// Whether a literal is false.
    pub fn is_false(&self, lit: Lit) -> bool
        requires { lit.var < length self.now }
        ensures { IsTrue result ↔ IsFalseIn self.now lit }
    {
        match self.truth_of(lit) {
            Lbool::False => true,
            Lbool::True | Lbool::Unset => false,
        }
    }

    /// Whether a literal is true.
    pub fn is_true(&self, lit: Lit) -> bool
        requires { lit.var < length self.now }
        ensures { IsTrue result ↔ IsTrueIn self.now lit }
    {
        match self.truth_of(lit) {
            Lbool::True => true,
            Lbool::False | Lbool::Unset => false,
        }
    }

    /// Takes back all that was assumed.
    pub fn clear(&mut self)
        ensures size { length self.new ≡ length self.old }
        ensures unset { AreUnset self.new }
    {
        while let Some(place) = self.trail.pop() {
            self.values[place] = None;
        }
    }
}
