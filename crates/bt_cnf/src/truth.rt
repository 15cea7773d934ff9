//! The values of literals while some variables are set.
ghost use Rattle.std.specs.Prelude.{◌≡◌, ◌<◌, ◌↔◌, length, IsTrue, Some, None};
ghost use Rattle.std.specs.Option.{is_none};
ghost use Rattle.bt_cnf.specs.Truths.{IsTrueIn, IsFalseIn};
ghost use Rattle.bt_cnf.specs.inner.Lbools.{lbool_of};

use crate::literal::{Lit, Variable};
use bt_arena::Arena;
use std::marker::Model;

/// A truth value, or none: what solvers call `lbool`. True is 0 and false is 1: so the last bit of a packed literal's
/// number is the value that makes the literal true.
#[derive(Clone, Copy, PartialEq, Eq)]
pub enum Lbool {
    /// It is true.
    True,
    /// It is false.
    False,
    /// It has no value.
    Unset,
}

/// The value of a variable, where it has one, in one byte: one comparison tells whether a literal is true.
#[derive(Clone, Copy)]
pub struct Truth {
    lbool: Lbool,
}

impl Model for Truth {
    ghost use Rattle.std.specs.Prelude.{Bool, Option};
    ghost use Rattle.bt_cnf.specs.inner.Lbools.{lbool_back, lbool_of, value_in};

    ghost Value = { Option Bool };

    ghost view = { λ w. value_in w.lbool };

    ghost inverse = { λ value. record { lbool = lbool_of value } };

    ghost inverse_ok = { λ w h i. record { lbool = lbool_back w.lbool i } };
}

/// A truth value, as an `Lbool`.
fn set_to(value: bool) -> Lbool
    ensures { result ≡ lbool_of (Some value) }
{
    if value { Lbool::True } else { Lbool::False }
}

impl Truth {
    /// The value of a variable that is unset.
    pub fn unset() -> Truth
        ensures { result ≡ None }
    {
        Truth {
            lbool: Lbool::Unset,
        }
    }

    /// The value of a variable that is set to true or false.
    pub fn set(value: bool) -> Truth
        ensures { result ≡ Some value }
    {
        Truth {
            lbool: set_to(value),
        }
    }

    /// Whether there is no value.
    pub fn is_unset(&self) -> bool
        ensures { result ≡ is_none self.now }
    {
        self.lbool == Lbool::Unset
    }

    /// Whether there is a value, and it is this one.
    pub fn is(&self, value: bool) -> bool
        ensures { IsTrue result ↔ (self.now ≡ Some value) }
    {
        self.lbool == set_to(value)
    }
}

/// For each variable, its value.
pub type Values = Arena<Truth, Variable>;

/// Whether a literal is true by these values. Where its variable is unset, it is neither true nor false.
pub fn is_lit_true(values: &Values, lit: &Lit) -> bool
    requires { lit.now.var < length values.now }
    ensures { IsTrue result ↔ IsTrueIn values.now lit.now }
{
    values.get(lit.var).is(lit.positive)
}

/// Whether a literal is false by these values.
pub fn is_lit_false(values: &Values, lit: &Lit) -> bool
    requires { lit.now.var < length values.now }
    ensures { IsTrue result ↔ IsFalseIn values.now lit.now }
{
    values.get(lit.var).is(!lit.positive)
}
