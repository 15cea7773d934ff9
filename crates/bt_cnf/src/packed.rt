//! Literals in a quarter of the room, as they are kept in logs and for propagation.
ghost use Rattle.std.specs.Prelude.{◌≡◌, ◌<◌, ◌^◌, ◌↔◌, length, IfOk, IsTrue};
ghost use Rattle.bt_cnf.specs.Codes.{code_of};
ghost use Rattle.bt_cnf.specs.Truths.{IsTrueIn, IsFalseIn};

use crate::literal::Lit;
use crate::truth::{Values, is_lit_false, is_lit_true};
use std::alloc::{AllocError, Global};
use std::marker::Model;

/// A literal in four bytes, as one number.
#[derive(Clone, Copy)]
pub struct Packed {
    code: u32,
}

impl Model for Packed {
    ghost use Rattle.bt_cnf.specs.declared.literal.Lit.{Lit};
    ghost use Rattle.bt_cnf.specs.inner.Codes.{code_back, lit_of};
    ghost use Rattle.bt_cnf.specs.Codes.{code_of};

    ghost Value = { Lit };

    ghost view = { λ p. lit_of p.code };

    ghost inverse = { λ l. record { code = code_of l } };

    ghost inverse_ok = { λ p h i. record { code = code_back p.code i } };
}

/// Variables with numbers below this one can be packed.
const LIMIT: usize = 1 << 31;

/// The number of a literal of the variable at a place: twice the place, and one more for the negation.
fn code(place: u32, positive: bool) -> u32
    requires { place < 2 ^ 31 }
    ensures { result ≡ code_of (record { var = place; positive = positive }) }
{
    if positive { 2 * place } else { 2 * place + 1 }
}

impl Packed {
    /// The same literal, packed. Memory counts as run out where the number of its variable is 2^31 or more.
    pub fn pack(lit: &Lit) -> Result<Packed, AllocError>
        ensures { IfOk result (λ packed. packed ≡ lit.now) }
    {
        let place = lit.var.place();
        if place >= LIMIT {
            return Err(AllocError);
        }
        Ok(Packed {
            code: code(place as u32, lit.positive),
        })
    }

    /// The same literal, whose variable is one of those that these values are of.
    pub fn unpack(&self, values: &Values) -> Lit
        requires { self.now.var < length values.now }
        ensures { result ≡ self.now }
    {
        Lit {
            var: values.id_of(self.place()),
            positive: self.is_positive(),
        }
    }

    /// The number of the literal's variable, from 0.
    pub fn place(&self) -> usize
        ensures { result ≡ self.now.var }
    {
        (self.code / 2) as usize
    }

    /// Whether the literal is its variable, not the negation.
    pub fn is_positive(&self) -> bool
        ensures { result ≡ self.now.positive }
    {
        self.code % 2 == 0
    }

    /// The literal's number among all literals: twice that of its variable, and one more for the negation.
    pub fn number(&self) -> usize
        ensures { result ≡ code_of self.now }
    {
        self.code as usize
    }

    /// Whether this literal is the same as another.
    pub fn is(&self, other: &Packed) -> bool
        ensures { IsTrue result ↔ (self.now ≡ other.now) }
    {
        self.code == other.code
    }

    /// Whether this is the same literal as one that isn't packed.
    pub fn stands_for(&self, lit: &Lit) -> bool
        ensures { IsTrue result ↔ (self.now ≡ lit.now) }
    {
        self.place() == lit.var.place() && self.is_positive() == lit.positive
    }

    /// Whether the literal is true by these values. Where its variable is unset, it is neither true nor false.
    pub fn is_true(&self, values: &Values) -> bool
        requires { self.now.var < length values.now }
        ensures { IsTrue result ↔ IsTrueIn values.now self.now }
    {
        is_lit_true(values, &self.unpack(values))
    }

    /// Whether the literal is false by these values.
    pub fn is_false(&self, values: &Values) -> bool
        requires { self.now.var < length values.now }
        ensures { IsTrue result ↔ IsFalseIn values.now self.now }
    {
        is_lit_false(values, &self.unpack(values))
    }
}

/// The same literals, packed.
pub fn pack_all(alloc: Global, lits: &[Lit]) -> Result<Vec<Packed>, AllocError>
    ensures { IfOk result (λ packed. packed.items ≡ lits.now) }
{
    let mut packed = Vec::with_capacity(alloc, lits.len())?;
    for lit in lits {
        packed.push(Packed::pack(lit)?)?;
    }
    Ok(packed)
}
