//! Forms: a number, and a sum of columns, each times a fraction.
ghost use Rattle.std.specs.Prelude.{◌≡◌, ◌↔◌, IsTrue};
ghost use Rattle.bt_extend.specs.Forms.{IsForm, IsFormOf};
ghost use Rattle.bt_extend.specs.inner.Terms.{AreTerms};

use bt_frac::Frac;
use std::marker::Model;

/// A number, and columns with their coefficients. The columns ascend strictly and are below `usize::MAX`,
/// and no coefficient is 0.
#[derive(Drop)]
pub struct Form {
    constant: Frac,
    terms: Vec<(usize, Frac)>,
}

impl Model for Form {
    ghost use Rattle.bt_extend.specs.Forms.{FormParts, IsForm};

    ghost Value = { FormParts };

    ghost view = { λ f. record { constant = f.constant; terms = f.terms.items } };

    ghost invariant = { λ f. IsForm (record { constant = f.constant; terms = f.terms.items }) };
}

impl Form {
    /// The form of a number and terms, each a column and its coefficient. None exactly where the columns
    /// don't ascend strictly, the last of them is `usize::MAX`, or a coefficient is 0.
    pub fn new(constant: Frac, terms: Vec<(usize, Frac)>) -> Option<Form>
        ensures { IsFormOf (record { constant = constant; terms = terms.items }) result }
    {
        if !are_terms(&terms) {
            return None;
        }
        let _ = constant.denominator();
        Some(Form { constant, terms })
    }

    /// The number.
    pub fn constant(&self) -> Frac
        ensures value { result ≡ self.now.constant }
        ensures known { IsForm self.now }
    {
        self.constant
    }

    /// The columns that have a coefficient, in ascending order, with it.
    pub fn terms(&self) -> &[(usize, Frac)]
        ensures value { result.now ≡ self.now.terms }
        ensures known { IsForm self.now }
    {
        &self.terms
    }
}

/// Whether the columns ascend strictly, none is `usize::MAX`, and no coefficient is 0.
fn are_terms(terms: &[(usize, Frac)]) -> bool
    ensures { IsTrue result ↔ AreTerms terms.now }
{
    let mut least = 0;
    for (column, coefficient) in terms {
        if *column < least || *column == usize::MAX {
            return false;
        }
        if coefficient.numerator() == 0 {
            return false;
        }
        least = *column + 1;
    }
    true
}
