//! A chooser of one's own.
ghost use Rattle.std.specs.Prelude.{None};

use bt_cnf::{Chooser, Lit, Pick, Var};
use std::alloc::AllocError;

/// Sets the unset variable in the middle to true. Whatever a chooser picks, an answer of the search is right.
#[derive(Drop)]
pub struct Middle;

impl Chooser for Middle {
    ghost told_clauses = { λ _. None };

    fn pick(&mut self, unset: &[Var]) -> Pick {
        Pick {
            place: unset.len() / 2,
            positive: true,
        }
    }

    fn told(&mut self, _clause: &[Lit]) -> Result<(), AllocError> {
        Ok(())
    }
}
