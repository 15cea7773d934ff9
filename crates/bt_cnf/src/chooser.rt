//! Choosers, which a search asks which variable to set next, and tells which clauses it learnt.
ghost use Rattle.std.specs.Prelude.{◌≡◌, ◌<◌, ℕ, Bool, false, List, [], ◌∷◌, length, IfSome, IsTrue, OnOk, OnErr};
ghost use Rattle.std.specs.List.Sorted.{IsPermutation};
ghost use Rattle.std.specs.declared.option.Option.{Option};
ghost use Rattle.bt_cnf.specs.Choosing.{AreInPickOrder, Ascends, Gains};
ghost use Rattle.bt_cnf.specs.declared.chooser.Pick.{Pick};
ghost use Rattle.bt_cnf.specs.declared.literal.Lit.{Lit};

use crate::literal::{Lit, Var};
use std::alloc::AllocError;

/// Which of some unset variables is set next, and how.
#[derive(Clone, Copy, PartialEq, Eq)]
pub struct Pick {
    /// The place of the variable among them, from 0.
    pub place: usize,
    /// Whether it is set to true.
    pub positive: bool,
}

/// Steers a search. What it answers never changes whether an answer of the search is right.
pub trait Chooser: Drop {
    /// The clauses that it was told, in order, where it tells them. Whether it does never changes.
    ghost told_clauses: { Self → Option (List (List Lit)) };

    /// What it may pick among unset variables. Where nothing is said, it may pick any.
    ghost may_pick: { Self → List ℕ → Pick → Type 0 } = { λ _ _ _. Unit {0} };

    /// How it sets each variable, where it has an order of variables.
    ghost phase_of: { Self → ℕ → Bool } = { λ _ _. false };

    /// Chooses which of the unset variables is set next, and how. There is at least one, and they ascend.
    fn pick(&mut self, unset: &[Var]) -> Pick
        requires some { 0 < length unset.now }
        requires ascending { Ascends unset.now }
        ensures in_range { result.place < length unset.now }
        ensures picks { may_pick self.old unset.now result }
        ensures same { told_clauses self.new ≡ told_clauses self.old };

    /// Is told of a clause that was learnt. Where memory runs out, the clause counts as not told. A chooser that grows
    /// keeps an allocator of its own.
    fn told(&mut self, clause: &[Lit]) -> Result<(), AllocError>
        ensures gains { OnOk result
            (Gains (told_clauses self.old) (told_clauses self.new) (clause.now ∷ [])) }
        ensures keeps { OnErr result (told_clauses self.new ≡ told_clauses self.old) };

    /// Puts variables in the order in which the chooser picks them, and tells whether it has such an order: until it is
    /// told of the next clause, it may pick the first of them that is unset, whichever are. By default it has none.
    fn arrange(&self, _vars: &mut [Var]) -> bool
        ensures same { IsPermutation _vars.old _vars.new }
        ensures picks { IsTrue result → AreInPickOrder (may_pick self.now) (phase_of self.now) _vars.new }
    {
        false
    }

    /// Whether the chooser sets a variable of its order to true. None where it has no order, as by default.
    fn phase(&self, _var: Var) -> Option<bool>
        ensures { IfSome result (λ phase. phase ≡ phase_of self.now _var) }
    {
        None
    }
}

// A box asks and tells the chooser in it.
impl Chooser for Box<dyn Chooser> {
    ghost told_clauses = { λ b. (Chooser-box b).told_clauses b.value };

    ghost may_pick = { λ b. (Chooser-box b).may_pick b.value };

    ghost phase_of = { λ b. (Chooser-box b).phase_of b.value };

    fn pick(&mut self, unset: &[Var]) -> Pick {
        (**self).pick(unset)
    }

    fn told(&mut self, clause: &[Lit]) -> Result<(), AllocError> {
        (**self).told(clause)
    }

    fn arrange(&self, vars: &mut [Var]) -> bool {
        (**self).arrange(vars)
    }

    fn phase(&self, var: Var) -> Option<bool> {
        (**self).phase(var)
    }
}
