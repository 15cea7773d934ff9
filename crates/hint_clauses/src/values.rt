//! The values of literals.
use crate::literal::Literal;
use bt_cnf::Lbool;
use std::alloc::{AllocError, Global};

/// The value of each literal, those of a variable side by side.
#[derive(Drop)]
pub struct Values {
    of_literals: Vec<Lbool>,
}

impl Values {
    /// The values of so many variables, none of which is set.
    pub fn new(alloc: Global, variables: usize) -> Result<Values, AllocError> {
        let count = variables.saturating_mul(2);
        Ok(Values {
            of_literals: vec![in alloc; Lbool::Unset; count]?,
        })
    }

    /// The value of a literal. One whose variable there isn't is unset.
    pub fn get(&self, literal: Literal) -> Lbool {
        match self.of_literals.get(literal.place()) {
            Some(value) => *value,
            None => Lbool::Unset,
        }
    }

    /// Whether a literal is true.
    pub fn is_true(&self, literal: Literal) -> bool {
        self.get(literal) == Lbool::True
    }

    /// Whether a literal is false.
    pub fn is_false(&self, literal: Literal) -> bool {
        self.get(literal) == Lbool::False
    }

    /// Gives a literal this value. One whose variable there isn't is passed over.
    fn put(&mut self, literal: Literal, value: Lbool) {
        if let Some(old) = self.of_literals.get_mut(literal.place()) {
            *old = value;
        }
    }

    /// Makes a literal true.
    pub fn set(&mut self, literal: Literal) {
        self.put(literal, Lbool::True);
        self.put(literal.negated(), Lbool::False);
    }

    /// Leaves a literal without a value.
    pub fn clear(&mut self, literal: Literal) {
        self.put(literal, Lbool::Unset);
        self.put(literal.negated(), Lbool::Unset);
    }
}
