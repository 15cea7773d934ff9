//! Literals in four bytes.

/// A variable or its negation: twice the variable's number, and one more for the negation.
#[derive(Clone, Copy, PartialEq, Eq)]
pub struct Literal {
    code: u32,
}

/// Variables with numbers below this one have literals.
const LIMIT: usize = 1 << 31;

impl Literal {
    /// The variable with a number, or its negation. None where the number is 2^31 or more.
    pub fn new(variable: usize, is_positive: bool) -> Option<Literal> {
        if variable >= LIMIT {
            return None;
        }
        let code = 2 * (variable as u32);
        Some(Literal {
            code: if is_positive { code } else { code + 1 },
        })
    }

    /// The number of its variable.
    pub fn variable(self) -> usize {
        (self.code / 2) as usize
    }

    /// Whether it is true where its variable is.
    pub fn is_positive(self) -> bool {
        self.code % 2 == 0
    }

    /// The literal that is true where this one is false.
    pub fn negated(self) -> Literal {
        Literal {
            code: self.code ^ 1,
        }
    }

    /// Its place among all literals.
    pub fn place(self) -> usize {
        self.code as usize
    }
}
