//! Scores that double again and again. They have an exponent of their own, since there are no floating-point numbers; so
//! none is ever scaled down.

/// The first 32 digits of a whole number in base 2, and how many more it has. A greater number has more of them, or the
/// greater digits.
#[derive(Clone, Copy)]
pub struct Score {
    more: u32,
    digits: u32,
}

impl Score {
    /// The score 0.
    pub fn zero() -> Score {
        Score { more: 0, digits: 0 }
    }

    /// What the first conflict adds to the scores of variables.
    pub fn first_bump() -> Score {
        Score {
            more: 0,
            digits: 1 << 31,
        }
    }

    /// Whether this score is greater than another.
    pub fn exceeds(self, other: Score) -> bool {
        self.more > other.more || (self.more == other.more && self.digits > other.digits)
    }

    /// The sum with one that isn't greater, of which what stands behind the first 32 digits is dropped.
    fn with_lesser(self, lesser: Score) -> Score {
        let shift = self.more.saturating_sub(lesser.more);
        if shift >= u32::BITS {
            return self;
        }
        first_digits(
            self.more,
            u64::from(self.digits).saturating_add(u64::from(lesser.digits >> shift)),
        )
    }

    /// The sum with another score, of which what stands behind the first 32 digits is dropped.
    pub fn plus(self, other: Score) -> Score {
        if other.exceeds(self) {
            other.with_lesser(self)
        } else {
            self.with_lesser(other)
        }
    }

    /// The score and a ninth of it.
    pub fn grown(self) -> Score {
        let digits = u64::from(self.digits);
        first_digits(self.more, digits.saturating_add(digits / 9))
    }
}

/// The score of these digits with so many more behind them. Where the digits are 33, the last one is dropped.
fn first_digits(more: u32, digits: u64) -> Score {
    match u32::try_from(digits) {
        Ok(digits) => Score { more, digits },
        Err(_) => Score {
            more: more.saturating_add(1),
            digits: u32::try_from(digits / 2).unwrap_or(u32::MAX),
        },
    }
}
