//! The terms of lines.

use bt_frac::Frac;

/// A position with its number.
pub type Term = (usize, Frac);
