//! The searches that the strategy is handed.

use bt_choosers::Active;
use bt_model::Request;
use bt_sat::Solver;
use hint_placement::Sketch;
use hint_streamlining::Attempt;
use std::alloc::{AllocError, Global};

/// Makes searches for a layout of a request, each in its placement formula. Models that they find are read as they are.
pub trait Search {
    /// A search where a layout is likely: in the formula with more clauses, by the plan of an attempt.
    ///
    /// # Errors
    ///
    /// Only want of memory.
    fn by_attempt(
        &self,
        alloc: Global,
        request: &Request,
        attempt: Attempt,
    ) -> Result<Solver<Active>, AllocError>;

    /// A search by few steps in which the parts of a sketch are chosen first.
    ///
    /// # Errors
    ///
    /// Only want of memory.
    fn by_sketch(
        &self,
        alloc: Global,
        request: &Request,
        sketch: &Sketch,
    ) -> Result<Solver<Active>, AllocError>;
}
