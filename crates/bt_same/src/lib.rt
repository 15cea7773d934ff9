//! Whether two networks behave the same: the formula of the pairs of steady states that show a difference.
#![tactic(auto)]

mod comparing;
mod difference;
mod encoding;
mod joining;
mod judge;
mod law;
mod pair;
mod printing;
mod reading;
mod shift;
mod solution;

pub use encoding::encode_same;
pub use judge::differs;
pub use law::{
    meeting_shows, printed_pair_is_read, refuted_are_same, same_exactly,
    same_formulas_are_formulas, same_formulas_are_small, showing_meets, shown_pair_holds,
    shown_pair_is_read, unmet_are_same,
};
pub use pair::{Pair, PairJudgement, PairWide, Which};
pub use printing::print_pair;
pub use reading::read_pair;
pub use solution::pair_of;
pub use std::alloc::AllocError as Memory;
