//! Layouts: parts that lay a request, or a log that shows that there are none; the least grid on which parts show a
//! network; and small grids on which parts that show it are found.
#![tactic(auto)]

mod early;
mod law;
mod least;
mod likely;
mod preferring;
mod progress;
mod searching;
mod sketched;
mod small;
mod sweep;
mod tested;
mod whole;

pub use bt_grids::{Early, Layout, Small, Smallest};
pub use early::lay_early;
pub use law::{
    laid_is_read_back, nowhere_is_certificate, passed_has_no_layout, refuted_has_no_layout,
    unmet_has_no_layout,
};
pub use least::smallest;
pub use preferring::{priorities_of, priorities_on};
pub use searching::layout;
pub use small::find_small;
pub use std::alloc::AllocError as Memory;
