//! The readers of designs and requests: what stands at the front of an input or alone in it, or the first refusal.
//!
//! `design` reads a network text or blueprint JSON, `alone` wants nothing but blanks behind it, `request` reads pins, sides
//! and blocks too, and `two_designs` a pair. `drawing` reads a blueprint with its parts, and `kept` requests for one, which
//! may have its ends at their own sides. `held` gathers an input block by block, and `told` tells of its front what is told
//! whatever follows. `refusal` and `fault` are one list over the faults of all layers below.
#![tactic(auto)]

mod alone;
mod design;
mod drawing;
mod fault;
mod held;
mod kept;
mod refusal;
mod request;
mod told;
mod two_designs;

pub use alone::read_alone;
pub use design::{Design, is_json, read_design};
pub use fault::DesignFault;
pub use held::{Gathered, Held, MOST_CHECKED, gather_on};
pub use kept::{BlueprintRequest, read_blueprint_request, read_kept_request};
pub use refusal::Refusal;
pub use request::{PinnedDesign, read_lone_request, read_sided_request, request_for};
pub use std::alloc::AllocError as Memory;
pub use told::{told_bare, told_design, told_line, told_pinned};
pub use two_designs::{paired, read_two};
