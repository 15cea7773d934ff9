//! Facts of what each cell of a layout holds and from where it is fed, and rules over them as they are drawn up.
#![tactic(auto)]

mod adding;
mod cells;
mod counter;
mod draft;
mod fact;
mod facts;
mod spots;

pub use adding::{
    add_at_most_one, add_equals_one, add_exactly_one, add_excluded, add_excluded_by, add_implied,
    add_one_where,
};
pub use cells::{border_of, cells_of};
pub use counter::{add_all_held, add_counter};
pub use draft::{Draft, Drafted, RuleFact};
pub use fact::{Class, Content, Fact, Half, Line, Shape};
pub use facts::{
    carries, carries_split, columns, goes_into, holds, owners, push_goes_into, push_tunnels, rows,
    starts_on, stops_on, turned,
};
pub use spots::{
    WAYS, ahead, behind, cell_at, far, half_at, is_inside, mate, other_half, others_than,
    push_inside, push_outside, sides_of,
};
