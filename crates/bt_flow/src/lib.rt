//! Steady states of splitter networks, the properties of balancers, and the states that break them.
#![tactic(auto)]

mod at_ports;
mod compare;
mod conclusion;
mod end_edges;
mod fault;
mod judge;
mod judgement;
mod ports;
mod printing;
mod property;
mod reading;
mod state;
mod sums;
mod theorems;
mod trial;

pub use end_edges::{
    cap_at, input_edge, last_edges, load_column, numbers_of, output_edge, room_column,
};
pub use fault::StateFault;
pub use judge::{admissible_steady, breaks, steady};
pub use judgement::{FIRST_LAW, Judgement, LAST_LAW, LAST_TEST, TESTS, Test, WideSum};
pub use ports::{End, Port, Ports, Role};
pub use printing::{print_edges, print_ends, print_state, printed_state_is_read};
pub use property::Property;
pub use reading::{Edges, Ends, one_state, read_edges, read_end, read_ends, read_state};
pub use state::State;
pub use std::alloc::AllocError as Memory;
pub use theorems::{
    equal_caps_even, fair_is_balanced, fewer_laws, has_flows, holds_exactly, lines_are,
    scaled_is_steady, seven_laws, tests_are,
};
