//! The words of the command line: which command they are, and what is given with it.
//!
//! The first word is the command. Behind it stand its arguments in any order: a word for itself, or an option, whose
//! value follows it as the next word or behind `=`. Each argument stands once at most; `build` has properties and two
//! numbers, in this order among themselves.
#![tactic(auto)]

mod argument;
mod command;
mod given;
mod grid;
mod law;
mod number;
mod reading;
mod verb;

pub use argument::{MOST_LEARNT, MOST_ORDER, MOST_PIVOTS};
pub use bt_cnf::Limits;
pub use command::{
    AskedSides, BuiltText, Command, MOST_LINES, NetworkFamily, USUAL_ACROSS, USUAL_LEARNT,
    USUAL_PIVOTS,
};
pub use law::limits_are;
pub use reading::{command_of, one_command};
