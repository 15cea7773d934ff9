//! JSON text (RFC 8259), read exactly.
#![tactic(auto)]

mod decimal;
mod fault;
mod kind;
mod law;
mod limits;
mod names;
mod nested;
mod number;
mod reader;
mod scan;
mod text;
mod tree;

pub use decimal::Decimal;
pub use fault::JsonFault;
pub use law::{limits_are, longer_is_read};
pub use limits::{MOST_EXPONENT, MOST_HALVES, MOST_LEVELS};
pub use reader::read;
pub use std::alloc::AllocError as Memory;
pub use tree::Tree;
