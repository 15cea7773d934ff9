//! The library in use: with a source of bytes and a chooser of one's own, whatever they do, an answer is right.
#![tactic(auto)]

mod chooser;
mod deciding;
mod source;

pub use chooser::Middle;
pub use deciding::{Answer, MOST, decided};
pub use source::Joined;

#[cfg(test)]
mod tests;
