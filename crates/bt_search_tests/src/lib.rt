//! Tests of numbers and rows, of searches, and of the logs that they write.
//! They call public items alone: beside these, no crate would have to be proved a second time for its tests.
#![tactic(auto)]

#[cfg(test)]
mod tests;
