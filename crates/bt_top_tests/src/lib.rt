//! Tests of whole runs of the program, over sources and sinks in memory.
//! They call `run` alone: beside it, `bt_top` would have to be proved a second time for its tests.
#![tactic(auto)]

#[cfg(test)]
mod tests;
