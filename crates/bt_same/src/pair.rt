//! Pairs of states of two networks.
use bt_flow::{State, Test, WideSum};

/// A state of each of two networks.
#[derive(Drop)]
pub struct Pair {
    /// That of the first network.
    pub first: State,
    /// That of the second network.
    pub second: State,
}

/// What of a pair a test is of, in the order of tests.
#[derive(Clone, Copy, PartialEq, Eq)]
pub enum Which {
    /// The state of the first network.
    First,
    /// The state of the second network.
    Second,
    /// That loads and rooms are equal, and that some output's flow differs.
    Kept,
}

/// Whether a pair shows a difference, or which test is the first that fails.
#[derive(Clone, Copy, PartialEq, Eq)]
pub enum PairJudgement {
    /// All tests pass: the pair shows a difference.
    Holds,
    /// This test is the first that fails, and this is the first of its places, from 0. Where the pair keeps the
    /// networks the same, that is the test of the conclusion, at 0.
    Fails { place: Which, test: Test, at: usize },
}

/// A sum that a test of a state needs and that leaves 128 bits.
#[derive(Clone, Copy, PartialEq, Eq)]
pub struct PairWide {
    /// Which state it is: the first or the second.
    pub place: Which,
    /// The sum.
    pub sum: WideSum,
}
