//! What a judgement of a state says: that all tests pass, which one fails first, or which sum can't
//! be formed.
ghost use Rattle.std.specs.Prelude.{◌≡◌};
ghost use Rattle.bt_flow.specs.Names.{test_name};

use bt_frac::Frac;

/// A test of a state, in the order in which the tests come: of the loads and rooms, the nine laws of
/// steady states (seven by Couëtoux, Gastaldi and Naves, and two of splitters that prefer an edge), and of a
/// property's conclusion.
#[derive(Clone, Copy, PartialEq, Eq)]
pub enum Test {
    /// The load of an input is from 0 to its cap, and at it where the property asks that.
    Load,
    /// The room of an output is from 0 to its cap, and at it where the property asks that.
    Room,
    /// The flow of an edge is from 0 to its cap.
    Range,
    /// What enters a splitter leaves it.
    Conserve,
    /// Where an out edge of a splitter that prefers none is free and not full, the other has no greater flow.
    EvenOut,
    /// Where an in edge of a splitter that prefers none is backed and not full, the other has no greater flow.
    EvenIn,
    /// Where the out edge that a splitter prefers is free, it is full or the other out edge is empty.
    PriorOut,
    /// Where the in edge that a splitter prefers is backed, it is full or the other in edge is empty.
    PriorIn,
    /// Where an in edge is backed, each out edge of its splitter is backed or full.
    Backing,
    /// The flow of an input is at most its load, and equals it where the edge is free.
    Input,
    /// The flow of an output is at most its room, and equals it where the edge is backed.
    Output,
    /// The conclusion of the property is false: a state that passes all tests breaks the property.
    Conclusion,
}

/// All tests, in their order.
pub const TESTS: [Test; 12] = [
    Test::Load,
    Test::Room,
    Test::Range,
    Test::Conserve,
    Test::EvenOut,
    Test::EvenIn,
    Test::PriorOut,
    Test::PriorIn,
    Test::Backing,
    Test::Input,
    Test::Output,
    Test::Conclusion,
];

/// The place in the order of the first of the nine laws, which the tests of loads and rooms precede.
pub const FIRST_LAW: usize = 2;

/// The place in the order of the last of the nine laws, which only the test of the conclusion follows.
pub const LAST_LAW: usize = 10;

/// The place in the order of the last test.
pub const LAST_TEST: usize = 11;

impl Test {
    /// The name of the test, as answers write it. That of the conclusion is `kept`, since it fails
    /// where the state keeps the property.
    pub fn name(self) -> &'static str
        ensures { result.now ≡ test_name self }
    {
        match self {
            Test::Load => "load",
            Test::Room => "room",
            Test::Range => "range",
            Test::Conserve => "conserve",
            Test::EvenOut => "even-out",
            Test::EvenIn => "even-in",
            Test::PriorOut => "prior-out",
            Test::PriorIn => "prior-in",
            Test::Backing => "backing",
            Test::Input => "input",
            Test::Output => "output",
            Test::Conclusion => "kept",
        }
    }
}

/// Whether a state passes all tests, or which is the first that fails. The tests of `breaks` pass
/// where the state breaks the property, those of `steady` where it is steady.
#[derive(Clone, Copy, PartialEq, Eq)]
pub enum Judgement {
    /// All tests pass.
    Passes,
    /// This test is the first that fails, and this is the first of its places, from 0: the number of
    /// an input, output, edge or splitter, or 0 for the conclusion.
    Fails { test: Test, place: usize },
}

/// Two numbers whose sum a test at a place needs, and whose addition leaves 128 bits.
#[derive(Clone, Copy, PartialEq, Eq)]
pub struct WideSum {
    /// The test that needs the sum.
    pub test: Test,
    /// The place of the test, from 0.
    pub place: usize,
    /// What was summed before.
    pub left: Frac,
    /// The number that can't be added.
    pub right: Frac,
}
