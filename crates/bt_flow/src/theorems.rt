//! What is true of every network and every state.
ghost use Rattle.std.specs.Prelude.{◌≡◌, ℕ, ◌↔◌};
ghost use Rattle.bt_net.specs.Network.{Network};
ghost use Rattle.bt_flow.specs.declared.property.Property.{Property};
ghost use Rattle.bt_flow.specs.declared.reading.line.TheConstants.{TITLE, LOADS, ROOMS, FLOWS, END};
ghost use Rattle.bt_flow.specs.States.{Flows, Fractions, AreLowest, StandsFor, Fits};
ghost use Rattle.bt_flow.specs.EqualCaps.{EqualCapsEven};
ghost use Rattle.bt_flow.specs.Fairness.{FairIsBalanced};
ghost use Rattle.bt_flow.specs.FewerLaws.{FewerLaws};
ghost use Rattle.bt_flow.specs.SevenLaws.{SevenLawsAreAll};
ghost use Rattle.bt_flow.specs.Properties.{Holds, Breaks};
ghost use Rattle.bt_flow.specs.Scaling.{ScaledIsSteady};

use crate::judgement::{FIRST_LAW, LAST_LAW, LAST_TEST};

/// Fractions in lowest terms that fit a network stand for whole numbers over one denominator, so what
/// is said of each of these is said of the fractions.
pub fn has_flows()
    ensures { (n : Network) (t : Fractions) → AreLowest t → Fits n t → (s : Flows) × StandsFor n t s }
{}

/// Where all caps are equal, a full edge needs no leave to be uneven: its flow is at least that of the
/// other edge. So the steady states are those of the laws without that leave.
pub fn equal_caps_even()
    ensures { EqualCapsEven }
{}

/// Where no splitter prefers an edge, the steady states are those that keep the seven laws of Couëtoux, Gastaldi and
/// Naves, which say nothing of preferred edges.
pub fn seven_laws()
    ensures { SevenLawsAreAll }
{}

/// Where a splitter may prefer any in edge, fewer laws are asked: each steady state of a network in which it takes evenly
/// or prefers one that is named is a steady state there too, so what holds there holds of that network.
pub fn fewer_laws()
    ensures { FewerLaws }
{}

/// An admissible steady state is one over any greater denominator too: with its denominator and its numbers so many
/// times as great. So two states can be put over one denominator.
pub fn scaled_is_steady()
    ensures { ScaledIsSteady }
{}

/// Where the edges of all outputs have one cap, a network that is fair is balanced.
pub fn fair_is_balanced()
    ensures { FairIsBalanced }
{}

/// A network has a property exactly where no state breaks it.
pub fn holds_exactly()
    ensures { (n : Network) (p : Property) → Holds n p ↔ ((s : Flows) → Breaks n p s → ⊥) }
{}

/// The places of the first law, the last law and the last test in the list of tests, as numbers.
pub fn tests_are()
    ensures first { FIRST_LAW ≡ 2 }
    ensures last { LAST_LAW ≡ 10 }
    ensures conclusion { LAST_TEST ≡ 11 }
{}

/// The numbers of the lines of a state's text; that of marks comes behind that of flows.
pub fn lines_are()
    ensures title { TITLE ≡ 1 }
    ensures loads { LOADS ≡ 2 }
    ensures rooms { ROOMS ≡ 3 }
    ensures flows { FLOWS ≡ 4 }
    ensures end { END ≡ 6 }
{}
