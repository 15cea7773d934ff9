//! The questions that are asked of a state: whether it is steady, whether it is admissible too, and whether it breaks a
//! property.
ghost use Rattle.std.specs.Prelude.{◌<◌, ◌≤◌};
ghost use Rattle.bt_text.specs.Answers.{AnswersAlways};
ghost use Rattle.bt_flow.specs.States.{Fits, Flows, StandsFor};
ghost use Rattle.bt_flow.specs.Judging.{IsSteadyAnswer, IsStateAnswer, IsBreakingAnswer};
ghost use Rattle.bt_flow.specs.inner.Trials.{IsJudged};

use crate::judgement::{FIRST_LAW, Judgement, LAST_LAW, LAST_TEST, TESTS, WideSum};
use crate::property::Property;
use crate::state::State;
use crate::trial::Trial;
use bt_net::Net;

/// Whether a state is steady, or the first law that fails and its first place. A sum that leaves 128
/// bits before that is named by the two numbers of its addition.
pub fn steady(net: &Net, state: &State) -> Result<Judgement, WideSum>
    requires { Fits net.now state.now }
    ensures { AnswersAlways (IsSteadyAnswer net.now state.now) result }
{
    // The laws speak of no property, so any one serves.
    judge(
        &Trial::new(net, Property::Unlimited, state),
        FIRST_LAW,
        LAST_LAW,
    )
}

/// Whether a state is admissible and steady, or the first test that fails, of loads, rooms and the nine laws, and its
/// first place. A sum that leaves 128 bits before that is named by the two numbers of its addition.
pub fn admissible_steady(net: &Net, state: &State) -> Result<Judgement, WideSum>
    requires { Fits net.now state.now }
    ensures { AnswersAlways (IsStateAnswer net.now state.now) result }
{
    // This property asks nothing of loads and rooms.
    judge(&Trial::new(net, Property::Unlimited, state), 0, LAST_LAW)
}

/// Whether a state breaks a property, or the first test that fails and its first place. A sum that
/// leaves 128 bits before that is named by the two numbers of its addition.
pub fn breaks(net: &Net, property: Property, state: &State) -> Result<Judgement, WideSum>
    requires { Fits net.now state.now }
    ensures { AnswersAlways (IsBreakingAnswer net.now property state.now) result }
{
    judge(&Trial::new(net, property, state), 0, LAST_TEST)
}

/// The first failed test among those with the places from `first` to `last`, both counted, in the order. Or the sum
/// before that which leaves 128 bits.
fn judge(trial: &Trial<'_>, first: usize, last: usize) -> Result<Judgement, WideSum>
    requires some { (s : Flows) × StandsFor trial.now.network trial.now.state s }
    requires order { first ≤ last }
    requires last { last ≤ LAST_TEST }
    ensures { IsJudged trial.now first last result }
{
    for order in first..last + 1 {
        let test = TESTS[order];
        let failed = trial.failed_place(test)?;
        if let Some(place) = failed {
            return Ok(Judgement::Fails { test, place });
        }
    }
    Ok(Judgement::Passes)
}
