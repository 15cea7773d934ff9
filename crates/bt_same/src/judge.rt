//! Whether a pair of states shows that two networks differ.
ghost use Rattle.std.specs.Prelude.{◌≡◌, IfOk, IfErr, Ok, Err};
ghost use Rattle.bt_text.specs.Answers.{AnswersAlways};
ghost use Rattle.bt_flow.specs.States.{Fits};
ghost use Rattle.bt_same.specs.Sameness.{HaveEqualEnds};
ghost use Rattle.bt_same.specs.Judging.{IsPairAnswer};

use crate::comparing::{are_known, differ};
use crate::pair::{Pair, PairJudgement, PairWide, Which};
use bt_flow::{Judgement, Test, WideSum, admissible_steady};
use bt_net::Net;

/// The judgement of one of the two states, which is named where a sum of it leaves 128 bits.
fn judged(place: Which, answer: Result<Judgement, WideSum>) -> Result<Judgement, PairWide>
    ensures ok { IfOk result (λ judgement. answer ≡ Ok judgement) }
    ensures err { IfErr result (λ wide. (wide.place ≡ place) × (answer ≡ Err wide.sum)) }
{
    match answer {
        Ok(judgement) => Ok(judgement),
        Err(sum) => Err(PairWide { place, sum }),
    }
}

/// Whether a pair shows a difference, or the first test that fails: of the first state, then of the second, that its
/// loads and rooms are admitted and the nine laws, and then that loads and rooms are equal in both and the flow of some
/// output differs. A sum that leaves 128 bits before that is named by its state and the two numbers of its addition.
pub fn differs(first: &Net, second: &Net, pair: &Pair) -> Result<PairJudgement, PairWide>
    requires ends { HaveEqualEnds first.now second.now }
    requires first { Fits first.now pair.now.first }
    requires second { Fits second.now pair.now.second }
    ensures { AnswersAlways (IsPairAnswer first.now second.now pair.now.first pair.now.second) result }
{
    let of_first = judged(Which::First, admissible_steady(first, &pair.first))?;
    match of_first {
        Judgement::Fails { test, place } => {
            return Ok(PairJudgement::Fails {
                place: Which::First,
                test,
                at: place,
            });
        }
        Judgement::Passes => {}
    }
    let of_second = judged(Which::Second, admissible_steady(second, &pair.second))?;
    match of_second {
        Judgement::Fails { test, place } => {
            return Ok(PairJudgement::Fails {
                place: Which::Second,
                test,
                at: place,
            });
        }
        Judgement::Passes => {}
    }
    are_known(first, second, &pair.first, &pair.second);
    if differ(first, second, &pair.first, &pair.second) {
        return Ok(PairJudgement::Holds);
    }
    Ok(PairJudgement::Fails {
        place: Which::Kept,
        test: Test::Conclusion,
        at: 0,
    })
}
