//! Whether the pair of states that is written behind two designs shows that their networks differ.
ghost use Rattle.std.specs.Prelude.{Ok, alloc_error};
ghost use Rattle.bt_text.specs.Answers.{UnlessMemory};
ghost use Rattle.bt_flow.specs.States.{Fits};
ghost use Rattle.bt_same.specs.Sameness.{HaveEqualEnds};
ghost use Rattle.bt_top.specs.SameCertificates.{IsPairJudged, IsPairTextJudged};

use bt_net::Net;
use bt_print::{Answer, Brief, no_state};
use bt_same::{Pair, PairJudgement, PairWide, differs, read_pair};
use std::alloc::{AllocError, Global};

/// The answer to the text of a pair of states that is to show that these networks differ.
pub fn judge_pair_text(
    alloc: Global,
    first: &Net,
    second: &Net,
    text: &[u8],
) -> Result<Answer, AllocError>
    requires { HaveEqualEnds first.now second.now }
    ensures { UnlessMemory alloc_error (IsPairTextJudged (first.now, second.now) text.now) result }
{
    match read_pair(alloc, first, second, text) {
        Ok(pair) => Ok(judge_pair(first, second, &pair)),
        Err(fault) => no_state(fault),
    }
}

/// The answer to a written pair of states that is to show that these networks differ.
fn judge_pair(first: &Net, second: &Net, pair: &Pair) -> Answer
    requires ends { HaveEqualEnds first.now second.now }
    requires first { Fits first.now pair.now.first }
    requires second { Fits second.now pair.now.second }
    ensures { IsPairJudged (first.now, second.now) pair.now (Ok result) }
{
    match differs(first, second, pair) {
        Ok(PairJudgement::Holds) => Answer::Brief(Brief::ShownDiffer),
        Ok(PairJudgement::Fails { place, test, at }) => {
            Answer::Brief(Brief::NotDiffering(place, test, at))
        }
        Err(PairWide { place, sum }) => {
            Answer::Brief(Brief::WidePair(place, sum.test, sum.place))
        }
    }
}
