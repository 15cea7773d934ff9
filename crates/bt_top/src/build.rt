//! `build`: a network for a wish.
ghost use Rattle.std.specs.Prelude.{alloc_error};
ghost use Rattle.bt_text.specs.Answers.{UnlessMemory};
ghost use Rattle.bt_top.specs.Building.{IsBuiltFor};

use bt_cnf::Limits;
use bt_gen::Wish;
use bt_print::Answer;
use bt_words::BuiltText;
use std::alloc::{AllocError, Global};

/// The answer of `build` to a wish and numbers of inputs and outputs. It steers its own decisions.
pub fn build(
    alloc: Global,
    wish: Wish,
    inputs: u32,
    outputs: u32,
    limits: Limits,
    text: BuiltText,
) -> Result<Answer, AllocError>
    ensures { UnlessMemory alloc_error (IsBuiltFor wish inputs outputs text) result }
{
    match bt_decide::build(alloc, wish, inputs, outputs, limits) {
        Ok(Some(net)) => Ok(Answer::Built(net, text)),
        Ok(None) => Ok(Answer::NotFound),
        Err(_) => Err(AllocError),
    }
}
