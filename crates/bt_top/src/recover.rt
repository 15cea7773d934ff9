//! `recover`: the network of a design that nothing follows.
ghost use Rattle.std.specs.Prelude.{alloc_error};
ghost use Rattle.bt_text.specs.Answers.{UnlessMemory};
ghost use Rattle.bt_top.specs.Recovering.{IsRecoveredFrom};

use bt_designs::read_alone;
use bt_print::{Answer, refused};
use std::alloc::{AllocError, Global};

/// The answer of `recover` to the bytes of its input.
pub fn recover(alloc: Global, bytes: &[u8]) -> Result<Answer, AllocError>
    ensures { UnlessMemory alloc_error (IsRecoveredFrom bytes.now) result }
{
    match read_alone(alloc, bytes) {
        Ok(net) => Ok(Answer::Recovered(net)),
        Err(fault) => refused(fault),
    }
}
