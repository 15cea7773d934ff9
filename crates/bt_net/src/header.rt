//! The first line of a network's text.
ghost use Rattle.std.specs.Prelude.{ℕ, IfSome, IfNone};
ghost use Rattle.bt_text.specs.Answers.{UnlessMemory};
ghost use Rattle.bt_net.specs.Refusals.{IsHeader};
ghost use Rattle.bt_net.specs.inner.Lines.{IsHeaderRead, AreSizes};

use crate::fault::NetFault;
use crate::network::MOST_OF_EACH;
use crate::wiring::Wiring;
use bt_frac::read_whole;
use bt_text::{after_word, split_once};
use std::alloc::Global;

/// The network without edges whose numbers of inputs, outputs and splitters the text's first line `net I O S` names.
/// Another line is refused, and so is a number above `MOST_OF_EACH`.
pub fn read_header(alloc: Global, line: &[u8]) -> Result<Wiring, NetFault>
    ensures { UnlessMemory NetFault.Memory (IsHeaderRead line.now) result }
{
    let Some(sizes) = read_sizes(line) else {
        return Err(NetFault::NetLine(1));
    };
    let most = MOST_OF_EACH as u128;
    if sizes.inputs > most || sizes.outputs > most || sizes.splitters > most {
        return Err(NetFault::TooLarge);
    }
    let wiring = Wiring::new(
        alloc,
        sizes.inputs as u32,
        sizes.outputs as u32,
        sizes.splitters as u32,
    )?;
    Ok(wiring)
}

/// The numbers of inputs, outputs and splitters that a header names, where those past `u128::MAX` are read as that.
#[derive(Clone, Copy)]
struct Sizes {
    inputs: u128,
    outputs: u128,
    splitters: u128,
}

/// The three numbers of a line `net I O S`, however large they are. None where it is another line.
fn read_sizes(line: &[u8]) -> Option<Sizes>
    ensures some { IfSome result (λ s. AreSizes line.now s.inputs s.outputs s.splitters) }
    ensures none { IfNone result ((i o s : ℕ) → IsHeader line.now i o s → ⊥) }
{
    let (inputs, words) = split_once(after_word(line, b"net ")?, b' ')?;
    let (outputs, splitters) = split_once(words, b' ')?;
    match (
        read_whole(inputs),
        read_whole(outputs),
        read_whole(splitters),
    ) {
        (Some(inputs), Some(outputs), Some(splitters)) => Some(Sizes {
            inputs,
            outputs,
            splitters,
        }),
        _ => None,
    }
}
