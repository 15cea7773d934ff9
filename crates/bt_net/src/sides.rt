//! The lines that say at which sides ends stand.
ghost use Rattle.std.specs.Prelude.{◌≡◌, ◌↔◌, IsTrue, IfSome, IfNone};
ghost use Rattle.bt_net.specs.declared.network.Ends.{Ends};
ghost use Rattle.bt_net.specs.declared.network.Side.{Side};
ghost use Rattle.bt_net.specs.PinText.{ends_text, HasEnds, IsSideLine};
ghost use Rattle.bt_net.specs.Wiring.{HasSmallSizes};
ghost use Rattle.bt_net.specs.inner.Lines.{EndsFit};

use crate::network::{Ends, Side};
use crate::pins::{read_dir, read_end};
use crate::wiring::Wiring;
use crate::words::is_word;
use bt_text::{after_word, split_once};

/// The side of a line `side E D` with this number. None where it is another line, or names an end that the network
/// lacks.
pub fn read_side(wiring: &Wiring, number: usize, line: &[u8]) -> Option<Side>
    requires { HasSmallSizes wiring.now }
    ensures some { IfSome result (IsSideLine wiring.now number line.now) }
    ensures none { IfNone result ((side : Side) → IsSideLine wiring.now number line.now side → ⊥) }
{
    let (ends, way) = split_once(after_word(line, b"side ")?, b' ')?;
    let ends = read_ends(ends)?;
    let dir = read_dir(way)?;
    if !has_ends(wiring, ends) {
        return None;
    }
    Some(Side {
        ends,
        dir,
        line: number,
    })
}

/// The ends that a word names: `inputs` or `outputs` for each of a kind, or a single end. None where it is another
/// word.
fn read_ends(word: &[u8]) -> Option<Ends>
    ensures some { IfSome result (λ ends. word.now ≡ ends_text ends) }
    ensures fits { IfSome result EndsFit }
    ensures none { IfNone result ((ends : Ends) → EndsFit ends → word.now ≡ ends_text ends → ⊥) }
{
    if is_word(word, b"inputs") {
        return Some(Ends::Inputs);
    }
    if is_word(word, b"outputs") {
        return Some(Ends::Outputs);
    }
    Some(Ends::One(read_end(word)?))
}

/// Whether the network has the ends that are named: all inputs, or all outputs, always are there.
fn has_ends(wiring: &Wiring, ends: Ends) -> bool
    ensures { IsTrue result ↔ HasEnds wiring.now ends }
{
    match ends {
        Ends::One(end) => wiring.has_end(end),
        Ends::Inputs | Ends::Outputs => true,
    }
}
