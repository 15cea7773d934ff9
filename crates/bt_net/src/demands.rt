//! The lines that may stand behind those of the edges.
ghost use Rattle.std.specs.Prelude.{IfSome, IfNone};
ghost use Rattle.bt_net.specs.declared.network.Block.{Block as ABlock};
ghost use Rattle.bt_net.specs.declared.network.Demand.{Demand as ADemand};
ghost use Rattle.bt_net.specs.PinText.{IsDemandLine, IsDemandHere, IsBlockHere};
ghost use Rattle.bt_net.specs.Wiring.{HasSmallSizes};

use crate::network::{Admitted, Block, Demand};
use crate::pins::{read_block, read_pin};
use crate::rows::read_row;
use crate::sides::read_side;
use crate::wiring::Wiring;

/// The pin, the side or the row of a line with this number. None where such a line is not admitted, where it is another
/// line, or where it names an end that the network lacks.
pub fn demand_here(
    admitted: Admitted,
    wiring: &Wiring,
    number: usize,
    line: &[u8],
) -> Option<Demand>
    requires { HasSmallSizes wiring.now }
    ensures some { IfSome result (IsDemandHere admitted wiring.now number line.now) }
    ensures none { IfNone result
        ((d : ADemand) → IsDemandHere admitted wiring.now number line.now d → ⊥) }
{
    match admitted {
        Admitted::Nothing | Admitted::Priorities => None,
        Admitted::Sides => side_or_row(wiring, number, line),
        Admitted::All => read_demand(wiring, number, line),
    }
}

/// The side or the row of a line with this number. None where it is another line, or names an end that the network
/// lacks.
fn side_or_row(wiring: &Wiring, number: usize, line: &[u8]) -> Option<Demand>
    requires { HasSmallSizes wiring.now }
    ensures some { IfSome result (IsDemandHere Admitted.Sides wiring.now number line.now) }
    ensures none { IfNone result
        ((d : ADemand) → IsDemandHere Admitted.Sides wiring.now number line.now d → ⊥) }
{
    match read_side(wiring, number, line) {
        Some(side) => Some(Demand::Side(side)),
        None => match read_row(number, line) {
            Some(row) => Some(Demand::Row(row)),
            None => None,
        },
    }
}

/// The pin, the side or the row of a line with this number. None where it is another line, or names an end that the
/// network lacks.
fn read_demand(wiring: &Wiring, number: usize, line: &[u8]) -> Option<Demand>
    requires { HasSmallSizes wiring.now }
    ensures some { IfSome result (IsDemandLine wiring.now number line.now) }
    ensures none { IfNone result ((d : ADemand) → IsDemandLine wiring.now number line.now d → ⊥) }
{
    match read_pin(wiring, number, line) {
        Some(pin) => Some(Demand::Pin(pin)),
        None => side_or_row(wiring, number, line),
    }
}

/// The block of a line with this number. None where blocks are not admitted, or it is another line.
pub fn block_here(admitted: Admitted, number: usize, line: &[u8]) -> Option<Block>
    ensures some { IfSome result (IsBlockHere admitted number line.now) }
    ensures none { IfNone result ((block : ABlock) → IsBlockHere admitted number line.now block → ⊥) }
{
    match admitted {
        Admitted::All => read_block(number, line),
        Admitted::Nothing | Admitted::Priorities | Admitted::Sides => None,
    }
}
