//! The pairs of a grid's underground pieces, or the first piece that is in none.

ghost use Rattle.std.specs.Prelude.{◌≡◌, ◌↔◌, IsTrue};
ghost use Rattle.bt_text.specs.Answers.{Answers};
ghost use Rattle.bt_parts.specs.Layouts.{IsUnderground};
ghost use Rattle.bt_recover.specs.Pairing.{ArePairedAs};
ghost use Rattle.bt_recover.specs.declared.pairing.PairFault.TheVariants.{Memory};

use crate::grid::Grid;
use crate::partners::Pairs;
use bt_parts::{Part, is_underground, other_end};
use std::alloc::{AllocError, Global};

/// Why the underground pieces can't all be paired. The number is a place in the list of parts.
#[derive(Clone, Copy, PartialEq, Eq)]
pub enum PairFault {
    /// The underground piece with this index is in no pair, and each one before it is in one.
    Unpaired(usize),

    /// There is no memory.
    Memory,
}

impl From<AllocError> for PairFault {
    ghost use Rattle.std.specs.Prelude.{◌≡◌};
    ghost use Rattle.bt_recover.specs.declared.pairing.PairFault.TheVariants.{Memory};

    ghost from_gives = { λ _ fault. fault ≡ Memory };

    fn from(_: AllocError) -> PairFault {
        PairFault::Memory
    }
}

/// Whether the part is an underground piece without a partner.
fn is_alone(part: &Part, partner: Option<usize>) -> bool
    ensures { IsTrue result ↔ ((partner ≡ None) × IsUnderground part.now) }
{
    partner.is_none() && is_underground(part)
}

/// Finds the other end of each underground piece's pair, as `bt_parts::other_end` says what one is.
///
/// It takes O(n log n) steps for n parts.
///
/// # Errors
///
/// The first underground piece that is in no pair.
#[tactic(auto, using(crate::proofs::OneAnswer::paired_answers))]
pub fn pairs(alloc: Global, grid: &Grid) -> Result<Pairs, PairFault>
    ensures { Answers Memory (ArePairedAs grid.now) result }
{
    let parts = grid.parts();
    let mut partners = Vec::with_capacity(alloc, parts.len())?;
    for (i, part) in parts.iter().enumerate() {
        let partner = other_end(grid, i);
        if is_alone(part, partner) {
            return Err(PairFault::Unpaired(i));
        }
        if partners.push(partner).is_err() {
            return Err(PairFault::Memory);
        }
    }
    Ok(Pairs::new(partners))
}
