//! Where the positions of a tableau rest, as small whole numbers, which sums and tests of many positions read in place
//! of the rows. A position rests where it stands while it is outside the basis: a bound row at its bound, and the
//! infinitesimal above it where it asks for more, and any other position at 0.
ghost use Rattle.std.specs.Prelude.{◌≡◌, IfOk, IfSome, Some, replicate};
ghost use Rattle.bt_pivot.specs.inner.Rests.{nowhere, IsRestOf};

use bt_frac::{Relation, Row};
use std::alloc::{AllocError, Global};

/// Where a position rests, in whole numbers.
#[derive(Clone, Copy)]
pub struct Rest {
    pub value: i32,
    /// How often the infinitesimal stands in it.
    pub tiny: i32,
    /// The relation of the row, where the position is a bound one.
    pub relation: Option<Relation>,
}

impl Rest {
    /// Where a position rests that is no bound row: at 0.
    pub fn free() -> Rest
        ensures { result ≡ nowhere }
    {
        Rest {
            value: 0,
            tiny: 0,
            relation: None,
        }
    }

    /// Where a bound row rests: at its bound, and above it by the infinitesimal where it asks for more than the bound.
    /// None where the bound isn't a whole number of 32 bits.
    pub fn at_bound(row: &Row) -> Option<Rest>
        ensures { IfSome result (IsRestOf (Some row.now)) }
    {
        let bound = row.bound();
        if bound.denominator() != 1 {
            return None;
        }
        let value = i32::try_from(bound.numerator()).ok()?;
        let relation = row.relation();
        let tiny = match relation {
            Relation::AtLeast => 0,
            Relation::Above => 1,
            Relation::Equal => 0,
        };
        Some(Rest {
            value,
            tiny,
            relation: Some(relation),
        })
    }
}

/// Where each of `count` positions rests, of which none is a bound row.
pub fn all_free(alloc: Global, count: usize) -> Result<Vec<Option<Rest>>, AllocError>
    ensures { IfOk result (λ v. v.items ≡ replicate count (Some nowhere)) }
{
    let mut rests = Vec::with_capacity(alloc, count)?;
    for _ in 0..count {
        rests.push(Some(Rest::free()))?;
    }
    Ok(rests)
}
