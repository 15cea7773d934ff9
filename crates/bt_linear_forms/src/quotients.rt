//! The quotients of a line's numbers, and the line of them that is 0 wherever the line holds of its position.
ghost use Rattle.std.specs.Prelude.{◌≡◌, ◌≢◌, ◌<◌, ◌-◌, ◌^◌, pos, IfOk, IfErr, None};
ghost use Rattle.bt_frac.specs.Ratio.{IsLowest};
ghost use Rattle.bt_farkas.specs.WeightedRows.{coefficient_at};
ghost use Rattle.bt_linear_forms.specs.Lines.{IsLine, HasNumber};
ghost use Rattle.bt_linear_forms.specs.Substituting.{IsZeroLine};
ghost use Rattle.bt_linear_forms.specs.inner.Shares.{IsNegatedShare, AreNegatedShares};
ghost use Rattle.bt_linear_forms.specs.Unfits.{IsUnfitShare, IsUnfitTerm, IsUnfitZero};

use crate::line::{Line, combined};
use crate::term::Term;
use crate::unfit::{Operation, Unfit};
use bt_frac::Frac;
use std::alloc::{AllocError, Global};

/// The term of a position with the negated quotient of two numbers; or the quotient that leaves 128 bits.
fn negated_share(position: usize, number: &Frac, by: &Frac) -> Result<Term, Unfit>
    requires { by.now.over ≢ pos 0 }
    ensures share { IfOk result (IsNegatedShare by.now (position, number.now)) }
    ensures unfit { IfErr result (IsUnfitShare position number.now by.now) }
{
    let Some(share) = number.div(by) else {
        return Err(Unfit {
            column: position,
            operation: Operation::Div,
            left: *number,
            right: *by,
        });
    };
    Ok((position, share.negate()))
}

/// The negated quotients of all terms by a number; or a quotient that leaves 128 bits.
fn divided(alloc: Global, terms: &[Term], by: &Frac) -> Result<Result<Vec<Term>, Unfit>, AllocError>
    requires line { IsLine terms.now }
    requires lowest { IsLowest by.now }
    requires some { by.now.over ≢ pos 0 }
    ensures shares { IfOk result (λ o. IfOk o (λ v. AreNegatedShares by.now terms.now v.items)) }
    ensures unfit { IfOk result (λ o. IfErr o (IsUnfitTerm terms.now by.now)) }
{
    let mut shares = Vec::with_capacity(alloc, terms.len())?;
    for (position, number) in terms {
        match negated_share(*position, number, by) {
            Ok(share) => shares.push(share)?,
            Err(unfit) => return Ok(Err(unfit)),
        }
    }
    Ok(Ok(shares))
}

/// The line that is 0 wherever the line of these terms gives what stands at `position`: the position less the line,
/// divided by `number`, which the line has at the position that enters. Or a quotient that leaves 128 bits.
pub fn zero_line(
    alloc: Global,
    position: usize,
    terms: &[Term],
    number: &Frac,
) -> Result<Result<Line, Unfit>, AllocError>
    requires position { position < 2 ^ 64 - 1 }
    requires line { IsLine terms.now }
    requires number { HasNumber (position, number.now) }
    requires lacks { coefficient_at position terms.now ≡ None }
    ensures zero { IfOk result (λ o. IfOk o (IsZeroLine position terms.now number.now)) }
    ensures unfit { IfOk result (λ o. IfErr o (IsUnfitZero position terms.now number.now)) }
{
    let shares = match divided(alloc, terms, number)? {
        Ok(shares) => shares,
        Err(unfit) => return Ok(Err(unfit)),
    };
    match negated_share(position, &Frac::whole(-1), number) {
        Ok(share) => combined(alloc, &[share], &Frac::whole(1), &shares),
        Err(unfit) => Ok(Err(unfit)),
    }
}
