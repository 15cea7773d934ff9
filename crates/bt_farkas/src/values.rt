//! Whether a row holds of given values.
ghost use Rattle.std.specs.Prelude.{◌<◌, length, IsTrue, ◌↔◌};
ghost use Rattle.std.specs.List.{All};
ghost use Rattle.bt_text.specs.Answers.{AnswersAlways};
ghost use Rattle.bt_frac.specs.Values.{Stands};
ghost use Rattle.bt_farkas.specs.Evaluation.{IsEvaluation};

use crate::running::add_product;
use crate::wide::WideAt;
use bt_frac::{Frac, Relation, Row};
use std::cmp::Ordering;

/// Whether a row holds of values, one for each column from 0 on.
///
/// The sum starts at 0 and takes the columns in ascending order. The error names the first column whose product or
/// running sum leaves 128 bits, with row 0.
pub fn eval(row: &Row, values: &[Frac]) -> Result<bool, WideAt>
    requires { All (λ t. t.0 < length values.now) row.now.terms }
    ensures { AnswersAlways (IsEvaluation row.now values.now) result }
{
    let mut sum = Frac::whole(0);
    for (column, coefficient) in row.terms() {
        let Some(next) = add_product(&sum, coefficient, &values[*column]) else {
            return Err(WideAt {
                row: 0,
                column: *column,
            });
        };
        sum = next;
    }
    Ok(stands(row.relation(), &sum, &row.bound()))
}

/// Whether a sum stands to a bound as a relation says.
fn stands(relation: Relation, sum: &Frac, bound: &Frac) -> bool
    ensures { IsTrue result ↔ Stands relation sum.now bound.now }
{
    let order = sum.compare(bound);
    match relation {
        Relation::AtLeast => order != Ordering::Less,
        Relation::Above => order == Ordering::Greater,
        Relation::Equal => order == Ordering::Equal,
    }
}
