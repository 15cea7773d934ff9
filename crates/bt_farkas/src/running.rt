//! A running sum of products, whose steps fit or don't.
ghost use Rattle.std.specs.Prelude.{IfSome, IfNone};
ghost use Rattle.bt_farkas.specs.RunningSums.{AddsProduct, IsWideStep};

use bt_frac::Frac;

/// The sum with the product of two fractions added to it. None where the product or the addition leaves 128 bits.
pub fn add_product(sum: &Frac, left: &Frac, right: &Frac) -> Option<Frac>
    ensures some { IfSome result (AddsProduct sum.now (left.now, right.now)) }
    ensures none { IfNone result (IsWideStep sum.now (left.now, right.now)) }
{
    let Some(product) = left.mul(right) else {
        return None;
    };
    sum.add(&product)
}
