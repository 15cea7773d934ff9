//! A law of sums of rows, as the contract of a function that does nothing.
ghost use Rattle.bt_farkas.specs.Laws.{FalseSumsFail};

/// No values meet all rows of a sum that no values meet: what makes `farkas` worth asking. The values are any
/// fractions, also such as leave 128 bits.
pub fn false_sums_fail()
    ensures { FalseSumsFail }
{}
