//! What a network, whose edges have the cap 1 and whose splitters prefer no edge, keeps when outputs are led back to
//! inputs.
ghost use Rattle.bt_gen.specs.Loops.{UnlimitedIsKept, BalancedIsKept, DrawnEvenlyIsKept};

/// Where outputs of an unlimited network are led back to as many inputs, the network that is left is unlimited.
pub fn unlimited_led_back()
    ensures { UnlimitedIsKept }
{}

/// Where outputs of an unlimited and balanced network are led back, the network that is left is balanced.
pub fn balanced_led_back()
    ensures { BalancedIsKept }
{}

/// Where outputs of an unlimited network that draws evenly are led back, the network that is left draws evenly.
pub fn drawn_evenly_led_back()
    ensures { DrawnEvenlyIsKept }
{}
