//! A law of hands, as the contract of a function that does nothing.
ghost use Rattle.std.specs.Prelude.{◌≡◌};
ghost use Rattle.bt_parts.specs.declared.part.Cell.{Cell};
ghost use Rattle.bt_parts.specs.declared.part.Dir.{Dir};
ghost use Rattle.bt_parts.specs.Cells.{step};
ghost use Rattle.bt_parts.specs.Hands.{left_of, half_on};
ghost use Rattle.bt_parts.specs.declared.hand.Hand.TheVariants.{Left, Right};

/// The half on the left hand is the next cell to the left of the half on the right hand.
pub fn left_of_right()
    ensures { (dir : Dir) (cell : Cell)
        → half_on Left dir cell ≡ step (left_of dir) (half_on Right dir cell) }
{}
