//! In which other rectangles a network that has a layout has one.
ghost use Rattle.bt_model.specs.Extending.{Extends, ExtendsExchanged, HasNoneInside};

/// A layout without pins, sides, rows and blocks extends to every greater rectangle.
pub fn extends()
    ensures { Extends }
{}

/// Where a request without pins, sides, rows and blocks has a layout in a rectangle, it has one in the rectangle whose
/// width is that height and whose height is that width.
pub fn is_exchanged()
    ensures { ExtendsExchanged }
{}

/// Where a request without pins, sides, rows and blocks has no layout in a rectangle, it has none in any that fits into
/// it, as it is or turned.
pub fn none_inside()
    ensures { HasNoneInside }
{}
