//! Which way belts of a block go.

/// Along the edges of a butterfly, or against them in a block that is turned upside down.
#[derive(Clone, Copy, PartialEq, Eq)]
pub enum Sense {
    Onward,
    Against,
}
