//! What a line of a state's text may list: fractions and marks.
ghost use Rattle.std.specs.Prelude.{◌≡◌, ℕ, List, IfSome, IfNone};

use bt_frac::Frac;

/// A value that a list has as a word.
pub trait Item: Drop {
    // Whether the value may stand in a list.
    ghost can_stand: { Self → Type 0 };

    // The word for the value.
    ghost word: { Self → List ℕ };

    /// The value for which these bytes are the word. None where they are no such word.
    fn read(bytes: &[u8]) -> Option<Self>
        ensures some { IfSome result (λ x. can_stand x × (bytes.now ≡ word x)) }
        ensures none { IfNone result ((x : Self) → can_stand x → bytes.now ≡ word x → ⊥) };
}

impl Item for Frac {
    ghost use Rattle.bt_frac.specs.Ratio.{IsLowest};
    ghost use Rattle.bt_frac.specs.Texts.{frac_text};

    ghost can_stand = { IsLowest };

    ghost word = { frac_text };

    fn read(bytes: &[u8]) -> Option<Frac> {
        Frac::read(bytes)
    }
}

/// Whether an edge is backed: `b` where it is, and `f` where it is free.
impl Item for bool {
    ghost use Rattle.std.specs.Prelude.{⊤};
    ghost use Rattle.bt_flow.specs.StateText.{mark_text};

    ghost can_stand = { λ _. ⊤ };

    ghost word = { mark_text };

    fn read(bytes: &[u8]) -> Option<bool> {
        match bytes {
            b"f" => Some(false),
            b"b" => Some(true),
            _ => None,
        }
    }
}
