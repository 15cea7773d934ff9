//! The words for a grid and for a tier.
ghost use Rattle.std.specs.Prelude.{◌≡◌, ◌↔◌, ◌≤◌, ℕ, Some, MatchOption, decimal};
ghost use Rattle.bt_model.specs.declared.request.TheConstants.{MOST_ACROSS};
ghost use Rattle.bt_parts.specs.declared.part.Rect.{Rect as ARect};
ghost use Rattle.bt_parts.specs.declared.part.Tier.{Tier as ATier};
ghost use Rattle.bt_words.specs.Arguments.{IsGridWord, tier_name};

use crate::number::number_up_to;
use bt_model::MOST_ACROSS;
use bt_parts::{Rect, Tier};
use bt_text::split_once;

/// The grid that a word is: its width, `x` and its height. None where the word is none.
pub fn grid_of(word: &[u8]) -> Option<Rect>
    ensures { MatchOption result ((grid : ARect) → IsGridWord grid word.now → ⊥)
        (λ grid. IsGridWord grid word.now) }
{
    let (width, height) = split_once(word, b'x')?;
    let width = across(width)?;
    let height = across(height)?;
    Some(Rect { width, height })
}

/// The number of cells, from 1 to `MOST_ACROSS`, that a word is. None where the word is none such.
fn across(word: &[u8]) -> Option<u32>
    ensures { MatchOption result ((n : ℕ) → 1 ≤ n → n ≤ MOST_ACROSS → word.now ≡ decimal n → ⊥)
        (λ n. (1 ≤ n) × (n ≤ MOST_ACROSS) × (word.now ≡ decimal n)) }
{
    let cells = number_up_to(u64::from(MOST_ACROSS), word)?;
    if cells >= 1 { Some(cells as u32) } else { None }
}

/// The tier with this name, where one has it.
pub fn tier_named(name: &[u8]) -> Option<Tier>
    ensures { (t : ATier) → (result ≡ Some t) ↔ (name.now ≡ tier_name t) }
{
    match name {
        b"basic" => Some(Tier::Basic),
        b"fast" => Some(Tier::Fast),
        b"express" => Some(Tier::Express),
        b"turbo" => Some(Tier::Turbo),
        _ => None,
    }
}
