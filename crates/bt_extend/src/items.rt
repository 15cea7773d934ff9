//! The lists of a line: items, each after a space.
ghost use Rattle.std.specs.Prelude.{All, IfOk, IfSome, IfNone};
ghost use Rattle.bt_extend.specs.Items.{LeadsToItem, LeadsToNone, StopsAfter};

use crate::item::Item;
use bt_text::next_piece;
use std::alloc::AllocError;

/// Reads items, each after a space, as long as there are such, in place of those that the list had. It
/// gives what follows them.
pub fn read_items<'a, T: Item>(items: &mut Vec<T>, text: &'a [u8]) -> Result<&'a [u8], AllocError>
    ensures stand { All T.can_stand items.new.items }
    ensures rest { IfOk result (λ rest. StopsAfter T.can_stand T.word text.now items.new.items rest.now) }
{
    items.clear();
    let mut rest = text;
    while let Some((item, after)) = next_item(rest) {
        items.push(item)?;
        rest = after;
    }
    Ok(rest)
}

/// The item whose word comes next, after a space, and what follows the word.
pub fn next_item<T: Item>(text: &[u8]) -> Option<(T, &[u8])>
    ensures some { IfSome result (λ parts. LeadsToItem T.can_stand T.word text.now parts.0 parts.1.now) }
    ensures none { IfNone result (LeadsToNone T.can_stand T.word text.now) }
{
    let (word, rest) = next_piece(text, b' ')?;
    let item = T::read(word)?;
    Some((item, rest))
}
