//! The lines of a state's text that hold a list: a word, and so many items, each after a space.
ghost use Rattle.std.specs.Prelude.{◌≡◌, ℕ, List, IfOk, IfErr, IfSome, IfNone};
ghost use Rattle.bt_flow.specs.StateLines.{SpellsItems, Follows};
ghost use Rattle.bt_flow.specs.Parts.{IsListLine};
ghost use Rattle.bt_flow.specs.inner.Lines.{IsLineFault, StopsAtList, LeadsToItem, HaveNoSpace};

use crate::fault::StateFault;
use crate::reading::item::Item;
use crate::reading::line::next_line;
use bt_text::{after_word, next_piece};
use std::alloc::Global;

/// The list on the next line of a text, which has this number, begins with this word and has `count` items; and what
/// follows the line. `CertLine` names the line where it isn't so or is missing.
pub fn read_list<'a, T: Item>(
    alloc: Global,
    text: &'a [u8],
    number: usize,
    word: &[u8],
    count: usize,
) -> Result<(Vec<T>, &'a [u8]), StateFault>
    requires { HaveNoSpace T.can_stand T.word }
    ensures ok { IfOk result (λ r. IsListLine T.can_stand T.word word.now count text.now r.0.items r.1.now) }
    ensures err { IfErr result (IsLineFault number (StopsAtList T.can_stand T.word word.now count text.now)) }
{
    let (line, rest) = next_line(text, number)?;
    let items = named_items(alloc, line, number, word, count)?;
    Ok((items, rest))
}

/// The `count` items of a line after its word. `CertLine` names the line's number where it isn't so.
fn named_items<T: Item>(
    alloc: Global,
    line: &[u8],
    number: usize,
    word: &[u8],
    count: usize,
) -> Result<Vec<T>, StateFault>
    requires { HaveNoSpace T.can_stand T.word }
    ensures ok { IfOk result (λ v. Follows word.now line.now (SpellsItems T.can_stand T.word count) v.items) }
    ensures err { IfErr result (IsLineFault number ((items : List T) →
        Follows word.now line.now (SpellsItems T.can_stand T.word count) items → ⊥)) }
{
    match after_word(line, word) {
        Some(text) => read_items(alloc, text, number, count),
        None => Err(StateFault::CertLine(number)),
    }
}

/// `count` items, each after a space, and nothing more. `CertLine` names the line's number where it isn't so.
fn read_items<T: Item>(
    alloc: Global,
    text: &[u8],
    number: usize,
    count: usize,
) -> Result<Vec<T>, StateFault>
    requires { HaveNoSpace T.can_stand T.word }
    ensures ok { IfOk result (λ v. SpellsItems T.can_stand T.word count text.now v.items) }
    ensures err { IfErr result (IsLineFault number ((items : List T) →
        SpellsItems T.can_stand T.word count text.now items → ⊥)) }
{
    let mut items = Vec::new(alloc);
    let mut rest = text;
    for _ in 0..count {
        let Some((item, after)) = next_item(rest) else {
            return Err(StateFault::CertLine(number));
        };
        items.push(item)?;
        rest = after;
    }
    if rest.is_empty() {
        Ok(items)
    } else {
        Err(StateFault::CertLine(number))
    }
}

/// The item whose word comes next behind a space, and what follows it. None where the text begins otherwise.
fn next_item<T: Item>(text: &[u8]) -> Option<(T, &[u8])>
    ensures some { IfSome result (λ parts. LeadsToItem T.can_stand T.word text.now parts.0 parts.1.now) }
    ensures none { IfNone result ((x : T) (rest : List ℕ) →
        LeadsToItem T.can_stand T.word text.now x rest → ⊥) }
{
    let Some((word, rest)) = next_piece(text, b' ') else {
        return None;
    };
    match T::read(word) {
        Some(item) => Some((item, rest)),
        None => None,
    }
}
