//! The lines that say that ends stand in a row.
ghost use Rattle.std.specs.Prelude.{◌≡◌, IfSome, IfNone};
ghost use Rattle.bt_net.specs.declared.network.EndKind.{EndKind};
ghost use Rattle.bt_net.specs.declared.network.Row.{Row};
ghost use Rattle.bt_net.specs.PinText.{kind_text, IsRowLine};

use crate::network::{EndKind, Row};
use crate::words::is_word;
use bt_text::after_word;

/// The row that a line `row inputs` or `row outputs` with this number asks for. None where it is another line.
pub fn read_row(number: usize, line: &[u8]) -> Option<Row>
    ensures some { IfSome result (IsRowLine number line.now) }
    ensures none { IfNone result ((row : Row) → IsRowLine number line.now row → ⊥) }
{
    let kind = read_kind(after_word(line, b"row ")?)?;
    Some(Row { kind, line: number })
}

/// The kind of ends that a word names, `inputs` or `outputs`. None where it is another word.
fn read_kind(word: &[u8]) -> Option<EndKind>
    ensures some { IfSome result (λ kind. word.now ≡ kind_text kind) }
    ensures none { IfNone result ((kind : EndKind) → word.now ≡ kind_text kind → ⊥) }
{
    if is_word(word, b"inputs") {
        Some(EndKind::Inputs)
    } else if is_word(word, b"outputs") {
        Some(EndKind::Outputs)
    } else {
        None
    }
}
