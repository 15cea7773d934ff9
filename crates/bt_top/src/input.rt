//! How much of its input a command reads.
ghost use Rattle.std.specs.Prelude.{◌≡◌, map};
ghost use Rattle.bt_text.specs.Answers.{seen};
ghost use Rattle.bt_io.specs.Passages.{passage};
ghost use Rattle.bt_top.specs.Inputs.{ReadsInput, ReadsNothing, input_limit};

use bt_designs::MOST_CHECKED;
use bt_io::{ReadAll, Source, read_all};
use bt_words::Command;
use std::alloc::Global;

/// The most bytes that a command reads which wants one design or one request alone.
pub const MOST_OF_DESIGN: usize = 16_777_216;

/// The most bytes that `same` reads: two designs.
pub const MOST_OF_TWO: usize = 33_554_432;

/// The most bytes that a command reads.
fn input_limit(command: Command) -> usize
    ensures { result ≡ input_limit command }
{
    match command {
        Command::FlowCheck(_) | Command::Check(_) | Command::CheckLayout(..) | Command::CheckSame =>
            MOST_CHECKED,
        Command::Recover
        | Command::Decide(..)
        | Command::Layout(..)
        | Command::Smallest(..)
        | Command::FindSmall(..)
        | Command::FlowFormula(_)
        | Command::PlaceFormula(..) => MOST_OF_DESIGN,
        Command::Same(_) => MOST_OF_TWO,
        Command::Make(..) | Command::Build(..) => 0,
    }
}

/// The bytes of a command's input, of which `make` and `build` read none.
pub fn read_input<S: Source>(
    alloc: Global,
    command: Command,
    source: &mut S,
) -> Result<Vec<u8>, ReadAll>
    ensures input { ReadsInput command (passage S.left S.faults source.old source.new)
        (seen (λ bytes. bytes.items) result) }
    ensures unread { ReadsNothing command → source.new ≡ source.old }
{
    match command {
        Command::Make(..) | Command::Build(..) => Ok(Vec::new(alloc)),
        _ => read_all(alloc, source, input_limit(command)),
    }
}
