//! Extending a formula by definitions, one after another.
ghost use Rattle.std.specs.Prelude.{◌≡◌, IfOk, OnErr, OnOk};
ghost use Rattle.bt_extend.specs.Extending.{AreTaken, extended};
ghost use Rattle.bt_extend.specs.inner.Taking.{IsTaken};

use crate::definition::{Definition, is_definition};
use crate::extension::add_definition;
use bt_cnf::Formula;
use std::alloc::{AllocError, Global};

/// The formula that definitions extend in their order, up to the first that may not extend it with those before it. That
/// one and those behind it are dropped; where memory runs out, none is.
pub fn extend_all(
    alloc: Global,
    mut formula: Formula,
    definitions: &mut Vec<Definition>,
) -> Result<Formula, AllocError>
    ensures taken { OnOk result (AreTaken formula definitions.old.items definitions.new.items) }
    ensures formula { IfOk result (λ f. f ≡ extended formula definitions.new.items) }
    ensures kept { OnErr result (definitions.new.items ≡ definitions.old.items) }
{
    let count = extend_by(alloc, &mut formula, definitions)?;
    definitions.truncate(count);
    Ok(formula)
}

/// Adds what definitions say in their order, and tells by how many: up to the first that may not extend the formula.
fn extend_by(
    alloc: Global,
    formula: &mut Formula,
    definitions: &[Definition],
) -> Result<usize, AllocError>
    ensures { IfOk result (IsTaken formula.old definitions.now formula.new) }
{
    for (place, definition) in definitions.iter().enumerate() {
        if !is_definition(formula, definition) {
            return Ok(place);
        }
        add_definition(alloc, formula, definition)?;
    }
    Ok(definitions.len())
}
