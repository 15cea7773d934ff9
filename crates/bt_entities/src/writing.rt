//! The text of a blueprint, entity by entity.
ghost use Rattle.std.specs.Prelude.{◌≡◌, IfOk};
ghost use Rattle.bt_parts.specs.Hands.{priority_of};
ghost use Rattle.bt_entities.specs.Written.{blueprint_text};

use crate::entity::push_entity;
use crate::version::version_for;
use bt_parts::{Part, Priority};
use std::alloc::{AllocError, Global};

/// The blueprint of these parts with these priorities, none where there are fewer: one line of uncompressed JSON
/// without blanks, which ends with a line feed. The entities stand in the order of the parts and are numbered from 1,
/// and their directions are in eighths of a turn, as in the older version of the game that is named there; or in
/// sixteenths, as in the newer one, where some part is of the turbo tier, which the older one lacks.
pub fn text_of(
    alloc: Global,
    parts: &[Part],
    priorities: &[Priority],
) -> Result<Vec<u8>, AllocError>
    ensures { IfOk result (λ text. text.items ≡ blueprint_text parts.now priorities.now) }
{
    let version = version_for(parts);
    let front = b"{\"blueprint\":{\"item\":\"blueprint\",\"entities\":[";
    let mut text = Vec::from_slice(alloc, front)?;
    for (i, part) in parts.iter().enumerate() {
        push_entity(&mut text, version, i, *part, priority_at(priorities, i))?;
    }
    text.extend_from_slice(version.end())?;
    Ok(text)
}

/// The priority of the part with this index: none, where there are fewer.
fn priority_at(priorities: &[Priority], index: usize) -> Priority
    ensures { result ≡ priority_of priorities.now index }
{
    match priorities.get(index) {
        Some(priority) => *priority,
        None => Priority {
            give: None,
            take: None,
        },
    }
}
