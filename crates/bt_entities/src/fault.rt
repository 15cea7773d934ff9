//! Why a JSON value is no blueprint of parts. Of several faults the one that stands first here is told.

ghost use Rattle.std.specs.Prelude.{◌≡◌};
ghost use Rattle.bt_entities.specs.declared.fault.EntityFault.TheVariants.{Memory};

use std::alloc::{AllocError, AllocFailed};
use std::marker::Model;

/// The text of an entity's `name` that is of no part. Contracts see its bytes.
#[derive(Drop)]
pub struct EntityName {
    text: String,
}

impl Model for EntityName {
    ghost use Rattle.std.specs.Prelude.{ℕ, List, string_bytes};

    ghost Value = { List ℕ };

    ghost view = { λ name. string_bytes name.text };
}

impl EntityName {
    ghost use Rattle.std.specs.Prelude.{string_bytes};

    /// The name with this text.
    pub(crate) fn new(text: String) -> EntityName
        ensures { result ≡ string_bytes text }
    {
        EntityName { text }
    }

    /// The text.
    pub fn as_str(&self) -> &str
        ensures { result.now ≡ self.now }
    {
        self.text.as_str()
    }

    /// The text, which takes no memory.
    pub fn into_string(self) -> String
        ensures { string_bytes result ≡ self }
    {
        self.text
    }
}

/// What of an entity is wrong or special: one of its members, or the entity itself.
#[derive(Clone, Copy, PartialEq, Eq)]
pub enum Member {
    /// The entity itself.
    Entity,
    /// `name`
    Name,
    /// `position`
    Position,
    /// `direction`
    Direction,
    /// `type`
    PieceType,
    /// `input_priority`
    InputPriority,
    /// `output_priority`
    OutputPriority,
    /// `control_behavior`
    ControlBehavior,
    /// `filter`
    Filter,
}

/// Why a JSON value is no blueprint of parts.
///
/// The faults stand in the order in which they are told. Those of an entity begin with its index:
/// the lowest entity comes first, and in one entity the fault that stands first here.
#[derive(Drop)]
pub enum EntityFault {
    /// The root is no object or has neither `blueprint` nor `blueprint_book`, or its `blueprint` is
    /// no object, or `entities` is there and no list, or `version` is there and no whole number.
    NotBlueprint,
    /// The root has a `blueprint_book` and no `blueprint`.
    Book,
    /// There are more entities than `MOST_ENTITIES`.
    TooMany,
    /// The entity's name, given here, is of no part.
    Unsupported(usize, EntityName),
    /// The entity's first wrong member: it is no object, or has no text as its `name`, no
    /// `position` with numbers `x` and `y`, or a `direction` that isn't one of its version; or an
    /// underground piece's `type` isn't `input` or `output`, or a splitter has a priority that isn't
    /// `none`, `left` or `right`.
    BadMember(usize, Member),
    /// A coordinate isn't a multiple of a half, or is more than `bt_json::MOST_HALVES` of them, or the
    /// entity isn't on the grid of entity 0.
    OffGrid(usize),
    /// The entity has `control_behavior` or `filter`, or is a splitter of a layout that prefers a side.
    Special(usize, Member),
    /// Memory ran out.
    Memory,
}

impl From<AllocError> for EntityFault {
    ghost from_gives = { λ _ e. e ≡ Memory };

    fn from(_e: AllocError) -> EntityFault {
        EntityFault::Memory
    }
}

impl<T: Drop> From<AllocFailed<T>> for EntityFault {
    ghost from_gives = { λ _ e. e ≡ Memory };

    fn from(_e: AllocFailed<T>) -> EntityFault {
        EntityFault::Memory
    }
}
