//! From the JSON value of a text to the parts of its blueprint: the root's own members, then one entity
//! after another, since entity 0 sets the grid of all.

ghost use Rattle.std.specs.Prelude.{◌≡◌, ◌⊎◌, ℕ, List, map, codes, MatchOption, MatchResult};
ghost use Rattle.bt_text.specs.Answers.{seen, UnlessMemory, Answers};
ghost use Rattle.bt_json.specs.Json.{Json};
ghost use Rattle.bt_json.specs.Stands.{json_of};
ghost use Rattle.bt_entities.specs.declared.fault.EntityFault.TheVariants.{Memory};
ghost use Rattle.bt_entities.specs.Members.{HasMember, IsObject};
ghost use Rattle.bt_entities.specs.Entities.{SetsShift, IsEntity};
ghost use Rattle.bt_entities.specs.Blueprints.{HasEntities, HasMajor, IsVersion, IsBlueprint};
ghost use Rattle.bt_entities.specs.declared.fault.Member.{Member};
ghost use Rattle.bt_entities.specs.Refusals.{HasWrong, IsList, IsLowest};
ghost use Rattle.bt_entities.specs.Answers.{IsPartsOf, IsReadOf, IsPrioritisedOf, parts_in, parts_and_priorities_in};
ghost use Rattle.bt_entities.specs.inner.Pieces.{special_of, IsPiece, IsFirstShift, IsEntityRead, AreRead, RefusesRoot};

use crate::fault::EntityFault;
use crate::member::{as_list, as_number, has_member, is_object, member};
use crate::piece::{Piece, Reading, piece_of};
use crate::shift::Shift;
use bt_json::Tree;
use bt_parts::{Part, Priority};
use std::alloc::Global;

/// The most entities of a blueprint that is read.
pub const MOST_ENTITIES: usize = 16384;

/// The parts of a blueprint, and the priorities of each: one that is no splitter has none.
#[derive(Drop)]
pub struct Prioritised {
    /// In the order of the entities.
    pub parts: Vec<Part>,
    /// In the same order.
    pub priorities: Vec<Priority>,
}

/// A blueprint's major version and its entities.
#[derive(Clone, Copy)]
struct Blueprint<'a> {
    major: u64,
    entities: &'a [Tree],
}

/// The member `blueprint` of the root. A root that has a `blueprint_book` in its place is a book; where the member is
/// missing otherwise, or is no object, there is no blueprint.
fn blueprint_member(root: &Tree) -> Result<&Tree, EntityFault>
    ensures { MatchResult result
        (λ b. HasMember (json_of root.now) (codes "blueprint") (json_of b.now) × IsObject (json_of b.now))
        (RefusesRoot (json_of root.now)) }
{
    match member(root, "blueprint") {
        Some(blueprint) => {
            if is_object(blueprint) {
                Ok(blueprint)
            } else {
                Err(EntityFault::NotBlueprint)
            }
        }
        None => {
            if has_member(root, "blueprint_book") {
                Err(EntityFault::Book)
            } else {
                Err(EntityFault::NotBlueprint)
            }
        }
    }
}

/// The entities of a blueprint, which are none where it lacks that member. None where the member is no list.
fn entities_of(blueprint: &Tree) -> Option<&[Tree]>
    ensures { MatchOption result (HasWrong (json_of blueprint.now) (codes "entities") IsList)
        (λ entities. HasEntities (json_of blueprint.now) (map json_of entities.now)) }
{
    match member(blueprint, "entities") {
        Some(entities) => as_list(entities),
        None => Some(&[]),
    }
}

/// The major number of a blueprint's version, whose lower 48 bits are the minor numbers; 1 where it names no version.
/// None where the version is no whole number of 64 bits.
fn major_of(blueprint: &Tree) -> Option<u64>
    ensures { MatchOption result
        (HasWrong (json_of blueprint.now) (codes "version") (λ v. (major : ℕ) × IsVersion v major))
        (HasMajor (json_of blueprint.now)) }
{
    let Some(version) = member(blueprint, "version") else {
        return Some(1);
    };
    let Some(number) = as_number(version) else {
        return None;
    };
    let Some(whole) = number.whole() else {
        return None;
    };
    Some(whole / (1 << 48))
}

/// The major version and the entities of the root's blueprint, or why it has none.
fn blueprint_of(root: &Tree) -> Result<Blueprint, EntityFault>
    ensures { MatchResult result
        (λ b. IsBlueprint (json_of root.now) b.major (map json_of b.entities.now))
        (RefusesRoot (json_of root.now)) }
{
    let blueprint = blueprint_member(root)?;
    let Some(entities) = entities_of(blueprint) else {
        return Err(EntityFault::NotBlueprint);
    };
    let Some(major) = major_of(blueprint) else {
        return Err(EntityFault::NotBlueprint);
    };
    Ok(Blueprint { major, entities })
}

/// The shift that is set, or else the one that the piece sets as entity 0. It sets none where its centre is off the
/// grid.
fn shift_by(set: Option<Shift>, place: usize, piece: &Piece) -> Result<Shift, EntityFault>
    ensures { (major : ℕ) (first v : Json) → IsPiece major v piece.now → IsFirstShift major first v set
        → MatchResult result (SetsShift major first)
        (λ fault. (members : List Member) → IsLowest members major first place v fault) }
{
    if let Some(shift) = set {
        return Ok(shift);
    }
    match piece.shift() {
        Some(shift) => Ok(shift),
        None => Err(EntityFault::OffGrid(place)),
    }
}

/// The part of the entity with this index, which was read as this piece. There is none where it is off the grid with
/// this shift, or has a member that makes it special where it is read so.
fn part_of(
    reading: Reading,
    shift: Shift,
    place: usize,
    entity: &Tree,
    piece: &Piece,
) -> Result<Part, EntityFault>
    ensures { (major : ℕ) (first : Json) → IsPiece major (json_of entity.now) piece.now
        → SetsShift major first shift
        → MatchResult result
        (IsEntity (special_of reading) major first (json_of entity.now))
        (IsLowest (special_of reading) major first place (json_of entity.now)) }
{
    let Some(cell) = piece.cell(shift) else {
        return Err(EntityFault::OffGrid(place));
    };
    if let Some(member) = piece.special(reading, entity) {
        return Err(EntityFault::Special(place, member));
    }
    Ok(Part {
        kind: piece.kind,
        tier: piece.tier,
        dir: piece.dir,
        cell,
    })
}

/// The shift, which entity 0 sets, and the part and the priorities of the entity with this index.
fn entity_of(
    alloc: Global,
    reading: Reading,
    major: u64,
    set: Option<Shift>,
    place: usize,
    entity: &Tree,
) -> Result<(Shift, Part, Priority), EntityFault>
    ensures { (first : Json) → IsFirstShift major first (json_of entity.now) set
        → UnlessMemory Memory
        (IsEntityRead (special_of reading) major first place (json_of entity.now)) result }
{
    let piece = piece_of(alloc, major, place, entity)?;
    let shift = shift_by(set, place, &piece)?;
    let part = part_of(reading, shift, place, entity, &piece)?;
    Ok((shift, part, piece.priority))
}

/// The parts and the priorities of the entities, in their order.
fn parts_with(
    alloc: Global,
    reading: Reading,
    major: u64,
    entities: &[Tree],
) -> Result<Prioritised, EntityFault>
    ensures { UnlessMemory Memory (AreRead (special_of reading) major (map json_of entities.now))
        (seen parts_and_priorities_in result) }
{
    let mut set = None;
    let mut parts = Vec::new(alloc);
    let mut priorities = Vec::new(alloc);
    for (place, entity) in entities.iter().enumerate() {
        let (shift, part, priority) = entity_of(alloc, reading, major, set, place, entity)?;
        set = Some(shift);
        parts.push(part)?;
        priorities.push(priority)?;
    }
    Ok(Prioritised { parts, priorities })
}

/// The parts of a blueprint and their priorities, read for layouts or for designs, of at most `MOST_ENTITIES` entities.
fn read_as(alloc: Global, reading: Reading, tree: &Tree) -> Result<Prioritised, EntityFault>
    ensures { UnlessMemory Memory (IsReadOf (special_of reading) (json_of tree.now))
        (seen parts_and_priorities_in result) }
{
    let blueprint = blueprint_of(tree)?;
    if blueprint.entities.len() > MOST_ENTITIES {
        return Err(EntityFault::TooMany);
    }
    parts_with(alloc, reading, blueprint.major, blueprint.entities)
}

/// The parts of a blueprint, in the order of its entities, whose splitters prefer no side.
///
/// # Errors
///
/// The first fault: that of the root, else the lowest of the lowest entity that has one. A splitter
/// that prefers a side is `Special`.
pub fn parts_of(alloc: Global, tree: &Tree) -> Result<Vec<Part>, EntityFault>
    ensures { Answers Memory (IsPartsOf (json_of tree.now)) (seen parts_in result) }
{
    match read_as(alloc, Reading::Layouts, tree) {
        Ok(Prioritised { parts, .. }) => Ok(parts),
        Err(fault) => Err(fault),
    }
}

/// The parts of a blueprint, in the order of its entities, and the priorities of each.
///
/// # Errors
///
/// The first fault: that of the root, else the lowest of the lowest entity that has one.
pub fn parts_and_priorities(alloc: Global, tree: &Tree) -> Result<Prioritised, EntityFault>
    ensures { Answers Memory (IsPrioritisedOf (json_of tree.now)) (seen parts_and_priorities_in result) }
{
    read_as(alloc, Reading::Designs, tree)
}
