//! An entity as its members tell it, before its cell is known, which depends on entity 0.

ghost use Rattle.std.specs.Prelude.{◌≡◌, ◌≢◌, ℕ, ℤ, codes, MatchOption, MatchResult};
ghost use Rattle.bt_text.specs.Answers.{UnlessMemory};
ghost use Rattle.bt_json.specs.Json.{Json, Number};
ghost use Rattle.bt_json.specs.Stands.{json_of, number_of};
ghost use Rattle.bt_parts.specs.declared.part.Dir.{Dir};
ghost use Rattle.bt_parts.specs.declared.part.Cell.{Cell};
ghost use Rattle.bt_entities.specs.declared.name.EntityFamily.TheVariants.{Undergrounds, Splitters};
ghost use Rattle.bt_entities.specs.declared.shift.Shift.{Shift};
ghost use Rattle.bt_entities.specs.Members.{HasText, HasNumber};
ghost use Rattle.bt_entities.specs.Names.{name_of};
ghost use Rattle.bt_entities.specs.declared.fault.EntityFault.TheVariants.{Memory};
ghost use Rattle.bt_entities.specs.Entities.{HasFamily, HasKind, HasDirection, HasPosition, direction_value};
ghost use Rattle.bt_entities.specs.Entities.{IsEven, IsSided, Prefers, HasPriority};
ghost use Rattle.bt_entities.specs.Refusals.{IsBadMember};
ghost use Rattle.bt_entities.specs.inner.Pieces.{AreHalves, IsWrongPriority};
ghost use Rattle.bt_entities.specs.inner.Pieces.{IsPiece, IsOn, IsNameRead, IsPieceRead};

use crate::fault::{EntityFault, EntityName, Member};
use crate::member::{
    as_number, as_text, has_member, is_object, member, number_member, text_member,
};
use crate::name::{EntityFamily, named};
use crate::shift::{Shift, first_tile, height, shift_of, width};
use bt_json::{Decimal, Tree};
use bt_parts::{Cell, Dir, Hand, Kind, Priority, Tier};
use std::alloc::Global;

/// For what entities are read.
#[derive(Clone, Copy)]
pub enum Reading {
    /// For the parts of layouts, whose splitters prefer no side.
    Layouts,
    /// For designs, whose splitters may prefer sides.
    Designs,
}

/// An entity as its members tell it.
#[derive(Clone, Copy)]
pub struct Piece {
    /// What its part is.
    pub kind: Kind,
    /// Its part's speed class.
    pub tier: Tier,
    /// The direction in which its part moves items.
    pub dir: Dir,
    /// Twice the centre's x, where that is a whole number in range.
    pub x: Option<i32>,
    /// Twice the centre's y, where that is a whole number in range.
    pub y: Option<i32>,
    /// Which sides a splitter prefers.
    pub priority: Priority,
}

/// The x and the y that a position tells. None where one is missing or no number.
fn coordinates(position: &Tree) -> Option<(&Decimal, &Decimal)>
    ensures { MatchOption result
        ((x y : Number) → ¬ (HasNumber (json_of position.now) (codes "x") x
        × HasNumber (json_of position.now) (codes "y") y))
        (λ p. HasNumber (json_of position.now) (codes "x") (number_of p.0.now)
        × HasNumber (json_of position.now) (codes "y") (number_of p.1.now)) }
{
    match (number_member(position, "x"), number_member(position, "y")) {
        (Some(x), Some(y)) => Some((x, y)),
        _ => None,
    }
}

/// The x and the y of an entity's centre, in tiles. None where its `position` lacks one.
fn position(entity: &Tree) -> Option<(&Decimal, &Decimal)>
    ensures { MatchOption result
        ((x y : Number) → ¬ HasPosition (json_of entity.now) x y)
        (λ p. HasPosition (json_of entity.now) (number_of p.0.now) (number_of p.1.now)) }
{
    match member(entity, "position") {
        Some(position) => coordinates(position),
        None => None,
    }
}

/// Twice the number, where that is a whole number in range; else None, since no other is rounded to one.
fn halves(number: &Decimal) -> Option<i32>
    ensures { AreHalves (number_of number.now) result }
{
    number.halves()
}

/// The direction with this value, in eighths of a turn below major version 2, else in sixteenths. None where it is none
/// of the four.
fn direction_of(major: u64, value: u64) -> Option<Dir>
    ensures { MatchOption result
        ((dir : Dir) → value ≢ direction_value major dir)
        (λ dir. value ≡ direction_value major dir) }
{
    if major < 2 {
        match value {
            0 => Some(Dir::North),
            2 => Some(Dir::East),
            4 => Some(Dir::South),
            6 => Some(Dir::West),
            _ => None,
        }
    } else {
        match value {
            0 => Some(Dir::North),
            4 => Some(Dir::East),
            8 => Some(Dir::South),
            12 => Some(Dir::West),
            _ => None,
        }
    }
}

/// The direction of an entity: north, where it names none. None where it names another than the four.
fn direction(major: u64, entity: &Tree) -> Option<Dir>
    ensures { MatchOption result
        ((dir : Dir) → ¬ HasDirection major (json_of entity.now) dir)
        (HasDirection major (json_of entity.now)) }
{
    let Some(direction) = member(entity, "direction") else {
        return Some(Dir::North);
    };
    let number = as_number(direction)?;
    let Some(value) = number.whole() else {
        return None;
    };
    direction_of(major, value)
}

/// The kind of an entity of this family. None where an underground piece's `type` is neither `input` nor `output`.
fn kind_of(family: EntityFamily, entity: &Tree) -> Option<Kind>
    requires { HasFamily (json_of entity.now) family }
    ensures { MatchOption result
        (HasFamily (json_of entity.now) Undergrounds
        × (¬ HasText (json_of entity.now) (codes "type") (codes "input"))
        × (¬ HasText (json_of entity.now) (codes "type") (codes "output")))
        (HasKind (json_of entity.now)) }
{
    match family {
        EntityFamily::Belts => Some(Kind::Belt),
        EntityFamily::Splitters => Some(Kind::Splitter),
        EntityFamily::Undergrounds => match text_member(entity, "type") {
            Some("input") => Some(Kind::Entrance),
            Some("output") => Some(Kind::Exit),
            _ => None,
        },
    }
}

/// The side that a splitter prefers by the priority of that name, which is no side where it lacks that member or says
/// `none`. None where the member says anything else than a side.
fn side_of(entity: &Tree, name: &str) -> Option<Option<Hand>>
    requires { HasFamily (json_of entity.now) Splitters }
    ensures { MatchOption result
        ((¬ IsEven (json_of entity.now) name.now) × (¬ IsSided (json_of entity.now) name.now))
        (Prefers (json_of entity.now) name.now) }
{
    let Some(side) = member(entity, name) else {
        return Some(None);
    };
    match as_text(side) {
        Some("none") => Some(None),
        Some("left") => Some(Some(Hand::Left)),
        Some("right") => Some(Some(Hand::Right)),
        _ => None,
    }
}

/// The side that an entity of this family prefers by the priority of that name: none of another than a splitter. None
/// where what a splitter says there is wrong.
fn preferred_of(family: EntityFamily, entity: &Tree, name: &str) -> Option<Option<Hand>>
    requires { HasFamily (json_of entity.now) family }
    ensures { MatchOption result
        (HasFamily (json_of entity.now) Splitters
        × (¬ IsEven (json_of entity.now) name.now)
        × (¬ IsSided (json_of entity.now) name.now))
        (Prefers (json_of entity.now) name.now) }
{
    match family {
        EntityFamily::Splitters => side_of(entity, name),
        EntityFamily::Belts | EntityFamily::Undergrounds => Some(None),
    }
}

/// The priorities of an entity of this family, or the name of the first wrong one.
fn priority_of(family: EntityFamily, entity: &Tree) -> Result<Priority, Member>
    requires { HasFamily (json_of entity.now) family }
    ensures { MatchResult result
        (HasPriority (json_of entity.now))
        (IsWrongPriority (json_of entity.now)) }
{
    let Some(take) = preferred_of(family, entity, "input_priority") else {
        return Err(Member::InputPriority);
    };
    let Some(give) = preferred_of(family, entity, "output_priority") else {
        return Err(Member::OutputPriority);
    };
    Ok(Priority { give, take })
}

/// The entity of this family and tier, or its first wrong member.
fn with_members(
    major: u64,
    family: EntityFamily,
    tier: Tier,
    entity: &Tree,
) -> Result<Piece, Member>
    requires { HasText (json_of entity.now) (codes "name") (name_of family tier) }
    ensures { MatchResult result
        (IsPiece major (json_of entity.now))
        (IsBadMember major (json_of entity.now)) }
{
    let Some((x, y)) = position(entity) else {
        return Err(Member::Position);
    };
    let Some(dir) = direction(major, entity) else {
        return Err(Member::Direction);
    };
    let Some(kind) = kind_of(family, entity) else {
        return Err(Member::PieceType);
    };
    let priority = priority_of(family, entity)?;
    Ok(Piece {
        kind,
        tier,
        dir,
        x: halves(x),
        y: halves(y),
        priority,
    })
}

/// The family and the tier that the name of the entity with this index tells, or why it tells none.
fn name_of(alloc: Global, place: usize, entity: &Tree) -> Result<(EntityFamily, Tier), EntityFault>
    ensures { UnlessMemory Memory (IsNameRead place (json_of entity.now)) result }
{
    if !is_object(entity) {
        return Err(EntityFault::BadMember(place, Member::Entity));
    }
    let Some(name) = text_member(entity, "name") else {
        return Err(EntityFault::BadMember(place, Member::Name));
    };
    match named(name) {
        Some(found) => Ok(found),
        None => {
            let name = String::from_str(alloc, name)?;
            Err(EntityFault::Unsupported(place, EntityName::new(name)))
        }
    }
}

/// The entity with this index as its members tell it, or the first fault of its name and its members.
pub fn piece_of(
    alloc: Global,
    major: u64,
    place: usize,
    entity: &Tree,
) -> Result<Piece, EntityFault>
    ensures { UnlessMemory Memory (IsPieceRead major place (json_of entity.now)) result }
{
    let (family, tier) = name_of(alloc, place, entity)?;
    match with_members(major, family, tier, entity) {
        Ok(piece) => Ok(piece),
        Err(member) => Err(EntityFault::BadMember(place, member)),
    }
}

impl Piece {
    /// The part's own cell, on the grid with this shift. None where the centre is off that grid, or isn't in range.
    pub fn cell(&self, shift: Shift) -> Option<Cell>
        ensures { MatchOption result ((cell : Cell) → ¬ IsOn self.now shift cell) (IsOn self.now shift) }
    {
        let (Some(twice_x), Some(twice_y)) = (self.x, self.y) else {
            return None;
        };
        let x = first_tile(twice_x, width(self.kind, self.dir), shift.x);
        let y = first_tile(twice_y, height(self.kind, self.dir), shift.y);
        match (x, y) {
            (Some(x), Some(y)) => Some(Cell { x, y }),
            _ => None,
        }
    }
}

impl Piece {
    ghost use Rattle.bt_entities.specs.Entities.{IsPlain, IsFirstSpecial};
    ghost use Rattle.bt_entities.specs.inner.Pieces.{HasShift, special_of};

    /// The shift of the grid that it stands on. None where its centre isn't a multiple of half a tile, or isn't in
    /// range.
    pub fn shift(&self) -> Option<Shift>
        ensures { MatchOption result
            ((shift : Shift) (cell : Cell) → ¬ IsOn self.now shift cell)
            (HasShift self.now) }
    {
        let twice_x = self.x?;
        let twice_y = self.y?;
        let x = shift_of(twice_x, width(self.kind, self.dir));
        let y = shift_of(twice_y, height(self.kind, self.dir));
        Some(Shift { x, y })
    }

    /// The first of its members that make it special where it is read so: `control_behavior`, `filter`, and, for
    /// layouts alone, a priority by which it prefers a side. None where it has none of them.
    pub fn special(&self, reading: Reading, entity: &Tree) -> Option<Member>
        ensures { (major : ℕ) → IsPiece major (json_of entity.now) self.now
            → MatchOption result
            (IsPlain (special_of reading) (json_of entity.now))
            (IsFirstSpecial (special_of reading) (json_of entity.now)) }
    {
        if has_member(entity, "control_behavior") {
            return Some(Member::ControlBehavior);
        }
        if has_member(entity, "filter") {
            return Some(Member::Filter);
        }
        match (reading, self.priority.take, self.priority.give) {
            (Reading::Designs, _, _) => None,
            (Reading::Layouts, Some(_), _) => Some(Member::InputPriority),
            (Reading::Layouts, None, Some(_)) => Some(Member::OutputPriority),
            (Reading::Layouts, None, None) => None,
        }
    }
}
