//! One entity of a blueprint's text, member by member.
ghost use Rattle.std.specs.Prelude.{◌≡◌, ◌≤◌, ◌<◌, ◌+◌, ◌^◌, ◌++◌, OnOk, Some};
ghost use Rattle.bt_entities.specs.Names.{prefix_of, stem_of};
ghost use Rattle.bt_entities.specs.Places.{width_of, height_of};
ghost use Rattle.bt_entities.specs.Written.{family_of, comma_before, number_member, name_member};
ghost use Rattle.bt_entities.specs.Written.{twice_middle, halves_text};
ghost use Rattle.bt_entities.specs.Written.{position_member, direction_member, type_member, entity_text};
ghost use Rattle.bt_entities.specs.Written.{hand_member, hand_text, priority_members};

use crate::number::{middle, push_halves, push_number};
use crate::version::Version;
use bt_parts::{Dir, Hand, Kind, Part, Priority, Tier};
use std::alloc::AllocError;

/// Adds the entity of the part with this index, from 0, and with this priority, behind a comma where it isn't the
/// first.
pub fn push_entity(
    text: &mut Vec<u8>,
    version: Version,
    index: usize,
    part: Part,
    priority: Priority,
) -> Result<(), AllocError>
    requires { index + 1 < 2 ^ 64 }
    ensures { OnOk result (text.new.items
        ≡ text.old.items ++ (comma_before index ++ entity_text version (index + 1) part priority)) }
{
    push_comma(text, index)?;
    push_head(text, index + 1, part)?;
    push_position(text, part)?;
    push_turn(text, version, part)?;
    push_priority(text, part.kind, priority)?;
    text.extend_from_slice(type_and_end(part.kind))?;
    Ok(())
}

/// Adds a comma where the entity with this index isn't the first.
fn push_comma(text: &mut Vec<u8>, index: usize) -> Result<(), AllocError>
    ensures { OnOk result (text.new.items ≡ text.old.items ++ comma_before index) }
{
    if index == 0 {
        Ok(())
    } else {
        text.extend_from_slice(b",")
    }
}

/// Adds the opening brace of an entity and the members for its number, from 1, and for its part's name.
fn push_head(text: &mut Vec<u8>, number: usize, part: Part) -> Result<(), AllocError>
    ensures { OnOk result (text.new.items ≡ text.old.items ++ (number_member number ++ name_member part)) }
{
    text.extend_from_slice(b"{\"entity_number\":")?;
    push_number(text, number as u64)?;
    text.extend_from_slice(b",\"name\":\"")?;
    text.extend_from_slice(prefix(part.tier))?;
    text.extend_from_slice(stem(part.kind))?;
    text.extend_from_slice(b"\"")?;
    Ok(())
}

/// Adds the member for the position, which is the centre of the part.
fn push_position(text: &mut Vec<u8>, part: Part) -> Result<(), AllocError>
    ensures { OnOk result (text.new.items ≡ text.old.items ++ position_member part) }
{
    text.extend_from_slice(b",\"position\":{\"x\":")?;
    push_x(text, part)?;
    text.extend_from_slice(b",\"y\":")?;
    push_y(text, part)?;
    text.extend_from_slice(b"}")?;
    Ok(())
}

/// Adds the x of a part's centre.
fn push_x(text: &mut Vec<u8>, part: Part) -> Result<(), AllocError>
    ensures { OnOk result (text.new.items
        ≡ text.old.items ++ halves_text (twice_middle part.cell.x (width_of part.kind part.dir))) }
{
    push_halves(text, centre_x(part))
}

/// Adds the y of a part's centre.
fn push_y(text: &mut Vec<u8>, part: Part) -> Result<(), AllocError>
    ensures { OnOk result (text.new.items
        ≡ text.old.items ++ halves_text (twice_middle part.cell.y (height_of part.kind part.dir))) }
{
    push_halves(text, centre_y(part))
}

/// Twice the x of a part's centre.
fn centre_x(part: Part) -> i64
    ensures { result ≡ twice_middle part.cell.x (width_of part.kind part.dir) }
{
    middle(part.cell.x, width(part.kind, part.dir))
}

/// Twice the y of a part's centre.
fn centre_y(part: Part) -> i64
    ensures { result ≡ twice_middle part.cell.y (height_of part.kind part.dir) }
{
    middle(part.cell.y, height(part.kind, part.dir))
}

/// Adds the member for the direction, in the parts of a turn that the version counts.
fn push_turn(text: &mut Vec<u8>, version: Version, part: Part) -> Result<(), AllocError>
    ensures { OnOk result (text.new.items ≡ text.old.items ++ direction_member version part) }
{
    text.extend_from_slice(b",\"direction\":")?;
    push_number(text, version.direction(part.dir))?;
    Ok(())
}

/// Adds the members for the hands that a splitter prefers, where it prefers any.
fn push_priority(text: &mut Vec<u8>, kind: Kind, priority: Priority) -> Result<(), AllocError>
    ensures { OnOk result (text.new.items ≡ text.old.items ++ priority_members kind priority) }
{
    match kind {
        Kind::Belt | Kind::Entrance | Kind::Exit => Ok(()),
        Kind::Splitter => {
            push_hand(text, b"input_priority", priority.take)?;
            push_hand(text, b"output_priority", priority.give)?;
            Ok(())
        }
    }
}

/// Adds the member of this name for the hand that is preferred, where one is.
fn push_hand(text: &mut Vec<u8>, name: &[u8], hand: Option<Hand>) -> Result<(), AllocError>
    ensures { OnOk result (text.new.items ≡ text.old.items ++ hand_member name.now hand) }
{
    match hand {
        Some(hand) => push_some_hand(text, name, hand),
        None => Ok(()),
    }
}

/// Adds the member of this name for a hand.
fn push_some_hand(text: &mut Vec<u8>, name: &[u8], hand: Hand) -> Result<(), AllocError>
    ensures { OnOk result (text.new.items ≡ text.old.items ++ hand_member name.now (Some hand)) }
{
    text.extend_from_slice(b",\"")?;
    text.extend_from_slice(name)?;
    text.extend_from_slice(b"\":\"")?;
    text.extend_from_slice(hand_word(hand))?;
    text.extend_from_slice(b"\"")?;
    Ok(())
}

/// The word for a hand.
fn hand_word(hand: Hand) -> &'static [u8]
    ensures { result.now ≡ hand_text hand }
{
    match hand {
        Hand::Left => b"left",
        Hand::Right => b"right",
    }
}

/// What a tier's names begin with (Factorio Wiki, belt transport system).
fn prefix(tier: Tier) -> &'static [u8]
    ensures { result.now ≡ prefix_of tier }
{
    match tier {
        Tier::Basic => b"",
        Tier::Fast => b"fast-",
        Tier::Express => b"express-",
        Tier::Turbo => b"turbo-",
    }
}

/// The name of the basic entity for a kind.
fn stem(kind: Kind) -> &'static [u8]
    ensures { result.now ≡ stem_of (family_of kind) }
{
    match kind {
        Kind::Belt => b"transport-belt",
        Kind::Entrance | Kind::Exit => b"underground-belt",
        Kind::Splitter => b"splitter",
    }
}

/// The member that tells an entrance from an exit, and the end of the entity.
fn type_and_end(kind: Kind) -> &'static [u8]
    ensures { result.now ≡ type_member kind }
{
    match kind {
        Kind::Belt | Kind::Splitter => b"}",
        Kind::Entrance => b",\"type\":\"input\"}",
        Kind::Exit => b",\"type\":\"output\"}",
    }
}

/// How many tiles a part takes from west to east.
fn width(kind: Kind, dir: Dir) -> u32
    ensures width { result ≡ width_of kind dir }
    ensures small { result ≤ 2 }
{
    match (kind, dir) {
        (Kind::Splitter, Dir::North | Dir::South) => 2,
        _ => 1,
    }
}

/// How many tiles a part takes from north to south.
fn height(kind: Kind, dir: Dir) -> u32
    ensures height { result ≡ height_of kind dir }
    ensures small { result ≤ 2 }
{
    match (kind, dir) {
        (Kind::Splitter, Dir::East | Dir::West) => 2,
        _ => 1,
    }
}
