//! The texts of answers: a line each, of fixed words and of numbers and names that are said with them.
ghost use Rattle.std.specs.Prelude.{◌≡◌, ◌++◌, codes, decimal, IfErr, IfOk, OnOk};
ghost use Rattle.bt_net.specs.NetText.{line};
ghost use Rattle.bt_flow.specs.Names.{test_name};
ghost use Rattle.bt_print.specs.Answers.{brief_text, cause_name, which_text};
ghost use Rattle.bt_designs.specs.Refusals.{member_name, refusal_text};
ghost use Rattle.bt_print.specs.Lines.{NeedsMemory, formed_text};
ghost use Rattle.bt_print.specs.inner.Details.{detail_text, line_text};

use crate::answer::{Answer, Brief};
use bt_cert::Cause;
use bt_designs::Refusal;
use bt_entities::Member;
use bt_flow::Test;
use bt_same::Which;
use itoa::Buffer;
use std::alloc::{AllocError, Global};

/// What a line says after its words, each after a space.
#[derive(Clone, Copy)]
pub enum Detail {
    Nothing,
    Name(&'static str),
    Number(usize),
    Numbers(usize, usize),
    ThreeNumbers(usize, usize, usize),
    NameAndNumber(&'static str, usize),
    NamesAndNumber(&'static str, &'static str, usize),
    NumberAndName(usize, &'static str),
}

/// A line of an answer: its words, and what they are said of.
#[derive(Clone, Copy)]
pub struct Line(pub &'static str, pub Detail);

/// The text of a line: its words, what they are said of, and a line feed.
fn text_of(alloc: Global, line: &Line) -> Result<Vec<u8>, AllocError>
    ensures { IfOk result (λ text. text.items ≡ line_text line.now) }
{
    let mut text = Vec::from_slice(alloc, line.0.as_bytes())?;
    push_detail(&mut text, line.1)?;
    text.push(b'\n')?;
    Ok(text)
}

/// Adds what a line says after its words, each name and each number after a space.
fn push_detail(text: &mut Vec<u8>, detail: Detail) -> Result<(), AllocError>
    ensures { OnOk result (text.new.items ≡ text.old.items ++ detail_text detail) }
{
    match detail {
        Detail::Nothing => Ok(()),
        Detail::Name(name) => push_spaced_name(text, name),
        Detail::Number(number) => push_spaced_number(text, number),
        Detail::Numbers(first, second) => {
            push_spaced_number(text, first)?;
            push_spaced_number(text, second)
        }
        Detail::ThreeNumbers(first, second, third) => {
            push_spaced_number(text, first)?;
            push_spaced_number(text, second)?;
            push_spaced_number(text, third)
        }
        Detail::NameAndNumber(name, number) => {
            push_spaced_name(text, name)?;
            push_spaced_number(text, number)
        }
        Detail::NamesAndNumber(first, second, number) => {
            push_spaced_name(text, first)?;
            push_spaced_name(text, second)?;
            push_spaced_number(text, number)
        }
        Detail::NumberAndName(number, name) => {
            push_spaced_number(text, number)?;
            push_spaced_name(text, name)
        }
    }
}

/// Adds a space and a name.
fn push_spaced_name(text: &mut Vec<u8>, name: &str) -> Result<(), AllocError>
    ensures { OnOk result (text.new.items ≡ text.old.items ++ (codes " " ++ name.now)) }
{
    text.push(b' ')?;
    text.extend_from_slice(name.as_bytes())
}

/// Adds a space and a number.
fn push_spaced_number(text: &mut Vec<u8>, number: usize) -> Result<(), AllocError>
    ensures { OnOk result (text.new.items ≡ text.old.items ++ (codes " " ++ decimal number)) }
{
    let mut buffer = Buffer::new();
    text.push(b' ')?;
    text.extend_from_slice(buffer.format(number).as_bytes())
}

/// What has to be formed of an answer's text before it is written: its line, or the blueprint in it; else nothing.
pub fn formed_of(alloc: Global, answer: &Answer) -> Result<Vec<u8>, AllocError>
    ensures text { IfOk result (λ text. text.items ≡ formed_text answer.now) }
    ensures needs { IfErr result (λ fault. NeedsMemory answer.now) }
{
    match answer {
        Answer::Brief(brief) => text_of(alloc, &line_of(*brief)),
        Answer::LaidOut(parts, priorities) => bt_entities::text_of(alloc, parts, priorities),
        Answer::Least(_, found, priorities) => { bt_grids::blueprint_of(alloc, found, priorities) }
        Answer::Small(found, priorities) => {
            bt_grids::blueprint_of_small(alloc, found, priorities)
        }
        _ => Ok(Vec::new(alloc)),
    }
}

/// The line of an answer that is said in one.
fn line_of(brief: Brief) -> Line
    ensures { line_text result ≡ brief_text brief }
{
    match brief {
        Brief::Breaks(property) => Line("breaks", Detail::Name(property.name())),
        Brief::Yes(property) => Line("yes", Detail::Name(property.name())),
        Brief::No(property) => Line("no", Detail::Name(property.name())),
        Brief::NoLayout => Line("none", Detail::Nothing),
        Brief::ShownSame => Line("same", Detail::Nothing),
        Brief::ShownDiffer => Line("differ", Detail::Nothing),
        Brief::Refused(refusal) => refusal_line(refusal),
        Brief::WideState(test, place) => {
            Line("wide state", Detail::NameAndNumber(test.name(), place))
        }
        Brief::WidePair(which, test, place) => Line("wide", pair_detail(which, test, place)),
        Brief::CertLine(line) => Line("refused 50 CertLine", Detail::Number(line)),
        Brief::BadStep(line, cause) => Line(
            "refused 51 BadStep",
            Detail::NumberAndName(line, name_of_cause(cause)),
        ),
        Brief::NoVerdict => Line("refused 52 NoVerdict", Detail::Nothing),
        Brief::CertWide(line, row, column) => Line(
            "refused 53 CertWide",
            Detail::ThreeNumbers(line, row, column),
        ),
        Brief::NotBreaking(test, place) => Line(
            "refused 54 NotBreaking",
            Detail::NameAndNumber(test.name(), place),
        ),
        Brief::NotDiffering(which, test, place) => {
            Line("refused 54 NotBreaking", pair_detail(which, test, place))
        }
    }
}

/// What is said of a test of a pair: of which state it is, where it is of one, its name, and its place.
fn pair_detail(which: Which, test: Test, place: usize) -> Detail
    ensures { detail_text result
        ≡ codes " " ++ which_text which ++ test_name test ++ codes " " ++ decimal place }
{
    match which {
        Which::First => Detail::NamesAndNumber("first", test.name(), place),
        Which::Second => Detail::NamesAndNumber("second", test.name(), place),
        Which::Kept => Detail::NameAndNumber(test.name(), place),
    }
}

/// The line of a refused design: the number and the name of the refusal, and of what it is said.
fn refusal_line(refusal: Refusal) -> Line
    ensures { line_text result ≡ line (codes "refused " ++ refusal_text refusal) }
{
    match refusal {
        Refusal::Json(at) => Line("refused 10 Json", Detail::Number(at)),
        Refusal::Deep(at) => Line("refused 11 Deep", Detail::Number(at)),
        Refusal::DuplicateKey(at) => Line("refused 12 DuplicateKey", Detail::Number(at)),
        Refusal::NotBlueprint => Line("refused 20 NotBlueprint", Detail::Nothing),
        Refusal::Book => Line("refused 21 Book", Detail::Nothing),
        Refusal::TooMany => Line("refused 22 TooMany", Detail::Nothing),
        Refusal::Unsupported(i) => Line("refused 23 Unsupported", Detail::Number(i)),
        Refusal::BadMember(i, member) => Line(
            "refused 24 BadMember",
            Detail::NumberAndName(i, name_of(member)),
        ),
        Refusal::OffGrid(i) => Line("refused 25 OffGrid", Detail::Number(i)),
        Refusal::Special(i, member) => Line(
            "refused 27 Special",
            Detail::NumberAndName(i, name_of(member)),
        ),
        Refusal::Overlap(i, j) => Line("refused 30 Overlap", Detail::Numbers(i, j)),
        Refusal::Unpaired(i) => Line("refused 31 Unpaired", Detail::Number(i)),
        Refusal::SideLoad(i) => Line("refused 32 SideLoad", Detail::Number(i)),
        Refusal::Blocked(i) => Line("refused 33 Blocked", Detail::Number(i)),
        Refusal::Ring(i) => Line("refused 34 Ring", Detail::Number(i)),
        Refusal::NetLine(line) => Line("refused 40 NetLine", Detail::Number(line)),
        Refusal::TooLarge => Line("refused 41 TooLarge", Detail::Nothing),
        Refusal::NoEnds => Line("refused 42 NoEnds", Detail::Nothing),
        Refusal::Order(order) => Line("refused 43 Order", Detail::Number(order as usize)),
        Refusal::Pin(line) => Line("refused 44 Pin", Detail::Number(line)),
        Refusal::Cap(edge) => Line("refused 45 Cap", Detail::Number(edge)),
        Refusal::Block(line) => Line("refused 46 Block", Detail::Number(line)),
        Refusal::Ends => Line("refused 47 Ends", Detail::Nothing),
    }
}

/// The word for why a step isn't valid.
fn name_of_cause(cause: Cause) -> &'static str
    ensures { result.now ≡ cause_name cause }
{
    match cause {
        Cause::Literal => "literal",
        Cause::Weight => "weight",
        Cause::Sum => "sum",
        Cause::Hint => "hint",
        Cause::Unit => "unit",
    }
}

/// The name of a member in the JSON of a blueprint; `entity` of the entity itself.
fn name_of(member: Member) -> &'static str
    ensures { result.now ≡ member_name member }
{
    match member {
        Member::Entity => "entity",
        Member::Name => "name",
        Member::Position => "position",
        Member::Direction => "direction",
        Member::PieceType => "type",
        Member::InputPriority => "input_priority",
        Member::OutputPriority => "output_priority",
        Member::ControlBehavior => "control_behavior",
        Member::Filter => "filter",
    }
}
