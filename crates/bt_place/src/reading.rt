//! What an assignment says of a request's facts.
ghost use Rattle.std.specs.Prelude.{◌≡◌, ◌<◌, ◌≤◌, ◌+◌, true};
ghost use Rattle.bt_model.specs.Requests.{IsRequest, IsGrid};
ghost use Rattle.bt_facts.specs.declared.fact.Fact.TheVariants.{Kind};
ghost use Rattle.bt_rules.specs.Underground.{most_distance};
ghost use Rattle.bt_rules.specs.Within.{IsWithin};
ghost use Rattle.bt_place.specs.Numbering.{content_number, shape_number, dir_number};
ghost use Rattle.bt_place.specs.PlaceFormula.{sizes_of};
ghost use Rattle.bt_place.specs.inner.Grid.{spots_in};
ghost use Rattle.bt_place.specs.inner.Told.{told_of, reading_of, IsSolved};
ghost use Rattle.bt_place.specs.inner.Reaching.{cell_in};

use crate::grid::cell_of;
use crate::numbering::Numbers;
use bt_cnf::is_true;
use bt_facts::{Content, Fact, Half, Shape};
use bt_model::Request;
use bt_parts::{Dir, Rect, Tier};
use std::marker::Model;

/// The direction with this number.
fn dir_numbered(number: usize) -> Dir
    requires { number < 4 }
    ensures { dir_number result ≡ number }
{
    match number {
        0 => Dir::North,
        1 => Dir::East,
        2 => Dir::South,
        _ => Dir::West,
    }
}

/// The shape with this number.
fn shape_numbered(number: usize) -> Shape
    requires { number < 5 }
    ensures { shape_number result ≡ number }
{
    match number {
        0 => Shape::Belt,
        1 => Shape::Entrance,
        2 => Shape::Exit,
        3 => Shape::Half(Half::Lesser),
        _ => Shape::Half(Half::Greater),
    }
}

/// The content with this number.
fn content_numbered(number: usize) -> Content
    requires { number < 21 }
    ensures { content_number result ≡ number }
{
    if number == 0 {
        return Content::Empty;
    }
    Content::Turned(
        shape_numbered((number - 1) / 4),
        dir_numbered((number - 1) % 4),
    )
}

/// A request's facts as an assignment reads them.
#[derive(Drop)]
pub(crate) struct Reading<'a> {
    request: &'a Request,
    numbers: &'a Numbers,
    assignment: &'a [bool],
}

impl<'a> Model for Reading<'a> {
    ghost use Rattle.std.specs.Prelude.{◌≡◌};
    ghost use Rattle.bt_place.specs.PlaceFormula.{sizes_of};
    ghost use Rattle.bt_place.specs.inner.Told.{Told, told_of};

    ghost Value = { Told };

    ghost view = { λ t. told_of t.request.now t.assignment.now };

    ghost invariant = { λ t. t.numbers.now ≡ sizes_of t.request.now };
}

impl<'a> Reading<'a> {
    /// The facts as this assignment reads them.
    pub(crate) fn new(
        request: &'a Request,
        numbers: &'a Numbers,
        assignment: &'a [bool],
    ) -> Reading<'a>
        requires { numbers.now ≡ sizes_of request.now }
        ensures { result ≡ told_of request.now assignment.now }
    {
        Reading {
            request,
            numbers,
            assignment,
        }
    }

    /// Whether a fact of the request holds.
    pub(crate) fn says(&self, fact: Fact) -> bool
        requires { IsWithin self.now.request fact }
        ensures { result ≡ reading_of self.now fact }
    {
        is_true(self.assignment, self.numbers.variable(fact))
    }

    /// The rectangle in which the parts lie.
    pub(crate) fn rect(&self) -> Rect
        ensures rect { result ≡ self.now.request.rect }
        ensures grid { IsGrid result }
        ensures request { IsRequest self.now.request }
    {
        self.request.rect()
    }

    /// The tier of the parts.
    pub(crate) fn tier(&self) -> Tier
        ensures { result ≡ self.now.request.tier }
    {
        self.request.tier()
    }

    /// The greatest distance between the two ends of an underground pair.
    pub(crate) fn most_distance(&self) -> u32
        ensures most { result ≡ most_distance self.now.request }
        ensures few { result ≤ 11 }
    {
        self.request.tier().reach() + 1
    }

    /// What the cell with this number holds. The assignment meets the formula, so it says exactly one thing.
    pub(crate) fn content(&self, i: usize) -> Content
        requires solved { IsSolved self.now }
        requires within { i < spots_in self.now.request.rect }
        ensures { reading_of self.now (Kind (cell_in self.now i) result) ≡ true }
    {
        let cell = cell_of(self.rect(), i);
        for number in 0..21 {
            let content = content_numbered(number);
            if self.says(Fact::Kind(cell, content)) {
                return content;
            }
        }
        unreachable!()
    }
}
