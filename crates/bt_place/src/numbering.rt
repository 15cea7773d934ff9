//! The variables of facts.
ghost use Rattle.std.specs.Prelude.{◌≡◌, ◌↔◌, ◌<◌, ◌≤◌, ◌+◌, ◌-◌, ◌*◌, ◌^◌, length, IfOk, IfNone, IfSome, IsTrue, Contains};
ghost use Rattle.std.specs.List.{position_or_len};
ghost use Rattle.bt_parts.specs.Cells.{IsInside};
ghost use Rattle.bt_model.specs.Requests.{IsRequest};
ghost use Rattle.bt_demands.specs.Classes as classing;
ghost use Rattle.bt_place.specs.Numbering as numbering;
ghost use Rattle.bt_place.specs.Blocks.{starts_of};
ghost use Rattle.bt_place.specs.PlaceFormula.{sizes_of};
ghost use Rattle.bt_place.specs.Within.{IsSpot, IsNumbered};
ghost use Rattle.bt_place.specs.inner.Blocks.{sizes_with, AreNumbers, place_number};

use crate::blocks::{Extent, Starts, starts_of};
use crate::order::ranks_of;
use bt_demands::{Plan, lining, same_class, stopping};
use bt_facts::{Class, Content, Fact, Half, Line, Shape};
use bt_model::Request;
use bt_parts::{Cell, Dir};
use std::alloc::{AllocError, Global};
use std::marker::Model;

/// The numbers of the variables of a request.
#[derive(Drop)]
pub struct Numbers {
    extent: Extent,
    classes: Vec<Class>,
    /// For each splitter its rank in the order in which the search places them.
    ranks: Vec<usize>,
    starts: Starts,
}

impl Model for Numbers {
    ghost use Rattle.bt_place.specs.Numbering.{Sizes};
    ghost use Rattle.bt_place.specs.inner.Blocks.{sizes_with, AreNumbers};

    ghost Value = { Sizes };

    ghost view = { λ n. sizes_with n.extent n.classes.items n.ranks.items };

    ghost invariant = { λ n. AreNumbers (sizes_with n.extent n.classes.items n.ranks.items) n.starts };
}

/// The number of a direction, from 0.
fn dir_number(dir: Dir) -> usize
    ensures value { result ≡ numbering.dir_number dir }
    ensures few { result < 4 }
{
    match dir {
        Dir::North => 0,
        Dir::East => 1,
        Dir::South => 2,
        Dir::West => 3,
    }
}

/// The number of a half, from 0.
fn half_number(half: Half) -> usize
    ensures value { result ≡ numbering.half_number half }
    ensures few { result < 2 }
{
    match half {
        Half::Lesser => 0,
        Half::Greater => 1,
    }
}

/// The number of a shape, from 0.
fn shape_number(shape: Shape) -> usize
    ensures value { result ≡ numbering.shape_number shape }
    ensures few { result < 5 }
{
    match shape {
        Shape::Belt => 0,
        Shape::Entrance => 1,
        Shape::Exit => 2,
        Shape::Half(half) => 3 + half_number(half),
    }
}

/// The number of a row in which ends may stand, from 0.
fn line_number(line: Line) -> usize
    ensures value { result ≡ numbering.line_number line }
    ensures few { result < 4 }
{
    match line {
        Line::InputsEast => 0,
        Line::InputsSouth => 1,
        Line::OutputsEast => 2,
        Line::OutputsSouth => 3,
    }
}

/// The number of what a cell may hold, from 0.
fn content_number(content: Content) -> usize
    ensures value { result ≡ numbering.content_number content }
    ensures few { result < 21 }
{
    match content {
        Content::Empty => 0,
        Content::Turned(shape, dir) => 1 + (shape_number(shape) * 4 + dir_number(dir)),
    }
}

/// The variable at a place of a row, both from 0, in a block that begins at `from` and has `each` variables a row.
fn numbered(from: usize, row: usize, each: usize, place: usize) -> usize
    requires { from + (row * each + place) < 2 ^ 64 }
    ensures { result ≡ from + (row * each + place) }
{
    from + (row * each + place)
}

/// The place of a class among classes, or how many these are where it isn't one of them.
/// Only classes that occur have numbers: two for each splitter and one for each input would leave variables that no
/// clause has, which a search goes through at each choice.
fn place_among(classes: &[Class], class: Class) -> usize
    ensures { result ≡ position_or_len (classing.same_class class) classes.now }
{
    let mut place = 0;
    let mut rest = classes;
    while let Some((other, others)) = rest.split_first() {
        if same_class(class, *other) {
            return place;
        }
        place += 1;
        rest = others;
    }
    place
}

/// Whether a class is one of classes.
fn is_among(classes: &[Class], class: Class) -> bool
    ensures { IsTrue result ↔ Contains classes.now class }
{
    place_among(classes, class) < classes.len()
}

/// Whether the cell is one of a rectangle of this width and height.
fn is_inside(width: usize, height: usize, cell: Cell) -> bool
    ensures { IsTrue result ↔ IsInside (record { width = width; height = height }) cell }
{
    cell.x >= 0
        && cell.y >= 0
        && (cell.x.unsigned_abs() as usize) < width
        && (cell.y.unsigned_abs() as usize) < height
}

/// How much of each kind a request has, but for classes.
fn extent_of(request: &Request) -> Extent
    ensures { (classes : _) (ranks : _) → sizes_with result classes ranks
        ≡ record (sizes_of request.now) { classes = classes; ranks = ranks } }
{
    let net = request.net();
    let rect = request.rect();
    Extent {
        width: rect.width as usize,
        height: rect.height as usize,
        splitters: net.splitters() as usize,
        halves: net.splitters() as usize * 2,
        inputs: net.inputs() as usize,
        stops: stopping(request),
        lines: lining(request),
        distances: request.tier().reach() as usize + 1,
    }
}

/// The classes of a request.
fn classes_of(alloc: Global, request: &Request) -> Result<Vec<Class>, AllocError>
    ensures { IfOk result (λ classes. classes.items ≡ classing.classes_of request.now) }
{
    let plan = Plan::new(alloc, request)?;
    Ok(plan.classes)
}

impl Numbers {
    /// The numbers of the variables of a request.
    pub fn new(alloc: Global, request: &Request) -> Result<Numbers, AllocError>
        ensures sizes { IfOk result (λ numbers. numbers ≡ sizes_of request.now) }
        ensures known { IsRequest request.now }
    {
        let net = request.net();
        let extent = extent_of(request);
        let classes = classes_of(alloc, request)?;
        let ranks = ranks_of(alloc, net)?;
        let starts = starts_of(extent, &classes);
        Ok(Numbers {
            extent,
            classes,
            ranks,
            starts,
        })
    }

    /// The number of variables.
    pub fn variables(&self) -> usize
        ensures { result ≡ numbering.variables self.now }
    {
        self.starts.end
    }

    /// Where each block of variables begins.
    pub fn starts(&self) -> Starts
        ensures { result ≡ starts_of self.now }
    {
        self.starts
    }

    /// The number of a cell, row by row.
    fn spot(&self, cell: Cell) -> usize
        requires { IsSpot self.now cell }
        ensures { result ≡ numbering.spot_of self.now cell }
    {
        let x = cell.x.unsigned_abs() as usize;
        let y = cell.y.unsigned_abs() as usize;
        numbered(0, y, self.extent.width, x)
    }

    /// The number of a cell along the longer side of the rectangle.
    /// A search that takes the highest variable, as true, so goes along the longer side, and keeps cells empty from
    /// the corner on from which it places splitters, where nothing asks for a part.
    fn along(&self, cell: Cell) -> usize
        requires { IsSpot self.now cell }
        ensures { result ≡ numbering.along self.now cell }
    {
        if self.extent.height < self.extent.width {
            self.spot(cell)
        } else {
            let x = cell.x.unsigned_abs() as usize;
            let y = cell.y.unsigned_abs() as usize;
            numbered(0, x, self.extent.height, y)
        }
    }

    /// The number of a cell along the longer side, from the last cell on.
    fn from_last(&self, cell: Cell) -> usize
        requires { IsSpot self.now cell }
        ensures { result ≡ numbering.spots self.now - 1 - numbering.along self.now cell }
    {
        self.extent.width * self.extent.height - 1 - self.along(cell)
    }

    /// The number of a splitter's place on a cell. That of the first splitter on the first cell comes last.
    fn place(&self, splitter: usize, cell: Cell) -> usize
        requires splitter { splitter < self.now.splitters }
        requires cell { IsSpot self.now cell }
        ensures { result ≡ place_number self.now splitter cell }
    {
        let spots = self.extent.width * self.extent.height;
        let behind = self.extent.splitters - 1 - self.ranks[splitter];
        numbered(0, behind, spots, self.from_last(cell))
    }

    /// The variable of the fact of a cell and of that at a place, from 0, of `each` things, in the block that begins at
    /// `from`.
    fn on_cell(&self, from: usize, cell: Cell, each: usize, place: usize) -> usize
        requires cell { IsSpot self.now cell }
        requires few { from + (numbering.spot_of self.now cell * each + place) < 2 ^ 64 }
        ensures { result ≡ from + (numbering.spot_of self.now cell * each + place) }
    {
        numbered(from, self.spot(cell), each, place)
    }

    /// The variable of the fact of a cell and a direction, in the block that begins at `from`.
    fn turned(&self, from: usize, cell: Cell, dir: Dir) -> usize
        requires cell { IsSpot self.now cell }
        requires few { from + (numbering.spot_of self.now cell * 4 + numbering.dir_number dir) < 2 ^ 64 }
        ensures { result ≡ from + (numbering.spot_of self.now cell * 4 + numbering.dir_number dir) }
    {
        numbered(from, self.spot(cell), 4, dir_number(dir))
    }

    /// The variable of the pair that begins on a cell, of this direction and distance, in the block that begins at
    /// `from`.
    fn pair(&self, from: usize, cell: Cell, dir: Dir, distance: usize) -> usize
        requires cell { IsSpot self.now cell }
        requires some { 1 ≤ distance }
        requires most { distance ≤ self.now.distances }
        requires few { from + ((numbering.spot_of self.now cell * 4 + numbering.dir_number dir)
            * self.now.distances + (distance - 1)) < 2 ^ 64 }
        ensures { result ≡ from + ((numbering.spot_of self.now cell * 4 + numbering.dir_number dir)
            * self.now.distances + (distance - 1)) }
    {
        let row = self.turned(0, cell, dir);
        numbered(from, row, self.extent.distances, distance - 1)
    }

    /// The variable of a fact that has one.
    fn number(&self, fact: Fact) -> usize
        requires within { IsNumbered self.now fact }
        requires few { numbering.variable_of self.now fact < 2 ^ 64 }
        ensures { result ≡ numbering.variable_of self.now fact }
    {
        let extent = self.extent;
        let starts = self.starts;
        match fact {
            Fact::Carries(cell, class) => {
                let place = place_among(&self.classes, class);
                self.on_cell(0, cell, self.classes.len(), place)
            }
            Fact::HalfOn(cell) => self.on_cell(starts.halves, cell, 1, 0),
            Fact::BeltOn(cell) => self.on_cell(starts.belts, cell, 1, 0),
            Fact::Begins(cell) => self.on_cell(starts.begins, cell, 1, 0),
            Fact::Starts(cell, i) => self.on_cell(starts.starts, cell, extent.inputs, i),
            Fact::Stops(cell, o) => self.on_cell(starts.stops, cell, extent.stops, o),
            Fact::Lies(cell, line) => {
                self.on_cell(starts.lies, cell, extent.lines, line_number(line))
            }
            Fact::Pair(cell, dir, k) => self.pair(starts.pairs, cell, dir, k),
            Fact::Tunnel(cell, dir) => self.turned(starts.tunnels, cell, dir),
            Fact::Goes(cell, dir) => self.turned(starts.goings, cell, dir),
            Fact::Column(s, x) => numbered(starts.columns, s, extent.width, x),
            Fact::Row(s, y) => numbered(starts.rows, s, extent.height, y),
            Fact::Points(s, dir) => numbered(starts.points, s, 4, dir_number(dir)),
            Fact::EntersLesser(s) => numbered(starts.entering, s, 1, 0),
            Fact::LeavesLesser(s) => numbered(starts.leaving, s, 1, 0),
            Fact::Held(spare, half) => numbered(starts.held, spare, extent.halves, half),
            Fact::Kind(cell, content) => {
                let row = self.from_last(cell);
                numbered(starts.kinds, row, 21, 20 - content_number(content))
            }
            Fact::At(s, cell, dir) => {
                numbered(starts.places, self.place(s, cell), 4, dir_number(dir))
            }
        }
    }

    /// The variable of a fact.
    pub fn variable(&self, fact: Fact) -> usize
        requires { IsNumbered self.now fact }
        ensures value { result ≡ numbering.variable_of self.now fact }
        ensures below { result < numbering.variables self.now }
    {
        let end = self.starts.end;
        let variable = self.number(fact);
        prove!(variable < end);
        variable
    }

    /// Whether the cell is one of the rectangle.
    fn has_spot(&self, cell: Cell) -> bool
        ensures { IsTrue result ↔ IsSpot self.now cell }
    {
        is_inside(self.extent.width, self.extent.height, cell)
    }

    /// Whether the class is one of the classes.
    fn has_class(&self, class: Class) -> bool
        ensures { IsTrue result ↔ Contains self.now.classes class }
    {
        is_among(&self.classes, class)
    }

    /// Whether there is such a splitter.
    fn has_splitter(&self, splitter: usize) -> bool
        ensures { IsTrue result ↔ (splitter < self.now.splitters) }
    {
        splitter < self.extent.splitters
    }

    /// Whether the rectangle has at least so many cells more than there are halves.
    fn has_spare(&self, spare: usize) -> bool
        ensures { IsTrue result ↔ (spare + self.now.halves ≤ numbering.spots self.now) }
    {
        let spots = self.extent.width * self.extent.height;
        self.extent.halves <= spots && spare <= spots - self.extent.halves
    }

    /// Whether the fact has a variable.
    fn has(&self, fact: Fact) -> bool
        ensures { IsTrue result ↔ IsNumbered self.now fact }
    {
        let extent = self.extent;
        match fact {
            Fact::Carries(cell, class) => self.has_spot(cell) && self.has_class(class),
            Fact::HalfOn(cell) => self.has_spot(cell),
            Fact::BeltOn(cell) => self.has_spot(cell),
            Fact::Begins(cell) => self.has_spot(cell),
            Fact::Starts(cell, i) => self.has_spot(cell) && i < extent.inputs,
            Fact::Stops(cell, o) => self.has_spot(cell) && o < extent.stops,
            Fact::Lies(cell, line) => self.has_spot(cell) && line_number(line) < extent.lines,
            Fact::Pair(cell, _, k) => self.has_spot(cell) && 1 <= k && k <= extent.distances,
            Fact::Tunnel(cell, _) => self.has_spot(cell),
            Fact::Goes(cell, _) => self.has_spot(cell),
            Fact::Column(s, x) => self.has_splitter(s) && x < extent.width,
            Fact::Row(s, y) => self.has_splitter(s) && y < extent.height,
            Fact::Points(s, _) => self.has_splitter(s),
            Fact::EntersLesser(s) => self.has_splitter(s),
            Fact::LeavesLesser(s) => self.has_splitter(s),
            Fact::Held(spare, half) => self.has_spare(spare) && half < extent.halves,
            Fact::Kind(cell, _) => self.has_spot(cell),
            Fact::At(s, cell, _) => self.has_splitter(s) && self.has_spot(cell),
        }
    }

    /// The variable of a fact; none where it speaks of what the request doesn't have.
    pub fn find(&self, fact: Fact) -> Option<usize>
        ensures none { IfNone result (IsNumbered self.now fact → ⊥) }
        ensures some { IfSome result (λ variable. IsNumbered self.now fact
            × (variable ≡ numbering.variable_of self.now fact)) }
    {
        if self.has(fact) {
            Some(self.variable(fact))
        } else {
            None
        }
    }
}
