//! Grounds of searches: a request in which its structure gives the numbers, in a rectangle that may be smaller, and
//! what is found there, told as a sketch of the first request.

use crate::search::Search;
use crate::turning::{add_stretched, turned_part, turned_rect};
use bt_choosers::Active;
use bt_cnf::Formula;
use bt_facts::{Fact, Shape, cells_of, holds};
use bt_model::Request;
use bt_parts::{Cell, DIRS, Dir, Kind, Part, Rect};
use bt_place::{Numbers, literal_of};
use bt_sat::{Answer, Solver};
use hint_numbering::{Named, name_by_structure};
use hint_placement::{Sketch, find_sketch};
use hint_streamlining::Attempt;
use std::alloc::{AllocError, Global};

/// A request whose numbers come from the structure, in a rectangle of the first request's.
#[derive(Drop)]
pub struct Ground {
    named: Named,
    /// The first request's rectangle, turned over as the other is.
    great: Rect,
    /// Whether rows and columns are exchanged.
    is_turned: bool,
}

/// What a search comes to.
#[derive(Drop)]
pub struct Sought {
    /// What was found, as a sketch of the first request.
    pub sketch: Option<Sketch>,
    /// Whether there is nothing that is as was looked for.
    pub is_refuted: bool,
}

impl Sought {
    /// That nothing was found, and nothing is refuted.
    pub fn nothing() -> Sought {
        Sought {
            sketch: None,
            is_refuted: false,
        }
    }
}

/// A model of a placement formula.
#[derive(Clone, Copy)]
struct Reading<'a> {
    formula: &'a Formula,
    numbers: &'a Numbers,
    model: &'a [bool],
}

impl Reading<'_> {
    /// Whether a fact holds in the model. False where the formula has no variable for it.
    fn has(&self, fact: Fact) -> bool {
        match literal_of(self.formula, self.numbers, fact, true) {
            Some(lit) => self.model.get(lit.var.place()).copied().unwrap_or(false),
            None => false,
        }
    }

    /// Which belt or underground piece stands on a cell and looks in a direction; none where neither does.
    fn kind(&self, cell: Cell, dir: Dir) -> Option<Kind> {
        if self.has(holds(cell, Shape::Belt, dir)) {
            return Some(Kind::Belt);
        }
        if self.has(holds(cell, Shape::Entrance, dir)) {
            return Some(Kind::Entrance);
        }
        if self.has(holds(cell, Shape::Exit, dir)) {
            return Some(Kind::Exit);
        }
        None
    }

    /// Which of so many splitters stands on a cell and looks in a direction; none where none does.
    fn splitter(&self, splitters: usize, cell: Cell, dir: Dir) -> Option<usize> {
        for splitter in 0..splitters {
            if self.has(Fact::At(splitter, cell, dir)) {
                return Some(splitter);
            }
        }
        None
    }
}

impl Ground {
    /// A part as it stands in the first request's rectangle.
    fn first_part(&self, part: Part) -> Part {
        if self.is_turned {
            turned_part(part)
        } else {
            part
        }
    }

    /// A sketch of this ground's request as one of the first request: with its numbers, and turned back.
    pub fn told(&self, alloc: Global, sketch: &Sketch) -> Result<Sketch, AllocError> {
        let mut splitters = Vec::new(alloc);
        for (splitter, part) in &sketch.splitters {
            splitters.push((self.named.first_number(*splitter), self.first_part(*part)))?;
        }
        let mut others = Vec::new(alloc);
        for part in &sketch.others {
            others.push(self.first_part(*part))?;
        }
        Ok(Sketch { splitters, others })
    }

    /// A part of this kind, of the request's tier.
    fn part(&self, kind: Kind, cell: Cell, dir: Dir) -> Part {
        Part {
            kind,
            tier: self.named.request.tier(),
            dir,
            cell,
        }
    }

    /// Adds what stands on a cell and looks in a direction, with the belts that stretch it.
    fn add_from(
        &self,
        sketch: &mut Sketch,
        reading: Reading,
        cell: Cell,
        dir: Dir,
    ) -> Result<(), AllocError> {
        let count = self.named.splitters.len();
        if let Some(kind) = reading.kind(cell, dir) {
            let part = self.part(kind, cell, dir);
            let begins = reading.has(Fact::Begins(cell));
            let small = self.named.request.rect();
            add_stretched(&mut sketch.others, small, self.great, part, begins)?;
        } else if let Some(splitter) = reading.splitter(count, cell, dir) {
            let part = self.part(Kind::Splitter, cell, dir);
            sketch.splitters.push((splitter, part))?;
        }
        Ok(())
    }

    /// The layout of a model as a sketch of the first request.
    fn read(&self, alloc: Global, reading: Reading) -> Result<Sketch, AllocError> {
        let mut sketch = Sketch {
            splitters: Vec::new(alloc),
            others: Vec::new(alloc),
        };
        for cell in &cells_of(alloc, self.named.request.rect())? {
            for dir in &DIRS {
                self.add_from(&mut sketch, reading, *cell, *dir)?;
            }
        }
        self.told(alloc, &sketch)
    }

    /// What a search comes to: a sketch of the model that it finds, that there is none, or neither where its steps are
    /// spent.
    fn outcome(&self, alloc: Global, solver: &mut Solver<Active>) -> Result<Sought, AllocError> {
        let answer = solver.next_model()?;
        let mut sought = Sought::nothing();
        match answer {
            Answer::Model(model) => {
                let numbers = Numbers::new(alloc, &self.named.request)?;
                let reading = Reading {
                    formula: solver.formula(),
                    numbers: &numbers,
                    model: &model,
                };
                sought.sketch = Some(self.read(alloc, reading)?);
            }
            Answer::Refuted => sought.is_refuted = true,
            Answer::Spent => {}
        }
        Ok(sought)
    }

    /// What the search of an attempt comes to.
    pub fn seek<S: Search>(
        &self,
        alloc: Global,
        attempt: Attempt,
        search: &S,
    ) -> Result<Sought, AllocError> {
        let mut solver = search.by_attempt(alloc, &self.named.request, attempt)?;
        self.outcome(alloc, &mut solver)
    }

    /// The request that is searched on this ground, with the numbers of the structure.
    pub fn request(&self) -> &Request {
        &self.named.request
    }

    /// Searches for a layout of this ground's request by a sketch of one, and tells it as a sketch of the first
    /// request. None where the search finds none.
    pub fn show<S: Search>(
        &self,
        alloc: Global,
        sketch: &Sketch,
        search: &S,
    ) -> Result<Option<Sketch>, AllocError> {
        let mut solver = search.by_sketch(alloc, &self.named.request, sketch)?;
        let shown = self.outcome(alloc, &mut solver)?;
        Ok(shown.sketch)
    }

    /// A sketch of a layout of this ground's request, told as one of the first request; none where none is found.
    pub fn sketch(&self, alloc: Global) -> Result<Option<Sketch>, AllocError> {
        match find_sketch(alloc, &self.named.request)? {
            Some(sketch) => Ok(Some(self.told(alloc, &sketch)?)),
            None => Ok(None),
        }
    }
}

/// Whether a request is searched turned over: where it names no cells and sides, and is wider than it is high.
fn is_turned(request: &Request) -> bool {
    let rect = request.rect();
    rect.width > rect.height && request.demands().is_empty() && request.blocks().is_empty()
}

/// The first request's rectangle, turned over where it is searched so.
pub fn great_rect(request: &Request) -> Rect {
    if is_turned(request) {
        turned_rect(request.rect())
    } else {
        request.rect()
    }
}

/// The ground of a request in a rectangle; none where its pins or blocks don't lie in that.
pub fn ground_in(
    alloc: Global,
    request: &Request,
    rect: Rect,
) -> Result<Option<Ground>, AllocError> {
    match name_by_structure(alloc, request, rect)? {
        Some(named) => Ok(Some(Ground {
            named,
            great: great_rect(request),
            is_turned: is_turned(request),
        })),
        None => Ok(None),
    }
}
