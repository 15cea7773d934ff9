//! The placement formula of a request, in which layouts are looked for that are near one that is there.
use crate::around::{cell_of, count};
use crate::board::Board;
use crate::contents::contents;
use crate::pairing::add_pairs;
use crate::turned::share_turned;
use crate::variables::Variables;
use bt_cnf::Formula;
use bt_facts::{Content, Fact};
use bt_model::Request;
use bt_parts::{Cell, DIRS, Dir, Rect};
use bt_place::encode_place;
use bt_random::Random;
use hint_numbering::{Named, exchange_by, name_by_structure};
use hint_solver::{Answer, Literal, Solver};
use std::alloc::{AllocError, Global};

/// So many scores are raised by chance before a trial.
const RAISED: usize = 200;

/// As many conflicts take as long as taking literals for granted does.
const GRANTING: u64 = 20;

/// As many conflicts take as long as a trial that has none.
const TRYING: u64 = 5;

/// Which layouts are looked for.
#[derive(Clone, Copy, PartialEq, Eq)]
pub enum Likeness {
    /// Any.
    Any,
    /// Those that half a turn of the rectangle maps onto themselves, by the exchange of splitters for this number.
    Turned(u64),
}

/// The placement formula of a request, and a search of it.
#[derive(Drop)]
pub struct Field {
    named: Named,
    variables: Variables,
    solver: Solver,
    contents: Vec<Content>,
    /// What was spent beside conflicts, in conflicts.
    beside: u64,
}

/// Has the search choose first that cells are empty.
fn wish_empty(solver: &mut Solver, variables: &Variables, rect: Rect) {
    for place in 0..count(rect) {
        let fact = Fact::Kind(cell_of(rect, place), Content::Empty);
        if let Some(variable) = variables.find(fact) {
            solver.wish(variable);
        }
    }
}

/// The variables of a request's facts, of which the formula has `count`, where those that are alike share one. None
/// where half a turn is asked for and no exchange of splitters leaves the network as it is.
fn variables_of(
    alloc: Global,
    request: &Request,
    likeness: Likeness,
    count: usize,
) -> Result<Option<Variables>, AllocError> {
    let mut variables = Variables::new(alloc, request)?;
    if let Likeness::Turned(number) = likeness {
        let Some(exchange) = exchange_by(alloc, request, number)? else {
            return Ok(None);
        };
        variables.begin_sharing(count)?;
        share_turned(alloc, &mut variables, request, &exchange)?;
    }
    Ok(Some(variables))
}

/// The search of a request's placement formula, with the clauses that no pair passes empty cells alone. Where half a
/// turn maps layouts onto themselves no cell is wished empty: few are in the small rectangles where such layouts are
/// looked for, and the wish takes half as many conflicts again.
fn solver_of(
    alloc: Global,
    request: &Request,
    formula: &Formula,
    variables: &Variables,
    likeness: Likeness,
) -> Result<Solver, AllocError> {
    let mut solver = variables.solver(alloc, formula)?;
    let mut clause = Vec::new(alloc);
    add_pairs(&mut clause, &mut solver, variables, request)?;
    if likeness == Likeness::Any {
        wish_empty(&mut solver, variables, request.rect());
    }
    Ok(solver)
}

/// The field of a request with numbers by the structure.
fn field_of(alloc: Global, named: Named, likeness: Likeness) -> Result<Option<Field>, AllocError> {
    let formula = encode_place(alloc, &named.request)?;
    let Some(variables) = variables_of(alloc, &named.request, likeness, formula.vars())? else {
        return Ok(None);
    };
    let solver = solver_of(alloc, &named.request, &formula, &variables, likeness)?;
    let contents = contents(alloc)?;
    Ok(Some(Field {
        named,
        variables,
        solver,
        contents,
        beside: 0,
    }))
}

impl Field {
    /// The field of a request in a rectangle; none where the request doesn't fit in it.
    pub fn new(
        alloc: Global,
        request: &Request,
        rect: Rect,
        likeness: Likeness,
    ) -> Result<Option<Field>, AllocError> {
        match name_by_structure(alloc, request, rect)? {
            Some(named) => field_of(alloc, named, likeness),
            None => Ok(None),
        }
    }

    /// The rectangle.
    pub fn rect(&self) -> Rect {
        self.named.request.rect()
    }

    /// The number in the network of the first request of a splitter that has this one here.
    pub fn first_number(&self, splitter: usize) -> usize {
        self.named.first_number(splitter)
    }

    /// How long its searches took, in conflicts.
    pub fn effort(&self) -> u64 {
        self.solver.conflicts().saturating_add(self.beside)
    }

    /// The literal that is true where a fact holds, or where it doesn't; none where it has no variable.
    fn literal(&self, fact: Fact, holds: bool) -> Option<Literal> {
        Literal::new(self.variables.find(fact)?, holds)
    }

    /// Adds the literal that says that a cell holds this, or that it doesn't; nothing where it has no variable.
    pub fn push(
        &self,
        literals: &mut Vec<Literal>,
        cell: Cell,
        content: Content,
        holds: bool,
    ) -> Result<(), AllocError> {
        if let Some(literal) = self.literal(Fact::Kind(cell, content), holds) {
            literals.push(literal)?;
        }
        Ok(())
    }

    /// Whether a fact holds in the model that was found last.
    fn says(&self, fact: Fact) -> bool {
        match self.literal(fact, true) {
            Some(literal) => self.solver.is_true(literal),
            None => false,
        }
    }

    /// What a cell holds in the model that was found last.
    fn content(&self, cell: Cell) -> Content {
        for content in &self.contents {
            if self.says(Fact::Kind(cell, *content)) {
                return *content;
            }
        }
        Content::Empty
    }

    /// What all cells hold in the model that was found last.
    pub fn board(&self, alloc: Global) -> Result<Board, AllocError> {
        let mut board = Board::new(alloc, self.rect())?;
        for place in 0..count(self.rect()) {
            let cell = cell_of(self.rect(), place);
            board.put(cell, self.content(cell));
        }
        Ok(board)
    }

    /// The direction of a splitter whose lesser half stands on a cell in the model that was found last; none where it
    /// doesn't stand there.
    fn turned(&self, splitter: usize, cell: Cell) -> Option<Dir> {
        for dir in &DIRS {
            if self.says(Fact::At(splitter, cell, *dir)) {
                return Some(*dir);
            }
        }
        None
    }

    /// Where a splitter stands in the model that was found last.
    pub fn stand(&self, splitter: usize) -> Option<(Cell, Dir)> {
        for place in 0..count(self.rect()) {
            let cell = cell_of(self.rect(), place);
            if let Some(dir) = self.turned(splitter, cell) {
                return Some((cell, dir));
            }
        }
        None
    }

    /// Takes literals for granted until this is called again. Whether that can be.
    pub fn grant(&mut self, alloc: Global, literals: &[Literal]) -> Result<bool, AllocError> {
        self.beside = self.beside.saturating_add(GRANTING);
        self.solver.grant(alloc, literals)
    }

    /// Whether a search of at most so many conflicts finds a layout that has what is taken for granted and these
    /// literals.
    pub fn has_layout(
        &mut self,
        alloc: Global,
        literals: &[Literal],
        conflicts: u64,
        random: &mut Random,
    ) -> Result<bool, AllocError> {
        self.beside = self.beside.saturating_add(TRYING);
        let answer = self
            .solver
            .attempt(alloc, literals, conflicts, RAISED, random)?;
        Ok(answer == Answer::Found)
    }

    /// Whether there is a layout, as one search with at most so many conflicts shows.
    pub fn find_layout(
        &mut self,
        alloc: Global,
        conflicts: u64,
        random: &mut Random,
    ) -> Result<bool, AllocError> {
        let answer = self.solver.search(alloc, conflicts, random)?;
        Ok(answer == Answer::Found)
    }
}
