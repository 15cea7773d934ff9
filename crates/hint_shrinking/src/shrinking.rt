//! Windows and cuts by turns.
use crate::board::Board;
use crate::cutting::{Cut, cut_out};
use crate::fields::Fields;
use crate::goal::Goal;
use crate::moving::lay_anew;
use crate::plan::plan_of;
use bt_model::Request;
use bt_parts::{Part, Rect};
use bt_random::Random;
use hint_placement::Sketch;
use std::alloc::{AllocError, Global};

/// How many windows are laid anew before lines are cut out again.
const WINDOWS: usize = 12;

/// How many lines beside the one that is cut out may be laid anew at each side, at least and at most.
const LEAST_MARGIN: usize = 2;

const MOST_MARGIN: usize = 4;

/// After so many rounds without a cut, one more line may be laid anew at each side.
const PATIENCE: usize = 8;

/// All lines are tried in one of so many rounds.
const SELDOM: usize = 5;

/// A smaller layout that was found.
#[derive(Drop)]
pub struct Shrunk {
    /// Its rectangle.
    pub rect: Rect,
    /// Its plan.
    pub sketch: Sketch,
    /// How long it took, in conflicts.
    pub effort: u64,
}

/// A layout that gets smaller.
#[derive(Drop)]
struct Shrinking {
    fields: Fields,
    board: Board,
    goal: Goal,
    random: Random,
    /// How many rounds no line was cut out.
    idle: usize,
}

impl Shrinking {
    /// How the next line is cut out: the longer none was, the more may be laid anew, and now and then all lines are
    /// tried.
    fn cut(&self) -> Cut {
        Cut {
            goal: self.goal,
            margin: LEAST_MARGIN
                .saturating_add(self.idle / PATIENCE)
                .min(MOST_MARGIN),
            tries_all: self.idle % SELDOM == SELDOM - 1,
        }
    }

    /// Cuts out a line, where that is found. Whether it was.
    fn cut_once(&mut self, alloc: Global, request: &Request) -> Result<bool, AllocError> {
        let cut = self.cut();
        let left = cut_out(
            alloc,
            request,
            &mut self.fields,
            &self.board,
            cut,
            &mut self.random,
        )?;
        let Some(board) = left else {
            self.idle = self.idle.saturating_add(1);
            return Ok(false);
        };
        self.fields.drop_greater(board.rect());
        self.board = board;
        self.idle = 0;
        Ok(true)
    }

    /// Lays some windows of the board anew, where the request fits in its rectangle.
    fn lay_windows(&mut self, alloc: Global, request: &Request) -> Result<(), AllocError> {
        let rect = self.board.rect();
        self.fields.prepare(alloc, request, rect)?;
        if let Some(field) = self.fields.get(rect) {
            for _ in 0..WINDOWS {
                lay_anew(alloc, field, &mut self.board, &mut self.random)?;
            }
        }
        Ok(())
    }

    /// Cuts out a line, or lays windows anew where none is found.
    fn go_on(&mut self, alloc: Global, request: &Request) -> Result<(), AllocError> {
        if !self.cut_once(alloc, request)? {
            self.lay_windows(alloc, request)?;
        }
        Ok(())
    }

    /// Goes on until the goal is met, for about as long as so many conflicts take.
    fn shrink(&mut self, alloc: Global, request: &Request, effort: u64) -> Result<(), AllocError> {
        for _ in 0..effort {
            if self.fields.effort() >= effort || self.goal.is_met(self.board.rect()) {
                break;
            }
            self.go_on(alloc, request)?;
        }
        Ok(())
    }

    /// The plan of the board, with its rectangle and what it took; none where the search doesn't find the splitters'
    /// numbers.
    fn shrunk(&mut self, alloc: Global, request: &Request) -> Result<Option<Shrunk>, AllocError> {
        let rect = self.board.rect();
        self.fields.prepare(alloc, request, rect)?;
        let effort = self.fields.effort();
        let Some(field) = self.fields.get(rect) else {
            return Ok(None);
        };
        match plan_of(alloc, field, request, &self.board, &mut self.random)? {
            Some(sketch) => Ok(Some(Shrunk {
                rect,
                sketch,
                effort,
            })),
            None => Ok(None),
        }
    }
}

/// Makes a layout of a request smaller that lies in a rectangle: rows and columns are cut out of it until the goal is
/// met, for about as long as so many conflicts take. What is found is a plan of the request in the least rectangle that
/// was come to; none where no line was cut out. Other numbers begin other searches.
pub fn shrink(
    alloc: Global,
    request: &Request,
    rect: Rect,
    parts: &[Part],
    goal: Goal,
    effort: u64,
    number: u64,
) -> Result<Option<Shrunk>, AllocError> {
    let mut shrinking = Shrinking {
        fields: Fields::new(alloc),
        board: Board::of(alloc, rect, parts)?,
        goal,
        random: Random::new(number),
        idle: 0,
    };
    shrinking.shrink(alloc, request, effort)?;
    if shrinking.board.rect() == rect {
        return Ok(None);
    }
    shrinking.shrunk(alloc, request)
}
