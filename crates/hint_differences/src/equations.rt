//! Eliminating column after column: the shortest equation first, in it the column that stands in fewest.
ghost use Rattle.std.specs.Prelude.{◌≡◌, IfOk, IfSome, length};

use crate::sums::{scaled, substituted, sum_of, value_of};
use bt_frac::Frac;
use bt_linear_forms::{Change, Line, Room, Term};
use std::alloc::{AllocError, Global};
use std::mem::replace;

/// Equations of fewer terms wait in a list of their length, all others in the last one.
const LENGTHS: usize = 32;

/// The most equations that are taken from those that wait.
const MOST_PIVOTS: u32 = 65_536;

/// The most terms that are walked over where columns are put in.
const MOST_TERMS: usize = 100_000;

/// Equations of columns, which are numbered from 0. Each is a line that is to be 0, in which the first position past the
/// columns stands for the number 1.
#[derive(Drop)]
pub struct Equations {
    /// The equations by their numbers, but for those that are solved for a column.
    lines: Vec<Option<Line>>,
    /// For each column the equations that name it, and some that don't any more.
    naming: Vec<Vec<usize>>,
    /// By their lengths the equations that are to be solved, and some that had this length before.
    waiting: Vec<Vec<usize>>,
    /// What was solved, in that order.
    solved: Vec<Solved>,
    room: Room,
    /// How many terms were walked over.
    walked: usize,
}

/// A column, and the line that is 0 and has -1 there.
#[derive(Drop)]
struct Solved {
    column: usize,
    zero: Line,
}

/// What becomes of an equation where a column is put in.
#[derive(Clone, Copy)]
enum Effect {
    /// It doesn't name the column.
    Same,
    /// It has so many terms now.
    Changed(usize),
    /// A number doesn't fit.
    Wide,
}

impl Equations {
    /// A system of so many columns, without an equation yet.
    pub fn new(alloc: Global, columns: usize) -> Result<Equations, AllocError> {
        Ok(Equations {
            lines: Vec::new(alloc),
            naming: lists(alloc, columns)?,
            waiting: lists(alloc, LENGTHS)?,
            solved: Vec::new(alloc),
            room: Vec::new(alloc),
            walked: 0,
        })
    }

    /// Adds that a sum of numbers times columns, or times 1 at the first position past them, is 0. It is left out where a
    /// number doesn't fit.
    pub fn add(&mut self, alloc: Global, terms: &[Term]) -> Result<(), AllocError> {
        if let Some(line) = sum_of(alloc, terms)? {
            let number = self.lines.len();
            self.name(&line, number)?;
            self.wait(line.len(), number)?;
            self.lines.push(Some(line))?;
        }
        Ok(())
    }

    /// A number for each column, so that the equations hold as far as all can: a column that they leave open keeps its
    /// number. None where a number doesn't fit, or the work is too much.
    pub fn solve(self, alloc: Global, numbers: Vec<Frac>) -> Result<Option<Vec<Frac>>, AllocError>
        ensures { IfOk result (λ found. IfSome found (λ v. length v.items ≡ length numbers.items)) }
    {
        let mut equations = self;
        if equations.eliminate(alloc)? {
            Ok(equations.valued(numbers))
        } else {
            Ok(None)
        }
    }

    /// Notes at each column of a line that the equation with this number names it.
    fn name(&mut self, line: &Line, number: usize) -> Result<(), AllocError> {
        for index in 0..line.len() {
            let (column, _) = line.term_at(index);
            push_at(&mut self.naming, column, number)?;
        }
        Ok(())
    }

    /// Has the equation with a number wait in the list of its length.
    fn wait(&mut self, length: usize, number: usize) -> Result<(), AllocError> {
        push_at(&mut self.waiting, length_class(length), number)
    }

    /// Solves equations for columns until none is left. False where a number doesn't fit, or the work is too much.
    fn eliminate(&mut self, alloc: Global) -> Result<bool, AllocError> {
        for _ in 0..MOST_PIVOTS {
            let Some((class, number)) = shortest(&mut self.waiting) else {
                return Ok(true);
            };
            let fits = self.pivot(alloc, class, number)?;
            if !fits || self.walked > MOST_TERMS {
                return Ok(false);
            }
        }
        Ok(false)
    }

    /// Solves the equation with a number for one of its columns, where its length is still of this class, and puts what
    /// the column is in all others. Does nothing where it isn't. False where a number doesn't fit.
    fn pivot(&mut self, alloc: Global, class: usize, number: usize) -> Result<bool, AllocError> {
        match self.taken(class, number) {
            Some(line) => self.solve_line(alloc, &line),
            None => Ok(true),
        }
    }

    /// Takes the equation with a number from the equations, where its length is still of this class; else none.
    fn taken(&mut self, class: usize, number: usize) -> Option<Line> {
        if number < self.lines.len() && is_of_class(&self.lines[number], class) {
            replace(&mut self.lines[number], None)
        } else {
            None
        }
    }

    /// Solves an equation for the column in it that fewest equations name, and puts what this is in all others. An
    /// equation that names no column is passed over. False where a number doesn't fit.
    fn solve_line(&mut self, alloc: Global, line: &Line) -> Result<bool, AllocError> {
        let Some(column) = self.rarest(line) else {
            return Ok(true);
        };
        match scaled(alloc, line, column)? {
            Some(zero) => self.put_everywhere(alloc, column, zero),
            None => Ok(false),
        }
    }

    /// The column of a line that fewest equations name, the first of several; none where the line names no column.
    fn rarest(&self, line: &Line) -> Option<usize> {
        let mut rarest = None;
        let mut fewest = usize::MAX;
        for index in 0..line.len() {
            let (column, _) = line.term_at(index);
            let count = self.count_naming(column);
            if count < fewest {
                fewest = count;
                rarest = Some(column);
            }
        }
        rarest
    }

    /// How many equations are noted as naming a column; `usize::MAX` for a position past the columns.
    fn count_naming(&self, column: usize) -> usize {
        match self.naming.get(column) {
            Some(numbers) => numbers.len(),
            None => usize::MAX,
        }
    }

    /// Puts what a column is, by a line that is 0 and has -1 there, in each equation that names it, and keeps the line
    /// for the column's value. False where a number doesn't fit.
    fn put_everywhere(
        &mut self,
        alloc: Global,
        column: usize,
        zero: Line,
    ) -> Result<bool, AllocError> {
        let numbers = self.taken_naming(alloc, column);
        let fits = self.put_in_all(alloc, &numbers, column, &zero)?;
        self.solved.push(Solved { column, zero })?;
        Ok(fits)
    }

    /// The numbers of the equations that name a column, whose own list is left empty.
    fn taken_naming(&mut self, alloc: Global, column: usize) -> Vec<usize> {
        if column < self.naming.len() {
            replace(&mut self.naming[column], Vec::new(alloc))
        } else {
            Vec::new(alloc)
        }
    }

    /// Puts what a column is in the equations with these numbers. False, and the rest are left, where a number doesn't
    /// fit.
    fn put_in_all(
        &mut self,
        alloc: Global,
        numbers: &[usize],
        column: usize,
        zero: &Line,
    ) -> Result<bool, AllocError> {
        for number in numbers {
            let fits = self.put(alloc, *number, column, zero)?;
            if !fits {
                return Ok(false);
            }
        }
        Ok(true)
    }

    /// Puts what a column is in the equation with a number, where that is still there, and notes its new columns and
    /// its new length. False where a number doesn't fit.
    fn put(
        &mut self,
        alloc: Global,
        number: usize,
        column: usize,
        zero: &Line,
    ) -> Result<bool, AllocError> {
        if number >= self.lines.len() {
            return Ok(true);
        }
        match put_in(alloc, &mut self.room, &mut self.lines[number], column, zero)? {
            Effect::Same => Ok(true),
            Effect::Changed(terms) => {
                self.walked = self.walked.saturating_add(terms).saturating_add(zero.len());
                self.name(zero, number)?;
                self.wait(terms, number)?;
                Ok(true)
            }
            Effect::Wide => Ok(false),
        }
    }

    /// The numbers, in which each column that was solved has the value that its line gives it. The column that was
    /// solved last comes first, as the lines of those before may name it. None where a number doesn't fit.
    fn valued(&self, numbers: Vec<Frac>) -> Option<Vec<Frac>>
        ensures { IfSome result (λ v. length v.items ≡ length numbers.items) }
    {
        let mut values = numbers;
        for solved in self.solved.iter().rev() {
            let Some(value) = value_of(&solved.zero, solved.column, &values) else {
                return None;
            };
            if solved.column < values.len() {
                values[solved.column] = value;
            }
        }
        Some(values)
    }
}

/// So many empty lists.
fn lists(alloc: Global, count: usize) -> Result<Vec<Vec<usize>>, AllocError> {
    let mut lists = Vec::new(alloc);
    for _ in 0..count {
        lists.push(Vec::new(alloc))?;
    }
    Ok(lists)
}

/// Takes the next of the shortest equations that wait: the class of its length, and its number. None where none waits.
fn shortest(waiting: &mut [Vec<usize>]) -> Option<(usize, usize)> {
    for class in 0..waiting.len() {
        if let Some(number) = waiting[class].pop() {
            return Some((class, number));
        }
    }
    None
}

/// Adds a number to the list at a place, where there is one.
fn push_at(lists: &mut [Vec<usize>], place: usize, number: usize) -> Result<(), AllocError> {
    if place < lists.len() {
        lists[place].push(number)?;
    }
    Ok(())
}

/// The list in which equations of a length wait: the last one holds all that are longer, too.
fn length_class(length: usize) -> usize {
    length.min(LENGTHS - 1)
}

/// Whether an equation stands at this place whose length is of this class.
fn is_of_class(place: &Option<Line>, class: usize) -> bool {
    match place {
        Some(line) => length_class(line.len()) == class,
        None => false,
    }
}

/// Puts what a column is, by a line that is 0 and has -1 there, in the equation at a place, and tells the effect. Where
/// the two aren't both held as small whole numbers, the equation is made anew in fractions.
fn put_in(
    alloc: Global,
    room: &mut Room,
    place: &mut Option<Line>,
    column: usize,
    zero: &Line,
) -> Result<Effect, AllocError> {
    let Some(line) = place else {
        return Ok(Effect::Same);
    };
    match line.substitute(alloc, room, column, zero)? {
        Change::Lacks => Ok(Effect::Same),
        Change::Made(_) => Ok(Effect::Changed(line.len())),
        Change::Long => match substituted(alloc, line, column, zero)? {
            Some(sum) => {
                let terms = sum.len();
                *place = Some(sum);
                Ok(Effect::Changed(terms))
            }
            None => Ok(Effect::Wide),
        },
    }
}
