//! What follows of the clauses that are there: first by those that the empty clause needs.
use crate::clauses::Database;
use crate::trail::{Number, Trail};
use crate::watches::{Watch, Watches};
use bt_cnf::Lbool;
use hint_clauses::{Literal, Visit};
use std::alloc::{AllocError, Global};

/// The clauses by which is propagated: the core, which the empty clause needs as far as is known, or the others.
#[derive(Clone, Copy, PartialEq, Eq)]
enum Part {
    Core,
    Others,
}

/// What became of a watch.
#[derive(Clone, Copy)]
enum Watched {
    Stays,
    Leaves,
    Conflict,
}

/// The clauses of a formula and of a proof, and what follows of them.
///
/// A clause that is needed is watched among those of the core, so that conflicts come of these where they can: then fewer
/// others are needed (Wetzler, Heule and Hunt).
#[derive(Drop)]
pub struct Checker {
    pub database: Database,
    pub trail: Trail,
    core: Watches,
    others: Watches,
    /// What follows of so many literals by clauses of the core, and by others, is true too.
    core_done: usize,
    others_done: usize,
}

impl Checker {
    /// A checker without clauses over so many variables.
    pub fn new(alloc: Global, variables: usize) -> Result<Checker, AllocError> {
        Ok(Checker {
            database: Database::new(alloc),
            trail: Trail::new(alloc, variables)?,
            core: Watches::new(alloc, variables)?,
            others: Watches::new(alloc, variables)?,
            core_done: 0,
            others_done: 0,
        })
    }

    /// Adds a clause that wasn't there before, and makes true what follows of it alone. Its number, and whether all its
    /// literals are false.
    pub fn add(&mut self, literals: &[Literal]) -> Result<(Number, bool), AllocError> {
        let number = self.database.add(literals)?;
        let fails = self.attach(number)?;
        Ok((number, fails))
    }

    /// Watches a clause, and makes its literal true where it has but one that isn't false; whether it has none.
    fn attach(&mut self, number: Number) -> Result<bool, AllocError> {
        self.database.arrange(number, self.trail.values());
        self.watch(number)?;
        let (first, second) = match self.database.get(number) {
            [] => return Ok(true),
            [first] => (*first, None),
            [first, second, ..] => (*first, Some(*second)),
        };
        let is_unit = match second {
            Some(second) => self.trail.value(second) == Lbool::False,
            None => true,
        };
        match self.trail.value(first) {
            Lbool::False => Ok(true),
            Lbool::Unset if is_unit => {
                self.trail.push(first, Some(number))?;
                Ok(false)
            }
            _ => Ok(false),
        }
    }

    /// Lets a clause of two and more literals watch its first two.
    fn watch(&mut self, number: Number) -> Result<(), AllocError> {
        let [first, second, ..] = self.database.get(number) else {
            return Ok(());
        };
        let (first, second) = (*first, *second);
        let watches = if self.database.is_core(number) {
            &mut self.core
        } else {
            &mut self.others
        };
        watches.watch(
            first,
            Watch {
                clause: number,
                blocker: second,
            },
        )?;
        watches.watch(
            second,
            Watch {
                clause: number,
                blocker: first,
            },
        )
    }

    /// Brings back a clause that was there before, and makes true what follows of it alone.
    pub fn bring_back(&mut self, number: Number) -> Result<(), AllocError> {
        self.database.set_there(number, true);
        let _ = self.attach(number)?;
        Ok(())
    }

    /// Says that the empty clause needs a clause, which from then on is watched among those of the core.
    pub fn need(&mut self, number: Number) -> Result<(), AllocError> {
        if self.database.set_core(number) {
            self.watch(number)?;
        }
        Ok(())
    }

    /// Takes back all but the first so many true literals, of which all that follows was true before the others came.
    pub fn cut(&mut self, count: usize) {
        self.trail.cut(count);
        self.core_done = self.core_done.min(count);
        self.others_done = self.others_done.min(count);
    }

    /// Has all that follows of what is true looked at once more.
    pub fn start_over(&mut self) {
        self.core_done = 0;
        self.others_done = 0;
    }

    /// Puts a list in the place of a literal's among the watches of a part, and gives that one.
    fn exchange(&mut self, part: Part, literal: Literal, list: Vec<Watch>) -> Vec<Watch> {
        match part {
            Part::Core => self.core.exchange(literal, list),
            Part::Others => self.others.exchange(literal, list),
        }
    }

    /// Visits a clause that watches a literal which is false. Its watch leaves where it is out of date, or another
    /// literal is watched instead.
    fn visit(
        &mut self,
        part: Part,
        false_literal: Literal,
        number: Number,
    ) -> Result<Watched, AllocError> {
        let Some(entry) = self.database.entry(number) else {
            return Ok(Watched::Leaves);
        };
        let is_stale = match self.database.get(number) {
            [first, second, ..] => *first != false_literal && *second != false_literal,
            _ => true,
        };
        if is_stale || !entry.is_there || entry.is_core != (part == Part::Core) {
            return Ok(Watched::Leaves);
        }
        match self
            .database
            .literals
            .visit(entry.span, false_literal, self.trail.values())
        {
            Visit::Satisfied(_) => Ok(Watched::Stays),
            Visit::NewWatch(literal, blocker) => {
                let watch = Watch {
                    clause: number,
                    blocker,
                };
                match part {
                    Part::Core => self.core.watch(literal, watch)?,
                    Part::Others => self.others.watch(literal, watch)?,
                }
                Ok(Watched::Leaves)
            }
            Visit::Unit(literal) => {
                self.trail.push(literal, Some(number))?;
                Ok(Watched::Stays)
            }
            Visit::Conflict => Ok(Watched::Conflict),
        }
    }

    /// Visits the clauses of a list that watch a literal which is false; tells one whose literals are all false.
    fn visit_list(
        &mut self,
        part: Part,
        false_literal: Literal,
        list: &mut Vec<Watch>,
    ) -> Result<Option<Number>, AllocError> {
        let mut place = 0usize;
        for _ in 0..list.len() {
            if place >= list.len() {
                break;
            }
            let watch = list[place];
            if self.trail.value(watch.blocker) == Lbool::True {
                place = place.saturating_add(1);
                continue;
            }
            match self.visit(part, false_literal, watch.clause)? {
                Watched::Stays => place = place.saturating_add(1),
                Watched::Leaves => {
                    let _ = list.swap_remove(place);
                }
                Watched::Conflict => return Ok(Some(watch.clause)),
            }
        }
        Ok(None)
    }

    /// Makes true what follows of a literal by clauses of a part; tells a clause whose literals are all false.
    fn follow(
        &mut self,
        alloc: Global,
        part: Part,
        literal: Literal,
    ) -> Result<Option<Number>, AllocError> {
        let false_literal = literal.negated();
        let mut list = self.exchange(part, false_literal, Vec::new(alloc));
        let conflict = self.visit_list(part, false_literal, &mut list)?;
        let _ = self.exchange(part, false_literal, list);
        Ok(conflict)
    }

    /// The next literal of which it is to be looked what follows, and by which clauses.
    fn next(&mut self) -> Option<(Part, Literal)> {
        if let Some(literal) = self.trail.at(self.core_done) {
            self.core_done = self.core_done.saturating_add(1);
            return Some((Part::Core, literal));
        }
        let literal = self.trail.at(self.others_done)?;
        self.others_done = self.others_done.saturating_add(1);
        Some((Part::Others, literal))
    }

    /// Makes true all that follows; tells a clause whose literals are all false.
    pub fn propagate(
        &mut self,
        alloc: Global,
        variables: usize,
    ) -> Result<Option<Number>, AllocError> {
        for _ in 0..=variables.saturating_mul(2) {
            let Some((part, literal)) = self.next() else {
                break;
            };
            let conflict = self.follow(alloc, part, literal)?;
            if conflict.is_some() {
                return Ok(conflict);
            }
        }
        Ok(None)
    }
}
