//! What follows of what is true.
use crate::clauses::{Clauses, Span, Visit};
use crate::literal::Literal;
use crate::trail::{Reason, Trail};
use crate::watches::{Watch, Watches};
use bt_cnf::Lbool;
use std::alloc::{AllocError, Global};

/// A clause whose literals are all false.
#[derive(Clone, Copy)]
pub enum Conflict {
    Either(Literal, Literal),
    Clause(Span),
}

/// What is true, and the clauses.
#[derive(Drop)]
pub struct Search {
    pub trail: Trail,
    pub clauses: Clauses,
    pub watches: Watches,
}

/// What became of a watch.
#[derive(Clone, Copy)]
enum Visited {
    Stays,
    Leaves,
    Conflict,
}

/// Makes true what follows of a literal by clauses of two; or tells such a clause whose literals are both false.
fn follow(
    trail: &mut Trail,
    followers: &[Literal],
    from: Literal,
) -> Result<Option<Conflict>, AllocError> {
    let negation = from.negated();
    for literal in followers {
        match trail.values().get(*literal) {
            Lbool::True => {}
            Lbool::False => return Ok(Some(Conflict::Either(negation, *literal))),
            Lbool::Unset => trail.push(*literal, Reason::Either(negation))?,
        }
    }
    Ok(None)
}

impl Search {
    /// A search without clauses over so many variables.
    pub fn new(alloc: Global, variables: usize) -> Result<Search, AllocError> {
        Ok(Search {
            trail: Trail::new(alloc, variables)?,
            clauses: Clauses::new(alloc),
            watches: Watches::new(alloc, variables)?,
        })
    }

    /// Adds a clause of more than two literals, the first two of which it watches. None where it has fewer than two.
    pub fn attach(&mut self, literals: &[Literal]) -> Result<Option<Span>, AllocError> {
        let [one, other, ..] = literals else {
            return Ok(None);
        };
        let span = self.clauses.add(literals)?;
        let by_one = Watch {
            span,
            blocker: *other,
        };
        self.watches.watch(*one, by_one)?;
        let by_other = Watch {
            span,
            blocker: *one,
        };
        self.watches.watch(*other, by_other)?;
        Ok(Some(span))
    }

    /// Visits a clause that watches a literal that is false.
    fn visit(&mut self, false_literal: Literal, watch: Watch) -> Result<Visited, AllocError> {
        let span = watch.span;
        match self.clauses.visit(span, false_literal, self.trail.values()) {
            Visit::Satisfied(_) => Ok(Visited::Stays),
            Visit::NewWatch(literal, blocker) => {
                self.watches.watch(literal, Watch { span, blocker })?;
                Ok(Visited::Leaves)
            }
            Visit::Unit(literal) => {
                self.trail.push(literal, Reason::Clause(span))?;
                Ok(Visited::Stays)
            }
            Visit::Conflict => Ok(Visited::Conflict),
        }
    }

    /// Visits the clauses of a list that watch a literal that is false; or tells one whose literals are all false.
    fn visit_list(
        &mut self,
        false_literal: Literal,
        list: &mut Vec<Watch>,
    ) -> Result<Option<Conflict>, AllocError> {
        let mut place = 0usize;
        for _ in 0..list.len() {
            if place >= list.len() {
                break;
            }
            let watch = list[place];
            if self.trail.values().is_true(watch.blocker) {
                place = place.saturating_add(1);
                continue;
            }
            match self.visit(false_literal, watch)? {
                Visited::Stays => place = place.saturating_add(1),
                Visited::Leaves => {
                    let _ = list.swap_remove(place);
                }
                Visited::Conflict => return Ok(Some(Conflict::Clause(watch.span))),
            }
        }
        Ok(None)
    }

    /// Makes true what follows of a literal by longer clauses; or tells such a clause whose literals are all false.
    fn propagate_literal(
        &mut self,
        alloc: Global,
        literal: Literal,
    ) -> Result<Option<Conflict>, AllocError> {
        let false_literal = literal.negated();
        let mut list = self.watches.exchange(false_literal, Vec::new(alloc));
        let conflict = self.visit_list(false_literal, &mut list)?;
        let _ = self.watches.exchange(false_literal, list);
        Ok(conflict)
    }

    /// Makes true all that follows of what is true; or tells a clause whose literals are all false.
    pub fn propagate(&mut self, alloc: Global) -> Result<Option<Conflict>, AllocError> {
        for _ in 0..=self.trail.variables() {
            let Some(literal) = self.trail.next() else {
                break;
            };
            let followers = self.watches.followers(literal);
            let mut conflict = follow(&mut self.trail, followers, literal)?;
            if conflict.is_none() {
                conflict = self.propagate_literal(alloc, literal)?;
            }
            if conflict.is_some() {
                return Ok(conflict);
            }
        }
        Ok(None)
    }
}
