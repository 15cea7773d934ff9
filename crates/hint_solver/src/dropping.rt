//! Dropping what was learnt (by the levels of its literals, as Audemard and Simon's Glucose does).
use hint_clauses::{Clauses, Literal, Search, Span, Values};
use std::alloc::{AllocError, Global};

/// A clause whose literals became false at so few levels is kept.
const FEW_LEVELS: usize = 2;

/// A clause that was learnt.
#[derive(Clone, Copy)]
pub struct Lemma {
    pub span: Span,
    /// At how many levels its literals became false.
    pub levels: usize,
    /// Whether it was learnt or looked at since a thorough search dropped some last.
    pub is_used: bool,
}

impl Lemma {
    /// Its place among those that a thorough search drops from the last on; 0 where it keeps it.
    fn rank(&self) -> usize {
        if self.is_used || self.levels <= FEW_LEVELS {
            0
        } else {
            self.levels
        }
    }
}

/// How many lemmas stay, of those that come in the order of their levels: half of them, or all of few levels where
/// those are more.
fn staying(lemmas: &[Lemma]) -> usize {
    let mut few = 0usize;
    for lemma in lemmas {
        if lemma.levels <= FEW_LEVELS {
            few = few.saturating_add(1);
        }
    }
    few.max(lemmas.len() / 2)
}

/// A copy of the literals of lemmas, whose spans lead there from now on.
fn copied(alloc: Global, clauses: &Clauses, lemmas: &mut [Lemma]) -> Result<Clauses, AllocError> {
    let mut copies = Clauses::new(alloc);
    for lemma in lemmas.iter_mut() {
        lemma.span = copies.add(clauses.literals(lemma.span))?;
    }
    Ok(copies)
}

/// Lists the literals of a clause that have no value. Tells whether none is true; where one is, the list is cut short.
fn open_literals(
    list: &mut Vec<Literal>,
    literals: &[Literal],
    values: &Values,
) -> Result<bool, AllocError> {
    list.clear();
    for literal in literals {
        if values.is_true(*literal) {
            return Ok(false);
        }
        if !values.is_false(*literal) {
            list.push(*literal)?;
        }
    }
    Ok(true)
}

/// Adds a lemma with these literals, of which none has a value. One of fewer than two is left out.
fn attach_again(
    search: &mut Search,
    lemmas: &mut Vec<Lemma>,
    literals: &[Literal],
    levels: usize,
) -> Result<(), AllocError> {
    if let [one, other] = literals {
        return search.watches.join(*one, *other);
    }
    if let Some(span) = search.attach(literals)? {
        lemmas.push(Lemma {
            span,
            levels,
            is_used: false,
        })?;
    }
    Ok(())
}

/// Adds lemmas again, whose literals stand in `copies`: each without its false literals, and not at all where one is
/// true.
fn attach_all(
    alloc: Global,
    search: &mut Search,
    lemmas: &mut Vec<Lemma>,
    copies: &Clauses,
    kept: &[Lemma],
) -> Result<(), AllocError> {
    let mut list = Vec::new(alloc);
    for lemma in kept {
        let literals = copies.literals(lemma.span);
        if open_literals(&mut list, literals, search.trail.values())? {
            attach_again(search, lemmas, &list, lemma.levels)?;
        }
    }
    Ok(())
}

/// Drops all lemmas but the first `stay`, which stand behind the first `length` literals of clauses, while only what is
/// true for good is true.
fn drop_behind(
    alloc: Global,
    search: &mut Search,
    lemmas: &mut Vec<Lemma>,
    stay: usize,
    length: usize,
) -> Result<(), AllocError> {
    lemmas.truncate(stay);
    let copies = copied(alloc, &search.clauses, lemmas)?;
    search.trail.forget_reasons();
    search.clauses.truncate(length);
    search.watches.truncate(length);
    let mut again = Vec::new(alloc);
    attach_all(alloc, search, &mut again, &copies, lemmas)?;
    *lemmas = again;
    Ok(())
}

/// Drops the worse half of the lemmas, which stand behind so many literals of clauses. What is true is so for good.
pub fn drop_worse(
    alloc: Global,
    search: &mut Search,
    lemmas: &mut Vec<Lemma>,
    length: usize,
) -> Result<(), AllocError> {
    lemmas.sort_by_key(|lemma| lemma.levels)?;
    let stay = staying(lemmas);
    drop_behind(alloc, search, lemmas, stay, length)
}

/// Notes which lemmas are among the clauses that were looked at, where all clauses have so many literals.
fn note_used(
    alloc: Global,
    lemmas: &mut [Lemma],
    used: &[Span],
    literals: usize,
) -> Result<(), AllocError> {
    let mut marks = vec![in alloc; false; literals]?;
    for span in used {
        if let Some(mark) = marks.get_mut(span.start()) {
            *mark = true;
        }
    }
    for lemma in lemmas.iter_mut() {
        let is_marked = marks.get(lemma.span.start()).copied().unwrap_or(false);
        lemma.is_used = lemma.is_used || is_marked;
    }
    Ok(())
}

/// How many lemmas stay in a thorough search, of those that come in the order of their ranks: half of those that it
/// doesn't keep.
fn staying_used(lemmas: &[Lemma]) -> usize {
    let mut kept = 0usize;
    for lemma in lemmas {
        if lemma.rank() == 0 {
            kept = kept.saturating_add(1);
        }
    }
    kept.saturating_add(lemmas.len().saturating_sub(kept) / 2)
}

/// Drops the worse half of the lemmas that weren't used.
pub fn drop_unused(
    alloc: Global,
    search: &mut Search,
    lemmas: &mut Vec<Lemma>,
    used: &[Span],
    length: usize,
) -> Result<(), AllocError> {
    note_used(alloc, lemmas, used, search.clauses.len())?;
    lemmas.sort_by_key(|lemma| lemma.rank())?;
    let stay = staying_used(lemmas);
    drop_behind(alloc, search, lemmas, stay, length)
}
