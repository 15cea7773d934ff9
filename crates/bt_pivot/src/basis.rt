//! A basis with its solved form. A slot is what a basis tells of a position: its line, or none where the position is
//! outside the basis. Positions whose terms are the same up to the sign are a class, of which one line is held, or
//! which member is outside.
ghost use Rattle.std.specs.Prelude.{◌≡◌, ◌<◌, ◌↔◌, ◌++◌, ◌∷◌, [], length, IfOk, IfSome, IsTrue, Some, None, true};
ghost use Rattle.bt_frac.specs.Ratio.{negated};
ghost use Rattle.bt_linear_forms.specs.Lines.{one, IsLine, signed_terms};
ghost use Rattle.bt_pivot.specs.Classes.{differ, class_terms, position_at};
ghost use Rattle.bt_pivot.specs.SolvedForms.{slot_at, InBasis};
ghost use Rattle.bt_pivot.specs.Places.{IsPlace};

use bt_frac::Frac;
use bt_linear_forms::{Line, Room, Term, lone_line};
use std::alloc::{AllocError, Global};
use std::marker::Model;

/// A position as a member of a class.
#[derive(Clone, Copy)]
pub struct Member {
    /// The number of the class.
    pub class: usize,
    /// Whether its terms have the other sign than those of the class's first position.
    pub negated: bool,
}

/// Where a position stands.
#[derive(Clone, Copy)]
pub enum Place<'a> {
    /// In the basis, with the line of its class's first position, or with the other sign.
    Line {
        class: usize,
        first: usize,
        line: &'a Line,
        negated: bool,
    },
    /// In the basis, with another member of its class alone for a line, or with the other sign.
    Like {
        other: usize,
        negated: bool,
    },
    /// Outside the basis.
    Outside,
}

/// One position leaves the basis, and another enters it.
#[derive(Clone, Copy, PartialEq, Eq)]
pub struct Pivot {
    pub leaves: usize,
    pub enters: usize,
}

/// For each position its slot: the line, where it is in the basis.
///
/// Rows have the same terms again and again, up to the sign. With one line for all of a class, a pivot merges a third
/// of the lines.
#[derive(Drop)]
pub struct Basis {
    pub(crate) members: Vec<Member>,
    /// The first position of each class.
    pub(crate) firsts: Vec<usize>,
    /// The line of each class's first position, where all its members are in the basis.
    pub(crate) lines: Vec<Option<Line>>,
    /// The member of each class that is outside, where the class has no line.
    pub(crate) outside: Vec<usize>,
}

impl Model for Basis {
    ghost use Rattle.bt_pivot.specs.SolvedForms.{Slots};
    ghost use Rattle.bt_pivot.specs.Classes.{slots_of, AreClasses};

    ghost Value = { Slots };

    ghost view = { λ b. slots_of b.members.items b.lines.items b.outside.items };

    ghost invariant = { λ b. AreClasses b.members.items b.firsts.items b.lines.items b.outside.items };
}

impl Basis {
    /// No positions.
    pub(crate) fn empty(alloc: Global) -> Basis
        ensures { result ≡ [] }
    {
        Basis {
            members: Vec::new(alloc),
            firsts: Vec::new(alloc),
            lines: Vec::new(alloc),
            outside: Vec::new(alloc),
        }
    }

    /// The number of positions.
    pub fn len(&self) -> usize
        ensures { result ≡ length self.now }
    {
        self.members.len()
    }

    /// The number of classes.
    pub fn classes(&self) -> usize {
        self.firsts.len()
    }

    /// Where a position stands. One that there isn't counts as outside.
    pub fn place(&self, position: usize) -> Place<'_>
        ensures { IsPlace self.now position result }
    {
        if position >= self.members.len() {
            return Place::Outside;
        }
        let Member { class, negated } = self.members[position];
        match &self.lines[class] {
            Some(line) => Place::Line {
                class,
                first: self.firsts[class],
                line,
                negated,
            },
            None => {
                let other = self.outside[class];
                if other == position {
                    return Place::Outside;
                }
                Place::Like {
                    other,
                    negated: differ(negated, self.members[other].negated),
                }
            }
        }
    }

    /// Whether a position is in the basis.
    pub fn has(&self, position: usize) -> bool
        ensures { IsTrue result ↔ InBasis self.now position }
    {
        match self.place(position) {
            Place::Outside => false,
            Place::Line { .. } | Place::Like { .. } => true,
        }
    }

    /// The line of a position, in the room of a list whose terms are dropped. None where the position is outside the
    /// basis.
    pub fn line(
        &self,
        alloc: Global,
        room: Room,
        position: usize,
    ) -> Result<Option<Line>, AllocError>
        ensures { IfOk result (λ slot. slot ≡ slot_at self.now position) }
    {
        match self.place(position) {
            Place::Line { line, negated, .. } => {
                let copy = line.copied_in(alloc, room)?;
                Ok(Some(copy.with_sign(alloc, negated)?))
            }
            Place::Like { other, negated } => Ok(Some(lone_line(alloc, room, other, negated)?)),
            Place::Outside => Ok(None),
        }
    }

    /// The basis with one more position, in a class of its own, which has this line, or is outside the basis where
    /// there is none.
    pub(crate) fn with_class(self, slot: Option<Line>) -> Result<Basis, AllocError>
        ensures { IfOk result (λ more. more ≡ self ++ slot ∷ []) }
    {
        let Basis {
            members,
            firsts,
            lines,
            outside,
        } = self;
        let position = members.len();
        let class = firsts.len();
        let negated = false;
        let members = pushed(members, Member { class, negated })?;
        let firsts = pushed(firsts, position)?;
        let lines = pushed(lines, slot)?;
        let outside = pushed(outside, position)?;
        Ok(Basis {
            members,
            firsts,
            lines,
            outside,
        })
    }

    /// The basis with one more position, whose line has these terms: in this class, where the class's terms are the
    /// same up to the sign, and else in a class of its own. The terms ascend and have no zeros.
    pub(crate) fn with_line(
        self,
        alloc: Global,
        terms: Vec<Term>,
        class: usize,
    ) -> Result<Basis, AllocError>
        requires { IsLine terms.items }
        ensures { IfOk result (λ more. more ≡ self ++ Some terms.items ∷ []) }
    {
        match sign_in(&self.members, &self.lines, &self.outside, class, &terms) {
            Some(negated) => {
                let Basis {
                    members,
                    firsts,
                    lines,
                    outside,
                } = self;
                let members = pushed(members, Member { class, negated })?;
                Ok(Basis {
                    members,
                    firsts,
                    lines,
                    outside,
                })
            }
            None => self.with_class(Some(Line::of(alloc, terms)?)),
        }
    }
}

/// The list with one more item.
fn pushed<T: Drop>(list: Vec<T>, item: T) -> Result<Vec<T>, AllocError>
    ensures { IfOk result (λ more. more.items ≡ list.items ++ item ∷ []) }
{
    let mut more = list;
    more.push(item)?;
    Ok(more)
}

/// Whether exactly one of the two is true.
pub fn differ(first: bool, second: bool) -> bool
    ensures { result ≡ differ first second }
{
    if first { !second } else { second }
}

/// Whether a line has these terms, or these with their numbers negated where `negated` is set.
fn are_same(line: &Line, others: &[Term], negated: bool) -> bool
    ensures { IsTrue result → signed_terms negated line.now ≡ others.now }
{
    if line.len() != others.len() {
        return false;
    }
    for i in 0..line.len() {
        if !is_same(&line.term_at(i), &others[i], negated) {
            return false;
        }
    }
    true
}

/// Whether two terms are the same, or where `negated` is set, the same but for the sign of the number.
fn is_same(term: &Term, other: &Term, negated: bool) -> bool
    ensures { IsTrue result → signed_terms negated (term.now ∷ []) ≡ other.now ∷ [] }
{
    let number = if negated { term.1.negate() } else { term.1 };
    term.0 == other.0 && number == other.1
}

/// Whether a line has these terms with the other sign: false where it has just these, and None where it has neither.
fn sign_of(line: &Line, others: &[Term]) -> Option<bool>
    ensures { IfSome result (λ negated. signed_terms negated line.now ≡ others.now) }
{
    if are_same(line, others, false) {
        Some(false)
    } else if are_same(line, others, true) {
        Some(true)
    } else {
        None
    }
}

/// Whether the line of a position alone has these terms with the other sign: false where it has just these, and None
/// where it has neither.
fn sign_alone(position: usize, terms: &[Term]) -> Option<bool>
    ensures { IfSome result (λ negated. signed_terms negated ((position, one) ∷ []) ≡ terms.now) }
{
    let [term] = terms else {
        return None;
    };
    let alone = (position, Frac::whole(1));
    if is_same(&alone, term, false) {
        Some(false)
    } else if is_same(&alone, term, true) {
        Some(true)
    } else {
        None
    }
}

/// Whether these terms are those of a class's first position with the other sign: false where they are just those. None
/// where they are neither, or there is no such class. In a class without a line each member has the terms of the member
/// outside: that position alone, up to the sign.
fn sign_in(
    members: &[Member],
    lines: &[Option<Line>],
    outside: &[usize],
    class: usize,
    terms: &[Term],
) -> Option<bool>
    ensures within { IfSome result (λ _. class < length lines.now) }
    ensures sign { IfSome result (λ negated. class_terms members.now (slot_at lines.now class)
        (position_at outside.now class) negated ≡ terms.now) }
{
    match lines.get(class) {
        Some(Some(line)) => sign_of(line, terms),
        Some(None) => {
            let position = *outside.get(class)?;
            let member = members.get(position)?;
            let negated = sign_alone(position, terms)?;
            Some(differ(negated, member.negated))
        }
        None => None,
    }
}
