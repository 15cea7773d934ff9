//! Lines of a solved form: the positions whose numbers aren't 0, in ascending order, with these numbers. A line gives
//! what stands at its position, which it doesn't name, by what stands at those that it names. A line that is 0 wherever
//! another one holds tells what the position that enters stands for: it has the number -1 there.
ghost use Rattle.std.specs.Prelude.{◌≡◌, ◌≢◌, ◌∷◌, [], ◌<◌, ◌-◌, ◌^◌, pos, IfOk, IfErr, IfSome, Some, None, IsTrue, true, false, length, slice_index_or};
ghost use Rattle.bt_frac.specs.Ratio.{Ratio, IsLowest};
ghost use Rattle.bt_farkas.specs.WeightedRows.{coefficient_at};
ghost use Rattle.bt_linear_forms.specs.Lines.{signed_terms, one, Terms, IsLine, HasNumber, IsCombination};
ghost use Rattle.bt_linear_forms.specs.Changes.{IsChange};
ghost use Rattle.bt_linear_forms.specs.Substituting.{IsZeroLine, IsSubstituted, IsUnfitChange, IsEntering};
ghost use Rattle.bt_linear_forms.specs.Unfits.{IsUnfit};
ghost use Rattle.bt_linear_forms.specs.TermSigns.{IsSignedTerm};

use crate::merging::merged;
use crate::short::{Change, Room, Short, entering_line, lone_short, shortened, zero_line};
use crate::term::Term;
use crate::unfit::Unfit;
use bt_frac::Frac;
use std::alloc::{AllocError, Global};
use std::cmp::Ordering;
use std::marker::Model;

/// How a line holds its terms.
#[derive(Drop)]
enum Form {
    /// As small whole numbers over one denominator.
    Whole(Short),
    /// As fractions in lowest terms.
    Fractions(Vec<Term>),
}

/// A sum of numbers times what stands at positions. The positions ascend, and no number is 0.
#[derive(Drop)]
pub struct Line {
    form: Form,
}

impl Model for Line {
    ghost use Rattle.bt_linear_forms.specs.Lines.{Terms, IsLine};

    ghost Value = { Terms };

    ghost use Rattle.bt_linear_forms.specs.inner.Forms.{form_terms};

    ghost view = { λ l. form_terms l.form };

    ghost invariant = { λ l. IsLine (form_terms l.form) };
}

impl Line {
    /// The line of these terms: as small whole numbers where these can hold it, and else as fractions.
    pub fn of(alloc: Global, terms: Vec<Term>) -> Result<Line, AllocError>
        requires { IsLine terms.items }
        ensures { IfOk result (λ line. line ≡ terms.items) }
    {
        match shortened(alloc, &terms)? {
            Some(short) => Ok(Line::whole(short)),
            None => Ok(Line {
                form: Form::Fractions(terms),
            }),
        }
    }

    /// The line that is held as these small whole numbers over one denominator.
    fn whole(short: Short) -> Line
        ensures { result ≡ short }
    {
        short.known();
        Line {
            form: Form::Whole(short),
        }
    }

    /// Tells a proof that the terms are a line. It does nothing when it runs.
    pub fn known(&self)
        ensures { IsLine self.now }
    {
        let _ = &self.form;
    }

    /// The small whole numbers over one denominator, where the line holds these.
    pub fn short(&self) -> Option<&Short>
        ensures { IfSome result (λ short. short.now ≡ self.now) }
    {
        match &self.form {
            Form::Whole(short) => Some(short),
            Form::Fractions(_) => None,
        }
    }

    /// The number of terms.
    pub fn len(&self) -> usize
        ensures { result ≡ length self.now }
    {
        match &self.form {
            Form::Whole(short) => short.len(),
            Form::Fractions(terms) => terms.len(),
        }
    }

    /// The term at a place of the line.
    pub fn term_at(&self, index: usize) -> Term
        requires { index < length self.now }
        ensures { result ≡ slice_index_or self.now index result }
    {
        match &self.form {
            Form::Whole(short) => short.term_at(index),
            Form::Fractions(terms) => terms[index],
        }
    }

    /// The position of the term at a place, and how its number compares with 0, or its negated number where `negated`
    /// is set.
    pub fn signed_at(&self, index: usize, negated: bool) -> (usize, Ordering)
        requires { index < length self.now }
        ensures { IsSignedTerm (signed_terms negated self.now) index result }
    {
        let (position, sign) = self.sign_at(index);
        if negated {
            (position, sign.reverse())
        } else {
            (position, sign)
        }
    }

    /// The position of the term at a place, and how its number compares with 0.
    fn sign_at(&self, index: usize) -> (usize, Ordering)
        requires { index < length self.now }
        ensures { IsSignedTerm self.now index result }
    {
        match &self.form {
            Form::Whole(short) => short.sign_at(index),
            Form::Fractions(terms) => {
                let (position, number) = terms[index];
                (position, number.numerator().cmp(&0))
            }
        }
    }

    /// The positions whose numbers aren't 0, in ascending order, with these numbers.
    pub fn terms(&self, alloc: Global) -> Result<Vec<Term>, AllocError>
        ensures value { IfOk result (λ v. v.items ≡ self.now) }
        ensures known { IsLine self.now }
    {
        match &self.form {
            Form::Whole(short) => short.long_terms(alloc),
            Form::Fractions(terms) => Vec::from_slice(alloc, terms),
        }
    }

    /// The number of a position, where it isn't 0.
    pub fn number_at(&self, position: usize) -> Option<Frac>
        ensures number { result ≡ coefficient_at position self.now }
        ensures known { IfSome result (λ n. HasNumber (position, n)) }
        ensures line { IsLine self.now }
    {
        self.known();
        match &self.form {
            Form::Whole(short) => short.number_at(position),
            Form::Fractions(terms) => found(terms, position),
        }
    }

    /// The line, with all its numbers negated where `negated` is set.
    pub fn with_sign(self, alloc: Global, negated: bool) -> Result<Line, AllocError>
        ensures { IfOk result (λ line. line ≡ signed_terms negated self) }
    {
        let Line { form } = self;
        match form {
            Form::Whole(short) => Ok(Line::whole(short.with_sign(negated))),
            Form::Fractions(terms) => signed_line(alloc, &terms, negated),
        }
    }

    /// The same line. Where it is held as small whole numbers, it takes the room of a list whose terms are dropped, and
    /// else new memory.
    pub fn copied_in(&self, alloc: Global, room: Room) -> Result<Line, AllocError>
        ensures { IfOk result (λ line. line ≡ self.now) }
    {
        match &self.form {
            Form::Whole(short) => Ok(Line::whole(short.copied_in(room)?)),
            Form::Fractions(terms) => signed_line(alloc, terms, false),
        }
    }

    /// Whether the line names a position.
    pub fn names(&self, position: usize) -> bool
        ensures named { IsTrue result → coefficient_at position self.now ≢ None }
        ensures lacks { result ≡ false → coefficient_at position self.now ≡ None }
    {
        match &self.form {
            Form::Whole(short) => short.names(position),
            Form::Fractions(terms) => match found(terms, position) {
                Some(_) => true,
                None => false,
            },
        }
    }

    /// Puts what the position `enters` stands for in place of it, where the line names it: adds the multiple of `zero`,
    /// a line that is 0 and has -1 there, that removes it. Nothing is changed, and the answer says so, where a line
    /// isn't held as small whole numbers. The new terms take the memory of `room`, which gets that of the old ones.
    pub fn substitute(
        &mut self,
        alloc: Global,
        room: &mut Room,
        enters: usize,
        zero: &Line,
    ) -> Result<Change, AllocError>
        ensures { IfOk result (IsChange enters zero.now (Some self.old) (Some self.new)) }
    {
        if let Some(other) = zero.short() {
            if let Form::Whole(line) = &mut self.form {
                let change = line.substitute(alloc, room, enters, other);
                line.known();
                return change;
            }
        }
        Ok(self.unchanged(enters))
    }

    /// What `substitute` answers where it changes nothing, by whether the line names the position that enters.
    fn unchanged(&self, enters: usize) -> Change
        ensures { (zero : Terms) → IsChange enters zero (Some self.now) (Some self.now) result }
    {
        if self.names(enters) {
            Change::Long
        } else {
            Change::Lacks
        }
    }

    /// The line, which names the position `enters`, with what that stands for in place of it, by fractions: the
    /// multiple of `zero`, a line that is 0 and has -1 there, is added that removes the position. Or the first product
    /// or sum that leaves 128 bits.
    pub fn substituted_long(
        &self,
        alloc: Global,
        enters: usize,
        zero: &Line,
    ) -> Result<Result<Line, Unfit>, AllocError>
        requires { coefficient_at enters self.now ≢ None }
        ensures sum { IfOk result (λ o. IfOk o
            (λ line. IsSubstituted enters zero.now (Some self.now) (Some line))) }
        ensures unfit { IfOk result (λ o. IfErr o (IsUnfitChange enters zero.now self.now)) }
    {
        let Some(number) = self.number_at(enters) else {
            unreachable!()
        };
        let left = self.terms(alloc)?;
        let right = zero.terms(alloc)?;
        combined(alloc, &left, &number, &right)
    }

    /// The line that is 0 wherever this line gives what stands at `position`, with -1 at `enters`, in the room of a
    /// list whose terms are dropped. None where this line or that one isn't held as small whole numbers, or this one
    /// doesn't name `enters`.
    pub fn whole_zero(
        &self,
        room: Room,
        position: usize,
        enters: usize,
    ) -> Result<Option<Line>, AllocError>
        requires { position < 2 ^ 64 - 1 }
        ensures zero { (number : Ratio) → coefficient_at enters self.now ≡ Some number
            → IfOk result (λ o. IfSome o (IsZeroLine position self.now number)) }
        ensures known { IsLine self.now }
    {
        self.known();
        let Some(line) = self.short() else {
            return Ok(None);
        };
        match zero_line(room, position, line, enters)? {
            Some(zero) => Ok(Some(Line::whole(zero))),
            None => Ok(None),
        }
    }

    /// The room of a line that is needed no more. None where the line is held as fractions.
    pub fn into_room(self) -> Option<Room> {
        let Line { form } = self;
        match form {
            Form::Whole(short) => Some(short.into_room()),
            Form::Fractions(_) => None,
        }
    }

    /// The line that gives what stands at `enters`, by this line, which is 0 and has the number -1 there, in the room
    /// of a list whose terms are dropped. None where this line or that one isn't held as small whole numbers.
    pub fn whole_entering(&self, room: Room, enters: usize) -> Result<Option<Line>, AllocError>
        requires { enters < 2 ^ 64 - 1 }
        ensures { IfOk result (λ o. IfSome o (IsEntering enters self.now)) }
    {
        let Some(zero) = self.short() else {
            return Ok(None);
        };
        match entering_line(room, enters, zero)? {
            Some(line) => Ok(Some(Line::whole(line))),
            None => Ok(None),
        }
    }
}

/// The number of a position in a line, where it has one.
fn found(terms: &[Term], position: usize) -> Option<Frac>
    requires { IsLine terms.now }
    ensures { result ≡ coefficient_at position terms.now }
{
    for (other, number) in terms {
        if *other == position {
            return Some(*number);
        }
        if *other > position {
            return None;
        }
    }
    None
}

/// The line of these terms, with all numbers negated where `negated` is set.
fn signed_line(alloc: Global, terms: &[Term], negated: bool) -> Result<Line, AllocError>
    requires { IsLine terms.now }
    ensures { IfOk result (λ line. line ≡ signed_terms negated terms.now) }
{
    if negated {
        let others = negated_terms(alloc, terms)?;
        Line::of(alloc, others)
    } else {
        Line::of(alloc, Vec::from_slice(alloc, terms)?)
    }
}

/// The line that names one position alone, with the number 1, or -1 where `negated` is set. It takes the room of a list
/// whose terms are dropped, or new memory where the position doesn't fit 32 bits.
pub fn lone_line(
    alloc: Global,
    room: Room,
    position: usize,
    negated: bool,
) -> Result<Line, AllocError>
    requires { position < 2 ^ 64 - 1 }
    ensures { IfOk result (λ line. line ≡ signed_terms negated ((position, one) ∷ [])) }
{
    match lone_short(room, position)? {
        Some(short) => Ok(Line::whole(short.with_sign(negated))),
        None => signed_line(alloc, &[(position, Frac::whole(1))], negated),
    }
}

/// The terms with the other sign.
fn negated_terms(alloc: Global, terms: &[Term]) -> Result<Vec<Term>, AllocError>
    ensures { IfOk result (λ v. v.items ≡ signed_terms true terms.now) }
{
    let mut others = Vec::with_capacity(alloc, terms.len())?;
    for (position, number) in terms {
        others.push((*position, number.negate()))?;
    }
    Ok(others)
}

/// The line `left` plus `factor`, which isn't 0, times the line `right`; or the first product or sum that leaves 128
/// bits.
pub fn combined(
    alloc: Global,
    left: &[Term],
    factor: &Frac,
    right: &[Term],
) -> Result<Result<Line, Unfit>, AllocError>
    requires factor { factor.now.over ≢ pos 0 }
    requires lowest { IsLowest factor.now }
    requires left { IsLine left.now }
    requires right { IsLine right.now }
    ensures line { IfOk result (λ o. IfOk o IsLine) }
    ensures sum { IfOk result (λ o. IfOk o (IsCombination left.now factor.now right.now)) }
    ensures unfit { IfOk result (λ o. IfErr o (IsUnfit left.now factor.now right.now)) }
{
    match merged(Vec::new(alloc), left, factor, right)? {
        Ok(terms) => Ok(Ok(Line::of(alloc, terms)?)),
        Err(unfit) => Ok(Err(unfit)),
    }
}
