//! Reading the line of a definition.
ghost use Rattle.std.specs.Prelude.{◌≡◌, ◌+◌, ◌<◌, ◌^◌, ◌∷◌, List, ℕ, IfOk, IfSome, IfNone, MatchOption};
ghost use Rattle.bt_text.specs.Pieces.{BeginsWith};
ghost use Rattle.bt_frac.specs.Ratio.{IsLowest};
ghost use Rattle.bt_frac.specs.Texts.{frac_text};
ghost use Rattle.bt_extend.specs.Items.{LeadsToItem};
ghost use Rattle.bt_extend.specs.Texts.{IsDefinitionRead};
ghost use Rattle.bt_extend.specs.inner.Told.{AreForms, AreNoForms, BeginsWithForm, BeginsWithNoForm, IsFormText, IsNoForm};
ghost use Rattle.bt_extend.specs.inner.Told.{TellForm, TellNoTerms, number_of, words_of};

use crate::definition::{Definition, Literals, NamedLit};
use crate::form::Form;
use crate::item::Nonzero;
use crate::items::{next_item, read_items};
use crate::written::place_of;
use bt_frac::Frac;
use bt_text::next_piece;
use std::alloc::{AllocError, Global};

/// The definition of a line. None where the line is that of no definition.
pub fn read_definition(alloc: Global, line: &[u8]) -> Result<Option<Definition>, AllocError>
    ensures { IfOk result (IsDefinitionRead line.now) }
{
    match line {
        [b'p', rest @ ..] => read_comparison(alloc, rest),
        [b'c', rest @ ..] => read_cases(alloc, rest),
        [b'v', rest @ ..] => read_disjunction(alloc, rest),
        _ => Ok(None),
    }
}

/// Reads a comparison, whose line begins with `p` and goes on with this text.
fn read_comparison(alloc: Global, text: &[u8]) -> Result<Option<Definition>, AllocError>
    ensures { IfOk result (IsDefinitionRead (112 ∷ text.now)) }
{
    match read_form(alloc, text) {
        Ok(Some((form, rest))) => {
            if rest.is_empty() {
                Ok(Some(Definition::Comparison(form)))
            } else {
                Ok(None)
            }
        }
        Ok(None) => Ok(None),
        Err(fault) => Err(fault),
    }
}

/// Reads a column by cases, whose line begins with `c` and goes on with this text.
fn read_cases(alloc: Global, text: &[u8]) -> Result<Option<Definition>, AllocError>
    ensures { IfOk result (IsDefinitionRead (99 ∷ text.now)) }
{
    let Some((number, forms)) = next_item::<u64>(text) else {
        return Ok(None);
    };
    match read_forms(alloc, forms) {
        Ok(Some((first, second))) => Ok(Some(Definition::Cases(place_of(number), first, second))),
        Ok(None) => Ok(None),
        Err(fault) => Err(fault),
    }
}

/// The two forms whose words make up a text. None where the text isn't such.
fn read_forms(alloc: Global, text: &[u8]) -> Result<Option<(Form, Form)>, AllocError>
    ensures { IfOk result (λ o. MatchOption o (AreNoForms text.now)
        (λ forms. AreForms text.now forms.0 forms.1)) }
{
    match read_form(alloc, text) {
        Ok(Some((first, rest))) => read_second(alloc, first, rest),
        Ok(None) => Ok(None),
        Err(fault) => Err(fault),
    }
}

/// The first form, and a second one, whose words make up a text. None where the text isn't such.
fn read_second(alloc: Global, first: Form, text: &[u8]) -> Result<Option<(Form, Form)>, AllocError>
    ensures { IfOk result (λ o. MatchOption o (IsNoForm text.now)
        (λ forms. (forms.0 ≡ first) × IsFormText text.now forms.1)) }
{
    match read_form(alloc, text) {
        Ok(Some((second, rest))) => {
            if rest.is_empty() {
                Ok(Some((first, second)))
            } else {
                Ok(None)
            }
        }
        Ok(None) => Ok(None),
        Err(fault) => Err(fault),
    }
}

/// Reads a disjunction, whose line begins with `v` and goes on with this text.
fn read_disjunction(alloc: Global, text: &[u8]) -> Result<Option<Definition>, AllocError>
    ensures { IfOk result (IsDefinitionRead (118 ∷ text.now)) }
{
    let mut lits = Vec::new(alloc);
    let rest = read_items::<NamedLit>(&mut lits, text)?;
    if rest == b" 0".as_slice() {
        Ok(Some(Definition::Disjunction(Literals::new(lits))))
    } else {
        Ok(None)
    }
}

/// The form whose words come next in a text, and what follows them. None where none does.
fn read_form(alloc: Global, text: &[u8]) -> Result<Option<(Form, &[u8])>, AllocError>
    ensures { IfOk result (λ o. MatchOption o (BeginsWithNoForm text.now)
        (λ read. BeginsWithForm text.now read.0 read.1.now)) }
{
    match next_item::<Frac>(text) {
        Some(item) => read_behind(alloc, item.0, item.1),
        None => Ok(None),
    }
}

/// The form of which the number was read, and what follows its words. None where the text doesn't go on as a form does.
fn read_behind(
    alloc: Global,
    number: Frac,
    text: &[u8],
) -> Result<Option<(Form, &[u8])>, AllocError>
    ensures { (whole : List ℕ) → LeadsToItem IsLowest frac_text whole number text.now →
        IfOk result (λ o. MatchOption o (BeginsWithNoForm whole)
        (λ read. BeginsWithForm whole read.0 read.1.now)) }
{
    let mut words = Vec::new(alloc);
    let rest = read_items::<Nonzero>(&mut words, text)?;
    let Some(after) = after_zero(rest) else {
        return Ok(None);
    };
    match form_of(alloc, number, &words) {
        Ok(Some(form)) => Ok(Some((form, after))),
        Ok(None) => Ok(None),
        Err(fault) => Err(fault),
    }
}

/// What follows the word 0, which has to come next after a space.
fn after_zero(text: &[u8]) -> Option<&[u8]>
    ensures some { IfSome result (λ after. (text.now ≡ 32 ∷ 48 ∷ after.now) × BeginsWith 32 after.now) }
    ensures none { IfNone result ((after : List ℕ) → BeginsWith 32 after → text.now ≡ 32 ∷ 48 ∷ after → ⊥) }
{
    let Some((word, rest)) = next_piece(text, b' ') else {
        return None;
    };
    if word == b"0".as_slice() {
        Some(rest)
    } else {
        None
    }
}

/// The form of a number and of the words of its terms. None where those are not the terms of a form.
fn form_of(alloc: Global, number: Frac, words: &[Nonzero]) -> Result<Option<Form>, AllocError>
    ensures { IfOk result (TellForm number words.now) }
{
    match terms_of(alloc, words)? {
        Some(terms) => Ok(Form::new(number, terms)),
        None => Ok(None),
    }
}

/// The terms that words tell: of each its coefficient, and the number of its column. None where a number is no
/// column's, or the last one is missing.
fn terms_of(alloc: Global, words: &[Nonzero]) -> Result<Option<Vec<(usize, Frac)>>, AllocError>
    ensures { IfOk result (λ o. MatchOption o (TellNoTerms words.now)
        (λ terms. words.now ≡ words_of terms.items)) }
{
    let mut terms = Vec::new(alloc);
    let mut rest = words;
    while let [coefficient, number, after @ ..] = rest {
        let Some(column) = place_in(number.fraction) else {
            return Ok(None);
        };
        terms.push((column, coefficient.fraction))?;
        rest = after;
    }
    if rest.is_empty() {
        Ok(Some(terms))
    } else {
        Ok(None)
    }
}

/// The place that a number names, where it is a whole number from 1 to 2^64.
fn place_in(number: Frac) -> Option<usize>
    ensures some { IfSome result (λ place. number ≡ number_of place) }
    ensures none { IfNone result ((place : ℕ) → place < 2 ^ 64 → number ≡ number_of place → ⊥) }
{
    if number.denominator() != 1 {
        return None;
    }
    let over = number.numerator();
    if over < 1 {
        return None;
    }
    usize::try_from(over - 1).ok()
}
