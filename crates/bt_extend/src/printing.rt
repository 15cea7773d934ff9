//! Writing the line of a definition, without memory.
ghost use Rattle.std.specs.Prelude.{◌++◌, ◌∷◌, ◌+◌, codes, decimal};
ghost use Rattle.bt_io.specs.Bytes.{WritesText};
ghost use Rattle.bt_io.specs.Passages.{passage};
ghost use Rattle.bt_frac.specs.Texts.{frac_text};
ghost use Rattle.bt_log.specs.LogText.{words};
ghost use Rattle.bt_extend.specs.Texts.{definition_line, definitions_text, named_text, term_text};
ghost use Rattle.bt_extend.specs.inner.Printed.{form_after, forms_after};
ghost use Rattle.bt_extend.specs.declared.definition.Definition.TheVariants.{Comparison, Cases, Disjunction};

use crate::definition::{Definition, NamedLit};
use crate::form::Form;
use bt_frac::{Frac, TEXT_MAX};
use bt_io::{Sink, WriteFault, write_all_of, write_pieces};
use bt_log::{Spelled, Word, print_words};
use itoa::Buffer;

impl Spelled for NamedLit {
    ghost text = { named_text };

    fn word(&self) -> Word {
        Word::signed(self.positive, self.var)
    }
}

/// Writes the lines of definitions.
///
/// Where the sink fails, which its count of faults shows, a proper prefix of the lines was written.
pub fn print_definitions<K: Sink>(
    definitions: &[Definition],
    sink: &mut K,
) -> Result<(), WriteFault>
    ensures { WritesText (passage K.held K.faults sink.old sink.new)
        (definitions_text definitions.now) result }
{
    for definition in definitions {
        print_definition(definition, sink)?;
    }
    Ok(())
}

/// Writes the line of a definition.
///
/// Where the sink fails, which its count of faults shows, a proper prefix of the line was written.
fn print_definition<K: Sink>(definition: &Definition, sink: &mut K) -> Result<(), WriteFault>
    ensures { WritesText (passage K.held K.faults sink.old sink.new) (definition_line definition.now) result }
{
    match definition {
        Definition::Comparison(form) => print_comparison(form, sink),
        Definition::Cases(var, first, second) => print_cases(*var, first, second, sink),
        Definition::Disjunction(lits) => print_disjunction(lits.as_slice(), sink),
    }
}

/// Writes the line of a comparison.
fn print_comparison<K: Sink>(form: &Form, sink: &mut K) -> Result<(), WriteFault>
    ensures { WritesText (passage K.held K.faults sink.old sink.new)
        (definition_line (Comparison form.now)) result }
{
    print_form(b"p", form, sink)?;
    write_all_of(sink, b"\n")
}

/// Writes the line of a column by cases.
fn print_cases<K: Sink>(
    var: usize,
    first: &Form,
    second: &Form,
    sink: &mut K,
) -> Result<(), WriteFault>
    ensures { WritesText (passage K.held K.faults sink.old sink.new)
        (definition_line (Cases var first.now second.now)) result }
{
    print_variable(var, sink)?;
    print_forms(first, second, sink)?;
    write_all_of(sink, b"\n")
}

/// Writes the line of a disjunction.
fn print_disjunction<K: Sink>(lits: &[NamedLit], sink: &mut K) -> Result<(), WriteFault>
    ensures { WritesText (passage K.held K.faults sink.old sink.new)
        (definition_line (Disjunction lits.now)) result }
{
    print_words(b"v", lits, sink)?;
    write_all_of(sink, b" 0\n")
}

/// Writes the front of the line of a column by cases, up to the number of the variable.
fn print_variable<K: Sink>(var: usize, sink: &mut K) -> Result<(), WriteFault>
    ensures { WritesText (passage K.held K.faults sink.old sink.new)
        (codes "c " ++ decimal (var + 1)) result }
{
    let mut number = Buffer::new();
    let number = number.format(var as u128 + 1).as_bytes();
    write_pieces(sink, &[b"c ", number])
}

/// Writes two forms, each after a space.
fn print_forms<K: Sink>(first: &Form, second: &Form, sink: &mut K) -> Result<(), WriteFault>
    ensures { WritesText (passage K.held K.faults sink.old sink.new)
        (forms_after first.now second.now) result }
{
    print_form(b"", first, sink)?;
    print_form(b"", second, sink)
}

/// Writes a head, and behind it a form: its number, its terms, and a 0.
fn print_form<K: Sink>(head: &[u8], form: &Form, sink: &mut K) -> Result<(), WriteFault>
    ensures { WritesText (passage K.held K.faults sink.old sink.new) (form_after head.now form.now) result }
{
    print_number(head, form.constant(), sink)?;
    print_terms(form.terms(), sink)?;
    write_all_of(sink, b" 0")
}

/// Writes a head, and a fraction behind it.
fn print_number<K: Sink>(head: &[u8], number: Frac, sink: &mut K) -> Result<(), WriteFault>
    ensures { WritesText (passage K.held K.faults sink.old sink.new)
        (head.now ++ 32 ∷ frac_text number) result }
{
    let mut text = [0; TEXT_MAX];
    let len = number.text(&mut text);
    write_pieces(sink, &[head, b" ", &text[..len]])
}

/// Writes a space and the words of each term.
fn print_terms<K: Sink>(terms: &[(usize, Frac)], sink: &mut K) -> Result<(), WriteFault>
    ensures { WritesText (passage K.held K.faults sink.old sink.new) (words term_text terms.now) result }
{
    for term in terms {
        print_term(*term, sink)?;
    }
    Ok(())
}

/// Writes a space and the words of a term: its coefficient, and the number of its column.
fn print_term<K: Sink>(term: (usize, Frac), sink: &mut K) -> Result<(), WriteFault>
    ensures { WritesText (passage K.held K.faults sink.old sink.new) (32 ∷ term_text term) result }
{
    let mut coefficient = [0; TEXT_MAX];
    let mut number = Buffer::new();
    let len = term.1.text(&mut coefficient);
    let number = number.format(term.0 as u128 + 1).as_bytes();
    write_pieces(sink, &[b" ", &coefficient[..len], b" ", number])
}
