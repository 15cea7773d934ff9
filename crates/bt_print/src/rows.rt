//! Writing the lines of atoms, word by word, without memory.
ghost use Rattle.std.specs.Prelude.{◌≡◌, ◌<◌, ◌∷◌, ◌++◌};
ghost use Rattle.bt_io.specs.Bytes.{WritesText};
ghost use Rattle.bt_io.specs.Passages.{passage};
ghost use Rattle.bt_log.specs.LogText.{words};
ghost use Rattle.bt_print.specs.FormulaText.{relation_text, row_head, row_line, rows_text, term_text};
ghost use Rattle.bt_print.specs.inner.Atoms.{atom_of, atom_told, row_at_text};

use crate::columns::Columns;
use bt_cnf::Formula;
use bt_frac::{Frac, Relation, Row, TEXT_MAX};
use bt_io::{Sink, WriteFault, write_all_of, write_pieces};
use itoa::Buffer;

/// Writes a line for each atom.
pub fn print_rows<K: Sink>(
    columns: Columns,
    formula: &Formula,
    sink: &mut K,
) -> Result<(), WriteFault>
    ensures { WritesText (passage K.held K.faults sink.old sink.new) (rows_text columns formula.now) result }
{
    for place in 0..formula.vars() {
        print_row_at(columns, formula, place, sink)?;
    }
    Ok(())
}

/// Writes the line of the variable at a place, where it is an atom.
fn print_row_at<K: Sink>(
    columns: Columns,
    formula: &Formula,
    place: usize,
    sink: &mut K,
) -> Result<(), WriteFault>
    requires { place < formula.now.vars }
    ensures { WritesText (passage K.held K.faults sink.old sink.new)
        (row_at_text columns formula.now.atoms place) result }
{
    match row_at(formula, place) {
        Some(row) => print_row(columns, place, row, sink),
        None => Ok(()),
    }
}

/// The row of the variable at a place, where it is an atom.
fn row_at(formula: &Formula, place: usize) -> Option<&Row>
    requires { place < formula.now.vars }
    ensures { atom_of place formula.now.atoms ≡ atom_told place result }
{
    let Some(var) = formula.var_at(place) else {
        return None;
    };
    let Some(row) = formula.row_of(var) else {
        return None;
    };
    Some(&formula.rows()[row])
}

/// Writes the line of an atom: its variable, its relation, its bound, and its terms.
fn print_row<K: Sink>(
    columns: Columns,
    place: usize,
    row: &Row,
    sink: &mut K,
) -> Result<(), WriteFault>
    ensures { WritesText (passage K.held K.faults sink.old sink.new)
        (row_line columns (place, row.now)) result }
{
    print_head(place, row, sink)?;
    print_terms(columns, row.terms(), sink)?;
    write_all_of(sink, b"\n")
}

/// Writes the words of an atom's line before its terms: its variable, from 1, its relation and its bound.
fn print_head<K: Sink>(place: usize, row: &Row, sink: &mut K) -> Result<(), WriteFault>
    ensures { WritesText (passage K.held K.faults sink.old sink.new) (row_head place row.now) result }
{
    let mut number = Buffer::new();
    let mut bound = [0; TEXT_MAX];
    let number = number.format(place as u128 + 1).as_bytes();
    let relation = relation_name(row.relation()).as_bytes();
    let len = row.bound().text(&mut bound);
    write_pieces(
        sink,
        &[b"c row ", number, b" ", relation, b" ", &bound[..len]],
    )
}

/// Writes a space and a word for each term.
fn print_terms<K: Sink>(
    columns: Columns,
    terms: &[(usize, Frac)],
    sink: &mut K,
) -> Result<(), WriteFault>
    ensures { WritesText (passage K.held K.faults sink.old sink.new)
        (words (term_text columns) terms.now) result }
{
    for term in terms {
        print_term(columns, *term, sink)?;
    }
    Ok(())
}

/// Writes a space and a term: its coefficient and its column.
fn print_term<K: Sink>(
    columns: Columns,
    term: (usize, Frac),
    sink: &mut K,
) -> Result<(), WriteFault>
    ensures { WritesText (passage K.held K.faults sink.old sink.new) (32 ∷ term_text columns term) result }
{
    let mut coefficient = [0; TEXT_MAX];
    let mut number = Buffer::new();
    let len = term.1.text(&mut coefficient);
    let (letter, place) = columns.name(term.0);
    let letter = letter.as_bytes();
    match place {
        Some(place) => {
            let number = number.format(place).as_bytes();
            write_pieces(sink, &[b" ", &coefficient[..len], b"*", letter, number])
        }
        None => write_pieces(sink, &[b" ", &coefficient[..len], b"*", letter]),
    }
}

/// The word for how a row stands to its bound.
fn relation_name(relation: Relation) -> &'static str
    ensures { result.now ≡ relation_text relation }
{
    match relation {
        Relation::AtLeast => ">=",
        Relation::Above => ">",
        Relation::Equal => "=",
    }
}
