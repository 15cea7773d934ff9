//! Writing the header and the clauses of a formula, word by word, without memory.
ghost use Rattle.std.specs.Prelude.{◌≡◌, ◌<◌, ◌∷◌, ◌++◌, [], slice_get, Some, length};
ghost use Rattle.bt_io.specs.Bytes.{WritesText};
ghost use Rattle.bt_io.specs.Passages.{passage};
ghost use Rattle.bt_log.specs.LogText.{lit_text};
ghost use Rattle.bt_print.specs.FormulaText.{clause_line, clauses_text, dimacs_header, literals_text};

use bt_cnf::{Formula, Lit};
use bt_io::{Sink, WriteFault, write_all_of, write_pieces};
use itoa::Buffer;

/// Writes a formula's header, and a line for each clause.
pub fn print_clauses<K: Sink>(formula: &Formula, sink: &mut K) -> Result<(), WriteFault>
    ensures { WritesText (passage K.held K.faults sink.old sink.new) (clauses_text formula.now) result }
{
    print_header(formula, sink)?;
    for place in 0..formula.clauses() {
        print_clause(clause_at(formula, place), sink)?;
    }
    Ok(())
}

/// Writes the header: how many variables and clauses there are.
fn print_header<K: Sink>(formula: &Formula, sink: &mut K) -> Result<(), WriteFault>
    ensures { WritesText (passage K.held K.faults sink.old sink.new) (dimacs_header formula.now) result }
{
    let mut vars = Buffer::new();
    let mut clauses = Buffer::new();
    let vars = vars.format(formula.vars()).as_bytes();
    let clauses = clauses.format(formula.clauses()).as_bytes();
    write_pieces(sink, &[b"p cnf ", vars, b" ", clauses, b"\n"])
}

/// The literals of the clause at a place.
fn clause_at(formula: &Formula, place: usize) -> &[Lit]
    requires { place < length formula.now.clauses }
    ensures { slice_get formula.now.clauses place ≡ Some result.now }
{
    match formula.clause_at(place) {
        Some(id) => formula.clause(id),
        None => &[],
    }
}

/// Writes the line of a clause: its literals, and 0.
fn print_clause<K: Sink>(lits: &[Lit], sink: &mut K) -> Result<(), WriteFault>
    ensures { WritesText (passage K.held K.faults sink.old sink.new) (clause_line lits.now) result }
{
    print_literals(lits, sink)?;
    write_all_of(sink, b"0\n")
}

/// Writes each literal, and a space behind it.
fn print_literals<K: Sink>(lits: &[Lit], sink: &mut K) -> Result<(), WriteFault>
    ensures { WritesText (passage K.held K.faults sink.old sink.new) (literals_text lits.now) result }
{
    for lit in lits {
        print_literal(*lit, sink)?;
    }
    Ok(())
}

/// Writes a literal and a space.
fn print_literal<K: Sink>(lit: Lit, sink: &mut K) -> Result<(), WriteFault>
    ensures { WritesText (passage K.held K.faults sink.old sink.new) (lit_text lit ++ 32 ∷ []) result }
{
    let mut number = Buffer::new();
    let number = number.format(lit.var.place() as u128 + 1).as_bytes();
    if lit.positive {
        write_pieces(sink, &[number, b" "])
    } else {
        write_pieces(sink, &[b"-", number, b" "])
    }
}
