//! Writing whole formulas.
ghost use Rattle.std.specs.Prelude.{◌≡◌};
ghost use Rattle.bt_io.specs.Bytes.{WritesText};
ghost use Rattle.bt_io.specs.Passages.{passage};
ghost use Rattle.bt_print.specs.Legends.{block_line, flow_formula_text, mark_block, place_formula_text};

use crate::blocks::{Block, place_blocks, print_block, print_blocks};
use crate::clauses::print_clauses;
use crate::columns::Columns;
use crate::rows::print_rows;
use bt_cnf::Formula;
use bt_io::{Sink, WriteFault};
use bt_place::Starts;

/// Writes the one text of a flow formula, of a network with so many edges and inputs: a comment that the first
/// variables are the marks of its edges, a comment with the row of each atom, and the clauses in DIMACS.
///
/// Where the sink fails, which its count of faults shows, a proper prefix of the text was written.
pub fn print_flow_formula<K: Sink>(
    columns: Columns,
    formula: &Formula,
    sink: &mut K,
) -> Result<(), WriteFault>
    ensures { WritesText (passage K.held K.faults sink.old sink.new)
        (flow_formula_text columns formula.now) result }
{
    print_marks(columns, sink)?;
    print_rows(columns, formula, sink)?;
    print_clauses(formula, sink)
}

/// Writes the one text of a placement formula whose blocks begin there: a comment with what each block of its
/// variables means, and the clauses in DIMACS.
///
/// Where the sink fails, which its count of faults shows, a proper prefix of the text was written.
pub fn print_place_formula<K: Sink>(
    starts: Starts,
    formula: &Formula,
    sink: &mut K,
) -> Result<(), WriteFault>
    ensures { WritesText (passage K.held K.faults sink.old sink.new)
        (place_formula_text starts formula.now) result }
{
    print_blocks(&place_blocks(starts), sink)?;
    print_clauses(formula, sink)
}

/// Writes the line that says that the first variables are the marks of edges.
fn print_marks<K: Sink>(columns: Columns, sink: &mut K) -> Result<(), WriteFault>
    ensures { WritesText (passage K.held K.faults sink.old sink.new)
        (block_line (mark_block columns)) result }
{
    let marks = Block {
        from: 0,
        end: columns.edges,
        meaning: "mark edge",
    };
    print_block(&marks, sink)
}
