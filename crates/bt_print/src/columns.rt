//! The names of a flow formula's columns.
ghost use Rattle.std.specs.Prelude.{◌≡◌, ◌++◌};
ghost use Rattle.bt_print.specs.FormulaText.{column_text, column_number};

/// How many columns of each kind stand before the last: those of flows, one for each edge, those of loads, one for
/// each input, and those of rooms, one for each output. A level, with which ends are compared, follows.
#[derive(Clone, Copy, PartialEq, Eq)]
pub struct Columns {
    /// How many edges there are.
    pub edges: usize,
    /// How many inputs there are.
    pub inputs: usize,
    /// How many outputs there are.
    pub outputs: usize,
}

impl Columns {
    /// The letter of a column, and the number of the edge, input or output; a level has none.
    pub fn name(self, column: usize) -> (&'static str, Option<usize>)
        ensures { result.0.now ++ column_number result.1 ≡ column_text self column }
    {
        if column < self.edges {
            return ("f", Some(column));
        }
        let behind = column - self.edges;
        if behind < self.inputs {
            return ("c", Some(behind));
        }
        let behind = behind - self.inputs;
        if behind < self.outputs {
            return ("d", Some(behind));
        }
        ("x", None)
    }
}
