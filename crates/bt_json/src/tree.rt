//! The value that is read, as a tree.
ghost use Rattle.std.specs.Prelude.{◌≡◌, option_map, map, slice_get, string_bytes};
ghost use Rattle.std.specs.Option.{option_copied};
ghost use Rattle.bt_json.specs.Json.{member_of, value_at};
ghost use Rattle.bt_json.specs.Stands.{json_of, members_of};

use crate::decimal::Decimal;
use indexmap::IndexSet;
use std::rc::Rc;

/// A JSON value (RFC 8259).
#[derive(Drop)]
pub enum Tree {
    Null,
    Bool(bool),
    Num(Decimal),
    /// Its escapes are read.
    Text(String),
    List(Vec<Tree>),
    /// The member of a name is the value at that name's place. Objects with the same names in the
    /// same order may share them.
    Object {
        names: Rc<IndexSet<String>>,
        values: Vec<Tree>,
    },
}

/// The value at a place. None where there are fewer.
fn nth(values: &[Tree], place: usize) -> Option<&Tree>
    ensures { option_copied result ≡ slice_get values.now place }
{
    if place < values.len() {
        Some(&values[place])
    } else {
        None
    }
}

/// The value at the name's place among the names. None where the name is not among them.
fn value_at_name<'a>(names: &IndexSet<String>, values: &'a [Tree], name: &str) -> Option<&'a Tree>
    ensures { option_map json_of (option_copied result)
        ≡ value_at (members_of (map string_bytes names.now.keys) (map json_of values.now)) name.now }
{
    let Some(place) = names.get_index_of(name) else {
        return None;
    };
    nth(values, place)
}

impl Tree {
    /// The member of that name. There is none where this is no object, or has no such name.
    pub fn member(&self, name: &str) -> Option<&Tree>
        ensures { option_map json_of (option_copied result) ≡ member_of (json_of self.now) name.now }
    {
        match self {
            Tree::Object { names, values } => value_at_name(names, values, name),
            _ => None,
        }
    }
}
