//! Who steers searches.
ghost use Rattle.std.specs.Prelude.{◌≡◌, []};

use bt_cnf::Chooser;
use std::alloc::Global;
use std::mem::replace;

/// The choosers that steer searches: those that steer decisions, and those that steer the search for a layout. Each
/// list serves in turns.
#[derive(Drop)]
pub struct Choosers {
    pub decisions: Vec<Box<dyn Chooser>>,
    pub layouts: Vec<Box<dyn Chooser>>,
}

impl Choosers {
    /// Takes the choosers that steer decisions, and leaves none.
    pub(crate) fn take_decisions(&mut self, alloc: Global) -> Vec<Box<dyn Chooser>>
        ensures taken { result ≡ self.old.decisions }
        ensures left { self.new.decisions.items ≡ [] }
        ensures others { self.new.layouts ≡ self.old.layouts }
    {
        replace(&mut self.decisions, Vec::new(alloc))
    }

    /// Takes the choosers that steer the search for a layout, and leaves none.
    pub(crate) fn take_layouts(&mut self, alloc: Global) -> Vec<Box<dyn Chooser>>
        ensures taken { result ≡ self.old.layouts }
        ensures left { self.new.layouts.items ≡ [] }
        ensures others { self.new.decisions ≡ self.old.decisions }
    {
        replace(&mut self.layouts, Vec::new(alloc))
    }
}
