//! Where the numbers of one network's formula go in that of two.
ghost use Rattle.std.specs.Prelude.{◌≡◌, IfOk};
ghost use Rattle.bt_same.specs.SameFormula.{shifted, first_shift, second_columns};

use bt_net::Net;
use std::alloc::AllocError;

/// How far the columns or the variables of a network's formula go. The first of them are those of its edges: the
/// flows, or the marks.
#[derive(Clone, Copy)]
pub struct Shift {
    /// How many edges the network has.
    pub edges: usize,
    /// How far the numbers of its edges go.
    pub near: usize,
    /// How far the numbers behind these go.
    pub far: usize,
}

impl Shift {
    /// Where a number goes: `near` further where it is of an edge, else `far` further. One that leaves 64 bits, as no
    /// network's does, is want of memory.
    pub fn put(self, number: usize) -> Result<usize, AllocError>
        ensures { IfOk result (λ put. put ≡ shifted self number) }
    {
        let far = if number < self.edges {
            self.near
        } else {
            self.far
        };
        number.checked_add(far).ok_or(AllocError)
    }

    /// Where the columns and variables of the first of two networks go: the edges of the second come behind its own.
    pub fn of_first(first: &Net, second: &Net) -> Shift
        ensures { result ≡ first_shift first.now second.now }
    {
        Shift {
            edges: first.edges().len(),
            near: 0,
            far: second.edges().len(),
        }
    }

    /// Where the columns of the second of two networks go: its flows behind those of the first; loads and rooms are
    /// those of both.
    pub fn of_second(first: &Net, second: &Net) -> Shift
        ensures { result ≡ second_columns first.now second.now }
    {
        let edges = first.edges().len();
        Shift {
            edges: second.edges().len(),
            near: edges,
            far: edges,
        }
    }
}
