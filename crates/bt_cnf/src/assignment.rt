//! Assignments that are kept as lists.
ghost use Rattle.std.specs.Prelude.{◌≡◌};
ghost use Rattle.bt_cnf.specs.Assignments.{truth_in};

/// Whether an assignment makes a variable true. Past its end each variable is false.
pub fn is_true(assignment: &[bool], var: usize) -> bool
    ensures { result ≡ truth_in assignment.now var }
{
    match assignment.get(var) {
        Some(truth) => *truth,
        None => false,
    }
}
