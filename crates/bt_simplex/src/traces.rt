//! The positions of a basis and the bound rows, as lists.
ghost use Rattle.std.specs.Prelude.{◌≡◌, IfOk};
ghost use Rattle.bt_pivot.specs.SolvedForms.{basis_of};
ghost use Rattle.bt_simplex.specs.Checks.{bound_from};

use bt_pivot::Basis;
use std::alloc::{AllocError, Global};

/// The positions of the basis, in ascending order.
pub fn positions(alloc: Global, basis: &Basis) -> Result<Vec<usize>, AllocError>
    ensures { IfOk result (λ v. v.items ≡ basis_of basis.now) }
{
    let mut positions = Vec::new(alloc);
    for position in 0..basis.len() {
        if basis.has(position) {
            positions.push(position)?;
        }
    }
    Ok(positions)
}

/// The bound rows, in ascending order.
pub fn bound_rows(alloc: Global, bound: &[bool]) -> Result<Vec<usize>, AllocError>
    ensures { IfOk result (λ v. v.items ≡ bound_from 0 bound.now) }
{
    let mut rows = Vec::new(alloc);
    for (row, is_bound) in bound.iter().enumerate() {
        if *is_bound {
            rows.push(row)?;
        }
    }
    Ok(rows)
}
