//! The least rectangle that holds parts.
ghost use Rattle.std.specs.Prelude.{[], ◌∷◌, ◌++◌, Contains, List};
ghost use Rattle.bt_parts.specs.Cells.{IsInRange};
ghost use Rattle.bt_parts.specs.Layouts.{AreInRange};
ghost use Rattle.bt_parts.specs.declared.part.Part.{Part as APart};
ghost use Rattle.bt_grids.specs.Spanned.{IsSpanned};
ghost use Rattle.bt_grids.specs.inner.Spans.{Encloses, IsNear, IsSpanOf};

use bt_parts::{Cell, Part, cells_of};

/// The least and the greatest coordinates of cells.
#[derive(Clone, Copy)]
pub struct Span {
    pub least: Cell,
    pub greatest: Cell,
}

/// How many cells the least rectangle has that holds the parts; 0 for no parts.
pub fn spanned(parts: &[Part]) -> u64
    requires { AreInRange parts.now }
    ensures { IsSpanned result parts.now }
{
    let Some(first) = parts.first() else {
        return 0;
    };
    let mut span = Span {
        least: first.cell,
        greatest: first.cell,
    };
    for part in parts {
        span = with_part(span, part);
    }
    span.cells()
}

/// The span with the cells of one part more.
fn with_part(span: Span, part: &Part) -> Span
    requires part { IsInRange part.now.cell }
    requires least { IsNear span.least }
    requires greatest { IsNear span.greatest }
    ensures least { IsNear result.least }
    ensures greatest { IsNear result.greatest }
    ensures within { (parts : List APart) → IsSpanOf parts span → Contains parts part.now
        → IsSpanOf parts result }
    ensures encloses { (seen : List APart) → Encloses span seen → Encloses result (seen ++ part.now ∷ []) }
{
    let (first, second) = cells_of(part);
    let last = second.unwrap_or(first);
    Span {
        least: Cell {
            x: span.least.x.min(first.x),
            y: span.least.y.min(first.y),
        },
        greatest: Cell {
            x: span.greatest.x.max(last.x),
            y: span.greatest.y.max(last.y),
        },
    }
}

impl Span {
    /// How many cells the rectangle has from the least to the greatest coordinates, both included.
    fn cells(self) -> u64
        requires least { IsNear self.least }
        requires greatest { IsNear self.greatest }
        ensures { (parts : List APart) → IsSpanOf parts self → Encloses self parts
            → IsSpanned result parts }
    {
        let Span { least, greatest } = self;
        let across = u64::from(least.x.abs_diff(greatest.x)) + 1;
        let down = u64::from(least.y.abs_diff(greatest.y)) + 1;
        across.saturating_mul(down)
    }
}
