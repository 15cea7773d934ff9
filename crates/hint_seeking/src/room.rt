//! How much of a rectangle what a request lays takes.
use bt_model::Request;
use bt_net::Demand;
use bt_parts::Rect;

/// The number of cells of a rectangle.
pub fn cells_in(rect: Rect) -> u64 {
    u64::from(rect.width).saturating_mul(u64::from(rect.height))
}

/// How many cells halves of splitters and ends would take if no two shared one.
pub fn taken_in(request: &Request) -> u64 {
    let net = request.net();
    let halves = u64::from(net.splitters()).saturating_mul(2);
    let ends = u64::from(net.inputs()).saturating_add(u64::from(net.outputs()));
    halves.saturating_add(ends)
}

/// Whether halves of splitters and ends take more than `parts` in `of` of the cells of a request's rectangle.
fn takes_more(request: &Request, parts: u64, of: u64) -> bool {
    taken_in(request).saturating_mul(of) > cells_in(request.rect()).saturating_mul(parts)
}

/// Whether halves of splitters and ends take more than three quarters of the cells of a request's rectangle. Where they
/// do, there is mostly no layout.
pub fn is_tight(request: &Request) -> bool {
    takes_more(request, 3, 4)
}

/// Whether halves of splitters and ends take more than eleven twentieths of the cells of a request's rectangle. Where
/// they do, a layout that there is is found by few steps.
pub fn is_close(request: &Request) -> bool {
    takes_more(request, 11, 20)
}

/// Whether a request names cells.
pub fn names_cells(request: &Request) -> bool {
    for demand in request.demands() {
        if let Demand::Pin(_) = demand {
            return true;
        }
    }
    !request.blocks().is_empty()
}
