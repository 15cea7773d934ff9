//! Names for the ends of a layout whose splitters have names.
use bt_layout_check::Names;
use bt_model::Request;
use bt_net::{Edge, End, Start, Target};
use bt_parts::{Cell, Dir, Part};
use bt_recover::Traced;
use hint_numbering::{Wanted, place_wanted};
use std::alloc::{AllocError, Global};

/// A layout with its own network, and the indices of its splitters by their numbers in a request.
#[derive(Clone, Copy)]
struct Own<'a> {
    request: &'a Request,
    parts: &'a [Part],
    splitters: &'a [usize],
    traced: &'a Traced,
}

/// Whether a part stands on a cell, and looks in the direction where one is named.
fn stands_on(part: Part, cell: Cell, dir: Option<Dir>) -> bool {
    match dir {
        Some(dir) => part.cell == cell && part.dir == dir,
        None => part.cell == cell,
    }
}

/// Whether a part with which an end may stand is where the request wants the end.
fn suits(request: &Request, end: End, part: Part) -> bool {
    match (place_wanted(request, end), end) {
        (Wanted::Anywhere, _) => true,
        (Wanted::On(cell, dir), _) => stands_on(part, cell, dir),
        (Wanted::At(side), End::Input(_)) => part.dir == side.opposite(),
        (Wanted::At(side), End::Output(_)) => part.dir == side,
    }
}

/// The index at a place of a list, or one that no part has.
fn index_at(list: &[usize], place: u32) -> usize {
    list.get(place as usize).copied().unwrap_or(usize::MAX)
}

impl Own<'_> {
    /// Whether the part with this index may be that of an end.
    fn may_bear(&self, end: End, index: usize) -> bool {
        match self.parts.get(index) {
            Some(part) => suits(self.request, end, *part),
            None => false,
        }
    }

    /// Whether the two are the same splitter: by its number in the request, and in the layout's own network.
    fn is_splitter(&self, number: u32, own: u32) -> bool {
        index_at(self.splitters, number) == index_at(&self.traced.splitters, own)
    }

    /// Whether an edge of the own network may start where one of the request's does.
    fn starts_as(&self, own: Start, start: Start) -> bool {
        match (own, start) {
            (Start::Split(own), Start::Split(number)) => self.is_splitter(number, own),
            (Start::Input(own), Start::Input(number)) => {
                self.may_bear(End::Input(number), index_at(&self.traced.inputs, own))
            }
            _ => false,
        }
    }

    /// Whether an edge of the own network may end where one of the request's does.
    fn ends_as(&self, own: Target, target: Target) -> bool {
        match (own, target) {
            (Target::Split(own), Target::Split(number)) => self.is_splitter(number, own),
            (Target::Output(own), Target::Output(number)) => {
                self.may_bear(End::Output(number), index_at(&self.traced.outputs, own))
            }
            _ => false,
        }
    }

    /// The first edge of the own network that is left and may be this one of the request's.
    fn edge_as(&self, edge: Edge, left: &[bool]) -> Option<(usize, Edge)> {
        for (place, own) in self.traced.net.edges().iter().enumerate() {
            let is_left = left.get(place).copied().unwrap_or(false);
            if is_left
                && self.starts_as(own.start, edge.start)
                && self.ends_as(own.target, edge.target)
            {
                return Some((place, *own));
            }
        }
        None
    }
}

/// Writes an index at the place of a number.
fn write(list: &mut [usize], number: u32, index: usize) {
    if let Some(name) = list.get_mut(number as usize) {
        *name = index;
    }
}

/// Names the ends of an edge of the request by the parts at the ends of one of the own network.
fn name_both(names: &mut Names, traced: &Traced, edge: Edge, own: Edge) {
    if let (Start::Input(number), Start::Input(own)) = (edge.start, own.start) {
        write(&mut names.inputs, number, index_at(&traced.inputs, own));
    }
    if let (Target::Output(number), Target::Output(own)) = (edge.target, own.target) {
        write(&mut names.outputs, number, index_at(&traced.outputs, own));
    }
}

/// Whether an edge has an end of the network.
fn has_end(edge: Edge) -> bool {
    match (edge.start, edge.target) {
        (Start::Split(_), Target::Split(_)) => false,
        _ => true,
    }
}

/// Names the ends of an edge of the request by those of the first edge of the own network that is left and may be the
/// same, which is left no more. Does nothing where the edge joins two splitters, or no such is left.
fn name_edge(own: Own, names: &mut Names, left: &mut [bool], edge: Edge) {
    if !has_end(edge) {
        return;
    }
    if let Some((place, other)) = own.edge_as(edge, left) {
        name_both(names, own.traced, edge, other);
        if let Some(is_left) = left.get_mut(place) {
            *is_left = false;
        }
    }
}

/// The names of parts, whose own network is `traced`, as those of a request: its splitters have the indices
/// `splitters`, and each end that of an edge which may be the end's, or the greatest number where there is none.
pub fn name_ends(
    alloc: Global,
    request: &Request,
    parts: &[Part],
    splitters: Vec<usize>,
    traced: &Traced,
) -> Result<Names, AllocError> {
    let net = request.net();
    let numbers = Vec::from_slice(alloc, &splitters)?;
    let mut names = Names {
        splitters,
        inputs: vec![in alloc; usize::MAX; net.inputs() as usize]?,
        outputs: vec![in alloc; usize::MAX; net.outputs() as usize]?,
    };
    let mut left = vec![in alloc; true; traced.net.edges().len()]?;
    let own = Own {
        request,
        parts,
        splitters: &numbers,
        traced,
    };
    for edge in net.edges() {
        name_edge(own, &mut names, &mut left, *edge);
    }
    Ok(names)
}
