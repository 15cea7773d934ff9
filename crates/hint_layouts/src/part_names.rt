//! Names of a layout's parts.
use crate::graph::Nodes;
use crate::matching::Pair;
use crate::placed::grid_of;
use bt_layout_check::Names;
use bt_model::Request;
use bt_net::End;
use bt_parts::{Cell, Dir, Part};
use bt_recover::{Grid, RecoverFault, Traced, recover};
use hint_numbering::{Wanted, place_wanted};
use std::alloc::{AllocError, Global};

/// Which ends are meant.
#[derive(Clone, Copy, PartialEq, Eq)]
enum Kind {
    Inputs,
    Outputs,
}

/// The colours of inputs, of outputs and of splitters, of which nothing more is known.
const INPUT: u64 = 1;

const OUTPUT: u64 = 2;

const SPLITTER: u64 = 3;
/// What tells the colours of ends on cells, and of those at sides, from the others.
const ON_CELL: u64 = 1 << 40;

const AT_SIDE: u64 = 1 << 41;

/// The network of a layout with its own numbers, where the parts show one.
fn own_of(alloc: Global, grid: &Grid) -> Result<Option<Traced>, AllocError> {
    match recover(alloc, grid) {
        Ok(traced) => Ok(Some(traced)),
        Err(RecoverFault::Memory) => Err(AllocError),
        Err(_) => Ok(None),
    }
}

/// The side at which the part of an end stands: an input comes in across it, an output leaves across it.
fn side_of(part: &Part, kind: Kind) -> Dir {
    match kind {
        Kind::Inputs => part.dir.opposite(),
        Kind::Outputs => part.dir,
    }
}

/// Whether the part of an end stands on the cell or at the side where the end is wanted, and looks in the wanted
/// direction where one is named.
fn stands(part: &Part, kind: Kind, wanted: Wanted) -> bool {
    match wanted {
        Wanted::Anywhere => true,
        Wanted::On(cell, dir) => part.cell == cell && dir.is_none_or(|dir| dir == part.dir),
        Wanted::At(side) => side == side_of(part, kind),
    }
}

/// The place of an end in its list as its number, which fits.
fn number_of(place: usize) -> u32 {
    u32::try_from(place).unwrap_or(u32::MAX)
}

/// The end of a kind with a number.
fn end_of(kind: Kind, place: usize) -> End {
    match kind {
        Kind::Inputs => End::Input(number_of(place)),
        Kind::Outputs => End::Output(number_of(place)),
    }
}

/// The colour of ends of a kind, of which nothing more is known.
fn plain(kind: Kind) -> u64 {
    match kind {
        Kind::Inputs => INPUT,
        Kind::Outputs => OUTPUT,
    }
}

/// A number for each direction.
fn code_of(dir: Dir) -> u64 {
    match dir {
        Dir::North => 0,
        Dir::East => 1,
        Dir::South => 2,
        Dir::West => 3,
    }
}

/// The colour of an end of a kind on a cell that an end is pinned to.
fn on_cell(kind: Kind, cell: Cell) -> u64 {
    let (x, y) = (
        u64::from(cell.x.unsigned_abs()),
        u64::from(cell.y.unsigned_abs()),
    );
    plain(kind)
        .wrapping_add(ON_CELL)
        .wrapping_add(x.wrapping_mul(16))
        .wrapping_add(y.wrapping_mul(1 << 16))
}

/// The colour of an end of a kind at a side, where each end of this kind is wanted at some side or on some cell.
fn at_side(kind: Kind, side: Dir) -> u64 {
    plain(kind)
        .wrapping_add(AT_SIDE)
        .wrapping_add(code_of(side).wrapping_mul(16))
}

/// The part whose index stands at a place of a list; none where there is no such.
fn part_of<'a>(parts: &'a [Part], list: &[usize], place: usize) -> Option<&'a Part> {
    parts.get(list.get(place).copied()?)
}

/// A search for names: the request, the parts, and what these show.
#[derive(Drop)]
struct Naming<'a> {
    request: &'a Request,
    parts: &'a [Part],
    own: &'a Traced,
    /// The nodes of the request's network, and those of the layout's.
    asked: Nodes,
    found: Nodes,
}

impl Naming<'_> {
    /// Where the ends of a kind are wanted, in the order of their numbers.
    fn wanted(&self, alloc: Global, kind: Kind) -> Result<Vec<Wanted>, AllocError> {
        let count = match kind {
            Kind::Inputs => self.asked.inputs,
            Kind::Outputs => self.asked.outputs,
        };
        let mut list = Vec::new(alloc);
        for place in 0..count {
            list.push(place_wanted(self.request, end_of(kind, place)))?;
        }
        Ok(list)
    }

    /// The indices of the parts at which the layout's ends of a kind stand.
    fn ends(&self, kind: Kind) -> &[usize] {
        match kind {
            Kind::Inputs => &self.own.inputs,
            Kind::Outputs => &self.own.outputs,
        }
    }

    /// Whether the layout's end with this node stands where the request wants its end with this number; both are of a
    /// kind. False where the node is no end of the kind.
    fn suits_end(&self, kind: Kind, number: usize, node: usize) -> bool {
        let first = match kind {
            Kind::Inputs => self.found.input(0),
            Kind::Outputs => self.found.output(0),
        };
        match part_of(self.parts, self.ends(kind), node.wrapping_sub(first)) {
            Some(part) => stands(part, kind, place_wanted(self.request, end_of(kind, number))),
            None => false,
        }
    }

    /// Whether all ends of the layout suit those of the request, where `matched` has for each node of the request one
    /// of the layout.
    fn suits(&self, matched: &[usize]) -> bool {
        for input in 0..self.asked.inputs {
            let node = matched.get(self.asked.input(input)).copied();
            if !self.suits_end(Kind::Inputs, input, node.unwrap_or(0)) {
                return false;
            }
        }
        for output in 0..self.asked.outputs {
            let node = matched.get(self.asked.output(output)).copied();
            if !self.suits_end(Kind::Outputs, output, node.unwrap_or(0)) {
                return false;
            }
        }
        true
    }

    /// Adds the first colours of the layout's ends of a kind: by the cells that ends are pinned to, and where none may
    /// stand anywhere, by their sides.
    fn add_ends(
        &self,
        colours: &mut Vec<u64>,
        kind: Kind,
        wanted: &[Wanted],
    ) -> Result<(), AllocError> {
        for index in self.ends(kind) {
            let colour = match self.parts.get(*index) {
                Some(part) => colour_found(kind, part, wanted),
                None => plain(kind),
            };
            colours.push(colour)?;
        }
        Ok(())
    }

    /// The first colours of the request's nodes and then of the layout's: by their kinds, and of ends by where they are
    /// wanted, or stand.
    fn colours(&self, alloc: Global) -> Result<Vec<u64>, AllocError> {
        let inputs = self.wanted(alloc, Kind::Inputs)?;
        let outputs = self.wanted(alloc, Kind::Outputs)?;
        let mut colours = Vec::new(alloc);
        add_wanted(&mut colours, Kind::Inputs, &inputs)?;
        add_wanted(&mut colours, Kind::Outputs, &outputs)?;
        add_splitters(&mut colours, self.asked.splitters)?;
        self.add_ends(&mut colours, Kind::Inputs, &inputs)?;
        self.add_ends(&mut colours, Kind::Outputs, &outputs)?;
        add_splitters(&mut colours, self.found.splitters)?;
        Ok(colours)
    }

    /// For each node of the request's network one of the layout's, so that all ends suit; none where none are found.
    fn matched(&self, alloc: Global) -> Result<Option<Vec<usize>>, AllocError> {
        let mut joins = self.asked.joins(alloc, self.request.net())?;
        let others = self.found.joins(alloc, &self.own.net)?;
        joins.extend_from_slice(&others)?;
        let half = self.asked.end();
        let pair = Pair { joins, half };
        pair.matched(alloc, self.colours(alloc)?, |matched| self.suits(matched))
    }

    /// The parts that bear the numbers below `count` of inputs, outputs or splitters. `nodes` are the first node of
    /// these in the request's network and that in the layout's, and `list` has the parts of the latter.
    fn names(
        &self,
        alloc: Global,
        matched: &[usize],
        nodes: (usize, usize),
        list: &[usize],
        count: usize,
    ) -> Result<Vec<usize>, AllocError> {
        let mut names = Vec::new(alloc);
        for number in 0..count {
            let node = matched.get(nodes.0.wrapping_add(number)).copied();
            let place = node.unwrap_or(0).wrapping_sub(nodes.1);
            names.push(list.get(place).copied().unwrap_or(0))?;
        }
        Ok(names)
    }

    /// The parts that bear the names, where it is known which nodes are the same.
    fn named(&self, alloc: Global, matched: &[usize]) -> Result<Names, AllocError> {
        let (asked, found) = (self.asked, self.found);
        let splitters = (asked.splitter(0), found.splitter(0));
        let inputs = (asked.input(0), found.input(0));
        let outputs = (asked.output(0), found.output(0));
        let Traced {
            splitters: own_splitters,
            inputs: own_inputs,
            outputs: own_outputs,
            ..
        } = self.own;
        Ok(Names {
            splitters: self.names(alloc, matched, splitters, own_splitters, asked.splitters)?,
            inputs: self.names(alloc, matched, inputs, own_inputs, asked.inputs)?,
            outputs: self.names(alloc, matched, outputs, own_outputs, asked.outputs)?,
        })
    }
}

/// Whether each of these is wanted on some cell or at some side.
fn all_settled(wanted: &[Wanted]) -> bool {
    wanted.iter().all(|one| !matches!(one, Wanted::Anywhere))
}

/// The first colour of an end of the request that is wanted there. `settled` says that each end of its kind is wanted
/// on some cell or at some side.
fn colour_wanted(kind: Kind, one: Wanted, settled: bool) -> u64 {
    match one {
        Wanted::On(cell, _) => on_cell(kind, cell),
        Wanted::At(side) if settled => at_side(kind, side),
        Wanted::At(_) | Wanted::Anywhere => plain(kind),
    }
}

/// The first colour of an end of the layout, whose part this is: by its cell where one is wanted there, else by its
/// side where each end of its kind is wanted on some cell or at some side.
fn colour_found(kind: Kind, part: &Part, wanted: &[Wanted]) -> u64 {
    for one in wanted {
        if let Wanted::On(cell, _) = one {
            if *cell == part.cell {
                return on_cell(kind, *cell);
            }
        }
    }
    if all_settled(wanted) {
        at_side(kind, side_of(part, kind))
    } else {
        plain(kind)
    }
}

/// Adds the first colours of the request's ends of a kind.
fn add_wanted(colours: &mut Vec<u64>, kind: Kind, wanted: &[Wanted]) -> Result<(), AllocError> {
    let settled = all_settled(wanted);
    for one in wanted {
        colours.push(colour_wanted(kind, *one, settled))?;
    }
    Ok(())
}

/// Adds the first colours of so many splitters.
fn add_splitters(colours: &mut Vec<u64>, count: usize) -> Result<(), AllocError> {
    for _ in 0..count {
        colours.push(SPLITTER)?;
    }
    Ok(())
}

/// Names of the parts by which they may lay the request, but for what its splitters prefer. None where there are none, or
/// none are found.
pub fn name_parts(
    alloc: Global,
    request: &Request,
    parts: &[Part],
) -> Result<Option<Names>, AllocError> {
    let Some(grid) = grid_of(alloc, Vec::from_slice(alloc, parts)?)? else {
        return Ok(None);
    };
    let Some(own) = own_of(alloc, &grid)? else {
        return Ok(None);
    };
    let asked = Nodes::of(request.net(), 0);
    let found = Nodes::of(&own.net, asked.end());
    let naming = Naming {
        request,
        parts,
        own: &own,
        asked,
        found,
    };
    match naming.matched(alloc)? {
        Some(matched) => Ok(Some(naming.named(alloc, &matched)?)),
        None => Ok(None),
    }
}
