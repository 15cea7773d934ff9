//! Where the blocks of variables begin. A block has the variables of the facts of one kind.
ghost use Rattle.std.specs.Prelude.{◌≡◌, ◌<◌, ◌+◌, ◌-◌, ◌*◌, ◌^◌, []};
ghost use Rattle.bt_place.specs.Numbering.{variables};
ghost use Rattle.bt_place.specs.Blocks.{starts_of};
ghost use Rattle.bt_place.specs.inner.Blocks.{sizes_with};

use bt_facts::Class;

/// How much of each kind a request has, but for classes.
#[derive(Clone, Copy)]
pub struct Extent {
    pub width: usize,
    pub height: usize,
    pub splitters: usize,
    /// Twice as many as splitters.
    pub halves: usize,
    pub inputs: usize,
    /// The outputs that may stop on cells: all, where some are to stand at a side.
    pub stops: usize,
    /// The rows in which ends may stand: 4, where some are to stand in one.
    pub lines: usize,
    /// The greatest distance between the two ends of an underground pair.
    pub distances: usize,
}

/// Where each block of variables begins, after that of the classes which cells carry; and where all end.
#[derive(Clone, Copy)]
pub struct Starts {
    pub halves: usize,
    pub belts: usize,
    pub begins: usize,
    pub starts: usize,
    pub stops: usize,
    pub lies: usize,
    pub pairs: usize,
    pub tunnels: usize,
    pub goings: usize,
    pub columns: usize,
    pub rows: usize,
    pub points: usize,
    pub entering: usize,
    pub leaving: usize,
    pub held: usize,
    pub kinds: usize,
    pub places: usize,
    pub end: usize,
}

/// Where a block ends that begins at `from` and has so many rows, with so many variables each.
fn after(from: usize, rows: usize, each: usize) -> usize
    requires { from + rows * each < 2 ^ 64 }
    ensures { result ≡ from + rows * each }
{
    from + rows * each
}

/// Where the blocks begin behind that of halves, of which each cell has a part.
#[derive(Clone, Copy)]
struct OfCells {
    belts: usize,
    begins: usize,
    starts: usize,
    stops: usize,
    lies: usize,
    pairs: usize,
}

/// Where those begin behind that of pairs, of which each direction of a cell has a part, and where they end.
#[derive(Clone, Copy)]
struct OfTurns {
    tunnels: usize,
    goings: usize,
    columns: usize,
}

/// Where those begin behind that of columns, of which each splitter has a part.
#[derive(Clone, Copy)]
struct OfSplitters {
    rows: usize,
    points: usize,
    entering: usize,
    leaving: usize,
    held: usize,
}

/// Where the last ones begin, behind that of what is held, and where they end.
#[derive(Clone, Copy)]
struct LastOnes {
    kinds: usize,
    places: usize,
    end: usize,
}

/// Where the blocks begin of which each of so many cells has a part, behind that of halves, which begins at `halves`;
/// and where they end.
fn of_cells(halves: usize, spots: usize, extent: Extent) -> OfCells
    requires { halves + spots + spots + spots + spots * extent.inputs + spots * extent.stops
        + spots * extent.lines < 2 ^ 64 }
    ensures belts { result.belts ≡ halves + spots }
    ensures begins { result.begins ≡ halves + spots + spots }
    ensures starts { result.starts ≡ halves + spots + spots + spots }
    ensures stops { result.stops ≡ halves + spots + spots + spots + spots * extent.inputs }
    ensures lies { result.lies
        ≡ halves + spots + spots + spots + spots * extent.inputs + spots * extent.stops }
    ensures pairs { result.pairs ≡ halves + spots + spots + spots + spots * extent.inputs
        + spots * extent.stops + spots * extent.lines }
{
    let belts = after(halves, spots, 1);
    let begins = after(belts, spots, 1);
    let starts = after(begins, spots, 1);
    let stops = after(starts, spots, extent.inputs);
    let lies = after(stops, spots, extent.stops);
    OfCells {
        belts,
        begins,
        starts,
        stops,
        lies,
        pairs: after(lies, spots, extent.lines),
    }
}

/// Where the blocks begin of which each direction of each of so many cells has a part, behind that of pairs, which
/// begins at `pairs`; and where they end.
fn of_turns(pairs: usize, spots: usize, extent: Extent) -> OfTurns
    requires dirs { spots * 4 < 2 ^ 64 }
    requires columns { pairs + spots * 4 * extent.distances + spots * 4 + spots * 4 < 2 ^ 64 }
    ensures tunnels { result.tunnels ≡ pairs + spots * 4 * extent.distances }
    ensures goings { result.goings ≡ pairs + spots * 4 * extent.distances + spots * 4 }
    ensures columns { result.columns ≡ pairs + spots * 4 * extent.distances + spots * 4 + spots * 4 }
{
    let dirs = after(0, spots, 4);
    let tunnels = after(pairs, dirs, extent.distances);
    let goings = after(tunnels, dirs, 1);
    OfTurns {
        tunnels,
        goings,
        columns: after(goings, dirs, 1),
    }
}

/// Where the blocks begin of which each splitter has a part, behind that of columns, which begins at `columns`; and
/// where they end.
fn of_splitters(columns: usize, extent: Extent) -> OfSplitters
    requires { columns + extent.splitters * extent.width + extent.splitters * extent.height
        + extent.splitters * 4 + extent.splitters + extent.splitters < 2 ^ 64 }
    ensures rows { result.rows ≡ columns + extent.splitters * extent.width }
    ensures points { result.points
        ≡ columns + extent.splitters * extent.width + extent.splitters * extent.height }
    ensures entering { result.entering ≡ columns + extent.splitters * extent.width
        + extent.splitters * extent.height + extent.splitters * 4 }
    ensures leaving { result.leaving ≡ columns + extent.splitters * extent.width
        + extent.splitters * extent.height + extent.splitters * 4 + extent.splitters }
    ensures held { result.held ≡ columns + extent.splitters * extent.width
        + extent.splitters * extent.height + extent.splitters * 4 + extent.splitters + extent.splitters }
{
    let rows = after(columns, extent.splitters, extent.width);
    let points = after(rows, extent.splitters, extent.height);
    let entering = after(points, extent.splitters, 4);
    let leaving = after(entering, extent.splitters, 1);
    OfSplitters {
        rows,
        points,
        entering,
        leaving,
        held: after(leaving, extent.splitters, 1),
    }
}

/// Where the last two blocks begin, of what cells hold and of where splitters stand, behind that of the counter, which
/// begins at `held`; and where they end.
fn last_ones(held: usize, spots: usize, extent: Extent) -> LastOnes
    requires spots { spots + 1 < 2 ^ 64 }
    requires places { extent.splitters * spots < 2 ^ 64 }
    requires end { held + (spots + 1 - extent.halves) * extent.halves + spots * 21
        + extent.splitters * spots * 4 < 2 ^ 64 }
    ensures kinds { result.kinds ≡ held + (spots + 1 - extent.halves) * extent.halves }
    ensures places { result.places ≡ held + (spots + 1 - extent.halves) * extent.halves + spots * 21 }
    ensures end { result.end
        ≡ held + (spots + 1 - extent.halves) * extent.halves + spots * 21 + extent.splitters * spots * 4 }
{
    let spares = (spots + 1).saturating_sub(extent.halves);
    let kinds = after(held, spares, extent.halves);
    let places = after(kinds, spots, 21);
    let all = after(0, extent.splitters, spots);
    LastOnes {
        kinds,
        places,
        end: after(places, all, 4),
    }
}

/// Where each block begins.
/// What counts halves stands below what cells hold and where splitters are, so that a search which takes the highest
/// variable doesn't place halves on the first cells.
pub fn starts_of(extent: Extent, classes: &[Class]) -> Starts
    requires { variables (sizes_with extent classes.now []) < 2 ^ 64 }
    ensures { result ≡ starts_of (sizes_with extent classes.now []) }
{
    let spots = after(0, extent.width, extent.height);
    let halves = after(0, spots, classes.len());
    let cells = of_cells(halves, spots, extent);
    let turns = of_turns(cells.pairs, spots, extent);
    let splitters = of_splitters(turns.columns, extent);
    let last = last_ones(splitters.held, spots, extent);
    Starts {
        halves,
        belts: cells.belts,
        begins: cells.begins,
        starts: cells.starts,
        stops: cells.stops,
        lies: cells.lies,
        pairs: cells.pairs,
        tunnels: turns.tunnels,
        goings: turns.goings,
        columns: turns.columns,
        rows: splitters.rows,
        points: splitters.points,
        entering: splitters.entering,
        leaving: splitters.leaving,
        held: splitters.held,
        kinds: last.kinds,
        places: last.places,
        end: last.end,
    }
}
