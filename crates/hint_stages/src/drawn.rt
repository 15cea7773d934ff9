//! Channels, and those that a router found once, as drawings: so they need no search, and have fewer rows than one has
//! time to look for.
use crate::eight::piece;
use bt_parts::{Cell, Dir, Kind};
use hint_routing::{Chain, Step, ahead};
use std::alloc::{AllocError, Global};

/// The chains of a channel, in cells of which (0, 0) is the first one of the upper row.
#[derive(Drop)]
pub struct Channel {
    pub chains: Vec<Option<Chain>>,
    /// How many rows lie between the two rows of splitters.
    pub height: u32,
}

/// The channel of sixteen lines.
const SIXTEEN: [&str; 8] = [
    "^^NN^NN^NN^N^^^^",
    "N^>>^>e^<<NE^^^N",
    ">^^W>^wWn^<w<N^<",
    "^>enNnnE^.^WNw<^",
    "^Nn^WNNv<wWnw<N^",
    "^<N.>ev<NnE^>^>^",
    "n^W>^w<>e^n>^E^n",
    "^nn^nnn^n^^^nnn^",
];

/// The channel of thirty-two lines.
const THIRTY_TWO: [&str; 15] = [
    "NN^^NN^NN^NNNNN^NN^N^NNN^NN^NN^N",
    "..^^<<N>e^<<.Ev^W>^.Nw<W^..^w<^<",
    "..^>e^E^.>e^Ee>>>^Ee...E^nn^.^<^",
    ".nNN.^<n.N.^Wn..nwWn...w<NNNn.N^",
    ".N>>en^NnEe.nNnE^n.N.nn.N...N.>^",
    "n.^.nN^<N.nn^WN..NwW.NNnwW.w<n^n",
    "^.^.^Wn^wWN^wWv<<<wWnw<N....^N^^",
    "N>^.>eN^.Ee^<.vEe^<E^>^>en..^E^^",
    ">^nn^..^Wnn.Nw<>>eNn>^E^.Nnn^<n^",
    "^nNNNn.nnNN>ennN.EeNNnEenE^Nn^NN",
    "^^<<WN.^NwWNnNNw<n>>eNn.NE>>^^<.",
    "^<.....^<<..^<W.NN^wW.Nn.w<..n^.",
    "nN....n>e^<..Ee>>>^Ee.E^..N..N^.",
    "^.....^^..^W>>>^wWn...w<.n..>>^.",
    "^nnnnn^^nnnn^nnnnn^nnnn^n^nn^nnn",
];

/// The channel of sixty-four lines.
const SIXTY_FOUR: [&str; 29] = [
    "N^NNN^NNNNN^NNNNNNN^NNNNNN^NNNNN^NNN^^^NNNN^N^NNNN^^NNN^^NN^NNNN",
    ">^...^<<<..^W....wWN...w<<^<W>>>^w<W^N^.wW.N>^w<..NN...N^..N....",
    "^>e...Ee^nnEe.nnEe..n.Een^..E^nn>e>>^E^...n.^..^<<...n..^n......",
    "^N..n>e.^NNEe.NN.Ee.NnEeN^<EenNN^E^...>enE^.^..nn^...N..NNn.n...",
    "^<..NNn.^<>enn.EennEeN.nEe^nnNEeNnnnEe^.N.E>^..NN^W.n.nw<.N.Nn..",
    "n^nn..Nnn^^<N^W.nNNw<.n^Wn^NNw<W.NNNwW^n.nwWn.nw<n..N>^.^....Nnn",
    "^^N^...NN^W^<<wW^wWn^<NwW^^<<wWv<<<w<nNN.N.nN>^n^Nnn>^.n^..n..^N",
    "^^<^.........N..N..Nn^W>>^wW^<<<wW^<NNwWnw<N.^.N^WN^^w<N^<<^<.^.",
    "^n^^.....nn>e.nnEen.NEeNn.Ee..nnE>e^<..E^.N>e^...E>^^n^.nn^<^<N.",
    "N^^Nnn..n^N^..^N>e^<<nEe^..EenNNnEen^<<Een.^E^>enEe>^^^E^^n^n^<.",
    ".N^<NNn.N^<^n.^>^n>e^NEe^EennNEe^nnNEe^<<NE^..Nn^..NnN^.>^NNNn^.",
    "..n^<.^n..^NN.^^.NN.^WnnNwWNNwW>^NNwW.nnNwWnnwWNNnw<N.^.N....N^n",
    "..^.^.N^..^<.nN^n..n..N^<<<W>>>^w<<WnnNNwWnNN.w<.^n^<.Nn....>>^N",
    "..^.^..^<<.^WN>^NwWNn..wW>>>^wWn.wWnNNw<n.^<<<.^W^Nn^wW^w<..^.n.",
    "n.Nn^<<>e^nEe.^n.Ee.N..E>^>e..nNEe.N.Ee^^<<EeN.EeN>^^Ee^.N.E^.N.",
    "Nn.^nn^Nn^^...^^Wn.w<n.>e.NEenNEen...Ee^<n^Ee.n..E^>^n.N..nnn...",
    ".N.^^^^<NN^nn.^<.Nn.^^WNnwWnnN.wWNn..wWnNN^wW.^nnwWNnNw<n.NN^n..",
    "...^N^n^<<NNN.n^..N.^.n.N>eNN.Ee>>^.EenNEeNnnE^NN...N.n^^n..NN.n",
    "...N.^N..^<..n^Nn..n^WN..Nw<W.>>^wWnnnNwW..NNw<...n...N^^N.....^",
    "..n..^>e..^EeNN>^Ee^n.Ee..n.E>^nvW.NNNwW.wW..n^wWnNwW.>^^w<<<.n^",
    "n.N..N^n..^<<<.^>e.^^Ee...NEe.n^<E>e....E>e..N^E>^...n^nN>e.^E^^",
    "^n....^Nnn...^.^NnnNN>ennEe..n^Een..Een.nnEe..^.Ee.nE^^^.^nn^<<^",
    "^^>enE^.N^nnn^.^<NN>e^nNNEenn^NEe^..nE^nNNn...Nnn..^n>^^>^N^nnNN",
    "NN^nN.n.>^N^N^Wn^wW^.NNw<nnNN^Wv<NwWN..NwWNnnw<N^<nNNNnN^n.NN^..",
    ".>^N..N.^>>^.nnN^W.^.wW.^NNwW.v<NwWn.n.w<<WNNn^w<NN>e.NE^N.>>^..",
    ".^n..n..^N.>eNN.nE>^..vW^<wWv<<.wW.N.Nw<.....N^WN..^w<<Wn..^w<..",
    ".^^<.^.n^W.NwW..NwWnnw<..^<<<>>e>>>vEe>^..Ee....Ee.^Ee..N.E^.^..",
    ".^<^W^.^nwW....wWnn^^wWnn..wW^n>^w<>>e^.nnE>e.n..E>^......n..^nn",
    "nn^nn^n^^nnnnnnnn^^^^nn^^nnnn^^^nn^nnn^n^^nnnn^nnnnnnnnnnn^nn^^^",
];

/// The rows of a drawing, from the one under the upper splitters on. The signs are those of the core's drawing.
type Drawing = &'static [&'static str];

/// How far an underground pair may lead in a drawing: as far as one of basic belts.
const FARTHEST: u32 = 5;

/// The drawing of the channel of so many lines, where one is kept.
fn drawing_of(lines: u32) -> Option<Drawing> {
    match lines {
        16 => Some(&SIXTEEN),
        32 => Some(&THIRTY_TWO),
        64 => Some(&SIXTY_FOUR),
        _ => None,
    }
}

/// What stands on a cell of a drawing, whose rows are counted from 1; none where it is free, or lies outside.
fn piece_at(drawing: Drawing, cell: Cell) -> Option<(Kind, Dir)> {
    let row = usize::try_from(cell.y.wrapping_sub(1)).ok()?;
    let column = usize::try_from(cell.x).ok()?;
    piece(*drawing.get(row)?.as_bytes().get(column)?)
}

/// How far ahead the exit is of an entrance on this cell; none where it isn't within `FARTHEST` cells.
fn length_of_pair(drawing: Drawing, entrance: Cell, dir: Dir) -> Option<u32> {
    let mut cell = entrance;
    for length in 1..=FARTHEST {
        cell = cell.next(dir);
        if piece_at(drawing, cell) == Some((Kind::Exit, dir)) {
            return Some(length);
        }
    }
    None
}

/// The step that a drawing shows on a cell: a belt, or an entrance with its exit. None where neither is there.
fn step_at(drawing: Drawing, cell: Cell) -> Option<Step> {
    match piece_at(drawing, cell)? {
        (Kind::Belt, dir) => Some(Step::Belt(cell, dir)),
        (Kind::Entrance, dir) => {
            let length = length_of_pair(drawing, cell, dir)?;
            Some(Step::Pair(cell, dir, length))
        }
        _ => None,
    }
}

/// The cell to which a step leads.
fn end_of(step: Step) -> Cell {
    match step {
        Step::Belt(cell, dir) => cell.next(dir),
        Step::Pair(cell, dir, length) => ahead(cell, dir, length).next(dir),
    }
}

/// The chain that begins on this cell of a drawing, its last step first. It has at most as many steps as the drawing
/// has cells, which are `cells`.
fn chain_from(
    alloc: Global,
    drawing: Drawing,
    first: Cell,
    cells: usize,
) -> Result<Chain, AllocError> {
    let mut steps = Vec::new(alloc);
    let mut cell = first;
    for _ in 0..cells {
        match step_at(drawing, cell) {
            Some(step) => {
                steps.push(step)?;
                cell = end_of(step);
            }
            None => break,
        }
    }
    steps.reverse();
    Ok(Chain {
        steps,
        claims: Vec::new(alloc),
    })
}

/// The channel of so many lines that is kept as a drawing, where there is one.
pub fn drawn_channel(alloc: Global, lines: u32) -> Result<Option<Channel>, AllocError> {
    let Some(drawing) = drawing_of(lines) else {
        return Ok(None);
    };
    let cells = drawing.len().saturating_mul(lines as usize);
    let mut chains = Vec::new(alloc);
    let mut first = Cell { x: 0, y: 0 };
    let mut height = 0u32;
    for _ in drawing {
        first = first.next(Dir::South);
        height = height.saturating_add(1);
    }
    for _ in 0..lines {
        chains.push(Some(chain_from(alloc, drawing, first, cells)?))?;
        first = first.next(Dir::East);
    }
    Ok(Some(Channel { chains, height }))
}
