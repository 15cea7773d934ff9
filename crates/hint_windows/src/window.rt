//! What of a board may be laid anew, and the numbers of the facts that are open there.
use bt_parts::{DIRS, Dir};
use hint_boards::{Board, Chain, Piece, aside, mark};
use hint_solver::Literal;
use std::alloc::{AllocError, Global};

/// What may be so of a layout.
#[derive(Clone, Copy)]
pub enum Fact {
    /// This piece stands at a place.
    Stands(usize, Piece),
    /// A belt or an entrance stands at a place.
    Passes(usize),
    /// What stands there hands on in a direction above the ground.
    Goes(usize, Dir),
    /// A chain leaves there, above the ground or downwards.
    Leaves(usize, Chain),
    /// A chain comes there above the ground.
    Comes(usize, Chain),
    /// Some chain moves below the ground from there to the neighbour in a direction.
    Moves(usize, Dir),
    /// This chain moves so.
    Below(usize, Dir, Chain),
    /// The lesser half of this splitter stands at a place, in a direction.
    At(usize, usize, Dir),
}

/// What is known of a fact.
#[derive(Clone, Copy)]
pub enum Term {
    Known(bool),
    Open(Literal),
}

/// The cells that may be laid anew, the chains that come there, and the splitters that stand there.
#[derive(Drop)]
pub struct Window {
    pub cells: Vec<usize>,
    /// For each place its number among the cells.
    indices: Vec<Option<usize>>,
    pub chains: Vec<Chain>,
    /// For each chain its number among those.
    ranks: Vec<Option<usize>>,
    pub splitters: Vec<usize>,
    /// For each splitter its number among those.
    orders: Vec<Option<usize>>,
}

/// The number of a direction, from 0.
fn number_of(dir: Dir) -> usize {
    match dir {
        Dir::North => 0,
        Dir::East => 1,
        Dir::South => 2,
        Dir::West => 3,
    }
}

/// The number of a piece, from 0, which is the empty one, to 20.
fn number_of_piece(piece: Piece) -> usize {
    let (shape, dir) = match piece {
        Piece::Empty => return 0,
        Piece::Belt(dir) => (0usize, dir),
        Piece::Entrance(dir) => (1, dir),
        Piece::Exit(dir) => (2, dir),
        Piece::Lesser(dir) => (3, dir),
        Piece::Greater(dir) => (4, dir),
    };
    shape
        .saturating_mul(4)
        .saturating_add(number_of(dir))
        .saturating_add(1)
}

/// Whether what stands at a marked place may be laid anew: not the end of a layout, and a half of a splitter only where
/// the other half is marked, too, or is missing.
fn may_move(board: &Board, marks: &[bool], place: usize) -> bool {
    let tile = board.tile(place);
    if tile.is_end {
        return false;
    }
    if board.is_torn(place) {
        return true;
    }
    let other = match tile.piece {
        Piece::Lesser(dir) => board.ahead(place, aside(dir)),
        Piece::Greater(dir) => board.ahead(place, aside(dir).opposite()),
        _ => return true,
    };
    match other {
        Some(other) => marks.get(other).copied().unwrap_or(false),
        None => false,
    }
}

/// Lists a number, where it isn't listed yet, and notes its place in the list. `places` has room for each number that
/// there is.
fn list(
    numbers: &mut Vec<usize>,
    places: &mut [Option<usize>],
    number: Option<usize>,
) -> Result<(), AllocError> {
    if let Some(number) = number {
        if let Some(place) = places.get_mut(number) {
            if place.is_none() {
                *place = Some(numbers.len());
                numbers.push(number)?;
            }
        }
    }
    Ok(())
}

impl Window {
    /// The window of those of the marked cells that may be laid anew.
    pub fn new(alloc: Global, board: &Board, marks: &[bool]) -> Result<Window, AllocError> {
        let mut window = Window {
            cells: Vec::new(alloc),
            indices: vec![in alloc; None; board.tiles.len()]?,
            chains: Vec::new(alloc),
            ranks: vec![in alloc; None; board.chains]?,
            splitters: Vec::new(alloc),
            orders: vec![in alloc; None; board.joints.len()]?,
        };
        for place in 0..board.tiles.len() {
            if marks.get(place).copied().unwrap_or(false) && may_move(board, marks, place) {
                list(&mut window.cells, &mut window.indices, Some(place))?;
            }
        }
        window.list_splitters(board)?;
        window.list_chains(board)?;
        Ok(window)
    }

    /// Lists the splitters that stand on the window's cells.
    fn list_splitters(&mut self, board: &Board) -> Result<(), AllocError> {
        for place in &self.cells {
            let tile = board.tile(*place);
            list(&mut self.splitters, &mut self.orders, tile.splitter)?;
        }
        Ok(())
    }

    /// Lists the chains of the window's splitters, and those that pass between one of its cells and one outside.
    fn list_chains(&mut self, board: &Board) -> Result<(), AllocError> {
        for splitter in &self.splitters {
            if let Some(joint) = board.joints.get(*splitter) {
                for chain in &[joint.comes.0, joint.comes.1, joint.goes.0, joint.goes.1] {
                    list(&mut self.chains, &mut self.ranks, *chain)?;
                }
            }
        }
        for place in &self.cells {
            for dir in &DIRS {
                if let Some(next) = board.ahead(*place, *dir) {
                    if self.indices.get(next).copied().flatten().is_none() {
                        let tile = board.tile(next);
                        let back = dir.opposite();
                        for chain in &[
                            tile.out(back),
                            tile.into(*dir),
                            tile.down(back),
                            tile.below.get(*dir),
                        ] {
                            list(&mut self.chains, &mut self.ranks, *chain)?;
                        }
                    }
                }
            }
        }
        Ok(())
    }

    /// The number of a place among the window's cells; none where it lies outside.
    pub fn index(&self, place: usize) -> Option<usize> {
        self.indices.get(place).copied().flatten()
    }

    /// How many facts each cell has that may be open.
    fn facts(&self) -> usize {
        30usize
            .saturating_add(self.chains.len().saturating_mul(6))
            .saturating_add(self.splitters.len().saturating_mul(4))
    }

    /// How many facts all cells have, each of which is a variable.
    pub fn variables(&self) -> usize {
        self.facts().saturating_mul(self.cells.len())
    }

    /// The place of a fact and its number among those of that place. None where it names a chain or a splitter that the
    /// window lacks.
    fn numbered(&self, fact: Fact) -> Option<(usize, usize)> {
        let chains = self.chains.len();
        let (place, number) = match fact {
            Fact::Stands(place, piece) => (place, number_of_piece(piece)),
            Fact::Passes(place) => (place, 21),
            Fact::Goes(place, dir) => (place, number_of(dir).saturating_add(22)),
            Fact::Moves(place, dir) => (place, number_of(dir).saturating_add(26)),
            Fact::Leaves(place, chain) => (place, self.rank(chain)?.saturating_add(30)),
            Fact::Comes(place, chain) => {
                (
                    place,
                    self.rank(chain)?.saturating_add(chains).saturating_add(30),
                )
            }
            Fact::Below(place, dir, chain) => {
                let rows = number_of(dir).saturating_add(2).saturating_mul(chains);
                (
                    place,
                    self.rank(chain)?.saturating_add(rows).saturating_add(30),
                )
            }
            Fact::At(splitter, place, dir) => {
                let order = self.orders.get(splitter).copied().flatten()?;
                let number = order.saturating_mul(4).saturating_add(number_of(dir));
                (
                    place,
                    chains
                        .saturating_mul(6)
                        .saturating_add(number)
                        .saturating_add(30),
                )
            }
        };
        Some((place, number))
    }

    /// The number of a chain among the window's; none where it has no such.
    fn rank(&self, chain: Chain) -> Option<usize> {
        self.ranks.get(chain).copied().flatten()
    }

    /// The literal of a fact; none where its place, its chain or its splitter isn't the window's.
    fn literal(&self, fact: Fact) -> Option<Literal> {
        let (place, number) = self.numbered(fact)?;
        let index = self.index(place)?;
        Literal::new(
            index.saturating_mul(self.facts()).saturating_add(number),
            true,
        )
    }

    /// What is known of a fact: a literal where it is open, or else whether it is so on the board.
    pub fn term(&self, board: &Board, fact: Fact) -> Term {
        match fact {
            Fact::Moves(place, dir) => self.moving(board, fact, place, dir, None),
            Fact::Below(place, dir, chain) => self.moving(board, fact, place, dir, Some(chain)),
            _ => match self.literal(fact) {
                Some(literal) => Term::Open(literal),
                None => Term::Known(is_so(board, fact)),
            },
        }
    }

    /// What is known of `fact`: that this chain, or some chain where none is named, moves below the ground from a place
    /// to its neighbour in a direction. The board tells it where one of the two lies outside the window; where no
    /// neighbour does, it isn't so.
    fn moving(
        &self,
        board: &Board,
        fact: Fact,
        place: usize,
        dir: Dir,
        chain: Option<Chain>,
    ) -> Term {
        let Some(next) = board.ahead(place, dir) else {
            return Term::Known(false);
        };
        let moves = if self.index(place).is_none() {
            board.tile(place).down(dir)
        } else if self.index(next).is_none() {
            board.tile(next).below.get(dir)
        } else {
            return match self.literal(fact) {
                Some(literal) => Term::Open(literal),
                None => Term::Known(false),
            };
        };
        Term::Known(match chain {
            Some(_) => moves == chain,
            None => moves.is_some(),
        })
    }
}

/// Whether a fact is so on a board, outside of the window. That something passes or moves below the ground, or that a
/// splitter stands, isn't asked there, and counts as not so.
fn is_so(board: &Board, fact: Fact) -> bool {
    match fact {
        Fact::Stands(place, piece) => board.tile(place).piece == piece,
        Fact::Goes(place, dir) => board.tile(place).out(dir).is_some(),
        Fact::Leaves(place, chain) => board.tile(place).goes == Some(chain),
        Fact::Comes(place, chain) => board.tile(place).comes == Some(chain),
        _ => false,
    }
}

/// Marks the cells that are no further than so many cells from a marked one, each way.
pub fn around(
    alloc: Global,
    board: &Board,
    marks: &[bool],
    radius: usize,
) -> Result<Vec<bool>, AllocError> {
    let mut near = vec![in alloc; false; board.tiles.len()]?;
    for place in 0..board.tiles.len() {
        if marks.get(place).copied().unwrap_or(false) {
            let (x, y) = board.spot(place);
            mark_box(
                board,
                &mut near,
                (x.saturating_sub(radius), y.saturating_sub(radius)),
                (x.saturating_add(radius), y.saturating_add(radius)),
            );
        }
    }
    Ok(near)
}

/// Marks the cells of a box from its north-western corner to its south-eastern one, both with it; each is a column and
/// a row. What lies beyond the board is left out.
pub fn mark_box(board: &Board, marks: &mut [bool], first: (usize, usize), last: (usize, usize)) {
    for y in first.1..last.1.saturating_add(1).min(board.height) {
        for x in first.0..last.0.saturating_add(1).min(board.width) {
            mark(marks, Some(board.place(x, y)));
        }
    }
}
