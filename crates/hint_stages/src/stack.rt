//! A plan that grows from row to row, from the south to the north.
use crate::drawn::Channel;
use crate::eight::{CORE_ACROSS, CORE_LINES, CORE_RANKS, CORE_ROWS, drawing, piece, seat};
use crate::sense::Sense;
use bt_parts::{Cell, Dir, Kind, Part, Tier};
use hint_placement::Sketch;
use hint_routing::{Chain, Step, ahead};
use std::alloc::{AllocError, Global};

/// A plan that grows from row to row.
#[derive(Drop)]
pub struct Stack {
    tier: Tier,
    pub sketch: Sketch,
    /// The first cell of the next row.
    cell: Cell,
}

/// The cell so many columns to the east and so many rows to the south of another.
fn shifted(cell: Cell, first: Cell) -> Cell {
    Cell {
        x: cell.x.wrapping_add(first.x),
        y: cell.y.wrapping_add(first.y),
    }
}

/// Where a cell of a block that begins with the cell `first` stands. In one that is turned upside down its row is
/// counted from `last_row` back.
fn placed(cell: Cell, first: Cell, sense: Sense, last_row: i32) -> Cell {
    match sense {
        Sense::Onward => shifted(cell, first),
        Sense::Against => shifted(
            Cell {
                x: cell.x,
                y: last_row.wrapping_sub(cell.y),
            },
            first,
        ),
    }
}

/// The direction of a belt to which a chain comes in the direction `came`, and which it leaves in the direction
/// `leaves`. Against the chain it leads to where that came from, and as north is south upside down, only east and west
/// change places.
fn turned(came: Dir, leaves: Dir, sense: Sense) -> Dir {
    match (sense, came) {
        (Sense::Onward, _) => leaves,
        (Sense::Against, Dir::East) => Dir::West,
        (Sense::Against, Dir::West) => Dir::East,
        (Sense::Against, upright) => upright,
    }
}

impl Stack {
    /// An empty plan whose next row begins with this cell.
    pub fn new(alloc: Global, tier: Tier, cell: Cell) -> Stack {
        Stack {
            tier,
            sketch: Sketch {
                splitters: Vec::new(alloc),
                others: Vec::new(alloc),
            },
            cell,
        }
    }

    /// Adds a part that is no splitter.
    fn push(&mut self, kind: Kind, cell: Cell, dir: Dir) -> Result<(), AllocError> {
        let tier = self.tier;
        self.sketch.others.push(Part {
            kind,
            tier,
            dir,
            cell,
        })?;
        Ok(())
    }

    /// Adds a row of belts that look to the north, one for each of so many lines.
    pub fn push_belts(&mut self, lines: u32) -> Result<(), AllocError> {
        let mut cell = self.cell;
        for _ in 0..lines {
            self.push(Kind::Belt, cell, Dir::North)?;
            cell = cell.next(Dir::East);
        }
        self.cell = self.cell.next(Dir::North);
        Ok(())
    }

    /// Adds a row of splitters that look to the north, side by side, with these numbers.
    pub fn push_splitters(&mut self, row: &[usize]) -> Result<(), AllocError> {
        let (mut cell, tier) = (self.cell, self.tier);
        for splitter in row {
            let part = Part {
                kind: Kind::Splitter,
                tier,
                dir: Dir::North,
                cell,
            };
            self.sketch.splitters.push((*splitter, part))?;
            cell = cell.next(Dir::East).next(Dir::East);
        }
        self.cell = self.cell.next(Dir::North);
        Ok(())
    }

    /// Adds the parts of a chain of a channel, whose block begins with the cell `first` and has rows from 0 to
    /// `last_row`.
    fn push_chain(
        &mut self,
        chain: &Chain,
        first: Cell,
        sense: Sense,
        last_row: i32,
    ) -> Result<(), AllocError> {
        let mut came = Dir::North;
        for step in chain.steps.iter().rev() {
            match *step {
                Step::Belt(cell, dir) => {
                    let cell = placed(cell, first, sense, last_row);
                    self.push(Kind::Belt, cell, turned(came, dir, sense))?;
                    came = dir;
                }
                Step::Pair(cell, dir, length) => {
                    let near = placed(cell, first, sense, last_row);
                    let far = placed(ahead(cell, dir, length), first, sense, last_row);
                    let dir_now = turned(dir, dir, sense);
                    let (entrance, exit) = match sense {
                        Sense::Onward => (near, far),
                        Sense::Against => (far, near),
                    };
                    self.push(Kind::Entrance, entrance, dir_now)?;
                    self.push(Kind::Exit, exit, dir_now)?;
                    came = dir;
                }
            }
        }
        Ok(())
    }

    /// Adds the parts of chains, which stand where they are.
    pub fn push_chains(&mut self, chains: &[Option<Chain>]) -> Result<(), AllocError> {
        for chain in chains {
            if let Some(chain) = chain {
                self.push_chain(chain, Cell { x: 0, y: 0 }, Sense::Onward, 0)?;
            }
        }
        Ok(())
    }

    /// Adds the rows of a channel, in so many blocks of so many lines side by side.
    pub fn push_channel(
        &mut self,
        channel: &Channel,
        blocks: u32,
        lines: u32,
        sense: Sense,
    ) -> Result<(), AllocError> {
        let height = channel.height;
        let mut first = ahead(self.cell, Dir::North, height);
        let mut last_row = 1i32;
        for _ in 0..height {
            last_row = last_row.wrapping_add(1);
        }
        for _ in 0..blocks {
            for chain in &channel.chains {
                if let Some(chain) = chain {
                    self.push_chain(chain, first, sense, last_row)?;
                }
            }
            first = ahead(first, Dir::East, lines);
        }
        self.cell = ahead(self.cell, Dir::North, height);
        Ok(())
    }

    /// Adds the belts, entrances and exits of a row of the core's drawing, which begins with this cell.
    fn push_drawn(&mut self, first: Cell, line: &str) -> Result<(), AllocError> {
        let mut cell = first;
        for sign in line.as_bytes() {
            if let Some((kind, dir)) = piece(*sign) {
                self.push(kind, cell, dir)?;
            }
            cell = cell.next(Dir::East);
        }
        Ok(())
    }

    /// Adds the splitters of a rank of the core that stands in the block with this number, which begins with this cell.
    fn push_seated(
        &mut self,
        (first, block): (Cell, usize),
        row: &[usize],
        rank: usize,
        sense: Sense,
    ) -> Result<(), AllocError> {
        let tier = self.tier;
        for place in 0..CORE_ACROSS {
            let number = block.saturating_mul(CORE_ACROSS).saturating_add(place);
            if let (Some(splitter), Some(seat)) = (row.get(number), seat(sense, rank, place)) {
                let part = Part {
                    kind: Kind::Splitter,
                    tier,
                    dir: seat.dir,
                    cell: shifted(seat.cell, first),
                };
                self.sketch.splitters.push((*splitter, part))?;
            }
        }
        Ok(())
    }

    /// Adds the core in the block with this number, which begins with this cell. Its ranks have these rows, from its
    /// last rank on; where there are fewer, its first rank gets no splitters.
    fn push_core(
        &mut self,
        seat: (Cell, usize),
        rows: &[Vec<usize>],
        sense: Sense,
    ) -> Result<(), AllocError> {
        let mut cell = seat.0;
        for line in drawing(sense) {
            self.push_drawn(cell, line)?;
            cell = cell.next(Dir::South);
        }
        for (place, row) in rows.iter().enumerate() {
            let rank = CORE_RANKS.saturating_sub(1).saturating_sub(place);
            self.push_seated(seat, row, rank, sense)?;
        }
        Ok(())
    }

    /// Adds cores side by side in so many blocks: the rows of their ranks are listed from the last rank on. Where the rows end
    /// before the first rank, that one is left to what stands over the cores, and so is its row of cells.
    pub fn push_cores(
        &mut self,
        blocks: u32,
        rows: &[Vec<usize>],
        sense: Sense,
    ) -> Result<(), AllocError> {
        let height = if rows.len() < CORE_RANKS {
            CORE_ROWS.saturating_sub(1)
        } else {
            CORE_ROWS
        };
        let mut first = ahead(self.cell, Dir::North, CORE_ROWS.saturating_sub(1));
        for block in 0..blocks {
            self.push_core((first, block as usize), rows, sense)?;
            first = ahead(first, Dir::East, CORE_LINES);
        }
        self.cell = ahead(self.cell, Dir::North, height);
        Ok(())
    }
}
