//! The clauses of a window: what stands in it carries the chains that come there to where they leave.
use crate::window::{Fact, Term, Window};
use bt_parts::{DIRS, Dir};
use hint_boards::{Board, Chain, Joint, Piece, aside};
use hint_solver::{Literal, Solver};
use std::alloc::{AllocError, Global};

/// A fact, and whether it is so.
type Said = (Fact, bool);

/// The clauses of a window.
#[derive(Drop)]
pub struct Draft {
    pub solver: Solver,
    clause: Vec<Literal>,
}

/// A window of a board.
#[derive(Clone, Copy)]
pub struct Scene<'a> {
    pub board: &'a Board,
    pub window: &'a Window,
}

/// All pieces.
fn pieces(alloc: Global) -> Result<Vec<Piece>, AllocError> {
    let mut pieces = Vec::new(alloc);
    pieces.push(Piece::Empty)?;
    for dir in &DIRS {
        for piece in &[
            Piece::Belt(*dir),
            Piece::Entrance(*dir),
            Piece::Exit(*dir),
            Piece::Lesser(*dir),
            Piece::Greater(*dir),
        ] {
            pieces.push(*piece)?;
        }
    }
    Ok(pieces)
}

impl Draft {
    /// The solver with the variables of a window, without clauses.
    pub fn new(alloc: Global, window: &Window) -> Result<Draft, AllocError> {
        Ok(Draft {
            solver: Solver::new(alloc, window.variables())?,
            clause: Vec::new(alloc),
        })
    }

    /// Adds the clause that one of these facts is so, or isn't, as each says. One that is known makes the clause
    /// needless where it holds, and is left out where it doesn't.
    fn add(&mut self, scene: Scene, said: &[Said]) -> Result<(), AllocError> {
        self.clause.clear();
        for (fact, holds) in said {
            match scene.window.term(scene.board, *fact) {
                Term::Known(known) => {
                    if known == *holds {
                        return Ok(());
                    }
                }
                Term::Open(literal) => {
                    let literal = if *holds { literal } else { literal.negated() };
                    self.clause.push(literal)?;
                }
            }
        }
        self.solver.add(&self.clause)
    }

    /// Adds that at most one of these facts is so.
    fn add_at_most_one(&mut self, scene: Scene, facts: &[Fact]) -> Result<(), AllocError> {
        for (place, one) in facts.iter().enumerate() {
            for other in facts.iter().take(place) {
                self.add(scene, &[(*one, false), (*other, false)])?;
            }
        }
        Ok(())
    }
}

impl Scene<'_> {
    /// The fact that something comes to a place above the ground in a direction. As an error the answer itself, where
    /// the place lies outside the window or nothing lies behind it.
    fn into(self, place: usize, dir: Dir) -> Result<Fact, bool> {
        if self.window.index(place).is_none() {
            return Err(self.board.tile(place).from == Some(dir));
        }
        match self.board.ahead(place, dir.opposite()) {
            Some(behind) => Ok(Fact::Goes(behind, dir)),
            None => Err(false),
        }
    }

    /// Adds the clause that one of `said` is so, or that something comes to a place in a direction where `holds`, or
    /// else that nothing does. `list` is room for the clause.
    fn add_into(
        self,
        draft: &mut Draft,
        said: &[Said],
        place: usize,
        dir: Dir,
        holds: bool,
        list: &mut Vec<Said>,
    ) -> Result<(), AllocError> {
        list.clear();
        list.extend_from_slice(said)?;
        match self.into(place, dir) {
            Ok(fact) => list.push((fact, holds))?,
            Err(known) => {
                if known == holds {
                    return Ok(());
                }
            }
        }
        draft.add(self, list)
    }

    /// Adds that exactly one piece stands at a place, of which the empty one is one, and that `Passes` is so just where
    /// that is a belt or an entrance.
    fn add_piece(self, alloc: Global, draft: &mut Draft, place: usize) -> Result<(), AllocError> {
        let (mut facts, mut said) = (Vec::new(alloc), Vec::new(alloc));
        for piece in &pieces(alloc)? {
            facts.push(Fact::Stands(place, *piece))?;
            said.push((Fact::Stands(place, *piece), true))?;
        }
        draft.add(self, &said)?;
        draft.add_at_most_one(self, &facts)?;
        said.clear();
        said.push((Fact::Passes(place), false))?;
        for dir in &DIRS {
            for piece in &[Piece::Belt(*dir), Piece::Entrance(*dir)] {
                said.push((Fact::Stands(place, *piece), true))?;
                draft.add(
                    self,
                    &[
                        (Fact::Stands(place, *piece), false),
                        (Fact::Passes(place), true),
                    ],
                )?;
            }
        }
        draft.add(self, &said)
    }

    /// Adds that belts and exits hand on in their direction, and else only halves of splitters do; that nothing is
    /// handed on out of the board; and that a neighbour outside the window is fed from here just where it is now.
    fn add_goes(self, draft: &mut Draft, place: usize, dir: Dir) -> Result<(), AllocError> {
        let goes = Fact::Goes(place, dir);
        let at = |piece| Fact::Stands(place, piece);
        draft.add(self, &[(at(Piece::Belt(dir)), false), (goes, true)])?;
        draft.add(self, &[(at(Piece::Exit(dir)), false), (goes, true)])?;
        draft.add(
            self,
            &[
                (goes, false),
                (at(Piece::Belt(dir)), true),
                (at(Piece::Exit(dir)), true),
                (at(Piece::Lesser(dir)), true),
                (at(Piece::Greater(dir)), true),
            ],
        )?;
        match self.board.ahead(place, dir) {
            None => draft.add(self, &[(goes, false)]),
            Some(next) if self.window.index(next).is_none() => {
                let is_fed = self.board.tile(next).from == Some(dir);
                draft.add(self, &[(goes, is_fed)])
            }
            Some(_) => Ok(()),
        }
    }

    /// Adds that where something comes to a cell in a direction, a piece stands there that takes it: an entrance or a
    /// half in that direction, or a belt that doesn't look against it.
    fn add_comes(self, draft: &mut Draft, place: usize, dir: Dir) -> Result<(), AllocError> {
        let Some(behind) = self.board.ahead(place, dir.opposite()) else {
            return Ok(());
        };
        let goes = (Fact::Goes(behind, dir), false);
        let at = |piece| (Fact::Stands(place, piece), true);
        let back = dir.opposite();
        let mut taking = [
            goes,
            at(Piece::Entrance(dir)),
            at(Piece::Lesser(dir)),
            at(Piece::Greater(dir)),
            goes,
            goes,
            goes,
        ];
        let mut number = 4usize;
        for other in &DIRS {
            if *other != back {
                if let Some(said) = taking.get_mut(number) {
                    *said = at(Piece::Belt(*other));
                }
                number = number.saturating_add(1);
            }
        }
        draft.add(self, &taking)
    }

    /// Adds that a half of a splitter that hands nothing on has an empty cell ahead, or the border.
    fn add_idle(self, draft: &mut Draft, place: usize, dir: Dir) -> Result<(), AllocError> {
        let Some(next) = self.board.ahead(place, dir) else {
            return Ok(());
        };
        for half in &[Piece::Lesser(dir), Piece::Greater(dir)] {
            draft.add(
                self,
                &[
                    (Fact::Stands(place, *half), false),
                    (Fact::Goes(place, dir), true),
                    (Fact::Stands(next, Piece::Empty), true),
                ],
            )?;
        }
        Ok(())
    }

    /// Adds that where a place hands on in a direction, this chain leaves it just where it comes to the neighbour
    /// there. Adds nothing at the border.
    fn add_step(
        self,
        draft: &mut Draft,
        place: usize,
        dir: Dir,
        chain: Chain,
    ) -> Result<(), AllocError> {
        let Some(next) = self.board.ahead(place, dir) else {
            return Ok(());
        };
        let goes = (Fact::Goes(place, dir), false);
        let (leaves, comes) = (Fact::Leaves(place, chain), Fact::Comes(next, chain));
        draft.add(self, &[goes, (leaves, false), (comes, true)])?;
        draft.add(self, &[goes, (comes, false), (leaves, true)])
    }

    /// Adds that a cell is fed from at most one direction, an entrance from behind, and a belt from behind or from a
    /// side.
    fn add_feeders(self, alloc: Global, draft: &mut Draft, place: usize) -> Result<(), AllocError> {
        let mut list = Vec::new(alloc);
        let mut facts = Vec::new(alloc);
        for dir in &DIRS {
            let entrance = (Fact::Stands(place, Piece::Entrance(*dir)), false);
            self.add_into(draft, &[entrance], place, *dir, true, &mut list)?;
            if let Ok(fact) = self.into(place, *dir) {
                facts.push(fact)?;
            }
        }
        draft.add_at_most_one(self, &facts)?;
        for dir in &DIRS {
            list.clear();
            list.push((Fact::Stands(place, Piece::Belt(*dir)), false))?;
            for from in &DIRS {
                if *from != dir.opposite() {
                    if let Ok(fact) = self.into(place, *from) {
                        list.push((fact, true))?;
                    }
                }
            }
            draft.add(self, &list)?;
        }
        Ok(())
    }

    /// Adds that at most one chain comes to a cell and at most one leaves it; that a belt or an entrance has one that
    /// comes and leaves; that an empty cell has none; and that none comes to an exit above the ground.
    fn add_chains(self, alloc: Global, draft: &mut Draft, place: usize) -> Result<(), AllocError> {
        let (mut leaves, mut comes) = (Vec::new(alloc), Vec::new(alloc));
        let mut said = Vec::new(alloc);
        said.push((Fact::Passes(place), false))?;
        for chain in &self.window.chains {
            let (leaving, coming) = (Fact::Leaves(place, *chain), Fact::Comes(place, *chain));
            let passes = (Fact::Passes(place), false);
            leaves.push(leaving)?;
            comes.push(coming)?;
            said.push((leaving, true))?;
            draft.add(self, &[passes, (coming, false), (leaving, true)])?;
            draft.add(self, &[passes, (leaving, false), (coming, true)])?;
            draft.add(
                self,
                &[(Fact::Stands(place, Piece::Empty), false), (leaving, false)],
            )?;
            draft.add(
                self,
                &[(Fact::Stands(place, Piece::Empty), false), (coming, false)],
            )?;
            for dir in &DIRS {
                draft.add(
                    self,
                    &[
                        (Fact::Stands(place, Piece::Exit(*dir)), false),
                        (coming, false),
                    ],
                )?;
            }
        }
        draft.add(self, &said)?;
        draft.add_at_most_one(self, &leaves)?;
        draft.add_at_most_one(self, &comes)
    }

    /// Adds how a chain moves below the ground in a direction: from an entrance just where it leaves there, to an exit
    /// just where it leaves that, and through all other cells.
    fn add_way(
        self,
        draft: &mut Draft,
        place: usize,
        dir: Dir,
        chain: Chain,
    ) -> Result<(), AllocError> {
        let (enters, exits) = (
            Fact::Stands(place, Piece::Entrance(dir)),
            Fact::Stands(place, Piece::Exit(dir)),
        );
        let (moves, leaves) = (Fact::Below(place, dir, chain), Fact::Leaves(place, chain));
        draft.add(self, &[(moves, false), (Fact::Moves(place, dir), true)])?;
        draft.add(self, &[(enters, false), (leaves, false), (moves, true)])?;
        draft.add(self, &[(enters, false), (leaves, true), (moves, false)])?;
        let Some(behind) = self.board.ahead(place, dir.opposite()) else {
            return draft.add(self, &[(enters, true), (moves, false)]);
        };
        let came = Fact::Below(behind, dir, chain);
        draft.add(self, &[(exits, false), (came, false), (leaves, true)])?;
        draft.add(self, &[(exits, false), (came, true), (leaves, false)])?;
        draft.add(self, &[(exits, true), (came, false), (moves, true)])?;
        draft.add(self, &[(enters, true), (moves, false), (came, true)])
    }

    /// Adds that no entrance and no exit in this direction stands at a place where `moves` is so.
    fn add_clear(
        self,
        draft: &mut Draft,
        place: usize,
        dir: Dir,
        moves: Fact,
    ) -> Result<(), AllocError> {
        for piece in &[Piece::Entrance(dir), Piece::Exit(dir)] {
            draft.add(
                self,
                &[(Fact::Stands(place, *piece), false), (moves, false)],
            )?;
        }
        Ok(())
    }

    /// Adds that something moves below the ground in a direction from an entrance but not to it, and to an exit but not
    /// from it. Where it moves, nothing moves back, and no entrance or exit that looks against it stands.
    fn add_pieces(self, draft: &mut Draft, place: usize, dir: Dir) -> Result<(), AllocError> {
        let (enters, exits) = (
            Fact::Stands(place, Piece::Entrance(dir)),
            Fact::Stands(place, Piece::Exit(dir)),
        );
        let (ahead, back) = (Fact::Moves(place, dir), dir.opposite());
        draft.add(self, &[(enters, false), (ahead, true)])?;
        draft.add(self, &[(exits, false), (ahead, false)])?;
        self.add_clear(draft, place, back, ahead)?;
        let Some(behind) = self.board.ahead(place, back) else {
            return draft.add(self, &[(exits, false)]);
        };
        let came = Fact::Moves(behind, dir);
        draft.add(self, &[(exits, false), (came, true)])?;
        draft.add(self, &[(enters, false), (came, false)])?;
        draft.add(self, &[(came, false), (Fact::Moves(place, back), false)])?;
        self.add_clear(draft, place, back, came)
    }

    /// Adds the rules of what moves below the ground in a direction, to a cell and from it: it is a chain, nothing
    /// moves against it, and it comes up in time.
    fn add_below(
        self,
        alloc: Global,
        draft: &mut Draft,
        place: usize,
        dir: Dir,
    ) -> Result<(), AllocError> {
        let mut all = Vec::new(alloc);
        all.push((Fact::Moves(place, dir), false))?;
        for chain in &self.window.chains {
            all.push((Fact::Below(place, dir, *chain), true))?;
            self.add_way(draft, place, dir, *chain)?;
        }
        draft.add(self, &all)?;
        self.add_pieces(draft, place, dir)?;
        if let Some(next) = self.board.ahead(place, dir) {
            let against = Fact::Moves(next, dir.opposite());
            draft.add(self, &[(Fact::Moves(place, dir), false), (against, false)])?;
        }
        self.add_reach(alloc, draft, place, dir)
    }

    /// For each of twice `most` steps and one more in a direction that nothing moves there below the ground: from
    /// `most` cells behind a place, or from the border behind it, on. Fewer steps where they come to the border ahead.
    fn steps(
        self,
        alloc: Global,
        place: usize,
        dir: Dir,
        most: usize,
    ) -> Result<Vec<Said>, AllocError> {
        let mut at = place;
        for _ in 0..most {
            at = self.board.ahead(at, dir.opposite()).unwrap_or(at);
        }
        let mut steps = Vec::new(alloc);
        for _ in 0..most.saturating_mul(2).saturating_add(1) {
            steps.push((Fact::Moves(at, dir), false))?;
            match self.board.ahead(at, dir) {
                Some(next) => at = next,
                None => break,
            }
        }
        Ok(steps)
    }

    /// Adds that nothing moves below the ground for more steps than the greatest distance of pairs, on the ways whose
    /// first open step begins at this place: so each way is told once.
    fn add_reach(
        self,
        alloc: Global,
        draft: &mut Draft,
        place: usize,
        dir: Dir,
    ) -> Result<(), AllocError> {
        let most = self.board.most_apart();
        let steps = self.steps(alloc, place, dir, most)?;
        for from in 0..steps.len() {
            if let Some(way) = steps.get(from..from.saturating_add(most).saturating_add(1)) {
                if self.first_open(way) == Some(place) {
                    draft.add(self, way)?;
                }
            }
        }
        Ok(())
    }

    /// The place where the first step that is open begins; none where all are known.
    fn first_open(self, way: &[Said]) -> Option<usize> {
        for (fact, _) in way {
            if let (Fact::Moves(place, _), Term::Open(_)) = (
                *fact,
                self.window.term(self.board, *fact),
            ) {
                return Some(place);
            }
        }
        None
    }

    /// Adds that a lesser half at a place is that of exactly one splitter of the window, and that each half has the
    /// other one beside it, in the window.
    fn add_halves(
        self,
        alloc: Global,
        draft: &mut Draft,
        place: usize,
        dir: Dir,
    ) -> Result<(), AllocError> {
        let lesser = Fact::Stands(place, Piece::Lesser(dir));
        let mut said = Vec::new(alloc);
        said.push((lesser, false))?;
        let mut facts = Vec::new(alloc);
        for splitter in &self.window.splitters {
            let at = Fact::At(*splitter, place, dir);
            said.push((at, true))?;
            facts.push(at)?;
            draft.add(self, &[(at, false), (lesser, true)])?;
        }
        draft.add(self, &said)?;
        draft.add_at_most_one(self, &facts)?;
        match self.free(self.board.ahead(place, aside(dir))) {
            Some(other) => draft.add(
                self,
                &[
                    (lesser, false),
                    (Fact::Stands(other, Piece::Greater(dir)), true),
                ],
            )?,
            None => draft.add(self, &[(lesser, false)])?,
        }
        let greater = Fact::Stands(place, Piece::Greater(dir));
        match self.free(self.board.ahead(place, aside(dir).opposite())) {
            Some(other) => draft.add(
                self,
                &[
                    (greater, false),
                    (Fact::Stands(other, Piece::Lesser(dir)), true),
                ],
            ),
            None => draft.add(self, &[(greater, false)]),
        }
    }

    /// A place, where it is a cell of the window.
    fn free(self, place: Option<usize>) -> Option<usize> {
        match place {
            Some(place) if self.window.index(place).is_some() => Some(place),
            _ => None,
        }
    }

    /// Adds that a chain comes to a half of a splitter only where something comes there from behind.
    fn add_taken(
        self,
        alloc: Global,
        draft: &mut Draft,
        place: usize,
        dir: Dir,
    ) -> Result<(), AllocError> {
        let mut list = Vec::new(alloc);
        for chain in &self.window.chains {
            for half in &[Piece::Lesser(dir), Piece::Greater(dir)] {
                let said = [
                    (Fact::Stands(place, *half), false),
                    (Fact::Comes(place, *chain), false),
                ];
                self.add_into(draft, &said, place, dir, true, &mut list)?;
            }
        }
        Ok(())
    }

    /// Adds for one half of a splitter with these chains, at the place `half`: what comes there is a chain that the
    /// splitter takes, what leaves is one that it gives, and the half hands on where one of these leaves. `at` says
    /// that the splitter doesn't stand there.
    fn add_half(
        self,
        alloc: Global,
        draft: &mut Draft,
        at: Said,
        joint: Joint,
        half: usize,
        dir: Dir,
    ) -> Result<(), AllocError> {
        let (mut takes, mut gives) = (Vec::new(alloc), Vec::new(alloc));
        takes.push(at)?;
        gives.push(at)?;
        gives.push((Fact::Goes(half, dir), false))?;
        for chain in [joint.comes.0, joint.comes.1].iter().flatten() {
            takes.push((Fact::Comes(half, *chain), true))?;
        }
        for chain in [joint.goes.0, joint.goes.1].iter().flatten() {
            gives.push((Fact::Leaves(half, *chain), true))?;
            draft.add(
                self,
                &[
                    at,
                    (Fact::Leaves(half, *chain), false),
                    (Fact::Goes(half, dir), true),
                ],
            )?;
        }
        draft.add(self, &gives)?;
        let mut list = Vec::new(alloc);
        self.add_into(draft, &takes, half, dir, false, &mut list)
    }

    /// Adds that of two facts one is so, and not both, unless `at` holds, which says that a splitter doesn't stand at a
    /// place.
    fn add_one(
        self,
        draft: &mut Draft,
        at: Said,
        one: Fact,
        other: Fact,
    ) -> Result<(), AllocError> {
        draft.add(self, &[at, (one, true), (other, true)])?;
        draft.add(self, &[at, (one, false), (other, false)])
    }

    /// Adds that where a splitter's lesser half stands at a place, each chain that it takes comes to one of its halves,
    /// and each that it gives leaves one. Adds nothing where the other half would lie outside the window: it can't
    /// stand so.
    fn add_joint(
        self,
        alloc: Global,
        draft: &mut Draft,
        splitter: usize,
        joint: Joint,
        place: usize,
        dir: Dir,
    ) -> Result<(), AllocError> {
        let Some(other) = self.free(self.board.ahead(place, aside(dir))) else {
            return Ok(());
        };
        let at = (Fact::At(splitter, place, dir), false);
        self.add_half(alloc, draft, at, joint, place, dir)?;
        self.add_half(alloc, draft, at, joint, other, dir)?;
        for chain in [joint.comes.0, joint.comes.1].iter().flatten() {
            self.add_one(
                draft,
                at,
                Fact::Comes(place, *chain),
                Fact::Comes(other, *chain),
            )?;
        }
        for chain in [joint.goes.0, joint.goes.1].iter().flatten() {
            self.add_one(
                draft,
                at,
                Fact::Leaves(place, *chain),
                Fact::Leaves(other, *chain),
            )?;
        }
        Ok(())
    }

    /// Adds that each splitter stands somewhere, and what it takes and gives there.
    fn add_splitters(self, alloc: Global, draft: &mut Draft) -> Result<(), AllocError> {
        for splitter in &self.window.splitters {
            let Some(joint) = self.board.joints.get(*splitter) else {
                continue;
            };
            let mut said = Vec::new(alloc);
            for place in &self.window.cells {
                for dir in &DIRS {
                    said.push((Fact::At(*splitter, *place, *dir), true))?;
                    self.add_joint(alloc, draft, *splitter, *joint, *place, *dir)?;
                }
            }
            draft.add(self, &said)?;
        }
        Ok(())
    }

    /// Adds that chains that leave a place in a direction come to the next, and that a half that hands nothing on faces
    /// nothing.
    fn add_steps(self, draft: &mut Draft, place: usize, dir: Dir) -> Result<(), AllocError> {
        self.add_idle(draft, place, dir)?;
        for chain in &self.window.chains {
            self.add_step(draft, place, dir, *chain)?;
        }
        Ok(())
    }

    /// Adds the rules of a cell that speak of a direction, and how chains step to it from a neighbour behind that lies
    /// outside the window.
    fn add_towards(
        self,
        alloc: Global,
        draft: &mut Draft,
        place: usize,
        dir: Dir,
    ) -> Result<(), AllocError> {
        self.add_goes(draft, place, dir)?;
        self.add_comes(draft, place, dir)?;
        self.add_below(alloc, draft, place, dir)?;
        self.add_halves(alloc, draft, place, dir)?;
        self.add_taken(alloc, draft, place, dir)?;
        self.add_steps(draft, place, dir)?;
        match self.board.ahead(place, dir.opposite()) {
            Some(behind) if self.window.index(behind).is_none() => self.add_steps(
                draft, behind, dir,
            ),
            _ => Ok(()),
        }
    }

    /// Adds the rules of a cell.
    fn add_cell(self, alloc: Global, draft: &mut Draft, place: usize) -> Result<(), AllocError> {
        self.add_piece(alloc, draft, place)?;
        self.add_feeders(alloc, draft, place)?;
        self.add_chains(alloc, draft, place)?;
        for dir in &DIRS {
            self.add_towards(alloc, draft, place, *dir)?;
        }
        Ok(())
    }
}

/// The clauses of a window, with the wish that its cells be empty.
pub fn draft_of(alloc: Global, scene: Scene) -> Result<Draft, AllocError> {
    let mut draft = Draft::new(alloc, scene.window)?;
    for place in &scene.window.cells {
        scene.add_cell(alloc, &mut draft, *place)?;
    }
    scene.add_splitters(alloc, &mut draft)?;
    for place in &scene.window.cells {
        if let Term::Open(literal) = scene
            .window
            .term(scene.board, Fact::Stands(*place, Piece::Empty))
        {
            draft.solver.wish(literal.variable());
        }
    }
    Ok(draft)
}
