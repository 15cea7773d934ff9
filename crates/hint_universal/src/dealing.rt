//! The aims that all that begins is dealt evenly to the splitters of the last stage, seen from one side, in their order.
//!
//! Of the two literals of an aim the one comes last that follows from the other in later steps: what the first leads to must
//! not stand before the last is made false, or the search learns a clause of what that led to.
use crate::halves::Halves;
use crate::sharing::Sharing;
use bt_cnf::Formula;
use bt_extend::NamedLit;
use bt_net::Net;
use hint_graphs::{list_at, places_of};
use hint_scopes::{
    Chosen, FormulaLits, Line, add_aim, add_scope, equal_rows, in_order, rows_alone,
};
use std::alloc::{AllocError, Global};

/// The scope of an aim that follows by propagation.
pub const NOTHING_TO_SHOW: usize = usize::MAX;

/// What a formula says of the edges and splitters of a network.
#[derive(Drop)]
pub struct Base {
    pub literals: FormulaLits,
    /// For each edge the rows that speak of it alone.
    alone: Vec<Vec<usize>>,
    /// For each splitter the place of its scope.
    places: Vec<usize>,
}

impl Base {
    /// What a network's formula says. With `farthest_first` the scopes of its splitters begin with the farthest from
    /// the outputs, and else with the nearest.
    pub fn of(
        alloc: Global,
        net: &Net,
        formula: &Formula,
        farthest_first: bool,
    ) -> Result<Base, AllocError> {
        Ok(Base {
            literals: FormulaLits::of(alloc, net, formula)?,
            alone: rows_alone(alloc, net, formula.rows())?,
            places: places_of(alloc, net, farthest_first)?,
        })
    }

    /// The rows that speak of an edge alone.
    pub fn alone(&self, edge: usize) -> &[usize] {
        list_at(&self.alone, edge)
    }

    /// The place of a splitter's scope, `usize::MAX` where there is no such splitter.
    fn place(&self, splitter: usize) -> usize {
        self.places.get(splitter).copied().unwrap_or(usize::MAX)
    }
}

/// What the aims of one side are made of.
#[derive(Clone, Copy)]
pub struct Dealing<'a> {
    pub sharing: &'a Sharing<'a>,
    pub base: &'a Base,
}

impl<'a> Dealing<'a> {
    /// The network as it is seen from this side.
    pub fn halves(&self) -> &'a Halves<'a> {
        &self.sharing.halves
    }

    /// Adds what is true of edges that are cut, and that free edges carry at least the mean of what they come of.
    pub fn add_dealt(&self, alloc: Global, line: &mut Line) -> Result<(), AllocError> {
        for edge in 0..self.halves().graph.edges() {
            if let Some(counted) = self.sharing.counted(edge) {
                self.add_counted(alloc, line, edge, counted)?;
            }
        }
        for splitter in &self.halves().order {
            if self.halves().from_outputs {
                self.add_passed(alloc, line, *splitter)?;
            }
            self.add_means(alloc, line, *splitter)?;
        }
        Ok(())
    }

    /// Adds of an edge that is cut, whatever its mark: what begins there is at most what fills it and at least its
    /// flow, and it is what fills it where the edge is full.
    fn add_counted(
        &self,
        alloc: Global,
        line: &mut Line,
        edge: usize,
        counted: Chosen,
    ) -> Result<(), AllocError> {
        let mut rows = Vec::from_slice(alloc, self.base.alone(edge))?;
        counted.add_rows(&mut rows)?;
        let place = add_scope(line, rows)?;
        add_aim(alloc, &mut line.aims, &[counted.at_most_first()], place)?;
        add_aim(alloc, &mut line.aims, &[counted.at_least_second()], place)?;
        self.add_full(alloc, line, edge, counted.at_least_first(), place)?;
        if self.halves().from_outputs {
            self.add_full(alloc, line, edge, counted.at_most_second(), place)?;
        }
        Ok(())
    }

    /// Adds that a literal is true where an edge is full.
    fn add_full(
        &self,
        alloc: Global,
        line: &mut Line,
        edge: usize,
        lit: NamedLit,
        place: usize,
    ) -> Result<(), AllocError> {
        match self.base.literals.not_full(edge) {
            Some(not_full) => add_aim(alloc, &mut line.aims, &[not_full, lit], place),
            None => Ok(()),
        }
    }

    /// Adds that where an edge into a splitter is backed, each edge out of it carries at least its mean: it is backed or full.
    fn add_passed(
        &self,
        alloc: Global,
        line: &mut Line,
        splitter: usize,
    ) -> Result<(), AllocError> {
        for edge in self.halves().behind(splitter) {
            if !self.halves().is_cut(*edge) {
                self.add_passed_by(alloc, line, splitter, *edge)?;
            }
        }
        Ok(())
    }

    /// Adds that where this edge into a splitter is backed, each edge out of it carries at least its mean.
    fn add_passed_by(
        &self,
        alloc: Global,
        line: &mut Line,
        splitter: usize,
        edge: usize,
    ) -> Result<(), AllocError> {
        for other in self.halves().before(splitter) {
            if let Some(carries) = self.sharing.carries(*other) {
                let lits = [self.sharing.hindered(edge), carries];
                add_aim(alloc, &mut line.aims, &lits, NOTHING_TO_SHOW)?;
            }
        }
        Ok(())
    }

    /// Adds that each edge behind a splitter carries at least its mean: where it is full, and where nothing hinders that.
    fn add_means(&self, alloc: Global, line: &mut Line, splitter: usize) -> Result<(), AllocError> {
        for edge in self.halves().behind(splitter) {
            if !self.halves().mean(*edge).is_empty() {
                self.add_mean_where_full(alloc, line, *edge)?;
            }
        }
        let rows = self.at_splitter(alloc, line, splitter)?;
        let place = add_scope(line, rows)?;
        for edge in self.halves().behind(splitter) {
            if !self.halves().mean(*edge).is_empty() {
                self.add_mean(alloc, line, *edge, place)?;
            }
        }
        Ok(())
    }

    /// Adds that an edge carries at least its mean where it is full.
    fn add_mean_where_full(
        &self,
        alloc: Global,
        line: &mut Line,
        edge: usize,
    ) -> Result<(), AllocError> {
        let Some(carries) = self.sharing.carries(edge) else {
            return Ok(());
        };
        let rows = self.with_mean(alloc, edge)?;
        let place = add_scope(line, rows)?;
        self.add_full(alloc, line, edge, carries, place)
    }

    /// Adds that an edge carries at least its mean where nothing hinders that, by the scope at a place.
    fn add_mean(
        &self,
        alloc: Global,
        line: &mut Line,
        edge: usize,
        place: usize,
    ) -> Result<(), AllocError> {
        let Some(carries) = self.sharing.carries(edge) else {
            return Ok(());
        };
        let hindered = self.sharing.hindered(edge);
        // From the outputs back all that is needed follows from the mark alone, so it comes last.
        let lits = if self.halves().from_outputs {
            [carries, hindered]
        } else {
            [hindered, carries]
        };
        add_aim(alloc, &mut line.aims, &lits, place)
    }

    /// The rows of an edge, and those that say what the columns of its mean are at most.
    fn with_mean(&self, alloc: Global, edge: usize) -> Result<Vec<usize>, AllocError> {
        let mut rows = Vec::from_slice(alloc, self.base.alone(edge))?;
        self.sharing.add_rows_of(&mut rows, edge)?;
        for term in self.halves().mean(edge) {
            match self.halves().cut_of(term.column) {
                Some(cut) => self.sharing.add_rows_of(&mut rows, cut)?,
                None => rows.extend_from_slice(self.base.alone(term.column))?,
            }
        }
        in_order(&mut rows)?;
        Ok(rows)
    }

    /// The rows of a splitter, the comparisons of its edges, and that of all that begins.
    pub fn at_splitter(
        &self,
        alloc: Global,
        line: &Line,
        splitter: usize,
    ) -> Result<Vec<usize>, AllocError> {
        let place = self.base.place(splitter);
        let mut rows = Vec::from_slice(alloc, list_at(&line.scopes, place))?;
        for edge in self.halves().before(splitter) {
            self.sharing.add_rows_of(&mut rows, *edge)?;
        }
        for edge in self.halves().behind(splitter) {
            self.sharing.add_rows_of(&mut rows, *edge)?;
        }
        self.sharing.add_enough(&mut rows)?;
        in_order(&mut rows)?;
        Ok(rows)
    }

    /// Adds that each splitter of the last stage gets at least its share, where less begins than fills all of them.
    pub fn add_shares(&self, alloc: Global, line: &mut Line) -> Result<(), AllocError> {
        for place in 0..self.halves().last.len() {
            self.add_share(alloc, line, place)?;
        }
        Ok(())
    }

    /// Adds that the splitter of the last stage at a place gets at least its share, where less begins than fills all of
    /// them.
    fn add_share(&self, alloc: Global, line: &mut Line, place: usize) -> Result<(), AllocError> {
        let splitter = self.halves().last_at(place);
        let Some(share) = self.sharing.share(place) else {
            return Ok(());
        };
        let mut rows = self.at_splitter(alloc, line, splitter)?;
        share.add_rows(&mut rows)?;
        let scope = add_scope(line, rows)?;
        if !self.halves().from_outputs {
            self.add_filled(alloc, line, splitter)?;
        }
        let lits = [self.sharing.is_not_small(), share.at_least()];
        self.add_share_by(alloc, line, splitter, lits, scope)?;
        add_aim(alloc, &mut line.aims, &lits, scope)
    }

    /// Adds for each edge into a splitter of the last stage that it carries its mean or is backed, and that where it is
    /// backed each cut edge behind the splitter counts as full: behind a backed edge all are backed or full, and a cut
    /// edge that is backed counts as full.
    fn add_filled(
        &self,
        alloc: Global,
        line: &mut Line,
        splitter: usize,
    ) -> Result<(), AllocError> {
        for edge in self.halves().before(splitter) {
            self.add_turned(alloc, line, *edge)?;
            for other in self.halves().behind(splitter) {
                if let Some(counted) = self.sharing.counted(*other) {
                    let lits = [self.sharing.unhindered(*edge), counted.at_least_first()];
                    add_aim(alloc, &mut line.aims, &lits, NOTHING_TO_SHOW)?;
                }
            }
        }
        Ok(())
    }

    /// Adds that an edge carries its mean or is backed, with the two literals turned round. What was learned of it
    /// leads from the mark to the mean alone: it has one more literal, which follows of the mark.
    fn add_turned(&self, alloc: Global, line: &mut Line, edge: usize) -> Result<(), AllocError> {
        match self.sharing.carries(edge) {
            Some(carries) => {
                let lits = [carries, self.sharing.hindered(edge)];
                add_aim(alloc, &mut line.aims, &lits, NOTHING_TO_SHOW)
            }
            None => Ok(()),
        }
    }

    /// Adds that a splitter gets its share where an edge before it doesn't carry its mean.
    fn add_share_by(
        &self,
        alloc: Global,
        line: &mut Line,
        splitter: usize,
        lits: [NamedLit; 2],
        scope: usize,
    ) -> Result<(), AllocError> {
        let [not_small, gets] = lits;
        for edge in self.halves().before(splitter) {
            if let Some(carries) = self.sharing.carries(*edge) {
                add_aim(alloc, &mut line.aims, &[not_small, gets, carries], scope)?;
            }
        }
        Ok(())
    }

    /// Adds that no less flows at the ends where flows begin than at the ends of the other side.
    pub fn add_law(
        &self,
        alloc: Global,
        formula: &Formula,
        line: &mut Line,
    ) -> Result<(), AllocError> {
        let Some(law) = self.sharing.law() else {
            return Ok(());
        };
        let mut rows = equal_rows(alloc, formula)?;
        law.add_rows(&mut rows)?;
        let place = add_scope(line, rows)?;
        add_aim(alloc, &mut line.aims, &[law.at_least()], place)
    }

    /// The rows of the ends behind the last stage and of edges that are cut, with all shares and the law.
    pub fn rows_of_ends(&self, alloc: Global) -> Result<Vec<usize>, AllocError> {
        let mut rows = Vec::new(alloc);
        for edge in 0..self.halves().graph.edges() {
            if self.halves().ends(edge) {
                rows.extend_from_slice(self.base.alone(edge))?;
                self.sharing.add_rows_of(&mut rows, edge)?;
            }
        }
        self.sharing.add_shares(&mut rows)?;
        self.sharing.add_enough(&mut rows)?;
        if let Some(law) = self.sharing.law() {
            law.add_rows(&mut rows)?;
        }
        in_order(&mut rows)?;
        Ok(rows)
    }
}
