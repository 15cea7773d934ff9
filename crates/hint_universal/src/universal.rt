//! The arguments for universal balancers: networks whose spare ends lead back, beside ends that splitters prefer. None looks
//! at a pair of ends.
//!
//! What leads back counts as what an edge carries where it is free, and as full where it is backed. Of all that begins, so
//! counted, each free edge carries at least the mean of what it comes of, and where that is less than fills the ends, each
//! splitter of the last stage gets at least its share, so just that. An end that is short is preferred to the edge that leads
//! back beside it, so that is empty, and the end has all of the share; no end has more. Seen from the outputs it is the mirror
//! image. Of the flows through the network it follows that where an output is short each edge that leads back is free, and
//! where an input is short each is backed.
use crate::dealing::{Base, Dealing, NOTHING_TO_SHOW};
use crate::halves::{Halves, Spare, spare_edges};
use crate::sharing::{Sharing, negated};
use bt_cnf::{Formula, Lit};
use bt_extend::NamedLit;
use bt_net::Net;
use hint_graphs::Graph;
use hint_scopes::{
    Compared, Line, Next, add_aim, add_scope, compare, conclude, named, opposite_of, single,
};
use std::alloc::{AllocError, Global};

/// Of fewer splitters than this nothing is defined: the logs are shorter so.
const LEAST_SPLITTERS: u32 = 8;

/// Which edges are cut, by what is tried first.
const SPARES: [Spare; 3] = [Spare::BesideGiven, Spare::BesideTaken, Spare::BesideAny];

/// Adds the argument that the outputs, or the inputs, share fairly, and tells whether there is one.
pub fn add_fair(
    alloc: Global,
    net: &Net,
    formula: &Formula,
    line: &mut Line,
    of_inputs: bool,
) -> Result<bool, AllocError> {
    let graph = Graph::of(alloc, net)?;
    for spare in SPARES {
        let cut = spares_of(alloc, &graph, spare)?;
        if add_fair_by(alloc, &graph, &cut, formula, line, of_inputs)? {
            return Ok(true);
        }
    }
    Ok(false)
}

/// Adds the argument that all outputs carry the same, or that all inputs give the same, and tells whether there is one.
pub fn add_even(
    alloc: Global,
    net: &Net,
    formula: &Formula,
    line: &mut Line,
    of_inputs: bool,
) -> Result<bool, AllocError> {
    let graph = Graph::of(alloc, net)?;
    for spare in SPARES {
        let cut = spares_of(alloc, &graph, spare)?;
        if add_even_by(alloc, &graph, &cut, formula, line, of_inputs)? {
            return Ok(true);
        }
    }
    Ok(false)
}

/// Adds the argument that the outputs carry all that is loaded or all that they take, and tells whether there is one.
pub fn add_through(
    alloc: Global,
    net: &Net,
    formula: &Formula,
    line: &mut Line,
) -> Result<bool, AllocError> {
    let graph = Graph::of(alloc, net)?;
    for spare in SPARES {
        let cut = spares_of(alloc, &graph, spare)?;
        if add_through_by(alloc, &graph, &cut, formula, line)? {
            return Ok(true);
        }
    }
    Ok(false)
}

/// For each edge whether it is cut, as one that leads back beside an edge that is preferred. None is where splitters are few
/// or a cap isn't 1.
fn spares_of(alloc: Global, graph: &Graph, spare: Spare) -> Result<Vec<bool>, AllocError> {
    let large = graph.net.splitters() >= LEAST_SPLITTERS;
    if large && graph.net.edges().iter().all(|edge| edge.cap == 1) {
        spare_edges(alloc, graph, spare)
    } else {
        Ok(Vec::new(alloc))
    }
}

/// Defines what is compared from one side. None where not all is dealt evenly from there or the ends behind the last
/// stage aren't preferred.
fn sharing_of<'a>(
    alloc: Global,
    graph: &'a Graph<'a>,
    cut: &'a [bool],
    line: &mut Line,
    next: &mut Next,
    from_outputs: bool,
) -> Result<Option<Sharing<'a>>, AllocError> {
    match halves_of(alloc, graph, from_outputs, cut, next.column())? {
        Some(halves) => Sharing::of(alloc, line, next, halves),
        None => Ok(None),
    }
}

/// A network seen from one side. None where no edge is cut, not all is dealt evenly or the ends behind the last stage
/// aren't preferred.
fn halves_of<'a>(
    alloc: Global,
    graph: &'a Graph<'a>,
    from_outputs: bool,
    cut: &'a [bool],
    column: usize,
) -> Result<Option<Halves<'a>>, AllocError> {
    if cut.contains(&true) {
        Halves::of(alloc, graph, from_outputs, cut, column)
    } else {
        Ok(None)
    }
}

/// An end behind a splitter of the last stage.
#[derive(Clone, Copy)]
struct LastEnd {
    splitter: usize,
    edge: usize,
    number: usize,
}

/// The ends behind the last stage.
fn last_ends(alloc: Global, halves: &Halves) -> Result<Vec<LastEnd>, AllocError> {
    let mut ends = Vec::new(alloc);
    for splitter in &halves.last {
        for edge in halves.behind(*splitter) {
            if let Some(number) = halves.end(*edge) {
                ends.push(LastEnd {
                    splitter: *splitter,
                    edge: *edge,
                    number,
                })?;
            }
        }
    }
    Ok(ends)
}

/// The rows, and behind them those of a comparison, where there is one.
fn with_rows(rows: Vec<usize>, compared: Option<Compared>) -> Result<Vec<usize>, AllocError> {
    let mut rows = rows;
    if let Some(compared) = compared {
        compared.add_rows(&mut rows)?;
    }
    Ok(rows)
}

/// Adds the row of the variable at a place, where it is an atom.
fn add_row_of(rows: &mut Vec<usize>, formula: &Formula, place: usize) -> Result<(), AllocError> {
    if let Some(var) = formula.var_at(place) {
        if let Some(row) = formula.row_of(var) {
            rows.push(row)?;
        }
    }
    Ok(())
}

/// The literals of the clause after which so many more come; none where there is no such clause.
fn clause_before(formula: &Formula, more: usize) -> &[Lit] {
    let place = formula.clauses().saturating_sub(1).saturating_sub(more);
    match formula.clause_at(place) {
        Some(clause) => formula.clause(clause),
        None => &[],
    }
}

/// Adds the aim of some literals and a last one, where there is a last one.
fn add_with(
    alloc: Global,
    line: &mut Line,
    lits: &[NamedLit],
    last: Option<NamedLit>,
    place: usize,
) -> Result<(), AllocError> {
    let Some(last) = last else {
        return Ok(());
    };
    let mut all = Vec::from_slice(alloc, lits)?;
    all.push(last)?;
    add_aim(alloc, &mut line.aims, &all, place)
}

/// The argument that ends share fairly.
#[derive(Clone, Copy)]
struct Fair<'a> {
    dealing: Dealing<'a>,
    formula: &'a Formula,
    /// The share of a splitter of the last stage, compared with the level.
    level: Compared,
    /// How many ends are compared.
    count: usize,
}

/// Adds the argument that ends share fairly by these cuts, and tells whether there is one.
fn add_fair_by<'a>(
    alloc: Global,
    graph: &'a Graph<'a>,
    cut: &'a [bool],
    formula: &'a Formula,
    line: &mut Line,
    of_inputs: bool,
) -> Result<bool, AllocError> {
    let mut next = Next::behind(formula);
    let Some(sharing) = sharing_of(alloc, graph, cut, line, &mut next, of_inputs)? else {
        return Ok(false);
    };
    let level = [single(level_column(graph.net))];
    let share = &sharing.halves.share;
    let Some(level) = compare(alloc, line, &mut next, share, &level, false)? else {
        return Ok(false);
    };
    let base = Base::of(alloc, graph.net, formula, of_inputs)?;
    let fair = Fair {
        dealing: Dealing {
            sharing: &sharing,
            base: &base,
        },
        formula,
        level,
        count: count_of(graph.net, of_inputs),
    };
    fair.add_all(alloc, line)?;
    Ok(true)
}

/// How many inputs or outputs a network has.
fn count_of(net: &Net, of_inputs: bool) -> usize {
    if of_inputs {
        net.inputs() as usize
    } else {
        net.outputs() as usize
    }
}

/// The column of the level, behind those of rooms.
fn level_column(net: &Net) -> usize {
    let ends = (net.inputs() as usize).saturating_add(net.outputs() as usize);
    net.edges().len().saturating_add(ends)
}

impl<'a> Fair<'a> {
    /// Adds the aims, in the order in which they follow.
    fn add_all(&self, alloc: Global, line: &mut Line) -> Result<(), AllocError> {
        self.dealing.add_dealt(alloc, line)?;
        for end in &last_ends(alloc, self.dealing.halves())? {
            self.add_end(alloc, line, *end)?;
        }
        let small = self.dealing.sharing.is_small();
        add_aim(alloc, &mut line.aims, &[small], NOTHING_TO_SHOW)?;
        let over = self.level.is_less();
        add_aim(alloc, &mut line.aims, &[over], NOTHING_TO_SHOW)?;
        self.dealing.add_shares(alloc, line)?;
        self.dealing.add_law(alloc, self.formula, line)?;
        self.add_last(alloc, line)
    }

    /// Adds that an end below the level isn't full, and has all of the share of its splitter.
    fn add_end(&self, alloc: Global, line: &mut Line, end: LastEnd) -> Result<(), AllocError> {
        let rows = self.dealing.at_splitter(alloc, line, end.splitter)?;
        let mut rows = with_rows(rows, Some(self.level))?;
        add_row_of(&mut rows, self.formula, self.below(end))?;
        let place = add_scope(line, rows)?;
        self.add_met(alloc, line, end, place)?;
        let not_below = named(self.below(end), false);
        let small = self.dealing.sharing.is_small();
        add_aim(alloc, &mut line.aims, &[small, not_below], place)?;
        let over = self.level.is_less();
        add_aim(alloc, &mut line.aims, &[over, not_below], place)
    }

    /// Adds that an end that is full isn't short, and that one that is short doesn't reach what it may carry.
    fn add_met(
        &self,
        alloc: Global,
        line: &mut Line,
        end: LastEnd,
        place: usize,
    ) -> Result<(), AllocError> {
        let Some(meets) = self.dealing.base.literals.meets(end.edge) else {
            return Ok(());
        };
        let not_full = self.dealing.base.literals.not_full(end.edge);
        add_with(alloc, line, &[meets], not_full, place)?;
        let not_short = named(self.short(end), false);
        add_aim(alloc, &mut line.aims, &[not_short, negated(meets)], place)
    }

    /// The variable that says that an end is below the level.
    fn below(&self, end: LastEnd) -> usize {
        let of_ends = self.count.saturating_mul(3);
        self.formula
            .vars()
            .saturating_sub(of_ends)
            .saturating_add(end.number)
    }

    /// The variable that says that an end is short: it carries less than its load or its room.
    fn short(&self, end: LastEnd) -> usize {
        self.below(end).saturating_add(self.count)
    }

    /// Adds that no end reaches the level.
    fn add_last(&self, alloc: Global, line: &mut Line) -> Result<(), AllocError> {
        let rows = with_rows(self.dealing.rows_of_ends(alloc)?, Some(self.level))?;
        conclude(alloc, self.formula, line, rows)?;
        add_aim(alloc, &mut line.aims, &[], NOTHING_TO_SHOW)
    }
}

/// Adds for each end behind the last stage that it isn't short where it is full, and where enough begins.
fn add_met_ends(
    alloc: Global,
    line: &mut Line,
    dealing: Dealing,
    ends: &[LastEnd],
) -> Result<(), AllocError> {
    for end in ends {
        let rows = dealing.at_splitter(alloc, line, end.splitter)?;
        let place = add_scope(line, rows)?;
        if let Some(meets) = dealing.base.literals.meets(end.edge) {
            let not_full = dealing.base.literals.not_full(end.edge);
            add_with(alloc, line, &[meets], not_full, place)?;
            let small = dealing.sharing.is_small();
            add_aim(alloc, &mut line.aims, &[small, meets], place)?;
        }
    }
    Ok(())
}

/// Adds all that is argued from one side, up to the shares and the law.
fn add_side(
    alloc: Global,
    formula: &Formula,
    line: &mut Line,
    dealing: Dealing,
    ends: &[LastEnd],
) -> Result<(), AllocError> {
    dealing.add_dealt(alloc, line)?;
    add_met_ends(alloc, line, dealing, ends)?;
    dealing.add_shares(alloc, line)?;
    dealing.add_law(alloc, formula, line)
}

/// Adds the argument that flows come through by these cuts, and tells whether there is one.
fn add_through_by(
    alloc: Global,
    graph: &Graph,
    cut: &[bool],
    formula: &Formula,
    line: &mut Line,
) -> Result<bool, AllocError> {
    let mut next = Next::behind(formula);
    if !are_halves(alloc, graph, cut)? {
        return Ok(false);
    }
    let Some(first) = sharing_of(alloc, graph, cut, line, &mut next, false)? else {
        return Ok(false);
    };
    let Some(second) = sharing_of(alloc, graph, cut, line, &mut next, true)? else {
        return Ok(false);
    };
    let base = Base::of(alloc, graph.net, formula, false)?;
    let sides = [&first, &second];
    for sharing in sides {
        let dealing = Dealing {
            sharing,
            base: &base,
        };
        let ends = last_ends(alloc, dealing.halves())?;
        add_side(alloc, formula, line, dealing, &ends)?;
        add_spare(alloc, line, dealing)?;
    }
    for sharing in sides {
        let dealing = Dealing {
            sharing,
            base: &base,
        };
        add_spare_unit(alloc, formula, line, dealing)?;
    }
    add_aim(alloc, &mut line.aims, &[], NOTHING_TO_SHOW)?;
    Ok(true)
}

/// Whether all is dealt evenly from both sides, to ends that are preferred.
fn are_halves(alloc: Global, graph: &Graph, cut: &[bool]) -> Result<bool, AllocError> {
    let first = halves_of(alloc, graph, false, cut, graph.edges())?;
    let second = halves_of(alloc, graph, true, cut, graph.edges())?;
    Ok(first.is_some() && second.is_some())
}

/// Adds that where less begins than fills the ends, the first edge that leads back doesn't hinder.
fn add_spare(alloc: Global, line: &mut Line, dealing: Dealing) -> Result<(), AllocError> {
    let place = add_scope(line, dealing.rows_of_ends(alloc)?)?;
    let Some(edge) = dealing.halves().first_cut() else {
        return Ok(());
    };
    // What is asked of the mark later is what begins, so that comes last.
    let lits = [
        dealing.sharing.unhindered(edge),
        dealing.sharing.is_not_small(),
    ];
    add_aim(alloc, &mut line.aims, &lits, place)
}

/// Adds that the first edge that leads back doesn't hinder: else each end has all that it may carry.
fn add_spare_unit(
    alloc: Global,
    formula: &Formula,
    line: &mut Line,
    dealing: Dealing,
) -> Result<(), AllocError> {
    let mut rows = dealing.rows_of_ends(alloc)?;
    for more in [0, 1] {
        for lit in clause_before(formula, more) {
            add_row_of(&mut rows, formula, lit.var.place())?;
        }
    }
    let place = add_scope(line, rows)?;
    match dealing.halves().first_cut() {
        Some(edge) => {
            let lit = dealing.sharing.unhindered(edge);
            add_aim(alloc, &mut line.aims, &[lit], place)
        }
        None => Ok(()),
    }
}

/// The argument that ends carry the same.
#[derive(Drop)]
struct Even<'a> {
    dealing: Dealing<'a>,
    formula: &'a Formula,
    ends: Vec<LastEnd>,
    /// For each of these the share of its splitter, compared with what it carries, both ways.
    compared: Vec<Option<Compared>>,
}

/// Adds the argument that ends carry the same by these cuts, and tells whether there is one.
fn add_even_by<'a>(
    alloc: Global,
    graph: &'a Graph<'a>,
    cut: &'a [bool],
    formula: &'a Formula,
    line: &mut Line,
    of_inputs: bool,
) -> Result<bool, AllocError> {
    let mut next = Next::behind(formula);
    let Some(sharing) = sharing_of(alloc, graph, cut, line, &mut next, of_inputs)? else {
        return Ok(false);
    };
    let ends = last_ends(alloc, &sharing.halves)?;
    let mut compared = Vec::new(alloc);
    for end in &ends {
        let flow = [single(end.edge)];
        let share = &sharing.halves.share;
        compared.push(compare(alloc, line, &mut next, share, &flow, true)?)?;
    }
    let base = Base::of(alloc, graph.net, formula, of_inputs)?;
    let even = Even {
        dealing: Dealing {
            sharing: &sharing,
            base: &base,
        },
        formula,
        ends,
        compared,
    };
    even.add_all(alloc, line)?;
    Ok(true)
}

impl<'a> Even<'a> {
    /// Adds the aims, in the order in which they follow.
    fn add_all(&self, alloc: Global, line: &mut Line) -> Result<(), AllocError> {
        add_side(alloc, self.formula, line, self.dealing, &self.ends)?;
        let of_ends = self.dealing.rows_of_ends(alloc)?;
        for (end, compared) in self.ends.iter().zip(&self.compared) {
            if let Some(compared) = compared {
                self.add_end(alloc, line, *end, *compared, &of_ends)?;
            }
        }
        self.add_last(alloc, line)
    }

    /// Adds that an end has all of its splitter's share and no more, where less begins than fills the ends.
    fn add_end(
        &self,
        alloc: Global,
        line: &mut Line,
        end: LastEnd,
        compared: Compared,
        of_ends: &[usize],
    ) -> Result<(), AllocError> {
        let rows = with_rows(Vec::from_slice(alloc, of_ends)?, Some(compared))?;
        let at_ends = add_scope(line, rows)?;
        let rows = self.dealing.at_splitter(alloc, line, end.splitter)?;
        let at_splitter = add_scope(line, with_rows(rows, Some(compared))?)?;
        let not_small = [self.dealing.sharing.is_not_small()];
        let no_more = Some(compared.at_least());
        add_with(alloc, line, &not_small, no_more, at_ends)?;
        let not_met = self.not_met(end);
        add_with(alloc, line, &not_small, not_met, at_splitter)?;
        add_with(alloc, line, &not_small, compared.at_most(), at_splitter)
    }

    /// The literal that says that an end doesn't reach its load or its room, where there is one.
    fn not_met(&self, end: LastEnd) -> Option<NamedLit> {
        Some(negated(self.dealing.base.literals.meets(end.edge)?))
    }

    /// Adds that all ends carry the same: where less begins than fills them, and where they are full.
    fn add_last(&self, alloc: Global, line: &mut Line) -> Result<(), AllocError> {
        let rows = self.rows_of_last(alloc)?;
        let place = add_scope(line, rows)?;
        let not_small = self.dealing.sharing.is_not_small();
        for lit in clause_before(self.formula, 0) {
            let lits = [not_small, opposite_of(*lit)];
            add_aim(alloc, &mut line.aims, &lits, place)?;
        }
        add_aim(alloc, &mut line.aims, &[not_small], NOTHING_TO_SHOW)?;
        for lit in clause_before(self.formula, 0) {
            add_aim(alloc, &mut line.aims, &[opposite_of(*lit)], place)?;
        }
        add_aim(alloc, &mut line.aims, &[], NOTHING_TO_SHOW)
    }

    /// The rows that speak of one of the ends alone, of their comparisons with shares, and of the last clause, which
    /// compares them with each other.
    fn rows_of_last(&self, alloc: Global) -> Result<Vec<usize>, AllocError> {
        let mut rows = Vec::new(alloc);
        for (end, compared) in self.ends.iter().zip(&self.compared) {
            rows.extend_from_slice(self.dealing.base.alone(end.edge))?;
            if let Some(compared) = compared {
                compared.add_rows(&mut rows)?;
            }
        }
        for lit in clause_before(self.formula, 0) {
            add_row_of(&mut rows, self.formula, lit.var.place())?;
        }
        Ok(rows)
    }
}
