//! The argument that two networks behave the same that are equal up to numbering. By how much an edge carries more than the one
//! beside it counts where it carries more and the other one is backed, or where it carries less and is free: its excess. The
//! excesses of the edges into a splitter are together at most those of the edges out of it. At inputs there is none below
//! nothing, and at outputs none above it, so at all ends there is none, and then no output carries more or less.
use bt_cnf::Formula;
use bt_extend::{Form, NamedLit};
use bt_frac::Frac;
use bt_net::Net;
use hint_graphs::{Graph, edges_beside, ends_of, has_no_preference, splitters_beside};
use hint_scopes::{
    Aim, Comparison, Counted, Couple, Line, Next, add_aim, add_both, add_scope, apart, conclude,
    equal_rows, in_order, named, scopes_of_couples, sum_of,
};
use std::alloc::{AllocError, Global};

/// Of fewer splitters than this nothing is defined: the logs are shorter so.
const LEAST_SPLITTERS: u32 = 3;

/// Two edges beside each other, with what is defined of them.
#[derive(Clone, Copy)]
struct Pair {
    first: usize,
    /// The column of the second one's flow.
    second: usize,
    /// Of the first flow less the second.
    over: Comparison,
    /// Of the second flow less the first.
    under: Comparison,
    /// The difference, where it counts.
    excess: Counted,
}

impl Pair {
    /// Adds the rows that define the comparisons of both flows and the excess.
    fn add_rows(self, rows: &mut Vec<usize>) -> Result<(), AllocError> {
        self.over.add_rows(rows)?;
        self.under.add_rows(rows)?;
        self.excess.add_rows(rows)
    }
}

/// The argument so far.
#[derive(Drop)]
struct Pairing<'a> {
    graph: &'a Graph<'a>,
    next: Next,
    /// For each edge of the first network.
    pairs: Vec<Pair>,
    /// For each splitter the comparison of both its sides, then that of all ends, then that of all that flows.
    sums: Vec<Comparison>,
    inputs: Vec<usize>,
    outputs: Vec<usize>,
}

/// The argument, where there is one: the networks are equal up to numbering and not too small, and no splitter prefers an edge.
pub fn pairing_of(
    alloc: Global,
    first: &Net,
    second: &Net,
    formula: &Formula,
) -> Result<Option<Line>, AllocError> {
    if first.splitters() < LEAST_SPLITTERS
        || !has_no_preference(first)
        || !has_no_preference(second)
    {
        return Ok(None);
    }
    let graph = Graph::of(alloc, first)?;
    let other = Graph::of(alloc, second)?;
    match splitters_beside(alloc, &graph, &other)? {
        Some(splitters) => line_beside(alloc, &graph, &other, formula, &splitters),
        None => Ok(None),
    }
}

/// The argument by splitters beside each other, where edges are so too.
fn line_beside(
    alloc: Global,
    first: &Graph,
    second: &Graph,
    formula: &Formula,
    splitters: &[usize],
) -> Result<Option<Line>, AllocError> {
    let Some(edges) = edges_beside(alloc, first, second, splitters)? else {
        return Ok(None);
    };
    let couples = couples_of(alloc, splitters)?;
    let scopes = scopes_of_couples(alloc, first.net, second.net, &couples, formula.rows())?;
    let mut line = Line {
        definitions: Vec::new(alloc),
        scopes,
        aims: Vec::new(alloc),
    };
    add_pairs(alloc, first, formula, &mut line, &edges)?;
    Ok(Some(line))
}

/// The couples of splitters beside each other.
fn couples_of(alloc: Global, splitters: &[usize]) -> Result<Vec<Couple>, AllocError> {
    let mut couples = Vec::new(alloc);
    for (first, second) in splitters.iter().enumerate() {
        couples.push(Couple {
            first,
            second: *second,
        })?;
    }
    Ok(couples)
}

/// Adds the argument of edges beside each other, behind the scopes of splitters.
fn add_pairs(
    alloc: Global,
    graph: &Graph,
    formula: &Formula,
    line: &mut Line,
    edges: &[usize],
) -> Result<(), AllocError> {
    let mut pairing = Pairing {
        graph,
        next: Next::behind(formula),
        pairs: Vec::new(alloc),
        sums: Vec::new(alloc),
        inputs: ends_of(alloc, graph, false)?,
        outputs: ends_of(alloc, graph, true)?,
    };
    pairing.define(alloc, line, edges)?;
    pairing.argue(alloc, formula, line)
}

/// Adds where the excess of two edges is at most nothing: where the first carries no less or more, where the second is backed,
/// and where the excess is at most the difference.
fn add_none(
    alloc: Global,
    aims: &mut Vec<Aim>,
    pair: Pair,
    place: usize,
) -> Result<(), AllocError> {
    let none = pair.excess.is_none();
    add_both(alloc, aims, none, pair.over.is_some(), place)?;
    add_both(alloc, aims, none, pair.under.is_less(), place)?;
    add_both(alloc, aims, none, named(pair.second, true), place)?;
    add_both(alloc, aims, none, pair.excess.is_no_more(), place)
}

/// Adds where the excess of two edges is at least nothing: where the first carries no more or less, where it is free, and where
/// the excess is at least the difference.
fn add_some(
    alloc: Global,
    aims: &mut Vec<Aim>,
    pair: Pair,
    place: usize,
) -> Result<(), AllocError> {
    let some = pair.excess.is_some();
    add_both(alloc, aims, some, pair.under.is_some(), place)?;
    add_both(alloc, aims, some, pair.over.is_less(), place)?;
    add_both(alloc, aims, some, named(pair.first, false), place)?;
    add_both(alloc, aims, some, pair.excess.is_all(), place)
}

/// Adds rows to a list in which each stands once, in order.
fn merge(rows: &mut Vec<usize>, more: &[usize]) -> Result<(), AllocError> {
    rows.extend_from_slice(more)?;
    in_order(rows)
}

/// What defines an excess: how much more the first of two edges carries than the second, how much less, and the excess
/// where it counts.
#[derive(Drop)]
struct Forms {
    over: Form,
    under: Form,
    excess: Form,
}

impl Forms {
    /// The forms of two columns. None where the second isn't above the first.
    fn of(alloc: Global, first: usize, second: usize) -> Result<Option<Forms>, AllocError> {
        let over = difference(alloc, first, second, 1)?;
        let under = difference(alloc, first, second, -1)?;
        let excess = difference(alloc, first, second, 1)?;
        match (over, under, excess) {
            (Some(over), Some(under), Some(excess)) => Ok(Some(Forms {
                over,
                under,
                excess,
            })),
            _ => Ok(None),
        }
    }
}

/// One column less another, or the other way round where the number is -1.
fn difference(
    alloc: Global,
    first: usize,
    second: usize,
    one: i64,
) -> Result<Option<Form>, AllocError> {
    let mut terms = Vec::new(alloc);
    terms.push((first, Frac::whole(one)))?;
    terms.push((second, Frac::whole(one).negate()))?;
    Ok(sum_of(terms))
}

impl<'a> Pairing<'a> {
    /// Defines the excess of each pair, and the comparisons of these.
    fn define(
        &mut self,
        alloc: Global,
        line: &mut Line,
        edges: &[usize],
    ) -> Result<(), AllocError> {
        let count = self.graph.edges();
        for (first, second) in edges.iter().enumerate() {
            self.define_pair(alloc, line, first, count.saturating_add(*second))?;
        }
        for splitter in 0..self.graph.splitters() {
            let terms = self.excesses(alloc, self.graph.outs(splitter), self.graph.ins(splitter))?;
            self.define_sum(line, terms)?;
        }
        let terms = self.excesses(alloc, &self.outputs, &self.inputs)?;
        self.define_sum(line, terms)?;
        let terms = self.totals(alloc)?;
        self.define_sum(line, terms)
    }

    /// Defines the excess of an edge over the one beside it, by the columns of both flows.
    fn define_pair(
        &mut self,
        alloc: Global,
        line: &mut Line,
        first: usize,
        second: usize,
    ) -> Result<(), AllocError> {
        match Forms::of(alloc, first, second)? {
            Some(forms) => self.define_forms(alloc, line, first, second, forms),
            None => Ok(()),
        }
    }

    /// Defines the excess of an edge by its forms.
    fn define_forms(
        &mut self,
        alloc: Global,
        line: &mut Line,
        first: usize,
        second: usize,
        forms: Forms,
    ) -> Result<(), AllocError> {
        let Forms {
            over,
            under,
            excess,
        } = forms;
        let over = self.next.compare(line, over)?;
        let under = self.next.compare(line, under)?;
        let not_more = named(second, false);
        let not_less = named(first, true);
        let counts = self.define_counts(
            alloc,
            line,
            &[not_more, under.is_some()],
            &[not_less, over.is_some()],
        )?;
        if let Some(excess) = self.next.count(alloc, line, counts, true, excess)? {
            self.pairs.push(Pair {
                first,
                second,
                over,
                under,
                excess,
            })?;
        }
        Ok(())
    }

    /// Defines the variable that says that the excess counts, and tells its place: of the literals that say that it doesn't
    /// as more, or as less, none is true. The mark of an edge and that of the one beside it are the variables with the places
    /// of their flows' columns.
    fn define_counts(
        &mut self,
        alloc: Global,
        line: &mut Line,
        not_more: &[NamedLit],
        not_less: &[NamedLit],
    ) -> Result<usize, AllocError> {
        let more = self.next.disjoin(alloc, line, not_more)?;
        let less = self.next.disjoin(alloc, line, not_less)?;
        let counts = [named(more, false), named(less, false)];
        self.next.disjoin(alloc, line, &counts)
    }

    /// Defines the comparison of a sum with nothing.
    fn define_sum(&mut self, line: &mut Line, terms: Vec<(usize, Frac)>) -> Result<(), AllocError> {
        if let Some(sum) = self.next.compare_sum(line, terms)? {
            self.sums.push(sum)?;
        }
        Ok(())
    }

    /// An edge of the first network with the one beside it, where they are compared.
    fn pair(&self, edge: usize) -> Option<Pair> {
        self.pairs.get(edge).copied()
    }

    /// The excess of an edge over the one beside it, where it is defined.
    fn excess(&self, edge: usize) -> Option<Counted> {
        Some(self.pair(edge)?.excess)
    }

    /// The excess of another edge of a splitter; none where the two edges are the same.
    fn excess_beside(&self, edge: usize, other: usize) -> Option<Counted> {
        if edge == other {
            None
        } else {
            self.excess(other)
        }
    }

    /// The terms of the excesses of some edges less those of others; edges that stand among both are left out.
    fn excesses(
        &self,
        alloc: Global,
        plus: &[usize],
        minus: &[usize],
    ) -> Result<Vec<(usize, Frac)>, AllocError> {
        let mut terms = Vec::new(alloc);
        for (edge, sign) in &apart(alloc, plus, minus)? {
            if let Some(pair) = self.pair(*edge) {
                terms.push((pair.excess.column(), *sign))?;
            }
        }
        Ok(terms)
    }

    /// By how much inputs carry more than those beside them, less the same of outputs.
    fn totals(&self, alloc: Global) -> Result<Vec<(usize, Frac)>, AllocError> {
        let mut columns = Vec::new(alloc);
        self.add_ends(&mut columns, &self.inputs, 1)?;
        self.add_ends(&mut columns, &self.outputs, -1)?;
        columns.sort()?;
        let mut terms = Vec::new(alloc);
        for (column, one) in &columns {
            terms.push((*column, Frac::whole(*one)))?;
        }
        Ok(terms)
    }

    /// Adds the columns of ends, with a number, and those of the edges beside them, with its negative.
    fn add_ends(
        &self,
        columns: &mut Vec<(usize, i64)>,
        ends: &[usize],
        one: i64,
    ) -> Result<(), AllocError> {
        for edge in ends {
            if let Some(pair) = self.pair(*edge) {
                columns.push((pair.first, one))?;
                columns.push((pair.second, one.saturating_mul(-1)))?;
            }
        }
        Ok(())
    }

    /// Adds the scopes and aims of splitters, edges and ends.
    fn argue(&self, alloc: Global, formula: &Formula, line: &mut Line) -> Result<(), AllocError> {
        for splitter in 0..self.graph.splitters() {
            self.extend_scope(alloc, line, splitter)?;
        }
        for splitter in 0..self.graph.splitters() {
            self.argue_edges(alloc, line, splitter)?;
        }
        for splitter in 0..self.graph.splitters() {
            self.argue_splitter(alloc, line, splitter)?;
        }
        self.argue_sum(alloc, line)?;
        self.argue_totals(alloc, formula, line)?;
        self.argue_conclusion(alloc, formula, line)
    }

    /// Adds what holds of the edges into a splitter by themselves, and of those out of it that lead to outputs.
    fn argue_edges(
        &self,
        alloc: Global,
        line: &mut Line,
        splitter: usize,
    ) -> Result<(), AllocError> {
        for edge in self.graph.ins(splitter) {
            self.argue_pair(alloc, line, *edge, splitter)?;
        }
        for edge in self.graph.outs(splitter) {
            if self.graph.target(*edge).is_none() {
                self.argue_pair(alloc, line, *edge, splitter)?;
            }
        }
        Ok(())
    }

    /// Adds to the scope of a splitter the rows of its edges' excesses and of their comparison.
    fn extend_scope(
        &self,
        alloc: Global,
        line: &mut Line,
        splitter: usize,
    ) -> Result<(), AllocError> {
        let more = self.splitter_rows(alloc, splitter)?;
        match line.scopes.get_mut(splitter) {
            Some(rows) => merge(rows, &more),
            None => Ok(()),
        }
    }

    /// The rows of the excesses of a splitter's edges and of their comparison.
    fn splitter_rows(&self, alloc: Global, splitter: usize) -> Result<Vec<usize>, AllocError> {
        let mut rows = Vec::new(alloc);
        for edge in self.graph.ins(splitter) {
            self.add_rows_of(&mut rows, *edge)?;
        }
        for edge in self.graph.outs(splitter) {
            self.add_rows_of(&mut rows, *edge)?;
        }
        if let Some(sum) = self.sums.get(splitter) {
            sum.add_rows(&mut rows)?;
        }
        Ok(rows)
    }

    /// Adds the rows that define the excess of an edge, where it is defined.
    fn add_rows_of(&self, rows: &mut Vec<usize>, edge: usize) -> Result<(), AllocError> {
        match self.pair(edge) {
            Some(pair) => pair.add_rows(rows),
            None => Ok(()),
        }
    }

    /// Adds what holds of two edges by themselves, by the scope of a splitter.
    fn argue_pair(
        &self,
        alloc: Global,
        line: &mut Line,
        edge: usize,
        place: usize,
    ) -> Result<(), AllocError> {
        let Some(pair) = self.pair(edge) else {
            return Ok(());
        };
        let aims = &mut line.aims;
        add_none(alloc, aims, pair, place)?;
        add_some(alloc, aims, pair, place)?;
        let excess = pair.excess;
        add_both(alloc, aims, pair.under.is_less(), excess.is_all(), place)?;
        add_both(alloc, aims, pair.over.is_less(), excess.is_no_more(), place)?;
        self.argue_end(alloc, aims, excess, edge, place)
    }

    /// Adds what holds of two edges at an end: at an input the excess is at least nothing and all of the difference, at
    /// an output it is at most these.
    fn argue_end(
        &self,
        alloc: Global,
        aims: &mut Vec<Aim>,
        excess: Counted,
        edge: usize,
        place: usize,
    ) -> Result<(), AllocError> {
        if self.graph.start(edge).is_none() {
            add_aim(alloc, aims, &[excess.is_some()], place)?;
            add_aim(alloc, aims, &[excess.is_all()], place)?;
        }
        if self.graph.target(edge).is_none() {
            add_aim(alloc, aims, &[excess.is_none()], place)?;
            add_aim(alloc, aims, &[excess.is_no_more()], place)?;
        }
        Ok(())
    }

    /// Adds that the excesses of the edges into a splitter are at most those of the edges out of it.
    fn argue_splitter(
        &self,
        alloc: Global,
        line: &mut Line,
        splitter: usize,
    ) -> Result<(), AllocError> {
        let Some(sum) = self.sums.get(splitter) else {
            return Ok(());
        };
        // The excesses of the edges out less those of the edges in are at least nothing.
        let no_more = sum.is_some();
        for edge in self.graph.ins(splitter) {
            self.argue_in(alloc, line, splitter, *edge, no_more)?;
        }
        for edge in self.graph.outs(splitter) {
            self.argue_out(alloc, line, splitter, *edge, no_more)?;
        }
        add_aim(alloc, &mut line.aims, &[no_more], splitter)
    }

    /// Adds what follows where an edge into a splitter has an excess above nothing.
    fn argue_in(
        &self,
        alloc: Global,
        line: &mut Line,
        splitter: usize,
        edge: usize,
        no_more: NamedLit,
    ) -> Result<(), AllocError> {
        let Some(excess) = self.excess(edge) else {
            return Ok(());
        };
        let none = excess.is_none();
        let aims = &mut line.aims;
        for other in self.graph.outs(splitter) {
            if let Some(beyond) = self.excess(*other) {
                add_both(alloc, aims, none, beyond.is_all(), splitter)?;
            }
        }
        for other in self.graph.ins(splitter) {
            if let Some(beside) = self.excess_beside(edge, *other) {
                add_both(alloc, aims, none, beside.is_no_more(), splitter)?;
            }
        }
        add_both(alloc, aims, none, no_more, splitter)
    }

    /// Adds what follows where an edge out of a splitter has an excess below nothing.
    fn argue_out(
        &self,
        alloc: Global,
        line: &mut Line,
        splitter: usize,
        edge: usize,
        no_more: NamedLit,
    ) -> Result<(), AllocError> {
        let Some(excess) = self.excess(edge) else {
            return Ok(());
        };
        let some = excess.is_some();
        let aims = &mut line.aims;
        for other in self.graph.ins(splitter) {
            if let Some(before) = self.excess(*other) {
                add_both(alloc, aims, some, before.is_no_more(), splitter)?;
            }
        }
        for other in self.graph.outs(splitter) {
            if let Some(beside) = self.excess_beside(edge, *other) {
                add_both(alloc, aims, some, beside.is_all(), splitter)?;
            }
        }
        add_both(alloc, aims, some, no_more, splitter)
    }

    /// Adds that the excesses of the inputs are at most those of the outputs, so that there are none.
    fn argue_sum(&self, alloc: Global, line: &mut Line) -> Result<(), AllocError> {
        let mut rows = Vec::new(alloc);
        for sum in &self.sums {
            sum.add_rows(&mut rows)?;
        }
        let place = add_scope(line, rows)?;
        match self.sums.get(self.graph.splitters()) {
            Some(sum) => add_aim(alloc, &mut line.aims, &[sum.is_some()], place),
            None => Ok(()),
        }
    }

    /// Adds that inputs carry as much more than those beside them as outputs do.
    fn argue_totals(
        &self,
        alloc: Global,
        formula: &Formula,
        line: &mut Line,
    ) -> Result<(), AllocError> {
        let Some(sum) = self.sums.last() else {
            return Ok(());
        };
        let mut rows = equal_rows(alloc, formula)?;
        sum.add_rows(&mut rows)?;
        let place = add_scope(line, rows)?;
        add_aim(alloc, &mut line.aims, &[sum.is_some()], place)
    }

    /// Adds that the literals of the last clause are false.
    fn argue_conclusion(
        &self,
        alloc: Global,
        formula: &Formula,
        line: &mut Line,
    ) -> Result<(), AllocError> {
        let rows = self.rows_of_ends(alloc)?;
        conclude(alloc, formula, line, rows)
    }

    /// The rows of the excesses of all ends, of their comparison, and of that of all that flows.
    fn rows_of_ends(&self, alloc: Global) -> Result<Vec<usize>, AllocError> {
        let mut rows = Vec::new(alloc);
        for edge in &self.inputs {
            self.add_rows_of(&mut rows, *edge)?;
        }
        for edge in &self.outputs {
            self.add_rows_of(&mut rows, *edge)?;
        }
        let splitters = self.graph.splitters();
        for place in splitters..splitters.saturating_add(2) {
            if let Some(sum) = self.sums.get(place) {
                sum.add_rows(&mut rows)?;
            }
        }
        in_order(&mut rows)?;
        Ok(rows)
    }
}
