//! The argument for `full`: what an edge lacks of its cap counts where it is free, and nothing where it is backed. The edges
//! into a splitter lack as much together as those out of it, or more: behind a backed edge nothing lacks, and where all are
//! free the sums are those of the flows. So where the inputs lack nothing the outputs lack nothing. Where splitters have the
//! smaller caps at their ins it is the other way round: what lacks counts where an edge is backed.
use bt_cnf::Formula;
use bt_extend::{Form, NamedLit};
use bt_flow::Role;
use bt_frac::{Frac, Relation, Row};
use bt_net::{Edge, Net};
use hint_graphs::{Graph, has_no_preference, list_at, places_of};
use hint_scopes::{
    Aim, Comparison, Counted, Line, Next, add_aim, add_both, add_scope, apart, edges_of_columns,
    is_at_end, is_of_ends, named, rows_alone,
};
use std::alloc::{AllocError, Global};

/// Of fewer splitters than this nothing is defined: the logs are shorter so.
const LEAST_SPLITTERS: u32 = 4;

/// The argument so far.
#[derive(Drop)]
struct Lacking<'a> {
    graph: &'a Graph<'a>,
    /// Whether what lacks counts where an edge is backed.
    mirrored: bool,
    next: Next,
    /// What each edge lacks.
    lacks: Vec<Counted>,
    /// For each edge the rows that speak of it alone.
    alone: Vec<Vec<usize>>,
    /// For each splitter the place of its scope.
    places: Vec<usize>,
    /// For each splitter the comparison of its ins with its outs.
    compared: Vec<Comparison>,
}

/// Adds the argument. There is none for a network of few splitters, where a splitter prefers an edge, and where neither the
/// ins nor the outs have the smaller caps at every splitter.
pub fn add_lacking(
    alloc: Global,
    net: &Net,
    formula: &Formula,
    line: &mut Line,
) -> Result<(), AllocError> {
    if net.splitters() < LEAST_SPLITTERS || !has_no_preference(net) {
        return Ok(());
    }
    let graph = Graph::of(alloc, net)?;
    match is_mirrored(&graph) {
        Some(mirrored) => add_by(alloc, &graph, mirrored, formula, line),
        None => Ok(()),
    }
}

/// Adds the argument, or its mirror.
fn add_by(
    alloc: Global,
    graph: &Graph,
    mirrored: bool,
    formula: &Formula,
    line: &mut Line,
) -> Result<(), AllocError> {
    let mut lacking = Lacking {
        graph,
        mirrored,
        next: Next::behind(formula),
        lacks: Vec::new(alloc),
        compared: Vec::new(alloc),
        alone: rows_alone(alloc, graph.net, formula.rows())?,
        places: places_of(alloc, graph.net, false)?,
    };
    lacking.define(alloc, line)?;
    lacking.argue(alloc, formula, line)
}

/// The sum of the caps of some edges.
fn caps(graph: &Graph, edges: &[usize]) -> u64 {
    let mut sum: u64 = 0;
    for edge in edges {
        sum = sum.saturating_add(graph.cap(*edge));
    }
    sum
}

/// Whether what lacks counts where edges are backed: false where at every splitter the caps of the ins are together no
/// less than those of the outs, or else true where they are no more at each. None where neither is so.
fn is_mirrored(graph: &Graph) -> Option<bool> {
    let mut ins_suffice = true;
    let mut outs_suffice = true;
    for splitter in 0..graph.splitters() {
        let first = caps(graph, graph.ins(splitter));
        let second = caps(graph, graph.outs(splitter));
        ins_suffice = ins_suffice && first >= second;
        outs_suffice = outs_suffice && second >= first;
    }
    if ins_suffice {
        Some(false)
    } else if outs_suffice {
        Some(true)
    } else {
        None
    }
}

/// The form of what an edge lacks: its cap less its flow.
fn rest_of(alloc: Global, number: usize, edge: &Edge) -> Result<Option<Form>, AllocError> {
    let mut terms = Vec::new(alloc);
    terms.push((number, Frac::whole(1).negate()))?;
    Ok(Form::new(Frac::whole(i64::from(edge.cap)), terms))
}

/// The literal that says that an edge lacks nothing or, with `rest`, at least what its flow leaves of its cap.
fn lacks_at_end(lack: Counted, rest: bool) -> NamedLit {
    if rest { lack.is_all() } else { lack.is_none() }
}

impl<'a> Lacking<'a> {
    /// Defines what each edge lacks, and at each splitter the comparison.
    fn define(&mut self, alloc: Global, line: &mut Line) -> Result<(), AllocError> {
        let net = self.graph.net;
        for (number, edge) in net.edges().iter().enumerate() {
            self.define_lack(alloc, line, number, edge)?;
        }
        for splitter in 0..self.graph.splitters() {
            self.define_comparison(alloc, line, splitter)?;
        }
        Ok(())
    }

    /// Defines what an edge lacks.
    fn define_lack(
        &mut self,
        alloc: Global,
        line: &mut Line,
        number: usize,
        edge: &Edge,
    ) -> Result<(), AllocError> {
        let Some(rest) = rest_of(alloc, number, edge)? else {
            return Ok(());
        };
        if let Some(lack) = self.next.count(alloc, line, number, self.mirrored, rest)? {
            self.lacks.push(lack)?;
        }
        Ok(())
    }

    /// Defines the comparison at a splitter: the ins lack at least as much as the outs, or the other way round.
    fn define_comparison(
        &mut self,
        alloc: Global,
        line: &mut Line,
        splitter: usize,
    ) -> Result<(), AllocError> {
        let terms = self.terms_at(alloc, splitter)?;
        if let Some(compared) = self.next.compare_sum(line, terms)? {
            self.compared.push(compared)?;
        }
        Ok(())
    }

    /// The terms of what the edges of a splitter lack with whose marks an argument begins, less what those behind it lack.
    fn terms_at(&self, alloc: Global, splitter: usize) -> Result<Vec<(usize, Frac)>, AllocError> {
        let mut terms = Vec::new(alloc);
        for (edge, sign) in &apart(alloc, self.before(splitter), self.behind(splitter))? {
            if let Some(lack) = self.lacks.get(*edge) {
                terms.push((lack.column(), *sign))?;
            }
        }
        Ok(terms)
    }

    /// Adds the scopes and aims.
    fn argue(&self, alloc: Global, formula: &Formula, line: &mut Line) -> Result<(), AllocError> {
        for (edge, lack) in self.lacks.iter().enumerate() {
            self.argue_edge(alloc, line, edge, *lack)?;
        }
        for (splitter, compared) in self.compared.iter().enumerate() {
            self.argue_splitter(alloc, line, splitter, *compared)?;
        }
        self.argue_ends(alloc, formula, line)
    }

    /// Adds that an edge lacks at least nothing, and at most its cap less its flow.
    fn argue_edge(
        &self,
        alloc: Global,
        line: &mut Line,
        edge: usize,
        lack: Counted,
    ) -> Result<(), AllocError> {
        let mut rows = Vec::from_slice(alloc, list_at(&self.alone, edge))?;
        lack.add_rows(&mut rows)?;
        let place = add_scope(line, rows)?;
        add_aim(alloc, &mut line.aims, &[lack.is_some()], place)?;
        add_aim(alloc, &mut line.aims, &[lack.is_no_more()], place)
    }

    /// The rows of a splitter and its edges, with what these lack.
    fn rows_at(
        &self,
        alloc: Global,
        line: &Line,
        splitter: usize,
    ) -> Result<Vec<usize>, AllocError> {
        let place = self.places.get(splitter).copied().unwrap_or(0);
        let mut rows = Vec::from_slice(alloc, list_at(&line.scopes, place))?;
        for edge in self.graph.ins(splitter) {
            self.add_rows_of(&mut rows, *edge)?;
        }
        for edge in self.graph.outs(splitter) {
            self.add_rows_of(&mut rows, *edge)?;
        }
        Ok(rows)
    }

    /// Adds the rows of what an edge lacks.
    fn add_rows_of(&self, rows: &mut Vec<usize>, edge: usize) -> Result<(), AllocError> {
        match self.lacks.get(edge) {
            Some(lack) => lack.add_rows(rows),
            None => Ok(()),
        }
    }

    /// Adds that behind an edge with the mark nothing lacks, and what follows of that at a splitter.
    fn argue_splitter(
        &self,
        alloc: Global,
        line: &mut Line,
        splitter: usize,
        compared: Comparison,
    ) -> Result<(), AllocError> {
        let mut rows = self.rows_at(alloc, line, splitter)?;
        compared.add_rows(&mut rows)?;
        let place = add_scope(line, rows)?;
        let compared = compared.is_some();
        for edge in self.before(splitter) {
            let unmarked = named(*edge, self.mirrored);
            self.argue_behind(alloc, &mut line.aims, splitter, unmarked, place)?;
            add_both(alloc, &mut line.aims, unmarked, compared, place)?;
        }
        add_aim(alloc, &mut line.aims, &[compared], place)
    }

    /// Adds that either `unmarked` holds, which says that an edge before the splitter lacks the mark, or no edge behind
    /// it lacks anything of its cap.
    fn argue_behind(
        &self,
        alloc: Global,
        aims: &mut Vec<Aim>,
        splitter: usize,
        unmarked: NamedLit,
        place: usize,
    ) -> Result<(), AllocError> {
        for other in self.behind(splitter) {
            if let Some(lack) = self.lacks.get(*other) {
                add_both(alloc, aims, unmarked, lack.is_none(), place)?;
            }
        }
        Ok(())
    }

    /// The edges of a splitter with whose marks an argument begins: those into it, or in the mirror those out of it.
    fn before(&self, splitter: usize) -> &[usize] {
        if self.mirrored {
            self.graph.outs(splitter)
        } else {
            self.graph.ins(splitter)
        }
    }

    /// The edges at the other side of a splitter than those before it.
    fn behind(&self, splitter: usize) -> &[usize] {
        if self.mirrored {
            self.graph.ins(splitter)
        } else {
            self.graph.outs(splitter)
        }
    }

    /// Adds what follows for the ends, and that nothing breaks the property.
    fn argue_ends(
        &self,
        alloc: Global,
        formula: &Formula,
        line: &mut Line,
    ) -> Result<(), AllocError> {
        for (number, edge) in self.graph.net.edges().iter().enumerate() {
            if is_at_end(edge) {
                self.argue_end(alloc, line, number, edge)?;
            }
        }
        let rows = self.rows_of_ends(alloc, formula)?;
        let place = add_scope(line, rows)?;
        add_aim(alloc, &mut line.aims, &[], place)
    }

    /// Adds that an edge at an end lacks nothing, or what its flow leaves of its cap.
    fn argue_end(
        &self,
        alloc: Global,
        line: &mut Line,
        number: usize,
        edge: &Edge,
    ) -> Result<(), AllocError> {
        let Some(lack) = self.lacks.get(number) else {
            return Ok(());
        };
        let mut rows = Vec::from_slice(alloc, list_at(&self.alone, number))?;
        lack.add_rows(&mut rows)?;
        let place = add_scope(line, rows)?;
        if Role::FromInput.number_in(edge).is_some() {
            let lit = lacks_at_end(*lack, self.mirrored);
            add_aim(alloc, &mut line.aims, &[lit], place)?;
        }
        if Role::ToOutput.number_in(edge).is_some() {
            let lit = lacks_at_end(*lack, !self.mirrored);
            add_aim(alloc, &mut line.aims, &[lit], place)?;
        }
        Ok(())
    }

    /// The rows that speak of the ends alone, with what these lack, all comparisons, and in the mirror the sums at splitters.
    fn rows_of_ends(&self, alloc: Global, formula: &Formula) -> Result<Vec<usize>, AllocError> {
        let mut rows = self.own_rows_of_ends(alloc, formula)?;
        for (number, edge) in self.graph.net.edges().iter().enumerate() {
            if is_at_end(edge) {
                self.add_rows_of(&mut rows, number)?;
            }
        }
        for compared in &self.compared {
            compared.add_rows(&mut rows)?;
        }
        Ok(rows)
    }

    /// The formula's own rows that speak of ends alone, and in the mirror all that say that sums are equal.
    fn own_rows_of_ends(&self, alloc: Global, formula: &Formula) -> Result<Vec<usize>, AllocError> {
        let columns = edges_of_columns(alloc, self.graph.net)?;
        let mut rows = Vec::new(alloc);
        for (place, row) in formula.rows().iter().enumerate() {
            if self.is_of_ends(&columns, row) {
                rows.push(place)?;
            }
        }
        Ok(rows)
    }

    /// Whether all terms of a row are of edges at ends, or the row says in the mirror that a sum is equal to its bound.
    fn is_of_ends(&self, columns: &[usize], row: &Row) -> bool {
        (self.mirrored && row.relation() == Relation::Equal)
            || is_of_ends(self.graph.net, columns, row)
    }
}
