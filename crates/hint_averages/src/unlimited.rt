//! The argument for `unlimited`: what goes through the centres of a network, splitters from which all outputs are reached
//! evenly and to which all inputs lead so.
//!
//! From the outputs back a backed edge carries at least the mean of the outputs that it reaches, and from the inputs on a free
//! one at least that of the inputs that reach it. So each centre carries at least its share of all that flows, and no more.
//! Where an edge into a centre is backed, each edge below carries the mean, so each is full or backed, and the outputs get all
//! that they have room for. Where none is, the inputs give all that they have.
//!
//! A network may have no centres and be two others in a row, each of which has some. Where an edge into a centre of the second
//! is backed, the outputs get all that they have room for. Else each line between the two is full or free, and where an edge
//! into a centre of the first is backed, each is full or backed: so each is full, and since there are as many as there are
//! inputs or outputs, no more can flow. Else the inputs give all that they have.
use crate::delivering::argue;
use crate::part::{Part, Totals};
use crate::row::add_in_row;
use crate::side::Side;
use bt_cnf::Formula;
use bt_net::Net;
use hint_graphs::{Flow, has_no_preference, list_at, places_of};
use hint_scopes::{
    Line, Next, Term, add_aim, add_rows, add_scope, compare, edges_of_columns, in_order,
    is_of_ends, rows_alone, single,
};
use std::alloc::{AllocError, Global};

/// Of fewer splitters than this nothing is defined: the logs are shorter so.
const LEAST_SPLITTERS: u32 = 4;

/// The most terms of the means on both sides.
const MOST_TERMS: usize = 1 << 17;

/// The rows of a formula, by what they speak of.
#[derive(Drop)]
struct Rows {
    /// For each edge the rows that speak of it alone.
    alone: Vec<Vec<usize>>,
    /// For each edge those of these that say what it is at most.
    upper: Vec<Vec<usize>>,
    /// For each splitter the place of its scope.
    places: Vec<usize>,
}

/// Adds the argument. There is none for a network of few splitters or one input, where a splitter prefers an edge, where
/// neither it has centres nor both of two of which it is a row, and where the means have too many terms.
pub fn add_unlimited(
    alloc: Global,
    net: &Net,
    formula: &Formula,
    line: &mut Line,
) -> Result<(), AllocError> {
    if net.splitters() < LEAST_SPLITTERS || net.inputs() == 1 || !has_no_preference(net) {
        return Ok(());
    }
    let mut parts = parts_of(alloc, net)?;
    if parts.is_empty() || terms_of(&parts) > MOST_TERMS {
        return Ok(());
    }
    add_parts(alloc, net, formula, line, &mut parts)
}

/// The parts of a network that are argued about, those at the outputs first.
fn parts_of<'a>(alloc: Global, net: &'a Net) -> Result<Vec<Part<'a>>, AllocError> {
    let mut parts = Vec::new(alloc);
    for flow in flows_of(alloc, net)? {
        parts.push(Part::of(alloc, flow)?)?;
    }
    Ok(parts)
}

/// The flow of a network that has centres, or else the flows of the two of which it is a row.
fn flows_of<'a>(alloc: Global, net: &'a Net) -> Result<Vec<Flow<'a>>, AllocError> {
    let mut flows = Vec::new(alloc);
    flows.push(Flow::of(alloc, net, &[])?)?;
    if flows.iter().any(|flow| flow.centres.is_empty()) {
        flows.clear();
        add_in_row(alloc, net, &mut flows)?;
    }
    Ok(flows)
}

/// How many terms the means of all parts have.
fn terms_of(parts: &[Part]) -> usize {
    let mut terms: usize = 0;
    for part in parts {
        terms = terms.saturating_add(part.terms());
    }
    terms
}

/// Adds the argument by parts in which nothing is compared yet.
fn add_parts(
    alloc: Global,
    net: &Net,
    formula: &Formula,
    line: &mut Line,
    parts: &mut [Part],
) -> Result<(), AllocError> {
    let mut next = Next::behind(formula);
    for part in parts.iter_mut() {
        define(alloc, line, &mut next, part)?;
    }
    let rows = Rows::of(alloc, formula, net)?;
    for part in parts.iter_mut() {
        place(alloc, line, &part.flow, &mut part.below, &rows)?;
        place(alloc, line, &part.flow, &mut part.above, &rows)?;
    }
    argue_all(alloc, net, formula, line, parts, &rows)
}

/// Adds the aims of all parts, and that nothing breaks the property.
fn argue_all(
    alloc: Global,
    net: &Net,
    formula: &Formula,
    line: &mut Line,
    parts: &[Part],
    rows: &Rows,
) -> Result<(), AllocError> {
    let at_ends = rows.at_ends(alloc, net, formula, parts)?;
    let at_ends = add_scope(line, at_ends)?;
    for part in parts {
        argue(alloc, formula, line, part, at_ends)?;
    }
    add_aim(alloc, &mut line.aims, &[], at_ends)
}

/// Defines the comparisons of the edges of both sides of a part, of what goes through each centre, and of all that flows.
fn define(
    alloc: Global,
    line: &mut Line,
    next: &mut Next,
    part: &mut Part,
) -> Result<(), AllocError> {
    define_edges(alloc, line, &part.flow, next, &mut part.below)?;
    define_edges(alloc, line, &part.flow, next, &mut part.above)?;
    define_sums(alloc, line, next, part)?;
    part.totals = define_totals(alloc, line, &part.flow, next)?;
    Ok(())
}

/// Defines the comparisons of what goes through each centre of a part.
fn define_sums(
    alloc: Global,
    line: &mut Line,
    next: &mut Next,
    part: &mut Part,
) -> Result<(), AllocError> {
    let flow = &part.flow;
    for centre in &flow.centres {
        define_sum(alloc, line, flow, next, &mut part.below, *centre)?;
        define_sum(alloc, line, flow, next, &mut part.above, *centre)?;
    }
    Ok(())
}

/// Defines the comparisons of the edges of a side.
fn define_edges(
    alloc: Global,
    line: &mut Line,
    flow: &Flow,
    next: &mut Next,
    side: &mut Side,
) -> Result<(), AllocError> {
    for splitter in 0..flow.graph.splitters() {
        if side.has(splitter) {
            for edge in side.near(flow, splitter) {
                define_edge(alloc, line, flow, next, side, splitter, *edge)?;
            }
        }
    }
    Ok(())
}

/// Defines the comparison of an edge of a splitter with the mean of the ends that it reaches, where it isn't one of
/// them: both ways on the side of the centre at which the argument ends, or else that it is at least that.
fn define_edge(
    alloc: Global,
    line: &mut Line,
    flow: &Flow,
    next: &mut Next,
    side: &mut Side,
    splitter: usize,
    edge: usize,
) -> Result<(), AllocError> {
    if let Some(mean) = side.mean_beyond(alloc, flow, edge)? {
        let both = side.is_chosen(splitter);
        let compared = compare(alloc, line, next, &[single(edge)], &mean, both)?;
        side.compare(edge, compared);
    }
    Ok(())
}

/// Defines the comparison of what flows into a centre with the ends that it reaches: both ways where the argument ends
/// there, or else that it is at least that.
fn define_sum(
    alloc: Global,
    line: &mut Line,
    flow: &Flow,
    next: &mut Next,
    side: &mut Side,
    centre: usize,
) -> Result<(), AllocError> {
    let mut flows = Vec::new(alloc);
    for edge in flow.graph.ins(centre) {
        flows.push(single(*edge))?;
    }
    let ends = side.sum_at(alloc, flow, centre)?;
    let both = centre == flow.centre();
    let compared = compare(alloc, line, next, &flows, &ends, both)?;
    side.compare_sum(centre, compared);
    Ok(())
}

/// Defines the comparisons of what begins with what ends, and with what goes through the centres.
fn define_totals(
    alloc: Global,
    line: &mut Line,
    flow: &Flow,
    next: &mut Next,
) -> Result<Totals, AllocError> {
    let begin = begin_terms(alloc, flow)?;
    let end = end_terms(alloc, flow)?;
    let through = through_terms(alloc, flow)?;
    Ok(Totals {
        ends: compare(alloc, line, next, &begin, &end, true)?,
        centres: compare(alloc, line, next, &begin, &through, false)?,
    })
}

/// The flows that begin: of the edges at inputs and of those that are cut.
fn begin_terms(alloc: Global, flow: &Flow) -> Result<Vec<Term>, AllocError> {
    let mut terms = Vec::new(alloc);
    for edge in 0..flow.graph.edges() {
        if flow.begins(edge) {
            terms.push(single(edge))?;
        }
    }
    Ok(terms)
}

/// The flows that end: of the edges at outputs and of those that are cut.
fn end_terms(alloc: Global, flow: &Flow) -> Result<Vec<Term>, AllocError> {
    let mut terms = Vec::new(alloc);
    for edge in 0..flow.graph.edges() {
        if flow.ends(edge) {
            terms.push(single(edge))?;
        }
    }
    Ok(terms)
}

/// What goes through the centres.
fn through_terms(alloc: Global, flow: &Flow) -> Result<Vec<Term>, AllocError> {
    let mut terms = Vec::new(alloc);
    for centre in &flow.centres {
        for edge in flow.graph.ins(*centre) {
            terms.push(single(*edge))?;
        }
    }
    Ok(terms)
}

/// Adds the scopes of the splitters of a side and of their edges.
fn place(
    alloc: Global,
    line: &mut Line,
    flow: &Flow,
    side: &mut Side,
    rows: &Rows,
) -> Result<(), AllocError> {
    for splitter in 0..flow.graph.splitters() {
        if side.has(splitter) {
            let at_splitter = rows.at_splitter(alloc, line, flow, side, splitter)?;
            let at_splitter = add_scope(line, at_splitter)?;
            let at_edges = rows.at_edges(alloc, flow, side, splitter)?;
            let at_edges = add_scope(line, at_edges)?;
            side.place(splitter, at_splitter, at_edges);
        }
    }
    if side.has_joints(flow) {
        place_joints(alloc, line, flow, side, rows)?;
    }
    Ok(())
}

/// Adds the scopes of joints.
fn place_joints(
    alloc: Global,
    line: &mut Line,
    flow: &Flow,
    side: &mut Side,
    rows: &Rows,
) -> Result<(), AllocError> {
    for splitter in 0..flow.graph.splitters() {
        if flow.is_joint(splitter) {
            let at_joint = rows.at_joint(alloc, line, flow, side, splitter)?;
            let place = add_scope(line, at_joint)?;
            side.place_joint(splitter, place);
        }
    }
    Ok(())
}

impl Rows {
    /// The rows of a network's formula.
    fn of(alloc: Global, formula: &Formula, net: &Net) -> Result<Rows, AllocError> {
        let alone = rows_alone(alloc, net, formula.rows())?;
        let upper = upper_of(alloc, formula, &alone)?;
        Ok(Rows {
            alone,
            upper,
            places: places_of(alloc, net, false)?,
        })
    }

    /// The rows that speak of ends alone, those of each line between two parts, and those that compare what begins in each
    /// part with what ends there.
    fn at_ends(
        &self,
        alloc: Global,
        net: &Net,
        formula: &Formula,
        parts: &[Part],
    ) -> Result<Vec<usize>, AllocError> {
        let mut rows = Vec::new(alloc);
        let columns = edges_of_columns(alloc, net)?;
        for (place, row) in formula.rows().iter().enumerate() {
            if is_of_ends(net, &columns, row) {
                rows.push(place)?;
            }
        }
        for part in parts {
            self.add_lines(&mut rows, part)?;
            add_rows(&mut rows, part.totals.ends)?;
        }
        Ok(rows)
    }

    /// Adds the rows of each line that leads from a part to another one.
    fn add_lines(&self, rows: &mut Vec<usize>, part: &Part) -> Result<(), AllocError> {
        for edge in 0..part.flow.graph.edges() {
            if part.leads_on(edge) {
                rows.extend_from_slice(list_at(&self.alone, edge))?;
            }
        }
        Ok(())
    }

    /// The rows of a splitter, and the comparisons of its edges.
    fn at_splitter(
        &self,
        alloc: Global,
        line: &Line,
        flow: &Flow,
        side: &Side,
        splitter: usize,
    ) -> Result<Vec<usize>, AllocError> {
        let place = self.places.get(splitter).copied().unwrap_or(0);
        let mut rows = Vec::from_slice(alloc, list_at(&line.scopes, place))?;
        for edge in flow.graph.ins(splitter) {
            add_rows(&mut rows, side.compared(*edge))?;
        }
        for edge in flow.graph.outs(splitter) {
            add_rows(&mut rows, side.compared(*edge))?;
        }
        add_rows(&mut rows, side.sum(splitter))?;
        Ok(rows)
    }

    /// The rows of the edges of a splitter that lead to a side: what each carries, compared with the ends.
    fn at_edges(
        &self,
        alloc: Global,
        flow: &Flow,
        side: &Side,
        splitter: usize,
    ) -> Result<Vec<usize>, AllocError> {
        let mut rows = Vec::new(alloc);
        for edge in side.near(flow, splitter) {
            rows.extend_from_slice(list_at(&self.alone, *edge))?;
            add_rows(&mut rows, side.compared(*edge))?;
            if let Some(mean) = side.mean_beyond(alloc, flow, *edge)? {
                self.add_upper(&mut rows, &mean)?;
            }
        }
        in_order(&mut rows)?;
        Ok(rows)
    }

    /// The rows of a joint, those of each edge that it shares, and the comparisons of these edges.
    fn at_joint(
        &self,
        alloc: Global,
        line: &Line,
        flow: &Flow,
        side: &Side,
        splitter: usize,
    ) -> Result<Vec<usize>, AllocError> {
        let place = self.places.get(splitter).copied().unwrap_or(0);
        let mut rows = Vec::from_slice(alloc, list_at(&line.scopes, place))?;
        for edge in flow.shared(splitter) {
            rows.extend_from_slice(list_at(&self.alone, *edge))?;
            add_rows(&mut rows, side.compared(*edge))?;
        }
        in_order(&mut rows)?;
        Ok(rows)
    }

    /// Adds the rows that say what the columns of terms are at most.
    fn add_upper(&self, rows: &mut Vec<usize>, terms: &[Term]) -> Result<(), AllocError> {
        for term in terms {
            rows.extend_from_slice(list_at(&self.upper, term.column))?;
        }
        Ok(())
    }
}

/// For each edge the rows that say what its flow, or the load or the room at its end, is at most.
fn upper_of(
    alloc: Global,
    formula: &Formula,
    alone: &[Vec<usize>],
) -> Result<Vec<Vec<usize>>, AllocError> {
    let mut upper = Vec::new(alloc);
    for list in alone {
        upper.push(upper_among(alloc, formula, list)?)?;
    }
    Ok(upper)
}

/// The rows of a list whose first coefficient is negative, which say what it is at most.
fn upper_among(alloc: Global, formula: &Formula, list: &[usize]) -> Result<Vec<usize>, AllocError> {
    let mut rows = Vec::new(alloc);
    for row in list {
        if is_upper(formula, *row) {
            rows.push(*row)?;
        }
    }
    Ok(rows)
}

/// Whether the first coefficient of a row is negative: it says what a column is at most.
fn is_upper(formula: &Formula, row: usize) -> bool {
    match formula.rows().get(row) {
        Some(row) => match row.terms().first() {
            Some((_, coefficient)) => coefficient.numerator() < 0,
            None => false,
        },
        None => false,
    }
}
