//! The aims of the argument for `unlimited`, in their order.
use crate::part::{Part, Totals};
use crate::side::Side;
use bt_cnf::Formula;
use bt_extend::NamedLit;
use hint_graphs::{Flow, Graph, is_set, mark};
use hint_scopes::{
    Compared, FormulaLits, Line, add_aim, add_both, add_rows, add_scope, equal_rows, named,
};
use std::alloc::{AllocError, Global};

/// What aims are made of.
#[derive(Drop)]
struct Sources<'a> {
    flow: &'a Flow<'a>,
    below: &'a Side,
    above: &'a Side,
    literals: FormulaLits,
    totals: Totals,
    /// The place of the scope of the ends.
    at_ends: usize,
}

/// Adds the aims of a part, by what is compared there and the scope of the ends at a place.
pub fn argue(
    alloc: Global,
    formula: &Formula,
    line: &mut Line,
    part: &Part,
    at_ends: usize,
) -> Result<(), AllocError> {
    let net = part.flow.graph.net;
    let sources = Sources {
        flow: &part.flow,
        below: &part.below,
        above: &part.above,
        literals: FormulaLits::of(alloc, net, formula)?,
        totals: part.totals,
        at_ends,
    };
    sources.add_all(alloc, formula, line)
}

/// Adds the scope of the rows that say that sums are equal, and of those that compare all that flows. Tells its place.
fn add_sums_scope(
    alloc: Global,
    formula: &Formula,
    line: &mut Line,
    graph: &Graph,
    totals: Totals,
) -> Result<usize, AllocError> {
    let mut rows = equal_rows_of(alloc, formula, graph)?;
    add_rows(&mut rows, totals.ends)?;
    add_rows(&mut rows, totals.centres)?;
    add_scope(line, rows)
}

/// The rows that say that sums of edges of a part alone are equal.
fn equal_rows_of(
    alloc: Global,
    formula: &Formula,
    graph: &Graph,
) -> Result<Vec<usize>, AllocError> {
    let mut rows = Vec::new(alloc);
    let all = equal_rows(alloc, formula)?;
    for place in &all {
        if let Some(row) = formula.rows().get(*place) {
            if row.terms().iter().all(|(column, _)| graph.has(*column)) {
                rows.push(*place)?;
            }
        }
    }
    Ok(rows)
}

/// The opposite of a literal.
fn opposite(lit: NamedLit) -> NamedLit {
    named(lit.var, !lit.positive)
}

/// Adds the aim of some literals and a last one, with the scope at a place.
fn add_with(
    alloc: Global,
    line: &mut Line,
    lits: &[NamedLit],
    last: NamedLit,
    place: usize,
) -> Result<(), AllocError> {
    let mut all = Vec::from_slice(alloc, lits)?;
    all.push(last)?;
    add_aim(alloc, &mut line.aims, &all, place)
}

/// Adds the aim of a literal, where there is one, with the scope at a place.
fn add_one(
    alloc: Global,
    line: &mut Line,
    lit: Option<NamedLit>,
    place: usize,
) -> Result<(), AllocError> {
    match lit {
        Some(lit) => add_aim(alloc, &mut line.aims, &[lit], place),
        None => Ok(()),
    }
}

impl<'a> Sources<'a> {
    /// Adds all aims, in the order in which they follow.
    fn add_all(&self, alloc: Global, formula: &Formula, line: &mut Line) -> Result<(), AllocError> {
        self.add_below(alloc, line)?;
        self.add_above(alloc, line)?;
        self.add_totals(alloc, formula, line)?;
        self.add_centres(alloc, line)?;
        self.add_outputs(alloc, line)?;
        self.add_inputs(alloc, line)
    }

    /// Adds that from the outputs back a backed edge carries at least the mean of the outputs that it reaches.
    fn add_below(&self, alloc: Global, line: &mut Line) -> Result<(), AllocError> {
        let flow = self.flow;
        self.add_joints(alloc, line, self.below)?;
        for step in 0..flow.order.len() {
            let splitter = flow.splitter_at(step, true);
            if self.below.has(splitter) {
                self.add_below_outs(alloc, line, splitter)?;
                self.add_below_ins(alloc, line, splitter)?;
            }
        }
        Ok(())
    }

    /// For each joint that shares what ends on a side, adds that one of the edges that it shares carries at least the mean
    /// of both where it is full, and where it is backed, or on the side of the inputs free.
    fn add_joints(&self, alloc: Global, line: &mut Line, side: &Side) -> Result<(), AllocError> {
        let flow = self.flow;
        if side.has_joints(flow) {
            for splitter in 0..flow.graph.splitters() {
                if flow.is_joint(splitter) {
                    for edge in flow.shared(splitter) {
                        self.add_joint(alloc, line, side, splitter, *edge)?;
                    }
                }
            }
        }
        Ok(())
    }

    /// Adds that an edge that a joint shares carries at least the mean of both, where it is full and where its mark makes
    /// it even.
    fn add_joint(
        &self,
        alloc: Global,
        line: &mut Line,
        side: &Side,
        splitter: usize,
        edge: usize,
    ) -> Result<(), AllocError> {
        if let Some(compared) = side.compared(edge) {
            let place = side.at_joint(splitter);
            let at_least = compared.at_least();
            if let Some(not_full) = self.literals.not_full(edge) {
                add_both(alloc, &mut line.aims, not_full, at_least, place)?;
            }
            let excused = named(edge, !side.is_below);
            add_both(alloc, &mut line.aims, excused, at_least, place)?;
        }
        Ok(())
    }

    /// Adds that an edge out of a splitter carries at least the mean of the outputs that it reaches, where it is full
    /// and where an edge into the splitter is backed.
    fn add_below_outs(
        &self,
        alloc: Global,
        line: &mut Line,
        splitter: usize,
    ) -> Result<(), AllocError> {
        let flow = self.flow;
        let place = self.below.at_splitter(splitter);
        for edge in flow.graph.outs(splitter) {
            self.add_full(alloc, line, self.below, splitter, *edge)?;
            if let Some(compared) = self.below.compared(*edge) {
                for other in flow.graph.ins(splitter) {
                    let free = named(*other, false);
                    add_both(alloc, &mut line.aims, free, compared.at_least(), place)?;
                }
            }
        }
        Ok(())
    }

    /// Adds that a backed edge into a splitter carries at least the mean of the outputs that it reaches, and that all
    /// edges into a centre together carry at least what they reach where one of them is backed.
    fn add_below_ins(
        &self,
        alloc: Global,
        line: &mut Line,
        splitter: usize,
    ) -> Result<(), AllocError> {
        let flow = self.flow;
        let place = self.below.at_splitter(splitter);
        for edge in flow.graph.ins(splitter) {
            let free = named(*edge, false);
            if let Some(compared) = self.below.compared(*edge) {
                add_both(alloc, &mut line.aims, free, compared.at_least(), place)?;
            }
            if let Some(sum) = self.below.sum(splitter) {
                add_both(alloc, &mut line.aims, free, sum.at_least(), place)?;
            }
        }
        Ok(())
    }

    /// Adds that an edge of a splitter, where it is full, carries at least the mean of the ends that it reaches.
    fn add_full(
        &self,
        alloc: Global,
        line: &mut Line,
        side: &Side,
        splitter: usize,
        edge: usize,
    ) -> Result<(), AllocError> {
        if let (Some(not_full), Some(compared)) = (
            self.literals.not_full(edge),
            side.compared(edge),
        ) {
            let place = side.at_edges(splitter);
            add_both(alloc, &mut line.aims, not_full, compared.at_least(), place)?;
        }
        Ok(())
    }

    /// Adds that from the inputs on a free edge carries at least the mean of the inputs that reach it.
    fn add_above(&self, alloc: Global, line: &mut Line) -> Result<(), AllocError> {
        let flow = self.flow;
        self.add_joints(alloc, line, self.above)?;
        for step in 0..flow.order.len() {
            let splitter = flow.splitter_at(step, false);
            if self.above.has(splitter) {
                self.add_above_ins(alloc, line, splitter)?;
                self.add_above_outs(alloc, line, splitter)?;
            }
        }
        Ok(())
    }

    /// Adds that the edges into a centre, where all are free, carry together at least the sum of the means of the
    /// inputs that reach them. Adds nothing at another splitter.
    fn add_above_ins(
        &self,
        alloc: Global,
        line: &mut Line,
        splitter: usize,
    ) -> Result<(), AllocError> {
        let flow = self.flow;
        let mut lits = Vec::new(alloc);
        for edge in flow.graph.ins(splitter) {
            lits.push(named(*edge, true))?;
        }
        if let Some(sum) = self.above.sum(splitter) {
            add_with(
                alloc,
                line,
                &lits,
                sum.at_least(),
                self.above.at_splitter(splitter),
            )?;
        }
        Ok(())
    }

    /// Adds that an edge out of a splitter to another one carries at least the mean of the inputs that reach it, where
    /// it is full and where it is free.
    fn add_above_outs(
        &self,
        alloc: Global,
        line: &mut Line,
        splitter: usize,
    ) -> Result<(), AllocError> {
        let flow = self.flow;
        let place = self.above.at_splitter(splitter);
        for edge in flow.graph.outs(splitter) {
            if let (Some(compared), Some(beyond)) = (
                self.above.compared(*edge),
                flow.graph.target(*edge),
            ) {
                self.add_full(alloc, line, self.above, beyond, *edge)?;
                let backed = named(*edge, true);
                add_both(alloc, &mut line.aims, backed, compared.at_least(), place)?;
            }
        }
        Ok(())
    }

    /// Adds that as much begins as ends, and at least as much as goes through the centres.
    fn add_totals(
        &self,
        alloc: Global,
        formula: &Formula,
        line: &mut Line,
    ) -> Result<(), AllocError> {
        let place = add_sums_scope(alloc, formula, line, &self.flow.graph, self.totals)?;
        if let Some(ends) = self.totals.ends {
            add_aim(alloc, &mut line.aims, &[ends.at_least()], place)?;
            add_one(alloc, line, ends.at_most(), place)?;
        }
        if let Some(centres) = self.totals.centres {
            add_aim(alloc, &mut line.aims, &[centres.at_least()], place)?;
        }
        Ok(())
    }

    /// Adds that each centre carries at least its share of all that flows, and the one at which the argument ends no
    /// more.
    fn add_centres(&self, alloc: Global, line: &mut Line) -> Result<(), AllocError> {
        let places = self.add_centre_scopes(alloc, line)?;
        self.add_shares(alloc, line, &places)?;
        let of_all = self.add_centres_scope(alloc, line)?;
        let below = at_most(self.below.sum(self.flow.centre()));
        add_one(alloc, line, below, of_all)?;
        let above = at_most(self.above.sum(self.flow.centre()));
        match places.first() {
            Some(place) => add_one(alloc, line, above, *place),
            None => Ok(()),
        }
    }

    /// Adds a scope of each centre, and tells their places.
    fn add_centre_scopes(&self, alloc: Global, line: &mut Line) -> Result<Vec<usize>, AllocError> {
        let mut places = Vec::new(alloc);
        for centre in &self.flow.centres {
            places.push(self.add_centre_scope(alloc, line, *centre)?)?;
        }
        Ok(places)
    }

    /// Adds that each centre carries its share, by the scopes at these places.
    fn add_shares(
        &self,
        alloc: Global,
        line: &mut Line,
        places: &[usize],
    ) -> Result<(), AllocError> {
        for (centre, place) in self.flow.centres.iter().zip(places) {
            add_one(alloc, line, at_least(self.below.sum(*centre)), *place)?;
        }
        Ok(())
    }

    /// Adds the scope of a centre, of the rows that compare what goes through it with the ends and these with each
    /// other. Tells its place.
    fn add_centre_scope(
        &self,
        alloc: Global,
        line: &mut Line,
        centre: usize,
    ) -> Result<usize, AllocError> {
        let mut rows = Vec::new(alloc);
        add_rows(&mut rows, self.totals.ends)?;
        add_rows(&mut rows, self.below.sum(centre))?;
        add_rows(&mut rows, self.above.sum(centre))?;
        add_scope(line, rows)
    }

    /// Adds the scope of all centres, of the rows that compare all that flows and what goes through each centre with
    /// the outputs. Tells its place.
    fn add_centres_scope(&self, alloc: Global, line: &mut Line) -> Result<usize, AllocError> {
        let flow = self.flow;
        let mut rows = Vec::new(alloc);
        add_rows(&mut rows, self.totals.ends)?;
        add_rows(&mut rows, self.totals.centres)?;
        for centre in &flow.centres {
            add_rows(&mut rows, self.below.sum(*centre))?;
        }
        add_scope(line, rows)
    }

    /// The literal that says that the end at an edge does all that it may: that an input gives all that it has, that an
    /// output gets all that it has room for, or that a line to or from another part is full. None where there is no such
    /// literal.
    fn served(&self, end: usize) -> Option<NamedLit> {
        let meets = self.literals.meets(end);
        if meets.is_some() {
            return meets;
        }
        Some(opposite(self.literals.not_full(end)?))
    }

    /// Adds that no edge into one centre is backed: else each output gets all that it has room for, and each line to
    /// another part is full.
    fn add_outputs(&self, alloc: Global, line: &mut Line) -> Result<(), AllocError> {
        let flow = self.flow;
        for edge in flow.graph.ins(flow.centre()) {
            let free = named(*edge, false);
            for end in 0..flow.graph.edges() {
                if flow.graph.leaves(end) {
                    self.add_output(alloc, line, free, end)?;
                }
            }
            add_aim(alloc, &mut line.aims, &[free], self.at_ends)?;
        }
        Ok(())
    }

    /// Adds that the output at which the edge `end` ends gets all that it has room for, or the line that it is to another
    /// part is full, or `free` holds: that an edge into the centre is free. There is nothing to add where no literal says
    /// so.
    fn add_output(
        &self,
        alloc: Global,
        line: &mut Line,
        free: NamedLit,
        end: usize,
    ) -> Result<(), AllocError> {
        let flow = self.flow;
        let Some(meets) = self.served(end) else {
            return Ok(());
        };
        let way = way_to(alloc, flow, self.below, end)?;
        for step in 0..flow.order.len() {
            let splitter = flow.splitter_at(step, false);
            if is_set(&way, splitter) {
                self.add_forth(alloc, line, &[free, meets], &way, end, splitter)?;
            }
        }
        add_aim(alloc, &mut line.aims, &[free, meets], self.at_ends)
    }

    /// Adds for each edge out of a splitter that leads on the way to an output, at the edge `end`, that one of the
    /// literals holds, or it carries at most the mean, isn't full and is backed.
    fn add_forth(
        &self,
        alloc: Global,
        line: &mut Line,
        lits: &[NamedLit],
        way: &[bool],
        end: usize,
        splitter: usize,
    ) -> Result<(), AllocError> {
        let flow = self.flow;
        for edge in flow.graph.outs(splitter) {
            if leads_on(flow, self.below, way, end, *edge) {
                self.add_least(alloc, line, self.below, lits, splitter, *edge)?;
                add_with(alloc, line, lits, named(*edge, true), usize::MAX)?;
            }
        }
        Ok(())
    }

    /// Adds that one of the literals holds, or an edge of a splitter carries at most the mean of the ends that it
    /// reaches, and that one holds or the edge isn't full.
    fn add_least(
        &self,
        alloc: Global,
        line: &mut Line,
        side: &Side,
        lits: &[NamedLit],
        splitter: usize,
        edge: usize,
    ) -> Result<(), AllocError> {
        if let Some(at_most) = at_most(side.compared(edge)) {
            add_with(alloc, line, lits, at_most, side.at_splitter(splitter))?;
        }
        if let Some(not_full) = self.literals.not_full(edge) {
            add_with(alloc, line, lits, not_full, side.at_edges(splitter))?;
        }
        Ok(())
    }

    /// Adds that each input gives all that it has, and that each line from another part is full or free, since no edge
    /// into the centre is backed.
    fn add_inputs(&self, alloc: Global, line: &mut Line) -> Result<(), AllocError> {
        let flow = self.flow;
        let place = self.above.at_splitter(flow.centre());
        for edge in flow.graph.ins(flow.centre()) {
            add_one(alloc, line, at_most(self.above.compared(*edge)), place)?;
        }
        for end in 0..flow.graph.edges() {
            if flow.graph.enters(end) {
                self.add_input(alloc, line, end)?;
            }
        }
        Ok(())
    }

    /// Adds that the input at which the edge `end` begins gives all that it has, or that the line that it is from another
    /// part is full or free. There is nothing to add where no literal says so.
    fn add_input(&self, alloc: Global, line: &mut Line, end: usize) -> Result<(), AllocError> {
        let flow = self.flow;
        let Some(meets) = self.served(end) else {
            return Ok(());
        };
        let way = way_to(alloc, flow, self.above, end)?;
        for step in 0..flow.order.len() {
            let splitter = flow.splitter_at(step, true);
            if is_set(&way, splitter) {
                self.add_back(alloc, line, meets, &way, end, splitter)?;
            }
        }
        if flow.graph.end(end, false).is_none() {
            return add_with(alloc, line, &[meets], named(end, false), usize::MAX);
        }
        add_aim(alloc, &mut line.aims, &[meets], self.at_ends)
    }

    /// Adds for the edges into a splitter on the way to an input, at the edge `end`, that `meets` holds or they are
    /// free, and that it holds or those that lead on carry at most the mean and aren't full.
    fn add_back(
        &self,
        alloc: Global,
        line: &mut Line,
        meets: NamedLit,
        way: &[bool],
        end: usize,
        splitter: usize,
    ) -> Result<(), AllocError> {
        let flow = self.flow;
        if splitter != flow.centre() {
            for edge in flow.graph.ins(splitter) {
                add_with(alloc, line, &[meets], named(*edge, false), usize::MAX)?;
            }
        }
        for edge in flow.graph.ins(splitter) {
            if leads_on(flow, self.above, way, end, *edge) {
                self.add_least(alloc, line, self.above, &[meets], splitter, *edge)?;
            }
        }
        Ok(())
    }
}

/// The literal that says that a sum is at least another, where they are compared.
fn at_least(compared: Option<Compared>) -> Option<NamedLit> {
    Some(compared?.at_least())
}

/// The literal that says that a sum is at most another, where they are compared so.
fn at_most(compared: Option<Compared>) -> Option<NamedLit> {
    compared?.at_most()
}

/// For each splitter whether it is on the way from the centre to an end: it lies to a side of the centre and leads to
/// the edge at the end.
fn way_to(alloc: Global, flow: &Flow, side: &Side, end: usize) -> Result<Vec<bool>, AllocError> {
    let from = from_centre(alloc, flow, side)?;
    let mut way = vec![in alloc; false; flow.graph.splitters()]?;
    for step in 0..flow.order.len() {
        let splitter = flow.splitter_at(step, side.is_below);
        let leads = is_set(&from, splitter) && some_leads_on(flow, side, &way, end, splitter);
        mark(&mut way, splitter, leads);
    }
    Ok(way)
}

/// For each splitter whether it is the centre or lies to a side of it.
fn from_centre(alloc: Global, flow: &Flow, side: &Side) -> Result<Vec<bool>, AllocError> {
    let mut from = vec![in alloc; false; flow.graph.splitters()]?;
    mark(&mut from, flow.centre(), true);
    for step in 0..flow.order.len() {
        let splitter = flow.splitter_at(step, !side.is_below);
        if is_set(&from, splitter) {
            go_on(flow, side, &mut from, splitter);
        }
    }
    Ok(from)
}

/// Marks the splitters to which edges of a splitter lead on a side.
fn go_on(flow: &Flow, side: &Side, marks: &mut [bool], splitter: usize) {
    for edge in side.near(flow, splitter) {
        if let Some(next) = side.beyond(flow, *edge) {
            mark(marks, next, true);
        }
    }
}

/// Whether an edge of a splitter is that at an end, or leads to a splitter on the way there.
fn some_leads_on(flow: &Flow, side: &Side, way: &[bool], end: usize, splitter: usize) -> bool {
    for edge in side.near(flow, splitter) {
        if leads_on(flow, side, way, end, *edge) {
            return true;
        }
    }
    false
}

/// Whether an edge is that at an end, or leads to a splitter on the way there.
fn leads_on(flow: &Flow, side: &Side, way: &[bool], end: usize, edge: usize) -> bool {
    if edge == end {
        return true;
    }
    match side.beyond(flow, edge) {
        Some(next) => is_set(way, next),
        None => false,
    }
}
