//! What is compared in a network whose spare ends lead back, seen from one side.
use crate::halves::Halves;
use bt_extend::{Form, NamedLit};
use bt_frac::Frac;
use hint_scopes::{Chosen, Compared, Comparison, Line, Next, Term, compare, named, single, sum_of};
use std::alloc::{AllocError, Global};

/// What is compared, seen from one side.
#[derive(Drop)]
pub struct Sharing<'a> {
    pub halves: Halves<'a>,
    /// For each edge that is cut what begins there.
    counted: Vec<Option<Chosen>>,
    /// For each edge between splitters that its flow is at least the mean of what it comes of.
    edges: Vec<Option<Compared>>,
    /// For each splitter of the last stage that it gets at least its share.
    shares: Vec<Option<Compared>>,
    /// All that begins is at least as much as fills the ends behind the last stage.
    enough: Comparison,
    /// As much begins at ends as ends at the others, or more.
    law: Option<Compared>,
}

impl<'a> Sharing<'a> {
    /// Defines what is compared. None where a form can't be made: then the line may have been added to in part, which is good.
    pub fn of(
        alloc: Global,
        line: &mut Line,
        next: &mut Next,
        halves: Halves<'a>,
    ) -> Result<Option<Sharing<'a>>, AllocError> {
        let Some(enough) = enough_form(alloc, &halves)? else {
            return Ok(None);
        };
        let counted = define_counted(alloc, line, next, &halves)?;
        let edges = define_edges(alloc, line, next, &halves)?;
        let shares = define_shares(alloc, line, next, &halves)?;
        let enough = next.compare(line, enough)?;
        let law = define_law(alloc, line, next, &halves)?;
        Ok(Some(Sharing {
            halves,
            counted,
            edges,
            shares,
            enough,
            law,
        }))
    }

    /// The literal that says that an edge has the mark with which it may carry less than the other edge of its
    /// splitter: seen from the inputs it is backed, since of two out edges a free one carries no less; seen from the
    /// outputs it is free.
    pub fn hindered(&self, edge: usize) -> NamedLit {
        named(edge, !self.halves.from_outputs)
    }

    /// The literal that says that an edge has the other mark, with which it carries no less than the other edge of its
    /// splitter, or is full.
    pub fn unhindered(&self, edge: usize) -> NamedLit {
        named(edge, self.halves.from_outputs)
    }

    /// What begins at an edge that is cut; none for another edge.
    pub fn counted(&self, edge: usize) -> Option<Chosen> {
        *self.counted.get(edge)?
    }

    /// The literal that says that an edge carries at least the mean of what it comes of or, where it is cut, at least
    /// what begins there. None where nothing is compared at the edge.
    pub fn carries(&self, edge: usize) -> Option<NamedLit> {
        match self.counted(edge) {
            Some(counted) => Some(counted.at_most_second()),
            None => Some((*self.edges.get(edge)?)?.at_least()),
        }
    }

    /// Adds the rows by which an edge is compared.
    pub fn add_rows_of(&self, rows: &mut Vec<usize>, edge: usize) -> Result<(), AllocError> {
        if let Some(counted) = self.counted(edge) {
            return counted.add_rows(rows);
        }
        match self.edges.get(edge) {
            Some(Some(compared)) => compared.add_rows(rows),
            _ => Ok(()),
        }
    }

    /// The comparison of what the splitter of the last stage at a place gets with its share.
    pub fn share(&self, place: usize) -> Option<Compared> {
        *self.shares.get(place)?
    }

    /// Adds the rows of all shares.
    pub fn add_shares(&self, rows: &mut Vec<usize>) -> Result<(), AllocError> {
        for place in 0..self.shares.len() {
            if let Some(share) = self.share(place) {
                share.add_rows(rows)?;
            }
        }
        Ok(())
    }

    /// The literal that says that less begins than fills the ends behind the last stage.
    pub fn is_small(&self) -> NamedLit {
        self.enough.is_less()
    }

    /// The opposite of [`Sharing::is_small`].
    pub fn is_not_small(&self) -> NamedLit {
        negated(self.enough.is_less())
    }

    /// Adds the rows that compare all that begins with what fills the ends behind the last stage.
    pub fn add_enough(&self, rows: &mut Vec<usize>) -> Result<(), AllocError> {
        self.enough.add_rows(rows)
    }

    /// The comparison of what flows at the ends where flows begin with what flows at the other ends.
    pub fn law(&self) -> Option<Compared> {
        self.law
    }
}

/// The opposite of a literal.
pub fn negated(lit: NamedLit) -> NamedLit {
    named(lit.var, !lit.positive)
}

/// The form of all that begins, whose number is how many splitters the last stage has: so much fills the ends that
/// these prefer.
fn enough_form(alloc: Global, halves: &Halves) -> Result<Option<Form>, AllocError> {
    let mut terms = Vec::new(alloc);
    for term in &halves.share {
        terms.push((term.column, Frac::whole(1)))?;
    }
    let parts = i64::try_from(halves.last.len()).unwrap_or(0);
    Ok(Form::new(Frac::whole(parts), terms))
}

/// Defines for each edge that is cut what begins there.
fn define_counted(
    alloc: Global,
    line: &mut Line,
    next: &mut Next,
    halves: &Halves,
) -> Result<Vec<Option<Chosen>>, AllocError> {
    let mut counted = vec![in alloc; None; halves.graph.edges()]?;
    for edge in 0..halves.graph.edges() {
        if halves.is_cut(edge) && edge < counted.len() {
            counted[edge] = choose(alloc, line, next, edge, !halves.from_outputs)?;
        }
    }
    Ok(counted)
}

/// Defines what begins at an edge: 1, which fills it, where it is backed or free as `backed` tells, and else its flow.
fn choose(
    alloc: Global,
    line: &mut Line,
    next: &mut Next,
    edge: usize,
    backed: bool,
) -> Result<Option<Chosen>, AllocError> {
    let full = Form::new(Frac::whole(1), Vec::new(alloc));
    let flow = sum_of(Vec::from_slice(alloc, &[(edge, Frac::whole(1))])?);
    match (full, flow) {
        (Some(full), Some(flow)) => Ok(Some(next.choose(line, edge, backed, full, flow)?)),
        _ => Ok(None),
    }
}

/// Defines for each edge between splitters its comparison with the mean of what it comes of.
fn define_edges(
    alloc: Global,
    line: &mut Line,
    next: &mut Next,
    halves: &Halves,
) -> Result<Vec<Option<Compared>>, AllocError> {
    let mut edges = vec![in alloc; None; halves.graph.edges()]?;
    for splitter in &halves.order {
        for edge in halves.behind(*splitter) {
            let mean = halves.mean(*edge);
            if !mean.is_empty() && *edge < edges.len() {
                edges[*edge] = compare(alloc, line, next, &[single(*edge)], mean, false)?;
            }
        }
    }
    Ok(edges)
}

/// Defines for each splitter of the last stage the comparison of what it gets with its share.
fn define_shares(
    alloc: Global,
    line: &mut Line,
    next: &mut Next,
    halves: &Halves,
) -> Result<Vec<Option<Compared>>, AllocError> {
    let mut shares = Vec::new(alloc);
    for splitter in &halves.last {
        let got = got_by(alloc, halves, *splitter)?;
        shares.push(compare(alloc, line, next, &got, &halves.share, false)?)?;
    }
    Ok(shares)
}

/// What a splitter of the last stage gets: what begins at the cut edges behind it, and the flows of the other edges
/// there.
fn got_by(alloc: Global, halves: &Halves, splitter: usize) -> Result<Vec<Term>, AllocError> {
    let mut terms = Vec::new(alloc);
    for edge in halves.behind(splitter) {
        if halves.is_cut(*edge) {
            terms.push(single(halves.column(*edge)))?;
        } else {
            terms.push(single(*edge))?;
        }
    }
    Ok(terms)
}

/// Defines whether the ends at which flows begin have together at least as much as those of the other side: seen from
/// the inputs, whether no more goes out than comes in.
fn define_law(
    alloc: Global,
    line: &mut Line,
    next: &mut Next,
    halves: &Halves,
) -> Result<Option<Compared>, AllocError> {
    let begin = flows_at(alloc, halves, halves.from_outputs)?;
    let end = flows_at(alloc, halves, !halves.from_outputs)?;
    compare(alloc, line, next, &begin, &end, false)
}

/// The flows of the outputs, or of the inputs.
fn flows_at(alloc: Global, halves: &Halves, outputs: bool) -> Result<Vec<Term>, AllocError> {
    let mut terms = Vec::new(alloc);
    for edge in 0..halves.graph.edges() {
        if halves.graph.end(edge, outputs).is_some() {
            terms.push(single(edge))?;
        }
    }
    Ok(terms)
}
