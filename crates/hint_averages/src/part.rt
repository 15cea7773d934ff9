//! The parts of a network that are argued about, each with centres of its own: the whole network, or the two of which it is
//! a row.
use crate::side::Side;
use hint_graphs::Flow;
use hint_scopes::Compared;
use std::alloc::{AllocError, Global};

/// What is compared of all that flows through a part.
#[derive(Clone, Copy)]
pub struct Totals {
    /// The flows that begin, with those that end.
    pub ends: Option<Compared>,
    /// The flows that begin, with what goes through the centres.
    pub centres: Option<Compared>,
}

/// A part of a network, and what is compared there.
#[derive(Drop)]
pub struct Part<'a> {
    pub flow: Flow<'a>,
    /// The side of the outputs, or of the lines to another part.
    pub below: Side,
    /// The side of the inputs, or of the lines from another part.
    pub above: Side,
    pub totals: Totals,
}

impl<'a> Part<'a> {
    /// The part through which a flow runs, with nothing compared yet.
    pub fn of(alloc: Global, flow: Flow<'a>) -> Result<Part<'a>, AllocError> {
        let below = Side::of(alloc, &flow, true)?;
        let above = Side::of(alloc, &flow, false)?;
        Ok(Part {
            flow,
            below,
            above,
            totals: Totals {
                ends: None,
                centres: None,
            },
        })
    }

    /// How many terms the means of both sides have.
    pub fn terms(&self) -> usize {
        self.below.terms().saturating_add(self.above.terms())
    }

    /// Whether an edge leads from this part to another one.
    pub fn leads_on(&self, edge: usize) -> bool {
        let graph = &self.flow.graph;
        graph.leaves(edge) && graph.end(edge, true).is_none()
    }
}
