//! Exchanges of splitters by pairs that leave a network as it is: what half a turn of a layout does to its splitters,
//! where it maps the layout onto itself.
use crate::network::{from, to};
use bt_model::Request;
use bt_net::{Start, Target};
use std::alloc::{AllocError, Global};

/// So many exchanges of some splitters are tried at most.
const TRIES: usize = 2_000;

/// So many exchanges of all splitters are compared at most.
const MOST_FOUND: usize = 64;

/// Of so many searches so many have the exchange of splitters that are far from each other.
const SEARCHES: u64 = 3;

const FAR_SEARCHES: u64 = 2;

/// For each splitter the one with which it changes places.
#[derive(Drop)]
pub struct Exchange {
    others: Vec<usize>,
    nearness: Nearness,
}

/// How many splitters lead to where those lead with which they change places, and how many come from where those do. An
/// exchange of splitters that are so near mostly can't be that of half a turn: their layouts would have to be in its
/// middle.
#[derive(Clone, Copy, PartialEq, Eq, PartialOrd, Ord)]
struct Nearness {
    both: usize,
    leading: usize,
}

/// Some splitters, each with the one with which it changes places.
#[derive(Drop)]
struct Partial {
    others: Vec<Option<usize>>,
}

/// How many edges join which splitters.
#[derive(Drop)]
struct Links {
    count: usize,
    /// Of how many inputs edges go into each splitter, and of how many outputs they come from it.
    inputs: Vec<usize>,
    outputs: Vec<usize>,
    /// How many edges lead from one to another, for each splitter from which and in a row to all.
    joined: Vec<usize>,
}

/// Adds one to a number of a list.
fn increase(list: &mut [usize], place: usize) {
    if let Some(number) = list.get_mut(place) {
        *number = number.saturating_add(1);
    }
}

/// A number of a list; 0 where it has none there.
fn number_at(list: &[usize], place: usize) -> usize {
    list.get(place).copied().unwrap_or(0)
}

impl Exchange {
    /// The splitter with which one changes places.
    pub fn other(&self, splitter: usize) -> Option<usize> {
        self.others.get(splitter).copied()
    }
}

impl Partial {
    /// The splitter with which one changes places, where that is known.
    fn other(&self, splitter: usize) -> Option<usize> {
        self.others.get(splitter).copied().flatten()
    }

    /// With two splitters more that change places.
    fn with(&self, alloc: Global, one: usize, other: usize) -> Result<Partial, AllocError> {
        let mut others = Vec::from_slice(alloc, &self.others)?;
        if let Some(place) = others.get_mut(one) {
            *place = Some(other);
        }
        if let Some(place) = others.get_mut(other) {
            *place = Some(one);
        }
        Ok(Partial { others })
    }
}

impl Links {
    /// The links of a request's network.
    fn of(alloc: Global, request: &Request) -> Result<Links, AllocError> {
        let count = request.net().splitters() as usize;
        let mut links = Links {
            count,
            inputs: vec![in alloc; 0usize; count]?,
            outputs: vec![in alloc; 0usize; count]?,
            joined: vec![in alloc; 0usize; count.saturating_mul(count)]?,
        };
        for edge in request.net().edges() {
            match (edge.start, edge.target) {
                (Start::Input(_), Target::Split(_)) => {
                    increase(&mut links.inputs, to(edge).unwrap_or(count));
                }
                (Start::Split(_), Target::Output(_)) => {
                    increase(&mut links.outputs, from(edge).unwrap_or(count));
                }
                (Start::Split(one), Target::Split(other)) => {
                    let place = links.place(one as usize, other as usize);
                    increase(&mut links.joined, place);
                }
                (Start::Input(_), Target::Output(_)) => {}
            }
        }
        Ok(links)
    }

    /// The place of the number of edges that lead from one splitter to another.
    fn place(&self, one: usize, other: usize) -> usize {
        one.saturating_mul(self.count).saturating_add(other)
    }

    /// How many edges lead from one splitter to another.
    fn edges(&self, one: usize, other: usize) -> usize {
        number_at(&self.joined, self.place(one, other))
    }

    /// Whether edges lead from one splitter to another or back.
    fn are_joined(&self, one: usize, other: usize) -> bool {
        self.edges(one, other) > 0 || self.edges(other, one) > 0
    }

    /// Whether as many edges join two splitters to ends, to each other and to themselves.
    fn are_like(&self, one: usize, other: usize) -> bool {
        number_at(&self.inputs, one) == number_at(&self.inputs, other)
            && number_at(&self.outputs, one) == number_at(&self.outputs, other)
            && self.edges(one, one) == self.edges(other, other)
            && self.edges(one, other) == self.edges(other, one)
    }

    /// Whether two splitters may change places, where some do already.
    fn may_change(&self, partial: &Partial, one: usize, other: usize) -> bool {
        if one == other || partial.other(other).is_some() || !self.are_like(one, other) {
            return false;
        }
        for beside in 0..self.count {
            if let Some(image) = partial.other(beside) {
                if self.edges(one, beside) != self.edges(other, image)
                    || self.edges(beside, one) != self.edges(image, other)
                {
                    return false;
                }
            }
        }
        true
    }

    /// Whether a splitter is joined to one of those that change places.
    fn is_joined(&self, partial: &Partial, splitter: usize) -> bool {
        for beside in 0..self.count {
            if partial.other(beside).is_some() && self.are_joined(splitter, beside) {
                return true;
            }
        }
        false
    }

    /// A splitter that doesn't change places yet, where there is one: one that is joined to those that do, if any is.
    fn next(&self, partial: &Partial) -> Option<usize> {
        let mut first = None;
        for splitter in 0..self.count {
            if partial.other(splitter).is_none() {
                if self.is_joined(partial, splitter) {
                    return Some(splitter);
                }
                first = first.or(Some(splitter));
            }
        }
        first
    }

    /// Adds the exchanges in which a splitter, too, changes places.
    fn push_with(
        &self,
        alloc: Global,
        partials: &mut Vec<Partial>,
        partial: &Partial,
        one: usize,
    ) -> Result<(), AllocError> {
        for other in 0..self.count {
            if self.may_change(partial, one, other) {
                partials.push(partial.with(alloc, one, other)?)?;
            }
        }
        Ok(())
    }

    /// Whether edges of both splitters lead to the same one.
    fn lead_to_same(&self, one: usize, other: usize) -> bool {
        for beside in 0..self.count {
            if self.edges(one, beside) > 0 && self.edges(other, beside) > 0 {
                return true;
            }
        }
        false
    }

    /// Whether edges of the same splitter lead to both.
    fn come_from_same(&self, one: usize, other: usize) -> bool {
        for beside in 0..self.count {
            if self.edges(beside, one) > 0 && self.edges(beside, other) > 0 {
                return true;
            }
        }
        false
    }

    /// The exchange of all splitters.
    fn exchange(&self, alloc: Global, partial: &Partial) -> Result<Exchange, AllocError> {
        let mut others = Vec::new(alloc);
        let (mut leading, mut coming) = (0usize, 0usize);
        for one in 0..self.count {
            let other = partial.other(one).unwrap_or(one);
            others.push(other)?;
            if self.lead_to_same(one, other) {
                leading = leading.saturating_add(1);
            }
            if self.come_from_same(one, other) {
                coming = coming.saturating_add(1);
            }
        }
        let both = leading.saturating_add(coming);
        Ok(Exchange {
            others,
            nearness: Nearness { both, leading },
        })
    }
}

/// Exchanges of all splitters of a network.
fn all_exchanges(alloc: Global, links: &Links) -> Result<Vec<Exchange>, AllocError> {
    let mut partials = Vec::new(alloc);
    partials.push(Partial {
        others: vec![in alloc; None; links.count]?,
    })?;
    let mut found = Vec::new(alloc);
    for _ in 0..TRIES {
        let Some(partial) = partials.pop() else {
            break;
        };
        match links.next(&partial) {
            Some(one) => links.push_with(alloc, &mut partials, &partial, one)?,
            None => found.push(links.exchange(alloc, &partial)?)?,
        }
        if found.len() >= MOST_FOUND {
            break;
        }
    }
    Ok(found)
}

/// Of exchanges in the order of their nearness one for each.
fn one_of_each(alloc: Global, found: Vec<Exchange>) -> Result<Vec<Exchange>, AllocError> {
    let mut kept = Vec::new(alloc);
    let mut last = None;
    for exchange in found {
        if last != Some(exchange.nearness) {
            last = Some(exchange.nearness);
            kept.push(exchange)?;
        }
    }
    Ok(kept)
}

/// Exchanges of all splitters of a request's network with one another, by pairs, which leave the network as it is:
/// first those of splitters that are far from each other, and of like ones one.
fn exchanges(alloc: Global, request: &Request) -> Result<Vec<Exchange>, AllocError> {
    let links = Links::of(alloc, request)?;
    let mut found = all_exchanges(alloc, &links)?;
    found.sort_by_key(|exchange| exchange.nearness)?;
    one_of_each(alloc, found)
}

/// An exchange of all splitters of a request's network with one another, by pairs, which leaves the network as it is, for
/// a search with this number: of three searches two have that of splitters that are far from each other, and the third
/// another one by turns; none, where there is none.
pub fn exchange_by(
    alloc: Global,
    request: &Request,
    number: u64,
) -> Result<Option<Exchange>, AllocError> {
    let mut list = exchanges(alloc, request)?;
    let count = list.len().max(1) as u64;
    let turn = if number % SEARCHES < FAR_SEARCHES {
        0
    } else {
        (number / SEARCHES).saturating_add(1) % count
    };
    let place = usize::try_from(turn).unwrap_or(0);
    if place < list.len() {
        Ok(Some(list.swap_remove(place)))
    } else {
        Ok(None)
    }
}
