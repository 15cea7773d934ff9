//! The steps that are left, and their numbers among them.
ghost use Rattle.std.specs.Prelude.{◌≡◌, ◌<◌, AllPairs, All, IfOk, length};
ghost use Rattle.bt_log.specs.inner.Needed.{AreNeeded, AreNumbers, AreThose, IsKept};

use crate::log::Log;
use crate::marking::needed;
use std::alloc::{AllocError, Global};

/// The places of the steps that are left, in their order, and a list that has at each of these places its number among
/// them.
#[derive(Drop)]
pub struct Kept {
    pub places: Vec<usize>,
    pub numbers: Vec<usize>,
}

/// The steps that the last one needs, itself among them.
pub fn kept_of(alloc: Global, log: &Log) -> Result<Kept, AllocError>
    ensures { IfOk result (IsKept log.now) }
{
    let places = needed_places(alloc, log)?;
    let numbers = numbers_of(alloc, log.len(), &places)?;
    Ok(Kept { places, numbers })
}

/// The places of the steps that the last one needs, its own among them.
fn needed_places(alloc: Global, log: &Log) -> Result<Vec<usize>, AllocError>
    ensures { IfOk result (λ places. AreNeeded log.now places.items) }
{
    let marks = needed(alloc, log)?;
    marked_places(alloc, &marks)
}

/// The places that have marks.
fn marked_places(alloc: Global, marks: &[bool]) -> Result<Vec<usize>, AllocError>
    ensures { IfOk result (λ places. AreThose marks.now places.items) }
{
    let mut places = Vec::new(alloc);
    for place in 0..marks.len() {
        if marks[place] {
            places.push(place)?;
        }
    }
    Ok(places)
}

/// A list of `count` numbers, which has at each of these places the number of the place among them, and 0 elsewhere.
fn numbers_of(alloc: Global, count: usize, places: &[usize]) -> Result<Vec<usize>, AllocError>
    requires in_order { AllPairs (λ one other. one < other) places.now }
    requires inside { All (λ place. place < count) places.now }
    ensures count { IfOk result (λ numbers. length numbers.items ≡ count) }
    ensures numbers { IfOk result (λ numbers. AreNumbers places.now numbers.items) }
{
    let mut numbers = vec![in alloc; 0; count]?;
    for number in 0..places.len() {
        numbers[places[number]] = number;
    }
    Ok(numbers)
}
