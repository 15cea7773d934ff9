//! Loads and rooms that a property speaks of.
ghost use Rattle.std.specs.Prelude.{◌≡◌, IfOk, length};
ghost use Rattle.hint_simulation.specs.Simulations.{IsCase};

use crate::belt::in_units;
use bt_flow::Property;
use bt_net::{Net, Start, Target};
use bt_random::Random;
use std::alloc::{AllocError, Global};

/// The loads of the inputs and the rooms of the outputs of a network, in parts of `UNIT`.
#[derive(Drop)]
pub struct Case {
    pub loads: Vec<u32>,
    pub rooms: Vec<u32>,
}

/// Which of the loads or rooms stay at their cap.
#[derive(Clone, Copy)]
pub enum Choice {
    /// Those whose bits are set, of the loads and of the rooms behind them that may be lower; the others become 0.
    These(usize),
    /// So many, drawn at random; the others become 0.
    Few(usize),
    /// Each stays, becomes half of it or 0, drawn at random.
    Parts,
    /// The one with this number, counted round; the others become 0.
    Only(usize),
}

impl Choice {
    /// Whether one load or room alone stays.
    fn is_only(self) -> bool {
        match self {
            Choice::These(_) | Choice::Few(_) | Choice::Parts => false,
            Choice::Only(_) => true,
        }
    }

    /// The choice for the rooms, which come behind so many loads: their bits stand behind those of the loads.
    fn behind(self, count: usize) -> Choice {
        match self {
            Choice::These(bits) => Choice::These(shifted(bits, count)),
            Choice::Few(_) | Choice::Parts | Choice::Only(_) => self,
        }
    }
}

impl Case {
    /// Each load and room at its cap.
    pub fn full(alloc: Global, net: &Net) -> Result<Case, AllocError>
        ensures { IfOk result (IsCase net.now) }
    {
        let mut loads = vec![in alloc; 0u32; net.inputs() as usize]?;
        let mut rooms = vec![in alloc; 0u32; net.outputs() as usize]?;
        for edge in net.edges() {
            if let Start::Input(input) = edge.start {
                set(&mut loads, input, in_units(edge.cap));
            }
            if let Target::Output(output) = edge.target {
                set(&mut rooms, output, in_units(edge.cap));
            }
        }
        Ok(Case { loads, rooms })
    }

    /// The case with some loads and rooms less than in this one, as far as a property speaks of such.
    pub fn chosen(
        &self,
        alloc: Global,
        property: Property,
        choice: Choice,
        random: &mut Random,
    ) -> Result<Case, AllocError>
        ensures loads { IfOk result (λ c. length c.loads.items ≡ length self.now.loads.items) }
        ensures rooms { IfOk result (λ c. length c.rooms.items ≡ length self.now.rooms.items) }
    {
        let mut loads = self.loads.clone()?;
        let mut rooms = self.rooms.clone()?;
        let mut choice = choice;
        if !property.asks_loads() {
            lower(&mut loads, choice, random);
            choice = choice.behind(loads.len());
        }
        if lowers_rooms(property, choice) {
            lower(&mut rooms, choice, random);
        }
        Ok(Case { loads, rooms })
    }
}

/// Whether rooms are lowered: where the property speaks of blocked outputs too and, for a choice of one alone, where no
/// loads are lowered.
fn lowers_rooms(property: Property, choice: Choice) -> bool {
    !property.asks_rooms() && (property.asks_loads() || !choice.is_only())
}

/// Sets the number at a place, where there is one.
fn set(numbers: &mut [u32], place: u32, number: u32) {
    if let Some(found) = numbers.get_mut(place as usize) {
        *found = number;
    }
}

/// Lowers numbers, but for those that a choice keeps, to 0 or to half.
fn lower(numbers: &mut [u32], choice: Choice, random: &mut Random) {
    match choice {
        Choice::These(bits) => keep_these(numbers, bits),
        Choice::Few(count) => keep_few(numbers, count, random),
        Choice::Parts => keep_parts(numbers, random),
        Choice::Only(number) => keep_only(numbers, number),
    }
}

/// The bits of a number behind the first so many; none where these are 64 or more.
fn shifted(bits: usize, count: usize) -> usize {
    if count < 64 { bits >> count } else { 0 }
}

/// Keeps the numbers whose bits are set; the others become 0.
fn keep_these(numbers: &mut [u32], bits: usize) {
    for place in 0..numbers.len() {
        if shifted(bits, place) % 2 == 0 {
            numbers[place] = 0;
        }
    }
}

/// Keeps so many numbers, or all where there are fewer; the others become 0. Each of these choices is drawn as often as
/// another.
fn keep_few(numbers: &mut [u32], count: usize, random: &mut Random) {
    let mut left = count;
    for place in 0..numbers.len() {
        if random.below(numbers.len() - place) < left {
            left -= 1;
        } else {
            numbers[place] = 0;
        }
    }
}

/// Keeps each number, half of it or nothing of it.
fn keep_parts(numbers: &mut [u32], random: &mut Random) {
    for number in numbers.iter_mut() {
        *number = match random.below(3) {
            0 => 0,
            1 => *number / 2,
            _ => *number,
        };
    }
}

/// Keeps the one number at a place that is counted round; the others become 0.
fn keep_only(numbers: &mut [u32], kept: usize) {
    for place in 0..numbers.len() {
        if place != kept % numbers.len() {
            numbers[place] = 0;
        }
    }
}
