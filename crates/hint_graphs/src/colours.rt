//! Numbers that tell splitters apart, however these are numbered.
use bt_flow::Role;
use bt_net::{Edge, Net};
use std::alloc::{AllocError, Global};

/// By what numbers are mixed: its bits look like chance.
const MIXER: u64 = 0x9e37_79b9_7f4a_7c15;

/// What tells an input from an output, and one side of a splitter from the other.
const OTHER_SIDE: u64 = 0x5851_f42d_4c95_7f2d;

/// The colours that tell one step more: to each splitter's colour those are added from which its edges come and to
/// which they lead.
pub fn refined(alloc: Global, net: &Net, colours: &[u64]) -> Result<Vec<u64>, AllocError> {
    let mut next = Vec::new(alloc);
    for colour in colours {
        next.push(mixed(*colour))?;
    }
    for edge in net.edges() {
        let before = colour_before(edge, colours);
        let behind = colour_behind(edge, colours);
        mix_in(&mut next, Role::Into.number_in(edge), before);
        mix_in(&mut next, Role::OutOf.number_in(edge), behind ^ OTHER_SIDE);
    }
    Ok(next)
}

/// The colour of the splitter at which an edge begins, or the number of its input.
fn colour_before(edge: &Edge, colours: &[u64]) -> u64 {
    match Role::OutOf.number_in(edge) {
        Some(splitter) => colour_at(colours, splitter),
        None => u64::from(Role::FromInput.number_in(edge).unwrap_or(0)),
    }
}

/// The colour of the splitter at which an edge ends, or the number of its output.
fn colour_behind(edge: &Edge, colours: &[u64]) -> u64 {
    match Role::Into.number_in(edge) {
        Some(splitter) => colour_at(colours, splitter),
        None => u64::from(Role::ToOutput.number_in(edge).unwrap_or(0)),
    }
}

/// The colour of a splitter, 0 where it has none.
fn colour_at(colours: &[u64], splitter: u32) -> u64 {
    colours.get(splitter as usize).copied().unwrap_or(0)
}

/// Adds a colour, mixed, to that of a splitter, where there is one.
fn mix_in(colours: &mut [u64], splitter: Option<u32>, colour: u64) {
    if let Some(splitter) = splitter {
        let place = splitter as usize;
        if place < colours.len() {
            colours[place] = colours[place].wrapping_add(mixed(colour));
        }
    }
}

/// A number made of another one, with bits that look like chance: from different numbers hardly ever the same comes.
pub fn mixed(number: u64) -> u64 {
    let spread = (number ^ (number >> 31))
        .wrapping_add(MIXER)
        .wrapping_mul(MIXER);
    spread ^ (spread >> 29)
}
