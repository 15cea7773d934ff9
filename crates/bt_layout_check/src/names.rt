//! Which part bears each number of a network.

/// Which part bears each number of a network: the lists have indices of parts, that of a splitter, of the first part of an
/// input, and of the last part of an output, at the place of its number.
#[derive(Drop)]
pub struct Names {
    pub splitters: Vec<usize>,
    pub inputs: Vec<usize>,
    pub outputs: Vec<usize>,
}
