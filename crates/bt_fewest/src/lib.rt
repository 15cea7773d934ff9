//! The fewest splitters with which a network has what is wished for, and the evidence that fewer do not do it.
#![tactic(auto)]
