//! What is wrong with a refused dump, or with a comparison of two, found anew from the texts and the fault: a stimulus, a dump
//! that is compared, the map that pairs the bits of two, or nothing that is compared.
//!
//! For each fault a function answers a finding: where in the text it is, the cause in a sentence with the names concerned, and
//! what to do about it where that is known. Nothing is promised of its sentences: `examples/faults/explained` has each. That a
//! finding is told at its place is the promise of `warp_explain`. Which map says nothing is defined in `specs/EmptyMap`.
#![tactic(auto)]

mod bits;
mod compared;
mod dump;
mod inputs;
mod map;
mod nothing;
mod stamps;
mod variables;

pub use compared::Compared;
pub use dump::of_dump;
pub use inputs::{Found, of_input};
pub use map::of_map;
pub use nothing::{Missing, of_empty_map, of_nothing, says_nothing};
