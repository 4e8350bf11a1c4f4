//! What a stimulus gives the inputs of a circuit.
//!
//! A [`Stimulus`] is made of lists of changes, and tells each input's changes and values; who reads a text makes one, and who
//! plays a circuit reads it. The definitions stand in `specs/`: `Given` for what inputs are given, `Timescales` for the
//! units of its times.
#![tactic(auto)]

mod stimulus;
mod timescale;

pub use stimulus::{Stimulus, is_input};
pub use timescale::{Timescale, Unit};
