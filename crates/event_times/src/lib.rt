//! The times at which a process had events, and the marks of the states that it saved.
//!
//! A state is saved at a first mark, and right after each [`SAVE_EVERY`] event times since the one before. [`Times`] has the
//! event times since the oldest state that is kept, so that after a way back it is known again when the next state is due. A
//! saved state itself isn't kept here: what brings it back is elsewhere. That the marks of event times are spaced so is a
//! law ([`are_spaced`]); the definitions stand in `specs/Marks`.
#![tactic(auto)]

mod laws;
mod times;

pub use laws::are_spaced;
pub use times::{SAVE_EVERY, Times};
