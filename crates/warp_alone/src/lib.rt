//! A run of one block that has the whole circuit. Nobody tells it anything but the stimulus, so that it never rolls back: it is played
//! from time 0 to the horizon, and all that came true tells the changes of all nets by time, to any taker. No list of any net's changes is made, and what
//! only a way back needs is forgotten now and then.
//!
//! What it tells are the circuit's changes by `specs/Values` of `warp_core`.
#![tactic(auto)]

mod alone;
mod playing;

pub use alone::{changes_alone, tell_alone};
