//! An engine of a block's places: it plays times, tells what they made, and takes it back.
//!
//! An [`Engine`] is a journal of places up to a horizon. [`Engine::play`] plays a time over what is brought to places from outside;
//! [`Engine::tell_since`] says what was made from a time on, so that others can be told. [`Engine::go_back`] goes back to a time, and
//! what is given from then on may be something else. [`Engine::forget_below`] forgets what only a way back to times before one
//! needs.
//!
//! At every moment the journal has played its sources (`IsRun` in `specs/Runs`). What places are and what is brought to them is the
//! caller's: an engine knows no circuit, no messages and no blocks, and keeps no list of any place's changes. What they are is a law of
//! what it tells ([`makings_lengthen_logs`]).
#![tactic(auto)]

mod engine;
mod laws;

pub use engine::Engine;
pub use laws::{has_opened, makings_are_later, makings_lengthen_logs, moves_next, shows_moments};
