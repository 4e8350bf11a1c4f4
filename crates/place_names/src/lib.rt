//! Places that stand for nets.
//!
//! A block numbers its nets by places. Where each place stands for a net with the same source, and is given the same
//! (`StandForNets` in `specs/Names`), places show and hold at each moment what their nets do: [`stands_for_nets`], a function
//! that does nothing but present this law.
#![tactic(auto)]

mod laws;

pub use laws::stands_for_nets;
