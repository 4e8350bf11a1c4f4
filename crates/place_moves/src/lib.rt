//! What places of a circuit do over time, as lists of moves, and what is true of a journal of gates that plays them. The
//! functions do nothing: each presents a law.
//!
//! A journal is gates as they stand just before a mark, queues of what they put out, and all that came true before the mark.
//! That it has played its sources up to the mark, `IsPlayed` in `specs/Journals`, says that gates show the moment just before
//! the mark, that of each place all its moves came true, in order, and that each queue has what its places' sources made.
//! It holds before the first step ([`begins`]), and is kept by a step ([`plays_on`]), by times at which nothing is due
//! ([`stands_still`]), by a way back to an earlier time, from where something else may be given ([`goes_back`]), and where
//! what came true is forgotten ([`forgets`]). From it follows the log of each place ([`tells_log`]).
//!
//! The moves of a place, and what its source makes, stand in `specs/Moves`, its log in `specs/Logs`.
#![tactic(auto)]

mod laws;

pub use laws::{begins, comes_true, forgets, goes_back, plays_on, stands_still, tells_log};
