//! What a block tells the readers of its nets, and takes back.
//!
//! An engine gives what its places take in words, in the order of its queues. [`tell`] makes the messages on them, by event time,
//! net and reader; [`take_back`] the antimessages, by net, time and reader. That they are the difference of the logs is a law
//! ([`tells_what_is_longer`], [`takes_back_what_is_shorter`]).
#![tactic(auto)]

mod first;
mod laws;
mod send;
mod telling;
mod words;

pub use first::tell_first;
pub use laws::{takes_back_what_is_shorter, tells_what_is_longer};
pub use words::{take_back, tell};
