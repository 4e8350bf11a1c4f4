//! A journal of a block's gates: it plays times, and goes back to them.
//!
//! A [`Journal`] has gates, a queue for each delay of what they put out, and all that came true, in order of time and place.
//! [`Journal::advance`] plays a time: what is due in queues and what the caller brings from outside change values, gates
//! follow, and what they put out goes into queues, from which it comes true a delay later. [`Journal::roll_back`] goes back
//! to an earlier time without memory and without playing anything again: what came true is taken back from the values, the
//! last of it first, what was made is cut off its queues, and what was read and comes true later is ahead again.
//! [`Journal::forget_below`] forgets in queues what came true before a time; what came true stays in the history.
//!
//! The contracts speak of the law of `place_moves`: that a journal has played its sources up to its mark (`IsPlayed`). It
//! holds before the first time ([`Journal::new`] with `begins`), and each call keeps it. A journal knows no circuit, no cut, no
//! channels and no messages. The definitions that contracts cite stand in `specs/Books`.
#![tactic(auto)]

mod journal;
mod queues;
mod stepping;

pub use journal::Journal;
