//! The gates of a block as they stand between two moments: what sets each place, its value, and what it puts out. They
//! know no times and no delays: words tell which values change, and what is put comes true when who calls says so.
//!
//! What sets places is [`Wiring`]: something outside, gates over places, flip-flops. [`Gates::new`] begins where nothing
//! is known. [`Gates::step`] takes words that change values: flip-flops load at edges of their clocks, by the values
//! before; gates put out what they make of the values after; and each output that changes is put once, a [`Put`] for the
//! queue of its place. [`Gates::undo`] takes words back from the values, and [`Gates::restore`] gives flip-flops back what
//! they put out before words that were put; both take no memory. At every moment gates put out what they make of the
//! values ([`Gates::law`]).
//!
//! The definitions that contracts cite stand in `specs/Cells`, how gates lie in memory in `specs/Inner`.
#![tactic(auto)]

mod clocked;
mod evaluate;
mod first;
mod front;
mod gates;
mod load;
mod outputs;
mod pins;
mod put;
mod readers;
mod restore;
mod settle;
mod wide;
mod wiring;

pub use gates::Gates;
pub use put::Put;
pub use wiring::Wiring;
