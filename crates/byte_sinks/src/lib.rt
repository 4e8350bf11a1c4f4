//! Places where the bytes of a text go, and which may fail.
//!
//! A [`Sink`] takes bytes as far as it can, and keeps in mind that it has failed; [`Grow`] is one over a vector. A [`Lot`]
//! has bytes wait, and passes them on in great pieces. Whatever fails, what the sink has taken is a first part of the text,
//! and its length is known.
//!
//! The definitions stand in `specs/Sink`. The crate knows nothing of what a text says.
#![tactic(auto)]

mod lot;
mod put;
mod sink;

pub use lot::Lot;
pub use sink::{Grow, Sink};
