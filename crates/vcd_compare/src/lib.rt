//! Value change dumps compared bit by bit.
//!
//! [`compare_texts`] answers where two dumps differ: of each bit that both have, or that a map pairs with one of another
//! name, the first compared time at which they don't agree, and the values there. The definitions stand in `specs/`:
//! `Times` for the common unit of time, `Pairs` and `Map` for the bits that are compared, `Comparison` for what differs,
//! `Answer` for the whole.
#![tactic(auto)]

mod compare;
mod fault;
mod found;
mod lonely;
mod looking;
mod map;
mod mapped;
mod pairs;
mod report;
mod sight;
mod times;

pub use compare::compare_texts;
pub use fault::{CompareFault, MapCause, MapFault};
pub use report::{Differing, Options, Report};
