//! Numbers in decimal digits, as texts write them.
//!
//! The definitions that contracts cite stand in `specs/Numbers`.
#![tactic(auto)]

mod numbers;

pub use numbers::{is_numeral, number_up_to};
