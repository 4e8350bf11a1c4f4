//! Which nets of a circuit are told: its outputs, or those that a text names.
//!
//! [`outputs_of`] marks the outputs of a circuit, and [`read_names`] the nets that a text names, a line each, or answers
//! its first fault with the line. The definitions stand in `specs/`: `Names` for a line and for a text, `Marks` for what
//! is marked.
#![tactic(auto)]

mod fault;
mod marks;
mod names;
mod reading;

pub use fault::{OnlyCause, OnlyFault};
pub use marks::outputs_of;
pub use reading::{names_laws, read_names};
