//! The bits of value change dumps, read without a circuit.
//!
//! [`Dump::open`] reads the declarations of a dump, and gives the bits of a scope by their names; [`Dump::follow`] reads
//! its changes, for those that take their values from sources of it. The definitions stand in `specs/`: `Scopes` for
//! the declarations, `Names` for the bits, `Bits` for those of a scope.
#![tactic(auto)]

mod dump;
mod names;
mod path;
mod scoped;
mod table;

pub use dump::Dump;
pub use table::Table;
