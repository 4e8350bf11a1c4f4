//! Lists of numbers that lie in one piece of memory each.
//!
//! [`Groups`] has for each key the numbers under it, in the order in which they were given: made by counting, in time and
//! memory linear in keys and numbers. [`Rows`] has lists one behind the other, of which each is read at its place, and
//! grows by a list at a time.
//!
//! The definitions that contracts cite stand in `specs/Groups` and `specs/Rows`.
#![tactic(auto)]

mod groups;
mod rows;

pub use groups::{Groups, Keyed};
pub use rows::Rows;
