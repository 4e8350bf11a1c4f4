//! Places in texts, and how they are told to people: file, line and column, the text of the line, and marks below it.
//!
//! The definitions that contracts cite stand in `specs/Places` and `specs/Told`.
#![tactic(auto)]

mod place;
mod showing;
mod told;

pub use place::{Place, front, within_line};
pub use showing::shown;
pub use told::{Remark, Source, tell};
