//! All changes by time, from the histories of blocks' own nets and the changes that are given beside them: all stand in the order of
//! time already, so that nothing is put in order anew.
//!
//! The definitions stand in `specs/Histories` and `specs/Stories`. The crate knows words of places and changes
//! of nets, and no blocks.
#![tactic(auto)]

mod merging;
mod parts;
mod several;
mod story;
mod telling;
mod untold;

pub use parts::{by_time_of_all, by_time_of_all_by};
pub use story::Story;
pub use telling::{FAR, no_changes, tell_history};
