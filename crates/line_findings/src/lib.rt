//! What is wrong with a refused text of lines or settings, found anew from the text and the fault: a bench, settings, a
//! schedule, or names of nets.
//!
//! For each fault a function answers a finding: where in the text it is, the cause in a sentence with the names concerned, and
//! what to do about it where that is known. Nothing is promised of its sentences: `examples/faults/explained` has each. That a
//! finding is told at its place is the promise of `warp_explain`.
#![tactic(auto)]

mod bench;
mod keys;
mod only;
mod quotes;
mod returns;
mod schedule;
mod settings;

pub use bench::of_bench;
pub use only::of_only;
pub use schedule::{Lack, of_event, of_schedule, of_unfinished};
pub use settings::of_settings;
