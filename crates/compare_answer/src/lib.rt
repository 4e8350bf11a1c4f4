//! What a comparison of two value change dumps prints.
//!
//! [`compare_text`] answers two dumps with a line for each bit that differs, by the first time at which it does, and a
//! last line that counts. What is promised stands in `specs/`: `Listing` for the order, `Lines` for the text, `Answer` for
//! the whole.
#![tactic(auto)]

mod answer;
mod lines;
mod listing;

pub use answer::{Compared, compare_text};
