//! Two bits compared over time, as functions of time.
//!
//! [`Shown`] is a bit as it is compared: the changes of a text in another unit of time, and earlier or later.
//! [`first_difference`] answers the first of some times at which two of them don't agree. The definitions stand in
//! `specs/`: `Bits` for the value of a bit at a time, `Agreement` for what agrees, and when it is asked.
#![tactic(auto)]

mod cursor;
mod difference;
mod recent;
mod same;
mod shown;
mod times;

pub use difference::{Difference, Tolerance, first_difference};
pub use shown::Shown;
pub use times::Times;
