//! Stores for a journal of changes. They know nothing of gates.
//!
//! A [`Word`] is a change of a place in four bytes; it has the value before, so that each change is its own undo. A
//! [`Queue`] has words in the order in which they came, and reads them at a head; [`Steps`] has all that came, and takes
//! it off at the end; a [`StepReader`] reads a part of it and copies nothing. [`Delays`] has a queue for each delay,
//! and what comes true next is at hand. [`Order`] puts the words of a time into order of their places. [`Lists`] has for
//! each place the list of its changes, which get the words of a [`Batch`] at once. [`Least`] has the least of some times.
//!
//! The definitions that contracts cite stand in `specs/`: `Words` for a word, `Dated` for words that came at times and for
//! what a queue has, `Delays` for what comes true when, `Order` for the order of places, `Lists` for lists that words
//! lengthen and shorten, `Least` for the least time.
#![tactic(auto)]

mod batch;
mod delay_queue;
mod delays;
mod laws;
mod least;
mod lists;
mod marks;
mod order;
mod place;
mod queue;
mod reader;
mod room;
mod spans;
mod steps;
mod stop;
mod word;

pub use batch::Batch;
pub use delays::Delays;
pub use laws::{before_and_since, nothing_later, undo_gives_back};
pub use least::{Least, NEVER};
pub use lists::Lists;
pub use order::Order;
pub use queue::{MOST_DEAD, Queue};
pub use reader::StepReader;
pub use steps::Steps;
pub use stop::TIMES;
pub use word::{PLACES, Word};
