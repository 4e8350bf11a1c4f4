//! The values of nets, and what gates and flip-flops make of them.
//!
//! The crate is the bottom of the simulator. Its functions are exact: [`table`] is the table of each kind
//! of gate (IEEE 1364-2005, section 7, for AND to BUF, without strengths), [`flip`] is the table of the
//! flip-flop, and neither takes memory. The definitions that every crate above speaks of stand in
//! `specs/`: the tables (`Tables`), the value of each net of a circuit at each time (`Behaviour`), and a
//! function of time as the list of its changes (`Changes`).
#![tactic(auto)]

mod flop;
mod gate;
mod laws;
mod logic;
mod pair;

pub use flop::flip;
pub use gate::{Kind, table};
pub use laws::initial_before_delay;
pub use logic::{Change, Logic};
