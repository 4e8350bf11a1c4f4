//! Rounds of workers over the blocks of a circuit.
//!
//! A [`turn`] is what a block does at one go: it receives messages, commits what is below a floor, and finishes event
//! times. A [`Site`] keeps a block behind a lock, and what is in flight to it behind another; a [`Gate`] watches turns.
//!
//! A [`Round`] shares the blocks out as its workers get to them: each worker has a [`RoundSeat`], draws blocks with it
//! until none is left, and reports times. Drawing and reporting are one atomic step each, and wait for
//! nobody; the workers of a run, who stay for all its rounds (`Crew`), draw and report under one lock. [`Round::end`] takes all the seats
//! back: it answers the least time reported, where every block was drawn.
//!
//! [`run`] plays rounds until nothing is left, and answers the circuit's waves. A round of it goes over the blocks in laps: a number
//! that is drawn stands for the block that it leaves when it is divided by the number of blocks, so that a block may take
//! several turns between two floors; where turns are short, a worker goes on with blocks near by that have something to do, before it
//! draws again. [`run_watched`] plays the same, counts what its blocks do, and tells a [`Watch`] how far it
//! has come. [`run_changes`] plays blocks that keep the logs of those nets alone that others read, and answers all changes by time.
//!
//! Times are whole numbers in units of the stimulus's timescale. The definitions stand in `specs/`: `Turn` says what a
//! turn does to a block, what it reports, and what it has done where it meets a fault; `Visit` what is known of a turn under
//! a lock; `Runs` where each fault of a run comes from; `Counts` what is counted of turns; `Seats` what callers see of a round and
//! of its seats; and in
//! `specs/Inner/` `Work` says what workers have done, and `Rule` the rule of a round's two shared words, and what each step
//! does to a seat.
#![tactic(auto)]

mod changes;
mod counts;
mod crew;
mod desk;
mod drawn;
mod fault;
mod gate;
mod hand;
mod pace;
mod play;
mod round;
mod runs;
mod signs;
mod site;
mod turns;
mod watch;
mod work;

pub use changes::run_changes;
pub use counts::{Counts, RunCounts};
pub use fault::RunFault;
pub use gate::{Gate, NoGate};
pub use round::{EndFault, Round, RoundSeat};
pub use runs::{Watched, run, run_watched};
pub use site::Site;
pub use turns::{TurnReport, turn};
pub use watch::{NoWatch, Watch};
