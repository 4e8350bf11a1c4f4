//! What is answered to texts: gate-level simulation from a netlist to a value change dump.
//!
//! [`simulate_text`] answers the dump of a circuit's values for a bench text (ISCAS'89), a settings text (TOML) and
//! a stimulus text (IEEE 1364-2005, section 18), or the first fault among them, or that of the run of its blocks; [`simulate_plain`]
//! answers the same where nobody is to see the blocks, and plays one block, asked for or not, as a whole;
//! [`replay_text`] answers the same dump where a schedule of events is played on these blocks to its end;
//! [`simulate_told`] and [`replay_told`] answer the same with a dump in which some nets alone are told;
//! [`simulate_watched`] and [`simulate_told_watched`] answer what is counted of the run too, of which [`stats_text`] makes a text;
//! [`counts_of_texts`] answers what a circuit has, and [`nets_of_texts`] what each of its nets is. What is promised stands
//! in `specs/`: `Answer` for the dump, `Replay` for schedules, `Only` for nets that are told alone, `Stats` and `StatLines` for
//! what is counted.
#![tactic(auto)]

mod counts;
mod cuts;
mod dump;
mod fault;
mod nets;
mod options;
mod replay;
mod simulate;
mod stats;
mod told;

pub use counts::count_text;
pub use fault::Fault;
pub use nets::nets_text;
pub use options::{MOST_BLOCKS, MOST_WINDOW, MOST_WORKERS, Options};
pub use replay::replay_text;
pub use simulate::{
    Simulated, counts_of_texts, nets_of_texts, simulate_plain, simulate_text, simulate_watched,
};
pub use stats::{BlockStats, Stats, stats_text};
pub use told::{replay_told, simulate_told, simulate_told_watched};
