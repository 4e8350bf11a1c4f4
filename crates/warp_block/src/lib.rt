//! A logical process of Time Warp (Jefferson, Virtual Time, 1985): a block of a circuit that runs ahead on what it
//! has received, and takes back what it should not have said.
//!
//! A [`Block`] holds a [`Part`] of a circuit. [`Block::new`] begins with what its flip-flops hold at first;
//! [`Block::receive`] takes a [`Message`] or its antimessage, from the block's past too; [`Block::advance`] runs the
//! block up to a number of event times; each puts what other blocks are to be told at the end of a list.
//! [`Block::commit`] takes a time below which no message may come any more, and gives up the saved states that no rollback
//! can need then; entries and logs stay. At every moment the block's logs and saved states are those of running what it
//! has received, in order of time, from the start: that is the invariant of the types [`Block`] and [`Look`]. Times are
//! whole numbers in units of the stimulus's timescale.
//!
//! A block keeps the [`Logs`] of all its nets, or those of the nets alone that other blocks read: `Block<ReadLogs>`, whose calls do the same,
//! and take less time and memory. What it has received and played is its `Kernel`, which knows nothing of logs.
//!
//! A block is a journal (`warp_engine`): what comes true and what gates put out stand in sequence, a rollback cuts ends and
//! takes values back, and a saved state is a mark down to which the history is taken back. What it has received is `Heard`
//! of `warp_process`, where the definitions stand that contracts cite: `Entries`, `View`, `Lawful` for the invariant,
//! `Receive`, `Advance`, `Commit` and `Sends` for calls.
#![tactic(auto)]

mod block;
mod ending;
mod give;
mod kernel;
mod logs;
mod look;
mod play;
mod rollback;

pub use block::Block;
pub use event_times::SAVE_EVERY;
pub use logs::{AllLogs, Logs, ReadLogs};
pub use look::Look;
pub use warp_part::Part;
pub use warp_process::{BlockFault, Entry, MOST_HORIZON, Message, Sign};
