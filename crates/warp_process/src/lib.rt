//! What a logical process of a circuit is told, and what it shows.
//!
//! A [`Message`] tells a block a change of a net that it reads, or takes it back; an [`Entry`] counts what came of a net at a
//! time; [`Heard`] is all that a block has received, up to a horizon, with a floor below which it is settled. Times are in the
//! stimulus's timescale.
//!
//! The definitions that the contracts of blocks cite stand in `specs/`: `Entries` for what is received, `View` for what a block
//! shows, its values and its event times, `Lawful` for what is true of it at every moment, `Receive`, `Advance`, `Commit` and
//! `Sends` for calls, `Opening` for a new block, `Limits` and `Faults` for what is refused; `Played` for a view that has played
//! what it received up to a mark, of which [`received_is_lawful`] is the law. Beside them stand the lemmas over views.
#![tactic(auto)]

mod by_net;
mod by_time;
mod entry;
mod fault;
mod heard;
mod limits;
mod message;
mod placed;
mod played;
mod row;

pub use entry::Entry;
pub use fault::BlockFault;
pub use heard::Heard;
pub use limits::MOST_HORIZON;
pub use message::{Message, Sign};
pub use placed::Placed;
pub use played::received_is_lawful;
