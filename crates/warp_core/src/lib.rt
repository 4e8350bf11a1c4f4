//! What logical processes make together.
//!
//! A [`World`] holds all blocks of a cut, and the messages in flight between them; any order of [`Event`]s can be played
//! on it, without threads. Whatever was played, what each block holds and what is in flight to it make up what the
//! others have logged, so no block ever refuses what it is told. Where nothing is left to do the blocks are matched.
//! [`drive`] plays rounds until then, at most one more than the horizon, for every order of the blocks.
//!
//! [`gather`] joins blocks that have finished into the [`Waves`](net_waves::Waves) of the circuit. It answers only
//! blocks that are matched: each is of its part of the cut, none has anything left to do, and each was told exactly
//! what the others, and the stimulus, say. Of such blocks alone, whatever was played to reach them, the waves are those
//! of the circuit's values by the transport-delay definition. Every other list of blocks is refused, for the first
//! cause in the order of [`GatherFault`]. [`gather_by`] looks at the blocks side by side, and [`gather_changes`] answers all changes
//! by time, whichever logs the blocks keep; [`worthwhile`] tells how many threads are worth while.
//!
//! The definitions stand in `specs/`: `Matched` for matched blocks, `Values` for the circuit's waves, `Gather` for what
//! is answered, `World` for the law of worlds and the least time, `Play` for events, `Drive` for rounds, `Schedule` for
//! the text that [`read_schedule`] reads as a list of events, `Threads` for how many threads are worth while.
#![tactic(auto)]

mod driver;
mod event;
mod fault;
mod flight;
mod gathering;
mod order;
mod schedule;
mod threads;
mod turns;
mod world;

pub use driver::{DriveFault, drive};
pub use event::{Event, PlayFault};
pub use fault::GatherFault;
pub use gathering::{gather, gather_by, gather_changes, given_lists, own_nets};
pub use schedule::{ScheduleCause, ScheduleFault, read_schedule, schedule_laws};
pub use threads::{NETS_FOR_A_THREAD, worthwhile};
pub use world::World;
