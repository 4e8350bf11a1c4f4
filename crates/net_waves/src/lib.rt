//! The changes of the nets of a circuit, by net and by time.
//!
//! [`Waves`] hold for each net the list of its changes, and beside the lists all changes in the order of time, and at one
//! time of net ([`ByTime`]): in a word each where times are dense ([`Packed`]), else in a key each ([`Keyed`]), and in runs
//! of [`Stop`]s where neither can be ([`Timeline`], which [`next_chunk`] merges). Readers of a wave ask it by net; writers
//! of dumps go by time.
//!
//! The definitions stand in `specs/Waves`. The crate knows values and numbers of nets alone, and neither circuits nor texts.
#![tactic(auto)]

mod buckets;
mod by_time;
mod first;
mod keyed;
mod merging;
mod packed;
mod packing;
mod placing;
mod taker;
mod timeline;
mod waves;

pub use by_time::ByTime;
pub use first::take_first;
pub use keyed::{Keyed, stop_of};
pub use merging::next_chunk;
pub use packed::{Packed, stop_at};
pub use taker::Taker;
pub use timeline::{NetMove, Stop, Timeline, stops_by_time};
pub use waves::{Waves, are_waves, is_wave};
