//! The engine of a block's part.
//!
//! A block's places are played by an engine (`warp_engine`), which knows no circuit. [`opening_engine`] makes that of a part,
//! over the places of its nets and with a queue for each of its delays; [`next_time`] says when something happens next to a net
//! that a gate reads ([`begins`] whether it is at time 0), and [`bring`] which words are brought to an engine at a time by
//! what the block has received. Both take the least time at which something comes from outside ([`next_brought`]), which the
//! caller keeps and looks for again only once that time is played; [`first_words`] says what flip-flops begin with. Laws say what an engine
//! makes, and its moments, are to the block: what stands in its logs, and its saved states ([`runs_are_lawful`]), also once it receives
//! something at a time that isn't played ([`runs_go_on`]).
#![tactic(auto)]

mod brought;
mod initial;
mod laws;
mod moves;
mod next;
mod opening;
mod queued;

pub use brought::{bring, bring_first};
pub use initial::begins;
pub use laws::{runs_are_lawful, runs_go_on};
pub use moves::first_words;
pub use next::{brought_after, next_brought, next_time};
pub use opening::opening_engine;
