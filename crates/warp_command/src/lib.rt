//! What is answered to a command line.
//!
//! [`program`] reads a command line and the texts that it names, and says the status with which the process ends: it
//! writes the answer of `warp_text` on standard output, or a line on standard error. Where the texts come from stands
//! behind the trait [`Texts`], of which [`Outside`] is files and standard input; where the answers go, behind the trait
//! [`Channel`], of which [`Stream`] is a writer. What is promised stands in `specs/`: `Lines`, `Replies` and `Endings`.
#![tactic(auto)]

mod app;
mod channel;
mod comparison;
mod ending;
mod explained;
mod failure;
mod joined;
mod line;
mod outside;
mod progress;
mod reply;
mod request;
mod texts;
mod uncompared;

pub use app::VERSION;
pub use channel::{Channel, Stream, Unwritten};
pub use ending::{execute, program, show};
pub use failure::{Failure, Form};
pub use joined::split_joined;
pub use line::read_line;
pub use outside::{Outside, read_all};
pub use reply::{Answer, Kept, reply_to};
pub use request::{Check, Comparison, Listing, Only, Replay, Request, Run, Sources};
pub use texts::{FetchFault, Texts};
