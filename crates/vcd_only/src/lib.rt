//! The dump of some nets alone.
//!
//! [`told_text`] answers the text of a circuit's dump without the lines of the nets that aren't told, and without the
//! times at which no net that is told changes. The codes of nets stay. The definition stands in `specs/Told.antt`, over
//! that of the whole dump; [`told_laws`] tells that it is the whole dump where each net is told.
#![tactic(auto)]

mod laws;
mod lines;
mod stops;
mod text;

pub use laws::told_laws;
pub use text::told_text;
