//! Why a text is refused, told for people.
//!
//! For each fault a function answers what stands behind the fault's own line: the place as file, line and column, the text
//! of that line with marks below what is meant, the cause in a sentence with the names concerned, and what to do about it
//! where that is known. Proved is the place and the line that is shown (`specs/Explained`, and `specs/Told` of
//! `text_places`); the sentences are those of `line_findings` and `dump_findings`, of which nothing is promised.
#![tactic(auto)]

mod explain;

pub use dump_findings::Compared;
pub use explain::{
    explain_bench, explain_comparison, explain_event, explain_only, explain_schedule,
    explain_settings, explain_stimulus, explain_unfinished,
};
