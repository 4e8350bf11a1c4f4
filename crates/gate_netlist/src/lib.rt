//! Netlists: a bench text and a settings text as a circuit, and a circuit's cut into blocks.
//!
//! [`read_bench`] answers what a `.bench` text says, in the language of the ISCAS'89 circuits, or its first fault
//! with the line. [`Circuit::of`] gives a bench its delays, its clock, a scope and a cut by a settings text in TOML,
//! or answers the least cause that speaks against the text; [`Document::read`] reads that text alone, and [`Circuit::with`] goes
//! on from there, so that both texts can be read side by side. [`Cut::even`] makes a cut of a circuit where the settings
//! give none. Each answer is the one that the definitions in `specs/` give: `Lines`, `Symbols`, `Statements` and
//! `Bench` for the bench text; `Settings`, `Causes` and `Meaning` for the settings; `Circuit` and `Cut` for what
//! is true of every circuit and every cut. The one other answer is want of memory, where a growth was refused, which
//! is never the fault of a text ([`refusal_laws`]), and what an accepted bench text means is told apart from refusals
//! ([`accepted_laws`]).
#![tactic(auto)]

mod bench;
mod circuit;
mod counts;
mod cut;
mod document;
mod driver;
mod fault;
mod laws;
mod lines;
mod nets;
mod reading;
mod seed;
mod settings;
mod statement;
mod store;
mod token;

pub use bench::{Bench, Definition};
pub use circuit::Circuit;
pub use counts::Counts;
pub use cut::Cut;
pub use document::Document;
pub use driver::Driver;
pub use fault::{BenchCause, BenchFault, SettingsFault};
pub use laws::{accepted_laws, circuit_laws, refusal_laws};
pub use lines::next_line;
pub use nets::Nets;
pub use reading::read_bench;
pub use seed::TextSeed;
