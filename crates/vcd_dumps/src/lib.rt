//! Value change dumps (IEEE 1364-2005, section 18), as written.
//!
//! [`write_vcd`] writes the waves of a circuit, which are those of `net_waves`, as the one text of a dump into a `Sink` of
//! `byte_sinks`, and [`dump_by`] has several threads make that text in pieces. [`write_changes`] and [`changes_dump_by`] do so
//! from changes by time alone, in the scope `top`. The definitions stand in `specs/`: `Codes` for what stands for a net, `Dump` for
//! the text.
#![tactic(auto)]

mod codes;
mod dump;
mod fault;
mod laws;
mod lines;
mod pieces;
mod workers;
mod writer;

pub use codes::{code, code_laws};
pub use dump::{first_value, write_changes, write_vcd, write_vcd_once};
pub use fault::WriteFault;
pub use laws::dump_laws;
pub use lines::letter;
pub use workers::{changes_dump_by, dump_by};
pub use writer::Writer;
