//! Value change dumps (IEEE 1364-2005, section 18), as read.
//!
//! [`read_stimulus`] answers what a stimulus text gives the inputs of a circuit, a `Stimulus` of `gate_stimulus`, or its
//! first fault, with its place. The definitions stand in `specs/`: `Tokens`, `Declarations`, `Changes`, `Vectors`,
//! `Inputs` and `Stimulus`.
//!
//! Readers of dumps for other ends share the parts of this one: [`Words`], the commands of the declarations
//! ([`Declared`], [`body_of`], [`declare`]), the vectors ([`vector_of`]), and the changes ([`read_sources`]).
#![tactic(auto)]

mod bundles;
mod changes;
mod declarations;
mod digits;
mod fault;
mod form;
mod inputs;
mod items;
mod keyword;
mod known;
mod laws;
mod reading;
mod runs;
mod scopes;
mod source;
mod sources;
mod table;
mod variable;
mod vectors;
mod words;

pub use declarations::{Declared, body_of, declare, ends_declarations, scope_name};
pub use fault::{StimCause, StimFault};
pub use keyword::{Keyword, keyword_of, opens_command};
pub use laws::refusal_laws;
pub use reading::read_stimulus;
pub use scopes::Scopes;
pub use source::Source;
pub use sources::{Followed, read_sources};
pub use variable::Variable;
pub use vectors::{Vector, vector_of};
pub use words::{Word, Words};
