//! What findings are made of: what is wrong with a text that was refused, and where.
//!
//! A [`Finding`] is a place of a text and what is said of it, a sentence put together from its [`Piece`]s. Here is what those
//! who find something share, of whichever text: its words and lines, the pieces of a bench's line, names that are near to
//! others, what a text looks like that stands where another is expected, and the circuit that a bench and settings give.
//! Of what a text looks like only that is promised which its first bytes tell, and nothing of what helps a text of another
//! kind. The definitions that contracts cite stand in `specs/Words`, `specs/Sentences`, `specs/Names`, `specs/Looks` and
//! `specs/Circuits`.
#![tactic(auto)]

mod causes;
mod circuit;
mod finding;
mod form;
mod lines;
mod look;
mod near;
mod sentences;
mod words;

pub use causes::{Kind, misplaced, mistaken};
pub use circuit::circuit_of;
pub use finding::{Finding, Said};
pub use form::{State, break_of, defined, pieces};
pub use lines::{Named, first_named, words_in};
pub use look::Look;
pub use near::{NearName, nearest, path_to};
pub use sentences::{Piece, sentence};
pub use words::{
    Line, Word, is_space, line_at, line_behind, line_of, without_end, word_at, word_behind,
    word_from,
};
