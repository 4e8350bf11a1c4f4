//! Which words of a dump are stamps.
ghost use Rattle.std.specs.Prelude.{length};
ghost use Rattle.finding_words.specs.Words.{IsWithin};

use finding_words::{Word, word_from};
use text_numbers::is_numeral;

/// What the next word of a dump belongs to.
#[derive(Clone, Copy, PartialEq, Eq)]
enum State {
    /// It opens a command of the declarations.
    Declarations,
    /// A command of the declarations.
    Declaration,
    /// The command that ends the declarations.
    LastDeclaration,
    /// It stands among the changes.
    Changes,
    /// It is the code of a change of two words.
    Code,
    /// A command among the changes.
    Command,
}

impl State {
    /// What the word behind this one belongs to.
    fn after(self, word: &[u8]) -> State {
        let ends = word == b"$end".as_slice();
        match self {
            State::Declarations if word == b"$enddefinitions".as_slice() => State::LastDeclaration,
            State::Declarations => State::Declaration,
            State::Declaration if ends => State::Declarations,
            State::LastDeclaration | State::Command if ends => State::Changes,
            State::Changes => behind_change(word),
            State::Code => State::Changes,
            within => within,
        }
    }

    fn is_among_changes(self) -> bool {
        matches!(self, State::Changes | State::Code | State::Command)
    }
}

/// What the word behind one among the changes belongs to.
fn behind_change(word: &[u8]) -> State {
    match word {
        [b'b' | b'B' | b'r' | b'R' | b's' | b'S', ..] => State::Code,
        [b'$', name @ ..] if !is_mark(name) => State::Command,
        _ => State::Changes,
    }
}

const MARKS: [&str; 5] = ["dumpvars", "dumpall", "dumpon", "dumpoff", "end"];

/// Whether a word among the changes, of this name behind its `$`, is read over alone.
fn is_mark(name: &[u8]) -> bool {
    for mark in MARKS {
        if name == mark.as_bytes() {
            return true;
        }
    }
    false
}

/// What a reader knows at an offset of a dump.
#[derive(Clone, Copy)]
struct Reading<'a> {
    state: State,
    /// The last stamp; no word where there is none.
    stamp: Word<'a>,
}

fn reading_to(text: &[u8], end: usize) -> Reading<'_>
    ensures { IsWithin (length text.now) result.stamp }
{
    let front = text.get(..end).unwrap_or(text);
    let mut state = State::Declarations;
    let mut stamp = Word { at: 0, text: &[] };
    let mut at = 0usize;
    while at < front.len() {
        let word = word_from(front, at);
        if word.text.is_empty() {
            break;
        }
        if state == State::Changes && is_stamp(word.text) {
            stamp = word;
        }
        state = state.after(word.text);
        at = word.at + word.text.len();
    }
    Reading { state, stamp }
}

fn is_stamp(word: &[u8]) -> bool {
    match word {
        [b'#', digits @ ..] => is_numeral(digits),
        _ => false,
    }
}

/// The last stamp before an offset; no word where there is none.
pub(crate) fn last_stamp(text: &[u8], end: usize) -> Word<'_>
    ensures { IsWithin (length text.now) result }
{
    reading_to(text, end).stamp
}

/// Whether the declarations have ended before an offset.
pub(crate) fn is_behind_declarations(text: &[u8], at: usize) -> bool {
    reading_to(text, at).state.is_among_changes()
}
