//! The words and marks of a bench line, and where its form breaks.
ghost use Rattle.std.specs.Prelude.{◌≡◌, ◌+◌, ◌≤◌, ℕ, length, All, IfOk, IfSome, OnOk};
ghost use Rattle.finding_words.specs.Looks.{expected_in};
ghost use Rattle.finding_words.specs.Words.{IsWithin};

use crate::words::{Line, Word, is_space};
use std::alloc::{AllocError, Global};

/// The words and marks of a line, up to its comment.
pub fn pieces<'a>(alloc: Global, line: &Line<'a>) -> Result<Vec<Word<'a>>, AllocError>
    ensures { IfOk result (λ pieces. All (IsWithin (line.now.at + length line.now.text.now)) pieces.items) }
{
    let mut pieces = Vec::new(alloc);
    let mut start = 0usize;
    for (place, byte) in line.text.iter().enumerate() {
        if is_mark(*byte) || is_space(*byte) || *byte == b'#' {
            add(line, start, place, &mut pieces)?;
            start = place.saturating_add(1);
        }
        if is_mark(*byte) {
            add(line, place, start, &mut pieces)?;
        }
        if *byte == b'#' {
            return Ok(pieces);
        }
    }
    add(line, start, line.text.len(), &mut pieces)?;
    Ok(pieces)
}

fn is_mark(byte: u8) -> bool {
    matches!(byte, b'(' | b')' | b',' | b'=')
}

/// Adds what stands from one place of a line to another, if anything does.
fn add<'a>(
    line: &Line<'a>,
    start: usize,
    end: usize,
    pieces: &mut Vec<Word<'a>>,
) -> Result<(), AllocError>
    requires { All (IsWithin (line.now.at + length line.now.text.now)) pieces.old.items }
    ensures { OnOk result (All (IsWithin (line.now.at + length line.now.text.now)) pieces.new.items) }
{
    match line.text.get(start..end) {
        Some(text) if !text.is_empty() => {
            pieces.push(Word {
                at: line.at.saturating_add(start),
                text,
            })?;
            Ok(())
        }
        _ => Ok(()),
    }
}

/// What stands before a piece of a line.
#[derive(Clone, Copy, PartialEq, Eq)]
pub enum State {
    Nothing,
    Port,
    PortOpen,
    PortName,
    Net,
    Equals,
    Gate,
    GateOpen,
    Comma,
    Input,
    End,
}

impl State {
    /// What stands before the next piece; none where this one may not stand there.
    fn after(self, piece: &[u8]) -> Option<State> {
        match piece {
            [mark] if is_mark(*mark) => self.after_mark(*mark),
            word => self.after_word(word),
        }
    }

    fn after_mark(self, mark: u8) -> Option<State> {
        match (self, mark) {
            (State::Port, b'(') => Some(State::PortOpen),
            (State::PortName, b')') => Some(State::End),
            (State::Net | State::Port, b'=') => Some(State::Equals),
            (State::Gate, b'(') => Some(State::GateOpen),
            (State::GateOpen | State::Input, b')') => Some(State::End),
            (State::Input, b',') => Some(State::Comma),
            _ => None,
        }
    }

    fn after_word(self, word: &[u8]) -> Option<State> {
        match self {
            State::Nothing if is_port(word) => Some(State::Port),
            State::Nothing => Some(State::Net),
            State::PortOpen => Some(State::PortName),
            State::Equals => Some(State::Gate),
            State::GateOpen | State::Comma => Some(State::Input),
            _ => None,
        }
    }

    /// What is expected there.
    pub fn expects(self) -> &'static str
        ensures { result.now ≡ expected_in self }
    {
        match self {
            State::Nothing => "a name, INPUT or OUTPUT",
            State::Port | State::Gate => "`(`",
            State::PortOpen | State::Comma => "a name",
            State::PortName => "`)`",
            State::Net => "`=`",
            State::Equals => "a gate",
            State::GateOpen => "a name or `)`",
            State::Input => "`,` or `)`",
            State::End => "the line's end",
        }
    }
}

fn is_port(word: &[u8]) -> bool {
    word.eq_ignore_ascii_case(b"INPUT") || word.eq_ignore_ascii_case(b"OUTPUT")
}

/// The first piece that may not stand where it does, none where the line ends too early, and what stands before.
pub fn break_of<'a>(pieces: &[Word<'a>]) -> (Option<Word<'a>>, State)
    ensures { (size : ℕ) → All (IsWithin size) pieces.now → IfSome result.0 (IsWithin size) }
{
    let mut state = State::Nothing;
    for piece in pieces {
        match state.after(piece.text) {
            Some(next) => state = next,
            None => return (Some(*piece), state),
        }
    }
    (None, state)
}

/// The net that a line defines.
pub fn defined<'a>(pieces: &[Word<'a>]) -> Option<Word<'a>>
    ensures { (size : ℕ) → All (IsWithin size) pieces.now → IfSome result (IsWithin size) }
{
    match pieces {
        [net, equals, ..] if equals.is("=") => Some(*net),
        [port, _, net, ..] if port.is_like("INPUT") => Some(*net),
        _ => None,
    }
}
