ghost use Rattle.std.specs.Prelude.{◌≡◌, take, drop};
ghost use Rattle.gate_vcd.specs.Changes.{is_mark, form_by, form_of};

use crate::digits::{are_values, value_of};
use crate::keyword::{is_end, is_word};
use text_numbers::is_numeral;

/// What a word among the changes of a stimulus is.
#[derive(Clone, Copy, Debug, PartialEq, Eq)]
pub enum Form {
    /// `#` and a time.
    Stamp,
    /// A digit, and the code that takes it.
    Scalar,
    /// Digits; the next word is the code.
    Vector,
    /// A value that is read over; the next word is the code.
    Unvalued,
    /// A word that is read over.
    Mark,
    /// The first word of a command that is read over.
    Command,
    /// A word that may not stand there.
    Bad,
}

fn is_mark(text: &[u8]) -> bool
    ensures { result ≡ is_mark text.now }
{
    is_word(text, b"$dumpvars")
        || is_word(text, b"$dumpall")
        || is_word(text, b"$dumpon")
        || is_word(text, b"$dumpoff")
        || is_end(text)
}

/// The first byte of a text.
pub fn first_of(text: &[u8]) -> &[u8]
    ensures { result.now ≡ take 1 text.now }
{
    match text {
        [_, ..] => &text[..1],
        [] => &[],
    }
}

/// The text after its first byte.
pub fn after_first(text: &[u8]) -> &[u8]
    ensures { result.now ≡ drop 1 text.now }
{
    match text {
        [_, rest @ ..] => rest,
        [] => &[],
    }
}

fn form_by(first: u8, rest: &[u8]) -> Form
    ensures { result ≡ form_by first rest.now }
{
    match first {
        b'#' if is_numeral(rest) => Form::Stamp,
        b'#' => Form::Bad,
        b'b' | b'B' if are_values(rest) => Form::Vector,
        b'b' | b'B' => Form::Bad,
        b'r' | b'R' if rest.is_empty() => Form::Bad,
        b'r' | b'R' | b's' | b'S' => Form::Unvalued,
        _ if !rest.is_empty() && value_of(first).is_some() => Form::Scalar,
        _ => Form::Bad,
    }
}

/// What a word is among the changes.
pub fn form_of(text: &[u8]) -> Form
    ensures { result ≡ form_of text.now }
{
    if text.starts_with(b"$") {
        return if is_mark(text) {
            Form::Mark
        } else {
            Form::Command
        };
    }
    match text {
        [first, rest @ ..] => form_by(*first, rest),
        [] => Form::Bad,
    }
}
