//! What is wrong with a map, which pairs the bits of two dumps.
ghost use Rattle.std.specs.Prelude.{◌≡◌, ◌+◌, ◌≤◌, length, IfOk};
ghost use Rattle.finding_words.specs.Words.{IsWithin};

use crate::bits::{Bits, Both};
use crate::compared::Compared;
use Piece::{Bytes, Number, Quoted, Text};
use finding_words::{
    Finding, Kind, Line, Look, Named, Piece, Word, first_named, line_of, misplaced, nearest,
    path_to, sentence, words_in,
};
use std::alloc::{AllocError, Global};
use text_places::Source;
use vcd_compare::{MapCause, MapFault, Options};

const FORM: &str = "a line is the name in EXPECTED, white space, and the name in ACTUAL";

/// What a fault of a map is about.
pub fn of_map(
    alloc: Global,
    options: &Options<'_>,
    texts: &Compared<'_>,
    map: Source<'_>,
    fault: &MapFault,
) -> Result<Finding, AllocError>
    ensures { IfOk result (λ finding. finding.at ≤ length map.entry.text.now) }
{
    let look = Look::of(alloc, map.text)?;
    if is_mistaken(look, fault.cause) {
        return misplaced(alloc, look, Kind::Map);
    }
    let line = line_of(map.text, fault.line);
    match fault.cause {
        MapCause::BadLine => bad_line(alloc, &line),
        MapCause::UnknownName => unknown_name(alloc, options, texts, &line),
        MapCause::NamedTwice => named_twice(alloc, map, &line),
    }
}

/// Whether a text is of another kind, whose lines aren't all two names.
fn is_mistaken(look: Look, cause: MapCause) -> bool {
    match look {
        Look::Other => false,
        Look::Bench | Look::Settings | Look::Verilog | Look::Vhdl => cause == MapCause::BadLine,
        _ => true,
    }
}

fn bad_line(alloc: Global, line: &Line<'_>) -> Result<Finding, AllocError>
    ensures { IfOk result (λ finding. finding.at ≤ line.now.at + length line.now.text.now) }
{
    let words = words_in(alloc, line)?;
    match words.as_slice() {
        [first, ..] if first.text.starts_with(b"#") => blank_before(alloc, first),
        [_, _, third, ..] => word_behind_pair(alloc, third),
        [word, ..] => word_alone(alloc, word),
        [] => word_alone(alloc, line),
    }
}

/// A comment that isn't the first of its line.
fn blank_before(alloc: Global, comment: &Word<'_>) -> Result<Finding, AllocError>
    ensures { IfOk result (λ finding. finding.at ≡ comment.now.at) }
{
    let cause = [Text("a blank stands before this comment")];
    let advice = "the # of a comment is the first byte of its line";
    Finding::at(alloc, comment, &cause, &[Text(advice)])
}

fn word_behind_pair(alloc: Global, word: &Word<'_>) -> Result<Finding, AllocError>
    ensures { IfOk result (λ finding. finding.at ≡ word.now.at) }
{
    let cause = [
        Quoted(word.text),
        Text(" stands behind the two names of a pair"),
    ];
    Finding::at(alloc, word, &cause, &[Text(advice_behind(word))])
}

fn word_alone(alloc: Global, word: &Word<'_>) -> Result<Finding, AllocError>
    ensures { IfOk result (λ finding. finding.at ≡ word.now.at) }
{
    let cause = [
        Quoted(word.text),
        Text(" stands alone, and a line pairs two names"),
    ];
    Finding::at(alloc, word, &cause, &[Text(FORM)])
}

fn advice_behind(word: &Word<'_>) -> &'static str {
    match word.text {
        [b'#', ..] => "a comment has a line of its own, which begins with #",
        _ => FORM,
    }
}

/// A line of two names of which one is of no bit.
fn unknown_name(
    alloc: Global,
    options: &Options<'_>,
    texts: &Compared<'_>,
    line: &Line<'_>,
) -> Result<Finding, AllocError>
    ensures { IfOk result (λ finding. finding.at ≤ line.now.at + length line.now.text.now) }
{
    let both = Both::of(alloc, options, texts);
    match &both {
        Some(both) => unknown_in(alloc, both, line),
        None => unread(alloc, line),
    }
}

/// The same where memory runs out.
fn unread(alloc: Global, line: &Line<'_>) -> Result<Finding, AllocError>
    ensures { IfOk result (λ finding. finding.at ≡ line.now.at) }
{
    let cause = [Text("one of these names is of no bit of its dump")];
    Finding::at(alloc, line, &cause, &[])
}

/// The first name of a line that is of no bit.
fn unknown_in(alloc: Global, both: &Both<'_>, line: &Line<'_>) -> Result<Finding, AllocError>
    ensures { IfOk result (λ finding. finding.at ≤ line.now.at + length line.now.text.now) }
{
    let words = words_in(alloc, line)?;
    match words.as_slice() {
        [first, second, ..] if both.expected.has(first.text) => {
            unknown(alloc, second, &both.actual, &both.expected)
        }
        [first, ..] => unknown(alloc, first, &both.expected, &both.actual),
        [] => unread(alloc, line),
    }
}

/// A name that is of none of the bits of its dump.
fn unknown(
    alloc: Global,
    name: &Word<'_>,
    bits: &Bits<'_>,
    others: &Bits<'_>,
) -> Result<Finding, AllocError>
    ensures { IfOk result (λ finding. finding.at ≡ name.now.at) }
{
    let place = bits.place(alloc)?;
    let help = unknown_help(alloc, name.text, bits, others)?;
    no_bit(alloc, name, name.text, place.as_str(), help)
}

/// The same, by the name and what its dump is called.
fn no_bit<'a>(
    alloc: Global,
    word: &Word<'_>,
    name: &'a [u8],
    place: &'a str,
    help: String,
) -> Result<Finding, AllocError>
    ensures { IfOk result (λ finding. finding.at ≡ word.now.at) }
{
    let cause = [Text(place), Text(" has no bit "), Quoted(name)];
    Finding::with_help(alloc, word, &cause, help)
}

fn unknown_help(
    alloc: Global,
    name: &[u8],
    bits: &Bits<'_>,
    others: &Bits<'_>,
) -> Result<String, AllocError> {
    let names = bits.names(alloc)?;
    if let Some(near) = nearest(names.as_slice(), name) {
        return near.question(alloc);
    }
    if others.has(name) {
        return String::from_str(
            alloc,
            "the other dump has it: the name in EXPECTED stands first",
        );
    }
    let paths = bits.paths(alloc)?;
    match path_to(paths.as_slice(), name) {
        Some(path) => sentence(
            alloc,
            &[
                Quoted(path),
                Text(" stands elsewhere: --scope E=A says which scopes are compared"),
            ],
        ),
        None => Ok(String::new(alloc)),
    }
}

/// The first word of a line, else the line.
fn first_word<'a>(alloc: Global, line: &Line<'a>) -> Result<Word<'a>, AllocError>
    ensures { IfOk result (IsWithin (line.now.at + length line.now.text.now)) }
{
    let words = words_in(alloc, line)?;
    match words.as_slice() {
        [first, ..] => Ok(*first),
        [] => Ok(*line),
    }
}

fn named_twice<'a>(alloc: Global, map: Source<'a>, line: &Line<'a>) -> Result<Finding, AllocError>
    ensures { IfOk result (λ finding. finding.at ≤ line.now.at + length line.now.text.now) }
{
    let name = first_word(alloc, line)?;
    let named = Quoted(name.text);
    let help = [Text("a bit of EXPECTED is compared with one bit of ACTUAL")];
    match first_named(map, name.text) {
        Some(Named { number, line }) => {
            let cause = [
                Text("the bit "),
                named,
                Text(" of EXPECTED has a pair already, by line "),
                Number(number as u64),
                Text(": "),
                Bytes(line.text.trim_ascii()),
            ];
            Finding::at(alloc, &name, &cause, &help)
        }
        None => {
            let cause = [
                Text("the bit "),
                named,
                Text(" of EXPECTED has a pair already"),
            ];
            Finding::at(alloc, &name, &cause, &help)
        }
    }
}
