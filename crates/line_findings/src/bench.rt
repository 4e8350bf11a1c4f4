//! What is wrong with a bench text.
ghost use Rattle.std.specs.Prelude.{◌≡◌, ◌+◌, ◌≤◌, ℕ, length, All, IfOk, IfSome};
ghost use Rattle.finding_words.specs.Words.{IsWithin};

use Piece::{Bytes, Number, Quoted, Text};
use finding_words::{
    Finding, Kind, Line, Look, Piece, State, Word, break_of, defined, line_of, misplaced, pieces,
    without_end,
};
use gate_netlist::{BenchCause, BenchFault};
use std::alloc::{AllocError, Global};
use std::collections::BTreeSet;
use text_places::{Place, Source};

const FORMS: &str = "a line is INPUT(name), OUTPUT(name) or name = GATE(names)";

const JOINED: &str =
    "a line %% parts bench and stimulus where `run` reads both from standard input: run --until T - < FILE";

const GATES: &str =
    "the gates are AND, NAND, OR, NOR, XOR, XNOR, NOT, BUFF, BUF and DFF; examples/verilog_to_bench makes a bench of \
    Verilog by yosys";

const COMMENT: &str = "a comment begins with #";

/// What a fault of a bench is about.
pub fn of_bench(
    alloc: Global,
    source: Source<'_>,
    fault: &BenchFault,
) -> Result<Finding, AllocError>
    ensures { IfOk result (λ finding. finding.at ≤ length source.entry.text.now) }
{
    let look = Look::of(alloc, source.text)?;
    if !matches!(look, Look::Bench | Look::Other) {
        return misplaced(alloc, look, Kind::Bench);
    }
    let line = line_of(source.text, fault.line);
    match fault.cause {
        BenchCause::BadName => bad_name(alloc, source, &line),
        BenchCause::BadLine => bad_line(alloc, source, &line),
        BenchCause::UnknownGate => unknown_gate(alloc, &line),
        BenchCause::InputCount => input_count(alloc, &line),
        BenchCause::DrivenTwice => driven_twice(alloc, source, &line),
        BenchCause::Undriven => undriven(alloc, source, &line),
        BenchCause::TooManyNets | BenchCause::Memory => Finding::at(
            alloc,
            &line,
            &[Text("with this line there were more than 999,999 nets")],
            &[],
        ),
    }
}

/// The first byte of a line that may not stand there, or the word `$end`.
fn bad_name(alloc: Global, source: Source<'_>, line: &Line<'_>) -> Result<Finding, AllocError>
    requires { IsWithin (length source.text.now) line.now }
    ensures { IfOk result (λ finding. finding.at ≤ length source.entry.text.now) }
{
    let end = line
        .text
        .iter()
        .position(|byte| *byte == b'#')
        .unwrap_or(line.text.len());
    let code = line.text.get(..end).unwrap_or(line.text);
    let strange = code
        .iter()
        .position(|byte| !matches!(*byte, b'\t' | 32..=126));
    match strange {
        Some(place) => bad_byte(alloc, source.text, line.at.saturating_add(place)),
        None => word_end(alloc, line),
    }
}

/// The word `$end`.
fn word_end(alloc: Global, line: &Line<'_>) -> Result<Finding, AllocError>
    ensures { IfOk result (λ finding. finding.at ≤ line.now.at + length line.now.text.now) }
{
    let pieces = pieces(alloc, line)?;
    let word = pieces
        .iter()
        .find(|piece| piece.is("$end"))
        .copied()
        .unwrap_or(*line);
    let cause = [Text("no net is called `$end`, which ends commands in a dump")];
    Finding::at(alloc, &word, &cause, &[])
}

/// A byte that may not stand in a bench, by its offset.
fn bad_byte(alloc: Global, text: &[u8], at: usize) -> Result<Finding, AllocError>
    ensures { IfOk result (λ finding. finding.at ≡ at) }
{
    let rest = text.get(at..).unwrap_or(&[]);
    let letter = Word::of(text, at, letter_length(rest));
    let byte = rest.first().copied().unwrap_or(0);
    let cause = [
        Quoted(letter.text),
        Text(", byte "),
        Number(u64::from(byte)),
        Text(", may not stand in a bench outside a comment"),
    ];
    let advice = if byte == b'\r' {
        "a carriage return stands alone there: let lines end by LF or CRLF"
    } else {
        "names are of the letters, digits and signs of ASCII"
    };
    Finding::at(alloc, &letter, &cause, &[Text(advice)])
}

/// How many bytes the first letter has in UTF-8, as its first byte says.
fn letter_length(text: &[u8]) -> usize {
    match text.first() {
        Some(0xC0..=0xDF) => 2,
        Some(0xE0..=0xEF) => 3,
        Some(0xF0..=0xF7) => 4,
        _ => 1,
    }
}

fn bad_line(alloc: Global, source: Source<'_>, line: &Line<'_>) -> Result<Finding, AllocError>
    requires { IsWithin (length source.text.now) line.now }
    ensures { IfOk result (λ finding. finding.at ≤ length source.entry.text.now) }
{
    let pieces = pieces(alloc, line)?;
    if let Some(word) = foreign_comment(pieces.as_slice()) {
        return no_comment(alloc, &word);
    }
    let (found, state) = break_of(pieces.as_slice());
    match found {
        Some(word) => stray(alloc, &word, state),
        None => {
            let end = Word::of(source.text, end_of(pieces.as_slice(), line), 0);
            cut_line(alloc, &end, state, line.text.starts_with(b"%%"))
        }
    }
}

/// The first word of a line that is a comment in other languages.
fn foreign_comment<'a>(pieces: &[Word<'a>]) -> Option<Word<'a>>
    ensures { (size : ℕ) → All (IsWithin size) pieces.now → IfSome result (IsWithin size) }
{
    match pieces {
        [_, equals, ..] if equals.is("=") => None,
        [first, ..] if begins_comment(first.text) => Some(*first),
        _ => None,
    }
}

fn begins_comment(word: &[u8]) -> bool {
    matches!(word, [b'/', b'/' | b'*', ..] | [b'-', b'-', ..])
}

fn no_comment(alloc: Global, word: &Word<'_>) -> Result<Finding, AllocError>
    ensures { IfOk result (λ finding. finding.at ≡ word.now.at) }
{
    let cause = [Quoted(word.text), Text(" begins no comment in a bench")];
    Finding::at(alloc, word, &cause, &[Text(COMMENT)])
}

/// A line that ends too early, also one that parts two texts.
fn cut_line(alloc: Global, end: &Word<'_>, state: State, parts: bool) -> Result<Finding, AllocError>
    ensures { IfOk result (λ finding. finding.at ≡ end.now.at) }
{
    let cause = [
        Text("the line ends where "),
        Text(state.expects()),
        Text(" is expected"),
    ];
    let advice = if parts { JOINED } else { FORMS };
    Finding::at(alloc, end, &cause, &[Text(advice)])
}

/// A piece that may not stand where it does.
fn stray(alloc: Global, word: &Word<'_>, state: State) -> Result<Finding, AllocError>
    ensures { IfOk result (λ finding. finding.at ≡ word.now.at) }
{
    let cause = [
        Quoted(word.text),
        Text(" stands where "),
        Text(state.expects()),
        Text(" is expected"),
    ];
    let advice = match word.text {
        [b';', ..] if state == State::End =>
            "a line of a bench has no semicolon; a comment begins with #",
        [b'/', b'/', ..] => COMMENT,
        _ => FORMS,
    };
    Finding::at(alloc, word, &cause, &[Text(advice)])
}

/// Where the last piece of a line ends.
fn end_of(pieces: &[Word<'_>], line: &Line<'_>) -> usize
    ensures { (size : ℕ) → All (IsWithin size) pieces.now → IsWithin size line.now → result ≤ size }
{
    match pieces.last() {
        Some(last) => last.at.saturating_add(last.text.len()),
        None => line.at,
    }
}

/// The gate of a line.
fn gate_of<'a>(pieces: &[Word<'a>], line: &Line<'a>) -> Word<'a>
    ensures { (size : ℕ) → All (IsWithin size) pieces.now → IsWithin size line.now → IsWithin size result }
{
    pieces.get(2).copied().unwrap_or(*line)
}

fn unknown_gate(alloc: Global, line: &Line<'_>) -> Result<Finding, AllocError>
    ensures { IfOk result (λ finding. finding.at ≤ line.now.at + length line.now.text.now) }
{
    let pieces = pieces(alloc, line)?;
    let gate = gate_of(pieces.as_slice(), line);
    let cause = [Text("there is no gate "), Quoted(gate.text)];
    Finding::at(alloc, &gate, &cause, &[Text(GATES)])
}

fn input_count(alloc: Global, line: &Line<'_>) -> Result<Finding, AllocError>
    ensures { IfOk result (λ finding. finding.at ≤ line.now.at + length line.now.text.now) }
{
    let pieces = pieces(alloc, line)?;
    let gate = gate_of(pieces.as_slice(), line);
    let given = used(pieces.as_slice())
        .iter()
        .filter(|piece| is_name(piece))
        .count();
    let takes = if takes_one(&gate) {
        " takes one input, and "
    } else {
        " takes one input or more, and "
    };
    let cause = [
        Quoted(gate.text),
        Text(takes),
        Number(given as u64),
        Text(" are given"),
    ];
    Finding::at(alloc, &gate, &cause, &[])
}

/// Whether a gate has one input.
fn takes_one(gate: &Word<'_>) -> bool {
    gate.is_like("NOT") || gate.is_like("BUFF") || gate.is_like("BUF") || gate.is_like("DFF")
}

/// The first line that defines a net, by its number in the file, and how it is defined there.
fn first_definition<'a>(
    alloc: Global,
    source: Source<'a>,
    net: &[u8],
) -> Result<Option<Word<'a>>, AllocError> {
    let mut at = 0usize;
    for line in source.text.split_inclusive(|byte| *byte == b'\n') {
        let pieces = pieces(alloc, &Word { at, text: line })?;
        if defined(pieces.as_slice()).is_some_and(|found| found.text == net) {
            return Ok(Some(Word {
                at,
                text: without_end(line),
            }));
        }
        at = at.saturating_add(line.len());
    }
    Ok(None)
}

/// The net that a line defines, else the line.
fn net_of<'a>(alloc: Global, line: &Line<'a>) -> Result<Word<'a>, AllocError>
    ensures { IfOk result (IsWithin (line.now.at + length line.now.text.now)) }
{
    let pieces = pieces(alloc, line)?;
    match defined(pieces.as_slice()) {
        Some(net) => Ok(net),
        None => Ok(*line),
    }
}

fn driven_twice<'a>(
    alloc: Global,
    source: Source<'a>,
    line: &Line<'a>,
) -> Result<Finding, AllocError>
    requires { IsWithin (length source.text.now) line.now }
    ensures { IfOk result (λ finding. finding.at ≤ length source.entry.text.now) }
{
    let net = net_of(alloc, line)?;
    let named = Quoted(net.text);
    match first_definition(alloc, source, net.text)? {
        Some(first) => {
            let cause = [
                named,
                Text(" is driven twice, first in line "),
                Number(line_number(source, first.at) as u64),
                Text(": "),
                Bytes(first.text.trim_ascii()),
            ];
            Finding::at(alloc, &net, &cause, &[])
        }
        None => Finding::at(alloc, &net, &[named, Text(" is driven twice")], &[]),
    }
}

/// The number of the file's line that an offset stands in.
fn line_number(source: Source<'_>, at: usize) -> usize {
    Place::of(source.text, at)
        .line
        .saturating_add(source.lines_before)
}

/// The nets that the lines define.
fn all_defined<'a>(alloc: Global, text: &'a [u8]) -> Result<BTreeSet<&'a [u8]>, AllocError> {
    let mut nets = BTreeSet::new(alloc);
    for line in text.split_inclusive(|byte| *byte == b'\n') {
        let pieces = pieces(alloc, &Word { at: 0, text: line })?;
        if let Some(net) = defined(pieces.as_slice()) {
            nets.insert(net.text)?;
        }
    }
    Ok(nets)
}

/// The nets that a line uses.
fn used<'t, 'a>(pieces: &'t [Word<'a>]) -> &'t [Word<'a>]
    ensures { (size : ℕ) → All (IsWithin size) pieces.now → All (IsWithin size) result.now }
{
    match pieces {
        [_, equals, _, _, names @ ..] if equals.is("=") => names,
        [port, _, names @ ..] if port.is_like("OUTPUT") => names,
        _ => &[],
    }
}

/// Whether a piece is a name and no mark.
fn is_name(piece: &Word<'_>) -> bool {
    !matches!(piece.text, b"(" | b")" | b"," | b"=")
}

/// The first net that a line uses and that isn't among these.
fn first_open<'a>(pieces: &[Word<'a>], nets: &BTreeSet<&'a [u8]>) -> Option<Word<'a>>
    ensures { (size : ℕ) → All (IsWithin size) pieces.now → IfSome result (IsWithin size) }
{
    for piece in used(pieces) {
        if is_name(piece) && !nets.contains(&piece.text) {
            return Some(*piece);
        }
    }
    None
}

/// The first of the nets that has a name's letters, in any case.
fn like<'a>(nets: &BTreeSet<&'a [u8]>, name: &[u8]) -> Option<&'a [u8]> {
    for known in nets.iter() {
        if known.eq_ignore_ascii_case(name) {
            return Some(*known);
        }
    }
    None
}

fn undriven(alloc: Global, source: Source<'_>, line: &Line<'_>) -> Result<Finding, AllocError>
    requires { IsWithin (length source.text.now) line.now }
    ensures { IfOk result (λ finding. finding.at ≤ length source.entry.text.now) }
{
    let nets = all_defined(alloc, source.text)?;
    let pieces = pieces(alloc, line)?;
    let net = match first_open(pieces.as_slice(), &nets) {
        Some(net) => net,
        None => *line,
    };
    let cause = [Text("no line drives "), Quoted(net.text)];
    match like(&nets, net.text) {
        Some(near) => {
            let help = [
                Text("names keep their letters' case: is "),
                Quoted(near),
                Text(" meant?"),
            ];
            Finding::at(alloc, &net, &cause, &help)
        }
        None => Finding::at(
            alloc,
            &net,
            &cause,
            &[Text("drive it by INPUT(..) or by a gate")],
        ),
    }
}
