//! Why nothing of two dumps is compared.
ghost use Rattle.std.specs.Prelude.{◌≡◌, ◌≤◌, length, IfOk};
ghost use Rattle.finding_words.specs.Words.{IsWithin};
ghost use Rattle.dump_findings.specs.Places.{IsMissingIn};
ghost use Rattle.dump_findings.specs.EmptyMap.{is_blank, is_silent, says_nothing};
ghost use Rattle.vcd_compare.specs.Map.{is_comment};

use crate::bits::{Bits, Both, scope_before};
use crate::compared::Compared;
use crate::stamps::last_stamp;
use crate::variables::{Wanted, find_variable};
use Piece::{Bytes, Number, Quoted, Text};
use finding_words::{Finding, Piece, Word, is_space, path_to, sentence};
use gate_netlist::next_line;
use std::alloc::{AllocError, Global};
use text_numbers::number_up_to;
use text_places::Source;
use vcd_compare::Options;

/// How many bits are looked for in other scopes.
const MOST_TRIED: usize = 20;

const MOST_STAMP: u64 = 1_000_000_000_000_000_000;

/// A finding, in the dump to which it belongs.
#[derive(Drop)]
pub enum Missing {
    InExpected(Finding),
    InActual(Finding),
}

/// Why no pair, or no time, of two dumps is compared.
pub fn of_nothing(
    alloc: Global,
    options: &Options<'_>,
    texts: &Compared<'_>,
) -> Result<Missing, AllocError>
    ensures { IfOk result (IsMissingIn (length texts.now.expected.text.now) (length texts.now.actual.text.now)) }
{
    let both = Both::of(alloc, options, texts);
    match &both {
        Some(both) => missing_in(alloc, options, texts, both),
        None => Ok(Missing::InExpected(unread(alloc, texts.expected)?)),
    }
}

/// The same where memory runs out.
fn unread(alloc: Global, source: Source<'_>) -> Result<Finding, AllocError>
    ensures { IfOk result (λ finding. finding.at ≤ length source.entry.text.now) }
{
    let front = Word::of(source.text, 0, 0);
    let cause = [Text("no bit is compared at any time")];
    Finding::at(alloc, &front, &cause, &[])
}

fn missing_in(
    alloc: Global,
    options: &Options<'_>,
    texts: &Compared<'_>,
    both: &Both<'_>,
) -> Result<Missing, AllocError>
    ensures { IfOk result (IsMissingIn (length texts.now.expected.text.now) (length texts.now.actual.text.now)) }
{
    let expected = &both.expected;
    let actual = &both.actual;
    if expected.first().is_empty() {
        return Ok(Missing::InExpected(without_bits(alloc, texts.expected, expected)?));
    }
    if actual.first().is_empty() {
        return Ok(Missing::InActual(without_bits(alloc, texts.actual, actual)?));
    }
    if texts.map.is_none() && !have_common(alloc, expected, actual)? {
        return Ok(Missing::InExpected(without_pairs(alloc, texts, expected, actual)?));
    }
    Ok(Missing::InExpected(without_times(alloc, texts.expected, options)?))
}

/// A dump that has no bits in its scope.
fn without_bits(alloc: Global, source: Source<'_>, bits: &Bits<'_>) -> Result<Finding, AllocError>
    ensures { IfOk result (λ finding. finding.at ≤ length source.entry.text.now) }
{
    let place = bits.place(alloc)?;
    no_bits(alloc, source.text, place.as_str(), bits.first_of_all())
}

/// The same, by what its scope is called and the path of the first bit of all, empty where there is none.
fn no_bits<'a>(
    alloc: Global,
    text: &[u8],
    place: &'a str,
    path: &'a [u8],
) -> Result<Finding, AllocError>
    ensures { IfOk result (λ finding. finding.at ≤ length text.now) }
{
    let cause = [
        Text(place),
        Text(" has no variable whose bits can be compared"),
    ];
    if path.is_empty() {
        return Finding::at(alloc, &Word::of(text, 0, 0), &cause, &[]);
    }
    let help = [
        Quoted(path),
        Text(
            " is the first bit of the dump: --scope E=A names the scope of each dump, its levels joined by dots",
        ),
    ];
    let word = variable_of(alloc, text, path)?;
    Finding::at(alloc, &word, &cause, &help)
}

/// The name of a bit's variable, where it is declared; no word where it isn't found.
fn variable_of<'a>(alloc: Global, text: &'a [u8], path: &[u8]) -> Result<Word<'a>, AllocError>
    ensures { IfOk result (λ word. word.at ≤ length text.entry.now) }
{
    let name = match path.iter().rposition(|byte| *byte == b'.') {
        Some(dot) => path.get(dot.saturating_add(1)..).unwrap_or(path),
        None => path,
    };
    let name = match name.iter().position(|byte| *byte == b'[') {
        Some(bracket) => name.get(..bracket).unwrap_or(name),
        None => name,
    };
    match find_variable(alloc, text, None, Wanted::Named(name))? {
        Some(variable) => Ok(variable.name),
        None => Ok(Word::of(text, 0, 0)),
    }
}

/// Whether a name is in both scopes.
fn have_common(alloc: Global, expected: &Bits<'_>, actual: &Bits<'_>) -> Result<bool, AllocError> {
    let names = expected.names(alloc)?;
    Ok(names.iter().any(|name| actual.has(*name)))
}

/// Two dumps of which no name is in both scopes.
fn without_pairs(
    alloc: Global,
    texts: &Compared<'_>,
    expected: &Bits<'_>,
    actual: &Bits<'_>,
) -> Result<Finding, AllocError>
    ensures { IfOk result (λ finding. finding.at ≤ length texts.now.expected.text.now) }
{
    let own = expected.place(alloc)?;
    let other = actual.place(alloc)?;
    let help = pairs_help(alloc, expected, actual)?;
    let name = expected.first();
    let word = variable_of(alloc, texts.expected.text, name)?;
    no_pairs(alloc, &word, name, (own.as_str(), other.as_str()), help)
}

/// The same, by the name of the first bit, and what both scopes are called.
fn no_pairs<'a>(
    alloc: Global,
    word: &Word<'_>,
    name: &'a [u8],
    places: (&'a str, &'a str),
    help: String,
) -> Result<Finding, AllocError>
    ensures { IfOk result (λ finding. finding.at ≡ word.now.at) }
{
    let cause = [
        Quoted(name),
        Text(" isn't in "),
        Text(places.1),
        Text(", nor is any other bit of "),
        Text(places.0),
    ];
    Finding::with_help(alloc, word, &cause, help)
}

fn pairs_help(alloc: Global, expected: &Bits<'_>, actual: &Bits<'_>) -> Result<String, AllocError> {
    let names = expected.names(alloc)?;
    let paths = actual.paths(alloc)?;
    for name in names.iter().take(MOST_TRIED) {
        if let Some(path) = path_to(paths.as_slice(), *name) {
            return scopes_help(alloc, expected.scope(), path, *name);
        }
    }
    String::from_str(alloc, "--map FILE pairs bits of different names")
}

/// Names the scope before a name, of a path of the other dump.
fn scopes_help<'a>(
    alloc: Global,
    scope: &'a [u8],
    path: &'a [u8],
    name: &[u8],
) -> Result<String, AllocError> {
    let pieces = [
        Quoted(path),
        Text(" is there: --scope "),
        Bytes(scope),
        Text("="),
        Bytes(scope_before(path, name)),
        Text(" compares these two scopes"),
    ];
    sentence(alloc, &pieces)
}

/// Two dumps that are compared at no time, told at the last stamp of the one that is expected.
fn without_times(
    alloc: Global,
    source: Source<'_>,
    options: &Options<'_>,
) -> Result<Finding, AllocError>
    ensures { IfOk result (λ finding. finding.at ≤ length source.entry.text.now) }
{
    let last = last_stamp(source.text, source.text.len());
    let digits = last.text.strip_prefix(b"#").unwrap_or(&[]);
    let to = match options.to {
        Some(to) => to,
        None => number_up_to(MOST_STAMP, digits).unwrap_or(0),
    };
    match options.to {
        Some(_) => without_times_to(alloc, &last, options, to, "", ""),
        None => without_times_to(
            alloc,
            &last,
            options,
            to,
            ", where the dump ends",
            "--to T compares past the end too, where each bit holds its last value",
        ),
    }
}

/// The same up to a time, and what is said of it and behind it.
fn without_times_to(
    alloc: Global,
    last: &Word<'_>,
    options: &Options<'_>,
    to: u64,
    end: &'static str,
    help: &'static str,
) -> Result<Finding, AllocError>
    ensures { IfOk result (λ finding. finding.at ≡ last.now.at) }
{
    let from = Number(options.from);
    match options.strobes {
        Some((first, step)) if options.from <= to => {
            let cause = [
                Text("none of the times "),
                Number(first),
                Text(", "),
                Number(first),
                Text(" + "),
                Number(step),
                Text(" and so on is one from "),
                from,
                Text(" to "),
                Number(to),
                Text(end),
            ];
            Finding::at(alloc, last, &cause, &[Text(help)])
        }
        _ => {
            let cause = [
                Text("no time is compared, from "),
                from,
                Text(" to "),
                Number(to),
                Text(end),
            ];
            Finding::at(alloc, last, &cause, &[Text(help)])
        }
    }
}

fn is_comment(line: &[u8]) -> bool
    ensures { result ≡ is_comment line.now }
{
    match line {
        [] => false,
        [first, ..] => *first == b'#',
    }
}

fn is_blank(line: &[u8]) -> bool
    ensures { result ≡ is_blank line.now }
{
    line.iter().all(|byte| is_space(*byte))
}

/// Whether a line of a map is blank or a comment.
fn is_silent(line: &[u8]) -> bool
    ensures { result ≡ is_silent line.now }
{
    is_comment(line) || is_blank(line)
}

/// Whether no line of a map says a pair, none having a fault.
pub fn says_nothing(map: &[u8]) -> bool
    ensures { result ≡ says_nothing map.now }
{
    let mut rest = Some(map);
    while let Some(text) = rest {
        let (line, after) = next_line(text);
        if !is_silent(line) {
            return false;
        }
        rest = after;
    }
    true
}

/// A map without pairs, told at its beginning.
pub fn of_empty_map(alloc: Global, map: Source<'_>) -> Result<Finding, AllocError>
    ensures { IfOk result (λ finding. finding.at ≡ 0) }
{
    let cause = [Text("no line of this map pairs two bits")];
    let advice =
        "a line is the name in EXPECTED, white space, and the name in ACTUAL; without a map bits of one name are compared";
    Finding::at(alloc, &Word::of(map.text, 0, 0), &cause, &[Text(advice)])
}
