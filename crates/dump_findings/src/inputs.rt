//! What is wrong with a stimulus that doesn't give an input.
ghost use Rattle.std.specs.Prelude.{◌≡◌, ◌≤◌, length, IfOk, IfSome};
ghost use Rattle.finding_words.specs.Words.{IsWithin};
ghost use Rattle.dump_findings.specs.Places.{IsFoundIn};

use crate::variables::{Variable, Wanted, find_variable};
use Piece::{Quoted, Text};
use finding_words::{
    Finding, Kind, Look, Piece, Word, circuit_of, defined, line_at, line_behind, misplaced, pieces,
};
use gate_netlist::Circuit;
use gate_vcd::StimCause;
use std::alloc::{AllocError, Global};
use text_places::Source;

/// A finding, in the text to which it belongs.
#[derive(Drop)]
pub enum Found {
    InStimulus(Finding),
    InBench(Finding),
}

/// What a fault of a stimulus is about that doesn't give the input of this number.
pub fn of_input(
    alloc: Global,
    bench: Source<'_>,
    settings: &[u8],
    stimulus: Source<'_>,
    cause: StimCause,
    net: u64,
) -> Result<Found, AllocError>
    ensures { IfOk result (IsFoundIn (length stimulus.entry.text.now) (length bench.entry.text.now)) }
{
    let look = Look::of(alloc, stimulus.text)?;
    if !matches!(look, Look::Dump | Look::Other) {
        return Ok(Found::InStimulus(misplaced(alloc, look, Kind::Stimulus)?));
    }
    let circuit = circuit_of(alloc, bench.text, settings);
    let input = circuit
        .as_ref()
        .map_or(Input::UNKNOWN, |circuit| Input::of(circuit, net));
    match cause {
        StimCause::NotScalar => {
            let finding = not_scalar(alloc, stimulus.text, &input)?;
            Ok(Found::InStimulus(finding))
        }
        _ => missing(alloc, bench, stimulus, &input),
    }
}

/// An input, and the scope in which its variable stands, where the settings name one.
#[derive(Clone, Copy)]
struct Input<'c> {
    name: &'c str,
    scope: Option<&'c [u8]>,
}

impl<'c> Input<'c> {
    /// One of a circuit that can't be had.
    const UNKNOWN: Input<'static> = Input {
        name: "",
        scope: None,
    };

    /// The input of this number.
    fn of(circuit: &'c Circuit, net: u64) -> Input<'c> {
        let name = if net < u64::from(circuit.nets()) {
            circuit.name(net as u32)
        } else {
            ""
        };
        Input {
            name,
            scope: circuit.scope().map(str::as_bytes),
        }
    }

    fn bytes(&self) -> &'c [u8] {
        self.name.as_bytes()
    }
}

/// An input that variables are named for, none of which gives its bit.
fn not_scalar(alloc: Global, text: &[u8], input: &Input<'_>) -> Result<Finding, AllocError>
    ensures { IfOk result (λ finding. finding.at ≤ length text.now) }
{
    match find_variable(alloc, text, input.scope, Wanted::Named(input.bytes()))? {
        Some(variable) if variable.is_unvalued() => of_type(alloc, &variable, input.name),
        Some(variable) if variable.has_one_bit() => with_range(alloc, &variable, input.name),
        Some(variable) => vector(alloc, &variable, input.name),
        None => {
            let cause = [
                Text("no variable of one bit gives the input "),
                Quoted(input.bytes()),
            ];
            Finding::at(alloc, &front(text), &cause, &[])
        }
    }
}

/// A variable in place of a scalar whose values are no bits.
fn of_type<'a>(alloc: Global, variable: &Variable<'a>, name: &'a str) -> Result<Finding, AllocError>
    ensures { IfOk result (λ finding. finding.at ≡ variable.now.name.at) }
{
    let cause = [
        Text("the input "),
        Quoted(name.as_bytes()),
        Text(" is one bit, and this variable is of the type "),
        Quoted(variable.kind.text),
    ];
    let help = [
        Text("declare a variable of one bit, as $var wire 1 ! "),
        Text(name),
        Text(" $end"),
    ];
    Finding::at(alloc, &variable.name, &cause, &help)
}

/// A variable of one bit whose range makes another name of its own.
fn with_range<'a>(
    alloc: Global,
    variable: &'a Variable<'a>,
    name: &'a str,
) -> Result<Finding, AllocError>
    ensures { IfOk result (λ finding. finding.at ≡ variable.now.name.at) }
{
    let cause = [
        Text("by its range this variable is the bit "),
        Quoted(variable.reference()),
        Text(", which isn't the input "),
        Quoted(name.as_bytes()),
    ];
    let advice = "drop the range, or write it as [0:0]";
    Finding::at(alloc, &variable.name, &cause, &[Text(advice)])
}

/// A vector that is declared in place of a scalar.
fn vector<'a>(alloc: Global, variable: &Variable<'a>, name: &'a str) -> Result<Finding, AllocError>
    ensures { IfOk result (λ finding. finding.at ≡ variable.now.name.at) }
{
    let cause = [
        Text("the input "),
        Quoted(name.as_bytes()),
        Text(" is one bit, which this variable of size "),
        Quoted(variable.size.text),
        Text(" doesn't give"),
    ];
    let help = [
        Text("call the bits `"),
        Text(name),
        Text("[0]`, `"),
        Text(name),
        Text("[1]` and so on in the bench, or declare a variable of one bit"),
    ];
    Finding::at(alloc, &variable.name, &cause, &help)
}

/// No word, at a text's beginning.
fn front(text: &[u8]) -> Word<'_>
    ensures { result.at ≡ 0 }
{
    Word::of(text, 0, 0)
}

/// An input for which no variable is named in the scope that the settings name, or in any where they name none.
fn missing(
    alloc: Global,
    bench: Source<'_>,
    stimulus: Source<'_>,
    input: &Input<'_>,
) -> Result<Found, AllocError>
    ensures { IfOk result (IsFoundIn (length stimulus.entry.text.now) (length bench.entry.text.now)) }
{
    let text = stimulus.text;
    let name = input.bytes();
    if let Some(variable) = find_variable(alloc, text, None, Wanted::Named(name))? {
        let finding = in_another_scope(alloc, &variable, input.name)?;
        return Ok(Found::InStimulus(finding));
    }
    if let Some(variable) = find_variable(alloc, text, input.scope, Wanted::BeginsWith(name))? {
        let finding = of_more_words(alloc, &variable, input.name)?;
        return Ok(Found::InStimulus(finding));
    }
    if let Some(variable) = find_variable(alloc, text, input.scope, Wanted::InAnyCase(name))? {
        let finding = in_another_case(alloc, &variable, input.name)?;
        return Ok(Found::InStimulus(finding));
    }
    undeclared(alloc, bench, stimulus, input.name)
}

/// A variable whose name goes on behind the word that is meant, where its `$end` stands too late.
fn of_more_words<'a>(
    alloc: Global,
    variable: &'a Variable<'a>,
    name: &'a str,
) -> Result<Finding, AllocError>
    ensures { IfOk result (λ finding. finding.at ≡ variable.now.name.at) }
{
    let cause = [
        Text("no variable is named "),
        Quoted(name.as_bytes()),
        Text(", and the words of this one up to its $end make the name "),
        Quoted(variable.reference()),
    ];
    let advice = "behind the name stand its range, if it has one, and the word $end";
    Finding::at(alloc, &variable.name, &cause, &[Text(advice)])
}

fn in_another_scope(
    alloc: Global,
    variable: &Variable<'_>,
    name: &str,
) -> Result<Finding, AllocError>
    ensures { IfOk result (λ finding. finding.at ≡ variable.now.name.at) }
{
    let cause = [
        Text("this variable of the input "),
        Quoted(name.as_bytes()),
        Text(" stands in another scope than the settings ask for"),
    ];
    let advice =
        "scope = \"..\" in the settings names the scope, its levels joined by dots; without it any scope will do";
    Finding::at(alloc, &variable.name, &cause, &[Text(advice)])
}

fn in_another_case<'a>(
    alloc: Global,
    variable: &'a Variable<'a>,
    name: &'a str,
) -> Result<Finding, AllocError>
    ensures { IfOk result (λ finding. finding.at ≡ variable.now.name.at) }
{
    let cause = [
        Text("no variable is named "),
        Quoted(name.as_bytes()),
        Text(", and this one is "),
        Quoted(variable.reference()),
    ];
    let advice = "names keep their letters' case: rename one of the two";
    Finding::at(alloc, &variable.name, &cause, &[Text(advice)])
}

/// An input of which a stimulus says nothing: told at its line, or at the stimulus where it is an added clock.
fn undeclared(
    alloc: Global,
    bench: Source<'_>,
    stimulus: Source<'_>,
    name: &str,
) -> Result<Found, AllocError>
    ensures { IfOk result (IsFoundIn (length stimulus.entry.text.now) (length bench.entry.text.now)) }
{
    match defining(alloc, bench.text, name)? {
        Some(word) => {
            let finding = without_variable(alloc, &word, stimulus.name, name)?;
            Ok(Found::InBench(finding))
        }
        None => {
            let finding = without_clock(alloc, &front(stimulus.text), name)?;
            Ok(Found::InStimulus(finding))
        }
    }
}

/// An input of a bench for which a file has no variable.
fn without_variable<'a>(
    alloc: Global,
    word: &Word<'_>,
    file: &'a str,
    name: &'a str,
) -> Result<Finding, AllocError>
    ensures { IfOk result (λ finding. finding.at ≡ word.now.at) }
{
    let cause = [
        Text(file),
        Text(" has no variable for the input "),
        Quoted(name.as_bytes()),
    ];
    let (front, end) = if name.starts_with('\\') {
        ("\\", " $end, for one \\ in front is dropped")
    } else {
        ("", " $end")
    };
    let help = [
        Text("declare it there, as $var wire 1 ! "),
        Text(front),
        Text(name),
        Text(end),
    ];
    Finding::at(alloc, word, &cause, &help)
}

/// The added clock, for which there is no variable.
fn without_clock(alloc: Global, word: &Word<'_>, name: &str) -> Result<Finding, AllocError>
    ensures { IfOk result (λ finding. finding.at ≡ word.now.at) }
{
    let cause = [
        Text("no variable is named "),
        Quoted(name.as_bytes()),
        Text(", the clock of flip-flops"),
    ];
    let advice = "declare it, or let the settings name the clock: clock = \"..\"";
    Finding::at(alloc, word, &cause, &[Text(advice)])
}

/// Where a bench defines a net.
fn defining<'a>(alloc: Global, text: &'a [u8], name: &str) -> Result<Option<Word<'a>>, AllocError>
    ensures { IfOk result (λ found. IfSome found (IsWithin (length text.entry.now))) }
{
    let mut at = 0usize;
    while at < text.len() {
        let line = line_at(text, at);
        let pieces = pieces(alloc, &line)?;
        if let Some(net) = defined(pieces.as_slice()) {
            if net.is(name) {
                return Ok(Some(net));
            }
        }
        at = line_behind(text, at);
    }
    Ok(None)
}
