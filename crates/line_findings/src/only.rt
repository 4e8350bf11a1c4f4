//! What is wrong with a text that names the nets that are told.
ghost use Rattle.std.specs.Prelude.{◌≡◌, ◌≤◌, length, IfOk};

use crate::returns::stray_return;
use Piece::{Number, Quoted, Text};
use finding_words::{
    Finding, Kind, Line, Look, Named, Piece, Word, circuit_of, first_named, line_of, misplaced,
    nearest, sentence, words_in,
};
use gate_netlist::Circuit;
use only_nets::{OnlyCause, OnlyFault};
use std::alloc::{AllocError, Global};
use text_places::Source;

/// What a fault of a text of names is about.
pub fn of_only(
    alloc: Global,
    bench: Source<'_>,
    settings: &[u8],
    names: Source<'_>,
    fault: &OnlyFault,
) -> Result<Finding, AllocError>
    ensures { IfOk result (λ finding. finding.at ≤ length names.entry.text.now) }
{
    let look = Look::of(alloc, names.text)?;
    if look != Look::Other {
        return misplaced(alloc, look, Kind::Names);
    }
    let line = line_of(names.text, fault.line);
    if let Some(finding) = stray_return(alloc, &line)? {
        return Ok(finding);
    }
    let words = words_in(alloc, &line)?;
    match (fault.cause, words.as_slice()) {
        (OnlyCause::NamedTwice, [name, ..]) => named_twice(alloc, names, name),
        (_, [_, second, ..]) => second_name(alloc, second),
        (_, [name]) => unknown(alloc, bench, settings, name),
        _ => unknown(alloc, bench, settings, &line),
    }
}

fn named_twice(alloc: Global, names: Source<'_>, name: &Word<'_>) -> Result<Finding, AllocError>
    ensures { IfOk result (λ finding. finding.at ≡ name.now.at) }
{
    let net = Quoted(name.text);
    match first_named(names, name.text) {
        Some(Named { number, .. }) => {
            let line = Number(number as u64);
            let cause = [
                Text("the net "),
                net,
                Text(" is named already, in line "),
                line,
            ];
            Finding::at(alloc, name, &cause, &[])
        }
        None => Finding::at(
            alloc,
            name,
            &[Text("the net "), net, Text(" is named already")],
            &[],
        ),
    }
}

/// A line of more than one word.
fn second_name(alloc: Global, second: &Word<'_>) -> Result<Finding, AllocError>
    ensures { IfOk result (λ finding. finding.at ≡ second.now.at) }
{
    let advice = match second.text {
        [b'#', ..] => "a comment has a line of its own, which begins with #",
        _ => "",
    };
    let cause = [
        Quoted(second.text),
        Text(" stands behind a name, and a line names one net"),
    ];
    Finding::at(alloc, second, &cause, &[Text(advice)])
}

/// A name that no net has.
fn unknown<'a>(
    alloc: Global,
    bench: Source<'a>,
    settings: &[u8],
    name: &Word<'a>,
) -> Result<Finding, AllocError>
    ensures { IfOk result (λ finding. finding.at ≡ name.now.at) }
{
    let help = unknown_help(alloc, bench, settings, name.text)?;
    let cause = [Text(bench.name), Text(" has no net "), Quoted(name.text)];
    Finding::with_help(alloc, name, &cause, help)
}

fn unknown_help(
    alloc: Global,
    bench: Source<'_>,
    settings: &[u8],
    name: &[u8],
) -> Result<String, AllocError> {
    if name.contains(&b',') {
        return String::from_str(alloc, "each name has a line of its own, without commas");
    }
    if let Some(help) = near_net(alloc, bench.text, settings, name)? {
        return Ok(help);
    }
    sentence(
        alloc,
        &[
            Text("`warp_sim nets "),
            Text(bench.name),
            Text("` lists the nets"),
        ],
    )
}

/// Asks for the net that is nearest to a name, if one is near.
fn near_net(
    alloc: Global,
    bench: &[u8],
    settings: &[u8],
    name: &[u8],
) -> Result<Option<String>, AllocError> {
    let circuit = circuit_of(alloc, bench, settings);
    match &circuit {
        Some(circuit) => near_net_of(alloc, circuit, name),
        None => Ok(None),
    }
}

fn near_net_of(
    alloc: Global,
    circuit: &Circuit,
    name: &[u8],
) -> Result<Option<String>, AllocError> {
    let known = nets(alloc, circuit)?;
    match nearest(known.as_slice(), name) {
        Some(near) => Ok(Some(near.question(alloc)?)),
        None => Ok(None),
    }
}

/// The names of all nets.
fn nets<'c>(alloc: Global, circuit: &'c Circuit) -> Result<Vec<&'c [u8]>, AllocError> {
    let mut names = Vec::new(alloc);
    for net in 0..circuit.nets() {
        names.push(circuit.name(net).as_bytes())?;
    }
    Ok(names)
}
