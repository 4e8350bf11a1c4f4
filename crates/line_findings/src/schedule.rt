//! What is wrong with a schedule.
ghost use Rattle.finding_words.specs.Words.{IsWithin};
ghost use Rattle.std.specs.Prelude.{◌≡◌, ◌+◌, ◌<◌, ◌≤◌, length, IfOk};

use crate::returns::stray_return;
use Piece::{Number, Quoted, Text};
use finding_words::{
    Finding, Kind, Look, Piece, Word, line_behind, line_of, misplaced, word_behind, word_from,
};
use std::alloc::{AllocError, Global};
use text_numbers::{is_numeral, number_up_to};
use text_places::Source;

const MOST_NUMBER: u64 = 4_294_967_295;

/// What the line of a number of a schedule is refused for: a number that is too large, or its form.
pub fn of_schedule(
    alloc: Global,
    source: Source<'_>,
    line: u64,
    is_large: bool,
) -> Result<Finding, AllocError>
    ensures { IfOk result (λ finding. finding.at ≤ length source.entry.text.now) }
{
    let look = Look::of(alloc, source.text)?;
    if look != Look::Other {
        return misplaced(alloc, look, Kind::Schedule);
    }
    let line = line_of(source.text, line);
    let first = word_from(source.text, line.at);
    if is_large {
        return too_large(alloc, source.text, &first);
    }
    match stray_return(alloc, &line)? {
        Some(finding) => Ok(finding),
        None => no_event(alloc, source.text, &first, line.text.trim_ascii()),
    }
}

/// An event of which a number is too large.
fn too_large(alloc: Global, text: &[u8], first: &Word<'_>) -> Result<Finding, AllocError>
    requires { IsWithin (length text.now) first.now }
    ensures { IfOk result (λ finding. finding.at ≤ length text.now) }
{
    let second = word_behind(text, first);
    let number = if is_too_large(second.text) {
        second
    } else {
        word_behind(text, &second)
    };
    let cause = [
        Text("the numbers of a schedule go up to "),
        Number(MOST_NUMBER),
    ];
    Finding::at(alloc, &number, &cause, &[])
}

/// A line that is no event.
fn no_event(
    alloc: Global,
    text: &[u8],
    first: &Word<'_>,
    line: &[u8],
) -> Result<Finding, AllocError>
    ensures { IfOk result (λ finding. finding.at ≡ first.now.at) }
{
    let whole = Word::of(text, first.at, line.len());
    let advice =
        "an event is `deliver M`, `advance B S` or `commit`; a comment is a line that begins with #";
    Finding::at(
        alloc,
        &whole,
        &[Quoted(line), Text(" is no event")],
        &[Text(advice)],
    )
}

fn is_too_large(word: &[u8]) -> bool {
    is_numeral(word) && number_up_to(MOST_NUMBER, word).is_none()
}

/// The first word of the event with this number, from 1, of the last one where there are fewer.
fn event_at(text: &[u8], number: u64) -> Word<'_>
    ensures { IsWithin (length text.now) result }
{
    let mut at = 0usize;
    let mut count = 0u64;
    let mut last = Word { at: 0, text: &[] };
    while at < text.len() {
        let behind = line_behind(text, at);
        let word = word_from(&text[at..behind], 0);
        if !matches!(word.text, [] | [b'#', ..]) {
            count = count.saturating_add(1);
            last = word_from(text, at);
        }
        if count == number {
            return last;
        }
        at = behind;
    }
    last
}

/// What an event names that isn't there.
#[derive(Clone, Copy)]
pub enum Lack {
    Message,
    Block,
    /// It is refused for anything else.
    Other,
}

/// What an event is about, by its number from 1, that is refused.
pub fn of_event(
    alloc: Global,
    source: Source<'_>,
    number: u64,
    lack: Lack,
) -> Result<Finding, AllocError>
    ensures { IfOk result (λ finding. finding.at ≤ length source.entry.text.now) }
{
    let first = event_at(source.text, number);
    let operand = word_from(source.text, first.at + first.text.len());
    match lack {
        Lack::Message => no_message(alloc, &operand, number),
        Lack::Block => no_block(alloc, &operand),
        Lack::Other => Finding::at(
            alloc,
            &operand,
            &[Text("event "), Number(number), Text(" is refused")],
            &[],
        ),
    }
}

fn no_message(alloc: Global, operand: &Word<'_>, number: u64) -> Result<Finding, AllocError>
    ensures { IfOk result (λ finding. finding.at ≡ operand.now.at) }
{
    let cause = [
        Text("when event "),
        Number(number),
        Text(" comes, no message "),
        Quoted(operand.text),
        Text(" is in flight"),
    ];
    let advice = "messages are counted from 0, and later ones move up when one is delivered";
    Finding::at(alloc, operand, &cause, &[Text(advice)])
}

fn no_block(alloc: Global, operand: &Word<'_>) -> Result<Finding, AllocError>
    ensures { IfOk result (λ finding. finding.at ≡ operand.now.at) }
{
    let advice =
        "blocks are counted from 0; `warp_sim check` prints how many the settings make, and --blocks says how many an even cut has";
    Finding::at(
        alloc,
        operand,
        &[Text("there is no block "), Quoted(operand.text)],
        &[Text(advice)],
    )
}

/// What a schedule is about that leaves something to do.
pub fn of_unfinished(alloc: Global, source: Source<'_>, time: u64) -> Result<Finding, AllocError>
    ensures { IfOk result (λ finding. finding.at ≤ length source.entry.text.now) }
{
    let last = event_at(source.text, u64::MAX);
    let cause = [
        Text("behind the last event something is left to do at time "),
        Number(time),
    ];
    let advice =
        "deliver each message that is in flight, and advance each block that has event times left";
    Finding::at(alloc, &last, &cause, &[Text(advice)])
}
