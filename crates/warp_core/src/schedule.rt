ghost use Rattle.std.specs.Prelude.{◌≡◌, ◌++◌, ◌&&◌, ℕ, List, OnOk, IfErr, option_to_list, codes};
ghost use Rattle.std.specs.Str.{bytes_eq};
ghost use Rattle.gate_netlist.specs.Gives.{Gives};
ghost use Rattle.text_numbers.specs.Numbers.{is_numeral};
ghost use Rattle.warp_core.specs.Schedule.{
  number_of,
  deliver,
  advance,
  event_of,
  begins_comment,
  meaning_of,
  schedule_of,
  out_of_memory,
  IsOfSchedule,
  words_of,
};

mod fault;
mod words;

use crate::event::Event;
pub use fault::{ScheduleCause, ScheduleFault};
use gate_netlist::next_line;
use std::alloc::{AllocError, Global};
use text_numbers::{is_numeral, number_up_to};
use words::next_word;

/// The greatest number of a schedule.
const MOST_NUMBER: u64 = 4_294_967_295;

/// The number that digits write, where it isn't too large.
fn number_of(digits: &[u8]) -> Option<u32>
    ensures { result ≡ number_of digits.now }
{
    match number_up_to(MOST_NUMBER, digits) {
        Some(number) => Some(number as u32),
        None => None,
    }
}

fn deliver(message: &[u8]) -> Result<Event, ScheduleCause>
    ensures { result ≡ deliver (number_of message.now) }
{
    match number_of(message) {
        Some(message) => Ok(Event::Deliver {
            message: message as usize,
        }),
        None => Err(ScheduleCause::NumberTooLarge),
    }
}

fn advance(block: &[u8], steps: &[u8]) -> Result<Event, ScheduleCause>
    ensures { result ≡ advance (number_of block.now) (number_of steps.now) }
{
    match (number_of(block), number_of(steps)) {
        (Some(block), Some(steps)) => Ok(Event::Advance { block, steps }),
        _ => Err(ScheduleCause::NumberTooLarge),
    }
}

/// Whether three words say that a block advances.
fn is_advance(word: &[u8], block: &[u8], steps: &[u8]) -> bool
    ensures { result ≡ (bytes_eq word.now (codes "advance") && (is_numeral block.now && is_numeral steps.now)) }
{
    word == b"advance".as_slice() && is_numeral(block) && is_numeral(steps)
}

/// The event that the first word of a line and what follows it say.
fn event_of(word: &[u8], rest: &[u8]) -> Result<Event, ScheduleCause>
    ensures { result ≡ event_of word.now (words_of rest.now) }
{
    let Some((first, rest)) = next_word(rest) else {
        return if word == b"commit".as_slice() {
            Ok(Event::Commit)
        } else {
            Err(ScheduleCause::BadLine)
        };
    };
    let Some((second, rest)) = next_word(rest) else {
        return if word == b"deliver".as_slice() && is_numeral(first) {
            deliver(first)
        } else {
            Err(ScheduleCause::BadLine)
        };
    };
    if next_word(rest).is_some() {
        return Err(ScheduleCause::BadLine);
    }
    if is_advance(word, first, second) {
        advance(first, second)
    } else {
        Err(ScheduleCause::BadLine)
    }
}

fn begins_comment(word: &[u8]) -> bool
    ensures { result ≡ begins_comment word.now }
{
    match word {
        [b'#', ..] => true,
        _ => false,
    }
}

/// The event that a line says; none of a line without words, and of a comment.
#[tactic(auto, unfolding(crate::specs::Schedule::meaning_of))]
fn meaning_of(line: &[u8]) -> Result<Option<Event>, ScheduleCause>
    ensures { result ≡ meaning_of line.now }
{
    match next_word(line) {
        None => Ok(None),
        Some((word, rest)) => {
            if begins_comment(word) {
                Ok(None)
            } else {
                Ok(Some(event_of(word, rest)?))
            }
        }
    }
}

/// Adds the event of a line.
fn push_event(events: &mut Vec<Event>, event: Option<Event>) -> Result<(), AllocError>
    ensures { OnOk result (events.new.items ≡ events.old.items ++ option_to_list event) }
{
    match event {
        None => Ok(()),
        Some(event) => {
            events.push(event)?;
            Ok(())
        }
    }
}

/// Reads a schedule text: the events that it lists, or its first fault with the line.
pub fn read_schedule(alloc: Global, text: &[u8]) -> Result<Vec<Event>, ScheduleFault>
    ensures { Gives out_of_memory (λ events. events.items) result (schedule_of text.now) }
{
    let mut events = Vec::new(alloc);
    let mut number = 1;
    let mut rest = Some(text);
    while let Some(text) = rest {
        let (line, after) = next_line(text);
        match meaning_of(line) {
            Ok(event) => push_event(&mut events, event)?,
            Err(cause) => {
                return Err(ScheduleFault {
                    line: number,
                    cause,
                });
            }
        }
        number += 1;
        rest = after;
    }
    Ok(events)
}

/// What is true of refusals: no schedule text is refused for want of memory. So Memory is never the fault of a text,
/// and each other fault that the reader answers is.
pub fn schedule_laws()
    ensures { (text : List ℕ) → IfErr (schedule_of text) IsOfSchedule }
{}
