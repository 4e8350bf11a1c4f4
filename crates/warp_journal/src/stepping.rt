//! What a step does to the parts of a journal, and how it is taken back.
ghost use Rattle.std.specs.Prelude.{◌≡◌, ◌≤◌, ◌<◌, ◌++◌, OnOk, OnErr, length, map};
ghost use Rattle.std.specs.List.{All, flat_map};
ghost use Rattle.warp_stores.specs.Dated.{at, last_time};
ghost use Rattle.warp_stores.specs.Delays.{due_by, made_since, AreReadUpTo};
ghost use Rattle.warp_stores.specs.Order.{AreApart, by_place};
ghost use Rattle.warp_gates.specs.Cells.{HaveRestored};
ghost use Rattle.warp_journal.specs.Books.{Parts, all_of};
ghost use Rattle.warp_journal.specs.Inner.Parts.{AreRead, AreUpTo, AreStepped, AreHalfStepped, AreTakenBack, words_of};

use crate::queues::{Queues, put_all};
use std::alloc::AllocError;
use warp_gates::{Gates, Put};
use warp_stores::{Delays, NEVER, Order, Steps, TIMES, Word};

/// Lists the words of a step, in order of places: what is due, which is read, and what is brought from outside. An error is a
/// refused growth; then all queues stay.
pub(crate) fn take_words(
    queues: &mut Queues,
    time: u64,
    outside: &[Word],
    order: &mut Order,
    words: &mut Vec<Word>,
) -> Result<(), AllocError>
    requires time { time < NEVER }
    requires read { AreReadUpTo time (all_of queues.old) }
    requires apart { AreApart (flat_map (due_by time) (all_of queues.old) ++ outside.now) }
    ensures words { OnOk result (words.new.items ≡ by_place (flat_map (due_by time) (all_of queues.old) ++ outside.now)) }
    ensures read { OnOk result (AreRead time queues.old queues.new) }
    ensures err { OnErr result (queues.new ≡ queues.old) }
{
    words.clear();
    queues.take_due(time, words)?;
    match put_in_order(outside, order, words) {
        Ok(()) => Ok(()),
        Err(error) => {
            queues.put_back(time);
            Err(error)
        }
    }
}

/// Puts what is brought from outside behind other words, and all in order of places.
fn put_in_order(
    outside: &[Word],
    order: &mut Order,
    words: &mut Vec<Word>,
) -> Result<(), AllocError>
    requires { AreApart (words.old.items ++ outside.now) }
    ensures { OnOk result (words.new.items ≡ by_place (words.old.items ++ outside.now)) }
{
    if !outside.is_empty() {
        words.extend_from_slice(outside)?;
    }
    order.sort(words)
}

/// Puts words behind their queues, of which what is due was read, and what came true behind the history. An error is a refused
/// growth; then the history stays, and some words are put.
pub(crate) fn book_step(
    queues: &mut Queues,
    history: &mut Steps<Word>,
    time: u64,
    words: &[Word],
    puts: &[Put],
) -> Result<(), AllocError>
    requires time { time < TIMES }
    requires queue { All (λ put. put.queue < length (all_of queues.old)) puts.now }
    requires order { AreUpTo time (all_of queues.old) }
    requires came { last_time history.old ≤ time }
    ensures queues { (before : Parts) → AreRead time before queues.old → OnOk result (AreStepped time puts.now before queues.new) }
    ensures history { OnOk result (history.new ≡ history.old ++ at time words.now) }
    ensures half { (before : Parts) → AreRead time before queues.old → OnErr result (AreHalfStepped time before queues.new) }
    ensures err { OnErr result (history.new ≡ history.old) }
{
    put_all(queues, time, puts)?;
    history.append_all(time, words)
}

/// Gives back what places put out before the words that a step and later ones put behind some queues.
fn restore_from(gates: &mut Gates, queues: &Delays, step: u64)
    requires { All (λ word. word.place < length gates.old.cells) (flat_map (made_since step) queues.now) }
    ensures cells { gates.new.cells ≡ gates.old.cells }
    ensures queues { gates.new.queues ≡ gates.old.queues }
    ensures values { gates.new.values ≡ gates.old.values }
    ensures outputs { HaveRestored (flat_map (made_since step) queues.now) gates.old gates.new }
{
    gates.law();
    let mut left = queues.len();
    while left > 0 {
        left -= 1;
        gates.restore(queues.made_since(left, step));
        gates.law();
    }
}

/// The same of all queues.
pub(crate) fn restore_all(gates: &mut Gates, queues: &Queues, step: u64)
    requires { All (λ word. word.place < length gates.old.cells) (flat_map (made_since step) (all_of queues.now)) }
    ensures cells { gates.new.cells ≡ gates.old.cells }
    ensures queues { gates.new.queues ≡ gates.old.queues }
    ensures values { gates.new.values ≡ gates.old.values }
    ensures outputs { HaveRestored (flat_map (made_since step) (all_of queues.now)) gates.old gates.new }
{
    gates.law();
    restore_from(gates, &queues.unread, step);
    gates.law();
    restore_from(gates, &queues.read, step);
}

/// Gives back what places put out before some words.
fn restore_puts(gates: &mut Gates, puts: &[Put])
    requires { All (λ word. word.place < length gates.old.cells) (words_of puts.now) }
    ensures cells { gates.new.cells ≡ gates.old.cells }
    ensures queues { gates.new.queues ≡ gates.old.queues }
    ensures values { gates.new.values ≡ gates.old.values }
    ensures outputs { HaveRestored (words_of puts.now) gates.old gates.new }
{
    gates.law();
    let mut left = puts.len();
    while left > 0 {
        left -= 1;
        gates.restore(&[puts[left].word]);
        gates.law();
    }
}

/// Takes a step's words back from gates, and gives back what it put out.
pub(crate) fn take_back(gates: &mut Gates, words: &[Word], puts: &[Put])
    requires words { All (λ word. word.place < length gates.old.cells) words.now }
    requires puts { All (λ word. word.place < length gates.old.cells) (words_of puts.now) }
    ensures { AreTakenBack words.now (words_of puts.now) gates.old gates.new }
{
    gates.undo(words);
    gates.law();
    restore_puts(gates, puts);
}
