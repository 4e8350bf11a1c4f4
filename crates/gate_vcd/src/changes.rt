ghost use Rattle.std.specs.Prelude.{◌≡◌, ◌<◌, ◌-◌, ◌++◌, ◌∷◌, List, [], Some, get_or, length, map, set, slice_get, replicate, not, if◌then◌else◌, IfErr, IfOk, MatchResult, OnOk};
ghost use Rattle.gate_values.specs.Changes.{same};
ghost use Rattle.gate_vcd.specs.Changes.{Event, Source as TextSource, Item as TextItem, events_from, items, last_time, nothing, stamped, value_at_place};
ghost use Rattle.gate_vcd.specs.Faults.{out_of_memory};
ghost use Rattle.gate_vcd.specs.Inner.Items.{AreHeld, AreSettled, AreTaken, IsTaken, TakesItem, item_of, last_of, makes, reaches, taken_in};
ghost use Rattle.gate_vcd.specs.Inner.Settled.{settled};
ghost use Rattle.gate_vcd.specs.Inner.Known.{IsLinked, knows, sources_in};
ghost use Rattle.gate_vcd.specs.Shown.Known.{source};
ghost use Rattle.net_waves.specs.Waves.{lists_in};
ghost use Rattle.gate_vcd.specs.Reading.{Fails};
ghost use Rattle.gate_vcd.specs.Inner.Reading.{Reads};
ghost use Rattle.gate_vcd.specs.Inner.Words.{bytes_of};
ghost use Rattle.gate_vcd.specs.Shown.Words.{texts, token_of};

use crate::bundles::Bundles;
use crate::digits::{past_end, value_at_place};
use crate::fault::{StimCause, StimFault};
use crate::form::after_first;
use crate::items::{Item, next_item};
use crate::known::KnownCodes;
use crate::source::Source;
use crate::words::{Word, Words};
use gate_values::{Change, Logic};
use std::alloc::Global;
use text_numbers::number_up_to;

/// The greatest time of a stimulus.
const LAST_STAMP: u64 = 1_000_000_000_000_000_000;

/// What is kept of the changes so far.
#[derive(Drop)]
struct Taken<'a> {
    /// Of each source the list of its changes.
    lists: Bundles,
    /// Of each code, at its last source, the digits that it has.
    given: Vec<&'a [u8]>,
}

/// The time of a stamp after this time.
fn next_stamp(now: u64, word: Word) -> Result<u64, StimFault>
    ensures { Reads (λ next. next) result (stamped (token_of word.entry) now) }
{
    match number_up_to(LAST_STAMP, after_first(word.text)) {
        Some(next) if next < now => Err(word.fault(StimCause::StampFalls)),
        Some(next) => Ok(next),
        None => Err(word.fault(StimCause::StampTooLarge)),
    }
}

/// So many times no digits.
fn no_digits<'a>(alloc: Global, count: usize) -> Result<Vec<&'a [u8]>, StimFault>
    ensures ok { IfOk result (λ given. texts given.items ≡ replicate count []) }
    ensures err { IfErr result (λ e. e ≡ out_of_memory) }
{
    let mut given: Vec<&'a [u8]> = Vec::new(alloc);
    for _ in 0..count {
        given.push(&[])?;
    }
    Ok(given)
}

/// No change of so many sources.
fn nothing_taken<'a>(alloc: Global, count: usize) -> Result<Taken<'a>, StimFault>
    ensures lists { IfOk result (λ taken. taken.lists ≡ replicate count []) }
    ensures given { IfOk result (λ taken. texts taken.given.items ≡ replicate count []) }
    ensures err { IfErr result (λ e. e ≡ out_of_memory) }
{
    Ok(Taken {
        lists: Bundles::new(alloc, count)?,
        given: no_digits(alloc, count)?,
    })
}

/// The place of the source of a number.
fn place_at(sources: &[Source], number: usize) -> u64
    requires { number < length sources.now }
    ensures { (s : TextSource) → slice_get (map source sources.now) number ≡ Some s → result ≡ s.place }
{
    sources[number].place
}

fn differ(value: Logic, other: Logic) -> bool
    ensures { result ≡ not (same value other) }
{
    value != other
}

/// Whether a place may have another value under new digits than under those before.
#[tactic(auto, unfolding(crate::specs::Inner::Items::reaches))]
fn reaches(had: &[u8], digits: &[u8], place: u64) -> bool
    ensures { result ≡ reaches had.now digits.now place }
{
    place < had.len() as u64
        || place < digits.len() as u64
        || differ(past_end(had), past_end(digits))
}

/// Whether digits make a change at a place that they reach. Of several most say what stands there already; a single one
/// is taken as it is, since the ones before lie far off in the text.
#[tactic(auto, unfolding(crate::specs::Inner::Items::makes))]
fn makes(had: &[u8], digits: &[u8], place: u64) -> bool
    ensures { result ≡ makes had.now digits.now place }
{
    digits.len() <= 1 || differ(value_at_place(place, had), value_at_place(place, digits))
}

/// Takes in the change that digits make at the place of the source of a number, if they make one.
fn settle_source(
    lists: &mut Bundles,
    number: usize,
    now: u64,
    had: &[u8],
    digits: &[u8],
    place: u64,
) -> Result<(), StimFault>
    requires { number < length lists.old }
    ensures ok { OnOk result (lists.new ≡ (if makes had.now digits.now place then set lists.old number (settled (get_or lists.old number []) (record { time = now; value = value_at_place place digits.now })) else lists.old)) }
    ensures err { IfErr result (λ e. e ≡ out_of_memory) }
{
    if !makes(had, digits, place) {
        return Ok(());
    }
    let value = value_at_place(place, digits);
    lists.settle(number, Change { time: now, value })
}

/// Takes in the digits of a change at a time, for the source of this number and those before it of the same
/// code, as far as the digits reach.
fn settle_code(
    codes: &KnownCodes,
    lists: &mut Bundles,
    now: u64,
    code: &[u8],
    last: usize,
    had: &[u8],
    digits: &[u8],
) -> Result<(), StimFault>
    requires linked { IsLinked codes.now }
    requires count { length lists.old ≡ length codes.now.used.items }
    requires last { last_of (sources_in codes.now) code.now ≡ Some last }
    ensures ok { OnOk result (AreSettled (sources_in codes.now) now code.now had.now digits.now lists.old lists.new) }
    ensures err { IfErr result (λ e. e ≡ out_of_memory) }
{
    let sources = codes.used.as_slice();
    let mut next = Some(last);
    while let Some(number) = next {
        let place = place_at(sources, number);
        if !reaches(had, digits, place) {
            return Ok(());
        }
        settle_source(lists, number, now, had, digits, place)?;
        next = codes.before[number];
    }
    Ok(())
}

/// Takes in the digits of a change at a time, and keeps them.
fn take_digits<'a>(
    codes: &KnownCodes,
    taken: &mut Taken<'a>,
    now: u64,
    code: &[u8],
    last: usize,
    digits: &'a [u8],
) -> Result<(), StimFault>
    requires linked { IsLinked codes.now }
    requires last { last_of (sources_in codes.now) code.now ≡ Some last }
    requires held { (es : List Event) × AreHeld (sources_in codes.now) now es (taken_in taken.old) }
    ensures ok { (es : List Event) → AreHeld (sources_in codes.now) now es (taken_in taken.old) → OnOk result (AreHeld (sources_in codes.now) now (es ++ record { time = now; code = code.now; digits = digits.now } ∷ []) (taken_in taken.new)) }
    ensures err { IfErr result (λ e. e ≡ out_of_memory) }
{
    let had = taken.given[last];
    settle_code(codes, &mut taken.lists, now, code, last, had, digits)?;
    taken.given[last] = digits;
    Ok(())
}

/// The same, where the code has a last source; else no input takes the change.
fn take_known<'a>(
    codes: &KnownCodes,
    taken: &mut Taken<'a>,
    now: u64,
    code: &[u8],
    last: Option<usize>,
    digits: &'a [u8],
) -> Result<(), StimFault>
    requires linked { IsLinked codes.now }
    requires last { last_of (sources_in codes.now) code.now ≡ last }
    requires held { (es : List Event) × AreHeld (sources_in codes.now) now es (taken_in taken.old) }
    ensures ok { (es : List Event) → AreHeld (sources_in codes.now) now es (taken_in taken.old) → OnOk result (AreHeld (sources_in codes.now) now (es ++ record { time = now; code = code.now; digits = digits.now } ∷ []) (taken_in taken.new)) }
    ensures err { IfErr result (λ e. e ≡ out_of_memory) }
{
    match last {
        Some(last) => take_digits(codes, taken, now, code, last, digits),
        None => Ok(()),
    }
}

/// Takes in a change of a code at a time. The code must be known; a change that is read over has no digits, and
/// one of a code that no input takes leaves the lists as they are.
fn take_change<'a>(
    codes: &KnownCodes,
    taken: &mut Taken<'a>,
    now: u64,
    first: Word,
    code: &[u8],
    digits: Option<&'a [u8]>,
) -> Result<(), StimFault>
    requires linked { IsLinked codes.now }
    requires held { (es : List Event) × AreHeld (sources_in codes.now) now es (taken_in taken.old) }
    ensures { (es : List Event) → AreHeld (sources_in codes.now) now es (taken_in taken.old) → IsTaken codes.now now (token_of first.entry) code.now (bytes_of digits.entry) es (taken_in taken.new) result }
{
    match (codes.last.get(code), digits) {
        (None, _) => Err(first.fault(StimCause::UnknownCode)),
        (Some(_), None) => Ok(()),
        (Some(last), Some(digits)) => take_known(codes, taken, now, code, last, digits),
    }
}

/// Takes in an item after a time, and answers the time after it.
fn take_item<'a>(
    codes: &KnownCodes,
    taken: &mut Taken<'a>,
    now: u64,
    item: Item<'a>,
) -> Result<u64, StimFault>
    requires linked { IsLinked codes.now }
    requires held { (es : List Event) × AreHeld (sources_in codes.now) now es (taken_in taken.old) }
    ensures { (es : List Event) (others : List TextItem) → AreHeld (sources_in codes.now) now es (taken_in taken.old) → TakesItem codes.now now (item_of item.entry) others es (taken_in taken.new) result }
{
    match item {
        Item::Stamp(word) => next_stamp(now, word),
        Item::Change {
            first,
            code,
            digits,
        } => {
            take_change(codes, taken, now, first, code, digits)?;
            Ok(now)
        }
    }
}

/// The changes of a text: for each number of a source the list of its changes, and the time of the last stamp.
#[derive(Drop)]
pub struct Read {
    pub lists: Vec<Vec<Change>>,
    pub last: u64,
}

/// Reads the changes of a stimulus, for each number of a source that inputs take.
pub fn read_changes<'a>(
    alloc: Global,
    words: &mut Words<'a>,
    codes: &KnownCodes<'a>,
) -> Result<Read, StimFault>
    requires { IsLinked codes.now }
    ensures { MatchResult result (λ read. AreTaken (sources_in codes.now) (lists_in read.lists.items) read.last (events_from (knows codes.now) 0 (items nothing words.old)) × (read.last ≡ last_time 0 (items nothing words.old))) (λ e. Fails e (events_from (knows codes.now) 0 (items nothing words.old))) }
{
    let mut taken = nothing_taken(alloc, codes.used.len())?;
    let mut now = 0;
    while let Some(item) = next_item(words)? {
        now = take_item(codes, &mut taken, now, item)?;
    }
    Ok(Read {
        lists: taken.lists.into_lists()?,
        last: now,
    })
}
