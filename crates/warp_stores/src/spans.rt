//! Lists that get many words at once: those of a span of places, and then those of the next one, so that the ends of the
//! lists of a span stay near.
ghost use Rattle.std.specs.Prelude.{◌≡◌, ◌<◌, ◌^◌, ◌∷◌, [], OnOk, OnErr, length, map};
ghost use Rattle.std.specs.List.{All};
ghost use Rattle.warp_stores.specs.Lists.{AreLonger};
ghost use Rattle.warp_stores.specs.Dated.{at};
ghost use Rattle.warp_stores.specs.Shown.Lists.{lists_of};
ghost use Rattle.warp_stores.specs.Inner.Spans.{words_within, AreGrown, AreCut};
ghost use Rattle.warp_stores.specs.Inner.Stops.{total};
ghost use Rattle.warp_stores.specs.Shown.Stops.{dated};

use crate::lists::push_one;
use crate::place::part;
use crate::stop::Stop;
use crate::word::Word;
use gate_values::Change;
use std::alloc::AllocError;

/// So many lists, with the ends of what they hold, stay near a processor.
const SPAN: usize = 16384;

/// There are hardly more spans than these, since the words are looked at once for each.
const MOST_SPANS: usize = 16;

/// Puts the words of stops behind the lists of their places, those of one span of places after those of another. An error is
/// a refused growth; then some are put.
pub(crate) fn push_spans(
    lists: &mut Vec<Vec<Change>>,
    stops: &[Stop],
    words: &[Word],
) -> Result<(), AllocError>
    requires whole { total stops.now ≡ length words.now }
    requires fits { total stops.now < 2 ^ 64 }
    requires within { All (λ word. word.place < length lists.old.items) words.now }
    ensures ok { OnOk result (AreLonger (dated stops.now words.now) (lists_of lists.old.items) (lists_of lists.new.items)) }
    ensures err { OnErr result (AreGrown (lists_of lists.old.items) (lists_of lists.new.items)) }
{
    let span = span_of(lists.len());
    let mut from = 0;
    while from < lists.len() {
        let to = from.saturating_add(span);
        push_span(lists, from, to, stops, words)?;
        from = to;
    }
    Ok(())
}

/// How many places a span of so many has.
fn span_of(places: usize) -> usize
    ensures { 0 < result }
{
    SPAN.max(places / MOST_SPANS)
}

/// Puts the words of stops behind the lists of their places where these are from one up to another. An error is a refused
/// growth; then some are put.
fn push_span(
    lists: &mut Vec<Vec<Change>>,
    from: usize,
    to: usize,
    stops: &[Stop],
    words: &[Word],
) -> Result<(), AllocError>
    requires whole { total stops.now ≡ length words.now }
    requires fits { total stops.now < 2 ^ 64 }
    requires within { All (λ word. word.place < length lists.old.items) words.now }
    ensures ok { OnOk result (AreLonger (words_within from to (dated stops.now words.now)) (lists_of lists.old.items) (lists_of lists.new.items)) }
    ensures err { OnErr result (AreGrown (lists_of lists.old.items) (lists_of lists.new.items)) }
{
    let mut read = 0;
    for stop in stops {
        let end = read + stop.count() as usize;
        push_within(lists, from, to, stop.time(), part(words, read, end))?;
        read = end;
    }
    Ok(())
}

/// Puts the words of a time behind the lists of their places where these are from one up to another. An error is a refused
/// growth; then some are put.
fn push_within(
    lists: &mut Vec<Vec<Change>>,
    from: usize,
    to: usize,
    time: u64,
    words: &[Word],
) -> Result<(), AllocError>
    requires { All (λ word. word.place < length lists.old.items) words.now }
    ensures ok { OnOk result (AreLonger (words_within from to (at time words.now)) (lists_of lists.old.items) (lists_of lists.new.items)) }
    ensures err { OnErr result (AreGrown (lists_of lists.old.items) (lists_of lists.new.items)) }
{
    for word in words {
        push_if(lists, from, to, time, *word)?;
    }
    Ok(())
}

/// Puts a word of a time behind the list of its place where this is from one up to another. An error is a refused growth;
/// then all lists stay.
#[inline]
fn push_if(
    lists: &mut Vec<Vec<Change>>,
    from: usize,
    to: usize,
    time: u64,
    word: Word,
) -> Result<(), AllocError>
    requires { word.place < length lists.old.items }
    ensures ok { OnOk result (AreLonger (words_within from to (at time (word ∷ []))) (lists_of lists.old.items) (lists_of lists.new.items)) }
    ensures err { OnErr result (lists_of lists.new.items ≡ lists_of lists.old.items) }
{
    let place = word.place() as usize;
    if from <= place && place < to {
        return push_one(lists, time, word);
    }
    Ok(())
}

/// Notes how long lists are, in place of what was noted. An error is a refused growth.
pub(crate) fn note_lens(lens: &mut Vec<usize>, lists: &[Vec<Change>]) -> Result<(), AllocError>
    ensures { OnOk result (lens.new.items ≡ map length (lists_of lists.now)) }
{
    lens.clear();
    lens.reserve(lists.len())?;
    for list in lists {
        lens.push(list.len())?;
    }
    Ok(())
}

/// Cuts lists to lengths.
pub(crate) fn cut_all(lists: &mut Vec<Vec<Change>>, lens: &[usize])
    requires { length lens.now ≡ length lists.old.items }
    ensures { AreCut (length lens.now) lens.now (lists_of lists.old.items) (lists_of lists.new.items) }
{
    for place in 0..lens.len() {
        lists[place].truncate(lens[place]);
    }
}
