//! Words that are told, in the order in which they are.
ghost use Rattle.std.specs.Prelude.{◌≡◌, ◌<◌, ◌++◌, ◌∷◌, [], IfOk, OnOk, length, get_or, map, if◌then◌else◌};
ghost use Rattle.std.specs.List.{All, filter, list_any};
ghost use Rattle.std.specs.List.Sorted.{IsPermutation, IsSortedByKey};
ghost use Rattle.net_waves.specs.Inner.Pairs.{by_pair};
ghost use Rattle.warp_sends.specs.Inner.Tellings.{word_of, has_readers, is_told, event_of, place_of};

use std::alloc::{AllocError, Global};
use warp_part::Part;
use warp_stores::{Batch, Word};

/// A word, the time at which it comes true, and the event time that made it.
#[derive(Clone, Copy, Debug)]
pub(crate) struct Telling {
    pub(crate) made: u64,
    pub(crate) time: u64,
    pub(crate) word: Word,
}

/// The words of a batch whose nets have readers. An error is a refused growth.
pub(crate) fn tellings(
    alloc: Global,
    part: &Part,
    batch: &Batch<Word>,
) -> Result<Vec<Telling>, AllocError>
    requires { All (λ d. d.1.place < length part.now.nets) batch.now }
    ensures { IfOk result (λ list. map word_of list.items ≡ filter (is_told part.now) batch.now) }
{
    let words = batch.words();
    if !have_readers(part, words) {
        return Ok(Vec::new(alloc));
    }
    let mut told = Vec::with_capacity(alloc, count_read(part, words))?;
    let list = batch.list(alloc)?;
    push_all(part, list.as_slice(), &mut told)?;
    Ok(told)
}

/// Puts words behind those that are told, where their nets have readers.
fn push_all(part: &Part, words: &[(u64, Word)], told: &mut Vec<Telling>) -> Result<(), AllocError>
    requires { All (λ d. d.1.place < length part.now.nets) words.now }
    ensures { OnOk result (map word_of told.new.items ≡ map word_of told.old.items ++ filter (is_told part.now) words.now) }
{
    for (time, word) in words {
        push_told(part, *time, *word, told)?;
    }
    Ok(())
}

/// Whether the net of one of some words has readers.
fn have_readers(part: &Part, words: &[Word]) -> bool
    requires { All (λ w. w.place < length part.now.nets) words.now }
    ensures { result ≡ list_any (λ w. has_readers part.now w.place) words.now }
{
    for word in words {
        if is_read(part, *word) {
            return true;
        }
    }
    false
}

/// How many words' nets have readers.
fn count_read(part: &Part, words: &[Word]) -> usize
    requires { All (λ w. w.place < length part.now.nets) words.now }
{
    let mut count: usize = 0;
    for word in words {
        if is_read(part, *word) {
            count = count.saturating_add(1);
        }
    }
    count
}

/// Whether the net of a word has readers.
fn is_read(part: &Part, word: Word) -> bool
    requires { word.place < length part.now.nets }
    ensures { result ≡ has_readers part.now word.place }
{
    !part.readers(word.place() as usize).is_empty()
}

/// Puts a word behind those that are told, if its net has readers.
fn push_told(part: &Part, time: u64, word: Word, told: &mut Vec<Telling>) -> Result<(), AllocError>
    requires { word.place < length part.now.nets }
    ensures { OnOk result (map word_of told.new.items ≡ map word_of told.old.items ++ (if has_readers part.now word.place then (time, word) ∷ [] else [])) }
{
    if !is_read(part, word) {
        return Ok(());
    }
    let delay = part.delay(word.place() as usize);
    told.push(Telling {
        made: time.saturating_sub(delay),
        time,
        word,
    })?;
    Ok(())
}

/// Puts words into the order of the event times that made them, then of their places.
pub(crate) fn sort_by_event(told: &mut Vec<Telling>)
    ensures same { IsPermutation told.old.items told.new.items }
    ensures sorted { IsSortedByKey event_of by_pair told.new.items }
{
    told.sort_unstable_by_key(|telling| (telling.made, telling.word.place()));
}

/// Puts words into the order of their places, then of their times.
pub(crate) fn sort_by_place(told: &mut Vec<Telling>)
    ensures same { IsPermutation told.old.items told.new.items }
    ensures sorted { IsSortedByKey place_of by_pair told.new.items }
{
    told.sort_unstable_by_key(|telling| (telling.word.place(), telling.time));
}
