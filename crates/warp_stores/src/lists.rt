//! Lists of changes, one for each place.
ghost use Rattle.std.specs.Prelude.{◌≡◌, ◌≤◌, ◌<◌, ◌^◌, ◌∷◌, [], IfOk, IfErr, OnOk, OnErr, length, take, replicate, get_or};
ghost use Rattle.std.specs.List.{All};
ghost use Rattle.warp_stores.specs.Lists.{AreLonger, AreShorter};
ghost use Rattle.warp_stores.specs.Dated.{at};
ghost use Rattle.warp_stores.specs.Inner.Lists.{ArePut};
ghost use Rattle.warp_stores.specs.Shown.Lists.{lists_of};
ghost use Rattle.warp_stores.specs.Inner.Stops.{total};
ghost use Rattle.warp_stores.specs.Shown.Stops.{dated};

use crate::batch::Batch;
use crate::place::part;
use crate::room::{count_words, widen_all, widen_full};
use crate::spans::{cut_all, note_lens, push_spans};
use crate::stop::Stop;
use crate::word::Word;
use gate_values::Change;
use std::alloc::{AllocError, Global};
use std::marker::Model;

/// For each place the list of its changes. The words of a time are told to the lists of their places, and taken back.
#[derive(Debug, Drop)]
pub struct Lists {
    lists: Vec<Vec<Change>>,
    // how long they were before many words came
    lens: Vec<usize>,
    // how many of these came to each
    counts: Vec<usize>,
    // the last time of a word that may come: by it a list that is full gets room
    last: u64,
}

impl Model for Lists {
    ghost use Rattle.std.specs.Prelude.{List};
    ghost use Rattle.gate_values.specs.declared.logic.Change.{Change};

    ghost Value = { List (List Change) };

    ghost use Rattle.warp_stores.specs.Dated.{at};
    ghost use Rattle.warp_stores.specs.Inner.Lists.{ArePut};
    ghost use Rattle.warp_stores.specs.Shown.Lists.{lists_of};
    ghost use Rattle.warp_stores.specs.Inner.Stops.{total};
    ghost use Rattle.warp_stores.specs.Shown.Stops.{dated};

    ghost view = { λ lists. lists_of lists.lists.items };
}

impl Lists {
    /// So many empty lists. An error is a refused growth.
    pub fn new(alloc: Global, count: usize) -> Result<Lists, AllocError>
        ensures { IfOk result (λ lists. lists ≡ replicate count []) }
    {
        let lists = empty_lists(alloc, count)?;
        Ok(Lists {
            lists,
            lens: Vec::new(alloc),
            counts: Vec::new(alloc),
            last: 0,
        })
    }

    /// The changes of a place.
    pub fn changes(&self, place: usize) -> &[Change]
        requires { place < length self.now }
        ensures { result.now ≡ get_or self.now place [] }
    {
        self.lists[place].as_slice()
    }

    /// Puts the words of a time behind the lists of their places, in order. An error is a refused growth; then all lists
    /// stay.
    pub fn append(&mut self, time: u64, words: &[Word]) -> Result<(), AllocError>
        requires { All (λ word. word.place < length self.old) words.now }
        ensures ok { OnOk result (AreLonger (at time words.now) self.old self.new) }
        ensures err { OnErr result (self.new ≡ self.old) }
    {
        match push_all(&mut self.lists, self.last, time, words) {
            Ok(()) => Ok(()),
            Err(pushed) => {
                pop_all(&mut self.lists, &words[..pushed]);
                Err(AllocError)
            }
        }
    }

    /// Gives lists room for the words of a batch, which come up to a time, and for what may come after it up to a last time. Where
    /// memory is wanted, lists stay as they are.
    pub fn make_room(&mut self, batch: &Batch<Word>, time: u64, last: u64)
        ensures { self.new ≡ self.old }
    {
        let places = self.lists.len();
        self.last = last;
        if batch.words.len() < places {
            return;
        }
        let words = batch.words.as_slice();
        if count_words(&mut self.counts, places, words).is_ok() {
            widen_all(&mut self.lists, self.counts.as_slice(), time, last);
        }
    }

    /// Puts the words of a batch behind the lists of their places, in order. An error is a refused growth; then all lists
    /// stay.
    pub fn append_batch(&mut self, batch: &Batch<Word>) -> Result<(), AllocError>
        requires { All (λ d. d.1.place < length self.old) batch.now }
        ensures ok { OnOk result (AreLonger batch.now self.old self.new) }
        ensures err { OnErr result (self.new ≡ self.old) }
    {
        if batch.words.len() < self.lists.len() {
            return self.append_few(batch);
        }
        self.append_many(batch)
    }

    /// The same where there are few words: they are put as they come.
    fn append_few(&mut self, batch: &Batch<Word>) -> Result<(), AllocError>
        requires { All (λ d. d.1.place < length self.old) batch.now }
        ensures ok { OnOk result (AreLonger batch.now self.old self.new) }
        ensures err { OnErr result (self.new ≡ self.old) }
    {
        match push_batch(
            &mut self.lists,
            self.last,
            batch.stops.as_slice(),
            batch.words.as_slice(),
        ) {
            Ok(()) => Ok(()),
            Err(pushed) => {
                pop_all(&mut self.lists, &batch.words[..pushed]);
                Err(AllocError)
            }
        }
    }

    /// The same where there are many: they are put by spans of places.
    fn append_many(&mut self, batch: &Batch<Word>) -> Result<(), AllocError>
        requires { All (λ d. d.1.place < length self.old) batch.now }
        ensures ok { OnOk result (AreLonger batch.now self.old self.new) }
        ensures err { OnErr result (self.new ≡ self.old) }
    {
        note_lens(&mut self.lens, self.lists.as_slice())?;
        match push_spans(
            &mut self.lists,
            batch.stops.as_slice(),
            batch.words.as_slice(),
        ) {
            Ok(()) => Ok(()),
            Err(error) => {
                cut_all(&mut self.lists, self.lens.as_slice());
                Err(error)
            }
        }
    }

    /// The same lists once more. An error is a refused growth.
    pub fn copy(&self, alloc: Global) -> Result<Lists, AllocError>
        ensures { IfOk result (λ lists. lists ≡ self.now) }
    {
        let lists = copies(alloc, self.lists.as_slice())?;
        Ok(Lists {
            lists,
            lens: Vec::new(alloc),
            counts: Vec::new(alloc),
            last: self.last,
        })
    }

    /// Gives the lists away.
    pub fn into_vec(self) -> Vec<Vec<Change>>
        ensures { lists_of result.items ≡ self }
    {
        self.lists
    }

    /// Takes words back: each shortens the list of its place by one.
    pub fn shorten(&mut self, words: &[Word])
        requires { All (λ word. word.place < length self.old) words.now }
        ensures { AreShorter words.now self.old self.new }
    {
        pop_all(&mut self.lists, words);
    }
}

/// So many empty lists.
fn empty_lists(alloc: Global, count: usize) -> Result<Vec<Vec<Change>>, AllocError>
    ensures { IfOk result (λ lists. lists_of lists.items ≡ replicate count []) }
{
    let mut lists = Vec::new(alloc);
    for _ in 0..count {
        lists.push(Vec::new(alloc))?;
    }
    Ok(lists)
}

/// Copies of lists.
fn copies(alloc: Global, lists: &[Vec<Change>]) -> Result<Vec<Vec<Change>>, AllocError>
    ensures { IfOk result (λ copies. lists_of copies.items ≡ lists_of lists.now) }
{
    let mut copies = Vec::with_capacity(alloc, lists.len())?;
    for list in lists {
        let mut copy = Vec::with_capacity(alloc, list.len())?;
        copy.extend_from_slice(list.as_slice())?;
        copies.push(copy)?;
    }
    Ok(copies)
}

/// Puts a word of a time behind the list of its place.
#[inline(always)]
pub(crate) fn push_one(
    lists: &mut Vec<Vec<Change>>,
    time: u64,
    word: Word,
) -> Result<(), AllocError>
    requires { word.place < length lists.old.items }
    ensures ok { OnOk result (AreLonger ((time, word) ∷ []) (lists_of lists.old.items) (lists_of lists.new.items)) }
    ensures err { OnErr result (lists_of lists.new.items ≡ lists_of lists.old.items) }
{
    let place = word.place() as usize;
    lists[place].push(Change {
        time,
        value: word.after(),
    })?;
    Ok(())
}

/// Puts the words of a time behind the lists of their places. A list that is full gets room for what may come up to a last time.
/// An error is a refused growth, and says how many words were put.
fn push_all(lists: &mut Vec<Vec<Change>>, last: u64, time: u64, words: &[Word]) -> Result<(), usize>
    requires { All (λ word. word.place < length lists.old.items) words.now }
    ensures ok { OnOk result (AreLonger (at time words.now) (lists_of lists.old.items) (lists_of lists.new.items)) }
    ensures within { IfErr result (λ pushed. pushed ≤ length words.now) }
    ensures err { IfErr result (λ pushed. AreLonger (at time (take pushed words.now)) (lists_of lists.old.items) (lists_of lists.new.items)) }
{
    for (pushed, word) in words.iter().enumerate() {
        widen_full(lists, word.place() as usize, time, last);
        match push_one(lists, time, *word) {
            Ok(()) => {}
            Err(_) => return Err(pushed),
        }
    }
    Ok(())
}

/// Puts the words of stops behind the lists of their places. A list that is full gets room for what may come up to a last time.
/// An error is a refused growth, and says how many words were put.
fn push_batch(
    lists: &mut Vec<Vec<Change>>,
    last: u64,
    stops: &[Stop],
    words: &[Word],
) -> Result<(), usize>
    requires whole { total stops.now ≡ length words.now }
    requires fits { total stops.now < 2 ^ 64 }
    requires within { All (λ word. word.place < length lists.old.items) words.now }
    ensures ok { OnOk result (AreLonger (dated stops.now words.now) (lists_of lists.old.items) (lists_of lists.new.items)) }
    ensures within { IfErr result (λ pushed. pushed ≤ length words.now) }
    ensures err { IfErr result (λ pushed. ArePut pushed words.now (lists_of lists.old.items) (lists_of lists.new.items)) }
{
    let mut pushed = 0;
    for stop in stops {
        let end = pushed + stop.count() as usize;
        match push_all(lists, last, stop.time(), part(words, pushed, end)) {
            Ok(()) => pushed = end,
            Err(more) => return Err(pushed + more),
        }
    }
    Ok(())
}

/// Shortens the list of a place by one.
fn pop_one(lists: &mut Vec<Vec<Change>>, word: Word)
    requires { word.place < length lists.old.items }
    ensures { AreShorter (word ∷ []) (lists_of lists.old.items) (lists_of lists.new.items) }
{
    let place = word.place() as usize;
    lists[place].pop();
}

/// Shortens the lists of the places of words, by one for each.
fn pop_all(lists: &mut Vec<Vec<Change>>, words: &[Word])
    requires { All (λ word. word.place < length lists.old.items) words.now }
    ensures { AreShorter words.now (lists_of lists.old.items) (lists_of lists.new.items) }
{
    for word in words {
        pop_one(lists, *word);
    }
}
