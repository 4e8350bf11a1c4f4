//! Words to be told at once.
ghost use Rattle.std.specs.Prelude.{◌≡◌, ◌<◌, ◌++◌, [], IfOk, OnOk, OnErr, length};
ghost use Rattle.warp_stores.specs.Inner.Stops.{total};
ghost use Rattle.warp_stores.specs.Shown.Stops.{dated};
ghost use Rattle.warp_stores.specs.Dated.{at, undated};

use crate::place::{append_all, part};
use crate::stop::{Stop, TIMES};
use std::alloc::{AllocError, Global};
use std::marker::Model;

/// Words at times, in any order of times.
#[derive(Debug, Drop)]
pub struct Batch<T> {
    pub(crate) stops: Vec<Stop>,
    pub(crate) words: Vec<T>,
}

impl<T> Model for Batch<T> {
    ghost use Rattle.std.specs.Prelude.{◌≡◌, List, length};
    ghost use Rattle.warp_stores.specs.Dated.{Dated};

    ghost Value = { List (Dated T) };

    ghost use Rattle.warp_stores.specs.Inner.Stops.{total};
    ghost use Rattle.warp_stores.specs.Shown.Stops.{dated};

    ghost view = { λ batch. dated batch.stops.items batch.words.items };

    ghost invariant = { λ batch. total batch.stops.items ≡ length batch.words.items };
}

impl<T: Copy> Batch<T> {
    /// No word.
    pub fn new(alloc: Global) -> Batch<T>
        ensures { result ≡ [] }
    {
        Batch {
            stops: Vec::new(alloc),
            words: Vec::new(alloc),
        }
    }

    /// Has no word any more.
    pub fn clear(&mut self)
        ensures { self.new ≡ [] }
    {
        self.stops.clear();
        self.words.clear();
    }

    /// Appends the words of a time. An error is a refused growth; then all stays.
    pub fn append_all(&mut self, time: u64, words: &[T]) -> Result<(), AllocError>
        requires { time < TIMES }
        ensures ok { OnOk result (self.new ≡ self.old ++ at time words.now) }
        ensures err { OnErr result (self.new ≡ self.old) }
    {
        append_all(&mut self.stops, &mut self.words, time, words)
    }

    /// The words, without their times.
    pub fn words(&self) -> &[T]
        ensures { result.now ≡ undated self.now }
    {
        self.words.as_slice()
    }

    /// Lists the words with their times. An error is a refused growth.
    pub fn list(&self, alloc: Global) -> Result<Vec<(u64, T)>, AllocError>
        ensures { IfOk result (λ list. list.items ≡ self.now) }
    {
        list_stops(alloc, self.stops.as_slice(), self.words.as_slice())
    }
}

/// The words of stops, with their times.
fn list_stops<T: Copy>(
    alloc: Global,
    stops: &[Stop],
    words: &[T],
) -> Result<Vec<(u64, T)>, AllocError>
    requires whole { total stops.now ≡ length words.now }
    ensures { IfOk result (λ list. list.items ≡ dated stops.now words.now) }
{
    let mut list = Vec::with_capacity(alloc, words.len())?;
    let mut listed = 0;
    for stop in stops {
        let end = listed + stop.count() as usize;
        list_at(stop.time(), part(words, listed, end), &mut list)?;
        listed = end;
    }
    Ok(list)
}

/// Puts words behind a list, with their time.
fn list_at<T: Copy>(time: u64, words: &[T], list: &mut Vec<(u64, T)>) -> Result<(), AllocError>
    ensures ok { OnOk result (list.new.items ≡ list.old.items ++ at time words.now) }
{
    for word in words {
        list.push((time, *word))?;
    }
    Ok(())
}
