//! All that came, step by step.
ghost use Rattle.std.specs.Prelude.{◌≡◌, ◌≤◌, ◌<◌, ◌++◌, ◌∷◌, [], OnOk, OnErr, length};
ghost use Rattle.warp_stores.specs.Dated.{at, before, before_end, since, undated, last_time, Rises};

use crate::queue::Queue;
use crate::reader::StepReader;
use crate::stop::TIMES;
use std::alloc::{AllocError, Global};
use std::marker::Model;

/// Words at times that never fall. The words of one time are a step, and steps are cut off the end.
#[derive(Debug, Drop)]
pub struct Steps<T> {
    // None of them is read.
    words: Queue<T>,
}

impl<T> Model for Steps<T> {
    ghost use Rattle.std.specs.Prelude.{◌≡◌, List, []};
    ghost use Rattle.warp_stores.specs.Dated.{Dated, standing};

    ghost Value = { List (Dated T) };

    ghost view = { λ steps. steps.words.ahead };

    ghost invariant = { λ steps. (steps.words.dead ≡ 0) × (steps.words.read ≡ []) };
}

impl<T: Copy> Steps<T> {
    /// No step.
    pub fn new(alloc: Global) -> Steps<T>
        ensures { result ≡ [] }
    {
        Steps {
            words: Queue::new(alloc),
        }
    }

    /// What is true of all steps.
    pub fn law(&self)
        ensures { Rises self.now }
    {
        self.words.law();
    }

    /// Appends a word at a time. An error is a refused growth; then all stays.
    pub fn append(&mut self, time: u64, word: T) -> Result<(), AllocError>
        requires time { time < TIMES }
        requires order { last_time self.old ≤ time }
        ensures ok { OnOk result (self.new ≡ self.old ++ (time, word) ∷ []) }
        ensures err { OnErr result (self.new ≡ self.old) }
    {
        self.words.append(time, word)
    }

    /// Appends the words of a time. An error is a refused growth; then all stays.
    pub fn append_all(&mut self, time: u64, words: &[T]) -> Result<(), AllocError>
        requires time { time < TIMES }
        requires order { last_time self.old ≤ time }
        ensures ok { OnOk result (self.new ≡ self.old ++ at time words.now) }
        ensures err { OnErr result (self.new ≡ self.old) }
    {
        self.words.append_all(time, words)
    }

    /// The time of the last step, 0 where there is none.
    pub fn last_time(&self) -> u64
        ensures { result ≡ last_time self.now }
    {
        self.words.last_time()
    }

    /// The words that aren't before a time.
    pub fn since(&self, time: u64) -> &[T]
        ensures { result.now ≡ undated (since time self.now) }
    {
        self.words.since(time)
    }

    /// Reads the words from a time on, and before an end, if there is one. The steps stay, and can be read by others too.
    pub fn between(&self, from: u64, end: Option<u64>) -> StepReader<'_, T>
        ensures { result ≡ before_end end (since from self.now) }
    {
        self.words.between(from, end)
    }

    /// How many words there are.
    pub fn count(&self) -> usize
        ensures { result ≡ length self.now }
    {
        self.words.count_ahead()
    }

    /// The words of the last step.
    pub fn last_step(&self) -> &[T]
        ensures { result.now ≡ undated (since (last_time self.now) self.now) }
    {
        self.since(self.last_time())
    }

    /// Cuts off the words that aren't before a time.
    pub fn cut_from(&mut self, time: u64)
        ensures { self.new ≡ before time self.old }
    {
        self.words.cut_from(time);
    }
}
