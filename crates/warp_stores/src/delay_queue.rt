//! A queue of words that come true a delay after the steps that made them.
ghost use Rattle.std.specs.Prelude.{◌≡◌, ◌≤◌, ◌<◌, ◌++◌, ◌∷◌, [], OnOk, OnErr, is_none, true, false};
ghost use Rattle.warp_stores.specs.Dated.{first_time, last_time, standing};
ghost use Rattle.warp_stores.specs.Delays.{empty_after, due_of, with_made, due_by, read_by, back_from, made_since, told_since, cut_since, IsForgotten};

use crate::batch::Batch;
use crate::least::NEVER;
use crate::queue::Queue;
use crate::stop::TIMES;
use crate::word::Word;
use std::alloc::{AllocError, Global};
use std::marker::Model;

/// Words at the times of the steps that made them. They come true a delay after.
#[derive(Debug, Drop)]
pub(crate) struct DelayQueue {
    words: Queue<Word>,
    delay: u32,
}

impl Model for DelayQueue {
    ghost use Rattle.warp_stores.specs.Delays.{Delayed};

    ghost Value = { Delayed };

    ghost view = { λ queue. record { delay = queue.delay; line = queue.words } };
}

impl DelayQueue {
    /// No word.
    pub(crate) fn new(alloc: Global, delay: u32) -> DelayQueue
        ensures { result ≡ empty_after delay }
    {
        DelayQueue {
            words: Queue::new(alloc),
            delay,
        }
    }

    /// The time at which the first word ahead comes true, [`NEVER`] where none is ahead.
    pub(crate) fn due(&self) -> u64
        ensures { result ≡ due_of self.now }
    {
        self.words.law();
        match self.words.head() {
            Some(step) => step + self.delay as u64,
            None => NEVER,
        }
    }

    /// Whether no word is ahead.
    pub(crate) fn is_read(&self) -> bool
        ensures { result ≡ is_none (first_time self.now.line.ahead) }
    {
        self.words.head().is_none()
    }

    /// The last step that made a word, 0 where there is none.
    pub(crate) fn last_step(&self) -> u64
        ensures { result ≡ last_time (standing self.now.line) }
    {
        self.words.last_time()
    }

    /// Puts a word that a step made, where the last word ahead is of that step and memory is at hand, and tells whether it did.
    pub(crate) fn join(&mut self, step: u64, word: Word) -> bool
        requires order { last_time (standing self.old.line) ≤ step }
        ensures joined { result ≡ true → self.new ≡ with_made step (word ∷ []) self.old }
        ensures due { is_none (first_time self.old.line.ahead) ≡ false → result ≡ true → due_of self.new ≡ due_of self.old }
        ensures stays { result ≡ false → self.new ≡ self.old }
    {
        self.words.law();
        self.words.join(step, word)
    }

    /// Puts a word that a step made. An error is a refused growth; then all stays.
    pub(crate) fn put(&mut self, step: u64, word: Word) -> Result<(), AllocError>
        requires time { step < TIMES }
        requires order { last_time (standing self.old.line) ≤ step }
        ensures ok { OnOk result (self.new ≡ with_made step (word ∷ []) self.old) }
        ensures err { OnErr result (self.new ≡ self.old) }
        ensures due { is_none (first_time self.old.line.ahead) ≡ false → OnOk result (due_of self.new ≡ due_of self.old) }
    {
        self.words.law();
        self.words.append(step, word)
    }

    /// Puts the words that a step made. An error is a refused growth; then all stays.
    pub(crate) fn put_all(&mut self, step: u64, words: &[Word]) -> Result<(), AllocError>
        requires time { step < TIMES }
        requires order { last_time (standing self.old.line) ≤ step }
        ensures ok { OnOk result (self.new ≡ with_made step words.now self.old) }
        ensures err { OnErr result (self.new ≡ self.old) }
        ensures due { is_none (first_time self.old.line.ahead) ≡ false → OnOk result (due_of self.new ≡ due_of self.old) }
    {
        self.words.law();
        self.words.append_all(step, words)
    }

    /// Reads the words ahead that come true by a time, and puts them behind a list. An error is a refused growth; then all
    /// stays.
    pub(crate) fn take_by(&mut self, time: u64, out: &mut Vec<Word>) -> Result<(), AllocError>
        requires { time < NEVER }
        ensures read { OnOk result (self.new ≡ read_by time self.old) }
        ensures out { OnOk result (out.new.items ≡ out.old.items ++ due_by time self.old) }
        ensures err { OnErr result (self.new ≡ self.old) }
    {
        let step = (time + 1).saturating_sub(self.delay as u64);
        self.words.take_before(step, out)
    }

    /// Puts back the words that were read and come true at a time or later.
    pub(crate) fn put_back(&mut self, time: u64)
        ensures { self.new ≡ back_from time self.old }
    {
        let step = time.saturating_sub(self.delay as u64);
        self.words.put_back(step);
    }

    /// The words that a step and later ones made.
    pub(crate) fn made_since(&self, step: u64) -> &[Word]
        ensures { result.now ≡ made_since step self.now }
    {
        self.words.since(step)
    }

    /// Puts the words that a step and later ones made into a batch, at the times at which they come true, up to a last time.
    /// An error is a refused growth; then the batch has no word.
    pub(crate) fn tell_since(
        &self,
        step: u64,
        last: u64,
        batch: &mut Batch<Word>,
    ) -> Result<(), AllocError>
        requires { last < TIMES }
        ensures ok { OnOk result (batch.new ≡ batch.old ++ told_since step last self.now) }
        ensures err { OnErr result (batch.new ≡ []) }
    {
        self.words.tell_since(step, self.delay, last, batch)
    }

    /// Cuts off the words that a step and later ones made.
    pub(crate) fn cut_from(&mut self, step: u64)
        ensures { self.new ≡ cut_since step self.old }
    {
        self.words.cut_from(step);
    }

    /// Forgets the words that were read and came true before a time.
    pub(crate) fn forget_below(&mut self, time: u64)
        ensures { IsForgotten time self.old self.new }
    {
        let step = time.saturating_sub(self.delay as u64);
        self.words.forget_below(step);
    }
}
