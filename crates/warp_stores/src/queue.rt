//! Words in the order in which they came, and a head that reads them.
ghost use Rattle.std.specs.Prelude.{◌≡◌, ◌≤◌, ◌<◌, ◌+◌, ◌++◌, ◌∷◌, [], OnOk, OnErr, IfSome, length, nat_lt, true, false};
ghost use Rattle.warp_stores.specs.Dated.{at, before, before_end, since, undated, first_time, last_time, later, standing, Rises};

use crate::batch::Batch;
use crate::place::{
    Place, append, append_all, drop_front, end_of, first_behind, first_since, join, last_before,
    part, push_some, tell,
};
use crate::reader::StepReader;
use crate::stop::{Stop, TIMES};
use std::alloc::{AllocError, Global};
use std::marker::Model;

/// How many dead words a queue may keep after it forgets, besides as many as stand.
pub const MOST_DEAD: usize = 4096;

/// Words at times that never fall. A head parts those that were read from those ahead. The end can be cut, the head can
/// be put back, and what was read can be forgotten.
#[derive(Debug, Drop)]
pub struct Queue<T> {
    stops: Vec<Stop>,
    words: Vec<T>,
    dead: Place,
    read: Place,
}

impl<T> Model for Queue<T> {
    ghost use Rattle.warp_stores.specs.Dated.{Line};

    ghost Value = { Line T };

    ghost use Rattle.warp_stores.specs.Inner.Stops.{IsQueue};
    ghost use Rattle.warp_stores.specs.Shown.Stops.{line_of};

    ghost view = { λ q. line_of q.stops.items q.words.items q.dead q.read };

    ghost invariant = { λ q. IsQueue q.stops.items q.words.items q.dead q.read };
}

impl<T: Copy> Queue<T> {
    /// No word.
    pub fn new(alloc: Global) -> Queue<T>
        ensures { result ≡ record { dead = 0; read = []; ahead = [] } }
    {
        Queue {
            stops: Vec::new(alloc),
            words: Vec::new(alloc),
            dead: Place::START,
            read: Place::START,
        }
    }

    /// What is true of all queues.
    pub fn law(&self)
        ensures { Rises (standing self.now) }
    {
        let _ = &self.words;
    }

    /// Appends a word at a time. An error is a refused growth; then all stays.
    pub fn append(&mut self, time: u64, word: T) -> Result<(), AllocError>
        requires time { time < TIMES }
        requires order { last_time (standing self.old) ≤ time }
        ensures ok { OnOk result (self.new ≡ record self.old { ahead = self.old.ahead ++ (time, word) ∷ [] }) }
        ensures err { OnErr result (self.new ≡ self.old) }
    {
        append(
            &mut self.stops,
            &mut self.words,
            self.read.stops,
            time,
            word,
        )
    }

    /// Appends a word at a time, where the last one ahead is at that time and memory is at hand, and tells whether it did.
    pub(crate) fn join(&mut self, time: u64, word: T) -> bool
        requires { last_time (standing self.old) ≤ time }
        ensures joined { result ≡ true → self.new ≡ record self.old { ahead = self.old.ahead ++ (time, word) ∷ [] } }
        ensures stays { result ≡ false → self.new ≡ self.old }
    {
        join(
            &mut self.stops,
            &mut self.words,
            self.read.stops,
            time,
            word,
        )
    }

    /// Appends the words of a time. An error is a refused growth; then all stays.
    pub fn append_all(&mut self, time: u64, words: &[T]) -> Result<(), AllocError>
        requires time { time < TIMES }
        requires order { last_time (standing self.old) ≤ time }
        ensures ok { OnOk result (self.new ≡ record self.old { ahead = self.old.ahead ++ at time words.now }) }
        ensures err { OnErr result (self.new ≡ self.old) }
    {
        append_all(&mut self.stops, &mut self.words, time, words)
    }

    /// The time of the first word ahead.
    pub fn head(&self) -> Option<u64>
        ensures first { result ≡ first_time self.now.ahead }
        ensures within { IfSome result (λ time. time < TIMES) }
    {
        if self.read.stops == self.stops.len() {
            return None;
        }
        Some(self.stops[self.read.stops].time())
    }

    /// The time of the last word, 0 where there is none.
    pub fn last_time(&self) -> u64
        ensures { result ≡ last_time (standing self.now) }
    {
        if self.stops.len() == self.dead.stops {
            return 0;
        }
        self.stops[self.stops.len() - 1].time()
    }

    /// Reads the words ahead that are before a time, and puts them behind a list. An error is a refused growth; then all
    /// stays.
    pub fn take_before(&mut self, time: u64, out: &mut Vec<T>) -> Result<(), AllocError>
        ensures dead { OnOk result (self.new.dead ≡ self.old.dead) }
        ensures read { OnOk result (self.new.read ≡ self.old.read ++ before time self.old.ahead) }
        ensures ahead { OnOk result (self.new.ahead ≡ since time self.old.ahead) }
        ensures out { OnOk result (out.new.items ≡ out.old.items ++ undated (before time self.old.ahead)) }
        ensures err { OnErr result (self.new ≡ self.old) }
    {
        let end = end_of(&self.stops, &self.words);
        let read = first_since(self.stops.as_slice(), self.read, end, time);
        push_some(
            out,
            part(self.words.as_slice(), self.read.words, read.words),
        )?;
        self.read = read;
        Ok(())
    }

    /// Puts back the words that were read and aren't before a time.
    pub fn put_back(&mut self, time: u64)
        ensures dead { self.new.dead ≡ self.old.dead }
        ensures read { self.new.read ≡ before time self.old.read }
        ensures ahead { self.new.ahead ≡ since time self.old.read ++ self.old.ahead }
    {
        let read = last_before(self.stops.as_slice(), self.dead, self.read, time);
        self.read = read;
    }

    /// The words that aren't before a time.
    pub fn since(&self, time: u64) -> &[T]
        ensures { result.now ≡ undated (since time (standing self.now)) }
    {
        let end = end_of(&self.stops, &self.words);
        let from = last_before(self.stops.as_slice(), self.dead, end, time);
        part(self.words.as_slice(), from.words, end.words)
    }

    /// Reads the words ahead from a time on, and before an end, if there is one. The queue stays.
    pub(crate) fn between(&self, from: u64, end: Option<u64>) -> StepReader<'_, T>
        ensures { result ≡ before_end end (since from self.now.ahead) }
    {
        let stops = self.stops.as_slice();
        let words = self.words.as_slice();
        let last = end_of(&self.stops, &self.words);
        let from = first_since(stops, self.read, last, from);
        let to = first_behind(stops, from, last, end);
        StepReader {
            stops: part(stops, from.stops, to.stops),
            words: part(words, from.words, to.words),
        }
    }

    /// How many words are ahead.
    pub(crate) fn count_ahead(&self) -> usize
        ensures { result ≡ length self.now.ahead }
    {
        self.words.len() - self.read.words
    }

    /// Puts the words that aren't before a time into a batch, each a delay later, up to a last time. An error is a refused
    /// growth; then the batch has no word.
    pub fn tell_since(
        &self,
        time: u64,
        delay: u32,
        last: u64,
        batch: &mut Batch<T>,
    ) -> Result<(), AllocError>
        requires { last < TIMES }
        ensures ok { OnOk result (batch.new ≡ batch.old ++ later delay last (since time (standing self.now))) }
        ensures err { OnErr result (batch.new ≡ []) }
    {
        let end = end_of(&self.stops, &self.words);
        let from = last_before(self.stops.as_slice(), self.dead, end, time);
        tell(
            self.stops.as_slice(),
            self.words.as_slice(),
            from,
            delay,
            last,
            batch,
        )
    }

    /// Cuts off the words that aren't before a time.
    pub fn cut_from(&mut self, time: u64)
        ensures dead { self.new.dead ≡ self.old.dead }
        ensures read { self.new.read ≡ before time self.old.read }
        ensures ahead { self.new.ahead ≡ before time self.old.ahead }
    {
        let end = end_of(&self.stops, &self.words);
        let kept = last_before(self.stops.as_slice(), self.dead, end, time);
        self.stops.truncate(kept.stops);
        self.words.truncate(kept.words);
        if kept.stops < self.read.stops {
            self.read = kept;
        }
    }

    /// Forgets the words that were read and are before a time.
    pub fn forget_below(&mut self, time: u64)
        ensures read { self.new.read ≡ since time self.old.read }
        ensures ahead { self.new.ahead ≡ self.old.ahead }
        ensures dead { self.new.dead ≤ length (standing self.new) + MOST_DEAD }
    {
        self.bury(time);
        if self.has_many_dead() {
            self.free_dead();
        }
    }

    /// Counts among the dead the words that were read and are before a time.
    fn bury(&mut self, time: u64)
        ensures read { self.new.read ≡ since time self.old.read }
        ensures ahead { self.new.ahead ≡ self.old.ahead }
    {
        let dead = first_since(self.stops.as_slice(), self.dead, self.read, time);
        self.dead = dead;
    }

    /// Whether more are dead than may be.
    fn has_many_dead(&self) -> bool
        ensures { result ≡ nat_lt (length (standing self.now) + MOST_DEAD) self.now.dead }
    {
        let dead = self.dead.words;
        dead.saturating_sub(MOST_DEAD) > self.words.len() - dead
    }

    /// Gives up the room of the dead.
    fn free_dead(&mut self)
        ensures { self.new ≡ record self.old { dead = 0 } }
    {
        let dead = self.dead;
        drop_front(&mut self.stops, dead.stops);
        drop_front(&mut self.words, dead.words);
        self.read = Place {
            stops: self.read.stops - dead.stops,
            words: self.read.words - dead.words,
        };
        self.dead = Place::START;
    }
}
