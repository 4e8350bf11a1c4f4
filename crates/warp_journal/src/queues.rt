//! A block's queues, in two parts.
ghost use Rattle.std.specs.Prelude.{◌≡◌, ◌≤◌, ◌<◌, ◌++◌, [], IfOk, OnOk, OnErr, length, map};
ghost use Rattle.std.specs.List.{All, flat_map};
ghost use Rattle.warp_stores.specs.Delays.{empty_after, least_due, due_by, back_from, cut_since, told_since, AreReadUpTo, AreForgotten};
ghost use Rattle.warp_journal.specs.Books.{Parts, all_of};
ghost use Rattle.warp_journal.specs.Inner.Parts.{AreAsMany, AreRead, AreUpTo, IsPut, ArePutBehind, AreSomePut};

use std::alloc::{AllocError, Global};
use std::marker::Model;
use warp_gates::Put;
use warp_stores::{Batch, Delays, NEVER, PLACES, TIMES, Word};

/// Queues of places that gates read, which are numbered first, and of places that none does.
#[derive(Debug, Drop)]
pub(crate) struct Queues {
    pub(crate) read: Delays,
    pub(crate) unread: Delays,
}

impl Model for Queues {
    ghost use Rattle.warp_journal.specs.Books.{Parts};

    ghost Value = { Parts };

    ghost view = { λ queues. record { read = queues.read; unread = queues.unread } };
}

impl Queues {
    /// A queue without a word for each delay.
    pub(crate) fn new(alloc: Global, read: &[u32], unread: &[u32]) -> Result<Queues, AllocError>
        requires read { length read.now ≤ PLACES }
        requires unread { length unread.now ≤ PLACES }
        ensures { IfOk result (λ queues. queues ≡ record { read = map empty_after read.now; unread = map empty_after unread.now }) }
    {
        let read = Delays::new(alloc, read)?;
        let unread = Delays::new(alloc, unread)?;
        Ok(Queues { read, unread })
    }

    /// The least time at which a word ahead comes true, in either part.
    pub(crate) fn due(&self) -> u64
        ensures { result ≡ least_due (all_of self.now) }
    {
        self.read.due().min(self.unread.due())
    }

    /// Reads the words ahead that come true by a time, and puts them behind a list. An error is a refused growth; then all
    /// queues stay.
    pub(crate) fn take_due(&mut self, time: u64, out: &mut Vec<Word>) -> Result<(), AllocError>
        requires time { time < NEVER }
        requires read { AreReadUpTo time (all_of self.old) }
        ensures ok { OnOk result (out.new.items ≡ out.old.items ++ flat_map (due_by time) (all_of self.old)) }
        ensures read { OnOk result (AreRead time self.old self.new) }
        ensures err { OnErr result (self.new ≡ self.old) }
    {
        self.read.take_due(time, out)?;
        match self.unread.take_due(time, out) {
            Ok(()) => Ok(()),
            Err(error) => {
                self.read.put_back(time);
                Err(error)
            }
        }
    }

    /// Puts back the words that were read and come true at a time or later, where no others were read by it.
    pub(crate) fn put_back(&mut self, time: u64)
        ensures { (before : Parts) → AreReadUpTo time (all_of before) → AreRead time before self.old → self.new ≡ before }
    {
        self.read.put_back(time);
        self.unread.put_back(time);
    }

    /// Puts a word behind its queue. An error is a refused growth; then all stays.
    pub(crate) fn put(&mut self, step: u64, put: Put) -> Result<(), AllocError>
        requires time { step < TIMES }
        requires queue { put.queue < length (all_of self.old) }
        requires order { AreUpTo step (all_of self.old) }
        ensures ok { OnOk result (IsPut step put self.old self.new) }
        ensures err { OnErr result (self.new ≡ self.old) }
    {
        let number = put.queue as usize;
        let read = self.read.len();
        if number < read {
            self.read.put(number, step, put.word)
        } else {
            self.unread.put(number - read, step, put.word)
        }
    }

    /// Cuts off what a step and later ones made, and puts back what was read and comes true from its time on.
    pub(crate) fn go_back(&mut self, time: u64)
        ensures read { self.new.read ≡ map (back_from time) (map (cut_since time) self.old.read) }
        ensures unread { self.new.unread ≡ map (back_from time) (map (cut_since time) self.old.unread) }
    {
        self.read.cut_from(time);
        self.read.put_back(time);
        self.unread.cut_from(time);
        self.unread.put_back(time);
    }

    /// Puts what a step and later ones made behind a batch, at the times at which it comes true, up to a last time. An error
    /// is a refused growth; then the batch has no word.
    pub(crate) fn tell_since(
        &self,
        step: u64,
        last: u64,
        batch: &mut Batch<Word>,
    ) -> Result<(), AllocError>
        requires { last < TIMES }
        ensures ok { OnOk result (batch.new ≡ batch.old ++ flat_map (told_since step last) (all_of self.now)) }
        ensures err { OnErr result (batch.new ≡ []) }
    {
        self.read.tell_since(step, last, batch)?;
        self.unread.tell_since(step, last, batch)
    }

    /// Forgets what was read and came true before a time.
    pub(crate) fn forget_below(&mut self, time: u64)
        ensures many { AreAsMany self.old self.new }
        ensures forgotten { AreForgotten time (all_of self.old) (all_of self.new) }
    {
        self.read.forget_below(time);
        self.unread.forget_below(time);
    }
}

/// Puts words behind their queues. An error is a refused growth; then some are put.
pub(crate) fn put_all(queues: &mut Queues, step: u64, puts: &[Put]) -> Result<(), AllocError>
    requires time { step < TIMES }
    requires queue { All (λ put. put.queue < length (all_of queues.old)) puts.now }
    requires order { AreUpTo step (all_of queues.old) }
    ensures ok { OnOk result (ArePutBehind step puts.now queues.old queues.new) }
    ensures err { OnErr result (AreSomePut step queues.old queues.new) }
{
    for put in puts {
        queues.put(step, *put)?;
    }
    Ok(())
}
