//! A queue for each delay.
ghost use Rattle.std.specs.Prelude.{◌≡◌, ◌≤◌, ◌<◌, ◌++◌, ◌∷◌, [], IfOk, OnOk, OnErr, length, map, slice_set};
ghost use Rattle.std.specs.List.{flat_map};
ghost use Rattle.warp_stores.specs.Dated.{last_time, standing};
ghost use Rattle.warp_stores.specs.Delays.{queue_at, empty_after, due_of, least_due, with_made, due_by, read_by, back_from, made_since, told_since, cut_since, AreReadUpTo, AreForgotten};
ghost use Rattle.warp_stores.specs.Inner.Reading.{AreSomeRead};

use crate::batch::Batch;
use crate::delay_queue::DelayQueue;
use crate::least::{Least, NEVER};
use crate::stop::TIMES;
use crate::word::{PLACES, Word};
use std::alloc::{AllocError, Global};
use std::marker::Model;

/// A queue for each of some delays: what steps made, which comes true the delay after. The words that come true next are
/// at hand.
#[derive(Debug, Drop)]
pub struct Delays {
    queues: Vec<DelayQueue>,
    due: Least,
}

impl Model for Delays {
    ghost use Rattle.std.specs.Prelude.{◌≡◌, List, map};
    ghost use Rattle.warp_stores.specs.Delays.{Delayed, due_of};

    ghost Value = { List Delayed };

    ghost view = { λ delays. delays.queues.items };

    ghost invariant = { λ delays. delays.due ≡ map due_of delays.queues.items };
}

impl Delays {
    /// A queue without a word for each delay. An error is a refused growth.
    pub fn new(alloc: Global, delays: &[u32]) -> Result<Delays, AllocError>
        requires { length delays.now ≤ PLACES }
        ensures { IfOk result (λ queues. queues ≡ map empty_after delays.now) }
    {
        let queues = empty_queues(alloc, delays)?;
        let due = Least::new(alloc, delays.len() as u32)?;
        Ok(Delays { queues, due })
    }

    /// How many queues there are.
    pub fn len(&self) -> usize
        ensures { result ≡ length self.now }
    {
        self.queues.len()
    }

    /// The least time at which a word ahead comes true, [`NEVER`] where none is ahead.
    pub fn due(&self) -> u64
        ensures { result ≡ least_due self.now }
    {
        self.due.least()
    }

    /// The last step that made a word of a queue, 0 where there is none.
    pub fn last_step(&self, queue: usize) -> u64
        requires { queue < length self.now }
        ensures { result ≡ last_time (standing (queue_at self.now queue).line) }
    {
        self.queues[queue].last_step()
    }

    /// Puts a word that a step made into a queue. An error is a refused growth; then all stays.
    #[inline(always)]
    pub fn put(&mut self, queue: usize, step: u64, word: Word) -> Result<(), AllocError>
        requires queue { queue < length self.old }
        requires time { step < TIMES }
        requires order { last_time (standing (queue_at self.old queue).line) ≤ step }
        ensures ok { OnOk result (self.new ≡ slice_set self.old queue (with_made step (word ∷ []) (queue_at self.old queue))) }
        ensures err { OnErr result (self.new ≡ self.old) }
    {
        let line = &mut self.queues[queue];
        if line.is_read() {
            return self.put_first(queue, step, word);
        }
        if line.join(step, word) {
            return Ok(());
        }
        self.put_first(queue, step, word)
    }

    /// The same, also where it is the first word ahead, or the first of its step.
    #[inline(never)]
    fn put_first(&mut self, queue: usize, step: u64, word: Word) -> Result<(), AllocError>
        requires queue { queue < length self.old }
        requires time { step < TIMES }
        requires order { last_time (standing (queue_at self.old queue).line) ≤ step }
        ensures ok { OnOk result (self.new ≡ slice_set self.old queue (with_made step (word ∷ []) (queue_at self.old queue))) }
        ensures err { OnErr result (self.new ≡ self.old) }
    {
        let line = &mut self.queues[queue];
        let first = line.is_read();
        line.put(step, word)?;
        if first {
            self.due.set(queue, line.due());
        }
        Ok(())
    }

    /// Puts the words that a step made into a queue. An error is a refused growth; then all stays.
    pub fn put_all(&mut self, queue: usize, step: u64, words: &[Word]) -> Result<(), AllocError>
        requires queue { queue < length self.old }
        requires time { step < TIMES }
        requires order { last_time (standing (queue_at self.old queue).line) ≤ step }
        ensures ok { OnOk result (self.new ≡ slice_set self.old queue (with_made step words.now (queue_at self.old queue))) }
        ensures err { OnErr result (self.new ≡ self.old) }
    {
        let line = &mut self.queues[queue];
        let first = line.is_read();
        line.put_all(step, words)?;
        if first {
            self.due.set(queue, line.due());
        }
        Ok(())
    }

    /// Reads the words ahead that come true by a time, and puts them behind a list, in order of queues. An error is a refused
    /// growth; then all queues stay.
    pub fn take_due(&mut self, time: u64, out: &mut Vec<Word>) -> Result<(), AllocError>
        requires time { time < NEVER }
        requires read { AreReadUpTo time self.old }
        ensures ok { OnOk result (out.new.items ≡ out.old.items ++ flat_map (due_by time) self.old) }
        ensures read { OnOk result (self.new ≡ map (read_by time) self.old) }
        ensures err { OnErr result (self.new ≡ self.old) }
    {
        match take_due(&mut self.queues, &mut self.due, time, out) {
            Ok(()) => Ok(()),
            Err(error) => {
                self.put_back(time);
                Err(error)
            }
        }
    }

    /// Puts back the words that were read and come true at a time or later.
    pub fn put_back(&mut self, time: u64)
        ensures { self.new ≡ map (back_from time) self.old }
    {
        for queue in self.queues.iter_mut() {
            queue.put_back(time);
        }
        tell_due(self.queues.as_slice(), &mut self.due);
    }

    /// The words of a queue that a step and later ones made.
    pub fn made_since(&self, queue: usize, step: u64) -> &[Word]
        requires { queue < length self.now }
        ensures { result.now ≡ made_since step (queue_at self.now queue) }
    {
        self.queues[queue].made_since(step)
    }

    /// Puts the words that a step and later ones made behind a batch, at the times at which they come true, up to a last
    /// time. An error is a refused growth; then the batch has no word.
    pub fn tell_since(
        &self,
        step: u64,
        last: u64,
        batch: &mut Batch<Word>,
    ) -> Result<(), AllocError>
        requires { last < TIMES }
        ensures ok { OnOk result (batch.new ≡ batch.old ++ flat_map (told_since step last) self.now) }
        ensures err { OnErr result (batch.new ≡ []) }
    {
        for queue in &self.queues {
            queue.tell_since(step, last, batch)?;
        }
        Ok(())
    }

    /// Cuts off the words that a step and later ones made.
    pub fn cut_from(&mut self, step: u64)
        ensures { self.new ≡ map (cut_since step) self.old }
    {
        for queue in self.queues.iter_mut() {
            queue.cut_from(step);
        }
        tell_due(self.queues.as_slice(), &mut self.due);
    }

    /// Forgets the words that were read and came true before a time.
    pub fn forget_below(&mut self, time: u64)
        ensures { AreForgotten time self.old self.new }
    {
        for queue in self.queues.iter_mut() {
            queue.forget_below(time);
        }
    }
}

/// A queue without a word for each delay.
fn empty_queues(alloc: Global, delays: &[u32]) -> Result<Vec<DelayQueue>, AllocError>
    ensures { IfOk result (λ queues. queues.items ≡ map empty_after delays.now) }
{
    let mut queues = Vec::new(alloc);
    for delay in delays {
        queues.push(DelayQueue::new(alloc, *delay))?;
    }
    Ok(queues)
}

/// Tells when the first word of each queue comes true.
fn tell_due(queues: &[DelayQueue], due: &mut Least)
    requires { length due.old ≡ length queues.now }
    ensures { due.new ≡ map due_of queues.now }
{
    for (place, queue) in queues.iter().enumerate() {
        due.set(place, queue.due());
    }
}

/// Reads the words ahead that come true by a time, and puts them behind a list, in order of queues. An error is a refused
/// growth; then some queues are read, and the others stay.
fn take_due(
    queues: &mut Vec<DelayQueue>,
    due: &mut Least,
    time: u64,
    out: &mut Vec<Word>,
) -> Result<(), AllocError>
    requires due { due.old ≡ map due_of queues.old.items }
    requires time { time < NEVER }
    ensures due { due.new ≡ map due_of queues.new.items }
    ensures listed { OnOk result (out.new.items ≡ out.old.items ++ flat_map (due_by time) queues.old.items) }
    ensures read { OnOk result (queues.new.items ≡ map (read_by time) queues.old.items) }
    ensures some { OnErr result (AreSomeRead time queues.old.items queues.new.items) }
{
    let mut place = due.first(time);
    while place < queues.len() {
        let queue = &mut queues[place];
        queue.take_by(time, out)?;
        due.set(place, queue.due());
        place = due.first(time);
    }
    Ok(())
}
