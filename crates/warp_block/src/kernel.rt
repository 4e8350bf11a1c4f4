//! What a block has received, and what it has played of that.
ghost use Rattle.std.specs.Prelude.{◌≡◌, ◌≢◌, ◌+◌, ◌++◌, ◌-◌, ◌≤◌, ◌<◌, ◌↔◌, ◌⊎◌, ℕ, [], true, false, length, get_or, slice_index, vec_len, map, List, IsTrue, IfSome, IfNone, IfOk, IfErr, OnOk, OnErr, Some, None};
ghost use Rattle.std.specs.List.{All};
ghost use Rattle.net_waves.specs.Waves.{lists_in};
ghost use Rattle.warp_process.specs.Limits.{most_horizon};
ghost use Rattle.warp_process.specs.declared.message.Sign.TheVariants.{Plus, Minus};
ghost use Rattle.warp_process.specs.Entries.{no_messages};
ghost use Rattle.warp_process.specs.View.{IsLeast, IsEventTime, IsDone, busy_times, entry_of};
ghost use Rattle.warp_process.specs.Lawful.{IsLawfulProcess, lawful_log};
ghost use Rattle.warp_process.specs.Opening.{silent_view, opening_view, opening_messages};
ghost use Rattle.warp_process.specs.declared.message.Message.{Message};
ghost use Rattle.warp_process.specs.Receive.{refusal_of, IsRefusal, IsTaken};
ghost use Rattle.warp_process.specs.Heard.{IsToldOf};
ghost use Rattle.warp_process.specs.Advance.{IsAdvanced, IsAfterEvent};
ghost use Rattle.warp_process.specs.Commit.{IsCommittable, IsCommitted, IsCommitRefusal, IsUnsettledBelow, IsFirstUnsettled};
ghost use Rattle.warp_process.specs.Sends.{SendsOnce};
ghost use Rattle.warp_stores.specs.Lists.{AreLonger};
ghost use Rattle.part_engine.specs.Histories.{TellLogs};

use crate::ending::play_out;
use crate::play::{advance, give_up};
use crate::rollback::{is_late, roll_back};
use event_times::Times;
use gate_stimulus::Stimulus;
use gate_values::Change;
use part_engine::{begins, next_brought, next_time, opening_engine};
use std::alloc::{AllocError, Global};
use std::marker::Model;
use warp_engine::Engine;
use warp_part::Part;
use warp_process::{BlockFault, Entry, Heard, Message};
use warp_sends::tell_first;
use warp_stores::{Batch, Steps, Word};

/// What is received, whether something happens at time 0 by what flip-flops begin with, the engine that plays it, and the event
/// times since the oldest saved state. The words are a place to work in.
#[derive(Debug, Drop)]
pub(crate) struct Kernel {
    heard: Heard,
    begins: bool,
    engine: Engine,
    times: Times,
    words: Vec<Word>,
    /// About how many changes it has made, those aside that were taken back. It sets the pace alone.
    made: u64,
}

impl Model for Kernel {
    ghost use Rattle.warp_process.specs.View.{Process};

    ghost Value = { Process };

    ghost use Rattle.warp_block.specs.Shown.Block.{process_by};
    ghost use Rattle.warp_block.specs.Inner.HeldKernel.{IsHeldKernel};

    ghost view = { λ kernel. process_by kernel.heard kernel.engine kernel.times };

    ghost invariant = { IsHeldKernel };
}

impl Kernel {
    /// A kernel that has received nothing but the stimulus's changes up to the horizon. What its flip-flops begin with is told behind `out`. An
    /// error is a refused growth; after it nothing is told.
    pub(crate) fn new(
        alloc: Global,
        part: Part,
        stimulus: &Stimulus,
        horizon: u64,
        out: &mut Vec<Message>,
    ) -> Result<Kernel, AllocError>
        requires { horizon ≤ most_horizon }
        ensures opening { IfOk result (λ kernel. kernel.seen ≡ opening_view part stimulus.now horizon) }
        ensures sends { IfOk result (λ kernel. SendsOnce (silent_view part stimulus.now horizon) kernel.seen Plus (λ t. t ≡ 0) out.old.items out.new.items) }
        ensures told { OnOk result (out.new.items ≡ out.old.items ++ opening_messages part) }
        ensures untold { OnErr result (out.new.items ≡ out.old.items) }
    {
        let heard = Heard::new(alloc, part, stimulus, horizon)?;
        let begins = begins(heard.part());
        let engine = opening_engine(alloc, heard.part(), horizon)?;
        tell_first(heard.part(), out)?;
        Ok(Kernel {
            heard,
            begins,
            engine,
            times: Times::new(alloc),
            words: Vec::new(alloc),
            made: 0,
        })
    }

    /// What is true of every kernel: its logs and saved states are those of running what it has received, in order of time, from the start.
    pub(crate) fn law(&self)
        ensures { IsLawfulProcess self.now }
    {
        self.heard.law();
    }

    /// Takes one message, or antimessage, and answers whether it goes back to the message's time: then the batch tells what was made from then
    /// on, and the antimessages on it go behind `out`. After an error nothing has changed, but for the batch.
    pub(crate) fn receive(
        &mut self,
        batch: &mut Batch<Word>,
        message: Message,
        out: &mut Vec<Message>,
    ) -> Result<bool, BlockFault>
        ensures accepted { OnOk result (refusal_of self.old.seen message ≡ None) }
        ensures taken { OnOk result (IsTaken self.old.seen self.new.seen message) }
        ensures sends { OnOk result (SendsOnce self.old.seen self.new.seen Minus (λ t. message.time < t) out.old.items out.new.items) }
        ensures longer { IfOk result (λ back. back ≡ true → AreLonger batch.new self.new.seen.logs self.old.seen.logs) }
        ensures there { IfOk result (λ back. back ≡ true → All (λ d. d.1.place < length self.old.seen.part.nets) batch.new) }
        ensures same { IfOk result (λ back. back ≡ false → self.new.seen.logs ≡ self.old.seen.logs) }
        ensures refused { IfErr result (IsRefusal (refusal_of self.old.seen message)) }
        ensures err { OnErr result (self.new ≡ self.old) }
        ensures untold { OnErr result (out.new.items ≡ out.old.items) }
    {
        if self.take_first(message)? {
            return Ok(false);
        }
        self.take(batch, message, out)
    }

    /// Takes one message, or antimessage, of any kind, as [`Kernel::receive`] does.
    fn take(
        &mut self,
        batch: &mut Batch<Word>,
        message: Message,
        out: &mut Vec<Message>,
    ) -> Result<bool, BlockFault>
        ensures accepted { OnOk result (refusal_of self.old.seen message ≡ None) }
        ensures taken { OnOk result (IsTaken self.old.seen self.new.seen message) }
        ensures sends { OnOk result (SendsOnce self.old.seen self.new.seen Minus (λ t. message.time < t) out.old.items out.new.items) }
        ensures longer { IfOk result (λ back. back ≡ true → AreLonger batch.new self.new.seen.logs self.old.seen.logs) }
        ensures there { IfOk result (λ back. back ≡ true → All (λ d. d.1.place < length self.old.seen.part.nets) batch.new) }
        ensures same { IfOk result (λ back. back ≡ false → self.new.seen.logs ≡ self.old.seen.logs) }
        ensures refused { IfErr result (IsRefusal (refusal_of self.old.seen message)) }
        ensures err { OnErr result (self.new ≡ self.old) }
        ensures untold { OnErr result (out.new.items ≡ out.old.items) }
    {
        let (slot, entry) = self.heard.admit(message)?;
        if is_late(&self.heard, &self.engine, slot, message.time, entry) {
            roll_back(
                &mut self.heard,
                &mut self.engine,
                &mut self.times,
                batch,
                slot,
                message.time,
                entry,
                out,
            )?;
            self.made = self.made.saturating_sub(batch.words().len() as u64);
            return Ok(true);
        }
        self.heard.put(slot, message.time, entry)?;
        self.heard.law();
        Ok(false)
    }

    /// Takes a message that is the first of its net and time, and for what isn't processed, if it is such; answers whether it is. Nearly
    /// all messages are. An error is a refused growth; then, and where it isn't, nothing has changed.
    fn take_first(&mut self, message: Message) -> Result<bool, BlockFault>
        ensures accepted { IfOk result (λ taken. IsTrue taken → refusal_of self.old.seen message ≡ None) }
        ensures taken { IfOk result (λ taken. IsTrue taken → IsTaken self.old.seen self.new.seen message) }
        ensures sends { IfOk result (λ taken. IsTrue taken → (out : List Message) → SendsOnce self.old.seen self.new.seen Minus (λ t. message.time < t) out out) }
        ensures logs { IfOk result (λ taken. IsTrue taken → self.new.seen.logs ≡ self.old.seen.logs) }
        ensures left { IfOk result (λ taken. taken ≡ false → self.new ≡ self.old) }
        ensures refused { IfErr result (IsRefusal (refusal_of self.old.seen message)) }
        ensures err { OnErr result (self.new ≡ self.old) }
    {
        if message.time < self.engine.mark() {
            return Ok(false);
        }
        let Some(slot) = self.heard.first_place(message) else {
            return Ok(false);
        };
        let taken = self.heard.put_first(slot, message.time, message.value)?;
        self.heard.law();
        Ok(taken)
    }

    /// Finishes up to so many event times, and answers how many: fewer only where none is left. The batch tells what they made, and the messages
    /// on it go behind `out`. The one error is want of memory; after it nothing is finished.
    pub(crate) fn advance(
        &mut self,
        batch: &mut Batch<Word>,
        steps: u32,
        out: &mut Vec<Message>,
    ) -> Result<u32, AllocError>
        ensures ok { IfOk result (IsAdvanced self.old.seen self.new.seen) }
        ensures all { IfOk result (λ count. (count ≡ steps) ⊎ ((count < steps) × IsDone self.new.seen)) }
        ensures sends { OnOk result (SendsOnce self.old.seen self.new.seen Plus (IsAfterEvent self.old.seen) out.old.items out.new.items) }
        ensures longer { OnOk result (AreLonger batch.new self.old.seen.logs self.new.seen.logs) }
        ensures there { OnOk result (All (λ d. d.1.place < length self.new.seen.part.nets) batch.new) }
        ensures until { OnOk result (All (λ d. d.0 ≤ self.new.seen.horizon) batch.new) }
        ensures err { OnErr result (self.new.seen ≡ self.old.seen) }
        ensures untold { OnErr result (out.new.items ≡ out.old.items) }
    {
        let finished = advance(
            &self.heard,
            self.begins,
            &mut self.engine,
            &mut self.times,
            &mut self.words,
            batch,
            steps,
            out,
        )?;
        self.made = self.made.saturating_add(batch.words().len() as u64);
        Ok(finished)
    }

    /// Takes back what was finished from a time on, which isn't below the floor. It takes no memory.
    pub(crate) fn give_up(&mut self, time: u64)
        requires floor { self.old.seen.floor ≤ time }
        requires mark { time ≤ self.old.seen.mark }
        ensures { self.new.seen ≡ record self.old.seen { mark = time; logs = map (lawful_log (record self.old.seen { mark = time })) self.old.seen.part.nets } }
    {
        if time < self.engine.mark() {
            give_up(&self.heard, &mut self.engine, &mut self.times, time);
        }
    }

    /// Commits everything below a floor, as [`Block::commit`](crate::Block::commit) does.
    pub(crate) fn commit(&mut self, floor: u64) -> Result<(), BlockFault>
        ensures ok { OnOk result (IsCommitted self.old self.new floor) }
        ensures logs { self.new.seen.logs ≡ self.old.seen.logs }
        ensures possible { OnOk result (IsCommittable self.old.seen floor) }
        ensures refused { IfErr result (IsCommitRefusal self.old.seen floor) }
        ensures err { OnErr result (self.new ≡ self.old) }
    {
        if floor == self.heard.floor() {
            return Ok(());
        }
        self.may_commit(floor)?;
        self.heard.commit(floor);
        self.heard.law();
        self.times.keep_from(floor);
        self.engine.forget_below(self.times.oldest());
        Ok(())
    }

    /// Whether what is below a floor can be committed; the first cause to refuse it.
    fn may_commit(&self, floor: u64) -> Result<(), BlockFault>
        ensures ok { OnOk result (IsCommittable self.now.seen floor) }
        ensures err { IfErr result (IsCommitRefusal self.now.seen floor) }
    {
        if floor < self.heard.floor() {
            return Err(BlockFault::FloorBack);
        }
        if is_before(self.next_time(), floor) {
            return Err(BlockFault::Unprocessed);
        }
        match self.heard.first_unsettled(floor) {
            Some((net, time)) => Err(BlockFault::Unsettled { net, time }),
            None => Ok(()),
        }
    }

    /// Where its memory comes from.
    pub(crate) fn alloc(&self) -> Global {
        *self.words.allocator()
    }

    /// A copy of what is received. An error is a refused growth.
    pub(crate) fn copy_heard(&self, alloc: Global) -> Result<Heard, AllocError>
        ensures { IfOk result (λ heard. record heard { mark = self.now.seen.mark; logs = self.now.seen.logs } ≡ self.now.seen) }
    {
        self.heard.copy(alloc)
    }

    /// About how many changes it has made, those aside that were taken back.
    pub(crate) fn made(&self) -> u64 {
        self.made
    }

    /// The part of the circuit.
    pub(crate) fn part(&self) -> &Part
        ensures { result.now ≡ self.now.seen.part }
    {
        self.heard.part()
    }

    /// The last time that counts.
    pub(crate) fn horizon(&self) -> u64
        ensures { result ≡ self.now.seen.horizon }
    {
        self.heard.horizon()
    }

    /// Everything below it is processed.
    pub(crate) fn mark(&self) -> u64
        ensures { result ≡ self.now.seen.mark }
    {
        self.engine.mark().max(self.heard.floor())
    }

    /// Everything below it is committed: processed, and settled.
    pub(crate) fn floor(&self) -> u64
        ensures { result ≡ self.now.seen.floor }
    {
        self.heard.floor()
    }

    /// The least event time.
    pub(crate) fn next_time(&self) -> Option<u64>
        ensures { IsLeast (IsEventTime self.now.seen) result }
    {
        let brought = next_brought(&self.heard, &self.engine);
        next_time(&self.heard, &self.engine, self.begins, brought)
    }

    /// How many event times from a time on are finished; the time isn't below the floor nor past the mark.
    pub(crate) fn finished_from(&self, time: u64) -> u64
        requires floor { self.now.seen.floor ≤ time }
        requires mark { time ≤ self.now.seen.mark }
        ensures { result ≡ busy_times self.now.seen time self.now.seen.mark }
    {
        self.times.count_from(time) as u64
    }

    /// The entry of a net at a time; empty for a net that the block doesn't read, and for an own one.
    pub(crate) fn entry(&self, net: u32, time: u64) -> Entry
        ensures { result ≡ entry_of self.now.seen net time }
    {
        self.heard.entry(net, time)
    }

    /// The least time from a time on at which the entry of a net isn't empty.
    pub(crate) fn next_entry(&self, net: u32, from: u64) -> Option<u64>
        ensures { IsLeast (λ t. (from ≤ t) × (entry_of self.now.seen net t ≢ no_messages)) result }
    {
        self.heard.next_entry(net, from)
    }

    /// The first entry that isn't settled, by net, then time.
    pub(crate) fn first_unsettled(&self) -> Option<(u32, u64)>
        ensures none { IfNone result ((n t : ℕ) → IsUnsettledBelow self.now.seen (self.now.seen.horizon + 1) n t → ⊥) }
        ensures some { IfSome result (λ place. IsFirstUnsettled self.now.seen (self.now.seen.horizon + 1) place.0 place.1) }
    {
        self.heard.first_unsettled(self.heard.horizon() + 1)
    }

    /// For each net of the part the changes that the messages tell which stand, in order of time. An error is a refused growth.
    pub(crate) fn told(&self) -> Result<Vec<Vec<Change>>, AllocError>
        ensures count { IfOk result (λ lists. vec_len lists ≡ length self.now.seen.part.nets) }
        ensures told { IfOk result (λ lists. (i : ℕ) → i < length self.now.seen.part.nets → IsToldOf self.now.seen (slice_index self.now.seen.part.nets i) (get_or (lists_in lists.items) i [])) }
    {
        self.heard.told()
    }

    /// The part, and nothing else.
    pub(crate) fn into_part(self) -> Part
        ensures { result ≡ self.seen.part }
    {
        self.heard.into_part()
    }

    /// What is received, and the history up to the horizon, of which each own net's words are its log; there is no history where something is
    /// left to do, or where memory is wanted for what nobody reads. The batch is a place to work in.
    pub(crate) fn end(self, batch: &mut Batch<Word>) -> (Heard, Option<Steps<Word>>)
        ensures heard { record result.0 { mark = self.seen.mark; logs = self.seen.logs } ≡ self.seen }
        ensures told { IfSome result.1 (TellLogs self.seen) }
        ensures done { IfSome result.1 (λ _. IsDone self.seen) }
    {
        let Kernel {
            heard,
            begins,
            mut engine,
            times,
            mut words,
            ..
        } = self;
        match play_out(&heard, begins, &mut engine, &times, &mut words, batch) {
            Ok(true) => (heard, Some(engine.into_history())),
            _ => (heard, None),
        }
    }
}

/// Whether a time, where there is one, is before another.
fn is_before(time: Option<u64>, end: u64) -> bool
    ensures { IsTrue result ↔ ((t : ℕ) × (time ≡ Some t) × (t < end)) }
{
    match time {
        Some(time) => time < end,
        None => false,
    }
}
