ghost use Rattle.std.specs.Prelude.{◌≡◌, ◌≢◌, ◌+◌, ◌++◌, ◌≤◌, ◌<◌, ◌↔◌, ◌⊎◌, ℕ, [], false, length, get_or, slice_index, vec_len, IsTrue, IfSome, IfNone, IfOk, IfErr, OnOk, OnErr, None};
ghost use Rattle.std.specs.List.{All};
ghost use Rattle.net_waves.specs.Waves.{lists_in, wave_of};
ghost use Rattle.warp_part.specs.Portion.{owns, readers_of};
ghost use Rattle.warp_process.specs.Limits.{most_horizon};
ghost use Rattle.warp_process.specs.declared.message.Sign.TheVariants.{Plus, Minus};
ghost use Rattle.warp_process.specs.Entries.{no_messages};
ghost use Rattle.warp_process.specs.View.{IsLeast, IsEventTime, IsDone, busy_times, entry_of, log_of};
ghost use Rattle.warp_process.specs.Lawful.{IsLawfulProcess};
ghost use Rattle.warp_process.specs.Opening.{silent_view, opening_view, opening_messages};
ghost use Rattle.warp_process.specs.Receive.{refusal_of, IsRefusal, IsTaken};
ghost use Rattle.warp_process.specs.Heard.{IsToldOf};
ghost use Rattle.warp_process.specs.Advance.{IsAdvanced, IsAfterEvent};
ghost use Rattle.warp_process.specs.Commit.{IsCommittable, IsCommitted, IsCommitRefusal, IsUnsettledBelow, IsFirstUnsettled};
ghost use Rattle.warp_process.specs.Sends.{SendsOnce};
ghost use Rattle.part_engine.specs.Histories.{TellLogs};

use crate::give::give;
use crate::kernel::Kernel;
use crate::logs::{AllLogs, Logs};
use crate::look::Look;
use gate_stimulus::Stimulus;
use gate_values::Change;
use std::alloc::{AllocError, Global};
use std::marker::Model;
use warp_part::Part;
use warp_process::{BlockFault, Entry, Message};
use warp_stores::{Batch, Steps, Word};

/// A logical process: what it has received and played, and the logs that it keeps, of all its nets where nothing else is said. The batch is a
/// place to work in.
#[derive(Debug, Drop)]
pub struct Block<L: Logs = AllLogs> {
    kernel: Kernel,
    logs: L,
    batch: Batch<Word>,
}

impl<L: Logs> Model for Block<L> {
    ghost use Rattle.warp_process.specs.View.{Process};

    ghost Value = { Process };

    ghost view = { λ block. block.kernel };

    ghost invariant = { λ block. L.keep block.logs block.kernel.seen.part block.kernel.seen.logs };
}

impl<L: Logs> Block<L> {
    /// A block that has received nothing but the stimulus's changes up to the horizon, which is at most
    /// [`MOST_HORIZON`](crate::MOST_HORIZON). Its mark and floor are 0. Each of its flip-flops whose initial content is
    /// known has it from time 0 on: the messages on that go behind `out`, by net, then by reader. An error is a refused
    /// growth; after it nothing is told.
    pub fn open(
        alloc: Global,
        part: Part,
        stimulus: &Stimulus,
        horizon: u64,
        out: &mut Vec<Message>,
    ) -> Result<Block<L>, AllocError>
        requires { horizon ≤ most_horizon }
        ensures opening { IfOk result (λ block. block.seen ≡ opening_view part stimulus.now horizon) }
        ensures sends { IfOk result (λ block. SendsOnce (silent_view part stimulus.now horizon) block.seen Plus (λ t. t ≡ 0) out.old.items out.new.items) }
        ensures told { OnOk result (out.new.items ≡ out.old.items ++ opening_messages part) }
        ensures untold { OnErr result (out.new.items ≡ out.old.items) }
    {
        let logs = L::first(alloc, &part)?;
        let kernel = Kernel::new(alloc, part, stimulus, horizon, out)?;
        Ok(Block {
            kernel,
            logs,
            batch: Batch::new(alloc),
        })
    }

    /// What is true of every block: its log and saved states are those of running what it has received, in order of
    /// time, from the start.
    pub fn law(&self)
        ensures { IsLawfulProcess self.now }
    {
        self.kernel.law();
    }

    /// Takes one message, or antimessage: the number that it names goes up, or down, by one. Where this changes what
    /// is processed, the block rolls back to the message's time, and the antimessages of what it has to take back go
    /// behind `out`.
    ///
    /// A message for another block or net, past the horizon, below the floor, or past the greatest number of an entry
    /// is refused, for the first of these causes; want of memory comes last. After an error nothing has changed.
    pub fn receive(&mut self, message: Message, out: &mut Vec<Message>) -> Result<(), BlockFault>
        ensures accepted { OnOk result (refusal_of self.old.seen message ≡ None) }
        ensures taken { OnOk result (IsTaken self.old.seen self.new.seen message) }
        ensures sends { OnOk result (SendsOnce self.old.seen self.new.seen Minus (λ t. message.time < t) out.old.items out.new.items) }
        ensures refused { IfErr result (IsRefusal (refusal_of self.old.seen message)) }
        ensures err { OnErr result (self.new ≡ self.old) }
        ensures untold { OnErr result (out.new.items ≡ out.old.items) }
    {
        self.kernel.law();
        if self.kernel.receive(&mut self.batch, message, out)? {
            self.logs.shorten(self.kernel.part(), &self.batch);
        }
        Ok(())
    }

    /// Finishes up to so many event times, and answers how many: fewer only where none is left. The messages on new
    /// changes go behind `out`.
    ///
    /// The one error is want of memory; after it fewer event times are finished, and these and what they sent stand.
    pub fn advance(&mut self, steps: u32, out: &mut Vec<Message>) -> Result<u32, BlockFault>
        ensures ok { IfOk result (IsAdvanced self.old.seen self.new.seen) }
        ensures all { IfOk result (λ count. (count ≡ steps) ⊎ ((count < steps) × IsDone self.new.seen)) }
        ensures memory { IfErr result (λ fault. fault ≡ BlockFault.Memory) }
        ensures some { OnErr result ((count : ℕ) × (count < steps) × IsAdvanced self.old.seen self.new.seen count) }
        ensures sends { SendsOnce self.old.seen self.new.seen Plus (IsAfterEvent self.old.seen) out.old.items out.new.items }
    {
        if steps == 0 {
            return Ok(0);
        }
        self.kernel.law();
        let mark = self.kernel.mark();
        let sent = out.len();
        let finished = self.kernel.advance(&mut self.batch, steps, out)?;
        let reached = self.kernel.mark();
        let horizon = self.kernel.horizon();
        match self
            .logs
            .lengthen(self.kernel.part(), &self.batch, reached, horizon)
        {
            Ok(()) => Ok(finished),
            Err(error) => {
                self.kernel.give_up(mark);
                out.truncate(sent);
                Err(error.into())
            }
        }
    }

    /// Commits everything below a floor, which may be past the horizon: no message may come for it any more. Entries
    /// and logs stay; of the saved states up to the floor the newest stays. Takes no memory.
    ///
    /// A floor below the block's own, one above an event time, and one above an entry that isn't settled are refused,
    /// for the first of these causes; the entry named is the first by net, then time. After an error nothing has
    /// changed.
    pub fn commit(&mut self, floor: u64) -> Result<(), BlockFault>
        ensures ok { OnOk result (IsCommitted self.old self.new floor) }
        ensures possible { OnOk result (IsCommittable self.old.seen floor) }
        ensures refused { IfErr result (IsCommitRefusal self.old.seen floor) }
        ensures err { OnErr result (self.new ≡ self.old) }
    {
        self.kernel.commit(floor)
    }

    /// The part of the circuit.
    pub fn part(&self) -> &Part
        ensures { result.now ≡ self.now.seen.part }
    {
        self.kernel.part()
    }

    /// The last time that counts.
    pub fn horizon(&self) -> u64
        ensures { result ≡ self.now.seen.horizon }
    {
        self.kernel.horizon()
    }

    /// Everything below it is processed.
    pub fn mark(&self) -> u64
        ensures { result ≡ self.now.seen.mark }
    {
        self.kernel.mark()
    }

    /// Everything below it is committed: processed, and settled.
    pub fn floor(&self) -> u64
        ensures { result ≡ self.now.seen.floor }
    {
        self.kernel.floor()
    }

    /// The least event time.
    pub fn next_time(&self) -> Option<u64>
        ensures { IsLeast (IsEventTime self.now.seen) result }
    {
        self.kernel.next_time()
    }

    /// How many event times from a time on are finished; the time isn't below the floor nor past the mark.
    pub fn finished_from(&self, time: u64) -> u64
        requires floor { self.now.seen.floor ≤ time }
        requires mark { time ≤ self.now.seen.mark }
        ensures { result ≡ busy_times self.now.seen time self.now.seen.mark }
    {
        self.kernel.finished_from(time)
    }

    /// Whether no event time is left.
    pub fn done(&self) -> bool
        ensures { IsTrue result ↔ IsDone self.now.seen }
    {
        self.next_time().is_none()
    }

    /// About how many changes it has made, those aside that were taken back. It sets the pace of a run alone.
    pub fn made(&self) -> u64 {
        self.kernel.made()
    }

    /// The entry of a net at a time; empty for a net that the block doesn't read, and for an own one.
    pub fn entry(&self, net: u32, time: u64) -> Entry
        ensures { result ≡ entry_of self.now.seen net time }
    {
        self.kernel.entry(net, time)
    }

    /// The least time from a time on at which the entry of a net isn't empty.
    pub fn next_entry(&self, net: u32, from: u64) -> Option<u64>
        ensures { IsLeast (λ t. (from ≤ t) × (entry_of self.now.seen net t ≢ no_messages)) result }
    {
        self.kernel.next_entry(net, from)
    }

    /// The first entry that isn't settled, by net, then time.
    pub fn first_unsettled(&self) -> Option<(u32, u64)>
        ensures none { IfNone result ((n t : ℕ) → IsUnsettledBelow self.now.seen (self.now.seen.horizon + 1) n t → ⊥) }
        ensures some { IfSome result (λ place. IsFirstUnsettled self.now.seen (self.now.seen.horizon + 1) place.0 place.1) }
    {
        self.kernel.first_unsettled()
    }

    /// For each net of the part the changes that the messages tell which stand, in order of time. An error is a refused growth.
    pub fn told(&self) -> Result<Vec<Vec<Change>>, AllocError>
        ensures count { IfOk result (λ lists. vec_len lists ≡ length self.now.seen.part.nets) }
        ensures told { IfOk result (λ lists. (i : ℕ) → i < length self.now.seen.part.nets → IsToldOf self.now.seen (slice_index self.now.seen.part.nets i) (get_or (lists_in lists.items) i [])) }
    {
        self.kernel.told()
    }

    /// The log of a net that other blocks read, as [`Block::log`] answers it; none of another net.
    pub fn read_log(&self, net: u32) -> Option<&[Change]>
        ensures some { IfSome result (λ log. log.now ≡ log_of self.now.seen net) }
        ensures none { IfNone result (readers_of self.now.seen.part net ≡ []) }
    {
        self.kernel.law();
        let part = self.kernel.part();
        let slot = part.slot(net)?;
        if part.readers(slot).is_empty() {
            return None;
        }
        Some(self.logs.of_read(part, slot))
    }

    /// The part, and the history up to the horizon: of each own net what its log says, in the order of time. There is no answer where
    /// something is left to do, or where memory is wanted for what nobody reads.
    pub fn into_history(self) -> Option<(Part, Steps<Word>)>
        ensures part { IfSome result (λ told. told.0 ≡ self.seen.part) }
        ensures history { IfSome result (λ told. TellLogs self.seen told.1) }
        ensures done { IfSome result (λ _. IsDone self.seen) }
    {
        let Block {
            kernel,
            mut batch,
            ..
        } = self;
        kernel.law();
        let (heard, history) = kernel.end(&mut batch);
        Some((heard.into_part(), history?))
    }
}

impl Block {
    /// A block that keeps the logs of all its nets, and has received nothing but the stimulus's changes up to the horizon, as
    /// [`Block::open`] answers it.
    pub fn new(
        alloc: Global,
        part: Part,
        stimulus: &Stimulus,
        horizon: u64,
        out: &mut Vec<Message>,
    ) -> Result<Block, AllocError>
        requires { horizon ≤ most_horizon }
        ensures opening { IfOk result (λ block. block.seen ≡ opening_view part stimulus.now horizon) }
        ensures sends { IfOk result (λ block. SendsOnce (silent_view part stimulus.now horizon) block.seen Plus (λ t. t ≡ 0) out.old.items out.new.items) }
        ensures told { OnOk result (out.new.items ≡ out.old.items ++ opening_messages part) }
        ensures untold { OnErr result (out.new.items ≡ out.old.items) }
    {
        Block::open(alloc, part, stimulus, horizon, out)
    }

    /// What it holds, its saved states aside.
    pub fn look(&self) -> Result<Look, AllocError>
        ensures { IfOk result (λ look. look ≡ self.now.seen) }
    {
        let alloc = self.kernel.alloc();
        let lists = self.logs.lists.copy(alloc)?;
        let heard = self.kernel.copy_heard(alloc)?;
        self.law();
        Ok(Look::new(heard, self.mark(), lists))
    }

    /// The changes of a net that the block has computed, after the initial content of a flip-flop, committed ones
    /// included; none of a net that it doesn't own.
    pub fn log(&self, net: u32) -> &[Change]
        ensures { result.now ≡ log_of self.now.seen net }
    {
        self.kernel.law();
        match self.kernel.part().slot(net) {
            Some(slot) => self.logs.lists.changes(slot),
            None => &[],
        }
    }

    /// Gives the log of each own net to its place among lists that have one for each net of the circuit, in place of what
    /// stood there; the other lists stay. The block is consumed, and no change is copied: this takes no memory.
    pub fn give_logs(self, lists: &mut Vec<Vec<Change>>)
        requires places { All (λ net. net < vec_len lists.old) self.seen.part.nets }
        ensures len { vec_len lists.new ≡ vec_len lists.old }
        ensures own { (n : ℕ) → IsTrue (owns self.seen.part n) → wave_of (lists_in lists.new.items) n ≡ log_of self.seen n }
        ensures others { (n : ℕ) → owns self.seen.part n ≡ false → wave_of (lists_in lists.new.items) n ≡ wave_of (lists_in lists.old.items) n }
    {
        self.kernel.law();
        let part = self.kernel.into_part();
        give(&part, self.logs.lists.into_vec(), lists);
    }

    /// Gives the logs away, as [`Block::give_logs`] does, and answers the block's part and its history up to the horizon: of each own net
    /// what its log says, in the order of time. There is no answer where something is left to do, or where memory is wanted for what
    /// nobody reads.
    pub fn give_history(self, lists: &mut Vec<Vec<Change>>) -> Option<(Part, Steps<Word>)>
        requires places { All (λ net. net < vec_len lists.old) self.seen.part.nets }
        ensures len { vec_len lists.new ≡ vec_len lists.old }
        ensures own { (n : ℕ) → IsTrue (owns self.seen.part n) → wave_of (lists_in lists.new.items) n ≡ log_of self.seen n }
        ensures others { (n : ℕ) → owns self.seen.part n ≡ false → wave_of (lists_in lists.new.items) n ≡ wave_of (lists_in lists.old.items) n }
        ensures part { IfSome result (λ told. told.0 ≡ self.seen.part) }
        ensures history { IfSome result (λ told. TellLogs self.seen told.1) }
        ensures done { IfSome result (λ _. IsDone self.seen) }
    {
        let Block {
            kernel,
            logs,
            mut batch,
        } = self;
        kernel.law();
        let (heard, history) = kernel.end(&mut batch);
        let part = heard.into_part();
        give(&part, logs.lists.into_vec(), lists);
        Some((part, history?))
    }
}
