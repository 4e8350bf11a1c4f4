//! What is counted of a block's turns, and of a run.
ghost use Rattle.std.specs.Prelude.{◌≡◌, ◌≤◌, ◌<◌, ◌+◌, ◌-◌, ◌^◌, ◌⊎◌, ℕ, None, IfOk, IfErr, OnOk, OnErr};
ghost use Rattle.warp_process.specs.declared.message.Sign.TheVariants.{Minus, Plus};
ghost use Rattle.warp_process.specs.declared.fault.BlockFault.TheVariants as block_fault;
ghost use Rattle.warp_process.specs.View.{busy_times, IsDone};
ghost use Rattle.warp_process.specs.Lawful.{IsLawful};
ghost use Rattle.warp_process.specs.Receive.{refusal_of, IsRefusal, IsTaken};
ghost use Rattle.warp_process.specs.Advance.{IsAdvanced, IsAfterEvent};
ghost use Rattle.warp_process.specs.Commit.{IsCommittable, IsCommitted, IsCommitRefusal};
ghost use Rattle.warp_process.specs.Sends.{SendsOnce};
ghost use Rattle.warp_rounds.specs.Counts.{IsCounted};

use warp_block::{Block, BlockFault, Logs, Message};

/// What is counted of a block's turns. The event times from `since` on count; in a run these are all. A count that is full
/// stays so, but that of the steps: where it would be passed, what was taken back until then is forgotten.
#[derive(Clone, Copy, Debug, PartialEq, Eq)]
pub struct Counts {
    /// The time from which on event times count.
    pub since: u64,
    /// How many turns it took, those aside that met a fault.
    pub turns: u64,
    /// How many event times were finished.
    pub steps: u64,
    /// How many of these were taken back, to be finished again or not.
    pub undone: u64,
    /// How many messages came too late, and took the block back to their time.
    pub rollbacks: u64,
    /// How many messages it sent, and how many antimessages.
    pub messages: u64,
    pub antimessages: u64,
}

/// What is counted of a run.
#[derive(Debug, Drop)]
pub struct RunCounts {
    /// How many rounds were played.
    pub rounds: u64,
    /// What is counted of each block, in the order of their numbers.
    pub blocks: Vec<Counts>,
}

impl Counts {
    /// Nothing yet of a block that finished some event times since its floor.
    fn since(floor: u64, steps: u64) -> Counts
        ensures since { result.since ≡ floor }
        ensures steps { result.steps ≡ steps }
        ensures undone { result.undone ≡ 0 }
    {
        Counts {
            since: floor,
            turns: 0,
            steps,
            undone: 0,
            rollbacks: 0,
            messages: 0,
            antimessages: 0,
        }
    }

    /// What is known of a block that has taken no turn yet. It counts from the block's floor on.
    pub(crate) fn of<L: Logs>(block: &Block<L>) -> Counts
        ensures { IsCounted block.now.seen result }
    {
        block.law();
        let floor = block.floor();
        Counts::since(floor, block.finished_from(floor))
    }

    /// One rollback more, which took so many event times back.
    fn roll_back(&mut self, count: u64)
        requires { self.old.undone + count ≤ self.old.steps }
        ensures since { self.new.since ≡ self.old.since }
        ensures steps { self.new.steps ≡ self.old.steps }
        ensures undone { self.new.undone ≡ self.old.undone + count }
    {
        self.undone += count;
        self.rollbacks = self.rollbacks.saturating_add(1);
    }

    /// So many event times more that were finished.
    fn advance(&mut self, count: u64)
        requires undone { self.old.undone ≤ self.old.steps }
        requires kept { self.old.steps - self.old.undone + count < 2 ^ 64 }
        ensures since { self.new.since ≡ self.old.since }
        ensures undone { self.new.undone ≤ self.new.steps }
        ensures kept { self.new.steps - self.new.undone ≡ self.old.steps - self.old.undone + count }
    {
        match self.steps.checked_add(count) {
            Some(steps) => self.steps = steps,
            None => {
                self.steps = self.steps - self.undone + count;
                self.undone = 0;
            }
        }
    }

    /// One turn more, which sent so many messages and antimessages.
    pub(crate) fn end_turn(&mut self, messages: usize, antimessages: usize)
        ensures since { self.new.since ≡ self.old.since }
        ensures steps { self.new.steps ≡ self.old.steps }
        ensures undone { self.new.undone ≡ self.old.undone }
    {
        self.turns = self.turns.saturating_add(1);
        self.tell(messages);
        self.antimessages = self.antimessages.saturating_add(antimessages as u64);
    }

    /// So many messages more that were sent.
    pub(crate) fn tell(&mut self, messages: usize)
        ensures since { self.new.since ≡ self.old.since }
        ensures steps { self.new.steps ≡ self.old.steps }
        ensures undone { self.new.undone ≡ self.old.undone }
    {
        self.messages = self.messages.saturating_add(messages as u64);
    }
}

/// How many event times from a time on a block has finished; none are sought where that isn't before its mark.
fn finished_after<L: Logs>(block: &Block<L>, time: u64) -> u64
    ensures { block.now.seen.floor ≤ time → time < block.now.seen.mark → result ≡ busy_times block.now.seen time block.now.seen.mark }
{
    if block.floor() <= time && time < block.mark() {
        return block.finished_from(time);
    }
    0
}

/// Receives a message, as [`Block::receive`] does, and counts what it takes back.
pub(crate) fn receive<L: Logs>(
    block: &mut Block<L>,
    counts: &mut Counts,
    message: Message,
    out: &mut Vec<Message>,
) -> Result<(), BlockFault>
    requires counted { IsCounted block.old.seen counts.old }
    ensures counted { IsCounted block.new.seen counts.new }
    ensures accepted { OnOk result (refusal_of block.old.seen message ≡ None) }
    ensures taken { OnOk result (IsTaken block.old.seen block.new.seen message) }
    ensures lawful { OnOk result (IsLawful block.new.seen) }
    ensures sends { OnOk result (SendsOnce block.old.seen block.new.seen Minus (λ t. message.time < t) out.old.items out.new.items) }
    ensures refused { IfErr result (IsRefusal (refusal_of block.old.seen message)) }
    ensures err { OnErr result (block.new ≡ block.old) }
    ensures untold { OnErr result (out.new.items ≡ out.old.items) }
{
    block.law();
    let mark = block.mark();
    let undone = finished_after(block, message.time);
    match block.receive(message, out) {
        Ok(()) => {
            block.law();
            if block.mark() < mark {
                counts.roll_back(undone);
                return Ok(());
            }
            Ok(())
        }
        Err(fault) => Err(fault),
    }
}

/// Commits what is below a floor, as [`Block::commit`] does: the counts stay.
pub(crate) fn commit<L: Logs>(
    block: &mut Block<L>,
    counts: &Counts,
    floor: u64,
) -> Result<(), BlockFault>
    requires counted { IsCounted block.old.seen counts.now }
    ensures counted { IsCounted block.new.seen counts.now }
    ensures ok { OnOk result (IsCommitted block.old block.new floor) }
    ensures lawful { OnOk result (IsLawful block.new.seen) }
    ensures possible { OnOk result (IsCommittable block.old.seen floor) }
    ensures refused { IfErr result (IsCommitRefusal block.old.seen floor) }
    ensures err { OnErr result (block.new ≡ block.old) }
{
    block.law();
    let _since = counts.since;
    match block.commit(floor) {
        Ok(()) => {
            block.law();
            Ok(())
        }
        Err(fault) => Err(fault),
    }
}

/// Finishes event times, as [`Block::advance`] does, and counts them.
pub(crate) fn advance<L: Logs>(
    block: &mut Block<L>,
    counts: &mut Counts,
    steps: u32,
    out: &mut Vec<Message>,
) -> Result<u32, BlockFault>
    requires counted { IsCounted block.old.seen counts.old }
    ensures counted { IsCounted block.new.seen counts.new }
    ensures ok { IfOk result (IsAdvanced block.old.seen block.new.seen) }
    ensures all { IfOk result (λ count. (count ≡ steps) ⊎ ((count < steps) × IsDone block.new.seen)) }
    ensures memory { IfErr result (λ fault. fault ≡ block_fault.Memory) }
    ensures some { OnErr result ((count : ℕ) × (count < steps) × IsAdvanced block.old.seen block.new.seen count) }
    ensures sends { SendsOnce block.old.seen block.new.seen Plus (IsAfterEvent block.old.seen) out.old.items out.new.items }
{
    block.law();
    let mark = block.mark();
    match block.advance(steps, out) {
        Ok(finished) => {
            block.law();
            counts.advance(u64::from(finished));
            Ok(finished)
        }
        Err(fault) => {
            block.law();
            counts.advance(block.finished_from(mark));
            Err(fault)
        }
    }
}
