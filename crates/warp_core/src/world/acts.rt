//! What blocks do in an event.

ghost use Rattle.std.specs.Prelude.{◌≡◌, ◌<◌, ◌≤◌, ◌⊎◌, ℕ, None, IfOk, IfErr, OnOk, OnErr, length, get_or};
ghost use Rattle.std.specs.List.{remove};
ghost use Rattle.warp_process.specs.declared.message.Sign.TheVariants.{Plus, Minus};
ghost use Rattle.warp_process.specs.declared.fault.BlockFault.TheVariants as fault;
ghost use Rattle.warp_process.specs.Receive.{refusal_of, IsTaken};
ghost use Rattle.warp_process.specs.Advance.{IsAdvanced, IsAfterEvent};
ghost use Rattle.warp_process.specs.Commit.{IsCommittable, IsCommitted};
ghost use Rattle.warp_process.specs.Lawful.{IsLawful};
ghost use Rattle.warp_process.specs.Sends.{SendsOnce};
ghost use Rattle.warp_process.specs.View.{IsDone};
ghost use Rattle.warp_core.specs.Matched.{no_process, seen_at};
ghost use Rattle.warp_core.specs.Play.{IsOtherwiseSame};
ghost use Rattle.warp_core.specs.Inner.Kept.{IsNextTime, AreNextTimes};

use warp_block::{Block, BlockFault, Message};

/// A message, which its block takes, reaches it. The one error is want of memory.
pub(crate) fn receive_one(
    blocks: &mut Vec<Block>,
    flight: &mut Vec<Message>,
    message: Message,
) -> Result<(), BlockFault>
    requires block { message.block < length blocks.old.items }
    requires taken { refusal_of (seen_at blocks.old.items message.block) message ≡ None }
    ensures others { OnOk result (IsOtherwiseSame blocks.old.items blocks.new.items message.block) }
    ensures taken { OnOk result (IsTaken (seen_at blocks.old.items message.block) (seen_at blocks.new.items message.block) message) }
    ensures sends { OnOk result (SendsOnce (seen_at blocks.old.items message.block) (seen_at blocks.new.items message.block) Minus (λ t. message.time < t)
        flight.old.items flight.new.items) }
    ensures lawful { OnOk result (IsLawful (seen_at blocks.new.items message.block)) }
    ensures memory { IfErr result (λ cause. cause ≡ fault.Memory) }
    ensures err { OnErr result (blocks.new.items ≡ blocks.old.items) }
    ensures untold { OnErr result (flight.new.items ≡ flight.old.items) }
{
    let block = &mut blocks[message.block as usize];
    match block.receive(message, flight) {
        Ok(()) => {
            block.law();
            Ok(())
        }
        Err(cause) => Err(cause),
    }
}

/// The message at a place, which its block takes, reaches it and leaves the list. The one error is want of memory.
pub(super) fn hand_over(
    blocks: &mut Vec<Block>,
    flight: &mut Vec<Message>,
    place: usize,
    message: Message,
) -> Result<(), BlockFault>
    requires within { place < length flight.old.items }
    requires at { message ≡ get_or flight.old.items place message }
    requires block { message.block < length blocks.old.items }
    requires taken { refusal_of (seen_at blocks.old.items message.block) message ≡ None }
    ensures others { OnOk result (IsOtherwiseSame blocks.old.items blocks.new.items message.block) }
    ensures taken { OnOk result (IsTaken (seen_at blocks.old.items message.block) (seen_at blocks.new.items message.block) message) }
    ensures sends { OnOk result (SendsOnce (seen_at blocks.old.items message.block) (seen_at blocks.new.items message.block) Minus (λ t. message.time < t)
        (remove flight.old.items place) flight.new.items) }
    ensures lawful { OnOk result (IsLawful (seen_at blocks.new.items message.block)) }
    ensures memory { IfErr result (λ cause. cause ≡ fault.Memory) }
    ensures err { OnErr result (blocks.new.items ≡ blocks.old.items) }
    ensures untold { OnErr result (flight.new.items ≡ flight.old.items) }
{
    receive_one(blocks, flight, message)?;
    flight.remove(place);
    Ok(())
}

/// A block finishes up to so many event times.
pub(crate) fn run(
    blocks: &mut Vec<Block>,
    flight: &mut Vec<Message>,
    number: u32,
    steps: u32,
) -> Result<u32, BlockFault>
    requires { number < length blocks.old.items }
    ensures others { IsOtherwiseSame blocks.old.items blocks.new.items number }
    ensures ok { IfOk result (IsAdvanced (seen_at blocks.old.items number) (seen_at blocks.new.items number)) }
    ensures all { IfOk result (λ count. (count ≡ steps) ⊎ ((count < steps) × IsDone (seen_at blocks.new.items number))) }
    ensures some { OnErr result ((count : ℕ) × (count < steps) × IsAdvanced (seen_at blocks.old.items number) (seen_at blocks.new.items number) count) }
    ensures sends { SendsOnce (seen_at blocks.old.items number) (seen_at blocks.new.items number) Plus (IsAfterEvent (seen_at blocks.old.items number))
        flight.old.items flight.new.items }
    ensures lawful { IsLawful (seen_at blocks.new.items number) }
    ensures memory { IfErr result (λ cause. cause ≡ fault.Memory) }
{
    let block = &mut blocks[number as usize];
    let answer = block.advance(steps, flight);
    block.law();
    answer
}

/// All blocks, each of which can, commit what is below a time.
pub(super) fn commit_all(blocks: &mut Vec<Block>, time: u64)
    requires { (b : ℕ) → b < length blocks.old.items → IsCommittable (seen_at blocks.old.items b) time }
    ensures count { length blocks.new.items ≡ length blocks.old.items }
    ensures committed { (b : ℕ) → b < length blocks.old.items → IsCommitted (get_or blocks.old.items b no_process) (get_or blocks.new.items b no_process) time }
    ensures lawful { (b : ℕ) → b < length blocks.old.items → IsLawful (seen_at blocks.new.items b) }
{
    for number in 0..blocks.len() {
        commit_one(&mut blocks[number], time);
    }
}

/// A block, which can, commits what is below a time.
fn commit_one(block: &mut Block, time: u64)
    requires { IsCommittable block.old.seen time }
    ensures committed { IsCommitted block.old block.new time }
    ensures lawful { IsLawful block.new.seen }
{
    block.commit(time).unwrap();
    block.law();
}

/// The least event time of a block, or an end where there is none.
pub(super) fn next_of(block: &Block, end: u64) -> u64
    ensures { IsNextTime block.now.seen end result }
{
    block.next_time().unwrap_or(end)
}

/// Notes the least event time of each block, or an end where there is none, in place of those that are noted.
pub(super) fn note_next_times(next: &mut Vec<u64>, blocks: &[Block], end: u64)
    requires { length next.old.items ≡ length blocks.now }
    ensures { AreNextTimes blocks.now end next.new.items }
{
    for number in 0..blocks.len() {
        next[number] = next_of(&blocks[number], end);
    }
}
