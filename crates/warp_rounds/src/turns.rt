ghost use Rattle.std.specs.Prelude.{◌≡◌, ◌⊎◌, ℕ, IfOk, IfErr, OnOk};
ghost use Rattle.warp_process.specs.View.{IsEventTime, IsLeast};
ghost use Rattle.warp_process.specs.Inner.View.{earlier_of};
ghost use Rattle.warp_process.specs.Sends.{Sends};
ghost use Rattle.warp_rounds.specs.Turn.{AreReceived, AddsUp, IsPending, IsAfterPending, IsLeastPending, IsRefusedAt, IsTurn, IsFaultyTurn, put_behind};
ghost use Rattle.warp_rounds.specs.Counts.{IsCounted};
ghost use Rattle.warp_rounds.specs.Inner.Turn.{IsFromPending, AreFelt};

use crate::counts;
use crate::counts::Counts;
use warp_block::{Block, BlockFault, Logs, Message};

/// What a turn answers.
#[derive(Clone, Copy, Debug, PartialEq, Eq)]
pub struct TurnReport {
    /// The least of the block's next time and the times of what the turn sent; the horizon and one, where there is
    /// none.
    pub least: u64,
}

/// What a turn did, beside what it reports.
#[derive(Clone, Copy)]
pub(crate) struct Turned {
    pub report: TurnReport,
    /// By how much its messages took the block's mark back, and by how much the mark rose then.
    pub fallen: u64,
    pub risen: u64,
    /// How many event times it finished.
    pub finished: u32,
    /// About how many changes were made at them; as many as these, where no more is known.
    pub changes: u64,
    /// How many that were finished before it took back, where that is known.
    pub undone: u64,
    /// The block's next time after it.
    pub next: Option<u64>,
}

/// What a block does at one go: it receives the messages in order, commits what is below the floor, and finishes up to
/// `window` event times. What it sends goes behind `out`.
///
/// The faults are those of [`Block::receive`], [`Block::commit`] and [`Block::advance`]. What was done and sent before a
/// fault stands.
pub fn turn<L: Logs>(
    block: &mut Block<L>,
    messages: &[Message],
    floor: u64,
    window: u32,
    out: &mut Vec<Message>,
) -> Result<TurnReport, BlockFault>
    ensures part { block.new.seen.part ≡ block.old.seen.part }
    ensures horizon { block.new.seen.horizon ≡ block.old.seen.horizon }
    ensures floor { OnOk result (block.new.seen.floor ≡ floor) }
    ensures numbers { OnOk result (AddsUp block.old.seen block.new.seen messages.now) }
    ensures turn { OnOk result (IsTurn block.old block.new messages.now floor window) }
    ensures least { IfOk result (λ report. IsLeastPending block.new.seen (put_behind out.old.items out.new.items) report.least) }
    ensures fault { IfErr result (IsFaultyTurn block.old block.new messages.now floor window) }
    ensures sends { Sends block.old.seen block.new.seen (IsAfterPending block.old.seen messages.now) out.old.items out.new.items }
{
    let mut counts = Counts::of(block);
    let turned = turn_through(block, &mut counts, messages, floor, window, out)?;
    Ok(turned.report)
}

/// A turn, with what it did beside what it reports. It is counted.
pub(crate) fn turn_through<L: Logs>(
    block: &mut Block<L>,
    counts: &mut Counts,
    messages: &[Message],
    floor: u64,
    window: u32,
    out: &mut Vec<Message>,
) -> Result<Turned, BlockFault>
    requires counted { IsCounted block.old.seen counts.old }
    ensures counted { IsCounted block.new.seen counts.new }
    ensures part { block.new.seen.part ≡ block.old.seen.part }
    ensures horizon { block.new.seen.horizon ≡ block.old.seen.horizon }
    ensures floor { OnOk result (block.new.seen.floor ≡ floor) }
    ensures numbers { OnOk result (AddsUp block.old.seen block.new.seen messages.now) }
    ensures turn { OnOk result (IsTurn block.old block.new messages.now floor window) }
    ensures least { IfOk result (λ turned. IsLeastPending block.new.seen (put_behind out.old.items out.new.items) turned.report.least) }
    ensures fallen { IfOk result (λ turned. AreFelt block.old.seen messages.now turned.fallen) }
    ensures fault { IfErr result (IsFaultyTurn block.old block.new messages.now floor window) }
    ensures sends { Sends block.old.seen block.new.seen (IsAfterPending block.old.seen messages.now) out.old.items out.new.items }
{
    let start = out.len();
    let mark = block.mark();
    receive_all(block, counts, messages, out)?;
    let heard = block.mark();
    let fallen = mark.saturating_sub(heard);
    let antimessages = out.len().saturating_sub(start);
    counts::commit(block, counts, floor)?;
    let finished = counts::advance(block, counts, window, out)?;
    let sent = out.len().saturating_sub(start);
    counts.end_turn(sent.saturating_sub(antimessages), antimessages);
    let next = block.next_time();
    let least = least_pending(block, next, &out[start..]);
    Ok(Turned {
        report: TurnReport {
            least: least.unwrap_or(block.horizon() + 1),
        },
        fallen,
        risen: block.mark().saturating_sub(heard),
        finished,
        changes: u64::from(finished),
        undone: 0,
        next,
    })
}

/// Receives some messages in order, up to one that is refused.
fn receive_all<L: Logs>(
    block: &mut Block<L>,
    counts: &mut Counts,
    messages: &[Message],
    out: &mut Vec<Message>,
) -> Result<(), BlockFault>
    requires counted { IsCounted block.old.seen counts.old }
    ensures counted { IsCounted block.new.seen counts.new }
    ensures received { OnOk result (AreReceived block.old.seen block.new.seen messages.now) }
    ensures refused { IfErr result (IsRefusedAt block.old.seen block.new.seen messages.now) }
    ensures pending { (t : ℕ) → IsEventTime block.new.seen t → IsFromPending block.old.seen messages.now t }
    ensures sends { Sends block.old.seen block.new.seen (IsAfterPending block.old.seen messages.now) out.old.items out.new.items }
{
    block.law();
    for message in messages {
        match counts::receive(block, counts, *message, out) {
            Ok(()) => {}
            Err(fault) => return Err(fault),
        }
    }
    Ok(())
}

/// The least of the next time of a block, which is known, and the times of some messages.
pub(crate) fn least_pending<L: Logs>(
    block: &Block<L>,
    next: Option<u64>,
    messages: &[Message],
) -> Option<u64>
    requires { IsLeast (IsEventTime block.now.seen) next }
    ensures { IsLeast (IsPending block.now.seen messages.now) result }
{
    let _ = block;
    let mut least = next;
    for message in messages {
        least = earlier(least, Some(message.time));
    }
    least
}

/// The lesser of two times, where there is one.
fn earlier(first: Option<u64>, second: Option<u64>) -> Option<u64>
    ensures { result ≡ earlier_of first second }
{
    match (first, second) {
        (Some(first), Some(second)) if first <= second => Some(first),
        (Some(first), None) => Some(first),
        _ => second,
    }
}
