//! What a block holds at a moment.
ghost use Rattle.std.specs.Prelude.{◌≡◌, ◌≢◌, ◌≤◌, ◌<◌, ◌↔◌, ℕ, IsTrue, IsSome, length, slice_index};
ghost use Rattle.std.specs.List.Sorted.{IsPartitionPoint};
ghost use Rattle.gate_values.specs.Changes.{pair_at};
ghost use Rattle.warp_process.specs.Entries.{no_messages};
ghost use Rattle.warp_process.specs.View.{IsLeast, IsEventTime, IsDone, entry_of, log_of, news_of};
ghost use Rattle.warp_process.specs.Lawful.{IsLawful};
ghost use Rattle.warp_process.specs.Inner.View.{earlier_of};
ghost use Rattle.warp_process.specs.Inner.Advance.{IsBusyFrom};
ghost use Rattle.warp_process.specs.Inner.Logs.{IsLog};

use gate_values::Change;
use std::marker::Model;
use warp_part::Part;
use warp_process::{Entry, Heard};
use warp_stores::Lists;

/// What a block holds, apart from its saved states: what it has received, what it has computed from that, and how
/// far it has come. Times are in the stimulus's timescale.
#[derive(Debug, Drop)]
pub struct Look {
    heard: Heard,
    mark: u64,
    lists: Lists,
}

impl Model for Look {
    ghost use Rattle.warp_process.specs.View.{View};

    ghost Value = { View };

    ghost use Rattle.warp_block.specs.Shown.Look.{view_of};
    ghost use Rattle.warp_process.specs.Lawful.{IsLawful};

    ghost view = { view_of };

    ghost invariant = { λ look. IsLawful (view_of look) };
}

impl Look {
    /// What is received, a mark, and logs that are lawful.
    pub(crate) fn new(heard: Heard, mark: u64, lists: Lists) -> Look
        requires { IsLawful (record heard { mark = mark; logs = lists }) }
        ensures { result ≡ record heard { mark = mark; logs = lists } }
    {
        Look { heard, mark, lists }
    }

    /// What is true of every block, its saved states aside: entries and mark determine the logs.
    pub fn law(&self)
        ensures { IsLawful self.now }
    {
        let _ = &self.mark;
    }

    /// The part of the circuit.
    pub fn part(&self) -> &Part
        ensures { result.now ≡ self.now.part }
    {
        self.heard.part()
    }

    /// The last time that counts.
    pub fn horizon(&self) -> u64
        ensures { result ≡ self.now.horizon }
    {
        self.heard.horizon()
    }

    /// Everything below it is processed.
    pub fn mark(&self) -> u64
        ensures { result ≡ self.now.mark }
    {
        self.mark
    }

    /// Everything below it is committed: processed, and settled.
    pub fn floor(&self) -> u64
        ensures { result ≡ self.now.floor }
    {
        self.heard.floor()
    }

    /// The least event time: from the mark to the horizon, one at which something happens to a net that a gate of
    /// the block reads.
    pub fn next_time(&self) -> Option<u64>
        ensures { IsLeast (IsEventTime self.now) result }
    {
        self.next_from(self.mark)
    }

    /// The least time from one on to the horizon at which something happens to a net that a gate of the block reads.
    fn next_from(&self, from: u64) -> Option<u64>
        ensures { IsLeast (IsBusyFrom self.now from) result }
    {
        let mut next = None;
        for slot in 0..self.part().len() {
            if self.part().is_used(slot) {
                next = earlier(next, self.next_news(slot, from));
            }
        }
        match next {
            Some(time) if time <= self.horizon() => Some(time),
            _ => None,
        }
    }

    /// Whether no event time is left.
    pub fn done(&self) -> bool
        ensures { IsTrue result ↔ IsDone self.now }
    {
        self.next_time().is_none()
    }

    /// The changes of a net that the block has computed, after the initial content of a flip-flop, committed ones
    /// included; none of a net that it doesn't own.
    pub fn log(&self, net: u32) -> &[Change]
        ensures { result.now ≡ log_of self.now net }
    {
        match self.part().slot(net) {
            Some(slot) => self.lists.changes(slot),
            None => &[],
        }
    }

    /// The entry of a net at a time; empty for a net that the block doesn't read, and for an own one.
    pub fn entry(&self, net: u32, time: u64) -> Entry
        ensures { result ≡ entry_of self.now net time }
    {
        self.heard.entry(net, time)
    }

    /// The least time from a time on at which the entry of a net isn't empty.
    pub fn next_entry(&self, net: u32, from: u64) -> Option<u64>
        ensures { IsLeast (λ t. (from ≤ t) × (entry_of self.now net t ≢ no_messages)) result }
    {
        self.heard.next_entry(net, from)
    }

    /// When something happens next to the net at a place, from a time on.
    fn next_news(&self, slot: usize, from: u64) -> Option<u64>
        requires { slot < length self.now.part.nets }
        ensures { IsLeast (λ t. (from ≤ t) × IsSome (news_of self.now (slice_index self.now.part.nets slot) t)) result }
    {
        if self.part().is_own(slot) {
            next_change(self.lists.changes(slot), from)
        } else {
            self.heard.next_effective(slot, from)
        }
    }
}

/// The least time from a time on at which a log has a change.
fn next_change(log: &[Change], from: u64) -> Option<u64>
    requires { IsLog log.now }
    ensures { IsLeast (λ t. (from ≤ t) × IsSome (pair_at log.now t)) result }
{
    let change = log.get(count_before(log, from))?;
    Some(change.time)
}

/// How many changes of a log are before a time.
fn count_before(log: &[Change], time: u64) -> usize
    requires { IsLog log.now }
    ensures { IsPartitionPoint (λ c. c.time < time) (λ c. time ≤ c.time) log.now result }
{
    log.partition_point(|change| change.time < time)
}

/// The lesser of two times, where there is one.
fn earlier(first: Option<u64>, second: Option<u64>) -> Option<u64>
    ensures { result ≡ earlier_of first second }
{
    match (first, second) {
        (Some(first), Some(second)) if first <= second => Some(first),
        (Some(first), None) => Some(first),
        _ => second,
    }
}
