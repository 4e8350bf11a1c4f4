//! Event times since the oldest saved state.
ghost use Rattle.std.specs.Prelude.{◌≡◌, ◌≤◌, ◌<◌, ◌-◌, ◌++◌, ◌∷◌, [], OnOk, OnErr, nat_lt, take, drop, length};
ghost use Rattle.std.specs.List.{All, filter};
ghost use Rattle.event_times.specs.Marks.{IsKept, IsRising};

use std::alloc::{AllocError, Global};
use std::collections::VecDeque;
use std::marker::Model;

/// A state is saved at a first mark, and after this many event times since the newest.
pub const SAVE_EVERY: usize = 8;

/// The event times since the oldest saved state.
#[derive(Debug, Drop)]
pub struct Times {
    first: u64,
    times: VecDeque<u64>,
}

impl Model for Times {
    ghost use Rattle.event_times.specs.Marks.{Played, IsRising};

    ghost Value = { Played };

    ghost view = { λ t. record { first = t.first; times = t.times.items } };

    ghost invariant = { λ t. IsRising 0 t.times.items };
}

impl Times {
    /// No event time; a state is saved at mark 0.
    pub fn new(alloc: Global) -> Times
        ensures { result ≡ record { first = 0; times = [] } }
    {
        Times {
            first: 0,
            times: VecDeque::new(alloc),
        }
    }

    /// The mark of the oldest saved state.
    pub fn oldest(&self) -> u64
        ensures { result ≡ self.now.first }
    {
        self.first
    }

    /// One event time more, later than all. An error is a refused growth; then all stays.
    pub fn push(&mut self, time: u64) -> Result<(), AllocError>
        requires { All (λ t. t < time) self.old.times }
        ensures ok { OnOk result (self.new ≡ record self.old { times = self.old.times ++ time ∷ [] }) }
        ensures err { OnErr result (self.new ≡ self.old) }
    {
        self.times.push_back(time)?;
        Ok(())
    }

    /// How many event times there are from a time on.
    pub fn count_from(&self, time: u64) -> usize
        ensures { result ≡ length self.now.times - length (filter (λ t. nat_lt t time) self.now.times) }
    {
        self.times.len() - count_before(&self.times, time)
    }

    /// Takes back the event times from a time on.
    pub fn cut_from(&mut self, time: u64)
        ensures { self.new ≡ record self.old { times = filter (λ t. nat_lt t time) self.old.times } }
    {
        let left = count_before(&self.times, time);
        self.times.truncate(left);
    }

    /// Of the saved states up to a floor the newest stays, and those after it.
    pub fn keep_from(&mut self, floor: u64)
        ensures { IsKept floor self.old self.new }
    {
        let mut gone = 0;
        while self.times.len() - gone >= SAVE_EVERY {
            let last = self.times[gone + SAVE_EVERY - 1];
            if last >= floor {
                break;
            }
            self.first = last + 1;
            gone += SAVE_EVERY;
        }
        drop_front(&mut self.times, gone);
    }
}

/// How many of ascending times are before one, sought from the last.
fn count_before(times: &VecDeque<u64>, time: u64) -> usize
    requires { IsRising 0 times.now.items }
    ensures within { result ≤ length times.now.items }
    ensures before { take result times.now.items ≡ filter (λ t. nat_lt t time) times.now.items }
{
    let mut left = times.len();
    while left > 0 && times[left - 1] >= time {
        left -= 1;
    }
    left
}

/// Drops the first few items. The others stay where they are, since they may be many more.
fn drop_front(items: &mut VecDeque<u64>, count: usize)
    ensures { items.new.items ≡ drop count items.old.items }
{
    for _ in 0..count {
        items.pop_front();
    }
}
