ghost use Rattle.std.specs.Prelude.{◌≡◌, ◌≢◌, ℕ, ◌<◌, ◌≤◌, ◌++◌, [], ◌∷◌, length, IfOk, OnOk, OnErr, IsTrue, ◌↔◌, slice_set, replicate};
ghost use Rattle.net_waves.specs.Waves.{lists_in, wave_of, Follows, IsWave};
ghost use Rattle.net_waves.specs.Stops.{AreStopsOf};
ghost use Rattle.net_waves.specs.ByTime.{stops_in};

use crate::by_time::ByTime;
use crate::timeline::Stop;
use gate_values::{Change, Logic};
use std::alloc::{AllocError, Global};
use std::marker::Model;
use std::thread::Threads;

/// The changes of each net of a circuit: times rise, and each value is other than the one before, which
/// is `X` at first. Contracts see the list of these lists.
#[derive(Drop)]
pub struct Waves {
    lists: Vec<Vec<Change>>,
    by_time: ByTime,
}

impl Model for Waves {
    ghost use Rattle.std.specs.Prelude.{List};
    ghost use Rattle.gate_values.specs.declared.logic.Change.{Change};

    ghost Value = { List (List Change) };

    ghost use Rattle.net_waves.specs.Inner.HeldWaves.{IsInStep};
    ghost use Rattle.net_waves.specs.Shown.HeldWaves.{lists_of};
    ghost use Rattle.net_waves.specs.ByTime.{stops_in};

    ghost view = { lists_of };

    ghost invariant = { λ w. IsInStep (lists_of w) (stops_in w.by_time) };
}

fn differs(value: Logic, other: Logic) -> bool
    ensures { IsTrue result ↔ (value ≢ other) }
{
    value != other
}

/// Whether a change may stand behind others: it is later than the last one, and of another value.
fn may_follow(changes: &[Change], change: Change) -> bool
    ensures { IsTrue result ↔ Follows changes.now change }
{
    match changes {
        [] => change.value != Logic::X,
        [.., last] => {
            if change.time <= last.time {
                return false;
            }
            differs(change.value, last.value)
        }
    }
}

/// Whether changes are those of a net: times rise, and each value is other than the one before, which is
/// `X` at first.
pub fn is_wave(changes: &[Change]) -> bool
    ensures { IsTrue result ↔ IsWave changes.now }
{
    for at in 0..changes.len() {
        if !may_follow(&changes[..at], changes[at]) {
            return false;
        }
    }
    true
}

/// Whether each of these lists has the changes of a net.
pub fn are_waves(lists: &[Vec<Change>]) -> bool
    ensures { IsTrue result ↔ ((n : ℕ) → IsWave (wave_of (lists_in lists.now) n)) }
{
    for list in lists {
        if !is_wave(list.as_slice()) {
            return false;
        }
    }
    true
}

impl Waves {
    /// Waves without a change, over so many nets. An error is a refused growth.
    pub fn new(alloc: Global, nets: u32) -> Result<Waves, AllocError>
        ensures { IfOk result (λ waves. waves ≡ replicate nets []) }
    {
        let mut lists = Vec::with_capacity(alloc, nets as usize)?;
        for _net in 0..nets {
            lists.push(Vec::new(alloc))?;
        }
        Ok(Waves {
            lists,
            by_time: ByTime::new(alloc),
        })
    }

    /// Waves of changes, a list for each net. An error is a refused growth.
    pub fn of(alloc: Global, lists: Vec<Vec<Change>>) -> Result<Waves, AllocError>
        requires few { length lists.items ≤ 4294967295 }
        requires waves { (n : ℕ) → IsWave (wave_of (lists_in lists.items) n) }
        ensures { IfOk result (λ waves. waves ≡ lists_in lists.items) }
    {
        let by_time = ByTime::of(alloc, lists.as_slice())?;
        Ok(Waves { lists, by_time })
    }

    /// The same, where up to so many threads, at least one, put changes of dense times into their order.
    pub fn of_by<R: Threads + Sync>(
        rt: &R,
        alloc: Global,
        threads: u32,
        lists: Vec<Vec<Change>>,
    ) -> Result<Waves, AllocError>
        requires threads { 1 ≤ threads }
        requires few { length lists.items ≤ 4294967295 }
        requires waves { (n : ℕ) → IsWave (wave_of (lists_in lists.items) n) }
        ensures { IfOk result (λ waves. waves ≡ lists_in lists.items) }
    {
        let by_time = ByTime::of_by(rt, alloc, threads, lists.as_slice())?;
        Ok(Waves { lists, by_time })
    }

    /// Waves of changes, a list for each net, and the same changes by time.
    pub fn with(lists: Vec<Vec<Change>>, by_time: ByTime) -> Waves
        requires few { length lists.items ≤ 4294967295 }
        requires waves { (n : ℕ) → IsWave (wave_of (lists_in lists.items) n) }
        requires in_step { AreStopsOf (lists_in lists.items) (stops_in by_time) }
        ensures { result ≡ lists_in lists.items }
    {
        Waves { lists, by_time }
    }

    /// What is true of all waves.
    pub fn law(&self)
        ensures { (n : ℕ) → IsWave (wave_of self.now n) }
    {
        let _ = &self.lists;
    }

    /// The number of nets.
    pub fn nets(&self) -> u32
        ensures { result ≡ length self.now }
    {
        self.lists.len() as u32
    }

    /// The changes of a net.
    pub fn changes(&self, net: u32) -> &[Change]
        requires { net < length self.now }
        ensures { result.now ≡ wave_of self.now net }
    {
        self.lists[net as usize].as_slice()
    }

    /// Whether a change may be pushed: it is later than the last one of the net, and of another value.
    pub fn follows(&self, net: u32, change: Change) -> bool
        requires { net < length self.now }
        ensures { IsTrue result ↔ Follows (wave_of self.now net) change }
    {
        may_follow(self.changes(net), change)
    }

    /// Appends a change to those of a net. An error is a refused growth; after it nothing has changed.
    pub fn push(&mut self, net: u32, change: Change) -> Result<(), AllocError>
        requires known { net < length self.old }
        requires follows { Follows (wave_of self.old net) change }
        ensures ok { OnOk result (self.new ≡ slice_set self.old net (wave_of self.old net ++ change ∷ [])) }
        ensures err { OnErr result (self.new ≡ self.old) }
    {
        let at = net as usize;
        self.lists[at].reserve(1)?;
        self.by_time.push(Stop {
            time: change.time,
            net,
            value: change.value,
        })?;
        self.lists[at].push_reserved(change);
        Ok(())
    }

    /// All changes by time.
    pub fn by_time(&self) -> &ByTime
        ensures { AreStopsOf self.now (stops_in result.now) }
    {
        &self.by_time
    }

    /// The lists, and all changes by time.
    pub fn into_parts(self) -> (Vec<Vec<Change>>, ByTime)
        ensures lists { lists_in result.0.items ≡ self }
        ensures by_time { AreStopsOf self (stops_in result.1) }
    {
        let Waves { lists, by_time } = self;
        (lists, by_time)
    }

    /// All changes by time, without the lists.
    pub fn into_by_time(self) -> ByTime
        ensures { AreStopsOf self (stops_in result) }
    {
        let Waves { lists: _, by_time } = self;
        by_time
    }
}
