//! All changes by time: in a word each where times are dense, else in a key each, and in runs where neither can be, as also once
//! a change is pushed.

ghost use Rattle.std.specs.Prelude.{◌≡◌, ◌≤◌, ◌+◌, ◌++◌, ℕ, [], true, false, IfOk, IfSome, OnOk, OnErr, length, map};
ghost use Rattle.net_waves.specs.declared.timeline.Stop.{Stop};
ghost use Rattle.net_waves.specs.Waves.{lists_in, wave_of};
ghost use Rattle.net_waves.specs.Inner.Lists.{IsRising};
ghost use Rattle.net_waves.specs.Timeline.{count, one, stop_by};
ghost use Rattle.net_waves.specs.Inner.Stops.{stops_below};
ghost use Rattle.net_waves.specs.ByTime.{stops_in};

use crate::keyed::{Keyed, do_rise};
use crate::packed::Packed;
use crate::packing::{pack, pack_by};
use crate::placing::keys_by_time;
use crate::timeline::{NetMove, Stop, Timeline};
use gate_values::Change;
use std::alloc::{AllocError, Global};
use std::thread::Threads;

/// Changes in the order of time.
#[derive(Drop)]
pub enum ByTime {
    Words(Packed),
    Keys(Keyed),
    Runs(Timeline),
}

/// All changes in a key each, or in runs. An error is a refused growth.
fn keyed(alloc: Global, lists: &[Vec<Change>]) -> Result<ByTime, AllocError>
    requires { length lists.now ≤ 4294967295 }
    ensures { IfOk result (λ all. (s : Stop) → count s (stops_in all) ≡ count s (stops_below (lists_in lists.now) (length lists.now))) }
{
    match keys_by_time(alloc, lists)? {
        Some(keys) if do_rise(keys.as_slice()) => Ok(ByTime::Keys(Keyed::new(keys))),
        _ => Ok(ByTime::Runs(Timeline::of(alloc, lists)?)),
    }
}

impl ByTime {
    /// No change.
    pub(crate) fn new(alloc: Global) -> ByTime
        ensures { stops_in result ≡ [] }
    {
        ByTime::Runs(Timeline::new(alloc))
    }

    /// No change, in words: what is appended goes into a word each.
    pub fn in_words(alloc: Global) -> ByTime
        ensures { stops_in result ≡ [] }
    {
        ByTime::Words(Packed::empty(alloc))
    }

    /// No change, in keys: what is appended goes into a key each.
    pub fn in_keys(alloc: Global) -> ByTime
        ensures { stops_in result ≡ [] }
    {
        ByTime::Keys(Keyed::empty(alloc))
    }

    /// The changes in a list for each net. An error is a refused growth.
    pub(crate) fn of(alloc: Global, lists: &[Vec<Change>]) -> Result<ByTime, AllocError>
        requires few { length lists.now ≤ 4294967295 }
        requires rising { (n : ℕ) → IsRising (wave_of (lists_in lists.now) n) }
        ensures { IfOk result (λ all. (s : Stop) → count s (stops_in all) ≡ count s (stops_below (lists_in lists.now) (length lists.now))) }
    {
        match pack(alloc, lists)? {
            Some(packed) => Ok(ByTime::Words(packed)),
            None => keyed(alloc, lists),
        }
    }

    /// The same by up to so many threads, at least one.
    pub(crate) fn of_by<R: Threads + Sync>(
        rt: &R,
        alloc: Global,
        threads: u32,
        lists: &[Vec<Change>],
    ) -> Result<ByTime, AllocError>
        requires threads { 1 ≤ threads }
        requires few { length lists.now ≤ 4294967295 }
        requires rising { (n : ℕ) → IsRising (wave_of (lists_in lists.now) n) }
        ensures { IfOk result (λ all. (s : Stop) → count s (stops_in all) ≡ count s (stops_below (lists_in lists.now) (length lists.now))) }
    {
        match pack_by(rt, alloc, threads, lists)? {
            Some(packed) => Ok(ByTime::Words(packed)),
            None => keyed(alloc, lists),
        }
    }

    /// Adds a change. An error is a refused growth; after it there are the same changes.
    pub(crate) fn push(&mut self, stop: Stop) -> Result<(), AllocError>
        ensures ok { (s : Stop) → OnOk result (count s (stops_in self.new) ≡ one s stop + count s (stops_in self.old)) }
        ensures err { (s : Stop) → OnErr result (count s (stops_in self.new) ≡ count s (stops_in self.old)) }
    {
        let stops = match self {
            ByTime::Runs(timeline) => return timeline.push(stop),
            ByTime::Words(packed) => packed.stops()?,
            ByTime::Keys(keyed) => keyed.stops()?,
        };
        let mut timeline = Timeline::of_stops(stops)?;
        timeline.push(stop)?;
        *self = ByTime::Runs(timeline);
        Ok(())
    }

    /// Appends the changes of a time that is later than that of all others, by nets that rise. Tells whether it did: not where the
    /// time isn't later (in keys they may also be of the last time, and of greater nets), where nets don't rise, where a net or the
    /// time has no word or no key, where words would be too many, and never in runs. Where it did not, and where an error tells
    /// of a refused growth, there are the same changes.
    pub fn append_all(&mut self, time: u64, moves: &[NetMove]) -> Result<bool, AllocError>
        ensures appended { IfOk result (λ done. done ≡ true → stops_in self.new ≡ stops_in self.old ++ map (stop_by time) moves.now) }
        ensures stays { IfOk result (λ done. done ≡ false → stops_in self.new ≡ stops_in self.old) }
        ensures err { OnErr result (stops_in self.new ≡ stops_in self.old) }
    {
        match self {
            ByTime::Words(packed) => packed.append_all(time, moves),
            ByTime::Keys(keyed) => keyed.append_all(time, moves),
            ByTime::Runs(_) => Ok(false),
        }
    }

    /// These changes, and behind them others; none where those aren't all later (in keys they may also be of the last time, and of
    /// greater nets), where they stand in another form, in runs, or where words would be too many. An error is a refused growth.
    /// Either way both are consumed.
    pub fn followed_by(self, later: ByTime) -> Result<Option<ByTime>, AllocError>
        ensures { IfOk result (λ both. IfSome both (λ all. stops_in all ≡ stops_in self ++ stops_in later)) }
    {
        match (self, later) {
            (ByTime::Words(mut packed), ByTime::Words(more)) => {
                let done = packed.append_later(&more)?;
                Ok(if done {
                    Some(ByTime::Words(packed))
                } else {
                    None
                })
            }
            (ByTime::Keys(mut keyed), ByTime::Keys(more)) => {
                let done = keyed.append_later(&more)?;
                Ok(if done {
                    Some(ByTime::Keys(keyed))
                } else {
                    None
                })
            }
            _ => Ok(None),
        }
    }
}
