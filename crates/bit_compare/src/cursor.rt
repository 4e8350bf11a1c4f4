ghost use Rattle.std.specs.Prelude.{◌≡◌, ◌≤◌, ◌<◌, ◌^◌, ◌+◌, ◌∷◌, ℕ, IsTrue, false, length, slice_index_or};
ghost use Rattle.gate_values.specs.declared.logic.Change.{Change};
ghost use Rattle.bit_compare.specs.Inner.Moments.{IsCount, IsPassed};
ghost use Rattle.bit_compare.specs.Shown.Moments.{IsShown, moments, never};

use crate::recent::Recent;
use crate::shown::Shown;
use gate_values::Logic;

/// Where a comparison stands in a bit. The changes of the bit part time into stretches of one value, with numbers from
/// 0 on.
#[derive(Clone, Copy, Debug)]
pub struct Cursor<'s, 'a> {
    pub shown: &'s Shown<'a>,
    /// How far a time may be to be near.
    pub within: u128,
    pub time: u128,
    /// How many changes aren't later than the time that it stands at.
    pub passed: usize,
    /// The same of the last time near it.
    pub near: usize,
    /// Of each value the last stretch up to there.
    pub recent: Recent,
}

impl<'a> Shown<'a> {
    /// Whether there is a change of a number, and it isn't later than a time.
    fn is_passed(&self, number: usize, time: u128) -> bool
        requires { IsShown self.now }
        ensures within { IsTrue result → number < length (moments self.now) }
        ensures stands { IsTrue result → number < length self.now.changes.now }
        ensures room { IsTrue result → number + 1 < 2 ^ 64 }
        ensures passed { IsTrue result → (d : Change) → (slice_index_or (moments self.now) number d).time ≤ time }
        ensures later { result ≡ false → number < length (moments self.now) → (d : Change) → time < (slice_index_or (moments self.now) number d).time }
    {
        if number < self.changes.len() {
            self.time(number) <= time
        } else {
            false
        }
    }

    /// How many changes aren't later than a time, where so many are known not to be.
    fn count_from(&self, known: usize, time: u128) -> usize
        requires shown { IsShown self.now }
        requires known { IsPassed (moments self.now) time known }
        ensures { IsCount (moments self.now) time result }
    {
        let mut count = known;
        while self.is_passed(count, time) {
            count += 1;
        }
        count
    }
}

impl<'s, 'a> Cursor<'s, 'a> {
    ghost use Rattle.gate_values.specs.declared.logic.Logic.{Logic};
    ghost use Rattle.bit_compare.specs.Inner.Cursors.{AreRecent, Holds, IsAt, IsNearUntil, IsReady, bit_of, seen_by};

    /// At time 0, before anything was seen; near a time are those that aren't further than `within`.
    pub fn new(shown: &'s Shown<'a>, within: u128) -> Cursor<'s, 'a>
        requires shown { IsShown shown.now }
        requires small { within < 2 ^ 126 }
        ensures ready { IsReady result }
        ensures shown { result.shown ≡ shown.entry }
        ensures within { result.within ≡ within }
        ensures time { result.time ≡ 0 }
    {
        let mut recent = Recent::NONE;
        recent.put(shown.first, 0);
        Cursor {
            shown,
            within,
            time: 0,
            passed: 0,
            near: 0,
            recent,
        }
    }

    /// Follows the bit to the last change that isn't later than a time.
    fn follow(&mut self, time: u128)
        requires shown { IsShown self.old.shown.now }
        requires near { IsPassed (seen_by self.old) time self.old.near }
        requires recent { AreRecent self.old.shown.now.first (seen_by self.old) self.old.near self.old.recent }
        ensures near { IsCount (seen_by self.new) time self.new.near }
        ensures recent { AreRecent self.new.shown.now.first (seen_by self.new) self.new.near self.new.recent }
        ensures shown { self.new.shown ≡ self.old.shown }
        ensures within { self.new.within ≡ self.old.within }
        ensures time { self.new.time ≡ self.old.time }
        ensures passed { self.new.passed ≡ self.old.passed }
    {
        while self.shown.is_passed(self.near, time) {
            self.near += 1;
            let value = self.shown.value(self.near);
            self.recent.put(value, self.near);
        }
    }

    /// Goes on to a time that isn't earlier.
    pub fn advance(&mut self, time: u128)
        requires ready { IsReady self.old }
        requires forward { self.old.time ≤ time }
        requires small { time + self.old.within < 2 ^ 127 }
        ensures at { IsAt self.new }
        ensures shown { self.new.shown ≡ self.old.shown }
        ensures within { self.new.within ≡ self.old.within }
        ensures time { self.new.time ≡ time }
    {
        self.time = time;
        self.passed = self.shown.count_from(self.passed, time);
        self.follow(time + self.within);
    }

    /// The value at its time.
    pub fn value(&self) -> Logic
        requires { IsAt self.now }
        ensures { result ≡ bit_of self.now self.now.time }
    {
        self.shown.value(self.passed)
    }

    /// Up to when the value at its time stays.
    pub fn until(&self) -> u128
        requires { IsAt self.now }
        ensures { Holds self.now result }
    {
        self.shown.end(self.passed)
    }

    /// Up to when a value is among those near, 0 where it isn't.
    pub fn near_until(&self, value: Logic) -> u128
        requires { IsAt self.now }
        ensures { IsNearUntil self.now value result }
    {
        match self.recent.of(value) {
            Some(stretch) => self.end_near(stretch),
            None => 0,
        }
    }

    /// Up to when a stretch is near.
    fn end_near(&self, stretch: usize) -> u128
        requires { IsAt self.now }
        ensures within { stretch < length (seen_by self.now) → (d : Change) → result ≡ (slice_index_or (seen_by self.now) stretch d).time + self.now.within }
        ensures over { length (seen_by self.now) ≤ stretch → result ≡ never }
    {
        if stretch < self.shown.count() {
            self.shown.time(stretch) + self.within
        } else {
            u128::MAX
        }
    }
}
