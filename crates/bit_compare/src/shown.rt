ghost use Rattle.std.specs.Prelude.{◌≡◌, ◌≤◌, ◌<◌, ◌^◌, ◌+◌, ◌*◌, ◌-◌, ℕ, length, slice_index_or, nat_le, true, false, IsTrue};
ghost use Rattle.gate_values.specs.declared.logic.Change.{Change};
ghost use Rattle.bit_compare.specs.Inner.Moments.{is_gone};
ghost use Rattle.bit_compare.specs.Shown.Moments.{AreRising, IsSmall, lens, value_after};

use gate_values::{Change, Logic};

/// A bit as it is compared: its changes, whose times count `scale` of the common unit each, seen so much earlier or
/// later.
#[derive(Clone, Copy, Debug)]
pub struct Shown<'a> {
    /// The value from time 0 on.
    pub first: Logic,
    /// The changes that are seen after time 0.
    pub changes: &'a [Change],
    pub scale: u64,
    pub later: u128,
    pub earlier: u128,
}

/// Whether a change isn't seen after time 0.
fn is_gone(time: u64, scale: u64, later: u128, earlier: u128) -> bool
    requires time { time < 2 ^ 60 }
    requires scale { scale < 2 ^ 60 }
    requires earlier { earlier < 2 ^ 126 }
    ensures { result ≡ is_gone (lens scale later earlier) time }
{
    time as u128 * scale as u128 + earlier <= later
}

/// How many of the changes aren't seen after time 0.
fn gone(changes: &[Change], scale: u64, later: u128, earlier: u128) -> usize
    requires rising { AreRising changes.now }
    requires small { IsSmall (lens scale later earlier) changes.now }
    requires scaled { 0 < scale }
    ensures within { result ≤ length changes.now }
    ensures before { (i : ℕ) (d : Change) → i < result → is_gone (lens scale later earlier) (slice_index_or changes.now i d).time ≡ true }
    ensures after { (i : ℕ) (d : Change) → result ≤ i → i < length changes.now → is_gone (lens scale later earlier) (slice_index_or changes.now i d).time ≡ false }
{
    for (count, change) in changes.iter().enumerate() {
        if !is_gone(change.time, scale, later, earlier) {
            return count;
        }
    }
    changes.len()
}

/// The value after so many changes.
fn value_in(first: Logic, changes: &[Change], count: usize) -> Logic
    requires { count ≤ length changes.now }
    ensures { result ≡ value_after first changes.now count }
{
    if count == 0 {
        first
    } else {
        changes[count - 1].value
    }
}

impl<'a> Shown<'a> {
    ghost use Rattle.bit_compare.specs.Bits.{value_through};
    ghost use Rattle.bit_compare.specs.Shown.Moments.{IsShown, moments, shown, never};

    /// A bit with these changes, at rising times, looked at `later` and `earlier` by times of the common unit.
    pub fn new(changes: &'a [Change], scale: u64, later: u128, earlier: u128) -> Shown<'a>
        requires rising { AreRising changes.now }
        requires small { IsSmall (lens scale later earlier) changes.now }
        requires scaled { 0 < scale }
        ensures shown { IsShown result }
        ensures values { (t : ℕ) → shown result t ≡ value_through (lens scale later earlier) changes.now t }
    {
        let gone = gone(changes, scale, later, earlier);
        Shown {
            first: value_in(Logic::X, changes, gone),
            changes: &changes[gone..],
            scale,
            later,
            earlier,
        }
    }

    /// How many changes are seen.
    pub fn count(&self) -> usize
        ensures { result ≡ length (moments self.now) }
    {
        self.changes.len()
    }

    /// When a change is seen.
    pub fn time(&self, k: usize) -> u128
        requires shown { IsShown self.now }
        requires within { k < length self.now.changes.now }
        ensures time { (d : Change) → result ≡ (slice_index_or (moments self.now) k d).time }
        ensures small { result < 2 ^ 127 }
    {
        let change = self.changes[k];
        change.time as u128 * self.scale as u128 + self.earlier - self.later
    }

    /// The value after so many changes.
    pub fn value(&self, count: usize) -> Logic
        requires { count ≤ length self.now.changes.now }
        ensures { result ≡ value_after self.now.first (moments self.now) count }
    {
        value_in(self.first, self.changes, count)
    }

    /// When the value after so many changes ends, which may be never.
    pub fn end(&self, count: usize) -> u128
        requires { IsShown self.now }
        ensures within { count < length (moments self.now) → (d : Change) → result ≡ (slice_index_or (moments self.now) count d).time }
        ensures small { count < length (moments self.now) → result < 2 ^ 127 }
        ensures over { length (moments self.now) ≤ count → result ≡ never }
    {
        if count < self.changes.len() {
            self.time(count)
        } else {
            u128::MAX
        }
    }
}
