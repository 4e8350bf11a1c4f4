//! What has been received, by time, and at each time by place.
ghost use Rattle.std.specs.Prelude.{◌≡◌, ◌≢◌, ◌≤◌, ◌<◌, ℕ, ◌&&◌, ◌==◌, if◌then◌else◌, false, IsTrue, IfSome, IfOk, OnOk, OnErr, option_map};
ghost use Rattle.warp_process.specs.Entries.{effective_of, no_messages, one_message, is_settled};
ghost use Rattle.warp_process.specs.View.{IsLeast};
ghost use Rattle.warp_process.specs.Inner.Rows.{row_at, entry_at, is_listed, AreRows, AreSame, IsEntered};

use crate::entry::Entry;
use crate::placed::Placed;
use crate::row;
use gate_values::Logic;
use smallvec::SmallVec;
use std::alloc::{AllocError, Global};
use std::collections::BTreeMap;
use std::collections::btree_map::Iter;

/// For each time the row of the places that have an entry at it.
#[derive(Debug, Drop)]
pub(crate) struct Rows {
    alloc: Global,
    times: BTreeMap<u64, SmallVec<Placed, 1>>,
}

impl Rows {
    /// Nothing has been received.
    pub(crate) fn new(alloc: Global) -> Rows
        ensures rows { AreRows result }
        ensures none { (t i : ℕ) → entry_at result t i ≡ no_messages }
    {
        Rows {
            alloc,
            times: BTreeMap::new(alloc),
        }
    }

    pub(crate) fn allocator(&self) -> Global {
        self.alloc
    }

    /// The least time from a time on at which a row stands, and the row.
    pub(crate) fn next(&self, from: u64) -> Option<(u64, &[Placed])>
        ensures least { IsLeast (λ t. (from ≤ t) × IsTrue (is_listed self.now t)) (option_map (λ p. p.0) result) }
        ensures row { IfSome result (λ p. p.1.now ≡ row_at self.now p.0) }
    {
        if self.is_past(from) {
            return None;
        }
        let (time, row) = self.times.range(from..).next()?;
        Some((*time, row.as_slice()))
    }

    /// Whether all that has been received is for times before one. It is false where nothing has been.
    fn is_past(&self, time: u64) -> bool
        ensures { IsTrue result → (t : ℕ) → time ≤ t → is_listed self.now t ≡ false }
    {
        match self.times.last_key_value() {
            Some((last, _)) => *last < time,
            None => false,
        }
    }

    /// The times at which rows stand, in order, each with its row.
    pub(crate) fn iter(&self) -> Iter<'_, u64, SmallVec<Placed, 1>>
        ensures { result ≡ self.now.times.entries }
    {
        self.times.iter()
    }

    /// The row of a time.
    pub(crate) fn at(&self, time: u64) -> &[Placed]
        ensures { result.now ≡ row_at self.now time }
    {
        match self.times.get(&time) {
            Some(row) => row.as_slice(),
            None => &[],
        }
    }

    /// The entry of a place at a time.
    pub(crate) fn entry(&self, time: u64, place: u32) -> Entry
        requires { AreRows self.now }
        ensures { result ≡ entry_at self.now time place }
    {
        row::entry_on(self.at(time), place)
    }

    /// The value that a place takes at a time.
    pub(crate) fn effective(&self, time: u64, place: u32) -> Option<Logic>
        requires { AreRows self.now }
        ensures { result ≡ effective_of (entry_at self.now time place) }
    {
        row::effective_on(self.at(time), place)
    }

    /// The least time from one on, and below an end, at which the entry of a place isn't settled.
    pub(crate) fn next_unsettled(&self, place: u32, from: u64, end: u64) -> Option<u64>
        requires { AreRows self.now }
        ensures { IsLeast (λ t. (from ≤ t) × (t < end) × ¬ IsTrue (is_settled (entry_at self.now t place))) result }
    {
        let mut start = from;
        while start < end {
            let (time, row) = self.next(start)?;
            if time >= end {
                return None;
            }
            if !row::entry_on(row, place).is_settled() {
                return Some(time);
            }
            start = time + 1;
        }
        None
    }

    /// Takes in one message of a value for a place and a time, unless something has been received there; answers whether it did.
    /// After an error nothing has changed.
    pub(crate) fn put_first(
        &mut self,
        time: u64,
        place: u32,
        value: Logic,
    ) -> Result<bool, AllocError>
        requires rows { AreRows self.old }
        ensures rows { AreRows self.new }
        ensures put { IfOk result (λ put. IsTrue put → (entry_at self.old time place ≡ no_messages) × IsEntered self.old self.new time place (one_message value)) }
        ensures left { IfOk result (λ put. put ≡ false → AreSame self.old self.new) }
        ensures absent { OnErr result (entry_at self.old time place ≡ no_messages) }
        ensures err { OnErr result (AreSame self.old self.new) }
    {
        if self.is_past(time) {
            self.open(time, Placed::one_message(place, value))?;
            return Ok(true);
        }
        match self.times.get_mut(&time) {
            Some(row) => row::put_first(row, place, value),
            None => {
                self.open(time, Placed::one_message(place, value))?;
                Ok(true)
            }
        }
    }

    /// Takes in another entry of a place at a time. After an error nothing has changed.
    pub(crate) fn put(&mut self, time: u64, place: u32, entry: Entry) -> Result<(), AllocError>
        requires rows { AreRows self.old }
        ensures rows { AreRows self.new }
        ensures put { OnOk result (IsEntered self.old self.new time place entry) }
        ensures err { OnErr result (AreSame self.old self.new) }
    {
        if let Some(row) = self.times.get_mut(&time) {
            row::put(row, place, entry)?;
            return Ok(());
        }
        if entry.is_empty() {
            return Ok(());
        }
        let placed = Placed::new(self.alloc, place, entry)?;
        self.open(time, placed)
    }

    /// A row of one entry, at a time that has none.
    fn open(&mut self, time: u64, placed: Placed) -> Result<(), AllocError>
        requires rows { AreRows self.old }
        requires none { is_listed self.old time ≡ false }
        requires stands { placed.entry ≢ no_messages }
        ensures rows { AreRows self.new }
        ensures put { OnOk result (IsEntered self.old self.new time placed.place placed.entry) }
        ensures err { OnErr result (AreSame self.old self.new) }
    {
        let mut row = SmallVec::new(self.alloc);
        row.push(placed)?;
        self.times.insert(time, row)?;
        Ok(())
    }

    /// Copies of the rows. Nothing has been received from an end on. An error is a refused growth.
    pub(crate) fn copy(&self, alloc: Global, end: u64) -> Result<Rows, AllocError>
        requires rows { AreRows self.now }
        requires end { (t i : ℕ) → end ≤ t → entry_at self.now t i ≡ no_messages }
        ensures rows { IfOk result (λ rows. AreRows rows) }
        ensures same { IfOk result (λ rows. (t i : ℕ) → entry_at rows t i ≡ entry_at self.now t i) }
    {
        let mut rows = Rows::new(alloc);
        let mut from = 0;
        while from < end {
            let Some((time, row)) = self.next(from) else {
                break;
            };
            if time >= end {
                break;
            }
            rows.times.insert(time, row::copy(alloc, row)?)?;
            from = time + 1;
        }
        Ok(rows)
    }
}
