//! What a block has heard.
ghost use Rattle.std.specs.Prelude.{◌≡◌, ◌≢◌, ◌≤◌, ◌<◌, ◌↔◌, ◌⊎◌, ℕ, [], IsTrue, IsSome, IfOk, IfErr, IfSome, IfNone, OnOk, OnErr, Some, None, false, ◌==◌, if◌then◌else◌, length, vec_len, get_or, slice_index};
ghost use Rattle.std.specs.List.{All, AllPairs};
ghost use Rattle.std.specs.List.Sorted.{IsStrictlyIncreasing};
ghost use Rattle.gate_values.specs.Changes.{pair_at};
ghost use Rattle.warp_part.specs.Portion.{slot_of, hears};
ghost use Rattle.warp_part.specs.Inner.Building.{has};
ghost use Rattle.warp_process.specs.Limits.{most_horizon};
ghost use Rattle.warp_process.specs.Entries.{no_messages, one_message, is_settled, entry_in, IsQueue};
ghost use Rattle.warp_process.specs.Rows.{entry_on, IsRow};
ghost use Rattle.warp_process.specs.Shown.Rows.{lists_in};
ghost use Rattle.warp_process.specs.View.{IsLeast, entry_of, effective_at};
ghost use Rattle.warp_process.specs.Heard.{IsReceived, IsHeardFrom, IsToldOf};
ghost use Rattle.warp_process.specs.Opening.{silent_view, opening_queue};
ghost use Rattle.warp_process.specs.Receive.{is_for, refusal_of, IsRefusal};
ghost use Rattle.warp_process.specs.Commit.{IsUnsettledBelow, IsFirstUnsettled};
ghost use Rattle.warp_process.specs.Shown.Receive.{IsAdmitted, IsFirstAt, IsPut};
ghost use Rattle.warp_process.specs.Inner.Rows.{entry_at, AreRows};

use crate::by_time::Rows;
use crate::entry::Entry;
use crate::fault::BlockFault;
use crate::message::{Message, Sign};
use crate::placed::Placed;
use crate::{by_net, row};
use gate_stimulus::Stimulus;
use gate_values::{Change, Logic};
use std::alloc::{AllocError, Global};
use std::marker::Model;
use warp_part::Part;

/// What a block of a circuit has received of the nets that it reads, up to a horizon: for each net and time the messages
/// less the antimessages. Below the floor everything is settled.
#[derive(Debug, Drop)]
pub struct Heard {
    part: Part,
    horizon: u64,
    floor: u64,
    /// Below it every entry is known to be settled. It may be past the floor.
    sure: u64,
    rows: Rows,
}

impl Model for Heard {
    ghost use Rattle.warp_process.specs.View.{View};

    ghost Value = { View };

    ghost use Rattle.warp_process.specs.Shown.Heard.{heard_by};
    ghost use Rattle.warp_process.specs.Inner.Heard.{IsHeld};

    ghost view = { heard_by };

    ghost invariant = { IsHeld };
}

impl Heard {
    /// Nothing but the changes of a stimulus up to the horizon. An error is a refused growth.
    pub fn new(
        alloc: Global,
        part: Part,
        stimulus: &Stimulus,
        horizon: u64,
    ) -> Result<Heard, AllocError>
        requires { horizon ≤ most_horizon }
        ensures { IfOk result (λ heard. heard ≡ silent_view part stimulus.now horizon) }
    {
        part.law();
        let mut rows = Rows::new(alloc);
        for slot in 0..part.len() {
            open_place(&part, stimulus, horizon, slot, &mut rows)?;
        }
        Ok(Heard {
            part,
            horizon,
            floor: 0,
            sure: horizon + 1,
            rows,
        })
    }

    /// What is true of all that is received. It does nothing.
    pub fn law(&self)
        ensures { IsReceived self.now }
    {
        let _ = &self.floor;
    }

    /// The part of the circuit.
    pub fn part(&self) -> &Part
        ensures { result.now ≡ self.now.part }
    {
        &self.part
    }

    /// The last time that counts.
    pub fn horizon(&self) -> u64
        ensures horizon { result ≡ self.now.horizon }
        ensures within { result ≤ most_horizon }
    {
        self.horizon
    }

    /// Below it everything is settled.
    pub fn floor(&self) -> u64
        ensures { result ≡ self.now.floor }
    {
        self.floor
    }

    /// The entry of a net at a time; empty for a net that the block doesn't read, and for an own one.
    pub fn entry(&self, net: u32, time: u64) -> Entry
        ensures { result ≡ entry_of self.now net time }
    {
        match self.part.slot(net) {
            Some(slot) => self.entry_at(slot, time),
            None => Entry::EMPTY,
        }
    }

    /// The least time from a time on at which the entry of a net isn't empty.
    pub fn next_entry(&self, net: u32, from: u64) -> Option<u64>
        ensures { IsLeast (λ t. (from ≤ t) × (entry_of self.now net t ≢ no_messages)) result }
    {
        let slot = self.part.slot(net)?;
        let mut start = from;
        while start <= self.horizon {
            let (time, row) = self.rows.next(start)?;
            if time > self.horizon {
                return None;
            }
            if !row::entry_on(row, slot as u32).is_empty() {
                return Some(time);
            }
            start = time + 1;
        }
        None
    }

    /// The effective value at a place and time.
    pub fn effective(&self, slot: usize, time: u64) -> Option<Logic>
        requires { slot < length self.now.part.nets }
        ensures { result ≡ effective_at self.now (slice_index self.now.part.nets slot) time }
    {
        self.rows.effective(time, slot as u32)
    }

    /// The least time from a time on at which a place has an effective value.
    pub fn next_effective(&self, slot: usize, from: u64) -> Option<u64>
        requires { slot < length self.now.part.nets }
        ensures { IsLeast (λ t. (from ≤ t) × IsSome (effective_at self.now (slice_index self.now.part.nets slot) t)) result }
    {
        let mut start = from;
        while start <= self.horizon {
            let (time, row) = self.rows.next(start)?;
            if time > self.horizon {
                return None;
            }
            if row::effective_on(row, slot as u32).is_some() {
                return Some(time);
            }
            start = time + 1;
        }
        None
    }

    /// The entry at a place and time.
    fn entry_at(&self, slot: usize, time: u64) -> Entry
        requires { slot < length self.now.part.nets }
        ensures { result ≡ entry_of self.now (slice_index self.now.part.nets slot) time }
    {
        self.rows.entry(time, slot as u32)
    }

    /// The place that a message names, and its entry after it; or the first cause to refuse it.
    pub fn admit(&self, message: Message) -> Result<(usize, Entry), BlockFault>
        ensures ok { IfOk result (λ admitted. IsAdmitted self.now message admitted.0 admitted.1) }
        ensures err { IfErr result (IsRefusal (refusal_of self.now message)) }
    {
        let Some(slot) = self.hearing(message) else {
            return Err(BlockFault::WrongNet);
        };
        if message.time > self.horizon {
            return Err(BlockFault::PastHorizon);
        }
        if message.time < self.floor {
            return Err(BlockFault::BelowFloor);
        }
        let old = self.entry_at(slot, message.time);
        match old.bump(message.value, message.sign) {
            Some(entry) => Ok((slot, entry)),
            None => Err(BlockFault::CountLimit),
        }
    }

    /// The place of a message, and no antimessage, that isn't refused where nothing has been received for its net and time.
    /// [`Heard::put_first`] takes it in. Nearly all messages are such.
    pub fn first_place(&self, message: Message) -> Option<usize>
        ensures { IfSome result (IsFirstAt self.now message) }
    {
        let slot = self.hearing(message)?;
        match message.sign {
            Sign::Plus if self.floor <= message.time && message.time <= self.horizon => Some(slot),
            _ => None,
        }
    }

    /// Takes in one message of a value at a place and a time, unless something has been received there; answers whether it did. An
    /// error is a refused growth; then nothing has changed.
    pub fn put_first(&mut self, slot: usize, time: u64, value: Logic) -> Result<bool, AllocError>
        requires slot { slot < length self.old.part.nets }
        requires heard { IsTrue (hears self.old.part (slice_index self.old.part.nets slot)) }
        requires from { self.old.floor ≤ time }
        requires until { time ≤ self.old.horizon }
        ensures put { IfOk result (λ put. IsTrue put → (entry_of self.old (slice_index self.old.part.nets slot) time ≡ no_messages) × IsPut self.old self.new (slice_index self.old.part.nets slot) time (one_message value)) }
        ensures left { IfOk result (λ put. put ≡ false → self.new ≡ self.old) }
        ensures absent { OnErr result (entry_of self.old (slice_index self.old.part.nets slot) time ≡ no_messages) }
        ensures mark { self.new.mark ≡ self.old.mark }
        ensures err { OnErr result (self.new ≡ self.old) }
    {
        self.rows.put_first(time, slot as u32, value)
    }

    /// Takes in another entry at a place and time. An error is a refused growth; then nothing has changed.
    pub fn put(&mut self, slot: usize, time: u64, entry: Entry) -> Result<(), AllocError>
        requires slot { slot < length self.old.part.nets }
        requires heard { IsTrue (hears self.old.part (slice_index self.old.part.nets slot)) }
        requires from { self.old.floor ≤ time }
        requires until { time ≤ self.old.horizon }
        ensures put { OnOk result (IsPut self.old self.new (slice_index self.old.part.nets slot) time entry) }
        ensures mark { self.new.mark ≡ self.old.mark }
        ensures err { OnErr result (self.new ≡ self.old) }
    {
        self.rows.put(time, slot as u32, entry)?;
        self.sure = still_sure(self.sure, time, entry);
        Ok(())
    }

    /// The least time from one on, which isn't below the floor, at which a net has an effective value.
    pub fn next(&self, from: u64) -> Option<u64>
        requires { self.now.floor ≤ from }
        ensures { IsLeast (IsHeardFrom self.now from) result }
    {
        let mut start = from;
        while start <= self.horizon {
            let (time, row) = self.rows.next(start)?;
            if time > self.horizon {
                return None;
            }
            if row::has_effective(row) {
                return Some(time);
            }
            start = time + 1;
        }
        None
    }

    /// What has been received at a time, by place.
    pub fn row(&self, time: u64) -> &[Placed]
        ensures row { IsRow result.now }
        ensures all { (i : ℕ) → i < length self.now.part.nets → entry_of self.now (slice_index self.now.part.nets i) time ≡ entry_on result.now i }
        ensures within { All (λ s. s.place < length self.now.part.nets) result.now }
    {
        self.rows.at(time)
    }

    /// The first entry below a time that isn't settled, by net, then time.
    pub fn first_unsettled(&self, end: u64) -> Option<(u32, u64)>
        ensures none { IfNone result ((n t : ℕ) → IsUnsettledBelow self.now end n t → ⊥) }
        ensures some { IfSome result (λ place. IsFirstUnsettled self.now end place.0 place.1) }
    {
        if self.are_settled(end) {
            return None;
        }
        for slot in 0..self.part.len() {
            if let Some(time) = self.rows.next_unsettled(slot as u32, self.floor, end) {
                return Some((self.part.net(slot), time));
            }
        }
        None
    }

    /// For each net of the part the changes that the messages tell which stand, in order of time. An error is a refused growth.
    pub fn told(&self) -> Result<Vec<Vec<Change>>, AllocError>
        ensures count { IfOk result (λ lists. vec_len lists ≡ length self.now.part.nets) }
        ensures told { IfOk result (λ lists. (i : ℕ) → i < length self.now.part.nets → IsToldOf self.now (slice_index self.now.part.nets i) (get_or (lists_in lists.items) i [])) }
    {
        by_net::told(self.rows.allocator(), &self.rows, self.part.len())
    }

    /// Moves the floor to a time below which all is settled.
    pub fn commit(&mut self, floor: u64)
        requires forward { self.old.floor ≤ floor }
        requires settled { (n t : ℕ) → IsUnsettledBelow self.old floor n t → ⊥ }
        ensures { self.new ≡ record self.old { floor = floor } }
    {
        self.floor = floor;
        self.sure = self.sure.max(floor);
    }

    /// A copy of all. An error is a refused growth.
    pub fn copy(&self, alloc: Global) -> Result<Heard, AllocError>
        ensures { IfOk result (λ heard. heard ≡ self.now) }
    {
        Ok(Heard {
            part: self.part.copy()?,
            horizon: self.horizon,
            floor: self.floor,
            sure: self.sure,
            rows: self.rows.copy(alloc, self.horizon + 1)?,
        })
    }

    /// The part, and nothing else.
    pub fn into_part(self) -> Part
        ensures { result ≡ self.part }
    {
        self.part
    }

    /// The place of a net that a message to the block may name.
    fn hearing(&self, message: Message) -> Option<usize>
        ensures place { result ≡ (if is_for self.now.part message then slot_of self.now.part.nets message.net else None) }
        ensures named { IfSome result (λ slot. (slot < length self.now.part.nets) × (slice_index self.now.part.nets slot ≡ message.net)) }
    {
        if message.block != self.part.block() {
            return None;
        }
        self.part.hearing(message.net)
    }

    /// Whether the entries below a time are settled. Where it isn't known, those from the floor on are looked at.
    fn are_settled(&self, end: u64) -> bool
        ensures { IsTrue result → (n t : ℕ) → IsUnsettledBelow self.now end n t → ⊥ }
    {
        if end <= self.sure {
            return true;
        }
        let mut from = self.floor;
        while from < end {
            let Some((time, row)) = self.rows.next(from) else {
                return true;
            };
            if time >= end {
                return true;
            }
            if !row::are_settled(row) {
                return false;
            }
            from = time + 1;
        }
        true
    }
}

/// Below which time every entry is still known to be settled, once an entry stands at a time.
fn still_sure(sure: u64, time: u64, entry: Entry) -> u64
    ensures within { result ≤ sure }
    ensures settled { time < result → IsTrue (is_settled entry) }
{
    if entry.is_settled() {
        return sure;
    }
    sure.min(time)
}

/// Takes in what a block holds of the net at a place before any message: the changes of an input up to the horizon.
fn open_place(
    part: &Part,
    stimulus: &Stimulus,
    horizon: u64,
    slot: usize,
    rows: &mut Rows,
) -> Result<(), AllocError>
    requires slot { slot < length part.now.nets }
    requires rows { AreRows rows.old }
    requires none { (t : ℕ) → entry_at rows.old t slot ≡ no_messages }
    ensures rows { AreRows rows.new }
    ensures queue { OnOk result (IsQueue (opening_queue part.now stimulus.now horizon (slice_index part.now.nets slot))) }
    ensures opened { OnOk result ((t i : ℕ) → entry_at rows.new t i ≡ (if i == slot then entry_in (opening_queue part.now stimulus.now horizon (slice_index part.now.nets slot)) t else entry_at rows.old t i)) }
{
    part.law();
    stimulus.law();
    if !part.is_input(slot) {
        return Ok(());
    }
    for change in stimulus.changes(part.net(slot)) {
        if change.time > horizon {
            return Ok(());
        }
        rows.put(change.time, slot as u32, Entry::one_message(change.value))?;
    }
    Ok(())
}
