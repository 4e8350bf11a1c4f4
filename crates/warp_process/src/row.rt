//! What has been received at a time, by place.
ghost use Rattle.std.specs.Prelude.{◌≡◌, ◌≢◌, ◌<◌, ◌≤◌, ◌↔◌, ℕ, ◌==◌, if◌then◌else◌, false, IsSome, IsTrue, OnErr, IfOk, IfErr, OnOk, length, slice_set};
ghost use Rattle.std.specs.List.{All, HoldsAt};
ghost use Rattle.std.specs.List.Sorted.{IsPartitionPoint};
ghost use Rattle.warp_process.specs.Entries.{effective_of, no_messages, one_message, is_settled};
ghost use Rattle.warp_process.specs.Rows.{entry_on, IsRow};

use crate::entry::Entry;
use crate::placed::Placed;
use gate_values::Logic;
use smallvec::SmallVec;
use std::alloc::{AllocError, Global};

/// So many of the last entries of a row are looked at one by one, before it is searched.
const NEAR: usize = 8;

/// How many entries of a row are before a place: at little cost where the place is past the row's last entries or among them.
fn count_before(row: &[Placed], place: u32) -> usize
    requires { IsRow row.now }
    ensures within { result ≤ length row.now }
    ensures split { IsPartitionPoint (λ s. s.place < place) (λ s. place ≤ s.place) row.now result }
{
    let mut count = row.len();
    let far = count.saturating_sub(NEAR);
    while count > far {
        if row[count - 1].place() < place {
            return count;
        }
        count -= 1;
    }
    if count == 0 {
        return 0;
    }
    search_before(row, place)
}

/// How many entries of a row are before a place.
fn search_before(row: &[Placed], place: u32) -> usize
    requires { IsRow row.now }
    ensures within { result ≤ length row.now }
    ensures split { IsPartitionPoint (λ s. s.place < place) (λ s. place ≤ s.place) row.now result }
{
    row.partition_point(|placed| placed.place() < place)
}

/// Where the entry of a place stands in a row, or where it belongs.
fn find(row: &[Placed], place: u32) -> Result<usize, usize>
    requires { IsRow row.now }
    ensures stands { IfOk result (λ at. (at < length row.now) × HoldsAt (λ s. s.place ≡ place) row.now at) }
    ensures belongs { IfErr result (λ at. (at ≤ length row.now) × IsPartitionPoint (λ s. s.place < place) (λ s. place < s.place) row.now at) }
{
    let at = count_before(row, place);
    match row.get(at) {
        Some(placed) if placed.place() == place => Ok(at),
        _ => Err(at),
    }
}

/// The entry of a row at a place.
pub(crate) fn entry_on(row: &[Placed], place: u32) -> Entry
    requires { IsRow row.now }
    ensures { result ≡ entry_on row.now place }
{
    match find(row, place) {
        Ok(at) => row[at].entry(),
        Err(_) => Entry::EMPTY,
    }
}

/// The effective value of a row at a place.
pub(crate) fn effective_on(row: &[Placed], place: u32) -> Option<Logic>
    requires { IsRow row.now }
    ensures { result ≡ effective_of (entry_on row.now place) }
{
    match find(row, place) {
        Ok(at) => row[at].effective(),
        Err(_) => None,
    }
}

/// Puts one message of a value into a row at a place, unless it has an entry there; answers whether it did. After an error nothing
/// has changed.
pub(crate) fn put_first(
    row: &mut SmallVec<Placed, 1>,
    place: u32,
    value: Logic,
) -> Result<bool, AllocError>
    requires { IsRow row.old.items }
    ensures row { IsRow row.new.items }
    ensures put { IfOk result (λ put. IsTrue put → (entry_on row.old.items place ≡ no_messages) × ((i : ℕ) → entry_on row.new.items i ≡ (if i == place then one_message value else entry_on row.old.items i))) }
    ensures left { IfOk result (λ put. put ≡ false → row.new.items ≡ row.old.items) }
    ensures absent { OnErr result (entry_on row.old.items place ≡ no_messages) }
    ensures err { OnErr result (row.new.items ≡ row.old.items) }
{
    match find(row.as_slice(), place) {
        Ok(_) => Ok(false),
        Err(at) => {
            widen(row);
            row.insert(at, Placed::one_message(place, value))?;
            Ok(true)
        }
    }
}

/// Gives a row that is full room for four times as many entries: those of a time mostly come one behind the other, and to grow what another
/// thread has made waits for all that grow such. Where memory is wanted it stays as it is.
fn widen(row: &mut SmallVec<Placed, 1>)
    ensures { row.new.items ≡ row.old.items }
{
    if row.len() > 1 && row.len() == row.capacity() {
        let _ = row.reserve(row.len().saturating_mul(3));
    }
}

/// Puts an entry into a row at a place. After an error nothing has changed.
pub(crate) fn put(row: &mut SmallVec<Placed, 1>, place: u32, entry: Entry) -> Result<(), AllocError>
    requires { IsRow row.old.items }
    ensures row { IsRow row.new.items }
    ensures ok { OnOk result ((i : ℕ) → entry_on row.new.items i ≡ (if i == place then entry else entry_on row.old.items i)) }
    ensures err { OnErr result (row.new.items ≡ row.old.items) }
{
    let found = find(row.as_slice(), place);
    if entry.is_empty() {
        if let Ok(at) = found {
            row.remove(at);
        }
        return Ok(());
    }
    let placed = Placed::new(*row.allocator(), place, entry)?;
    match found {
        Ok(at) => replace(row, at, placed),
        Err(at) => row.insert(at, placed)?,
    }
    Ok(())
}

/// Puts an entry in the place of another one.
fn replace(row: &mut SmallVec<Placed, 1>, at: usize, placed: Placed)
    requires { at < length row.old.items }
    ensures { row.new.items ≡ slice_set row.old.items at placed }
{
    if let Some(standing) = row.get_mut(at) {
        *standing = placed;
    }
}

/// Whether some place of a row takes a value.
pub(crate) fn has_effective(row: &[Placed]) -> bool
    requires { IsRow row.now }
    ensures { IsTrue result ↔ ((i : ℕ) × IsSome (effective_of (entry_on row.now i))) }
{
    for placed in row {
        if placed.effective().is_some() {
            return true;
        }
    }
    false
}

/// Whether all entries of a row are settled.
pub(crate) fn are_settled(row: &[Placed]) -> bool
    requires { IsRow row.now }
    ensures { IsTrue result → (i : ℕ) → IsTrue (is_settled (entry_on row.now i)) }
{
    for placed in row {
        if !placed.entry().is_settled() {
            return false;
        }
    }
    true
}

/// A copy of a row.
pub(crate) fn copy(alloc: Global, row: &[Placed]) -> Result<SmallVec<Placed, 1>, AllocError>
    ensures { IfOk result (λ copy. copy.items ≡ row.now) }
{
    let mut copy = SmallVec::with_capacity(alloc, row.len())?;
    for placed in row {
        copy.push(placed.copy(alloc)?)?;
    }
    Ok(copy)
}
