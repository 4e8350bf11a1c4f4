//! What has been told of each net, as changes.
ghost use Rattle.std.specs.Prelude.{◌≡◌, ◌<◌, ◌≤◌, ◌^◌, ◌-◌, ℕ, [], OnOk, IfOk, length, vec_len, get_or};
ghost use Rattle.std.specs.List.{All};
ghost use Rattle.warp_process.specs.Entries.{no_messages, effective_of};
ghost use Rattle.warp_process.specs.Rows.{entry_on, IsRow};
ghost use Rattle.warp_process.specs.Shown.Rows.{lists_in};
ghost use Rattle.warp_process.specs.Inner.Rows.{entry_at, AreRows};
ghost use Rattle.warp_process.specs.Inner.Told.{AreTold, with_message};

use crate::by_time::Rows;
use crate::placed::Placed;
use gate_values::Change;
use std::alloc::{AllocError, Global};

/// For each of so many places the changes that are told of its net, in order of time.
pub(crate) fn told(
    alloc: Global,
    rows: &Rows,
    places: usize,
) -> Result<Vec<Vec<Change>>, AllocError>
    requires rows { AreRows rows.now }
    requires places { (t i : ℕ) → places ≤ i → entry_at rows.now t i ≡ no_messages }
    ensures count { IfOk result (λ lists. vec_len lists ≡ places) }
    ensures told { IfOk result (λ lists. (i : ℕ) → i < places → AreTold rows.now i (get_or (lists_in lists.items) i [])) }
{
    let mut lists = empty_lists(alloc, places)?;
    for (time, row) in rows.iter() {
        tell_row(row.as_slice(), *time, &mut lists)?;
    }
    Ok(lists)
}

/// So many empty lists.
fn empty_lists(alloc: Global, count: usize) -> Result<Vec<Vec<Change>>, AllocError>
    ensures count { IfOk result (λ lists. vec_len lists ≡ count) }
    ensures empty { IfOk result (λ lists. (i : ℕ) → get_or (lists_in lists.items) i [] ≡ []) }
{
    let mut lists = Vec::with_capacity(alloc, count)?;
    for _ in 0..count {
        lists.push(Vec::new(alloc))?;
    }
    Ok(lists)
}

/// Puts what a row tells of a time behind the lists of its places.
fn tell_row(row: &[Placed], time: u64, lists: &mut Vec<Vec<Change>>) -> Result<(), AllocError>
    requires row { IsRow row.now }
    requires within { All (λ s. s.place < vec_len lists.old) row.now }
    ensures count { OnOk result (vec_len lists.new ≡ vec_len lists.old) }
    ensures told { OnOk result ((i : ℕ) → get_or (lists_in lists.new.items) i [] ≡ with_message time (effective_of (entry_on row.now i)) (get_or (lists_in lists.old.items) i [])) }
{
    for placed in row {
        if let Some(value) = placed.effective() {
            lists[placed.place() as usize].push(Change { time, value })?;
        }
    }
    Ok(())
}
