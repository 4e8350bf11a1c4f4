//! Room for what comes to lists, made ahead: a list that grows by one change after another moves each time that it is full.
ghost use Rattle.std.specs.Prelude.{◌≡◌, ◌≤◌, ◌<◌, OnOk, length, vec_len};
ghost use Rattle.warp_stores.specs.Shown.Lists.{lists_of};

use crate::word::Word;
use gate_values::Change;
use std::alloc::AllocError;

/// Fewer changes than these, the first ones of a list, tell nothing of how it goes on.
const FEW: usize = 16;

/// A list gets room for at most so many times what it needs.
const MOST: usize = 8;

/// And for at most so many changes for its first one, since most of many nets may change but once.
const FIRST: usize = 4;

/// A list of at most so many changes is sooner copied than let grow where it lies.
const SHORT: usize = 4096;

/// Counts the words of each of so many places, in place of what was counted. An error is a refused growth.
pub(crate) fn count_words(
    counts: &mut Vec<usize>,
    places: usize,
    words: &[Word],
) -> Result<(), AllocError>
    ensures { OnOk result (vec_len counts.new ≡ places) }
{
    counts.clear();
    counts.resize(places, 0)?;
    for word in words {
        if let Some(count) = counts.get_mut(word.place() as usize) {
            *count = count.saturating_add(1);
        }
    }
    Ok(())
}

/// Gives lists that come to be longer by so many changes each, up to a time, the room that they come to need up to a last time.
/// Where memory is wanted a list stays as it is.
pub(crate) fn widen_all(lists: &mut Vec<Vec<Change>>, more: &[usize], time: u64, last: u64)
    requires { length more.now ≤ vec_len lists.old }
    ensures { lists_of lists.new.items ≡ lists_of lists.old.items }
{
    for place in 0..more.len() {
        widen(&mut lists[place], more[place], time, last);
    }
}

/// Gives the list of a place, where it is full at a time, such room.
#[inline(always)]
pub(crate) fn widen_full(lists: &mut Vec<Vec<Change>>, place: usize, time: u64, last: u64)
    requires { place < length lists.old.items }
    ensures { lists_of lists.new.items ≡ lists_of lists.old.items }
{
    widen(&mut lists[place], 1, time, last);
}

/// Gives a list that comes to be longer by so many changes such room.
#[inline(always)]
fn widen(list: &mut Vec<Change>, more: usize, time: u64, last: u64)
    ensures { list.new.items ≡ list.old.items }
{
    let len = list.len();
    let need = len.saturating_add(more);
    if need <= list.capacity() {
        return;
    }
    widen_to(list, need, time, last);
}

/// Gives a list that comes to have more changes than it has room for such room.
#[cold]
#[inline(never)]
fn widen_to(list: &mut Vec<Change>, need: usize, time: u64, last: u64)
    ensures { list.new.items ≡ list.old.items }
{
    let _ = grow(list, room_for(list.len(), need, time, last));
}

/// Gives a list room for so many changes, or for more. A short one moves into what the calling thread makes: to grow what another
/// thread has made would wait for all that grow such. An error is a refused growth; then the list stays.
fn grow(list: &mut Vec<Change>, room: usize) -> Result<(), AllocError>
    ensures { list.new.items ≡ list.old.items }
{
    if list.len() > SHORT {
        return list.reserve_exact(room.saturating_sub(list.len()));
    }
    let mut moved = Vec::with_capacity(*list.allocator(), room)?;
    moved.extend_from_slice(list.as_slice())?;
    *list = moved;
    Ok(())
}

/// For how many changes a list gets room that has so many and needs more: for as many as it has at a last time if it goes on as
/// up to a time, and some more.
fn room_for(len: usize, need: usize, time: u64, last: u64) -> usize {
    let most = if len == 0 && need < FEW { FIRST } else { MOST };
    let at_this_rate = (need as u64).saturating_mul(last) / time.saturating_add(1);
    let at_last = at_this_rate.saturating_add(at_this_rate / 32) as usize;
    at_last
        .max(need.saturating_add(need / 4))
        .min(need.saturating_mul(most))
}
