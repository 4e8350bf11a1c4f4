//! From what several histories tell to all changes by time.

ghost use Rattle.std.specs.Prelude.{◌≡◌, ◌≤◌, [], None, true, IfOk, IfSome, IfNone, length};
ghost use Rattle.net_waves.specs.ByTime.{stops_in};
ghost use Rattle.history_waves.specs.Stories.{AreAll};
ghost use Rattle.history_waves.specs.Inner.Pending.{AreTaken, AreLeft, AreRead};

use crate::merging::list_given;
use crate::telling::{no_changes, tell_given};
use crate::untold::Untold;
use net_waves::{ByTime, NetMove, Stop};
use std::alloc::{AllocError, Global};
use std::cmp::Reverse;
use std::collections::BinaryHeap;

/// When each of some histories goes on, the soonest first: the time of its first word, and its number.
type Heads = BinaryHeap<Reverse<(u64, usize)>>;

/// All changes by time, up to a horizon: those that are given, which stand in the order of time, and those that histories still tell;
/// none where they don't come one behind the other, or one has no word or key. An error is a refused growth.
pub(crate) fn merged(
    alloc: Global,
    horizon: u64,
    untold: Vec<Untold<'_>>,
    given: &[Stop],
) -> Result<Option<ByTime>, AllocError>
    ensures { IfOk result (λ all. IfSome all (λ by_time. AreAll given.now untold.entry.items (stops_in by_time))) }
{
    let mut by_time = no_changes(alloc, horizon);
    let mut untold = untold;
    let mut moves = Vec::new(alloc);
    let mut heads = heads_of(alloc, untold.as_slice())?;
    let left = untold.as_mut_slice();
    if tell_each(horizon, left, &mut heads, given, &mut moves, &mut by_time)? {
        return Ok(Some(by_time));
    }
    Ok(None)
}

/// When each history goes on. An error is a refused growth.
fn heads_of(alloc: Global, untold: &[Untold<'_>]) -> Result<Heads, AllocError> {
    let mut heads = BinaryHeap::with_capacity(alloc, untold.len())?;
    for place in 0..untold.len() {
        if let Some(time) = untold[place].head() {
            heads.push(Reverse((time, place)))?;
        }
    }
    Ok(heads)
}

/// Appends the given changes and those that histories tell, by time, and tells whether each came behind the one before. An error is a
/// refused growth.
fn tell_each(
    horizon: u64,
    untold: &mut [Untold<'_>],
    heads: &mut Heads,
    given: &[Stop],
    moves: &mut Vec<NetMove>,
    by_time: &mut ByTime,
) -> Result<bool, AllocError>
    requires none { stops_in by_time.old ≡ [] }
    ensures { IfOk result (λ done. done ≡ true → AreAll given.now untold.old (stops_in by_time.new)) }
{
    let mut told = 0;
    for _ in 0..horizon.saturating_add(1) {
        let Some(time) = soonest(heads) else {
            break;
        };
        match tell_next(time, untold, heads, given, told, moves, by_time)? {
            Some(next) => told = next,
            None => return Ok(false),
        }
    }
    if first_head(untold).is_some() {
        return Ok(false);
    }
    match tell_given(given, told, u64::MAX, moves, by_time)? {
        Some(all) => Ok(all == given.len()),
        None => Ok(false),
    }
}

/// When a history goes on first.
fn soonest(heads: &Heads) -> Option<u64> {
    let Reverse((time, _)) = heads.peek()?;
    Some(*time)
}

/// The least time of the first words of histories; none where no word is left.
fn first_head(untold: &[Untold<'_>]) -> Option<u64>
    ensures { IfNone result (AreRead untold.now) }
{
    let mut first = None;
    for history in untold {
        first = sooner(first, history.head());
    }
    first
}

/// The lesser of two times, where there are both.
fn sooner(time: Option<u64>, other: Option<u64>) -> Option<u64>
    ensures { IfNone result ((time ≡ None) × (other ≡ None)) }
{
    match (time, other) {
        (Some(time), Some(other)) => Some(time.min(other)),
        (Some(time), None) => Some(time),
        (None, other) => other,
    }
}

/// Appends the given changes up to a time, from a number on, and those of that time which histories tell; answers how many of the given
/// ones are appended by then, none where some don't come behind the others. An error is a refused growth.
fn tell_next(
    time: u64,
    untold: &mut [Untold<'_>],
    heads: &mut Heads,
    given: &[Stop],
    from: usize,
    moves: &mut Vec<NetMove>,
    by_time: &mut ByTime,
) -> Result<Option<usize>, AllocError>
    requires { from ≤ length given.now }
    ensures { IfOk result (λ next. IfSome next (λ next. (next ≤ length given.now) × AreLeft given.now from next untold.old untold.new (stops_in by_time.old) (stops_in by_time.new))) }
{
    let Some(before) = tell_given(given, from, time, moves, by_time)? else {
        return Ok(None);
    };
    let next = list_next(time, untold, heads, given, before, moves)?;
    if by_time.append_all(time, moves.as_slice())? {
        return Ok(Some(next));
    }
    Ok(None)
}

/// Lists all changes of a time by nets, in place of what was listed: those that histories tell, and the given ones, from a number on;
/// answers how many of these are listed by then. An error is a refused growth.
fn list_next(
    time: u64,
    untold: &mut [Untold<'_>],
    heads: &mut Heads,
    given: &[Stop],
    from: usize,
    moves: &mut Vec<NetMove>,
) -> Result<usize, AllocError>
    requires { from ≤ length given.now }
    ensures within { IfOk result (λ next. next ≤ length given.now) }
    ensures taken { IfOk result (λ next. AreTaken given.now from next time untold.old untold.new [] moves.new.items) }
{
    moves.clear();
    let some = list_each(time, untold, heads, given, from, moves)?;
    let next = list_given(given, some, time, u32::MAX, moves)?;
    sort(moves.as_mut_slice(), time);
    Ok(next)
}

/// Lists the changes of a time that histories tell, one after another, and before each the given changes of lesser nets, from a
/// number on; answers how many of the given ones are listed by then. An error is a refused growth.
fn list_each(
    time: u64,
    untold: &mut [Untold<'_>],
    heads: &mut Heads,
    given: &[Stop],
    from: usize,
    moves: &mut Vec<NetMove>,
) -> Result<usize, AllocError>
    requires { from ≤ length given.now }
    ensures within { IfOk result (λ next. next ≤ length given.now) }
    ensures taken { IfOk result (λ next. AreTaken given.now from next time untold.old untold.new moves.old.items moves.new.items) }
{
    let mut next = from;
    for _ in 0..untold.len() {
        let Some(place) = taken_at(heads, time) else {
            break;
        };
        next = list_one(place, time, untold, heads, given, next, moves)?;
    }
    Ok(next)
}

/// Takes out a history that goes on at a time, if that is when one goes on first.
fn taken_at(heads: &mut Heads, time: u64) -> Option<usize> {
    if soonest(heads) != Some(time) {
        return None;
    }
    let Reverse((_, place)) = heads.pop()?;
    Some(place)
}

/// The same of one history, which is put in again where it goes on.
fn list_one(
    place: usize,
    time: u64,
    untold: &mut [Untold<'_>],
    heads: &mut Heads,
    given: &[Stop],
    from: usize,
    moves: &mut Vec<NetMove>,
) -> Result<usize, AllocError>
    requires { from ≤ length given.now }
    ensures within { IfOk result (λ next. next ≤ length given.now) }
    ensures taken { IfOk result (λ next. AreTaken given.now from next time untold.old untold.new moves.old.items moves.new.items) }
{
    if place >= untold.len() {
        return Ok(from);
    }
    let next = untold[place].tell(time, given, from, moves)?;
    if let Some(head) = untold[place].head() {
        heads.push(Reverse((head, place)))?;
    }
    Ok(next)
}

/// Puts moves of a time by nets, if they don't stand so.
fn sort(moves: &mut [NetMove], time: u64)
    ensures { AreTaken [] 0 0 time [] [] moves.old moves.new }
{
    if do_rise(moves) {
        return;
    }
    moves.sort_unstable_by_key(|entry| entry.net);
}

/// Whether the nets of moves rise.
fn do_rise(moves: &[NetMove]) -> bool {
    let mut from = 0;
    for entry in moves {
        if entry.net < from {
            return false;
        }
        from = entry.net;
    }
    true
}
