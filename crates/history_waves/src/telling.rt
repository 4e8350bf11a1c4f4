//! From a history to all changes by time.

ghost use Rattle.std.specs.Prelude.{◌≡◌, ◌≤◌, [], true, List, IfOk, IfSome, length};
ghost use Rattle.net_waves.specs.ByTime.{stops_in};
ghost use Rattle.net_waves.specs.declared.timeline.Stop.{Stop};
ghost use Rattle.warp_stores.specs.Dated.{at};
ghost use Rattle.history_waves.specs.Histories.{AreBoth};
ghost use Rattle.history_waves.specs.Inner.Pending.{AreMore, AreTold};

use crate::merging::{list_given, list_time};
use net_waves::{ByTime, NetMove, Stop, Taker};
use std::alloc::{AllocError, Global};
use warp_stores::{StepReader, Steps, Word};

/// Up to a lesser horizon changes stand in words of four bytes each, else in keys of eight.
pub const FAR: u64 = 32_768;

/// Gives a taker all changes by time: those that are given, which stand in the order of time, and those of own nets that a history
/// tells, whose net stands at the place of each word. Tells whether it took all: not where they don't come one behind the other, or it
/// can't take one. An error is a refused growth.
pub fn tell_history<T: Taker>(
    alloc: Global,
    own: &[Option<u32>],
    history: &Steps<Word>,
    given: &[Stop],
    taker: &mut T,
) -> Result<bool, AllocError>
    ensures { IfOk result (λ done. done ≡ true → ((all : List Stop) × T.took taker.old taker.new all × AreBoth own.now given.now history.now all)) }
{
    let mut words = history.between(0, None);
    let mut moves = Vec::new(alloc);
    tell_all(own, &mut words, given, &mut moves, taker)
}

/// No changes, in the form in which those up to a horizon are had.
pub fn no_changes(alloc: Global, horizon: u64) -> ByTime
    ensures { stops_in result ≡ [] }
{
    if horizon < FAR {
        ByTime::in_words(alloc)
    } else {
        ByTime::in_keys(alloc)
    }
}

/// Gives a taker the given changes and those of own nets that the words of a history tell, by time, and tells whether it took all. An
/// error is a refused growth. The moves are a place to work in.
fn tell_all<T: Taker>(
    own: &[Option<u32>],
    words: &mut StepReader<'_, Word>,
    given: &[Stop],
    moves: &mut Vec<NetMove>,
    taker: &mut T,
) -> Result<bool, AllocError>
    ensures { IfOk result (λ done. done ≡ true → ((all : List Stop) × T.took taker.old taker.new all × AreBoth own.now given.now words.old all)) }
{
    let mut told = 0;
    while let Some(time) = words.head() {
        words.law();
        let Some(before) = tell_given(given, told, time, moves, taker)? else {
            return Ok(false);
        };
        let now = words.take_before(time + 1);
        let Some(next) = tell_time(own, time, now, given, before, moves, taker)? else {
            return Ok(false);
        };
        told = next;
    }
    match tell_given(given, told, u64::MAX, moves, taker)? {
        Some(all) => Ok(all == given.len()),
        None => Ok(false),
    }
}

/// Gives a taker the given changes before a time, from a number on; answers how many it has taken by then, none where it can't take one.
/// An error is a refused growth. The moves are a place to work in.
pub(crate) fn tell_given<T: Taker>(
    given: &[Stop],
    from: usize,
    until: u64,
    moves: &mut Vec<NetMove>,
    taker: &mut T,
) -> Result<Option<usize>, AllocError>
    requires { from ≤ length given.now }
    ensures { IfOk result (λ next. IfSome next (λ next. (next ≤ length given.now) × ((more : List Stop) × T.took taker.old taker.new more × AreMore given.now from next [] more))) }
{
    let mut next = from;
    while next < given.len() && given[next].time < until {
        let time = given[next].time;
        moves.clear();
        let more = list_given(given, next, time, u32::MAX, moves)?;
        if more == next || !taker.take_all(time, moves.as_slice())? {
            return Ok(None);
        }
        next = more;
    }
    Ok(Some(next))
}

/// Gives a taker the changes of a time: those of own nets that words tell, and the given ones, from a number on; answers how many of these
/// it has taken by then, none where it can't take them. An error is a refused growth. The moves are a place to work in.
fn tell_time<T: Taker>(
    own: &[Option<u32>],
    time: u64,
    words: &[Word],
    given: &[Stop],
    from: usize,
    moves: &mut Vec<NetMove>,
    taker: &mut T,
) -> Result<Option<usize>, AllocError>
    requires { from ≤ length given.now }
    ensures { IfOk result (λ next. IfSome next (λ next. (next ≤ length given.now) × ((more : List Stop) × T.took taker.old taker.new more × AreTold own.now given.now from next (at time words.now) [] more))) }
{
    moves.clear();
    let some = list_time(own, time, words, given, from, moves)?;
    let next = list_given(given, some, time, u32::MAX, moves)?;
    if taker.take_all(time, moves.as_slice())? {
        return Ok(Some(next));
    }
    Ok(None)
}
