//! The changes of one time: given ones, and those of own nets.

ghost use Rattle.std.specs.Prelude.{◌≡◌, ◌≤◌, ◌∷◌, [], None, OnOk, IfOk, length, get_or};
ghost use Rattle.warp_stores.specs.Dated.{at};
ghost use Rattle.history_waves.specs.Inner.Pending.{AreGiven, AreOwnMoves, AreListed};

use net_waves::{NetMove, Stop};
use std::alloc::AllocError;
use warp_stores::Word;

/// Lists the given changes, from a number on, that are of a time and of nets below one; answers how many are listed by then. An error
/// is a refused growth.
pub(crate) fn list_given(
    given: &[Stop],
    from: usize,
    time: u64,
    below: u32,
    moves: &mut Vec<NetMove>,
) -> Result<usize, AllocError>
    requires { from ≤ length given.now }
    ensures within { IfOk result (λ next. (from ≤ next) × (next ≤ length given.now)) }
    ensures listed { IfOk result (λ next. AreGiven given.now from next time moves.old.items moves.new.items) }
{
    let mut next = from;
    while next < given.len() && given[next].time == time && given[next].net < below {
        moves.push(NetMove {
            net: given[next].net,
            value: given[next].value,
        })?;
        next += 1;
    }
    Ok(next)
}

/// The net at a place, if it is an own one.
fn net_at(own: &[Option<u32>], place: u32) -> Option<u32>
    ensures { result ≡ get_or own.now place None }
{
    match own.get(place as usize) {
        Some(net) => *net,
        None => None,
    }
}

/// Lists the change of an own net that a word of a time tells, if it does. An error is a refused growth.
fn list_word(
    own: &[Option<u32>],
    time: u64,
    word: Word,
    moves: &mut Vec<NetMove>,
) -> Result<(), AllocError>
    ensures { OnOk result (AreOwnMoves own.now ((time, word) ∷ []) time moves.old.items moves.new.items) }
{
    match net_at(own, word.place()) {
        Some(net) => {
            moves.push(NetMove {
                net,
                value: word.after(),
            })?;
            Ok(())
        }
        None => Ok(()),
    }
}

/// Lists the changes of own nets that the words of a time tell. An error is a refused growth.
fn list_own(
    own: &[Option<u32>],
    time: u64,
    words: &[Word],
    moves: &mut Vec<NetMove>,
) -> Result<(), AllocError>
    ensures { OnOk result (AreOwnMoves own.now (at time words.now) time moves.old.items moves.new.items) }
{
    for word in words {
        list_word(own, time, *word, moves)?;
    }
    Ok(())
}

/// Lists these, and before each the given changes of lesser nets; answers how many of the given ones are listed by then. An error is a
/// refused growth.
fn list_both(
    own: &[Option<u32>],
    time: u64,
    words: &[Word],
    given: &[Stop],
    from: usize,
    moves: &mut Vec<NetMove>,
) -> Result<usize, AllocError>
    requires { from ≤ length given.now }
    ensures within { IfOk result (λ next. (from ≤ next) × (next ≤ length given.now)) }
    ensures listed { IfOk result (λ next. AreListed own.now given.now from next (at time words.now) time moves.old.items moves.new.items) }
{
    let mut next = from;
    for word in words {
        let below = net_at(own, word.place()).unwrap_or(0);
        next = list_given(given, next, time, below, moves)?;
        list_word(own, time, *word, moves)?;
    }
    Ok(next)
}

/// The same, also where no given change is of the time. An error is a refused growth.
pub(crate) fn list_time(
    own: &[Option<u32>],
    time: u64,
    words: &[Word],
    given: &[Stop],
    from: usize,
    moves: &mut Vec<NetMove>,
) -> Result<usize, AllocError>
    requires { from ≤ length given.now }
    ensures within { IfOk result (λ next. (from ≤ next) × (next ≤ length given.now)) }
    ensures listed { IfOk result (λ next. AreListed own.now given.now from next (at time words.now) time moves.old.items moves.new.items) }
{
    if from < given.len() && given[from].time == time {
        return list_both(own, time, words, given, from, moves);
    }
    list_own(own, time, words, moves)?;
    Ok(from)
}
