//! From several histories to all changes by time, by threads side by side, each of which has a part of time.

ghost use Rattle.std.specs.Prelude.{◌≡◌, ◌<◌, ◌≤◌, ◌++◌, IfOk, IfSome, length, get_or, map};
ghost use Rattle.net_waves.specs.ByTime.{stops_in};
ghost use Rattle.net_waves.specs.Timeline.{count};
ghost use Rattle.history_waves.specs.Stories.{AreAll};
ghost use Rattle.history_waves.specs.Inner.Parts.{part_of, is_within, stops_within, ArePart};
ghost use Rattle.history_waves.specs.Inner.Begins.{AreBegins, end_of, stops_of, AreAllTold, count_told};

use crate::several::merged;
use crate::story::Story;
use crate::untold::Untold;
use net_waves::{ByTime, Stop};
use std::alloc::{AllocError, Global};
use std::thread;
use std::thread::Threads;

/// A thread is worth while for so many words: to tell fewer takes less than two milliseconds or so.
const WORDS_FOR_A_THREAD: usize = 65_536;

/// All changes by time, up to a horizon: those that are given, which stand in the order of time, and those that stories tell; none
/// where they don't come one behind the other, or one has no word or key. An error is a refused growth.
pub fn by_time_of_all(
    alloc: Global,
    horizon: u64,
    stories: Vec<Story>,
    given: &[Stop],
) -> Result<Option<ByTime>, AllocError>
    ensures { IfOk result (λ all. IfSome all (λ by_time. AreAll given.now stories.items (stops_in by_time))) }
{
    let untold = untold_within(alloc, stories.as_slice(), 0, None)?;
    merged(alloc, horizon, untold, given)
}

/// The same by up to so many threads, at least one, as far as they are worth while: each puts the changes of a part of time in order.
pub fn by_time_of_all_by<R: Threads + Sync>(
    rt: &R,
    alloc: Global,
    threads: u32,
    horizon: u64,
    stories: Vec<Story>,
    given: &[Stop],
) -> Result<Option<ByTime>, AllocError>
    requires { 1 ≤ threads }
    ensures { IfOk result (λ all. IfSome all (λ by_time. AreAll given.now stories.items (stops_in by_time))) }
{
    let told = stories.as_slice();
    let list = begins_of(alloc, threads, told)?;
    let begins = list.as_slice();
    let parts = thread::map_indices(
        rt,
        alloc,
        begins.len(),
        &|part| part_at(alloc, horizon, told, given, begins, part),
    )?;
    joined(parts)
}

/// Where parts of time begin that are about as long, no more of them than threads, nor than are worth while. An error is a refused growth.
fn begins_of(alloc: Global, threads: u32, stories: &[Story]) -> Result<Vec<u64>, AllocError>
    requires { 1 ≤ threads }
    ensures begins { IfOk result (λ begins. AreBegins begins.items) }
    ensures few { IfOk result (λ begins. length begins.items ≤ threads) }
{
    let parts = parts_for(threads, stories);
    let share = (last_time(stories) / parts).saturating_add(1);
    let mut begins = Vec::new(alloc);
    let mut begin: u64 = 0;
    begins.push(begin)?;
    for _ in 1..parts {
        begin = begin.saturating_add(share);
        begins.push(begin)?;
    }
    Ok(begins)
}

/// How many parts are worth while, one at least, and no more than threads.
fn parts_for(threads: u32, stories: &[Story]) -> u64
    requires { 1 ≤ threads }
    ensures some { 1 ≤ result }
    ensures few { result ≤ threads }
{
    let mut words: usize = 0;
    for story in stories {
        words = words.saturating_add(story.count());
    }
    u64::from(threads)
        .min((words / WORDS_FOR_A_THREAD) as u64)
        .max(1)
}

/// The latest time of a last word, 0 where there is none.
fn last_time(stories: &[Story]) -> u64 {
    let mut last = 0;
    for story in stories {
        last = story.last_time().max(last);
    }
    last
}

/// What is told of the part of a number. An error is a refused growth.
fn part_at(
    alloc: Global,
    horizon: u64,
    stories: &[Story],
    given: &[Stop],
    begins: &[u64],
    part: usize,
) -> Result<Option<ByTime>, AllocError>
    requires { part < length begins.now }
    ensures { IfOk result (λ told. IfSome told (λ by_time. ArePart (get_or begins.now part 0) (end_of begins.now part) given.now stories.now (stops_in by_time))) }
{
    let from = begins[part];
    let until = end_of(begins, part);
    let untold = untold_within(alloc, stories, from, until)?;
    let some = given_within(alloc, given, from, until)?;
    merged(alloc, horizon, untold, some.as_slice())
}

/// When a part ends: where the next one begins, if there is one.
fn end_of(begins: &[u64], part: usize) -> Option<u64>
    requires { part < length begins.now }
    ensures { result ≡ end_of begins.now part }
{
    begins.get(part + 1).copied()
}

/// What stories tell of a part of time. An error is a refused growth.
fn untold_within<'a>(
    alloc: Global,
    stories: &'a [Story],
    from: u64,
    until: Option<u64>,
) -> Result<Vec<Untold<'a>>, AllocError>
    ensures { IfOk result (λ untold. untold.items ≡ map (part_of from until) stories.now) }
{
    let mut untold = Vec::with_capacity(alloc, stories.len())?;
    for story in stories {
        untold.push(story.between(from, until))?;
    }
    Ok(untold)
}

/// The given changes of a part of time. An error is a refused growth.
fn given_within(
    alloc: Global,
    given: &[Stop],
    from: u64,
    until: Option<u64>,
) -> Result<Vec<Stop>, AllocError>
    ensures { IfOk result (λ some. some.items ≡ stops_within from until given.now) }
{
    let mut some = Vec::new(alloc);
    for stop in given {
        if is_within(stop.time, from, until) {
            some.push(*stop)?;
        }
    }
    Ok(some)
}

/// Whether a time is from one on, and before an end, if there is one.
fn is_within(time: u64, from: u64, until: Option<u64>) -> bool
    ensures { result ≡ is_within from until time }
{
    let is_early = match until {
        Some(end) => time < end,
        None => true,
    };
    from <= time && is_early
}

/// What is told of parts, one behind the other; none where that isn't so of one, or they don't stand so. An error is that of a part,
/// or a refused growth.
fn joined(parts: Vec<Result<Option<ByTime>, AllocError>>) -> Result<Option<ByTime>, AllocError>
    ensures told { IfOk result (λ all. IfSome all (λ by_time. AreAllTold parts.items)) }
    ensures count { IfOk result (λ all. IfSome all (λ by_time. (s : _) → count s (stops_in by_time) ≡ count_told s parts.items)) }
{
    let mut all: Option<ByTime> = None;
    for part in parts {
        let Some(more) = part? else {
            return Ok(None);
        };
        let Some(both) = behind(all, more)? else {
            return Ok(None);
        };
        all = Some(both);
    }
    Ok(all)
}

/// Changes, if there are some, and behind them others; none where these don't stand behind them. An error is a refused growth.
fn behind(before: Option<ByTime>, later: ByTime) -> Result<Option<ByTime>, AllocError>
    ensures { IfOk result (λ both. IfSome both (λ all. stops_in all ≡ stops_of before ++ stops_in later)) }
{
    match before {
        Some(before) => before.followed_by(later),
        None => Ok(Some(later)),
    }
}
