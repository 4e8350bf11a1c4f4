//! Places between stops.
ghost use Rattle.std.specs.Prelude.{◌≡◌, ◌<◌, ◌≤◌, ◌+◌, ◌-◌, ◌^◌, ◌++◌, ◌∷◌, [], IsOk, OnOk, OnErr, true, false, length, vec_len, vec_capacity, drop};
ghost use Rattle.std.specs.List.{between};
ghost use Rattle.warp_stores.specs.Inner.Stops.{total, Climbs, IsSpan, IsParted, IsEnd, IsJoined, HaveOneMore, HaveMore};
ghost use Rattle.warp_stores.specs.Shown.Stops.{end_of, told};
ghost use Rattle.warp_stores.specs.Shown.StopBits.{Tally};
ghost use Rattle.warp_stores.specs.Dated.{at, later};

use crate::batch::Batch;
use crate::stop::{MOST_COUNTED, Stop, TIMES};
use std::alloc::AllocError;

/// A place between stops: how many stops are ahead of it, and how many words they have.
#[derive(Clone, Copy, Debug)]
pub(crate) struct Place {
    pub(crate) stops: usize,
    pub(crate) words: usize,
}

impl Place {
    /// The place ahead of all stops.
    pub(crate) const START: Place = Place { stops: 0, words: 0 };

    /// The place behind a stop that stands at this one.
    fn behind(self, stop: Stop) -> Place
        requires stops { self.stops + 1 < 2 ^ 64 }
        requires words { self.words + stop.count < 2 ^ 64 }
        ensures { result ≡ record { stops = self.stops + 1; words = self.words + stop.count } }
    {
        Place {
            stops: self.stops + 1,
            words: self.words + stop.count() as usize,
        }
    }

    /// The place ahead of the stop that this one is behind.
    fn ahead_of(self, stop: Stop) -> Place
        requires stops { 0 < self.stops }
        requires words { stop.count ≤ self.words }
        ensures { result ≡ record { stops = self.stops - 1; words = self.words - stop.count } }
    {
        Place {
            stops: self.stops - 1,
            words: self.words - stop.count() as usize,
        }
    }
}

/// The place behind all stops.
pub(crate) fn end_of<T>(stops: &Vec<Stop>, words: &Vec<T>) -> Place
    ensures { result ≡ end_of stops.now.items words.now.items }
{
    Place {
        stops: stops.len(),
        words: words.len(),
    }
}

/// The first place between two from which on no stop is before a time, sought from the first of them.
pub(crate) fn first_since(stops: &[Stop], from: Place, to: Place, time: u64) -> Place
    requires span { IsSpan stops.now from to }
    requires fits { total stops.now < 2 ^ 64 }
    requires rising { Climbs 0 (between from.stops to.stops stops.now) }
    ensures { IsParted time stops.now from to result }
{
    let mut place = from;
    while place.stops < to.stops {
        let stop = stops[place.stops];
        if stop.time() >= time {
            return place;
        }
        place = place.behind(stop);
    }
    place
}

/// The same, sought from the last of them.
pub(crate) fn last_before(stops: &[Stop], from: Place, to: Place, time: u64) -> Place
    requires span { IsSpan stops.now from to }
    requires rising { Climbs 0 (between from.stops to.stops stops.now) }
    ensures { IsParted time stops.now from to result }
{
    let mut place = to;
    while place.stops > from.stops {
        let stop = stops[place.stops - 1];
        if stop.time() < time {
            return place;
        }
        place = place.ahead_of(stop);
    }
    place
}

/// The first place between two from which on no stop is before an end, sought from the first of them. Where there is no end it
/// is the second of them.
pub(crate) fn first_behind(stops: &[Stop], from: Place, to: Place, end: Option<u64>) -> Place
    requires span { IsSpan stops.now from to }
    requires fits { total stops.now < 2 ^ 64 }
    requires rising { Climbs 0 (between from.stops to.stops stops.now) }
    ensures { IsEnd end stops.now from to result }
{
    match end {
        Some(time) => first_since(stops, from, to, time),
        None => to,
    }
}

/// Counts one word more at a time: in the last stop, where that is at the time, has room and isn't among the first few.
pub(crate) fn count_one(stops: &mut Vec<Stop>, fixed: usize, time: u64) -> Result<(), AllocError>
    requires { time < TIMES }
    ensures ok { OnOk result (HaveOneMore fixed time stops.old.items stops.new.items) }
    ensures err { OnErr result (stops.new.items ≡ stops.old.items) }
{
    let len = stops.len();
    if len > fixed {
        let last = stops[len - 1];
        if last.time() == time && last.has_room() {
            stops[len - 1] = last.one_more();
            return Ok(());
        }
    }
    stops.push(Stop::new(time, 1))?;
    Ok(())
}

/// Counts one word more in the last stop, where that is at the time, has room and isn't among the first few, and appends it, if
/// there is room; tells whether it did.
#[inline]
pub(crate) fn join<T: Copy>(
    stops: &mut Vec<Stop>,
    words: &mut Vec<T>,
    fixed: usize,
    time: u64,
    word: T,
) -> bool
    ensures joined { result ≡ true → (last : Tally) × IsJoined fixed time stops.old.items stops.new.items last }
    ensures words { result ≡ true → words.new.items ≡ words.old.items ++ word ∷ [] }
    ensures stops_stay { result ≡ false → stops.new.items ≡ stops.old.items }
    ensures words_stay { result ≡ false → words.new.items ≡ words.old.items }
{
    let len = stops.len();
    if len <= fixed || words.len() == words.capacity() {
        return false;
    }
    let last = stops[len - 1];
    if last.time() != time || !last.has_room() {
        return false;
    }
    stops[len - 1] = last.one_more();
    words.push_reserved(word);
    true
}

/// Counts one word more, and appends it.
pub(crate) fn append<T>(
    stops: &mut Vec<Stop>,
    words: &mut Vec<T>,
    fixed: usize,
    time: u64,
    word: T,
) -> Result<(), AllocError>
where
    T: Copy,
    requires { time < TIMES }
    ensures stops { OnOk result (HaveOneMore fixed time stops.old.items stops.new.items) }
    ensures words { OnOk result (words.new.items ≡ words.old.items ++ word ∷ []) }
    ensures stops_err { OnErr result (stops.new.items ≡ stops.old.items) }
    ensures words_err { OnErr result (words.new.items ≡ words.old.items) }
{
    words.reserve(1)?;
    count_one(stops, fixed, time)?;
    words.push_reserved(word);
    Ok(())
}

/// Counts so many words more at a time, in stops of their own.
fn count_all(stops: &mut Vec<Stop>, time: u64, count: usize) -> Result<(), AllocError>
    requires { time < TIMES }
    ensures ok { OnOk result (HaveMore time count stops.old.items stops.new.items) }
    ensures err { OnErr result (stops.new.items ≡ stops.old.items) }
{
    let len = stops.len();
    let mut left = count as u64;
    while left > 0 {
        let some = left.min(MOST_COUNTED);
        if stops.push(Stop::new(time, some)).is_err() {
            stops.truncate(len);
            return Err(AllocError);
        }
        left -= some;
    }
    Ok(())
}

/// Appends words. One alone, as it mostly is, is put without a call.
#[inline]
pub(crate) fn push_some<T: Copy>(words: &mut Vec<T>, more: &[T]) -> Result<(), AllocError>
    ensures ok { OnOk result (words.new.items ≡ words.old.items ++ more.now) }
    ensures err { OnErr result (words.new.items ≡ words.old.items) }
    ensures room { vec_len words.old + length more.now ≤ vec_capacity words.old → IsOk result }
{
    match more {
        [word] => {
            words.push(*word)?;
            Ok(())
        }
        _ => words.extend_from_slice(more),
    }
}

/// Counts words more, and appends them.
pub(crate) fn append_all<T>(
    stops: &mut Vec<Stop>,
    words: &mut Vec<T>,
    time: u64,
    more: &[T],
) -> Result<(), AllocError>
where
    T: Copy,
    requires { time < TIMES }
    ensures stops { OnOk result (HaveMore time (length more.now) stops.old.items stops.new.items) }
    ensures words { OnOk result (words.new.items ≡ words.old.items ++ more.now) }
    ensures stops_err { OnErr result (stops.new.items ≡ stops.old.items) }
    ensures words_err { OnErr result (words.new.items ≡ words.old.items) }
{
    if let [word] = more {
        return append_alone(stops, words, time, *word);
    }
    words.reserve(more.len())?;
    count_all(stops, time, more.len())?;
    words.extend_from_slice(more)?;
    Ok(())
}

/// Counts one word more in a stop of its own, and appends it.
fn append_alone<T: Copy>(
    stops: &mut Vec<Stop>,
    words: &mut Vec<T>,
    time: u64,
    word: T,
) -> Result<(), AllocError>
    requires { time < TIMES }
    ensures stops { OnOk result (HaveMore time 1 stops.old.items stops.new.items) }
    ensures words { OnOk result (words.new.items ≡ words.old.items ++ word ∷ []) }
    ensures stops_err { OnErr result (stops.new.items ≡ stops.old.items) }
    ensures words_err { OnErr result (words.new.items ≡ words.old.items) }
{
    words.reserve(1)?;
    stops.push(Stop::new(time, 1))?;
    words.push_reserved(word);
    Ok(())
}

/// Puts the words from a place on into a batch, each a delay later, up to a last time. An error is a refused growth; then
/// the batch has no word.
pub(crate) fn tell<T>(
    stops: &[Stop],
    words: &[T],
    from: Place,
    delay: u32,
    last: u64,
    batch: &mut Batch<T>,
) -> Result<(), AllocError>
where
    T: Copy,
    requires whole { total stops.now ≡ length words.now }
    requires fits { total stops.now < 2 ^ 64 }
    requires span { IsSpan stops.now from (end_of stops.now words.now) }
    requires time { last < TIMES }
    ensures ok { OnOk result (batch.new ≡ batch.old ++ later delay last (told stops.now words.now from (end_of stops.now words.now))) }
    ensures err { OnErr result (batch.new ≡ []) }
{
    let mut place = from;
    while place.stops < stops.len() {
        let stop = stops[place.stops];
        let time = stop.time() + delay as u64;
        let next = place.behind(stop);
        tell_stop(part(words, place.words, next.words), time, last, batch)?;
        place = next;
    }
    Ok(())
}

/// Puts the words of a time into a batch, unless that is later than a last one. An error is a refused growth; then the batch
/// has no word.
fn tell_stop<T>(words: &[T], time: u64, last: u64, batch: &mut Batch<T>) -> Result<(), AllocError>
where
    T: Copy,
    requires { last < TIMES }
    ensures told { OnOk result (time ≤ last → batch.new ≡ batch.old ++ at time words.now) }
    ensures over { OnOk result (last < time → batch.new ≡ batch.old) }
    ensures err { OnErr result (batch.new ≡ []) }
{
    if time > last {
        return Ok(());
    }
    if batch.append_all(time, words).is_err() {
        batch.clear();
        return Err(AllocError);
    }
    Ok(())
}

/// The items from one place up to another.
pub(crate) fn part<T>(items: &[T], from: usize, to: usize) -> &[T]
    requires order { from ≤ to }
    requires within { to ≤ length items.now }
    ensures { result.now ≡ between from to items.now }
{
    &items[from..to]
}

/// Drops the first few items.
pub(crate) fn drop_front<T: Copy>(items: &mut Vec<T>, count: usize)
    requires { count ≤ length items.old.items }
    ensures { items.new.items ≡ drop count items.old.items }
{
    let left = items.len() - count;
    items.copy_within(count.., 0);
    items.truncate(left);
}
