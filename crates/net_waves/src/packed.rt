//! All changes by time in a word each, where times are dense: 4 bytes a change, and 4 a time.

ghost use Rattle.std.specs.Prelude.{◌≡◌, ◌≤◌, ◌<◌, ◌+◌, ◌-◌, ◌/◌, ◌++◌, [], true, false, get_or, length, drop, take, map, vec_len, vec_capacity, IsTrue, IfOk, OnOk, OnErr};
ghost use Rattle.std.specs.List.{AllByRecursion};
ghost use Rattle.net_waves.specs.declared.timeline.Stop.{Stop};
ghost use Rattle.net_waves.specs.Timeline.{IsRising, stop_by};
ghost use Rattle.net_waves.specs.Packed.{AreBounds, IsPacked, value_of, told, words_at, all_told, times};
ghost use Rattle.net_waves.specs.Inner.Packed.{bits_of, word_of, word_by, NetsRise, EndAt, IsOpen};

use crate::timeline::{NetMove, Stop};
use gate_values::Logic;
use std::alloc::{AllocError, Global};
use std::marker::Model;

/// No change is appended at this time, or later: each time costs a bound, whether there is a change at it or not.
const TIMES: u64 = 1_048_576;

/// A net of this number, or a greater one, has no word.
const NETS: u32 = 1_073_741_823;

/// No more words than so many come by appending: a bound could not tell where they end.
const MOST_WORDS: usize = 4_294_967_295;

/// For each time where its words begin, and at last where those of the last time end; and the words, each of a net and
/// the value that it takes.
#[derive(Drop)]
pub struct Packed {
    bounds: Vec<u32>,
    words: Vec<u32>,
}

impl Model for Packed {
    ghost use Rattle.net_waves.specs.Packed.{Packed as Line, packed_of, IsPacked};

    ghost Value = { Line };

    ghost view = { packed_of };

    ghost invariant = { λ p. IsPacked (packed_of p) };
}

fn bits(value: Logic) -> u32
    ensures { result ≡ bits_of value }
{
    match value {
        Logic::Zero => 0,
        Logic::One => 1,
        Logic::X => 2,
        Logic::Z => 3,
    }
}

fn value(bits: u32) -> Logic
    ensures { result ≡ value_of bits }
{
    match bits {
        0 => Logic::Zero,
        1 => Logic::One,
        2 => Logic::X,
        _ => Logic::Z,
    }
}

/// The word of a net that takes a value. None is the greatest number.
pub fn word(net: u32, value: Logic) -> u32
    requires { net < 1073741823 }
    ensures { result ≡ word_of net value }
{
    net * 4 + bits(value)
}

/// The net of a word.
pub fn net_of(word: u32) -> u32
    ensures { result ≡ word / 4 }
{
    word / 4
}

/// What a word tells, at a time.
pub fn stop_at(time: u64, word: u32) -> Stop
    ensures { result ≡ told time word }
{
    Stop {
        time,
        net: net_of(word),
        value: value(word % 4),
    }
}

/// The words from a place up to another.
fn part(words: &[u32], start: usize, end: usize) -> &[u32]
    requires rising { start ≤ end }
    requires within { end ≤ length words.now }
    ensures { result.now ≡ drop start (take end words.now) }
{
    &words[start..end]
}

/// The words of a time.
pub fn words_of<'a>(bounds: &[u32], words: &'a [u32], time: usize) -> &'a [u32]
    requires known { time + 1 < length bounds.now }
    requires bounds { AreBounds bounds.now (length words.now) }
    ensures { result.now ≡ words_at (record { bounds = bounds.now; words = words.now }) time }
{
    part(words, bounds[time] as usize, bounds[time + 1] as usize)
}

/// Appends what words tell, at a time. An error is a refused growth.
fn add_told(stops: &mut Vec<Stop>, time: u64, words: &[u32]) -> Result<(), AllocError>
    ensures { OnOk result (stops.new.items ≡ stops.old.items ++ map (told time) words.now) }
{
    for word in words {
        stops.push(stop_at(time, *word))?;
    }
    Ok(())
}

/// Whether the last of bounds is this end, if there are bounds.
fn do_end_at(bounds: &[u32], end: usize) -> bool
    ensures { IsTrue result → EndAt bounds.now end }
{
    match bounds {
        [] => true,
        [.., last] => *last as usize == end,
    }
}

/// Pushes the words of moves, if each net has a word and they rise. Tells whether it did; else words are as they were.
fn push_all(words: &mut Vec<u32>, moves: &[NetMove]) -> bool
    requires room { vec_len words.old + length moves.now ≤ vec_capacity words.old }
    ensures pushed { IsTrue result → words.new.items ≡ words.old.items ++ map word_by moves.now }
    ensures rising { IsTrue result → NetsRise 0 1073741823 (map word_by moves.now) }
    ensures stays { result ≡ false → words.new.items ≡ words.old.items }
{
    let start = words.len();
    let mut from: u32 = 0;
    for entry in moves {
        if entry.net < from || entry.net >= NETS {
            words.truncate(start);
            return false;
        }
        from = entry.net + 1;
        words.push_reserved(word(entry.net, entry.value));
    }
    true
}

impl Packed {
    /// No word, and no time.
    pub(crate) fn empty(alloc: Global) -> Packed
        ensures { all_told result ≡ [] }
    {
        Packed::new(Vec::new(alloc), Vec::new(alloc))
    }

    /// Words between bounds.
    pub(crate) fn new(bounds: Vec<u32>, words: Vec<u32>) -> Packed
        requires { IsPacked (record { bounds = bounds.items; words = words.items }) }
        ensures { result ≡ record { bounds = bounds.items; words = words.items } }
    {
        Packed { bounds, words }
    }

    /// The number of times.
    pub fn times(&self) -> usize
        ensures { result ≡ times self.now }
    {
        self.bounds.len().saturating_sub(1)
    }

    /// What is true of all packed changes.
    pub fn law(&self)
        ensures { IsPacked self.now }
    {
        let _ = &self.words;
    }

    /// The words of a time.
    pub fn words(&self, time: usize) -> &[u32]
        requires { time < times self.now }
        ensures { result.now ≡ words_at self.now time }
    {
        words_of(self.bounds.as_slice(), self.words.as_slice(), time)
    }

    /// All that is told. An error is a refused growth.
    pub(crate) fn stops(&self) -> Result<Vec<Stop>, AllocError>
        ensures { IfOk result (λ stops. stops.items ≡ all_told self.now) }
    {
        let alloc = *self.words.allocator();
        let mut stops = Vec::with_capacity(alloc, self.words.len())?;
        for time in 0..self.times() {
            add_told(&mut stops, time as u64, self.words(time))?;
        }
        Ok(stops)
    }

    /// Whether so many words more may stand behind all words.
    fn is_open(&self, more: usize) -> bool
        ensures { IsTrue result → IsOpen self.now more }
    {
        let end = self.words.len();
        if end > MOST_WORDS || more > MOST_WORDS - end {
            return false;
        }
        do_end_at(self.bounds.as_slice(), end)
    }

    /// Has so many times, more than before, and the memory for so many words more. An error is a refused growth; either way the
    /// same is told.
    fn grow_to(&mut self, many: usize, more: usize) -> Result<(), AllocError>
        requires open { IsOpen self.old more }
        requires later { times self.old < many }
        requires few { many ≤ 1048576 }
        ensures told { all_told self.new ≡ all_told self.old }
        ensures open { OnOk result (IsOpen self.new more) }
        ensures times { OnOk result (times self.new ≡ many) }
    {
        self.words.reserve(more)?;
        let end = self.words.len() as u32;
        self.bounds.resize(many + 1, end)
    }

    /// Appends words at the last time, which has none, if each net has a word and they rise. Tells whether it did. An error is a
    /// refused growth.
    fn push_words(&mut self, moves: &[NetMove]) -> Result<bool, AllocError>
        requires open { IsOpen self.old (length moves.now) }
        requires some { 0 < times self.old }
        requires early { AllByRecursion (λ (s : Stop). s.time < times self.old - 1) (all_told self.old) }
        ensures appended { IfOk result (λ done. done ≡ true → all_told self.new ≡ all_told self.old ++ map (stop_by (times self.old - 1)) moves.now) }
        ensures stays { IfOk result (λ done. done ≡ false → all_told self.new ≡ all_told self.old) }
        ensures err { OnErr result (all_told self.new ≡ all_told self.old) }
    {
        self.words.reserve(moves.len())?;
        if !push_all(&mut self.words, moves) {
            return Ok(false);
        }
        let last = self.bounds.len() - 1;
        self.bounds[last] = self.words.len() as u32;
        Ok(true)
    }

    /// Has the memory for so many words more. An error is a refused growth; either way the same is told.
    fn reserve(&mut self, more: usize) -> Result<(), AllocError>
        ensures { all_told self.new ≡ all_told self.old }
    {
        self.words.reserve(more)
    }

    /// Appends words at the last time, which has none. An error is a refused growth.
    fn extend_last(&mut self, words: &[u32]) -> Result<(), AllocError>
        requires open { IsOpen self.old (length words.now) }
        requires some { 0 < times self.old }
        requires early { AllByRecursion (λ (s : Stop). s.time < times self.old - 1) (all_told self.old) }
        requires rising { IsRising (map (told (times self.old - 1)) words.now) }
        ensures appended { OnOk result (all_told self.new ≡ all_told self.old ++ map (told (times self.old - 1)) words.now) }
        ensures err { OnErr result (all_told self.new ≡ all_told self.old) }
    {
        self.words.extend_from_slice(words)?;
        let last = self.bounds.len() - 1;
        self.bounds[last] = self.words.len() as u32;
        Ok(())
    }

    /// Appends words that rise at a time, if it is later than that of all others, and the words not too many. Tells whether it did.
    /// An error is a refused growth.
    fn append_words(&mut self, time: u64, words: &[u32]) -> Result<bool, AllocError>
        requires { IsRising (map (told time) words.now) }
        ensures appended { IfOk result (λ done. done ≡ true → all_told self.new ≡ all_told self.old ++ map (told time) words.now) }
        ensures stays { IfOk result (λ done. done ≡ false → all_told self.new ≡ all_told self.old) }
        ensures err { OnErr result (all_told self.new ≡ all_told self.old) }
    {
        if time >= TIMES || time < self.times() as u64 || !self.is_open(words.len()) {
            return Ok(false);
        }
        self.grow_to(time as usize + 1, words.len())?;
        self.extend_last(words)?;
        Ok(true)
    }

    /// Appends the words of a time of others, if there are any. Tells whether they stand behind. An error is a refused growth.
    fn append_time(&mut self, later: &Packed, time: usize) -> Result<bool, AllocError>
        requires { time < times later.now }
        ensures { IfOk result (λ done. done ≡ true → all_told self.new ≡ all_told self.old ++ map (told time) (words_at later.now time)) }
    {
        let words = later.words(time);
        if words.is_empty() {
            return Ok(true);
        }
        later.law();
        self.append_words(time as u64, words)
    }

    /// Appends the words of all times of others, if all are later. Tells whether it did; else some of them may have been appended.
    /// An error is a refused growth.
    pub(crate) fn append_later(&mut self, later: &Packed) -> Result<bool, AllocError>
        ensures { IfOk result (λ done. done ≡ true → all_told self.new ≡ all_told self.old ++ all_told later.now) }
    {
        self.reserve(later.words.len())?;
        for time in 0..later.times() {
            if !self.append_time(later, time)? {
                return Ok(false);
            }
        }
        Ok(true)
    }

    /// Appends the changes of a time that is later than that of all others, by nets that rise. Tells whether it did. An error is
    /// a refused growth.
    pub(crate) fn append_all(&mut self, time: u64, moves: &[NetMove]) -> Result<bool, AllocError>
        ensures appended { IfOk result (λ done. done ≡ true → all_told self.new ≡ all_told self.old ++ map (stop_by time) moves.now) }
        ensures stays { IfOk result (λ done. done ≡ false → all_told self.new ≡ all_told self.old) }
        ensures err { OnErr result (all_told self.new ≡ all_told self.old) }
    {
        if time >= TIMES || time < self.times() as u64 || !self.is_open(moves.len()) {
            return Ok(false);
        }
        self.grow_to(time as usize + 1, moves.len())?;
        self.push_words(moves)
    }
}
