//! All changes by time in a key each: 8 bytes a change, of times below [`KEY_TIMES`] and nets below [`KEY_NETS`].

ghost use Rattle.std.specs.Prelude.{◌≡◌, ◌<◌, ◌≤◌, ◌+◌, ◌↔◌, ◌++◌, ℕ, List, [], true, false, map, length, vec_len, vec_capacity, IfOk, OnErr, IsTrue};
ghost use Rattle.net_waves.specs.Keys.{AreKeys, KeysRise, stop_of, stops_of_keys};
ghost use Rattle.net_waves.specs.Timeline.{stop_by};
ghost use Rattle.net_waves.specs.Inner.Keys.{key_of, key_by, HaveKeys};

use crate::packed::{stop_at, word};
use crate::timeline::{NetMove, Stop};
use std::alloc::{AllocError, Global};
use std::marker::Model;

/// A stop has no key at this time, or later.
pub const KEY_TIMES: u64 = 4_398_046_511_104;

/// A net of this number, or a greater one, has no stop with a key.
pub const KEY_NETS: usize = 1_048_576;

/// So many words a net and its value can have.
const WORDS: u64 = 4_194_304;

/// A key for each change. Keys stand in the order of their changes: by time, and at one time by net.
#[derive(Drop)]
pub struct Keyed {
    keys: Vec<u64>,
}

impl Model for Keyed {
    ghost use Rattle.std.specs.Prelude.{List, ℕ};
    ghost use Rattle.net_waves.specs.Keys.{keys_of, AreKeys};

    ghost Value = { List ℕ };

    ghost view = { keys_of };

    ghost invariant = { λ k. AreKeys (keys_of k) };
}

/// The key of a stop.
pub fn key(stop: Stop) -> u64
    requires time { stop.time < KEY_TIMES }
    requires net { stop.net < KEY_NETS }
    ensures { result ≡ key_of stop }
{
    stop.time * WORDS + u64::from(word(stop.net, stop.value))
}

/// The stop of a key.
pub fn stop_of(key: u64) -> Stop
    ensures { result ≡ stop_of key }
{
    stop_at(key / WORDS, (key % WORDS) as u32)
}

/// Whether keys rise, and so do the stops.
pub fn do_rise(keys: &[u64]) -> bool
    ensures { IsTrue result ↔ AreKeys keys.now }
{
    let mut from: u64 = 0;
    for key in keys {
        let place = *key / 4;
        if place < from {
            return false;
        }
        from = place + 1;
    }
    true
}

/// From where on keys may stand behind these: the last one's time and net, and one more.
fn next_place(keys: &[u64]) -> u64
    requires { AreKeys keys.now }
    ensures { (more : List ℕ) → KeysRise result more → AreKeys (keys.now ++ more) }
{
    match keys {
        [] => 0,
        [.., last] => *last / 4 + 1,
    }
}

/// Pushes the keys of moves at a time, if each has a key and they rise, from a place on. Tells whether it did; else keys are as
/// they were.
fn push_all(keys: &mut Vec<u64>, first: u64, time: u64, moves: &[NetMove]) -> bool
    requires time { time < KEY_TIMES }
    requires room { vec_len keys.old + length moves.now ≤ vec_capacity keys.old }
    ensures pushed { IsTrue result → keys.new.items ≡ keys.old.items ++ map (key_by time) moves.now }
    ensures rising { IsTrue result → HaveKeys time first moves.now }
    ensures stays { result ≡ false → keys.new.items ≡ keys.old.items }
{
    let start = keys.len();
    let base = time * WORDS;
    let mut from = first;
    for entry in moves {
        if entry.net as usize >= KEY_NETS {
            keys.truncate(start);
            return false;
        }
        let key = base + u64::from(word(entry.net, entry.value));
        if key / 4 < from {
            keys.truncate(start);
            return false;
        }
        from = key / 4 + 1;
        keys.push_reserved(key);
    }
    true
}

/// Whether the first of keys is at this place or past it, if there are keys.
fn begin_at(place: u64, keys: &[u64]) -> bool
    requires { AreKeys keys.now }
    ensures { IsTrue result → KeysRise place keys.now }
{
    match keys {
        [] => true,
        [first, ..] => place <= *first / 4,
    }
}

impl Keyed {
    /// No key.
    pub(crate) fn empty(alloc: Global) -> Keyed
        ensures { result ≡ [] }
    {
        Keyed::new(Vec::new(alloc))
    }

    /// Keys that rise.
    pub(crate) fn new(keys: Vec<u64>) -> Keyed
        requires { AreKeys keys.items }
        ensures { result ≡ keys.items }
    {
        Keyed { keys }
    }

    /// What is true of all keys.
    pub fn law(&self)
        ensures { AreKeys self.now }
    {
        let _ = &self.keys;
    }

    /// The keys.
    pub fn keys(&self) -> &[u64]
        ensures { result.now ≡ self.now }
    {
        self.keys.as_slice()
    }

    /// All stops. An error is a refused growth.
    pub(crate) fn stops(&self) -> Result<Vec<Stop>, AllocError>
        ensures { IfOk result (λ stops. stops.items ≡ stops_of_keys self.now) }
    {
        let alloc = *self.keys.allocator();
        let mut stops = Vec::with_capacity(alloc, self.keys.len())?;
        for key in &self.keys {
            stops.push(stop_of(*key))?;
        }
        Ok(stops)
    }

    /// Appends the changes of a time that is later than that of all others, or the last one where nets go on to rise, by nets that
    /// rise. Tells whether it did. An error is a refused growth.
    pub(crate) fn append_all(&mut self, time: u64, moves: &[NetMove]) -> Result<bool, AllocError>
        ensures appended { IfOk result (λ done. done ≡ true → stops_of_keys self.new ≡ stops_of_keys self.old ++ map (stop_by time) moves.now) }
        ensures stays { IfOk result (λ done. done ≡ false → stops_of_keys self.new ≡ stops_of_keys self.old) }
        ensures err { OnErr result (stops_of_keys self.new ≡ stops_of_keys self.old) }
    {
        if time >= KEY_TIMES {
            return Ok(false);
        }
        self.keys.reserve(moves.len())?;
        let first = next_place(self.keys.as_slice());
        Ok(push_all(&mut self.keys, first, time, moves))
    }

    /// Appends other keys, if all are later, or of the last time and of greater nets. Tells whether it did; else keys are as they
    /// were. An error is a refused growth.
    pub(crate) fn append_later(&mut self, later: &Keyed) -> Result<bool, AllocError>
        ensures appended { IfOk result (λ done. done ≡ true → stops_of_keys self.new ≡ stops_of_keys self.old ++ stops_of_keys later.now) }
        ensures stays { IfOk result (λ done. done ≡ false → stops_of_keys self.new ≡ stops_of_keys self.old) }
        ensures err { OnErr result (stops_of_keys self.new ≡ stops_of_keys self.old) }
    {
        later.law();
        let more = later.keys();
        if !begin_at(next_place(self.keys.as_slice()), more) {
            return Ok(false);
        }
        self.keys.extend_from_slice(more)?;
        Ok(true)
    }
}
