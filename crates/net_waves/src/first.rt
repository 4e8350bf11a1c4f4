//! The values of nets at time 0, of changes that are had by time.

ghost use Rattle.std.specs.Prelude.{◌≡◌, ◌<◌, ℕ, List, unwrap_or, get_or, length, map, IfOk};
ghost use Rattle.gate_values.specs.declared.logic.Logic.TheVariants.{X};
ghost use Rattle.gate_values.specs.declared.logic.Change.{Change};
ghost use Rattle.gate_values.specs.Changes.{pair_at};
ghost use Rattle.net_waves.specs.ByTime.{stops_in};
ghost use Rattle.net_waves.specs.Packed.{told, all_told};
ghost use Rattle.net_waves.specs.Keys.{stops_of_keys};
ghost use Rattle.net_waves.specs.Stops.{AreStopsOf};
ghost use Rattle.net_waves.specs.Waves.{wave_of};
ghost use Rattle.net_waves.specs.First.{first_by, first_from};

use crate::by_time::ByTime;
use crate::keyed::stop_of;
use crate::packed::{Packed, stop_at};
use crate::timeline::Stop;
use gate_values::Logic;
use std::alloc::{AllocError, Global};

/// Takes the value of a stop at time 0 for its net. One that is later, or of a net that there isn't, leaves all as it is.
pub fn take_first(values: &mut [Logic], stop: Stop)
    ensures length { length values.new ≡ length values.old }
    ensures each { (n : ℕ) → n < length values.old → get_or values.new n X ≡ first_by stop (get_or values.old n X) n }
{
    if stop.time > 0 {
        return;
    }
    let net = stop.net as usize;
    if net < values.len() {
        values[net] = stop.value;
    }
}

/// The same of each of some stops.
fn take_all(values: &mut [Logic], stops: &[Stop])
    ensures length { length values.new ≡ length values.old }
    ensures each { (n : ℕ) → n < length values.old → get_or values.new n X ≡ first_from (get_or values.old n X) stops.now n }
{
    for stop in stops {
        take_first(values, *stop);
    }
}

/// The same of the words of time 0.
fn take_words(values: &mut [Logic], words: &[u32])
    ensures length { length values.new ≡ length values.old }
    ensures each { (n : ℕ) → n < length values.old → get_or values.new n X ≡ first_from (get_or values.old n X) (map (told 0) words.now) n }
{
    for word in words {
        take_first(values, stop_at(0, *word));
    }
}

/// The same of keys.
fn take_keys(values: &mut [Logic], keys: &[u64])
    ensures length { length values.new ≡ length values.old }
    ensures each { (n : ℕ) → n < length values.old → get_or values.new n X ≡ first_from (get_or values.old n X) (stops_of_keys keys.now) n }
{
    for key in keys {
        take_first(values, stop_of(*key));
    }
}

/// The same of what is told in words.
fn take_packed(values: &mut [Logic], packed: &Packed)
    ensures length { length values.new ≡ length values.old }
    ensures each { (n : ℕ) → n < length values.old → get_or values.new n X ≡ first_from (get_or values.old n X) (all_told packed.now) n }
{
    if packed.times() > 0 {
        take_words(values, packed.words(0));
    }
}

/// The same of all changes.
fn take_changes(values: &mut [Logic], by_time: &ByTime)
    ensures length { length values.new ≡ length values.old }
    ensures each { (n : ℕ) → n < length values.old → get_or values.new n X ≡ first_from (get_or values.old n X) (stops_in by_time.now) n }
{
    match by_time {
        ByTime::Words(packed) => take_packed(values, packed),
        ByTime::Keys(keyed) => take_keys(values, keyed.keys()),
        ByTime::Runs(timeline) => take_all(values, timeline.stops()),
    }
}

impl ByTime {
    /// The value of each of so many nets at time 0. An error is a refused growth.
    pub fn first_values(&self, alloc: Global, nets: u32) -> Result<Vec<Logic>, AllocError>
        ensures count { IfOk result (λ values. length values.items ≡ nets) }
        ensures each { IfOk result (λ values. (lists : List (List Change)) (n : ℕ) → AreStopsOf lists (stops_in self.now) → n < nets → get_or values.items n X ≡ unwrap_or (pair_at (wave_of lists n) 0) X) }
    {
        let mut values = vec![in alloc; Logic::X; nets as usize]?;
        take_changes(values.as_mut_slice(), self);
        Ok(values)
    }
}
