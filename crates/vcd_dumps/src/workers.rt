//! The dump of waves, made by several threads side by side.

ghost use Rattle.std.specs.Prelude.{◌≡◌, ℕ, ◌-◌, ◌<◌, ◌≤◌, ◌^◌, ◌++◌, List, length, get_or, codes, IfOk};
ghost use Rattle.std.specs.List.{AllByRecursion};
ghost use Rattle.gate_values.specs.declared.logic.Change.{Change};
ghost use Rattle.gate_values.specs.declared.logic.Logic.{Logic};
ghost use Rattle.gate_values.specs.declared.logic.Logic.TheVariants.{X};
ghost use Rattle.gate_netlist.specs.Circuit.{nets_of};
ghost use Rattle.net_waves.specs.declared.timeline.Stop.{Stop};
ghost use Rattle.net_waves.specs.Waves.{wave_of, wave_value, IsWave, IsUntil};
ghost use Rattle.net_waves.specs.Packed.{all_told, times};
ghost use Rattle.net_waves.specs.Keys.{stops_of_keys};
ghost use Rattle.net_waves.specs.ByTime.{stops_in};
ghost use Rattle.net_waves.specs.Stops.{AreStopsOf};
ghost use Rattle.vcd_dumps.specs.Dump.{header, first_lines, moments, vcd_text};
ghost use Rattle.vcd_dumps.specs.Inner.Walk.{tail_line};
ghost use Rattle.vcd_dumps.specs.Inner.Pieces.{AreCuts, times_text, keys_text};

use crate::dump::{
    put_first_values, put_header, put_runs, put_tail, put_values, write_changes, write_vcd_once,
};
use crate::pieces::{keys_cut, last_before, last_of, taken, times_cut, with_stops, with_times};
use byte_sinks::{Grow, Lot};
use gate_netlist::Circuit;
use gate_stimulus::{Stimulus, Timescale};
use gate_values::{Change, Logic};
use net_waves::{ByTime, Keyed, Packed, Timeline, Waves};
use std::alloc::{AllocError, Global};
use std::thread::{Threads, join};

/// To give fewer lists back is not worth the start of a thread.
const LISTS: usize = 4096;

/// The dump of waves that nobody needs any more, as [`write_vcd_once`] writes it, made by up to so many threads side by side, at least one.
/// An error is a refused growth.
pub fn dump_by<R: Threads + Sync>(
    rt: &R,
    alloc: Global,
    workers: u32,
    top: &str,
    circuit: &Circuit,
    stimulus: &Stimulus,
    waves: Waves,
    horizon: u64,
) -> Result<Vec<u8>, AllocError>
    requires workers { 1 ≤ workers }
    requires nets { length waves ≡ nets_of circuit.now }
    requires until { (n : ℕ) → IsUntil horizon (wave_of waves n) }
    requires near { horizon ≤ 10 ^ 12 }
    ensures { IfOk result (λ text. text.items ≡ vcd_text top.now circuit.now stimulus.now (wave_value waves) horizon) }
{
    if workers < 2 {
        return dump_alone(alloc, top, circuit, stimulus, waves, horizon);
    }
    circuit.law();
    let front = front_of(alloc, top, circuit, stimulus.timescale(), &waves)?;
    with_moments(rt, alloc, workers, front, waves, horizon)
}

/// The same dump, made by one thread.
fn dump_alone(
    alloc: Global,
    top: &str,
    circuit: &Circuit,
    stimulus: &Stimulus,
    waves: Waves,
    horizon: u64,
) -> Result<Vec<u8>, AllocError>
    requires nets { length waves ≡ nets_of circuit.now }
    requires until { (n : ℕ) → IsUntil horizon (wave_of waves n) }
    requires near { horizon ≤ 10 ^ 12 }
    ensures { IfOk result (λ text. text.items ≡ vcd_text top.now circuit.now stimulus.now (wave_value waves) horizon) }
{
    let mut sink = Grow::new(alloc);
    match write_vcd_once(&mut sink, top, circuit, stimulus, waves, horizon) {
        Ok(()) => Ok(sink.into_vec()),
        Err(_) => Err(AllocError),
    }
}

/// The text of a dump up to the values at 0.
fn front_of(
    alloc: Global,
    top: &str,
    circuit: &Circuit,
    scale: Timescale,
    waves: &Waves,
) -> Result<Vec<u8>, AllocError>
    requires { length waves.now ≡ nets_of circuit.now }
    ensures { IfOk result (λ front. front.items ≡ header top.now circuit.now.names scale ++ (first_lines (wave_value waves.now) (length circuit.now.names) ++ codes "$end\n")) }
{
    let mut sink = Grow::new(alloc);
    let mut lot = Lot::new();
    put_header(&mut sink, &mut lot, top, circuit, scale);
    put_first_values(&mut sink, &mut lot, waves, circuit.nets());
    lot.put_text(&mut sink, "$end\n");
    taken(sink, lot)
}

/// A text, and behind it what changes after 0 in waves, and the horizon. The waves' lists are given back on the way.
fn with_moments<R: Threads + Sync>(
    rt: &R,
    alloc: Global,
    workers: u32,
    front: Vec<u8>,
    waves: Waves,
    horizon: u64,
) -> Result<Vec<u8>, AllocError>
    ghost lists: { List (List Change) }
    requires lists { waves ≡ lists }
    requires few { length lists ≤ 1000000 }
    requires until { (n : ℕ) → IsUntil horizon (wave_of lists n) }
    requires workers { 1 ≤ workers }
    ensures { IfOk result (λ text. text.items ≡ front.items ++ moments (wave_value lists) (length lists) horizon horizon) }
{
    waves.law();
    let (spent, by_time) = waves.into_parts();
    with_changes(rt, alloc, workers, front, spent, &by_time, horizon)
}

/// A text, and behind it what changes after 0 in some lists, which is had by time, and the horizon. Spent lists are given back on the way.
fn with_changes<R: Threads + Sync>(
    rt: &R,
    alloc: Global,
    workers: u32,
    front: Vec<u8>,
    spent: Vec<Vec<Change>>,
    by_time: &ByTime,
    horizon: u64,
) -> Result<Vec<u8>, AllocError>
    ghost lists: { List (List Change) }
    requires few { length lists ≤ 1000000 }
    requires until { (n : ℕ) → IsUntil horizon (wave_of lists n) }
    requires waves { (n : ℕ) → IsWave (wave_of lists n) }
    requires stops { AreStopsOf lists (stops_in by_time.now) }
    requires workers { 1 ≤ workers }
    ensures { IfOk result (λ text. text.items ≡ front.items ++ moments (wave_value lists) (length lists) horizon horizon) }
{
    match by_time {
        ByTime::Words(packed) => with_words(rt, alloc, workers, front, spent, packed, horizon),
        ByTime::Keys(keyed) => with_keys(rt, alloc, workers, front, spent, keyed, horizon),
        ByTime::Runs(timeline) => {
            drop(spent);
            with_runs(alloc, front, timeline, horizon)
        }
    }
}

/// The dump of changes that are had by time alone, and of the value of each net at time 0, as [`write_changes`] writes it, made by up to so
/// many threads side by side, at least one. An error is a refused growth.
pub fn changes_dump_by<R: Threads + Sync>(
    rt: &R,
    alloc: Global,
    workers: u32,
    circuit: &Circuit,
    stimulus: &Stimulus,
    firsts: &[Logic],
    by_time: &ByTime,
    horizon: u64,
) -> Result<Vec<u8>, AllocError>
    ghost lists: { List (List Change) }
    requires workers { 1 ≤ workers }
    requires nets { length lists ≡ nets_of circuit.now }
    requires waves { (n : ℕ) → IsWave (wave_of lists n) }
    requires until { (n : ℕ) → IsUntil horizon (wave_of lists n) }
    requires firsts { (length firsts.now ≡ length lists) × ((n : ℕ) → n < length lists → get_or firsts.now n X ≡ wave_value lists n 0) }
    requires stops { AreStopsOf lists (stops_in by_time.now) }
    requires near { horizon ≤ 10 ^ 12 }
    ensures { IfOk result (λ text. text.items ≡ vcd_text (codes "top") circuit.now stimulus.now (wave_value lists) horizon) }
{
    if workers < 2 {
        return changes_dump(alloc, circuit, stimulus, firsts, by_time, horizon);
    }
    circuit.law();
    let front = front_with(alloc, circuit, stimulus.timescale(), firsts)?;
    let spent = Vec::new(alloc);
    with_changes(rt, alloc, workers, front, spent, by_time, horizon)
}

/// The same dump, made by one thread.
fn changes_dump(
    alloc: Global,
    circuit: &Circuit,
    stimulus: &Stimulus,
    firsts: &[Logic],
    by_time: &ByTime,
    horizon: u64,
) -> Result<Vec<u8>, AllocError>
    ghost lists: { List (List Change) }
    requires nets { length lists ≡ nets_of circuit.now }
    requires waves { (n : ℕ) → IsWave (wave_of lists n) }
    requires until { (n : ℕ) → IsUntil horizon (wave_of lists n) }
    requires firsts { (length firsts.now ≡ length lists) × ((n : ℕ) → n < length lists → get_or firsts.now n X ≡ wave_value lists n 0) }
    requires stops { AreStopsOf lists (stops_in by_time.now) }
    requires near { horizon ≤ 10 ^ 12 }
    ensures { IfOk result (λ text. text.items ≡ vcd_text (codes "top") circuit.now stimulus.now (wave_value lists) horizon) }
{
    let mut sink = Grow::new(alloc);
    match write_changes(&mut sink, circuit, stimulus, firsts, by_time, horizon) {
        Ok(()) => Ok(sink.into_vec()),
        Err(_) => Err(AllocError),
    }
}

/// The text of a dump up to the values at 0, which are given.
fn front_with(
    alloc: Global,
    circuit: &Circuit,
    scale: Timescale,
    firsts: &[Logic],
) -> Result<Vec<u8>, AllocError>
    ghost value: { ℕ → ℕ → Logic }
    requires few { length firsts.now ≤ 1000000 }
    requires firsts { (n : ℕ) → n < length firsts.now → get_or firsts.now n X ≡ value n 0 }
    ensures { IfOk result (λ front. front.items ≡ header (codes "top") circuit.now.names scale ++ (first_lines value (length firsts.now) ++ codes "$end\n")) }
{
    let mut sink = Grow::new(alloc);
    let mut lot = Lot::new();
    put_header(&mut sink, &mut lot, "top", circuit, scale);
    put_values(&mut sink, &mut lot, firsts);
    lot.put_text(&mut sink, "$end\n");
    taken(sink, lot)
}

/// What is made while a thread beside gives spent lists back, where they are not few.
fn beside<R: Threads, A, F: FnOnce() -> A>(rt: &R, spent: Vec<Vec<Change>>, make: F) -> A
    requires { F.pre make }
    ensures { F.post make result }
{
    if spent.len() < LISTS {
        drop(spent);
        return make();
    }
    let ((), made) = join(rt, || drop(spent), make);
    made
}

/// A text, and behind it what changes after 0, which words tell, and the horizon. Spent lists are given back on the way.
fn with_words<R: Threads + Sync>(
    rt: &R,
    alloc: Global,
    workers: u32,
    front: Vec<u8>,
    spent: Vec<Vec<Change>>,
    packed: &Packed,
    horizon: u64,
) -> Result<Vec<u8>, AllocError>
    ghost lists: { List (List Change) }
    requires few { length lists ≤ 1000000 }
    requires until { (n : ℕ) → IsUntil horizon (wave_of lists n) }
    requires waves { (n : ℕ) → IsWave (wave_of lists n) }
    requires stops { AreStopsOf lists (all_told packed.now) }
    requires workers { 1 ≤ workers }
    ensures { IfOk result (λ text. text.items ≡ front.items ++ moments (wave_value lists) (length lists) horizon horizon) }
{
    packed.law();
    let cuts = times_cut(alloc, packed, workers)?;
    let cuts = cuts.as_slice();
    let text = beside(
        rt,
        spent,
        || -> Result<Vec<u8>, AllocError>
            requires { AllByRecursion (λ (s : Stop). s.net < 1000000) (all_told packed.now) × AreCuts cuts.now (times packed.now) }
            ensures { IfOk result (λ text. text.items ≡ front.items ++ times_text packed.entry.now cuts.entry.now (length cuts.entry.now - 1)) }
        { with_times(rt, alloc, front, packed, cuts) },
    )?;
    with_tail(alloc, text, last_before(packed, packed.times()), horizon)
}

/// A text, and behind it what changes after 0, which is in keys, and the horizon. Spent lists are given back on the way.
fn with_keys<R: Threads + Sync>(
    rt: &R,
    alloc: Global,
    workers: u32,
    front: Vec<u8>,
    spent: Vec<Vec<Change>>,
    keyed: &Keyed,
    horizon: u64,
) -> Result<Vec<u8>, AllocError>
    ghost lists: { List (List Change) }
    requires few { length lists ≤ 1000000 }
    requires until { (n : ℕ) → IsUntil horizon (wave_of lists n) }
    requires waves { (n : ℕ) → IsWave (wave_of lists n) }
    requires stops { AreStopsOf lists (stops_of_keys keyed.now) }
    requires workers { 1 ≤ workers }
    ensures { IfOk result (λ text. text.items ≡ front.items ++ moments (wave_value lists) (length lists) horizon horizon) }
{
    keyed.law();
    let keys = keyed.keys();
    let cuts = keys_cut(alloc, keys.len(), workers)?;
    let cuts = cuts.as_slice();
    let text = beside(
        rt,
        spent,
        || -> Result<Vec<u8>, AllocError>
            requires { AllByRecursion (λ (s : Stop). s.net < 1000000) (stops_of_keys keys.now) × AreCuts cuts.now (length keys.now) }
            ensures { IfOk result (λ text. text.items ≡ front.items ++ keys_text keys.entry.now cuts.entry.now (length cuts.entry.now - 1)) }
        { with_stops(rt, alloc, front, keys, cuts) },
    )?;
    with_tail(alloc, text, last_of(keys), horizon)
}

/// A text, and behind it what changes after 0, which is in runs, and the horizon.
fn with_runs(
    alloc: Global,
    mut front: Vec<u8>,
    timeline: &Timeline,
    horizon: u64,
) -> Result<Vec<u8>, AllocError>
    ghost lists: { List (List Change) }
    requires few { length lists ≤ 1000000 }
    requires until { (n : ℕ) → IsUntil horizon (wave_of lists n) }
    requires waves { (n : ℕ) → IsWave (wave_of lists n) }
    requires stops { AreStopsOf lists timeline.now.stops }
    ensures { IfOk result (λ text. text.items ≡ front.items ++ moments (wave_value lists) (length lists) horizon horizon) }
{
    let mut sink = Grow::new(alloc);
    let mut lot = Lot::new();
    put_runs(&mut sink, &mut lot, timeline, horizon);
    let rest = taken(sink, lot)?;
    front.extend_from_slice(rest.as_slice())?;
    Ok(front)
}

/// A text, and behind it the line of the horizon, where it is later than the last change.
fn with_tail(
    alloc: Global,
    mut text: Vec<u8>,
    last: u64,
    horizon: u64,
) -> Result<Vec<u8>, AllocError>
    ensures { IfOk result (λ whole. whole.items ≡ text.items ++ tail_line last horizon) }
{
    let mut sink = Grow::new(alloc);
    let mut lot = Lot::new();
    put_tail(&mut sink, &mut lot, last, horizon);
    let tail = taken(sink, lot)?;
    text.extend_from_slice(tail.as_slice())?;
    Ok(text)
}
