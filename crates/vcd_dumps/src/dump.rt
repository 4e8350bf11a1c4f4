//! The dump of waves, as one text.

ghost use Rattle.std.specs.Prelude.{◌≡◌, ℕ, ◌+◌, ◌*◌, ◌<◌, ◌≤◌, ◌^◌, ◌++◌, ◌↔◌, List, false, length, map, take, get_or, codes, IsTrue, IsErr, IfErr, OnOk};
ghost use Rattle.std.specs.List.{AllByRecursion};
ghost use Rattle.gate_values.specs.declared.logic.Change.{Change};
ghost use Rattle.gate_values.specs.declared.logic.Logic.{Logic};
ghost use Rattle.net_waves.specs.declared.timeline.Stop.{Stop};
ghost use Rattle.gate_netlist.specs.Circuit.{nets_of};
ghost use Rattle.gate_values.specs.declared.logic.Logic.TheVariants.{X};
ghost use Rattle.gate_values.specs.Changes.{latest};
ghost use Rattle.byte_sinks.specs.Sink.{Writes};
ghost use Rattle.byte_sinks.specs.Lots.{Passes};
ghost use Rattle.net_waves.specs.Waves.{wave_of, wave_value, IsWave, IsUntil};
ghost use Rattle.vcd_dumps.specs.Dump.{header, var_lines, first_lines, moments, dump_text, vcd_text};
ghost use Rattle.net_waves.specs.ByTime.{stops_in};
ghost use Rattle.net_waves.specs.Packed.{told, told_below, all_told, times};
ghost use Rattle.net_waves.specs.Keys.{stops_of_keys};
ghost use Rattle.net_waves.specs.Stops.{AreStopsOf};
ghost use Rattle.vcd_dumps.specs.Walk.{stop_lines, walked, last_stop};
ghost use Rattle.vcd_dumps.specs.Inner.Walk.{tail_line, GoesOn};

use crate::fault::WriteFault;
use crate::lines::{put_scope, put_stamp, put_timescale, put_value, put_var};
use byte_sinks::{Lot, Sink};
use gate_netlist::Circuit;
use gate_stimulus::{Stimulus, Timescale};
use gate_values::{Change, Logic};
use net_waves::{ByTime, Keyed, Packed, Stop, Timeline, Waves, next_chunk, stop_at, stop_of};

/// Writes the dump of the waves up to the horizon, which is at most 10^12, in units of the stimulus's timescale
/// (IEEE 1364-2005, section 18): behind what the sink has taken, the timescale, the scope `top` with the code and
/// name of each net, the values at 0, and then the changes, time by time.
///
/// At an error the sink has failed, and has taken the first `written` bytes of the text and no others.
/// No memory is taken, and the work grows with the nets and the text.
pub fn write_vcd<S: Sink>(
    sink: &mut S,
    top: &str,
    circuit: &Circuit,
    stimulus: &Stimulus,
    waves: &Waves,
    horizon: u64,
) -> Result<(), WriteFault>
    requires sound { (S.held sink.old).failed ≡ false }
    requires nets { length waves.now ≡ nets_of circuit.now }
    requires until { (n : ℕ) → IsUntil horizon (wave_of waves.now n) }
    requires near { horizon ≤ 10 ^ 12 }
    ensures whole { let text = vcd_text top.now circuit.now stimulus.now (wave_value waves.now) horizon in
        OnOk result ((S.held sink.new).bytes ≡ (S.held sink.old).bytes ++ text) }
    ensures part { let text = vcd_text top.now circuit.now stimulus.now (wave_value waves.now) horizon in
        IfErr result (λ e. (S.held sink.new).bytes ≡ (S.held sink.old).bytes ++ take e.written text) }
    ensures within { let text = vcd_text top.now circuit.now stimulus.now (wave_value waves.now) horizon in
        IfErr result (λ e. e.written ≤ length text) }
    ensures fault { IsErr result ↔ IsTrue (S.held sink.new).failed }
{
    let written = put_dump(sink, top, circuit, stimulus.timescale(), waves, horizon);
    if sink.failed() {
        return Err(WriteFault { written });
    }
    Ok(())
}

/// Does what [`write_vcd`] does with waves that nobody needs any more: their lists are given back before the changes are written.
pub fn write_vcd_once<S: Sink>(
    sink: &mut S,
    top: &str,
    circuit: &Circuit,
    stimulus: &Stimulus,
    waves: Waves,
    horizon: u64,
) -> Result<(), WriteFault>
    requires sound { (S.held sink.old).failed ≡ false }
    requires nets { length waves ≡ nets_of circuit.now }
    requires until { (n : ℕ) → IsUntil horizon (wave_of waves n) }
    requires near { horizon ≤ 10 ^ 12 }
    ensures whole { let text = vcd_text top.now circuit.now stimulus.now (wave_value waves) horizon in
        OnOk result ((S.held sink.new).bytes ≡ (S.held sink.old).bytes ++ text) }
    ensures part { let text = vcd_text top.now circuit.now stimulus.now (wave_value waves) horizon in
        IfErr result (λ e. (S.held sink.new).bytes ≡ (S.held sink.old).bytes ++ take e.written text) }
    ensures within { let text = vcd_text top.now circuit.now stimulus.now (wave_value waves) horizon in
        IfErr result (λ e. e.written ≤ length text) }
    ensures fault { IsErr result ↔ IsTrue (S.held sink.new).failed }
{
    let written = put_dump_once(sink, top, circuit, stimulus.timescale(), waves, horizon);
    if sink.failed() {
        return Err(WriteFault { written });
    }
    Ok(())
}

/// Writes the dump of changes that are had by time alone, and of the value of each net at time 0, as [`write_vcd`] writes that of waves, in
/// the scope `top`.
pub fn write_changes<S: Sink>(
    sink: &mut S,
    circuit: &Circuit,
    stimulus: &Stimulus,
    firsts: &[Logic],
    by_time: &ByTime,
    horizon: u64,
) -> Result<(), WriteFault>
    ghost lists: { List (List Change) }
    requires sound { (S.held sink.old).failed ≡ false }
    requires nets { length lists ≡ nets_of circuit.now }
    requires waves { (n : ℕ) → IsWave (wave_of lists n) }
    requires until { (n : ℕ) → IsUntil horizon (wave_of lists n) }
    requires firsts { (length firsts.now ≡ length lists) × ((n : ℕ) → n < length lists → get_or firsts.now n X ≡ wave_value lists n 0) }
    requires stops { AreStopsOf lists (stops_in by_time.now) }
    requires near { horizon ≤ 10 ^ 12 }
    ensures whole { let text = vcd_text (codes "top") circuit.now stimulus.now (wave_value lists) horizon in
        OnOk result ((S.held sink.new).bytes ≡ (S.held sink.old).bytes ++ text) }
    ensures part { let text = vcd_text (codes "top") circuit.now stimulus.now (wave_value lists) horizon in
        IfErr result (λ e. (S.held sink.new).bytes ≡ (S.held sink.old).bytes ++ take e.written text) }
    ensures within { let text = vcd_text (codes "top") circuit.now stimulus.now (wave_value lists) horizon in
        IfErr result (λ e. e.written ≤ length text) }
    ensures fault { IsErr result ↔ IsTrue (S.held sink.new).failed }
{
    let written = put_changes(
        sink,
        circuit,
        stimulus.timescale(),
        firsts,
        by_time,
        horizon,
    );
    if sink.failed() {
        return Err(WriteFault { written });
    }
    Ok(())
}

/// Puts the whole text of changes that are had by time alone, and counts what the sink took of it.
fn put_changes<S: Sink>(
    sink: &mut S,
    circuit: &Circuit,
    scale: Timescale,
    firsts: &[Logic],
    by_time: &ByTime,
    horizon: u64,
) -> u128
    ghost lists: { List (List Change) }
    requires nets { length lists ≡ nets_of circuit.now }
    requires waves { (n : ℕ) → IsWave (wave_of lists n) }
    requires until { (n : ℕ) → IsUntil horizon (wave_of lists n) }
    requires firsts { (length firsts.now ≡ length lists) × ((n : ℕ) → n < length lists → get_or firsts.now n X ≡ wave_value lists n 0) }
    requires stops { AreStopsOf lists (stops_in by_time.now) }
    requires near { horizon ≤ 10 ^ 12 }
    ensures text { Writes (S.held sink.old) (S.held sink.new) 0 (dump_text (codes "top") circuit.now.names scale (wave_value lists) horizon) result }
    ensures countable { length (dump_text (codes "top") circuit.now.names scale (wave_value lists) horizon) < 2 ^ 128 }
{
    circuit.law();
    let mut lot = Lot::new();
    put_header(sink, &mut lot, "top", circuit, scale);
    put_values(sink, &mut lot, firsts);
    lot.put_text(sink, "$end\n");
    put_by_time(sink, &mut lot, by_time, horizon);
    lot.finish(sink)
}

/// Puts the whole text, and counts what the sink took of it.
fn put_dump<S: Sink>(
    sink: &mut S,
    top: &str,
    circuit: &Circuit,
    scale: Timescale,
    waves: &Waves,
    horizon: u64,
) -> u128
    requires nets { length waves.now ≡ nets_of circuit.now }
    requires until { (n : ℕ) → IsUntil horizon (wave_of waves.now n) }
    requires near { horizon ≤ 10 ^ 12 }
    ensures text { Writes (S.held sink.old) (S.held sink.new) 0 (dump_text top.now circuit.now.names scale (wave_value waves.now) horizon) result }
    ensures countable { length (dump_text top.now circuit.now.names scale (wave_value waves.now) horizon) < 2 ^ 128 }
{
    let mut lot = Lot::new();
    put_header(sink, &mut lot, top, circuit, scale);
    put_first_values(sink, &mut lot, waves, circuit.nets());
    lot.put_text(sink, "$end\n");
    put_moments(sink, &mut lot, waves, horizon);
    lot.finish(sink)
}

/// Does what [`put_dump`] does, and gives the waves' lists back on the way.
fn put_dump_once<S: Sink>(
    sink: &mut S,
    top: &str,
    circuit: &Circuit,
    scale: Timescale,
    waves: Waves,
    horizon: u64,
) -> u128
    requires nets { length waves ≡ nets_of circuit.now }
    requires until { (n : ℕ) → IsUntil horizon (wave_of waves n) }
    requires near { horizon ≤ 10 ^ 12 }
    ensures text { Writes (S.held sink.old) (S.held sink.new) 0 (dump_text top.now circuit.now.names scale (wave_value waves) horizon) result }
    ensures countable { length (dump_text top.now circuit.now.names scale (wave_value waves) horizon) < 2 ^ 128 }
{
    let mut lot = Lot::new();
    put_header(sink, &mut lot, top, circuit, scale);
    put_first_values(sink, &mut lot, &waves, circuit.nets());
    lot.put_text(sink, "$end\n");
    put_last_moments(sink, &mut lot, waves, horizon);
    lot.finish(sink)
}

/// Puts the lines above the first value.
pub(crate) fn put_header<S: Sink>(
    sink: &mut S,
    lot: &mut Lot,
    top: &str,
    circuit: &Circuit,
    scale: Timescale,
)
    ensures text { Passes (S.held sink.old) (S.held sink.new) lot.old (header top.now circuit.now.names scale) lot.new }
    ensures short { length (header top.now circuit.now.names scale) ≤ 2 ^ 90 }
{
    put_timescale(sink, lot, scale);
    put_scope(sink, lot, top);
    put_vars(sink, lot, circuit);
    lot.put_text(sink, "$upscope $end\n$enddefinitions $end\n#0\n$dumpvars\n");
}

/// Puts the code and name of each net.
fn put_vars<S: Sink>(sink: &mut S, lot: &mut Lot, circuit: &Circuit)
    ensures text { Passes (S.held sink.old) (S.held sink.new) lot.old (var_lines circuit.now.names (nets_of circuit.now)) lot.new }
    ensures short { length (var_lines circuit.now.names (nets_of circuit.now)) ≤ 2 ^ 85 }
{
    for net in 0..circuit.nets() {
        put_var(sink, lot, net, circuit.name(net));
    }
}

/// Puts the value of each net at 0.
pub(crate) fn put_first_values<S: Sink>(sink: &mut S, lot: &mut Lot, waves: &Waves, nets: u32)
    requires all { length waves.now ≡ nets }
    requires few { nets ≤ 1000000 }
    ensures { Passes (S.held sink.old) (S.held sink.new) lot.old (first_lines (wave_value waves.now) nets) lot.new }
{
    waves.law();
    for net in 0..nets {
        put_value(sink, lot, first_value(waves.changes(net)), net);
    }
}

/// Puts the value of each net at 0, which is given.
pub(crate) fn put_values<S: Sink>(sink: &mut S, lot: &mut Lot, firsts: &[Logic])
    ghost value: { ℕ → ℕ → Logic }
    requires few { length firsts.now ≤ 1000000 }
    requires firsts { (n : ℕ) → n < length firsts.now → get_or firsts.now n X ≡ value n 0 }
    ensures { Passes (S.held sink.old) (S.held sink.new) lot.old (first_lines value (length firsts.now)) lot.new }
{
    for net in 0..firsts.len() {
        put_value(sink, lot, firsts[net], net as u32);
    }
}

/// The value at 0 that the changes of a net leave.
#[tactic(auto, using(gate_stimulus::proofs::WaveValues::first_values))]
pub fn first_value(changes: &[Change]) -> Logic
    requires { IsWave changes.now }
    ensures { result ≡ latest X changes.now 0 }
{
    match changes {
        [first, ..] if first.time == 0 => first.value,
        _ => Logic::X,
    }
}

/// Puts what changes after 0, and the horizon.
fn put_moments<S: Sink>(sink: &mut S, lot: &mut Lot, waves: &Waves, horizon: u64)
    ghost lists: { List (List Change) }
    requires lists { waves.now ≡ lists }
    requires few { length lists ≤ 1000000 }
    requires until { (n : ℕ) → IsUntil horizon (wave_of lists n) }
    ensures { Passes (S.held sink.old) (S.held sink.new) lot.old (moments (wave_value lists) (length lists) horizon horizon) lot.new }
{
    waves.law();
    put_by_time(sink, lot, waves.by_time(), horizon);
}

/// The same of waves whose lists are given back before.
fn put_last_moments<S: Sink>(sink: &mut S, lot: &mut Lot, waves: Waves, horizon: u64)
    ghost lists: { List (List Change) }
    requires lists { waves ≡ lists }
    requires few { length lists ≤ 1000000 }
    requires until { (n : ℕ) → IsUntil horizon (wave_of lists n) }
    ensures { Passes (S.held sink.old) (S.held sink.new) lot.old (moments (wave_value lists) (length lists) horizon horizon) lot.new }
{
    waves.law();
    let by_time = waves.into_by_time();
    put_by_time(sink, lot, &by_time, horizon);
}

/// Puts what changes after 0 in some lists, which is had by time, and the horizon.
fn put_by_time<S: Sink>(sink: &mut S, lot: &mut Lot, by_time: &ByTime, horizon: u64)
    ghost lists: { List (List Change) }
    requires few { length lists ≤ 1000000 }
    requires until { (n : ℕ) → IsUntil horizon (wave_of lists n) }
    requires waves { (n : ℕ) → IsWave (wave_of lists n) }
    requires stops { AreStopsOf lists (stops_in by_time.now) }
    ensures { Passes (S.held sink.old) (S.held sink.new) lot.old (moments (wave_value lists) (length lists) horizon horizon) lot.new }
{
    match by_time {
        ByTime::Words(packed) => put_words(sink, lot, packed, horizon),
        ByTime::Keys(keyed) => put_keyed(sink, lot, keyed, horizon),
        ByTime::Runs(timeline) => put_runs(sink, lot, timeline, horizon),
    }
}

/// Puts what changes after 0, which words tell, and the horizon.
fn put_words<S: Sink>(sink: &mut S, lot: &mut Lot, packed: &Packed, horizon: u64)
    ghost lists: { List (List Change) }
    requires few { length lists ≤ 1000000 }
    requires until { (n : ℕ) → IsUntil horizon (wave_of lists n) }
    requires waves { (n : ℕ) → IsWave (wave_of lists n) }
    requires stops { AreStopsOf lists (all_told packed.now) }
    ensures { Passes (S.held sink.old) (S.held sink.new) lot.old (moments (wave_value lists) (length lists) horizon horizon) lot.new }
{
    packed.law();
    let last = put_times(sink, lot, 0, packed, 0, packed.times());
    put_tail(sink, lot, last, horizon);
}

/// Puts the stops that words tell from a time on, and before an end, which follow one at the time `last`. Returns the last time.
pub(crate) fn put_times<S: Sink>(
    sink: &mut S,
    lot: &mut Lot,
    mut last: u64,
    packed: &Packed,
    from: usize,
    end: usize,
) -> u64
    requires known { AllByRecursion (λ (s : Stop). s.net < 1000000) (all_told packed.now) }
    requires rising { from ≤ end }
    requires within { end ≤ times packed.now }
    requires last { last ≡ last_stop 0 (told_below packed.now from) }
    ensures text { GoesOn (S.held sink.old) (S.held sink.new) lot.old (walked 0 (told_below packed.now from)) (walked 0 (told_below packed.now end)) lot.new }
    ensures last { result ≡ last_stop 0 (told_below packed.now end) }
{
    for time in from..end {
        last = put_told(sink, lot, last, time as u64, packed.words(time));
    }
    last
}

/// Puts the stops that words tell at a time, which follow one at the time `last`. Returns the last time.
fn put_told<S: Sink>(sink: &mut S, lot: &mut Lot, mut last: u64, time: u64, words: &[u32]) -> u64
    requires { AllByRecursion (λ (s : Stop). s.net < 1000000) (map (told time) words.now) }
    ensures text { Passes (S.held sink.old) (S.held sink.new) lot.old (walked last (map (told time) words.now)) lot.new }
    ensures last { result ≡ last_stop last (map (told time) words.now) }
{
    for word in words {
        put_stop(sink, lot, last, stop_at(time, *word));
        last = time;
    }
    last
}

/// Puts what changes after 0, which is in keys, and the horizon.
fn put_keyed<S: Sink>(sink: &mut S, lot: &mut Lot, keyed: &Keyed, horizon: u64)
    ghost lists: { List (List Change) }
    requires few { length lists ≤ 1000000 }
    requires until { (n : ℕ) → IsUntil horizon (wave_of lists n) }
    requires waves { (n : ℕ) → IsWave (wave_of lists n) }
    requires stops { AreStopsOf lists (stops_of_keys keyed.now) }
    ensures { Passes (S.held sink.old) (S.held sink.new) lot.old (moments (wave_value lists) (length lists) horizon horizon) lot.new }
{
    keyed.law();
    let last = put_keys(sink, lot, 0, keyed.keys());
    put_tail(sink, lot, last, horizon);
}

/// Puts the stops of keys, which follow one at the time `last`. Returns the last time.
pub(crate) fn put_keys<S: Sink>(sink: &mut S, lot: &mut Lot, mut last: u64, keys: &[u64]) -> u64
    requires { AllByRecursion (λ (s : Stop). s.net < 1000000) (stops_of_keys keys.now) }
    ensures text { Passes (S.held sink.old) (S.held sink.new) lot.old (walked last (stops_of_keys keys.now)) lot.new }
    ensures last { result ≡ last_stop last (stops_of_keys keys.now) }
{
    for key in keys {
        let stop = stop_of(*key);
        put_stop(sink, lot, last, stop);
        last = stop.time;
    }
    last
}

/// Puts what changes after 0, which is in runs, and the horizon.
pub(crate) fn put_runs<S: Sink>(sink: &mut S, lot: &mut Lot, timeline: &Timeline, horizon: u64)
    ghost lists: { List (List Change) }
    requires few { length lists ≤ 1000000 }
    requires until { (n : ℕ) → IsUntil horizon (wave_of lists n) }
    requires waves { (n : ℕ) → IsWave (wave_of lists n) }
    requires stops { AreStopsOf lists timeline.now.stops }
    ensures { Passes (S.held sink.old) (S.held sink.new) lot.old (moments (wave_value lists) (length lists) horizon horizon) lot.new }
{
    let mut all = timeline.all_runs();
    let runs = &mut all[..timeline.runs()];
    let mut last = 0;
    while let Some((run, count)) = next_chunk(runs) {
        let (chunk, rest) = runs[run].split_at(count);
        last = put_stops(sink, lot, last, chunk);
        runs[run] = rest;
    }
    put_tail(sink, lot, last, horizon);
}

/// Puts the stops, which follow one at the time `last`. Returns the last time.
fn put_stops<S: Sink>(sink: &mut S, lot: &mut Lot, mut last: u64, stops: &[Stop]) -> u64
    requires { AllByRecursion (λ (s : Stop). s.net < 1000000) stops.now }
    ensures text { Passes (S.held sink.old) (S.held sink.new) lot.old (walked last stops.now) lot.new }
    ensures last { result ≡ last_stop last stops.now }
{
    for stop in stops {
        put_stop(sink, lot, last, *stop);
        last = stop.time;
    }
    last
}

/// Puts a change after one at the time `last`.
pub(crate) fn put_stop<S: Sink>(sink: &mut S, lot: &mut Lot, last: u64, stop: Stop)
    requires { stop.net < 1000000 }
    ensures { Passes (S.held sink.old) (S.held sink.new) lot.old (stop_lines last stop.time stop.net stop.value) lot.new }
{
    if stop.time == 0 {
        return;
    }
    if stop.time == last {
        put_value(sink, lot, stop.value, stop.net);
        return;
    }
    put_stamp(sink, lot, stop.time);
    put_value(sink, lot, stop.value, stop.net);
}

/// Puts the time of the horizon, where it is later than the last change.
pub(crate) fn put_tail<S: Sink>(sink: &mut S, lot: &mut Lot, last: u64, horizon: u64)
    ensures { Passes (S.held sink.old) (S.held sink.new) lot.old (tail_line last horizon) lot.new }
{
    if last < horizon {
        put_stamp(sink, lot, horizon);
    }
}
