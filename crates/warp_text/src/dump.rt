//! From waves to a dump.

ghost use Rattle.std.specs.Prelude.{◌≡◌, ◌≤◌, IfOk, IfSome, codes};
ghost use Rattle.net_waves.specs.ByTime.{stops_in};
ghost use Rattle.net_waves.specs.Stops.{AreStopsOf};
ghost use Rattle.gate_netlist.specs.Circuit.{CutFits};
ghost use Rattle.gate_stimulus.specs.Given.{Fits};
ghost use Rattle.vcd_dumps.specs.Dump.{vcd_text};
ghost use Rattle.warp_process.specs.Limits.{most_horizon};
ghost use Rattle.warp_core.specs.Values.{value_under, circuit_waves, AreCircuitWaves};
ghost use Rattle.warp_text.specs.Inner.Firsts.{AreFirstsOf};

use byte_sinks::{Grow, Sink};
use gate_netlist::{Circuit, Cut};
use gate_stimulus::Stimulus;
use gate_values::Logic;
use history_waves::FAR;
use net_waves::{ByTime, Waves};
use std::alloc::{AllocError, Global};
use std::sync::Wait;
use std::thread::Threads;
use vcd_dumps::{Writer, changes_dump_by, write_vcd_once};
use warp_alone::{changes_alone, tell_alone};
use warp_rounds::{RunFault, Watch, run_changes};

/// The dump of a circuit's waves under a stimulus, up to the horizon. The waves' lists are given back before the text grows.
pub fn dump_of(
    alloc: Global,
    circuit: &Circuit,
    stimulus: &Stimulus,
    waves: Waves,
    horizon: u64,
) -> Result<Vec<u8>, AllocError>
    requires near { horizon ≤ most_horizon }
    requires waves { AreCircuitWaves circuit.now stimulus.now horizon waves }
    ensures { IfOk result (λ dump. dump.items ≡ vcd_text (codes "top") circuit.now stimulus.now (value_under circuit.now stimulus.now) horizon) }
{
    let mut sink = Grow::new(alloc);
    match write_vcd_once(&mut sink, "top", circuit, stimulus, waves, horizon) {
        Ok(()) => Ok(sink.into_vec()),
        Err(_) => Err(AllocError),
    }
}

/// The same dump, made by up to so many threads side by side, at least one.
pub fn dump_by<R: Threads + Sync>(
    rt: &R,
    alloc: Global,
    workers: u32,
    circuit: &Circuit,
    stimulus: &Stimulus,
    waves: Waves,
    horizon: u64,
) -> Result<Vec<u8>, AllocError>
    requires workers { 1 ≤ workers }
    requires near { horizon ≤ most_horizon }
    requires waves { AreCircuitWaves circuit.now stimulus.now horizon waves }
    ensures { IfOk result (λ dump. dump.items ≡ vcd_text (codes "top") circuit.now stimulus.now (value_under circuit.now stimulus.now) horizon) }
{
    vcd_dumps::dump_by(rt, alloc, workers, "top", circuit, stimulus, waves, horizon)
}

/// The dump of a circuit's changes, which are had by time, with each net's value at time 0, made by up to so many threads side by side, at
/// least one.
fn changes_by<R: Threads + Sync>(
    rt: &R,
    alloc: Global,
    workers: u32,
    circuit: &Circuit,
    stimulus: &Stimulus,
    firsts: &[Logic],
    by_time: &ByTime,
    horizon: u64,
) -> Result<Vec<u8>, AllocError>
    requires workers { 1 ≤ workers }
    requires near { horizon ≤ most_horizon }
    requires firsts { AreFirstsOf (circuit_waves circuit.now stimulus.now horizon) firsts.now }
    requires stops { AreStopsOf (circuit_waves circuit.now stimulus.now horizon) (stops_in by_time.now) }
    ensures { IfOk result (λ dump. dump.items ≡ vcd_text (codes "top") circuit.now stimulus.now (value_under circuit.now stimulus.now) horizon) }
{
    changes_dump_by(
        rt, alloc, workers, circuit, stimulus, firsts, by_time, horizon,
    )
}

/// The dump of a circuit's changes, which are had by time, made by up to so many threads side by side, at least one.
fn told_dump<R: Threads + Sync>(
    rt: &R,
    alloc: Global,
    workers: u32,
    circuit: &Circuit,
    stimulus: &Stimulus,
    by_time: &ByTime,
    horizon: u64,
) -> Result<Vec<u8>, AllocError>
    requires workers { 1 ≤ workers }
    requires near { horizon ≤ most_horizon }
    requires stops { AreStopsOf (circuit_waves circuit.now stimulus.now horizon) (stops_in by_time.now) }
    ensures { IfOk result (λ dump. dump.items ≡ vcd_text (codes "top") circuit.now stimulus.now (value_under circuit.now stimulus.now) horizon) }
{
    let firsts = by_time.first_values(alloc, circuit.nets())?;
    let firsts = firsts.as_slice();
    changes_by(
        rt, alloc, workers, circuit, stimulus, firsts, by_time, horizon,
    )
}

/// The dump of a circuit that is played alone under a stimulus, up to the horizon, which is written as its changes come; none where they
/// can't be written so. The watch is told how far the run has come. An error is a refused growth.
fn told_alone<W: Watch>(
    alloc: Global,
    circuit: &Circuit,
    stimulus: &Stimulus,
    horizon: u64,
    watch: &mut W,
) -> Result<Option<Vec<u8>>, AllocError>
    requires fits { Fits stimulus.now circuit.now }
    requires near { horizon ≤ most_horizon }
    ensures { IfOk result (λ dump. IfSome dump (λ dump. dump.items ≡ vcd_text (codes "top") circuit.now stimulus.now (value_under circuit.now stimulus.now) horizon)) }
{
    let mut writer = Writer::new(alloc, circuit, stimulus.timescale())?;
    if !tell_alone(alloc, circuit, stimulus, horizon, watch, &mut writer)? {
        return Ok(None);
    }
    let dump = writer.finish(horizon)?;
    Ok(Some(dump))
}

/// The dump of a circuit that is played alone under a stimulus, up to the horizon; none where its changes can't be had by time as they come.
/// Where there are several workers, of which there is at least one, and changes by time take four bytes each, up to so many threads
/// write it side by side. The watch is told how far it has come. An error is a refused growth.
pub fn alone_dump<W: Watch, R: Threads + Sync>(
    rt: &R,
    alloc: Global,
    workers: u32,
    circuit: &Circuit,
    stimulus: &Stimulus,
    horizon: u64,
    watch: &mut W,
) -> Result<Option<Vec<u8>>, AllocError>
    requires workers { 1 ≤ workers }
    requires fits { Fits stimulus.now circuit.now }
    requires near { horizon ≤ most_horizon }
    ensures { IfOk result (λ dump. IfSome dump (λ dump. dump.items ≡ vcd_text (codes "top") circuit.now stimulus.now (value_under circuit.now stimulus.now) horizon)) }
{
    if workers == 1 || horizon >= FAR {
        return told_alone(alloc, circuit, stimulus, horizon, watch);
    }
    let Some(by_time) = changes_alone(alloc, circuit, stimulus, horizon, watch)? else {
        return Ok(None);
    };
    let dump = told_dump(rt, alloc, workers, circuit, stimulus, &by_time, horizon)?;
    Ok(Some(dump))
}

/// The dump of a circuit whose blocks are played under a stimulus, which keep the logs of those nets alone that other blocks read, by up to
/// `workers` threads; none where its changes can't be had by time as they come. The watch is told how far it has come.
pub fn parted_dump<W: Watch, R: Threads + Wait + Sync>(
    rt: &R,
    alloc: Global,
    circuit: &Circuit,
    cut: &Cut,
    stimulus: &Stimulus,
    horizon: u64,
    workers: u32,
    window: u32,
    watch: &mut W,
) -> Result<Option<Vec<u8>>, RunFault>
    requires cut { CutFits circuit.now cut.now }
    requires fits { Fits stimulus.now circuit.now }
    requires near { horizon ≤ most_horizon }
    requires workers { (1 ≤ workers) × (workers ≤ 64) }
    requires window { (1 ≤ window) × (window ≤ 1000000) }
    ensures { IfOk result (λ dump. IfSome dump (λ dump. dump.items ≡ vcd_text (codes "top") circuit.now stimulus.now (value_under circuit.now stimulus.now) horizon)) }
{
    let told = run_changes(
        rt, alloc, circuit, cut, stimulus, horizon, workers, window, watch,
    )?;
    let Some(by_time) = told else {
        return Ok(None);
    };
    let dump = told_dump(rt, alloc, workers, circuit, stimulus, &by_time, horizon)?;
    Ok(Some(dump))
}
