//! From texts to a dump in which some nets alone are told.
ghost use Rattle.std.specs.Prelude.{◌≡◌, ◌≤◌, IfOk, codes, option_map};
ghost use Rattle.warp_process.specs.Limits.{most_horizon};
ghost use Rattle.warp_core.specs.Values.{value_under, AreCircuitWaves};
ghost use Rattle.vcd_only.specs.Told.{told_text};
ghost use Rattle.warp_text.specs.Only.{IsToldAnswer, IsToldReplay};
ghost use Rattle.warp_text.specs.Stats.{dumped, IsAccountOf, AreCountsOf};
ghost use Rattle.warp_text.specs.Inner.Only.{AreTold, IsToldDumped, IsToldReplayed};

use crate::fault::Fault;
use crate::options::Options;
use crate::simulate::Simulated;
use crate::{replay, simulate};
use gate_netlist::Circuit;
use gate_stimulus::Stimulus;
use gate_vcd::read_stimulus;
use net_waves::Waves;
use only_nets::{outputs_of, read_names};
use std::alloc::{AllocError, Global};
use std::sync::Wait;
use std::thread::Threads;
use vcd_only::told_text;
use warp_block::AllLogs;
use warp_core::read_schedule;
use warp_rounds::{Gate, NoWatch, Watch};

/// The marks of the nets that are told: of those that a text names, else of the outputs.
fn told_of(alloc: Global, circuit: &Circuit, names: Option<&[u8]>) -> Result<Vec<bool>, Fault>
    ensures { AreTold circuit.now (option_map (λ names. names.now) names.entry) result }
{
    match names {
        None => Ok(outputs_of(alloc, circuit)?),
        Some(names) => Ok(read_names(alloc, names, circuit)?),
    }
}

/// The dump of a circuit's waves under a stimulus, up to the horizon, in which the nets alone are told that are marked.
fn told_dump_of(
    alloc: Global,
    circuit: &Circuit,
    stimulus: &Stimulus,
    waves: &Waves,
    told: &[bool],
    horizon: u64,
) -> Result<Vec<u8>, AllocError>
    requires { AreCircuitWaves circuit.now stimulus.now horizon waves.now }
    ensures { IfOk result (λ dump. dump.items ≡ told_text told.now (codes "top") circuit.now.names stimulus.now.timescale (value_under circuit.now stimulus.now) horizon) }
{
    let scale = stimulus.timescale();
    let text = told_text(alloc, "top", circuit, scale, waves, told, horizon)?;
    Ok(text)
}

/// The dump of the nets that are told, under a stimulus text.
fn told_under<G: Gate<AllLogs> + Sync, W: Watch, R: Threads + Wait + Sync>(
    rt: &R,
    alloc: Global,
    circuit: &Circuit,
    told: &[bool],
    stimulus: &[u8],
    options: &Options,
    gate: &G,
    watch: &mut W,
) -> Result<Simulated, Fault>
    ensures dump { IsToldDumped circuit.now told.now stimulus.now options.now.until (dumped result) }
    ensures counts { IfOk result (λ simulated. IsAccountOf circuit.now options.now.until simulated.stats) }
{
    let stimulus = read_stimulus(alloc, stimulus, circuit)?;
    let ran = simulate::run_blocks(rt, alloc, circuit, &stimulus, options, gate, watch)?;
    let dump = told_dump_of(alloc, circuit, &stimulus, &ran.waves, told, options.until())?;
    Ok(Simulated {
        dump,
        stats: ran.stats,
    })
}

/// As [`simulate_text`](crate::simulate_text), but in the dump the nets alone are told that a text names, or the outputs
/// where there is no such text: the lines of other nets don't stand there, nor the times at which none of these nets
/// changes, but 0 and `until`.
///
/// The text of names is judged behind the settings.
pub fn simulate_told<G: Gate<AllLogs> + Sync, R: Threads + Wait + Sync>(
    rt: &R,
    alloc: Global,
    bench: &[u8],
    settings: &[u8],
    names: Option<&[u8]>,
    stimulus: &[u8],
    options: &Options,
    gate: &G,
) -> Result<Vec<u8>, Fault>
    ensures { IsToldAnswer bench.now settings.now (option_map (λ names. names.now) names.entry) stimulus.now options.now.until result }
{
    let answer = simulate_told_watched(
        rt,
        alloc,
        bench,
        settings,
        names,
        stimulus,
        options,
        gate,
        &mut NoWatch,
    );
    simulate::dump_alone(answer)
}

/// As [`simulate_told`], with what is counted of the run, and a watch that is told how far it has come, as
/// [`simulate_watched`](crate::simulate_watched) says.
#[tactic(auto, unfolding(crate::specs::Only::IsToldAnswer))]
pub fn simulate_told_watched<G: Gate<AllLogs> + Sync, W: Watch, R: Threads + Wait + Sync>(
    rt: &R,
    alloc: Global,
    bench: &[u8],
    settings: &[u8],
    names: Option<&[u8]>,
    stimulus: &[u8],
    options: &Options,
    gate: &G,
    watch: &mut W,
) -> Result<Simulated, Fault>
    ensures dump { IsToldAnswer bench.now settings.now (option_map (λ names. names.now) names.entry) stimulus.now options.now.until (dumped result) }
    ensures counts { IfOk result (λ simulated. AreCountsOf bench.now settings.now options.now.until simulated.stats) }
{
    let circuit = simulate::circuit_by(rt, alloc, bench, settings)?;
    let told = told_of(alloc, &circuit, names)?;
    told_under(
        rt,
        alloc,
        &circuit,
        told.as_slice(),
        stimulus,
        options,
        gate,
        watch,
    )
}

/// The dump of the nets that are told where events are played on a circuit's blocks, under two texts.
fn told_replayed(
    alloc: Global,
    circuit: &Circuit,
    told: &[bool],
    stimulus: &[u8],
    schedule: &[u8],
    options: &Options,
) -> Result<Vec<u8>, Fault>
    ensures { IsToldReplayed circuit.now told.now stimulus.now schedule.now options.now.blocks options.now.until result }
{
    let stimulus = read_stimulus(alloc, stimulus, circuit)?;
    let events = read_schedule(alloc, schedule)?;
    let waves = replay::waves_of(alloc, circuit, &stimulus, events.as_slice(), options)?;
    Ok(told_dump_of(alloc, circuit, &stimulus, &waves, told, options.until())?)
}

/// As [`replay_text`](crate::replay_text), but in the dump the nets alone are told that a text names, or the outputs where
/// there is no such text. The text of names is judged behind the settings.
#[tactic(auto, unfolding(crate::specs::Only::IsToldReplay))]
pub fn replay_told(
    alloc: Global,
    bench: &[u8],
    settings: &[u8],
    names: Option<&[u8]>,
    stimulus: &[u8],
    schedule: &[u8],
    options: &Options,
) -> Result<Vec<u8>, Fault>
    ensures { IsToldReplay bench.now settings.now (option_map (λ names. names.now) names.entry) stimulus.now schedule.now options.now.blocks options.now.until result }
{
    let circuit = simulate::circuit_of(alloc, bench, settings)?;
    let told = told_of(alloc, &circuit, names)?;
    told_replayed(
        alloc,
        &circuit,
        told.as_slice(),
        stimulus,
        schedule,
        options,
    )
}
