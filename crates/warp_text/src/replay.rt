//! From four texts to a dump: a schedule played on a circuit's blocks.
ghost use Rattle.std.specs.Prelude.{◌≡◌, ◌≤◌, ◌+◌, [], IfOk, IfErr, OnOk};
ghost use Rattle.gate_netlist.specs.Circuit.{CutFits};
ghost use Rattle.gate_stimulus.specs.Given.{Fits};
ghost use Rattle.warp_process.specs.Limits.{most_horizon};
ghost use Rattle.warp_core.specs.Values.{AreCircuitWaves};
ghost use Rattle.warp_core.specs.Played.{ArePlayed};
ghost use Rattle.warp_core.specs.World.{IsLeastTime};
ghost use Rattle.warp_text.specs.Inner.FaultLines.{event_fault};
ghost use Rattle.warp_text.specs.Inner.Replay.{IsReplayed};
ghost use Rattle.warp_text.specs.Replay.{cut_of, Stops, Plays, IsReplay};

use crate::cuts;
use crate::cuts::made_cut;
use crate::dump::dump_of;
use crate::fault::Fault;
use crate::options::Options;
use crate::simulate::circuit_of;
use gate_netlist::{Circuit, Cut};
use gate_stimulus::Stimulus;
use gate_vcd::read_stimulus;
use net_waves::Waves;
use std::alloc::Global;
use warp_core::{Event, PlayFault, World, read_schedule};

/// The fault of a refused event, by its number from 1.
fn event_fault(number: u64, cause: PlayFault) -> Fault
    ensures { result ≡ event_fault number cause }
{
    match cause {
        PlayFault::Memory => Fault::Memory,
        _ => Fault::Event { number, cause },
    }
}

/// Plays events one after the other, up to the first that is refused.
fn play_all(world: &mut World<'_>, events: &[Event]) -> Result<(), Fault>
    ensures played { OnOk result (ArePlayed world.old events.now world.new) }
    ensures stopped { IfErr result (Stops world.old events.now) }
{
    for (place, event) in events.iter().enumerate() {
        match world.play(*event) {
            Ok(()) => world.law(),
            Err(cause) => return Err(event_fault(place as u64 + 1, cause)),
        }
    }
    Ok(())
}

/// The waves of a world where nothing is left to do.
fn finished(world: World<'_>, until: u64) -> Result<Waves, Fault>
    requires { world.horizon ≡ until }
    ensures waves { IfOk result (AreCircuitWaves world.entry.circuit world.entry.stimulus until) }
    ensures least { IfOk result (λ _. IsLeastTime world.entry (until + 1)) }
    ensures stopped { IfErr result (Stops world.entry []) }
{
    let time = world.least();
    if time <= until {
        return Err(Fault::Unfinished { time });
    }
    match world.finish() {
        Ok(waves) => Ok(waves),
        Err(_) => Err(Fault::Memory),
    }
}

/// Plays events on the blocks of a cut circuit, and gathers them.
fn play_cut(
    alloc: Global,
    circuit: &Circuit,
    cut: &Cut,
    stimulus: &Stimulus,
    events: &[Event],
    until: u64,
) -> Result<Waves, Fault>
    requires cut { CutFits circuit.now cut.now }
    requires stimulus { Fits stimulus.now circuit.now }
    requires near { until ≤ most_horizon }
    ensures waves { IfOk result (AreCircuitWaves circuit.now stimulus.now until) }
    ensures played { Plays circuit.now cut.now stimulus.now until events.now result }
{
    let mut world = World::new(alloc, circuit, cut, stimulus, until)?;
    world.law();
    play_all(&mut world, events)?;
    finished(world, until)
}

/// Plays events on the blocks of a circuit, which is cut evenly where the options give a number of blocks, else as its
/// settings say, else not at all.
pub(crate) fn waves_of(
    alloc: Global,
    circuit: &Circuit,
    stimulus: &Stimulus,
    events: &[Event],
    options: &Options,
) -> Result<Waves, Fault>
    requires { Fits stimulus.now circuit.now }
    ensures waves { IfOk result (AreCircuitWaves circuit.now stimulus.now options.now.until) }
    ensures played { Plays circuit.now (cut_of circuit.now options.now.blocks) stimulus.now options.now.until events.now result }
{
    let until = options.until();
    let made = made_cut(alloc, circuit, options)?;
    let cut = cuts::cut_of(circuit, options, &made);
    play_cut(alloc, circuit, cut, stimulus, events, until)
}

/// The dump of a circuit's nets where events are played on its blocks, under two texts.
fn replay_on(
    alloc: Global,
    circuit: &Circuit,
    stimulus: &[u8],
    schedule: &[u8],
    options: &Options,
) -> Result<Vec<u8>, Fault>
    ensures { IsReplayed circuit.now stimulus.now schedule.now options.now.blocks options.now.until result }
{
    let stimulus = read_stimulus(alloc, stimulus, circuit)?;
    let events = read_schedule(alloc, schedule)?;
    let waves = waves_of(alloc, circuit, &stimulus, events.as_slice(), options)?;
    Ok(dump_of(alloc, circuit, &stimulus, waves, options.until())?)
}

/// The dump of every net of a circuit, from time 0 to the options' `until`, in units of the stimulus's timescale, where
/// a schedule's events are played on the circuit's blocks, one after the other, without threads. The options' workers and
/// window have no effect.
///
/// The texts are judged in this order, and the first that is refused is answered, with its fault; then the first event
/// that is refused; then, where something is left to do after the last event, the least time of it. Want of memory in any
/// part is `Fault::Memory`, and no other fault carries it.
#[tactic(auto, unfolding(crate::specs::Replay::IsReplay))]
pub fn replay_text(
    alloc: Global,
    bench: &[u8],
    settings: &[u8],
    stimulus: &[u8],
    schedule: &[u8],
    options: &Options,
) -> Result<Vec<u8>, Fault>
    ensures { IsReplay bench.now settings.now stimulus.now schedule.now options.now.blocks options.now.until result }
{
    let circuit = circuit_of(alloc, bench, settings)?;
    replay_on(alloc, &circuit, stimulus, schedule, options)
}
