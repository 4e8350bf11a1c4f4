//! A run that answers all changes by time. Its blocks keep the logs of those nets alone that other blocks read.
ghost use Rattle.std.specs.Prelude.{◌≤◌, IfOk, IfErr, IfSome};
ghost use Rattle.gate_netlist.specs.Circuit.{CutFits};
ghost use Rattle.gate_stimulus.specs.Given.{Fits};
ghost use Rattle.net_waves.specs.ByTime.{stops_in};
ghost use Rattle.net_waves.specs.Stops.{AreStopsOf};
ghost use Rattle.warp_process.specs.Limits.{most_horizon};
ghost use Rattle.warp_core.specs.Values.{circuit_waves};
ghost use Rattle.warp_rounds.specs.Runs.{IsRunFault};

use crate::fault::RunFault;
use crate::gate::NoGate;
use crate::runs::{play_rounds, sites_of, taken_out};
use crate::watch::Watch;
use gate_netlist::{Circuit, Cut};
use gate_stimulus::Stimulus;
use net_waves::ByTime;
use std::alloc::Global;
use std::sync::Wait;
use std::thread::Threads;
use warp_block::ReadLogs;
use warp_core::gather_changes;

/// All changes of the values of a circuit's nets under a stimulus by time, from time 0 to the horizon, by a run as [`run`](crate::run)
/// plays it, whose blocks no gate is to see: they keep no list of a net that no other block reads. There is no answer where the changes
/// have no form in which they can be had by time as they come, or where a block wants memory for what nobody reads. After each round the
/// watch is told the floor that it led to.
pub fn run_changes<W: Watch, R: Threads + Wait + Sync>(
    rt: &R,
    alloc: Global,
    circuit: &Circuit,
    cut: &Cut,
    stimulus: &Stimulus,
    horizon: u64,
    workers: u32,
    window: u32,
    watch: &mut W,
) -> Result<Option<ByTime>, RunFault>
    requires cut { CutFits circuit.now cut.now }
    requires stimulus { Fits stimulus.now circuit.now }
    requires horizon { horizon ≤ most_horizon }
    requires workers { (1 ≤ workers) × (workers ≤ 64) }
    requires window { (1 ≤ window) × (window ≤ 1000000) }
    ensures changes { IfOk result (λ all. IfSome all (λ by_time. AreStopsOf (circuit_waves circuit.now stimulus.now horizon) (stops_in by_time))) }
    ensures fault { IfErr result (IsRunFault circuit.now cut.now stimulus.now horizon workers window) }
{
    let sites = sites_of::<ReadLogs, R>(rt, alloc, workers, circuit, cut, stimulus, horizon)?;
    let shown = sites.as_slice();
    let _rounds = play_rounds(rt, alloc, shown, horizon, workers, window, &NoGate, watch)?;
    let taken = taken_out(alloc, sites)?;
    let blocks = taken.blocks;
    let all = gather_changes(rt, alloc, workers, circuit, cut, stimulus, horizon, blocks)?;
    Ok(all)
}
