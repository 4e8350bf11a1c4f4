ghost use Rattle.std.specs.Prelude.{◌≡◌, ◌<◌, ◌≤◌, ◌↔◌, ℕ, IsTrue, IfOk, IfErr, IfSome, OnOk, MatchOption, Ok, length, vec_len};
ghost use Rattle.gate_netlist.specs.Circuit.{CutFits};
ghost use Rattle.gate_stimulus.specs.Given.{Fits};
ghost use Rattle.net_waves.specs.Waves.{lists_in, wave_of, IsWave};
ghost use Rattle.net_waves.specs.Stops.{AreStopsOf};
ghost use Rattle.net_waves.specs.ByTime.{stops_in};
ghost use Rattle.warp_process.specs.Limits.{most_horizon};
ghost use Rattle.warp_process.specs.View.{IsDone};
ghost use Rattle.warp_process.specs.Lawful.{IsLawful};
ghost use Rattle.warp_core.specs.Matched.{seen_at, EachBlock, AreMatched};
ghost use Rattle.warp_core.specs.Gather.{AreCounted, IsFirstBlock, IsFault, IsGathered};
ghost use Rattle.warp_core.specs.Inner.Findings.{AreFound};

mod changes;
mod entries;
mod findings;
mod told;
mod waves;

use crate::fault::GatherFault;
pub use changes::gather_changes;
use findings::Finding;
use gate_netlist::{Circuit, Cut};
use gate_stimulus::Stimulus;
use net_waves::Waves;
use std::alloc::Global;
use std::thread::Threads;
use warp_block::{Block, Logs};
use waves::Gathered;
pub use waves::{given_lists, own_nets};

/// The waves of a circuit under a stimulus, from the blocks of a cut, in order. The cut and the stimulus fit the
/// circuit; the horizon is at most [`MOST_HORIZON`](warp_block::MOST_HORIZON). Times are in the stimulus's timescale.
///
/// Of matched blocks the answer is the waves, or that a growth was refused; of others it is the first fault that
/// applies, or, but for a wrong number of blocks, that a growth was refused. The blocks are consumed either way.
pub fn gather(
    alloc: Global,
    circuit: &Circuit,
    cut: &Cut,
    stimulus: &Stimulus,
    horizon: u64,
    blocks: Vec<Block>,
) -> Result<Waves, GatherFault>
    requires cut { CutFits circuit.now cut.now }
    requires stimulus { Fits stimulus.now circuit.now }
    requires horizon { horizon ≤ most_horizon }
    ensures { IsGathered circuit.now cut.now stimulus.now horizon blocks.items result }
{
    if blocks.len() != cut.blocks() as usize {
        return Err(GatherFault::WrongCount);
    }
    let found = findings::find(alloc, circuit, cut, stimulus, horizon, blocks.as_slice())?;
    let Gathered { lists, by_time } = gathered(
        alloc, circuit, cut, stimulus, horizon, blocks, found,
    )?;
    match by_time {
        Some(by_time) => Ok(Waves::with(lists, by_time)),
        None => Ok(Waves::of(alloc, lists)?),
    }
}

/// The waves of a circuit, as [`gather`] answers them, where up to `workers` threads, at least one, look at the blocks side by side,
/// and put changes of dense times into their order. Where a thread can't be started, another one does its share.
pub fn gather_by<R: Threads + Sync>(
    rt: &R,
    alloc: Global,
    workers: u32,
    circuit: &Circuit,
    cut: &Cut,
    stimulus: &Stimulus,
    horizon: u64,
    blocks: Vec<Block>,
) -> Result<Waves, GatherFault>
    requires workers { 1 ≤ workers }
    requires cut { CutFits circuit.now cut.now }
    requires stimulus { Fits stimulus.now circuit.now }
    requires horizon { horizon ≤ most_horizon }
    ensures { IsGathered circuit.now cut.now stimulus.now horizon blocks.items result }
{
    if blocks.len() != cut.blocks() as usize {
        return Err(GatherFault::WrongCount);
    }
    let shown = blocks.as_slice();
    let found = findings::find_by(rt, alloc, workers, circuit, cut, stimulus, horizon, shown)?;
    let Gathered { lists, by_time } = gathered(
        alloc, circuit, cut, stimulus, horizon, blocks, found,
    )?;
    match by_time {
        Some(by_time) => Ok(Waves::with(lists, by_time)),
        None => Ok(Waves::of_by(rt, alloc, workers, lists)?),
    }
}

/// A list of changes for each net, from blocks of which all is found, and those changes by time where they are had so.
fn gathered(
    alloc: Global,
    circuit: &Circuit,
    cut: &Cut,
    stimulus: &Stimulus,
    horizon: u64,
    blocks: Vec<Block>,
    found: Vec<Finding>,
) -> Result<Gathered, GatherFault>
    requires cut { CutFits circuit.now cut.now }
    requires stimulus { Fits stimulus.now circuit.now }
    requires horizon { horizon ≤ most_horizon }
    requires count { AreCounted cut.now blocks.items }
    requires found { AreFound circuit.now cut.now stimulus.now horizon blocks.items found.items }
    ensures few { IfOk result (λ all. vec_len all.lists ≤ 1000000) }
    ensures waves { IfOk result (λ all. (n : ℕ) → IsWave (wave_of (lists_in all.lists.items) n)) }
    ensures gathered { IfOk result (λ all. IsGathered circuit.now cut.now stimulus.now horizon blocks.items (Ok (lists_in all.lists.items))) }
    ensures by_time { IfOk result (λ all. IfSome all.by_time (λ by_time. AreStopsOf (lists_in all.lists.items) (stops_in by_time))) }
    ensures fault { IfErr result (IsFault circuit.now cut.now stimulus.now horizon blocks.items) }
{
    check(cut, blocks.as_slice(), found.as_slice())?;
    cut.law();
    stimulus.law();
    laws(blocks.as_slice());
    let all = waves::lists_of(alloc, circuit, cut, stimulus, horizon, blocks)?;
    Ok(all)
}

/// Whether blocks of which all is found are matched; if they aren't, why.
fn check<L: Logs>(cut: &Cut, blocks: &[Block<L>], found: &[Finding]) -> Result<(), GatherFault>
    requires count { AreCounted cut.now blocks.now }
    requires found { length found.now ≡ cut.now.blocks }
    ensures matched { OnOk result ((d : _) (g : _) (horizon : ℕ) → CutFits d cut.now → AreFound d cut.now g horizon blocks.now found.now → AreMatched d cut.now g horizon blocks.now) }
    ensures fault { IfErr result (λ f. (d : _) (g : _) (horizon : ℕ) → CutFits d cut.now → AreFound d cut.now g horizon blocks.now found.now → IsFault d cut.now g horizon blocks.now f) }
{
    match findings::other_part(cut, found) {
        Some(block) => return Err(GatherFault::WrongPart { block }),
        None => {}
    }
    match unfinished(cut, blocks) {
        Some(block) => return Err(GatherFault::Unfinished { block }),
        None => {}
    }
    match entries::unsettled(cut, blocks) {
        Some((block, net, time)) => return Err(GatherFault::Unsettled { block, net, time }),
        None => {}
    }
    match findings::untold(cut, found) {
        Some((block, net)) => return Err(GatherFault::Mismatch { block, net }),
        None => {}
    }
    Ok(())
}

/// What is true of every block.
fn laws<L: Logs>(blocks: &[Block<L>])
    ensures { (b : ℕ) → b < length blocks.now → IsLawful (seen_at blocks.now b) }
{
    for block in blocks {
        block.law();
    }
}

/// The first block that has an event time left.
fn unfinished<L: Logs>(cut: &Cut, blocks: &[Block<L>]) -> Option<u32>
    requires { AreCounted cut.now blocks.now }
    ensures { MatchOption result
        (EachBlock cut.now blocks.now (λ _ v. IsDone v))
        (IsFirstBlock cut.now blocks.now (λ _ v. IsDone v)) }
{
    for block in 0..cut.blocks() {
        if !blocks[block as usize].done() {
            return Some(block);
        }
    }
    None
}
