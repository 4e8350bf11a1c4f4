//! All changes of a circuit's nets by time, from the histories of blocks. No list of any net's changes is made.

ghost use Rattle.std.specs.Prelude.{◌≡◌, ◌<◌, ◌≤◌, ℕ, List, IfOk, IfErr, IfSome, OnOk, length};
ghost use Rattle.gate_values.specs.declared.logic.Change.{Change};
ghost use Rattle.gate_netlist.specs.Circuit.{nets_of, CutFits};
ghost use Rattle.gate_stimulus.specs.Given.{Fits};
ghost use Rattle.net_waves.specs.ByTime.{stops_in};
ghost use Rattle.net_waves.specs.Stops.{AreStopsOf};
ghost use Rattle.net_waves.specs.Waves.{wave_of};
ghost use Rattle.warp_process.specs.Limits.{most_horizon};
ghost use Rattle.warp_core.specs.Matched.{IsBlockOf, EachBlock, AreMatched, told_of};
ghost use Rattle.warp_core.specs.Gather.{AreCounted, IsFault};
ghost use Rattle.warp_core.specs.Inner.Gather.{IsStory, AreStories};
ghost use Rattle.warp_core.specs.Values.{circuit_waves};

use super::waves::{given_lists, own_nets};
use super::{check, findings, laws};
use crate::fault::GatherFault;
use gate_netlist::{Circuit, Cut};
use gate_stimulus::Stimulus;
use history_waves::{Story, by_time_of_all_by};
use net_waves::{ByTime, stops_by_time};
use std::alloc::{AllocError, Global};
use std::thread::Threads;
use warp_block::{Block, Logs};

/// All changes of the values of a circuit's nets under a stimulus by time, from the blocks of a cut, in order: up to `workers` threads,
/// at least one, look at them and put their changes in order side by side. The cut and the stimulus fit the circuit; the horizon is at
/// most [`MOST_HORIZON`](warp_block::MOST_HORIZON). There is no answer where the changes have no form in which they can be had by time as
/// they come, or where a block wants memory for what nobody reads.
///
/// Of matched blocks the answer is the changes, or none, or that a growth was refused; of others it is the first fault that applies, or,
/// but for a wrong number of blocks, that a growth was refused. The blocks are consumed either way.
pub fn gather_changes<L: Logs + Sync, R: Threads + Sync>(
    rt: &R,
    alloc: Global,
    workers: u32,
    circuit: &Circuit,
    cut: &Cut,
    stimulus: &Stimulus,
    horizon: u64,
    blocks: Vec<Block<L>>,
) -> Result<Option<ByTime>, GatherFault>
    requires workers { 1 ≤ workers }
    requires cut { CutFits circuit.now cut.now }
    requires stimulus { Fits stimulus.now circuit.now }
    requires horizon { horizon ≤ most_horizon }
    ensures matched { OnOk result (AreMatched circuit.now cut.now stimulus.now horizon blocks.items) }
    ensures changes { IfOk result (λ all. IfSome all (λ by_time. AreStopsOf (circuit_waves circuit.now stimulus.now horizon) (stops_in by_time))) }
    ensures fault { IfErr result (IsFault circuit.now cut.now stimulus.now horizon blocks.items) }
{
    if blocks.len() != cut.blocks() as usize {
        return Err(GatherFault::WrongCount);
    }
    let shown = blocks.as_slice();
    let found = findings::find_by(rt, alloc, workers, circuit, cut, stimulus, horizon, shown)?;
    check(cut, blocks.as_slice(), found.as_slice())?;
    cut.law();
    stimulus.law();
    laws(blocks.as_slice());
    let all = told_changes(rt, alloc, workers, circuit, cut, stimulus, horizon, blocks)?;
    Ok(all)
}

/// What the owners of all nets, and the stimulus, say of them, by time, put in order by up to `workers` threads. An error is a refused
/// growth.
fn told_changes<L: Logs, R: Threads + Sync>(
    rt: &R,
    alloc: Global,
    workers: u32,
    circuit: &Circuit,
    cut: &Cut,
    stimulus: &Stimulus,
    horizon: u64,
    blocks: Vec<Block<L>>,
) -> Result<Option<ByTime>, AllocError>
    requires workers { 1 ≤ workers }
    requires cut { CutFits circuit.now cut.now }
    requires count { AreCounted cut.now blocks.items }
    requires parts { EachBlock cut.now blocks.items (IsBlockOf circuit.now cut.now horizon) }
    requires horizon { horizon ≤ most_horizon }
    ensures { IfOk result (λ all. IfSome all (λ by_time. (waves : List (List Change)) → length waves ≡ nets_of circuit.now → ((n : ℕ) → n < nets_of circuit.now → wave_of waves n ≡ told_of cut.now stimulus.now horizon blocks.items n) → AreStopsOf waves (stops_in by_time))) }
{
    let lists = given_lists(alloc, circuit.nets(), cut, stimulus, horizon)?;
    cut.law();
    let given = stops_by_time(alloc, lists.as_slice())?;
    let Some(stories) = stories_of(alloc, blocks)? else {
        return Ok(None);
    };
    let all = by_time_of_all_by(rt, alloc, workers, horizon, stories, given.as_slice())?;
    Ok(all)
}

/// The stories of blocks, in order, if each has one. An error is a refused growth.
fn stories_of<L: Logs>(
    alloc: Global,
    blocks: Vec<Block<L>>,
) -> Result<Option<Vec<Story>>, AllocError>
    ensures { IfOk result (λ told. IfSome told (λ stories. AreStories blocks.items stories.items)) }
{
    let mut stories = Vec::new(alloc);
    for block in blocks {
        let Some(story) = story_of(alloc, block)? else {
            return Ok(None);
        };
        stories.push(story)?;
    }
    Ok(Some(stories))
}

/// What a block's history says of its own nets, if it has one. An error is a refused growth.
fn story_of<L: Logs>(alloc: Global, block: Block<L>) -> Result<Option<Story>, AllocError>
    ensures { IfOk result (λ told. IfSome told (IsStory block.seen)) }
{
    block.law();
    let Some((part, history)) = block.into_history() else {
        return Ok(None);
    };
    let own = own_nets(alloc, &part)?;
    Ok(Some(Story::new(own, history)))
}
