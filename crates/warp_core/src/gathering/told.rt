//! What blocks were told, beside what owners and the stimulus say.

ghost use Rattle.std.specs.Prelude.{◌≡◌, ◌<◌, ◌≤◌, ◌+◌, ◌↔◌, ℕ, [], Some, IsTrue, IfOk, IfSome, IfNone, MatchOption};
ghost use Rattle.gate_values.specs.Changes.{before_time};
ghost use Rattle.gate_netlist.specs.Circuit.{Design};
ghost use Rattle.gate_netlist.specs.Cut.{owner_of};
ghost use Rattle.gate_stimulus.specs.Given.{changes_of};
ghost use Rattle.net_waves.specs.Inner.Lists.{IsRising};
ghost use Rattle.net_waves.specs.Waves.{IsWave};
ghost use Rattle.warp_process.specs.Limits.{most_horizon};
ghost use Rattle.warp_process.specs.View.{log_of};
ghost use Rattle.warp_process.specs.Heard.{IsToldOf};
ghost use Rattle.warp_part.specs.Portion.{readers_of};
ghost use Rattle.warp_core.specs.Matched.{seen_at, IsToldAt, AreTold, told_of};
ghost use Rattle.warp_core.specs.Gather.{AreCounted, IsFirst};
ghost use Rattle.warp_core.specs.Inner.Findings.{AreOfCut};

use gate_netlist::Cut;
use gate_stimulus::Stimulus;
use gate_values::Change;
use std::alloc::AllocError;
use warp_block::{Block, Logs};

/// Those of the changes that aren't past the horizon.
fn until(changes: &[Change], horizon: u64) -> &[Change]
    requires { IsRising changes.now }
    ensures { result.now ≡ before_time (horizon + 1) changes.now }
{
    let count = changes.partition_point(|change| change.time <= horizon);
    &changes[..count]
}

/// The log of a net that other blocks read; none of another.
fn log<L: Logs>(block: &Block<L>, net: u32) -> Option<&[Change]>
    ensures log { IfSome result (λ log. log.now ≡ log_of block.now.seen net) }
    ensures wave { IfSome result (λ log. IsWave log.now) }
    ensures none { IfNone result (readers_of block.now.seen.part net ≡ []) }
{
    block.law();
    block.read_log(net)
}

/// The changes of an input up to the horizon.
pub(super) fn given_until(stimulus: &Stimulus, horizon: u64, net: u32) -> &[Change]
    requires { horizon ≤ most_horizon }
    ensures changes { result.now ≡ before_time (horizon + 1) (changes_of stimulus.now net) }
    ensures wave { IsWave result.now }
{
    stimulus.law();
    until(stimulus.changes(net), horizon)
}

/// What the owner of a net says of it: its log, if it has readers; of an input, the stimulus's changes up to the horizon.
fn told<'a, L: Logs>(
    cut: &Cut,
    stimulus: &'a Stimulus,
    horizon: u64,
    blocks: &'a [Block<L>],
    net: u32,
) -> Option<&'a [Change]>
    requires count { AreCounted cut.now blocks.now }
    requires horizon { horizon ≤ most_horizon }
    ensures changes { IfSome result (λ told. told.now ≡ told_of cut.now stimulus.now horizon blocks.now net) }
    ensures wave { IfSome result (λ told. IsWave told.now) }
    ensures none { IfNone result ((owner : ℕ) × (owner < cut.now.blocks) × (owner_of cut.now net ≡ Some owner) × (readers_of (seen_at blocks.now owner).part net ≡ [])) }
{
    cut.law();
    match cut.owner(net) {
        None => Some(given_until(stimulus, horizon, net)),
        Some(owner) => log(&blocks[owner as usize], net),
    }
}

/// Whether two lists of changes are the same.
fn are_same(list: &[Change], changes: &[Change]) -> bool
    ensures { IsTrue result ↔ (list.now ≡ changes.now) }
{
    if list.len() != changes.len() {
        return false;
    }
    for at in 0..list.len() {
        if list[at].time != changes[at].time || list[at].value != changes[at].value {
            return false;
        }
    }
    true
}

/// Whether a block, which was told some changes of a net, was told what the net's owner, or the stimulus, says, if it reads it. It says so
/// of blocks of a cut circuit.
fn is_told_at<L: Logs>(
    cut: &Cut,
    stimulus: &Stimulus,
    horizon: u64,
    blocks: &[Block<L>],
    block: &Block<L>,
    net: u32,
    list: &[Change],
) -> bool
    requires count { AreCounted cut.now blocks.now }
    requires horizon { horizon ≤ most_horizon }
    requires list { IsToldOf block.now.seen net list.now }
    ensures { (d : Design) (b : ℕ) → AreOfCut d cut.now horizon blocks.now → b < cut.now.blocks → block.now.seen ≡ seen_at blocks.now b → IsTrue result ↔ IsToldAt cut.now stimulus.now horizon blocks.now block.now.seen net }
{
    if !block.part().reads(net) {
        return true;
    }
    match told(cut, stimulus, horizon, blocks, net) {
        Some(changes) => are_same(list, changes),
        None => false,
    }
}

/// The first net that the block of a number reads and wasn't told as its owner, or the stimulus, says, of blocks of a cut circuit. An error
/// is a refused growth.
pub(super) fn untold_net<L: Logs>(
    cut: &Cut,
    stimulus: &Stimulus,
    horizon: u64,
    blocks: &[Block<L>],
    number: u32,
) -> Result<Option<u32>, AllocError>
    requires count { AreCounted cut.now blocks.now }
    requires horizon { horizon ≤ most_horizon }
    requires number { number < cut.now.blocks }
    ensures { IfOk result (λ first. (d : Design) → AreOfCut d cut.now horizon blocks.now → MatchOption first
        (AreTold cut.now stimulus.now horizon blocks.now (seen_at blocks.now number))
        (IsFirst (IsToldAt cut.now stimulus.now horizon blocks.now (seen_at blocks.now number)))) }
{
    let block = &blocks[number as usize];
    block.part().law();
    let lists = block.told()?;
    for slot in 0..lists.len() {
        let net = block.part().net(slot);
        let list = lists[slot].as_slice();
        if !is_told_at(cut, stimulus, horizon, blocks, block, net, list) {
            return Ok(Some(net));
        }
    }
    Ok(None)
}
