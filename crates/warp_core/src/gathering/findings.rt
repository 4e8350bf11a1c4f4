//! What is found of each block alone, beside the cut, the stimulus and the logs of all: one after another, or side by side.

ghost use Rattle.std.specs.Prelude.{◌≡◌, ◌<◌, ◌≤◌, ◌↔◌, ℕ, IsTrue, IfOk, IfSome, MatchOption, length, map, Some};
ghost use Rattle.gate_netlist.specs.Circuit.{CutFits};
ghost use Rattle.warp_process.specs.Limits.{most_horizon};
ghost use Rattle.warp_core.specs.Matched.{seen_at, IsBlockOf, IsToldAt, AreTold, EachBlock};
ghost use Rattle.warp_core.specs.Gather.{AreCounted, IsFirst, IsFirstBlock};
ghost use Rattle.warp_core.specs.Inner.Findings.{IsFinding, AreFound, AreOfCut};

use super::told::untold_net;
use crate::threads::worthwhile;
use gate_netlist::{Circuit, Cut};
use gate_stimulus::Stimulus;
use std::alloc::{AllocError, Global};
use std::thread;
use std::thread::Threads;
use warp_block::{Block, Logs, Part};

/// What is found of a block.
#[derive(Clone, Copy)]
pub(super) struct Finding {
    /// Whether it is of another part or horizon.
    is_other: bool,
    /// The first net that it reads and wasn't told as the net's owner, or the stimulus, says.
    untold: Option<u32>,
}

/// Whether a block is of a part, and goes up to a horizon.
fn is_of<L: Logs>(block: &Block<L>, part: &Part, horizon: u64) -> bool
    ensures { IsTrue result ↔ ((block.now.seen.part ≡ part.now) × (block.now.seen.horizon ≡ horizon)) }
{
    *block.part() == *part && block.horizon() == horizon
}

/// What is found of the block of a number. An error is a refused growth.
fn finding_of<L: Logs>(
    alloc: Global,
    circuit: &Circuit,
    cut: &Cut,
    stimulus: &Stimulus,
    horizon: u64,
    blocks: &[Block<L>],
    number: u32,
) -> Result<Finding, AllocError>
    requires cut { CutFits circuit.now cut.now }
    requires count { AreCounted cut.now blocks.now }
    requires horizon { horizon ≤ most_horizon }
    requires number { number < cut.now.blocks }
    ensures { IfOk result (IsFinding circuit.now cut.now stimulus.now horizon blocks.now number) }
{
    let block = &blocks[number as usize];
    let part = Part::of(alloc, circuit, cut, number)?;
    let untold = untold_net(cut, stimulus, horizon, blocks, number)?;
    Ok(Finding {
        is_other: !is_of(block, &part, horizon),
        untold,
    })
}

/// What is found of each block, one after another. An error is a refused growth.
pub(super) fn find<L: Logs>(
    alloc: Global,
    circuit: &Circuit,
    cut: &Cut,
    stimulus: &Stimulus,
    horizon: u64,
    blocks: &[Block<L>],
) -> Result<Vec<Finding>, AllocError>
    requires cut { CutFits circuit.now cut.now }
    requires count { AreCounted cut.now blocks.now }
    requires horizon { horizon ≤ most_horizon }
    ensures { IfOk result (λ found. AreFound circuit.now cut.now stimulus.now horizon blocks.now found.items) }
{
    let mut found = Vec::with_capacity(alloc, blocks.len())?;
    for number in 0..cut.blocks() {
        let finding = finding_of(alloc, circuit, cut, stimulus, horizon, blocks, number)?;
        found.push(finding)?;
    }
    Ok(found)
}

/// What is found of each block, by up to `workers` threads side by side, as far as they are worth while. An error is a refused growth.
pub(super) fn find_by<L: Logs + Sync, R: Threads + Sync>(
    rt: &R,
    alloc: Global,
    workers: u32,
    circuit: &Circuit,
    cut: &Cut,
    stimulus: &Stimulus,
    horizon: u64,
    blocks: &[Block<L>],
) -> Result<Vec<Finding>, AllocError>
    requires workers { 1 ≤ workers }
    requires cut { CutFits circuit.now cut.now }
    requires count { AreCounted cut.now blocks.now }
    requires horizon { horizon ≤ most_horizon }
    ensures { IfOk result (λ found. AreFound circuit.now cut.now stimulus.now horizon blocks.now found.items) }
{
    let mut answers = vec![in alloc; None; blocks.len()]?;
    thread::for_each_mut(
        rt,
        answers.as_mut_slice(),
        worthwhile(workers, circuit.nets()) as usize,
        &|place: usize, answer: &mut Option<Finding>|
            requires { (place < cut.now.blocks) × CutFits circuit.now cut.now × AreCounted cut.now blocks.now × (horizon ≤ most_horizon) }
            ensures { IfSome answer.exit.now (IsFinding circuit.entry.now cut.entry.now stimulus.entry.now horizon blocks.entry.now place) }
        {
            *answer = match u32::try_from(place) {
                Ok(number) => {
                    finding_of(alloc, circuit, cut, stimulus, horizon, blocks, number).ok()
                }
                Err(_) => None,
            };
        },
    );
    known(alloc, answers.as_slice())
}

/// The answers, if none is missing. One that is missing is a refused growth.
fn known(alloc: Global, answers: &[Option<Finding>]) -> Result<Vec<Finding>, AllocError>
    ensures { IfOk result (λ found. map Some found.items ≡ answers.now) }
{
    let mut found = Vec::with_capacity(alloc, answers.len())?;
    for answer in answers {
        match answer {
            Some(finding) => found.push(*finding)?,
            None => return Err(AllocError),
        }
    }
    Ok(found)
}

/// The first block of another part or horizon.
pub(super) fn other_part(cut: &Cut, found: &[Finding]) -> Option<u32>
    requires { length found.now ≡ cut.now.blocks }
    ensures { (d : _) (g : _) (horizon : ℕ) (blocks : _) → AreFound d cut.now g horizon blocks found.now → MatchOption result
        (EachBlock cut.now blocks (IsBlockOf d cut.now horizon))
        (IsFirstBlock cut.now blocks (IsBlockOf d cut.now horizon)) }
{
    for number in 0..cut.blocks() {
        if found[number as usize].is_other {
            return Some(number);
        }
    }
    None
}

/// The first block, and net that it reads, that wasn't told as the net's owner, or the stimulus, says, of blocks of a cut circuit.
pub(super) fn untold(cut: &Cut, found: &[Finding]) -> Option<(u32, u32)>
    requires { length found.now ≡ cut.now.blocks }
    ensures { (d : _) (g : _) (horizon : ℕ) (blocks : _) → AreFound d cut.now g horizon blocks found.now → AreOfCut d cut.now horizon blocks → MatchOption result
        (EachBlock cut.now blocks (λ _ v. AreTold cut.now g horizon blocks v))
        (λ p. IsFirstBlock cut.now blocks (λ _ v. AreTold cut.now g horizon blocks v) p.0
        × IsFirst (IsToldAt cut.now g horizon blocks (seen_at blocks p.0)) p.1) }
{
    for number in 0..cut.blocks() {
        match found[number as usize].untold {
            Some(net) => return Some((number, net)),
            None => {}
        }
    }
    None
}
