//! New blocks of a world.

ghost use Rattle.std.specs.Prelude.{◌≡◌, ◌≤◌, [], IfOk, OnOk};
ghost use Rattle.gate_netlist.specs.Circuit.{CutFits};
ghost use Rattle.gate_stimulus.specs.Given.{Fits};
ghost use Rattle.warp_process.specs.Limits.{most_horizon};
ghost use Rattle.warp_core.specs.Inner.Kept.{AreNextTimes};
ghost use Rattle.warp_core.specs.Inner.Opened.{AreOpened};

use super::acts::next_of;
use gate_netlist::{Circuit, Cut};
use gate_stimulus::Stimulus;
use std::alloc::{AllocError, Global};
use warp_block::{Block, Message, Part};

/// Puts the new blocks of a cut into `blocks`, in order, and what each sends into `flight`.
pub(super) fn open(
    alloc: Global,
    circuit: &Circuit,
    cut: &Cut,
    stimulus: &Stimulus,
    horizon: u64,
    blocks: &mut Vec<Block>,
    flight: &mut Vec<Message>,
) -> Result<(), AllocError>
    requires cut { CutFits circuit.now cut.now }
    requires stimulus { Fits stimulus.now circuit.now }
    requires horizon { horizon ≤ most_horizon }
    requires blocks { blocks.old.items ≡ [] }
    requires flight { flight.old.items ≡ [] }
    ensures { OnOk result (AreOpened circuit.now cut.now stimulus.now horizon cut.now.blocks blocks.new.items flight.new.items) }
{
    for number in 0..cut.blocks() {
        let part = Part::of(alloc, circuit, cut, number)?;
        let block = Block::new(alloc, part, stimulus, horizon, flight)?;
        block.law();
        blocks.push(block)?;
    }
    Ok(())
}

/// The least event time of each block, or an end where there is none.
pub(super) fn next_times(alloc: Global, blocks: &[Block], end: u64) -> Result<Vec<u64>, AllocError>
    ensures { IfOk result (λ next. AreNextTimes blocks.now end next.items) }
{
    let mut next = Vec::with_capacity(alloc, blocks.len())?;
    for block in blocks {
        next.push(next_of(block, end))?;
    }
    Ok(next)
}
