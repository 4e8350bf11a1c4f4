//! Entries that are neither empty nor one single message.

ghost use Rattle.std.specs.Prelude.{MatchOption};
ghost use Rattle.warp_core.specs.Matched.{seen_at, AreSettled, EachBlock};
ghost use Rattle.warp_core.specs.Gather.{AreCounted, IsFirstBlock, IsFirstUnsettled};

use gate_netlist::Cut;
use warp_block::{Block, Logs};

/// The first net of a block with an entry that isn't settled, and the first time of it.
fn unsettled_entry<L: Logs>(block: &Block<L>) -> Option<(u32, u64)>
    ensures { MatchOption result
        (AreSettled block.now.seen)
        (λ p. IsFirstUnsettled block.now.seen p.0 p.1) }
{
    block.law();
    block.first_unsettled()
}

/// The first block, net and time whose entry isn't settled.
pub(super) fn unsettled<L: Logs>(cut: &Cut, blocks: &[Block<L>]) -> Option<(u32, u32, u64)>
    requires { AreCounted cut.now blocks.now }
    ensures { MatchOption result
        (EachBlock cut.now blocks.now (λ _ v. AreSettled v))
        (λ p. IsFirstBlock cut.now blocks.now (λ _ v. AreSettled v) p.0 × IsFirstUnsettled (seen_at blocks.now p.0) p.1 p.2) }
{
    for block in 0..cut.blocks() {
        match unsettled_entry(&blocks[block as usize]) {
            Some((net, time)) => return Some((block, net, time)),
            None => {}
        }
    }
    None
}
