ghost use Rattle.std.specs.Prelude.{◌≡◌, Some};
ghost use Rattle.warp_process.specs.Faults.{block_fault_number, block_fault_name};
ghost use Rattle.warp_process.specs.declared.fault.BlockFault.TheVariants as fault;

use std::alloc::{AllocError, AllocFailed};
use std::error::Error;
use std::fmt;

/// Why a block refuses a call: the first five causes are of `receive`, want of memory is of `advance` too, and the last
/// three are of `commit`. Of the causes that apply to a call the first in this order is answered, want of memory last. Each
/// cause has a number, its place in this order from 1, which stays.
#[derive(Clone, Copy, Debug, PartialEq, Eq)]
pub enum BlockFault {
    /// The message is for another block, or for a net that the block reads from no other block.
    WrongNet,
    /// The message's time is past the horizon.
    PastHorizon,
    /// The message's time is below the floor.
    BelowFloor,
    /// A number of an entry would be past 10^30, either way.
    CountLimit,
    /// A growth was refused.
    Memory,
    /// The floor would go back.
    FloorBack,
    /// An event time is below the floor that was asked for.
    Unprocessed,
    /// The entry of this net at this time, below the floor that was asked for, isn't settled: messages and antimessages
    /// on it are under way.
    Unsettled { net: u32, time: u64 },
}

impl BlockFault {
    /// The number of the cause.
    pub fn number(self) -> u32
        ensures { result ≡ block_fault_number self }
    {
        match self {
            BlockFault::WrongNet => 1,
            BlockFault::PastHorizon => 2,
            BlockFault::BelowFloor => 3,
            BlockFault::CountLimit => 4,
            BlockFault::Memory => 5,
            BlockFault::FloorBack => 6,
            BlockFault::Unprocessed => 7,
            BlockFault::Unsettled { .. } => 8,
        }
    }

    /// The name of the cause.
    pub fn name(self) -> &'static str
        ensures { result.now ≡ block_fault_name self }
    {
        match self {
            BlockFault::WrongNet => "WrongNet",
            BlockFault::PastHorizon => "PastHorizon",
            BlockFault::BelowFloor => "BelowFloor",
            BlockFault::CountLimit => "CountLimit",
            BlockFault::Memory => "Memory",
            BlockFault::FloorBack => "FloorBack",
            BlockFault::Unprocessed => "Unprocessed",
            BlockFault::Unsettled { .. } => "Unsettled",
        }
    }
}

impl fmt::Display for BlockFault {
    ghost output = { λ cause. Some (block_fault_name cause) };

    fn fmt<W: fmt::Write>(&self, f: &mut fmt::Formatter<W>) -> fmt::Result {
        f.write_str(self.name())
    }
}

impl Error for BlockFault {}

impl From<AllocError> for BlockFault {
    ghost from_gives = { λ _ cause. cause ≡ fault.Memory };

    fn from(_: AllocError) -> BlockFault {
        BlockFault::Memory
    }
}

impl<T: Drop> From<AllocFailed<T>> for BlockFault {
    ghost from_gives = { λ _ cause. cause ≡ fault.Memory };

    fn from(_: AllocFailed<T>) -> BlockFault {
        BlockFault::Memory
    }
}
