ghost use Rattle.std.specs.Prelude.{◌≡◌};
ghost use Rattle.warp_rounds.specs.declared.fault.RunFault.TheVariants as fault;
ghost use Rattle.warp_rounds.specs.Faults.{run_fault_number, fault_of_block, fault_of_gathering};

use std::alloc::{AllocError, AllocFailed};
use thiserror::Error;
use warp_block::BlockFault;
use warp_core::GatherFault;

/// Why a run answers no waves. Each cause has a number, which stays. Where several workers met a fault, one of theirs is answered. Times are in the
/// stimulus's timescale.
#[derive(Clone, Copy, Debug, PartialEq, Eq, Error)]
pub enum RunFault {
    /// A block refused a message, or to commit.
    #[error("block {0}")]
    Block(BlockFault),
    /// A round's least time was not above the floor before it, which is `time`.
    #[error("stalled at {time}")]
    Stalled { time: u64 },
    /// The blocks are not gathered.
    #[error("gather {0}")]
    Gather(GatherFault),
    /// The thread of a worker didn't start, or what it told is wanting.
    #[error("no thread")]
    NoThread,
    /// A growth was refused, in a block or in gathering too.
    #[error("memory")]
    Memory,
}

impl RunFault {
    /// The number of the cause.
    pub fn number(self) -> u32
        ensures { result ≡ run_fault_number self }
    {
        match self {
            RunFault::Block(_) => 1,
            RunFault::Stalled { .. } => 2,
            RunFault::Gather(_) => 3,
            RunFault::NoThread => 4,
            RunFault::Memory => 5,
        }
    }
}

impl From<BlockFault> for RunFault {
    ghost from_gives = { λ block cause. cause ≡ fault_of_block block };

    fn from(block: BlockFault) -> RunFault {
        match block {
            BlockFault::Memory => RunFault::Memory,
            other => RunFault::Block(other),
        }
    }
}

impl From<GatherFault> for RunFault {
    ghost from_gives = { λ gathering cause. cause ≡ fault_of_gathering gathering };

    fn from(gathering: GatherFault) -> RunFault {
        match gathering {
            GatherFault::Memory => RunFault::Memory,
            other => RunFault::Gather(other),
        }
    }
}

impl From<AllocError> for RunFault {
    ghost from_gives = { λ _ cause. cause ≡ fault.Memory };

    fn from(_: AllocError) -> RunFault {
        RunFault::Memory
    }
}

impl<T: Drop> From<AllocFailed<T>> for RunFault {
    ghost from_gives = { λ _ cause. cause ≡ fault.Memory };

    fn from(_: AllocFailed<T>) -> RunFault {
        RunFault::Memory
    }
}
