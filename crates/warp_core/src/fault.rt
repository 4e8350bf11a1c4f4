ghost use Rattle.std.specs.Prelude.{◌≡◌, Some};
ghost use Rattle.warp_core.specs.declared.fault.GatherFault.TheVariants as fault;
ghost use Rattle.warp_core.specs.Gather.{gather_fault_number, gather_fault_name};

use std::alloc::AllocError;
use std::error::Error;
use std::fmt;

/// Why blocks aren't gathered. Of the causes that apply the first in this order is answered, and of one cause the
/// first by block, then by net, then by time. Each has a number, its place in this order from 1, which stays. Only `Memory` may stand in place of one before it, except `WrongCount`.
/// Times are in the stimulus's timescale.
#[derive(Clone, Copy, Debug, PartialEq, Eq)]
pub enum GatherFault {
    /// There are more or fewer blocks than the cut has.
    WrongCount,
    /// The block is of another part, or goes up to another horizon.
    WrongPart { block: u32 },
    /// The block has an event time left.
    Unfinished { block: u32 },
    /// The block's entry of the net at the time is neither empty nor one single message.
    Unsettled { block: u32, net: u32, time: u64 },
    /// The messages that stand at the block for the net aren't what its owner, or the stimulus, says.
    Mismatch { block: u32, net: u32 },
    /// A growth was refused.
    Memory,
}

impl GatherFault {
    /// The number of the cause.
    pub fn number(self) -> u32
        ensures { result ≡ gather_fault_number self }
    {
        match self {
            GatherFault::WrongCount => 1,
            GatherFault::WrongPart { .. } => 2,
            GatherFault::Unfinished { .. } => 3,
            GatherFault::Unsettled { .. } => 4,
            GatherFault::Mismatch { .. } => 5,
            GatherFault::Memory => 6,
        }
    }

    /// The name of the cause.
    pub fn name(self) -> &'static str
        ensures { result.now ≡ gather_fault_name self }
    {
        match self {
            GatherFault::WrongCount => "WrongCount",
            GatherFault::WrongPart { .. } => "WrongPart",
            GatherFault::Unfinished { .. } => "Unfinished",
            GatherFault::Unsettled { .. } => "Unsettled",
            GatherFault::Mismatch { .. } => "Mismatch",
            GatherFault::Memory => "Memory",
        }
    }
}

impl fmt::Display for GatherFault {
    ghost output = { λ cause. Some (gather_fault_name cause) };

    fn fmt<W: fmt::Write>(&self, f: &mut fmt::Formatter<W>) -> fmt::Result {
        f.write_str(self.name())
    }
}

impl Error for GatherFault {}

impl From<AllocError> for GatherFault {
    ghost from_gives = { λ _ cause. cause ≡ fault.Memory };

    fn from(_: AllocError) -> GatherFault {
        GatherFault::Memory
    }
}
