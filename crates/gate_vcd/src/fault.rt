ghost use Rattle.std.specs.Prelude.{◌≡◌, Some};
ghost use Rattle.gate_vcd.specs.Faults.{stim_cause_name, stim_cause_number, stim_fault_text, out_of_memory};

use std::alloc::{AllocError, AllocFailed};
use std::error::Error;
use std::fmt;

/// Why a stimulus text is refused. Each cause has a number, which stays.
#[derive(Clone, Copy, Debug, PartialEq, Eq)]
pub enum StimCause {
    /// A token that may not stand there, or a change without its code.
    BadToken = 1,
    /// A command without its `$end`.
    UnclosedCommand = 2,
    /// A `$var` without type, size, code and reference.
    BadVar = 3,
    /// A `$timescale` that is no 1, 10 or 100 of a unit.
    BadTimescale = 4,
    /// A stamp below the one before.
    StampFalls = 5,
    /// A stamp above 10^18.
    StampTooLarge = 6,
    /// A change of a code that no `$var` has.
    UnknownCode = 7,
    /// No variable is named for an input.
    MissingInput = 8,
    /// Variables are named for an input, and none is a scalar of it.
    NotScalar = 9,
    /// A growth was refused.
    Memory = 10,
}

/// Where and why a stimulus text is refused: the offset of a token's first byte for the causes
/// `BadToken` to `UnknownCode`, the net's number for `MissingInput` and `NotScalar`, 0 for `Memory`.
#[derive(Clone, Copy, Debug, PartialEq, Eq)]
pub struct StimFault {
    pub at: u64,
    pub cause: StimCause,
}

impl StimCause {
    /// The number of the cause.
    pub fn number(self) -> u32
        ensures { result ≡ stim_cause_number self }
    {
        self as u32
    }

    /// The name of the cause.
    pub fn name(self) -> &'static str
        ensures { result.now ≡ stim_cause_name self }
    {
        match self {
            StimCause::BadToken => "BadToken",
            StimCause::UnclosedCommand => "UnclosedCommand",
            StimCause::BadVar => "BadVar",
            StimCause::BadTimescale => "BadTimescale",
            StimCause::StampFalls => "StampFalls",
            StimCause::StampTooLarge => "StampTooLarge",
            StimCause::UnknownCode => "UnknownCode",
            StimCause::MissingInput => "MissingInput",
            StimCause::NotScalar => "NotScalar",
            StimCause::Memory => "Memory",
        }
    }
}

impl fmt::Display for StimCause {
    ghost output = { λ cause. Some (stim_cause_name cause) };

    fn fmt<W: fmt::Write>(&self, f: &mut fmt::Formatter<W>) -> fmt::Result {
        f.write_str(self.name())
    }
}

impl fmt::Display for StimFault {
    ghost output = { λ fault. Some (stim_fault_text fault) };

    fn fmt<W: fmt::Write>(&self, f: &mut fmt::Formatter<W>) -> fmt::Result {
        let at = self.at;
        let cause = self.cause.name();
        write!(f, "at {at}: {cause}")
    }
}

impl Error for StimCause {}

impl Error for StimFault {}

impl StimFault {
    /// Want of memory.
    pub const MEMORY: StimFault = StimFault {
        at: 0,
        cause: StimCause::Memory,
    };
}

impl From<AllocError> for StimFault {
    ghost from_gives = { λ _ fault. fault ≡ out_of_memory };

    fn from(_: AllocError) -> StimFault {
        StimFault::MEMORY
    }
}

impl<T: Drop> From<AllocFailed<T>> for StimFault {
    ghost from_gives = { λ _ fault. fault ≡ out_of_memory };

    fn from(_: AllocFailed<T>) -> StimFault {
        StimFault::MEMORY
    }
}
