ghost use Rattle.std.specs.Prelude.{◌≡◌, Some};
ghost use Rattle.warp_core.specs.Schedule.{out_of_memory, schedule_cause_number, schedule_cause_name};

use std::alloc::AllocError;
use std::error::Error;
use std::fmt;

/// Why a schedule text is refused. Each cause has a number, which stays.
#[derive(Clone, Copy, Debug, PartialEq, Eq)]
pub enum ScheduleCause {
    /// The line is no event, and neither without words nor a comment.
    BadLine = 1,
    /// A number is above 4,294,967,295.
    NumberTooLarge = 2,
    /// A growth was refused.
    Memory = 3,
}

impl ScheduleCause {
    /// The number of the cause.
    pub fn number(self) -> u32
        ensures { result ≡ schedule_cause_number self }
    {
        self as u32
    }

    /// The name of the cause.
    pub fn name(self) -> &'static str
        ensures { result.now ≡ schedule_cause_name self }
    {
        match self {
            ScheduleCause::BadLine => "BadLine",
            ScheduleCause::NumberTooLarge => "NumberTooLarge",
            ScheduleCause::Memory => "Memory",
        }
    }
}

impl fmt::Display for ScheduleCause {
    ghost output = { λ cause. Some (schedule_cause_name cause) };

    fn fmt<W: fmt::Write>(&self, f: &mut fmt::Formatter<W>) -> fmt::Result {
        f.write_str(self.name())
    }
}

impl Error for ScheduleCause {}

/// Where and why a schedule text is refused. Lines are counted from 1; want of memory has line 0.
#[derive(Clone, Copy, Debug, PartialEq, Eq, thiserror::Error)]
#[error("line {line}: {cause}")]
pub struct ScheduleFault {
    pub line: u64,
    pub cause: ScheduleCause,
}

impl From<AllocError> for ScheduleFault {
    ghost from_gives = { λ _ fault. fault ≡ out_of_memory };

    fn from(_: AllocError) -> ScheduleFault {
        ScheduleFault {
            line: 0,
            cause: ScheduleCause::Memory,
        }
    }
}
