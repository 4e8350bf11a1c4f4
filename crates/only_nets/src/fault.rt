ghost use Rattle.std.specs.Prelude.{◌≡◌, Some};
ghost use Rattle.only_nets.specs.Names.{out_of_memory, only_cause_number, only_cause_name};

use std::alloc::AllocError;
use std::error::Error;
use std::fmt;

/// Why a text of names is refused. Each cause has a number, which stays.
#[derive(Clone, Copy, Debug, PartialEq, Eq)]
pub enum OnlyCause {
    /// The line is no name of a net, and neither blank nor a comment.
    UnknownNet = 1,
    /// An earlier line names the net.
    NamedTwice = 2,
    /// A growth was refused.
    Memory = 3,
}

impl OnlyCause {
    /// The number of the cause.
    pub fn number(self) -> u32
        ensures { result ≡ only_cause_number self }
    {
        self as u32
    }

    /// The name of the cause.
    pub fn name(self) -> &'static str
        ensures { result.now ≡ only_cause_name self }
    {
        match self {
            OnlyCause::UnknownNet => "UnknownNet",
            OnlyCause::NamedTwice => "NamedTwice",
            OnlyCause::Memory => "Memory",
        }
    }
}

impl fmt::Display for OnlyCause {
    ghost output = { λ cause. Some (only_cause_name cause) };

    fn fmt<W: fmt::Write>(&self, f: &mut fmt::Formatter<W>) -> fmt::Result {
        f.write_str(self.name())
    }
}

impl Error for OnlyCause {}

/// Where and why a text of names is refused. Lines are counted from 1; want of memory has line 0.
#[derive(Clone, Copy, Debug, PartialEq, Eq, thiserror::Error)]
#[error("line {line}: {cause}")]
pub struct OnlyFault {
    pub line: u64,
    pub cause: OnlyCause,
}

impl From<AllocError> for OnlyFault {
    ghost from_gives = { λ _ fault. fault ≡ out_of_memory };

    fn from(_: AllocError) -> OnlyFault {
        OnlyFault {
            line: 0,
            cause: OnlyCause::Memory,
        }
    }
}
