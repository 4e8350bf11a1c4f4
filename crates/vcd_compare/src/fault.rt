ghost use Rattle.std.specs.Prelude.{◌≡◌, Some};
ghost use Rattle.vcd_compare.specs.Comparison.{out_of_memory};
ghost use Rattle.vcd_compare.specs.Map.{map_cause_name, map_cause_number};
ghost use Rattle.vcd_compare.specs.FaultLines.{compare_fault_line, compare_fault_status};

use gate_vcd::StimFault;
use std::alloc::{AllocError, AllocFailed};
use std::error::Error;
use std::fmt;

/// Why a text that pairs bits is refused. Each cause has a number, which stays.
#[derive(Clone, Copy, Debug, PartialEq, Eq)]
pub enum MapCause {
    /// The line isn't two names, and says something.
    BadLine = 1,
    /// A name is of no bit of its dump.
    UnknownName = 2,
    /// An earlier line names the bit that is expected.
    NamedTwice = 3,
}

impl MapCause {
    /// The number of the cause.
    pub fn number(self) -> u32
        ensures { result ≡ map_cause_number self }
    {
        self as u32
    }

    /// The name of the cause.
    pub fn name(self) -> &'static str
        ensures { result.now ≡ map_cause_name self }
    {
        match self {
            MapCause::BadLine => "BadLine",
            MapCause::UnknownName => "UnknownName",
            MapCause::NamedTwice => "NamedTwice",
        }
    }
}

/// Where and why a text that pairs bits is refused. Lines are counted from 1.
#[derive(Clone, Copy, Debug, PartialEq, Eq)]
pub struct MapFault {
    pub line: u64,
    pub cause: MapCause,
}

/// Why two dumps aren't compared.
#[derive(Clone, Copy, Debug, PartialEq, Eq)]
pub enum CompareFault {
    /// The dump that is expected has a fault.
    Expected(StimFault),
    /// The other one has a fault.
    Actual(StimFault),
    /// The text that pairs their bits has a fault.
    Map(MapFault),
    /// No pair of bits, or no time, to compare.
    Nothing,
    /// A growth was refused.
    Memory,
}

impl CompareFault {
    /// The status that a program ends with: 1 where the texts are at fault, 3 for want of memory.
    pub fn status(&self) -> u8
        ensures { result ≡ compare_fault_status self.now }
    {
        match self {
            CompareFault::Expected(_) | CompareFault::Actual(_) => 1,
            CompareFault::Map(_) | CompareFault::Nothing => 1,
            CompareFault::Memory => 3,
        }
    }
}

/// The fault's line on standard error, without its end.
impl fmt::Display for CompareFault {
    ghost output = { λ fault. Some (compare_fault_line fault) };

    fn fmt<W: fmt::Write>(&self, f: &mut fmt::Formatter<W>) -> fmt::Result {
        match self {
            CompareFault::Expected(fault) => write!(f, "expected {fault}"),
            CompareFault::Actual(fault) => write!(f, "actual {fault}"),
            CompareFault::Map(fault) => {
                let line = fault.line;
                let cause = fault.cause.name();
                write!(f, "map line {line}: {cause}")
            }
            CompareFault::Nothing => f.write_str("nothing to compare"),
            CompareFault::Memory => f.write_str("memory"),
        }
    }
}

impl Error for CompareFault {}

impl From<AllocError> for CompareFault {
    ghost from_gives = { λ _ fault. fault ≡ out_of_memory };

    fn from(_: AllocError) -> CompareFault {
        CompareFault::Memory
    }
}

impl<T: Drop> From<AllocFailed<T>> for CompareFault {
    ghost from_gives = { λ _ fault. fault ≡ out_of_memory };

    fn from(_: AllocFailed<T>) -> CompareFault {
        CompareFault::Memory
    }
}
