ghost use Rattle.std.specs.Prelude.{◌≡◌, Some};
ghost use Rattle.gate_netlist.specs.Faults.{bench_cause_number, bench_cause_name, settings_fault_number, settings_fault_name, bench_fault_text, out_of_memory};
ghost use Rattle.gate_netlist.specs.declared.fault.BenchCause.TheVariants as bench;
ghost use Rattle.gate_netlist.specs.declared.fault.SettingsFault.TheVariants as settings;

use std::alloc::{AllocError, AllocFailed};
use std::error::Error;
use std::fmt;

/// Why a bench text is refused. Each cause has a number, which stays.
#[derive(Clone, Copy, Debug, PartialEq, Eq)]
pub enum BenchCause {
    /// The line has none of the forms.
    BadLine = 1,
    /// A byte that may not stand outside a comment, or the word `$end`.
    BadName = 2,
    /// The word before the inputs is no gate.
    UnknownGate = 3,
    /// The gate doesn't take so many inputs.
    InputCount = 4,
    /// An earlier line defines the net.
    DrivenTwice = 5,
    /// No line defines a net that this line uses.
    Undriven = 6,
    /// The line would define the 1,000,000th net.
    TooManyNets = 7,
    /// A growth was refused.
    Memory = 8,
}

/// Where and why a bench text is refused. Lines are counted from 1; want of memory has line 0.
#[derive(Clone, Copy, Debug, PartialEq, Eq)]
pub struct BenchFault {
    pub line: u64,
    pub cause: BenchCause,
}

/// Why a settings text is refused: of the causes that apply, the one with the least number. 5 was the number of a
/// cause that is no more.
#[derive(Clone, Copy, Debug, PartialEq, Eq)]
pub enum SettingsFault {
    /// The text is no TOML document.
    Toml = 1,
    /// A key that isn't listed, `clock` or `scope` that is no text, or one of `gate`, `net`, `block`, `clocks` and
    /// `init` that is no table.
    UnknownKey = 2,
    /// A key of `net` or `block` that names no net, or names an input, or one of `clocks` or `init` that names no
    /// flip-flop.
    UnknownNet = 3,
    /// A delay that is no whole number from 1 to 1,000,000.
    BadDelay = 4,
    /// A block number that is no whole number from 0 to 1023.
    BadCut = 6,
    /// A growth was refused.
    Memory = 7,
    /// A flip-flop's clock has the name of no net, and it isn't a name that `clock` gives, or a value of `clocks` is
    /// no text.
    BadClock = 8,
    /// A content that isn't the text `0`, `1` or `x`.
    BadInit = 9,
}

impl BenchCause {
    /// The number of the cause.
    pub fn number(self) -> u32
        ensures { result ≡ bench_cause_number self }
    {
        self as u32
    }

    /// The name of the cause.
    pub fn name(self) -> &'static str
        ensures { result.now ≡ bench_cause_name self }
    {
        match self {
            BenchCause::BadLine => "BadLine",
            BenchCause::BadName => "BadName",
            BenchCause::UnknownGate => "UnknownGate",
            BenchCause::InputCount => "InputCount",
            BenchCause::DrivenTwice => "DrivenTwice",
            BenchCause::Undriven => "Undriven",
            BenchCause::TooManyNets => "TooManyNets",
            BenchCause::Memory => "Memory",
        }
    }
}

impl SettingsFault {
    /// The number of the cause.
    pub fn number(self) -> u32
        ensures { result ≡ settings_fault_number self }
    {
        self as u32
    }

    /// The name of the cause.
    pub fn name(self) -> &'static str
        ensures { result.now ≡ settings_fault_name self }
    {
        match self {
            SettingsFault::Toml => "Toml",
            SettingsFault::UnknownKey => "UnknownKey",
            SettingsFault::UnknownNet => "UnknownNet",
            SettingsFault::BadDelay => "BadDelay",
            SettingsFault::BadCut => "BadCut",
            SettingsFault::Memory => "Memory",
            SettingsFault::BadClock => "BadClock",
            SettingsFault::BadInit => "BadInit",
        }
    }
}

impl fmt::Display for BenchCause {
    ghost output = { λ cause. Some (bench_cause_name cause) };

    fn fmt<W: fmt::Write>(&self, f: &mut fmt::Formatter<W>) -> fmt::Result {
        f.write_str(self.name())
    }
}

impl fmt::Display for SettingsFault {
    ghost output = { λ fault. Some (settings_fault_name fault) };

    fn fmt<W: fmt::Write>(&self, f: &mut fmt::Formatter<W>) -> fmt::Result {
        f.write_str(self.name())
    }
}

impl fmt::Display for BenchFault {
    ghost output = { λ fault. Some (bench_fault_text fault) };

    fn fmt<W: fmt::Write>(&self, f: &mut fmt::Formatter<W>) -> fmt::Result {
        let line = self.line;
        let cause = self.cause.name();
        write!(f, "line {line}: {cause}")
    }
}

impl Error for BenchCause {}

impl Error for SettingsFault {}

impl Error for BenchFault {}

impl BenchFault {
    /// Want of memory.
    pub const MEMORY: BenchFault = BenchFault {
        line: 0,
        cause: BenchCause::Memory,
    };
}

impl From<AllocError> for BenchFault {
    ghost from_gives = { λ _ fault. fault ≡ out_of_memory };

    fn from(_: AllocError) -> BenchFault {
        BenchFault::MEMORY
    }
}

impl<T: Drop> From<AllocFailed<T>> for BenchFault {
    ghost from_gives = { λ _ fault. fault ≡ out_of_memory };

    fn from(_: AllocFailed<T>) -> BenchFault {
        BenchFault::MEMORY
    }
}

impl From<AllocError> for SettingsFault {
    ghost from_gives = { λ _ fault. fault ≡ settings.Memory };

    fn from(_: AllocError) -> SettingsFault {
        SettingsFault::Memory
    }
}

impl<T: Drop> From<AllocFailed<T>> for SettingsFault {
    ghost from_gives = { λ _ fault. fault ≡ settings.Memory };

    fn from(_: AllocFailed<T>) -> SettingsFault {
        SettingsFault::Memory
    }
}

impl From<AllocError> for BenchCause {
    ghost from_gives = { λ _ cause. cause ≡ bench.Memory };

    fn from(_: AllocError) -> BenchCause {
        BenchCause::Memory
    }
}

impl<T: Drop> From<AllocFailed<T>> for BenchCause {
    ghost from_gives = { λ _ cause. cause ≡ bench.Memory };

    fn from(_: AllocFailed<T>) -> BenchCause {
        BenchCause::Memory
    }
}
