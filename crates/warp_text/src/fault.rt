//! Why a run or a replay ends without a dump.
ghost use Rattle.std.specs.Prelude.{◌≡◌, Some};
ghost use Rattle.warp_text.specs.FaultLines.{
  place_word,
  fault_line,
  status_of,
  bench_fault,
  settings_fault,
  stimulus_fault,
  schedule_fault,
  only_fault,
  run_fault,
};
ghost use Rattle.warp_text.specs.declared.fault.Fault.TheVariants as faults;

use gate_netlist::{BenchCause, BenchFault, SettingsFault};
use gate_vcd::{StimCause, StimFault};
use only_nets::{OnlyCause, OnlyFault};
use std::alloc::AllocError;
use std::fmt;
use warp_block::BlockFault;
use warp_core::{GatherFault, PlayFault, ScheduleCause, ScheduleFault};
use warp_rounds::RunFault;

/// Why a run or a replay ends without a dump: the text that is refused, with its fault, the names of nets that are told
/// among them; the fault of the run itself; the
/// event that is refused, by its number from 1, or that a schedule leaves something to do, at a time in the stimulus's
/// timescale; or want of memory, whatever part wanted it.
#[derive(Clone, Copy, Debug, PartialEq, Eq)]
pub enum Fault {
    Bench(BenchFault),
    Settings(SettingsFault),
    Only(OnlyFault),
    Stimulus(StimFault),
    Schedule(ScheduleFault),
    Run(RunFault),
    Event { number: u64, cause: PlayFault },
    Unfinished { time: u64 },
    Memory,
}

impl Fault {
    /// The program's exit status: 1 for a refused text, 3 for a run or a replay that comes to no dump, and for want of
    /// memory.
    pub fn status(&self) -> u8
        ensures { result ≡ status_of self.now }
    {
        match self {
            Fault::Bench(_) | Fault::Settings(_) | Fault::Only(_) => 1,
            Fault::Stimulus(_) | Fault::Schedule(_) => 1,
            Fault::Run(_) | Fault::Event { .. } | Fault::Unfinished { .. } => 3,
            Fault::Memory => 3,
        }
    }
}

/// What the number of a stimulus fault counts: bytes of the text up to a token, or nets.
fn place_name(cause: StimCause) -> &'static str
    ensures { result.now ≡ place_word cause }
{
    match cause {
        StimCause::MissingInput | StimCause::NotScalar => "net",
        _ => "at",
    }
}

/// The fault's line on standard error, without its end.
impl fmt::Display for Fault {
    ghost output = { λ f. Some (fault_line f) };

    fn fmt<W: fmt::Write>(&self, f: &mut fmt::Formatter<W>) -> fmt::Result {
        match self {
            Fault::Bench(fault) => {
                let line = fault.line;
                let cause = fault.cause.name();
                write!(f, "bench line {line}: {cause}")
            }
            Fault::Settings(fault) => {
                let cause = fault.name();
                write!(f, "settings: {cause}")
            }
            Fault::Only(fault) => {
                let line = fault.line;
                let cause = fault.cause.name();
                write!(f, "only line {line}: {cause}")
            }
            Fault::Stimulus(fault) => {
                let place = place_name(fault.cause);
                let at = fault.at;
                let cause = fault.cause.name();
                write!(f, "stimulus {place} {at}: {cause}")
            }
            Fault::Schedule(fault) => {
                let line = fault.line;
                let cause = fault.cause.name();
                write!(f, "schedule line {line}: {cause}")
            }
            Fault::Run(RunFault::Block(block)) => {
                let cause = block.name();
                write!(f, "run: block {cause}")
            }
            Fault::Run(RunFault::Stalled { time }) => write!(f, "run: stalled at {time}"),
            Fault::Run(RunFault::Gather(gathering)) => {
                let cause = gathering.name();
                write!(f, "run: gather {cause}")
            }
            Fault::Run(RunFault::NoThread) => f.write_str("run: no thread"),
            Fault::Event { number, cause } => {
                let cause = cause.name();
                write!(f, "event {number}: {cause}")
            }
            Fault::Unfinished { time } => write!(f, "unfinished at {time}"),
            Fault::Run(RunFault::Memory) | Fault::Memory => f.write_str("memory"),
        }
    }
}

impl std::error::Error for Fault {}

impl From<BenchFault> for Fault {
    ghost from_gives = { λ part fault. fault ≡ bench_fault part };

    fn from(fault: BenchFault) -> Fault {
        match fault.cause {
            BenchCause::Memory => Fault::Memory,
            _ => Fault::Bench(fault),
        }
    }
}

impl From<SettingsFault> for Fault {
    ghost from_gives = { λ part fault. fault ≡ settings_fault part };

    fn from(fault: SettingsFault) -> Fault {
        match fault {
            SettingsFault::Memory => Fault::Memory,
            _ => Fault::Settings(fault),
        }
    }
}

impl From<OnlyFault> for Fault {
    ghost from_gives = { λ part fault. fault ≡ only_fault part };

    fn from(fault: OnlyFault) -> Fault {
        match fault.cause {
            OnlyCause::Memory => Fault::Memory,
            _ => Fault::Only(fault),
        }
    }
}

impl From<StimFault> for Fault {
    ghost from_gives = { λ part fault. fault ≡ stimulus_fault part };

    fn from(fault: StimFault) -> Fault {
        match fault.cause {
            StimCause::Memory => Fault::Memory,
            _ => Fault::Stimulus(fault),
        }
    }
}

impl From<ScheduleFault> for Fault {
    ghost from_gives = { λ part fault. fault ≡ schedule_fault part };

    fn from(fault: ScheduleFault) -> Fault {
        match fault.cause {
            ScheduleCause::Memory => Fault::Memory,
            _ => Fault::Schedule(fault),
        }
    }
}

impl From<RunFault> for Fault {
    ghost from_gives = { λ part fault. fault ≡ run_fault part };

    fn from(fault: RunFault) -> Fault {
        match fault {
            RunFault::Memory
            | RunFault::Block(BlockFault::Memory)
            | RunFault::Gather(GatherFault::Memory) => Fault::Memory,
            _ => Fault::Run(fault),
        }
    }
}

impl From<AllocError> for Fault {
    ghost from_gives = { λ _ fault. fault ≡ faults.Memory };

    fn from(_: AllocError) -> Fault {
        Fault::Memory
    }
}
