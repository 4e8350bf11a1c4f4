ghost use Rattle.std.specs.Prelude.{◌≡◌, Some};
ghost use Rattle.warp_core.specs.Play.{play_fault_number, play_fault_name};

use std::error::Error;
use std::fmt;

/// What can happen in a [`World`](crate::World).
#[derive(Clone, Copy, Debug, PartialEq, Eq)]
pub enum Event {
    /// The message at this place of those in flight, counted from 0, reaches its block.
    Deliver { message: usize },
    /// A block finishes up to so many event times.
    Advance { block: u32, steps: u32 },
    /// All blocks commit what is below the least time.
    Commit,
}

/// Why an event is refused. Each cause has a number, which stays.
#[derive(Clone, Copy, Debug, PartialEq, Eq)]
pub enum PlayFault {
    /// There is no block of this number.
    NoSuchBlock = 1,
    /// There is no such place among the messages in flight.
    NoSuchMessage = 2,
    /// A growth was refused.
    Memory = 3,
}

impl PlayFault {
    /// The number of the cause.
    pub fn number(self) -> u32
        ensures { result ≡ play_fault_number self }
    {
        self as u32
    }

    /// The name of the cause.
    pub fn name(self) -> &'static str
        ensures { result.now ≡ play_fault_name self }
    {
        match self {
            PlayFault::NoSuchBlock => "NoSuchBlock",
            PlayFault::NoSuchMessage => "NoSuchMessage",
            PlayFault::Memory => "Memory",
        }
    }
}

impl fmt::Display for PlayFault {
    ghost output = { λ cause. Some (play_fault_name cause) };

    fn fmt<W: fmt::Write>(&self, f: &mut fmt::Formatter<W>) -> fmt::Result {
        f.write_str(self.name())
    }
}

impl Error for PlayFault {}
