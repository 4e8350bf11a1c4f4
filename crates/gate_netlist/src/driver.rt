use crate::nets::Nets;
use gate_values::{Kind, Logic};

/// What sets a net. A delay is not part of it.
#[derive(Debug, Drop)]
pub enum Driver {
    /// The stimulus.
    Input,
    /// A gate over these nets: one for `Not` and `Buff`, one or more for the others; a net may repeat.
    Gate { kind: Kind, inputs: Nets },
    /// A flip-flop with its data net, its clock, and the content that it begins with.
    Flop { d: u32, clock: u32, init: Logic },
}
