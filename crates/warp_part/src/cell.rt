ghost use Rattle.std.specs.Prelude.{◌≡◌, ◌≤◌, ◌+◌, IfOk, length};
ghost use Rattle.warp_part.specs.Shown.Part.{stretch};

use gate_values::{Kind, Logic};
use std::alloc::AllocError;
use std::mem::size_of;

/// A stretch of a list, in 8 bytes.
#[derive(Clone, Copy, Debug, PartialEq, Eq)]
pub(crate) struct Span {
    start: u32,
    count: u32,
}

impl Span {
    /// A stretch from a place on. One that begins behind 2^32 others, or is longer, is refused as a growth is.
    pub(crate) fn new(start: usize, count: usize) -> Result<Span, AllocError>
        ensures { IfOk result (λ span. (span.start ≡ start) × (span.count ≡ count)) }
    {
        match (u32::try_from(start), u32::try_from(count)) {
            (Ok(start), Ok(count)) => Ok(Span { start, count }),
            _ => Err(AllocError),
        }
    }

    /// What stands there in a list.
    pub(crate) fn of(self, list: &[u32]) -> &[u32]
        requires { self.start + self.count ≤ length list.now }
        ensures { result.now ≡ stretch list.now self }
    {
        let start = self.start as usize;
        &list[start..start + self.count as usize]
    }
}

const _: () = prove!(size_of::<Cell>() <= 16);

/// What a net is to a block, in 16 bytes. Nets are meant by their places among the block's nets.
#[derive(Clone, Copy, Debug, PartialEq, Eq)]
pub(crate) enum Cell {
    /// An input of the circuit.
    Input,
    /// A net of another block.
    Foreign,
    /// A gate of the block of two inputs, with its pins.
    Pair {
        kind: Kind,
        delay: u32,
        pins: [u32; 2],
    },
    /// Another gate of the block, over a stretch of the block's pins.
    Gate {
        kind: Kind,
        delay: u32,
        pins: Span,
    },
    /// A flip-flop of the block, with the content that it begins with.
    Flop {
        init: Logic,
        delay: u32,
        d: u32,
        clock: u32,
    },
}
