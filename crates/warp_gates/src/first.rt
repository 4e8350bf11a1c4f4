//! What is kept of each place at first, where all values are unknown.
ghost use Rattle.std.specs.Prelude.{◌≡◌, ◌<◌, ◌∷◌, [], IfOk, length};
ghost use Rattle.warp_gates.specs.Cells.{cell_at};
ghost use Rattle.warp_gates.specs.Inner.Pins.{pins_of};
ghost use Rattle.warp_gates.specs.Inner.First.{first_pin, IsFirst, AreFirst};

use crate::front::Front;
use crate::pins::Pins;
use crate::wide::neutral;
use crate::wiring::Wiring;
use gate_values::{Kind, Logic};
use std::alloc::{AllocError, Global};

/// What is kept of all places. An error is a refused growth.
pub(crate) fn fronts_of(
    alloc: Global,
    wiring: &Wiring,
    queues: &[u32],
    contents: &[Logic],
) -> Result<Vec<Front>, AllocError>
    requires queues { length queues.now ≡ length wiring.now }
    requires contents { length contents.now ≡ length wiring.now }
    ensures { IfOk result (λ fronts. AreFirst wiring.now queues.now contents.now (length wiring.now) fronts.items) }
{
    let mut fronts = Vec::with_capacity(alloc, wiring.len())?;
    for place in 0..wiring.len() {
        fronts.push(first_front(wiring, place, queues[place], contents[place]))?;
    }
    Ok(fronts)
}

/// What is kept of a place.
fn first_front(wiring: &Wiring, place: usize, queue: u32, content: Logic) -> Front
    requires { place < length wiring.now }
    ensures { IsFirst (cell_at wiring.now place) queue content result }
{
    match wiring.kind(place) {
        Some(kind) => Front {
            queue,
            pins: first_pins(kind, wiring.inputs(place).len()),
            kind,
            output: Logic::X,
            is_stale: false,
        },
        None => Front {
            queue,
            pins: Pins::at(0),
            kind: Kind::Buff,
            output: content,
            is_stale: false,
        },
    }
}

/// The values at the pins of a gate with so many inputs.
fn first_pins(kind: Kind, inputs: usize) -> Pins
    ensures { pins_of result ≡ first_pin kind inputs 0 ∷ first_pin kind inputs 1 ∷ first_pin kind inputs 2 ∷ first_pin kind inputs 3 ∷ [] }
{
    Pins::at(0)
        .with(0, first_pin(kind, inputs, 0))
        .with(1, first_pin(kind, inputs, 1))
        .with(2, first_pin(kind, inputs, 2))
        .with(3, first_pin(kind, inputs, 3))
}

/// The value at a pin: unknown where there is an input, else one that changes no output.
fn first_pin(kind: Kind, inputs: usize, pin: usize) -> Logic
    ensures { result ≡ first_pin kind inputs pin }
{
    if pin < inputs {
        Logic::X
    } else {
        neutral(kind)
    }
}
