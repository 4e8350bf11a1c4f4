//! What gates put out, ready for each byte of inputs.
ghost use Rattle.std.specs.Prelude.{◌≡◌, ◌<◌, ◌/◌, ◌%◌, IfOk};
ghost use Rattle.gate_values.specs.Tables.{table_of};
ghost use Rattle.warp_gates.specs.Inner.Pins.{pins_of, pins_in};
ghost use Rattle.warp_gates.specs.Inner.Outputs.{number_of, kind_at, entry_at, AreOutputs};

use crate::pins::Pins;
use gate_values::{Kind, Logic, table};
use std::alloc::{AllocError, Global};

/// How many bytes there are.
const BYTES: usize = 256;

/// How many entries there are: for each kind of gate one a byte.
const ENTRIES: usize = 8 * BYTES;

/// What a gate of each kind puts out for each four inputs, so that a gate is evaluated by one look.
#[derive(Debug, Drop)]
pub(crate) struct Outputs {
    values: Vec<Logic>,
    ghost each: { AreOutputs values.items },
}

impl Outputs {
    /// Those of all gates. An error is a refused growth.
    pub(crate) fn new(alloc: Global) -> Result<Outputs, AllocError> {
        let mut values = Vec::with_capacity(alloc, ENTRIES)?;
        for entry in 0..ENTRIES {
            values.push(output(kind_at(entry / BYTES), Pins::at(entry % BYTES)))?;
        }
        Ok(Outputs { values })
    }

    /// What a gate puts out.
    #[inline]
    pub(crate) fn of(&self, kind: Kind, pins: Pins) -> Logic
        ensures { result ≡ table_of kind (pins_of pins) }
    {
        self.values[number_of(kind) * BYTES + pins.bits as usize]
    }
}

/// What a gate puts out for four inputs.
fn output(kind: Kind, pins: Pins) -> Logic
    ensures { result ≡ table_of kind (pins_of pins) }
{
    let inputs = pins.values();
    match kind {
        Kind::Not | Kind::Buff => table(kind, &inputs[..1]),
        _ => table(kind, &inputs),
    }
}

/// The number of a kind.
#[inline]
fn number_of(kind: Kind) -> usize
    ensures { result ≡ number_of kind }
{
    kind as usize
}

/// The kind of a number.
fn kind_at(number: usize) -> Kind
    ensures { result ≡ kind_at number }
{
    match number {
        0 => Kind::And,
        1 => Kind::Nand,
        2 => Kind::Or,
        3 => Kind::Nor,
        4 => Kind::Xor,
        5 => Kind::Xnor,
        6 => Kind::Not,
        _ => Kind::Buff,
    }
}
