//! The values at a gate's inputs, in a byte.
ghost use Rattle.std.specs.Prelude.{◌≡◌, ◌<◌, slice_set};
ghost use Rattle.warp_stores.specs.Shown.Words.{code_of, value_of};
ghost use Rattle.warp_gates.specs.Inner.Pins.{pins_of, pins_in};

use gate_values::Logic;

/// How many inputs fit.
pub(crate) const PINS: u8 = 4;

/// The values at up to [`PINS`] inputs of a gate, the first in the lowest two bits.
#[derive(Clone, Copy, Debug)]
pub(crate) struct Pins {
    pub(crate) bits: u8,
}

impl Pins {
    /// Those of a byte.
    pub(crate) fn at(bits: usize) -> Pins
        requires { bits < 256 }
        ensures { result.bits ≡ bits }
    {
        Pins { bits: bits as u8 }
    }

    /// The same with another value at an input.
    #[inline]
    pub(crate) fn with(self, pin: u8, value: Logic) -> Pins
        requires { pin < PINS }
        ensures { pins_of result ≡ slice_set (pins_of self) pin value }
    {
        Pins {
            bits: put(self.bits, pin, value),
        }
    }

    /// The four values.
    pub(crate) fn values(self) -> [Logic; 4]
        ensures { result ≡ pins_of self }
    {
        [
            value(self.bits % 4),
            value(self.bits / 4 % 4),
            value(self.bits / 16 % 4),
            value(self.bits / 64 % 4),
        ]
    }
}

/// The bits with another value at an input.
#[inline]
fn put(bits: u8, pin: u8, value: Logic) -> u8
    requires { pin < PINS }
    ensures { pins_in result ≡ slice_set (pins_in bits) pin value }
{
    let shift = 2 * pin;
    let old = (bits >> shift) % 4 << shift;
    bits - old + (code(value) << shift)
}

/// A value in two bits.
#[inline]
fn code(value: Logic) -> u8
    ensures { result ≡ code_of value }
{
    value as u8
}

/// The value of two bits.
fn value(code: u8) -> Logic
    ensures { result ≡ value_of code }
{
    match code {
        0 => Logic::Zero,
        1 => Logic::One,
        2 => Logic::X,
        _ => Logic::Z,
    }
}
