//! A change in four bytes.
ghost use Rattle.std.specs.Prelude.{◌≡◌, ◌<◌};
ghost use Rattle.warp_stores.specs.Shown.Words.{code_of, value_of};

use gate_values::Logic;
use std::marker::Model;

/// How many places a word can name.
pub const PLACES: u32 = 1 << 28;

/// How many values there are.
const VALUES: u32 = 4;

/// A change of a place, in four bytes: the place, the value before, and the value that it takes.
#[derive(Clone, Copy, Debug)]
pub struct Word {
    bits: u32,
}

impl Model for Word {
    ghost use Rattle.warp_stores.specs.Words.{Move};

    ghost Value = { Move };

    ghost use Rattle.warp_stores.specs.Shown.Words.{move_of, bits_of, bits_of-move_of};

    ghost view = { λ word. move_of word.bits };

    ghost inverse = { λ move. record { bits = bits_of move } };

    ghost inverse_ok = { λ word h. bits_of-move_of word };
}

impl Word {
    /// A place that had a value takes another.
    pub fn new(place: u32, before: Logic, after: Logic) -> Word
        requires { place < PLACES }
        ensures { result ≡ record { place = place; before = before; after = after } }
    {
        Word {
            bits: (place * VALUES + code(before)) * VALUES + code(after),
        }
    }

    /// The place.
    pub fn place(self) -> u32
        ensures place { result ≡ self.place }
        ensures within { result < PLACES }
    {
        self.bits / (VALUES * VALUES)
    }

    /// The value before.
    pub fn before(self) -> Logic
        ensures { result ≡ self.before }
    {
        value(self.bits / VALUES % VALUES)
    }

    /// The value that the place takes.
    pub fn after(self) -> Logic
        ensures { result ≡ self.after }
    {
        value(self.bits % VALUES)
    }

    /// The change back.
    pub fn undo(self) -> Word
        ensures { result ≡ record { place = self.place; before = self.after; after = self.before } }
    {
        Word {
            bits: (self.bits / (VALUES * VALUES) * VALUES + self.bits % VALUES) * VALUES
                + self.bits / VALUES % VALUES,
        }
    }
}

/// A value in two bits.
fn code(value: Logic) -> u32
    ensures code { result ≡ code_of value }
    ensures small { result < VALUES }
{
    match value {
        Logic::Zero => 0,
        Logic::One => 1,
        Logic::X => 2,
        Logic::Z => 3,
    }
}

/// The value of two bits.
fn value(code: u32) -> Logic
    ensures { result ≡ value_of code }
{
    match code {
        0 => Logic::Zero,
        1 => Logic::One,
        2 => Logic::X,
        _ => Logic::Z,
    }
}
