ghost use Rattle.std.specs.Prelude.{◌≡◌};
ghost use Rattle.gate_stimulus.specs.Timescales.{unit_name};

/// A unit of time.
#[derive(Clone, Copy, Debug, PartialEq, Eq)]
pub enum Unit {
    S,
    Ms,
    Us,
    Ns,
    Ps,
    Fs,
}

/// How long one unit of a dump's times is: 1, 10 or 100 of a unit (IEEE 1364-2005, section 18.2.3.9).
#[derive(Clone, Copy, Debug, PartialEq, Eq)]
pub struct Timescale {
    pub number: u8,
    pub unit: Unit,
}

impl Unit {
    /// The unit's name in a dump.
    pub fn name(self) -> &'static str
        ensures { result.now ≡ unit_name self }
    {
        match self {
            Unit::S => "s",
            Unit::Ms => "ms",
            Unit::Us => "us",
            Unit::Ns => "ns",
            Unit::Ps => "ps",
            Unit::Fs => "fs",
        }
    }
}
