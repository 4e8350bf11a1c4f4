ghost use Rattle.std.specs.Prelude.{◌≡◌};
ghost use Rattle.gate_values.specs.Tables.{passed, inverted};

/// The value of a net at a time: the four values of IEEE 1364-2005, section 4.1.
#[derive(Clone, Copy, Debug, PartialEq, Eq)]
pub enum Logic {
    Zero,
    One,
    /// Unknown.
    X,
    /// High impedance. Only an input has it; a gate takes it as unknown.
    Z,
}

/// A net takes a value at a time. Times are in the stimulus's timescale.
#[derive(Clone, Copy, Debug, PartialEq, Eq)]
pub struct Change {
    pub time: u64,
    pub value: Logic,
}

/// What a buffer puts out, and what a flip-flop loads.
pub fn pass(value: Logic) -> Logic
    ensures { result ≡ passed value }
{
    match value {
        Logic::Z => Logic::X,
        _ => value,
    }
}

/// What an inverter puts out.
pub fn invert(value: Logic) -> Logic
    ensures { result ≡ inverted value }
{
    match value {
        Logic::Zero => Logic::One,
        Logic::One => Logic::Zero,
        _ => Logic::X,
    }
}
