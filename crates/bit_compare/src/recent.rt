ghost use Rattle.std.specs.Prelude.{◌≡◌, Some, if◌then◌else◌};
ghost use Rattle.gate_values.specs.Changes.{same};

use gate_values::Logic;

/// Of each value the last stretch of a bit that has it, as far as the bit was followed.
#[derive(Clone, Copy, Debug)]
pub struct Recent {
    pub zero: Option<usize>,
    pub one: Option<usize>,
    pub x: Option<usize>,
    pub z: Option<usize>,
}

impl Recent {
    ghost use Rattle.bit_compare.specs.Inner.Cursors.{recent_of};
    ghost use Rattle.gate_values.specs.declared.logic.Logic.{Logic};

    /// No stretch yet.
    pub const NONE: Recent = Recent {
        zero: None,
        one: None,
        x: None,
        z: None,
    };

    /// The last stretch with a value.
    pub fn of(&self, value: Logic) -> Option<usize>
        ensures { result ≡ recent_of self.now value }
    {
        match value {
            Logic::Zero => self.zero,
            Logic::One => self.one,
            Logic::X => self.x,
            Logic::Z => self.z,
        }
    }

    /// A further stretch has the value.
    pub fn put(&mut self, value: Logic, stretch: usize)
        ensures { (v : Logic) → recent_of self.new v ≡ (if same v value then Some stretch else recent_of self.old v) }
    {
        match value {
            Logic::Zero => self.zero = Some(stretch),
            Logic::One => self.one = Some(stretch),
            Logic::X => self.x = Some(stretch),
            Logic::Z => self.z = Some(stretch),
        }
    }
}
