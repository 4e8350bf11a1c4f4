ghost use Rattle.std.specs.Prelude.{◌≡◌, ◌<◌, ◌≤◌, ◌^◌};
ghost use Rattle.gate_stimulus.specs.Given.{changes_of};
ghost use Rattle.bit_compare.specs.Agreement.{IsFinding};
ghost use Rattle.bit_compare.specs.Bits.{value_through};
ghost use Rattle.vcd_compare.specs.Inner.Sights.{IsSmallSight, actual_through, expected_through};

use bit_compare::{Difference, Shown, Times, Tolerance, first_difference};
use gate_stimulus::Stimulus;

/// How two dumps are looked at, in the common unit of time.
#[derive(Clone, Copy, Debug)]
pub struct Sight {
    pub times: Times,
    pub how: Tolerance,
    /// How many units a time of the dump that is expected counts, and one of the other dump.
    pub scale: u64,
    pub own: u64,
    /// How much later, or earlier, the other dump is looked at.
    pub later: u128,
    pub earlier: u128,
}

impl Sight {
    /// Where the pair of a number first differs.
    pub fn difference(
        &self,
        expected: &Stimulus,
        actual: &Stimulus,
        pair: u32,
    ) -> Option<Difference>
        requires { IsSmallSight self.now }
        ensures { IsFinding self.now.how self.now.times (value_through (expected_through self.now) (changes_of expected.now pair)) (value_through (actual_through self.now) (changes_of actual.now pair)) result }
    {
        expected.law();
        actual.law();
        let shown = Shown::new(expected.changes(pair), self.scale, 0, 0);
        let looked = Shown::new(actual.changes(pair), self.own, self.later, self.earlier);
        first_difference(&self.how, &self.times, &shown, &looked)
    }
}
