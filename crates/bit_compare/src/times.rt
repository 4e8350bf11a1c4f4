ghost use Rattle.std.specs.Prelude.{◌≡◌, ◌≤◌, ◌<◌, ◌^◌, ◌+◌, ℕ, MatchOption};
ghost use Rattle.bit_compare.specs.Agreement.{IsCompared};
ghost use Rattle.bit_compare.specs.Inner.Steps.{IsStep};
ghost use Rattle.bit_compare.specs.Shown.Steps.{AreSmall, IsNext};

/// The times that are compared: from `from` to `to`, those that `step` leads to from `start` on.
#[derive(Clone, Copy, Debug, PartialEq, Eq)]
pub struct Times {
    pub from: u128,
    pub to: u128,
    pub start: u128,
    pub step: u128,
}

impl Times {
    /// The first step that isn't below a time.
    fn step_from(&self, low: u128) -> u128
        requires small { AreSmall self.now }
        requires low { low < 2 ^ 126 }
        ensures { IsStep self.now low result }
    {
        if low <= self.start {
            return self.start;
        }
        let past = (low - self.start) % self.step;
        if past == 0 {
            low
        } else {
            low + (self.step - past)
        }
    }

    /// The first compared time that isn't below a time.
    pub fn next(&self, low: u128) -> Option<u128>
        requires { AreSmall self.now }
        ensures { IsNext self.now low result }
    {
        let low = if low < self.from { self.from } else { low };
        if low > self.to {
            return None;
        }
        let time = self.step_from(low);
        if time <= self.to { Some(time) } else { None }
    }
}
