//! The law of the marks of saved states.
ghost use Rattle.std.specs.Prelude.{◌≡◌, ◌-◌, ℕ, Bool, List};
ghost use Rattle.event_times.specs.declared.times.TheConstants.{SAVE_EVERY};
ghost use Rattle.event_times.specs.Marks.{AreTimes, AreSpaced, later_marks};

/// Where all busy times since the oldest saved state are event times, the marks are spaced.
pub fn are_spaced()
    ensures { (busy : ℕ → Bool) (first end : ℕ) (times : List ℕ) → AreTimes busy first end times → AreSpaced busy end first (later_marks (SAVE_EVERY - 1) times) }
{}
