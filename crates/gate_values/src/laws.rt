ghost use Rattle.std.specs.Prelude.{◌≡◌, ℕ, ◌<◌};
ghost use Rattle.gate_values.specs.declared.logic.Logic.{Logic};
ghost use Rattle.gate_values.specs.Behaviour.{Source, value, source_delay, initial_of, IsWellFormed};

/// Before one delay has passed, a net that a gate sets is unknown, and one that a flip-flop sets has the
/// content that the flip-flop begins with.
pub fn initial_before_delay()
    ensures { (source : ℕ → Source) (given : ℕ → ℕ → Logic) (n t : ℕ)
        → IsWellFormed (source n) → t < source_delay (source n) → value source given n t ≡ initial_of (source n) }
{}
