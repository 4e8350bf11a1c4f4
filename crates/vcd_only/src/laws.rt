ghost use Rattle.std.specs.Prelude.{◌≡◌, ℕ, ◌<◌, ◌≤◌, Bool, true, List, length};
ghost use Rattle.gate_values.specs.declared.logic.Logic.{Logic};
ghost use Rattle.gate_stimulus.specs.declared.timescale.Timescale.{Timescale};
ghost use Rattle.vcd_dumps.specs.Dump.{dump_text};
ghost use Rattle.vcd_only.specs.Told.{is_told, told_text};

/// What is true of these texts: where each net is told it is the whole dump, and values that agree for the named nets up
/// to the horizon have the same text.
pub fn told_laws()
    ensures all { (told : List Bool) (top : List ℕ) (names : List (List ℕ)) (scale : Timescale) (f : ℕ → ℕ → Logic) (horizon : ℕ)
        → ((n : ℕ) → n < length names → is_told told n ≡ true)
        → told_text told top names scale f horizon ≡ dump_text top names scale f horizon }
    ensures agree { (told : List Bool) (top : List ℕ) (names : List (List ℕ)) (scale : Timescale) (f g : ℕ → ℕ → Logic) (horizon : ℕ)
        → ((n t : ℕ) → n < length names → t ≤ horizon → f n t ≡ g n t)
        → told_text told top names scale f horizon ≡ told_text told top names scale g horizon }
{}
