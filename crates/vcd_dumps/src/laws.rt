ghost use Rattle.std.specs.Prelude.{◌≡◌, ℕ, ◌+◌, ◌<◌, ◌≤◌, List, length};
ghost use Rattle.gate_values.specs.declared.logic.Logic.{Logic};
ghost use Rattle.gate_values.specs.declared.logic.Change.{Change};
ghost use Rattle.gate_values.specs.Changes.{changes};
ghost use Rattle.gate_stimulus.specs.declared.timescale.Timescale.{Timescale};
ghost use Rattle.net_waves.specs.Waves.{wave_of, wave_value};
ghost use Rattle.vcd_dumps.specs.Dump.{dump_text};

/// What is true of dumps: values that agree for the named nets up to the horizon have the same dump, and
/// the dump of waves is that of the values whose changes they are.
pub fn dump_laws()
    ensures agree { (top : List ℕ) (names : List (List ℕ)) (scale : Timescale) (f g : ℕ → ℕ → Logic) (horizon : ℕ)
        → ((n t : ℕ) → n < length names → t ≤ horizon → f n t ≡ g n t)
        → dump_text top names scale f horizon ≡ dump_text top names scale g horizon }
    ensures waves { (top : List ℕ) (names : List (List ℕ)) (scale : Timescale) (lists : List (List Change)) (f : ℕ → ℕ → Logic) (horizon : ℕ)
        → ((n : ℕ) → n < length names → wave_of lists n ≡ changes (f n) (horizon + 1))
        → dump_text top names scale (wave_value lists) horizon ≡ dump_text top names scale f horizon }
{}
