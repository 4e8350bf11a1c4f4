//! The law of places that stand for nets.
ghost use Rattle.std.specs.Prelude.{◌≡◌, ◌<◌, ℕ};
ghost use Rattle.gate_values.specs.declared.logic.Logic.{Logic};
ghost use Rattle.gate_values.specs.Behaviour.{Source, before};
ghost use Rattle.place_names.specs.Names.{StandForNets};

/// Places that stand for nets show and hold at each moment what these do.
pub fn stands_for_nets()
    ensures values { (count : ℕ) (net : ℕ → ℕ) (source other : ℕ → Source) (given given' : ℕ → ℕ → Logic) → StandForNets count net source other given given'
        → (place time : ℕ) → place < count → (before source given time).value place ≡ (before other given' time).value (net place) }
    ensures contents { (count : ℕ) (net : ℕ → ℕ) (source other : ℕ → Source) (given given' : ℕ → ℕ → Logic) → StandForNets count net source other given given'
        → (place time : ℕ) → place < count → (before source given time).content place ≡ (before other given' time).content (net place) }
{}
