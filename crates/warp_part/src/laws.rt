//! The laws of places that stand for nets.
ghost use Rattle.std.specs.Prelude.{◌≡◌, ◌<◌, ℕ, length};
ghost use Rattle.gate_values.specs.declared.logic.Logic.{Logic};
ghost use Rattle.gate_values.specs.Behaviour.{before};
ghost use Rattle.warp_part.specs.Portion.{Portion, IsPortion, source_of};
ghost use Rattle.warp_part.specs.Placing.{net_of_place, place_source, place_given};

/// The places of a portion show and hold what their nets do.
pub fn places_stand()
    ensures shown { (p : Portion) → IsPortion p → (given : ℕ → ℕ → Logic) (t i : ℕ) → i < length p.nets → (before (place_source p) (place_given p given) t).value i ≡ (before (source_of p) given t).value (net_of_place p i) }
    ensures held { (p : Portion) → IsPortion p → (given : ℕ → ℕ → Logic) (t i : ℕ) → i < length p.nets → (before (place_source p) (place_given p given) t).content i ≡ (before (source_of p) given t).content (net_of_place p i) }
{}
