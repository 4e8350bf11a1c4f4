ghost use Rattle.std.specs.Prelude.{◌≡◌};
ghost use Rattle.gate_values.specs.Tables.{flip_of, kept};

use crate::logic::{Logic, pass};

/// The content of a flip-flop after a moment: from its content before, its clock just before the moment
/// and at it, and its data just before.
///
/// It loads on a rising edge of the clock. On an edge that may be one (to or from unknown) it keeps its
/// content if that is what it would load, and becomes unknown if not.
#[tactic(auto, unfolding(crate::specs::Tables::flip_of))]
pub fn flip(content: Logic, clk_before: Logic, clk_now: Logic, d: Logic) -> Logic
    ensures { result ≡ flip_of content clk_before clk_now d }
{
    match (clk_before, clk_now) {
        (Logic::Zero, Logic::One) => pass(d),
        (Logic::Zero, Logic::X | Logic::Z) | (Logic::X | Logic::Z, Logic::One) => {
            keep(content, pass(d))
        }
        _ => content,
    }
}

/// The content after an edge that may load.
fn keep(content: Logic, loaded: Logic) -> Logic
    ensures { result ≡ kept content loaded }
{
    match (content, loaded) {
        (Logic::Zero, Logic::Zero) => Logic::Zero,
        (Logic::One, Logic::One) => Logic::One,
        _ => Logic::X,
    }
}
