ghost use Rattle.std.specs.Prelude.{ℕ, List, IfErr};
ghost use Rattle.gate_netlist.specs.Circuit.{Design};
ghost use Rattle.gate_vcd.specs.Stimulus.{reading_of};
ghost use Rattle.gate_vcd.specs.Refusals.{IsOfStimulus};

/// What is true of refusals: no stimulus text is refused for want of memory. So Memory is never the fault of
/// a text, and each other fault that the reader answers is.
pub fn refusal_laws()
    ensures { (text : List ℕ) (d : Design) → IfErr (reading_of text d) IsOfStimulus }
{}
