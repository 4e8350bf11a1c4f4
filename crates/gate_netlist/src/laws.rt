ghost use Rattle.std.specs.Prelude.{◌≡◌, ◌<◌, ℕ, List, Ok, Some, IfErr, IfSome};
ghost use Rattle.toml.specs.Data.{Members};
ghost use Rattle.gate_netlist.specs.Accepted.{Means};
ghost use Rattle.gate_netlist.specs.Bench.{bench_of};
ghost use Rattle.gate_netlist.specs.Causes.{cause_of};
ghost use Rattle.gate_netlist.specs.Circuit.{Design, IsCircuit, nets_of, name_of, net_of, source_of};
ghost use Rattle.gate_netlist.specs.Netlist.{Netlist};
ghost use Rattle.gate_values.specs.Behaviour.{IsWellFormed};
ghost use Rattle.gate_netlist.specs.Refusals.{IsOfBench, IsOfDocument};

/// What is true of refusals: no bench text and no settings document is refused for want of memory. So
/// Memory is never the fault of a text, and each other fault that a reader answers is.
pub fn refusal_laws()
    ensures bench { (text : List ℕ) → IfErr (bench_of text) IsOfBench }
    ensures settings { (b : Netlist) (document : Members) → IfSome (cause_of b document) IsOfDocument }
{}

/// What follows from what is true of every circuit: each net is found by its name, and what sets a net is
/// well-formed for the definition of values, with a delay of at least 1 and as many inputs as the kind of gate takes.
pub fn circuit_laws()
    ensures found { (d : Design) (n : ℕ) → IsCircuit d → n < nets_of d → net_of d (name_of d n) ≡ Some n }
    ensures sources { (d : Design) (n : ℕ) → IsCircuit d → IsWellFormed (source_of d n) }
{}

/// What an accepted bench text means, apart from why another is refused: each of its lines says a statement, and the nets
/// are those of the statements. So whoever reads what a text means need not read why texts are refused.
pub fn accepted_laws()
    ensures means { (text : List ℕ) (netlist : Netlist) → bench_of text ≡ Ok netlist → Means text netlist }
    ensures once { (text : List ℕ) (m n : Netlist) → Means text m → Means text n → m ≡ n }
{}
