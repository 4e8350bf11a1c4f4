use crate::nets::Nets;
use crate::seed::TextSeed;
use gate_values::Kind;
use indexmap::IndexSet;
use std::marker::Model;

/// The names of nets, in the order of their defining lines.
pub(crate) type Names = IndexSet<String, TextSeed>;

/// What a net's line says that sets it. The clock of a flip-flop isn't written in a bench text.
#[derive(Debug, Drop)]
pub enum Definition {
    Input,
    Gate { kind: Kind, inputs: Nets },
    Flop { d: u32 },
}

/// A bench text, read: its nets in the order of their defining lines, and the nets marked as outputs.
#[derive(Drop)]
pub struct Bench {
    pub(crate) names: Names,
    pub(crate) definitions: Vec<Definition>,
    pub(crate) outputs: Vec<u32>,
}

impl Model for Bench {
    ghost use Rattle.gate_netlist.specs.Netlist.{Netlist};
    ghost use Rattle.gate_netlist.specs.Inner.Netlist.{IsNetlist};

    ghost Value = { Netlist };

    ghost use Rattle.gate_netlist.specs.HeldBench.{bench_netlist};

    ghost view = { bench_netlist };

    ghost invariant = { λ b. IsNetlist (bench_netlist b) };
}
