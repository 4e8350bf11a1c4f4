//! What the tests build of texts, and the circuit of two buffers, an AND and a NOT.
ghost use Rattle.std.specs.Prelude.{◌≤◌, IfOk, OnOk};
ghost use Rattle.gate_netlist.specs.Circuit.{CutFits};
ghost use Rattle.gate_stimulus.specs.Given.{Fits};

use Logic::{One, Zero};
use gate_netlist::{Circuit, Cut, read_bench};
use gate_stimulus::Stimulus;
use gate_values::{Change, Logic};
use gate_vcd::read_stimulus;
use net_waves::Waves;
use std::alloc::Global;
use std::test::Fail;
use warp_block::{Block, Message, Part};
use warp_core::World;

/// The texts of a circuit that is cut into blocks, and of a stimulus.
#[derive(Clone, Copy)]
pub(crate) struct Texts {
    pub(crate) bench: &'static str,
    pub(crate) settings: &'static str,
    pub(crate) stimulus: &'static str,
}

/// The gates of block 0, 1 and 2.
pub(crate) const IN_THREE: &str = "[block]\nA = 0\nB = 0\nY = 1\nZ = 2\n";

pub(crate) const BOTH_ONE: &str =
    "$var wire 1 p P $end $var wire 1 q Q $end $enddefinitions $end #0 1p 1q";

/// Two buffers in block 0, an AND in block 1 and a NOT in block 2; nets P, Q, A, B, Y, Z.
pub(crate) const PAIR: Texts = Texts {
    bench: "INPUT(P)\nINPUT(Q)\nA = BUFF(P)\nB = BUFF(Q)\nY = AND(A, B)\nZ = NOT(Y)\n",
    settings: IN_THREE,
    stimulus: BOTH_ONE,
};

/// The one change of each of its nets.
const PAIR_CHANGES: [(u64, Logic); 6] = [
    (0, One),
    (0, One),
    (1, One),
    (1, One),
    (2, One),
    (3, Zero),
];

/// The first of its nets that isn't there, or whose changes are others.
pub(crate) fn other_net(waves: &Waves) -> Option<u32> {
    for (net, (time, value)) in PAIR_CHANGES.into_iter().enumerate() {
        let net = net as u32;
        if net >= waves.nets() || waves.changes(net) != [Change { time, value }].as_slice() {
            return Some(net);
        }
    }
    None
}

fn circuit_of(alloc: Global, texts: Texts) -> Result<Circuit, Fail> {
    let bench = read_bench(alloc, texts.bench.as_bytes())?;
    Ok(Circuit::of(alloc, bench, texts.settings.as_bytes())?)
}

/// A circuit that is cut into blocks, and a stimulus.
#[derive(Drop)]
pub(crate) struct Given {
    pub(crate) circuit: Circuit,
    pub(crate) stimulus: Stimulus,
}

impl Given {
    pub(crate) fn of(alloc: Global, texts: Texts) -> Result<Given, Fail> {
        let circuit = circuit_of(alloc, texts)?;
        match read_stimulus(alloc, texts.stimulus.as_bytes(), &circuit) {
            Ok(stimulus) => Ok(Given { circuit, stimulus }),
            Err(fault) => {
                drop(circuit);
                Err(fault.into())
            }
        }
    }

    pub(crate) fn cut(&self) -> Result<&Cut, Fail>
        ensures cut { IfOk result (λ cut. CutFits self.now.circuit cut.now) }
        ensures stimulus { OnOk result (Fits self.now.stimulus self.now.circuit) }
    {
        let Some(cut) = self.circuit.cut() else {
            return Err(Fail::from("no cut"));
        };
        if cut.fits(&self.circuit) && self.stimulus.fits(&self.circuit) {
            return Ok(cut);
        }
        Err(Fail::from("a cut or stimulus of another circuit"))
    }

    /// A new world.
    pub(crate) fn world(&self, alloc: Global, horizon: u64) -> Result<World<'_>, Fail>
        requires { horizon ≤ 100 }
    {
        let cut = self.cut()?;
        let world = World::new(alloc, &self.circuit, cut, &self.stimulus, horizon)?;
        Ok(world)
    }

    /// The part of a block of a number.
    fn part(&self, alloc: Global, number: u32) -> Result<Part, Fail> {
        let cut = self.cut()?;
        if number >= cut.blocks() {
            return Err(Fail::from("no such block"));
        }
        Ok(Part::of(alloc, &self.circuit, cut, number)?)
    }

    /// A new block of a number, and what it sends.
    pub(crate) fn block(
        &self,
        alloc: Global,
        number: u32,
        horizon: u64,
        out: &mut Vec<Message>,
    ) -> Result<Block, Fail>
        requires { horizon ≤ 100 }
    {
        let part = self.part(alloc, number)?;
        Ok(Block::new(alloc, part, &self.stimulus, horizon, out)?)
    }
}
