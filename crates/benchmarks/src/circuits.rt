//! The circuits of the benchmarks, and their stimuli, each made of a text.
ghost use Rattle.std.specs.Prelude.{IfOk};
ghost use Rattle.gate_stimulus.specs.Given.{Fits};

use crate::texts;
use anyhow::Result;
use gate_netlist::{Bench, Circuit, read_bench};
use gate_stimulus::Stimulus;
use gate_vcd::read_stimulus;
use std::alloc::Global;

/// The circuit of a bench text, with no settings.
fn circuit_of(alloc: Global, text: &str) -> Result<Circuit> {
    let bench = read_bench(alloc, text.as_bytes())?;
    Ok(Circuit::of(alloc, bench, b"")?)
}

/// The bench of a chain of gates behind one input: `size` nets in all.
pub fn bench_of_chain(alloc: Global, size: u32) -> Result<Bench> {
    let text = texts::chain(alloc, size)?;
    Ok(read_bench(alloc, text.as_bytes())?)
}

/// A chain of gates behind one input: `size` nets in all.
pub fn chain(alloc: Global, size: u32) -> Result<Circuit> {
    let bench = bench_of_chain(alloc, size)?;
    Ok(Circuit::of(alloc, bench, b"")?)
}

/// So many flip-flops that begin with 1, and a gate behind each.
pub fn registers(alloc: Global, count: u32) -> Result<Circuit> {
    let text = texts::registers(alloc, count)?;
    let bench = read_bench(alloc, text.as_bytes())?;
    let settings = texts::registers_settings(alloc, count)?;
    Ok(Circuit::of(alloc, bench, settings.as_bytes())?)
}

/// So many inputs.
pub fn inputs(alloc: Global, count: u32) -> Result<Circuit> {
    let text = texts::inputs(alloc, count)?;
    circuit_of(alloc, text.as_str())
}

/// The bits of a bus, as inputs.
pub fn bits(alloc: Global, width: u32) -> Result<Circuit> {
    let text = texts::bits(alloc, width)?;
    circuit_of(alloc, text.as_str())
}

/// A circuit, and a stimulus of it.
#[derive(Drop)]
pub struct Given {
    pub circuit: Circuit,
    pub stimulus: Stimulus,
}

impl Given {
    /// A stimulus of so many inputs and so many changes.
    pub fn of(
        alloc: Global,
        circuit: Circuit,
        inputs: u32,
        changes: u32,
        is_shared: bool,
    ) -> Result<Given>
        ensures { IfOk result (λ given. Fits given.stimulus given.circuit) }
    {
        match texts::stimulus(alloc, inputs, changes, is_shared) {
            Ok(text) => Given::under(alloc, circuit, text.as_str()),
            Err(fault) => {
                drop(circuit);
                Err(fault.into())
            }
        }
    }

    /// The stimulus of a text.
    pub fn under(alloc: Global, circuit: Circuit, text: &str) -> Result<Given>
        ensures { IfOk result (λ given. Fits given.stimulus given.circuit) }
    {
        match read_stimulus(alloc, text.as_bytes(), &circuit) {
            Ok(stimulus) => Ok(Given { circuit, stimulus }),
            Err(fault) => {
                drop(circuit);
                Err(fault.into())
            }
        }
    }
}
