//! What reading costs.

use crate::timer::{self, report};
use crate::{circuits, texts};
use anyhow::Result;
use gate_netlist::{Bench, BenchFault, Circuit, read_bench};
use gate_stimulus::Stimulus;
use gate_vcd::read_stimulus;
use std::alloc::Global;
use std::rt::Clock;
use std::time::Instant;

/// Reads a bench text, and tells how long that takes.
fn read_bench_timed<R: Eprint + Clock + AllocGlobal>(
    rt: &R,
    size: u32,
    text: &str,
) -> Result<Bench> {
    let start = timer::start(rt)?;
    let bench = read_bench(rt.alloc(), text.as_bytes())?;
    report(rt, "bench", size, start)?;
    Ok(bench)
}

/// How many nets the circuit of a bench has.
fn nets_of(alloc: Global, bench: Bench) -> Result<u64> {
    let circuit = Circuit::of(alloc, bench, b"")?;
    let nets = circuit.nets();
    drop(circuit);
    Ok(nets as u64)
}

/// A bench text of `size` nets.
pub fn bench<R: Eprint + Clock + AllocGlobal>(rt: &R, size: u32) -> Result<u64> {
    let text = texts::chain(rt.alloc(), size)?;
    let bench = read_bench_timed(rt, size, text.as_str())?;
    nets_of(rt.alloc(), bench)
}

/// The line of a fault; 0 where there is none.
fn line_of(answer: std::result::Result<Bench, BenchFault>) -> u64 {
    match answer {
        Ok(_) => 0,
        Err(fault) => fault.line,
    }
}

/// The same, refused at its last line.
pub fn bench_refused<R: Eprint + Clock + AllocGlobal>(rt: &R, size: u32) -> Result<u64> {
    let text = texts::chain_refused(rt.alloc(), size)?;
    let start = timer::start(rt)?;
    let line = line_of(read_bench(rt.alloc(), text.as_bytes()));
    report(rt, "bench-refused", size, start)?;
    Ok(line)
}

/// Tells how long building a circuit took, and counts its gates and its blocks.
fn report_circuit<R: Eprint + Clock>(
    rt: &R,
    size: u32,
    start: Instant,
    circuit: &Circuit,
) -> Result<u64> {
    report(rt, "circuit", size, start)?;
    let counts = circuit.counts();
    Ok(counts.gates as u64 + counts.blocks as u64)
}

fn build_timed<R: Eprint + Clock + AllocGlobal>(
    rt: &R,
    size: u32,
    bench: Bench,
    settings: &str,
) -> Result<u64> {
    let start = timer::start(rt)?;
    let circuit = Circuit::of(rt.alloc(), bench, settings.as_bytes())?;
    let answer = report_circuit(rt, size, start, &circuit);
    drop(circuit);
    answer
}

/// A settings text with a delay and a block for each of `size` nets.
pub fn circuit<R: Eprint + Clock + AllocGlobal>(rt: &R, size: u32) -> Result<u64> {
    let settings = texts::chain_settings(rt.alloc(), size)?;
    let bench = circuits::bench_of_chain(rt.alloc(), size)?;
    build_timed(rt, size, bench, settings.as_str())
}

/// The number of changes that the inputs have in all.
fn changes_in_all(stimulus: &Stimulus, inputs: u32) -> u64 {
    let mut count = 0_u64;
    for net in 0..inputs {
        count = count.saturating_add(stimulus.changes(net).len() as u64);
    }
    count
}

/// Reads a stimulus text for a circuit, and tells how long that takes.
fn read_timed<R: Eprint + Clock + AllocGlobal>(
    rt: &R,
    name: &str,
    size: u32,
    text: &str,
    circuit: &Circuit,
) -> Result<Stimulus> {
    let start = timer::start(rt)?;
    let stimulus = read_stimulus(rt.alloc(), text.as_bytes(), circuit)?;
    report(rt, name, size, start)?;
    Ok(stimulus)
}

/// How many changes the nets of a circuit of inputs alone have in all, by a stimulus text.
fn changes_read<R: Eprint + Clock + AllocGlobal>(
    rt: &R,
    name: &str,
    size: u32,
    text: &str,
    circuit: &Circuit,
) -> Result<u64> {
    let stimulus = read_timed(rt, name, size, text, circuit)?;
    Ok(changes_in_all(&stimulus, circuit.nets()))
}

fn read<R: Eprint + Clock + AllocGlobal>(
    rt: &R,
    name: &str,
    size: u32,
    inputs: u32,
    is_shared: bool,
) -> Result<u64> {
    let text = texts::stimulus(rt.alloc(), inputs, size, is_shared)?;
    let circuit = circuits::inputs(rt.alloc(), inputs)?;
    let answer = changes_read(rt, name, size, text.as_str(), &circuit);
    drop(circuit);
    answer
}

/// A stimulus of ten inputs and `size` changes.
pub fn stimulus<R: Eprint + Clock + AllocGlobal>(rt: &R, size: u32) -> Result<u64> {
    read(rt, "stimulus", size, 10, false)
}

/// A stimulus of `size` inputs, each with a code and a change of its own.
pub fn stimulus_codes<R: Eprint + Clock + AllocGlobal>(rt: &R, size: u32) -> Result<u64> {
    read(rt, "stimulus-codes", size, size, false)
}

/// A stimulus of `size` inputs with one code, and `size` changes of it.
pub fn stimulus_shared<R: Eprint + Clock + AllocGlobal>(rt: &R, size: u32) -> Result<u64> {
    read(rt, "stimulus-shared", size, size, true)
}

/// The sum of the times at which the inputs change.
fn times_in_all(stimulus: &Stimulus, inputs: u32) -> u64 {
    let mut sum = 0_u64;
    for net in 0..inputs {
        for change in stimulus.changes(net) {
            sum = sum.saturating_add(change.time);
        }
    }
    sum
}

fn times_read<R: Eprint + Clock + AllocGlobal>(
    rt: &R,
    size: u32,
    text: &str,
    circuit: &Circuit,
) -> Result<u64> {
    let stimulus = read_timed(rt, "stimulus-unused", size, text, circuit)?;
    Ok(times_in_all(&stimulus, circuit.nets()))
}

/// A stimulus of ten inputs, each with a change at time 0 and one at time `size`, and `size` changes of
/// variables that are no inputs; the answer is the sum of the times of the changes.
pub fn stimulus_unused<R: Eprint + Clock + AllocGlobal>(rt: &R, size: u32) -> Result<u64> {
    let text = texts::stimulus_unused(rt.alloc(), 10, size)?;
    let circuit = circuits::inputs(rt.alloc(), 10)?;
    let answer = times_read(rt, size, text.as_str(), &circuit);
    drop(circuit);
    answer
}

/// A stimulus of the bits of a 64-bit bus, and of such a text of its changes; the answer is how many changes the
/// bits have in all.
fn read_bus<R: Eprint + Clock + AllocGlobal>(
    rt: &R,
    name: &str,
    size: u32,
    text: &str,
) -> Result<u64> {
    let circuit = circuits::bits(rt.alloc(), 64)?;
    let answer = changes_read(rt, name, size, text, &circuit);
    drop(circuit);
    answer
}

/// A stimulus of a 64-bit bus that goes from no bit to every fourth and back, `size` times, each time in 64 digits.
pub fn stimulus_bus<R: Eprint + Clock + AllocGlobal>(rt: &R, size: u32) -> Result<u64> {
    let text = texts::bus(rt.alloc(), size)?;
    read_bus(rt, "stimulus-bus", size, text.as_str())
}

/// A stimulus of a 64-bit bus whose last bit goes up and down, `size` times, each time in one digit.
pub fn stimulus_bus_short<R: Eprint + Clock + AllocGlobal>(rt: &R, size: u32) -> Result<u64> {
    let text = texts::bus_short(rt.alloc(), size)?;
    read_bus(rt, "stimulus-bus-short", size, text.as_str())
}
