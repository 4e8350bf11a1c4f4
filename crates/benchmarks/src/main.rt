//! What the calls of the simulator cost: `benchmarks NAME SIZE`, or `benchmarks all SIZE`.
//!
//! Each benchmark makes its own texts, so that its input grows with SIZE alone. Standard output holds the
//! name, the size and a checksum of the answer; standard error holds the time of the call in microseconds.
//! Peak memory is measured from outside (`bench/measure`).
#![tactic(auto)]

ghost use Rattle.std.specs.Prelude.{◌<◌};

mod circuits;
mod looking;
mod playing;
mod reading;
mod rounds;
mod texts;
mod timer;
mod waves;
mod writing;

use anyhow::{Result, bail};
use std::rt::Clock;

#[derive(Clone, Copy)]
enum Benchmark {
    Bench,
    BenchRefused,
    Circuit,
    Stimulus,
    StimulusCodes,
    StimulusShared,
    StimulusUnused,
    StimulusBus,
    StimulusBusShort,
    At,
    Find,
    CutEven,
    WavesByNet,
    WavesByTime,
    WavesOf,
    Write,
    Play,
    Round,
    RoundBlocks,
}

const BENCHMARKS: [(&str, Benchmark); 19] = [
    ("bench", Benchmark::Bench),
    ("bench-refused", Benchmark::BenchRefused),
    ("circuit", Benchmark::Circuit),
    ("stimulus", Benchmark::Stimulus),
    ("stimulus-codes", Benchmark::StimulusCodes),
    ("stimulus-shared", Benchmark::StimulusShared),
    ("stimulus-unused", Benchmark::StimulusUnused),
    ("stimulus-bus", Benchmark::StimulusBus),
    ("stimulus-bus-short", Benchmark::StimulusBusShort),
    ("at", Benchmark::At),
    ("find", Benchmark::Find),
    ("cut-even", Benchmark::CutEven),
    ("waves-by-net", Benchmark::WavesByNet),
    ("waves-by-time", Benchmark::WavesByTime),
    ("waves-of", Benchmark::WavesOf),
    ("write", Benchmark::Write),
    ("play", Benchmark::Play),
    ("round", Benchmark::Round),
    ("round-blocks", Benchmark::RoundBlocks),
];

fn checksum<R: Eprint + Clock + AllocGlobal>(rt: &R, benchmark: Benchmark, size: u32) -> Result<u64>
    requires { 0 < size }
{
    match benchmark {
        Benchmark::Bench => reading::bench(rt, size),
        Benchmark::BenchRefused => reading::bench_refused(rt, size),
        Benchmark::Circuit => reading::circuit(rt, size),
        Benchmark::Stimulus => reading::stimulus(rt, size),
        Benchmark::StimulusCodes => reading::stimulus_codes(rt, size),
        Benchmark::StimulusShared => reading::stimulus_shared(rt, size),
        Benchmark::StimulusUnused => reading::stimulus_unused(rt, size),
        Benchmark::StimulusBus => reading::stimulus_bus(rt, size),
        Benchmark::StimulusBusShort => reading::stimulus_bus_short(rt, size),
        Benchmark::At => looking::at(rt, size),
        Benchmark::Find => looking::find(rt, size),
        Benchmark::CutEven => looking::cut_even(rt, size),
        Benchmark::WavesByNet => waves::waves_by_net(rt, size),
        Benchmark::WavesByTime => waves::waves_by_time(rt, size),
        Benchmark::WavesOf => waves::waves_of(rt, size),
        Benchmark::Write => writing::write(rt, size),
        Benchmark::Play => playing::play(rt, size),
        Benchmark::Round => rounds::round(rt, size),
        Benchmark::RoundBlocks => rounds::round_blocks(rt, size),
    }
}

fn run_one<R: Print + Eprint + Clock + AllocGlobal>(
    rt: &R,
    name: &str,
    benchmark: Benchmark,
    size: u32,
) -> Result<()>
    requires { 0 < size }
{
    let checksum = checksum(rt, benchmark, size)?;
    println!(rt; "{name} {size} {checksum}")?;
    Ok(())
}

/// Runs the benchmarks of a name; `all` is the name of each.
fn run_named<R: Print + Eprint + Clock + AllocGlobal>(rt: &R, name: &str, size: u32) -> Result<()>
    requires { 0 < size }
{
    let mut is_known = false;
    for (known, benchmark) in &BENCHMARKS {
        if name == "all" || name == *known {
            run_one(rt, known, *benchmark, size)?;
            is_known = true;
        }
    }
    if !is_known {
        bail!("no benchmark is called {name}");
    }
    Ok(())
}

fn run<R: Print + Eprint + Clock + AllocGlobal>(rt: &R, words: &[String]) -> Result<()> {
    let [_, name, size] = words else {
        bail!("a name and a size are expected");
    };
    let size = size.as_str().parse::<u32>()?;
    if size < 1 || size > 1_000_000 {
        bail!("the size is from 1 to 1,000,000");
    }
    run_named(rt, name.as_str(), size)
}

fn main(rt: HostRuntime) -> Result<()> {
    let words: Vec<String> = std::env::args(&rt)?.collect(rt.alloc())?;
    run(&rt, words.as_slice())
}
