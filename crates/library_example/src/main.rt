//! How a program calls the simulator.
//!
//! It writes a circuit and a stimulus as texts, prints the dump that [`simulate_text`] answers, and then runs the same
//! circuit by the calls below it, in two blocks by two workers, and prints the changes of one net.
#![tactic(auto)]

ghost use Rattle.gate_stimulus.specs.Given.{Fits};

use anyhow::{Result, bail};
use gate_netlist::{Circuit, Cut, read_bench};
use gate_stimulus::Stimulus;
use gate_values::Logic;
use gate_vcd::read_stimulus;
use net_waves::Waves;
use std::alloc::{AllocError, Global};
use std::fmt::Write as _;
use std::io::Write;
use std::sync::Wait;
use std::thread::Threads;
use warp_rounds::{NoGate, run};
use warp_text::{Options, simulate_text};

/// The time up to which is simulated, in units of the stimulus's timescale.
const UNTIL: u64 = 12;

/// A bench text: so many inverters in a row behind the input `n0`.
fn chain(alloc: Global, length: u32) -> Result<String, AllocError> {
    let mut text = String::new(alloc);
    writeln!(text, "INPUT(n0)")?;
    for before in 0..length {
        let net = u64::from(before) + 1;
        writeln!(text, "n{net} = NOT(n{before})")?;
    }
    Ok(text)
}

/// A stimulus text: `n0` is 0, and 1 from one time to another.
fn pulse(alloc: Global, from: u64, to: u64) -> Result<String, AllocError> {
    let mut text = String::new(alloc);
    writeln!(text, "$timescale 1 ns $end")?;
    writeln!(text, "$var wire 1 ! n0 $end $enddefinitions $end")?;
    writeln!(text, "#0 0! #{from} 1! #{to} 0!")?;
    Ok(text)
}

/// The dump of a circuit under a stimulus: in one block, by one worker, all delays 1.
fn dump_of<R: Threads + Wait + Sync>(
    rt: &R,
    alloc: Global,
    bench: &str,
    stimulus: &str,
) -> Result<Vec<u8>> {
    let Some(options) = Options::new(UNTIL, None, 1, 1000) else {
        bail!("the options are out of their limits");
    };
    let settings = b"";
    let dump = simulate_text(
        rt,
        alloc,
        bench.as_bytes(),
        settings,
        stimulus.as_bytes(),
        &options,
        &NoGate,
    )?;
    Ok(dump)
}

/// The waves of a circuit under a stimulus: in two blocks, by two workers.
fn waves_of<R: Threads + Wait + Sync>(
    rt: &R,
    alloc: Global,
    circuit: &Circuit,
    stimulus: &Stimulus,
) -> Result<Waves>
    requires { Fits stimulus.now circuit.now }
{
    let cut = Cut::even(alloc, circuit, 2)?;
    let waves = run(rt, alloc, circuit, &cut, stimulus, UNTIL, 2, 1000, &NoGate);
    drop(cut);
    Ok(waves?)
}

fn letter(value: Logic) -> char {
    match value {
        Logic::Zero => '0',
        Logic::One => '1',
        Logic::X => 'x',
        Logic::Z => 'z',
    }
}

/// Prints when a net takes which value.
fn print_changes(rt: &impl Print, circuit: &Circuit, waves: &Waves, name: &str) -> Result<()> {
    let Some(net) = circuit.find(name) else {
        bail!("no net is called {name}");
    };
    if net >= waves.nets() {
        bail!("the waves are of another circuit");
    }
    for change in waves.changes(net) {
        let time = change.time;
        let value = letter(change.value);
        println!(rt; "{name} is {value} from {time} on")?;
    }
    Ok(())
}

/// Runs a circuit, and prints the changes of one net.
fn show<R: Threads + Wait + Sync + Print>(
    rt: &R,
    alloc: Global,
    circuit: &Circuit,
    stimulus: &str,
) -> Result<()> {
    let stimulus = read_stimulus(alloc, stimulus.as_bytes(), circuit)?;
    let waves = waves_of(rt, alloc, circuit, &stimulus);
    drop(stimulus);
    print_changes(rt, circuit, &waves?, "n3")
}

/// The same by the calls below texts.
fn by_values<R: Threads + Wait + Sync + Print>(
    rt: &R,
    alloc: Global,
    bench: &str,
    stimulus: &str,
) -> Result<()> {
    let bench = read_bench(alloc, bench.as_bytes())?;
    let circuit = Circuit::of(alloc, bench, b"")?;
    let shown = show(rt, alloc, &circuit, stimulus);
    drop(circuit);
    shown
}

fn main(rt: HostRuntime) -> Result<()> {
    let alloc: Global = rt.alloc();
    let bench = chain(alloc, 3)?;
    let stimulus = pulse(alloc, 5, 6)?;
    let dump = dump_of(&rt, alloc, bench.as_str(), stimulus.as_str())?;
    rt.stdout().write_all(dump.as_slice())?;
    by_values(&rt, alloc, bench.as_str(), stimulus.as_str())
}
