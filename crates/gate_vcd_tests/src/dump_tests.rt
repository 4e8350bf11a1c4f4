ghost use Rattle.std.specs.Prelude.{◌≡◌, ℕ, IfOk, length};
ghost use Rattle.net_waves.specs.Waves.{wave_of, IsUntil};

use crate::rows::{circuit, stimulus};
use byte_sinks::{Grow, Sink};
use gate_netlist::Circuit;
use gate_stimulus::Stimulus;
use gate_values::{Change, Logic};
use net_waves::{Waves, are_waves};
use std::alloc::Global;
use std::test::Fail;
use vcd_dumps::{WriteFault, code, write_vcd};

pub const BENCH: &str = "INPUT(A)\nOUTPUT(Y)\nY = NOT(A)\n";

const STIMULUS: &str = "$timescale 1ns $end $var wire 1 ! A $end $enddefinitions $end #0 0! #5 1!";

/// The dump of the inverter until 10.
pub const DUMP: &str =
    "$timescale 1 ns $end\n$scope module top $end\n$var wire 1 ! A $end\n$var wire 1 \" Y $end\n$upscope $end\n$enddefinitions $end\n#0\n$dumpvars\n0!\nx\"\n$end\n#1\n1\"\n#5\n1!\n#6\n0\"\n#10\n";

/// The dump of no net until 3.
const EMPTY_DUMP: &str =
    "$timescale 1 ns $end\n$scope module top $end\n$upscope $end\n$enddefinitions $end\n#0\n$dumpvars\n$end\n#3\n";

fn at(time: u64, value: Logic) -> Change
    ensures { result ≡ record { time = time; value = value } }
{
    Change { time, value }
}

/// The waves of an inverter: an input that is 0 at 0 and 1 at 5, and its inverse one time later; net by net.
fn by_net(alloc: Global) -> Result<Waves, Fail>
    ensures nets { IfOk result (λ waves. length waves ≡ 2) }
    ensures until { IfOk result (λ waves. (n : ℕ) → IsUntil 10 (wave_of waves n)) }
{
    let mut waves = Waves::new(alloc, 2)?;
    waves.push(0, at(0, Logic::Zero))?;
    waves.push(0, at(5, Logic::One))?;
    waves.push(1, at(1, Logic::One))?;
    waves.push(1, at(6, Logic::Zero))?;
    Ok(waves)
}

type Answer = Result<Result<(), WriteFault>, Fail>;

fn write_waves<S: Sink>(
    alloc: Global,
    sink: &mut S,
    circuit: &Circuit,
    stimulus: &Stimulus,
) -> Answer {
    if sink.failed() || circuit.nets() != 2 {
        return Err(Fail::from("a sink that has failed, or another circuit"));
    }
    let waves = by_net(alloc)?;
    let answer = write_vcd(sink, "top", circuit, stimulus, &waves, 10);
    drop(waves);
    Ok(answer)
}

fn write_circuit<S: Sink>(alloc: Global, sink: &mut S, circuit: &Circuit) -> Answer {
    let stimulus = stimulus(alloc, BENCH, "", STIMULUS)?;
    let answer = write_waves(alloc, sink, circuit, &stimulus);
    drop(stimulus);
    answer
}

/// What the writer answers to the inverter's dump until 10, of a sink that hasn't failed.
pub fn write<S: Sink>(alloc: Global, sink: &mut S) -> Answer {
    let circuit = circuit(alloc, BENCH, "")?;
    let answer = write_circuit(alloc, sink, &circuit);
    drop(circuit);
    answer
}

#[test]
fn a_growing_sink_takes_the_dump(rt: HostRuntime) -> Result<(), Fail> {
    let mut sink = Grow::new(rt.alloc());
    assert!(rt; write(rt.alloc(), &mut sink)? == Ok(()));
    assert!(rt; sink.into_vec().as_slice() == DUMP.as_bytes());
    Ok(())
}

fn write_no_waves(
    alloc: Global,
    sink: &mut Grow,
    circuit: &Circuit,
    stimulus: &Stimulus,
) -> Answer {
    if sink.failed() || circuit.nets() != 0 {
        return Err(Fail::from("a sink that has failed, or another circuit"));
    }
    let waves = Waves::new(alloc, 0)?;
    let answer = write_vcd(sink, "top", circuit, stimulus, &waves, 3);
    drop(waves);
    Ok(answer)
}

/// What the writer answers to the dump of no net until 3.
fn write_nothing(alloc: Global, sink: &mut Grow) -> Answer {
    let circuit = circuit(alloc, "", "")?;
    let answer = write_no_inputs(alloc, sink, &circuit);
    drop(circuit);
    answer
}

fn write_no_inputs(alloc: Global, sink: &mut Grow, circuit: &Circuit) -> Answer {
    let stimulus = stimulus(alloc, "", "", "")?;
    let answer = write_no_waves(alloc, sink, circuit, &stimulus);
    drop(stimulus);
    answer
}

#[test]
fn no_net_until_3(rt: HostRuntime) -> Result<(), Fail> {
    let mut sink = Grow::new(rt.alloc());
    assert!(rt; write_nothing(rt.alloc(), &mut sink)? == Ok(()));
    assert!(rt; sink.into_vec().as_slice() == EMPTY_DUMP.as_bytes());
    Ok(())
}

const AND_BENCH: &str = "INPUT(A)\nINPUT(B)\nOUTPUT(Y)\nY = AND(A, B)\n";

const AND_STIMULUS: &str =
    "$timescale 1ns $end $var wire 1 ! A $end $var wire 1 # B $end $enddefinitions $end #0 0! 1#";

/// The dump of three nets until 9, most of whose changes share their times.
const LISTS_DUMP: &str =
    "$timescale 1 ns $end\n$scope module top $end\n$var wire 1 ! A $end\n$var wire 1 \" B $end\n$var wire 1 # Y $end\n$upscope $end\n$enddefinitions $end\n#0\n$dumpvars\n0!\n1\"\nx#\n$end\n#1\n0#\n#3\n1!\n0\"\n#7\n0!\n1\"\n1#\n#9\n";

/// The waves of three nets, given as a list for each.
fn by_lists(alloc: Global) -> Result<Waves, Fail>
    ensures nets { IfOk result (λ waves. length waves ≡ 3) }
    ensures until { IfOk result (λ waves. (n : ℕ) → IsUntil 9 (wave_of waves n)) }
{
    let a = [at(0, Logic::Zero), at(3, Logic::One), at(7, Logic::Zero)];
    let b = [at(0, Logic::One), at(3, Logic::Zero), at(7, Logic::One)];
    let y = [at(1, Logic::Zero), at(7, Logic::One)];
    let mut lists = Vec::new(alloc);
    lists.push(Vec::from_slice(alloc, &a)?)?;
    lists.push(Vec::from_slice(alloc, &b)?)?;
    lists.push(Vec::from_slice(alloc, &y)?)?;
    if !are_waves(lists.as_slice()) {
        return Err(Fail::from("lists that are no waves"));
    }
    Ok(Waves::of(alloc, lists)?)
}

fn write_lists(alloc: Global, sink: &mut Grow, circuit: &Circuit, stimulus: &Stimulus) -> Answer {
    if sink.failed() || circuit.nets() != 3 {
        return Err(Fail::from("a sink that has failed, or another circuit"));
    }
    let waves = by_lists(alloc)?;
    let answer = write_vcd(sink, "top", circuit, stimulus, &waves, 9);
    drop(waves);
    Ok(answer)
}

fn write_and(alloc: Global, sink: &mut Grow, circuit: &Circuit) -> Answer {
    let stimulus = stimulus(alloc, AND_BENCH, "", AND_STIMULUS)?;
    let answer = write_lists(alloc, sink, circuit, &stimulus);
    drop(stimulus);
    answer
}

#[test]
fn lists_with_common_times(rt: HostRuntime) -> Result<(), Fail> {
    let mut sink = Grow::new(rt.alloc());
    let circuit = circuit(rt.alloc(), AND_BENCH, "")?;
    let answer = write_and(rt.alloc(), &mut sink, &circuit);
    drop(circuit);
    assert!(rt; answer? == Ok(()));
    assert!(rt; sink.into_vec().as_slice() == LISTS_DUMP.as_bytes());
    Ok(())
}

/// Nets, and their codes.
static CODES: [(u32, &str); 5] = [
    (0, "!"),
    (93, "~"),
    (94, "!!"),
    (95, "\"!"),
    (999_999, "<03!"),
];

#[test]
fn codes_of_nets(rt: HostRuntime) {
    for (net, want) in &CODES {
        assert!(rt; *net < 1_000_000);
        let (bytes, count) = code(*net);
        assert!(rt; &bytes[..count] == want.as_bytes(), "net {net}");
    }
}
