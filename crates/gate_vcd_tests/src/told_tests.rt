ghost use Rattle.std.specs.Prelude.{◌≡◌, ℕ, IfOk, length};
ghost use Rattle.net_waves.specs.Waves.{wave_of, IsUntil};

use gate_netlist::{Circuit, read_bench};
use gate_stimulus::{Timescale, Unit};
use gate_values::{Change, Logic};
use net_waves::Waves;
use std::alloc::Global;
use std::process::Abort;
use std::test::Fail;
use vcd_only::told_text;

const BENCH: &str = "INPUT(A)\nINPUT(B)\nOUTPUT(Y)\nY = AND(A, B)\n";

/// The dump of all three nets until 9.
const WHOLE: &str =
    "$timescale 1 ns $end\n$scope module top $end\n$var wire 1 ! A $end\n$var wire 1 \" B $end\n$var wire 1 # Y $end\n$upscope $end\n$enddefinitions $end\n#0\n$dumpvars\n0!\n1\"\nx#\n$end\n#1\n0#\n#3\n1!\n0\"\n#7\n0!\n1\"\n1#\n#9\n";

/// That of Y alone, whose code stays.
const OUTPUT: &str =
    "$timescale 1 ns $end\n$scope module top $end\n$var wire 1 # Y $end\n$upscope $end\n$enddefinitions $end\n#0\n$dumpvars\nx#\n$end\n#1\n0#\n#7\n1#\n#9\n";

/// That of A and Y.
const TWO: &str =
    "$timescale 1 ns $end\n$scope module top $end\n$var wire 1 ! A $end\n$var wire 1 # Y $end\n$upscope $end\n$enddefinitions $end\n#0\n$dumpvars\n0!\nx#\n$end\n#1\n0#\n#3\n1!\n#7\n0!\n1#\n#9\n";

/// That of no net.
const NONE: &str =
    "$timescale 1 ns $end\n$scope module top $end\n$upscope $end\n$enddefinitions $end\n#0\n$dumpvars\n$end\n#9\n";

fn at(time: u64, value: Logic) -> Change
    ensures { result ≡ record { time = time; value = value } }
{
    Change { time, value }
}

/// The waves of A, B and Y.
fn waves(alloc: Global) -> Result<Waves, Fail>
    ensures nets { IfOk result (λ waves. length waves ≡ 3) }
    ensures until { IfOk result (λ waves. (n : ℕ) → IsUntil 9 (wave_of waves n)) }
{
    let mut waves = Waves::new(alloc, 3)?;
    waves.push(0, at(0, Logic::Zero))?;
    waves.push(1, at(0, Logic::One))?;
    waves.push(2, at(1, Logic::Zero))?;
    waves.push(0, at(3, Logic::One))?;
    waves.push(1, at(3, Logic::Zero))?;
    waves.push(0, at(7, Logic::Zero))?;
    waves.push(1, at(7, Logic::One))?;
    waves.push(2, at(7, Logic::One))?;
    Ok(waves)
}

/// The dump of the nets that are told.
fn dump(alloc: Global, circuit: &Circuit, told: &[bool]) -> Result<Vec<u8>, Fail> {
    if circuit.nets() != 3 {
        return Err(Fail::from("another circuit"));
    }
    let waves = waves(alloc)?;
    let scale = Timescale {
        number: 1,
        unit: Unit::Ns,
    };
    let text = told_text(alloc, "top", circuit, scale, &waves, told, 9);
    drop(waves);
    Ok(text?)
}

fn expect<R: Abort>(rt: &R, alloc: Global, told: &[bool], want: &str) -> Result<(), Fail> {
    let bench = read_bench(alloc, BENCH.as_bytes())?;
    let circuit = Circuit::of(alloc, bench, b"")?;
    let text = dump(alloc, &circuit, told);
    drop(circuit);
    assert!(rt; text?.as_slice() == want.as_bytes());
    Ok(())
}

#[test]
fn some_nets_alone(rt: HostRuntime) -> Result<(), Fail> {
    let alloc = rt.alloc();
    expect(&rt, alloc, &[true, true, true], WHOLE)?;
    expect(&rt, alloc, &[false, false, true], OUTPUT)?;
    expect(&rt, alloc, &[true, false, true], TWO)?;
    expect(&rt, alloc, &[false, false, false], NONE)?;
    expect(&rt, alloc, &[], NONE)
}
