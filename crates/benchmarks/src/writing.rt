//! What the writer of dumps costs.

ghost use Rattle.std.specs.Prelude.{◌≡◌, ℕ, ◌+◌, ◌<◌, ◌≤◌, length, IfOk, OnOk};
ghost use Rattle.gate_netlist.specs.Circuit.{nets_of};
ghost use Rattle.net_waves.specs.Waves.{wave_of, end_time};

use crate::circuits::{self, Given};
use crate::timer::{self, report};
use anyhow::Result;
use byte_sinks::Grow;
use gate_values::{Change, Logic};
use net_waves::Waves;
use std::alloc::{AllocError, Global};
use std::rt::Clock;
use vcd_dumps::write_vcd;

/// The other of 0 and 1 than the last value of a net.
fn other_value(changes: &[Change]) -> Logic {
    match changes.last() {
        Some(change) if change.value == Logic::One => Logic::Zero,
        _ => Logic::One,
    }
}

/// Changes a net at a time, where it hasn't changed there.
fn toggle(waves: &mut Waves, net: u32, time: u64) -> Result<(), AllocError>
    requires known { net < length waves.old }
    requires until { (n : ℕ) → end_time 0 (wave_of waves.old n) ≤ time + 1 }
    ensures count { OnOk result (length waves.new ≡ length waves.old) }
    ensures until { OnOk result ((n : ℕ) → end_time 0 (wave_of waves.new n) ≤ time + 1) }
{
    let change = Change {
        time,
        value: other_value(waves.changes(net)),
    };
    if !waves.follows(net, change) {
        return Ok(());
    }
    waves.push(net, change)?;
    Ok(())
}

/// Changes three nets at a time.
fn toggle_three(waves: &mut Waves, nets: u32, time: u32) -> Result<(), AllocError>
    requires nets { length waves.old ≡ nets }
    requires some { 0 < nets }
    requires until { (n : ℕ) → end_time 0 (wave_of waves.old n) ≤ time }
    ensures count { OnOk result (length waves.new ≡ nets) }
    ensures until { OnOk result ((n : ℕ) → end_time 0 (wave_of waves.new n) ≤ time + 1) }
{
    for part in 0..3 {
        let net = (time as u64 * 7 + part * 13) % nets as u64;
        toggle(waves, net as u32, time as u64)?;
    }
    Ok(())
}

/// Waves of which three change at each of as many times as there are nets.
fn sparse(alloc: Global, nets: u32) -> Result<Waves, AllocError>
    requires { 0 < nets }
    ensures until { IfOk result (λ waves. (n : ℕ) → end_time 0 (wave_of waves n) ≤ nets) }
{
    let mut waves = Waves::new(alloc, nets)?;
    for time in 0..nets {
        toggle_three(&mut waves, nets, time)?;
    }
    Ok(waves)
}

/// Writes the dump of waves, and tells how long that takes; the answer is its length.
fn write_timed<R: Eprint + Clock + AllocGlobal>(
    rt: &R,
    given: &Given,
    waves: &Waves,
    size: u32,
) -> Result<u64>
    requires nets { length waves.now ≡ nets_of given.now.circuit }
    requires some { 0 < size }
    requires until { (n : ℕ) → end_time 0 (wave_of waves.now n) ≤ size }
{
    let mut sink = Grow::new(rt.alloc());
    let start = timer::start(rt)?;
    let answer = write_vcd(
        &mut sink,
        "top",
        &given.circuit,
        &given.stimulus,
        waves,
        size as u64 - 1,
    );
    report(rt, "write", size, start)?;
    answer?;
    Ok(sink.into_vec().len() as u64)
}

fn write_sparse<R: Eprint + Clock + AllocGlobal>(rt: &R, given: &Given, size: u32) -> Result<u64>
    requires { 0 < size }
{
    let waves = sparse(rt.alloc(), size)?;
    if waves.nets() != given.circuit.nets() {
        return Ok(0);
    }
    write_timed(rt, given, &waves, size)
}

/// The dump of `size` nets of which three change at each of `size` times; the answer is its length.
pub fn write<R: Eprint + Clock + AllocGlobal>(rt: &R, size: u32) -> Result<u64>
    requires { 0 < size }
{
    let circuit = circuits::inputs(rt.alloc(), size)?;
    let given = Given::of(rt.alloc(), circuit, size, 0, true)?;
    let answer = write_sparse(rt, &given, size);
    drop(given);
    answer
}
