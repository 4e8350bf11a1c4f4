//! What look-ups cost, and the even cut.

ghost use Rattle.std.specs.Prelude.{◌<◌};

use crate::circuits::{self, Given};
use crate::timer::{self, report};
use anyhow::Result;
use gate_netlist::{Circuit, Cut};
use gate_stimulus::Stimulus;
use gate_values::Logic;
use std::rt::Clock;

/// A prime above every size, so that its multiples reach each number below the size once.
const STEP: u64 = 999_983;

/// The sum of the times below `size` at which the first input is 1, asked in an order that jumps about.
fn times_of_one(stimulus: &Stimulus, size: u32) -> u64
    requires { 0 < size }
{
    let mut sum = 0_u64;
    for turn in 0..size {
        let time = turn as u64 * STEP % size as u64;
        if stimulus.at(0, time) == Logic::One {
            sum = sum.saturating_add(time);
        }
    }
    sum
}

fn at_timed<R: Eprint + Clock>(rt: &R, stimulus: &Stimulus, size: u32) -> Result<u64>
    requires { 0 < size }
{
    let start = timer::start(rt)?;
    let sum = times_of_one(stimulus, size);
    report(rt, "at", size, start)?;
    Ok(sum)
}

/// The values of an input with `size` changes, one for each time below `size`; the answer is the sum of the
/// times at which it is 1.
pub fn at<R: Eprint + Clock + AllocGlobal>(rt: &R, size: u32) -> Result<u64>
    requires { 0 < size }
{
    let circuit = circuits::inputs(rt.alloc(), 1)?;
    let given = Given::of(rt.alloc(), circuit, 1, size, false)?;
    let answer = at_timed(rt, &given.stimulus, size);
    drop(given);
    answer
}

/// How many nets are found by their names.
fn found(circuit: &Circuit) -> u64 {
    let mut count = 0_u64;
    for net in 0..circuit.nets() {
        if circuit.find(circuit.name(net)) == Some(net) {
            count = count.saturating_add(1);
        }
    }
    count
}

fn find_timed<R: Eprint + Clock>(rt: &R, circuit: &Circuit, size: u32) -> Result<u64> {
    let start = timer::start(rt)?;
    let count = found(circuit);
    report(rt, "find", size, start)?;
    Ok(count)
}

/// The nets of a circuit of `size` nets, each looked up by its name; the answer is how many are found.
pub fn find<R: Eprint + Clock + AllocGlobal>(rt: &R, size: u32) -> Result<u64> {
    let circuit = circuits::chain(rt.alloc(), size)?;
    let answer = find_timed(rt, &circuit, size);
    drop(circuit);
    answer
}

/// The sum of the numbers of the blocks that own nets.
fn owners_in_all(cut: &Cut, nets: u32) -> u64 {
    let mut sum = 0_u64;
    for net in 0..nets {
        if let Some(block) = cut.owner(net) {
            sum = sum.saturating_add(block as u64);
        }
    }
    sum
}

fn cut_timed<R: Eprint + Clock + AllocGlobal>(rt: &R, circuit: &Circuit, size: u32) -> Result<Cut> {
    let start = timer::start(rt)?;
    let cut = Cut::even(rt.alloc(), circuit, 16)?;
    report(rt, "cut-even", size, start)?;
    Ok(cut)
}

fn owners_cut<R: Eprint + Clock + AllocGlobal>(
    rt: &R,
    circuit: &Circuit,
    size: u32,
) -> Result<u64> {
    let cut = cut_timed(rt, circuit, size)?;
    let owners = owners_in_all(&cut, size);
    drop(cut);
    Ok(owners)
}

/// A circuit of `size` nets cut evenly into 16 blocks; the answer is the sum of the owners' numbers.
pub fn cut_even<R: Eprint + Clock + AllocGlobal>(rt: &R, size: u32) -> Result<u64> {
    let circuit = circuits::chain(rt.alloc(), size)?;
    let answer = owners_cut(rt, &circuit, size);
    drop(circuit);
    answer
}
