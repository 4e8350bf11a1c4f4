//! What rounds cost.
ghost use Rattle.std.specs.Prelude.{◌<◌, ◌≤◌};
ghost use Rattle.gate_netlist.specs.Circuit.{CutFits};
ghost use Rattle.gate_stimulus.specs.Given.{Fits};

use crate::circuits::{self, Given};
use crate::texts::STILL;
use crate::timer::{self, report};
use anyhow::Result;
use gate_netlist::Cut;
use std::rt::Clock;
use warp_core::World;

const MOST_BLOCKS: u32 = 1024;

const HORIZON: u64 = 1000;

/// What is measured: how many rounds, under which name and size.
#[derive(Clone, Copy)]
struct Measured {
    name: &'static str,
    size: u32,
    rounds: u32,
}

fn play_rounds(world: &mut World<'_>, order: &[u32], rounds: u32) -> Result<()> {
    for _ in 0..rounds {
        world.round(order)?;
    }
    Ok(())
}

fn rounds_timed<R: Eprint + Clock + AllocGlobal>(
    rt: &R,
    world: &mut World<'_>,
    blocks: u32,
    measured: Measured,
) -> Result<u64> {
    let order: Vec<u32> = (0..blocks).collect(rt.alloc())?;
    let start = timer::start(rt)?;
    play_rounds(world, order.as_slice(), measured.rounds)?;
    report(rt, measured.name, measured.size, start)?;
    Ok(world.least())
}

fn rounds_on<R: Eprint + Clock + AllocGlobal>(
    rt: &R,
    given: &Given,
    cut: &Cut,
    measured: Measured,
) -> Result<u64>
    requires cut { CutFits given.now.circuit cut.now }
    requires stimulus { Fits given.now.stimulus given.now.circuit }
{
    let mut world = World::new(rt.alloc(), &given.circuit, cut, &given.stimulus, HORIZON)?;
    let answer = rounds_timed(rt, &mut world, cut.blocks(), measured);
    drop(world);
    answer
}

fn rounds_cut<R: Eprint + Clock + AllocGlobal>(
    rt: &R,
    given: &Given,
    blocks: u32,
    measured: Measured,
) -> Result<u64>
    requires stimulus { Fits given.now.stimulus given.now.circuit }
    requires some { 0 < blocks }
    requires few { blocks ≤ 1024 }
{
    let cut = Cut::even(rt.alloc(), &given.circuit, blocks)?;
    let answer = rounds_on(rt, given, &cut, measured);
    drop(cut);
    answer
}

/// A round of 1,024 blocks in which `size` messages fly, each an initial content; the answer is the least time.
pub fn round<R: Eprint + Clock + AllocGlobal>(rt: &R, size: u32) -> Result<u64> {
    let circuit = circuits::registers(rt.alloc(), size)?;
    let given = Given::under(rt.alloc(), circuit, STILL)?;
    let measured = Measured {
        name: "round",
        size,
        rounds: 1,
    };
    let answer = rounds_cut(rt, &given, MOST_BLOCKS, measured);
    drop(given);
    answer
}

/// A hundred rounds of `size` blocks, at most 1,024, on a chain of gates all of which change at each time; the answer is
/// the least time.
pub fn round_blocks<R: Eprint + Clock + AllocGlobal>(rt: &R, size: u32) -> Result<u64>
    requires { 0 < size }
{
    let circuit = circuits::chain(rt.alloc(), MOST_BLOCKS + 1)?;
    let given = Given::of(rt.alloc(), circuit, 1, 200, false)?;
    let measured = Measured {
        name: "round-blocks",
        size,
        rounds: 100,
    };
    let answer = rounds_cut(rt, &given, size.min(MOST_BLOCKS), measured);
    drop(given);
    answer
}
