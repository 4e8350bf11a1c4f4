//! What events cost.
ghost use Rattle.gate_netlist.specs.Circuit.{CutFits};
ghost use Rattle.gate_stimulus.specs.Given.{Fits};

use crate::circuits::{self, Given};
use crate::timer::{self, report};
use anyhow::Result;
use gate_netlist::Cut;
use std::rt::Clock;
use warp_core::{Event, World};

const NETS: u32 = 64;

const BLOCKS: u32 = 16;

/// Plays so many events: each block advances by one event time, then what is in flight is delivered, the first one
/// first, then all commit, and so on.
fn play_events(world: &mut World<'_>, count: u32) -> Result<()> {
    let mut block = 0;
    for _ in 0..count {
        let event = if block < BLOCKS {
            block += 1;
            Event::Advance {
                block: block - 1,
                steps: 1,
            }
        } else if world.flight().is_empty() {
            block = 0;
            Event::Commit
        } else {
            Event::Deliver { message: 0 }
        };
        world.play(event)?;
    }
    Ok(())
}

fn play_timed<R: Eprint + Clock>(rt: &R, world: &mut World<'_>, size: u32) -> Result<u64> {
    let start = timer::start(rt)?;
    play_events(world, size)?;
    report(rt, "play", size, start)?;
    Ok(world.least())
}

/// Plays `size` events on a circuit's blocks; the answer is the least time.
fn play_on<R: Eprint + Clock + AllocGlobal>(
    rt: &R,
    given: &Given,
    cut: &Cut,
    size: u32,
) -> Result<u64>
    requires cut { CutFits given.now.circuit cut.now }
    requires stimulus { Fits given.now.stimulus given.now.circuit }
{
    let horizon = u64::from(size);
    let mut world = World::new(rt.alloc(), &given.circuit, cut, &given.stimulus, horizon)?;
    let answer = play_timed(rt, &mut world, size);
    drop(world);
    answer
}

/// The same in 16 blocks.
fn play_cut<R: Eprint + Clock + AllocGlobal>(rt: &R, given: &Given, size: u32) -> Result<u64>
    requires { Fits given.now.stimulus given.now.circuit }
{
    let cut = Cut::even(rt.alloc(), &given.circuit, BLOCKS)?;
    let answer = play_on(rt, given, &cut, size);
    drop(cut);
    answer
}

/// `size` events on a chain of gates in 16 blocks, all of which change at each time; the answer is the least time.
pub fn play<R: Eprint + Clock + AllocGlobal>(rt: &R, size: u32) -> Result<u64> {
    let circuit = circuits::chain(rt.alloc(), NETS)?;
    let given = Given::of(rt.alloc(), circuit, 1, size / BLOCKS, false)?;
    let answer = play_cut(rt, &given, size);
    drop(given);
    answer
}
