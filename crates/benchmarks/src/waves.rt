//! What waves cost.

use crate::timer::{self, report};
use anyhow::{Result, bail};
use gate_values::{Change, Logic};
use net_waves::{Waves, are_waves};
use std::alloc::{AllocError, Global};
use std::rt::Clock;

/// How many changes a net has; the last one may have fewer.
const TURNS: u32 = 10;

fn value_of(turn: u32) -> Logic {
    if turn % 2 == 0 {
        Logic::One
    } else {
        Logic::Zero
    }
}

/// Appends the change of this number, counted net by net, where it follows; the waves that are made here
/// alternate, so that it always does.
fn push(waves: &mut Waves, number: u32) -> Result<(), AllocError> {
    let net = number / TURNS;
    let turn = number % TURNS;
    let change = Change {
        time: turn as u64,
        value: value_of(turn),
    };
    if net < waves.nets() && waves.follows(net, change) {
        waves.push(net, change)?;
    }
    Ok(())
}

fn pushed_by_net(alloc: Global, size: u32) -> Result<Waves, AllocError> {
    let mut waves = Waves::new(alloc, size.div_ceil(TURNS))?;
    for number in 0..size {
        push(&mut waves, number)?;
    }
    Ok(waves)
}

fn pushed_by_time(alloc: Global, size: u32) -> Result<Waves, AllocError> {
    let mut waves = Waves::new(alloc, size.div_ceil(TURNS))?;
    for turn in 0..TURNS {
        for number in (turn..size).step_by(TURNS as usize) {
            push(&mut waves, number)?;
        }
    }
    Ok(waves)
}

/// The changes of the first nets, in a list for each.
fn listed_by_net(alloc: Global, size: u32) -> Result<Vec<Vec<Change>>, AllocError> {
    let mut lists = Vec::new(alloc);
    for first in (0..size).step_by(TURNS as usize) {
        let turns = TURNS.min(size.saturating_sub(first));
        lists.push(listed(alloc, turns)?)?;
    }
    Ok(lists)
}

/// So many changes of a net.
fn listed(alloc: Global, turns: u32) -> Result<Vec<Change>, AllocError> {
    let mut list = Vec::with_capacity(alloc, turns as usize)?;
    for turn in 0..turns {
        list.push(Change {
            time: turn as u64,
            value: value_of(turn),
        })?;
    }
    Ok(list)
}

/// The number of changes that are held.
fn held(waves: &Waves) -> u64 {
    let mut count = 0_u64;
    for net in 0..waves.nets() {
        count = count.saturating_add(waves.changes(net).len() as u64);
    }
    count
}

/// `size` changes, ten of each net, one net after another; the answer is how many are held.
pub fn waves_by_net<R: Eprint + Clock + AllocGlobal>(rt: &R, size: u32) -> Result<u64> {
    let start = timer::start(rt)?;
    let waves = pushed_by_net(rt.alloc(), size)?;
    report(rt, "waves-by-net", size, start)?;
    Ok(held(&waves))
}

/// The same changes, one time after another.
pub fn waves_by_time<R: Eprint + Clock + AllocGlobal>(rt: &R, size: u32) -> Result<u64> {
    let start = timer::start(rt)?;
    let waves = pushed_by_time(rt.alloc(), size)?;
    report(rt, "waves-by-time", size, start)?;
    Ok(held(&waves))
}

/// The same changes, as a list for each net.
pub fn waves_of<R: Eprint + Clock + AllocGlobal>(rt: &R, size: u32) -> Result<u64> {
    let lists = listed_by_net(rt.alloc(), size)?;
    if lists.len() > 1_000_000 || !are_waves(lists.as_slice()) {
        bail!("too many lists, or some that are no waves");
    }
    let start = timer::start(rt)?;
    let waves = Waves::of(rt.alloc(), lists)?;
    report(rt, "waves-of", size, start)?;
    Ok(held(&waves))
}
