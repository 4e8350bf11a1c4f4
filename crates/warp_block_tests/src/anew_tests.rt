use super::block_tests::{A, B, Y, pair_until, to, told};
use Logic::{One, Zero};
use Sign::{Minus, Plus};
use gate_values::{Change, Logic};
use std::alloc::Global;
use std::process::Abort;
use std::test::Fail;
use warp_block::{Block, Message, Sign};

/// One at odd times, Zero at even ones, or the other way round.
fn alternating(time: u64, odd: Logic, even: Logic) -> Logic {
    if time % 2 == 1 { odd } else { even }
}

/// B becomes One at 1, and A changes at each time from 1 to 20; how many steps are finished then.
fn take_twenty(block: &mut Block, out: &mut Vec<Message>) -> Result<u32, Fail> {
    block.receive(told(B, 1, One), out)?;
    for time in 1..21 {
        block.receive(told(A, time, alternating(time, One, Zero)), out)?;
    }
    Ok(block.advance(20, out)?)
}

/// What is said of Y from a time to 21.
fn of_y(alloc: Global, sign: Sign, from: u64) -> Result<Vec<Message>, Fail> {
    let mut messages = Vec::new(alloc);
    for time in from..22 {
        messages.push(to(2, sign, Y, time, alternating(time, Zero, One)))?;
    }
    Ok(messages)
}

#[test]
fn each_step_is_told(rt: HostRuntime) -> Result<(), Fail> {
    let mut out = Vec::new(rt.alloc());
    let mut block = pair_until(rt.alloc(), 30, &mut out)?;
    let finished = take_twenty(&mut block, &mut out);
    drop(block);
    assert_eq!(rt; finished?, 20);
    assert_eq!(rt; out.as_slice(), of_y(rt.alloc(), Plus, 2)?.as_slice());
    Ok(())
}

/// After the twenty steps B becomes Zero at 13: the event time that comes next.
fn take_eight_back(block: &mut Block, out: &mut Vec<Message>) -> Result<Option<u64>, Fail> {
    take_twenty(block, out)?;
    out.clear();
    block.receive(told(B, 13, Zero), out)?;
    Ok(block.next_time())
}

#[test]
fn eight_steps_are_taken_back(rt: HostRuntime) -> Result<(), Fail> {
    let mut out = Vec::new(rt.alloc());
    let mut block = pair_until(rt.alloc(), 30, &mut out)?;
    let next = take_eight_back(&mut block, &mut out);
    drop(block);
    assert_eq!(rt; next?, Some(13));
    assert_eq!(rt; out.as_slice(), of_y(rt.alloc(), Minus, 14)?.as_slice());
    Ok(())
}

fn assert_played_anew(
    rt: &impl Abort,
    block: &mut Block,
    out: &mut Vec<Message>,
) -> Result<(), Fail> {
    take_eight_back(block, out)?;
    out.clear();
    assert_eq!(rt; block.advance(20, out)?, 8);
    assert!(rt; out.is_empty());
    let last = Change {
        time: 13,
        value: Zero,
    };
    let log = block.log(Y);
    assert_eq!(rt; (log.len(), log.last().copied()), (12, Some(last)));
    Ok(())
}

#[test]
fn eight_steps_played_anew_tell_nothing(rt: HostRuntime) -> Result<(), Fail> {
    let mut out = Vec::new(rt.alloc());
    let mut block = pair_until(rt.alloc(), 30, &mut out)?;
    let played = assert_played_anew(&rt, &mut block, &mut out);
    drop(block);
    played
}
