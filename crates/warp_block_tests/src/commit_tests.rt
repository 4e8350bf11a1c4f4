use super::block_tests::{A, P, Y, assert_answers, numbers, pair, to, told};
use BlockFault::{BelowFloor, FloorBack, PastHorizon, Unprocessed, Unsettled, WrongNet};
use Sign::{Minus, Plus};
use gate_values::Logic::{One, X, Zero};
use std::process::Abort;
use std::test::Fail;
use warp_block::{Block, BlockFault, Message, Sign};

/// Tells a block two values of A at 4, and finishes that time.
fn tell_twice(block: &mut Block, out: &mut Vec<Message>) -> Result<(), Fail> {
    block.receive(told(A, 4, One), out)?;
    block.receive(told(A, 4, Zero), out)?;
    if block.commit(5) != Err(Unprocessed) {
        return Err(Fail::from("an event time is left"));
    }
    block.advance(1, out)?;
    Ok(())
}

/// Does the same, takes the second value back, and commits up to 5.
fn commit(block: &mut Block, out: &mut Vec<Message>) -> Result<(), Fail> {
    tell_twice(block, out)?;
    block.receive(to(1, Minus, A, 4, Zero), out)?;
    block.advance(1, out)?;
    block.commit(5)?;
    Ok(())
}

fn assert_unsettled(
    rt: &impl Abort,
    block: &mut Block,
    out: &mut Vec<Message>,
) -> Result<(), Fail> {
    tell_twice(block, out)?;
    assert_eq!(rt; block.entry(A, 4).effective(), Some(Zero));
    assert_eq!(rt; block.commit(5), Err(Unsettled { net: A, time: 4 }));
    assert_eq!(rt; block.commit(4), Ok(()));
    assert_eq!(rt; (block.floor(), block.mark()), (4, 5));
    Ok(())
}

#[test]
fn an_entry_with_two_messages_is_not_settled(rt: HostRuntime) -> Result<(), Fail> {
    let mut out = Vec::new(rt.alloc());
    let mut block = pair(rt.alloc(), &mut out)?;
    let told = assert_unsettled(&rt, &mut block, &mut out);
    drop(block);
    told?;
    assert_eq!(rt; out.as_slice(), [to(2, Plus, Y, 5, Zero)].as_slice());
    Ok(())
}

#[test]
fn a_block_commits_what_is_settled(rt: HostRuntime) -> Result<(), Fail> {
    let mut out = Vec::new(rt.alloc());
    let mut block = pair(rt.alloc(), &mut out)?;
    let committed = commit(&mut block, &mut out);
    let (floor, done) = (block.floor(), block.done());
    drop(block);
    committed?;
    let want = [to(2, Plus, Y, 5, Zero), to(2, Minus, Y, 5, Zero)];
    assert_eq!(rt; out.as_slice(), want.as_slice());
    assert_eq!(rt; (floor, done), (5, true));
    Ok(())
}

fn assert_look(rt: &impl Abort, block: &Block) -> Result<(), Fail> {
    let look = block.look()?;
    assert_eq!(rt; (look.floor(), look.mark()), (5, 5));
    assert_eq!(rt; look.entry(A, 4), numbers(0, 1, 0, 0));
    assert_eq!(rt; (look.next_time(), look.done()), (Some(5), false));
    drop(look);
    Ok(())
}

fn assert_refuses(rt: &impl Abort, block: &mut Block, out: &mut Vec<Message>) -> Result<(), Fail> {
    commit(block, out)?;
    let rows = [
        (told(A, 4, X), Err(BelowFloor)),
        (told(A, 5, Zero), Ok(())),
        (told(A, 11, One), Err(PastHorizon)),
        (told(P, 6, One), Err(WrongNet)),
        (told(Y, 6, One), Err(WrongNet)),
        (to(2, Plus, A, 6, One), Err(WrongNet)),
    ];
    assert_answers(rt, block, out, rows.as_slice());
    assert_eq!(rt; block.commit(4), Err(FloorBack));
    assert_look(rt, block)
}

#[test]
fn what_is_refused_after_a_commit(rt: HostRuntime) -> Result<(), Fail> {
    let mut out = Vec::new(rt.alloc());
    let mut block = pair(rt.alloc(), &mut out)?;
    let told = assert_refuses(&rt, &mut block, &mut out);
    drop(block);
    told
}

#[test]
fn a_floor_may_be_past_the_horizon(rt: HostRuntime) -> Result<(), Fail> {
    let mut out = Vec::new(rt.alloc());
    let mut block = pair(rt.alloc(), &mut out)?;
    assert_eq!(rt; block.commit(u64::MAX), Ok(()));
    assert_eq!(rt; (block.mark(), block.done()), (u64::MAX, true));
    assert_eq!(rt; block.receive(told(A, 10, One), &mut out), Err(BelowFloor));
    drop(block);
    Ok(())
}
