use super::block_tests::{A, Y, numbers, pair, to, told};
use Sign::{Minus, Plus};
use gate_values::Logic::{One, Zero};
use std::test::Fail;
use warp_block::{Block, BlockFault, Look, Message, Sign};

const B: u32 = 3;

/// Whether two looks at the block of Y show the same.
fn are_alike(before: &Look, after: &Look) -> bool {
    for time in 0..=10 {
        if before.entry(A, time) != after.entry(A, time)
            || before.entry(B, time) != after.entry(B, time)
        {
            return false;
        }
    }
    before.log(Y) == after.log(Y)
        && before.mark() == after.mark()
        && before.floor() == after.floor()
        && before.next_time() == after.next_time()
}

/// Receives a message. Where memory ends, the block and `out` are as before, and that is the end.
fn receive(message: Message, block: &mut Block, out: &mut Vec<Message>) -> Result<(), Fail> {
    let before = block.look()?;
    let received = receive_after(&before, message, block, out);
    drop(before);
    received
}

/// Whether a block shows what it showed before.
fn shows(block: &Block, before: &Look) -> Result<bool, Fail> {
    let after = block.look()?;
    let is_alike = are_alike(before, &after);
    drop(after);
    Ok(is_alike)
}

fn receive_after(
    before: &Look,
    message: Message,
    block: &mut Block,
    out: &mut Vec<Message>,
) -> Result<(), Fail> {
    let sent = out.len();
    if let Err(fault) = block.receive(message, out) {
        if out.len() != sent || !shows(block, before)? {
            return Err(Fail::from("a refused message has changed something"));
        }
        return Err(fault.into());
    }
    Ok(())
}

/// Finishes the event times 1 and 2. Where memory ends, the same call is made again, and finishes what was left.
fn finish(block: &mut Block, out: &mut Vec<Message>) -> Result<(), Fail> {
    let mut left = 2;
    let mut finished = block.advance(2, out);
    if finished == Err(BlockFault::Memory) {
        left = if block.mark() < 2 { 2 } else { 1 };
        finished = block.advance(2, out);
    }
    if finished? != left {
        return Err(Fail::from("another number of steps"));
    }
    Ok(())
}

/// Rolls a block back, and finishes all of it: how many steps are left then.
fn roll_back(block: &mut Block, out: &mut Vec<Message>) -> Result<u32, Fail> {
    receive(told(A, 1, One), block, out)?;
    receive(told(B, 2, One), block, out)?;
    finish(block, out)?;
    receive(told(B, 1, Zero), block, out)?;
    finish(block, out)?;
    Ok(block.advance(1, out)?)
}

#[test]
fn a_rollback_or_no_memory(rt: HostRuntime) -> Result<(), Fail> {
    let mut out = Vec::new(rt.alloc());
    let mut block = pair(rt.alloc(), &mut out)?;
    let left = roll_back(&mut block, &mut out);
    drop(block);
    assert_eq!(rt; left?, 0);
    let want = [
        to(2, Plus, Y, 3, One),
        to(2, Minus, Y, 3, One),
        to(2, Plus, Y, 2, Zero),
        to(2, Plus, Y, 3, One),
    ];
    assert_eq!(rt; out.as_slice(), want.as_slice());
    Ok(())
}

#[test]
fn an_entry_outgrows_a_byte_or_no_memory(rt: HostRuntime) -> Result<(), Fail> {
    let mut out = Vec::new(rt.alloc());
    let mut block = pair(rt.alloc(), &mut out)?;
    for _ in 0..127 {
        block.receive(told(A, 4, One), &mut out)?;
    }
    for (sign, number) in [(Plus, 128), (Plus, 129), (Minus, 128), (Minus, 127)] {
        receive(to(1, sign, A, 4, One), &mut block, &mut out)?;
        assert_eq!(rt; block.entry(A, 4), numbers(0, number, 0, 0));
    }
    Ok(())
}
