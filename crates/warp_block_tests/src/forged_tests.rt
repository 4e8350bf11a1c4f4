use super::block_tests::{A, assert_answers, numbers, pair, to, told};
use Sign::{Minus, Plus};
use gate_values::Logic::One;
use std::test::Fail;
use warp_block::{Block, BlockFault, Message, Sign};

#[test]
fn the_last_time_and_the_last_block_are_refused(rt: HostRuntime) -> Result<(), Fail> {
    let mut out = Vec::new(rt.alloc());
    let mut block = pair(rt.alloc(), &mut out)?;
    let rows = [
        (told(A, u64::MAX, One), Err(BlockFault::PastHorizon)),
        (to(u32::MAX, Plus, A, 1, One), Err(BlockFault::WrongNet)),
        (told(u32::MAX, 1, One), Err(BlockFault::WrongNet)),
    ];
    assert_answers(&rt, &mut block, &mut out, rows.as_slice());
    assert_eq!(rt; (out.len(), block.next_time()), (0, None));
    drop(block);
    Ok(())
}

fn receive_thousand(block: &mut Block, out: &mut Vec<Message>) -> Result<(), BlockFault> {
    for _ in 0..1000 {
        block.receive(to(1, Minus, A, 4, One), out)?;
    }
    Ok(())
}

#[test]
fn a_thousand_antimessages_wait(rt: HostRuntime) -> Result<(), Fail> {
    let mut out = Vec::new(rt.alloc());
    let mut block = pair(rt.alloc(), &mut out)?;
    let received = receive_thousand(&mut block, &mut out);
    let (entry, next) = (block.entry(A, 4), block.next_time());
    drop(block);
    received?;
    assert_eq!(rt; entry, numbers(0, -1000, 0, 0));
    assert_eq!(rt; (out.len(), next), (0, None));
    Ok(())
}
