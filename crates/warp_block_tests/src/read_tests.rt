use super::block_tests::{A, B, PAIR, PAIR_CUT, PAIR_UNSET, Y, circuit_of, part_of, to, told};
use gate_values::Change;
use gate_values::Logic::{One, Zero};
use gate_vcd::read_stimulus;
use std::alloc::Global;
use std::test::Fail;
use warp_block::Sign::{Minus, Plus};
use warp_block::{Block, Message, ReadLogs};

/// Block 1 of the pair, which keeps the log of Y alone.
fn reading(alloc: Global, out: &mut Vec<Message>) -> Result<Block<ReadLogs>, Fail> {
    let circuit = circuit_of(alloc, PAIR, PAIR_CUT)?;
    let stimulus = read_stimulus(alloc, PAIR_UNSET.as_bytes(), &circuit)?;
    let part = part_of(alloc, PAIR, PAIR_CUT, 1)?;
    Ok(Block::<ReadLogs>::open(alloc, part, &stimulus, 10, out)?)
}

/// Both inputs of Y become One, at 1 and 2; then B was Zero at 1.
fn play(block: &mut Block<ReadLogs>, out: &mut Vec<Message>) -> Result<(), Fail> {
    block.receive(told(A, 1, One), out)?;
    block.receive(told(B, 2, One), out)?;
    block.advance(2, out)?;
    block.receive(told(B, 1, Zero), out)?;
    block.advance(2, out)?;
    Ok(())
}

#[test]
fn a_block_with_few_logs_sends_what_one_with_all_sends(rt: HostRuntime) -> Result<(), Fail> {
    let mut out = Vec::new(rt.alloc());
    let mut block = reading(rt.alloc(), &mut out)?;
    play(&mut block, &mut out)?;
    let want = [
        to(2, Plus, Y, 3, One),
        to(2, Minus, Y, 3, One),
        to(2, Plus, Y, 2, Zero),
        to(2, Plus, Y, 3, One),
    ];
    assert_eq!(rt; out.as_slice(), want.as_slice());
    Ok(())
}

#[test]
fn a_block_with_few_logs_has_those_that_others_read(rt: HostRuntime) -> Result<(), Fail> {
    let mut out = Vec::new(rt.alloc());
    let mut block = reading(rt.alloc(), &mut out)?;
    play(&mut block, &mut out)?;
    let want = [
        Change {
            time: 2,
            value: Zero,
        },
        Change {
            time: 3,
            value: One,
        },
    ];
    let log = block.read_log(Y).ok_or("a log")?;
    assert_eq!(rt; log, want.as_slice());
    assert!(rt; block.read_log(A).is_none());
    Ok(())
}
