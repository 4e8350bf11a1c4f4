use super::given::{BOTH_ONE, Given, IN_THREE, PAIR, Texts, other_net};
use Logic::One;
use Sign::{Minus, Plus};
use gate_values::Logic;
use net_waves::Waves;
use std::alloc::Global;
use std::test::Fail;
use std::thread::Threads;
use warp_block::{Block, Message, Sign};
use warp_core::{GatherFault, gather, gather_by};

/// The same circuit with an OR.
const EITHER: Texts = Texts {
    bench: "INPUT(P)\nINPUT(Q)\nA = BUFF(P)\nB = BUFF(Q)\nY = OR(A, B)\nZ = NOT(Y)\n",
    settings: IN_THREE,
    stimulus: BOTH_ONE,
};

const A: u32 = 2;

const B: u32 = 3;

const Y: u32 = 4;

/// A new block of a circuit, with horizon 10.
fn block_of(alloc: Global, texts: Texts, block: u32) -> Result<Block, Fail> {
    let given = Given::of(alloc, texts)?;
    let mut out = Vec::new(alloc);
    let made = given.block(alloc, block, 10, &mut out);
    drop(given);
    made
}

/// A call of the block of a number.
#[derive(Clone, Copy)]
enum Call {
    Receive(Message),
    /// As far as it goes.
    Advance(u32),
}

use Call::{Advance, Receive};

fn to(block: u32, sign: Sign, net: u32, time: u64, value: Logic) -> Call {
    Receive(Message {
        time,
        block,
        net,
        value,
        sign,
    })
}

fn make(call: Call, blocks: &mut Vec<Block>, out: &mut Vec<Message>) -> Result<(), Fail> {
    match call {
        Receive(message) => {
            let block = blocks.get_mut(message.block as usize).ok_or("a block")?;
            block.receive(message, out)?;
        }
        Advance(number) => {
            let block = blocks.get_mut(number as usize).ok_or("a block")?;
            block.advance(9, out)?;
        }
    }
    Ok(())
}

/// The calls after which the blocks are matched.
fn all_calls() -> [Call; 6] {
    [
        Advance(0),
        to(1, Plus, A, 1, One),
        to(1, Plus, B, 1, One),
        Advance(1),
        to(2, Plus, Y, 2, One),
        Advance(2),
    ]
}

/// New blocks of these circuits.
fn blocks_of(alloc: Global, circuits: &[Texts]) -> Result<Vec<Block>, Fail> {
    let mut blocks = Vec::new(alloc);
    for (block, texts) in (0..3).zip(circuits) {
        blocks.push(block_of(alloc, *texts, block)?)?;
    }
    Ok(blocks)
}

/// Such blocks after some calls, and some more.
fn played(
    alloc: Global,
    circuits: &[Texts],
    calls: &[Call],
    more: &[Call],
) -> Result<Vec<Block>, Fail> {
    let mut blocks = blocks_of(alloc, circuits)?;
    let mut out = Vec::new(alloc);
    for call in calls {
        make(*call, &mut blocks, &mut out)?;
    }
    for call in more {
        make(*call, &mut blocks, &mut out)?;
    }
    Ok(blocks)
}

/// What is gathered from blocks by so many threads side by side, and with none of them one after another.
fn gathered_of<R: Threads + Sync>(
    rt: &R,
    alloc: Global,
    threads: u32,
    given: &Given,
    blocks: Vec<Block>,
) -> Result<Result<Waves, GatherFault>, Fail> {
    let cut = given.cut()?;
    if threads == 0 {
        return Ok(gather(alloc, &given.circuit, cut, &given.stimulus, 10, blocks));
    }
    Ok(gather_by(
        rt,
        alloc,
        threads,
        &given.circuit,
        cut,
        &given.stimulus,
        10,
        blocks,
    ))
}

/// What is gathered from blocks, for the circuit with an AND.
fn gathered<R: Threads + Sync>(
    rt: &R,
    alloc: Global,
    threads: u32,
    blocks: Vec<Block>,
) -> Result<Result<Waves, GatherFault>, Fail> {
    let given = Given::of(alloc, PAIR)?;
    let answer = gathered_of(rt, alloc, threads, &given, blocks);
    drop(given);
    answer
}

#[test]
fn matched_blocks_have_the_circuits_waves(rt: HostRuntime) -> Result<(), Fail> {
    for threads in [0, 1, 2, 5] {
        let blocks = played(rt.alloc(), &[PAIR; 3], all_calls().as_slice(), &[])?;
        let waves = gathered(&rt, rt.alloc(), threads, blocks)??;
        assert_eq!(rt; waves.nets(), 6);
        assert_eq!(rt; other_net(&waves), None);
    }
    Ok(())
}

#[test]
fn blocks_that_are_refused(rt: HostRuntime) -> Result<(), Fail> {
    let all = all_calls();
    let back = [to(2, Minus, Y, 2, One), Advance(2)];
    let twice = [to(2, Plus, Y, 2, One)];
    let rows: [(&[Texts], &[Call], &[Call], GatherFault); 5] = [
        (&[PAIR; 2], &all[..4], &[], GatherFault::WrongCount),
        (
            &[PAIR, EITHER, PAIR],
            &all,
            &[],
            GatherFault::WrongPart { block: 1 },
        ),
        (
            &[PAIR; 3],
            &all[..3],
            &all[4..],
            GatherFault::Unfinished { block: 1 },
        ),
        (
            &[PAIR; 3],
            &all,
            &twice,
            GatherFault::Unsettled {
                block: 2,
                net: Y,
                time: 2,
            },
        ),
        (
            &[PAIR; 3],
            &all,
            &back,
            GatherFault::Mismatch { block: 2, net: Y },
        ),
    ];
    for (circuits, calls, more, fault) in rows {
        for threads in [0, 2] {
            let blocks = played(rt.alloc(), circuits, calls, more)?;
            let answer = gathered(&rt, rt.alloc(), threads, blocks)?;
            assert_eq!(rt; answer.err(), Some(fault), "{}", fault.name());
        }
    }
    Ok(())
}
