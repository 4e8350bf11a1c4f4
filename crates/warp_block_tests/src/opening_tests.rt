use super::block_tests::{Call, block_of, make_all, to};
use Call::{Advance, Receive};
use Logic::{One, X, Zero};
use Sign::{Minus, Plus};
use gate_values::{Change, Logic};
use std::alloc::Global;
use std::process::Abort;
use std::test::Fail;
use warp_block::{Block, Message, Sign};

/// An inverter in block 0, and a flip-flop over it in block 1; nets N, Q, CK.
const TOGGLE: &str = "N = NOT(Q)\nQ = DFF(N)\n";

const TOGGLE_SETTINGS: &str = "[init]\nQ = \"0\"\n[block]\nN = 0\nQ = 1\n";

const TOGGLE_CLOCK: &str = "$var wire 1 c CK $end $enddefinitions $end #0 0c #3 1c #5 0c #7 1c";

const N: u32 = 0;

const Q: u32 = 1;

/// Two flip-flops that begin with a value and one that doesn't, in block 1; each is read in blocks 0 and 2.
const THREE: &str = "Q = DFF(A)\nR = DFF(A)\nS = DFF(A)\nA = AND(Q, R, S)\nB = OR(S, R, Q)\n";

const THREE_SETTINGS: &str =
    "[init]\nR = \"0\"\nQ = \"1\"\nS = \"x\"\n[block]\nQ = 1\nR = 1\nS = 1\nA = 0\nB = 2\n";

const UNCLOCKED: &str = "$var wire 1 c CK $end $enddefinitions $end";

#[test]
fn a_new_block_tells_what_its_flip_flops_begin_with(rt: HostRuntime) -> Result<(), Fail> {
    let mut out = Vec::new(rt.alloc());
    let block = block_of(rt.alloc(), THREE, THREE_SETTINGS, UNCLOCKED, 1, &mut out)?;
    let want = [
        to(0, Plus, 0, 0, One),
        to(2, Plus, 0, 0, One),
        to(0, Plus, 1, 0, Zero),
        to(2, Plus, 1, 0, Zero),
    ];
    assert_eq!(rt; out.as_slice(), want.as_slice());
    let begins = Change {
        time: 0,
        value: One,
    };
    assert_eq!(rt; block.log(0), [begins].as_slice());
    assert_eq!(rt; block.log(2), [].as_slice());
    assert_eq!(rt; (block.mark(), block.done()), (0, true));
    drop(block);
    Ok(())
}

fn log_after(
    alloc: Global,
    calls: &[Call],
    block: &mut Block,
    out: &mut Vec<Message>,
) -> Result<Vec<Change>, Fail> {
    make_all(calls, block, out)?;
    Ok(Vec::from_slice(alloc, block.log(Q))?)
}

/// The flip-flop's log, after some calls, and what its block told.
fn toggle(alloc: Global, calls: &[Call], out: &mut Vec<Message>) -> Result<Vec<Change>, Fail> {
    let mut block = block_of(alloc, TOGGLE, TOGGLE_SETTINGS, TOGGLE_CLOCK, 1, out)?;
    let log = log_after(alloc, calls, &mut block, out);
    drop(block);
    log
}

fn assert_toggles(
    rt: &impl Abort,
    alloc: Global,
    calls: &[Call],
    told: &[Message],
    log: &[Change],
) -> Result<(), Fail> {
    let mut out = Vec::new(alloc);
    let logged = toggle(alloc, calls, &mut out)?;
    assert_eq!(rt; logged.as_slice(), log);
    assert_eq!(rt; out.as_slice(), told);
    Ok(())
}

/// The flip-flop loads X at 3, and after a message on its data at 0 One.
#[test]
fn a_rollback_to_0_keeps_what_a_flip_flop_begins_with(rt: HostRuntime) -> Result<(), Fail> {
    let calls = [
        Advance(9, 4),
        Receive(to(1, Plus, N, 0, One)),
        Advance(9, 4),
    ];
    let sent = [
        to(0, Plus, Q, 0, Zero),
        to(0, Plus, Q, 4, X),
        to(0, Minus, Q, 4, X),
        to(0, Plus, Q, 4, One),
    ];
    let pair = |time, value| Change { time, value };
    for (made, told, log) in [
        (&calls[..0], &sent[..1], [pair(0, Zero)].as_slice()),
        (
            &calls[..1],
            &sent[..2],
            [pair(0, Zero), pair(4, X)].as_slice(),
        ),
        (&calls[..2], &sent[..3], [pair(0, Zero)].as_slice()),
        (
            calls.as_slice(),
            sent.as_slice(),
            [pair(0, Zero), pair(4, One)].as_slice(),
        ),
    ] {
        assert_toggles(&rt, rt.alloc(), made, told, log)?;
    }
    Ok(())
}
