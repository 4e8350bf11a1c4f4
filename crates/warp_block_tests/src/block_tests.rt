use Logic::{One, X, Z, Zero};
use Sign::{Minus, Plus};
use gate_netlist::{Circuit, Cut, read_bench};
use gate_stimulus::Stimulus;
use gate_values::{Change, Logic};
use gate_vcd::read_stimulus;
use std::alloc::Global;
use std::process::Abort;
use std::test::Fail;
use warp_block::{Block, BlockFault, Entry, Look, MOST_HORIZON, Message, Part, Sign};

/// Two buffers, an AND and a NOT, in three blocks; nets P, Q, A, B, Y, Z.
pub(crate) const PAIR: &str =
    "INPUT(P)\nINPUT(Q)\nA = BUFF(P)\nB = BUFF(Q)\nY = AND(A, B)\nZ = NOT(Y)\n";

pub(crate) const PAIR_CUT: &str = "[block]\nA = 0\nB = 0\nY = 1\nZ = 2\n";

pub(crate) const PAIR_UNSET: &str =
    "$var wire 1 p P $end $var wire 1 q Q $end $enddefinitions $end";

/// A buffer in one block, and a flip-flop in another; nets P, A, Q, CK.
const SAMPLED: &str = "INPUT(P)\nA = BUFF(P)\nQ = DFF(A)\n";

const SAMPLED_CUT: &str = "[block]\nA = 0\nQ = 1\n";

const SAMPLED_CLOCK: &str =
    "$var wire 1 p P $end $var wire 1 c CK $end $enddefinitions $end #0 0c #2 1c #4 0c #6 xc";

pub(crate) const P: u32 = 0;

pub(crate) const A: u32 = 2;

pub(crate) const B: u32 = 3;

pub(crate) const Y: u32 = 4;

/// The circuit that two texts give.
pub(crate) fn circuit_of(alloc: Global, bench: &str, settings: &str) -> Result<Circuit, Fail> {
    let bench = read_bench(alloc, bench.as_bytes())?;
    Ok(Circuit::of(alloc, bench, settings.as_bytes())?)
}

/// The part of a block of a circuit.
fn cut_out(alloc: Global, circuit: &Circuit, block: u32) -> Result<Part, Fail> {
    let cut = circuit.cut().ok_or("a cut")?;
    if !cut.fits(circuit) || block >= cut.blocks() {
        return Err(Fail::from("a cut of another circuit"));
    }
    Ok(Part::of(alloc, circuit, cut, block)?)
}

/// The part of a block of the circuit that two texts give.
pub(crate) fn part_of(
    alloc: Global,
    bench: &str,
    settings: &str,
    block: u32,
) -> Result<Part, Fail> {
    let circuit = circuit_of(alloc, bench, settings)?;
    let part = cut_out(alloc, &circuit, block);
    drop(circuit);
    part
}

/// A new block of a circuit, with a horizon.
fn stimulated(
    alloc: Global,
    circuit: &Circuit,
    stimulus: &Stimulus,
    block: u32,
    horizon: u64,
    out: &mut Vec<Message>,
) -> Result<Block, Fail> {
    if horizon > MOST_HORIZON {
        return Err(Fail::from("a horizon past the limit"));
    }
    let part = cut_out(alloc, circuit, block)?;
    Ok(Block::new(alloc, part, stimulus, horizon, out)?)
}

fn block_in(
    alloc: Global,
    circuit: &Circuit,
    stimulus: &str,
    block: u32,
    horizon: u64,
    out: &mut Vec<Message>,
) -> Result<Block, Fail> {
    let stimulus = read_stimulus(alloc, stimulus.as_bytes(), circuit)?;
    let made = stimulated(alloc, circuit, &stimulus, block, horizon, out);
    drop(stimulus);
    made
}

/// A new block of a circuit that three texts give, with a horizon.
fn block_until(
    alloc: Global,
    [bench, settings, stimulus]: [&str; 3],
    block: u32,
    horizon: u64,
    out: &mut Vec<Message>,
) -> Result<Block, Fail> {
    let circuit = circuit_of(alloc, bench, settings)?;
    let made = block_in(alloc, &circuit, stimulus, block, horizon, out);
    drop(circuit);
    made
}

/// The same with horizon 10.
pub(crate) fn block_of(
    alloc: Global,
    bench: &str,
    settings: &str,
    stimulus: &str,
    block: u32,
    out: &mut Vec<Message>,
) -> Result<Block, Fail> {
    block_until(alloc, [bench, settings, stimulus], block, 10, out)
}

pub(crate) fn pair(alloc: Global, out: &mut Vec<Message>) -> Result<Block, Fail> {
    block_of(alloc, PAIR, PAIR_CUT, PAIR_UNSET, 1, out)
}

/// Block 1 of the pair, with a horizon.
pub(crate) fn pair_until(
    alloc: Global,
    horizon: u64,
    out: &mut Vec<Message>,
) -> Result<Block, Fail> {
    block_until(alloc, [PAIR, PAIR_CUT, PAIR_UNSET], 1, horizon, out)
}

pub(crate) fn to(block: u32, sign: Sign, net: u32, time: u64, value: Logic) -> Message {
    Message {
        time,
        block,
        net,
        value,
        sign,
    }
}

/// A message to block 1.
pub(crate) fn told(net: u32, time: u64, value: Logic) -> Message {
    to(1, Plus, net, time, value)
}

/// A call of a block.
#[derive(Clone, Copy)]
pub(crate) enum Call {
    Receive(Message),
    /// So many steps are asked for, and so many are to be finished.
    Advance(u32, u32),
}

use Call::{Advance, Receive};

/// Makes a call, whose answer has to be as wanted.
fn make(call: Call, block: &mut Block, out: &mut Vec<Message>) -> Result<(), Fail> {
    match call {
        Receive(message) => block.receive(message, out)?,
        Advance(steps, finished) => {
            if block.advance(steps, out)? != finished {
                return Err(Fail::from("another number of steps"));
            }
        }
    }
    Ok(())
}

/// Makes some calls, one after another.
pub(crate) fn make_all(
    calls: &[Call],
    block: &mut Block,
    out: &mut Vec<Message>,
) -> Result<(), Fail> {
    for call in calls {
        make(*call, block, out)?;
    }
    Ok(())
}

/// The first calls of block 1: both inputs of Y become One, at 1 and 2.
fn both_one() -> [Call; 3] {
    [
        Receive(told(A, 1, One)),
        Receive(told(B, 2, One)),
        Advance(2, 2),
    ]
}

/// A straggler follows: B was Zero at 1.
fn straggler() -> [Call; 3] {
    [Receive(told(B, 1, Zero)), Advance(2, 2), Advance(1, 0)]
}

/// Makes the first calls of block 1, and some more.
pub(crate) fn make_both_one(
    more: &[Call],
    block: &mut Block,
    out: &mut Vec<Message>,
) -> Result<(), Fail> {
    make_all(both_one().as_slice(), block, out)?;
    make_all(more, block, out)
}

#[test]
fn a_straggler_is_rolled_back(rt: HostRuntime) -> Result<(), Fail> {
    let mut out = Vec::new(rt.alloc());
    let mut block = pair(rt.alloc(), &mut out)?;
    let made = make_both_one(straggler().as_slice(), &mut block, &mut out);
    drop(block);
    made?;
    let want = [
        to(2, Plus, Y, 3, One),
        to(2, Minus, Y, 3, One),
        to(2, Plus, Y, 2, Zero),
        to(2, Plus, Y, 3, One),
    ];
    assert_eq!(rt; out.as_slice(), want.as_slice());
    Ok(())
}

#[test]
fn a_straggler_moves_the_mark_back(rt: HostRuntime) -> Result<(), Fail> {
    let mut out = Vec::new(rt.alloc());
    let mut block = pair(rt.alloc(), &mut out)?;
    let calls = straggler();
    let made = make_both_one(&calls[..1], &mut block, &mut out);
    let times = (block.next_time(), block.mark());
    drop(block);
    made?;
    assert_eq!(rt; times, (Some(1), 1));
    Ok(())
}

fn look_after_both(block: &mut Block, out: &mut Vec<Message>) -> Result<Look, Fail> {
    make_both_one(&[], block, out)?;
    Ok(block.look()?)
}

/// A look at block 1 after its first calls.
fn look_at_both(alloc: Global) -> Result<Look, Fail> {
    let mut out = Vec::new(alloc);
    let mut block = pair(alloc, &mut out)?;
    let look = look_after_both(&mut block, &mut out);
    drop(block);
    look
}

#[test]
fn a_look_shows_times(rt: HostRuntime) -> Result<(), Fail> {
    let look = look_at_both(rt.alloc())?;
    assert!(rt; look.mark() == 3 && look.floor() == 0 && look.horizon() == 10);
    assert!(rt; look.next_time() == None && look.done());
    assert!(rt; look.next_entry(A, 0) == Some(1) && look.next_entry(A, 2) == None);
    drop(look);
    Ok(())
}

#[test]
fn a_look_shows_entries_and_logs(rt: HostRuntime) -> Result<(), Fail> {
    let look = look_at_both(rt.alloc())?;
    assert_eq!(rt;
        look.log(Y),
        [Change {
            time: 3,
            value: One
        }]
        .as_slice()
    );
    assert_eq!(rt; look.entry(A, 1), numbers(0, 1, 0, 0));
    assert_eq!(rt; look.entry(0, 0), numbers(0, 0, 0, 0));
    drop(look);
    Ok(())
}

pub(crate) fn numbers(zero: i128, one: i128, x: i128, z: i128) -> Entry {
    Entry { zero, one, x, z }
}

fn assert_waits(rt: &impl Abort, block: &mut Block, out: &mut Vec<Message>) -> Result<(), Fail> {
    make(Receive(to(1, Minus, A, 4, One)), block, out)?;
    let waiting = block.entry(A, 4);
    assert_eq!(rt; waiting, numbers(0, -1, 0, 0));
    assert_eq!(rt; (waiting.effective(), block.mark()), (None, 0));
    make(Receive(told(A, 4, One)), block, out)?;
    assert_eq!(rt; block.entry(A, 4), numbers(0, 0, 0, 0));
    Ok(())
}

#[test]
fn an_antimessage_waits_for_its_message(rt: HostRuntime) -> Result<(), Fail> {
    let mut out = Vec::new(rt.alloc());
    let mut block = pair(rt.alloc(), &mut out)?;
    let waited = assert_waits(&rt, &mut block, &mut out);
    drop(block);
    waited?;
    assert!(rt; out.is_empty());
    Ok(())
}

#[test]
fn a_number_has_a_limit(rt: HostRuntime) {
    let most = 1_000_000_000_000_000_000_000_000_000_000;
    let full = numbers(0, most, 0, 0);
    assert!(rt; full.bump(One, Plus) == None);
    assert!(rt; full.bump(One, Minus) == Some(numbers(0, most - 1, 0, 0)));
    assert!(rt; full.bump(Z, Minus) == Some(numbers(0, most, 0, -1)));
    assert!(rt; numbers(0, 0, -most, 0).bump(X, Minus) == None);
}

#[test]
fn the_first_value_of_which_a_message_stands(rt: HostRuntime) {
    assert_eq!(rt; numbers(0, 0, 2, 1).effective(), Some(X));
    assert_eq!(rt; numbers(-1, 0, 0, 1).effective(), Some(Z));
}

/// The block answers so to these messages.
pub(crate) fn assert_answers(
    rt: &impl Abort,
    block: &mut Block,
    out: &mut Vec<Message>,
    rows: &[(Message, Result<(), BlockFault>)],
) {
    for (message, answer) in rows {
        assert_eq!(rt; block.receive(*message, out), *answer, "{message:?}");
    }
}

#[test]
fn what_a_block_refuses(rt: HostRuntime) -> Result<(), Fail> {
    let mut out = Vec::new(rt.alloc());
    let mut block = pair(rt.alloc(), &mut out)?;
    let rows = [
        (told(A, 11, One), Err(BlockFault::PastHorizon)),
        (told(P, 1, One), Err(BlockFault::WrongNet)),
        (told(Y, 1, One), Err(BlockFault::WrongNet)),
        (to(2, Plus, A, 1, One), Err(BlockFault::WrongNet)),
    ];
    assert_answers(&rt, &mut block, &mut out, rows.as_slice());
    let made = make(Receive(told(A, 10, One)), &mut block, &mut out);
    let next = block.next_time();
    drop(block);
    made?;
    assert_eq!(rt; (next, out.len()), (Some(10), 0));
    Ok(())
}

/// The flip-flop loads One on the edge at 2; whether it loads at 6 is uncertain.
fn edges() -> [Call; 3] {
    [
        Receive(told(1, 1, One)),
        Receive(told(1, 3, Zero)),
        Advance(9, 6),
    ]
}

fn log_after(
    alloc: Global,
    more: &[Call],
    block: &mut Block,
    out: &mut Vec<Message>,
) -> Result<Vec<Change>, Fail> {
    make_all(edges().as_slice(), block, out)?;
    make_all(more, block, out)?;
    Ok(Vec::from_slice(alloc, block.log(2))?)
}

/// The log of the flip-flop, after some calls.
fn flop_log(alloc: Global, more: &[Call]) -> Result<Vec<Change>, Fail> {
    let mut out = Vec::new(alloc);
    let mut block = block_of(alloc, SAMPLED, SAMPLED_CUT, SAMPLED_CLOCK, 1, &mut out)?;
    let log = log_after(alloc, more, &mut block, &mut out);
    drop(block);
    log
}

fn assert_flop_log(
    rt: &impl Abort,
    alloc: Global,
    more: &[Call],
    want: &[Change],
) -> Result<(), Fail> {
    let log = flop_log(alloc, more)?;
    assert_eq!(rt; log.as_slice(), want);
    Ok(())
}

#[test]
fn a_rollback_restores_contents(rt: HostRuntime) -> Result<(), Fail> {
    let loaded = Change {
        time: 3,
        value: One,
    };
    let unsure = Change { time: 7, value: X };
    let more = [Receive(told(1, 5, One)), Advance(9, 2)];
    assert_flop_log(&rt, rt.alloc(), &[], &[loaded, unsure])?;
    assert_flop_log(&rt, rt.alloc(), &more[..1], &[loaded])?;
    assert_flop_log(&rt, rt.alloc(), more.as_slice(), &[loaded])
}

fn assert_local(rt: &impl Abort, part: &Part) {
    assert_eq!(rt; part.block(), 1);
    for net in 0..8 {
        assert_eq!(rt; part.owns(net), net == Y, "{net}");
        assert_eq!(rt; part.reads(net), net == A || net == B, "{net}");
    }
}

#[test]
fn a_part_is_local(rt: HostRuntime) -> Result<(), Fail> {
    let mut out = Vec::new(rt.alloc());
    let block = pair(rt.alloc(), &mut out)?;
    assert_local(&rt, block.part());
    drop(block);
    Ok(())
}
