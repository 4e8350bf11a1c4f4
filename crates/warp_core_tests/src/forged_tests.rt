//! Calls that are drawn from a seed, most of them refused, on a block whose logs are computed again, plainly, from what
//! it has received.

use super::drawn_tests::Dice;
use super::given::{Given, Texts};
use BlockFault::{BelowFloor, PastHorizon, WrongNet};
use Logic::{One, X, Z, Zero};
use Sign::{Minus, Plus};
use gate_values::{Change, Kind, Logic, flip, table};
use std::alloc::Global;
use std::test::Fail;
use warp_block::{Block, BlockFault, Message, Sign};

/// A NAND and a flip-flop that read each other, and an XOR, in block 1. Block 0 tells it the nets A and B, of which B is
/// its clock, and block 2 reads Y, Q and S. Nets P, A, B, Y, Q, S, W.
const RING: Texts = Texts {
    bench: "INPUT(P)\nA = BUFF(P)\nB = NOT(A)\nY = NAND(A, Q)\nQ = DFF(Y)\nS = XOR(Y, B)\nW = AND(Y, Q, S)\n",
    settings: "[net]\nY = 2\nS = 3\n[clocks]\nQ = \"B\"\n[init]\nQ = \"0\"\n[block]\nA = 0\nB = 0\nY = 1\nQ = 1\nS = 1\nW = 2\n",
    stimulus: "$var wire 1 p P $end $enddefinitions $end #0 0p #5 1p",
};

const A: u32 = 1;

const B: u32 = 2;

const Y: u32 = 3;

const Q: u32 = 4;

const S: u32 = 5;

/// The block's own nets, each with its delay.
const OWN: [(u32, u64); 3] = [(Y, 2), (Q, 1), (S, 3)];

const HORIZON: u64 = 40;

/// Any message, of which less than a third can be for block 1.
fn any_message(dice: &mut Dice) -> Message {
    Message {
        time: dice.roll(44) as u64,
        block: if dice.roll(8) == 0 { dice.roll(4) } else { 1 },
        net: dice.roll(7),
        value: match dice.roll(4) {
            0 => Zero,
            1 => One,
            2 => X,
            _ => Z,
        },
        sign: if dice.roll(3) == 0 { Minus } else { Plus },
    }
}

/// The values of the nets at a time, and what the flip-flop holds.
#[derive(Clone, Copy)]
struct Row {
    a: Logic,
    b: Logic,
    y: Logic,
    q: Logic,
    s: Logic,
    held: Logic,
}

/// All times before 0.
const BEFORE: Row = Row {
    a: X,
    b: X,
    y: X,
    q: X,
    s: X,
    held: Zero,
};

/// The row so long before the one that comes next.
fn ago(rows: &[Row], delay: usize) -> Row {
    match rows.len().checked_sub(delay) {
        Some(place) => rows.get(place).copied().unwrap_or(BEFORE),
        None => BEFORE,
    }
}

/// The value that an input net has at a time, where it had another before.
fn told(block: &Block, net: u32, time: u64, before: Logic) -> Logic {
    block.entry(net, time).effective().unwrap_or(before)
}

/// The row that comes next, at a time, by what the block has received.
fn next_row(block: &Block, rows: &[Row], time: u64) -> Row {
    let last = ago(rows, 1);
    let b = told(block, B, time, last.b);
    Row {
        a: told(block, A, time, last.a),
        b,
        y: next_y(ago(rows, 2)),
        q: last.held,
        s: next_s(ago(rows, 3)),
        held: flip(last.held, last.b, b, last.y),
    }
}

/// What the NAND makes of the values two times ago.
fn next_y(row: Row) -> Logic {
    table(Kind::Nand, &[row.a, row.q])
}

/// What the XOR makes of the values three times ago.
fn next_s(row: Row) -> Logic {
    table(Kind::Xor, &[row.y, row.b])
}

fn rows_of(alloc: Global, block: &Block) -> Result<Vec<Row>, Fail> {
    let mut rows = Vec::new(alloc);
    for time in 0..HORIZON + 1 {
        let row = next_row(block, rows.as_slice(), time);
        rows.push(row)?;
    }
    Ok(rows)
}

fn value_in(row: &Row, net: u32) -> Logic {
    match net {
        Y => row.y,
        Q => row.q,
        _ => row.s,
    }
}

/// Whether a log has the changes of a net below an end, and no other.
fn is_log(log: &[Change], rows: &[Row], net: u32, end: u64) -> bool {
    let mut place = 0_usize;
    let mut before = X;
    for (time, row) in (0..end).zip(rows) {
        let value = value_in(row, net);
        if value != before {
            if log.get(place) != Some(&Change { time, value }) {
                return false;
            }
            place = place.saturating_add(1);
        }
        before = value;
    }
    place == log.len()
}

fn changes_at(log: &[Change], time: u64) -> bool {
    for change in log {
        if change.time == time {
            return true;
        }
    }
    false
}

/// The least event time, by a look at each time.
fn next_time(block: &Block) -> Option<u64> {
    for time in 0..HORIZON + 1 {
        let is_told = block.entry(A, time).effective().is_some()
            || block.entry(B, time).effective().is_some();
        let is_own = changes_at(block.log(Y), time) || changes_at(block.log(Q), time);
        if time >= block.mark() && (is_told || is_own) {
            return Some(time);
        }
    }
    None
}

/// Why a message is to be refused.
fn refusal(block: &Block, message: Message) -> Option<BlockFault> {
    if message.block != 1 || (message.net != A && message.net != B) {
        return Some(WrongNet);
    }
    if message.time > HORIZON {
        return Some(PastHorizon);
    }
    if message.time < block.floor() {
        return Some(BelowFloor);
    }
    None
}

/// Makes a drawn call.
fn call(block: &mut Block, dice: &mut Dice, out: &mut Vec<Message>) -> Result<bool, Fail> {
    match dice.roll(16) {
        0 => {
            let floor = dice.roll(43).min(dice.roll(43));
            return Ok(block.commit(floor as u64).is_ok());
        }
        1 | 2 => {
            block.advance(dice.roll(4), out)?;
            return Ok(true);
        }
        _ => {}
    }
    let message = any_message(dice);
    match refusal(block, message) {
        None => block.receive(message, out)?,
        Some(fault) => {
            if block.receive(message, out) != Err(fault) {
                return Err(Fail::from("another refusal"));
            }
            return Ok(false);
        }
    }
    Ok(true)
}

/// The place of a change of an own net, among the changes up to the horizon.
fn place_of(net: u32, change: Change) -> usize {
    let value = match change.value {
        Zero => 0,
        One => 1,
        X => 2,
        Z => 3,
    };
    ((net % 8) as usize * 256 + (change.time % 64) as usize * 4).saturating_add(value)
}

const PLACES: usize = 2048;

fn add(counts: &mut Vec<i64>, net: u32, change: Change, number: i64) {
    if let Some(count) = counts.get_mut(place_of(net, change)) {
        *count = count.saturating_add(number);
    }
}

/// How often each change is logged.
fn logged(alloc: Global, block: &Block) -> Result<Vec<i64>, Fail> {
    let mut counts = vec![in alloc; 0_i64; PLACES]?;
    for (net, _) in OWN {
        for change in block.log(net) {
            add(&mut counts, net, *change, 1);
        }
    }
    Ok(counts)
}

/// Adds what was sent, messages less antimessages, and empties the list.
fn count_sent(counts: &mut Vec<i64>, out: &mut Vec<Message>) {
    for message in out.iter() {
        let change = Change {
            time: message.time,
            value: message.value,
        };
        let number = if message.sign == Plus { 1 } else { -1 };
        add(counts, message.net, change, number);
    }
    out.clear();
}

/// Whether everything below the floor is settled.
fn is_settled(block: &Block) -> bool {
    for time in 0..block.floor().min(HORIZON + 1) {
        if !block.entry(A, time).is_settled() || !block.entry(B, time).is_settled() {
            return false;
        }
    }
    true
}

/// Tells whether the block has the logs that its rows give.
fn check_logs(alloc: Global, block: &Block) -> Result<(), Fail> {
    let rows = rows_of(alloc, block)?;
    for (net, delay) in OWN {
        let end = block.mark().saturating_add(delay);
        if !is_log(block.log(net), rows.as_slice(), net, end) {
            return Err(Fail::from("another log"));
        }
    }
    Ok(())
}

/// Tells whether the block has sent what it has logged.
fn check_sent(alloc: Global, block: &Block, sent: &[i64]) -> Result<(), Fail> {
    let counts = logged(alloc, block)?;
    if counts.as_slice() != sent {
        return Err(Fail::from("other messages"));
    }
    Ok(())
}

/// Tells whether what the block shows, and what it sent, is what it makes of the messages that it has received.
fn check(alloc: Global, block: &Block, sent: &[i64]) -> Result<(), Fail> {
    check_logs(alloc, block)?;
    if block.next_time() != next_time(block) {
        return Err(Fail::from("another event time"));
    }
    check_sent(alloc, block, sent)?;
    if !is_settled(block) {
        return Err(Fail::from("an unsettled entry below the floor"));
    }
    Ok(())
}

/// Block 1, and what it sends.
fn new_block(alloc: Global, out: &mut Vec<Message>) -> Result<Block, Fail> {
    let given = Given::of(alloc, RING)?;
    let block = given.block(alloc, 1, HORIZON, out);
    drop(given);
    block
}

/// Makes so many drawn calls of a block, which is checked after each hundredth: how many were refused, and its floor.
/// The list has what the block has sent so far.
fn play_on(
    alloc: Global,
    block: &mut Block,
    out: &mut Vec<Message>,
    seed: u32,
    calls: u32,
) -> Result<(u32, u64), Fail> {
    let mut dice = Dice::new(seed);
    let mut sent = vec![in alloc; 0_i64; PLACES]?;
    let mut refused = 0_u32;
    for made in 0..calls {
        if !call(block, &mut dice, out)? {
            refused = refused.saturating_add(1);
        }
        if made % 100 == 99 {
            count_sent(&mut sent, out);
            check(alloc, block, sent.as_slice())?;
        }
    }
    Ok((refused, block.floor()))
}

/// Makes so many drawn calls of a new block: how many were refused, and its floor.
fn play(alloc: Global, seed: u32, calls: u32) -> Result<(u32, u64), Fail> {
    let mut out = Vec::new(alloc);
    let mut block = new_block(alloc, &mut out)?;
    let played = play_on(alloc, &mut block, &mut out, seed, calls);
    drop(block);
    played
}

#[test]
fn a_hundred_thousand_drawn_calls_keep_the_law(rt: HostRuntime) -> Result<(), Fail> {
    let (refused, _) = play(rt.alloc(), 1, 100_000)?;
    assert!(rt; refused > 50_000 && refused < 90_000, "{refused} refused");
    Ok(())
}

#[test]
fn drawn_calls_of_new_blocks_keep_the_law(rt: HostRuntime) -> Result<(), Fail> {
    let mut highest = 0;
    for seed in 2..200 {
        let (_, floor) = play(rt.alloc(), seed, 200)?;
        highest = floor.max(highest);
    }
    assert!(rt; highest > 10, "no floor is above {highest}");
    Ok(())
}
