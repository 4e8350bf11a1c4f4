use Logic::One;
use Sign::Plus;
use gate_netlist::{Circuit, read_bench};
use gate_stimulus::Stimulus;
use gate_values::Logic;
use gate_vcd::read_stimulus;
use std::alloc::Global;
use std::process::Abort;
use std::sync::Wait;
use std::test::Fail;
use warp_block::{Block, BlockFault, Entry, Message, Part, Sign};
use warp_rounds::{NoGate, Site, TurnReport, turn};

/// Two buffers, an AND and a NOT, in three blocks; nets P, Q, A, B, Y, Z.
const PAIR: &str = "INPUT(P)\nINPUT(Q)\nA = BUFF(P)\nB = BUFF(Q)\nY = AND(A, B)\nZ = NOT(Y)\n";

const PAIR_CUT: &str = "[block]\nA = 0\nB = 0\nY = 1\nZ = 2\n";

const PAIR_UNSET: &str = "$var wire 1 p P $end $var wire 1 q Q $end $enddefinitions $end";

const A: u32 = 2;

const B: u32 = 3;

const Y: u32 = 4;

/// The circuit of the pair, with its cut.
fn pair(alloc: Global) -> Result<Circuit, Fail> {
    let bench = read_bench(alloc, PAIR.as_bytes())?;
    Ok(Circuit::of(alloc, bench, PAIR_CUT.as_bytes())?)
}

/// The part of block 1.
fn part_of_and(alloc: Global, circuit: &Circuit) -> Result<Part, Fail> {
    let cut = circuit.cut().ok_or("a cut")?;
    if !cut.fits(circuit) || cut.blocks() < 2 {
        return Err(Fail::from("a cut of another circuit"));
    }
    Ok(Part::of(alloc, circuit, cut, 1)?)
}

/// The block of the AND, new, with horizon 10.
fn block_of_and(alloc: Global) -> Result<Block, Fail> {
    let circuit = pair(alloc)?;
    let block = block_in(alloc, &circuit);
    drop(circuit);
    block
}

fn block_in(alloc: Global, circuit: &Circuit) -> Result<Block, Fail> {
    let stimulus = read_stimulus(alloc, PAIR_UNSET.as_bytes(), circuit)?;
    let block = stimulated(alloc, circuit, &stimulus);
    drop(stimulus);
    block
}

fn stimulated(alloc: Global, circuit: &Circuit, stimulus: &Stimulus) -> Result<Block, Fail> {
    let part = part_of_and(alloc, circuit)?;
    Ok(Block::new(alloc, part, stimulus, 10, &mut Vec::new(alloc))?)
}

/// The site of that block.
fn site_of_and(alloc: Global) -> Result<Site, Fail> {
    let block = block_of_and(alloc)?;
    Ok(Site::new(alloc, block))
}

/// A net becomes One at a time, as a block is told.
fn rises(block: u32, net: u32, time: u64) -> Message {
    Message {
        time,
        block,
        net,
        value: One,
        sign: Plus,
    }
}

/// One message of One, or none, has come.
fn ones(one: i128) -> Entry {
    Entry {
        zero: 0,
        one,
        x: 0,
        z: 0,
    }
}

#[test]
fn a_turn_reports_what_it_sends(rt: HostRuntime) -> Result<(), Fail> {
    let mut block = block_of_and(rt.alloc())?;
    let mut out = Vec::new(rt.alloc());
    let messages = [rises(1, A, 1), rises(1, B, 2)];
    let report = turn(&mut block, messages.as_slice(), 0, 5, &mut out);
    drop(block);
    assert_eq!(rt; report, Ok(TurnReport { least: 3 }));
    assert_eq!(rt; out.as_slice(), [rises(2, Y, 3)].as_slice());
    Ok(())
}

/// The mark, what is known of A at 1, and whether the block is done.
fn shown<R: Wait>(rt: &R, site: &Site) -> Result<(u64, Entry, bool), Fail> {
    let look = site.look(rt)?;
    let shown = (look.mark(), look.entry(A, 1), look.done());
    drop(look);
    Ok(shown)
}

fn assert_waits<R: Abort + Wait>(rt: &R, site: &Site, out: &mut Vec<Message>) -> Result<(), Fail> {
    site.put(rt, rises(1, A, 1))?;
    let (mark, entry, _) = shown(rt, site)?;
    assert!(rt; mark == 0 && entry == ones(0));
    let report = site.visit(rt, 0, 5, &NoGate, out);
    assert_eq!(rt; report, Ok(TurnReport { least: 11 }));
    let (mark, entry, done) = shown(rt, site)?;
    assert!(rt; mark == 2 && entry == ones(1) && done);
    Ok(())
}

#[test]
fn a_message_waits_in_the_inbox(rt: HostRuntime) -> Result<(), Fail> {
    let site = site_of_and(rt.alloc())?;
    let mut out = Vec::new(rt.alloc());
    let waited = assert_waits(&rt, &site, &mut out);
    let block = site.into_block();
    let mark = block.mark();
    drop(block);
    waited?;
    assert_eq!(rt; mark, 2);
    Ok(())
}

fn assert_refused<R: Abort + Wait>(
    rt: &R,
    site: &Site,
    out: &mut Vec<Message>,
) -> Result<(), Fail> {
    site.put(rt, rises(1, A, 11))?;
    site.put(rt, rises(1, A, 1))?;
    let report = site.visit(rt, 0, 5, &NoGate, out);
    assert_eq!(rt; report, Err(BlockFault::PastHorizon));
    let (mark, entry, _) = shown(rt, site)?;
    assert!(rt; mark == 0 && entry == ones(0));
    let report = site.visit(rt, 0, 5, &NoGate, out);
    assert_eq!(rt; report, Ok(TurnReport { least: 11 }));
    Ok(())
}

#[test]
fn a_refused_message_ends_the_visit(rt: HostRuntime) -> Result<(), Fail> {
    let site = site_of_and(rt.alloc())?;
    let mut out = Vec::new(rt.alloc());
    let told = assert_refused(&rt, &site, &mut out);
    drop(site);
    told
}

/// The floor and the mark.
fn marks<R: Wait>(rt: &R, site: &Site) -> Result<(u64, u64), Fail> {
    let look = site.look(rt)?;
    let marks = (look.floor(), look.mark());
    drop(look);
    Ok(marks)
}

fn assert_commits<R: Abort + Wait>(
    rt: &R,
    site: &Site,
    out: &mut Vec<Message>,
) -> Result<(), Fail> {
    site.put(rt, rises(1, A, 4))?;
    let report = site.visit(rt, 3, 5, &NoGate, out);
    assert_eq!(rt; report, Ok(TurnReport { least: 11 }));
    assert_eq!(rt; marks(rt, site)?, (3, 5));
    site.put(rt, rises(1, B, 2))?;
    let report = site.visit(rt, 4, 5, &NoGate, out);
    assert_eq!(rt; report, Err(BlockFault::BelowFloor));
    let report = site.visit(rt, 2, 5, &NoGate, out);
    assert_eq!(rt; report, Err(BlockFault::FloorBack));
    assert_eq!(rt; marks(rt, site)?, (3, 5));
    Ok(())
}

#[test]
fn a_visit_commits_at_its_floor(rt: HostRuntime) -> Result<(), Fail> {
    let site = site_of_and(rt.alloc())?;
    let mut out = Vec::new(rt.alloc());
    let committed = assert_commits(&rt, &site, &mut out);
    drop(site);
    committed
}
