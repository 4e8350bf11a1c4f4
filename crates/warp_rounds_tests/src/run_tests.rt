ghost use Rattle.std.specs.Prelude.{◌≤◌};
ghost use Rattle.gate_netlist.specs.Circuit.{CutFits};

use Logic::{One, Zero};
use gate_netlist::{Circuit, Cut, read_bench};
use gate_values::{Change, Logic};
use gate_vcd::read_stimulus;
use net_waves::Waves;
use std::alloc::Global;
use std::hint;
use std::sync::Wait;
use std::sync::atomic::AtomicBool;
use std::sync::atomic::Ordering::SeqCst;
use std::test::Fail;
use std::thread::Threads;
use warp_block::{AllLogs, Block};
use warp_rounds::{Gate, NoGate, Watch, Watched, run, run_watched};

const BENCH: &str = "INPUT(P)\nINPUT(Q)\nA = BUFF(P)\nB = BUFF(Q)\nY = AND(A, B)\nZ = NOT(Y)\n";

const STIMULUS: &str = "$var wire 1 p P $end $var wire 1 q Q $end $enddefinitions $end #0 1p 1q";

/// Each net's one change up to time 10, with delays of 1.
static WAVES: [(u32, u64, Logic); 6] = [
    (0, 0, One),
    (1, 0, One),
    (2, 1, One),
    (3, 1, One),
    (4, 2, One),
    (5, 3, Zero),
];

const POLLS: u32 = 10_000_000;

/// Holds a block's turn until turns of others have begun, for at most `POLLS` polls.
#[derive(Drop)]
struct Meeting {
    /// The blocks that each block waits for.
    awaits: [&'static [usize]; 3],
    /// Whether a turn of the block has begun.
    begun: [AtomicBool; 3],
    /// Whether the block was finished, with the right logs, when its last turn ended.
    finished: [AtomicBool; 3],
    gave_up: AtomicBool,
}

impl Meeting {
    fn new(awaits: [&'static [usize]; 3]) -> Meeting {
        Meeting {
            awaits,
            begun: unset(),
            finished: unset(),
            gave_up: AtomicBool::new(false),
        }
    }

    fn have_begun(&self, blocks: &[usize]) -> bool {
        for block in blocks {
            if !is_set(&self.begun, *block) {
                return false;
            }
        }
        true
    }
}

impl Gate<AllLogs> for Meeting {
    fn entered(&self, block: &Block) {
        let block = block.part().block() as usize;
        store(&self.begun, block, true);
        let Some(awaited) = self.awaits.get(block) else {
            return;
        };
        for _ in 0..POLLS {
            if self.have_begun(awaited) {
                return;
            }
            hint::spin_loop();
        }
        self.gave_up.store(true, SeqCst);
    }

    fn leaving(&self, block: &Block) {
        let number = block.part().block() as usize;
        store(
            &self.finished,
            number,
            block.done() && logs_are_right(block),
        );
    }
}

fn unset() -> [AtomicBool; 3] {
    [
        AtomicBool::new(false),
        AtomicBool::new(false),
        AtomicBool::new(false),
    ]
}

fn is_set(flags: &[AtomicBool; 3], at: usize) -> bool {
    match flags.get(at) {
        Some(flag) => flag.load(SeqCst),
        None => false,
    }
}

fn store(flags: &[AtomicBool; 3], at: usize, value: bool) {
    if let Some(flag) = flags.get(at) {
        flag.store(value, SeqCst);
    }
}

/// Whether a net's only change is to a value at a time.
fn is_one_change(changes: &[Change], time: u64, value: Logic) -> bool {
    changes == [Change { time, value }].as_slice()
}

fn logs_are_right(block: &Block) -> bool {
    for (net, time, value) in &WAVES {
        if block.part().owns(*net) && !is_one_change(block.log(*net), *time, *value) {
            return false;
        }
    }
    true
}

fn waves_are_right(waves: &Waves) -> bool {
    for (net, time, value) in &WAVES {
        if *net >= waves.nets() || !is_one_change(waves.changes(*net), *time, *value) {
            return false;
        }
    }
    waves.nets() == 6
}

/// Runs a circuit that is cut, and answers whether the waves are right.
fn runs_cut<R: Threads + Wait + Sync>(
    rt: &R,
    alloc: Global,
    circuit: &Circuit,
    cut: &Cut,
    workers: u32,
    gate: &Meeting,
) -> Result<bool, Fail>
    requires cut { CutFits circuit.now cut.now }
    requires workers { (1 ≤ workers) × (workers ≤ 64) }
{
    let stimulus = read_stimulus(alloc, STIMULUS.as_bytes(), circuit)?;
    let waves = run(rt, alloc, circuit, cut, &stimulus, 10, workers, 5, gate);
    drop(stimulus);
    let waves = waves?;
    let are_right = waves_are_right(&waves);
    drop(waves);
    Ok(are_right)
}

/// The same of a circuit cut evenly into so many blocks.
fn runs_even<R: Threads + Wait + Sync>(
    rt: &R,
    alloc: Global,
    circuit: &Circuit,
    blocks: u32,
    workers: u32,
    gate: &Meeting,
) -> Result<bool, Fail>
    requires blocks { (1 ≤ blocks) × (blocks ≤ 1024) }
    requires workers { (1 ≤ workers) × (workers ≤ 64) }
{
    let cut = Cut::even(alloc, circuit, blocks)?;
    let are_right = runs_cut(rt, alloc, circuit, &cut, workers, gate);
    drop(cut);
    are_right
}

fn circuit_of(alloc: Global, bench: &str, settings: &str) -> Result<Circuit, Fail> {
    let bench = read_bench(alloc, bench.as_bytes())?;
    Ok(Circuit::of(alloc, bench, settings.as_bytes())?)
}

/// Runs the circuit cut evenly into so many blocks, and answers whether the waves are right.
fn runs<R: Threads + Wait + Sync>(
    rt: &R,
    alloc: Global,
    blocks: u32,
    workers: u32,
    gate: &Meeting,
) -> Result<bool, Fail>
    requires blocks { (1 ≤ blocks) × (blocks ≤ 1024) }
    requires workers { (1 ≤ workers) × (workers ≤ 64) }
{
    let circuit = circuit_of(alloc, BENCH, "")?;
    let are_right = runs_even(rt, alloc, &circuit, blocks, workers, gate);
    drop(circuit);
    are_right
}

#[test]
fn two_turns_meet(rt: HostRuntime) -> Result<(), Fail> {
    let gate = Meeting::new([&[1], &[0], &[]]);
    assert!(rt; runs(&rt, rt.alloc(), 2, 2, &gate)?);
    assert!(rt; !gate.gave_up.load(SeqCst));
    assert!(rt; is_set(&gate.finished, 0) && is_set(&gate.finished, 1));
    Ok(())
}

#[test]
fn one_worker_takes_one_turn_at_a_time(rt: HostRuntime) -> Result<(), Fail> {
    let gate = Meeting::new([&[1], &[0], &[]]);
    assert!(rt; runs(&rt, rt.alloc(), 2, 1, &gate)?);
    assert!(rt; gate.gave_up.load(SeqCst));
    Ok(())
}

#[test]
fn a_held_worker_leaves_the_other_blocks_to_the_other_one(rt: HostRuntime) -> Result<(), Fail> {
    let gate = Meeting::new([&[1, 2], &[], &[]]);
    assert!(rt; runs(&rt, rt.alloc(), 3, 2, &gate)?);
    assert!(rt; !gate.gave_up.load(SeqCst));
    Ok(())
}

/// An inverter and a flip-flop over it, in two blocks; nets N, Q, CK. The flip-flop's block tells the inverter's that it
/// begins with 0, before the first round.
const TOGGLE: &str = "N = NOT(Q)\nQ = DFF(N)\n";

const TOGGLE_SETTINGS: &str = "[init]\nQ = \"0\"\n[block]\nN = 0\nQ = 1\n";

const TOGGLE_STIMULUS: &str = "$var wire 1 c CK $end $enddefinitions $end #0 0c #3 1c #5 0c #7 1c";

/// The waves of a circuit that its settings cut, up to 10.
fn toggled_of<R: Threads + Wait + Sync>(
    rt: &R,
    alloc: Global,
    circuit: &Circuit,
    workers: u32,
) -> Result<Waves, Fail>
    requires { (1 ≤ workers) × (workers ≤ 64) }
{
    let cut = circuit.cut().ok_or("a cut")?;
    if !cut.fits(circuit) {
        return Err(Fail::from("a cut of another circuit"));
    }
    let stimulus = read_stimulus(alloc, TOGGLE_STIMULUS.as_bytes(), circuit)?;
    let waves = run(rt, alloc, circuit, cut, &stimulus, 10, workers, 5, &NoGate);
    drop(stimulus);
    Ok(waves?)
}

/// The toggle's waves up to 10.
fn toggled<R: Threads + Wait + Sync>(rt: &R, alloc: Global, workers: u32) -> Result<Waves, Fail>
    requires { (1 ≤ workers) × (workers ≤ 64) }
{
    let circuit = circuit_of(alloc, TOGGLE, TOGGLE_SETTINGS)?;
    let waves = toggled_of(rt, alloc, &circuit, workers);
    drop(circuit);
    waves
}

#[test]
fn initial_contents_are_told_before_the_first_round(rt: HostRuntime) -> Result<(), Fail> {
    let pair = |time, value| Change { time, value };
    let inverses = [pair(1, One), pair(5, Zero), pair(9, One)];
    let contents = [pair(0, Zero), pair(4, One), pair(8, Zero)];
    for workers in [1, 2] {
        let waves = toggled(&rt, rt.alloc(), workers)?;
        assert!(rt; waves.nets() == 3, "{workers}");
        assert_eq!(rt; waves.changes(0), inverses.as_slice(), "{workers}");
        assert_eq!(rt; waves.changes(1), contents.as_slice(), "{workers}");
        drop(waves);
    }
    Ok(())
}

/// Keeps the last floor that it was told of, and whether each was above the one before.
#[derive(Drop)]
struct Floors {
    last: u64,
    have_risen: bool,
}

impl Watch for Floors {
    fn floor(&mut self, floor: u64) {
        self.have_risen = self.have_risen && floor > self.last;
        self.last = floor;
    }
}

/// Runs a circuit that is cut into two, under a watch.
fn watched_of<R: Threads + Wait + Sync>(
    rt: &R,
    alloc: Global,
    circuit: &Circuit,
    cut: &Cut,
    workers: u32,
    floors: &mut Floors,
) -> Result<Watched, Fail>
    requires cut { CutFits circuit.now cut.now }
    requires workers { (1 ≤ workers) × (workers ≤ 64) }
{
    let stimulus = read_stimulus(alloc, STIMULUS.as_bytes(), circuit)?;
    let watched = run_watched(
        rt, alloc, circuit, cut, &stimulus, 10, workers, 5, &NoGate, floors,
    );
    drop(stimulus);
    Ok(watched?)
}

/// Runs the circuit cut evenly into two, under a watch.
fn watched<R: Threads + Wait + Sync>(
    rt: &R,
    alloc: Global,
    workers: u32,
    floors: &mut Floors,
) -> Result<Watched, Fail>
    requires { (1 ≤ workers) × (workers ≤ 64) }
{
    let circuit = circuit_of(alloc, BENCH, "")?;
    let cut = Cut::even(alloc, &circuit, 2)?;
    let watched = watched_of(rt, alloc, &circuit, &cut, workers, floors);
    drop(cut);
    drop(circuit);
    watched
}

/// The buffers' block has an event time at 0, that of the other gates at 1 and 2, whatever was taken back.
#[test]
fn what_blocks_do_is_counted(rt: HostRuntime) -> Result<(), Fail> {
    for workers in [1, 2] {
        let mut floors = Floors {
            last: 0,
            have_risen: true,
        };
        let Watched { waves, counts } = watched(&rt, rt.alloc(), workers, &mut floors)?;
        assert!(rt; waves_are_right(&waves), "{workers}");
        drop(waves);
        assert!(rt; floors.have_risen && floors.last == 11, "{workers}");
        assert!(rt; counts.rounds > 0 && counts.blocks.len() == 2, "{workers}");
        for (kept, block) in [1, 2].iter().zip(counts.blocks.as_slice()) {
            assert_eq!(rt; block.since, 0, "{workers}");
            assert_eq!(rt;
                block.steps.saturating_sub(block.undone),
                *kept,
                "{workers}"
            );
        }
        drop(counts);
    }
    Ok(())
}
