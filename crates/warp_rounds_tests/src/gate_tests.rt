ghost use Rattle.std.specs.Prelude.{◌≤◌};

use gate_netlist::{Circuit, Cut, read_bench};
use gate_stimulus::Stimulus;
use gate_vcd::read_stimulus;
use std::alloc::Global;
use std::hint;
use std::sync::Wait;
use std::sync::atomic::Ordering::SeqCst;
use std::sync::atomic::{AtomicBool, AtomicU64};
use std::test::Fail;
use std::thread::Threads;
use warp_block::{AllLogs, Block};
use warp_rounds::{Gate, run};

/// Four buffers, each over an input of its own: in four blocks none tells another anything.
const BENCH: &str =
    "INPUT(P)\nINPUT(Q)\nINPUT(R)\nINPUT(S)\nA = BUFF(P)\nB = BUFF(Q)\nC = BUFF(R)\nD = BUFF(S)\n";

/// Each input changes at each time from 0 to 11. So a block finishes one event time for each time that its mark rises.
const STIMULUS: &str =
    "$var wire 1 i P $end $var wire 1 i Q $end $var wire 1 i R $end $var wire 1 i S $end
$enddefinitions $end
#0 1i #1 0i #2 1i #3 0i #4 1i #5 0i #6 1i #7 0i #8 1i #9 0i #10 1i #11 0i";

const BLOCKS: u32 = 4;

const POLLS: u32 = 10_000_000;

/// Measures by how much a block's mark rises in a turn.
#[derive(Drop)]
struct Ruler {
    /// The mark of each block when its turn began.
    marks: [AtomicU64; 4],
    longest: AtomicU64,
}

impl Ruler {
    fn new() -> Ruler {
        Ruler {
            marks: [
                AtomicU64::new(0),
                AtomicU64::new(0),
                AtomicU64::new(0),
                AtomicU64::new(0),
            ],
            longest: AtomicU64::new(0),
        }
    }

    fn mark_of(&self, block: &Block) -> Option<&AtomicU64> {
        self.marks.get(block.part().block() as usize)
    }
}

impl Gate<AllLogs> for Ruler {
    fn entered(&self, block: &Block) {
        if let Some(mark) = self.mark_of(block) {
            mark.store(block.mark(), SeqCst);
        }
    }

    fn leaving(&self, block: &Block) {
        if let Some(mark) = self.mark_of(block) {
            let finished = block.mark().saturating_sub(mark.load(SeqCst));
            self.longest.fetch_max(finished, SeqCst);
        }
    }
}

/// Counts the blocks that take turns at once. Each turn waits for more than there are workers, until one was in vain for
/// `POLLS` polls.
#[derive(Drop)]
struct Crowd {
    workers: u64,
    held: AtomicU64,
    most: AtomicU64,
    gave_up: AtomicBool,
}

impl Crowd {
    fn new(workers: u32) -> Crowd {
        Crowd {
            workers: u64::from(workers),
            held: AtomicU64::new(0),
            most: AtomicU64::new(0),
            gave_up: AtomicBool::new(false),
        }
    }
}

impl Gate<AllLogs> for Crowd {
    fn entered(&self, _block: &Block) {
        let others = self.held.fetch_add(1, SeqCst);
        self.most.fetch_max(others.saturating_add(1), SeqCst);
        for _ in 0..POLLS {
            if self.most.load(SeqCst) > self.workers || self.gave_up.load(SeqCst) {
                return;
            }
            hint::spin_loop();
        }
        self.gave_up.store(true, SeqCst);
    }

    fn leaving(&self, _block: &Block) {
        self.held.fetch_sub(1, SeqCst);
    }
}

/// Runs the buffers in four blocks, up to 20.
fn run_buffers<G: Gate<AllLogs> + Sync, R: Threads + Wait + Sync>(
    rt: &R,
    alloc: Global,
    workers: u32,
    window: u32,
    gate: &G,
) -> Result<(), Fail>
    requires workers { (1 ≤ workers) × (workers ≤ 64) }
    requires window { (1 ≤ window) × (window ≤ 1000000) }
{
    let bench = read_bench(alloc, BENCH.as_bytes())?;
    let circuit = Circuit::of(alloc, bench, "".as_bytes())?;
    let ran = run_circuit(rt, alloc, &circuit, workers, window, gate);
    drop(circuit);
    ran
}

fn run_circuit<G: Gate<AllLogs> + Sync, R: Threads + Wait + Sync>(
    rt: &R,
    alloc: Global,
    circuit: &Circuit,
    workers: u32,
    window: u32,
    gate: &G,
) -> Result<(), Fail>
    requires workers { (1 ≤ workers) × (workers ≤ 64) }
    requires window { (1 ≤ window) × (window ≤ 1000000) }
{
    let stimulus = read_stimulus(alloc, STIMULUS.as_bytes(), circuit)?;
    let cut = Cut::even(alloc, circuit, BLOCKS)?;
    let waves = run(
        rt, alloc, circuit, &cut, &stimulus, 20, workers, window, gate,
    );
    drop(cut);
    drop(stimulus);
    drop(waves?);
    Ok(())
}

#[test]
fn no_turn_is_longer_than_the_window(rt: HostRuntime) -> Result<(), Fail> {
    for window in [1, 3, 12] {
        for workers in [1, 2] {
            let gate = Ruler::new();
            run_buffers(&rt, rt.alloc(), workers, window, &gate)?;
            let longest = gate.longest.load(SeqCst);
            assert_eq!(rt; longest, u64::from(window), "{workers}");
        }
    }
    Ok(())
}

#[test]
fn as_many_blocks_take_turns_at_once_as_there_are_workers(rt: HostRuntime) -> Result<(), Fail> {
    for workers in [1, 2, 3, 4] {
        let gate = Crowd::new(workers);
        run_buffers(&rt, rt.alloc(), workers, 5, &gate)?;
        assert_eq!(rt; gate.most.load(SeqCst), u64::from(workers));
    }
    Ok(())
}

/// B swings from 1 on, in block 0, which reads A of block 1.
const TOLD: &str = "INPUT(P)\nINPUT(Q)\nA = BUFF(P)\nB = NAND(B, Q)\nC = AND(A, B)\n";

const TOLD_SETTINGS: &str = "[block]\nA = 1\nB = 0\nC = 0\n";

const TOLD_STIMULUS: &str = "$var wire 1 p P $end $var wire 1 q Q $end
$enddefinitions $end
#0 0p 0q #1 1p 1q";

/// The mark of block 0 after its first turn.
#[derive(Drop)]
struct First {
    mark: AtomicU64,
}

impl Gate<AllLogs> for First {
    fn entered(&self, _block: &Block) {}

    fn leaving(&self, block: &Block) {
        if block.part().block() == 0 {
            let _ = self.mark.compare_exchange(0, block.mark(), SeqCst, SeqCst);
        }
    }
}

/// Runs the swing by one worker up to 500.
fn run_swing<G: Gate<AllLogs> + Sync, R: Threads + Wait + Sync>(
    rt: &R,
    alloc: Global,
    circuit: &Circuit,
    stimulus: &str,
    window: u32,
    gate: &G,
) -> Result<(), Fail>
    requires { (1 ≤ window) × (window ≤ 1000000) }
{
    let cut = circuit.cut().ok_or("a cut")?;
    if !cut.fits(circuit) {
        return Err(Fail::from("a cut of another circuit"));
    }
    let stimulus = read_stimulus(alloc, stimulus.as_bytes(), circuit)?;
    let waves = run(rt, alloc, circuit, cut, &stimulus, 500, 1, window, gate);
    drop(stimulus);
    drop(waves?);
    Ok(())
}

/// Before the block that tells it has had a turn, a block goes about as far as the first lead, which is 8.
#[test]
fn a_block_waits_for_what_it_is_told(rt: HostRuntime) -> Result<(), Fail> {
    let gate = First {
        mark: AtomicU64::new(0),
    };
    let bench = read_bench(rt.alloc(), TOLD.as_bytes())?;
    let circuit = Circuit::of(rt.alloc(), bench, TOLD_SETTINGS.as_bytes())?;
    let ran = run_swing(&rt, rt.alloc(), &circuit, TOLD_STIMULUS, 1000, &gate);
    drop(circuit);
    ran?;
    let mark = gate.mark.load(SeqCst);
    assert!(rt; 4 < mark && mark < 16, "{mark}");
    Ok(())
}

/// C of block 0 stays Zero, while the other nets swing there from 1 on: some thousand changes, more than a worker makes for one draw.
/// Block 1 reads C, and has nothing to do from 2 on until P rises.
const IDLE: &str = "INPUT(P)\nINPUT(Q)\nB = NAND(B, Q)\nC = AND(B, P)\nA = AND(C, P)
D = NAND(D, Q)\nE = NAND(E, Q)\nF = NAND(F, Q)\nG = NAND(G, Q)\nH = NAND(H, Q)\nI = NAND(I, Q)\nJ = NAND(J, Q)
K = NAND(K, Q)\nL = NAND(L, Q)\nM = NAND(M, Q)\nN = NAND(N, Q)\nO = NAND(O, Q)\nR = NAND(R, Q)\nS = NAND(S, Q)
";

const IDLE_SETTINGS: &str = "[block]\nB = 0\nC = 0\nA = 1\nD = 0\nE = 0\nF = 0\nG = 0\nH = 0\nI = 0
J = 0\nK = 0\nL = 0\nM = 0\nN = 0\nO = 0\nR = 0\nS = 0
";

const IDLE_STIMULUS: &str = "$var wire 1 p P $end $var wire 1 q Q $end
$enddefinitions $end
#0 0p 0q #1 1q #450 1p";

/// Looks for turns that leave something at the floor, and counts those of block 1 that leave its next time as it is.
#[derive(Drop)]
struct Floors {
    /// The next time of block 1 when its turn began.
    next: AtomicU64,
    rests: AtomicU64,
    left: AtomicBool,
}

/// The next time of a block, 0 where there is none.
fn next_of(block: &Block) -> u64 {
    block.next_time().unwrap_or(0)
}

impl Gate<AllLogs> for Floors {
    fn entered(&self, block: &Block) {
        if block.part().block() == 1 {
            self.next.store(next_of(block), SeqCst);
        }
    }

    fn leaving(&self, block: &Block) {
        let next = next_of(block);
        if next != 0 && next <= block.floor() {
            self.left.store(true, SeqCst);
        }
        if block.part().block() == 1 && next != 0 && next == self.next.load(SeqCst) {
            self.rests.fetch_add(1, SeqCst);
        }
    }
}

/// A turn finishes what is left at its floor. It may finish none where nothing is.
#[test]
fn a_turn_may_rest_past_its_floor_alone(rt: HostRuntime) -> Result<(), Fail> {
    let gate = Floors {
        next: AtomicU64::new(0),
        rests: AtomicU64::new(0),
        left: AtomicBool::new(false),
    };
    let bench = read_bench(rt.alloc(), IDLE.as_bytes())?;
    let circuit = Circuit::of(rt.alloc(), bench, IDLE_SETTINGS.as_bytes())?;
    let ran = run_swing(&rt, rt.alloc(), &circuit, IDLE_STIMULUS, 1, &gate);
    drop(circuit);
    ran?;
    assert!(rt; !gate.left.load(SeqCst));
    assert!(rt; gate.rests.load(SeqCst) > 0);
    Ok(())
}
