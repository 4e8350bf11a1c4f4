use Logic::{One, Zero};
use gate_values::{Change, Logic};
use std::alloc::Global;
use std::hint;
use std::process::Abort;
use std::sync::Wait;
use std::sync::atomic::AtomicBool;
use std::sync::atomic::Ordering::SeqCst;
use std::test::Fail;
use std::thread::Threads;
use warp_block::{AllLogs, Block};
use warp_rounds::Gate;
use warp_text::{Options, simulate_text};

const BENCH: &str = "INPUT(P)\nINPUT(Q)\nA = BUFF(P)\nB = BUFF(Q)\nY = AND(A, B)\nZ = NOT(Y)\n";

const SETTINGS: &str = "[block]\nA = 0\nB = 0\nY = 1\nZ = 2\n";

const STIMULUS: &str = "$var wire 1 p P $end $var wire 1 q Q $end $enddefinitions $end #0 1p 1q";

const DUMP: &str =
    "$timescale 1 ns $end\n$scope module top $end\n$var wire 1 ! P $end\n$var wire 1 \" Q $end\n$var wire 1 # A $end\n$var wire 1 $ B $end\n$var wire 1 % Y $end\n$var wire 1 & Z $end\n$upscope $end\n$enddefinitions $end\n#0\n$dumpvars\n1!\n1\"\nx#\nx$\nx%\nx&\n$end\n#1\n1#\n1$\n#2\n1%\n#3\n0&\n#10\n";

/// Each net's one change up to time 10.
const CHANGES: [(u32, u64, Logic); 6] = [
    (0, 0, One),
    (1, 0, One),
    (2, 1, One),
    (3, 1, One),
    (4, 2, One),
    (5, 3, Zero),
];

const POLLS: u32 = 10_000_000;

/// Tells which of three blocks took turns, and how they left them. Where they are to meet, the first turn of blocks 0
/// and 1 each waits for the other to begin, for at most `POLLS` polls.
#[derive(Drop)]
struct Meeting {
    meet: bool,
    begun: [AtomicBool; 3],
    /// Whether the block was done, and its logs those of the circuit, when its last turn ended.
    finished: [AtomicBool; 3],
    gave_up: AtomicBool,
}

impl Meeting {
    fn new(meet: bool) -> Meeting {
        Meeting {
            meet,
            begun: unset(),
            finished: unset(),
            gave_up: AtomicBool::new(false),
        }
    }
}

impl Gate<AllLogs> for Meeting {
    fn entered(&self, block: &Block) {
        let number = block.part().block() as usize;
        set(&self.begun, number, true);
        if !self.meet {
            return;
        }
        if number > 1 {
            return;
        }
        for _ in 0..POLLS {
            if is_set(&self.begun, 1 - number) {
                return;
            }
            hint::spin_loop();
        }
        self.gave_up.store(true, SeqCst);
    }

    fn leaving(&self, block: &Block) {
        let number = block.part().block() as usize;
        set(
            &self.finished,
            number,
            block.done() && logs_are_right(block),
        );
    }
}

fn unset() -> [AtomicBool; 3] {
    [
        AtomicBool::new(false),
        AtomicBool::new(false),
        AtomicBool::new(false),
    ]
}

fn is_set(flags: &[AtomicBool; 3], at: usize) -> bool {
    match flags.get(at) {
        Some(flag) => flag.load(SeqCst),
        None => false,
    }
}

fn set(flags: &[AtomicBool; 3], at: usize, value: bool) {
    if let Some(flag) = flags.get(at) {
        flag.store(value, SeqCst);
    }
}

fn logs_are_right(block: &Block) -> bool {
    for (net, time, value) in CHANGES {
        if block.part().owns(net) && block.log(net) != [Change { time, value }].as_slice() {
            return false;
        }
    }
    true
}

fn dump_at<R: Threads + Wait + Sync>(
    rt: &R,
    alloc: Global,
    settings: &str,
    blocks: Option<u32>,
    workers: u32,
    gate: &Meeting,
) -> Result<Vec<u8>, Fail> {
    let Some(options) = Options::new(10, blocks, workers, 5) else {
        return Err("no options".into());
    };
    let dump = simulate_text(
        rt,
        alloc,
        BENCH.as_bytes(),
        settings.as_bytes(),
        STIMULUS.as_bytes(),
        &options,
        gate,
    )?;
    Ok(dump)
}

/// The dump is that of the circuit.
fn assert_dump<R: Abort + Threads + Wait + Sync>(
    rt: &R,
    alloc: Global,
    settings: &str,
    blocks: Option<u32>,
    workers: u32,
    gate: &Meeting,
) -> Result<(), Fail> {
    let dump = dump_at(rt, alloc, settings, blocks, workers, gate)?;
    assert_eq!(rt; dump.as_slice(), DUMP.as_bytes());
    Ok(())
}

#[test]
fn two_turns_meet(rt: HostRuntime) -> Result<(), Fail> {
    let gate = Meeting::new(true);
    assert_dump(&rt, rt.alloc(), "", Some(2), 2, &gate)?;
    assert!(rt; !gate.gave_up.load(SeqCst));
    assert!(rt; is_set(&gate.finished, 0) && is_set(&gate.finished, 1));
    Ok(())
}

/// The turns that are taken are those of so many blocks.
fn assert_begun(rt: &impl Abort, gate: &Meeting, count: u32) {
    assert!(rt; is_set(&gate.begun, 0), "{count}");
    assert_eq!(rt; is_set(&gate.begun, 1), count > 1, "{count}");
    assert_eq!(rt; is_set(&gate.begun, 2), count > 2, "{count}");
}

/// Settings and the number of blocks that is asked for, and how many there are: as many as are asked for, else as the settings
/// have them, else one.
static CUTS: [(&str, Option<u32>, u32); 4] = [
    ("", None, 1),
    (SETTINGS, None, 3),
    (SETTINGS, Some(1), 1),
    (SETTINGS, Some(2), 2),
];

#[test]
fn the_circuit_is_cut_as_told(rt: HostRuntime) -> Result<(), Fail> {
    for (settings, blocks, count) in &CUTS {
        let gate = Meeting::new(false);
        assert_dump(&rt, rt.alloc(), settings, *blocks, 1, &gate)?;
        assert_begun(&rt, &gate, *count);
    }
    Ok(())
}
