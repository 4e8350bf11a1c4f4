use crate::told::{Failing, Shelf, tell};
use gate_netlist::{BenchCause, BenchFault, SettingsFault};
use gate_vcd::{StimCause, StimFault};
use std::alloc::Global;
use std::io::{self, Read};
use std::process::Abort;
use std::sync::Wait;
use std::test::Fail;
use std::thread::Threads;
use warp_block::{BlockFault, MOST_HORIZON};
use warp_command::{
    Channel, FetchFault, Request, Run, Sources, Stream, program, read_all, read_line, split_joined,
};
use warp_core::{GatherFault, PlayFault, ScheduleCause, ScheduleFault};
use warp_rounds::RunFault;
use warp_text::{Fault, Options};

/// The status over no text, where standard output and error are these.
fn status_of<R: Threads + Wait + Sync>(
    rt: &R,
    alloc: Global,
    words: &[&str],
    out: &mut impl Channel,
    err: &mut impl Channel,
) -> u8 {
    let mut shelf = Shelf {
        texts: &[],
        asked: String::new(alloc),
    };
    program(rt, alloc, words, &mut shelf, out, err)
}

/// The status where standard output fails after so many bytes of the version's fifteen, and what is told.
fn status_after<R: Threads + Wait + Sync>(rt: &R, alloc: Global, bytes: u32) -> (u8, Vec<u8>) {
    let mut out = Stream::new(Failing(bytes));
    let mut err = Stream::new(Vec::new(alloc));
    let status = status_of(rt, alloc, &["warp_sim", "--version"], &mut out, &mut err);
    (status, err.into_writer())
}

#[test]
fn a_failing_out_ends_with_4(rt: HostRuntime) -> Result<(), Fail> {
    let failed = b"cannot write\n".as_slice();
    for (bytes, status, told) in [
        (0, 4, failed),
        (14, 4, failed),
        (15, 4, failed),
        (16, 0, b""),
    ] {
        let (ended, err) = status_after(&rt, rt.alloc(), bytes);
        assert_eq!(rt; ended, status, "{bytes}");
        assert_eq!(rt; err.as_slice(), told, "{bytes}");
    }
    Ok(())
}

#[test]
fn a_failing_err_changes_no_status(rt: HostRuntime) -> Result<(), Fail> {
    let alloc = rt.alloc();
    for (word, status) in [("full", 3), ("b", 4), ("--speed", 2)] {
        let words = ["warp_sim", "check", word];
        let mut out = Stream::new(Vec::new(alloc));
        let mut err = Stream::new(Failing(3));
        let told = status_of(&rt, alloc, &words, &mut out, &mut err);
        assert_eq!(rt; told, status, "{word}");
    }
    Ok(())
}

/// Lines over two texts that can be read, the names that are asked for, the status, and what is written on standard error.
static FETCHED: [(&str, &str, u8, &str); 9] = [
    (
        "warp_sim run --until 5 --settings s b v",
        "s b v ",
        4,
        "cannot read v\n",
    ),
    ("warp_sim run --until 5 b full", "b full ", 3, "memory\n"),
    (
        "warp_sim run --until 5 --settings - b v",
        "- ",
        4,
        "cannot read -\n",
    ),
    (
        "warp_sim replay --until 5 --settings s b b c",
        "s b b c ",
        4,
        "cannot read c\n",
    ),
    (
        "warp_sim check --settings s c",
        "s c ",
        4,
        "cannot read c\n",
    ),
    (
        "warp_sim run --until 5 --settings full b v",
        "full ",
        3,
        "memory\n",
    ),
    ("warp_sim run --until 5 full v", "full ", 3, "memory\n"),
    ("warp_sim nets full", "full ", 3, "memory\n"),
    ("warp_sim compare full a", "full ", 3, "memory\n"),
];

fn assert_fetched<R: Abort + Threads + Wait + Sync>(
    rt: &R,
    alloc: Global,
    line: &str,
    asked: &str,
    status: u8,
    message: &str,
) -> Result<(), Fail> {
    let told = tell(rt, alloc, line, &[("s", b""), ("b", b"")])?;
    assert_eq!(rt; told.asked.as_str(), asked, "{line}");
    assert_eq!(rt; told.err.as_slice(), message.as_bytes(), "{line}");
    assert_eq!(rt; told.status, status, "{line}");
    assert!(rt; told.out.is_empty(), "{line}");
    Ok(())
}

#[test]
fn texts_are_fetched_in_order(rt: HostRuntime) -> Result<(), Fail> {
    for (line, asked, status, message) in &FETCHED {
        assert_fetched(&rt, rt.alloc(), line, asked, *status, message)?;
    }
    Ok(())
}

/// An end time, blocks, workers and a window, and whether they are options.
static OPTIONS: [(u64, Option<u32>, u32, u32, bool); 9] = [
    (0, None, 1, 1, true),
    (MOST_HORIZON, Some(1024), 64, 1_000_000, true),
    (MOST_HORIZON + 1, None, 1, 1, false),
    (0, Some(0), 1, 1, false),
    (0, Some(1025), 1, 1, false),
    (0, None, 0, 1, false),
    (0, None, 65, 1, false),
    (0, None, 1, 0, false),
    (0, None, 1, 1_000_001, false),
];

#[test]
fn options_keep_to_their_limits(rt: HostRuntime) -> Result<(), Fail> {
    for (until, blocks, workers, window, fits) in &OPTIONS {
        let options = Options::new(*until, *blocks, *workers, *window);
        assert_eq!(rt; options.is_some(), *fits, "{until} {workers} {window}");
    }
    Ok(())
}

static WORDS: [&str; 10] = [
    "warp_sim",
    "run",
    "b",
    "--settings",
    "s",
    "v",
    "--until",
    "7",
    "--workers",
    "2",
];

fn run_of(alloc: Global) -> Result<Run<'static>, Fail> {
    match read_line(alloc, &WORDS) {
        Ok(Request::Run(run)) => Ok(run),
        _ => Err("no run".into()),
    }
}

#[test]
fn a_line_gives_its_request(rt: HostRuntime) -> Result<(), Fail> {
    let run = run_of(rt.alloc())?;
    assert_eq!(rt; Some(run.options), Options::new(7, None, 2, 1000));
    assert_eq!(rt; run.settings, Some("s"));
    let Sources::Apart { bench, stimulus } = run.sources else {
        return Err("joined".into());
    };
    assert_eq!(rt; bench, "b");
    assert_eq!(rt; stimulus, "v");
    Ok(())
}

/// Faults, their lines and the status that the program ends with.
static FAULTS: [(Fault, &str, u8); 13] = [
    (
        Fault::Bench(BenchFault {
            line: 12,
            cause: BenchCause::DrivenTwice,
        }),
        "bench line 12: DrivenTwice",
        1,
    ),
    (
        Fault::Settings(SettingsFault::BadDelay),
        "settings: BadDelay",
        1,
    ),
    (
        Fault::Stimulus(StimFault {
            at: 48,
            cause: StimCause::StampFalls,
        }),
        "stimulus at 48: StampFalls",
        1,
    ),
    (
        Fault::Stimulus(StimFault {
            at: 0,
            cause: StimCause::MissingInput,
        }),
        "stimulus net 0: MissingInput",
        1,
    ),
    (
        Fault::Stimulus(StimFault {
            at: 3,
            cause: StimCause::NotScalar,
        }),
        "stimulus net 3: NotScalar",
        1,
    ),
    (
        Fault::Run(RunFault::Block(BlockFault::BelowFloor)),
        "run: block BelowFloor",
        3,
    ),
    (
        Fault::Run(RunFault::Stalled { time: 7 }),
        "run: stalled at 7",
        3,
    ),
    (
        Fault::Run(RunFault::Gather(GatherFault::Unfinished { block: 1 })),
        "run: gather Unfinished",
        3,
    ),
    (Fault::Run(RunFault::NoThread), "run: no thread", 3),
    (
        Fault::Schedule(ScheduleFault {
            line: 7,
            cause: ScheduleCause::BadLine,
        }),
        "schedule line 7: BadLine",
        1,
    ),
    (
        Fault::Event {
            number: 2,
            cause: PlayFault::NoSuchBlock,
        },
        "event 2: NoSuchBlock",
        3,
    ),
    (Fault::Unfinished { time: 9 }, "unfinished at 9", 3),
    (Fault::Memory, "memory", 3),
];

/// Want of memory, whatever part wanted it.
fn memory_faults() -> [Fault; 6] {
    [
        Fault::from(BenchFault::MEMORY),
        Fault::from(StimFault::MEMORY),
        Fault::from(SettingsFault::Memory),
        Fault::from(RunFault::Block(BlockFault::Memory)),
        Fault::from(RunFault::Gather(GatherFault::Memory)),
        Fault::from(RunFault::Memory),
    ]
}

#[test]
fn faults_have_their_lines(rt: HostRuntime) -> Result<(), Fail> {
    for (fault, line, status) in &FAULTS {
        let text = fault.to_string(rt.alloc())?;
        assert_eq!(rt; text.as_str(), *line);
        assert_eq!(rt; fault.status(), *status);
    }
    for fault in memory_faults() {
        assert_eq!(rt; fault, Fault::Memory);
    }
    Ok(())
}

/// Texts, and what stands before and after their first parting line.
static JOINED: [(&[u8], &[u8], &[u8]); 12] = [
    (b"", b"", b""),
    (b"a\nb", b"a\nb", b""),
    (b"%%", b"", b""),
    (b"%%\n", b"", b""),
    (b"a\n%%\nb\n", b"a\n", b"b\n"),
    (b"a\r\n%%\r\nb", b"a\r\n", b"b"),
    (b"a\n%%", b"a\n", b""),
    (b"a\n%%\r", b"a\n%%\r", b""),
    (b"a\n%%x\n%%\nb", b"a\n%%x\n", b"b"),
    (b" %%\n%% \na%%\n", b" %%\n%% \na%%\n", b""),
    (b"a\n%%\nb\n%%\nc", b"a\n", b"b\n%%\nc"),
    (b"\n\n%%\n%%\n", b"\n\n", b"%%\n"),
];

#[test]
fn a_joined_text_is_split_at_its_first_parting_line(rt: HostRuntime) -> Result<(), Fail> {
    for (text, before, after) in &JOINED {
        let (bench, stimulus) = split_joined(text);
        assert_eq!(rt; bench, *before);
        assert_eq!(rt; stimulus, *after);
    }
    Ok(())
}

/// Gives two bytes, is interrupted, gives one more, and then ends, or fails where told so.
#[derive(Drop)]
struct Halting {
    reads: u32,
    fails: bool,
}

impl Read for Halting {
    fn read(&mut self, buf: &mut [u8]) -> io::Result<usize> {
        if buf.len() < 2 {
            return Ok(0);
        }
        if self.reads < 4 {
            self.reads += 1;
        }
        match self.reads {
            1 => {
                buf[0] = b'a';
                buf[1] = b'b';
                Ok(2)
            }
            2 => Err(io::ErrorKind::Interrupted.into()),
            3 => {
                buf[0] = b'c';
                Ok(1)
            }
            _ if self.fails => Err(io::ErrorKind::BrokenPipe.into()),
            _ => Ok(0),
        }
    }
}

#[test]
fn a_reader_is_read_to_its_end(rt: HostRuntime) -> Result<(), Fail> {
    let alloc = rt.alloc();
    let mut ends = Halting {
        reads: 0,
        fails: false,
    };
    match read_all(alloc, &mut ends) {
        Ok(bytes) => assert_eq!(rt; bytes.as_slice(), b"abc".as_slice()),
        Err(_) => return Err("unreadable".into()),
    }
    let mut fails = Halting {
        reads: 0,
        fails: true,
    };
    assert_eq!(rt;
        read_all(alloc, &mut fails).err(),
        Some(FetchFault::Unreadable)
    );
    Ok(())
}
