use Event::{Advance, Commit, Deliver};
use ScheduleCause::{BadLine, NumberTooLarge};
use std::test::Fail;
use warp_core::{Event, ScheduleCause, ScheduleFault, read_schedule};

/// Texts and the events that they list.
static READ: [(&str, &[Event]); 7] = [
    ("", &[]),
    ("commit", &[Commit]),
    (
        "# c\n\nadvance 0 1\nadvance 7 1\n",
        &[
            Advance { block: 0, steps: 1 },
            Advance { block: 7, steps: 1 },
        ],
    ),
    (
        "\tdeliver\t 01 \r\ncommit\r\n",
        &[Deliver { message: 1 }, Commit],
    ),
    ("  #commit 1\n #", &[]),
    (
        "deliver 4294967295\n",
        &[Deliver {
            message: 4_294_967_295,
        }],
    ),
    (
        "advance 4294967295 0",
        &[Advance {
            block: 4_294_967_295,
            steps: 0,
        }],
    ),
];

/// Texts and their first fault.
static REFUSED: [(&str, u64, ScheduleCause); 12] = [
    ("Commit", 1, BadLine),
    ("deliver 1 2", 1, BadLine),
    ("advance 1", 1, BadLine),
    ("advance 0", 1, BadLine),
    ("advance 4294967296", 1, BadLine),
    ("commit\nadvance 0 4294967296\nx", 2, NumberTooLarge),
    ("deliver 99999999999999999999999999", 1, NumberTooLarge),
    ("advance 4294967296 x", 1, BadLine),
    ("commit # now", 1, BadLine),
    ("commit\n\ndeliver +1\n", 3, BadLine),
    ("advance 0\u{b}1", 1, BadLine),
    ("commit\r", 1, BadLine),
];

#[test]
fn schedules_are_read(rt: HostRuntime) -> Result<(), Fail> {
    for (text, events) in &READ {
        let read = read_schedule(rt.alloc(), text.as_bytes())?;
        assert_eq!(rt; read.as_slice(), *events, "{text}");
    }
    Ok(())
}

#[test]
fn a_schedules_first_fault_is_told(rt: HostRuntime) -> Result<(), Fail> {
    for (text, line, cause) in &REFUSED {
        let fault = read_schedule(rt.alloc(), text.as_bytes()).err();
        let want = ScheduleFault {
            line: *line,
            cause: *cause,
        };
        assert_eq!(rt; fault, Some(want), "{text}");
    }
    Ok(())
}
