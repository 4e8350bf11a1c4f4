use crate::dump_tests::{DUMP, write};
use byte_sinks::Sink;
use std::alloc::Global;
use std::process::Abort;
use std::test::Fail;
use vcd_dumps::WriteFault;

/// A sink that takes so many bytes as it has room for, and then fails: it answers that it took none, or nothing.
#[derive(Drop)]
struct Short {
    taken: Vec<u8>,
    room: usize,
    mute: bool,
    failed: bool,
}

impl Sink for Short {
    ghost held = { λ sink. record { bytes = sink.taken.items; failed = sink.failed } };

    fn put(&mut self, bytes: &[u8]) -> Option<usize> {
        let count = bytes.len().min(self.room);
        if bytes.is_empty() {
            return Some(0);
        }
        if count == 0 || self.taken.extend_from_slice(&bytes[..count]).is_err() {
            self.failed = true;
            return if self.mute { Some(0) } else { None };
        }
        self.room -= count;
        Some(count)
    }

    fn failed(&self) -> bool {
        self.failed
    }
}

/// What is wanted of a writer whose sink has room for so many bytes.
fn wanted(room: usize) -> Result<(), WriteFault> {
    if room < DUMP.len() {
        Err(WriteFault {
            written: room as u128,
        })
    } else {
        Ok(())
    }
}

/// A sink with room for so many bytes fails as it is to, and takes the first bytes of the dump.
fn assert_short(rt: &impl Abort, alloc: Global, room: usize, mute: bool) -> Result<(), Fail> {
    let mut sink = Short {
        taken: Vec::new(alloc),
        room,
        mute,
        failed: false,
    };
    let answer = write(alloc, &mut sink)?;
    assert!(rt; answer == wanted(room), "{room}");
    let taken = sink.taken.as_slice();
    assert!(rt;
        DUMP.as_bytes().starts_with(taken) && taken.len() == room,
        "{room}"
    );
    Ok(())
}

#[test]
fn a_sink_fails_after_each_number_of_bytes(rt: HostRuntime) -> Result<(), Fail> {
    for room in 0..=167 {
        assert_short(&rt, rt.alloc(), room, false)?;
        assert_short(&rt, rt.alloc(), room, true)?;
    }
    Ok(())
}
