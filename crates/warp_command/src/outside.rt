//! The texts outside: files by name, and standard input.
ghost use Rattle.std.specs.Prelude.{◌≡◌, IfOk, IfSome, false};
ghost use Rattle.warp_command.specs.Outside.{GivesOnce};

use crate::channel::Unwritten;
use crate::texts::{FetchFault, Texts};
use std::alloc::Global;
use std::io::{Eprint, ErrorKind, Read};
use std::rt::Files;
use std::{fs, io};

/// After so many reads a reader that doesn't end counts as unreadable.
const MOST_READS: u64 = 4_294_967_296;

/// The files that names name, and standard input under the name `-`, which is had once. How far a run has come is told on
/// standard error, in one line that is written over.
#[derive(Drop)]
pub struct Outside<'a, R: Files + Input + Eprint> {
    rt: &'a R,
    has_given_input: bool,
}

impl<'a, R: Files + Input + Eprint> Outside<'a, R> {
    /// The texts outside, none of them read yet.
    pub fn new(rt: &'a R) -> Outside<'a, R>
        ensures { result.has_given_input ≡ false }
    {
        Outside {
            rt,
            has_given_input: false,
        }
    }
}

fn fault_of(error: &io::Error) -> FetchFault {
    if error.kind() == ErrorKind::OutOfMemory {
        FetchFault::Memory
    } else {
        FetchFault::Unreadable
    }
}

/// All that a reader has left.
pub fn read_all<R: Read>(alloc: Global, reader: &mut R) -> Result<Vec<u8>, FetchFault>
    ensures { IfOk result (λ bytes. IfSome (R.remaining reader.old) (λ rest. bytes.items ≡ rest)) }
{
    let mut bytes = Vec::new(alloc);
    let mut chunk = [0; 4096];
    for _ in 0..MOST_READS {
        match reader.read(&mut chunk) {
            Ok(0) => return Ok(bytes),
            Ok(count) => {
                if bytes.extend_from_slice(&chunk[..count]).is_err() {
                    return Err(FetchFault::Memory);
                }
            }
            Err(error) => {
                if error.kind() != ErrorKind::Interrupted {
                    return Err(fault_of(&error));
                }
            }
        }
    }
    Err(FetchFault::Unreadable)
}

impl<R: Files + Input + Eprint + AllocGlobal> Texts for Outside<'_, R> {
    ghost gives = { λ outside name result left. GivesOnce outside.has_given_input name result left.has_given_input };

    ghost keeps = { λ outside _ _ _ left. left.has_given_input ≡ outside.has_given_input };

    fn fetch(&mut self, alloc: Global, name: &str) -> Result<Vec<u8>, FetchFault> {
        if name == "-" {
            if self.has_given_input {
                return Err(FetchFault::Unreadable);
            }
            self.has_given_input = true;
            return read_all(alloc, &mut self.rt.reader());
        }
        match fs::read(self.rt, name) {
            Ok(bytes) => Ok(bytes),
            Err(error) => Err(fault_of(&error)),
        }
    }

    fn keep(&mut self, name: &str, text: &[u8]) -> Result<(), Unwritten> {
        match fs::write(self.rt, name, text) {
            Ok(()) => Ok(()),
            Err(_) => Err(Unwritten),
        }
    }

    fn come_to(&self, time: u64, until: u64) {
        let _ = eprint!(self.rt; "\r{time} of {until}");
    }

    fn arrive(&self) {
        let _ = eprint!(self.rt; "\n");
    }
}
