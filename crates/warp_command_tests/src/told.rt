//! What the program answers to a line over texts that have names.

use std::alloc::Global;
use std::io::{self, Write};
use std::sync::Wait;
use std::test::Fail;
use std::thread::Threads;
use warp_command::{FetchFault, Stream, Texts, Unwritten, program};

/// Texts by name; `full` has no memory left, all other names are unreadable, and none is written.
#[derive(Drop)]
pub struct Shelf<'a> {
    pub texts: &'a [(&'a str, &'a [u8])],
    /// The names that were asked for, each with a blank after it.
    pub asked: String,
}

impl Texts for Shelf<'_> {
    fn fetch(&mut self, alloc: Global, name: &str) -> Result<Vec<u8>, FetchFault> {
        if self.asked.push_str(name).is_err() || self.asked.push(' ').is_err() || name == "full" {
            return Err(FetchFault::Memory);
        }
        for (known, text) in self.texts {
            if *known == name {
                return Vec::from_slice(alloc, text).map_err(|_| FetchFault::Memory);
            }
        }
        Err(FetchFault::Unreadable)
    }

    fn keep(&mut self, _name: &str, _text: &[u8]) -> Result<(), Unwritten> {
        Err(Unwritten)
    }

    fn come_to(&self, _time: u64, _until: u64) {}

    fn arrive(&self) {}
}

/// Takes so many bytes, one at a time, and then fails, at a flush too.
#[derive(Drop)]
pub struct Failing(pub u32);

impl Write for Failing {
    fn write(&mut self, buf: &[u8]) -> io::Result<usize> {
        if self.0 == 0 {
            return Err(io::ErrorKind::BrokenPipe.into());
        }
        self.0 -= 1;
        Ok(if buf.is_empty() { 0 } else { 1 })
    }

    fn flush(&mut self) -> io::Result<()> {
        if self.0 == 0 {
            return Err(io::ErrorKind::BrokenPipe.into());
        }
        Ok(())
    }
}

/// What the program answers to a line: its status and what it wrote.
#[derive(Drop)]
pub struct Told {
    pub status: u8,
    pub out: Vec<u8>,
    pub err: Vec<u8>,
    pub asked: String,
}

pub fn tell<R: Threads + Wait + Sync>(
    rt: &R,
    alloc: Global,
    line: &str,
    texts: &[(&str, &[u8])],
) -> Result<Told, Fail> {
    let words: Vec<&str> = line.split(' ').collect(alloc)?;
    let mut shelf = Shelf {
        texts,
        asked: String::new(alloc),
    };
    let mut out = Stream::new(Vec::new(alloc));
    let mut err = Stream::new(Vec::new(alloc));
    let status = program(rt, alloc, words.as_slice(), &mut shelf, &mut out, &mut err);
    Ok(Told {
        status,
        out: out.into_writer(),
        err: err.into_writer(),
        asked: shelf.asked,
    })
}
