//! Bytes on their way into a sink, which takes them in lots: a `put` for each line would cost more than the line.

ghost use Rattle.std.specs.Prelude.{◌≡◌, ◌+◌, ◌++◌, ◌≤◌, ◌↔◌, [], IsTrue, decimal, length, take};
ghost use Rattle.byte_sinks.specs.Sink.{Writes};
ghost use Rattle.byte_sinks.specs.Lots.{Passes};

use crate::put::put_all;
use crate::sink::Sink;
use itoa::Buffer;
use std::marker::Model;

/// How many bytes wait at most.
const ROOM: usize = 4096;

/// How many bytes a short piece has room for.
const SHORT: usize = 8;

/// The bytes that wait, and how many the sink has taken.
#[derive(Drop)]
pub struct Lot {
    bytes: [u8; 4096],
    count: usize,
    written: u128,
}

impl Model for Lot {
    ghost use Rattle.byte_sinks.specs.Lots.{Lot as Waiting, lot_of, IsRoomy};

    ghost Value = { Waiting };

    ghost view = { lot_of };

    ghost invariant = { IsRoomy };
}

/// Writes the bytes into a buffer, from a place on.
#[inline(always)]
fn lay(buffer: &mut [u8], at: usize, bytes: &[u8])
    requires { at + length bytes.now ≤ length buffer.old }
    ensures bytes { take (at + length bytes.now) buffer.new ≡ take at buffer.old ++ bytes.now }
    ensures length { length buffer.new ≡ length buffer.old }
{
    let end = at + bytes.len();
    buffer[at..end].copy_from_slice(bytes);
}

impl Lot {
    /// No bytes wait, and the sink has taken none.
    pub fn new() -> Lot
        ensures { result ≡ record { waiting = []; written = 0 } }
    {
        Lot {
            bytes: [0; 4096],
            count: 0,
            written: 0,
        }
    }

    /// Sends what waits.
    fn flush<S: Sink>(&mut self, sink: &mut S)
        ensures sent { Writes (S.held sink.old) (S.held sink.new) self.old.written self.old.waiting self.new.written }
        ensures none { self.new.waiting ≡ [] }
    {
        self.written = put_all(sink, self.written, &self.bytes[..self.count]);
        self.count = 0;
    }

    /// Sends what waits, and tells how many bytes the sink has taken.
    pub fn finish<S: Sink>(mut self, sink: &mut S) -> u128
        ensures { Writes (S.held sink.old) (S.held sink.new) self.written self.waiting result }
    {
        self.flush(sink);
        self.written
    }

    /// Whether so many bytes more can wait.
    #[inline(always)]
    fn has_room(&self, bytes: usize) -> bool
        ensures { IsTrue result ↔ (length self.now.waiting + bytes ≤ 4096) }
    {
        bytes <= ROOM - self.count
    }

    /// Has the bytes wait behind the others.
    #[inline(always)]
    fn add(&mut self, bytes: &[u8])
        requires { length self.old.waiting + length bytes.now ≤ 4096 }
        ensures waiting { self.new.waiting ≡ self.old.waiting ++ bytes.now }
        ensures written { self.new.written ≡ self.old.written }
    {
        lay(&mut self.bytes, self.count, bytes);
        self.count += bytes.len();
    }

    /// Sends the bytes past those that wait.
    fn send<S: Sink>(&mut self, sink: &mut S, bytes: &[u8])
        ensures sent { Writes (S.held sink.old) (S.held sink.new) self.old.written bytes.now self.new.written }
        ensures waiting { self.new.waiting ≡ self.old.waiting }
    {
        self.written = put_all(sink, self.written, bytes);
    }

    /// Puts the bytes, of which some are sent.
    #[inline(never)]
    fn put_past<S: Sink>(&mut self, sink: &mut S, bytes: &[u8])
        ensures { Passes (S.held sink.old) (S.held sink.new) self.old bytes.now self.new }
    {
        self.flush(sink);
        if self.has_room(bytes.len()) {
            self.add(bytes);
            return;
        }
        self.send(sink, bytes);
    }

    /// Puts the bytes. It is part of each caller, so that bytes of a known length are moved at once.
    #[inline(always)]
    pub fn put<S: Sink>(&mut self, sink: &mut S, bytes: &[u8])
        ensures { Passes (S.held sink.old) (S.held sink.new) self.old bytes.now self.new }
    {
        if self.has_room(bytes.len()) {
            self.add(bytes);
            return;
        }
        self.put_past(sink, bytes);
    }

    /// Has the first so many of eight bytes wait behind the others: all eight are moved at once.
    #[inline(always)]
    fn add_short(&mut self, bytes: [u8; 8], count: usize)
        requires room { length self.old.waiting + 8 ≤ 4096 }
        requires short { count ≤ 8 }
        ensures waiting { self.new.waiting ≡ self.old.waiting ++ take count bytes }
        ensures written { self.new.written ≡ self.old.written }
    {
        lay(&mut self.bytes, self.count, &bytes);
        self.count += count;
    }

    /// Puts the first so many of eight bytes.
    #[inline(always)]
    pub fn put_short<S: Sink>(&mut self, sink: &mut S, bytes: [u8; 8], count: usize)
        requires { count ≤ 8 }
        ensures { Passes (S.held sink.old) (S.held sink.new) self.old (take count bytes) self.new }
    {
        if self.has_room(SHORT) {
            self.add_short(bytes, count);
            return;
        }
        self.put_past(sink, &bytes[..count]);
    }

    /// Puts the text.
    #[inline(always)]
    pub fn put_text<S: Sink>(&mut self, sink: &mut S, text: &str)
        ensures { Passes (S.held sink.old) (S.held sink.new) self.old text.now self.new }
    {
        self.put(sink, text.as_bytes());
    }

    /// Puts the number in decimal digits.
    pub fn put_number<S: Sink>(&mut self, sink: &mut S, number: u64)
        ensures { Passes (S.held sink.old) (S.held sink.new) self.old (decimal number) self.new }
    {
        let mut buffer = Buffer::new();
        self.put_text(sink, buffer.format(number));
    }
}
