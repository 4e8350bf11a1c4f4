//! Where answers go, and what is known of it.
ghost use Rattle.std.specs.Prelude.{◌≡◌, OnOk, false, is_err};
ghost use Rattle.std.specs.Io.KnownBytes.{Appends};
ghost use Rattle.warp_command.specs.Channels.{Held, Takes};
ghost use Rattle.warp_command.specs.Failures.{failure_text};

use crate::failure::Failure;
use std::io::{self, Write};
use thiserror::Error;

/// A channel failed: not all of a text was written, or it isn't known to be.
#[derive(Clone, Copy, Debug, PartialEq, Eq, Error)]
#[error("cannot write")]
pub struct Unwritten;

/// A place for texts, as standard output and standard error are.
pub trait Channel {
    /// What it holds, and whether it failed at its last text.
    ghost held: { Self → Held };

    /// Writes a text.
    fn put(&mut self, text: &[u8]) -> Result<(), Unwritten>
        ensures taken { Takes text.now (held self.old) (held self.new) }
        ensures failed { is_err result ≡ (held self.new).failed };

    /// Writes the text of a failure.
    fn tell(&mut self, failure: &Failure<'_>) -> Result<(), Unwritten>
        ensures taken { Takes (failure_text failure.now) (held self.old) (held self.new) }
        ensures failed { is_err result ≡ (held self.new).failed };
}

/// A writer of std as a channel. It fails just where a write or a flush of the writer answers an error. std's clauses
/// don't say of a writer whether a call failed, nor of standard output what it holds: that part is to be read here.
#[derive(Drop)]
pub struct Stream<W: Write> {
    writer: W,
    failed: bool,
}

impl<W: Write> Stream<W> {
    /// A channel to this writer, which has not failed.
    pub fn new(writer: W) -> Stream<W>
        ensures writer { result.writer ≡ writer }
        ensures failed { result.failed ≡ false }
    {
        Stream {
            writer,
            failed: false,
        }
    }

    /// The writer.
    pub fn into_writer(self) -> W
        ensures { result ≡ self.writer }
    {
        self.writer
    }

    /// Keeps whether the writer's answer is an error.
    fn note(&mut self, answer: io::Result<()>) -> Result<(), Unwritten>
        ensures writer { self.new.writer ≡ self.old.writer }
        ensures kept { self.new.failed ≡ is_err answer }
        ensures failed { is_err result ≡ is_err answer }
    {
        self.failed = answer.is_err();
        match answer {
            Ok(()) => Ok(()),
            Err(_) => Err(Unwritten),
        }
    }
}

fn write_text<W: Write>(writer: &mut W, text: &[u8]) -> io::Result<()>
    ensures { OnOk result (Appends (W.contents writer.old) (W.contents writer.new) text.now) }
{
    writer.write_all(text)?;
    writer.flush()
}

fn write_failure<W: Write>(writer: &mut W, failure: &Failure<'_>) -> io::Result<()>
    ensures { OnOk result (Appends (W.contents writer.old) (W.contents writer.new) (failure_text failure.now)) }
{
    write!(writer, "{failure}")?;
    writer.flush()
}

impl<W: Write> Channel for Stream<W> {
    ghost held = { λ stream. record { bytes = W.contents stream.writer; failed = stream.failed } };

    fn put(&mut self, text: &[u8]) -> Result<(), Unwritten> {
        let answer = write_text(&mut self.writer, text);
        self.note(answer)
    }

    fn tell(&mut self, failure: &Failure<'_>) -> Result<(), Unwritten> {
        let answer = write_failure(&mut self.writer, failure);
        self.note(answer)
    }
}
