//! The program, over texts that are handed in and channels that may fail.
ghost use Rattle.std.specs.Prelude.{◌≡◌, map};
ghost use Rattle.warp_command.specs.Channels.{Takes};
ghost use Rattle.warp_command.specs.Failures.{failure_status, failure_text};
ghost use Rattle.warp_command.specs.Endings.{channels, IsShown, IsWritten, Keeps, IsWrittenAndKept, IsEnding, Executes, Answers};

use crate::channel::Channel;
use crate::failure::Failure;
use crate::line::read_line;
use crate::reply::{Answer, Kept, reply_to};
use crate::request::Request;
use crate::texts::Texts;
use std::alloc::Global;
use std::convert::AsStr;
use std::sync::Wait;
use std::thread::Threads;

/// Tells a failure, and answers its status, also where it can't be told.
fn told<E: Channel>(failure: &Failure<'_>, err: &mut E) -> u8
    ensures status { result ≡ failure_status failure.now }
    ensures told { Takes (failure_text failure.now) (E.held err.old) (E.held err.new) }
{
    let _ = err.tell(failure);
    failure.status()
}

/// Writes a text on `out`, and answers this status where that takes it.
fn written<O: Channel, E: Channel>(text: &[u8], ended: u8, out: &mut O, err: &mut E) -> u8
    ensures { IsWritten text.now ended result
        (channels (O.held out.old) (E.held err.old)) (channels (O.held out.new) (E.held err.new)) }
{
    match out.put(text) {
        Ok(()) => ended,
        Err(_) => told(&Failure::Unwritten, err),
    }
}

/// Shows what a request is answered, the text on `out` or the failure's on `err`, and answers the program's status.
pub fn show<O: Channel, E: Channel>(
    reply: &Result<Vec<u8>, Failure<'_>>,
    out: &mut O,
    err: &mut E,
) -> u8
    ensures { IsShown reply.now result
        (channels (O.held out.old) (E.held err.old)) (channels (O.held out.new) (E.held err.new)) }
{
    match reply {
        Ok(text) => written(text.as_slice(), 0, out, err),
        Err(Failure::Differ(text)) => written(text.as_slice(), 5, out, err),
        Err(failure) => told(failure, err),
    }
}

/// Keeps a text under its name.
fn keep<T: Texts, E: Channel>(kept: &Kept<'_>, texts: &mut T, err: &mut E) -> u8
    ensures { Keeps T.keeps kept.now texts.old texts.new result (E.held err.old) (E.held err.new) }
{
    match texts.keep(kept.name, kept.text.as_slice()) {
        Ok(()) => 0,
        Err(_) => told(&Failure::Unkept(kept.name), err),
    }
}

/// Shows a text, and keeps another behind it.
fn written_and_kept<T: Texts, O: Channel, E: Channel>(
    text: &[u8],
    kept: &Kept<'_>,
    texts: &mut T,
    out: &mut O,
    err: &mut E,
) -> u8
    ensures { IsWrittenAndKept T.keeps text.now kept.now texts.old texts.new result
        (channels (O.held out.old) (E.held err.old)) (channels (O.held out.new) (E.held err.new)) }
{
    match out.put(text) {
        Ok(()) => keep(kept, texts, err),
        Err(_) => told(&Failure::Unwritten, err),
    }
}

/// Shows what a request is answered, and keeps what is to be kept.
fn end<T: Texts, O: Channel, E: Channel>(
    reply: Result<Answer<'_>, Failure<'_>>,
    texts: &mut T,
    out: &mut O,
    err: &mut E,
) -> u8
    ensures { IsEnding T.keeps reply.entry texts.old texts.new result
        (channels (O.held out.old) (E.held err.old)) (channels (O.held out.new) (E.held err.new)) }
{
    match reply {
        Ok(Answer { text, kept }) => match kept {
            None => written(text.as_slice(), 0, out, err),
            Some(kept) => written_and_kept(text.as_slice(), &kept, texts, out, err),
        },
        Err(failure) => show(&Err(failure), out, err),
    }
}

/// Answers a request, shows the answer, and keeps what it has to be kept.
pub fn execute<R: Threads + Wait + Sync, T: Texts, O: Channel, E: Channel>(
    rt: &R,
    alloc: Global,
    request: Request<'_>,
    texts: &mut T,
    out: &mut O,
    err: &mut E,
) -> u8
    ensures { Executes T.gives T.keeps request.entry texts.old texts.new result
        (channels (O.held out.old) (E.held err.old)) (channels (O.held out.new) (E.held err.new)) }
{
    let reply = reply_to(rt, alloc, request, texts);
    end(reply, texts, out, err)
}

/// Runs the program on the words of a command line, its own name first, and answers its exit
/// status: 0; 1 for a refused text; 2 for a refused line; 3 for a refused run and for want of memory; 4 where a text
/// can't be read, `out` fails or a file can't be written; 5 for dumps that differ. What goes wrong is told on `err`; where that fails too, the
/// status stays.
pub fn program<R: Threads + Wait + Sync, S: AsStr, T: Texts, O: Channel, E: Channel>(
    rt: &R,
    alloc: Global,
    words: &[S],
    texts: &mut T,
    out: &mut O,
    err: &mut E,
) -> u8
    ensures { Answers T.gives T.keeps (map S.text words.entry.now) texts.old texts.new result
        (channels (O.held out.old) (E.held err.old)) (channels (O.held out.new) (E.held err.new)) }
{
    match read_line(alloc, words) {
        Ok(request) => execute(rt, alloc, request, texts, out, err),
        Err(failure) => show(&Err(failure), out, err),
    }
}
