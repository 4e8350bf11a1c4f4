//! Bytes into a sink, as far as it takes them.

ghost use Rattle.byte_sinks.specs.Sink.{Writes};

use crate::sink::Sink;

/// Puts the bytes, and returns how many have been taken in all. Once the sink has failed it does nothing.
pub fn put_all<S: Sink>(sink: &mut S, written: u128, bytes: &[u8]) -> u128
    ensures { Writes (S.held sink.old) (S.held sink.new) written bytes.now result }
{
    if sink.failed() {
        return written;
    }
    let mut at = 0;
    while at < bytes.len() {
        match sink.put(&bytes[at..]) {
            Some(n) if n > 0 => at += n,
            _ => return written.saturating_add(at as u128),
        }
    }
    written.saturating_add(at as u128)
}
