//! The time of one call.

use anyhow::Result;
use std::rt::Clock;
use std::time::Instant;

pub fn start<R: Clock>(rt: &R) -> Result<Instant> {
    Ok(Instant::now(rt)?)
}

/// Prints on standard error how long it is since the start.
pub fn report<R: Eprint + Clock>(rt: &R, name: &str, size: u32, start: Instant) -> Result<()> {
    let micros = start.elapsed(rt)?.as_micros();
    eprintln!(rt; "{name} {size} {micros} us")?;
    Ok(())
}
