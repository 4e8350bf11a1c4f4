ghost use Rattle.std.specs.Prelude.{◌≡◌, ◌<◌, ◌≤◌, ◌^◌};
ghost use Rattle.bit_compare.specs.Shown.Steps.{AreSmall};
ghost use Rattle.vcd_compare.specs.Times.{femtoseconds, femtoseconds_in, finer, how_of, strobe_start, strobe_step, times_of, units_in, Moves};

use crate::report::Options;
use bit_compare::{Times, Tolerance};
use gate_stimulus::{Timescale, Unit};

/// How long a unit of time is, in fs.
fn femtoseconds_in(unit: Unit) -> u64
    ensures value { result ≡ femtoseconds_in unit }
    ensures some { 0 < result }
    ensures small { result ≤ 10 ^ 15 }
{
    match unit {
        Unit::S => 1_000_000_000_000_000,
        Unit::Ms => 1_000_000_000_000,
        Unit::Us => 1_000_000_000,
        Unit::Ns => 1_000_000,
        Unit::Ps => 1_000,
        Unit::Fs => 1,
    }
}

/// How long the unit of a dump's times is, in fs.
fn femtoseconds(timescale: Timescale) -> u64
    ensures value { result ≡ femtoseconds timescale }
    ensures counts { 0 < timescale.number → 0 < result }
    ensures small { result < 2 ^ 60 }
{
    timescale.number as u64 * femtoseconds_in(timescale.unit)
}

/// The finer of two timescales.
pub fn finer(a: Timescale, b: Timescale) -> Timescale
    requires a { 0 < a.number }
    requires b { 0 < b.number }
    ensures value { result ≡ finer a b }
    ensures counts { 0 < femtoseconds result }
    ensures a { femtoseconds result ≤ femtoseconds a }
    ensures b { femtoseconds result ≤ femtoseconds b }
{
    if femtoseconds(a) <= femtoseconds(b) {
        a
    } else {
        b
    }
}

/// How many units of the finer timescale one of a dump is.
pub fn units_in(dump: Timescale, unit: Timescale) -> u64
    requires counts { 0 < femtoseconds unit }
    requires finer { femtoseconds unit ≤ femtoseconds dump }
    ensures value { result ≡ units_in dump unit }
    ensures counts { 0 < result }
    ensures small { result < 2 ^ 60 }
{
    femtoseconds(dump) / femtoseconds(unit)
}

/// Where the compared times start.
fn strobe_start(options: &Options, scale: u128) -> u128
    requires { scale < 2 ^ 60 }
    ensures value { result ≡ strobe_start scale options.now.strobes }
    ensures small { result < 2 ^ 126 }
{
    match options.strobes {
        Some((start, _)) => start as u128 * scale,
        None => 0,
    }
}

/// How far compared times stand from each other.
fn strobe_step(options: &Options, scale: u128) -> u128
    requires scale { scale < 2 ^ 60 }
    requires counts { 0 < scale }
    requires moves { Moves options.now }
    ensures value { result ≡ strobe_step scale options.now.strobes }
    ensures small { result < 2 ^ 126 }
    ensures counts { 0 < result }
{
    match options.strobes {
        Some((_, step)) => step as u128 * scale,
        None => 1,
    }
}

/// The times that are compared, in the common unit, of which each time of the options counts so many.
pub fn times_of(options: &Options, scale: u64, last: u64) -> Times
    requires scale { scale < 2 ^ 60 }
    requires counts { 0 < scale }
    requires step { Moves options.now }
    ensures value { result ≡ times_of options.now scale last }
    ensures small { AreSmall result }
{
    let scale = scale as u128;
    Times {
        from: options.from as u128 * scale,
        to: options.to.unwrap_or(last) as u128 * scale,
        start: strobe_start(options, scale),
        step: strobe_step(options, scale),
    }
}

/// How far values may stand from each other, in the common unit.
pub fn how_of(options: &Options, scale: u64) -> Tolerance
    requires { scale < 2 ^ 60 }
    ensures value { result ≡ how_of options.now scale }
    ensures small { result.within < 2 ^ 126 }
{
    Tolerance {
        within: options.within as u128 * scale as u128,
        any_for_x: options.any_for_x,
    }
}
