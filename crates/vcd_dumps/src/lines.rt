//! The lines of a dump, one at a time.

ghost use Rattle.std.specs.Prelude.{◌≡◌, ◌<◌, ◌≤◌, ◌∷◌, ◌++◌, [], take, drop};
ghost use Rattle.vcd_dumps.specs.Codes.{code_of};
ghost use Rattle.byte_sinks.specs.Lots.{Passes};
ghost use Rattle.vcd_dumps.specs.Dump.{letter, stamp, value_line, var_line, timescale_line, scope_line};

use crate::codes::code;
use byte_sinks::{Lot, Sink};
use gate_stimulus::Timescale;
use gate_values::Logic;
use itoa::write_digits;

/// The letter of a value: `0`, `1`, `x` or `z` (IEEE 1364-2005, section 18.2).
pub fn letter(value: Logic) -> u8
    ensures { result ≡ letter value }
{
    match value {
        Logic::Zero => b'0',
        Logic::One => b'1',
        Logic::X => b'x',
        Logic::Z => b'z',
    }
}

/// The code of a net between two bytes, and how many bytes that are.
#[inline(always)]
fn framed(first: u8, net: u32, last: u8) -> ([u8; 8], usize)
    requires { net < 1000000 }
    ensures bytes { take result.1 result.0 ≡ first ∷ (code_of net ++ last ∷ []) }
    ensures within { result.1 ≤ 8 }
{
    let (code, count) = code(net);
    match count {
        1 => ([first, code[0], last, 0, 0, 0, 0, 0], 3),
        2 => ([first, code[0], code[1], last, 0, 0, 0, 0], 4),
        3 => ([first, code[0], code[1], code[2], last, 0, 0, 0], 5),
        _ => ([first, code[0], code[1], code[2], code[3], last, 0, 0], 6),
    }
}

/// Puts the code of a net between two bytes.
#[inline(always)]
fn put_framed<S: Sink>(sink: &mut S, lot: &mut Lot, first: u8, net: u32, last: u8)
    requires { net < 1000000 }
    ensures { Passes (S.held sink.old) (S.held sink.new) lot.old (first ∷ (code_of net ++ last ∷ [])) lot.new }
{
    let (bytes, count) = framed(first, net, last);
    lot.put_short(sink, bytes, count);
}

/// Puts the line of a net's value.
pub fn put_value<S: Sink>(sink: &mut S, lot: &mut Lot, value: Logic, net: u32)
    requires { net < 1000000 }
    ensures { Passes (S.held sink.old) (S.held sink.new) lot.old (value_line value net) lot.new }
{
    put_framed(sink, lot, letter(value), net, b'\n');
}

/// The line of a time: the bytes from an index on.
fn stamp_line(time: u64) -> ([u8; 22], usize)
    ensures bytes { drop result.1 result.0 ≡ stamp time }
    ensures within { result.1 ≤ 22 }
{
    let mut line = [b'\n'; 22];
    let digits = write_digits(time, &mut line, 21);
    line[digits - 1] = b'#';
    (line, digits - 1)
}

/// Puts the line of a time.
pub fn put_stamp<S: Sink>(sink: &mut S, lot: &mut Lot, time: u64)
    ensures { Passes (S.held sink.old) (S.held sink.new) lot.old (stamp time) lot.new }
{
    let (line, start) = stamp_line(time);
    lot.put(sink, &line[start..]);
}

/// Puts the line of a net's code and name.
pub fn put_var<S: Sink>(sink: &mut S, lot: &mut Lot, net: u32, name: &str)
    requires { net < 1000000 }
    ensures { Passes (S.held sink.old) (S.held sink.new) lot.old (var_line net name.now) lot.new }
{
    lot.put_text(sink, "$var wire 1");
    put_framed(sink, lot, b' ', net, b' ');
    lot.put_text(sink, name);
    lot.put_text(sink, " $end\n");
}

/// Puts the line of the timescale.
pub fn put_timescale<S: Sink>(sink: &mut S, lot: &mut Lot, scale: Timescale)
    ensures { Passes (S.held sink.old) (S.held sink.new) lot.old (timescale_line scale) lot.new }
{
    lot.put_text(sink, "$timescale ");
    lot.put_number(sink, scale.number as u64);
    lot.put_text(sink, " ");
    lot.put_text(sink, scale.unit.name());
    lot.put_text(sink, " $end\n");
}

/// Puts the line of the scope.
pub fn put_scope<S: Sink>(sink: &mut S, lot: &mut Lot, top: &str)
    ensures { Passes (S.held sink.old) (S.held sink.new) lot.old (scope_line top.now) lot.new }
{
    lot.put_text(sink, "$scope module ");
    lot.put_text(sink, top);
    lot.put_text(sink, " $end\n");
}
