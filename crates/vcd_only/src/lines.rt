//! The lines of a dump, one at a time, at the end of a text.

ghost use Rattle.std.specs.Prelude.{◌≡◌, ◌<◌, ◌∷◌, ◌++◌, [], decimal, OnOk};
ghost use Rattle.vcd_dumps.specs.Codes.{code_of};
ghost use Rattle.vcd_dumps.specs.Dump.{letter, stamp, value_line, var_line, timescale_line, scope_line};

use gate_stimulus::Timescale;
use gate_values::Logic;
use itoa::Buffer;
use std::alloc::AllocError;
use vcd_dumps::{code, letter};

/// Puts bytes at the end.
pub fn push_text(text: &mut Vec<u8>, more: &str) -> Result<(), AllocError>
    ensures { OnOk result (text.new.items ≡ text.old.items ++ more.now) }
{
    text.extend_from_slice(more.as_bytes())
}

/// Puts a number in decimal digits at the end.
fn push_number(text: &mut Vec<u8>, number: u64) -> Result<(), AllocError>
    ensures { OnOk result (text.new.items ≡ text.old.items ++ decimal number) }
{
    let mut buffer = Buffer::new();
    push_text(text, buffer.format(number))
}

/// Puts the code of a net at the end.
fn push_code(text: &mut Vec<u8>, net: u32) -> Result<(), AllocError>
    requires { net < 1000000 }
    ensures { OnOk result (text.new.items ≡ text.old.items ++ code_of net) }
{
    let (code, count) = code(net);
    text.extend_from_slice(&code[..count])
}

/// Puts the line of a net's value at the end.
pub fn push_value(text: &mut Vec<u8>, value: Logic, net: u32) -> Result<(), AllocError>
    requires { net < 1000000 }
    ensures { OnOk result (text.new.items ≡ text.old.items ++ value_line value net) }
{
    text.push(letter(value))?;
    push_code(text, net)?;
    push_text(text, "\n")
}

/// Puts the line of a time at the end.
pub fn push_stamp(text: &mut Vec<u8>, time: u64) -> Result<(), AllocError>
    ensures { OnOk result (text.new.items ≡ text.old.items ++ stamp time) }
{
    push_text(text, "#")?;
    push_number(text, time)?;
    push_text(text, "\n")
}

/// Puts the line of a net's code and name at the end.
pub fn push_var(text: &mut Vec<u8>, net: u32, name: &str) -> Result<(), AllocError>
    requires { net < 1000000 }
    ensures { OnOk result (text.new.items ≡ text.old.items ++ var_line net name.now) }
{
    push_text(text, "$var wire 1 ")?;
    push_code(text, net)?;
    push_text(text, " ")?;
    push_text(text, name)?;
    push_text(text, " $end\n")?;
    Ok(())
}

/// Puts the line of the timescale at the end.
pub fn push_timescale(text: &mut Vec<u8>, scale: Timescale) -> Result<(), AllocError>
    ensures { OnOk result (text.new.items ≡ text.old.items ++ timescale_line scale) }
{
    push_text(text, "$timescale ")?;
    push_number(text, scale.number as u64)?;
    push_text(text, " ")?;
    push_text(text, scale.unit.name())?;
    push_text(text, " $end\n")?;
    Ok(())
}

/// Puts the line of the scope at the end.
pub fn push_scope(text: &mut Vec<u8>, top: &str) -> Result<(), AllocError>
    ensures { OnOk result (text.new.items ≡ text.old.items ++ scope_line top.now) }
{
    push_text(text, "$scope module ")?;
    push_text(text, top)?;
    push_text(text, " $end\n")?;
    Ok(())
}
