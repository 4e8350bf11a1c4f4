//! Texts of a size, made here so that a benchmark needs no file.

use std::alloc::{AllocError, Global};
use std::fmt::Write;

/// A chain of gates behind one input: `size` nets in all.
pub fn chain(alloc: Global, size: u32) -> Result<String, AllocError> {
    let mut text = String::new(alloc);
    writeln!(text, "INPUT(n0)")?;
    for net in 1..size {
        let before = net - 1;
        writeln!(text, "n{net} = NAND(n{before}, n0)")?;
    }
    Ok(text)
}

/// The same with a last line that defines its input again.
pub fn chain_refused(alloc: Global, size: u32) -> Result<String, AllocError> {
    let mut text = chain(alloc, size)?;
    text.push_str("n0 = NOT(n0)\n")?;
    Ok(text)
}

fn push_delays(text: &mut String, size: u32) -> Result<(), AllocError> {
    writeln!(text, "[net]")?;
    for net in 1..size {
        let delay = net % 7 + 1;
        writeln!(text, "n{net} = {delay}")?;
    }
    Ok(())
}

fn push_blocks(text: &mut String, size: u32) -> Result<(), AllocError> {
    writeln!(text, "[block]")?;
    for net in 1..size {
        let block = net % 1024;
        writeln!(text, "n{net} = {block}")?;
    }
    Ok(())
}

/// A delay and a block for each gate of the chain.
pub fn chain_settings(alloc: Global, size: u32) -> Result<String, AllocError> {
    let mut text = String::new(alloc);
    push_delays(&mut text, size)?;
    push_blocks(&mut text, size)?;
    Ok(text)
}

/// So many flip-flops, and then a gate behind each.
pub fn registers(alloc: Global, count: u32) -> Result<String, AllocError> {
    let mut text = String::new(alloc);
    writeln!(text, "INPUT(n0)")?;
    for flop in 0..count {
        writeln!(text, "q{flop} = DFF(n0)")?;
    }
    for flop in 0..count {
        writeln!(text, "a{flop} = BUFF(q{flop})")?;
    }
    Ok(text)
}

/// Each of the flip-flops begins with 1.
pub fn registers_settings(alloc: Global, count: u32) -> Result<String, AllocError> {
    let mut text = String::new(alloc);
    writeln!(text, "[init]")?;
    for flop in 0..count {
        writeln!(text, "q{flop} = \"1\"")?;
    }
    Ok(text)
}

/// A stimulus of the flip-flops in which nothing changes.
pub const STILL: &str = "$var wire 1 d n0 $end $var wire 1 c CK $end $enddefinitions $end";

/// So many inputs.
pub fn inputs(alloc: Global, count: u32) -> Result<String, AllocError> {
    let mut text = String::new(alloc);
    for net in 0..count {
        writeln!(text, "INPUT(n{net})")?;
    }
    Ok(text)
}

/// The declaration of a variable for each input: each with a code of its own, or all with one.
fn push_variables(text: &mut String, count: u32, is_shared: bool) -> Result<(), AllocError> {
    for net in 0..count {
        let code = if is_shared { 0 } else { net };
        writeln!(text, "$var wire 1 c{code} n{net} $end")?;
    }
    writeln!(text, "$enddefinitions $end")
}

/// A stimulus of so many inputs and so many changes, one change for each stamp: the codes take turns, and each
/// goes to 0, then to 1, and so on.
pub fn stimulus(
    alloc: Global,
    inputs: u32,
    changes: u32,
    is_shared: bool,
) -> Result<String, AllocError> {
    let mut text = String::new(alloc);
    push_variables(&mut text, inputs, is_shared)?;
    let codes = if is_shared { 1 } else { inputs.max(1) };
    for time in 0..changes {
        let code = time % codes;
        let value = time / codes % 2;
        writeln!(text, "#{time}\n{value}c{code}")?;
    }
    Ok(text)
}

/// A stamp at which each of so many inputs changes.
fn push_step(text: &mut String, inputs: u32, time: u32, value: u32) -> Result<(), AllocError> {
    writeln!(text, "#{time}")?;
    for net in 0..inputs {
        writeln!(text, "{value}c{net}")?;
    }
    Ok(())
}

/// The declaration of ten variables that are no inputs.
fn push_unused(text: &mut String) -> Result<(), AllocError> {
    for variable in 0..10 {
        writeln!(text, "$var wire 1 u{variable} unused{variable} $end")?;
    }
    Ok(())
}

/// So many changes of those variables, one change for each stamp.
fn push_unused_changes(text: &mut String, changes: u32) -> Result<(), AllocError> {
    for time in 0..changes {
        let code = time % 10;
        let value = time / 10 % 2;
        writeln!(text, "#{time}\n{value}u{code}")?;
    }
    Ok(())
}

/// A stimulus of so many inputs that change at the first stamp and at the last, and between them so many
/// changes of ten variables that are no inputs, one change for each stamp.
pub fn stimulus_unused(alloc: Global, inputs: u32, changes: u32) -> Result<String, AllocError> {
    let mut text = String::new(alloc);
    push_unused(&mut text)?;
    push_variables(&mut text, inputs, false)?;
    push_step(&mut text, inputs, 0, 0)?;
    push_unused_changes(&mut text, changes)?;
    push_step(&mut text, inputs, changes, 1)?;
    Ok(text)
}

/// The bits of a bus, as inputs.
pub fn bits(alloc: Global, width: u32) -> Result<String, AllocError> {
    let mut text = String::new(alloc);
    for bit in 0..width {
        writeln!(text, "INPUT(d[{bit}])")?;
    }
    Ok(text)
}

/// The declaration of a 64-bit bus.
fn push_bus(text: &mut String) -> Result<(), AllocError> {
    writeln!(text, "$var wire 64 ! d [63:0] $end")?;
    writeln!(text, "$enddefinitions $end")
}

/// All digits of the bus at a time.
fn push_word(text: &mut String, time: u32) -> Result<(), AllocError> {
    let four = if time % 2 == 0 { "0000" } else { "0001" };
    writeln!(text, "#{time}")?;
    text.push_str("b")?;
    for _ in 0..16 {
        text.push_str(four)?;
    }
    text.push_str(" !\n")
}

/// A stimulus of a 64-bit bus with so many changes, all digits each time, of which every fourth moves.
pub fn bus(alloc: Global, changes: u32) -> Result<String, AllocError> {
    let mut text = String::new(alloc);
    push_bus(&mut text)?;
    for time in 0..changes {
        push_word(&mut text, time)?;
    }
    Ok(text)
}

/// A stimulus of a 64-bit bus with so many changes of one digit.
pub fn bus_short(alloc: Global, changes: u32) -> Result<String, AllocError> {
    let mut text = String::new(alloc);
    push_bus(&mut text)?;
    for time in 0..changes {
        let value = time % 2;
        writeln!(text, "#{time}\nb{value} !")?;
    }
    Ok(text)
}
