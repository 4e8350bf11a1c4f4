//! The lines of a comparison's answer.
ghost use Rattle.std.specs.Prelude.{◌≡◌, [], ◌∷◌, ◌++◌, ◌==◌, ◌&&◌, OnOk, decimal, flat_map, length};
ghost use Rattle.vcd_dumps.specs.Dump.{letter};
ghost use Rattle.compare_answer.specs.Lines.{alone_counts, differing_line, differing_lines, in_actual, in_expected, last_line, lonely, span, verdict};

use gate_stimulus::Timescale;
use gate_values::Logic;
use std::alloc::{AllocError, Global};
use vcd_compare::{Differing, Report};

/// The letter of a value.
fn letter(value: Logic) -> &'static str
    ensures { result.now ≡ letter value ∷ [] }
{
    match value {
        Logic::Zero => "0",
        Logic::One => "1",
        Logic::X => "x",
        Logic::Z => "z",
    }
}

fn push_text(text: &mut Vec<u8>, more: &str) -> Result<(), AllocError>
    ensures { OnOk result (text.new.items ≡ text.old.items ++ more.now) }
{
    text.extend_from_slice(more.as_bytes())
}

fn push_number(alloc: Global, text: &mut Vec<u8>, number: u128) -> Result<(), AllocError>
    ensures { OnOk result (text.new.items ≡ text.old.items ++ decimal number) }
{
    let digits = number.to_string(alloc)?;
    push_text(text, digits.as_str())
}

/// Appends the line of a bit that differs.
fn push_differing(alloc: Global, text: &mut Vec<u8>, bit: &Differing) -> Result<(), AllocError>
    ensures { OnOk result (text.new.items ≡ text.old.items ++ differing_line bit.now) }
{
    push_number(alloc, text, bit.difference.time)?;
    push_text(text, " ")?;
    text.extend_from_slice(bit.name.as_slice())?;
    push_text(text, ": expected ")?;
    push_text(text, letter(bit.difference.expected))?;
    push_text(text, ", found ")?;
    push_text(text, letter(bit.difference.found))?;
    push_text(text, "\n")
}

/// Appends the lines of bits that differ.
pub fn push_all_differing(
    alloc: Global,
    text: &mut Vec<u8>,
    bits: &[Differing],
) -> Result<(), AllocError>
    ensures { OnOk result (text.new.items ≡ text.old.items ++ differing_lines bits.now) }
{
    for bit in bits {
        push_differing(alloc, text, bit)?;
    }
    Ok(())
}

/// Appends how many bits agree, or how many of them differ.
#[tactic(auto, unfolding(crate::specs::Lines::verdict))]
fn push_verdict(
    alloc: Global,
    text: &mut Vec<u8>,
    differing: usize,
    pairs: usize,
) -> Result<(), AllocError>
    ensures { OnOk result (text.new.items ≡ text.old.items ++ verdict differing pairs) }
{
    if differing == 0 {
        push_number(alloc, text, pairs as u128)?;
        return push_text(text, " bits agree");
    }
    push_number(alloc, text, differing as u128)?;
    push_text(text, " of ")?;
    push_number(alloc, text, pairs as u128)?;
    push_text(text, " bits differ")
}

/// Appends the compared times, and their unit.
#[tactic(auto, unfolding(crate::specs::Lines::span))]
fn push_span(
    alloc: Global,
    text: &mut Vec<u8>,
    from: u128,
    to: u128,
    unit: Timescale,
) -> Result<(), AllocError>
    ensures { OnOk result (text.new.items ≡ text.old.items ++ span from to unit) }
{
    push_text(text, " from ")?;
    push_number(alloc, text, from)?;
    push_text(text, " to ")?;
    push_number(alloc, text, to)?;
    push_text(text, " (")?;
    push_number(alloc, text, unit.number as u128)?;
    push_text(text, " ")?;
    push_text(text, unit.unit.name())?;
    push_text(text, ")")
}

fn are_none(expected: usize, actual: usize) -> bool
    ensures { result ≡ (expected == 0 && actual == 0) }
{
    expected == 0 && actual == 0
}

/// What stands behind a number of bits of the dump that is expected.
#[tactic(auto, unfolding(crate::specs::Lines::in_expected))]
fn in_expected() -> &'static str
    ensures { result.now ≡ in_expected }
{
    " only in EXPECTED, "
}

/// The same of the other one.
#[tactic(auto, unfolding(crate::specs::Lines::in_actual))]
fn in_actual() -> &'static str
    ensures { result.now ≡ in_actual }
{
    " only in ACTUAL"
}

/// Appends how many bits one dump alone has.
fn push_alone_counts(
    alloc: Global,
    text: &mut Vec<u8>,
    expected: usize,
    actual: usize,
) -> Result<(), AllocError>
    ensures { OnOk result (text.new.items ≡ text.old.items ++ alone_counts expected actual) }
{
    push_text(text, "; ")?;
    push_number(alloc, text, expected as u128)?;
    push_text(text, in_expected())?;
    push_number(alloc, text, actual as u128)?;
    push_text(text, in_actual())
}

/// The same where there are such bits.
#[tactic(auto, unfolding(crate::specs::Lines::lonely))]
fn push_lonely(
    alloc: Global,
    text: &mut Vec<u8>,
    expected: usize,
    actual: usize,
) -> Result<(), AllocError>
    ensures { OnOk result (text.new.items ≡ text.old.items ++ lonely expected actual) }
{
    if are_none(expected, actual) {
        return Ok(());
    }
    push_alone_counts(alloc, text, expected, actual)
}

/// Appends the last line.
pub fn push_last(alloc: Global, text: &mut Vec<u8>, report: &Report) -> Result<(), AllocError>
    ensures { OnOk result (text.new.items ≡ text.old.items ++ last_line report.now) }
{
    push_verdict(alloc, text, report.differing.len(), report.pairs)?;
    push_span(alloc, text, report.times.from, report.times.to, report.unit)?;
    push_lonely(alloc, text, report.only_expected, report.only_actual)?;
    push_text(text, "\n")
}
