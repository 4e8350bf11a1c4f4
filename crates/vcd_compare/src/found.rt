ghost use Rattle.std.specs.Prelude.{◌≡◌, ◌≤◌, ◌<◌, ◌^◌, ℕ, List, Some, length, get_or, IfErr, IfOk, OnOk};
ghost use Rattle.gate_stimulus.specs.Given.{changes_of};
ghost use Rattle.bit_compare.specs.Agreement.{IsFinding};
ghost use Rattle.bit_compare.specs.Bits.{value_through};
ghost use Rattle.vcd_bits.specs.Shown.Tables.{bits_in};
ghost use Rattle.vcd_compare.specs.Comparison.{out_of_memory};
ghost use Rattle.vcd_compare.specs.Inner.Found.{AreFoundUpTo, IsFoundBy, IsNoted};
ghost use Rattle.vcd_compare.specs.Inner.Held.{name_at};
ghost use Rattle.vcd_compare.specs.Inner.Sights.{IsSmallSight};

use crate::fault::CompareFault;
use crate::pairs::Pairs;
use crate::report::Differing;
use crate::sight::Sight;
use bit_compare::Difference;
use gate_stimulus::Stimulus;
use std::alloc::Global;
use vcd_bits::Table;

/// The name of the bit of a number.
fn name_of(alloc: Global, table: &Table, number: usize) -> Result<Vec<u8>, CompareFault>
    ensures ok { (name : List ℕ) → name_at (bits_in table.now) number ≡ Some name → IfOk result (λ text. text.items ≡ name) }
    ensures err { IfErr result (λ e. e ≡ out_of_memory) }
{
    match table.bit(number) {
        Some((name, _)) => Ok(Vec::from_slice(alloc, name)?),
        None => Ok(Vec::new(alloc)),
    }
}

/// Notes where a pair differs, if it does.
fn note(
    alloc: Global,
    found: &mut Vec<Differing>,
    table: &Table,
    number: usize,
    pair: usize,
    difference: Option<Difference>,
) -> Result<(), CompareFault>
    ensures ok { OnOk result (IsNoted found.old.items found.new.items pair (name_at (bits_in table.now) number) difference) }
    ensures err { IfErr result (λ e. e ≡ out_of_memory) }
{
    match difference {
        Some(difference) => {
            let name = name_of(alloc, table, number)?;
            found.push(Differing {
                pair,
                name,
                difference,
            })?;
            Ok(())
        }
        None => Ok(()),
    }
}

/// The bits that differ, in the order of pairs.
pub fn differing(
    alloc: Global,
    sight: &Sight,
    table: &Table,
    pairs: &Pairs,
    expected: &Stimulus,
    actual: &Stimulus,
) -> Result<Vec<Differing>, CompareFault>
    requires sight { IsSmallSight sight.now }
    requires few { length pairs.now.numbers.items < 2 ^ 32 }
    ensures ok { IfOk result (λ found. AreFoundUpTo (IsFoundBy sight.now expected.now actual.now) (bits_in table.now) pairs.now.numbers.items (length pairs.now.numbers.items) found.items) }
    ensures err { IfErr result (λ e. e ≡ out_of_memory) }
{
    let mut found = Vec::new(alloc);
    for (pair, number) in pairs.numbers.iter().enumerate() {
        let difference = sight.difference(expected, actual, pair as u32);
        note(alloc, &mut found, table, *number, pair, difference)?;
    }
    Ok(found)
}
