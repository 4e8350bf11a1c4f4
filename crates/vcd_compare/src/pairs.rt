ghost use Rattle.std.specs.Prelude.{◌≡◌, ◌≤◌, ◌<◌, ◌^◌, ◌+◌, [], List, Some, length, slice_get, take, IfErr, IfOk, OnOk};
ghost use Rattle.gate_vcd.specs.Shown.Known.{source as source_of};
ghost use Rattle.vcd_bits.specs.Names.{Bit};
ghost use Rattle.vcd_bits.specs.Shown.Tables.{bit_by, bits_in};
ghost use Rattle.vcd_compare.specs.Comparison.{out_of_memory};
ghost use Rattle.vcd_compare.specs.Pairs.{pairs_of};
ghost use Rattle.vcd_compare.specs.Inner.Held.{ArePairs, Takes};

use crate::fault::CompareFault;
use gate_vcd::Source;
use std::alloc::Global;
use vcd_bits::Table;

/// The pairs of bits of two dumps: of each its number among the bits that are expected, and where both take their values
/// from.
#[derive(Drop)]
pub struct Pairs<'e, 'a> {
    pub numbers: Vec<usize>,
    pub expected: Vec<Option<Source<'e>>>,
    pub actual: Vec<Option<Source<'a>>>,
}

impl<'e, 'a> Pairs<'e, 'a> {
    /// No pair.
    pub fn none(alloc: Global) -> Pairs<'e, 'a>
        ensures numbers { result.numbers.items ≡ [] }
        ensures expected { result.expected.items ≡ [] }
        ensures actual { result.actual.items ≡ [] }
    {
        Pairs {
            numbers: Vec::new(alloc),
            expected: Vec::new(alloc),
            actual: Vec::new(alloc),
        }
    }

    /// Adds a pair, of which there are no more than a number of 32 bits counts.
    pub fn push(
        &mut self,
        number: usize,
        expected: Source<'e>,
        actual: Source<'a>,
    ) -> Result<(), CompareFault>
        ensures ok { OnOk result (Takes self.old self.new number expected.entry actual.entry) }
        ensures err { IfErr result (λ e. e ≡ out_of_memory) }
    {
        if self.numbers.len() >= u32::MAX as usize {
            return Err(CompareFault::Memory);
        }
        self.numbers.push(number)?;
        self.expected.push(Some(expected))?;
        self.actual.push(Some(actual))?;
        Ok(())
    }

    /// Adds the pair of an expected bit, if the other dump has one of its name.
    fn put_bit(
        &mut self,
        number: usize,
        name: &[u8],
        source: Source<'e>,
        actual: &Table<'a>,
    ) -> Result<(), CompareFault>
        ensures ok { (bits : List Bit) → slice_get bits number ≡ Some (bit_by name.now (source_of source.entry)) → ArePairs (pairs_of (take number bits) (bits_in actual.now)) bits self.old → OnOk result (ArePairs (pairs_of (take (number + 1) bits) (bits_in actual.now)) bits self.new) }
        ensures err { IfErr result (λ e. e ≡ out_of_memory) }
    {
        match actual.source(name) {
            Some(other) => self.push(number, source, other),
            None => Ok(()),
        }
    }

    /// The same of the bit of a number.
    fn put(
        &mut self,
        number: usize,
        expected: &Table<'e>,
        actual: &Table<'a>,
    ) -> Result<(), CompareFault>
        requires { number < length (bits_in expected.now) }
        ensures ok { ArePairs (pairs_of (take number (bits_in expected.now)) (bits_in actual.now)) (bits_in expected.now) self.old → OnOk result (ArePairs (pairs_of (take (number + 1) (bits_in expected.now)) (bits_in actual.now)) (bits_in expected.now) self.new) }
        ensures err { IfErr result (λ e. e ≡ out_of_memory) }
    {
        match expected.bit(number) {
            Some(bit) => self.put_bit(number, bit.0, bit.1, actual),
            None => Ok(()),
        }
    }

    /// The pairs of the bits of the names that both have.
    pub fn of(
        alloc: Global,
        expected: &Table<'e>,
        actual: &Table<'a>,
    ) -> Result<Pairs<'e, 'a>, CompareFault>
        ensures ok { IfOk result (ArePairs (pairs_of (bits_in expected.now) (bits_in actual.now)) (bits_in expected.now)) }
        ensures err { IfErr result (λ e. e ≡ out_of_memory) }
    {
        let mut pairs = Pairs::none(alloc);
        for number in 0..expected.count() {
            pairs.put(number, expected, actual)?;
        }
        Ok(pairs)
    }
}
