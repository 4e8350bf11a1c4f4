//! The pairs of bits that a text says.
ghost use Rattle.std.specs.Prelude.{◌≡◌, [], List, Some, length, option_map, IfErr, IfOk};
ghost use Rattle.vcd_bits.specs.Shown.Tables.{bits_in};
ghost use Rattle.vcd_compare.specs.Comparison.{out_of_memory};
ghost use Rattle.vcd_compare.specs.Map.{pairs_by, pairs_said, with_line, with_names};
ghost use Rattle.vcd_compare.specs.Pairs.{Pair};
ghost use Rattle.vcd_compare.specs.Inner.Mapping.{ArePaired, IsMapped, IsPut, line_fault};

use crate::fault::{CompareFault, MapCause, MapFault};
use crate::map::names_of;
use crate::pairs::Pairs;
use gate_netlist::next_line;
use std::alloc::Global;
use vcd_bits::Table;

/// The pairs that lines said, and marks of the bits of the dump that is expected, which stand in one.
#[derive(Drop)]
pub struct Mapped<'e, 'a> {
    pub pairs: Pairs<'e, 'a>,
    pub named: Vec<bool>,
}

/// The fault of a line.
fn line_fault(line: u64, cause: MapCause) -> CompareFault
    ensures { result ≡ line_fault line cause }
{
    CompareFault::Map(MapFault { line, cause })
}

impl<'e, 'a> Mapped<'e, 'a> {
    /// No pair of so many bits.
    fn none(alloc: Global, expected: &Table<'e>) -> Result<Mapped<'e, 'a>, CompareFault>
        ensures ok { IfOk result (IsMapped (bits_in expected.now) []) }
        ensures err { IfErr result (λ e. e ≡ out_of_memory) }
    {
        Ok(Mapped {
            pairs: Pairs::none(alloc),
            named: vec![in alloc; false; expected.count()]?,
        })
    }

    /// Adds the pair of two names.
    fn put_names(
        &mut self,
        line: u64,
        names: (&[u8], &[u8]),
        expected: &Table<'e>,
        actual: &Table<'a>,
    ) -> Result<(), CompareFault>
        requires { length self.old.named.items ≡ length (bits_in expected.now) }
        ensures { (pairs : List Pair) → IsMapped (bits_in expected.now) pairs self.old → IsPut (bits_in expected.now) line self.new result (with_names (bits_in expected.now) (bits_in actual.now) pairs (Some (names.entry.0.now, names.entry.1.now))) }
    {
        let Some(source) = expected.source(names.0) else {
            return Err(line_fault(line, MapCause::UnknownName));
        };
        let Some(other) = actual.source(names.1) else {
            return Err(line_fault(line, MapCause::UnknownName));
        };
        let Some(number) = expected.find(names.0) else {
            return Err(line_fault(line, MapCause::UnknownName));
        };
        if self.named[number] {
            return Err(line_fault(line, MapCause::NamedTwice));
        }
        self.pairs.push(number, source, other)?;
        self.named[number] = true;
        Ok(())
    }

    /// Adds the pair that a line says, if it says one.
    fn put_line(
        &mut self,
        line: u64,
        content: &[u8],
        expected: &Table<'e>,
        actual: &Table<'a>,
    ) -> Result<(), CompareFault>
        requires { length self.old.named.items ≡ length (bits_in expected.now) }
        ensures { (pairs : List Pair) → IsMapped (bits_in expected.now) pairs self.old → IsPut (bits_in expected.now) line self.new result (with_line (bits_in expected.now) (bits_in actual.now) pairs content.now) }
    {
        match names_of(content) {
            Ok(None) => Ok(()),
            Ok(Some(names)) => self.put_names(line, names, expected, actual),
            Err(cause) => Err(line_fault(line, cause)),
        }
    }
}

/// The pairs that a text says, or its first fault.
fn pairs_said<'e, 'a>(
    alloc: Global,
    text: &[u8],
    expected: &Table<'e>,
    actual: &Table<'a>,
) -> Result<Pairs<'e, 'a>, CompareFault>
    ensures { ArePaired (bits_in expected.now) result (pairs_said (bits_in expected.now) (bits_in actual.now) text.now) }
{
    let mut mapped = Mapped::none(alloc, expected)?;
    let mut line = 1;
    let mut rest = Some(text);
    while let Some(text) = rest {
        let (content, after) = next_line(text);
        if let Err(fault) = mapped.put_line(line, content, expected, actual) {
            return Err(fault);
        }
        line += 1;
        rest = after;
    }
    Ok(mapped.pairs)
}

/// The pairs of the bits of one name, or those that a map says.
pub fn pairs_by<'e, 'a>(
    alloc: Global,
    map: Option<&[u8]>,
    expected: &Table<'e>,
    actual: &Table<'a>,
) -> Result<Pairs<'e, 'a>, CompareFault>
    ensures { ArePaired (bits_in expected.now) result (pairs_by (option_map (λ m. m.now) map.entry) (bits_in expected.now) (bits_in actual.now)) }
{
    match map {
        None => Pairs::of(alloc, expected, actual),
        Some(text) => pairs_said(alloc, text, expected, actual),
    }
}
