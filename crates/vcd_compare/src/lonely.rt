ghost use Rattle.std.specs.Prelude.{◌≡◌, ◌<◌, Some, length, slice_get};
ghost use Rattle.vcd_bits.specs.Names.{Bit};
ghost use Rattle.vcd_bits.specs.Shown.Tables.{bits_in};
ghost use Rattle.vcd_compare.specs.Pairs.{alone, lacks};

use vcd_bits::Table;

/// Whether the other dump has no bit of the name of this one.
fn is_alone(table: &Table, other: &Table, number: usize) -> bool
    requires { number < length (bits_in table.now) }
    ensures { (b : Bit) → slice_get (bits_in table.now) number ≡ Some b → result ≡ lacks (bits_in other.now) b }
{
    match table.bit(number) {
        Some((name, _)) => other.source(name).is_none(),
        None => false,
    }
}

/// How many bits the other dump lacks.
pub fn alone(table: &Table, other: &Table) -> usize
    ensures { result ≡ alone (bits_in table.now) (bits_in other.now) }
{
    let mut count = 0;
    for number in 0..table.count() {
        if is_alone(table, other, number) {
            count += 1;
        }
    }
    count
}
