//! The readers of each net.
ghost use Rattle.std.specs.Prelude.{◌≡◌, ℕ, ◌<◌, ◌≤◌, length, get_or, map, IfOk, OnOk};
ghost use Rattle.std.specs.List.{All, range_with_len};
ghost use Rattle.gate_netlist.specs.declared.driver.Driver.TheVariants.{Input};
ghost use Rattle.gate_netlist.specs.Circuit.{nets_used, readers_among};
ghost use Rattle.number_groups.specs.Groups.{group};
ghost use Rattle.gate_netlist.specs.Inner.Readers.{AreOpen, AreTold, AreListed};

use crate::driver::Driver;
use number_groups::{Groups, Keyed};
use std::alloc::{AllocError, Global};

/// For each net the nets whose gate or flip-flop uses it, ascending, each once.
pub(super) fn readers_of(alloc: Global, drivers: &[Driver]) -> Result<Groups, AllocError>
    requires within { length drivers.now ≤ 1000000 }
    requires used { (g : ℕ) → g < length drivers.now → All (λ n. n < length drivers.now) (nets_used (get_or drivers.now g Input)) }
    ensures { IfOk result (λ groups. groups ≡ map (readers_among drivers.now (length drivers.now)) (range_with_len 0 (length drivers.now))) }
{
    let uses = uses_of(alloc, drivers)?;
    Groups::of(alloc, drivers.len() as u32, &uses)
}

/// What each net's gate or flip-flop uses: a reader under each net, once where it stands twice among its inputs.
fn uses_of(alloc: Global, drivers: &[Driver]) -> Result<Vec<Keyed>, AllocError>
    requires within { length drivers.now ≤ 1000000 }
    requires used { (g : ℕ) → g < length drivers.now → All (λ n. n < length drivers.now) (nets_used (get_or drivers.now g Input)) }
    ensures { IfOk result (λ uses. AreListed drivers.now (length drivers.now) uses.items) }
{
    let mut next = Vec::from_elem(alloc, 0, drivers.len())?;
    let mut uses = Vec::with_capacity(alloc, drivers.len())?;
    for (reader, driver) in drivers.iter().enumerate() {
        push_uses(driver, reader as u32, &mut next, &mut uses)?;
    }
    Ok(uses)
}

/// Lists a reader under the nets that its driver uses.
fn push_uses(
    driver: &Driver,
    reader: u32,
    next: &mut [u32],
    uses: &mut Vec<Keyed>,
) -> Result<(), AllocError>
    requires reader { reader < 1000000 }
    requires used { All (λ n. n < length next.old) (nets_used driver.now) }
    requires open { AreOpen reader uses.old.items next.old }
    ensures told { OnOk result (AreTold (group uses.old.items) reader (nets_used driver.now) uses.new.items next.new) }
    ensures nets { length next.new ≡ length next.old }
{
    match driver {
        Driver::Input => Ok(()),
        Driver::Gate { inputs, .. } => push_each(inputs.as_slice(), reader, next, uses),
        Driver::Flop { d, clock, .. } => push_each(&[*d, *clock], reader, next, uses),
    }
}

/// Lists a reader under each of some nets, once. `next` has for each net the least reader that may still be listed.
fn push_each(
    nets: &[u32],
    reader: u32,
    next: &mut [u32],
    uses: &mut Vec<Keyed>,
) -> Result<(), AllocError>
    requires reader { reader < 1000000 }
    requires used { All (λ n. n < length next.old) nets.now }
    requires open { AreOpen reader uses.old.items next.old }
    ensures told { OnOk result (AreTold (group uses.old.items) reader nets.now uses.new.items next.new) }
    ensures nets { length next.new ≡ length next.old }
{
    for net in nets {
        if next[*net as usize] <= reader {
            next[*net as usize] = reader + 1;
            uses.push(Keyed {
                key: *net,
                number: reader,
            })?;
        }
    }
    Ok(())
}
