//! The bits that differ, in the order in which they are listed.
ghost use Rattle.std.specs.Prelude.{◌≡◌, IfOk, OnOk};
ghost use Rattle.compare_answer.specs.Listing.{AreByTime, at_most};

use std::alloc::AllocError;
use vcd_compare::Differing;

/// Puts bits that differ into the order of their first times.
pub fn sort_by_time(found: &mut Vec<Differing>) -> Result<(), AllocError>
    ensures { OnOk result (AreByTime found.old.items found.new.items) }
{
    found.sort_by_key(
        |bit: &Differing| -> u128
            ensures { result ≡ bit.now.difference.time }
        { bit.difference.time },
    )?;
    Ok(())
}

/// At most so many of them, or all at 0.
pub fn at_most(found: &[Differing], most: usize) -> &[Differing]
    ensures { result.now ≡ at_most most found.now }
{
    if most == 0 || most >= found.len() {
        found
    } else {
        &found[..most]
    }
}
