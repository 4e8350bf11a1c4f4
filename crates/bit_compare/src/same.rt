//! Bits that show the same at all times.
ghost use Rattle.std.specs.Prelude.{◌≡◌, true};
ghost use Rattle.gate_values.specs.Changes.{same};
ghost use Rattle.bit_compare.specs.Inner.Moments.{IsSame};

use crate::shown::Shown;
use gate_values::{Change, Logic};

fn is_same(value: Logic, other: Logic) -> bool
    ensures { result ≡ same value other }
{
    value == other
}

fn is_equal(change: &Change, other: &Change) -> bool
    ensures { result ≡ true → change.now ≡ other.now }
{
    change.time == other.time && is_same(change.value, other.value)
}

/// Whether two lists of changes are equal.
fn are_equal(changes: &[Change], others: &[Change]) -> bool
    ensures { result ≡ true → changes.now ≡ others.now }
{
    if changes.len() != others.len() {
        return false;
    }
    for at in 0..changes.len() {
        if !is_equal(&changes[at], &others[at]) {
            return false;
        }
    }
    true
}

/// Whether two bits are seen alike.
fn are_seen_alike(bit: &Shown, other: &Shown) -> bool
    ensures scale { result ≡ true → bit.now.scale ≡ other.now.scale }
    ensures later { result ≡ true → bit.now.later ≡ other.now.later }
    ensures earlier { result ≡ true → bit.now.earlier ≡ other.now.earlier }
{
    bit.scale == other.scale && bit.later == other.later && bit.earlier == other.earlier
}

/// Whether two bits have the same changes, seen alike; they show the same at all times then.
pub fn are_same(bit: &Shown, other: &Shown) -> bool
    ensures { result ≡ true → IsSame bit.now other.now }
{
    is_same(bit.first, other.first)
        && are_seen_alike(bit, other)
        && are_equal(bit.changes, other.changes)
}
