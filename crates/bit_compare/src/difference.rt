ghost use Rattle.std.specs.Prelude.{◌≡◌, ◌≤◌, ◌<◌, ◌↔◌, ◌^◌, ℕ, IsTrue, true, min};
ghost use Rattle.gate_values.specs.declared.logic.Logic.{Logic};
ghost use Rattle.gate_values.specs.declared.logic.Logic.TheVariants.{X};
ghost use Rattle.bit_compare.specs.Agreement.{Agrees, AreAlike, IsExpected, IsFinding};
ghost use Rattle.bit_compare.specs.Shown.Moments.{IsShown, shown};
ghost use Rattle.bit_compare.specs.Inner.Cursors.{IsAt, bit_of};
ghost use Rattle.bit_compare.specs.Shown.Steps.{AreSmall};
ghost use Rattle.bit_compare.specs.Inner.Until.{AreTogether, IsUntil};

use crate::cursor::Cursor;
use crate::same::are_same;
use crate::shown::Shown;
use crate::times::Times;
use gate_values::Logic;

/// How far two bits may be from each other and still agree.
#[derive(Clone, Copy, Debug, PartialEq, Eq)]
pub struct Tolerance {
    /// How much earlier or later a value may stand.
    pub within: u128,
    /// Where x is expected, any value serves.
    pub any_for_x: bool,
}

/// Where two bits don't agree, and their values there.
#[derive(Clone, Copy, Debug, PartialEq, Eq)]
pub struct Difference {
    pub time: u128,
    pub expected: Logic,
    pub found: Logic,
}

fn lesser(a: u128, b: u128) -> u128
    ensures { result ≡ min a b }
{
    if a < b { a } else { b }
}

/// Whether any value serves for this one.
fn is_free(how: &Tolerance, value: Logic) -> bool
    ensures { IsTrue result ↔ ((how.now.any_for_x ≡ true) × (value ≡ X)) }
{
    how.any_for_x && value == Logic::X
}

/// Up to when a value that was found is expected.
fn expected_until(how: &Tolerance, expected: &Cursor, found: Logic) -> u128
    requires at { IsAt expected.now }
    requires within { expected.now.within ≡ how.now.within }
    ensures { IsUntil expected.now.time (IsExpected how.now found (bit_of expected.now)) result }
{
    let end = expected.near_until(found);
    if !how.any_for_x {
        return end;
    }
    let free = expected.near_until(Logic::X);
    if free < end { end } else { free }
}

/// Up to when the values of two bits are alike.
fn alike_until(how: &Tolerance, expected: &Cursor, actual: &Cursor) -> u128
    requires { AreTogether how.now expected.now actual.now }
    ensures { IsUntil expected.now.time (AreAlike how.now (bit_of expected.now) (bit_of actual.now)) result }
{
    let held = lesser(expected.until(), actual.until());
    let known = actual.near_until(expected.value());
    let taken = expected_until(how, expected, actual.value());
    lesser(held, lesser(known, taken))
}

/// Up to when two bits agree.
fn agreed_until(how: &Tolerance, expected: &Cursor, actual: &Cursor) -> u128
    requires { AreTogether how.now expected.now actual.now }
    ensures { IsUntil expected.now.time (Agrees how.now (bit_of expected.now) (bit_of actual.now)) result }
{
    if is_free(how, expected.value()) {
        expected.until()
    } else {
        alike_until(how, expected, actual)
    }
}

/// The first compared time at which two bits don't agree that are gone over, if there is one.
fn difference_between(
    how: &Tolerance,
    times: &Times,
    expected: &Shown,
    actual: &Shown,
) -> Option<Difference>
    requires within { how.now.within < 2 ^ 126 }
    requires times { AreSmall times.now }
    requires expected { IsShown expected.now }
    requires actual { IsShown actual.now }
    ensures { IsFinding how.now times.now (shown expected.now) (shown actual.now) result }
{
    let mut at_expected = Cursor::new(expected, how.within);
    let mut at_actual = Cursor::new(actual, how.within);
    let mut next = times.next(0);
    while let Some(time) = next {
        at_expected.advance(time);
        at_actual.advance(time);
        let until = agreed_until(how, &at_expected, &at_actual);
        if until <= time {
            return Some(Difference {
                time,
                expected: at_expected.value(),
                found: at_actual.value(),
            });
        }
        next = times.next(until);
    }
    None
}

/// The first compared time at which two bits don't agree, if there is one.
pub fn first_difference(
    how: &Tolerance,
    times: &Times,
    expected: &Shown,
    actual: &Shown,
) -> Option<Difference>
    requires within { how.now.within < 2 ^ 126 }
    requires times { AreSmall times.now }
    requires expected { IsShown expected.now }
    requires actual { IsShown actual.now }
    ensures { IsFinding how.now times.now (shown expected.now) (shown actual.now) result }
{
    if are_same(expected, actual) {
        return None;
    }
    difference_between(how, times, expected, actual)
}
