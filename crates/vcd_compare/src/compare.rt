ghost use Rattle.std.specs.Prelude.{◌≡◌, ◌<◌, ◌^◌, true, false, length, option_map};
ghost use Rattle.vcd_compare.specs.Answer.{IsAnswer};
ghost use Rattle.vcd_compare.specs.Inner.Answer.{actual_by, expected_by};
ghost use Rattle.vcd_bits.specs.Shown.Tables.{bits_in};
ghost use Rattle.vcd_compare.specs.Inner.Reported.{HasNothing, IsBefore, IsBeforeOther, IsBehind, Reports, events_of};
ghost use Rattle.vcd_compare.specs.Inner.Sights.{IsSmallSight};
ghost use Rattle.vcd_compare.specs.Times.{Moves};

use crate::fault::CompareFault;
use crate::found::differing;
use crate::lonely::alone;
use crate::looking::sight_of;
use crate::mapped::pairs_by;
use crate::pairs::Pairs;
use crate::report::{Options, Report};
use crate::sight::Sight;
use crate::times::finer;
use gate_stimulus::Timescale;
use gate_vcd::{Followed, StimCause, StimFault};
use std::alloc::Global;
use vcd_bits::{Dump, Table};

/// The fault of the dump that is expected.
fn expected_fault(fault: StimFault) -> CompareFault
    ensures { result ≡ expected_by fault fault.cause }
{
    match fault.cause {
        StimCause::Memory => CompareFault::Memory,
        _ => CompareFault::Expected(fault),
    }
}

/// The fault of the other dump.
fn actual_fault(fault: StimFault) -> CompareFault
    ensures { result ≡ actual_by fault fault.cause }
{
    match fault.cause {
        StimCause::Memory => CompareFault::Memory,
        _ => CompareFault::Actual(fault),
    }
}

/// The fault where the other dump has one in its declarations: one of the changes of the dump that is expected comes
/// before it.
fn fault_behind(alloc: Global, expected: &mut Dump, fault: StimFault) -> CompareFault
    ensures { IsBehind (events_of expected.old) fault result }
{
    match expected.follow(alloc, &[]) {
        Ok(_) => return actual_fault(fault),
        Err(own) => return expected_fault(own),
    }
}

/// The fault where the map has one, once the changes of the dump that is expected are read: one of the other dump's changes
/// comes before it.
fn fault_before_other(alloc: Global, actual: &mut Dump, fault: CompareFault) -> CompareFault
    ensures { IsBeforeOther (events_of actual.old) fault result }
{
    match actual.follow(alloc, &[]) {
        Ok(_) => return fault,
        Err(own) => return actual_fault(own),
    }
}

/// The fault where the map has one: one of the changes of either dump comes before it.
fn fault_before(
    alloc: Global,
    expected: &mut Dump,
    actual: &mut Dump,
    fault: CompareFault,
) -> CompareFault
    ensures { IsBefore (events_of expected.old) (events_of actual.old) fault result }
{
    match expected.follow(alloc, &[]) {
        Ok(_) => return fault_before_other(alloc, actual, fault),
        Err(own) => return expected_fault(own),
    }
}

/// Whether there is no pair, or no time, to compare.
fn is_nothing(sight: &Sight, pairs: &Pairs) -> bool
    requires { IsSmallSight sight.now }
    ensures nothing { result ≡ true → HasNothing sight.now pairs.now.numbers.items }
    ensures some { result ≡ false → 0 < length pairs.now.numbers.items }
{
    if pairs.numbers.is_empty() {
        return true;
    }
    match sight.times.next(0) {
        Some(_) => false,
        None => true,
    }
}

/// What is reported of two dumps whose changes are read.
fn report(
    alloc: Global,
    sight: &Sight,
    unit: Timescale,
    expected: &Table,
    actual: &Table,
    pairs: &Pairs,
    shown: &Followed,
    looked: &Followed,
) -> Result<Report, CompareFault>
    requires sight { IsSmallSight sight.now }
    requires few { length pairs.now.numbers.items < 2 ^ 32 }
    ensures { Reports sight.now unit (bits_in expected.now) (bits_in actual.now) pairs.now.numbers.items shown.now.given looked.now.given result }
{
    if is_nothing(sight, pairs) {
        return Err(CompareFault::Nothing);
    }
    Ok(Report {
        pairs: pairs.numbers.len(),
        differing: differing(alloc, sight, expected, pairs, &shown.given, &looked.given)?,
        times: sight.times,
        unit,
        only_expected: alone(expected, actual),
        only_actual: alone(actual, expected),
    })
}

/// Compares two dumps: the bits of one name, or those that a map pairs.
pub fn compare_texts(
    alloc: Global,
    options: &Options,
    expected: &[u8],
    actual: &[u8],
    map: Option<&[u8]>,
) -> Result<Report, CompareFault>
    requires { Moves options.now }
    ensures { IsAnswer options.now expected.now actual.now (option_map (λ m. m.now) map.entry) result }
{
    let mut first = match Dump::open(alloc, expected, options.expected_scope) {
        Ok(dump) => dump,
        Err(fault) => return Err(expected_fault(fault)),
    };
    let mut second = match Dump::open(alloc, actual, options.actual_scope) {
        Ok(dump) => dump,
        Err(fault) => return Err(fault_behind(alloc, &mut first, fault)),
    };
    let pairs = match pairs_by(alloc, map, &first.table, &second.table) {
        Ok(pairs) => pairs,
        Err(fault) => return Err(fault_before(alloc, &mut first, &mut second, fault)),
    };
    let shown = match first.follow(alloc, pairs.expected.as_slice()) {
        Ok(followed) => followed,
        Err(fault) => return Err(expected_fault(fault)),
    };
    let looked = match second.follow(alloc, pairs.actual.as_slice()) {
        Ok(followed) => followed,
        Err(fault) => return Err(actual_fault(fault)),
    };
    let sight = sight_of(options, first.timescale, second.timescale, shown.last);
    let unit = finer(first.timescale, second.timescale);
    report(
        alloc,
        &sight,
        unit,
        &first.table,
        &second.table,
        &pairs,
        &shown,
        &looked,
    )
}
