ghost use Rattle.std.specs.Prelude.{◌≡◌, ◌<◌};
ghost use Rattle.vcd_compare.specs.Times.{Moves};
ghost use Rattle.vcd_compare.specs.Inner.Sights.{IsSmallSight, sight_by};

use crate::report::Options;
use crate::sight::Sight;
use crate::times::{finer, how_of, times_of, units_in};
use gate_stimulus::Timescale;

/// How two dumps with these timescales are looked at, where the last stamp of the one that is expected is this.
pub fn sight_of(options: &Options, expected: Timescale, actual: Timescale, last: u64) -> Sight
    requires moves { Moves options.now }
    requires expected { 0 < expected.number }
    requires actual { 0 < actual.number }
    ensures value { result ≡ sight_by options.now expected actual last }
    ensures small { IsSmallSight result }
{
    let unit = finer(expected, actual);
    let scale = units_in(expected, unit);
    Sight {
        times: times_of(options, scale, last),
        how: how_of(options, scale),
        scale,
        own: units_in(actual, unit),
        later: options.later as u128 * scale as u128,
        earlier: options.earlier as u128 * scale as u128,
    }
}
