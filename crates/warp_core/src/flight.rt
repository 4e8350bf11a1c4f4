//! The least time in flight.

ghost use Rattle.std.specs.Prelude.{◌≡◌, ◌+◌, ◌<◌, ◌≤◌, ◌==◌, ◌^◌, min, if◌then◌else◌, length, take};
ghost use Rattle.std.specs.List.{All, count_by};
ghost use Rattle.warp_core.specs.Inner.Kept.{IsSoonest, IsLeastOf, with_time};

use warp_block::Message;

/// The least time of the messages in flight, or one that is past all of them, and how many messages have it: while one
/// of these is left, none is looked at to know the least time.
#[derive(Clone, Copy, Debug, PartialEq, Eq)]
pub(crate) struct Soonest {
    pub(crate) time: u64,
    pub(crate) count: usize,
}

/// That of a list with no time past an end.
pub(crate) fn soonest_of(flight: &[Message], end: u64) -> Soonest
    requires { All (λ m. m.time ≤ end) flight.now }
    ensures { IsSoonest flight.now end result }
{
    soonest_from(
        Soonest {
            time: end,
            count: 0,
        },
        flight,
        0,
        end,
    )
}

/// That of a list, from that of the messages before a place.
pub(crate) fn soonest_from(soonest: Soonest, flight: &[Message], from: usize, end: u64) -> Soonest
    requires within { from ≤ length flight.now }
    requires times { All (λ m. m.time ≤ end) flight.now }
    requires soonest { IsSoonest (take from flight.now) end soonest }
    ensures { IsSoonest flight.now end result }
{
    let mut found = soonest;
    for place in from..flight.len() {
        found = counted(found, flight[place].time);
    }
    found
}

/// That of a list with one more message.
fn counted(soonest: Soonest, time: u64) -> Soonest
    requires { soonest.count + 1 < 2 ^ 64 }
    ensures { result ≡ with_time soonest time }
{
    if time < soonest.time {
        return Soonest { time, count: 1 };
    }
    if time == soonest.time {
        return Soonest {
            time,
            count: soonest.count + 1,
        };
    }
    soonest
}

/// That of a list, from that of the list with one more message at a time.
pub(crate) fn soonest_without(soonest: Soonest, time: u64, flight: &[Message], end: u64) -> Soonest
    requires times { All (λ m. m.time ≤ end) flight.now }
    requires least { All (λ m. soonest.time ≤ m.time) flight.now }
    requires later { soonest.time ≤ time }
    requires within { soonest.time ≤ end }
    requires count { soonest.count ≡ count_by (λ m. m.time == soonest.time) flight.now + (if time == soonest.time then 1 else 0) }
    requires none { soonest.count ≡ 0 → soonest.time ≡ end }
    ensures { IsSoonest flight.now end result }
{
    if time > soonest.time {
        return soonest;
    }
    if soonest.count > 1 {
        return Soonest {
            time,
            count: soonest.count - 1,
        };
    }
    soonest_of(flight, end)
}

/// The least of some times and another one.
pub(crate) fn least_of(times: &[u64], other: u64) -> u64
    ensures { IsLeastOf times.now other result }
{
    let mut least = other;
    for time in times {
        least = lesser(least, *time);
    }
    least
}

fn lesser(first: u64, second: u64) -> u64
    ensures { result ≡ min first second }
{
    first.min(second)
}
