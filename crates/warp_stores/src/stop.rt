//! So many words at a time, in eight bytes.
ghost use Rattle.std.specs.Prelude.{◌≡◌, ◌<◌, ◌≤◌, ◌+◌, nat_lt};

use std::marker::Model;

/// How many times there are: each time is below.
pub const TIMES: u64 = 1 << 40;

/// How many counts there are: each count is below.
const COUNTS: u64 = 1 << 24;

/// A time, and how many words came at it.
#[derive(Clone, Copy, Debug)]
pub(crate) struct Stop {
    bits: u64,
}

impl Model for Stop {
    ghost use Rattle.warp_stores.specs.Inner.StopBits.{bits_of, bits_of-tally_of};
    ghost use Rattle.warp_stores.specs.Shown.StopBits.{Tally, tally_of};

    ghost Value = { Tally };

    ghost view = { λ stop. tally_of stop.bits };

    ghost inverse = { λ tally. record { bits = bits_of tally } };

    ghost inverse_ok = { λ stop h. bits_of-tally_of stop };
}

/// The most words that a stop counts.
pub(crate) const MOST_COUNTED: u64 = COUNTS - 1;

impl Stop {
    /// So many words at a time.
    pub(crate) fn new(time: u64, count: u64) -> Stop
        requires time { time < TIMES }
        requires count { count ≤ MOST_COUNTED }
        ensures { result ≡ record { time = time; count = count } }
    {
        Stop {
            bits: time * COUNTS + count,
        }
    }

    /// The time.
    pub(crate) fn time(self) -> u64
        ensures time { result ≡ self.time }
        ensures within { result < TIMES }
    {
        self.bits / COUNTS
    }

    /// How many words came.
    pub(crate) fn count(self) -> u64
        ensures { result ≡ self.count }
    {
        self.bits % COUNTS
    }

    /// Whether one word more can be counted.
    pub(crate) fn has_room(self) -> bool
        ensures { result ≡ nat_lt (self.count + 1) COUNTS }
    {
        self.bits % COUNTS + 1 < COUNTS
    }

    /// One word more.
    pub(crate) fn one_more(self) -> Stop
        requires { self.count + 1 < COUNTS }
        ensures { result ≡ record { time = self.time; count = self.count + 1 } }
    {
        Stop {
            bits: self.bits + 1,
        }
    }
}
