//! What came between two times, read where it lies.
ghost use Rattle.std.specs.Prelude.{◌≡◌, ◌<◌, IfSome};
ghost use Rattle.warp_stores.specs.Dated.{before, since, undated, first_time, Rises};

use crate::place::{Place, first_since, part};
use crate::stop::{Stop, TIMES};
use std::marker::Model;

/// Words of steps that are still to be read, the first of them first. They stay where they are.
#[derive(Debug, Drop)]
pub struct StepReader<'a, T> {
    pub(crate) stops: &'a [Stop],
    pub(crate) words: &'a [T],
}

impl<'a, T> Model for StepReader<'a, T> {
    ghost use Rattle.std.specs.Prelude.{List};
    ghost use Rattle.warp_stores.specs.Dated.{Dated};

    ghost Value = { List (Dated T) };

    ghost use Rattle.warp_stores.specs.Inner.Stops.{IsReader};
    ghost use Rattle.warp_stores.specs.Shown.Stops.{dated};

    ghost view = { λ reader. dated reader.stops.now reader.words.now };

    ghost invariant = { λ reader. IsReader reader.stops.now reader.words.now };
}

impl<'a, T: Copy> StepReader<'a, T> {
    /// What is true of all readers.
    pub fn law(&self)
        ensures { Rises self.now }
    {
        let _ = &self.words;
    }

    /// The time of the first word.
    pub fn head(&self) -> Option<u64>
        ensures first { result ≡ first_time self.now }
        ensures within { IfSome result (λ time. time < TIMES) }
    {
        if self.stops.is_empty() {
            return None;
        }
        Some(self.stops[0].time())
    }

    /// Reads the words before a time.
    pub fn take_before(&mut self, time: u64) -> &'a [T]
        ensures taken { result.now ≡ undated (before time self.old) }
        ensures left { self.new ≡ since time self.old }
    {
        let stops = self.stops;
        let words = self.words;
        let end = Place {
            stops: stops.len(),
            words: words.len(),
        };
        let place = first_since(stops, Place::START, end, time);
        self.stops = part(stops, place.stops, end.stops);
        self.words = part(words, place.words, end.words);
        part(words, 0, place.words)
    }
}
