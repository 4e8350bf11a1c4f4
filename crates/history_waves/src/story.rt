//! The history of some nets.

ghost use Rattle.std.specs.Prelude.{◌≡◌, length};
ghost use Rattle.warp_stores.specs.Dated.{last_time};
ghost use Rattle.history_waves.specs.Inner.Parts.{part_of};

use crate::untold::Untold;
use std::marker::Model;
use warp_stores::{Steps, Word};

/// Words of a history, and of each place the net that stands there, if it is told.
#[derive(Drop)]
pub struct Story {
    own: Vec<Option<u32>>,
    history: Steps<Word>,
}

impl Model for Story {
    ghost use Rattle.history_waves.specs.Stories.{Telling};

    ghost Value = { Telling };

    ghost use Rattle.history_waves.specs.Shown.Story.{telling_of};

    ghost view = { telling_of };
}

impl Story {
    /// A history, of whose places these are the nets that are told.
    pub fn new(own: Vec<Option<u32>>, history: Steps<Word>) -> Story
        ensures { result ≡ record { own = own.items; words = history } }
    {
        Story { own, history }
    }

    /// How many words the history has.
    pub(crate) fn count(&self) -> usize
        ensures { result ≡ length self.now.words }
    {
        self.history.count()
    }

    /// The time of the last word, 0 where there is none.
    pub(crate) fn last_time(&self) -> u64
        ensures { result ≡ last_time self.now.words }
    {
        self.history.last_time()
    }

    /// What is told from a time on, and before another, if there is one.
    pub(crate) fn between(&self, from: u64, until: Option<u64>) -> Untold<'_>
        ensures { result ≡ part_of from until self.now }
    {
        Untold::new(self.own.as_slice(), self.history.between(from, until))
    }
}
