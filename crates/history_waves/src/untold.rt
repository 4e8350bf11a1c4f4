//! What of a history isn't told yet.

ghost use Rattle.std.specs.Prelude.{◌≡◌, ◌≤◌, ◌<◌, ◌∷◌, ◌++◌, [], Some, IfOk, IfSome, length};
ghost use Rattle.warp_stores.specs.Dated.{at, first_time};
ghost use Rattle.history_waves.specs.Inner.Pending.{AreTaken};

use crate::merging::list_time;
use net_waves::{NetMove, Stop};
use std::alloc::AllocError;
use std::marker::Model;
use warp_stores::{StepReader, TIMES, Word};

/// Words that are still to be told, and of each place the net that stands there, if it is told.
#[derive(Drop)]
pub(crate) struct Untold<'a> {
    own: &'a [Option<u32>],
    words: StepReader<'a, Word>,
}

impl<'a> Model for Untold<'a> {
    ghost use Rattle.history_waves.specs.Stories.{Telling};

    ghost Value = { Telling };

    ghost use Rattle.history_waves.specs.Inner.Untold.{untold_of};

    ghost view = { untold_of };
}

impl<'a> Untold<'a> {
    /// Words, and of each place the net that stands there, if it is told.
    pub(crate) fn new(own: &'a [Option<u32>], words: StepReader<'a, Word>) -> Untold<'a>
        ensures { result ≡ record { own = own.now; words = words.entry } }
    {
        Untold { own, words }
    }

    /// The time of the first word.
    pub(crate) fn head(&self) -> Option<u64>
        ensures first { result ≡ first_time self.now.words }
        ensures within { IfSome result (λ time. time < TIMES) }
    {
        self.words.head()
    }

    /// The words of the first time, which are told then.
    fn take(&mut self, time: u64) -> &'a [Word]
        requires first { first_time self.old.words ≡ Some time }
        requires within { time < TIMES }
        ensures own { self.new.own ≡ self.old.own }
        ensures words { at time result.now ++ self.new.words ≡ self.old.words }
    {
        self.words.law();
        self.words.take_before(time + 1)
    }

    /// Lists the changes that the words of a time tell, if that is the time of the first one, and before each the given changes of lesser
    /// nets, from a number on; answers how many of the given ones are listed by then. These words are told then. An error is a refused
    /// growth.
    pub(crate) fn tell(
        &mut self,
        time: u64,
        given: &[Stop],
        from: usize,
        moves: &mut Vec<NetMove>,
    ) -> Result<usize, AllocError>
        requires { from ≤ length given.now }
        ensures within { IfOk result (λ next. next ≤ length given.now) }
        ensures taken { IfOk result (λ next. AreTaken given.now from next time (self.old ∷ []) (self.new ∷ []) moves.old.items moves.new.items) }
    {
        if self.head() != Some(time) {
            return Ok(from);
        }
        let words = self.take(time);
        let next = list_time(self.own, time, words, given, from, moves)?;
        Ok(next)
    }
}
