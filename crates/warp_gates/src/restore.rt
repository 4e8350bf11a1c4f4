//! Flip-flops get their contents back.
ghost use Rattle.std.specs.Prelude.{◌≡◌, ◌<◌, ◌∷◌, List, length};
ghost use Rattle.std.specs.List.{All};
ghost use Rattle.warp_stores.specs.Words.{Move};
ghost use Rattle.warp_gates.specs.declared.front.Front.{Front};
ghost use Rattle.warp_gates.specs.Inner.Undoing.{AreRestored};

use crate::front::Front;
use crate::wiring::Wiring;
use warp_stores::Word;

/// Takes a word back, if it is of a flip-flop.
fn restore_one(fronts: &mut [Front], word: Word, wiring: &Wiring)
    requires word { word.place < length wiring.now }
    requires fronts { length fronts.old ≡ length wiring.now }
    ensures { (old : List Front) (later : List Move) → AreRestored wiring.now later old fronts.old → AreRestored wiring.now (word ∷ later) old fronts.new }
{
    let place = word.place() as usize;
    if wiring.is_flop(place) {
        fronts[place].output = word.before();
    }
}

/// Takes words back, the last of them first, of which those of flip-flops give their contents back.
pub(crate) fn restore_all(fronts: &mut [Front], words: &[Word], wiring: &Wiring)
    requires words { All (λ word. word.place < length wiring.now) words.now }
    requires fronts { length fronts.old ≡ length wiring.now }
    ensures { AreRestored wiring.now words.now fronts.old fronts.new }
{
    let mut left = words.len();
    while left > 0 {
        left -= 1;
        restore_one(fronts, words[left], wiring);
    }
}
