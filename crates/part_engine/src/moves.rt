//! Words that bring places to values.
ghost use Rattle.std.specs.Prelude.{◌≡◌, ◌≤◌, ◌<◌, ◌++◌, [], OnOk, length, map};
ghost use Rattle.gate_values.specs.Behaviour.{initial_of};
ghost use Rattle.gate_values.specs.declared.logic.Logic.TheVariants.{X};
ghost use Rattle.warp_gates.specs.Cells.{value_at};
ghost use Rattle.place_moves.specs.Moves.{move_of};
ghost use Rattle.part_engine.specs.FirstMoves.{AreFirstMoves};

use gate_values::Logic;
use std::alloc::AllocError;
use warp_part::Part;
use warp_stores::{PLACES, Word};

/// Puts into a list, in place of what it had, what flip-flops begin with at a time: at time 0, where that is known.
pub(crate) fn begin(part: &Part, time: u64, words: &mut Vec<Word>) -> Result<(), AllocError>
    ensures { OnOk result (AreFirstMoves part.now time words.new.items) }
{
    if time == 0 {
        return first_words(part, words);
    }
    words.clear();
    Ok(())
}

/// Puts into a list, in place of what it had, what flip-flops begin with, where that is known. An error is a refused growth.
pub fn first_words(part: &Part, words: &mut Vec<Word>) -> Result<(), AllocError>
    ensures { OnOk result (AreFirstMoves part.now 0 words.new.items) }
{
    words.clear();
    part.law();
    for slot in 0..part.len() {
        push_first(part, slot, words)?;
    }
    Ok(())
}

/// Puts behind words what a place begins with, where that is known.
fn push_first(part: &Part, slot: usize, words: &mut Vec<Word>) -> Result<(), AllocError>
    requires { slot < length part.now.nets }
    ensures { OnOk result (words.new.items ≡ words.old.items ++ move_of slot X (value_at (map initial_of part.now.sources) slot)) }
{
    part.law();
    push_move(words, slot as u32, Logic::X, part.initial(slot))
}

/// Puts behind words that a place goes from one value to another, unless they are the same.
pub(crate) fn push_move(
    words: &mut Vec<Word>,
    place: u32,
    from: Logic,
    to: Logic,
) -> Result<(), AllocError>
    requires { place < PLACES }
    ensures { OnOk result (words.new.items ≡ words.old.items ++ move_of place from to) }
{
    if to == from {
        return Ok(());
    }
    words.push(Word::new(place, from, to))?;
    Ok(())
}
