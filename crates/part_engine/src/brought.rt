//! What is brought to a part's engine.
ghost use Rattle.std.specs.Prelude.{◌≡◌, ◌≤◌, ◌<◌, ◌++◌, ℕ, false, OnOk, length};
ghost use Rattle.std.specs.List.{All, flat_map};
ghost use Rattle.warp_journal.specs.Books.{IsBrought};
ghost use Rattle.warp_part.specs.Placing.{place_source, place_given};
ghost use Rattle.warp_process.specs.Heard.{IsHeardFrom};
ghost use Rattle.warp_process.specs.Played.{played_view};
ghost use Rattle.warp_process.specs.View.{given_by, is_busy};
ghost use Rattle.part_engine.specs.Runs.{IsEngine, IsNextBrought};
ghost use Rattle.part_engine.specs.Inner.Bringing.{standing_move};

use crate::moves;
use std::alloc::AllocError;
use warp_engine::Engine;
use warp_process::{Heard, Placed};
use warp_stores::Word;

/// Puts into a list, in place of what it had, the words that are brought to an engine at a time by what a block has received:
/// the values that nets of other blocks and inputs take, and at time 0 what flip-flops begin with. Before that time nothing
/// is brought from outside from the engine's mark on, and time 0 isn't passed over. What is received is looked at only where that
/// time is the least one at which something is brought. An error is a refused growth.
pub fn bring(
    heard: &Heard,
    engine: &Engine,
    time: u64,
    brought: Option<u64>,
    words: &mut Vec<Word>,
) -> Result<(), AllocError>
    requires engine { IsEngine heard.now engine.now }
    requires ahead { engine.now.book.mark ≤ time }
    requires floor { heard.now.floor ≤ time }
    requires within { time ≤ heard.now.horizon }
    requires quiet { (t : ℕ) → engine.now.book.mark ≤ t → t < time → IsHeardFrom heard.now 0 t → ⊥ }
    requires start { engine.now.book.mark ≡ 0 → time ≡ 0 }
    requires brought { IsNextBrought heard.now engine.now.book.mark brought }
    ensures { OnOk result (IsBrought (place_source heard.now.part) (place_given heard.now.part (given_by heard.now)) engine.now.book.mark time words.new.items) }
{
    moves::begin(heard.part(), time, words)?;
    if brought == Some(time) {
        return push_row(heard, engine, heard.row(time), words);
    }
    Ok(())
}

/// The same for time 0, where nothing happens at it: what flip-flops begin with that no gate reads. An error is a refused growth.
pub fn bring_first(heard: &Heard, engine: &Engine, words: &mut Vec<Word>) -> Result<(), AllocError>
    requires engine { IsEngine heard.now engine.now }
    requires mark { engine.now.book.mark ≡ 0 }
    requires quiet { is_busy (played_view heard.now 0) 0 ≡ false }
    ensures { OnOk result (IsBrought (place_source heard.now.part) (place_given heard.now.part (given_by heard.now)) engine.now.book.mark 0 words.new.items) }
{
    let _ = engine;
    moves::begin(heard.part(), 0, words)
}

/// Puts behind words what each place of a row takes, where that is another value than it has.
fn push_row(
    heard: &Heard,
    engine: &Engine,
    row: &[Placed],
    words: &mut Vec<Word>,
) -> Result<(), AllocError>
    requires engine { IsEngine heard.now engine.now }
    requires within { All (λ s. s.place < length heard.now.part.nets) row.now }
    ensures { OnOk result (words.new.items ≡ words.old.items ++ flat_map (standing_move engine.now.book.gates.values) row.now) }
{
    for placed in row {
        push_placed(heard, engine, placed, words)?;
    }
    Ok(())
}

/// Puts behind words what a place takes, where that is another value than it has.
fn push_placed(
    heard: &Heard,
    engine: &Engine,
    placed: &Placed,
    words: &mut Vec<Word>,
) -> Result<(), AllocError>
    requires engine { IsEngine heard.now engine.now }
    requires within { placed.now.place < length heard.now.part.nets }
    ensures { OnOk result (words.new.items ≡ words.old.items ++ standing_move engine.now.book.gates.values placed.now) }
{
    heard.law();
    let place = placed.place();
    let value = engine.value(place);
    match placed.effective() {
        Some(next) => moves::push_move(words, place, value, next),
        None => Ok(()),
    }
}
