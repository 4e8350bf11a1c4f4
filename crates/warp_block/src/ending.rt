//! How a block's history comes to tell its logs: what is left up to the horizon is played, though nothing happens any more to nets that
//! gates read.
ghost use Rattle.std.specs.Prelude.{◌≡◌, ◌<◌, ◌≤◌, ◌+◌, ℕ, true, false, IfOk, OnOk};
ghost use Rattle.warp_process.specs.Played.{played_view};
ghost use Rattle.warp_process.specs.View.{IsDone, is_busy};
ghost use Rattle.part_engine.specs.Runs.{IsEngineOf, begins_of};
ghost use Rattle.part_engine.specs.Histories.{TellLogs};
ghost use Rattle.warp_block.specs.Shown.Block.{seen_by};
ghost use Rattle.warp_block.specs.Inner.Held.{IsAt};

use crate::play::begin;
use event_times::Times;
use part_engine::{bring, next_brought, next_time};
use std::alloc::AllocError;
use warp_engine::Engine;
use warp_process::Heard;
use warp_stores::{Batch, Word};

/// Plays what is left up to the horizon, where that is nothing that gates read, and tells whether the history then tells the logs. An
/// error is a refused growth; then some of it is played. The words and the batch are places to work in.
pub(crate) fn play_out(
    heard: &Heard,
    begins: bool,
    engine: &mut Engine,
    times: &Times,
    words: &mut Vec<Word>,
    batch: &mut Batch<Word>,
) -> Result<bool, AllocError>
    requires at { IsAt heard.now engine.old times.now }
    requires begins { begins ≡ begins_of heard.now.part }
    ensures done { IfOk result (λ told. told ≡ true → IsDone (seen_by heard.now engine.old)) }
    ensures tell { IfOk result (λ told. told ≡ true → TellLogs (seen_by heard.now engine.old) engine.new.book.history) }
{
    let mark = engine.mark();
    if !play_quiet(heard, begins, engine, times, words)? {
        return Ok(false);
    }
    engine.tell_since(mark, batch)?;
    Ok(batch.words().is_empty())
}

/// Plays up to the horizon, where no event time is left and it isn't below the floor, and tells whether it did. An error is a refused
/// growth.
fn play_quiet(
    heard: &Heard,
    begins: bool,
    engine: &mut Engine,
    times: &Times,
    words: &mut Vec<Word>,
) -> Result<bool, AllocError>
    requires at { IsAt heard.now engine.old times.now }
    requires begins { begins ≡ begins_of heard.now.part }
    ensures engine { IsEngineOf heard.now times.now.first engine.new }
    ensures mark { IfOk result (λ played. played ≡ true → engine.new.book.mark ≡ heard.now.horizon + 1) }
    ensures done { IfOk result (λ played. played ≡ true → IsDone (played_view heard.now engine.old.book.mark)) }
{
    if engine.mark() > heard.horizon() {
        return Ok(true);
    }
    if heard.floor() > heard.horizon() {
        return Ok(false);
    }
    let brought = next_brought(heard, engine);
    if next_time(heard, engine, begins, brought).is_some() {
        return Ok(false);
    }
    play_rest(heard, engine, times, words)?;
    Ok(true)
}

/// Plays all up to the horizon, where nothing happens. An error is a refused growth; then some of it is played.
fn play_rest(
    heard: &Heard,
    engine: &mut Engine,
    times: &Times,
    words: &mut Vec<Word>,
) -> Result<(), AllocError>
    requires at { IsAt heard.now engine.old times.now }
    requires ahead { engine.old.book.mark ≤ heard.now.horizon }
    requires floor { heard.now.floor ≤ heard.now.horizon }
    requires quiet { (t : ℕ) → engine.old.book.mark ≤ t → t ≤ heard.now.horizon → is_busy (played_view heard.now engine.old.book.mark) t ≡ false }
    ensures engine { IsEngineOf heard.now times.now.first engine.new }
    ensures mark { OnOk result (engine.new.book.mark ≡ heard.now.horizon + 1) }
{
    if engine.mark() > 0 {
        return play_last(heard, engine, times, words);
    }
    begin(heard, engine, times, words)?;
    if engine.mark() > heard.horizon() {
        return Ok(());
    }
    play_last(heard, engine, times, words)
}

/// Plays the horizon, before which nothing happens. An error is a refused growth; then it isn't played.
fn play_last(
    heard: &Heard,
    engine: &mut Engine,
    times: &Times,
    words: &mut Vec<Word>,
) -> Result<(), AllocError>
    requires at { IsAt heard.now engine.old times.now }
    requires some { 0 < engine.old.book.mark }
    requires ahead { engine.old.book.mark ≤ heard.now.horizon }
    requires floor { heard.now.floor ≤ heard.now.horizon }
    requires quiet { (t : ℕ) → engine.old.book.mark ≤ t → t < heard.now.horizon → is_busy (played_view heard.now engine.old.book.mark) t ≡ false }
    ensures engine { IsEngineOf heard.now times.now.first engine.new }
    ensures mark { OnOk result (engine.new.book.mark ≡ heard.now.horizon + 1) }
{
    let time = heard.horizon();
    let brought = next_brought(heard, engine);
    bring(heard, engine, time, brought, words)?;
    engine.play(time, words.as_slice())?;
    Ok(())
}
