//! How a block plays event times.
ghost use Rattle.std.specs.Prelude.{◌≡◌, ◌≤◌, ◌<◌, ◌+◌, ◌⊎◌, IfOk, OnOk, OnErr, Some, false, length};
ghost use Rattle.std.specs.List.{All};
ghost use Rattle.warp_process.specs.declared.message.Sign.TheVariants.{Plus};
ghost use Rattle.warp_process.specs.Advance.{IsAdvanced, IsAfterEvent};
ghost use Rattle.warp_process.specs.Played.{played_view};
ghost use Rattle.warp_process.specs.Sends.{SendsOnce};
ghost use Rattle.warp_process.specs.View.{IsLeast, IsEventTime, IsDone, is_busy};
ghost use Rattle.part_engine.specs.Runs.{IsNextBrought, begins_of};
ghost use Rattle.warp_stores.specs.Lists.{AreLonger};
ghost use Rattle.warp_engine.specs.Runs.{makings};
ghost use Rattle.warp_sends.specs.Told.{AreTold};
ghost use Rattle.warp_block.specs.Shown.Block.{seen_by};
ghost use Rattle.warp_block.specs.Inner.Held.{IsAt, IsQuietBelow, GoesOn};

use event_times::Times;
use part_engine::{bring, bring_first, brought_after, next_brought, next_time};
use std::alloc::AllocError;
use warp_engine::Engine;
use warp_process::{Heard, Message};
use warp_sends::tell;
use warp_stores::{Batch, Word};

/// Plays up to so many event times, and answers how many: fewer only where none is left. An error is a
/// refused growth; then some of them are played. The words are a place to work in.
fn play(
    heard: &Heard,
    begins: bool,
    engine: &mut Engine,
    times: &mut Times,
    words: &mut Vec<Word>,
    steps: u32,
) -> Result<u32, AllocError>
    requires at { IsAt heard.now engine.old times.old }
    requires begins { begins ≡ begins_of heard.now.part }
    ensures at { IsAt heard.now engine.new times.new }
    ensures on { GoesOn engine.old engine.new times.old times.new }
    ensures advanced { IfOk result (λ count. IsAdvanced (played_view heard.now engine.old.book.mark) (played_view heard.now engine.new.book.mark) count) }
    ensures all { IfOk result (λ count. (count ≡ steps) ⊎ ((count < steps) × IsDone (played_view heard.now engine.new.book.mark))) }
{
    let mut brought = next_brought(heard, engine);
    for finished in 0..steps {
        let Some(time) = next_time(heard, engine, begins, brought) else {
            return Ok(finished);
        };
        step(heard, engine, times, words, time, brought)?;
        brought = brought_after(heard, engine, time, brought);
    }
    Ok(steps)
}

/// Plays the next event time, by the least one at which something is brought from outside. An error is a refused growth; then it
/// isn't played.
fn step(
    heard: &Heard,
    engine: &mut Engine,
    times: &mut Times,
    words: &mut Vec<Word>,
    time: u64,
    brought: Option<u64>,
) -> Result<(), AllocError>
    requires at { IsAt heard.now engine.old times.old }
    requires next { IsLeast (IsEventTime (played_view heard.now engine.old.book.mark)) (Some time) }
    requires brought { IsNextBrought heard.now engine.old.book.mark brought }
    ensures at { IsAt heard.now engine.new times.new }
    ensures on { GoesOn engine.old engine.new times.old times.new }
    ensures mark { OnOk result (engine.new.book.mark ≡ time + 1) }
{
    if engine.mark() == 0 && time > 0 {
        begin(heard, engine, times, words)?;
        return play_time(heard, engine, times, words, time, brought);
    }
    play_time(heard, engine, times, words, time, brought)
}

/// Plays time 0, at which nothing happens. An error is a refused growth; then it isn't played.
pub(crate) fn begin(
    heard: &Heard,
    engine: &mut Engine,
    times: &Times,
    words: &mut Vec<Word>,
) -> Result<(), AllocError>
    requires at { IsAt heard.now engine.old times.now }
    requires mark { engine.old.book.mark ≡ 0 }
    requires quiet { is_busy (played_view heard.now 0) 0 ≡ false }
    ensures at { IsAt heard.now engine.new times.now }
    ensures on { GoesOn engine.old engine.new times.now times.now }
    ensures mark { OnOk result (engine.new.book.mark ≡ 1) }
{
    bring_first(heard, engine, words)?;
    engine.play(0, words.as_slice())?;
    Ok(())
}

/// Plays the next event time, where it is 0 or time 0 is played, by the least one at which something is brought from outside. An
/// error is a refused growth; then it isn't played.
fn play_time(
    heard: &Heard,
    engine: &mut Engine,
    times: &mut Times,
    words: &mut Vec<Word>,
    time: u64,
    brought: Option<u64>,
) -> Result<(), AllocError>
    requires at { IsAt heard.now engine.old times.old }
    requires next { IsLeast (IsEventTime (played_view heard.now engine.old.book.mark)) (Some time) }
    requires brought { IsNextBrought heard.now engine.old.book.mark brought }
    requires start { engine.old.book.mark ≡ 0 → time ≡ 0 }
    ensures at { IsAt heard.now engine.new times.new }
    ensures on { GoesOn engine.old engine.new times.old times.new }
    ensures mark { OnOk result (engine.new.book.mark ≡ time + 1) }
{
    bring(heard, engine, time, brought, words)?;
    times.push(time)?;
    match engine.play(time, words.as_slice()) {
        Ok(()) => Ok(()),
        Err(error) => {
            times.cut_from(time);
            Err(error)
        }
    }
}

/// Takes back what was played from a time on, below which and the floor nothing happens. It takes no memory.
pub(crate) fn give_up(heard: &Heard, engine: &mut Engine, times: &mut Times, time: u64)
    requires at { IsAt heard.now engine.old times.old }
    requires low { times.old.first ≤ time }
    requires high { time ≤ engine.old.book.mark }
    requires quiet { IsQuietBelow heard.now time }
    ensures at { IsAt heard.now engine.new times.new }
    ensures mark { engine.new.book.mark ≡ time }
{
    let _ = heard;
    engine.go_back(time);
    times.cut_from(time);
}

/// Plays up to so many event times, tells what they made, in a batch and in messages behind `out`, and answers how many: fewer only where
/// none is left. An error is a refused growth; then what is played is as it was. The words are a place to work in.
pub(crate) fn advance(
    heard: &Heard,
    begins: bool,
    engine: &mut Engine,
    times: &mut Times,
    words: &mut Vec<Word>,
    batch: &mut Batch<Word>,
    steps: u32,
    out: &mut Vec<Message>,
) -> Result<u32, AllocError>
    requires at { IsAt heard.now engine.old times.old }
    requires begins { begins ≡ begins_of heard.now.part }
    ensures at { IsAt heard.now engine.new times.new }
    ensures advanced { IfOk result (λ count. IsAdvanced (seen_by heard.now engine.old) (seen_by heard.now engine.new) count) }
    ensures all { IfOk result (λ count. (count ≡ steps) ⊎ ((count < steps) × IsDone (seen_by heard.now engine.new))) }
    ensures sends { OnOk result (SendsOnce (seen_by heard.now engine.old) (seen_by heard.now engine.new) Plus (IsAfterEvent (seen_by heard.now engine.old)) out.old.items out.new.items) }
    ensures longer { OnOk result (AreLonger batch.new (seen_by heard.now engine.old).logs (seen_by heard.now engine.new).logs) }
    ensures there { OnOk result (All (λ d. d.1.place < length heard.now.part.nets) batch.new) }
    ensures until { OnOk result (All (λ d. d.0 ≤ heard.now.horizon) batch.new) }
    ensures err { OnErr result (engine.new.book.mark ≡ engine.old.book.mark) }
    ensures untold { OnErr result (out.new.items ≡ out.old.items) }
{
    let start = engine.mark();
    let finished = match play(heard, begins, engine, times, words, steps) {
        Ok(finished) => finished,
        Err(error) => {
            give_up(heard, engine, times, start);
            return Err(error);
        }
    };
    match tell_made(heard, engine, times, start, batch, out) {
        Ok(()) => Ok(finished),
        Err(error) => {
            give_up(heard, engine, times, start);
            Err(error)
        }
    }
}

/// Tells what was made from a time on, in a batch and in messages behind `out`. An error is a refused growth; then no message is told.
fn tell_made(
    heard: &Heard,
    engine: &Engine,
    times: &Times,
    time: u64,
    batch: &mut Batch<Word>,
    out: &mut Vec<Message>,
) -> Result<(), AllocError>
    requires at { IsAt heard.now engine.now times.now }
    ensures words { OnOk result (batch.new ≡ makings time engine.now) }
    ensures told { OnOk result (AreTold Plus heard.now.part (makings time engine.now) out.old.items out.new.items) }
    ensures untold { OnErr result (out.new.items ≡ out.old.items) }
{
    let _ = times;
    engine.tell_since(time, batch)?;
    tell(*out.allocator(), heard.part(), batch, out)
}
