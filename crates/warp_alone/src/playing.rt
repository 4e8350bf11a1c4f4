//! Plays a part that is told nothing but the stimulus, from time 0 to the horizon.
ghost use Rattle.std.specs.Prelude.{◌≡◌, ◌≤◌, ◌<◌, ◌+◌, ℕ, Some, IfSome, IfOk, OnOk};
ghost use Rattle.warp_process.specs.Heard.{IsReceived, IsHeardFrom};
ghost use Rattle.warp_process.specs.Limits.{most_horizon};
ghost use Rattle.warp_process.specs.Opening.{silent_view};
ghost use Rattle.warp_process.specs.Played.{played_view};
ghost use Rattle.warp_process.specs.View.{given_by};
ghost use Rattle.warp_journal.specs.Books.{IsBrought};
ghost use Rattle.warp_part.specs.Placing.{place_source, place_given};
ghost use Rattle.part_engine.specs.Runs.{IsEngine, IsEngineOf, IsNextBrought, begins_of};
ghost use Rattle.part_engine.specs.Histories.{TellLogs};

use gate_stimulus::Stimulus;
use part_engine::{
    begins, bring, bring_first, brought_after, next_brought, next_time, opening_engine,
};
use std::alloc::{AllocError, Global};
use warp_engine::Engine;
use warp_part::Part;
use warp_process::Heard;
use warp_rounds::Watch;
use warp_stores::{Steps, Word};

/// All that comes true in a part up to a horizon, where nothing is received but the stimulus. The watch is told how far it has come. An
/// error is a refused growth.
pub(crate) fn history_of<W: Watch>(
    alloc: Global,
    part: Part,
    stimulus: &Stimulus,
    horizon: u64,
    watch: &mut W,
) -> Result<Steps<Word>, AllocError>
    requires { horizon ≤ most_horizon }
    ensures received { IfOk result (λ _. IsReceived (silent_view part stimulus.now horizon)) }
    ensures told { IfOk result (TellLogs (played_view (silent_view part stimulus.now horizon) (horizon + 1))) }
{
    let heard = Heard::new(alloc, part, stimulus, horizon)?;
    heard.law();
    let history = history_under(alloc, &heard, watch)?;
    Ok(history)
}

/// The same under what was received before time 0 alone.
fn history_under<W: Watch>(
    alloc: Global,
    heard: &Heard,
    watch: &mut W,
) -> Result<Steps<Word>, AllocError>
    requires received { IsReceived heard.now }
    requires floor { heard.now.floor ≡ 0 }
    ensures { IfOk result (TellLogs (played_view heard.now (heard.now.horizon + 1))) }
{
    let mut engine = opening_engine(alloc, heard.part(), heard.horizon())?;
    play_through(alloc, heard, &mut engine, watch)?;
    Ok(engine.into_history())
}

/// Plays all times up to the horizon on an engine that has played none. An error is a refused growth.
fn play_through<W: Watch>(
    alloc: Global,
    heard: &Heard,
    engine: &mut Engine,
    watch: &mut W,
) -> Result<(), AllocError>
    requires engine { IsEngineOf heard.now 0 engine.old }
    requires floor { heard.now.floor ≡ 0 }
    requires mark { engine.old.book.mark ≡ 0 }
    ensures engine { OnOk result (IsEngine heard.now engine.new) }
    ensures mark { OnOk result (engine.new.book.mark ≡ heard.now.horizon + 1) }
{
    let mut words = Vec::new(alloc);
    play_first(heard, engine, &mut words)?;
    play_all(heard, engine, &mut words, watch)
}

/// Plays time 0. An error is a refused growth. The words are a place to work in.
fn play_first(heard: &Heard, engine: &mut Engine, words: &mut Vec<Word>) -> Result<(), AllocError>
    requires engine { IsEngineOf heard.now 0 engine.old }
    requires floor { heard.now.floor ≡ 0 }
    requires mark { engine.old.book.mark ≡ 0 }
    ensures engine { OnOk result (IsEngineOf heard.now 0 engine.new) }
    ensures mark { OnOk result (engine.new.book.mark ≡ 1) }
{
    bring_at_first(heard, engine, words)?;
    engine.play(0, words.as_slice())?;
    Ok(())
}

/// Puts into a list the words that are brought at time 0. An error is a refused growth.
fn bring_at_first(heard: &Heard, engine: &Engine, words: &mut Vec<Word>) -> Result<(), AllocError>
    requires engine { IsEngineOf heard.now 0 engine.now }
    requires floor { heard.now.floor ≡ 0 }
    requires mark { engine.now.book.mark ≡ 0 }
    ensures { OnOk result (IsBrought (place_source heard.now.part) (place_given heard.now.part (given_by heard.now)) engine.now.book.mark 0 words.new.items) }
{
    let brought = next_brought(heard, engine);
    if next_time(heard, engine, begins(heard.part()), brought) == Some(0) {
        bring(heard, engine, 0, brought, words)?;
        return Ok(());
    }
    bring_first(heard, engine, words)?;
    Ok(())
}

/// In how many parts the time up to the horizon is played, where nothing is brought meanwhile: behind each a watch is told how far the run
/// has come.
const PARTS: u64 = 128;

/// How often, in the time up to the horizon, that is forgotten which only a way back needs: so seldom that to look for it costs nothing
/// beside what is played, and so often that what stands in queues stays few.
const TURNS: u64 = 512;

/// Plays all times from the mark to the horizon, and tells the watch before which all is played, at the mark too. Now and then what only a
/// way back needs is forgotten. An error is a refused growth. The words are a place to work in.
fn play_all<W: Watch>(
    heard: &Heard,
    engine: &mut Engine,
    words: &mut Vec<Word>,
    watch: &mut W,
) -> Result<(), AllocError>
    requires engine { IsEngine heard.now engine.old }
    requires floor { heard.now.floor ≡ 0 }
    requires some { 0 < engine.old.book.mark }
    requires within { engine.old.book.mark ≤ heard.now.horizon + 1 }
    ensures engine { OnOk result (IsEngine heard.now engine.new) }
    ensures mark { OnOk result (engine.new.book.mark ≡ heard.now.horizon + 1) }
{
    watch.floor(engine.mark());
    let mut brought = next_brought(heard, engine);
    let mut since = engine.mark();
    while engine.mark() <= heard.horizon() {
        let time = next_stop(engine.mark(), brought, heard.horizon());
        play_to(heard, engine, time, brought, words)?;
        brought = brought_after(heard, engine, time, brought);
        since = forget_played(heard, engine, since);
        watch.floor(engine.mark());
    }
    Ok(())
}

/// Forgets what only a way back needs, where enough time is played since the mark at which that was done last; answers at which mark it was
/// done last by then.
fn forget_played(heard: &Heard, engine: &mut Engine, since: u64) -> u64
    requires engine { IsEngine heard.now engine.old }
    ensures engine { IsEngine heard.now engine.new }
    ensures mark { engine.new.book.mark ≡ engine.old.book.mark }
{
    let mark = engine.mark();
    if mark.saturating_sub(since) <= heard.horizon() / TURNS {
        return since;
    }
    engine.forget_below(mark);
    mark
}

/// A time up to which an engine plays at once: at most a part of the time up to the horizon, and no further than to the least time at which
/// something is brought.
fn next_stop(mark: u64, brought: Option<u64>, horizon: u64) -> u64
    requires { mark ≤ horizon }
    ensures from { mark ≤ result }
    ensures to { result ≤ horizon }
    ensures brought { IfSome brought (λ time. mark ≤ time → result ≤ time) }
{
    let part = mark.saturating_add(horizon / PARTS).min(horizon);
    match brought {
        Some(time) => part.min(time).max(mark),
        None => part,
    }
}

/// Plays all times up to one, before which nothing is brought. An error is a refused growth. The words are a place to work in.
fn play_to(
    heard: &Heard,
    engine: &mut Engine,
    time: u64,
    brought: Option<u64>,
    words: &mut Vec<Word>,
) -> Result<(), AllocError>
    requires engine { IsEngine heard.now engine.old }
    requires floor { heard.now.floor ≡ 0 }
    requires some { 0 < engine.old.book.mark }
    requires ahead { engine.old.book.mark ≤ time }
    requires within { time ≤ heard.now.horizon }
    requires quiet { (t : ℕ) → engine.old.book.mark ≤ t → t < time → IsHeardFrom heard.now 0 t → ⊥ }
    requires brought { IsNextBrought heard.now engine.old.book.mark brought }
    ensures engine { OnOk result (IsEngine heard.now engine.new) }
    ensures mark { OnOk result (engine.new.book.mark ≡ time + 1) }
{
    bring(heard, engine, time, brought, words)?;
    engine.play(time, words.as_slice())?;
    Ok(())
}
