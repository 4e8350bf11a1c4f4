//! When something happens next.
ghost use Rattle.std.specs.Prelude.{◌≡◌, ◌≢◌, ◌≤◌, ◌<◌, ℕ, Some, false};
ghost use Rattle.warp_process.specs.Played.{played_view};
ghost use Rattle.warp_process.specs.View.{IsLeast, IsEventTime, is_busy};
ghost use Rattle.part_engine.specs.Runs.{IsEngine, IsNextBrought, begins_of};
ghost use Rattle.part_engine.specs.Inner.Soonest.{sooner};

use warp_engine::Engine;
use warp_process::Heard;

/// The least time, from an engine's mark on and not below the floor, at which something is brought to a net from outside.
pub fn next_brought(heard: &Heard, engine: &Engine) -> Option<u64>
    ensures { IsNextBrought heard.now engine.now.book.mark result }
{
    heard.next(engine.mark().max(heard.floor()))
}

/// The same by the one before a time was played: it is looked for again only where it was that time.
pub fn brought_after(heard: &Heard, engine: &Engine, time: u64, brought: Option<u64>) -> Option<u64>
    requires { brought ≢ Some time → IsNextBrought heard.now engine.now.book.mark brought }
    ensures { IsNextBrought heard.now engine.now.book.mark result }
{
    if brought == Some(time) {
        return next_brought(heard, engine);
    }
    brought
}

/// The least time from an engine's mark to the horizon at which something happens to a net that a gate reads, by the least one at
/// which something is brought. Nothing happens from the mark on and below the floor.
pub fn next_time(heard: &Heard, engine: &Engine, begins: bool, brought: Option<u64>) -> Option<u64>
    requires engine { IsEngine heard.now engine.now }
    requires begins { begins ≡ begins_of heard.now.part }
    requires quiet { (t : ℕ) → engine.now.book.mark ≤ t → t < heard.now.floor → is_busy (played_view heard.now engine.now.book.mark) t ≡ false }
    requires brought { IsNextBrought heard.now engine.now.book.mark brought }
    ensures { IsLeast (IsEventTime (played_view heard.now engine.now.book.mark)) result }
{
    let mark = engine.mark();
    if begins && mark == 0 {
        return Some(0);
    }
    let next = sooner(brought, engine.next());
    if next <= heard.horizon() {
        Some(next)
    } else {
        None
    }
}

/// The sooner of a time that may be there, and another.
fn sooner(first: Option<u64>, second: u64) -> u64
    ensures { result ≡ sooner first second }
{
    match first {
        Some(time) => time.min(second),
        None => second,
    }
}
