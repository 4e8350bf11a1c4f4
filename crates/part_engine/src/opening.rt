//! The engine of a part that has played nothing.
ghost use Rattle.std.specs.Prelude.{◌≤◌, IfOk};
ghost use Rattle.warp_process.specs.Limits.{most_horizon};
ghost use Rattle.part_engine.specs.Runs.{IsOpeningRun};

use crate::queued::Queued;
use std::alloc::{AllocError, Global};
use warp_engine::Engine;
use warp_part::Part;

/// The engine of a part that has played nothing: of flip-flops what they begin with is listed. An error is a refused growth.
pub fn opening_engine(alloc: Global, part: &Part, horizon: u64) -> Result<Engine, AllocError>
    requires { horizon ≤ most_horizon }
    ensures { IfOk result (λ engine. IsOpeningRun part.now horizon engine) }
{
    part.law();
    let wiring = part.wiring(alloc)?;
    let contents = part.contents(alloc)?;
    let queued = Queued::of(alloc, part)?;
    let engine = Engine::new(
        alloc,
        wiring,
        queued.numbers(),
        queued.read(),
        queued.unread(),
        contents.as_slice(),
        horizon,
    )?;
    engine.law();
    Ok(engine)
}
