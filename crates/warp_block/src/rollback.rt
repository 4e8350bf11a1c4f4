//! How a block goes back to a message's time.
ghost use Rattle.std.specs.Prelude.{◌≡◌, ◌≢◌, ◌<◌, ◌≤◌, ◌↔◌, IsTrue, OnOk, OnErr, length, slice_index};
ghost use Rattle.std.specs.List.{All};
ghost use Rattle.warp_part.specs.Portion.{hears};
ghost use Rattle.warp_stores.specs.Lists.{AreLonger};
ghost use Rattle.warp_process.specs.declared.message.Sign.TheVariants.{Minus};
ghost use Rattle.warp_process.specs.Entries.{effective_of};
ghost use Rattle.warp_process.specs.View.{effective_at};
ghost use Rattle.warp_process.specs.Sends.{SendsOnce};
ghost use Rattle.warp_process.specs.Shown.Receive.{IsPut};
ghost use Rattle.warp_block.specs.Shown.Block.{seen_by};
ghost use Rattle.warp_block.specs.Inner.Held.{IsAt};

use event_times::Times;
use gate_values::Logic;
use std::alloc::AllocError;
use warp_engine::Engine;
use warp_process::{Entry, Heard, Message};
use warp_sends::take_back;
use warp_stores::{Batch, Word};

/// Whether another entry at a place and time changes what is processed.
pub(crate) fn is_late(heard: &Heard, engine: &Engine, slot: usize, time: u64, entry: Entry) -> bool
    requires { slot < length heard.now.part.nets }
    ensures { IsTrue result ↔ ((time < engine.now.book.mark) × (effective_of entry ≢ effective_at heard.now (slice_index heard.now.part.nets slot) time)) }
{
    if time >= engine.mark() {
        return false;
    }
    differ(entry.effective(), heard.effective(slot, time))
}

/// Whether two effective values differ.
fn differ(value: Option<Logic>, other: Option<Logic>) -> bool
    ensures { IsTrue result ↔ (value ≢ other) }
{
    value != other
}

/// Takes in an entry that changes what is processed: what was made from its time on is taken back, and the batch tells it, and the
/// antimessages on it go behind `out`. An error is a refused growth; then all is as it was, but for the batch.
pub(crate) fn roll_back(
    heard: &mut Heard,
    engine: &mut Engine,
    times: &mut Times,
    batch: &mut Batch<Word>,
    slot: usize,
    time: u64,
    entry: Entry,
    out: &mut Vec<Message>,
) -> Result<(), AllocError>
    requires at { IsAt heard.old engine.old times.old }
    requires slot { slot < length heard.old.part.nets }
    requires heard { IsTrue (hears heard.old.part (slice_index heard.old.part.nets slot)) }
    requires late { time < engine.old.book.mark }
    requires from { heard.old.floor ≤ time }
    requires until { time ≤ heard.old.horizon }
    ensures at { IsAt heard.new engine.new times.new }
    ensures put { OnOk result (IsPut heard.old heard.new (slice_index heard.old.part.nets slot) time entry) }
    ensures mark { OnOk result (engine.new.book.mark ≡ time) }
    ensures sends { OnOk result (SendsOnce (seen_by heard.old engine.old) (seen_by heard.new engine.new) Minus (λ t. time < t) out.old.items out.new.items) }
    ensures longer { OnOk result (AreLonger batch.new (seen_by heard.new engine.new).logs (seen_by heard.old engine.old).logs) }
    ensures there { OnOk result (All (λ d. d.1.place < length heard.old.part.nets) batch.new) }
    ensures heard { OnErr result (heard.new ≡ heard.old) }
    ensures engine { OnErr result (engine.new ≡ engine.old) }
    ensures times { OnErr result (times.new ≡ times.old) }
    ensures untold { OnErr result (out.new.items ≡ out.old.items) }
{
    engine.tell_since(time, batch)?;
    let sent = out.len();
    take_back(*out.allocator(), heard.part(), batch, out)?;
    match heard.put(slot, time, entry) {
        Ok(()) => {
            heard.law();
            engine.go_back(time);
            times.cut_from(time);
            Ok(())
        }
        Err(error) => {
            out.truncate(sent);
            Err(error)
        }
    }
}
