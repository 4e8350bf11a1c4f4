//! Messages to the readers of a net.
ghost use Rattle.std.specs.Prelude.{◌≡◌, ◌++◌, OnOk};
ghost use Rattle.warp_process.specs.Inner.Step.{Extends};
ghost use Rattle.warp_process.specs.Shown.Step.{sent};

use gate_values::Change;
use std::alloc::AllocError;
use warp_process::{Message, Sign};

/// Puts behind `out` a message on a change of a net to each of its readers. An error is a refused growth; then some may be
/// there.
pub(crate) fn send(
    readers: &[u32],
    net: u32,
    change: Change,
    sign: Sign,
    out: &mut Vec<Message>,
) -> Result<(), AllocError>
    ensures ok { OnOk result (out.new.items ≡ out.old.items ++ sent sign net readers.now change) }
    ensures extends { Extends out.old.items out.new.items }
{
    for reader in readers {
        out.push(Message {
            time: change.time,
            block: *reader,
            net,
            value: change.value,
            sign,
        })?;
    }
    Ok(())
}
