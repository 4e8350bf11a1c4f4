//! What a new block tells.
ghost use Rattle.std.specs.Prelude.{◌≡◌, ◌++◌, OnOk, OnErr};
ghost use Rattle.warp_process.specs.Inner.Step.{Extends};
ghost use Rattle.warp_process.specs.Opening.{first_messages, opening_messages};

use crate::send::send;
use gate_values::{Change, Logic};
use std::alloc::AllocError;
use warp_part::Part;
use warp_process::{Message, Sign};

/// Puts behind `out` the messages on what flip-flops begin with, where that is known, by net, then by reader. An error is a
/// refused growth; then nothing is told.
pub fn tell_first(part: &Part, out: &mut Vec<Message>) -> Result<(), AllocError>
    ensures ok { OnOk result (out.new.items ≡ out.old.items ++ opening_messages part.now) }
    ensures err { OnErr result (out.new.items ≡ out.old.items) }
{
    let sent = out.len();
    match send_contents(part, out) {
        Ok(()) => Ok(()),
        Err(error) => {
            out.truncate(sent);
            Err(error)
        }
    }
}

/// Puts behind `out` the messages on what flip-flops begin with. An error is a refused growth; then some may be there.
fn send_contents(part: &Part, out: &mut Vec<Message>) -> Result<(), AllocError>
    ensures ok { OnOk result (out.new.items ≡ out.old.items ++ opening_messages part.now) }
    ensures extends { Extends out.old.items out.new.items }
{
    part.law();
    for slot in 0..part.len() {
        send_content(part.readers(slot), part.net(slot), part.initial(slot), out)?;
    }
    Ok(())
}

/// Puts behind `out` the messages on what a net begins with, if it is known.
fn send_content(
    readers: &[u32],
    net: u32,
    content: Logic,
    out: &mut Vec<Message>,
) -> Result<(), AllocError>
    ensures ok { OnOk result (out.new.items ≡ out.old.items ++ first_messages net content readers.now) }
    ensures extends { Extends out.old.items out.new.items }
{
    if content == Logic::X {
        return Ok(());
    }
    let change = Change {
        time: 0,
        value: content,
    };
    send(readers, net, change, Sign::Plus, out)
}
