//! How a block's logs are given away.
ghost use Rattle.std.specs.Prelude.{◌≡◌, ◌<◌, length, vec_len};
ghost use Rattle.std.specs.List.{All};
ghost use Rattle.net_waves.specs.Waves.{lists_in};
ghost use Rattle.warp_block.specs.Inner.Give.{AreGiven};

use gate_values::Change;
use std::mem::swap;
use warp_part::Part;

/// Puts the log of each own net in the place of the net's list.
pub(crate) fn give(part: &Part, mut logs: Vec<Vec<Change>>, lists: &mut Vec<Vec<Change>>)
    requires places { All (λ net. net < vec_len lists.old) part.now.nets }
    requires logs { vec_len logs ≡ length part.now.nets }
    ensures len { vec_len lists.new ≡ vec_len lists.old }
    ensures given { AreGiven part.now (lists_in logs.items) (length part.now.nets) (lists_in lists.old.items) (lists_in lists.new.items) }
{
    part.law();
    for slot in 0..part.len() {
        if !part.is_own(slot) {
            continue;
        }
        let net = part.net(slot) as usize;
        swap(&mut logs[slot], &mut lists[net]);
    }
}
