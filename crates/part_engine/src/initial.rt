//! Whether something begins with a known value.
ghost use Rattle.std.specs.Prelude.{◌≡◌, ◌<◌, length};
ghost use Rattle.part_engine.specs.Runs.{begins_of};
ghost use Rattle.part_engine.specs.Inner.Firsts.{begins_at};

use gate_values::Logic;
use warp_part::Part;

/// Whether a net that a gate reads begins with a known value.
pub fn begins(part: &Part) -> bool
    ensures { result ≡ begins_of part.now }
{
    part.law();
    for slot in 0..part.len() {
        if begins_at(part, slot) {
            return true;
        }
    }
    false
}

/// Whether a gate reads the net at a place, and it begins with a known value.
fn begins_at(part: &Part, slot: usize) -> bool
    requires { slot < length part.now.nets }
    ensures { result ≡ begins_at part.now slot }
{
    part.is_used(slot) && part.initial(slot) != Logic::X
}
