//! What is left of the messages in flight, where some have reached their blocks.

ghost use Rattle.std.specs.Prelude.{◌≡◌, ◌<◌, length};
ghost use Rattle.std.specs.List.{All};
ghost use Rattle.warp_core.specs.Inner.Turns.{left, place_in};

use warp_block::Message;

/// Keeps the messages that haven't reached their blocks.
pub(crate) fn keep_left(flight: &mut Vec<Message>, heard: &[usize])
    requires { All (λ m. m.block < length heard.now) flight.old.items }
    ensures { flight.new.items ≡ left (place_in heard.now) 0 flight.old.items }
{
    let mut kept = 0;
    for place in 0..flight.len() {
        let message = flight[place];
        if heard[message.block as usize] <= place {
            flight[kept] = message;
            kept += 1;
        }
    }
    flight.truncate(kept);
}
