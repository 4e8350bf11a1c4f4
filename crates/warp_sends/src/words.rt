//! The messages on words.
ghost use Rattle.std.specs.Prelude.{◌≡◌, ◌<◌, ◌++◌, OnOk, OnErr, length, map};
ghost use Rattle.std.specs.List.{All, flat_map};
ghost use Rattle.warp_process.specs.declared.message.Sign.TheVariants.{Plus, Minus};
ghost use Rattle.warp_process.specs.Inner.Step.{Extends};
ghost use Rattle.warp_sends.specs.Inner.Tellings.{word_of};
ghost use Rattle.warp_sends.specs.Told.{AreTold, told_of};

use crate::send::send;
use crate::telling::{Telling, sort_by_event, sort_by_place, tellings};
use gate_values::Change;
use std::alloc::{AllocError, Global};
use warp_part::Part;
use warp_process::{Message, Sign};
use warp_stores::{Batch, Word};

/// Puts behind `out` the messages on words to the readers of their nets: by the event time that made a word (its time less the
/// delay of its place), then by net, then by reader. An error is a refused growth; then nothing is told.
pub fn tell(
    alloc: Global,
    part: &Part,
    batch: &Batch<Word>,
    out: &mut Vec<Message>,
) -> Result<(), AllocError>
    requires { All (λ d. d.1.place < length part.now.nets) batch.now }
    ensures ok { OnOk result (AreTold Plus part.now batch.now out.old.items out.new.items) }
    ensures err { OnErr result (out.new.items ≡ out.old.items) }
{
    let mut told = tellings(alloc, part, batch)?;
    sort_by_event(&mut told);
    send_all(part, Sign::Plus, told.as_slice(), out)
}

/// Puts behind `out` the antimessages on words to the readers of their nets: by net, then by time, then by reader. An error is a
/// refused growth; then nothing is told.
pub fn take_back(
    alloc: Global,
    part: &Part,
    batch: &Batch<Word>,
    out: &mut Vec<Message>,
) -> Result<(), AllocError>
    requires { All (λ d. d.1.place < length part.now.nets) batch.now }
    ensures ok { OnOk result (AreTold Minus part.now batch.now out.old.items out.new.items) }
    ensures err { OnErr result (out.new.items ≡ out.old.items) }
{
    let mut told = tellings(alloc, part, batch)?;
    sort_by_place(&mut told);
    send_all(part, Sign::Minus, told.as_slice(), out)
}

/// Puts behind `out` the messages on words, in their order. An error is a refused growth; then nothing is told.
fn send_all(
    part: &Part,
    sign: Sign,
    told: &[Telling],
    out: &mut Vec<Message>,
) -> Result<(), AllocError>
    requires { All (λ t. t.word.place < length part.now.nets) told.now }
    ensures ok { OnOk result (out.new.items ≡ out.old.items ++ flat_map (told_of sign part.now) (map word_of told.now)) }
    ensures err { OnErr result (out.new.items ≡ out.old.items) }
{
    let sent = out.len();
    match send_each(part, sign, told, out) {
        Ok(()) => Ok(()),
        Err(error) => {
            out.truncate(sent);
            Err(error)
        }
    }
}

/// Puts behind `out` the messages on words, in their order. An error is a refused growth; then some may be there.
fn send_each(
    part: &Part,
    sign: Sign,
    told: &[Telling],
    out: &mut Vec<Message>,
) -> Result<(), AllocError>
    requires { All (λ t. t.word.place < length part.now.nets) told.now }
    ensures ok { OnOk result (out.new.items ≡ out.old.items ++ flat_map (told_of sign part.now) (map word_of told.now)) }
    ensures extends { Extends out.old.items out.new.items }
{
    for telling in told {
        send_word(part, sign, telling, out)?;
    }
    Ok(())
}

/// Puts behind `out` the messages on a word.
fn send_word(
    part: &Part,
    sign: Sign,
    telling: &Telling,
    out: &mut Vec<Message>,
) -> Result<(), AllocError>
    requires { telling.now.word.place < length part.now.nets }
    ensures ok { OnOk result (out.new.items ≡ out.old.items ++ told_of sign part.now (word_of telling.now)) }
    ensures extends { Extends out.old.items out.new.items }
{
    let slot = telling.word.place() as usize;
    let change = Change {
        time: telling.time,
        value: telling.word.after(),
    };
    send(part.readers(slot), part.net(slot), change, sign, out)
}
