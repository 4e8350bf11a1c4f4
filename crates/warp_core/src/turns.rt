//! The turns of the blocks in a round. Messages that have reached their blocks stay in the list until all turns are over,
//! so that the time of a round grows with what flies, and not with its square.

ghost use Rattle.std.specs.Prelude.{◌≡◌, ◌≢◌, ◌<◌, ◌≤◌, ◌++◌, ◌∷◌, ◌+◌, ℕ, List, [], IfOk, OnOk, OnErr, IfErr, replicate, length, get_or, set};
ghost use Rattle.std.specs.List.{All};
ghost use Rattle.warp_process.specs.declared.message.Message.{Message as Sent};
ghost use Rattle.warp_core.specs.World.{Scene, IsBefore, IsLawfulWorld};
ghost use Rattle.warp_core.specs.Play.{IsPlayed, IsRefused, IsAfterRefusal};
ghost use Rattle.warp_core.specs.Drive.{IsOrder, IsReached, IsTurn, IsTurnBegun};
ghost use Rattle.warp_core.specs.Inner.Drive.{IsPast};
ghost use Rattle.warp_core.specs.Inner.Turns.{place_in, places_for, scene_in, scene_left, AreSentLater, IsOpen, IsHearing, AreTurned, AreTurnsBegun};
ghost use Rattle.warp_core.specs.Inner.Waiting.{IsListed};
ghost use Rattle.warp_core.specs.declared.event.Event.TheVariants as event;

mod left;
mod waiting;

use crate::event::PlayFault;
use crate::world::acts;
use gate_netlist::{Circuit, Cut};
use gate_stimulus::Stimulus;
use left::keep_left;
use std::alloc::{AllocError, Global};
use waiting::Waiting;
use warp_block::{Block, Message};

/// What a world is of.
#[derive(Clone, Copy)]
pub(crate) struct Course<'a> {
    pub(crate) circuit: &'a Circuit,
    pub(crate) cut: &'a Cut,
    pub(crate) stimulus: &'a Stimulus,
    pub(crate) horizon: u64,
}

/// The message at a place, the first for a block that hasn't reached it, reaches it.
fn hear(
    course: &Course,
    blocks: &mut Vec<Block>,
    flight: &mut Vec<Message>,
    heard: &mut Vec<usize>,
    number: u32,
    place: usize,
) -> Result<(), PlayFault>
    requires stands { IsOpen course.now blocks.old.items flight.old.items heard.old.items }
    requires within { number < course.now.cut.now.blocks }
    requires first { (rest : List ℕ) × (places_for number (place_in heard.old.items number) 0 flight.old.items ≡ place ∷ rest) }
    ensures stands { OnOk result (IsOpen course.now blocks.new.items flight.new.items heard.new.items) }
    ensures reached { OnOk result (IsReached number (scene_left course.now blocks.old.items flight.old.items heard.old.items) (scene_left course.now blocks.new.items flight.new.items heard.new.items)) }
    ensures never_earlier { OnOk result ((s : ℕ) → IsBefore (scene_left course.now blocks.old.items flight.old.items heard.old.items) s → IsBefore (scene_left course.now blocks.new.items flight.new.items heard.new.items) s) }
    ensures sent { OnOk result (AreSentLater (scene_left course.now blocks.old.items flight.old.items heard.old.items) flight.old.items flight.new.items) }
    ensures heard { OnOk result (heard.new.items ≡ set heard.old.items number (place + 1)) }
    ensures blocks { OnErr result (blocks.new.items ≡ blocks.old.items) }
    ensures unsent { OnErr result (flight.new.items ≡ flight.old.items) }
    ensures unheard { OnErr result (heard.new.items ≡ heard.old.items) }
{
    let message = flight[place];
    match acts::receive_one(blocks, flight, message) {
        Ok(()) => {}
        Err(_) => return Err(PlayFault::Memory),
    }
    heard[number as usize] = place + 1;
    Ok(())
}

/// The messages for a block that haven't reached it, which stand at these places, reach it.
fn hear_all(
    course: &Course,
    blocks: &mut Vec<Block>,
    flight: &mut Vec<Message>,
    heard: &mut Vec<usize>,
    number: u32,
    places: &[usize],
) -> Result<(), PlayFault>
    requires stands { IsOpen course.now blocks.old.items flight.old.items heard.old.items }
    requires within { number < course.now.cut.now.blocks }
    requires places { places.now ≡ places_for number (place_in heard.old.items number) 0 flight.old.items }
    ensures heard { OnOk result (IsHearing course.now blocks.old.items flight.old.items heard.old.items number places.now (length places.now) blocks.new.items flight.new.items heard.new.items) }
    ensures begun { OnErr result ((count : ℕ) × (count < length places.now) × IsHearing course.now blocks.old.items flight.old.items heard.old.items number places.now count blocks.new.items flight.new.items heard.new.items) }
{
    for place in places {
        hear(course, blocks, flight, heard, number, *place)?;
    }
    Ok(())
}

/// A block finishes an event time.
fn advance(
    course: &Course,
    blocks: &mut Vec<Block>,
    flight: &mut Vec<Message>,
    heard: &[usize],
    number: u32,
) -> Result<(), PlayFault>
    requires stands { IsOpen course.now blocks.old.items flight.old.items heard.now }
    requires within { number < course.now.cut.now.blocks }
    ensures stands { IsOpen course.now blocks.new.items flight.new.items heard.now }
    ensures played { OnOk result (IsPlayed (scene_left course.now blocks.old.items flight.old.items heard.now) (scene_left course.now blocks.new.items flight.new.items heard.now) (event.Advance number 1)) }
    ensures refused { IfErr result (IsRefused (scene_left course.now blocks.old.items flight.old.items heard.now) (event.Advance number 1)) }
    ensures after { IfErr result (IsAfterRefusal (scene_left course.now blocks.old.items flight.old.items heard.now) (scene_left course.now blocks.new.items flight.new.items heard.now) (event.Advance number 1)) }
    ensures never_earlier { (s : ℕ) → IsBefore (scene_left course.now blocks.old.items flight.old.items heard.now) s → IsBefore (scene_left course.now blocks.new.items flight.new.items heard.now) s }
    ensures appended { (sent : List Sent) × (flight.new.items ≡ flight.old.items ++ sent) }
{
    match acts::run(blocks, flight, number, 1) {
        Ok(_) => Ok(()),
        Err(_) => Err(PlayFault::Memory),
    }
}

/// A turn of a block: each message in flight for it, at one of these places, reaches it, and it finishes an event time.
fn take_turn(
    course: &Course,
    blocks: &mut Vec<Block>,
    flight: &mut Vec<Message>,
    heard: &mut Vec<usize>,
    number: u32,
    places: &[usize],
) -> Result<(), PlayFault>
    requires stands { IsOpen course.now blocks.old.items flight.old.items heard.old.items }
    requires within { number < course.now.cut.now.blocks }
    requires places { places.now ≡ places_for number (place_in heard.old.items number) 0 flight.old.items }
    ensures stands { IsOpen course.now blocks.new.items flight.new.items heard.new.items }
    ensures played { OnOk result (IsTurn number (scene_left course.now blocks.old.items flight.old.items heard.old.items) (scene_left course.now blocks.new.items flight.new.items heard.new.items)) }
    ensures begun { OnErr result (IsTurnBegun number (scene_left course.now blocks.old.items flight.old.items heard.old.items) (scene_left course.now blocks.new.items flight.new.items heard.new.items)) }
    ensures never_earlier { (s : ℕ) → IsBefore (scene_left course.now blocks.old.items flight.old.items heard.old.items) s → IsBefore (scene_left course.now blocks.new.items flight.new.items heard.new.items) s }
    ensures past { OnOk result ((t : ℕ) → IsBefore (scene_left course.now blocks.old.items flight.old.items heard.old.items) t → IsPast (scene_left course.now blocks.new.items flight.new.items heard.new.items) number t) }
    ensures kept { (t b : ℕ) → b < course.now.cut.now.blocks → IsBefore (scene_left course.now blocks.old.items flight.old.items heard.old.items) t → IsPast (scene_left course.now blocks.old.items flight.old.items heard.old.items) b t
        → IsPast (scene_left course.now blocks.new.items flight.new.items heard.new.items) b t }
    ensures appended { (sent : List Sent) × (flight.new.items ≡ flight.old.items ++ sent) }
    ensures others { (b : ℕ) → b ≢ number → place_in heard.new.items b ≡ place_in heard.old.items b }
    ensures low { OnOk result ((b : ℕ) → place_in heard.new.items b ≤ length flight.old.items) }
    ensures none { OnOk result (places_for number (place_in heard.new.items number) 0 flight.old.items ≡ []) }
{
    hear_all(course, blocks, flight, heard, number, places)?;
    advance(course, blocks, flight, heard.as_slice(), number)
}

/// The turns of blocks in an order.
fn take_turns(
    course: &Course,
    blocks: &mut Vec<Block>,
    flight: &mut Vec<Message>,
    heard: &mut Vec<usize>,
    waiting: &mut Waiting,
    order: &[u32],
) -> Result<(), PlayFault>
    requires stands { IsOpen course.now blocks.old.items flight.old.items heard.old.items }
    requires order { All (λ b. b < course.now.cut.now.blocks) order.now }
    requires listed { IsListed course.now.cut.now.blocks waiting.old (place_in heard.old.items) [] }
    requires unheard { (b : ℕ) → place_in heard.old.items b ≡ 0 }
    ensures stands { IsOpen course.now blocks.new.items flight.new.items heard.new.items }
    ensures played { OnOk result (AreTurned order.now (length order.now) (scene_left course.now blocks.old.items flight.old.items heard.old.items) (scene_left course.now blocks.new.items flight.new.items heard.new.items)) }
    ensures begun { OnErr result (AreTurnsBegun order.now (scene_left course.now blocks.old.items flight.old.items heard.old.items) (scene_left course.now blocks.new.items flight.new.items heard.new.items)) }
    ensures never_earlier { (s : ℕ) → IsBefore (scene_left course.now blocks.old.items flight.old.items heard.old.items) s → IsBefore (scene_left course.now blocks.new.items flight.new.items heard.new.items) s }
{
    for number in order {
        match waiting.list(flight.as_slice(), heard.as_slice()) {
            Ok(()) => {}
            Err(_) => return Err(PlayFault::Memory),
        }
        take_turn(
            course,
            blocks,
            flight,
            heard,
            *number,
            waiting.places(*number),
        )?;
        waiting.forget(*number);
    }
    Ok(())
}

/// The turns of blocks in an order, and then what has reached its block is no more in the list. After want of memory
/// a beginning of these turns is played.
pub(crate) fn play_turns(
    alloc: Global,
    course: &Course,
    blocks: &mut Vec<Block>,
    flight: &mut Vec<Message>,
    order: &[u32],
) -> Result<(), PlayFault>
    requires law { IsLawfulWorld (scene_in course.now blocks.old.items flight.old.items) }
    requires order { IsOrder course.now.cut.now.blocks order.now }
    ensures law { IsLawfulWorld (scene_in course.now blocks.new.items flight.new.items) }
    ensures played { OnOk result (AreTurned order.now (length order.now) (scene_in course.now blocks.old.items flight.old.items) (scene_in course.now blocks.new.items flight.new.items)) }
    ensures begun { OnErr result (AreTurnsBegun order.now (scene_in course.now blocks.old.items flight.old.items) (scene_in course.now blocks.new.items flight.new.items)) }
    ensures never_earlier { (s : ℕ) → IsBefore (scene_in course.now blocks.old.items flight.old.items) s → IsBefore (scene_in course.now blocks.new.items flight.new.items) s }
{
    let count = course.cut.blocks();
    let (mut heard, mut waiting) = match lists_for(alloc, count) {
        Ok(lists) => lists,
        Err(_) => return Err(PlayFault::Memory),
    };
    let answer = take_turns(course, blocks, flight, &mut heard, &mut waiting, order);
    keep_left(flight, heard.as_slice());
    answer
}

/// For so many blocks: nothing is heard, and nothing is listed.
fn lists_for(alloc: Global, count: u32) -> Result<(Vec<usize>, Waiting), AllocError>
    ensures heard { IfOk result (λ lists. lists.0.items ≡ replicate count 0) }
    ensures waiting { IfOk result (λ lists. (heard : ℕ → ℕ) → IsListed count lists.1 heard []) }
{
    let mut heard = Vec::new(alloc);
    heard.resize(count as usize, 0)?;
    let waiting = Waiting::new(alloc, count)?;
    Ok((heard, waiting))
}
