ghost use Rattle.std.specs.Prelude.{◌≡◌, ◌≤◌, ◌<◌, ◌+◌, ℕ, Some, None, IfOk, IfErr, IfNone, IfSome, OnOk, OnErr, length, get_or};
ghost use Rattle.gate_netlist.specs.Circuit.{CutFits};
ghost use Rattle.gate_stimulus.specs.Given.{Fits};
ghost use Rattle.warp_process.specs.Limits.{most_horizon};
ghost use Rattle.warp_core.specs.Matched.{no_process, EachBlock};
ghost use Rattle.warp_core.specs.Gather.{IsGathered};
ghost use Rattle.warp_core.specs.World.{Scene, IsBefore, IsLeastTime, IsLawfulWorld, IsNewWorld};
ghost use Rattle.warp_core.specs.Play.{IsSameCourse, IsPlayed, IsRefused, IsAfterRefusal};
ghost use Rattle.warp_core.specs.Drive.{IsOrder};
ghost use Rattle.warp_core.specs.Inner.Turns.{AreTurned, AreTurnsBegun};
ghost use Rattle.warp_core.specs.declared.event.Event.TheVariants as event;
ghost use Rattle.warp_core.specs.declared.event.PlayFault.TheVariants as play;
ghost use Rattle.warp_core.specs.declared.fault.GatherFault.TheVariants as fault;

pub(crate) mod acts;
mod opening;

use crate::event::{Event, PlayFault};
use crate::fault::GatherFault;
use crate::flight::{Soonest, least_of, soonest_from, soonest_of, soonest_without};
use crate::gathering::gather;
use crate::turns::{Course, play_turns};
use gate_netlist::{Circuit, Cut};
use gate_stimulus::Stimulus;
use net_waves::Waves;
use std::alloc::{AllocError, Global};
use std::marker::Model;
use warp_block::{Block, Message};

/// All blocks of a cut, and the messages in flight between them, without threads: any order of [`Event`]s can be played.
///
/// At every moment, whatever was played, what a block holds of another block's net is what the owner has logged, less
/// what is still in flight. Times are in the stimulus's timescale.
#[derive(Drop)]
pub struct World<'a> {
    circuit: &'a Circuit,
    cut: &'a Cut,
    stimulus: &'a Stimulus,
    horizon: u64,
    blocks: Vec<Block>,
    flight: Vec<Message>,
    next: Vec<u64>,
    soonest: Soonest,
}

impl<'a> Model for World<'a> {
    ghost use Rattle.warp_core.specs.World.{Scene};

    ghost Value = { Scene };

    ghost use Rattle.warp_core.specs.Shown.{scene_of};
    ghost use Rattle.warp_core.specs.Inner.HeldWorld.{IsHeldWorld};

    ghost view = { scene_of };

    ghost invariant = { IsHeldWorld };
}

impl<'a> World<'a> {
    /// New blocks, and in flight what they sent: the known initial contents, by block, then by net, then by reader. The
    /// cut and the stimulus fit the circuit; the horizon is at most [`MOST_HORIZON`](warp_block::MOST_HORIZON). An error
    /// is a refused growth.
    pub fn new(
        alloc: Global,
        circuit: &'a Circuit,
        cut: &'a Cut,
        stimulus: &'a Stimulus,
        horizon: u64,
    ) -> Result<World<'a>, AllocError>
        requires cut { CutFits circuit.now cut.now }
        requires stimulus { Fits stimulus.now circuit.now }
        requires horizon { horizon ≤ most_horizon }
        ensures circuit { IfOk result (λ world. world.circuit ≡ circuit.now) }
        ensures cut { IfOk result (λ world. world.cut ≡ cut.now) }
        ensures stimulus { IfOk result (λ world. world.stimulus ≡ stimulus.now) }
        ensures horizon { IfOk result (λ world. world.horizon ≡ horizon) }
        ensures opening { IfOk result IsNewWorld }
    {
        let mut blocks = Vec::new(alloc);
        let mut flight = Vec::new(alloc);
        opening::open(
            alloc,
            circuit,
            cut,
            stimulus,
            horizon,
            &mut blocks,
            &mut flight,
        )?;
        let end = horizon + 1;
        let next = opening::next_times(alloc, blocks.as_slice(), end)?;
        let soonest = soonest_of(flight.as_slice(), end);
        Ok(World {
            circuit,
            cut,
            stimulus,
            horizon,
            blocks,
            flight,
            next,
            soonest,
        })
    }

    /// What is true of every world.
    pub fn law(&self)
        ensures { IsLawfulWorld self.now }
    {
        let _ = &self.flight;
    }

    /// Plays an event. A delivered message leaves the list, later ones move up, and what a block sends stands at the
    /// end. No block refuses what it is told: an event is refused where it names no block, or no place in the list, and
    /// where a growth is refused. Then all is as it was, except that a block stands by the event times that it finished.
    pub fn play(&mut self, event: Event) -> Result<(), PlayFault>
        ensures played { OnOk result (IsPlayed self.old self.new event) }
        ensures refused { IfErr result (IsRefused self.old event) }
        ensures after { IfErr result (IsAfterRefusal self.old self.new event) }
        ensures never_falls { (s t : ℕ) → IsLeastTime self.old s → IsLeastTime self.new t → s ≤ t }
    {
        match event {
            Event::Deliver { message } => self.deliver(message),
            Event::Advance { block, steps } => self.advance(block, steps),
            Event::Commit => {
                self.commit();
                Ok(())
            }
        }
    }

    /// The least of all next times and all times in flight, which never falls; one past the horizon where there is
    /// none.
    pub fn least(&self) -> u64
        ensures { IsLeastTime self.now result }
    {
        least_of(self.next.as_slice(), self.soonest.time)
    }

    /// The messages in flight, in order.
    pub fn flight(&self) -> &[Message]
        ensures { result.now ≡ self.now.flight }
    {
        self.flight.as_slice()
    }

    /// The block of a number.
    pub fn block(&self, number: u32) -> Option<&Block>
        ensures none { IfNone result (length self.now.blocks ≤ number) }
        ensures some { IfSome result (λ block. (number < length self.now.blocks) × (block.now ≡ get_or self.now.blocks number no_process)) }
    {
        self.blocks.get(number as usize)
    }

    /// The number of blocks.
    pub(crate) fn count(&self) -> u32
        ensures count { result ≡ self.now.cut.blocks }
        ensures within { result ≤ 1024 }
    {
        self.cut.blocks()
    }

    /// What [`gather`] answers of the blocks: where the least time is past the horizon the circuit's waves, or that a
    /// growth was refused.
    pub fn finish(self) -> Result<Waves, GatherFault>
        ensures gathered { IsGathered self.entry.circuit self.entry.cut self.entry.stimulus self.entry.horizon self.entry.blocks result }
        ensures complete { IsLeastTime self.entry (self.entry.horizon + 1) → IfErr result (λ cause. cause ≡ fault.Memory) }
    {
        self.law();
        let World {
            circuit,
            cut,
            stimulus,
            horizon,
            blocks,
            flight,
            next,
            soonest,
        } = self;
        cut.law();
        stimulus.law();
        let _ = (next, soonest);
        gather(*flight.allocator(), circuit, cut, stimulus, horizon, blocks)
    }

    /// The message at a place reaches its block.
    pub(crate) fn deliver(&mut self, place: usize) -> Result<(), PlayFault>
        ensures played { OnOk result (IsPlayed self.old self.new (event.Deliver place)) }
        ensures refused { IfErr result (IsRefused self.old (event.Deliver place)) }
        ensures err { OnErr result (self.new ≡ self.old) }
        ensures never_earlier { (s : ℕ) → IsBefore self.old s → IsBefore self.new s }
    {
        if place >= self.flight.len() {
            return Err(PlayFault::NoSuchMessage);
        }
        let message = self.flight[place];
        let left = self.flight.len() - 1;
        match acts::hand_over(&mut self.blocks, &mut self.flight, place, message) {
            Ok(()) => {}
            Err(_) => return Err(PlayFault::Memory),
        }
        let number = message.block as usize;
        let end = self.horizon + 1;
        let soonest = soonest_without(self.soonest, message.time, &self.flight[..left], end);
        self.soonest = soonest_from(soonest, self.flight.as_slice(), left, end);
        self.next[number] = acts::next_of(&self.blocks[number], end);
        Ok(())
    }

    /// A block finishes up to so many event times.
    pub(crate) fn advance(&mut self, number: u32, steps: u32) -> Result<(), PlayFault>
        ensures played { OnOk result (IsPlayed self.old self.new (event.Advance number steps)) }
        ensures refused { IfErr result (IsRefused self.old (event.Advance number steps)) }
        ensures after { IfErr result (IsAfterRefusal self.old self.new (event.Advance number steps)) }
        ensures never_earlier { (s : ℕ) → IsBefore self.old s → IsBefore self.new s }
    {
        if number >= self.cut.blocks() {
            return Err(PlayFault::NoSuchBlock);
        }
        let before = self.flight.len();
        let end = self.horizon + 1;
        let answer = acts::run(&mut self.blocks, &mut self.flight, number, steps);
        self.soonest = soonest_from(self.soonest, self.flight.as_slice(), before, end);
        self.next[number as usize] = acts::next_of(&self.blocks[number as usize], end);
        match answer {
            Ok(_) => Ok(()),
            Err(_) => Err(PlayFault::Memory),
        }
    }

    /// All blocks commit what is below the least time.
    pub(crate) fn commit(&mut self)
        ensures played { IsPlayed self.old self.new event.Commit }
        ensures never_earlier { (s : ℕ) → IsBefore self.old s → IsBefore self.new s }
    {
        let least = self.least();
        self.cut.law();
        acts::commit_all(&mut self.blocks, least);
    }

    /// All blocks have their turns, in an order that is a permutation of them. The one error is want of memory.
    pub(crate) fn take_turns(&mut self, order: &[u32]) -> Result<(), PlayFault>
        requires { IsOrder self.old.cut.blocks order.now }
        ensures course { IsSameCourse self.old self.new }
        ensures turned { OnOk result (AreTurned order.now (length order.now) self.old self.new) }
        ensures begun { OnErr result (AreTurnsBegun order.now self.old self.new) }
        ensures never_earlier { (s : ℕ) → IsBefore self.old s → IsBefore self.new s }
    {
        let course = Course {
            circuit: self.circuit,
            cut: self.cut,
            stimulus: self.stimulus,
            horizon: self.horizon,
        };
        let end = self.horizon + 1;
        let alloc = *self.flight.allocator();
        let answer = play_turns(alloc, &course, &mut self.blocks, &mut self.flight, order);
        self.soonest = soonest_of(self.flight.as_slice(), end);
        acts::note_next_times(&mut self.next, self.blocks.as_slice(), end);
        answer
    }
}
