ghost use Rattle.std.specs.Prelude.{◌≡◌, Some, ◌≤◌, ◌+◌, ℕ, IfOk, IfErr, OnOk, OnErr};
ghost use Rattle.gate_netlist.specs.Circuit.{CutFits};
ghost use Rattle.gate_stimulus.specs.Given.{Fits};
ghost use Rattle.warp_process.specs.Limits.{most_horizon};
ghost use Rattle.warp_core.specs.Values.{AreCircuitWaves};
ghost use Rattle.warp_core.specs.World.{IsLeastTime};
ghost use Rattle.warp_core.specs.Play.{IsSameCourse};
ghost use Rattle.warp_core.specs.Drive.{IsOrder, IsRaised, IsRound, IsRoundBegun, IsAfterRound, IsDriven, IsDriveRefusal, drive_fault_number, drive_fault_name};
ghost use Rattle.warp_core.specs.declared.driver.DriveFault.TheVariants as fault;

use crate::event::PlayFault;
use crate::order::is_order;
use crate::world::World;
use gate_netlist::{Circuit, Cut};
use gate_stimulus::Stimulus;
use net_waves::Waves;
use std::alloc::{AllocError, Global};
use std::error::Error;
use std::fmt;

/// Why a world isn't driven. Each cause has a number, which stays.
#[derive(Clone, Copy, Debug, PartialEq, Eq)]
pub enum DriveFault {
    /// A growth was refused.
    Memory = 1,
    /// The order is no permutation of the blocks.
    BadOrder = 2,
}

impl DriveFault {
    /// The number of the cause.
    pub fn number(self) -> u32
        ensures { result ≡ drive_fault_number self }
    {
        self as u32
    }

    /// The name of the cause.
    pub fn name(self) -> &'static str
        ensures { result.now ≡ drive_fault_name self }
    {
        match self {
            DriveFault::Memory => "Memory",
            DriveFault::BadOrder => "BadOrder",
        }
    }
}

impl fmt::Display for DriveFault {
    ghost output = { λ cause. Some (drive_fault_name cause) };

    fn fmt<W: fmt::Write>(&self, f: &mut fmt::Formatter<W>) -> fmt::Result {
        f.write_str(self.name())
    }
}

impl Error for DriveFault {}

impl From<AllocError> for DriveFault {
    ghost from_gives = { λ _ cause. cause ≡ fault.Memory };

    fn from(_: AllocError) -> DriveFault {
        DriveFault::Memory
    }
}

impl<'a> World<'a> {
    /// All blocks commit; then, block by block in the order, each message in flight for the block reaches it, and it
    /// finishes one event time. Afterwards the least time is higher, or is still past the horizon.
    ///
    /// An order that is no permutation of the blocks is refused, without memory, and nothing has changed then. After
    /// want of memory a beginning of these events is played. The least time never falls.
    pub fn round(&mut self, order: &[u32]) -> Result<(), DriveFault>
        ensures course { IsSameCourse self.old self.new }
        ensures ordered { OnOk result (IsOrder self.old.cut.blocks order.now) }
        ensures played { OnOk result (IsRound order.now self.old self.new) }
        ensures raised { OnOk result (IsRaised self.old self.new) }
        ensures never_falls { (s t : ℕ) → IsLeastTime self.old s → IsLeastTime self.new t → s ≤ t }
        ensures refused { IfErr result (IsDriveRefusal self.old.cut.blocks order.now) }
        ensures after { IfErr result (IsAfterRound order.now self.old self.new) }
    {
        if !is_order(order, self.count()) {
            return Err(DriveFault::BadOrder);
        }
        match self.play_round(order) {
            Ok(()) => Ok(()),
            Err(_) => Err(DriveFault::Memory),
        }
    }

    /// A round, in an order that is a permutation of the blocks. The one error is want of memory.
    fn play_round(&mut self, order: &[u32]) -> Result<(), PlayFault>
        requires { IsOrder self.old.cut.blocks order.now }
        ensures course { IsSameCourse self.old self.new }
        ensures played { OnOk result (IsRound order.now self.old self.new) }
        ensures raised { OnOk result (IsRaised self.old self.new) }
        ensures never_falls { (s t : ℕ) → IsLeastTime self.old s → IsLeastTime self.new t → s ≤ t }
        ensures begun { OnErr result (IsRoundBegun order.now self.old self.new) }
    {
        self.commit();
        self.law();
        let answer = self.take_turns(order);
        self.law();
        answer
    }
}

/// The circuit's waves, by rounds in this order of the blocks, and how many rounds were played: at most one more than
/// the horizon. The cut and the stimulus fit the circuit; the horizon is at most
/// [`MOST_HORIZON`](warp_block::MOST_HORIZON).
///
/// An order that is no permutation of the blocks is refused first, without memory; else only want of memory is.
pub fn drive(
    alloc: Global,
    circuit: &Circuit,
    cut: &Cut,
    stimulus: &Stimulus,
    horizon: u64,
    order: &[u32],
) -> Result<(Waves, u64), DriveFault>
    requires cut { CutFits circuit.now cut.now }
    requires stimulus { Fits stimulus.now circuit.now }
    requires horizon { horizon ≤ most_horizon }
    ensures ordered { OnOk result (IsOrder cut.now.blocks order.now) }
    ensures waves { IfOk result (λ driven. AreCircuitWaves circuit.now stimulus.now horizon driven.0) }
    ensures rounds { IfOk result (λ driven. IsDriven circuit.now cut.now stimulus.now horizon order.now driven.1) }
    ensures few { IfOk result (λ driven. driven.1 ≤ horizon + 1) }
    ensures refused { IfErr result (IsDriveRefusal cut.now.blocks order.now) }
{
    if !is_order(order, cut.blocks()) {
        return Err(DriveFault::BadOrder);
    }
    let mut world = World::new(alloc, circuit, cut, stimulus, horizon)?;
    world.law();
    let mut rounds = 0;
    let mut least = world.least();
    while least <= horizon {
        match world.play_round(order) {
            Ok(()) => {}
            Err(_) => return Err(DriveFault::Memory),
        }
        rounds += 1;
        least = world.least();
    }
    match world.finish() {
        Ok(waves) => Ok((waves, rounds)),
        Err(_) => Err(DriveFault::Memory),
    }
}
