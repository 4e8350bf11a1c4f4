ghost use Rattle.std.specs.Prelude.{◌<◌};

use super::given::{Given, Texts};
use Event::{Advance, Commit, Deliver};
use net_waves::Waves;
use std::alloc::Global;
use std::test::Fail;
use warp_core::{Event, PlayFault, World, drive};

/// Three blocks in a ring, and a flip-flop in a ring of two; nets P, C, A, B, Q, Z.
const RINGS: Texts = Texts {
    bench: "INPUT(P)\nINPUT(C)\nA = NAND(P, Z)\nB = XOR(A, Q)\nQ = DFF(B)\nZ = NOR(B, C)\n",
    settings: "[net]\nB = 2\n[clocks]\nQ = \"C\"\n[init]\nQ = \"0\"\n[block]\nA = 0\nQ = 0\nB = 1\nZ = 2\n",
    stimulus: "$var wire 1 p P $end $var wire 1 c C $end $enddefinitions $end #0 0p 0c #5 1p #7 1c #8 0c #12 1c #14 0c 0p #16 1p #19 1c #20 0c #23 1c",
};

const HORIZON: u64 = 25;

/// Numbers from a seed that is not 0, as Lehmer's generator gives them.
#[derive(Drop)]
pub(crate) struct Dice {
    state: u32,
}

impl Dice {
    pub(crate) fn new(seed: u32) -> Dice {
        Dice { state: seed }
    }

    pub(crate) fn roll(&mut self, sides: u32) -> u32
        requires { 0 < sides }
    {
        self.state = (self.state as u64 * 48_271 % 2_147_483_647) as u32;
        self.state / 16 % sides
    }

    fn event(&mut self) -> Event {
        match self.roll(6) {
            0 => Commit,
            1 | 2 => Advance {
                block: self.roll(4),
                steps: self.roll(4),
            },
            _ => Deliver {
                message: self.roll(8) as usize,
            },
        }
    }
}

/// Why an event is to be refused.
fn refusal(world: &World<'_>, event: Event) -> Option<PlayFault> {
    match event {
        Deliver { message } if message >= world.flight().len() => Some(PlayFault::NoSuchMessage),
        Advance { block, .. } if block >= 3 => Some(PlayFault::NoSuchBlock),
        _ => None,
    }
}

/// Plays a hundred drawn events; the answer is how many were refused.
fn play_drawn(world: &mut World<'_>, dice: &mut Dice) -> Result<u32, Fail> {
    let mut refused = 0_u32;
    for _ in 0..100 {
        let event = dice.event();
        let least = world.least();
        match refusal(world, event) {
            None => world.play(event)?,
            Some(fault) => {
                refused = refused.saturating_add(1);
                if world.play(event) != Err(fault) {
                    return Err(Fail::from("another refusal"));
                }
            }
        }
        if world.least() < least {
            return Err(Fail::from("an earlier least time"));
        }
    }
    Ok(refused)
}

/// The waves of a world, after rounds until nothing is left.
fn finished(mut world: World<'_>, order: &[u32]) -> Result<Waves, Fail> {
    for _ in 0..HORIZON + 1 {
        if world.least() > HORIZON {
            break;
        }
        world.round(order)?;
    }
    Ok(world.finish()?)
}

/// How many changes waves have.
fn count(waves: &Waves) -> usize {
    let mut count = 0_usize;
    for net in 0..waves.nets() {
        count = count.saturating_add(waves.changes(net).len());
    }
    count
}

fn are_equal(first: &Waves, second: &Waves) -> bool {
    if first.nets() != second.nets() {
        return false;
    }
    for net in 0..first.nets() {
        if first.changes(net) != second.changes(net) {
            return false;
        }
    }
    true
}

/// Plays drawn events on a new world, and then rounds: how many events were refused, and the waves.
fn play_world(
    alloc: Global,
    given: &Given,
    order: &[u32],
    dice: &mut Dice,
) -> Result<(u32, Waves), Fail> {
    let mut world = given.world(alloc, HORIZON)?;
    let refused = play_drawn(&mut world, dice)?;
    Ok((refused, finished(world, order)?))
}

/// How many events of a hundred worlds were refused, where the waves of all are these.
fn play_worlds(alloc: Global, given: &Given, want: &Waves) -> Result<u32, Fail> {
    let mut dice = Dice::new(1);
    let mut refused = 0_u32;
    for order in [[0, 1, 2], [2, 1, 0], [1, 0, 2], [2, 0, 1]] {
        for _ in 0..25 {
            let (count, waves) = play_world(alloc, given, &order, &mut dice)?;
            refused = refused.saturating_add(count);
            if !are_equal(&waves, want) {
                return Err(Fail::from("other waves"));
            }
        }
    }
    Ok(refused)
}

/// The waves that `drive` finds.
fn driven(alloc: Global, given: &Given) -> Result<Waves, Fail> {
    let cut = given.cut()?;
    let order = [0, 1, 2];
    let (waves, _) = drive(alloc, &given.circuit, cut, &given.stimulus, HORIZON, &order)?;
    Ok(waves)
}

/// How many changes those waves have, and how many events of a hundred worlds that come to them were refused.
fn outcome_of(alloc: Global, given: &Given) -> Result<(usize, u32), Fail> {
    let waves = driven(alloc, given)?;
    let refused = play_worlds(alloc, given, &waves)?;
    Ok((count(&waves), refused))
}

fn outcome(alloc: Global) -> Result<(usize, u32), Fail> {
    let given = Given::of(alloc, RINGS)?;
    let outcome = outcome_of(alloc, &given);
    drop(given);
    outcome
}

#[test]
fn drawn_events_and_then_rounds_lead_to_the_waves_that_drive_finds(
    rt: HostRuntime,
) -> Result<(), Fail> {
    let (count, refused) = outcome(rt.alloc())?;
    assert_eq!(rt; count, 39);
    assert!(rt; refused > 1000 && refused < 9000, "{refused} of 10000");
    Ok(())
}
