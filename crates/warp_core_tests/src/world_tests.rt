use super::given::{Given, PAIR, other_net};
use Event::{Advance, Commit, Deliver};
use net_waves::Waves;
use std::alloc::Global;
use std::test::Fail;
use warp_core::{Event, GatherFault, PlayFault, World};

/// Block 1 sees B alone, then A from its past, and rolls back.
const EVENTS: [Event; 8] = [
    Advance { block: 0, steps: 1 },
    Deliver { message: 1 },
    Advance { block: 1, steps: 1 },
    Deliver { message: 0 },
    Advance { block: 1, steps: 1 },
    Commit,
    Deliver { message: 0 },
    Advance { block: 2, steps: 1 },
];

fn play_all(world: &mut World<'_>, events: &[Event]) -> Result<(), Fail> {
    for event in events {
        world.play(*event)?;
    }
    Ok(())
}

type Outcome = (u64, Result<Waves, GatherFault>);

fn outcome_of(alloc: Global, given: &Given, events: &[Event]) -> Result<Outcome, Fail> {
    let mut world = given.world(alloc, 10)?;
    play_all(&mut world, events)?;
    Ok((world.least(), world.finish()))
}

/// The least time after some events, and what is gathered then.
fn outcome(alloc: Global, events: &[Event]) -> Result<Outcome, Fail> {
    let given = Given::of(alloc, PAIR)?;
    let outcome = outcome_of(alloc, &given, events);
    drop(given);
    outcome
}

fn refusal_of(alloc: Global, given: &Given, event: Event) -> Result<Option<PlayFault>, Fail> {
    let mut world = given.world(alloc, 10)?;
    let fault = world.play(event).err();
    drop(world);
    Ok(fault)
}

/// Why a new world refuses an event.
fn refusal(alloc: Global, event: Event) -> Result<Option<PlayFault>, Fail> {
    let given = Given::of(alloc, PAIR)?;
    let refusal = refusal_of(alloc, &given, event);
    drop(given);
    refusal
}

#[test]
fn events_lead_to_the_circuits_waves(rt: HostRuntime) -> Result<(), Fail> {
    let (least, waves) = outcome(rt.alloc(), EVENTS.as_slice())?;
    assert_eq!(rt; least, 11);
    let waves = waves?;
    assert_eq!(rt; waves.nets(), 6);
    assert_eq!(rt; other_net(&waves), None);
    Ok(())
}

#[test]
fn without_the_last_event_block_two_is_unfinished(rt: HostRuntime) -> Result<(), Fail> {
    let (least, waves) = outcome(rt.alloc(), &EVENTS[..7])?;
    assert_eq!(rt; least, 2);
    assert_eq!(rt; waves.err(), Some(GatherFault::Unfinished { block: 2 }));
    Ok(())
}

#[test]
fn events_that_are_refused(rt: HostRuntime) -> Result<(), Fail> {
    let rows = [
        (Deliver { message: 0 }, Some(PlayFault::NoSuchMessage)),
        (Advance { block: 3, steps: 1 }, Some(PlayFault::NoSuchBlock)),
        (Advance { block: 2, steps: 0 }, None),
        (Commit, None),
    ];
    for (event, want) in rows {
        assert_eq!(rt; refusal(rt.alloc(), event)?, want);
    }
    Ok(())
}
