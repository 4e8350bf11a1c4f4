ghost use Rattle.std.specs.Prelude.{◌≤◌};

use super::given::{Given, PAIR, Texts};
use std::alloc::Global;
use std::test::Fail;
use warp_core::{DriveFault, drive};

/// An inverter.
const INVERTER: Texts = Texts {
    bench: "INPUT(A)\nY = NOT(A)\n",
    settings: "[block]\n",
    stimulus: "$var wire 1 ! A $end $enddefinitions $end #0 0! #5 1!",
};

/// A ring, of a NAND with delay 2.
const RING: Texts = Texts {
    bench: "INPUT(EN)\nY = NAND(EN, Y)\n",
    settings: "[net]\nY = 2\n[block]\n",
    stimulus: "$var wire 1 ! EN $end $enddefinitions $end #0 0! #4 1!",
};

const NOTHING: Texts = Texts {
    bench: "",
    settings: "[block]\n",
    stimulus: "",
};

fn driven(
    alloc: Global,
    given: &Given,
    horizon: u64,
    order: &[u32],
) -> Result<Result<u64, DriveFault>, Fail>
    requires { horizon ≤ 100 }
{
    let cut = given.cut()?;
    let driven = drive(alloc, &given.circuit, cut, &given.stimulus, horizon, order);
    Ok(driven.map(|driven| driven.1))
}

/// How many rounds are played, or why none is.
fn rounds(
    alloc: Global,
    texts: Texts,
    horizon: u64,
    order: &[u32],
) -> Result<Result<u64, DriveFault>, Fail> {
    if horizon > 12 {
        return Err(Fail::from("a late horizon"));
    }
    let given = Given::of(alloc, texts)?;
    let rounds = driven(alloc, &given, horizon, order);
    drop(given);
    rounds
}

fn round_of(
    alloc: Global,
    given: &Given,
    order: &[u32],
) -> Result<(Option<DriveFault>, u64), Fail> {
    let mut world = given.world(alloc, 10)?;
    let fault = world.round(order).err();
    let least = world.least();
    drop(world);
    Ok((fault, least))
}

/// What one round answers, and the least time after it.
fn one_round(alloc: Global, order: &[u32]) -> Result<(Option<DriveFault>, u64), Fail> {
    let given = Given::of(alloc, PAIR)?;
    let answer = round_of(alloc, &given, order);
    drop(given);
    answer
}

/// Circuits, horizons and orders, and how many rounds are played.
static ROUNDS: [(Texts, u64, &[u32], Result<u64, DriveFault>); 8] = [
    (PAIR, 10, &[0, 1, 2], Ok(1)),
    (PAIR, 10, &[2, 1, 0], Ok(3)),
    (PAIR, 10, &[0, 0, 1], Err(DriveFault::BadOrder)),
    (INVERTER, 10, &[0], Ok(2)),
    (RING, 12, &[0], Ok(7)),
    (RING, 0, &[0], Ok(1)),
    (NOTHING, 3, &[0], Ok(0)),
    (NOTHING, 3, &[], Err(DriveFault::BadOrder)),
];

#[test]
fn rounds_until_nothing_is_left(rt: HostRuntime) -> Result<(), Fail> {
    for (texts, horizon, order, want) in &ROUNDS {
        assert_eq!(rt; rounds(rt.alloc(), *texts, *horizon, order)?, *want);
    }
    Ok(())
}

/// Orders, and what one round answers and the least time after it.
static ORDERS: [(&[u32], Option<DriveFault>, u64); 3] = [
    (&[0, 0, 1], Some(DriveFault::BadOrder), 0),
    (&[2, 1, 0], None, 1),
    (&[0, 1, 2], None, 11),
];

#[test]
fn a_round_raises_the_least_time(rt: HostRuntime) -> Result<(), Fail> {
    for (order, fault, least) in &ORDERS {
        let (told, after) = one_round(rt.alloc(), order)?;
        assert_eq!(rt; told, *fault);
        assert_eq!(rt; after, *least);
    }
    Ok(())
}
