use super::given::{Given, Texts};
use Logic::{One, Zero};
use gate_values::Logic;
use std::alloc::Global;
use std::test::Fail;
use warp_block::{Message, Sign};
use warp_core::{Event, PlayFault, World};

/// A toggle in two blocks; nets N, Q, CK.
const TOGGLE: Texts = Texts {
    bench: "N = NOT(Q)\nQ = DFF(N)\n",
    settings: "[init]\nQ = \"0\"\n[block]\nN = 0\nQ = 1\n",
    stimulus: "$var wire 1 c CK $end $enddefinitions $end #0 0c #3 1c",
};

/// Flip-flops that two other blocks read, of which the first net is in the second block; nets D, P, Q, R, Y, Z, CK.
const REGISTER: Texts = Texts {
    bench: "INPUT(D)\nP = DFF(D)\nQ = DFF(D)\nR = DFF(D)\nY = AND(P, Q, R)\nZ = OR(Q, R)\n",
    settings: "[init]\nP = \"1\"\nQ = \"0\"\nR = \"1\"\n[block]\nP = 1\nQ = 0\nR = 0\nY = 2\nZ = 1\n",
    stimulus: "$var wire 1 d D $end $var wire 1 c CK $end $enddefinitions $end",
};

/// The toggle with no initial content.
const UNKNOWN: Texts = Texts {
    bench: "N = NOT(Q)\nQ = DFF(N)\n",
    settings: "[block]\nN = 0\nQ = 1\n",
    stimulus: "$var wire 1 c CK $end $enddefinitions $end #0 0c #3 1c",
};

fn opening_of(alloc: Global, given: &Given) -> Result<Vec<Message>, Fail> {
    let world = given.world(alloc, 10)?;
    let flight = Vec::from_slice(alloc, world.flight());
    drop(world);
    Ok(flight?)
}

/// What is in flight in a new world.
fn opening(alloc: Global, texts: Texts) -> Result<Vec<Message>, Fail> {
    let given = Given::of(alloc, texts)?;
    let opening = opening_of(alloc, &given);
    drop(given);
    opening
}

/// Circuits, and the nets, blocks and values of the messages that are in flight at first.
static OPENINGS: [(Texts, &[(u32, u32, Logic)]); 2] = [
    (TOGGLE, &[(1, 0, Zero)]),
    (
        REGISTER,
        &[
            (2, 1, Zero),
            (2, 2, Zero),
            (3, 1, One),
            (3, 2, One),
            (1, 2, One),
        ],
    ),
];

#[test]
fn initial_contents_are_in_flight_by_block_net_and_reader(rt: HostRuntime) -> Result<(), Fail> {
    for (texts, want) in &OPENINGS {
        let flight = opening(rt.alloc(), *texts)?;
        assert_eq!(rt; flight.len(), want.len());
        for (message, (net, block, value)) in flight.iter().zip(*want) {
            let told = Message {
                time: 0,
                block: *block,
                net: *net,
                value: *value,
                sign: Sign::Plus,
            };
            assert_eq!(rt; *message, told);
        }
    }
    Ok(())
}

/// Circuits, and which messages are delivered in a new world of each, one after the other, and why not: one for each
/// initial content that another block reads, and then none.
static DELIVERIES: [(Texts, &[(usize, Option<PlayFault>)]); 3] = [
    (
        TOGGLE,
        &[
            (1, Some(PlayFault::NoSuchMessage)),
            (0, None),
            (0, Some(PlayFault::NoSuchMessage)),
        ],
    ),
    (
        REGISTER,
        &[
            (5, Some(PlayFault::NoSuchMessage)),
            (4, None),
            (4, Some(PlayFault::NoSuchMessage)),
            (0, None),
            (0, None),
            (0, None),
            (0, None),
            (0, Some(PlayFault::NoSuchMessage)),
        ],
    ),
    (UNKNOWN, &[(0, Some(PlayFault::NoSuchMessage))]),
];

fn delivered(
    alloc: Global,
    world: &mut World<'_>,
    deliveries: &[(usize, Option<PlayFault>)],
) -> Result<Vec<Option<PlayFault>>, Fail> {
    let mut faults = Vec::new(alloc);
    for (message, _) in deliveries {
        faults.push(world.play(Event::Deliver { message: *message }).err())?;
    }
    Ok(faults)
}

/// What a new world answers to deliveries.
fn delivered_in(
    alloc: Global,
    given: &Given,
    deliveries: &[(usize, Option<PlayFault>)],
) -> Result<Vec<Option<PlayFault>>, Fail> {
    let mut world = given.world(alloc, 10)?;
    let faults = delivered(alloc, &mut world, deliveries);
    drop(world);
    faults
}

#[test]
fn initial_contents_are_delivered_and_nothing_else(rt: HostRuntime) -> Result<(), Fail> {
    for (texts, deliveries) in &DELIVERIES {
        let given = Given::of(rt.alloc(), *texts)?;
        let faults = delivered_in(rt.alloc(), &given, *deliveries);
        drop(given);
        let faults = faults?;
        for (fault, (_, want)) in faults.iter().zip(*deliveries) {
            assert_eq!(rt; *fault, *want);
        }
    }
    Ok(())
}
