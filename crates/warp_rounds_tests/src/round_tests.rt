use std::test::Fail;
use warp_rounds::{EndFault, Round};

#[test]
fn two_seats_draw_three_blocks(rt: HostRuntime) -> Result<(), Fail> {
    let (round, mut seats) = Round::new(rt.alloc(), 3, 2)?;
    assert!(rt; seats.len() == 2);
    let drawn = [
        round.draw(&mut seats[0]),
        round.draw(&mut seats[1]),
        round.draw(&mut seats[0]),
        round.draw(&mut seats[0]),
        round.draw(&mut seats[1]),
    ];
    assert!(rt; drawn == [Some(0), Some(1), Some(2), None, None]);
    round.report(&mut seats[0], 7);
    round.report(&mut seats[1], 4);
    round.report(&mut seats[0], 11);
    assert!(rt; round.end(seats) == Ok(4));
    Ok(())
}

#[test]
fn a_block_is_left_undrawn(rt: HostRuntime) -> Result<(), Fail> {
    let (round, mut seats) = Round::new(rt.alloc(), 3, 2)?;
    assert!(rt; seats.len() == 2);
    assert!(rt; round.draw(&mut seats[0]) == Some(0) && round.draw(&mut seats[1]) == Some(1));
    assert!(rt; round.end(seats) == Err(EndFault::Undrawn));
    Ok(())
}

#[test]
fn a_seat_is_missing(rt: HostRuntime) -> Result<(), Fail> {
    let (round, mut seats) = Round::new(rt.alloc(), 3, 2)?;
    drop(seats.pop());
    assert!(rt; round.end(seats) == Err(EndFault::WrongSeats));
    Ok(())
}

#[test]
fn a_round_without_a_block(rt: HostRuntime) -> Result<(), Fail> {
    let (round, mut seats) = Round::new(rt.alloc(), 0, 1)?;
    assert!(rt; seats.len() == 1);
    assert!(rt; round.draw(&mut seats[0]).is_none());
    assert!(rt; round.end(seats) == Ok(u64::MAX));
    Ok(())
}

#[test]
fn a_block_is_drawn_once(rt: HostRuntime) -> Result<(), Fail> {
    let (round, mut seats) = Round::new(rt.alloc(), 1, 2)?;
    assert!(rt; seats.len() == 2);
    let drawn = [
        round.draw(&mut seats[0]),
        round.draw(&mut seats[0]),
        round.draw(&mut seats[0]),
    ];
    assert!(rt; drawn == [Some(0), None, None]);
    round.report(&mut seats[0], 5);
    round.report(&mut seats[0], 9);
    assert!(rt; round.draw(&mut seats[1]).is_none());
    assert!(rt; round.end(seats) == Ok(5));
    Ok(())
}
