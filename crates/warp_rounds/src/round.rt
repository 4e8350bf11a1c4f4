ghost use Rattle.std.specs.Prelude.{◌≡◌, ◌<◌, ◌++◌, min, true, false, [], ◌∷◌, IfOk, IfSome, IfNone, All, replicate};
ghost use Rattle.warp_rounds.specs.Inner.Rule.{IsLast};
ghost use Rattle.warp_rounds.specs.Faults.{end_fault_number};
ghost use Rattle.warp_rounds.specs.Seats.{empty_seat, IsEnd};
ghost use Rattle.warp_rounds.specs.Inner.Inside.{IsOfTable, IsTakenIn};

use crate::hand::{Collect, Deal, Draw, Hand, Open, Plan, Report, RoundRule};
use atomic_table::{Seat, Table};
use std::alloc::{AllocError, Global};
use std::marker::Model;
use thiserror::Error;

type RoundTable = Table<(), Hand, Plan, RoundRule, Global>;

/// The blocks of one round, which its seats draw, and the least time that they reported.
#[derive(Drop)]
pub struct Round {
    table: RoundTable,
    blocks: u32,
    seats: u32,
}

impl Model for Round {
    ghost use Rattle.warp_rounds.specs.Seats.{RoundView};
    ghost use Rattle.warp_rounds.specs.Inner.Inside.{IsKept};
    ghost use Rattle.warp_rounds.specs.Shown.Inside.{view_of_round};

    ghost Value = { RoundView };

    ghost view = { view_of_round };

    ghost invariant = { IsKept };
}

/// A worker's place in one round.
#[derive(Drop)]
pub struct RoundSeat {
    seat: Seat<(), Hand>,
    marked: bool,
}

impl Model for RoundSeat {
    ghost use Rattle.warp_rounds.specs.Seats.{SeatView};
    ghost use Rattle.warp_rounds.specs.Inner.Inside.{IsSeat};
    ghost use Rattle.warp_rounds.specs.Shown.Inside.{view_of_seat};

    ghost Value = { SeatView };

    ghost view = { view_of_seat };

    ghost invariant = { IsSeat };
}

/// Why a round tells no time at its end. Each cause has a number, which stays.
#[derive(Clone, Copy, Debug, PartialEq, Eq, Error)]
pub enum EndFault {
    /// A seat of the round is missing.
    #[error("WrongSeats")]
    WrongSeats = 1,
    /// A block was not drawn.
    #[error("Undrawn")]
    Undrawn = 2,
}

impl EndFault {
    /// The number of the cause.
    pub fn number(self) -> u32
        ensures { result ≡ end_fault_number self }
    {
        self as u32
    }
}

impl Round {
    /// A round over the blocks below `blocks`, and as many seats of it as asked for. No seat has drawn or reported
    /// anything. An error is a refused growth.
    pub fn new(
        alloc: Global,
        blocks: u32,
        seats: u32,
    ) -> Result<(Round, Vec<RoundSeat>), AllocError>
        ensures blocks { IfOk result (λ made. made.0.round.blocks ≡ blocks) }
        ensures seats { IfOk result (λ made. made.0.seats ≡ seats) }
        ensures empty { IfOk result (λ made. made.1.items ≡ replicate seats (empty_seat made.0.round)) }
    {
        let plan = Plan {
            blocks: u64::from(blocks),
            seats: u64::from(seats),
        };
        let mut places = Vec::new(alloc);
        let (table, mut own) = RoundTable::of_words(alloc, &[0, u64::MAX], &plan)?;
        for _ in 0..seats {
            places.push(RoundSeat {
                seat: table.shared.split_seat::<Deal>(&mut own),
                marked: false,
            })?;
        }
        Ok((
            Round {
                table,
                blocks,
                seats,
            },
            places,
        ))
    }

    /// Draws a block: the least that no seat has drawn, or `None` where none is left. From then on the seat is marked,
    /// and draws `None` without a step on the shared words.
    pub fn draw(&self, seat: &mut RoundSeat) -> Option<u32>
        requires ours { seat.old.round ≡ self.now.round }
        ensures below { IfSome result (λ block. block < self.now.round.blocks) }
        ensures unmarked { IfSome result (λ block. seat.old.marked ≡ false) }
        ensures drawn { IfSome result (λ block. seat.new ≡ record seat.old { draws = seat.old.draws ++ block ∷ [] }) }
        ensures marked { IfNone result (seat.new ≡ record seat.old { marked = true }) }
    {
        if seat.marked {
            return None;
        }
        let number = self.table.shared.fetch_add::<Draw>(&mut seat.seat, 0, 1);
        if number < u64::from(self.blocks) {
            Some(number as u32)
        } else {
            seat.marked = true;
            None
        }
    }

    /// Reports a time.
    pub fn report(&self, seat: &mut RoundSeat, time: u64)
        requires ours { seat.old.round ≡ self.now.round }
        ensures reported { seat.new ≡ record seat.old { least = min seat.old.least time } }
    {
        self.table
            .shared
            .fetch_min::<Report>(&mut seat.seat, 1, time);
    }

    /// Ends the round: the least time that was reported, `u64::MAX` if there is none, where all the seats are handed
    /// in and each block was drawn. The round and the seats are gone either way.
    pub fn end(self, seats: Vec<RoundSeat>) -> Result<u64, EndFault>
        requires ours { All (λ seat. seat.round ≡ self.round) seats.items }
        ensures answer { IsEnd self seats.items result }
    {
        let Round {
            table,
            blocks,
            seats: count,
        } = self;
        let returned = seats.len() as u64;
        let own = collected(&table, seats);
        let (number, least) = last_words(table, own);
        if returned < u64::from(count) {
            return Err(EndFault::WrongSeats);
        }
        if number < u64::from(blocks) {
            return Err(EndFault::Undrawn);
        }
        Ok(least)
    }
}

// One seat that has taken in all the others.
fn collected(table: &RoundTable, seats: Vec<RoundSeat>) -> Seat<(), Hand>
    requires words { table.now.shared.table_id.words ≡ 2 }
    requires slots { table.now.shared.table_id.slots ≡ 0 }
    requires ours { All (IsOfTable table.now.shared.table_id) seats.items }
    ensures same { result.table_id ≡ table.now.shared.table_id }
    ensures all { IsTakenIn result.me.0 [] seats.items }
{
    let (_, mut own) = table.shared.load_new_seat::<Open>(0);
    for place in seats {
        let RoundSeat { seat, marked: _ } = place;
        table.shared.join_seat::<Collect>(&mut own, seat);
    }
    own
}

// The two words, as the table is closed.
fn last_words(table: RoundTable, own: Seat<(), Hand>) -> (u64, u64)
    requires same { own.table_id ≡ table.shared.table_id }
    requires words { table.shared.table_id.words ≡ 2 }
    requires slots { table.shared.table_id.slots ≡ 0 }
    ensures last { IsLast table.shared.key.blocks table.shared.key.seats own.id own.me.0 result.0 result.1 }
{
    let closed = table.close_with(own);
    let number = closed.word(0);
    let least = closed.word(1);
    closed.free();
    (number, least)
}
