//! A round whose workers take turns with it under a lock.
ghost use Rattle.std.specs.Prelude.{◌≡◌, ◌<◌, IsTrue, IfOk, IfErr, All};
ghost use Rattle.std.proofs.Props.{props};
ghost use Rattle.warp_rounds.specs.declared.fault.RunFault.TheVariants as fault;

use crate::drawn::Played;
use crate::fault::RunFault;
use crate::pace::{Lead, Tally};
use crate::round::{Round, RoundSeat};
use std::alloc::{AllocError, Global};

/// What a round is played at.
#[derive(Clone, Copy)]
pub(crate) struct Order {
    pub(crate) floor: u64,
    pub(crate) window: u32,
    pub(crate) lead: Lead,
    /// How many workers play it, and over how many blocks.
    pub(crate) workers: u32,
    pub(crate) blocks: usize,
}

/// So many numbers are drawn at a time at most, so that workers seldom wait for one another.
const BATCH: u32 = 4;

/// Each worker draws so many times, where there are enough numbers, so that none has much to do when the others are done.
const TIMES: u32 = 8;

/// Numbers that were drawn: the first, and how many more behind it.
#[derive(Clone, Copy)]
pub(crate) struct Drawn {
    pub(crate) first: u32,
    pub(crate) more: u32,
}

/// A round, its workers' seats, and what they told.
#[derive(Drop)]
pub(crate) struct Play {
    round: Round,
    seats: Vec<RoundSeat>,
    order: Order,
    tally: Tally,
    /// So many numbers are drawn at a time.
    batch: u32,
    /// A worker met a fault.
    is_faulty: bool,
    ghost ours: { All (λ s. s.round ≡ round.round) seats.items },
}

impl Play {
    /// A round of so many draws that no worker has come to.
    pub(crate) fn new(alloc: Global, draws: u32, order: Order) -> Result<Play, AllocError> {
        let (round, seats) = Round::new(alloc, draws, order.workers)?;
        let times = order.workers.saturating_mul(TIMES);
        let batch = draws.checked_div(times).unwrap_or(1).min(BATCH).max(1);
        Ok(Play {
            round,
            seats,
            order,
            tally: Tally::none(),
            batch,
            is_faulty: false,
        })
    }

    /// What it is played at.
    pub(crate) fn order(&self) -> Order {
        self.order
    }

    /// Takes in what a worker's turns told.
    pub(crate) fn tell(&mut self, place: usize, told: Played) {
        if let Some(seat) = self.seats.get_mut(place) {
            self.round.report(seat, told.least);
            self.tally = self.tally.with(told.tally);
        }
    }

    /// Draws a block for a worker; none where none is left.
    fn draw(&mut self, place: usize) -> Option<u32> {
        match self.seats.get_mut(place) {
            Some(seat) => self.round.draw(seat),
            None => None,
        }
    }

    /// Draws some numbers for a worker, one behind the other; none where none is left, or a worker met a fault.
    pub(crate) fn draw_some(&mut self, place: usize) -> Option<Drawn> {
        if self.is_faulty {
            return None;
        }
        let first = self.draw(place)?;
        let mut more: u32 = 0;
        for _ in 1..self.batch {
            if self.draw(place).is_none() {
                break;
            }
            more = more.wrapping_add(1);
        }
        Some(Drawn { first, more })
    }

    /// A worker met a fault.
    pub(crate) fn fail(&mut self) {
        self.is_faulty = true;
    }

    /// Whether a worker met a fault.
    pub(crate) fn is_faulty(&self) -> bool {
        self.is_faulty
    }

    /// Ends the round at a floor. Where it tells no time past this, what a worker told is wanting.
    pub(crate) fn end(self, floor: u64) -> Result<Played, RunFault>
        ensures later { IfOk result (λ played. floor < played.least) }
        ensures fault { IfErr result (λ f. f ≡ fault.NoThread) }
    {
        let Play {
            round,
            seats,
            tally,
            ..
        } = self;
        match round.end(seats) {
            Ok(least) if floor < least => Ok(Played { least, tally }),
            _ => Err(RunFault::NoThread),
        }
    }
}
