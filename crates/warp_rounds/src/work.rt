//! A round that one worker plays alone: it draws blocks until none is left, and lets each block that it drew take a turn.
ghost use Rattle.std.specs.Prelude.{◌≡◌, ◌⊎◌, ◌*◌, ◌<◌, ◌^◌, IfOk, IfErr, length};
ghost use Rattle.warp_rounds.specs.Words.{never};
ghost use Rattle.warp_rounds.specs.Inner.Work.{IsReady, HasLaps, HasWorked, IsRoundFault};

use crate::desk::Desk;
use crate::drawn::{Played, play_drawn};
use crate::fault::RunFault;
use crate::gate::Gate;
use crate::pace::{Pace, Tally};
use crate::play::Order;
use crate::round::{Round, RoundSeat};
use crate::site::Site;
use std::alloc::Global;
use std::sync::Wait;
use std::sync::atomic::AtomicU64;
use warp_block::Logs;

/// The worker of a round.
#[derive(Drop)]
pub struct Worker {
    pub seat: RoundSeat,
    /// What the turns did that it let blocks take.
    pub tally: Tally,
    /// The fault that ended its work before none was left to be drawn.
    pub fault: Option<RunFault>,
}

/// Plays a round by one worker, in the caller's thread: every block takes some turns at the floor, each of up to the window's event
/// times, about as far as its tellers or the lead allow. The least time that is told is above the floor; else the round stalled.
pub(crate) fn play_alone<L: Logs, G: Gate<L>, R: Wait>(
    rt: &R,
    alloc: Global,
    sites: &[Site<L>],
    desk: &mut Desk,
    order: Order,
    gate: &G,
) -> Result<Played, RunFault>
    requires blocks { length sites.now < 2 ^ 32 }
    requires floor { order.floor < never }
    ensures later { IfOk result (λ played. order.floor < played.least) }
    ensures fault { IfErr result (IsRoundFault (length sites.now) 1 order.floor order.window) }
{
    let front = AtomicU64::new(order.floor);
    let pace = Pace::of(order.lead, sites.len(), 1, 0, &front);
    let draws = draws_of(sites.len() as u32, pace.laps(1));
    let (round, mut seats) = Round::new(alloc, draws, 1)?;
    let Some(seat) = seats.pop() else {
        return Err(RunFault::Memory);
    };
    let worker = Worker {
        seat,
        tally: Tally::none(),
        fault: None,
    };
    let Worker { seat, tally, fault } = work(rt, &round, sites, desk, worker, order, &pace, gate);
    if let Some(fault) = fault {
        return Err(fault);
    }
    let mut back = Vec::new(alloc);
    back.push(seat)?;
    match round.end(back) {
        Ok(least) if order.floor < least => Ok(Played { least, tally }),
        _ => Err(RunFault::Stalled { time: order.floor }),
    }
}

// How many draws there are where each block is drawn some times, or once where they are too many.
pub(crate) fn draws_of(blocks: u32, laps: u32) -> u32
    ensures { (result ≡ blocks * laps) ⊎ (result ≡ blocks) }
{
    match blocks.checked_mul(laps) {
        Some(draws) => draws,
        None => blocks,
    }
}

// A worker's round: it draws blocks until none is left, and then reports the least time that their turns told, or until a fault.
fn work<L: Logs, G: Gate<L>, R: Wait>(
    rt: &R,
    round: &Round,
    sites: &[Site<L>],
    desk: &mut Desk,
    mut worker: Worker,
    order: Order,
    pace: &Pace<'_>,
    gate: &G,
) -> Worker
    requires ready { IsReady round.now.round worker }
    requires count { HasLaps (length sites.now) round.now.round }
    ensures { HasWorked (length sites.now) round.now.round order.floor order.window result }
{
    let mut least = u64::MAX;
    for _ in rt.forever() {
        let Some(number) = round.draw(&mut worker.seat) else {
            round.report(&mut worker.seat, least);
            return worker;
        };
        match play_drawn(
            rt,
            sites,
            number,
            desk,
            order.floor,
            order.window,
            pace,
            gate,
        ) {
            Ok(played) => {
                least = least.min(played.least);
                worker.tally = worker.tally.with(played.tally);
            }
            Err(fault) => {
                worker.fault = Some(fault);
                return worker;
            }
        }
    }
    unreachable!()
}
