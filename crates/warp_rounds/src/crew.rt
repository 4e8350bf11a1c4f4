//! The workers of a run, who stay for all its rounds.
ghost use Rattle.std.specs.Prelude.{◌≡◌, ◌<◌, ◌≤◌, IfOk, IfErr, IfSome, IsTrue, length};
ghost use Rattle.warp_rounds.specs.Words.{never};
ghost use Rattle.warp_rounds.specs.Inner.Work.{IsRoundFault, IsRoundsFault};

use crate::desk::Desk;
use crate::drawn::{Played, play_drawn};
use crate::fault::RunFault;
use crate::gate::Gate;
use crate::pace::Pace;
use crate::play::{Drawn, Order, Play};
use crate::site::Site;
use std::alloc::Global;
use std::sync::atomic::AtomicU64;
use std::sync::atomic::Ordering::SeqCst;
use std::sync::{Condvar, Mutex, Wait};
use warp_block::Logs;

/// What lies under the lock of a crew.
#[derive(Drop)]
struct Hall {
    /// The round that is played.
    play: Option<Play>,
    /// How many rounds have begun.
    begun: u64,
    /// How many workers haven't left the round.
    at_work: u32,
    /// No more rounds begin.
    is_over: bool,
}

/// What all rounds of a run have in common: how many blocks there are, up to when it goes, how many workers play those that aren't
/// one's alone, and how many event times a turn has at most.
#[derive(Clone, Copy)]
pub(crate) struct Term {
    pub(crate) blocks: usize,
    pub(crate) horizon: u64,
    pub(crate) workers: u32,
    pub(crate) window: u32,
}

impl Term {
    /// Whether a round of all workers can be one of the run.
    fn has(self, order: Order) -> bool
        ensures floor { IsTrue result → order.floor ≤ self.horizon }
        ensures workers { IsTrue result → order.workers ≤ self.workers }
        ensures window { IsTrue result → order.window ≡ self.window }
    {
        order.floor <= self.horizon && order.workers == self.workers && order.window == self.window
    }
}

/// The workers of a run. They wait for a round, play it, and wait for the next. No fact that is learnt under the lock is known
/// when it is taken again, so a fault is handed back by the worker that met it.
#[derive(Drop)]
pub(crate) struct Crew {
    hall: Mutex<Hall>,
    begins: Condvar,
    ends: Condvar,
    /// About how far all blocks have come.
    front: AtomicU64,
}

impl Crew {
    /// A crew that has no round.
    pub(crate) fn new() -> Crew {
        Crew {
            hall: Mutex::new(Hall {
                play: None,
                begun: 0,
                at_work: 0,
                is_over: false,
            }),
            begins: Condvar::new(),
            ends: Condvar::new(),
            front: AtomicU64::new(0),
        }
    }

    /// Plays a round of so many draws by all workers, the first in the caller's thread. It tells nothing where another one met a fault,
    /// which is handed back by that worker at the end.
    pub(crate) fn play_round<L: Logs, G: Gate<L>, R: Wait>(
        &self,
        rt: &R,
        alloc: Global,
        draws: u32,
        order: Order,
        sites: &[Site<L>],
        desk: &mut Desk,
        gate: &G,
    ) -> Result<Option<Played>, RunFault>
        requires some { 0 < length sites.now }
        requires workers { 1 < order.workers }
        requires floor { order.floor < never }
        ensures later { IfOk result (λ told. IfSome told (λ played. order.floor < played.least)) }
        ensures fault { IfErr result (IsRoundFault (length sites.now) order.workers order.floor order.window) }
    {
        let play = Play::new(alloc, draws, order)?;
        self.begin(rt, play, order);
        let own = self.play_out(rt, 0, order, sites, desk, gate);
        let play = self.take_back(rt);
        own?;
        match play {
            Some(play) if play.is_faulty() => Ok(None),
            Some(play) => Ok(Some(play.end(order.floor)?)),
            None => Err(RunFault::NoThread),
        }
    }

    /// Has all workers begin a round.
    fn begin<R: Wait>(&self, rt: &R, play: Play, order: Order) {
        self.front.store(order.floor, SeqCst);
        let mut hall = self.hall.lock(rt);
        hall.play = Some(play);
        hall.begun = hall.begun.wrapping_add(1);
        hall.at_work = order.workers;
        drop(hall);
        self.begins.notify_all();
    }

    /// The round, once no worker plays it any more.
    fn take_back<R: Wait>(&self, rt: &R) -> Option<Play> {
        let hall = self.hall.lock(rt);
        let mut hall = self
            .ends
            .wait_while(rt, hall, |hall: &mut Hall| hall.at_work > 0);
        hall.play.take()
    }

    /// Draws some numbers for a worker at its place, one behind the other, after it has told what its turns did; none where none is
    /// left.
    fn draw<R: Wait>(&self, rt: &R, place: usize, told: Option<Played>) -> Option<Drawn> {
        let mut hall = self.hall.lock(rt);
        let drawn = match &mut hall.play {
            Some(play) => {
                if let Some(played) = told {
                    play.tell(place, played);
                }
                play.draw_some(place)
            }
            None => None,
        };
        if drawn.is_none() {
            self.leaves(&mut *hall);
        }
        drawn
    }

    /// A worker met a fault, and no more plays.
    fn fail<R: Wait>(&self, rt: &R) {
        let mut hall = self.hall.lock(rt);
        if let Some(play) = &mut hall.play {
            play.fail();
        }
        self.leaves(&mut *hall);
    }

    /// A worker no more plays.
    fn leaves(&self, hall: &mut Hall) {
        hall.at_work = hall.at_work.saturating_sub(1);
        if hall.at_work == 0 {
            self.ends.notify_all();
        }
    }

    /// Plays a round at a place until no block is left, or a fault is met: a turn's, or that it told a time that isn't past the floor.
    fn play_out<L: Logs, G: Gate<L>, R: Wait>(
        &self,
        rt: &R,
        place: usize,
        order: Order,
        sites: &[Site<L>],
        desk: &mut Desk,
        gate: &G,
    ) -> Result<(), RunFault>
        requires some { 0 < length sites.now }
        requires floor { order.floor < never }
        ensures { IfErr result (IsRoundFault (length sites.now) order.workers order.floor order.window) }
    {
        let pace = Pace::of(order.lead, order.blocks, order.workers, place, &self.front);
        let mut told: Option<Played> = None;
        for _ in rt.forever() {
            let Some(drawn) = self.draw(rt, place, told) else {
                return Ok(());
            };
            match play_some(rt, sites, drawn, desk, order, &pace, gate) {
                Ok(played) => told = Some(played),
                Err(fault) => {
                    self.fail(rt);
                    return Err(fault);
                }
            }
        }
        unreachable!()
    }

    /// What the next round is played at, after so many; none where there are no more.
    fn next<R: Wait>(&self, rt: &R, begun: &mut u64) -> Option<Order> {
        let seen = *begun;
        let hall = self.hall.lock(rt);
        let hall = self.begins.wait_while(rt, hall, |hall: &mut Hall| {
            hall.begun == seen && !hall.is_over
        });
        *begun = hall.begun;
        if hall.is_over {
            return None;
        }
        match &hall.play {
            Some(play) => Some(play.order()),
            None => None,
        }
    }

    /// A worker at a place plays round after round, until there are no more, or it meets a fault.
    pub(crate) fn stay<L: Logs, G: Gate<L>, R: Wait>(
        &self,
        rt: &R,
        alloc: Global,
        place: usize,
        sites: &[Site<L>],
        term: Term,
        gate: &G,
    ) -> Result<(), RunFault>
        requires horizon { term.horizon < never }
        requires blocks { term.blocks ≡ length sites.now }
        ensures { IfErr result (IsRoundsFault term.blocks term.horizon term.workers term.window) }
    {
        let mut desk = Desk::new(alloc);
        let mut begun: u64 = 0;
        for _ in rt.forever() {
            let Some(order) = self.next(rt, &mut begun) else {
                return Ok(());
            };
            if !term.has(order) || sites.is_empty() {
                self.fail(rt);
                return Ok(());
            }
            self.play_out(rt, place, order, sites, &mut desk, gate)?;
        }
        unreachable!()
    }

    /// Lets all workers go.
    pub(crate) fn dismiss<R: Wait>(&self, rt: &R) {
        let mut hall = self.hall.lock(rt);
        hall.is_over = true;
        drop(hall);
        self.begins.notify_all();
    }
}

/// Lets the block that a number stands for take a turn, and some near it, as [`play_drawn`] does. Where they tell a time that isn't past
/// the floor, the round stalled.
fn play_past<L: Logs, G: Gate<L>, R: Wait>(
    rt: &R,
    sites: &[Site<L>],
    number: u32,
    desk: &mut Desk,
    order: Order,
    pace: &Pace<'_>,
    gate: &G,
) -> Result<Played, RunFault>
    requires some { 0 < length sites.now }
    requires floor { order.floor < never }
    ensures past { IfOk result (λ played. order.floor < played.least) }
    ensures fault { IfErr result (IsRoundFault (length sites.now) order.workers order.floor order.window) }
{
    let played = play_drawn(
        rt,
        sites,
        number,
        desk,
        order.floor,
        order.window,
        pace,
        gate,
    )?;
    if played.least <= order.floor {
        return Err(RunFault::Stalled { time: order.floor });
    }
    Ok(played)
}

/// Lets the blocks that some numbers stand for take their turns, one after another.
fn play_some<L: Logs, G: Gate<L>, R: Wait>(
    rt: &R,
    sites: &[Site<L>],
    drawn: Drawn,
    desk: &mut Desk,
    order: Order,
    pace: &Pace<'_>,
    gate: &G,
) -> Result<Played, RunFault>
    requires some { 0 < length sites.now }
    requires floor { order.floor < never }
    ensures { IfErr result (IsRoundFault (length sites.now) order.workers order.floor order.window) }
{
    let mut played = play_past(rt, sites, drawn.first, desk, order, pace, gate)?;
    for more in 0..drawn.more {
        let number = drawn.first.wrapping_add(more).wrapping_add(1);
        let next = play_past(rt, sites, number, desk, order, pace, gate)?;
        played = played.with(next);
    }
    Ok(played)
}
