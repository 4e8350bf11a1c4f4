//! How far the blocks of a run go ahead. What stands here sets the speed of a run; no promise rests on it.

ghost use Rattle.std.specs.Prelude.{◌≤◌, ◌<◌, ◌⊎◌};
ghost use Rattle.warp_rounds.specs.Inner.Turn.{IsFirstPast};

use crate::site::Site;
use crate::turns::Turned;
use gate_netlist::{Circuit, Cut};
use std::alloc::{AllocError, Global};
use std::sync::atomic::AtomicU64;
use std::sync::atomic::Ordering::SeqCst;
use warp_block::{Logs, Part};

/// How far above the floor blocks go in the first round.
const FIRST: u64 = 8;

/// Where more than one in so many of a round's event times was taken back, blocks go half as far in the next one.
const UNDONE: u64 = 32;

/// How much newer turns count in a density.
const NEWER: u64 = 16;

/// A round that would have less work, however often it goes over the blocks, isn't worth other threads than the caller's.
const LITTLE: u64 = 2048;

/// About how many changes a turn makes at most, where several blocks have work: of several workers, so that what a block tells is soon
/// work for another one, and of one worker, who would only take more turns.
const TURN: u64 = 1 << 12;

const LONE_TURN: u64 = 1 << 13;

/// About how many it makes at most, where one block has nearly all of the work.
const LONG_TURN: u64 = 1 << 14;

/// A turn has at most so many times as many event times as the one before it, but may always have `SOME` of them: how many changes are
/// made at an event time is known of the past alone, and may be a hundred times as many in the next turn.
const GROWTH: u64 = 4;

const SOME: u64 = 128;

/// A round with less work goes over the blocks more often, so that its workers have something to do between two meetings.
const ENOUGH: u64 = 1 << 19;

/// How often a round goes over the blocks at most.
const MOST_LAPS: u32 = 256;

/// A turn with less work is short. Where a block that is drawn takes a short one, its worker goes over the blocks of a group in short
/// turns, so that what they tell one another needn't wait for the next lap.
const SHORT: u64 = 1 << 7;

/// So much work is done for one draw at most where turns are short.
const DRAW: u64 = 1 << 11;

/// So many neighbouring blocks are a group at most.
const GROUP: usize = 16;

/// What a message counts as work: about so many changes stand behind one.
const BEHIND: u64 = 8;

/// A block that tells another one of nets, and the least delay of these.
#[derive(Clone, Copy)]
pub(crate) struct Teller {
    pub(crate) block: u32,
    pub(crate) delay: u32,
}

/// Who tells the block of a part.
pub(crate) fn tellers_of(
    alloc: Global,
    circuit: &Circuit,
    cut: &Cut,
    part: &Part,
) -> Result<Vec<Teller>, AllocError> {
    let mut delays = Vec::new(alloc);
    delays.resize(cut.blocks() as usize, u32::MAX)?;
    for net in part.nets() {
        if let Some((block, delay)) = source_of(circuit, cut, *net) {
            if block != part.block() {
                lower(delays.as_mut_slice(), block, delay);
            }
        }
    }
    let mut tellers = Vec::new(alloc);
    for block in 0..cut.blocks() {
        if let Some(delay) = known(delays.as_slice(), block) {
            tellers.push(Teller { block, delay })?;
        }
    }
    Ok(tellers)
}

/// The block that owns a net, and the net's delay.
fn source_of(circuit: &Circuit, cut: &Cut, net: u32) -> Option<(u32, u32)> {
    if net >= circuit.nets() {
        return None;
    }
    let block = cut.owner(net)?;
    let delay = circuit.delay(net)?;
    Some((block, delay))
}

/// Lowers the delay of a block to one, if that is less.
fn lower(delays: &mut [u32], block: u32, delay: u32) {
    if let Some(least) = delays.get_mut(block as usize) {
        if delay < *least {
            *least = delay;
        }
    }
}

/// The delay of a block, if one is known.
fn known(delays: &[u32], block: u32) -> Option<u32> {
    match delays.get(block as usize) {
        Some(delay) if *delay < u32::MAX => Some(*delay),
        _ => None,
    }
}

/// How far a turn goes: about up to a time, and about so many changes; and up to when nothing will be taken back that its block was
/// told.
#[derive(Clone, Copy)]
pub(crate) struct Reach {
    pub(crate) until: u64,
    pub(crate) changes: u64,
    pub(crate) sure: u64,
}

impl Reach {
    /// As far, but in a short turn.
    pub(crate) fn short(self) -> Reach {
        Reach {
            changes: self.changes.min(SHORT),
            ..self
        }
    }
}

/// How many event times a block had lately, in how long, and how many changes it made at them; for how long it had none
/// since; and how many it may have in a turn.
#[derive(Clone, Copy)]
pub(crate) struct Density {
    times: u64,
    span: u64,
    changes: u64,
    quiet: u64,
    most: u64,
}

impl Density {
    /// One at each time, with one change.
    pub(crate) fn full() -> Density {
        Density {
            times: 1,
            span: 1,
            changes: 1,
            quiet: 0,
            most: SOME,
        }
    }

    /// How many event times are to be expected in a span.
    fn expected(self, span: u64) -> u64 {
        span.saturating_mul(self.times) / self.span.max(1)
    }

    /// At how many event times so many changes are to be expected.
    fn needed(self, changes: u64) -> u64 {
        changes.saturating_mul(self.times) / self.changes.max(1)
    }

    /// A window of up to `most` for a turn at a floor, where `start` is the least time at which something is left, if any is: all
    /// of it, or where a reach is given, as many event times as are to be expected within it. It has none where nothing is left
    /// within the reach, nor at the floor.
    pub(crate) fn window(
        self,
        start: Option<u64>,
        floor: u64,
        reach: Option<Reach>,
        most: u32,
    ) -> u32
        ensures within { result ≤ most }
        ensures floor { 0 < most → (0 < result) ⊎ IsFirstPast start floor }
    {
        let Some(reach) = reach else {
            return most;
        };
        match start {
            Some(start) if start <= floor || start < reach.until => {
                let times = self.expected(reach.until.saturating_sub(start));
                let times = times.min(self.needed(reach.changes));
                fitting(times.min(self.most), most)
            }
            _ => 0,
        }
    }

    /// The density after a turn that finished some event times as the mark rose by a span, and made some changes: what was
    /// before counts half.
    pub(crate) fn after(self, times: u32, span: u64, changes: u64) -> Density {
        let span = span.saturating_add(self.quiet);
        Density {
            times: (self.times / 2).saturating_add(u64::from(times) * NEWER),
            span: (self.span / 2).saturating_add(span.saturating_mul(NEWER)),
            changes: (self.changes / 2).saturating_add(changes.saturating_mul(NEWER)),
            quiet: 0,
            most: u64::from(times).saturating_mul(GROWTH).max(SOME),
        }
    }

    /// The density after a turn that finished none as the mark rose by a span. It counts with that of the next turn that does.
    pub(crate) fn after_rest(self, span: u64) -> Density {
        Density {
            quiet: self.quiet.saturating_add(span),
            ..self
        }
    }
}

/// A window for so many event times, if possible, and for one at least.
fn fitting(times: u64, most: u32) -> u32
    ensures within { result ≤ most }
    ensures some { 0 < most → 0 < result }
{
    if times >= u64::from(most) {
        return most;
    }
    if times == 0 {
        return 1;
    }
    times as u32
}

/// What turns did, beside what they told.
#[derive(Clone, Copy)]
pub(crate) struct Tally {
    /// How many event times were finished.
    pub(crate) finished: u64,
    /// How many of those that were finished before were taken back.
    pub(crate) undone: u64,
    /// How much work it was.
    pub(crate) work: u64,
    /// The most work that one turn had.
    pub(crate) most: u64,
}

impl Tally {
    /// What a turn did that sent so many messages.
    pub(crate) fn of(turned: &Turned, sent: usize) -> Tally {
        let finished = u64::from(turned.finished);
        let work = turned
            .changes
            .saturating_add((sent as u64).saturating_mul(BEHIND));
        Tally {
            finished,
            undone: turned.undone,
            work,
            most: work,
        }
    }

    /// Nothing was done.
    pub(crate) fn none() -> Tally {
        Tally {
            finished: 0,
            undone: 0,
            work: 0,
            most: 0,
        }
    }

    /// Both together.
    pub(crate) fn with(self, other: Tally) -> Tally {
        Tally {
            finished: self.finished.saturating_add(other.finished),
            undone: self.undone.saturating_add(other.undone),
            work: self.work.saturating_add(other.work),
            most: self.most.max(other.most),
        }
    }

    /// Whether turns did something, all were short, and they may go on for the same draw.
    pub(crate) fn is_short(&self) -> bool {
        self.work > 0 && self.most < SHORT && self.work < DRAW
    }

    /// Whether one worker alone had better do as much again, where the blocks were gone over so often: it would be little even if
    /// they were gone over as often as can be, or one turn had nearly all of it.
    pub(crate) fn is_for_one(self, laps: u32) -> bool {
        let more = u64::from(MOST_LAPS / laps.max(1));
        self.work.saturating_mul(more) < LITTLE || self.most > self.work / 8 * 7
    }
}

/// How far blocks go in a round: up to a time above what all have come to, whoever may still take back what they were told, in
/// about so many changes a turn, where several have work in so many, and in so many laps.
#[derive(Clone, Copy)]
pub(crate) struct Lead {
    time: u64,
    changes: u64,
    turn: u64,
    laps: u32,
}

impl Lead {
    /// That of the first round over so many blocks by so many workers. One block alone goes as far as its window lets it.
    pub(crate) fn first(blocks: usize, workers: u32) -> Lead {
        let turn = if workers > 1 { TURN } else { LONE_TURN };
        let changes = if blocks > 1 { turn } else { u64::MAX };
        Lead {
            time: FIRST,
            changes,
            turn,
            laps: 1,
        }
    }

    /// That of the next round: half as far, where too much of what was done in this one was undone, else a
    /// quarter further. Turns are twice as long where one worker had better play, else half as long. There are twice as many
    /// laps where there was little work, else half as many.
    pub(crate) fn after(self, tally: Tally, is_for_one: bool) -> Lead {
        Lead {
            time: self.time_after(tally),
            changes: self.changes_after(is_for_one),
            turn: self.turn,
            laps: self.laps_after(tally),
        }
    }

    /// How often a round of so many workers goes over the blocks: one worker meets nobody at its end.
    pub(crate) fn laps_for(self, workers: u32) -> u32 {
        if workers > 1 { self.laps } else { 1 }
    }

    /// How far blocks go above what all have come to, in the next round.
    fn time_after(self, tally: Tally) -> u64 {
        if tally.undone > tally.finished / UNDONE {
            return self.time / 2;
        }
        self.time.saturating_add(self.time / 4).saturating_add(1)
    }

    /// About how many changes a turn makes at most in the next round. Where that has no end it stays so.
    fn changes_after(self, is_for_one: bool) -> u64 {
        if self.changes > LONG_TURN {
            return self.changes;
        }
        if is_for_one {
            return (self.changes * 2).min(LONG_TURN);
        }
        (self.changes / 2).max(self.turn)
    }

    /// How many laps the next round of several workers has.
    fn laps_after(self, tally: Tally) -> u32 {
        if tally.work < ENOUGH {
            return self.laps.saturating_mul(2).min(MOST_LAPS);
        }
        (self.laps / 2).max(1)
    }
}

/// The pace of a worker in a round, how many neighbouring blocks are a group, where it looks first for something to do, and about how far
/// all blocks have come.
#[derive(Clone, Copy)]
pub(crate) struct Pace<'a> {
    lead: Lead,
    group: usize,
    home: usize,
    front: &'a AtomicU64,
}

impl<'a> Pace<'a> {
    /// The pace of a worker at its place in a round, over so many blocks by so many workers, whose blocks have come as far as a word
    /// says. Each worker has a home among the blocks: those that it visits again and again lie near its processor.
    pub(crate) fn of(
        lead: Lead,
        blocks: usize,
        workers: u32,
        place: usize,
        front: &'a AtomicU64,
    ) -> Pace<'a> {
        let workers = workers.max(1) as usize;
        Pace {
            lead,
            group: (blocks / workers).clamp(1, GROUP),
            home: blocks.saturating_mul(place) / workers,
            front,
        }
    }

    /// How many neighbouring blocks are a group.
    pub(crate) fn group(&self) -> usize {
        self.group
    }

    /// The block from which on the worker looks for something to do.
    pub(crate) fn home(&self) -> usize {
        self.home
    }

    /// How often a round of so many workers goes over the blocks.
    pub(crate) fn laps(&self, workers: u32) -> u32 {
        self.lead.laps_for(workers)
    }

    /// Asks all blocks how far they have come.
    pub(crate) fn meet<L: Logs>(&self, sites: &[Site<L>]) {
        let mut front = u64::MAX;
        for site in sites {
            front = front.min(site.signs().settled());
        }
        self.front.fetch_max(front, SeqCst);
    }

    /// Up to when a turn goes, whoever may still take back what its block was told.
    pub(crate) fn until(&self) -> u64 {
        self.front.load(SeqCst).saturating_add(self.lead.time)
    }

    /// How far a turn goes, of a block that nothing is taken back from up to a time.
    pub(crate) fn reach(&self, sure: u64) -> Reach {
        Reach {
            until: self.until().max(sure),
            changes: self.lead.changes,
            sure,
        }
    }
}
