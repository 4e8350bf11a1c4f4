//! What a worker does for a draw: in a round's first lap the block that was drawn takes a turn, later on one that has something to
//! do; and where the turn is short, so do those near it that have something to do.
ghost use Rattle.std.specs.Prelude.{◌≡◌, ◌<◌, min, IfOk, IfErr, IfSome, length};
ghost use Rattle.warp_rounds.specs.Inner.Work.{AreVisits, IsWorkFault};

use crate::desk::Desk;
use crate::fault::RunFault;
use crate::gate::Gate;
use crate::pace::{Pace, Reach, Tally};
use crate::site::Site;
use std::sync::Wait;
use warp_block::Logs;

/// So many blocks are looked at for a draw at most.
const LOOKS: u32 = 1 << 10;

/// So many blocks are looked at for one that has something to do, where a number is drawn whose block has had its turn.
const SEEN: usize = 16;

/// What turns tell.
#[derive(Clone, Copy)]
pub struct Played {
    /// The least time that they report.
    pub least: u64,
    /// What they did.
    pub tally: Tally,
}

impl Played {
    /// Both together.
    pub(crate) fn with(self, other: Played) -> Played
        ensures { result.least ≡ min self.least other.least }
    {
        Played {
            least: self.least.min(other.least),
            tally: self.tally.with(other.tally),
        }
    }
}

/// Lets a block take a turn for a number, in the first lap the one that the number stands for, and where that is short, so do the blocks
/// of its group that have something to do, again and again. What they send is delivered. As a lap begins, all are asked how far they have
/// come.
pub(crate) fn play_drawn<L: Logs, G: Gate<L>, R: Wait>(
    rt: &R,
    sites: &[Site<L>],
    number: u32,
    desk: &mut Desk,
    floor: u64,
    window: u32,
    pace: &Pace<'_>,
    gate: &G,
) -> Result<Played, RunFault>
    requires { 0 < length sites.now }
    ensures visits { IfOk result (λ played. AreVisits floor window played.least) }
    ensures fault { IfErr result (IsWorkFault (length sites.now) floor window) }
{
    let own = block_of(number, sites.len());
    if own == 0 {
        pace.meet(sites);
    }
    let block = if (number as usize) < sites.len() {
        own
    } else {
        busy(sites, own, floor, pace)
    };
    let reach = pace.reach(sites[block].sure(sites, floor));
    let drawn = play(rt, sites, block, desk, floor, window, reach, gate)?;
    if !drawn.tally.is_short() {
        return Ok(drawn);
    }
    let Some(first) = claimed(sites, block, pace.group()) else {
        return Ok(drawn);
    };
    let played = go_over(rt, sites, first, drawn, desk, floor, window, pace, gate);
    sites[first].signs().release();
    played
}

// The block that a number stands for: the blocks are gone over again and again.
fn block_of(number: u32, blocks: usize) -> usize
    requires { 0 < blocks }
    ensures { result < blocks }
{
    number as usize % blocks
}

// The block that takes a turn for a number that all have been drawn before: from the worker's home on the first that has something to do,
// of some. Where none of these has, it's the number's own, or one that nobody visits.
fn busy<L: Logs>(sites: &[Site<L>], own: usize, floor: u64, pace: &Pace<'_>) -> usize
    requires { own < length sites.now }
    ensures { result < length sites.now }
{
    let mut idle = own;
    for step in 0..SEEN.min(sites.len()) {
        let block = pace.home().saturating_add(step) % sites.len();
        let site = &sites[block];
        if site.has_work(sites, floor, pace.until()) {
            return block;
        }
        site.stays(sites, floor);
        if sites[idle].signs().is_visited() {
            idle = block;
        }
    }
    idle
}

// Claims a group of blocks: that of a block, or where another worker has it, one of the next. The answer is its first block.
fn claimed<L: Logs>(sites: &[Site<L>], block: usize, group: usize) -> Option<usize>
    ensures { IfSome result (λ first. first < length sites.now) }
{
    let group = group.max(1);
    let groups = sites.len().div_ceil(group);
    for tried in 0..groups {
        let next = (block / group).saturating_add(tried) % groups;
        let first = next.saturating_mul(group);
        if let Some(site) = sites.get(first) {
            if site.signs().claim() {
                return Some(first);
            }
        }
    }
    None
}

// Lets the blocks of a group take short turns, as long as one of them has something to do within the pace's reach, and all turns are
// short, those before included.
fn go_over<L: Logs, G: Gate<L>, R: Wait>(
    rt: &R,
    sites: &[Site<L>],
    first: usize,
    before: Played,
    desk: &mut Desk,
    floor: u64,
    window: u32,
    pace: &Pace<'_>,
    gate: &G,
) -> Result<Played, RunFault>
    requires first { first < length sites.now }
    requires before { AreVisits floor window before.least }
    ensures visits { IfOk result (λ played. AreVisits floor window played.least) }
    ensures fault { IfErr result (IsWorkFault (length sites.now) floor window) }
{
    let end = first.saturating_add(pace.group());
    let mut played = before;
    let mut block = first;
    let mut idle: usize = 0;
    for _ in 0..LOOKS {
        let more = play_near(rt, sites, block, played, desk, floor, window, pace, gate)?;
        idle = idle_after(idle, played, more);
        played = more;
        if idle == pace.group() || !played.tally.is_short() {
            break;
        }
        block = after(block, first, end, sites.len());
    }
    Ok(played)
}

// How many blocks one behind the other did nothing, where so many had before, and this is told before and after one.
fn idle_after(idle: usize, before: Played, after: Played) -> usize {
    if after.tally.work > before.tally.work {
        return 0;
    }
    idle.saturating_add(1)
}

// Lets a block take a short turn, if it has something to do within the pace's reach. The answer is of this turn and those before.
fn play_near<L: Logs, G: Gate<L>, R: Wait>(
    rt: &R,
    sites: &[Site<L>],
    block: usize,
    before: Played,
    desk: &mut Desk,
    floor: u64,
    window: u32,
    pace: &Pace<'_>,
    gate: &G,
) -> Result<Played, RunFault>
    requires block { block < length sites.now }
    requires before { AreVisits floor window before.least }
    ensures visits { IfOk result (λ played. AreVisits floor window played.least) }
    ensures fault { IfErr result (IsWorkFault (length sites.now) floor window) }
{
    let site = &sites[block];
    if !site.has_work(sites, floor, pace.until()) {
        site.stays(sites, floor);
        return Ok(before);
    }
    let reach = pace.reach(site.sure(sites, floor)).short();
    let turn = play(rt, sites, block, desk, floor, window, reach, gate)?;
    Ok(before.with(turn))
}

// The block after one in a group, which the first one is behind the last.
fn after(block: usize, first: usize, end: usize, blocks: usize) -> usize
    requires { first < blocks }
    ensures { result < blocks }
{
    let next = block.saturating_add(1);
    if next < end && next < blocks {
        return next;
    }
    first
}

// Lets a block take a turn, and delivers what it sent. The block's lock is kept until it is delivered, and so long the visit is under way:
// else who visits the block next, or finds that nobody visits it, could say that all that it told is in the inboxes while this worker is
// held up and what it sent isn't.
fn play<L: Logs, G: Gate<L>, R: Wait>(
    rt: &R,
    sites: &[Site<L>],
    block: usize,
    desk: &mut Desk,
    floor: u64,
    window: u32,
    reach: Reach,
    gate: &G,
) -> Result<Played, RunFault>
    requires { block < length sites.now }
    ensures visits { IfOk result (λ played. AreVisits floor window played.least) }
    ensures fault { IfErr result (IsWorkFault (length sites.now) floor window) }
{
    desk.sent.clear();
    let site = &sites[block];
    let mut held = site.hold(rt);
    let turned = site.visit_held(
        rt,
        &mut *held,
        floor,
        window,
        Some(reach),
        gate,
        &mut desk.sent,
    )?;
    let tally = Tally::of(&turned, desk.sent.len());
    desk.deliver(rt, sites)?;
    let next = turned.next.unwrap_or(u64::MAX);
    site.signs().settle(next.min(reach.sure));
    site.signs().ends(turned.next);
    drop(held);
    Ok(Played {
        least: turned.report.least,
        tally,
    })
}
