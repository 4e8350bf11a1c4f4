ghost use Rattle.std.specs.Prelude.{◌≡◌, ℕ, IfOk, IfErr, OnOk, List, [], length};
ghost use Rattle.warp_process.specs.declared.message.Message.{Message};
ghost use Rattle.warp_process.specs.View.{IsLeast};
ghost use Rattle.warp_process.specs.Lawful.{IsLawful, IsLawfulProcess};
ghost use Rattle.warp_process.specs.Sends.{Sends};
ghost use Rattle.warp_rounds.specs.Turn.{IsTurn, IsFaultyTurn, IsPending, IsAfterPending, IsLeastPending, StaysInFront, put_behind};
ghost use Rattle.warp_rounds.specs.Visit.{Fits, IsVisit, IsFaultyVisit};
ghost use Rattle.warp_rounds.specs.Counts.{IsCounted};

use crate::counts;
use crate::counts::Counts;
use crate::gate::Gate;
use crate::pace::{Density, Reach, Teller};
use crate::signs::Signs;
use crate::turns::{TurnReport, Turned, least_pending, turn_through};
use std::alloc::{AllocError, Global};
use std::mem;
use std::sync::{Mutex, MutexGuard, Wait};
use warp_block::{AllLogs, Block, BlockFault, Logs, Look, Message};

/// A block behind its lock, and an inbox behind its own: a message may come while the block takes a turn, and waits for
/// the next one.
///
/// Whoever takes the block's lock finds a lawful block: [`Block`] keeps its invariant at every moment, so also where a
/// turn ended with a fault.
#[derive(Drop)]
pub struct Site<L: Logs = AllLogs> {
    held: Mutex<Held<L>>,
    inbox: Mutex<Vec<Message>>,
    /// What others see of it. It sets the pace alone.
    signs: Signs,
    /// Who tells the block, as far as that is known.
    tellers: Vec<Teller>,
}

/// What a site's lock keeps: the block, and what its visits leave to one another.
#[derive(Drop)]
pub(crate) struct Held<L: Logs> {
    block: Block<L>,
    /// What is counted of its turns.
    counts: Counts,
    /// How its event times have lain.
    density: Density,
    /// About how many changes it had made after its last visit.
    made: u64,
    /// The messages of a turn, which are swapped for the inbox's. It is empty between visits, and keeps its memory.
    messages: Vec<Message>,
    ghost counted: { IsCounted block.seen counts },
}

/// A block that was taken out of its site, and what is counted of its turns.
#[derive(Drop)]
pub(crate) struct Finished<L: Logs> {
    pub(crate) block: Block<L>,
    pub(crate) counts: Counts,
}

impl<L: Logs> Held<L> {
    /// A turn of the block with the messages that were taken, of up to `most` event times; where a reach is given, of as
    /// many as are to be expected within it.
    fn turn(
        &mut self,
        floor: u64,
        most: u32,
        reach: Option<Reach>,
        out: &mut Vec<Message>,
    ) -> Result<Turned, BlockFault>
        ensures turn { OnOk result ((own : ℕ) × Fits self.old.block.seen self.old.messages.items floor most own × IsTurn self.old.block self.new.block self.old.messages.items floor own) }
        ensures taken { self.new.messages.items ≡ [] }
        ensures front { StaysInFront out.old.items out.new.items }
        ensures visit { IfOk result (λ turned. IsVisit floor most out.old.items out.new.items turned.report.least) }
        ensures fault { IfErr result (IsFaultyVisit floor most out.old.items out.new.items) }
    {
        self.block.law();
        let next = self.block.next_time();
        let start = least_pending(&self.block, next, self.messages.as_slice());
        let window = self.window(start, floor, reach, most);
        let undone = self.counts.undone;
        let messages = self.messages.as_slice();
        let turned = turn_from(
            &mut self.block,
            &mut self.counts,
            start,
            messages,
            floor,
            window,
            out,
        );
        self.messages.clear();
        match turned {
            Ok(turned) => Ok(self.noted(turned, undone)),
            Err(fault) => Err(fault),
        }
    }

    /// Puts the messages into the order of time where one comes too late, those of a time as they came, so that the block goes back
    /// once at most. Where a growth is refused they stand in some order, and it goes back more often.
    fn put_in_order(&mut self)
        ensures block { self.new.block ≡ self.old.block }
    {
        if least_time(self.messages.as_slice()) < self.block.mark() {
            let _ = self.messages.sort_by_key(|message| message.time);
        }
    }

    /// A window for a turn at a floor, where it is known when something is left first.
    fn window(&self, start: Option<u64>, floor: u64, reach: Option<Reach>, most: u32) -> u32
        requires { IsLeast (IsPending self.now.block.seen self.now.messages.items) start }
        ensures { Fits self.now.block.seen self.now.messages.items floor most result }
    {
        self.density.window(start, floor, reach, most)
    }

    /// Notes how the event times of a turn lay, before which so many had been taken back, and answers the turn with about how many changes
    /// were made at them, and how many it took back.
    fn noted(&mut self, turned: Turned, undone: u64) -> Turned
        ensures block { self.new.block ≡ self.old.block }
        ensures messages { self.new.messages.items ≡ self.old.messages.items }
        ensures report { result.report ≡ turned.report }
    {
        if turned.finished == 0 && turned.fallen == 0 {
            self.density = self.density.after_rest(turned.risen);
            return turned;
        }
        let before = self.made;
        self.made = self.block.made();
        let changes = self.made.saturating_sub(before);
        self.density = self.density.after(turned.finished, turned.risen, changes);
        Turned {
            changes,
            undone: self.counts.undone.saturating_sub(undone),
            ..turned
        }
    }
}

/// A turn of a block, where it is known when something is left first. It is short where there is nothing to receive and to
/// finish.
fn turn_from<L: Logs>(
    block: &mut Block<L>,
    counts: &mut Counts,
    start: Option<u64>,
    messages: &[Message],
    floor: u64,
    window: u32,
    out: &mut Vec<Message>,
) -> Result<Turned, BlockFault>
    requires start { IsLeast (IsPending block.old.seen messages.now) start }
    requires counted { IsCounted block.old.seen counts.old }
    ensures counted { IsCounted block.new.seen counts.new }
    ensures turn { OnOk result (IsTurn block.old block.new messages.now floor window) }
    ensures least { IfOk result (λ turned. IsLeastPending block.new.seen (put_behind out.old.items out.new.items) turned.report.least) }
    ensures fault { IfErr result (IsFaultyTurn block.old block.new messages.now floor window) }
    ensures sends { Sends block.old.seen block.new.seen (IsAfterPending block.old.seen messages.now) out.old.items out.new.items }
{
    if window == 0 && messages.is_empty() {
        return rest(block, counts, start, messages, floor, window);
    }
    turn_through(block, counts, messages, floor, window, out)
}

/// A turn of a block that receives and finishes nothing, where its next time is known: it commits at the floor.
fn rest<L: Logs>(
    block: &mut Block<L>,
    counts: &mut Counts,
    next: Option<u64>,
    messages: &[Message],
    floor: u64,
    window: u32,
) -> Result<Turned, BlockFault>
    requires none { length messages.now ≡ 0 }
    requires short { window ≡ 0 }
    requires next { IsLeast (IsPending block.old.seen messages.now) next }
    requires counted { IsCounted block.old.seen counts.old }
    ensures counted { IsCounted block.new.seen counts.new }
    ensures turn { OnOk result (IsTurn block.old block.new messages.now floor window) }
    ensures least { IfOk result (λ turned. (out : List Message) → IsLeastPending block.new.seen (put_behind out out) turned.report.least) }
    ensures fault { IfErr result (IsFaultyTurn block.old block.new messages.now floor window) }
    ensures sends { (out : List Message) → Sends block.old.seen block.new.seen (IsAfterPending block.old.seen messages.now) out out }
{
    let mark = block.mark();
    counts::commit(block, counts, floor)?;
    counts.end_turn(0, 0);
    Ok(Turned {
        report: TurnReport {
            least: next.unwrap_or(block.horizon() + 1),
        },
        fallen: 0,
        risen: block.mark().saturating_sub(mark),
        finished: 0,
        changes: 0,
        undone: 0,
        next,
    })
}

/// The least time of some messages; the greatest u64 of none.
fn least_time(messages: &[Message]) -> u64 {
    let mut least = u64::MAX;
    for message in messages {
        least = least.min(message.time);
    }
    least
}

impl<L: Logs> Site<L> {
    /// The block behind its lock, and no message in the inbox. It takes no memory: what the inbox grows by is asked of the
    /// allocator later.
    pub fn new(alloc: Global, block: Block<L>) -> Site<L> {
        Site::told_by(alloc, block, Vec::new(alloc), 0)
    }

    /// The same, where it is known who tells the block, and that it has sent so many messages.
    pub(crate) fn told_by(
        alloc: Global,
        block: Block<L>,
        tellers: Vec<Teller>,
        messages: usize,
    ) -> Site<L> {
        let mut counts = Counts::of(&block);
        counts.tell(messages);
        Site {
            held: Mutex::new(Held {
                block,
                counts,
                density: Density::full(),
                made: 0,
                messages: Vec::new(alloc),
            }),
            inbox: Mutex::new(Vec::new(alloc)),
            signs: Signs::at_start(),
            tellers,
        }
    }

    /// Up to when nothing will be taken back that the block was told, by what its tellers say at a floor. A message
    /// below it lies in the inbox by then.
    pub(crate) fn sure(&self, sites: &[Site<L>], floor: u64) -> u64 {
        let mut sure = u64::MAX;
        for teller in &self.tellers {
            if let Some(site) = sites.get(teller.block as usize) {
                let settled = site.signs.settled().max(floor);
                sure = sure.min(settled.saturating_add(u64::from(teller.delay)));
            }
        }
        sure
    }

    /// Whether the block has something to do before a time, or before its tellers may take something back, and nobody visits it.
    pub(crate) fn has_work(&self, sites: &[Site<L>], floor: u64, until: u64) -> bool {
        let first = self.signs.first();
        !self.signs.is_visited() && (first < until || self.is_sure(sites, floor, first))
    }

    /// Whether nothing will be taken back up to a time, and at it, that the block was told.
    fn is_sure(&self, sites: &[Site<L>], floor: u64, time: u64) -> bool {
        for teller in &self.tellers {
            if let Some(site) = sites.get(teller.block as usize) {
                let settled = site.signs.settled().max(floor);
                if settled.saturating_add(u64::from(teller.delay)) <= time {
                    return false;
                }
            }
        }
        time < u64::MAX
    }

    /// Says of a block that has nothing to do yet, if nobody visits it, up to when nothing will be taken back that it tells.
    pub(crate) fn stays(&self, sites: &[Site<L>], floor: u64) {
        let sure = self.sure(sites, floor);
        let first = self.signs.first();
        if !self.signs.is_visited() {
            self.signs.settle(first.min(sure));
        }
    }

    /// What others see of it.
    pub(crate) fn signs(&self) -> &Signs {
        &self.signs
    }

    /// Puts a message into the inbox: it is in flight until a visit takes it. The error is a refused growth; after it
    /// the inbox is as before.
    pub fn put<R: Wait>(&self, rt: &R, message: Message) -> Result<(), AllocError> {
        self.inbox.lock(rt).push(message)?;
        self.signs.has_come(message.time);
        Ok(())
    }

    /// Puts some messages into the inbox, all or, where a growth is refused, none.
    pub(crate) fn put_all<R: Wait>(&self, rt: &R, messages: &[Message]) -> Result<(), AllocError> {
        self.inbox.lock(rt).extend_from_slice(messages)?;
        self.signs.has_come(least_time(messages));
        Ok(())
    }

    /// A turn of the block with what the inbox holds, at a floor, under one hold of the block's lock. The gate is lent the
    /// block before it and after it. What is sent goes behind `out`.
    ///
    /// The turn finishes up to `window` event times, and one at least, if the window isn't 0 and one is left at the floor.
    ///
    /// After a fault the messages that were taken out of the inbox are gone, and what the turn did before stands.
    pub fn visit<R: Wait, G: Gate<L>>(
        &self,
        rt: &R,
        floor: u64,
        window: u32,
        gate: &G,
        out: &mut Vec<Message>,
    ) -> Result<TurnReport, BlockFault>
        ensures front { StaysInFront out.old.items out.new.items }
        ensures visit { IfOk result (λ report. IsVisit floor window out.old.items out.new.items report.least) }
        ensures fault { IfErr result (IsFaultyVisit floor window out.old.items out.new.items) }
    {
        let mut held = self.hold(rt);
        let turned = self.visit_held(rt, &mut *held, floor, window, None, gate, out)?;
        self.signs.ends(turned.next);
        Ok(turned.report)
    }

    /// Takes the block's lock, for a visit.
    pub(crate) fn hold<R: Wait>(&self, rt: &R) -> MutexGuard<'_, Held<L>> {
        self.held.lock(rt)
    }

    /// A visit under the block's lock, whose turn, where a reach is given, goes about as far as that; with what it did beside what it
    /// reports. Who has delivered what it sent says that it ends.
    pub(crate) fn visit_held<R: Wait, G: Gate<L>>(
        &self,
        rt: &R,
        held: &mut Held<L>,
        floor: u64,
        window: u32,
        reach: Option<Reach>,
        gate: &G,
        out: &mut Vec<Message>,
    ) -> Result<Turned, BlockFault>
        ensures front { StaysInFront out.old.items out.new.items }
        ensures visit { IfOk result (λ turned. IsVisit floor window out.old.items out.new.items turned.report.least) }
        ensures fault { IfErr result (IsFaultyVisit floor window out.old.items out.new.items) }
    {
        gate.entered(&held.block);
        self.signs.begins();
        mem::swap(&mut held.messages, &mut *self.inbox.lock(rt));
        held.put_in_order();
        let turned = held.turn(floor, window, reach, out);
        gate.leaving(&held.block);
        turned
    }

    /// The block. What the inbox holds is dropped.
    pub fn into_block(self) -> Block<L>
        ensures { IsLawfulProcess result }
    {
        self.finished().block
    }

    /// The block, and what is counted of its turns.
    pub(crate) fn finished(self) -> Finished<L>
        ensures lawful { IsLawfulProcess result.block }
        ensures counted { IsCounted result.block.seen result.counts }
    {
        let Site {
            held,
            inbox: _,
            signs: _,
            tellers: _,
        } = self;
        let Held {
            block,
            counts,
            density: _,
            made: _,
            messages: _,
        } = held.into_inner();
        block.law();
        Finished { block, counts }
    }
}

impl Site {
    /// What the block holds, its saved states and the inbox aside. The error is a refused growth.
    pub fn look<R: Wait>(&self, rt: &R) -> Result<Look, AllocError>
        ensures { IfOk result (λ look. IsLawful look) }
    {
        let guard = self.held.lock(rt);
        let look = guard.block.look()?;
        look.law();
        Ok(look)
    }
}
