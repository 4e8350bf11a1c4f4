//! A journal up to a horizon.
ghost use Rattle.std.specs.Prelude.{◌≡◌, ◌≤◌, ◌<◌, ◌++◌, IfOk, OnOk, OnErr, length};
ghost use Rattle.std.specs.List.{All};
ghost use Rattle.warp_stores.specs.Delays.{least_due};
ghost use Rattle.warp_gates.specs.Cells.{IsCell, AreGates, value_at};
ghost use Rattle.warp_engine.specs.Opening.{IsOpened};
ghost use Rattle.warp_engine.specs.Runs.{MayRun, HasRun, HasRested, makings, MayReturn, HasReturned, HasDropped};

use gate_values::Logic;
use std::alloc::{AllocError, Global};
use std::marker::Model;
use warp_gates::Wiring;
use warp_journal::Journal;
use warp_stores::{Batch, PLACES, Steps, TIMES, Word};

/// Places that are played up to a mark. What they make counts up to a horizon.
#[derive(Debug, Drop)]
pub struct Engine {
    journal: Journal,
    horizon: u64,
}

impl Model for Engine {
    ghost use Rattle.std.specs.Prelude.{◌<◌};
    ghost use Rattle.warp_stores.specs.declared.stop.TheConstants.{TIMES};
    ghost use Rattle.warp_engine.specs.Runs.{Run};

    ghost Value = { Run };

    ghost view = { λ e. record { book = e.journal; horizon = e.horizon } };

    ghost invariant = { λ e. e.horizon < TIMES };
}

impl Engine {
    /// Places that have played nothing. Each place puts out into the queue of its number; those of places that gates read stand first. An
    /// error is a refused growth.
    pub fn new(
        alloc: Global,
        wiring: Wiring,
        numbers: &[u32],
        read: &[u32],
        unread: &[u32],
        contents: &[Logic],
        horizon: u64,
    ) -> Result<Engine, AllocError>
        requires few { length wiring ≤ PLACES }
        requires cells { All (IsCell (length wiring)) wiring }
        requires numbers { length numbers.now ≡ length wiring }
        requires read { length read.now ≤ PLACES }
        requires unread { length unread.now ≤ PLACES }
        requires contents { length contents.now ≡ length wiring }
        requires horizon { horizon < TIMES }
        ensures { IfOk result (λ engine. IsOpened wiring numbers.now read.now unread.now contents.now horizon engine) }
    {
        let journal = Journal::new(alloc, wiring, numbers, read, unread, contents)?;
        Ok(Engine { journal, horizon })
    }

    /// What is true of the gates of every engine. It does nothing.
    pub fn law(&self)
        ensures { AreGates self.now.book.gates }
    {
        self.journal.law();
    }

    /// The first time that isn't played.
    pub fn mark(&self) -> u64
        ensures { result ≡ self.now.book.mark }
    {
        self.journal.mark()
    }

    /// The last time up to which changes count.
    pub fn horizon(&self) -> u64
        ensures { result ≡ self.now.horizon }
    {
        self.horizon
    }

    /// How many places there are.
    pub fn len(&self) -> usize
        ensures { result ≡ length self.now.book.gates.cells }
    {
        self.journal.len()
    }

    /// The value of a place just before the mark.
    pub fn value(&self, place: u32) -> Logic
        requires { place < length self.now.book.gates.cells }
        ensures { result ≡ value_at self.now.book.gates.values place }
    {
        self.journal.value(place)
    }

    /// The least time at which something comes true at a place that gates read, `NEVER` where nothing is to.
    pub fn next(&self) -> u64
        ensures { result ≡ least_due self.now.book.queues.read }
    {
        self.journal.next()
    }

    /// Gives away all that came true.
    pub fn into_history(self) -> Steps<Word>
        ensures { result ≡ self.book.history }
    {
        self.journal.into_history()
    }

    /// Plays a time, and all before it: at the time itself these words are brought from outside. An error is a
    /// refused growth; then no time more is played.
    pub fn play(&mut self, time: u64, outside: &[Word]) -> Result<(), AllocError>
        requires time { time < TIMES }
        requires may { MayRun time outside.now self.old }
        ensures ok { OnOk result (HasRun time outside.now self.old self.new) }
        ensures err { OnErr result (HasRested time outside.now self.old self.new) }
    {
        self.journal.advance(time, outside)
    }

    /// Puts what was made from a time on into a batch, in place of what it had. An error is a refused growth.
    pub fn tell_since(&self, time: u64, batch: &mut Batch<Word>) -> Result<(), AllocError>
        ensures { OnOk result (batch.new ≡ makings time self.now) }
    {
        batch.clear();
        self.journal.tell_since(time, self.horizon, batch)
    }

    /// Goes back to a time: what was played from then on is taken back. It takes no memory.
    pub fn go_back(&mut self, time: u64)
        requires { MayReturn time self.old }
        ensures { HasReturned time self.old self.new }
    {
        self.journal.roll_back(time);
    }

    /// Forgets what only a way back to times before one needs.
    pub fn forget_below(&mut self, time: u64)
        ensures { HasDropped time self.old self.new }
    {
        self.journal.forget_below(time);
    }
}
