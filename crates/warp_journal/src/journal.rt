//! A journal of a block's gates.
ghost use Rattle.std.specs.Prelude.{◌≡◌, ◌≤◌, ◌<◌, ◌++◌, [], IfOk, OnOk, OnErr, length};
ghost use Rattle.std.specs.List.{All, flat_map};
ghost use Rattle.warp_stores.specs.Dated.{since, undated};
ghost use Rattle.warp_stores.specs.Delays.{least_due, told_since};
ghost use Rattle.warp_gates.specs.Cells.{IsCell, AreGates, value_at};
ghost use Rattle.warp_journal.specs.Books.{all_of, IsNew, MayPlay, HasPlayed, HasStayed, MayGoBack, HasGoneBack, HasLostBelow};
ghost use Rattle.warp_journal.specs.Inner.Playing.{MayPass, HasPassed, HasPlayedSome, IsDueFrom};

use crate::queues::Queues;
use crate::stepping::{book_step, restore_all, take_back, take_words};
use gate_values::Logic;
use std::alloc::{AllocError, Global};
use std::marker::Model;
use warp_gates::{Gates, Put, Wiring};
use warp_stores::{Batch, Order, PLACES, Steps, TIMES, Word};

/// Gates as they stand just before a time, the mark, with queues of what they put out and all that came true.
#[derive(Debug, Drop)]
pub struct Journal {
    mark: u64,
    gates: Gates,
    queues: Queues,
    history: Steps<Word>,
    // places to work in
    order: Order,
    words: Vec<Word>,
    puts: Vec<Put>,
}

impl Model for Journal {
    ghost use Rattle.warp_journal.specs.Books.{Book};

    ghost Value = { Book };

    ghost view = { λ j. record { mark = j.mark; gates = j.gates; queues = j.queues; history = j.history } };
}

impl Journal {
    /// A journal of places, of which nothing is known but what flip-flops begin with. Each place puts out into the queue of
    /// its number; those of places that gates read stand first. An error is a refused growth.
    pub fn new(
        alloc: Global,
        wiring: Wiring,
        numbers: &[u32],
        read: &[u32],
        unread: &[u32],
        contents: &[Logic],
    ) -> Result<Journal, AllocError>
        requires few { length wiring ≤ PLACES }
        requires cells { All (IsCell (length wiring)) wiring }
        requires numbers { length numbers.now ≡ length wiring }
        requires read { length read.now ≤ PLACES }
        requires unread { length unread.now ≤ PLACES }
        requires contents { length contents.now ≡ length wiring }
        ensures { IfOk result (λ journal. IsNew wiring numbers.now read.now unread.now contents.now journal) }
    {
        let gates = Gates::new(alloc, wiring, numbers, contents)?;
        let queues = Queues::new(alloc, read, unread)?;
        Ok(Journal {
            mark: 0,
            gates,
            queues,
            history: Steps::new(alloc),
            order: Order::new(alloc),
            words: Vec::new(alloc),
            puts: Vec::new(alloc),
        })
    }

    /// What is true of the gates of every journal. It does nothing.
    pub fn law(&self)
        ensures { AreGates self.now.gates }
    {
        self.gates.law();
    }

    /// The first time that isn't played.
    pub fn mark(&self) -> u64
        ensures { result ≡ self.now.mark }
    {
        self.mark
    }

    /// How many places there are.
    pub fn len(&self) -> usize
        ensures { result ≡ length self.now.gates.cells }
    {
        self.gates.len()
    }

    /// The value of a place just before the mark.
    pub fn value(&self, place: u32) -> Logic
        requires { place < length self.now.gates.cells }
        ensures { result ≡ value_at self.now.gates.values place }
    {
        self.gates.value(place)
    }

    /// The least time at which something comes true at a place that gates read, `NEVER` where nothing is to.
    pub fn next(&self) -> u64
        ensures { result ≡ least_due self.now.queues.read }
    {
        self.queues.read.due()
    }

    /// What came true at a time and later.
    pub fn since(&self, time: u64) -> &[Word]
        ensures { result.now ≡ undated (since time self.now.history) }
    {
        self.history.since(time)
    }

    /// Puts what a time and later ones made behind a batch, at the times at which it comes true, up to a last time. An error
    /// is a refused growth; then the batch has no word.
    pub fn tell_since(
        &self,
        time: u64,
        last: u64,
        batch: &mut Batch<Word>,
    ) -> Result<(), AllocError>
        requires { last < TIMES }
        ensures ok { OnOk result (batch.new ≡ batch.old ++ flat_map (told_since time last) (all_of self.now.queues)) }
        ensures err { OnErr result (batch.new ≡ []) }
    {
        self.queues.tell_since(time, last, batch)
    }

    /// Plays a time, and all before it: what is due comes true, and at the time itself what is brought from outside. An
    /// error is a refused growth; then no time more is played.
    pub fn advance(&mut self, time: u64, outside: &[Word]) -> Result<(), AllocError>
        requires time { time < TIMES }
        requires may { MayPlay time outside.now self.old }
        ensures ok { OnOk result (HasPlayed time outside.now self.old self.new) }
        ensures err { OnErr result (HasStayed time outside.now self.old self.new) }
    {
        let mark = self.mark;
        match play(self, time, outside) {
            Ok(()) => Ok(()),
            Err(error) => {
                self.roll_back(mark);
                Err(error)
            }
        }
    }

    /// Goes back to a time that was played. It takes no memory.
    pub fn roll_back(&mut self, time: u64)
        requires { MayGoBack time self.old }
        ensures { HasGoneBack time self.old self.new }
    {
        self.gates.undo(self.history.since(time));
        self.gates.law();
        restore_all(&mut self.gates, &self.queues, time);
        self.gates.law();
        self.history.cut_from(time);
        self.queues.go_back(time);
        self.mark = time;
    }

    /// Forgets in queues what came true before a time. The history stays.
    pub fn forget_below(&mut self, time: u64)
        ensures { HasLostBelow time self.old self.new }
    {
        self.queues.forget_below(time);
    }

    /// Gives away all that came true.
    pub fn into_history(self) -> Steps<Word>
        ensures { result ≡ self.history }
    {
        self.history
    }

    /// The least time at which something comes true.
    fn due(&self) -> u64
        ensures { result ≡ least_due (all_of self.now.queues) }
    {
        self.queues.due()
    }

    /// Passes times at which nothing is due and nothing is brought.
    fn pass(&mut self, time: u64)
        requires may { MayPass time self.old }
        requires due { IsDueFrom time self.old }
        ensures passed { HasPassed time self.old self.new }
        ensures mark { self.new.mark ≡ time }
    {
        self.mark = time;
    }

    /// Plays the mark.
    fn step(&mut self, outside: &[Word]) -> Result<(), AllocError>
        requires time { self.old.mark < TIMES }
        requires may { MayPlay self.old.mark outside.now self.old }
        ensures ok { OnOk result (HasPlayed self.old.mark outside.now self.old self.new) }
        ensures err { OnErr result (HasStayed self.old.mark outside.now self.old self.new) }
    {
        take_words(
            &mut self.queues,
            self.mark,
            outside,
            &mut self.order,
            &mut self.words,
        )?;
        self.puts.clear();
        self.gates.law();
        match self.gates.step(self.words.as_slice(), &mut self.puts) {
            Ok(()) => {}
            Err(error) => {
                self.queues.put_back(self.mark);
                return Err(error);
            }
        }
        self.gates.law();
        let answer = book_step(
            &mut self.queues,
            &mut self.history,
            self.mark,
            self.words.as_slice(),
            self.puts.as_slice(),
        );
        match answer {
            Ok(()) => self.mark += 1,
            Err(_) => {
                take_back(&mut self.gates, self.words.as_slice(), self.puts.as_slice());
                self.gates.law();
                self.queues.go_back(self.mark);
            }
        }
        answer
    }
}

/// Plays what is due before a time.
fn play_due(journal: &mut Journal, time: u64) -> Result<(), AllocError>
    requires time { time < TIMES }
    requires may { MayPass time journal.old }
    ensures passed { HasPassed time journal.old journal.new }
    ensures due { OnOk result (IsDueFrom time journal.new) }
{
    let mut due = journal.due();
    while due < time {
        journal.pass(due);
        journal.step(&[])?;
        due = journal.due();
    }
    Ok(())
}

/// Plays a time, and all before it. An error is a refused growth; then some of it is played.
fn play(journal: &mut Journal, time: u64, outside: &[Word]) -> Result<(), AllocError>
    requires time { time < TIMES }
    requires may { MayPlay time outside.now journal.old }
    ensures ok { OnOk result (HasPlayed time outside.now journal.old journal.new) }
    ensures err { OnErr result (HasPlayedSome time outside.now journal.old journal.new) }
{
    play_due(journal, time)?;
    journal.pass(time);
    journal.step(outside)
}
