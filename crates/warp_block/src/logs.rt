//! The logs that a block keeps: for each net of its part, or for some, the list of the net's changes.
ghost use Rattle.std.specs.Prelude.{◌≡◌, ◌<◌, ◌++◌, ◌∷◌, [], ℕ, List, true, if◌then◌else◌, IfOk, OnOk, OnErr, length, map, get_or};
ghost use Rattle.std.specs.List.{All, filter, list_any};
ghost use Rattle.gate_values.specs.declared.logic.Change.{Change};
ghost use Rattle.gate_values.specs.Behaviour.{initial_of};
ghost use Rattle.warp_stores.specs.declared.stop.TheConstants.{TIMES};
ghost use Rattle.warp_stores.specs.Lists.{AreLonger};
ghost use Rattle.warp_block.specs.Reads.{is_read, HaveRead};
ghost use Rattle.warp_block.specs.Inner.Reads.{AreReadLonger};
ghost use Rattle.warp_part.specs.Portion.{Portion, source_of};
ghost use Rattle.warp_process.specs.Opening.{initial_log};

use gate_values::Change;
use part_engine::first_words;
use std::alloc::{AllocError, Global};
use warp_part::Part;
use warp_stores::{Batch, Lists, Word};

/// Lists of the changes of a part's nets, which a block keeps as it plays: of all nets, or of those alone that other blocks read.
pub trait Logs: Drop {
    /// They say of nets of a part what some logs do, as far as they are kept.
    ghost keep: { Self → Portion → List (List Change) → Type 0 };

    /// The logs of a part that has played nothing: of flip-flops what they begin with, where that is known. An error is a refused growth.
    fn first(alloc: Global, part: &Part) -> Result<Self, AllocError>
        ensures { IfOk result (λ logs. keep logs part.now (map (λ n. initial_log (initial_of (source_of part.now n))) part.now.nets)) };

    /// Puts what a batch tells behind them, which then are as far as a mark. An error is a refused growth; then nothing is put.
    fn lengthen(
        &mut self,
        part: &Part,
        batch: &Batch<Word>,
        mark: u64,
        horizon: u64,
    ) -> Result<(), AllocError>
        requires kept { (logs : List (List Change)) × (length logs ≡ length part.now.nets) × keep self.old part.now logs }
        requires there { All (λ d. d.1.place < length part.now.nets) batch.now }
        requires times { All (λ d. d.0 < TIMES) batch.now }
        ensures ok { OnOk result ((logs more : List (List Change)) → length logs ≡ length part.now.nets → keep self.old part.now logs → AreLonger batch.now logs more → keep self.new part.now more) }
        ensures err { OnErr result ((logs : List (List Change)) → keep self.old part.now logs → keep self.new part.now logs) };

    /// Takes back what a batch tells, which stands behind them.
    fn shorten(&mut self, part: &Part, batch: &Batch<Word>)
        requires kept { (logs : List (List Change)) × (length logs ≡ length part.now.nets) × keep self.old part.now logs }
        requires there { All (λ d. d.1.place < length part.now.nets) batch.now }
        ensures { (less logs : List (List Change)) → length less ≡ length part.now.nets → keep self.old part.now logs → AreLonger batch.now less logs → keep self.new part.now less };

    /// The log of a place that other blocks read.
    fn of_read(&self, part: &Part, place: usize) -> &[Change]
        requires kept { (logs : List (List Change)) × (length logs ≡ length part.now.nets) × keep self.now part.now logs }
        requires read { is_read part.now place ≡ true }
        requires there { place < length part.now.nets }
        ensures { (logs : List (List Change)) → keep self.now part.now logs → result.now ≡ get_or logs place [] };
}

/// The logs of all nets.
#[derive(Debug, Drop)]
pub struct AllLogs {
    pub(crate) lists: Lists,
}

impl Logs for AllLogs {
    ghost keep = { λ kept _ logs. kept.lists ≡ logs };

    fn first(alloc: Global, part: &Part) -> Result<AllLogs, AllocError> {
        let lists = first_logs(alloc, part)?;
        Ok(AllLogs { lists })
    }

    fn lengthen(
        &mut self,
        _part: &Part,
        batch: &Batch<Word>,
        mark: u64,
        horizon: u64,
    ) -> Result<(), AllocError> {
        log_more(&mut self.lists, batch, mark, horizon)
    }

    fn shorten(&mut self, _part: &Part, batch: &Batch<Word>) {
        self.lists.shorten(batch.words())
    }

    fn of_read(&self, _part: &Part, place: usize) -> &[Change] {
        self.lists.changes(place)
    }
}

/// The logs of those nets alone that other blocks read. The batch is a place to work in.
#[derive(Debug, Drop)]
pub struct ReadLogs {
    alloc: Global,
    lists: Lists,
    read: Batch<Word>,
}

impl Logs for ReadLogs {
    ghost keep = { λ kept part logs. HaveRead part logs kept.lists };

    fn first(alloc: Global, part: &Part) -> Result<ReadLogs, AllocError> {
        let lists = first_logs(alloc, part)?;
        let read = Batch::new(alloc);
        Ok(ReadLogs { alloc, lists, read })
    }

    fn lengthen(
        &mut self,
        part: &Part,
        batch: &Batch<Word>,
        mark: u64,
        horizon: u64,
    ) -> Result<(), AllocError> {
        log_read(
            self.alloc,
            part,
            batch,
            &mut self.read,
            &mut self.lists,
            mark,
            horizon,
        )
    }

    fn shorten(&mut self, part: &Part, batch: &Batch<Word>) {
        part.law();
        self.lists.shorten(batch.words());
    }

    fn of_read(&self, _part: &Part, place: usize) -> &[Change] {
        self.lists.changes(place)
    }
}

/// The logs of a part that has played nothing: of flip-flops what they begin with, where that is known. An error is a refused growth.
fn first_logs(alloc: Global, part: &Part) -> Result<Lists, AllocError>
    ensures { IfOk result (λ lists. lists ≡ map (λ n. initial_log (initial_of (source_of part.now n))) part.now.nets) }
{
    part.law();
    let mut words = Vec::new(alloc);
    first_words(part, &mut words)?;
    let mut lists = Lists::new(alloc, part.len())?;
    lists.append(0, words.as_slice())?;
    Ok(lists)
}

/// Puts what a batch tells behind the logs, which then are as far as a mark. An error is a refused growth; then nothing is put.
fn log_more(
    lists: &mut Lists,
    batch: &Batch<Word>,
    mark: u64,
    horizon: u64,
) -> Result<(), AllocError>
    requires { All (λ d. d.1.place < length lists.old) batch.now }
    ensures ok { OnOk result (AreLonger batch.now lists.old lists.new) }
    ensures err { OnErr result (lists.new ≡ lists.old) }
{
    lists.make_room(batch, mark, horizon);
    lists.append_batch(batch)
}

/// Puts what a batch tells of places that other blocks read behind their lists. An error is a refused growth; then nothing is put. The other
/// batch is a place to work in.
fn log_read(
    alloc: Global,
    part: &Part,
    batch: &Batch<Word>,
    read: &mut Batch<Word>,
    lists: &mut Lists,
    mark: u64,
    horizon: u64,
) -> Result<(), AllocError>
    requires there { All (λ d. d.1.place < length part.now.nets) batch.now }
    requires times { All (λ d. d.0 < TIMES) batch.now }
    requires many { length lists.old ≡ length part.now.nets }
    ensures ok { OnOk result (AreReadLonger part.now batch.now lists.old lists.new) }
    ensures err { OnErr result (lists.new ≡ lists.old) }
{
    part.law();
    if !have_readers(part, batch.words()) {
        return Ok(());
    }
    select_read(alloc, part, batch, read)?;
    log_more(lists, read, mark, horizon)
}

/// Whether another block reads one of the places of some words.
fn have_readers(part: &Part, words: &[Word]) -> bool
    requires { All (λ w. w.place < length part.now.nets) words.now }
    ensures { result ≡ list_any (λ w. is_read part.now w.place) words.now }
{
    for word in words {
        if has_readers(part, *word) {
            return true;
        }
    }
    false
}

/// Whether another block reads the place of a word.
fn has_readers(part: &Part, word: Word) -> bool
    requires { word.place < length part.now.nets }
    ensures { result ≡ is_read part.now word.place }
{
    !part.readers(word.place() as usize).is_empty()
}

/// Puts those words of a batch into another, in place of what it had, whose places other blocks read. An error is a refused growth.
fn select_read(
    alloc: Global,
    part: &Part,
    batch: &Batch<Word>,
    read: &mut Batch<Word>,
) -> Result<(), AllocError>
    requires there { All (λ d. d.1.place < length part.now.nets) batch.now }
    requires times { All (λ d. d.0 < TIMES) batch.now }
    ensures { OnOk result (read.new ≡ filter (λ d. is_read part.now d.1.place) batch.now) }
{
    read.clear();
    let words = batch.list(alloc)?;
    push_all(part, words.as_slice(), read)
}

/// Puts those of some words behind a batch whose places other blocks read. An error is a refused growth.
fn push_all(part: &Part, words: &[(u64, Word)], read: &mut Batch<Word>) -> Result<(), AllocError>
    requires there { All (λ d. d.1.place < length part.now.nets) words.now }
    requires times { All (λ d. d.0 < TIMES) words.now }
    ensures { OnOk result (read.new ≡ read.old ++ filter (λ d. is_read part.now d.1.place) words.now) }
{
    for (time, word) in words {
        push_read(part, *time, *word, read)?;
    }
    Ok(())
}

/// Puts a word behind a batch, if another block reads its place. An error is a refused growth.
fn push_read(part: &Part, time: u64, word: Word, read: &mut Batch<Word>) -> Result<(), AllocError>
    requires there { word.place < length part.now.nets }
    requires time { time < TIMES }
    ensures { OnOk result (read.new ≡ read.old ++ (if is_read part.now word.place then (time, word) ∷ [] else [])) }
{
    if has_readers(part, word) {
        return read.append_all(time, &[word]);
    }
    Ok(())
}
