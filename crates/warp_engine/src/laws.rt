//! Laws of what has run.
ghost use Rattle.std.specs.Prelude.{◌≡◌, ◌<◌, ◌≤◌, ◌+◌, ◌++◌, ℕ, suc, List, length};
ghost use Rattle.gate_values.specs.declared.logic.Logic.{Logic};
ghost use Rattle.gate_values.specs.declared.logic.Logic.TheVariants.{X};
ghost use Rattle.gate_values.specs.Behaviour.{Source, before, source_delay};
ghost use Rattle.warp_stores.specs.declared.least.TheConstants.{NEVER};
ghost use Rattle.warp_stores.specs.Delays.{least_due};
ghost use Rattle.warp_stores.specs.Lists.{changes_at};
ghost use Rattle.warp_gates.specs.Cells.{Cell, AreGates, value_at};
ghost use Rattle.place_moves.specs.Journals.{IsPlayed};
ghost use Rattle.warp_journal.specs.Books.{Book, journal_of};
ghost use Rattle.warp_engine.specs.Runs.{Run, IsRun, Ran, makings, AreLater, AreMadeBy};
ghost use Rattle.warp_engine.specs.Logs.{log_up_to};
ghost use Rattle.warp_engine.specs.Opening.{IsOpened, DoSuit};
ghost use Rattle.warp_engine.specs.States.{values_before, contents_before};
ghost use Rattle.warp_engine.specs.Nexts.{AreParted, IsLeftAlone, IsStill, IsUsed};

/// An engine that was opened over cells and queues that suit sources has run them up to time 0, whatever is given to places
/// that are there.
pub fn has_opened()
    ensures { (source : ℕ → Source) (given : ℕ → ℕ → Logic) (wiring : List Cell) (numbering read unread : List ℕ) (contents : List Logic) (horizon : ℕ) (run : Run)
        → IsOpened wiring numbering read unread contents horizon run → AreGates run.book.gates → DoSuit source wiring numbering (read ++ unread) contents
        → ((place time : ℕ) → length wiring ≤ place → given time place ≡ X) → IsRun source given 0 run }
{}

/// With what came and was made since taken back, a journal shows the moment just before each time that it has played and
/// not forgotten.
pub fn shows_moments()
    ensures values { (source : ℕ → Source) (given : ℕ → ℕ → Logic) (floor time : ℕ) (book : Book) → IsPlayed source given floor (journal_of book) → floor ≤ time → time ≤ book.mark
        → (place : ℕ) → value_at (values_before time book) place ≡ (before source given time).value place }
    ensures contents { (source : ℕ → Source) (given : ℕ → ℕ → Logic) (floor time : ℕ) (book : Book) → IsPlayed source given floor (journal_of book) → floor ≤ time → time ≤ book.mark
        → (place : ℕ) → place < length book.gates.cells → value_at (contents_before time book) place ≡ (before source given time).content place }
    ensures many { (source : ℕ → Source) (given : ℕ → ℕ → Logic) (floor time : ℕ) (book : Book) → IsPlayed source given floor (journal_of book)
        → (length (values_before time book) ≡ length book.gates.cells) × (length (contents_before time book) ≡ length book.gates.cells) }
{}

/// From the mark on, the least time at which something comes true of the queues that are read is the first at which a place
/// moves that gates read, as long as nothing is brought to such places from outside.
pub fn moves_next()
    ensures quiet { (source : ℕ → Source) (given : ℕ → ℕ → Logic) (floor time : ℕ) (book : Book) → IsPlayed source given floor (journal_of book) → AreParted source book
        → IsLeftAlone source given book.gates.cells book.mark time → time ≤ least_due book.queues.read
        → (place t : ℕ) → IsUsed book.gates.cells place → book.mark ≤ t → t < time → IsStill source given place t }
    ensures moves { (source : ℕ → Source) (given : ℕ → ℕ → Logic) (floor : ℕ) (book : Book) → IsPlayed source given floor (journal_of book) → AreParted source book
        → least_due book.queues.read < NEVER → (place : ℕ) × IsUsed book.gates.cells place × (0 < source_delay (source place)) × (least_due book.queues.read < book.mark + source_delay (source place)) × (IsStill source given place (least_due book.queues.read) → ⊥) }
    ensures ahead { (source : ℕ → Source) (given : ℕ → ℕ → Logic) (floor : ℕ) (book : Book) → IsPlayed source given floor (journal_of book) → book.mark ≤ NEVER → book.mark ≤ least_due book.queues.read }
{}

/// The log of a place up to a mark, which has its changes as far as they were made before the mark, is that up to an earlier time and what was
/// made since. Where all up to the horizon is played, what came true of a place that a gate or a flip-flop sets is its log.
pub fn makings_lengthen_logs()
    ensures longer { (source : ℕ → Source) (given : ℕ → ℕ → Logic) (floor time : ℕ) (run : Run) → IsRun source given floor run → floor ≤ time → time ≤ run.book.mark
        → (place : ℕ) → log_up_to source given run.horizon run.book.mark place ≡ log_up_to source given run.horizon time place ++ changes_at place (makings time run) }
    ensures all { (source : ℕ → Source) (given : ℕ → ℕ → Logic) (floor : ℕ) (run : Run) → IsRun source given floor run → run.book.mark ≡ suc run.horizon
        → (place : ℕ) → 0 < source_delay (source place) → changes_at place run.book.history ≡ log_up_to source given run.horizon run.book.mark place }
{}

/// What is made from a step on comes true later, a delay after the step that made it, at places that are there.
pub fn makings_are_later()
    ensures later { (run : Run) (step : ℕ) → Ran run → AreLater step run (makings step run) }
    ensures made { (run : Run) (step : ℕ) (ran : Ran run) → AreMadeBy ran.source step run (makings step run) }
{}
