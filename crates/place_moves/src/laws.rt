//! Laws of what places do over time, and of a journal that plays them.
ghost use Rattle.std.specs.Prelude.{◌≡◌, ℕ, suc, ◌<◌, ◌≤◌, ◌+◌, ◌++◌, List, [], length};
ghost use Rattle.std.specs.List.{flat_map};
ghost use Rattle.gate_values.specs.declared.logic.Change.{Change};
ghost use Rattle.gate_values.specs.declared.logic.Logic.{Logic};
ghost use Rattle.gate_values.specs.declared.logic.Logic.TheVariants.{X};
ghost use Rattle.gate_values.specs.Behaviour.{Source, source_delay, value};
ghost use Rattle.gate_values.specs.Changes.{changes, before_time};
ghost use Rattle.warp_stores.specs.Words.{Move};
ghost use Rattle.warp_stores.specs.Dated.{undated};
ghost use Rattle.warp_stores.specs.Delays.{queue_at, least_due, told_since};
ghost use Rattle.warp_stores.specs.Lists.{changes_at};
ghost use Rattle.warp_gates.specs.Cells.{value_at};
ghost use Rattle.warp_gates.specs.declared.put.Put.{Put};
ghost use Rattle.place_moves.specs.Moves.{AreChained, delayed, last_after, made_before, moves, of_place, value_before};
ghost use Rattle.place_moves.specs.Journals.{Journal, IsPlayed, IsBegun, AreBrought, IsStep, step_words, IsBack, HasForgotten, marked, queue_of};

/// What a place's source makes comes true a delay after, and until then stands what it begins with.
pub fn comes_true()
    ensures later { (source : ℕ → Source) (given : ℕ → ℕ → Logic) (place time : ℕ) → 0 < source_delay (source place) → value_before source given place (time + source_delay (source place)) ≡ made_before source given place time }
    ensures first { (source : ℕ → Source) (given : ℕ → ℕ → Logic) (place time : ℕ) → 0 < time → time < source_delay (source place) + 1 → value_before source given place time ≡ made_before source given place 0 }
{}

/// Before its first step a journal has played nothing, whatever is given to places that are there.
pub fn begins()
    ensures { (source : ℕ → Source) (given : ℕ → ℕ → Logic) (journal : Journal) → IsBegun source journal
        → ((place time : ℕ) → length journal.gates.cells ≤ place → given time place ≡ X) → IsPlayed source given 0 journal }
{}

/// A step over what is due and what is brought from outside plays its time.
pub fn plays_on()
    ensures { (source : ℕ → Source) (given : ℕ → ℕ → Logic) (floor : ℕ) (old new : Journal) (outside : List Move) (sent : List Put)
        → IsPlayed source given floor old → AreBrought source given old.mark outside → IsStep old new (step_words old outside) sent → IsPlayed source given floor new }
{}

/// Times at which nothing is due and nothing is brought are played as they are passed.
pub fn stands_still()
    ensures { (source : ℕ → Source) (given : ℕ → ℕ → Logic) (floor time : ℕ) (journal : Journal)
        → IsPlayed source given floor journal → journal.mark ≤ time → time ≤ least_due journal.queues
        → ((t : ℕ) → journal.mark ≤ t → t < time → AreBrought source given t []) → IsPlayed source given floor (marked time journal) }
{}

/// Back at a time, what was played before it is played, and whatever else is given from then on.
pub fn goes_back()
    ensures back { (source : ℕ → Source) (given : ℕ → ℕ → Logic) (floor time : ℕ) (old new : Journal)
        → IsPlayed source given floor old → floor ≤ time → time ≤ old.mark → IsBack time old new → IsPlayed source given floor new }
    ensures anew { (source : ℕ → Source) (given given' : ℕ → ℕ → Logic) (floor : ℕ) (journal : Journal)
        → IsPlayed source given floor journal → ((time place : ℕ) → time < journal.mark → given time place ≡ given' time place)
        → ((place time : ℕ) → length journal.gates.cells ≤ place → given' time place ≡ X) → IsPlayed source given' floor journal }
{}

/// What came true before a time that was played may be forgotten in queues.
pub fn forgets()
    ensures { (source : ℕ → Source) (given : ℕ → ℕ → Logic) (floor time : ℕ) (old new : Journal)
        → IsPlayed source given floor old → floor ≤ time → time ≤ old.mark → HasForgotten time old new → IsPlayed source given time new }
{}

/// What came true of a place tells its value, word by word. With what is ahead of its queue it tells the place's moves to one
/// delay past the mark, and what queues tell from a time on makes the list of its changes longer to there.
pub fn tells_log()
    ensures chained { (source : ℕ → Source) (given : ℕ → ℕ → Logic) (floor : ℕ) (journal : Journal) → IsPlayed source given floor journal
        → (place : ℕ) → AreChained X (undated (of_place place journal.history)) }
    ensures last { (source : ℕ → Source) (given : ℕ → ℕ → Logic) (floor : ℕ) (journal : Journal) → IsPlayed source given floor journal
        → (place : ℕ) → last_after X (undated (of_place place journal.history)) ≡ value_at journal.gates.values place }
    ensures ahead { (source : ℕ → Source) (given : ℕ → ℕ → Logic) (floor : ℕ) (journal : Journal) → IsPlayed source given floor journal
        → (place : ℕ) → 0 < source_delay (source place) → 0 < journal.mark
        → moves place (value_before source given place) (journal.mark + source_delay (source place))
        ≡ of_place place journal.history ++ delayed (source_delay (source place)) (of_place place (queue_at journal.queues (queue_of journal.gates place)).line.ahead) }
    ensures more { (source : ℕ → Source) (given : ℕ → ℕ → Logic) (floor : ℕ) (journal : Journal) → IsPlayed source given floor journal
        → (place time horizon : ℕ) → floor ≤ time → time ≤ journal.mark → 0 < source_delay (source place)
        → before_time (journal.mark + source_delay (source place)) (changes (value source given place) (horizon + 1))
        ≡ before_time (time + source_delay (source place)) (changes (value source given place) (horizon + 1)) ++ changes_at place (flat_map (told_since time horizon) journal.queues) }
{}
