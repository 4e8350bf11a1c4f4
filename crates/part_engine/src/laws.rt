//! Laws of what an engine of a part has played.
ghost use Rattle.std.specs.Prelude.{◌≡◌, ◌<◌, ◌≤◌, ℕ, suc};
ghost use Rattle.gate_values.specs.declared.logic.Logic.{Logic};
ghost use Rattle.warp_stores.specs.Lists.{AreLonger};
ghost use Rattle.warp_engine.specs.Runs.{Run, makings};
ghost use Rattle.warp_process.specs.View.{View, given_by};
ghost use Rattle.warp_process.specs.Heard.{IsReceived};
ghost use Rattle.warp_process.specs.Lawful.{IsLawful, IsSaved};
ghost use Rattle.warp_process.specs.Played.{played_view};
ghost use Rattle.part_engine.specs.Histories.{TellLogs};
ghost use Rattle.part_engine.specs.Runs.{IsEngineOf, IsRunOf, state_of};
ghost use Rattle.warp_part.specs.Portion.{Portion, IsPortion};

/// What an engine that has played what a block has received makes from a time on stands behind the block's logs up to that time, and what came
/// true up to the horizon is its logs; what it brings back of a moment is a lawful saved state.
pub fn runs_are_lawful()
    ensures lawful { (v : View) (mark : ℕ) → IsReceived v → IsLawful (played_view v mark) }
    ensures longer { (v : View) (run : Run) (floor time : ℕ) → IsEngineOf v floor run → floor ≤ time → time ≤ run.book.mark
        → AreLonger (makings time run) (played_view v time).logs (played_view v run.book.mark).logs }
    ensures told { (v : View) (run : Run) (floor : ℕ) → IsEngineOf v floor run → run.book.mark ≡ suc v.horizon → TellLogs (played_view v run.book.mark) run.book.history }
    ensures states { (v : View) (run : Run) (floor mark : ℕ) → IsEngineOf v floor run → floor ≤ mark → mark ≤ run.book.mark → IsSaved v (state_of run.book mark) }
{}

/// What is given from an engine's mark on doesn't matter to what it has played.
pub fn runs_go_on()
    ensures { (p : Portion) → IsPortion p → (given given' : ℕ → ℕ → Logic) (horizon floor : ℕ) (run : Run) → IsRunOf p given horizon floor run
        → ((t n : ℕ) → t < run.book.mark → given t n ≡ given' t n) → IsRunOf p given' horizon floor run }
{}
