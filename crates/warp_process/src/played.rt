//! The law of a view that has played what it received.
ghost use Rattle.std.specs.Prelude.{ℕ};
ghost use Rattle.warp_process.specs.View.{View};
ghost use Rattle.warp_process.specs.Lawful.{IsLawful};
ghost use Rattle.warp_process.specs.Heard.{IsReceived};
ghost use Rattle.warp_process.specs.Played.{played_view};

/// What has received lawfully is lawful once it has played up to a mark.
pub fn received_is_lawful()
    ensures { (v : View) (mark : ℕ) → IsReceived v → IsLawful (played_view v mark) }
{}
