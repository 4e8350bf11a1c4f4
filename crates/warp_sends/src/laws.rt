//! What is told is the difference of the logs.
ghost use Rattle.std.specs.Prelude.{◌≡◌, ◌≤◌, List};
ghost use Rattle.std.specs.List.{All};
ghost use Rattle.warp_stores.specs.Words.{Move};
ghost use Rattle.warp_stores.specs.Dated.{Dated};
ghost use Rattle.warp_stores.specs.Lists.{AreLonger};
ghost use Rattle.warp_process.specs.declared.message.Message.{Message};
ghost use Rattle.warp_process.specs.declared.message.Sign.TheVariants.{Plus, Minus};
ghost use Rattle.warp_process.specs.Lawful.{IsLawful};
ghost use Rattle.warp_process.specs.Sends.{SendsOnce};
ghost use Rattle.warp_process.specs.View.{View};
ghost use Rattle.warp_sends.specs.Told.{AreTold, IsTimeOf};

/// Where words stand behind a block's logs, the messages on them are what is sent, each at the time of one of them.
pub fn tells_what_is_longer()
    ensures { (old new : View) (words : List (Dated Move)) (before out : List Message) → IsLawful new → new.part ≡ old.part → new.horizon ≡ old.horizon
        → AreLonger words old.logs new.logs → All (λ d. d.0 ≤ old.horizon) words → AreTold Plus old.part words before out → SendsOnce old new Plus (IsTimeOf words) before out }
{}

/// Where words stood behind a block's logs, the antimessages on them are what is sent, each at the time of one of them.
pub fn takes_back_what_is_shorter()
    ensures { (old new : View) (words : List (Dated Move)) (before out : List Message) → IsLawful old → new.part ≡ old.part → new.horizon ≡ old.horizon
        → AreLonger words new.logs old.logs → All (λ d. d.0 ≤ old.horizon) words → AreTold Minus old.part words before out → SendsOnce old new Minus (IsTimeOf words) before out }
{}
