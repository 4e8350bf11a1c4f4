//! What takes changes by time, as they come.
ghost use Rattle.std.specs.Prelude.{◌≡◌, ◌++◌, List, [], true, map, IfOk};
ghost use Rattle.net_waves.specs.declared.timeline.Stop.{Stop};
ghost use Rattle.net_waves.specs.ByTime.{stops_in};
ghost use Rattle.net_waves.specs.Timeline.{stop_by};
ghost use Rattle.std.proofs.Common.{sym, ap, ◌∙◌, append_assoc, append-nil};

use crate::by_time::ByTime;
use crate::timeline::NetMove;
use std::alloc::AllocError;

/// Takes changes by time, as they come.
pub trait Taker {
    /// Between two states just these changes were taken, in this order.
    ghost took: { Self → Self → List Stop → Type 0 };

    /// Takes the changes of a time behind all others, by nets that rise, where it can. Tells whether it did. An error is a refused growth.
    fn take_all(&mut self, time: u64, moves: &[NetMove]) -> Result<bool, AllocError>
        ensures { IfOk result (λ done. done ≡ true → took self.old self.new (map (stop_by time) moves.now)) };

    /// No changes were taken between a state and itself.
    ghost nothing: { (x : Self) → took x x [] };

    /// Some changes, and others behind them.
    ghost together: { (x y z : Self) (some others : List Stop) → took x y some → took y z others → took x z (some ++ others) };
}

impl Taker for ByTime {
    ghost took = { λ x y stops. stops_in y ≡ stops_in x ++ stops };

    ghost nothing = { λ x. sym (append-nil (stops_in x)) };

    ghost together = { λ x y z some others first then. then ∙ ap (λ (stops : List Stop). stops ++ others) first ∙ append_assoc (stops_in x) some others };

    fn take_all(&mut self, time: u64, moves: &[NetMove]) -> Result<bool, AllocError> {
        self.append_all(time, moves)
    }
}
