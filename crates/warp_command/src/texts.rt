//! Where texts come from.
ghost use Rattle.std.specs.Prelude.{ℕ, List, Bool, Result, Vec, is_err};
ghost use Rattle.std.specs.declared.alloc.Global.{Global};
ghost use Rattle.warp_command.specs.declared.texts.FetchFault.{FetchFault};

use crate::channel::Unwritten;
use std::alloc::Global;
use thiserror::Error;

/// Why a text can't be had.
#[derive(Clone, Copy, Debug, PartialEq, Eq, Error)]
pub enum FetchFault {
    #[error("unreadable")]
    Unreadable,
    #[error("memory")]
    Memory,
}

/// Where texts come from, by name, and where some go.
pub trait Texts {
    /// What a call may answer for a name, and what it leaves for later calls.
    ghost gives: { Self → List ℕ → Result (Vec ℕ Global) FetchFault → Self → Type 0 } = { λ _ _ _ _. Unit {0} };

    /// The text of this name.
    fn fetch(&mut self, alloc: Global, name: &str) -> Result<Vec<u8>, FetchFault>
        ensures { gives self.old name.now result self.new };

    /// What a call may answer that is to keep a text under a name, whether it failed, and what it leaves for later calls.
    ghost keeps: { Self → List ℕ → List ℕ → Bool → Self → Type 0 } = { λ _ _ _ _ _. Unit {0} };

    /// Keeps a text under this name, in place of what was there.
    fn keep(&mut self, name: &str, text: &[u8]) -> Result<(), Unwritten>
        ensures { keeps self.old name.now text.now (is_err result) self.new };

    /// Tells beside all answers that a run has come to a time, of how far it goes. Nobody may hear it.
    fn come_to(&self, time: u64, until: u64);

    /// Tells that it has come to an end.
    fn arrive(&self);
}
