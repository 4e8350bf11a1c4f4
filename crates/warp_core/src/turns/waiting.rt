//! Which messages in flight are for which block.

ghost use Rattle.std.specs.Prelude.{◌≡◌, ◌≢◌, ◌<◌, ◌≤◌, ℕ, IfOk, OnOk, [], take, length};
ghost use Rattle.std.specs.List.{All};
ghost use Rattle.warp_core.specs.Inner.Turns.{places_for, place_in};
ghost use Rattle.warp_core.specs.Inner.Waiting.{listed_for, IsListed};

use std::alloc::{AllocError, Global};
use warp_block::Message;

/// For each block the places of the messages for it, in order, among those that are listed.
#[derive(Drop)]
pub(crate) struct Waiting {
    pub(crate) lists: Vec<Vec<usize>>,
    pub(crate) listed: usize,
}

impl Waiting {
    /// For so many blocks; nothing is listed.
    pub(crate) fn new(alloc: Global, blocks: u32) -> Result<Waiting, AllocError>
        ensures { IfOk result (λ waiting. (heard : ℕ → ℕ) → IsListed blocks waiting heard []) }
    {
        let mut lists = Vec::with_capacity(alloc, blocks as usize)?;
        for _ in 0..blocks {
            lists.push(Vec::new(alloc))?;
        }
        Ok(Waiting { lists, listed: 0 })
    }

    /// Lists the messages that stand behind those that are listed.
    pub(crate) fn list(&mut self, flight: &[Message], heard: &[usize]) -> Result<(), AllocError>
        requires listed { IsListed (length heard.now) self.old (place_in heard.now) (take self.old.listed flight.now) }
        requires within { self.old.listed ≤ length flight.now }
        requires blocks { All (λ m. m.block < length heard.now) flight.now }
        requires heard { (b : ℕ) → place_in heard.now b ≤ self.old.listed }
        ensures { OnOk result (IsListed (length heard.now) self.new (place_in heard.now) flight.now) }
    {
        let _ = heard;
        for place in self.listed..flight.len() {
            let block = flight[place].block as usize;
            self.lists[block].push(place)?;
            self.listed = place + 1;
        }
        Ok(())
    }

    /// The places of the messages for a block that are listed.
    pub(crate) fn places(&self, block: u32) -> &[usize]
        requires { block < length self.now.lists.items }
        ensures { result.now ≡ listed_for self.now block }
    {
        self.lists[block as usize].as_slice()
    }

    /// Of a block none is listed any more.
    pub(crate) fn forget(&mut self, block: u32)
        requires { block < length self.old.lists.items }
        ensures count { length self.new.lists.items ≡ length self.old.lists.items }
        ensures size { self.new.listed ≡ self.old.listed }
        ensures none { listed_for self.new block ≡ [] }
        ensures others { (b : ℕ) → b ≢ block → listed_for self.new b ≡ listed_for self.old b }
    {
        self.lists[block as usize].clear();
    }
}
