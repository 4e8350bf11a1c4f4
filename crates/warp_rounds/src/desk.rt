//! What a worker works with, and keeps from one block, and from one round, to the next.

ghost use Rattle.std.specs.Prelude.{◌≡◌, ◌≤◌, IfErr, OnOk, [], length, vec_len};
ghost use Rattle.warp_rounds.specs.Inner.Work.{AreThere, IsUndelivered};

use crate::fault::RunFault;
use crate::site::Site;
use std::alloc::{AllocError, Global};
use std::sync::Wait;
use warp_block::{BlockFault, Logs, Message};

/// Lists for messages, which keep their memory.
#[derive(Drop)]
pub struct Desk {
    alloc: Global,
    /// What is sent, in order.
    pub sent: Vec<Message>,
    /// What is sent to each block. All are empty but while something is delivered.
    sorted: Vec<Vec<Message>>,
}

impl Desk {
    /// Empty lists. It takes no memory.
    pub fn new(alloc: Global) -> Desk
        ensures { result.sent.items ≡ [] }
    {
        Desk {
            alloc,
            sent: Vec::new(alloc),
            sorted: Vec::new(alloc),
        }
    }

    /// Puts what is sent into the inboxes of the blocks that it is for, in its order for each block, and holds each
    /// inbox's lock once. After that nothing is left to be sent.
    ///
    /// A message for a block that isn't there is refused, as each other block would refuse it. Then nothing is put.
    pub fn deliver<L: Logs, R: Wait>(&mut self, rt: &R, sites: &[Site<L>]) -> Result<(), RunFault>
        ensures there { OnOk result (AreThere (length sites.now) self.old.sent.items) }
        ensures done { OnOk result (self.new.sent.items ≡ []) }
        ensures fault { IfErr result (IsUndelivered (length sites.now) self.old.sent.items) }
    {
        make_lists(self.alloc, &mut self.sorted, sites.len())?;
        sort_out(self.sent.as_slice(), sites.len(), &mut self.sorted)?;
        for message in &self.sent {
            put_list(rt, sites, message.block as usize, &mut self.sorted)?;
        }
        self.sent.clear();
        Ok(())
    }
}

// Makes at least so many lists of them.
fn make_lists(alloc: Global, lists: &mut Vec<Vec<Message>>, count: usize) -> Result<(), AllocError>
    ensures { OnOk result (count ≤ vec_len lists.new) }
{
    for _ in lists.len()..count {
        lists.push(Vec::new(alloc))?;
    }
    Ok(())
}

// Puts each message behind the list of its block, which is one of so many.
fn sort_out(
    messages: &[Message],
    blocks: usize,
    lists: &mut Vec<Vec<Message>>,
) -> Result<(), RunFault>
    requires { blocks ≤ vec_len lists.old }
    ensures there { OnOk result (AreThere blocks messages.now) }
    ensures fault { IfErr result (IsUndelivered blocks messages.now) }
{
    for message in messages {
        let block = message.block as usize;
        if block >= blocks {
            return Err(RunFault::Block(BlockFault::WrongNet));
        }
        lists[block].push(*message)?;
    }
    Ok(())
}

// Puts the list of a block into its inbox, and empties it.
fn put_list<L: Logs, R: Wait>(
    rt: &R,
    sites: &[Site<L>],
    block: usize,
    lists: &mut Vec<Vec<Message>>,
) -> Result<(), AllocError> {
    if let (Some(site), Some(list)) = (sites.get(block), lists.get_mut(block)) {
        if !list.is_empty() {
            site.put_all(rt, list.as_slice())?;
            list.clear();
        }
    }
    Ok(())
}
