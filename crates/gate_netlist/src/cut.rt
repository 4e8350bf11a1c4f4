ghost use Rattle.std.specs.Prelude.{◌≡◌, ◌<◌, ◌≤◌, ◌↔◌, IsTrue, IfOk, length};
ghost use Rattle.gate_netlist.specs.Cut.{owner_of, own_nets, IsOwnership};
ghost use Rattle.gate_netlist.specs.Inner.Owned.{AreOwned};
ghost use Rattle.gate_netlist.specs.Circuit.{CutFits};
ghost use Rattle.gate_netlist.specs.Even.{even_cut};

use crate::circuit::Circuit;
use number_groups::{Groups, Keyed};
use std::alloc::{AllocError, Global};
use std::marker::Model;

/// A cut of a circuit into blocks: each net that isn't an input has an owner.
#[derive(Debug, Drop)]
pub struct Cut {
    owners: Vec<Option<u32>>,
    blocks: u32,
    own: Groups,
}

impl Model for Cut {
    ghost use Rattle.gate_netlist.specs.Cut.{Ownership};

    ghost Value = { Ownership };

    ghost use Rattle.gate_netlist.specs.HeldCut.{ownership_of, IsHeldCut};

    ghost view = { ownership_of };

    ghost invariant = { IsHeldCut };
}

impl Cut {
    /// The cut with these owners.
    pub(crate) fn new(
        alloc: Global,
        owners: Vec<Option<u32>>,
        blocks: u32,
    ) -> Result<Cut, AllocError>
        requires law { IsOwnership (record { blocks = blocks; owners = owners.items }) }
        requires within { length owners.items ≤ 1000000 }
        ensures { IfOk result (λ cut. cut ≡ record { blocks = blocks; owners = owners.items }) }
    {
        let entries = entries_of(alloc, &owners)?;
        let own = Groups::of(alloc, blocks, &entries)?;
        Ok(Cut {
            owners,
            blocks,
            own,
        })
    }

    /// What is true of every cut.
    pub fn law(&self)
        ensures { IsOwnership self.now }
    {
        let _ = &self.owners;
    }

    /// The even cut: of the g nets that aren't inputs, in net order, number j goes to block j * blocks / g, rounded
    /// down. There may be 1 to 1024 blocks; where there are more of them than such nets some are empty. The one error
    /// is that a growth was refused.
    pub fn even(alloc: Global, circuit: &Circuit, blocks: u32) -> Result<Cut, AllocError>
        requires some { 1 ≤ blocks }
        requires within { blocks ≤ 1024 }
        ensures even { IfOk result (λ cut. cut ≡ even_cut circuit.now blocks) }
        ensures fits { IfOk result (CutFits circuit.now) }
    {
        circuit.law();
        let owners = even_owners(alloc, circuit, blocks)?;
        Cut::new(alloc, owners, blocks)
    }

    /// The number of blocks, from 1 to 1024.
    pub fn blocks(&self) -> u32
        ensures count { result ≡ self.now.blocks }
        ensures some { 1 ≤ result }
        ensures within { result ≤ 1024 }
    {
        self.blocks
    }

    /// The block that owns a net; none for an input, and for a number past the nets.
    pub fn owner(&self, net: u32) -> Option<u32>
        ensures { result ≡ owner_of self.now net }
    {
        match self.owners.get(net as usize) {
            Some(owner) => *owner,
            None => None,
        }
    }

    /// A block's own nets, ascending.
    pub fn own_nets(&self, block: u32) -> &[u32]
        requires { block < self.now.blocks }
        ensures { result.now ≡ own_nets self.now block }
    {
        self.own.get(block)
    }

    /// Whether the cut is one of this circuit: of as many nets, where just those that aren't inputs have an owner.
    pub fn fits(&self, circuit: &Circuit) -> bool
        ensures { IsTrue result ↔ CutFits circuit.now self.now }
    {
        if self.owners.len() != circuit.nets() as usize {
            return false;
        }
        for (net, owner) in self.owners.iter().enumerate() {
            if owner.is_some() == circuit.is_input(net as u32) {
                return false;
            }
        }
        true
    }
}

/// Each net that has an owner, under it.
fn entries_of(alloc: Global, owners: &[Option<u32>]) -> Result<Vec<Keyed>, AllocError>
    requires { length owners.now ≤ 1000000 }
    ensures { IfOk result (λ entries. AreOwned owners.now (length owners.now) entries.items) }
{
    let mut entries = Vec::with_capacity(alloc, owners.len())?;
    for (net, owner) in owners.iter().enumerate() {
        if let Some(block) = owner {
            entries.push(Keyed {
                key: *block,
                number: net as u32,
            })?;
        }
    }
    Ok(entries)
}

/// The owners of the even cut.
fn even_owners(
    alloc: Global,
    circuit: &Circuit,
    blocks: u32,
) -> Result<Vec<Option<u32>>, AllocError>
    requires some { 1 ≤ blocks }
    requires within { blocks ≤ 1024 }
    ensures { IfOk result (λ owners. owners.items ≡ (even_cut circuit.now blocks).owners) }
{
    let driven = circuit.driven_count();
    let mut owners = Vec::new(alloc);
    let mut number = 0;
    circuit.law();
    for net in 0..circuit.nets() {
        if circuit.is_input(net) {
            owners.push(None)?;
        } else {
            owners.push(Some(number * blocks / driven))?;
            number += 1;
        }
    }
    Ok(owners)
}
