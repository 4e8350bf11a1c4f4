ghost use Rattle.std.specs.Prelude.{◌≡◌, ◌<◌, ◌≤◌, ℕ, false, [], if◌then◌else◌, IfOk, length, get_or, slice_index, ◌↔◌, IsTrue};
ghost use Rattle.std.specs.Cmp.Rules.{comparing};
ghost use Rattle.std.proofs.Common.{rules};
ghost use Rattle.gate_values.specs.Behaviour.{Outside, source_delay, initial_of};
ghost use Rattle.gate_netlist.specs.Circuit.{CutFits};
ghost use Rattle.warp_part.specs.Portion.{IsPortion, slot_of, owns, reads, hears, is_used, is_driven};
ghost use Rattle.warp_part.specs.PartOf.{part_of};
ghost use Rattle.warp_part.specs.SamePart.{same_part};
ghost use Rattle.warp_part.specs.Inner.SamePart.{SameAt};

mod build;
mod merge;
mod readers;
mod same;
mod slots;
mod uses;
mod wiring;

use crate::cell::{Cell, Span};
use gate_netlist::{Circuit, Cut};
use gate_values::Logic;
use std::alloc::{AllocError, Global};
use std::marker::Model;

/// What a block has of a circuit: its own nets with what sets them, the nets that their gates read, and for each
/// own net the other blocks that read it. It takes memory by these nets, whatever the size of the circuit.
#[derive(Debug, Drop)]
pub struct Part {
    block: u32,
    nets: Vec<u32>,
    cells: Vec<Cell>,
    pins: Vec<u32>,
    told: Vec<Span>,
    readers: Vec<u32>,
    used: Vec<bool>,
    // where nets of other blocks may stand, by the last bits of their numbers
    index: Vec<u32>,
}

impl Model for Part {
    ghost use Rattle.warp_part.specs.Portion.{Portion};

    ghost Value = { Portion };

    ghost use Rattle.warp_part.specs.Shown.Part.{portion_of};
    ghost use Rattle.warp_part.specs.Inner.HeldPart.{IsHeld};

    ghost view = { portion_of };

    ghost invariant = { IsHeld };
}

impl Part {
    /// The part of a block of a cut.
    pub fn of(alloc: Global, circuit: &Circuit, cut: &Cut, block: u32) -> Result<Part, AllocError>
        requires fits { CutFits circuit.now cut.now }
        requires block { block < cut.now.blocks }
        ensures { IfOk result (λ part. part ≡ part_of circuit.now cut.now block) }
    {
        circuit.law();
        cut.law();
        let mut used = Vec::new(alloc);
        let nets = uses::nets_of(alloc, circuit, cut, block, &mut used)?;
        let mut pins = Vec::new(alloc);
        let cells = build::cells_of(alloc, circuit, cut, block, &nets, &mut pins)?;
        let mut readers = Vec::new(alloc);
        let told = readers::readers_of(alloc, circuit, cut, block, &nets, &mut readers)?;
        let index = slots::index_of(alloc, &nets, &cells)?;
        Ok(Part {
            block,
            nets,
            cells,
            pins,
            told,
            readers,
            used,
            index,
        })
    }

    /// What is true of every part.
    pub fn law(&self)
        ensures { IsPortion self.now }
    {
        let _ = &self.block;
    }

    /// The number of the block.
    pub fn block(&self) -> u32
        ensures { result ≡ self.now.block }
    {
        self.block
    }

    /// Whether the block owns a net.
    pub fn owns(&self, net: u32) -> bool
        ensures { result ≡ owns self.now net }
    {
        match self.slot(net) {
            Some(slot) => self.is_own(slot),
            None => false,
        }
    }

    /// Whether a gate of the block reads a net that the block doesn't own.
    pub fn reads(&self, net: u32) -> bool
        ensures { result ≡ reads self.now net }
    {
        match self.slot(net) {
            Some(slot) => !self.is_own(slot),
            None => false,
        }
    }

    /// The nets that the block owns and those that its gates read, in ascending order.
    pub fn nets(&self) -> &[u32]
        ensures { result.now ≡ self.now.nets }
    {
        self.nets.as_slice()
    }

    /// The number of its nets.
    pub fn len(&self) -> usize
        ensures count { result ≡ length self.now.nets }
        ensures few { result ≤ 1000000 }
    {
        self.nets.len()
    }

    /// The place of a net.
    pub fn slot(&self, net: u32) -> Option<usize>
        ensures { result ≡ slot_of self.now.nets net }
    {
        slots::slot_in(&self.nets, net)
    }

    /// The net at a place.
    pub fn net(&self, slot: usize) -> u32
        requires { slot < length self.now.nets }
        ensures { result ≡ slice_index self.now.nets slot }
    {
        self.nets[slot]
    }

    /// Whether a gate or a flip-flop of the block sets the net at a place.
    pub fn is_own(&self, slot: usize) -> bool
        requires { slot < length self.now.nets }
        ensures { result ≡ is_driven (get_or self.now.sources slot Outside) }
    {
        matches!(
            self.cells[slot],
            Cell::Pair { .. } | Cell::Gate { .. } | Cell::Flop { .. }
        )
    }

    /// Whether the net at a place is an input of the circuit.
    pub fn is_input(&self, slot: usize) -> bool
        requires { slot < length self.now.nets }
        ensures { result ≡ get_or self.now.inputs slot false }
    {
        matches!(self.cells[slot], Cell::Input)
    }

    /// Whether a gate of the block reads the net at a place.
    pub fn is_used(&self, slot: usize) -> bool
        requires { slot < length self.now.nets }
        ensures { result ≡ is_used self.now (slice_index self.now.nets slot) }
    {
        self.used[slot]
    }

    /// The delay of the net at a place; 0 for a net that the block doesn't own.
    pub fn delay(&self, slot: usize) -> u64
        requires { slot < length self.now.nets }
        ensures delay { result ≡ source_delay (get_or self.now.sources slot Outside) }
        ensures within { result ≤ 1000000 }
    {
        match self.cells[slot] {
            Cell::Pair { delay, .. } | Cell::Gate { delay, .. } | Cell::Flop { delay, .. } =>
                u64::from(delay),
            Cell::Input | Cell::Foreign => 0,
        }
    }

    /// What the flip-flop at a place holds before time 0; `X` for any other net.
    pub fn initial(&self, slot: usize) -> Logic
        requires { slot < length self.now.nets }
        ensures { result ≡ initial_of (get_or self.now.sources slot Outside) }
    {
        match self.cells[slot] {
            Cell::Flop { init, .. } => init,
            Cell::Input | Cell::Foreign | Cell::Pair { .. } | Cell::Gate { .. } => Logic::X,
        }
    }

    /// The other blocks that read the net at a place.
    pub fn readers(&self, slot: usize) -> &[u32]
        requires { slot < length self.now.nets }
        ensures { result.now ≡ get_or self.now.readers slot [] }
    {
        if self.readers.is_empty() {
            return &[];
        }
        self.told[slot].of(&self.readers)
    }

    /// The place of a net of another block that the block reads, whose changes come by messages.
    pub fn hearing(&self, net: u32) -> Option<usize>
        ensures { result ≡ (if hears self.now net then slot_of self.now.nets net else None) }
    {
        match slots::slot_through(&self.index, &self.nets, net) {
            Some(slot) if matches!(self.cells[slot], Cell::Foreign) => Some(slot),
            _ => None,
        }
    }

    /// A copy.
    pub fn copy(&self) -> Result<Part, AllocError>
        ensures { IfOk result (λ part. part ≡ self.now) }
    {
        let alloc = *self.nets.allocator();
        Ok(Part {
            block: self.block,
            nets: Vec::from_slice(alloc, &self.nets)?,
            cells: Vec::from_slice(alloc, &self.cells)?,
            pins: Vec::from_slice(alloc, &self.pins)?,
            told: Vec::from_slice(alloc, &self.told)?,
            readers: Vec::from_slice(alloc, &self.readers)?,
            used: Vec::from_slice(alloc, &self.used)?,
            index: Vec::from_slice(alloc, &self.index)?,
        })
    }
}

impl Part {
    /// Whether two parts with the same nets say the same of the net at a place.
    fn is_same_at(&self, other: &Part, slot: usize) -> bool
        requires slot { slot < length self.now.nets }
        requires nets { self.now.nets ≡ other.now.nets }
        ensures { IsTrue result ↔ SameAt self.now other.now slot }
    {
        same::same_cell(self.cells[slot], &self.pins, other.cells[slot], &other.pins)
            && same::same_numbers(self.readers(slot), other.readers(slot))
    }

    /// Whether two parts have the same number and nets, and say the same of each net.
    fn is_same(&self, other: &Part) -> bool
        ensures { IsTrue result ↔ (self.now ≡ other.now) }
    {
        self.law();
        other.law();
        self.block == other.block
            && same::same_numbers(&self.nets, &other.nets)
            && self.is_same_everywhere(other)
    }

    /// Whether two parts with the same nets say the same of each.
    fn is_same_everywhere(&self, other: &Part) -> bool
        requires { self.now.nets ≡ other.now.nets }
        ensures { IsTrue result ↔ ((i : ℕ) → i < length self.now.nets → SameAt self.now other.now i) }
    {
        for slot in 0..self.len() {
            if !self.is_same_at(other, slot) {
                return false;
            }
        }
        true
    }
}

impl PartialEq for Part {
    ghost eq = { same_part };

    ghost laws = { Prim.search (comparing, rules) depth 12 };

    fn eq(&self, other: &Part) -> bool
        ensures eq { result ≡ same_part self.now other.now }
        ensures same { IsTrue result ↔ (self.now ≡ other.now) }
    {
        self.is_same(other)
    }
}
