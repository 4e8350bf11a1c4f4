//! A part as places that cells set.
ghost use Rattle.std.specs.Prelude.{◌≡◌, ◌++◌, ◌∷◌, [], ◌+◌, ◌≤◌, IfOk, OnOk, length, map};
ghost use Rattle.std.specs.List.{All};
ghost use Rattle.gate_values.specs.Behaviour.{initial_of};
ghost use Rattle.warp_part.specs.Inner.HeldPart.{CellFits};
ghost use Rattle.warp_part.specs.Placing.{place_cells};
ghost use Rattle.warp_part.specs.Inner.Wired.{wired, begun};

use super::Part;
use crate::cell::Cell;
use gate_values::Logic;
use std::alloc::{AllocError, Global};
use warp_gates::Wiring;

impl Part {
    /// What sets each place. An error is a refused growth.
    pub fn wiring(&self, alloc: Global) -> Result<Wiring, AllocError>
        ensures { IfOk result (λ wiring. wiring ≡ place_cells self.now) }
    {
        wiring_of(
            alloc,
            self.cells.as_slice(),
            self.pins.as_slice(),
            self.len(),
        )
    }

    /// What each place begins with. An error is a refused growth.
    pub fn contents(&self, alloc: Global) -> Result<Vec<Logic>, AllocError>
        ensures { IfOk result (λ contents. contents.items ≡ map initial_of self.now.sources) }
    {
        contents_of(alloc, self.cells.as_slice())
    }
}

/// What some cells are among places.
fn wiring_of(alloc: Global, cells: &[Cell], pins: &[u32], nets: usize) -> Result<Wiring, AllocError>
    requires { All (CellFits nets (length pins.now)) cells.now }
    ensures { IfOk result (λ wiring. wiring ≡ map (wired pins.now) cells.now) }
{
    let mut wiring = Wiring::new(alloc);
    for cell in cells {
        push_cell(&mut wiring, *cell, pins, nets)?;
    }
    Ok(wiring)
}

/// A place more, which a cell sets.
fn push_cell(wiring: &mut Wiring, cell: Cell, pins: &[u32], nets: usize) -> Result<(), AllocError>
    requires { CellFits nets (length pins.now) cell }
    ensures { OnOk result (wiring.new ≡ wiring.old ++ wired pins.now cell ∷ []) }
{
    match cell {
        Cell::Input | Cell::Foreign => wiring.push_outside(),
        Cell::Pair {
            kind,
            pins: two,
            ..
        } => wiring.push_gate(kind, &two),
        Cell::Gate {
            kind,
            pins: span,
            ..
        } => wiring.push_gate(kind, span.of(pins)),
        Cell::Flop { d, clock, .. } => wiring.push_flop(d, clock),
    }
}

/// What a cell begins with.
fn content_of(cell: Cell) -> Logic
    ensures { result ≡ begun cell }
{
    match cell {
        Cell::Flop { init, .. } => init,
        Cell::Input | Cell::Foreign | Cell::Pair { .. } | Cell::Gate { .. } => Logic::X,
    }
}

/// What some cells begin with.
fn contents_of(alloc: Global, cells: &[Cell]) -> Result<Vec<Logic>, AllocError>
    ensures { IfOk result (λ contents. contents.items ≡ map begun cells.now) }
{
    let mut contents = Vec::with_capacity(alloc, cells.len())?;
    for cell in cells {
        contents.push(content_of(*cell))?;
    }
    Ok(contents)
}
