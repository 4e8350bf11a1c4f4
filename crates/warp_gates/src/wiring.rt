//! What sets each place.
ghost use Rattle.std.specs.Prelude.{◌≡◌, ◌<◌, ◌++◌, ◌∷◌, [], true, OnOk, OnErr, length, get_or};
ghost use Rattle.std.specs.List.{All};
ghost use Rattle.warp_gates.specs.Cells.{Outside, Gate, Flop, cell_at};
ghost use Rattle.warp_gates.specs.Inner.Fronts.{inputs_of};
ghost use Rattle.warp_gates.specs.Inner.Told.{is_flop, data_of};
ghost use Rattle.warp_gates.specs.Inner.First.{kind_of, clock_of};
ghost use Rattle.warp_gates.specs.Shown.Wiring.{cell_of};

use gate_values::Kind;
use number_groups::Rows;
use std::alloc::{AllocError, Global};
use std::marker::Model;

/// What sets a place. What it stands over is kept apart: a gate's inputs, a flip-flop's data and its clock.
#[derive(Clone, Copy, Debug)]
pub(crate) enum Shape {
    Outside,
    Gate(Kind),
    Flop,
}

/// What sets each of some places.
#[derive(Debug, Drop)]
pub struct Wiring {
    shapes: Vec<Shape>,
    inputs: Rows,
}

impl Model for Wiring {
    ghost use Rattle.std.specs.Prelude.{◌≡◌, List, length};
    ghost use Rattle.warp_gates.specs.Cells.{Cell};
    ghost use Rattle.warp_gates.specs.Shown.Wiring.{cells_of};

    ghost Value = { List Cell };

    ghost view = { λ wiring. cells_of wiring.shapes.items wiring.inputs };

    ghost invariant = { λ wiring. length wiring.inputs ≡ length wiring.shapes.items };
}

impl Wiring {
    /// No place.
    pub fn new(alloc: Global) -> Wiring
        ensures { result ≡ [] }
    {
        Wiring {
            shapes: Vec::new(alloc),
            inputs: Rows::new(alloc),
        }
    }

    /// How many places there are.
    pub fn len(&self) -> usize
        ensures { result ≡ length self.now }
    {
        self.shapes.len()
    }

    /// The places that a gate reads; none of a place that no gate sets.
    #[inline]
    pub(crate) fn inputs(&self, place: usize) -> &[u32]
        requires { place < length self.now }
        ensures { result.now ≡ inputs_of (cell_at self.now place) }
    {
        match self.shapes[place] {
            Shape::Gate(_) => self.inputs.get(place),
            Shape::Outside | Shape::Flop => &[],
        }
    }

    /// The kind of the gate that sets a place, if one does.
    pub(crate) fn kind(&self, place: usize) -> Option<Kind>
        requires { place < length self.now }
        ensures { result ≡ kind_of (cell_at self.now place) }
    {
        match self.shapes[place] {
            Shape::Gate(kind) => Some(kind),
            Shape::Outside | Shape::Flop => None,
        }
    }

    /// The clock of the flip-flop that sets a place, if one does.
    pub(crate) fn clock(&self, place: usize) -> Option<u32>
        requires { place < length self.now }
        ensures { result ≡ clock_of (cell_at self.now place) }
    {
        match self.shapes[place] {
            Shape::Flop => Some(second(self.inputs.get(place))),
            Shape::Outside | Shape::Gate(_) => None,
        }
    }

    /// The place of a flip-flop's data.
    #[inline]
    pub(crate) fn data(&self, place: usize) -> u32
        requires place { place < length self.now }
        requires flop { is_flop (cell_at self.now place) ≡ true }
        ensures { result ≡ data_of (cell_at self.now place) }
    {
        self.inputs.get(place).first().copied().unwrap_or(0)
    }

    /// Whether a flip-flop sets a place.
    #[inline]
    pub(crate) fn is_flop(&self, place: usize) -> bool
        requires { place < length self.now }
        ensures { result ≡ is_flop (cell_at self.now place) }
    {
        matches!(self.shapes[place], Shape::Flop)
    }

    /// A place more, which something outside sets. An error is a refused growth; then all stays.
    pub fn push_outside(&mut self) -> Result<(), AllocError>
        ensures ok { OnOk result (self.new ≡ self.old ++ Outside ∷ []) }
        ensures err { OnErr result (self.new ≡ self.old) }
    {
        self.push(Shape::Outside, &[])
    }

    /// A place more, which a gate sets.
    pub fn push_gate(&mut self, kind: Kind, inputs: &[u32]) -> Result<(), AllocError>
        ensures ok { OnOk result (self.new ≡ self.old ++ Gate kind inputs.now ∷ []) }
        ensures err { OnErr result (self.new ≡ self.old) }
    {
        self.push(Shape::Gate(kind), inputs)
    }

    /// A place more, which a flip-flop sets.
    pub fn push_flop(&mut self, data: u32, clock: u32) -> Result<(), AllocError>
        ensures ok { OnOk result (self.new ≡ self.old ++ Flop «data» clock ∷ []) }
        ensures err { OnErr result (self.new ≡ self.old) }
    {
        self.push(Shape::Flop, &[data, clock])
    }

    /// A place more.
    fn push(&mut self, shape: Shape, inputs: &[u32]) -> Result<(), AllocError>
        ensures ok { OnOk result (self.new ≡ self.old ++ cell_of shape inputs.now ∷ []) }
        ensures err { OnErr result (self.new ≡ self.old) }
    {
        self.shapes.reserve(1)?;
        self.inputs.push(inputs)?;
        self.shapes.push_reserved(shape);
        Ok(())
    }
}

/// The second number of a list; 0 where there is none.
fn second(row: &[u32]) -> u32
    ensures { result ≡ get_or row.now 1 0 }
{
    if row.len() < 2 {
        return 0;
    }
    row[1]
}
