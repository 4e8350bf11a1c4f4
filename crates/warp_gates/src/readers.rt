//! Who reads each place, and which flip-flops each place clocks.
ghost use Rattle.std.specs.Prelude.{◌≡◌, ◌≤◌, ◌<◌, ◌+◌, IfOk, OnOk, length};
ghost use Rattle.std.specs.List.{All};
ghost use Rattle.warp_gates.specs.Cells.{IsCell, cell_at};
ghost use Rattle.warp_gates.specs.Inner.Fronts.{AreReaders, AreClocked, inputs_of, pin_of};
ghost use Rattle.warp_gates.specs.Inner.First.{AreListed, AreTimed};

use crate::clocked::Clocked;
use crate::front::EDGES;
use crate::pins::PINS;
use crate::wiring::Wiring;
use number_groups::{Groups, Keyed};
use std::alloc::{AllocError, Global};
use warp_stores::PLACES;

/// The edges from each place to the gates that read it. An error is a refused growth.
pub(crate) fn readers_of(alloc: Global, wiring: &Wiring) -> Result<Groups, AllocError>
    requires few { length wiring.now ≤ PLACES }
    requires cells { All (IsCell (length wiring.now)) wiring.now }
    ensures { IfOk result (λ rows. AreReaders wiring.now rows) }
{
    let mut edges = Vec::new(alloc);
    for gate in 0..wiring.len() {
        push_edges(&mut edges, wiring, gate)?;
    }
    Groups::of(alloc, wiring.len() as u32, &edges)
}

/// The edges to a gate, under the places that it reads.
fn push_edges(edges: &mut Vec<Keyed>, wiring: &Wiring, gate: usize) -> Result<(), AllocError>
    requires few { length wiring.now ≤ PLACES }
    requires cells { All (IsCell (length wiring.now)) wiring.now }
    requires gate { gate < length wiring.now }
    requires edges { AreListed wiring.now gate 0 edges.old.items }
    ensures { OnOk result (AreListed wiring.now (gate + 1) 0 edges.new.items) }
{
    let inputs = wiring.inputs(gate);
    for k in 0..inputs.len() {
        edges.push(Keyed {
            key: inputs[k],
            number: gate as u32 * EDGES + pin_of(inputs, k),
        })?;
    }
    Ok(())
}

/// The pin of an input.
fn pin_of(inputs: &[u32], k: usize) -> u32
    requires { k < length inputs.now }
    ensures is { result ≡ pin_of inputs.now k }
    ensures small { result < EDGES }
{
    if inputs.len() <= usize::from(PINS) {
        k as u32
    } else {
        u32::from(PINS)
    }
}

/// The flip-flops that each place clocks. An error is a refused growth.
pub(crate) fn clocked_of(alloc: Global, wiring: &Wiring) -> Result<Clocked, AllocError>
    requires few { length wiring.now ≤ PLACES }
    requires cells { All (IsCell (length wiring.now)) wiring.now }
    ensures { IfOk result (λ clocked. AreClocked wiring.now clocked) }
{
    let mut flops = Vec::new(alloc);
    for place in 0..wiring.len() {
        push_clock(&mut flops, wiring, place)?;
    }
    let places = wiring.len() as u32;
    let rows = Groups::of(alloc, places, &flops)?;
    Ok(Clocked::of(rows, places))
}

/// A place under its clock, if it is a flip-flop's.
fn push_clock(flops: &mut Vec<Keyed>, wiring: &Wiring, place: usize) -> Result<(), AllocError>
    requires few { length wiring.now ≤ PLACES }
    requires cells { All (IsCell (length wiring.now)) wiring.now }
    requires place { place < length wiring.now }
    requires flops { AreTimed wiring.now place flops.old.items }
    ensures { OnOk result (AreTimed wiring.now (place + 1) flops.new.items) }
{
    let Some(clock) = wiring.clock(place) else {
        return Ok(());
    };
    flops.push(Keyed {
        key: clock,
        number: place as u32,
    })?;
    Ok(())
}
