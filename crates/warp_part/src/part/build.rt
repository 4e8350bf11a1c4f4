ghost use Rattle.std.specs.Prelude.{◌≡◌, ◌<◌, ◌++◌, [], IsTrue, false, IfOk, OnOk, is_some, length, map};
ghost use Rattle.std.specs.List.{All};
ghost use Rattle.std.specs.List.Sorted.{IsStrictlyIncreasing};
ghost use Rattle.gate_values.specs.Tables.{HasInputs};
ghost use Rattle.gate_values.specs.Behaviour.{Gate};
ghost use Rattle.gate_netlist.specs.Circuit.{IsDelay, nets_of, driver_of, source_of, is_input as is_outer};
ghost use Rattle.warp_part.specs.Portion.{slot_of};
ghost use Rattle.warp_part.specs.PartOf.{is_own, part_nets, part_source};
ghost use Rattle.warp_part.specs.Inner.Building.{driver_uses, IsCell, HasMore, AreCells};
ghost use Rattle.warp_part.specs.Shown.Building.{place_of};

use super::slots::place_in;
use crate::cell::{Cell, Span};
use gate_netlist::{Circuit, Cut, Driver};
use gate_values::Kind;
use std::alloc::{AllocError, Global};

/// Whether a block owns a net.
pub(super) fn is_own(cut: &Cut, block: u32, net: u32) -> bool
    ensures { result ≡ is_own cut.now block net }
{
    match cut.owner(net) {
        Some(owner) => owner == block,
        None => false,
    }
}

/// What each net is to the block, over places. The pins of the gates go into their list.
pub(super) fn cells_of(
    alloc: Global,
    circuit: &Circuit,
    cut: &Cut,
    block: u32,
    nets: &[u32],
    pins: &mut Vec<u32>,
) -> Result<Vec<Cell>, AllocError>
    requires nets { nets.now ≡ part_nets circuit.now cut.now block }
    requires empty { pins.old.items ≡ [] }
    ensures cells { IfOk result (λ cells. length cells.items ≡ length nets.now) }
    ensures each { IfOk result (λ cells. AreCells circuit.now cut.now block nets.now pins.new.items cells.items) }
{
    let mut cells = Vec::with_capacity(alloc, nets.len())?;
    for net in nets {
        cells.push(cell_of(circuit, cut, block, nets, *net, pins)?)?;
    }
    Ok(cells)
}

/// What a net of the block is to it.
fn cell_of(
    circuit: &Circuit,
    cut: &Cut,
    block: u32,
    nets: &[u32],
    net: u32,
    pins: &mut Vec<u32>,
) -> Result<Cell, AllocError>
    requires nets { nets.now ≡ part_nets circuit.now cut.now block }
    requires net { net < nets_of circuit.now }
    ensures cell { IfOk result (λ cell. IsCell nets.now pins.new.items (part_source circuit.now cut.now block net) (is_outer (driver_of circuit.now net)) cell) }
    ensures pins { OnOk result (HasMore (length nets.now) pins.old.items pins.new.items) }
{
    circuit.law();
    if is_own(cut, block, net) {
        return own_cell(circuit, nets, net, pins);
    }
    match circuit.driver(net) {
        Driver::Input => Ok(Cell::Input),
        _ => Ok(Cell::Foreign),
    }
}

/// What an own net is to the block.
fn own_cell(
    circuit: &Circuit,
    nets: &[u32],
    net: u32,
    pins: &mut Vec<u32>,
) -> Result<Cell, AllocError>
    requires up { IsStrictlyIncreasing nets.now }
    requires few { length nets.now < 4294967296 }
    requires net { net < nets_of circuit.now }
    requires there { All (λ u. IsTrue (is_some (slot_of nets.now u))) (driver_uses (driver_of circuit.now net)) }
    ensures cell { IfOk result (λ cell. IsCell nets.now pins.new.items (source_of circuit.now net) (is_outer (driver_of circuit.now net)) cell) }
    ensures pins { OnOk result (HasMore (length nets.now) pins.old.items pins.new.items) }
{
    circuit.law();
    let Some(delay) = circuit.delay(net) else {
        return Ok(Cell::Input);
    };
    match circuit.driver(net) {
        Driver::Input => Ok(Cell::Input),
        Driver::Gate { kind, inputs } => gate_cell(nets, *kind, delay, inputs.as_slice(), pins),
        Driver::Flop { d, clock, init } => Ok(Cell::Flop {
            init: *init,
            delay,
            d: place_in(nets, *d),
            clock: place_in(nets, *clock),
        }),
    }
}

/// What the net of a gate is to the block: the pins of any but two go into the list.
fn gate_cell(
    nets: &[u32],
    kind: Kind,
    delay: u32,
    inputs: &[u32],
    pins: &mut Vec<u32>,
) -> Result<Cell, AllocError>
    requires up { IsStrictlyIncreasing nets.now }
    requires few { length nets.now < 4294967296 }
    requires there { All (λ u. IsTrue (is_some (slot_of nets.now u))) inputs.now }
    requires inputs { HasInputs kind (length inputs.now) }
    requires delay { IsDelay delay }
    ensures cell { IfOk result (λ cell. IsCell nets.now pins.new.items (Gate kind delay inputs.now) false cell) }
    ensures pins { OnOk result (HasMore (length nets.now) pins.old.items pins.new.items) }
{
    match inputs {
        [first, second] => Ok(Cell::Pair {
            kind,
            delay,
            pins: [place_in(nets, *first), place_in(nets, *second)],
        }),
        _ => {
            let span = add_pins(nets, inputs, pins)?;
            Ok(Cell::Gate {
                kind,
                delay,
                pins: span,
            })
        }
    }
}

/// Puts the places of some nets behind the pins, and says where they stand.
fn add_pins(nets: &[u32], inputs: &[u32], pins: &mut Vec<u32>) -> Result<Span, AllocError>
    requires up { IsStrictlyIncreasing nets.now }
    requires few { length nets.now < 4294967296 }
    requires there { All (λ u. IsTrue (is_some (slot_of nets.now u))) inputs.now }
    ensures span { IfOk result (λ span. (span.start ≡ length pins.old.items) × (span.count ≡ length inputs.now)) }
    ensures pins { OnOk result (pins.new.items ≡ pins.old.items ++ map (place_of nets.now) inputs.now) }
{
    let span = Span::new(pins.len(), inputs.len())?;
    for input in inputs {
        pins.push(place_in(nets, *input))?;
    }
    Ok(span)
}
