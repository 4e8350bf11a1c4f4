//! Marks: a net, and whether it is told.

ghost use Rattle.std.specs.Prelude.{◌≡◌, ◌<◌, [], ◌∷◌, ◌++◌, take, length, slice_set, true, false, IfOk, replicate};
ghost use Rattle.gate_netlist.specs.Circuit.{nets_of};
ghost use Rattle.only_nets.specs.Marks.{marks};

use gate_netlist::Circuit;
use std::alloc::{AllocError, Global};

/// No net of so many is marked.
pub fn no_marks(alloc: Global, nets: u32) -> Result<Vec<bool>, AllocError>
    ensures { IfOk result (λ all. all.items ≡ marks nets []) }
{
    let mut all = Vec::with_capacity(alloc, nets as usize)?;
    for _net in 0..nets {
        all.push(false)?;
    }
    Ok(all)
}

/// Marks the outputs of a circuit.
pub fn outputs_of(alloc: Global, circuit: &Circuit) -> Result<Vec<bool>, AllocError>
    ensures { IfOk result (λ all. all.items ≡ marks (nets_of circuit.now) circuit.now.outputs) }
{
    circuit.law();
    let mut all = no_marks(alloc, circuit.nets())?;
    for net in circuit.outputs() {
        all[*net as usize] = true;
    }
    Ok(all)
}
