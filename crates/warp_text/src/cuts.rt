//! Into which blocks a circuit is cut.
ghost use Rattle.std.specs.Prelude.{◌≡◌, IfOk};
ghost use Rattle.gate_netlist.specs.Circuit.{CutFits};
ghost use Rattle.warp_text.specs.Replay.{cut_of};
ghost use Rattle.warp_text.specs.Inner.Cuts.{IsMade};

use crate::options::Options;
use gate_netlist::{Circuit, Cut};
use std::alloc::{AllocError, Global};

/// The cut that is made of a circuit: an even one, where the options give a number of blocks or the settings no cut; none where the circuit
/// is cut as its settings say. An error is a refused growth.
pub(crate) fn made_cut(
    alloc: Global,
    circuit: &Circuit,
    options: &Options,
) -> Result<Option<Cut>, AllocError>
    ensures { IfOk result (IsMade circuit.now options.now.blocks) }
{
    let blocks = match (options.blocks(), circuit.cut()) {
        (None, Some(_)) => return Ok(None),
        (None, None) => 1,
        (Some(blocks), _) => blocks,
    };
    let cut = Cut::even(alloc, circuit, blocks)?;
    Ok(Some(cut))
}

/// The cut of a circuit: that which was made of it, else that of its settings.
pub(crate) fn cut_of<'a>(circuit: &'a Circuit, options: &Options, made: &'a Option<Cut>) -> &'a Cut
    requires { IsMade circuit.now options.now.blocks made.now }
    ensures cut { result.now ≡ cut_of circuit.now options.now.blocks }
    ensures fits { CutFits circuit.now result.now }
{
    let _ = options;
    circuit.law();
    match (made, circuit.cut()) {
        (Some(cut), _) => cut,
        (None, Some(cut)) => cut,
        (None, None) => unreachable!(),
    }
}
