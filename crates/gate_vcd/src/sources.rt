ghost use Rattle.gate_vcd.specs.Changes.{items, nothing};
ghost use Rattle.gate_vcd.specs.Shown.Commands.{variables as variables_of};
ghost use Rattle.gate_vcd.specs.Shown.Known.{sources_by};
ghost use Rattle.gate_vcd.specs.Sources.{AreDeclared, IsFollowed};

use crate::changes::read_changes;
use crate::fault::StimFault;
use crate::known::Numbered;
use crate::source::Source;
use crate::variable::Variable;
use crate::words::Words;
use gate_netlist::TextSeed;
use gate_stimulus::{Stimulus, Timescale};
use std::alloc::Global;

/// What the changes of a text give to takers with numbers, and the time of its last stamp.
#[derive(Drop)]
pub struct Followed {
    pub given: Stimulus,
    pub last: u64,
}

/// Reads the changes of a text after its declarations, for takers that take their values from sources.
///
/// The changes of other codes are read and not kept. A fault is the first one of the changes.
pub fn read_sources<'a>(
    alloc: Global,
    words: &mut Words<'a>,
    seed: TextSeed,
    timescale: Timescale,
    all: &[Variable<'a>],
    takers: &[Option<Source<'a>>],
) -> Result<Followed, StimFault>
    requires { AreDeclared (variables_of all.now) (sources_by takers.now) }
    ensures { IsFollowed (variables_of all.now) (sources_by takers.now) (items nothing words.old) result }
{
    let numbered = Numbered::of(alloc, seed, all, takers)?;
    let read = read_changes(alloc, words, &numbered.codes)?;
    Ok(Followed {
        given: Stimulus::new(timescale, read.lists, numbered.numbers),
        last: read.last,
    })
}
