ghost use Rattle.std.specs.Prelude.{◌≡◌, option_map};
ghost use Rattle.gate_vcd.specs.Stimulus.{IsReadAs};

use crate::changes::read_changes;
use crate::declarations::read_declarations;
use crate::fault::StimFault;
use crate::inputs::{Inputs, inputs_of};
use crate::known::Numbered;
use crate::words::Words;
use gate_netlist::{Circuit, TextSeed};
use gate_stimulus::Stimulus;
use std::alloc::Global;

/// Reads a stimulus text, a value change dump, for a circuit.
///
/// A refusal tells the first fault of the text by its offset, or else the first input that the text doesn't
/// give by its net. Times are in units of the text's timescale.
pub fn read_stimulus(alloc: Global, text: &[u8], circuit: &Circuit) -> Result<Stimulus, StimFault>
    ensures { IsReadAs text.now circuit.now result }
{
    circuit.law();
    let mut words = Words::new(text);
    let declared = read_declarations(alloc, &mut words, asked_scope(circuit))?;
    let seed = TextSeed::of(words.passed(text));
    let variables = declared.variables.as_slice();
    match inputs_of(alloc, seed, circuit, variables)? {
        Inputs::Found(sources) => {
            let numbered = Numbered::of(alloc, seed, variables, &sources)?;
            drop(sources);
            let read = read_changes(alloc, &mut words, &numbered.codes)?;
            Ok(Stimulus::new(declared.timescale, read.lists, numbered.numbers))
        }
        Inputs::Lacking(fault) => {
            // A fault of the changes comes before that of an input.
            let numbered = Numbered::of(alloc, seed, variables, &[])?;
            read_changes(alloc, &mut words, &numbered.codes)?;
            Err(fault)
        }
    }
}

/// The scope whose variables alone count.
fn asked_scope(circuit: &Circuit) -> Option<&[u8]>
    ensures { option_map (λ scope. scope.now) result ≡ circuit.now.scope }
{
    match circuit.scope() {
        Some(scope) => Some(scope.as_bytes()),
        None => None,
    }
}
