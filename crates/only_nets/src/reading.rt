//! The nets that a text names.

ghost use Rattle.std.specs.Prelude.{◌≡◌, ℕ, List, IfErr, length};
ghost use Rattle.gate_netlist.specs.Circuit.{Design, nets_of};
ghost use Rattle.gate_netlist.specs.Gives.{Gives};
ghost use Rattle.only_nets.specs.Marks.{marks};
ghost use Rattle.only_nets.specs.Names.{with_line, marks_named, out_of_memory, IsOfNames};
ghost use Rattle.only_nets.specs.Inner.Marking.{IsMarked};

use crate::fault::{OnlyCause, OnlyFault};
use crate::marks::no_marks;
use crate::names::meaning_of;
use gate_netlist::{Circuit, next_line};
use std::alloc::Global;

/// Marks the net that a line names, if it says something.
fn mark_line(all: &mut Vec<bool>, circuit: &Circuit, line: &[u8]) -> Result<(), OnlyCause>
    requires { length all.old.items ≡ nets_of circuit.now }
    ensures length { length all.new.items ≡ nets_of circuit.now }
    ensures marked { (nets : List ℕ) → all.old.items ≡ marks (nets_of circuit.now) nets → IsMarked (nets_of circuit.now) all.new.items result (with_line circuit.now nets line.now) }
{
    match meaning_of(circuit, line) {
        Err(cause) => Err(cause),
        Ok(None) => Ok(()),
        Ok(Some(net)) => {
            if all[net as usize] {
                return Err(OnlyCause::NamedTwice);
            }
            all[net as usize] = true;
            Ok(())
        }
    }
}

/// Reads a text that names nets of a circuit, a line each, and marks these. The first fault is answered, with its line.
pub fn read_names(alloc: Global, text: &[u8], circuit: &Circuit) -> Result<Vec<bool>, OnlyFault>
    ensures { Gives out_of_memory (λ all. all.items) result (marks_named circuit.now text.now) }
{
    let mut all = no_marks(alloc, circuit.nets())?;
    let mut line = 1;
    let mut rest = Some(text);
    while let Some(text) = rest {
        let (content, after) = next_line(text);
        if let Err(cause) = mark_line(&mut all, circuit, content) {
            return Err(OnlyFault { line, cause });
        }
        line += 1;
        rest = after;
    }
    Ok(all)
}

/// What is true of refusals: no text of names is refused for want of memory. So Memory is never the fault of a text, and
/// each other fault that the reader answers is.
pub fn names_laws()
    ensures { (d : Design) (text : List ℕ) → IfErr (marks_named d text) IsOfNames }
{}
