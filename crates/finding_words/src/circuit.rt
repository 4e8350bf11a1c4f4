//! The circuit that texts are about.
ghost use Rattle.std.specs.Prelude.{IfSome};
ghost use Rattle.finding_words.specs.Circuits.{IsOfTexts};

use gate_netlist::{Circuit, read_bench};
use std::alloc::Global;

/// The circuit of a bench and settings; none where a text is refused or memory runs out.
pub fn circuit_of(alloc: Global, bench: &[u8], settings: &[u8]) -> Option<Circuit>
    ensures { IfSome result (λ circuit. IsOfTexts bench.now settings.now circuit) }
{
    let Ok(bench) = read_bench(alloc, bench) else {
        return None;
    };
    match Circuit::of(alloc, bench, settings) {
        Ok(circuit) => Some(circuit),
        Err(_) => None,
    }
}
