//! What a gate of many inputs puts out.
ghost use Rattle.std.specs.Prelude.{◌≡◌, ◌<◌, true, length};
ghost use Rattle.std.specs.List.{All};
ghost use Rattle.gate_values.specs.Tables.{HasInputs, inverted};
ghost use Rattle.warp_gates.specs.Cells.{gate_output};
ghost use Rattle.warp_gates.specs.Inner.Fronts.{neutral};
ghost use Rattle.warp_gates.specs.Inner.Wide.{is_folded};

use gate_values::{Kind, Logic, table};

/// What a gate makes of the values at its inputs. It takes as long as it has inputs, and no memory.
#[cold]
#[inline(never)]
#[tactic(auto, unfolding(gate_values::specs::Tables::table_of))]
pub(crate) fn wide_output(kind: Kind, inputs: &[u32], values: &[Logic]) -> Logic
    requires some { HasInputs kind (length inputs.now) }
    requires within { All (λ input. input < length values.now) inputs.now }
    ensures { result ≡ gate_output values.now kind inputs.now }
{
    match kind {
        Kind::And | Kind::Or | Kind::Xor => folded(kind, inputs, values),
        Kind::Nand => inverted(folded(Kind::And, inputs, values)),
        Kind::Nor => inverted(folded(Kind::Or, inputs, values)),
        Kind::Xnor => inverted(folded(Kind::Xor, inputs, values)),
        Kind::Not | Kind::Buff => table(kind, &[values[inputs[0] as usize]]),
    }
}

/// That of an AND, OR or XOR: what it makes of the first ones, with one more each time.
fn folded(kind: Kind, inputs: &[u32], values: &[Logic]) -> Logic
    requires kind { is_folded kind ≡ true }
    requires within { All (λ input. input < length values.now) inputs.now }
    ensures { result ≡ gate_output values.now kind inputs.now }
{
    let mut output = neutral(kind);
    for input in inputs {
        output = table(kind, &[output, values[*input as usize]]);
    }
    output
}

/// The value that an input has which isn't there: it changes no output.
pub(crate) fn neutral(kind: Kind) -> Logic
    ensures { result ≡ neutral kind }
{
    match kind {
        Kind::And | Kind::Nand => Logic::One,
        _ => Logic::Zero,
    }
}

/// What an inverter makes of a value.
#[tactic(auto, unfolding(gate_values::specs::Tables::table_of))]
fn inverted(value: Logic) -> Logic
    ensures { result ≡ inverted value }
{
    table(Kind::Not, &[value])
}
