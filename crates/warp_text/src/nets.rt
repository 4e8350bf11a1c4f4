//! The nets of a circuit, as text.
ghost use Rattle.std.specs.Prelude.{◌≡◌, ◌<◌, ◌++◌, [], ◌∷◌, ℕ, OnOk, IfOk, codes, decimal};
ghost use Rattle.std.specs.List.{All};
ghost use Rattle.gate_netlist.specs.Circuit.{nets_of, name_of, IsDriven};
ghost use Rattle.vcd_dumps.specs.Dump.{letter};
ghost use Rattle.warp_text.specs.NetLines.{names_text, driver_text, block_of, timing_text, head_text, net_line, net_lines};

use gate_netlist::{Circuit, Driver};
use gate_values::Logic;
use std::alloc::{AllocError, Global};
use vcd_dumps::code;

/// The letter of a content.
fn content_word(content: Logic) -> &'static str
    ensures { result.now ≡ letter content ∷ [] }
{
    match content {
        Logic::Zero => "0",
        Logic::One => "1",
        Logic::X => "x",
        Logic::Z => "z",
    }
}

fn push_text(text: &mut Vec<u8>, more: &str) -> Result<(), AllocError>
    ensures { OnOk result (text.new.items ≡ text.old.items ++ more.now) }
{
    text.extend_from_slice(more.as_bytes())
}

fn push_number(alloc: Global, text: &mut Vec<u8>, number: u32) -> Result<(), AllocError>
    ensures { OnOk result (text.new.items ≡ text.old.items ++ decimal number) }
{
    let digits = number.to_string(alloc)?;
    push_text(text, digits.as_str())
}

/// Appends the names of nets, parted by commas.
fn push_names(text: &mut Vec<u8>, circuit: &Circuit, nets: &[u32]) -> Result<(), AllocError>
    requires { All (λ n. n < nets_of circuit.now) nets.now }
    ensures { OnOk result (text.new.items ≡ text.old.items ++ names_text circuit.now nets.now) }
{
    let [first, rest @ ..] = nets else {
        return Ok(());
    };
    push_text(text, circuit.name(*first))?;
    for net in rest {
        push_text(text, ", ")?;
        push_text(text, circuit.name(*net))?;
    }
    Ok(())
}

/// Appends what sets a net.
fn push_driver(text: &mut Vec<u8>, circuit: &Circuit, driver: &Driver) -> Result<(), AllocError>
    requires { (delay : ℕ) × IsDriven (nets_of circuit.now) driver.now delay }
    ensures { OnOk result (text.new.items ≡ text.old.items ++ driver_text circuit.now driver.now) }
{
    match driver {
        Driver::Input => push_text(text, "INPUT"),
        Driver::Gate { kind, inputs } => {
            push_text(text, kind.word())?;
            push_text(text, "(")?;
            push_names(text, circuit, inputs.as_slice())?;
            push_text(text, ")")
        }
        Driver::Flop { d, clock, init } => {
            push_text(text, "DFF(")?;
            push_text(text, circuit.name(*d))?;
            push_text(text, ") clock ")?;
            push_text(text, circuit.name(*clock))?;
            push_text(text, " init ")?;
            push_text(text, content_word(*init))
        }
    }
}

/// The block of a net that isn't an input, by the settings' cut.
fn block_of(circuit: &Circuit, net: u32) -> u32
    ensures { result ≡ block_of circuit.now net }
{
    match circuit.cut() {
        Some(cut) => cut.owner(net).unwrap_or(0),
        None => 0,
    }
}

/// Appends the delay and the block of a net.
fn push_timing(
    alloc: Global,
    text: &mut Vec<u8>,
    delay: Option<u32>,
    block: u32,
) -> Result<(), AllocError>
    ensures { OnOk result (text.new.items ≡ text.old.items ++ timing_text delay block) }
{
    let Some(delay) = delay else {
        return Ok(());
    };
    push_text(text, " delay ")?;
    push_number(alloc, text, delay)?;
    push_text(text, " block ")?;
    push_number(alloc, text, block)
}

/// Appends the number, the code and the name of a net.
fn push_head(
    alloc: Global,
    text: &mut Vec<u8>,
    circuit: &Circuit,
    net: u32,
) -> Result<(), AllocError>
    requires { net < nets_of circuit.now }
    ensures { OnOk result (text.new.items ≡ text.old.items ++ head_text circuit.now net) }
{
    circuit.law();
    push_number(alloc, text, net)?;
    push_text(text, " ")?;
    let (code, count) = code(net);
    text.extend_from_slice(&code[..count])?;
    push_text(text, " ")?;
    push_text(text, circuit.name(net))
}

/// Appends the line of a net.
fn push_net(
    alloc: Global,
    text: &mut Vec<u8>,
    circuit: &Circuit,
    net: u32,
) -> Result<(), AllocError>
    requires { net < nets_of circuit.now }
    ensures { OnOk result (text.new.items ≡ text.old.items ++ net_line circuit.now net) }
{
    circuit.law();
    push_head(alloc, text, circuit, net)?;
    push_text(text, " = ")?;
    push_driver(text, circuit, circuit.driver(net))?;
    push_timing(alloc, text, circuit.delay(net), block_of(circuit, net))?;
    push_text(text, "\n")
}

/// A line for each net of a circuit, in the order of their numbers.
#[tactic(auto, unfolding(crate::specs::NetLines::net_lines))]
pub fn nets_text(alloc: Global, circuit: &Circuit) -> Result<Vec<u8>, AllocError>
    ensures { IfOk result (λ text. text.items ≡ net_lines circuit.now (nets_of circuit.now)) }
{
    let mut text = Vec::new(alloc);
    for net in 0..circuit.nets() {
        push_net(alloc, &mut text, circuit, net)?;
    }
    Ok(text)
}
