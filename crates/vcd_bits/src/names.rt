ghost use Rattle.std.specs.Prelude.{◌≡◌, ◌≤◌, ◌<◌, ◌++◌, codes, decimal, option_map, nat_eq, IfErr, IfOk};
ghost use Rattle.gate_vcd.specs.Faults.{out_of_memory};
ghost use Rattle.gate_vcd.specs.Shown.Commands.{variable as variable_of};
ghost use Rattle.gate_vcd.specs.Shown.Scalars.{vector as vector_in};
ghost use Rattle.gate_vcd.specs.Vectors.{last_bit};
ghost use Rattle.vcd_bits.specs.Names.{after_scope, below, named_in, number_from_left, single_name};

use gate_vcd::{StimFault, Variable, Vector};
use itoa::Buffer;
use std::alloc::Global;
use text_numbers::number_up_to;

/// What follows a scope's text in a path: nothing, or a dot and the path below it.
fn after_scope(rest: &[u8]) -> Option<&[u8]>
    ensures { option_map (λ path. path.now) result ≡ after_scope rest.now }
{
    match rest {
        [] => Some(rest),
        [b'.', path @ ..] => Some(path),
        _ => None,
    }
}

/// The path below a scope: none where it doesn't lead through it.
pub fn below<'p>(scope: &[u8], path: &'p [u8]) -> Option<&'p [u8]>
    ensures { option_map (λ path. path.now) result ≡ below scope.now path.now }
{
    if scope.is_empty() {
        return Some(path);
    }
    match path.strip_prefix(scope) {
        Some(rest) => after_scope(rest),
        None => None,
    }
}

/// The name of a variable of one bit, by its reference.
pub fn single_name(reference: &[u8]) -> &[u8]
    ensures { result.now ≡ single_name reference.now }
{
    match reference.strip_suffix(b"[0:0]") {
        Some(name) => name,
        None => reference,
    }
}

/// The name of something in a path.
pub fn named_in(alloc: Global, path: &[u8], name: &[u8]) -> Result<Vec<u8>, StimFault>
    ensures ok { IfOk result (λ text. text.items ≡ named_in path.now name.now) }
    ensures err { IfErr result (λ e. e ≡ out_of_memory) }
{
    if path.is_empty() {
        return Ok(Vec::from_slice(alloc, name)?);
    }
    let mut text = Vec::from_slice(alloc, path)?;
    text.push(b'.')?;
    text.extend_from_slice(name)?;
    Ok(text)
}

/// The same of a bit of a vector.
pub fn bit_named_in(
    alloc: Global,
    path: &[u8],
    base: &[u8],
    number: u64,
) -> Result<Vec<u8>, StimFault>
    ensures ok { IfOk result (λ text. text.items ≡ named_in path.now (base.now ++ codes "[" ++ decimal number ++ codes "]")) }
    ensures err { IfErr result (λ e. e ≡ out_of_memory) }
{
    let mut buffer = Buffer::new();
    let mut text = named_in(alloc, path, base)?;
    text.push(b'[')?;
    text.extend_from_slice(buffer.format(number).as_bytes())?;
    text.push(b']')?;
    Ok(text)
}

/// The number of a bit of a vector, counted from the left and from 0.
pub fn number_from_left(vector: &Vector, bit: u64) -> u64
    requires left { vector.now.left ≤ last_bit }
    requires right { vector.now.right ≤ last_bit }
    requires bit { bit ≤ last_bit }
    ensures { result ≡ number_from_left (vector_in vector.now) bit }
{
    if vector.right <= vector.left {
        vector.left.saturating_sub(bit)
    } else {
        vector.left + bit
    }
}

/// Whether it is one bit wide.
pub fn is_one(variable: &Variable) -> bool
    ensures { result ≡ nat_eq (variable_of variable.now).size 1 }
{
    number_up_to(1, variable.size) == Some(1)
}
