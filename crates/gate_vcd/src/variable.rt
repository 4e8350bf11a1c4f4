ghost use Rattle.std.specs.Prelude.{◌≡◌, IfErr, IfOk};
ghost use Rattle.std.specs.Cow.{cow_slice_items};
ghost use Rattle.std.specs.List.{concat};
ghost use Rattle.gate_vcd.specs.declared.fault.StimCause.TheVariants as causes;
ghost use Rattle.gate_vcd.specs.Shown.Commands.{variable};
ghost use Rattle.gate_vcd.specs.Declarations.{is_code, is_unvalued, unescaped, variable_of};
ghost use Rattle.gate_vcd.specs.Faults.{out_of_memory};
ghost use Rattle.gate_vcd.specs.Reading.{or_fault};
ghost use Rattle.gate_vcd.specs.Inner.Reading.{Reads};
ghost use Rattle.gate_vcd.specs.Shown.Words.{texts, token_of};

use crate::fault::{StimCause, StimFault};
use crate::keyword::is_word;
use crate::words::Word;
use std::alloc::Global;
use std::borrow::CowSlice;
use text_numbers::is_numeral;

/// A variable of a stimulus, as far as inputs ask for it.
#[derive(Drop)]
pub struct Variable<'a> {
    /// Its reference text, without a backslash at its beginning: a part of the text where it is one word.
    pub reference: CowSlice<'a, u8>,
    pub code: &'a [u8],
    /// How many bits it has, in decimal digits.
    pub size: &'a [u8],
    /// Its type isn't `real`, `realtime` or `string`.
    pub valued: bool,
    /// It stands in the scope that is asked for.
    pub counted: bool,
}

/// The parts in a row.
pub fn joined(alloc: Global, parts: &[&[u8]]) -> Result<Vec<u8>, StimFault>
    ensures ok { IfOk result (λ text. text.items ≡ concat (texts parts.now)) }
    ensures err { IfErr result (λ e. e ≡ out_of_memory) }
{
    let mut text = Vec::new(alloc);
    for part in parts {
        text.extend_from_slice(part)?;
    }
    Ok(text)
}

pub fn is_code(text: &[u8]) -> bool
    ensures { result ≡ is_code text.now }
{
    text.iter().all(|byte| matches!(*byte, 33..=126))
}

fn is_unvalued(kind: &[u8]) -> bool
    ensures { result ≡ is_unvalued kind.now }
{
    is_word(kind, b"real") || is_word(kind, b"realtime") || is_word(kind, b"string")
}

/// The text without a backslash at its beginning.
fn unescaped(text: &[u8]) -> &[u8]
    ensures { result.now ≡ unescaped text.now }
{
    if text.starts_with(b"\\") {
        &text[1..]
    } else {
        text
    }
}

/// The same of a text that is owned.
fn unescaped_vec(mut text: Vec<u8>) -> Vec<u8>
    ensures { result.items ≡ unescaped text.items }
{
    if text.as_slice().starts_with(b"\\") {
        text.remove(0);
    }
    text
}

/// The reference text of these words, which needs memory only where they are several.
fn reference_of<'a>(alloc: Global, parts: &[&'a [u8]]) -> Result<CowSlice<'a, u8>, StimFault>
    ensures ok { IfOk result (λ reference. cow_slice_items reference ≡ unescaped (concat (texts parts.now))) }
    ensures err { IfErr result (λ e. e ≡ out_of_memory) }
{
    match parts {
        [part] => Ok(CowSlice::Borrowed(unescaped(part))),
        _ => Ok(CowSlice::Owned(unescaped_vec(joined(alloc, parts)?))),
    }
}

/// The variable that a `$var` declares.
pub fn variable_of<'a>(
    alloc: Global,
    counted: bool,
    first: Word<'a>,
    body: &[&'a [u8]],
) -> Result<Variable<'a>, StimFault>
    ensures { Reads variable result (or_fault (variable_of counted (texts body.now)) (token_of first.entry) causes.BadVar) }
{
    match body {
        [kind, size, code, parts @ ..] => {
            if parts.is_empty() || !is_numeral(size) || !is_code(code) {
                return Err(first.fault(StimCause::BadVar));
            }
            Ok(Variable {
                reference: reference_of(alloc, parts)?,
                code,
                size,
                valued: !is_unvalued(kind),
                counted,
            })
        }
        _ => Err(first.fault(StimCause::BadVar)),
    }
}
