ghost use Rattle.std.specs.Prelude.{◌≡◌, length, count_by};
ghost use Rattle.std.specs.List.{list_any, list_all};
ghost use Rattle.gate_values.specs.Tables.{table_of, and_of, or_of, xor_of, HasInputs, is_zero, is_one, is_known};
ghost use Rattle.gate_values.specs.Words.{word_of};

use crate::logic::{Logic, invert, pass};
use crate::pair::pair;

/// A kind of gate.
#[derive(Clone, Copy, Debug, PartialEq, Eq)]
pub enum Kind {
    And,
    Nand,
    Or,
    Nor,
    Xor,
    Xnor,
    Not,
    Buff,
}

impl Kind {
    /// The word of this kind of gate, in upper case, as netlists in ISCAS'89's form and messages have it.
    pub fn word(self) -> &'static str
        ensures { result.now ≡ word_of self }
    {
        match self {
            Kind::And => "AND",
            Kind::Nand => "NAND",
            Kind::Or => "OR",
            Kind::Nor => "NOR",
            Kind::Xor => "XOR",
            Kind::Xnor => "XNOR",
            Kind::Not => "NOT",
            Kind::Buff => "BUFF",
        }
    }
}

/// What a gate puts out for the values of its inputs: `Not` and `Buff` have exactly one, the others one
/// or more. An input `Z` counts as `X`, and no gate puts out `Z`.
#[inline]
pub fn table(kind: Kind, inputs: &[Logic]) -> Logic
    requires { HasInputs kind (length inputs.now) }
    ensures { result ≡ table_of kind inputs.now }
{
    match inputs {
        [first, second] => pair(kind, *first, *second),
        _ => table_by_kind(kind, inputs),
    }
}

/// What a gate puts out, kind by kind, for any number of inputs.
#[inline(never)]
#[tactic(auto, unfolding(crate::specs::Tables::table_of))]
fn table_by_kind(kind: Kind, inputs: &[Logic]) -> Logic
    requires { HasInputs kind (length inputs.now) }
    ensures { result ≡ table_of kind inputs.now }
{
    match kind {
        Kind::And => and(inputs),
        Kind::Nand => invert(and(inputs)),
        Kind::Or => or(inputs),
        Kind::Nor => invert(or(inputs)),
        Kind::Xor => xor(inputs),
        Kind::Xnor => invert(xor(inputs)),
        Kind::Not => invert(inputs[0]),
        Kind::Buff => pass(inputs[0]),
    }
}

fn and(inputs: &[Logic]) -> Logic
    ensures { result ≡ and_of inputs.now }
{
    if some_zero(inputs) {
        Logic::Zero
    } else if all_one(inputs) {
        Logic::One
    } else {
        Logic::X
    }
}

fn or(inputs: &[Logic]) -> Logic
    ensures { result ≡ or_of inputs.now }
{
    if some_one(inputs) {
        Logic::One
    } else if all_zero(inputs) {
        Logic::Zero
    } else {
        Logic::X
    }
}

fn xor(inputs: &[Logic]) -> Logic
    ensures { result ≡ xor_of inputs.now }
{
    if !all_known(inputs) {
        Logic::X
    } else if ones(inputs) % 2 == 1 {
        Logic::One
    } else {
        Logic::Zero
    }
}

fn some_zero(inputs: &[Logic]) -> bool
    ensures { result ≡ list_any is_zero inputs.now }
{
    inputs.iter().any(|v| matches!(v, Logic::Zero))
}

fn some_one(inputs: &[Logic]) -> bool
    ensures { result ≡ list_any is_one inputs.now }
{
    inputs.iter().any(|v| matches!(v, Logic::One))
}

fn all_zero(inputs: &[Logic]) -> bool
    ensures { result ≡ list_all is_zero inputs.now }
{
    inputs.iter().all(|v| matches!(v, Logic::Zero))
}

fn all_one(inputs: &[Logic]) -> bool
    ensures { result ≡ list_all is_one inputs.now }
{
    inputs.iter().all(|v| matches!(v, Logic::One))
}

fn all_known(inputs: &[Logic]) -> bool
    ensures { result ≡ list_all is_known inputs.now }
{
    inputs.iter().all(|v| matches!(v, Logic::Zero | Logic::One))
}

fn ones(inputs: &[Logic]) -> usize
    ensures { result ≡ count_by is_one inputs.now }
{
    inputs.iter().filter(|v| matches!(v, Logic::One)).count()
}
