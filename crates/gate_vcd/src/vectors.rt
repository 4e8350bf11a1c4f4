ghost use Rattle.std.specs.Prelude.{◌≡◌, ◌<◌, ◌≤◌, ◌∷◌, ◌&&◌, ℕ, List, length, position, option_map, nat_eq, nat_le, Some, IfErr, IfOk, IfSome, OnOk};
ghost use Rattle.std.specs.Path.{rfind_below};
ghost use Rattle.gate_vcd.specs.Shown.Commands.{variable as variable_of, variables};
ghost use Rattle.gate_vcd.specs.Declarations.{Variable as TextVariable};
ghost use Rattle.gate_vcd.specs.Faults.{out_of_memory};
ghost use Rattle.gate_vcd.specs.Inputs.{first_given, source_in};
ghost use Rattle.gate_vcd.specs.Shown.Known.{source_by};
ghost use Rattle.gate_vcd.specs.Inner.Scalars.{AreVectors, bit as bit_by, two_texts};
ghost use Rattle.gate_vcd.specs.Shown.Scalars.{vector as vector_in, vector_by};
ghost use Rattle.gate_vcd.specs.Vectors.{bit_of, bracketed, index_in, is_between, is_plain, last_bit, number_in, parted, range_in, ranged, vector_of};

use crate::fault::StimFault;
use crate::runs::{Kept, Runs};
use crate::source::Source;
use crate::variable::Variable;
use gate_netlist::TextSeed;
use indexmap::IndexSet;
use std::alloc::Global;
use text_numbers::{is_numeral, number_up_to};

/// The greatest number of a bit.
const LAST_BIT: u64 = 4_294_967_295;

/// A vector: its base, and the numbers of its leftmost bit and of its rightmost one.
#[derive(Clone, Copy, Debug)]
pub struct Vector<'v> {
    pub base: &'v [u8],
    pub left: u64,
    pub right: u64,
}

/// A bit: the base of the vectors that have it, and its number.
#[derive(Clone, Copy, Debug)]
pub struct Bit<'n> {
    pub base: &'n [u8],
    pub index: u64,
}

/// The number that a text of decimal digits writes, where it can be that of a bit.
fn number_in(text: &[u8]) -> Option<u64>
    ensures value { result ≡ number_in text.now }
    ensures small { IfSome result (λ number. number ≤ last_bit) }
{
    if is_numeral(text) {
        number_up_to(LAST_BIT, text)
    } else {
        None
    }
}

/// Where the last `[` stands.
fn last_bracket(text: &[u8]) -> Option<usize>
    ensures place { result ≡ rfind_below 91 text.now (length text.now) }
    ensures within { IfSome result (λ at. at < length text.now) }
{
    let mut at = text.len();
    while at > 0 {
        at -= 1;
        if text[at] == b'[' {
            return Some(at);
        }
    }
    None
}

/// What stands before the last `[`, which isn't empty, and after it.
fn parted(text: &[u8]) -> Option<(&[u8], &[u8])>
    ensures { two_texts result ≡ parted text.now }
{
    match last_bracket(text) {
        Some(at) if at > 0 => Some((&text[..at], &text[at + 1..])),
        _ => None,
    }
}

/// Of a text that ends with something in brackets, what stands before and in them.
fn bracketed(text: &[u8]) -> Option<(&[u8], &[u8])>
    ensures { two_texts result ≡ bracketed text.now }
{
    match text.strip_suffix(b"]") {
        Some(short) => parted(short),
        None => None,
    }
}

/// Where the first colon stands.
fn colon_in(text: &[u8]) -> Option<usize>
    ensures { result ≡ position (λ b. nat_eq b 58) text.now }
{
    text.iter().position(|byte| *byte == b':')
}

/// The numbers of a range, parted by a colon.
fn range_in(text: &[u8]) -> Option<(u64, u64)>
    ensures value { result ≡ range_in text.now }
    ensures small { IfSome result (λ range. (range.0 ≤ last_bit) × (range.1 ≤ last_bit)) }
{
    match colon_in(text) {
        Some(at) => match (number_in(&text[..at]), number_in(&text[at + 1..])) {
            (Some(left), Some(right)) => Some((left, right)),
            _ => None,
        },
        None => None,
    }
}

/// The vector that a reference text with a range names.
fn ranged(text: &[u8]) -> Option<Vector<'_>>
    ensures value { vector_by result ≡ ranged text.now }
    ensures small { IfSome result (λ vector. (vector.left ≤ last_bit) × (vector.right ≤ last_bit)) }
{
    let (base, inside) = bracketed(text)?;
    let (left, right) = range_in(inside)?;
    Some(Vector { base, left, right })
}

/// The vector that a variable is.
pub fn vector_of<'v, 'a>(variable: &'v Variable<'a>) -> Option<Vector<'v>>
    ensures value { vector_by result ≡ vector_of (variable_of variable.now) }
    ensures small { IfSome result (λ vector. (vector.left ≤ last_bit) × (vector.right ≤ last_bit)) }
{
    if !variable.counted || !variable.valued {
        return None;
    }
    let size = number_up_to(LAST_BIT + 1, variable.size)?;
    match ranged(variable.reference.as_slice()) {
        Some(vector) if size == vector.left.abs_diff(vector.right) + 1 => Some(vector),
        Some(_) => None,
        None if size >= 2 && size <= LAST_BIT => Some(Vector {
            base: variable.reference.as_slice(),
            left: size - 1,
            right: 0,
        }),
        None => None,
    }
}

/// Whether digits have no leading zeros.
fn is_plain(digits: &[u8]) -> bool
    ensures { result ≡ is_plain digits.now }
{
    !digits.starts_with(b"0") || digits.len() == 1
}

fn index_in(text: &[u8]) -> Option<u64>
    ensures { result ≡ index_in text.now }
{
    if is_plain(text) {
        number_in(text)
    } else {
        None
    }
}

/// The bit that the name of a net tells.
pub fn bit_of(name: &[u8]) -> Option<Bit<'_>>
    ensures { option_map bit_by result ≡ bit_of name.now }
{
    let (base, inside) = bracketed(name)?;
    let index = index_in(inside)?;
    Some(Bit { base, index })
}

impl Vector<'_> {
    /// The numbers of its bits, from the least to the greatest one.
    fn bits(self) -> (u64, u64)
        ensures order { result.0 ≤ result.1 }
        ensures within { (most : ℕ) → self.entry.left ≤ most → self.entry.right ≤ most → result.1 ≤ most }
        ensures bits { (index : ℕ) → is_between self.entry.left self.entry.right index ≡ (nat_le result.0 index && nat_le index result.1) }
    {
        if self.left <= self.right {
            (self.left, self.right)
        } else {
            (self.right, self.left)
        }
    }
}

/// The vectors of a text, by their bases and bits.
#[derive(Drop)]
pub struct Vectors<'v, 'a> {
    /// The bases, each with a number.
    pub bases: IndexSet<&'v [u8], TextSeed>,
    /// Of each bit the first vector that has it.
    pub runs: Runs<'a>,
}

impl<'v, 'a> Vectors<'v, 'a> {
    /// Keeps a vector before the others of its base.
    fn put(&mut self, vector: Vector<'v>, code: &'a [u8]) -> Result<(), StimFault>
        requires left { vector.left ≤ last_bit }
        requires right { vector.right ≤ last_bit }
        ensures ok { (vs : List TextVariable) (v : TextVariable) → vector_of v ≡ Some (vector_in vector.entry) → v.code ≡ code.now → AreVectors self.old vs → OnOk result (AreVectors self.new (v ∷ vs)) }
        ensures err { IfErr result (λ e. e ≡ out_of_memory) }
    {
        let (base, _) = self.bases.insert_full(vector.base)?;
        let (low, high) = vector.bits();
        let right = vector.right;
        self.runs.put(base, low, high, Kept { code, right })
    }

    /// Keeps a variable before the others, if it is a vector.
    fn put_variable(&mut self, variable: &'v Variable<'a>) -> Result<(), StimFault>
        ensures ok { (vs : List TextVariable) → AreVectors self.old vs → OnOk result (AreVectors self.new (variable_of variable.now ∷ vs)) }
        ensures err { IfErr result (λ e. e ≡ out_of_memory) }
    {
        match vector_of(variable) {
            Some(vector) => self.put(vector, variable.code),
            None => Ok(()),
        }
    }

    /// The vectors among these variables.
    pub fn of(
        alloc: Global,
        seed: TextSeed,
        all: &'v [Variable<'a>],
    ) -> Result<Vectors<'v, 'a>, StimFault>
        ensures ok { IfOk result (λ vectors. AreVectors vectors (variables all.now)) }
        ensures err { IfErr result (λ e. e ≡ out_of_memory) }
    {
        let mut vectors = Vectors {
            bases: IndexSet::with_hasher(alloc, seed),
            runs: Runs::new(alloc),
        };
        let mut at = all.len();
        while at > 0 {
            at -= 1;
            vectors.put_variable(&all[at])?;
        }
        Ok(vectors)
    }

    /// The source that the first vector gives that has a bit.
    pub fn source_of(&self, bit: Bit) -> Option<Source<'a>>
        ensures { (vs : List TextVariable) → AreVectors self.now vs → source_by result ≡ first_given (source_in (bit_by bit.entry)) vs }
    {
        let base = self.bases.get_index_of(bit.base)?;
        let kept = self.runs.at(base, bit.index)?;
        Some(Source {
            code: kept.code,
            place: bit.index.abs_diff(kept.right),
        })
    }
}
