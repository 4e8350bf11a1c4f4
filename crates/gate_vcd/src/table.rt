ghost use Rattle.std.specs.Prelude.{◌≡◌, ◌<◌, ◌≤◌, ◌-◌, ℕ, List, None, Some, length, IfErr, IfOk, IfSome, OnOk, if◌then◌else◌};
ghost use Rattle.std.specs.Str.{bytes_eq};
ghost use Rattle.gate_vcd.specs.Faults.{out_of_memory};
ghost use Rattle.gate_vcd.specs.Inner.Table.{found_in, short_place, spelled};

use crate::fault::StimFault;
use crate::variable::is_code;
use gate_netlist::TextSeed;
use indexmap::IndexMap;
use std::alloc::Global;

/// The codes of a text, each with its last source. Simulators number their codes from 1 on, so that most stand in
/// an array at the number that they spell.
#[derive(Drop)]
pub struct CodeTable<'a> {
    pub short: Vec<Option<Option<usize>>>,
    /// The codes that spell no place of the array.
    pub long: IndexMap<&'a [u8], Option<usize>, TextSeed>,
}

/// The digit, in base 94, that a byte of a code is: 1 to 94.
fn digit(byte: u8) -> usize
    ensures value { result ≡ byte - 32 }
    ensures small { result ≤ 223 }
{
    byte.saturating_sub(32) as usize
}

/// The number that a code of at most four bytes spells.
fn spelled(code: &[u8]) -> usize
    requires { length code.now ≤ 4 }
    ensures { result ≡ spelled code.now }
{
    match code {
        [] => 0,
        [a] => digit(*a),
        [a, b] => digit(*a) + 94 * digit(*b),
        [a, b, c] => digit(*a) + 94 * (digit(*b) + 94 * digit(*c)),
        [a, b, c, rest @ ..] => {
            digit(*a) + 94 * (digit(*b) + 94 * (digit(*c) + 94 * first_digit(rest)))
        }
    }
}

/// The digit of the only byte.
fn first_digit(code: &[u8]) -> usize
    requires { length code.now ≡ 1 }
    ensures value { result ≡ spelled code.now }
    ensures small { result ≤ 223 }
{
    digit(code[0])
}

impl<'a> CodeTable<'a> {
    /// Room for so many codes, and none of them known yet.
    ///
    /// A simulator that writes as many codes as there are variables spells them by numbers up to about twice that.
    #[tactic(auto, unfolding(crate::specs::Inner::Table::found_in))]
    pub fn new(alloc: Global, seed: TextSeed, count: usize) -> Result<CodeTable<'a>, StimFault>
        ensures none { (code : List ℕ) → IfOk result (λ table. found_in table code ≡ None) }
        ensures err { IfErr result (λ e. e ≡ out_of_memory) }
    {
        let mut short = Vec::new(alloc);
        short.resize(count.saturating_mul(2).saturating_add(512), None)?;
        Ok(CodeTable {
            short,
            long: IndexMap::with_hasher(alloc, seed),
        })
    }

    /// Where a code stands in the array, if it does.
    fn short_place(&self, code: &[u8]) -> Option<usize>
        ensures value { result ≡ short_place (length self.now.short.items) code.now }
        ensures within { IfSome result (λ place. place < length self.now.short.items) }
    {
        if code.len() > 4 || !is_code(code) {
            return None;
        }
        let place = spelled(code);
        if place < self.short.len() {
            Some(place)
        } else {
            None
        }
    }

    /// The last source of a code, if the code is known.
    #[tactic(auto, unfolding(crate::specs::Inner::Table::found_in))]
    pub fn get(&self, code: &[u8]) -> Option<Option<usize>>
        ensures { result ≡ found_in self.now code.now }
    {
        match self.short_place(code) {
            Some(place) => self.short[place],
            None => self.long.get(code).copied(),
        }
    }

    /// Makes a code known, with its last source.
    pub fn insert(&mut self, code: &'a [u8], last: Option<usize>) -> Result<(), StimFault>
        ensures ok { (other : List ℕ) → OnOk result (found_in self.new other ≡ (if bytes_eq code.now other then Some last else found_in self.old other)) }
        ensures err { IfErr result (λ e. e ≡ out_of_memory) }
    {
        match self.short_place(code) {
            Some(place) => {
                self.short[place] = Some(last);
                Ok(())
            }
            None => {
                self.long.insert(code, last)?;
                Ok(())
            }
        }
    }
}
