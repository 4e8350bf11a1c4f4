ghost use Rattle.std.specs.Prelude.{◌≡◌, ◌<◌, ◌≤◌, ◌^◌, ℕ, None, Some, true, is_some, IfErr, IfNone, IfSome, OnOk, if◌then◌else◌};
ghost use Rattle.std.specs.BTreeMap.{get};
ghost use Rattle.gate_vcd.specs.Faults.{out_of_memory};
ghost use Rattle.net_waves.specs.Inner.Pairs.{by_pair as in_order};
ghost use Rattle.gate_vcd.specs.Inner.Runs.{is_in, kept_at};

use crate::fault::StimFault;
use std::alloc::Global;
use std::collections::BTreeMap;

/// What is kept of a vector: its code, and the number of its rightmost bit.
#[derive(Clone, Copy, Debug)]
pub struct Kept<'a> {
    pub code: &'a [u8],
    pub right: u64,
}

/// The vectors that bits are taken from, by the numbers of their bases.
///
/// A run of bits that is put adds two starts at most, and each start is taken out once at most.
#[derive(Drop)]
pub struct Runs<'a> {
    /// At each bit where it changes, the vector of the bits from there on, if they have one.
    pub starts: BTreeMap<(usize, u64), Option<Kept<'a>>>,
}

impl<'a> Runs<'a> {
    /// No bit has a vector.
    pub fn new(alloc: Global) -> Runs<'a>
        ensures { (base bit : ℕ) → kept_at result.starts base bit ≡ None }
    {
        Runs {
            starts: BTreeMap::new(alloc),
        }
    }

    /// The vector of a bit.
    pub fn at(&self, base: usize, bit: u64) -> Option<Kept<'a>>
        ensures { result ≡ kept_at self.now.starts base bit }
    {
        match self.starts.range((base, 0)..=(base, bit)).next_back() {
            Some((_, kept)) => *kept,
            None => None,
        }
    }

    /// The first start among some bits.
    fn start_in(&self, base: usize, low: u64, high: u64) -> Option<u64>
        requires { low ≤ high }
        ensures some { IfSome result (λ start. is_some (get in_order self.now.starts (base, start)) ≡ true) }
        ensures within { IfSome result (λ start. is_in base low high base start ≡ true) }
        ensures none { (bit : ℕ) → is_in base low high base bit ≡ true → IfNone result (get in_order self.now.starts (base, bit) ≡ None) }
    {
        match self.starts.range((base, low)..=(base, high)).next() {
            Some(((_, start), _)) => Some(*start),
            None => None,
        }
    }

    /// Takes out the starts among some bits.
    fn clear(&mut self, base: usize, low: u64, high: u64)
        requires { low ≤ high }
        ensures { (other bit : ℕ) → get in_order self.new.starts (other, bit) ≡ (if is_in base low high other bit then None else get in_order self.old.starts (other, bit)) }
    {
        while let Some(start) = self.start_in(base, low, high) {
            self.starts.remove(&(base, start));
        }
    }

    /// Has some bits taken from a vector, and the others from where they were.
    pub fn put(&mut self, base: usize, low: u64, high: u64, kept: Kept<'a>) -> Result<(), StimFault>
        requires order { low ≤ high }
        requires small { high < 2 ^ 60 }
        ensures ok { (other bit : ℕ) → OnOk result (kept_at self.new.starts other bit ≡ (if is_in base low high other bit then Some kept.entry else kept_at self.old.starts other bit)) }
        ensures err { IfErr result (λ e. e ≡ out_of_memory) }
    {
        let after = self.at(base, high + 1);
        self.clear(base, low, high);
        self.starts.insert((base, high + 1), after)?;
        self.starts.insert((base, low), Some(kept))?;
        Ok(())
    }
}
