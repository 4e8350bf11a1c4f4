ghost use Rattle.std.specs.Prelude.{◌≡◌, ◌||◌, ℕ, List, None, Some, [], true, get_or, length, slice_get, is_some, IfErr, IfOk, IfSome, IsTrue};
ghost use Rattle.std.specs.List.{list_any, range_with_len};
ghost use Rattle.std.specs.List.Sorted.{IsPermutation};
ghost use Rattle.std.specs.Option.{option_map_or};
ghost use Rattle.std.specs.Str.{bytes_eq};
ghost use Rattle.gate_vcd.specs.Shown.Commands.{variables};
ghost use Rattle.gate_vcd.specs.Faults.{out_of_memory};
ghost use Rattle.gate_vcd.specs.Inner.Table.{found_in};
ghost use Rattle.gate_vcd.specs.Inner.Known.{AreFallingNets, AreNumbers, IsLeast, IsLinked, Takes, flat, in_order, knows, sources_in};
ghost use Rattle.gate_vcd.specs.Shown.Known.{is_used, source as source_of, source_by, sources_by};

use crate::fault::StimFault;
use crate::source::Source;
use crate::table::CodeTable;
use crate::variable::Variable;
use gate_netlist::TextSeed;
use std::alloc::Global;

/// The codes of a text, and the sources that inputs take.
#[derive(Drop)]
pub struct KnownCodes<'a> {
    /// The sources, each with a number.
    pub used: Vec<Source<'a>>,
    /// Of each code that a variable has the number of its last source.
    pub last: CodeTable<'a>,
    /// Of each source the one before it of the same code.
    pub before: Vec<Option<usize>>,
}

/// The codes of a text, and of each net the number of its source.
#[derive(Drop)]
pub struct Numbered<'a> {
    pub codes: KnownCodes<'a>,
    pub numbers: Vec<Option<usize>>,
}

/// The codes of variables, without sources.
fn codes_of<'a>(
    alloc: Global,
    seed: TextSeed,
    all: &[Variable<'a>],
) -> Result<CodeTable<'a>, StimFault>
    ensures known { (code : List ℕ) → IfOk result (λ codes. is_some (found_in codes code) ≡ list_any (λ v. bytes_eq code v.code) (variables all.now)) }
    ensures none { (code : List ℕ) → IfOk result (λ codes. flat (found_in codes code) ≡ None) }
    ensures err { IfErr result (λ e. e ≡ out_of_memory) }
{
    let mut codes = CodeTable::new(alloc, seed, all.len())?;
    for variable in all {
        codes.insert(variable.code, None)?;
    }
    Ok(codes)
}

/// The place of a source, and 0 where there is none.
fn place_of(taken: Option<Source>) -> u64
    ensures { result ≡ option_map_or (λ s. s.place) (source_by taken.entry) 0 }
{
    match taken {
        Some(source) => source.place,
        None => 0,
    }
}

/// The source of a net, if it has one.
fn taken_at<'a>(nets: &[Option<Source<'a>>], net: usize) -> Option<Source<'a>>
    ensures { source_by result ≡ get_or (sources_by nets.now) net None }
{
    match nets.get(net) {
        Some(taken) => *taken,
        None => None,
    }
}

/// The numbers below this one.
fn all_below(alloc: Global, count: usize) -> Result<Vec<usize>, StimFault>
    ensures all { IfOk result (λ all. all.items ≡ range_with_len 0 count) }
    ensures err { IfErr result (λ e. e ≡ out_of_memory) }
{
    let mut all = Vec::with_capacity(alloc, count)?;
    for number in 0..count {
        all.push(number)?;
    }
    Ok(all)
}

/// The nets, those whose sources stand at greater places first.
fn by_place(alloc: Global, nets: &[Option<Source>]) -> Result<Vec<usize>, StimFault>
    ensures all { IfOk result (λ order. IsPermutation (range_with_len 0 (length nets.now)) order.items) }
    ensures falls { IfOk result (λ order. AreFallingNets (in_order (sources_by nets.now) order.items)) }
    ensures err { IfErr result (λ e. e ≡ out_of_memory) }
{
    let mut order = all_below(alloc, nets.len())?;
    order.sort_by_key(|net| place_of(taken_at(nets, *net)))?;
    order.as_mut_slice().reverse();
    Ok(order)
}

/// How many nets take a source.
fn count_of(nets: &[Option<Source>]) -> usize {
    nets.iter().filter(|taken| taken.is_some()).count()
}

impl<'a> KnownCodes<'a> {
    /// The last source of a code.
    fn last_of(&self, code: &[u8]) -> Option<usize>
        ensures { result ≡ flat (found_in self.now.last code.now) }
    {
        match self.last.get(code) {
            Some(last) => last,
            None => None,
        }
    }

    /// Whether this is the number of a source.
    fn is_numbered(&self, source: Source, number: usize) -> bool
        ensures { IsTrue result → (slice_get (sources_in self.now) number ≡ Some (source_of source.entry)) }
    {
        match self.used.get(number) {
            Some(kept) => source == *kept,
            None => false,
        }
    }

    /// The number of a source, if it is the last one of its code.
    fn kept_number(&self, source: Source) -> Option<usize>
        ensures number { IfSome result (λ number. slice_get (sources_in self.now) number ≡ Some (source_of source.entry)) }
        ensures known { IfSome result (λ number. knows self.now source.entry.code.now ≡ true) }
    {
        match self.last_of(source.code) {
            Some(last) if self.is_numbered(source, last) => Some(last),
            _ => None,
        }
    }

    /// Keeps a source behind the last one of its code, and answers its number.
    fn add(&mut self, source: Source<'a>) -> Result<usize, StimFault>
        requires linked { IsLinked self.old }
        requires least { IsLeast self.old (Some (source_of source)) }
        ensures ok { IfOk result (λ number. Takes self.old self.new (Some (source_of source.entry)) (Some number)) }
        ensures err { IfErr result (λ e. e ≡ out_of_memory) }
    {
        let number = self.used.len();
        let last = self.last_of(source.code);
        self.before.push(last)?;
        self.last.insert(source.code, Some(number))?;
        self.used.push(source)?;
        Ok(number)
    }

    /// The number of the source of a net, if it has one. A source that isn't the last one of its code is kept now:
    /// since places fall, it isn't kept already.
    fn put(&mut self, taken: Option<Source<'a>>) -> Result<Option<usize>, StimFault>
        requires linked { IsLinked self.old }
        requires least { IsLeast self.old (source_by taken) }
        ensures ok { IfOk result (λ number. Takes self.old self.new (source_by taken.entry) number) }
        ensures err { IfErr result (λ e. e ≡ out_of_memory) }
    {
        match taken {
            Some(source) => match self.kept_number(source) {
                Some(number) => Ok(Some(number)),
                None => Ok(Some(self.add(source)?)),
            },
            None => Ok(None),
        }
    }

    /// The codes of variables, without sources.
    fn without_sources(
        alloc: Global,
        seed: TextSeed,
        all: &[Variable<'a>],
        count: usize,
    ) -> Result<KnownCodes<'a>, StimFault>
        ensures none { IfOk result (λ known. sources_in known ≡ []) }
        ensures linked { IfOk result IsLinked }
        ensures all { (code : List ℕ) → IfOk result (λ known. knows known code ≡ list_any (λ v. bytes_eq code v.code) (variables all.now)) }
        ensures err { IfErr result (λ e. e ≡ out_of_memory) }
    {
        Ok(KnownCodes {
            used: Vec::with_capacity(alloc, count)?,
            last: codes_of(alloc, seed, all)?,
            before: Vec::with_capacity(alloc, count)?,
        })
    }
}

impl<'a> Numbered<'a> {
    /// The codes of variables, and the sources that nets take, the nets in this order.
    fn in_order(
        alloc: Global,
        seed: TextSeed,
        all: &[Variable<'a>],
        nets: &[Option<Source<'a>>],
        order: &[usize],
    ) -> Result<Numbered<'a>, StimFault>
        requires order { IsPermutation (range_with_len 0 (length nets.now)) order.now }
        requires falls { AreFallingNets (in_order (sources_by nets.now) order.now) }
        ensures linked { IfOk result (λ numbered. IsLinked numbered.codes) }
        ensures all { (code : List ℕ) → IfOk result (λ numbered. knows numbered.codes code ≡ (list_any (λ v. bytes_eq code v.code) (variables all.now) || is_used (sources_by nets.now) code)) }
        ensures numbers { IfOk result (λ numbered. AreNumbers (sources_in numbered.codes) (sources_by nets.now) numbered.numbers.items) }
        ensures err { IfErr result (λ e. e ≡ out_of_memory) }
    {
        let mut codes = KnownCodes::without_sources(alloc, seed, all, count_of(nets))?;
        let mut numbers = Vec::new(alloc);
        numbers.resize(nets.len(), None)?;
        for net in order {
            numbers[*net] = codes.put(taken_at(nets, *net))?;
        }
        Ok(Numbered { codes, numbers })
    }

    /// The codes of variables, and the sources that nets take.
    pub fn of(
        alloc: Global,
        seed: TextSeed,
        all: &[Variable<'a>],
        nets: &[Option<Source<'a>>],
    ) -> Result<Numbered<'a>, StimFault>
        ensures linked { IfOk result (λ numbered. IsLinked numbered.codes) }
        ensures all { (code : List ℕ) → IfOk result (λ numbered. knows numbered.codes code ≡ (list_any (λ v. bytes_eq code v.code) (variables all.now) || is_used (sources_by nets.now) code)) }
        ensures numbers { IfOk result (λ numbered. AreNumbers (sources_in numbered.codes) (sources_by nets.now) numbered.numbers.items) }
        ensures err { IfErr result (λ e. e ≡ out_of_memory) }
    {
        let order = by_place(alloc, nets)?;
        Numbered::in_order(alloc, seed, all, nets, order.as_slice())
    }
}
