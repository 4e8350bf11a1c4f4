ghost use Rattle.std.specs.Prelude.{◌≡◌, ◌<◌, ◌&&◌, ◌++◌, ℕ, List, Err, None, Ok, codes, length, nat_eq, nat_lt, option_map, IfErr, IfOk, IfSome, IsUtf8, MatchResult};
ghost use Rattle.std.specs.List.{list_any, starts_with};
ghost use Rattle.std.specs.Str.{bytes_eq};
ghost use Rattle.gate_netlist.specs.Circuit.{nets_of, name_of};
ghost use Rattle.gate_vcd.specs.Shown.Commands.{variable as variable_of, variables};
ghost use Rattle.gate_vcd.specs.Faults.{out_of_memory};
ghost use Rattle.std.specs.Option.{option_or};
ghost use Rattle.gate_vcd.specs.Inputs.{is_named_for, is_single, is_scalar_of, bit_source, scalar_source, source_of, cause_without, source_or_fault, source_of_net, sources_below};
ghost use Rattle.gate_vcd.specs.Shown.Known.{source, source_by, sources_by};
ghost use Rattle.gate_vcd.specs.Inner.Scalars.{AreInputs, AreScalars, is_net, scalar_if, source_at, without_index};
ghost use Rattle.gate_vcd.specs.Inner.Sought.{IsGiven};

use crate::fault::{StimCause, StimFault};
use crate::keyword::is_word;
use crate::source::Source;
use crate::variable::Variable;
use crate::vectors::{Vectors, bit_of};
use gate_netlist::{Circuit, TextSeed};
use gate_stimulus::is_input;
use std::alloc::Global;
use text_numbers::number_up_to;

/// Whether a net has this name.
fn has_name(circuit: &Circuit, net: u32, name: &[u8]) -> bool
    ensures { result ≡ (nat_lt net (nets_of circuit.now) && bytes_eq name.now (name_of circuit.now net)) }
{
    net < circuit.nets() && is_word(name, circuit.name(net).as_bytes())
}

/// The net of a name.
fn find(circuit: &Circuit, name: &[u8]) -> Option<u32>
    ensures within { IfSome result (λ net. net < nets_of circuit.now) }
    ensures found { (net : ℕ) → net < nets_of circuit.now → IsUtf8 (name_of circuit.now net) → bytes_eq (name_of circuit.now net) name.now ≡ is_net result net }
{
    circuit.law();
    match str::from_utf8(name) {
        Ok(name) => circuit.find(name),
        Err(_) => None,
    }
}

/// The net of a name, sought first at this one.
fn net_of(circuit: &Circuit, name: &[u8], next: u32) -> Option<u32>
    ensures within { IfSome result (λ net. net < nets_of circuit.now) }
    ensures found { (net : ℕ) → net < nets_of circuit.now → IsUtf8 (name_of circuit.now net) → bytes_eq (name_of circuit.now net) name.now ≡ is_net result net }
{
    circuit.law();
    if has_name(circuit, next, name) {
        return Some(next);
    }
    find(circuit, name)
}

/// The text before an index of 0 of 0, where it ends with one.
fn without_index(text: &[u8]) -> Option<&[u8]>
    ensures { option_map (λ short. short.now) result ≡ without_index text.now }
{
    text.strip_suffix(b"[0:0]")
}

fn is_single(variable: &Variable) -> bool
    ensures { result ≡ is_single (variable_of variable.now) }
{
    variable.valued && number_up_to(1, variable.size) == Some(1)
}

/// What the scalars among variables give nets.
#[derive(Drop)]
struct Scalars<'a> {
    /// Of each net the source that the first scalar of its name gives.
    sources: Vec<Option<Source<'a>>>,
    /// The net behind the one found last: variables mostly stand in the order of the nets.
    next: u32,
}

impl<'a> Scalars<'a> {
    /// Keeps a code for a net that has none yet.
    fn put(&mut self, net: u32, code: &'a [u8])
        requires { net < length self.old.sources.items }
        ensures count { length self.new.sources.items ≡ length self.old.sources.items }
        ensures kept { (other : ℕ) → source_at self.new.sources.items other ≡ option_or (source_at self.old.sources.items other) (scalar_if (nat_eq other net) code.now) }
    {
        if self.sources[net as usize].is_none() {
            self.sources[net as usize] = Some(Source { code, place: 0 });
        }
    }

    /// Keeps a code for the net of a name, if that has none yet.
    fn note(&mut self, circuit: &Circuit, name: &[u8], code: &'a [u8])
        requires { length self.old.sources.items ≡ nets_of circuit.now }
        ensures count { length self.new.sources.items ≡ nets_of circuit.now }
        ensures kept { (net : ℕ) → net < nets_of circuit.now → IsUtf8 (name_of circuit.now net) → source_at self.new.sources.items net ≡ option_or (source_at self.old.sources.items net) (scalar_if (bytes_eq (name_of circuit.now net) name.now) code.now) }
    {
        if let Some(net) = net_of(circuit, name, self.next) {
            self.put(net, code);
            self.next = net.saturating_add(1);
        }
    }

    /// Keeps the code of a variable for the nets that it is a scalar of.
    fn note_variable(&mut self, circuit: &Circuit, variable: &Variable<'a>)
        requires { length self.old.sources.items ≡ nets_of circuit.now }
        ensures count { length self.new.sources.items ≡ nets_of circuit.now }
        ensures kept { (net : ℕ) → net < nets_of circuit.now → IsUtf8 (name_of circuit.now net) → source_at self.new.sources.items net ≡ option_or (source_at self.old.sources.items net) (scalar_if (is_scalar_of (name_of circuit.now net) (variable_of variable.now)) variable.now.code.now) }
    {
        if !variable.counted || !is_single(variable) {
            return;
        }
        self.note(circuit, variable.reference.as_slice(), variable.code);
        if let Some(name) = without_index(variable.reference.as_slice()) {
            self.note(circuit, name, variable.code);
        }
    }
}

/// Of each net the source that the first scalar of its name gives.
fn scalars_of<'a>(
    alloc: Global,
    circuit: &Circuit,
    all: &[Variable<'a>],
) -> Result<Vec<Option<Source<'a>>>, StimFault>
    ensures ok { IfOk result (λ sources. AreScalars circuit.now (variables all.now) sources.items) }
    ensures err { IfErr result (λ e. e ≡ out_of_memory) }
{
    let mut sources = Vec::new(alloc);
    sources.resize(circuit.nets() as usize, None)?;
    let mut scalars = Scalars { sources, next: 0 };
    for variable in all {
        scalars.note_variable(circuit, variable);
    }
    Ok(scalars.sources)
}

fn is_named_for(name: &[u8], variable: &Variable) -> bool
    ensures { result ≡ is_named_for name.now (variable_of variable.now) }
{
    variable.counted
        && (is_word(name, variable.reference.as_slice())
            || is_indexed(name, variable.reference.as_slice()))
}

/// Whether a text begins with a name and `[`.
fn is_indexed(name: &[u8], text: &[u8]) -> bool
    ensures { result ≡ starts_with nat_eq text.now (name.now ++ codes "[") }
{
    match text.strip_prefix(name) {
        Some(rest) => rest.starts_with(b"["),
        None => false,
    }
}

fn is_named(name: &[u8], all: &[Variable]) -> bool
    ensures { result ≡ list_any (λ v. is_named_for name.now (variable_of v)) all.now }
{
    all.iter().any(|variable| is_named_for(name, variable))
}

/// Why a net has no scalar.
fn cause_without(all: &[Variable], name: &[u8]) -> StimCause
    ensures { result ≡ cause_without (variables all.now) name.now }
{
    if is_named(name, all) {
        StimCause::NotScalar
    } else {
        StimCause::MissingInput
    }
}

/// What inputs without a scalar ask the variables for.
#[derive(Drop)]
struct Given<'v, 'a> {
    all: &'v [Variable<'a>],
    vectors: Vectors<'v, 'a>,
}

impl<'v, 'a> Given<'v, 'a> {
    fn of(
        alloc: Global,
        seed: TextSeed,
        all: &'v [Variable<'a>],
    ) -> Result<Given<'v, 'a>, StimFault>
        ensures ok { IfOk result IsGiven }
        ensures all { IfOk result (λ given. given.all.now ≡ all.now) }
        ensures err { IfErr result (λ e. e ≡ out_of_memory) }
    {
        let vectors = Vectors::of(alloc, seed, all)?;
        Ok(Given { all, vectors })
    }

    /// The source that the first vector gives of which a net is a bit.
    fn bit_source(&self, name: &[u8]) -> Option<Source<'a>>
        requires { IsGiven self.now }
        ensures { source_by result ≡ bit_source (variables self.now.all.now) name.now }
    {
        self.vectors.source_of(bit_of(name)?)
    }

    /// The source of an input: that of the first scalar of its name, and where there is none that of the first
    /// vector of which it is a bit.
    fn source_of(&self, name: &[u8], scalar: Option<Source<'a>>) -> Option<Source<'a>>
        requires given { IsGiven self.now }
        requires scalar { source_by scalar ≡ scalar_source (variables self.now.all.now) name.now }
        ensures { source_by result ≡ source_of (variables self.now.all.now) name.now }
    {
        match scalar {
            Some(source) => Some(source),
            None => self.bit_source(name),
        }
    }

    /// The source of an input, or why it has none.
    fn source_of_input(
        &self,
        net: u32,
        name: &[u8],
        scalar: Option<Source<'a>>,
    ) -> Result<Source<'a>, StimFault>
        requires given { IsGiven self.now }
        requires scalar { source_by scalar ≡ scalar_source (variables self.now.all.now) name.now }
        ensures { MatchResult result (λ s. source_or_fault (source_of (variables self.now.all.now) name.now) net (cause_without (variables self.now.all.now) name.now) ≡ Ok (source s)) (λ e. source_or_fault (source_of (variables self.now.all.now) name.now) net (cause_without (variables self.now.all.now) name.now) ≡ Err e) }
    {
        match self.source_of(name, scalar) {
            Some(source) => Ok(source),
            None => Err(StimFault {
                at: net as u64,
                cause: cause_without(self.all, name),
            }),
        }
    }
}

/// The source of a net, which only an input has, where the first scalar of its name gives this one.
fn source_of_net<'a>(
    circuit: &Circuit,
    net: u32,
    given: &Given<'_, 'a>,
    scalar: Option<Source<'a>>,
) -> Result<Option<Source<'a>>, StimFault>
    requires within { net < nets_of circuit.now }
    requires given { IsGiven given.now }
    requires scalar { IsUtf8 (name_of circuit.now net) → source_by scalar ≡ scalar_source (variables given.now.all.now) (name_of circuit.now net) }
    ensures { MatchResult result (λ s. source_of_net circuit.now (variables given.now.all.now) net ≡ Ok (source_by s)) (λ e. source_of_net circuit.now (variables given.now.all.now) net ≡ Err e) }
{
    if !is_input(circuit, net) {
        return Ok(None);
    }
    match given.source_of_input(net, circuit.name(net).as_bytes(), scalar) {
        Ok(source) => Ok(Some(source)),
        Err(fault) => Err(fault),
    }
}

/// Where the nets take their values from, which only inputs do.
#[derive(Drop)]
pub enum Inputs<'a> {
    /// The sources of the nets: each input has one.
    Found(Vec<Option<Source<'a>>>),
    /// The fault of the first input that has none.
    Lacking(StimFault),
}

/// Where the inputs take their values from. An error is want of memory.
pub fn inputs_of<'a>(
    alloc: Global,
    seed: TextSeed,
    circuit: &Circuit,
    all: &[Variable<'a>],
) -> Result<Inputs<'a>, StimFault>
    ensures ok { IfOk result (λ inputs. AreInputs inputs (sources_below circuit.now (variables all.now) (nets_of circuit.now))) }
    ensures err { IfErr result (λ e. e ≡ out_of_memory) }
{
    let given = Given::of(alloc, seed, all)?;
    let mut sources = scalars_of(alloc, circuit, all)?;
    for net in 0..circuit.nets() {
        match source_of_net(circuit, net, &given, sources[net as usize]) {
            Ok(source) => sources[net as usize] = source,
            Err(fault) => return Ok(Inputs::Lacking(fault)),
        }
    }
    Ok(Inputs::Found(sources))
}
