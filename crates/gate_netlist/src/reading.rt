ghost use Rattle.std.specs.Prelude.{◌≡◌, ◌<◌, ◌≤◌, ◌++◌, ◌∷◌, [], length, map, nat_lt, Some, Ok, IfOk, IfErr, IfSome, OnOk, option_to_list, option_map};
ghost use Rattle.std.specs.List.{list_all};
ghost use Rattle.gate_netlist.specs.declared.fault.BenchCause.TheVariants as cause;
ghost use Rattle.gate_netlist.specs.Faults.{out_of_memory, MemoryHasNoLine};
ghost use Rattle.gate_netlist.specs.Inner.Faults.{fault_at};
ghost use Rattle.gate_netlist.specs.Gives.{Gives};
ghost use Rattle.gate_netlist.specs.Inner.Meant.{meant};
ghost use Rattle.gate_netlist.specs.Inner.Keys.{names_in};
ghost use Rattle.gate_netlist.specs.Lines.{lines_of};
ghost use Rattle.gate_netlist.specs.Passes.{lines_after};
ghost use Rattle.gate_netlist.specs.Inner.FirstLine.{first_line};
ghost use Rattle.gate_netlist.specs.Bench.{net_defined, refusal, unless, stated, accepted, nets_defined, each_once, resolved, bench_of};
ghost use Rattle.gate_netlist.specs.Inner.Passes.{AreSaid, is_linked};
ghost use Rattle.gate_netlist.specs.Inner.Stored.{statements_in, LiesWithin, definition_by, output_by, made_from};

use crate::bench::{Bench, Definition, Names};
use crate::fault::{BenchCause, BenchFault};
use crate::nets::Nets;
use crate::seed::TextSeed;
use crate::statement::{Buffers, Statement, meaning_of};
use crate::store::{Statements, Stored};
use indexmap::IndexSet;
use std::alloc::{AllocError, Global};

/// The most nets that a bench text may define.
const MOST_NETS: usize = 999_999;

/// As many bytes as most lines have at least that define a net.
const BYTES_A_NET: usize = 24;

/// A guess at how many nets a text defines, so that lists needn't grow often while it is read.
fn expected_nets(text: &[u8]) -> usize {
    (text.len() / BYTES_A_NET).min(MOST_NETS)
}

/// Gives a new net the next number.
fn define(alloc: Global, names: &mut Names, name: &str) -> Result<(), BenchCause>
    ensures gives { Gives cause.Memory (λ x. x) result (unless (refusal (names_in names.old) (Some name.now)) tt) }
    ensures ok { OnOk result (names_in names.new ≡ names_in names.old ++ name.now ∷ []) }
{
    let key = String::from_str(alloc, name)?;
    if !names.insert(key)? {
        return Err(BenchCause::DrivenTwice);
    }
    if names.len() > MOST_NETS {
        return Err(BenchCause::TooManyNets);
    }
    Ok(())
}

fn net_defined<'a>(statement: &Statement<'a, '_>) -> Option<&'a str>
    ensures { option_map (λ name. name.now) result ≡ net_defined (meant statement.now) }
{
    match statement {
        Statement::Input(name) => Some(*name),
        Statement::Gate { name, .. } => Some(*name),
        Statement::Flop { name, .. } => Some(*name),
        Statement::Nothing => None,
        Statement::Output(_) => None,
    }
}

/// What the first line of a text says, after lines that define these nets, and what follows it. The net that it defines goes
/// last.
#[tactic(auto, unfolding(crate::specs::Bench::stated))]
fn stated<'a, 'b>(
    alloc: Global,
    buffers: &'b mut Buffers<'a>,
    names: &mut Names,
    text: &'a [u8],
) -> Result<(Statement<'a, 'b>, Option<&'a [u8]>), BenchCause>
    ensures gives { Gives cause.Memory (λ read. meant read.0) result (stated (names_in names.old) (first_line text.now)) }
    ensures names { IfOk result (λ read. names_in names.new ≡ names_in names.old ++ option_to_list (net_defined (meant read.0))) }
    ensures rest { IfOk result (λ read. lines_of text.now ≡ first_line text.now ∷ lines_after read.1) }
    ensures shorter { IfOk result (λ read. IfSome read.1 (λ rest. length rest.now < length text.now)) }
{
    let (statement, after) = meaning_of(buffers, text)?;
    match net_defined(&statement) {
        None => Ok((statement, after)),
        Some(name) => {
            define(alloc, names, name)?;
            Ok((statement, after))
        }
    }
}

fn fault_at(line: u64, cause: BenchCause) -> BenchFault
    ensures { result ≡ fault_at line cause }
{
    match cause {
        BenchCause::Memory => BenchFault::MEMORY,
        _ => BenchFault { line, cause },
    }
}

/// The nets that the lines of a text define, and what the lines say, where none is faulty by itself or by those before it.
fn accepted<'a>(alloc: Global, text: &'a [u8]) -> Result<(Names, Statements<'a>), BenchFault>
    ensures gives { Gives out_of_memory (λ read. statements_in read.1) result (accepted [] 1 (lines_of text.now)) }
    ensures named { IfOk result (λ read. names_in read.0 ≡ nets_defined (statements_in read.1)) }
    ensures memory { IfErr result MemoryHasNoLine }
{
    let room = expected_nets(text);
    let mut names = IndexSet::with_capacity_and_hasher(alloc, room, TextSeed::of(text))?;
    let mut statements = Statements::with_capacity(alloc, room)?;
    let mut buffers = Buffers::new(alloc);
    let mut number = 1;
    let mut rest = Some(text);
    while let Some(text) = rest {
        match stated(alloc, &mut buffers, &mut names, text) {
            Ok((statement, after)) => {
                statements.push(&statement)?;
                rest = after;
            }
            Err(cause) => return Err(fault_at(number, cause)),
        }
        number += 1;
    }
    Ok((names, statements))
}

/// What a line makes of the net that it defines, by the numbers of all uses.
fn definition_by(
    alloc: Global,
    numbers: &[u32],
    line: &Stored,
) -> Result<Option<Definition>, AllocError>
    requires { LiesWithin (length numbers.now) line.now }
    ensures { IfOk result (λ found. found ≡ definition_by numbers.now line.now) }
{
    match line {
        Stored::Input(_) => Ok(Some(Definition::Input)),
        Stored::Gate {
            kind,
            start,
            count,
            ..
        } => {
            let inputs = Nets::of(alloc, &numbers[*start..*start + *count])?;
            Ok(Some(Definition::Gate {
                kind: *kind,
                inputs,
            }))
        }
        Stored::Flop { d, .. } => Ok(Some(Definition::Flop { d: numbers[*d] })),
        Stored::Nothing => Ok(None),
        Stored::Output(_) => Ok(None),
    }
}

/// The net that a line marks.
fn output_by(numbers: &[u32], line: &Stored) -> Option<u32>
    requires { LiesWithin (length numbers.now) line.now }
    ensures { result ≡ output_by numbers.now line.now }
{
    match line {
        Stored::Output(net) => Some(numbers[*net]),
        _ => None,
    }
}

fn are_below(nets: &[u32], count: usize) -> bool
    ensures { result ≡ list_all (λ net. nat_lt net count) nets.now }
{
    nets.iter().all(|net| (*net as usize) < count)
}

/// Whether these nets and the marked one have numbers below a count.
fn is_linked(definition: &Option<Definition>, output: Option<u32>, count: usize) -> bool
    ensures { result ≡ is_linked definition.now output count }
{
    if let Some(net) = output {
        return (net as usize) < count;
    }
    match definition {
        Some(Definition::Gate { inputs, .. }) => are_below(inputs.as_slice(), count),
        Some(Definition::Flop { d }) => (*d as usize) < count,
        _ => true,
    }
}

/// What a line makes of the net that it defines, and the net that it marks, where each net that it uses is below a count.
fn made_from(
    alloc: Global,
    numbers: &[u32],
    count: usize,
    line: &Stored,
) -> Result<(Option<Definition>, Option<u32>), BenchCause>
    requires { LiesWithin (length numbers.now) line.now }
    ensures { Gives cause.Memory (λ made. made) result (made_from numbers.now count line.now) }
{
    let definition = definition_by(alloc, numbers, line)?;
    let output = output_by(numbers, line);
    if !is_linked(&definition, output, count) {
        return Err(BenchCause::Undriven);
    }
    Ok((definition, output))
}

/// Adds what a line makes of the net that it defines.
fn push_definition(
    definition: Option<Definition>,
    definitions: &mut Vec<Definition>,
) -> Result<(), AllocError>
    ensures { OnOk result (definitions.new.items ≡ definitions.old.items ++ option_to_list definition) }
{
    match definition {
        None => Ok(()),
        Some(definition) => {
            definitions.push(definition)?;
            Ok(())
        }
    }
}

/// Adds the net that a line marks.
fn push_output(output: Option<u32>, marked: &mut Vec<u32>) -> Result<(), AllocError>
    ensures { OnOk result (marked.new.items ≡ marked.old.items ++ option_to_list output) }
{
    match output {
        None => Ok(()),
        Some(net) => {
            marked.push(net)?;
            Ok(())
        }
    }
}

/// Each number once, where it first stands.
fn each_once(alloc: Global, seed: TextSeed, numbers: &[u32]) -> Result<Vec<u32>, AllocError>
    ensures { IfOk result (λ found. found.items ≡ each_once numbers.now) }
{
    let mut found: IndexSet<u32, TextSeed> = IndexSet::with_hasher(alloc, seed);
    for number in numbers {
        found.insert(*number)?;
    }
    Vec::from_slice(alloc, found.as_slice())
}

/// What lines say that define these nets, where each net that one uses is among them.
fn resolved(alloc: Global, names: Names, statements: &Statements) -> Result<Bench, BenchFault>
    requires named { names_in names ≡ nets_defined (statements_in statements.now) }
    requires said { AreSaid (statements_in statements.now) }
    ensures exact { Gives out_of_memory (λ bench. bench) result (resolved (statements_in statements.now)) }
    ensures memory { IfErr result MemoryHasNoLine }
{
    let numbers = statements.numbers(alloc, &names)?;
    let mut definitions = Vec::with_capacity(alloc, names.len())?;
    let mut marked = Vec::new(alloc);
    statements.law();
    for (place, line) in statements.lines().iter().enumerate() {
        match made_from(alloc, &numbers, names.len(), line) {
            Ok((definition, output)) => {
                push_definition(definition, &mut definitions)?;
                push_output(output, &mut marked)?;
            }
            Err(cause) => return Err(fault_at(place as u64 + 1, cause)),
        }
    }
    let outputs = each_once(alloc, *names.hasher(), &marked)?;
    Ok(Bench {
        names,
        definitions,
        outputs,
    })
}

/// What a bench text says: its nets in the order of their defining lines, and the nets marked as outputs.
///
/// A refused text gives the first fault: the first faulty line's, with the line's number from 1 on, or else that of the
/// first line that uses a net which no line defines. Want of memory is answered as soon as a growth is refused, with line 0.
///
/// The text is read once. Since a net may be used before its line, what each line says is kept until all nets are known.
pub fn read_bench(alloc: Global, text: &[u8]) -> Result<Bench, BenchFault>
    ensures exact { Gives out_of_memory (λ bench. bench) result (bench_of text.now) }
    ensures memory { IfErr result MemoryHasNoLine }
{
    match accepted(alloc, text) {
        Ok((names, statements)) => resolved(alloc, names, &statements),
        Err(fault) => Err(fault),
    }
}
