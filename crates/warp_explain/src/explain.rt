//! From a fault to what is told of it.
ghost use Rattle.std.specs.Prelude.{IfOk, Some, string_bytes};
ghost use Rattle.warp_explain.specs.Explained.{
  IsComparisonExplained,
  IsMapExplained,
  IsStimulusExplained,
  IsToldAt,
  IsToldInLine,
  IsToldOf,
  IsToldOfOne,
};

use dump_findings::{
    Compared, Found, Missing, of_dump, of_empty_map, of_input, of_map, of_nothing, says_nothing,
};
use finding_words::{Finding, Kind};
use gate_netlist::{BenchFault, SettingsFault};
use gate_vcd::{StimCause, StimFault};
use line_findings::{Lack, of_bench, of_event, of_only, of_schedule, of_settings, of_unfinished};
use only_nets::OnlyFault;
use std::alloc::{AllocError, Global};
use text_places::{Source, tell, within_line};
use vcd_compare::{CompareFault, MapFault, Options};
use warp_core::{PlayFault, ScheduleCause, ScheduleFault};

fn told(alloc: Global, source: Source<'_>, finding: &Finding) -> Result<String, AllocError>
    ensures { IfOk result (λ told. IsToldOf source.entry (string_bytes told)) }
{
    tell(alloc, source, finding.at, finding.said.remark())
}

fn told_in_line(
    alloc: Global,
    source: Source<'_>,
    line: u64,
    finding: &Finding,
) -> Result<String, AllocError>
    ensures { IfOk result (λ told. IsToldInLine source.entry line (string_bytes told)) }
{
    let at = within_line(source.text, line, finding.at);
    tell(alloc, source, at, finding.said.remark())
}

/// Why a dump is refused that is expected to be of a kind, told at the fault's offset.
fn told_of_dump(
    alloc: Global,
    source: Source<'_>,
    kind: Kind,
    cause: StimCause,
    at: u64,
) -> Result<String, AllocError>
    ensures { IfOk result (λ told. IsToldAt source.entry at (string_bytes told)) }
{
    let at = at as usize;
    let said = of_dump(alloc, source, kind, cause, at)?;
    tell(alloc, source, at, said.remark())
}

/// Why a bench is refused, told in the line of the fault.
pub fn explain_bench(
    alloc: Global,
    bench: Source<'_>,
    fault: &BenchFault,
) -> Result<String, AllocError>
    ensures { IfOk result (λ told. IsToldInLine bench.entry fault.now.line (string_bytes told)) }
{
    let finding = of_bench(alloc, bench, fault)?;
    told_in_line(alloc, bench, fault.line, &finding)
}

/// Why settings are refused, told at the key that is meant.
pub fn explain_settings(
    alloc: Global,
    bench: Source<'_>,
    settings: Source<'_>,
    fault: SettingsFault,
) -> Result<String, AllocError>
    ensures { IfOk result (λ told. IsToldOf settings.entry (string_bytes told)) }
{
    let finding = of_settings(alloc, bench, settings, fault)?;
    told(alloc, settings, &finding)
}

/// Why a stimulus is refused: told at the fault's offset; where an input isn't given, at the variable that is near to it or
/// at the line of the bench that has it.
pub fn explain_stimulus(
    alloc: Global,
    bench: Source<'_>,
    settings: Source<'_>,
    stimulus: Source<'_>,
    fault: &StimFault,
) -> Result<String, AllocError>
    ensures { IfOk result (λ told. IsStimulusExplained bench.entry stimulus.entry fault.now (string_bytes told)) }
{
    match fault.cause {
        StimCause::MissingInput | StimCause::NotScalar => {
            match of_input(alloc, bench, settings.text, stimulus, fault.cause, fault.at)? {
                Found::InStimulus(finding) => told(alloc, stimulus, &finding),
                Found::InBench(finding) => told(alloc, bench, &finding),
            }
        }
        cause => { told_of_dump(alloc, stimulus, Kind::Stimulus, cause, fault.at) }
    }
}

/// Why a schedule is refused, told in the line of the fault.
pub fn explain_schedule(
    alloc: Global,
    schedule: Source<'_>,
    fault: &ScheduleFault,
) -> Result<String, AllocError>
    ensures { IfOk result (λ told. IsToldInLine schedule.entry fault.now.line (string_bytes told)) }
{
    let is_large = fault.cause == ScheduleCause::NumberTooLarge;
    let finding = of_schedule(alloc, schedule, fault.line, is_large)?;
    told_in_line(alloc, schedule, fault.line, &finding)
}

/// Why an event of a schedule, by its number from 1, can't be played.
pub fn explain_event(
    alloc: Global,
    schedule: Source<'_>,
    number: u64,
    cause: PlayFault,
) -> Result<String, AllocError>
    ensures { IfOk result (λ told. IsToldOf schedule.entry (string_bytes told)) }
{
    let lack = match cause {
        PlayFault::NoSuchMessage => Lack::Message,
        PlayFault::NoSuchBlock => Lack::Block,
        _ => Lack::Other,
    };
    let finding = of_event(alloc, schedule, number, lack)?;
    told(alloc, schedule, &finding)
}

/// What a schedule is about that leaves something to do at a time, told at its last event.
pub fn explain_unfinished(
    alloc: Global,
    schedule: Source<'_>,
    time: u64,
) -> Result<String, AllocError>
    ensures { IfOk result (λ told. IsToldOf schedule.entry (string_bytes told)) }
{
    let finding = of_unfinished(alloc, schedule, time)?;
    told(alloc, schedule, &finding)
}

/// Why a text of names is refused, told in the line of the fault.
pub fn explain_only(
    alloc: Global,
    bench: Source<'_>,
    settings: Source<'_>,
    names: Source<'_>,
    fault: &OnlyFault,
) -> Result<String, AllocError>
    ensures { IfOk result (λ told. IsToldInLine names.entry fault.now.line (string_bytes told)) }
{
    let finding = of_only(alloc, bench, settings.text, names, fault)?;
    told_in_line(alloc, names, fault.line, &finding)
}

/// Why a map is refused, if there is one, told in the line of the fault.
fn explain_map(
    alloc: Global,
    options: &Options<'_>,
    texts: &Compared<'_>,
    fault: &MapFault,
) -> Result<String, AllocError>
    ensures { IfOk result (λ told. IsMapExplained texts.now.map fault.now.line (string_bytes told)) }
{
    match texts.map {
        Some(map) => {
            let finding = of_map(alloc, options, texts, map, fault)?;
            told_in_line(alloc, map, fault.line, &finding)
        }
        None => Ok(String::new(alloc)),
    }
}

/// Why dumps have nothing to compare, told in one of them.
fn explain_missing(
    alloc: Global,
    options: &Options<'_>,
    texts: &Compared<'_>,
) -> Result<String, AllocError>
    ensures { IfOk result (λ told. IsToldOfOne texts.now (string_bytes told)) }
{
    match of_nothing(alloc, options, texts)? {
        Missing::InExpected(finding) => told(alloc, texts.expected, &finding),
        Missing::InActual(finding) => told(alloc, texts.actual, &finding),
    }
}

/// Why there is nothing to compare, told in one of the texts.
fn explain_nothing(
    alloc: Global,
    options: &Options<'_>,
    texts: &Compared<'_>,
) -> Result<String, AllocError>
    ensures { IfOk result (λ told. IsToldOfOne texts.now (string_bytes told)) }
{
    match texts.map {
        Some(map) if says_nothing(map.text) => {
            let finding = of_empty_map(alloc, map)?;
            told(alloc, map, &finding)
        }
        _ => explain_missing(alloc, options, texts),
    }
}

/// Why two dumps aren't compared: told at the fault's offset of the dump that is refused, in the fault's line of the map;
/// where there is nothing to compare, in one of the texts.
pub fn explain_comparison(
    alloc: Global,
    options: &Options<'_>,
    texts: &Compared<'_>,
    fault: &CompareFault,
) -> Result<String, AllocError>
    ensures { IfOk result (λ told. IsComparisonExplained texts.now fault.now (string_bytes told)) }
{
    match fault {
        CompareFault::Expected(fault) => {
            told_of_dump(alloc, texts.expected, Kind::Dump, fault.cause, fault.at)
        }
        CompareFault::Actual(fault) => {
            told_of_dump(alloc, texts.actual, Kind::Dump, fault.cause, fault.at)
        }
        CompareFault::Map(fault) => explain_map(alloc, options, texts, fault),
        CompareFault::Nothing => explain_nothing(alloc, options, texts),
        CompareFault::Memory => Ok(String::new(alloc)),
    }
}
