//! From the words of a command line to a request.
ghost use Rattle.std.specs.Prelude.{◌≡◌, Some, codes, map};
ghost use Rattle.clap.specs.Words.{kind_of, subcommand_rows_of};
ghost use Rattle.warp_command.specs.Inner.Line.{rows_in, AreReplayOptions, IsToldAs};
ghost use Rattle.warp_command.specs.Lines.{
  number_in,
  text_in,
  text_behind,
  Asks,
  AreOptions,
  AreSources,
  IsFlag,
  IsOnly,
  IsRun,
  IsReplay,
  IsCheck,
  IsListing,
  IsRequest,
  IsRead,
};

use crate::app::program_command;
use crate::comparison::comparison_of;
use crate::failure::Failure;
use crate::request::{Check, Listing, Only, Replay, Request, Run, Sources};
use clap::error::ErrorKind;
use clap::{ArgMatches, Error};
use std::alloc::Global;
use std::convert::AsStr;
use warp_text::{Fault, Options};

/// The number of an option that may be left out.
pub(crate) fn number_of<'a>(found: &ArgMatches<'a>, name: &str) -> Result<Option<u32>, Failure<'a>>
    ensures { IsRead (λ number. number_in (rows_in found.now) name.now ≡ number) result }
{
    match found.try_get_one::<u32>(name) {
        Ok(number) => Ok(number),
        Err(_) => Err(Failure::Incomplete),
    }
}

/// The number of an option that is given or has a default.
pub(crate) fn given_number_of<'a>(found: &ArgMatches<'a>, name: &str) -> Result<u32, Failure<'a>>
    ensures { IsRead (λ number. number_in (rows_in found.now) name.now ≡ Some number) result }
{
    match number_of(found, name)? {
        Some(number) => Ok(number),
        None => Err(Failure::Incomplete),
    }
}

/// The time at which the dump is to end.
fn until_of<'a>(found: &ArgMatches<'a>) -> Result<u64, Failure<'a>>
    ensures { IsRead (λ until. number_in (rows_in found.now) (codes "until") ≡ Some until) result }
{
    match found.get_one::<u64>("until") {
        Some(until) => Ok(until),
        None => Err(Failure::Incomplete),
    }
}

/// The text of an option or an argument that may be left out.
#[tactic(auto, using(crate::proofs::Lines::text_read))]
pub(crate) fn text_of<'a>(found: &ArgMatches<'a>, name: &str) -> Option<&'a str>
    ensures { text_in (rows_in found.now) name.now ≡ text_behind result }
{
    found.get_str(name)
}

/// The text of an argument that is given.
pub(crate) fn given_text_of<'a>(found: &ArgMatches<'a>, name: &str) -> Result<&'a str, Failure<'a>>
    ensures { IsRead (λ text. text_in (rows_in found.now) name.now ≡ Some text.now) result }
{
    match text_of(found, name) {
        Some(text) => Ok(text),
        None => Err(Failure::Incomplete),
    }
}

/// Whether a refused text is to be explained.
#[tactic(auto, using(crate::proofs::Lines::flag_read))]
pub(crate) fn explains_of(found: &ArgMatches<'_>) -> bool
    ensures { IsFlag (rows_in found.now) (codes "explain") result }
{
    found.get_flag("explain")
}

/// Whether how far a run has come is to be told.
#[tactic(auto, using(crate::proofs::Lines::flag_read))]
fn progress_of(found: &ArgMatches<'_>) -> bool
    ensures { IsFlag (rows_in found.now) (codes "progress") result }
{
    found.get_flag("progress")
}

/// The name of the file for what is counted of a run, where the line gives one.
fn stats_of<'a>(found: &ArgMatches<'a>) -> Option<&'a str>
    ensures { text_in (rows_in found.now) (codes "stats") ≡ text_behind result }
{
    text_of(found, "stats")
}

/// The name of the settings' text, where the line gives one.
fn settings_of<'a>(found: &ArgMatches<'a>) -> Option<&'a str>
    ensures { text_in (rows_in found.now) (codes "settings") ≡ text_behind result }
{
    text_of(found, "settings")
}

/// Which nets the dump tells.
#[tactic(auto, using(crate::proofs::Lines::outputs_named))]
fn only_of<'a>(found: &ArgMatches<'a>) -> Only<'a>
    ensures { IsOnly (rows_in found.now) result }
{
    match text_of(found, "only") {
        None => Only::All,
        Some(name) => {
            if name == "outputs" {
                Only::Outputs
            } else {
                Only::Named(name)
            }
        }
    }
}

/// What is chosen for a run.
fn options_of<'a>(found: &ArgMatches<'a>) -> Result<Options, Failure<'a>>
    ensures { IsRead (AreOptions (rows_in found.now)) result }
{
    let until = until_of(found)?;
    let blocks = number_of(found, "blocks")?;
    let workers = given_number_of(found, "workers")?;
    let window = given_number_of(found, "window")?;
    match Options::new(until, blocks, workers, window) {
        Some(options) => Ok(options),
        None => Err(Failure::Incomplete),
    }
}

/// Where the texts of a run stand: `-` is standard input with both, and then none is named.
#[tactic(auto, using(crate::proofs::Lines::input_named))]
fn sources_of<'a>(found: &ArgMatches<'a>) -> Result<Sources<'a>, Failure<'a>>
    ensures { IsRead (AreSources (rows_in found.now)) result }
{
    let bench = given_text_of(found, "BENCH")?;
    let stimulus = text_of(found, "STIMULUS");
    if bench == "-" {
        match stimulus {
            None => Ok(Sources::Joined),
            Some(_) => Err(Failure::StimulusNotExpected),
        }
    } else {
        match stimulus {
            None => Err(Failure::StimulusExpected),
            Some(stimulus) => Ok(Sources::Apart { bench, stimulus }),
        }
    }
}

fn run_of<'a>(found: &ArgMatches<'a>) -> Result<Run<'a>, Failure<'a>>
    ensures { IsRead (IsRun (rows_in found.now)) result }
{
    let options = options_of(found)?;
    let explains = explains_of(found);
    let settings = settings_of(found);
    let only = only_of(found);
    let stats = stats_of(found);
    let progress = progress_of(found);
    let sources = sources_of(found)?;
    Ok(Run {
        options,
        explains,
        settings,
        only,
        stats,
        progress,
        sources,
    })
}

/// What is chosen for a replay, whose schedule stands in place of workers and turns.
fn replay_options_of<'a>(found: &ArgMatches<'a>) -> Result<Options, Failure<'a>>
    ensures { IsRead (AreReplayOptions (rows_in found.now)) result }
{
    let until = until_of(found)?;
    let blocks = number_of(found, "blocks")?;
    match Options::new(until, blocks, 1, 1) {
        Some(options) => Ok(options),
        None => Err(Failure::Incomplete),
    }
}

fn replay_of<'a>(found: &ArgMatches<'a>) -> Result<Replay<'a>, Failure<'a>>
    ensures { IsRead (IsReplay (rows_in found.now)) result }
{
    let options = replay_options_of(found)?;
    let explains = explains_of(found);
    let settings = settings_of(found);
    let only = only_of(found);
    let bench = given_text_of(found, "BENCH")?;
    let stimulus = given_text_of(found, "STIMULUS")?;
    let schedule = given_text_of(found, "SCHEDULE")?;
    Ok(Replay {
        options,
        explains,
        settings,
        only,
        bench,
        stimulus,
        schedule,
    })
}

fn check_of<'a>(found: &ArgMatches<'a>) -> Result<Check<'a>, Failure<'a>>
    ensures { IsRead (IsCheck (rows_in found.now)) result }
{
    let explains = explains_of(found);
    let settings = settings_of(found);
    let bench = given_text_of(found, "BENCH")?;
    Ok(Check {
        explains,
        settings,
        bench,
    })
}

fn listing_of<'a>(found: &ArgMatches<'a>) -> Result<Listing<'a>, Failure<'a>>
    ensures { IsRead (IsListing (rows_in found.now)) result }
{
    let explains = explains_of(found);
    let settings = settings_of(found);
    let bench = given_text_of(found, "BENCH")?;
    Ok(Listing {
        explains,
        settings,
        bench,
    })
}

/// What the command of a line and what stands behind it ask for.
fn request_of<'a>(matches: &ArgMatches<'a>) -> Result<Request<'a>, Failure<'a>>
    ensures { IsRead (Asks (subcommand_rows_of matches.now)) result }
{
    match matches.subcommand() {
        Some(("run", found)) => Ok(Request::Run(run_of(found)?)),
        Some(("replay", found)) => Ok(Request::Replay(replay_of(found)?)),
        Some(("check", found)) => Ok(Request::Check(check_of(found)?)),
        Some(("nets", found)) => Ok(Request::Nets(listing_of(found)?)),
        Some(("compare", found)) => Ok(Request::Compare(comparison_of(found)?)),
        _ => Err(Failure::Incomplete),
    }
}

/// What `clap` says to a line: a request for help or the version, or why the line is refused.
fn told<'a>(alloc: Global, error: &Error) -> Result<Request<'a>, Failure<'a>>
    ensures { IsRead (IsToldAs (kind_of error.now)) result }
{
    match error.kind() {
        ErrorKind::OutOfMemory => Err(Failure::Fault(Fault::Memory)),
        ErrorKind::DisplayHelp | ErrorKind::DisplayVersion => {
            Ok(Request::Help(error.to_string(alloc)?))
        }
        _ => Err(Failure::Line(error.to_string(alloc)?)),
    }
}

/// Reads the words of a command line, the program's own name first.
pub fn read_line<'a, S: AsStr>(alloc: Global, words: &'a [S]) -> Result<Request<'a>, Failure<'a>>
    ensures { IsRead (IsRequest (map S.text words.entry.now)) result }
{
    let command = program_command(alloc)?;
    match command.try_get_matches_from(words) {
        Ok(matches) => request_of(&matches),
        Err(error) => told(alloc, &error),
    }
}
