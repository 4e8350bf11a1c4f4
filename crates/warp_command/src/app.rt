//! The program's commands, options and arguments, of which `clap` makes help and refusals.
ghost use Rattle.std.specs.Prelude.{IfOk, codes};
ghost use Rattle.clap.specs.Words.{new_app, new_rule};
ghost use Rattle.warp_command.specs.App.{
  required,
  until_rule,
  blocks_rule,
  workers_rule,
  window_rule,
  settings_rule,
  only_rule,
  stats_rule,
  progress_rule,
  explain_rule,
  bench_rule,
  stimulus_rule,
  run_shape,
  replay_shape,
  check_shape,
  nets_shape,
  scope_rule,
  map_rule,
  from_rule,
  to_rule,
  offset_rule,
  within_rule,
  at_rule,
  any_for_x_rule,
  list_rule,
  expected_rule,
  actual_rule,
  compare_shape,
  program_app,
};
ghost use Rattle.warp_command.specs.Inner.App.{HasApp, HasRule, HasShape};

use clap::{Arg, ArgAction, Command, value_parser};
use std::alloc::{AllocError, Global};
use warp_block::MOST_HORIZON;
use warp_text::{MOST_BLOCKS, MOST_WINDOW, MOST_WORKERS};

/// The version of the program, which `--version` prints behind its name.
pub const VERSION: &str = "0.1.0";

fn settings_option<'a>(alloc: Global) -> Arg<'a>
    ensures { HasRule settings_rule result }
{
    Arg::new(alloc, "settings")
        .long("settings")
        .value_name("FILE")
        .action(ArgAction::Set)
        .help("Delays, clock, scope and cut, as TOML")
}

fn only_option<'a>(alloc: Global) -> Arg<'a>
    ensures { HasRule only_rule result }
{
    Arg::new(alloc, "only")
        .long("only")
        .value_name("NETS")
        .action(ArgAction::Set)
        .help("Tells some nets alone: outputs, or a file of names, one a line")
}

fn stats_option<'a>(alloc: Global) -> Arg<'a>
    ensures { HasRule stats_rule result }
{
    Arg::new(alloc, "stats")
        .long("stats")
        .value_name("FILE")
        .action(ArgAction::Set)
        .help("Writes after the dump what is counted of the run, as TOML")
}

fn progress_flag<'a>(alloc: Global) -> Arg<'a>
    ensures { HasRule progress_rule result }
{
    Arg::new(alloc, "progress")
        .long("progress")
        .action(ArgAction::SetTrue)
        .help("Tells on standard error how far the run has come")
}

fn explain_flag<'a>(alloc: Global) -> Arg<'a>
    ensures { HasRule explain_rule result }
{
    Arg::new(alloc, "explain")
        .long("explain")
        .action(ArgAction::SetTrue)
        .help("Tells behind the line of a refused text where it stands, why, and what to do")
}

fn required_argument<'a>(alloc: Global, name: &'a str, help: &'a str) -> Arg<'a>
    ensures { HasRule (required (new_rule name.entry.now)) result }
{
    Arg::new(alloc, name).required(true).help(help)
}

fn bench_argument<'a>(alloc: Global, help: &'a str) -> Arg<'a>
    ensures { HasRule bench_rule result }
{
    required_argument(alloc, "BENCH", help)
}

fn stimulus_argument<'a>(alloc: Global) -> Arg<'a>
    ensures { HasRule stimulus_rule result }
{
    Arg::new(alloc, "STIMULUS").help("The inputs' changes, as VCD")
}

fn until_option<'a>(alloc: Global) -> Arg<'a>
    ensures { HasRule until_rule result }
{
    Arg::new(alloc, "until")
        .long("until")
        .value_name("T")
        .required(true)
        .action(ArgAction::Set)
        .value_parser(value_parser!(u64).range(0..=MOST_HORIZON as i64))
        .help("The time at which the dump ends, in units of the stimulus's timescale")
}

fn blocks_option<'a>(alloc: Global) -> Arg<'a>
    ensures { HasRule blocks_rule result }
{
    Arg::new(alloc, "blocks")
        .long("blocks")
        .value_name("N")
        .action(ArgAction::Set)
        .value_parser(value_parser!(u32).range(1..=MOST_BLOCKS as i64))
        .help("Cuts the circuit evenly into N blocks, whatever cut the settings give")
}

fn workers_option<'a>(alloc: Global) -> Arg<'a>
    ensures { HasRule workers_rule result }
{
    Arg::new(alloc, "workers")
        .long("workers")
        .value_name("K")
        .default_value("1")
        .action(ArgAction::Set)
        .value_parser(value_parser!(u32).range(1..=MOST_WORKERS as i64))
        .help("The number of threads that run blocks")
}

fn window_option<'a>(alloc: Global) -> Arg<'a>
    ensures { HasRule window_rule result }
{
    Arg::new(alloc, "window")
        .long("window")
        .value_name("W")
        .default_value("1000")
        .action(ArgAction::Set)
        .value_parser(value_parser!(u32).range(1..=MOST_WINDOW as i64))
        .help("The most event times that a block takes at one turn")
}

fn run_command<'a>(alloc: Global) -> Result<Command<'a>, AllocError>
    ensures { IfOk result (HasShape run_shape) }
{
    let bench = "The circuit; - for standard input, with the stimulus after a line %%";
    Command::new(alloc, "run")
        .about("Simulates a circuit and writes its value change dump")
        .args(vec![in alloc;
            until_option(alloc),
            blocks_option(alloc),
            workers_option(alloc),
            window_option(alloc),
            settings_option(alloc),
            only_option(alloc),
            stats_option(alloc),
            progress_flag(alloc),
            explain_flag(alloc),
            bench_argument(alloc, bench),
            stimulus_argument(alloc),
        ]?)
}

fn replay_command<'a>(alloc: Global) -> Result<Command<'a>, AllocError>
    ensures { IfOk result (HasShape replay_shape) }
{
    let stimulus = required_argument(alloc, "STIMULUS", "The inputs' changes, as VCD");
    let schedule = required_argument(alloc, "SCHEDULE", "The events, a line each");
    Command::new(alloc, "replay")
        .about("Plays a schedule of events on a circuit's blocks and writes the value change dump")
        .args(vec![in alloc;
            until_option(alloc),
            blocks_option(alloc),
            settings_option(alloc),
            only_option(alloc),
            explain_flag(alloc),
            bench_argument(alloc, "The circuit; - for standard input"),
            stimulus,
            schedule,
        ]?)
}

fn check_command<'a>(alloc: Global) -> Result<Command<'a>, AllocError>
    ensures { IfOk result (HasShape check_shape) }
{
    Command::new(alloc, "check")
        .about("Counts the parts of a circuit")
        .args(vec![in alloc;
            settings_option(alloc),
            explain_flag(alloc),
            bench_argument(alloc, "The circuit; - for standard input"),
        ]?)
}

fn nets_command<'a>(alloc: Global) -> Result<Command<'a>, AllocError>
    ensures { IfOk result (HasShape nets_shape) }
{
    Command::new(alloc, "nets")
        .about("Says of each net its number, code and name, what sets it, its delay and its block")
        .args(vec![in alloc;
            settings_option(alloc),
            explain_flag(alloc),
            bench_argument(alloc, "The circuit; - for standard input"),
        ]?)
}

fn scope_option<'a>(alloc: Global) -> Arg<'a>
    ensures { HasRule scope_rule result }
{
    Arg::new(alloc, "scope")
        .long("scope")
        .value_name("E=A")
        .action(ArgAction::Set)
        .help(
            "The scope of each dump that is compared, empty for all; else that of its first variable",
        )
}

fn from_option<'a>(alloc: Global) -> Arg<'a>
    ensures { HasRule from_rule result }
{
    Arg::new(alloc, "from")
        .long("from")
        .value_name("T")
        .default_value("0")
        .action(ArgAction::Set)
        .value_parser(value_parser!(u64))
        .help("The first compared time, in units of EXPECTED's timescale")
}

fn to_option<'a>(alloc: Global) -> Arg<'a>
    ensures { HasRule to_rule result }
{
    Arg::new(alloc, "to")
        .long("to")
        .value_name("T")
        .action(ArgAction::Set)
        .value_parser(value_parser!(u64))
        .help("The last compared time, else the last stamp of EXPECTED")
}

fn offset_option<'a>(alloc: Global) -> Arg<'a>
    ensures { HasRule offset_rule result }
{
    Arg::new(alloc, "offset")
        .long("offset")
        .value_name("T")
        .action(ArgAction::Set)
        .help("How much later ACTUAL is looked at; --offset=-5 for earlier")
}

fn within_option<'a>(alloc: Global) -> Arg<'a>
    ensures { HasRule within_rule result }
{
    Arg::new(alloc, "within")
        .long("within")
        .value_name("J")
        .default_value("0")
        .action(ArgAction::Set)
        .value_parser(value_parser!(u64))
        .help("How much earlier or later an edge may come")
}

fn at_option<'a>(alloc: Global) -> Arg<'a>
    ensures { HasRule at_rule result }
{
    Arg::new(alloc, "at")
        .long("at")
        .value_name("FIRST:STEP")
        .action(ArgAction::Set)
        .help("Compares at FIRST, FIRST + STEP and so on alone")
}

fn any_for_x_flag<'a>(alloc: Global) -> Arg<'a>
    ensures { HasRule any_for_x_rule result }
{
    Arg::new(alloc, "any-for-x")
        .long("any-for-x")
        .action(ArgAction::SetTrue)
        .help("Takes any value where x is expected")
}

fn list_option<'a>(alloc: Global) -> Arg<'a>
    ensures { HasRule list_rule result }
{
    Arg::new(alloc, "list")
        .long("list")
        .value_name("N")
        .default_value("20")
        .action(ArgAction::Set)
        .value_parser(value_parser!(u32))
        .help("The most differing bits that are listed; 0 for all")
}

fn expected_argument<'a>(alloc: Global) -> Arg<'a>
    ensures { HasRule expected_rule result }
{
    required_argument(
        alloc,
        "EXPECTED",
        "The dump that is expected; - for standard input",
    )
}

fn actual_argument<'a>(alloc: Global) -> Arg<'a>
    ensures { HasRule actual_rule result }
{
    required_argument(
        alloc,
        "ACTUAL",
        "The dump that is compared with it; - for standard input",
    )
}

fn map_option<'a>(alloc: Global) -> Arg<'a>
    ensures { HasRule map_rule result }
{
    Arg::new(alloc, "map")
        .long("map")
        .value_name("FILE")
        .action(ArgAction::Set)
        .help(
            "Pairs of bits that are compared, the two names of one a line; else those of one name",
        )
}

/// The command that compares, as yet without options.
fn begun_comparison<'a>(alloc: Global) -> Command<'a>
    ensures { HasApp (new_app (codes "compare")) result }
{
    Command::new(alloc, "compare").about("Says where two value change dumps differ, bit by bit")
}

fn compare_command<'a>(alloc: Global) -> Result<Command<'a>, AllocError>
    ensures { IfOk result (HasShape compare_shape) }
{
    begun_comparison(alloc).args(vec![in alloc;
        scope_option(alloc),
        map_option(alloc),
        from_option(alloc),
        to_option(alloc),
        offset_option(alloc),
        within_option(alloc),
        at_option(alloc),
        any_for_x_flag(alloc),
        list_option(alloc),
        explain_flag(alloc),
        expected_argument(alloc),
        actual_argument(alloc),
    ]?)
}

/// The program's command line, as `clap` reads it.
pub(crate) fn program_command<'a>(alloc: Global) -> Result<Command<'a>, AllocError>
    ensures { IfOk result (HasApp program_app) }
{
    Command::new(alloc, "warp_sim")
        .about("A simulator of gate-level circuits")
        .version(VERSION)
        .subcommand_required(true)
        .arg_required_else_help(true)
        .subcommand(run_command(alloc)?)?
        .subcommand(replay_command(alloc)?)?
        .subcommand(check_command(alloc)?)?
        .subcommand(nets_command(alloc)?)?
        .subcommand(compare_command(alloc)?)
}
