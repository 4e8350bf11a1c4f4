//! From the words of a command line to a comparison.
ghost use Rattle.std.specs.Prelude.{◌≡◌, ◌<◌, ◌==◌, ◌&&◌, Some, codes, false, IfSome};
ghost use Rattle.warp_command.specs.Inner.Line.{rows_in};
ghost use Rattle.warp_command.specs.Lines.{
  number_in,
  text_in,
  text_behind,
  AreComparing,
  AreParted,
  AreScopes,
  AreStrobes,
  IsComparison,
  IsFlag,
  IsNumber,
  IsOffset,
  IsRead,
};
ghost use Rattle.warp_command.specs.Outside.{is_input};

use crate::failure::{Failure, Form};
use crate::line::{explains_of, given_number_of, given_text_of, text_of};
use crate::request::Comparison;
use clap::ArgMatches;
use vcd_compare::Options;

/// The time of an option that may be left out.
fn time_of<'a>(found: &ArgMatches<'a>, name: &str) -> Result<Option<u64>, Failure<'a>>
    ensures { IsRead (λ time. number_in (rows_in found.now) name.now ≡ time) result }
{
    match found.try_get_one::<u64>(name) {
        Ok(time) => Ok(time),
        Err(_) => Err(Failure::Incomplete),
    }
}

/// The time of an option that is given or has a default.
fn given_time_of<'a>(found: &ArgMatches<'a>, name: &str) -> Result<u64, Failure<'a>>
    ensures { IsRead (λ time. number_in (rows_in found.now) name.now ≡ Some time) result }
{
    match time_of(found, name)? {
        Some(time) => Ok(time),
        None => Err(Failure::Incomplete),
    }
}

/// The number that a text writes.
fn number_in(text: &str) -> Option<u64>
    ensures { IfSome result (IsNumber text.now) }
{
    match text.parse::<u64>() {
        Ok(number) => Some(number),
        Err(_) => None,
    }
}

fn parted_at_equals<'a>(text: &'a str) -> Option<(&'a str, &'a str)>
    ensures { IfSome result (λ parts. AreParted 61 text.entry.now parts.0.now parts.1.now) }
{
    text.split_once('=')
}

fn parted_at_colon<'a>(text: &'a str) -> Option<(&'a str, &'a str)>
    ensures { IfSome result (λ parts. AreParted 58 text.entry.now parts.0.now parts.1.now) }
{
    text.split_once(':')
}

/// The scopes that are compared.
fn scopes_of<'a>(
    found: &ArgMatches<'a>,
) -> Result<(Option<&'a [u8]>, Option<&'a [u8]>), Failure<'a>>
    ensures { IsRead (λ scopes. AreScopes (text_in (rows_in found.now) (codes "scope")) (text_behind scopes.0) (text_behind scopes.1)) result }
{
    let Some(text) = text_of(found, "scope") else {
        return Ok((None, None));
    };
    match parted_at_equals(text) {
        Some((expected, actual)) => Ok((Some(expected.as_bytes()), Some(actual.as_bytes()))),
        None => Err(Failure::Expected(Form::Scopes)),
    }
}

/// How much later the other dump is looked at, and how much earlier.
fn offset_of<'a>(found: &ArgMatches<'a>) -> Result<(u64, u64), Failure<'a>>
    ensures { IsRead (λ offset. IsOffset (text_in (rows_in found.now) (codes "offset")) offset.0 offset.1) result }
{
    let Some(text) = text_of(found, "offset") else {
        return Ok((0, 0));
    };
    let offset = match text.strip_prefix('-') {
        Some(digits) => number_in(digits).map(|earlier| (0, earlier)),
        None => number_in(text).map(|later| (later, 0)),
    };
    match offset {
        Some(offset) => Ok(offset),
        None => Err(Failure::Expected(Form::Offset)),
    }
}

/// The strobe that two texts write, if its step goes on.
fn strobe_in(first: &str, step: &str) -> Option<(u64, u64)>
    ensures { IfSome result (λ strobe. IsNumber first.now strobe.0 × IsNumber step.now strobe.1 × (0 < strobe.1)) }
{
    match (number_in(first), number_in(step)) {
        (Some(first), Some(step)) if step > 0 => Some((first, step)),
        _ => None,
    }
}

/// The first compared time and the step to the others, where not all are compared.
fn strobes_of<'a>(found: &ArgMatches<'a>) -> Result<Option<(u64, u64)>, Failure<'a>>
    ensures { IsRead (AreStrobes (text_in (rows_in found.now) (codes "at"))) result }
{
    let Some(text) = text_of(found, "at") else {
        return Ok(None);
    };
    let Some((first, step)) = parted_at_colon(text) else {
        return Err(Failure::Expected(Form::Strobes));
    };
    match strobe_in(first, step) {
        Some(strobe) => Ok(Some(strobe)),
        None => Err(Failure::Expected(Form::Strobes)),
    }
}

#[tactic(auto, using(crate::proofs::Lines::flag_read))]
fn takes_any_for_x(found: &ArgMatches<'_>) -> bool
    ensures { IsFlag (rows_in found.now) (codes "any-for-x") result }
{
    found.get_flag("any-for-x")
}

/// What is compared, and how.
fn comparing_of<'a>(found: &ArgMatches<'a>) -> Result<Options<'a>, Failure<'a>>
    ensures { IsRead (AreComparing (rows_in found.now)) result }
{
    let (expected_scope, actual_scope) = scopes_of(found)?;
    let from = given_time_of(found, "from")?;
    let to = time_of(found, "to")?;
    let (later, earlier) = offset_of(found)?;
    let within = given_time_of(found, "within")?;
    let strobes = strobes_of(found)?;
    let any_for_x = takes_any_for_x(found);
    Ok(Options {
        expected_scope,
        actual_scope,
        from,
        to,
        later,
        earlier,
        within,
        strobes,
        any_for_x,
    })
}

fn are_both_input(expected: &str, actual: &str) -> bool
    ensures { result ≡ (is_input expected.now && is_input actual.now) }
{
    expected == "-" && actual == "-"
}

/// The comparison that a line asks for, of which standard input holds one text at most.
pub(crate) fn comparison_of<'a>(found: &ArgMatches<'a>) -> Result<Comparison<'a>, Failure<'a>>
    ensures { IsRead (IsComparison (rows_in found.now)) result }
{
    let options = comparing_of(found)?;
    let explains = explains_of(found);
    let map = text_of(found, "map");
    let most = given_number_of(found, "list")?;
    let expected = given_text_of(found, "EXPECTED")?;
    let actual = given_text_of(found, "ACTUAL")?;
    if are_both_input(expected, actual) {
        return Err(Failure::Expected(Form::File));
    }
    Ok(Comparison {
        options,
        explains,
        map,
        most,
        expected,
        actual,
    })
}
