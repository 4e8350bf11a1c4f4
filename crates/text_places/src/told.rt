//! What is told of a place in a text.
ghost use Rattle.std.specs.Prelude.{◌≡◌, IfOk, string_bytes};
ghost use Rattle.text_places.specs.Told.{IsPlaceOf, place_line, text_line, mark_line, told_text, IsTold};

use crate::place::{Place, back, front};
use crate::showing::{below, help_line, marks_below, shown};
use std::alloc::{AllocError, Global};

/// How many bytes of a line are shown, at most, on either side of the place.
const MOST_SHOWN: usize = 60;

/// A text at the end of a file, as its user knows it.
#[derive(Clone, Copy)]
pub struct Source<'a> {
    /// The file's name; `-` is standard input.
    pub name: &'a str,
    pub text: &'a [u8],
    /// How many lines of the file stand before the text.
    pub lines_before: usize,
}

/// What is said of a place.
#[derive(Clone, Copy)]
pub struct Remark<'a> {
    /// How many bytes are meant, from the place on.
    pub length: usize,
    /// Why, in a sentence.
    pub cause: &'a str,
    /// What to do about it, empty where that isn't known.
    pub help: &'a str,
}

/// What is shown of a place.
#[derive(Drop)]
pub(crate) struct Shown {
    line: u128,
    column: usize,
    before: String,
    behind: String,
    meant: String,
}

fn shown_at(
    alloc: Global,
    source: Source<'_>,
    at: usize,
    length: usize,
) -> Result<Shown, AllocError>
    ensures { IfOk result (λ shown. IsPlaceOf source.entry.text.now source.entry.lines_before at length shown) }
{
    let place = Place::of(source.text, at);
    let window = front(place.behind, MOST_SHOWN);
    let before = shown(alloc, back(place.before, MOST_SHOWN))?;
    let behind = shown(alloc, window)?;
    let meant = shown(alloc, front(window, length))?;
    Ok(Shown {
        line: source.lines_before as u128 + place.line as u128,
        column: place.before.len() + 1,
        before,
        behind,
        meant,
    })
}

fn place_line(alloc: Global, name: &str, shown: &Shown, cause: &str) -> Result<String, AllocError>
    ensures { IfOk result (λ line. string_bytes line ≡ place_line name.now shown.now cause.now) }
{
    let line = shown.line;
    let column = shown.column;
    format!(in alloc; "{name}:{line}:{column}: {cause}\n")
}

fn text_line(alloc: Global, shown: &Shown) -> Result<String, AllocError>
    ensures { IfOk result (λ line. string_bytes line ≡ text_line shown.now) }
{
    let line = shown.line;
    let before = shown.before.as_str();
    let behind = shown.behind.as_str();
    format!(in alloc; "  {line} | {before}{behind}\n")
}

fn mark_line(alloc: Global, shown: &Shown) -> Result<String, AllocError>
    ensures { IfOk result (λ line. string_bytes line ≡ mark_line shown.now) }
{
    let number = shown.line;
    let digits = format!(in alloc; "{number}")?;
    let margin = below(alloc, ' ', digits.as_str())?;
    let blanks = below(alloc, ' ', shown.before.as_str())?;
    let marks = marks_below(alloc, shown.meant.as_str())?;
    format!(in alloc; "  {margin} | {blanks}{marks}\n")
}

fn told(alloc: Global, name: &str, shown: &Shown, remark: Remark<'_>) -> Result<String, AllocError>
    ensures { IfOk result (λ told. string_bytes told ≡ told_text name.now shown.now remark.entry.cause.now remark.entry.help.now) }
{
    let place = place_line(alloc, name, shown, remark.cause)?;
    let text = text_line(alloc, shown)?;
    let marks = mark_line(alloc, shown)?;
    let help = help_line(alloc, remark.help)?;
    format!(in alloc; "{place}{text}{marks}{help}")
}

/// The lines that tell of an offset of a text: `file:line:column: cause`, the line in which it stands, marks below what is
/// meant, and what helps. The line is cut off at 60 bytes before and behind the place.
pub fn tell(
    alloc: Global,
    source: Source<'_>,
    at: usize,
    remark: Remark<'_>,
) -> Result<String, AllocError>
    ensures { IfOk result (λ told.
        IsTold source.entry.name.now source.entry.text.now source.entry.lines_before at remark.entry.length
        remark.entry.cause.now remark.entry.help.now (string_bytes told)) }
{
    let shown = shown_at(alloc, source, at, remark.length)?;
    told(alloc, source.name, &shown, remark)
}
