//! What is answered to two dumps, as text.
ghost use Rattle.std.specs.Prelude.{◌≡◌, IfOk, option_map};
ghost use Rattle.vcd_compare.specs.Times.{Moves};
ghost use Rattle.compare_answer.specs.Answer.{IsPrinted, IsText};

use crate::lines::{push_all_differing, push_last};
use crate::listing::{at_most, sort_by_time};
use std::alloc::{AllocError, Global};
use vcd_compare::{CompareFault, Options, Report, compare_texts};

/// What two dumps are answered: the lines, and whether all bits agree.
#[derive(Debug, Drop)]
pub struct Compared {
    pub text: Vec<u8>,
    pub agrees: bool,
}

/// The text of a report, in which at most so many bits are listed, or all at 0.
fn report_text(alloc: Global, most: usize, report: Report) -> Result<Compared, AllocError>
    ensures { IfOk result (IsPrinted most report) }
{
    let mut last = Vec::new(alloc);
    push_last(alloc, &mut last, &report)?;
    let mut found = report.differing;
    let agrees = found.is_empty();
    sort_by_time(&mut found)?;
    let mut text = Vec::new(alloc);
    push_all_differing(alloc, &mut text, at_most(found.as_slice(), most))?;
    text.extend_from_slice(last.as_slice())?;
    Ok(Compared { text, agrees })
}

/// Compares two dumps, by a map if there is one, and answers the text of what is found: of at most so many bits that differ (of all at 0) a line each,
/// and a last line.
pub fn compare_text(
    alloc: Global,
    options: &Options,
    most: usize,
    expected: &[u8],
    actual: &[u8],
    map: Option<&[u8]>,
) -> Result<Compared, CompareFault>
    requires { Moves options.now }
    ensures { IsText options.now most expected.now actual.now (option_map (λ m. m.now) map.entry) result }
{
    let report = compare_texts(alloc, options, expected, actual, map)?;
    Ok(report_text(alloc, most, report)?)
}
