//! The two names of a line that pairs bits.
ghost use Rattle.std.specs.Prelude.{◌≡◌};
ghost use Rattle.gate_vcd.specs.Tokens.{tokens_of};
ghost use Rattle.vcd_compare.specs.Map.{is_comment, names_in, names_of};
ghost use Rattle.vcd_compare.specs.Inner.Mapping.{AreNames};

use crate::fault::MapCause;
use gate_vcd::Words;

fn is_comment(line: &[u8]) -> bool
    ensures { result ≡ is_comment line.now }
{
    match line {
        [] => false,
        [first, ..] => *first == b'#',
    }
}

/// The two names that the words of a text are, if there are words.
fn names_in<'m>(text: &'m [u8]) -> Result<Option<(&'m [u8], &'m [u8])>, MapCause>
    ensures { AreNames result (names_in (tokens_of text.entry.now)) }
{
    let mut words = Words::new(text);
    let Some(expected) = words.next() else {
        return Ok(None);
    };
    let Some(actual) = words.next() else {
        return Err(MapCause::BadLine);
    };
    match words.next() {
        None => Ok(Some((expected.text, actual.text))),
        Some(_) => Err(MapCause::BadLine),
    }
}

/// The two names of a line, if it says something.
#[tactic(auto, unfolding(crate::specs::Map::names_of))]
pub fn names_of<'m>(line: &'m [u8]) -> Result<Option<(&'m [u8], &'m [u8])>, MapCause>
    ensures { AreNames result (names_of line.entry.now) }
{
    if is_comment(line) {
        return Ok(None);
    }
    names_in(line)
}
