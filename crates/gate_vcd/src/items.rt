ghost use Rattle.std.specs.Prelude.{◌<◌, ◌≤◌, length, IfOk, IfSome};
ghost use Rattle.gate_vcd.specs.Changes.{items, nothing, end_of, code_of};
ghost use Rattle.gate_vcd.specs.Inner.Commands.{IsSkipped};
ghost use Rattle.gate_vcd.specs.Inner.Items.{IsNext, IsPassed};
ghost use Rattle.gate_vcd.specs.Inner.Words.{bytes_of};
ghost use Rattle.gate_vcd.specs.Shown.Words.{token_of};

use crate::fault::{StimCause, StimFault};
use crate::form::{Form, after_first, first_of, form_of};
use crate::keyword::is_end;
use crate::words::{Word, Words};

/// What stands among the changes of a stimulus.
#[derive(Clone, Copy, Debug)]
pub enum Item<'a> {
    /// `#` and a time.
    Stamp(Word<'a>),
    /// A change of a code to digits, or one that is read over.
    Change {
        first: Word<'a>,
        code: &'a [u8],
        digits: Option<&'a [u8]>,
    },
}

/// Passes over a command up to its `$end`.
#[tactic(auto, unfolding(crate::specs::Changes::items))]
pub fn skip_command<'a>(words: &mut Words<'a>, first: Word<'a>) -> Result<(), StimFault>
    ensures items { IsPassed words.new result (items (end_of (token_of first.entry)) words.old) }
    ensures skipped { IsSkipped (token_of first.entry) words.old words.new result }
    ensures shorter { length words.new ≤ length words.old }
{
    while let Some(word) = words.next() {
        if is_end(word.text) {
            return Ok(());
        }
    }
    Err(first.fault(StimCause::UnclosedCommand))
}

/// A change whose code is the next word.
#[tactic(auto, unfolding(crate::specs::Changes::items))]
fn change_of<'a>(
    words: &mut Words<'a>,
    first: Word<'a>,
    digits: Option<&'a [u8]>,
) -> Result<Option<Item<'a>>, StimFault>
    ensures items { IsNext words.new result (items (code_of (token_of first.entry) (bytes_of digits.entry)) words.old) }
    ensures shorter { length words.new ≤ length words.old }
{
    match words.next() {
        Some(word) => Ok(Some(Item::Change {
            first,
            code: word.text,
            digits,
        })),
        None => Err(first.fault(StimCause::BadToken)),
    }
}

/// The next item among the changes.
#[tactic(auto, unfolding(crate::specs::Changes::items))]
pub fn next_item<'a>(words: &mut Words<'a>) -> Result<Option<Item<'a>>, StimFault>
    ensures items { IsNext words.new result (items nothing words.old) }
    ensures progress { IfOk result (λ item. IfSome item (λ _. length words.new < length words.old)) }
{
    while let Some(word) = words.next() {
        match form_of(word.text) {
            Form::Stamp => return Ok(Some(Item::Stamp(word))),
            Form::Scalar => {
                return Ok(Some(Item::Change {
                    first: word,
                    code: after_first(word.text),
                    digits: Some(first_of(word.text)),
                }));
            }
            Form::Vector => return change_of(words, word, Some(after_first(word.text))),
            Form::Unvalued => return change_of(words, word, None),
            Form::Mark => {}
            Form::Command => skip_command(words, word)?,
            Form::Bad => return Err(word.fault(StimCause::BadToken)),
        }
    }
    Ok(None)
}
