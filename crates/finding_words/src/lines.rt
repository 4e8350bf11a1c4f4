//! Lines of words.
ghost use Rattle.std.specs.Prelude.{◌+◌, length, All, IfOk, IfSome};
ghost use Rattle.finding_words.specs.Words.{IsWithin};

use crate::words::{Line, Word, line_at, line_behind, word_from};
use std::alloc::{AllocError, Global};
use text_places::Source;

/// The words of a line.
pub fn words_in<'a>(alloc: Global, line: &Line<'a>) -> Result<Vec<Word<'a>>, AllocError>
    ensures { IfOk result (λ words. All (IsWithin (line.now.at + length line.now.text.now)) words.items) }
{
    let mut words = Vec::new(alloc);
    let mut at = 0usize;
    while at < line.text.len() {
        let word = word_from(line.text, at);
        if word.text.is_empty() {
            break;
        }
        at = word.at + word.text.len();
        words.push(Word {
            at: line.at.saturating_add(word.at),
            text: word.text,
        })?;
    }
    Ok(words)
}

/// A line of a text, and its number in the text's file.
#[derive(Clone, Copy)]
pub struct Named<'a> {
    pub number: usize,
    pub line: Line<'a>,
}

/// The first line whose first word is a name.
pub fn first_named<'a>(source: Source<'a>, name: &[u8]) -> Option<Named<'a>>
    ensures { IfSome result (λ named. IsWithin (length source.entry.text.now) named.line) }
{
    let text = source.text;
    let mut at = 0usize;
    let mut number = source.lines_before;
    while at < text.len() {
        let line = line_at(text, at);
        number = number.saturating_add(1);
        if word_from(line.text, 0).text == name {
            return Some(Named { number, line });
        }
        at = line_behind(text, at);
    }
    None
}
