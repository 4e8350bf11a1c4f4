//! Sentences, put together from their pieces.
ghost use Rattle.std.specs.Prelude.{◌≡◌, ◌++◌, codes, IfOk, string_bytes};
ghost use Rattle.finding_words.specs.Sentences.{quote_end, IsQuoted, IsWritten, IsSentence};

use std::alloc::{AllocError, Global};
use text_places::{front, shown};

/// How many bytes of a quoted word are shown.
const MOST_QUOTED: usize = 60;

/// A piece of a sentence.
#[derive(Clone, Copy)]
pub enum Piece<'a> {
    /// Words, as they are.
    Text(&'a str),
    /// A word between backquotes, cut off where it is long.
    Quoted(&'a [u8]),
    /// Bytes of a text, as they can be shown.
    Bytes(&'a [u8]),
    /// A number in decimal digits.
    Number(u64),
}

impl Piece<'_> {
    /// What is written of it.
    fn written(self, alloc: Global) -> Result<String, AllocError>
        ensures { IfOk result (λ text. IsWritten self.entry (string_bytes text)) }
    {
        match self {
            Piece::Text(words) => String::from_str(alloc, words),
            Piece::Quoted(word) => quoted(alloc, word),
            Piece::Bytes(bytes) => shown(alloc, bytes),
            Piece::Number(number) => format!(in alloc; "{number}"),
        }
    }
}

/// What stands behind a quoted word.
fn quote_end(word: &[u8]) -> &'static str
    ensures { result.now ≡ quote_end word.now }
{
    if MOST_QUOTED < word.len() { "..`" } else { "`" }
}

/// A word between backquotes, cut off where it is long.
pub(crate) fn quoted(alloc: Global, word: &[u8]) -> Result<String, AllocError>
    ensures { IfOk result (λ text. IsQuoted word.now (string_bytes text)) }
{
    let letters = shown(alloc, front(word, MOST_QUOTED))?;
    in_quotes(alloc, letters.as_str(), quote_end(word))
}

fn in_quotes(alloc: Global, letters: &str, end: &str) -> Result<String, AllocError>
    ensures { IfOk result (λ text. string_bytes text ≡ codes "`" ++ (letters.now ++ end.now)) }
{
    format!(in alloc; "`{letters}{end}")
}

/// The sentence of these pieces, empty where there are none.
pub fn sentence(alloc: Global, pieces: &[Piece<'_>]) -> Result<String, AllocError>
    ensures { IfOk result (λ text. IsSentence pieces.now (string_bytes text)) }
{
    let mut text = String::new(alloc);
    for piece in pieces {
        let written = piece.written(alloc)?;
        text.push_str(written.as_str())?;
    }
    Ok(text)
}
