//! What is found wrong with a text.
ghost use Rattle.std.specs.Prelude.{◌≡◌, length, IfOk, string_bytes};
ghost use Rattle.finding_words.specs.Sentences.{IsSaid, IsSaidWith};

use crate::sentences::{Piece, sentence};
use crate::words::Word;
use std::alloc::{AllocError, Global};
use text_places::Remark;

/// What is said of a place, and how many bytes from there on are meant.
#[derive(Drop)]
pub struct Said {
    length: usize,
    cause: String,
    help: String,
}

impl Said {
    /// A cause in a sentence, and what to do about it, no pieces where that isn't known.
    pub fn new(
        alloc: Global,
        length: usize,
        cause: &[Piece<'_>],
        help: &[Piece<'_>],
    ) -> Result<Said, AllocError>
        ensures { IfOk result (λ said. IsSaid length cause.now help.now said) }
    {
        let help = sentence(alloc, help)?;
        Said::with_help(alloc, length, cause, help)
    }

    /// The same with the help as a text.
    fn with_help(
        alloc: Global,
        length: usize,
        cause: &[Piece<'_>],
        help: String,
    ) -> Result<Said, AllocError>
        ensures { IfOk result (λ said. IsSaidWith length cause.now (string_bytes help) said) }
    {
        Ok(Said::of_texts(length, sentence(alloc, cause)?, help))
    }

    /// The same of sentences that are put together.
    pub(crate) fn of_texts(length: usize, cause: String, help: String) -> Said
        ensures length { result.length ≡ length }
        ensures cause { string_bytes result.cause ≡ string_bytes cause }
        ensures help { string_bytes result.help ≡ string_bytes help }
    {
        Said {
            length,
            cause,
            help,
        }
    }

    /// How many bytes are meant, the cause and what helps, as they are.
    pub fn remark(&self) -> Remark<'_>
        ensures length { result.length ≡ self.now.length }
        ensures cause { result.cause.now ≡ string_bytes self.now.cause }
        ensures help { result.help.now ≡ string_bytes self.now.help }
    {
        Remark {
            length: self.length,
            cause: self.cause.as_str(),
            help: self.help.as_str(),
        }
    }
}

/// Where a text is wrong, by an offset, and what is said of that.
#[derive(Drop)]
pub struct Finding {
    pub at: usize,
    pub said: Said,
}

impl Finding {
    /// At a word of a text: a cause, and what to do about it, no pieces where that isn't known.
    pub fn at(
        alloc: Global,
        word: &Word<'_>,
        cause: &[Piece<'_>],
        help: &[Piece<'_>],
    ) -> Result<Finding, AllocError>
        ensures at { IfOk result (λ finding. finding.at ≡ word.now.at) }
        ensures said { IfOk result (λ finding. IsSaid (length word.now.text.now) cause.now help.now finding.said) }
    {
        Ok(Finding {
            at: word.at,
            said: Said::new(alloc, word.text.len(), cause, help)?,
        })
    }

    /// The same with the help as a text, empty where it isn't known.
    pub fn with_help(
        alloc: Global,
        word: &Word<'_>,
        cause: &[Piece<'_>],
        help: String,
    ) -> Result<Finding, AllocError>
        ensures at { IfOk result (λ finding. finding.at ≡ word.now.at) }
        ensures said { IfOk result (λ finding. IsSaidWith (length word.now.text.now) cause.now (string_bytes help) finding.said) }
    {
        Ok(Finding {
            at: word.at,
            said: Said::with_help(alloc, word.text.len(), cause, help)?,
        })
    }
}
