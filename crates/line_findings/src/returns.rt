//! Carriage returns that end no line.
ghost use Rattle.std.specs.Prelude.{◌+◌, ◌≤◌, length, IfOk, IfSome};

use Piece::Text;
use finding_words::{Finding, Line, Piece, Word};
use std::alloc::{AllocError, Global};

/// What is told of a line with a carriage return, which is a byte of it there, and no part of its end.
pub(crate) fn stray_return(alloc: Global, line: &Line<'_>) -> Result<Option<Finding>, AllocError>
    ensures { IfOk result (λ found. IfSome found (λ finding. finding.at ≤ line.now.at + length line.now.text.now)) }
{
    let Some(place) = line.text.iter().position(|byte| *byte == b'\r') else {
        return Ok(None);
    };
    let word = Word::of(line.text, place, 1);
    let at = Word {
        at: line.at.saturating_add(place),
        text: word.text,
    };
    let cause = [Text("a carriage return stands here, and no line feed behind it")];
    let advice = "let lines end by LF or CRLF";
    let finding = Finding::at(alloc, &at, &cause, &[Text(advice)])?;
    Ok(Some(finding))
}
