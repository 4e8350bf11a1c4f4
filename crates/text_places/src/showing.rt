//! Bytes of texts as they are shown.
ghost use Rattle.std.specs.Prelude.{◌≡◌, ◌<◌, [], ◌++◌, ◌∷◌, if◌then◌else◌, IfOk, OnOk, true, string_bytes};
ghost use Rattle.std.specs.List.{list_all};
ghost use Rattle.text_places.specs.Told.{is_plain, IsShown, begins_letter, below, marks_below, help_line};

use std::alloc::{AllocError, Global};

fn is_plain(byte: u8) -> bool
    ensures { result ≡ is_plain byte }
{
    32 <= byte && byte < 127
}

fn are_plain(bytes: &[u8]) -> bool
    ensures { result ≡ list_all is_plain bytes.now }
{
    bytes.iter().all(|byte| is_plain(*byte))
}

/// The characters of a text, a mark for each that can't be shown, and a blank for a tab.
fn letters(alloc: Global, bytes: &[u8]) -> Result<String, AllocError> {
    let text = String::from_utf8_lossy(alloc, bytes)?;
    let mut shown = String::new(alloc);
    for letter in text.as_str().chars() {
        if letter == '\t' {
            shown.push(' ')?;
        } else if letter.is_control() {
            shown.push('\u{FFFD}')?;
        } else {
            shown.push(letter)?;
        }
    }
    Ok(shown)
}

/// Bytes as they are shown: letters, digits, signs and blanks of ASCII as they are, a blank for a tab, and a mark for what
/// can't be shown.
pub fn shown(alloc: Global, bytes: &[u8]) -> Result<String, AllocError>
    ensures { IfOk result (λ text. IsShown bytes.now (string_bytes text)) }
{
    if are_plain(bytes) {
        String::from_utf8_lossy(alloc, bytes)
    } else {
        letters(alloc, bytes)
    }
}

fn begins_letter(byte: u8) -> bool
    ensures { result ≡ begins_letter byte }
{
    byte < 128 || 192 <= byte
}

/// A mark below a byte, if it begins a letter.
fn push_below(marks: &mut String, mark: char, byte: u8) -> Result<(), AllocError>
    requires { mark < 128 }
    ensures { OnOk result (string_bytes marks.new ≡ (if begins_letter byte then string_bytes marks.old ++ mark ∷ [] else string_bytes marks.old)) }
{
    if begins_letter(byte) {
        marks.push(mark)
    } else {
        Ok(())
    }
}

/// A mark below each letter of a text.
pub(crate) fn below(alloc: Global, mark: char, text: &str) -> Result<String, AllocError>
    requires { mark < 128 }
    ensures { IfOk result (λ marks. string_bytes marks ≡ below mark text.now) }
{
    let mut marks = String::new(alloc);
    for byte in text.as_bytes() {
        push_below(&mut marks, mark, *byte)?;
    }
    Ok(marks)
}

/// Marks below what is meant, at least one.
pub(crate) fn marks_below(alloc: Global, meant: &str) -> Result<String, AllocError>
    ensures { IfOk result (λ marks. string_bytes marks ≡ marks_below meant.now) }
{
    if meant.is_empty() {
        String::from_str(alloc, "^")
    } else {
        below(alloc, '^', meant)
    }
}

/// The line that says what helps; nothing where that isn't known.
pub(crate) fn help_line(alloc: Global, help: &str) -> Result<String, AllocError>
    ensures { IfOk result (λ line. string_bytes line ≡ help_line help.now) }
{
    if help.is_empty() {
        Ok(String::new(alloc))
    } else {
        format!(in alloc; "  help: {help}\n")
    }
}
