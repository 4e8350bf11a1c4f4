//! Where a key stands in a text of settings that is TOML.
ghost use Rattle.std.specs.Prelude.{◌≡◌, ◌⊎◌, ◌+◌, ◌≤◌, length, IfOk};
ghost use Rattle.finding_words.specs.declared.words.Word.{Word as WordView};
ghost use Rattle.line_findings.specs.declared.keys.Written.TheVariants as written;

use crate::quotes::{Statements, before_mark};
use finding_words::{Line, Word, line_at, line_behind};
use std::alloc::{AllocError, Global};
use toml::{Table, Value};

/// A key of settings: one at the top, or a member of a table there.
#[derive(Clone, Copy)]
pub(crate) struct Key<'t> {
    pub table: Option<&'t str>,
    pub name: &'t str,
}

impl<'t> Key<'t> {
    pub(crate) fn at_top(name: &'t str) -> Key<'t> {
        Key { table: None, name }
    }

    pub(crate) fn in_table(table: &'t str, name: &'t str) -> Key<'t> {
        Key {
            table: Some(table),
            name,
        }
    }
}

/// A text without the byte order mark at its beginning.
pub(crate) fn behind_mark(text: &[u8]) -> &[u8]
    ensures { length result.now ≤ length text.now }
{
    text.strip_prefix(&[0xEF, 0xBB, 0xBF]).unwrap_or(text)
}

/// The place of a key, as it is written there; no word at the text's beginning where it isn't found.
pub(crate) fn key_at<'a>(
    alloc: Global,
    text: &'a [u8],
    key: Key<'_>,
) -> Result<Word<'a>, AllocError>
    ensures { IfOk result (λ word. word.at ≤ length text.entry.now) }
{
    match key.table {
        Some(table) => path_at(alloc, text, &[table, key.name]),
        None => path_at(alloc, text, &[key.name]),
    }
}

/// The place of the first header or key that leads along all of a path.
fn path_at<'a>(alloc: Global, text: &'a [u8], path: &[&str]) -> Result<Word<'a>, AllocError>
    ensures { IfOk result (λ word. word.at ≤ length text.entry.now) }
{
    let mut at = text.len() - behind_mark(text).len();
    let mut statements = Statements::START;
    let mut below = Some(path);
    while at < text.len() {
        let behind = line_behind(text, at);
        let line = &text[at..behind];
        if statements.may_begin() {
            match (written_in(&line_at(text, at)), below) {
                (Written::Header(header), _) => {
                    below = left_behind(alloc, header.text, path)?;
                    if below.is_some_and(|left| left.is_empty()) {
                        return Ok(header);
                    }
                }
                (Written::Key(key), Some(left)) if leads_along(alloc, key.text, left)? => {
                    return Ok(key);
                }
                _ => {}
            }
        }
        statements = statements.behind(line);
        at = behind;
    }
    Ok(Word::of(text, 0, 0))
}

/// What a line writes that begins a statement.
#[derive(Clone, Copy)]
enum Written<'a> {
    Nothing,
    /// What stands in the brackets of a header.
    Header(Word<'a>),
    /// What stands left of `=`.
    Key(Word<'a>),
}

fn written_in<'a>(line: &Line<'a>) -> Written<'a>
    ensures { (word : WordView) → (result ≡ written.Header word) ⊎ (result ≡ written.Key word) → word.at ≤ line.now.at + length line.now.text.now }
{
    let blanks = blanks_before(line.text);
    match line.text.get(blanks..) {
        None | Some([] | [b'#', ..]) => Written::Nothing,
        Some([b'[', b'[', ..]) => Written::Header(up_to(line, blanks.saturating_add(2), b']')),
        Some([b'[', ..]) => Written::Header(up_to(line, blanks.saturating_add(1), b']')),
        Some(_) => Written::Key(up_to(line, blanks, b'=')),
    }
}

/// What stands in a line from a place up to a mark, without white space around it.
fn up_to<'a>(line: &Line<'a>, from: usize, mark: u8) -> Word<'a>
    requires { from ≤ length line.now.text.now }
    ensures { result.at ≤ line.now.at + length line.now.text.now }
{
    let front = before_mark(&line.text[from..], mark);
    Word {
        at: line
            .at
            .saturating_add(from)
            .saturating_add(blanks_before(front)),
        text: front.trim_ascii(),
    }
}

/// How many bytes of white space stand first.
fn blanks_before(text: &[u8]) -> usize
    ensures { result ≤ length text.now }
{
    text.len().saturating_sub(text.trim_ascii_start().len())
}

/// Whether a written key leads along a path, to its end or to a part of it that a table in braces holds.
fn leads_along(alloc: Global, written: &[u8], path: &[&str]) -> Result<bool, AllocError> {
    let left = left_behind(alloc, written, path)?;
    Ok(left.is_some())
}

/// What is left of a path behind a written key, whose parts are joined by dots; none where it leads elsewhere.
fn left_behind<'p, 'n>(
    alloc: Global,
    written: &[u8],
    path: &'p [&'n str],
) -> Result<Option<&'p [&'n str]>, AllocError> {
    let mut text = Vec::from_slice(alloc, written)?;
    text.extend_from_slice(b" = 0")?;
    match toml::table_from_slice(alloc, text.as_slice()) {
        Ok(table) => Ok(left_in(&table, path)),
        Err(_) => Ok(None),
    }
}

/// What is left of a path where it leads through tables to another value.
fn left_in<'p, 'n>(table: &Table, path: &'p [&'n str]) -> Option<&'p [&'n str]> {
    let mut table = table;
    for (place, part) in path.iter().enumerate() {
        match table.get(*part) {
            Some(Value::Table(inner)) => table = inner,
            Some(_) => return path.get(place.saturating_add(1)..),
            None => return None,
        }
    }
    path.get(path.len()..)
}
