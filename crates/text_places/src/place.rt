//! Places in a text.
ghost use Rattle.std.specs.Prelude.{◌≡◌, ◌+◌, ◌≤◌, length, take, drop};
ghost use Rattle.std.specs.List.{count_by, prefix_len, suffix_len, take_while};
ghost use Rattle.text_places.specs.Places.{
  is_feed,
  is_in_line,
  line_number,
  bytes_before,
  last,
  without_return,
  before,
  behind,
  HasLine,
  IsInLine,
};

/// The first so many bytes of a text, all where it has fewer.
pub fn front(text: &[u8], count: usize) -> &[u8]
    ensures { result.now ≡ take count text.now }
{
    if text.len() < count {
        text
    } else {
        &text[..count]
    }
}

/// The last so many bytes of a text, all where it has fewer.
pub(crate) fn back(text: &[u8], count: usize) -> &[u8]
    ensures { result.now ≡ last count text.now }
{
    if text.len() < count {
        text
    } else {
        &text[text.len() - count..]
    }
}

/// What stands behind the first so many bytes, nothing where there are fewer.
fn rest(text: &[u8], count: usize) -> &[u8]
    ensures { result.now ≡ drop count text.now }
{
    if text.len() < count {
        &text[text.len()..]
    } else {
        &text[count..]
    }
}

/// How many line feeds a text has.
fn feeds(text: &[u8]) -> usize
    ensures count { result ≡ count_by is_feed text.now }
    ensures within { result ≤ length text.now }
{
    let mut count = 0usize;
    for (at, byte) in text.iter().enumerate() {
        if *byte == b'\n' {
            count += 1;
        }
    }
    count
}

/// The length of a text's last line.
fn last_length(text: &[u8]) -> usize
    ensures length { result ≡ suffix_len is_in_line text.now }
    ensures within { result ≤ length text.now }
{
    let mut count = 0usize;
    for (at, byte) in text.iter().enumerate() {
        if *byte == b'\n' {
            count = 0;
        } else {
            count += 1;
        }
    }
    count
}

/// The length of a text's first line, without its end.
fn first_length(text: &[u8]) -> usize
    ensures length { result ≡ prefix_len is_in_line text.now }
    ensures within { result ≤ length text.now }
{
    for (at, byte) in text.iter().enumerate() {
        if *byte == b'\n' {
            return at;
        }
    }
    text.len()
}

/// A line without the carriage return at its end.
fn without_return(line: &[u8]) -> &[u8]
    ensures { result.now ≡ without_return line.now }
{
    if !line.is_empty() && line[line.len() - 1] == b'\r' {
        &line[..line.len() - 1]
    } else {
        line
    }
}

/// Where an offset of a text stands.
#[derive(Clone, Copy)]
pub struct Place<'a> {
    /// The number of its line, from 1.
    pub line: usize,
    /// What stands before it in its line.
    pub before: &'a [u8],
    /// What stands from there on in its line, without the line's end.
    pub behind: &'a [u8],
}

impl<'a> Place<'a> {
    /// The place of an offset, that of the text's end where it is past it.
    pub fn of(text: &'a [u8], at: usize) -> Place<'a>
        ensures line { result.line ≡ line_number text.entry.now at }
        ensures before { result.before.now ≡ before text.entry.now at }
        ensures count { length result.before.now ≡ bytes_before text.entry.now at }
        ensures behind { result.behind.now ≡ behind text.entry.now at }
    {
        let so_far = front(text, at);
        let behind = rest(text, at);
        Place {
            line: feeds(so_far) + 1,
            before: back(so_far, last_length(so_far)),
            behind: without_return(&behind[..first_length(behind)]),
        }
    }
}

/// Where the line of a number begins; the text's end where it has fewer lines.
fn start_of(text: &[u8], number: u64) -> usize
    ensures { IsInLine text.now number result }
{
    let mut count = 1u64;
    for (at, byte) in text.iter().enumerate() {
        if count == number {
            return at;
        }
        if *byte == b'\n' {
            count += 1;
        }
    }
    text.len()
}

/// The offset, if it stands in the line of this number, from 1; else where that line begins.
pub fn within_line(text: &[u8], number: u64, at: usize) -> usize
    ensures { IsInLine text.now number result }
{
    let line = Place::of(text, at).line as u64;
    if line == number {
        at
    } else {
        start_of(text, number)
    }
}
