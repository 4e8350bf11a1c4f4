//! Words and lines of a text.
ghost use Rattle.std.specs.Prelude.{◌≡◌, ◌+◌, ◌<◌, ◌≤◌, length, take, drop};
ghost use Rattle.std.specs.Str.{bytes_eq, str_eq_ignore_ascii_case};
ghost use Rattle.finding_words.specs.Words.{is_space, space_len, word_len, word_text, without_end, IsWithin};
ghost use Rattle.text_places.specs.Places.{without_return};

/// A word of a text, and the offset of its first byte.
#[derive(Clone, Copy)]
pub struct Word<'a> {
    pub at: usize,
    pub text: &'a [u8],
}

/// A line of a text without its end, and the offset of its first byte.
pub type Line<'a> = Word<'a>;

impl<'a> Word<'a> {
    /// What stands from an offset on, so many bytes of it.
    pub fn of(text: &'a [u8], at: usize, length: usize) -> Word<'a>
        ensures at { result.at ≡ at }
        ensures text { result.text.now ≡ take length (drop at text.entry.now) }
    {
        let rest = rest(text, at);
        Word {
            at,
            text: rest.get(..length).unwrap_or(rest),
        }
    }

    /// Whether the word is this one, in any letter case.
    pub fn is_like(&self, word: &str) -> bool
        ensures { result ≡ str_eq_ignore_ascii_case self.now.text.now word.now }
    {
        self.text.eq_ignore_ascii_case(word.as_bytes())
    }

    /// Whether the word is this one, letter by letter.
    pub fn is(&self, word: &str) -> bool
        ensures { result ≡ bytes_eq self.now.text.now word.now }
    {
        self.text == word.as_bytes()
    }
}

/// Where the line behind the one of an offset begins; the text's end where there is none.
pub fn line_behind(text: &[u8], at: usize) -> usize
    requires { at < length text.now }
    ensures onward { at < result }
    ensures within { result ≤ length text.now }
{
    match text[at..].iter().position(|byte| *byte == b'\n') {
        Some(feed) => at + feed + 1,
        None => text.len(),
    }
}

/// The line that begins at an offset.
pub fn line_at(text: &[u8], at: usize) -> Line<'_>
    requires { at < length text.now }
    ensures within { IsWithin (length text.now) result }
    ensures at { result.at ≡ at }
{
    Word {
        at,
        text: without_end(&text[at..line_behind(text, at)]),
    }
}

/// The line of a number, from 1; an empty one at the text's end where there are fewer.
pub fn line_of(text: &[u8], number: u64) -> Line<'_>
    ensures { IsWithin (length text.now) result }
{
    let mut at = 0usize;
    let mut count = 1u64;
    while at < text.len() {
        if count == number {
            return line_at(text, at);
        }
        at = line_behind(text, at);
        count = count.saturating_add(1);
    }
    Word { at, text: &[] }
}

/// A line without its line feed, and without the carriage return before that.
pub fn without_end(line: &[u8]) -> &[u8]
    ensures end { result.now ≡ without_end line.now }
    ensures within { length result.now ≤ length line.now }
{
    match line {
        [front @ .., b'\n'] => without_return(front),
        _ => line,
    }
}

fn without_return(line: &[u8]) -> &[u8]
    ensures end { result.now ≡ without_return line.now }
    ensures within { length result.now ≤ length line.now }
{
    match line {
        [front @ .., b'\r'] => front,
        _ => line,
    }
}

/// Whether a byte is white space: a tab, a line feed or another of the bytes 9 to 13, or a blank.
pub fn is_space(byte: u8) -> bool
    ensures { result ≡ is_space byte }
{
    matches!(byte, 9..=13 | 32)
}

/// How many bytes of white space stand first.
fn space_len(text: &[u8]) -> usize
    ensures len { result ≡ space_len text.now }
    ensures within { result ≤ length text.now }
{
    for (at, byte) in text.iter().enumerate() {
        if !is_space(*byte) {
            return at;
        }
    }
    text.len()
}

/// How many other bytes stand first.
fn word_len(text: &[u8]) -> usize
    ensures len { result ≡ word_len text.now }
    ensures within { result ≤ length text.now }
{
    for (at, byte) in text.iter().enumerate() {
        if is_space(*byte) {
            return at;
        }
    }
    text.len()
}

/// What stands from an offset on, nothing behind the text's end.
fn rest(text: &[u8], at: usize) -> &[u8]
    ensures { result.now ≡ drop at text.now }
{
    text.get(at..).unwrap_or(&[])
}

/// The word that begins at an offset, up to white space.
pub fn word_at(text: &[u8], at: usize) -> Word<'_>
    ensures at { result.at ≡ at }
    ensures text { result.text.now ≡ word_text at text.now }
{
    Word::of(text, at, word_len(rest(text, at)))
}

/// The first word from an offset on; an empty one at the text's end.
pub fn word_from(text: &[u8], at: usize) -> Word<'_>
    ensures at { result.at ≡ at + space_len (drop at text.now) }
    ensures text { result.text.now ≡ word_text (at + space_len (drop at text.now)) text.now }
    ensures within { at ≤ length text.now → IsWithin (length text.now) result }
{
    if text.len() <= at {
        Word { at, text: &[] }
    } else {
        word_at(text, at + space_len(&text[at..]))
    }
}

/// The word behind a word.
pub fn word_behind<'a>(text: &'a [u8], word: &Word<'_>) -> Word<'a>
    ensures { IsWithin (length text.now) word.now → IsWithin (length text.now) result }
{
    word_from(text, word.at.saturating_add(word.text.len()))
}
