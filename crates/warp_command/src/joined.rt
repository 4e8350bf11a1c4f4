//! Two texts in one, parted by a line.
ghost use Rattle.std.specs.Prelude.{◌≡◌, ◌∷◌, ◌<◌, ◌≤◌, length, take, drop};
ghost use Rattle.warp_command.specs.Joined.{lines, is_parting, before_parting, after_parting};

/// The length in bytes of a text's first line, its end included.
fn line_length(text: &[u8]) -> usize
    requires { 0 < length text.now }
    ensures first { lines text.now ≡ take result text.now ∷ lines (drop result text.now) }
    ensures some { 0 < result }
    ensures within { result ≤ length text.now }
{
    for (at, byte) in text.iter().enumerate() {
        if *byte == b'\n' {
            return at + 1;
        }
    }
    text.len()
}

fn is_parting_line(line: &[u8]) -> bool
    ensures { result ≡ is_parting line.now }
{
    matches!(line, b"%%" | b"%%\n" | b"%%\r\n")
}

/// The bytes before and after the first line that is `%%`, ended by LF, CRLF or the end of the
/// bytes. Where there is none, all the bytes and none.
pub fn split_joined(text: &[u8]) -> (&[u8], &[u8])
    ensures before { result.0.now ≡ before_parting (lines text.now) }
    ensures after { result.1.now ≡ after_parting (lines text.now) }
{
    let mut at = 0;
    while at < text.len() {
        let end = at + line_length(&text[at..]);
        if is_parting_line(&text[at..end]) {
            return (&text[..at], &text[end..]);
        }
        at = end;
    }
    (text, &[])
}
