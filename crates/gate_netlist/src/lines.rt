ghost use Rattle.std.specs.Prelude.{◌≡◌, ◌<◌, ◌∷◌, ◌==◌, length, position, IfSome};
ghost use Rattle.gate_netlist.specs.Lines.{lines_of};
ghost use Rattle.gate_netlist.specs.Passes.{lines_after};
ghost use Rattle.gate_netlist.specs.Inner.Passes.{without_return};

/// The first line of a text without its end, and what follows the end: none after the last line.
/// A line ends by LF or CRLF.
pub fn next_line(text: &[u8]) -> (&[u8], Option<&[u8]>)
    ensures lines { lines_of text.now ≡ result.0.now ∷ lines_after result.1 }
    ensures shorter { IfSome result.1 (λ rest. length rest.now < length text.now) }
{
    match first_feed(text) {
        None => (text, None),
        Some(end) => {
            let line = without_return(&text[..end]);
            (line, Some(&text[end + 1..]))
        }
    }
}

/// What stands before an LF, without the CR of a CRLF.
fn without_return(line: &[u8]) -> &[u8]
    ensures { result.now ≡ without_return line.now }
{
    match line.last() {
        Some(b'\r') => &line[..line.len() - 1],
        _ => line,
    }
}

/// Where the first LF is.
fn first_feed(text: &[u8]) -> Option<usize>
    ensures { result ≡ position (λ byte. byte == 10) text.now }
{
    text.iter().position(|byte| *byte == b'\n')
}
