//! The net that a line names.

ghost use Rattle.std.specs.Prelude.{◌≡◌, ◌<◌, not, true, IfOk, IfSome};
ghost use Rattle.std.specs.List.{list_all, prefix_len};
ghost use Rattle.gate_netlist.specs.Circuit.{nets_of};
ghost use Rattle.gate_netlist.specs.Symbols.{is_letter};
ghost use Rattle.only_nets.specs.Names.{is_blank, behind_blanks, word_len, net_of_name, net_in, says_nothing, meaning_of};

use crate::fault::OnlyCause;
use gate_netlist::Circuit;

fn is_blank(byte: u8) -> bool
    ensures { result ≡ is_blank byte }
{
    byte == b' ' || byte == b'\t'
}

/// Whether all bytes are blanks.
fn are_blanks(text: &[u8]) -> bool
    ensures { result ≡ list_all is_blank text.now }
{
    text.iter().all(|byte| is_blank(*byte))
}

/// How many blanks stand in front.
fn blank_len(text: &[u8]) -> usize
    ensures { result ≡ prefix_len is_blank text.now }
{
    text.iter().take_while(|byte| is_blank(**byte)).count()
}

/// What stands behind the blanks in front.
fn behind_blanks(text: &[u8]) -> &[u8]
    ensures { result.now ≡ behind_blanks text.now }
{
    let (_, rest) = text.split_at(blank_len(text));
    rest
}

/// How many bytes stand before the first blank.
fn word_len(text: &[u8]) -> usize
    ensures { result ≡ word_len text.now }
{
    text.iter().take_while(|byte| !is_blank(**byte)).count()
}

/// Whether a name may have this byte: a visible character of ASCII that is no mark of a bench text.
fn is_letter(byte: u8) -> bool
    ensures { result ≡ is_letter byte }
{
    matches!(byte, b'!'..=b'~') && !matches!(byte, b'#' | b'(' | b')' | b',' | b'=')
}

fn are_letters(name: &[u8]) -> bool
    ensures { result ≡ list_all is_letter name.now }
{
    name.iter().all(|byte| is_letter(*byte))
}

/// The text of letters, which are ASCII.
fn text_of(name: &[u8]) -> &str
    requires { list_all is_letter name.now ≡ true }
    ensures { result.now ≡ name.now }
{
    unsafe { str::from_utf8_unchecked(name) }
}

/// The net of a name.
fn net_of_name(circuit: &Circuit, name: &[u8]) -> Option<u32>
    ensures net { result ≡ net_of_name circuit.now name.now }
    ensures known { IfSome result (λ net. net < nets_of circuit.now) }
{
    if !are_letters(name) {
        return None;
    }
    circuit.find(text_of(name))
}

/// The net that a text names, which has no blanks in front.
fn net_in(circuit: &Circuit, text: &[u8]) -> Option<u32>
    ensures net { result ≡ net_in circuit.now text.now }
    ensures known { IfSome result (λ net. net < nets_of circuit.now) }
{
    let (name, rest) = text.split_at(word_len(text));
    if !are_blanks(rest) {
        return None;
    }
    net_of_name(circuit, name)
}

/// Whether a line says nothing.
fn says_nothing(text: &[u8]) -> bool
    ensures { result ≡ says_nothing text.now }
{
    match text {
        [] => true,
        [first, ..] => *first == b'#',
    }
}

/// The net that a line names, if it says something.
#[tactic(auto, unfolding(crate::specs::Names::meaning_of))]
pub fn meaning_of(circuit: &Circuit, line: &[u8]) -> Result<Option<u32>, OnlyCause>
    ensures meaning { result ≡ meaning_of circuit.now line.now }
    ensures known { IfOk result (λ said. IfSome said (λ net. net < nets_of circuit.now)) }
{
    let text = behind_blanks(line);
    if says_nothing(text) {
        return Ok(None);
    }
    match net_in(circuit, text) {
        Some(net) => Ok(Some(net)),
        None => Err(OnlyCause::UnknownNet),
    }
}
