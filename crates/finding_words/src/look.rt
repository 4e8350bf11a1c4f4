//! What a text looks like that stands where another is expected.
ghost use Rattle.std.specs.Prelude.{◌≡◌, IfOk, IfSome};
ghost use Rattle.finding_words.specs.Looks.{look_by_bytes, look_name};

use crate::form::{State, break_of, pieces};
use crate::words::{Line, Word, is_space, without_end, word_from};
use std::alloc::{AllocError, Global};

/// What a text looks like.
#[derive(Clone, Copy, PartialEq, Eq)]
pub enum Look {
    ByteOrderMark,
    Utf16,
    Gzip,
    Fst,
    Verilog,
    Vhdl,
    Dump,
    PortDump,
    Bench,
    Settings,
    Other,
}

impl Look {
    /// What a text looks like: by its first bytes, or by the first line that says something, where the rest of the text bears
    /// that out.
    pub fn of(alloc: Global, text: &[u8]) -> Result<Look, AllocError>
        ensures { IfSome (look_by_bytes text.now) (λ look. IfOk result (λ found. found ≡ look)) }
    {
        if let Some(look) = Look::of_bytes(text) {
            return Ok(look);
        }
        let line = first_line(text);
        match Look::of_line(&line) {
            Look::Dump => Ok(dump_of(text)),
            look if look.is_borne_out(alloc, text)? => Ok(look),
            _ => Ok(Look::Other),
        }
    }

    /// By bytes that no text begins with.
    fn of_bytes(text: &[u8]) -> Option<Look>
        ensures { result ≡ look_by_bytes text.now }
    {
        if text.starts_with(&[0xEF, 0xBB, 0xBF]) {
            return Some(Look::ByteOrderMark);
        }
        if text.starts_with(&[0xFF, 0xFE]) || text.starts_with(&[0xFE, 0xFF]) {
            return Some(Look::Utf16);
        }
        if text.starts_with(&[0x1F, 0x8B]) {
            return Some(Look::Gzip);
        }
        if text.starts_with(&[0, 0, 0, 0, 0, 0, 0, 1, 73]) {
            return Some(Look::Fst);
        }
        match text {
            [0, other, ..] | [other, 0, ..] if *other != 0 => Some(Look::Utf16),
            _ => None,
        }
    }

    /// By the first line that says something.
    fn of_line(line: &Line<'_>) -> Look {
        let first = word_from(line.text, 0);
        match first.text {
            [b'$', word @ ..] if begins_dump(word) => Look::Dump,
            [b'`', ..] | [b'/', b'/', ..] | [b'/', b'*', ..] | [b'(', b'*', ..] => Look::Verilog,
            [b'-', b'-', ..] => Look::Vhdl,
            [b'[', ..] => Look::Settings,
            _ if first.is("module") => Look::Verilog,
            _ if first.is_like("library") || first.is_like("entity") => Look::Vhdl,
            _ if line.text.contains(&b'(') => Look::Bench,
            _ if line.text.contains(&b'=') => Look::Settings,
            _ => Look::Other,
        }
    }

    /// Whether the whole text is what its first line looks like.
    fn is_borne_out(self, alloc: Global, text: &[u8]) -> Result<bool, AllocError> {
        match self {
            Look::Verilog => Ok(has_unit(text, &VERILOG)),
            Look::Vhdl => Ok(has_unit(text, &VHDL)),
            Look::Bench => is_mostly_bench(alloc, text),
            Look::Settings => Ok(toml::table_from_slice(alloc, text).is_ok()),
            _ => Ok(true),
        }
    }

    /// What it is called, with its article.
    pub(crate) fn name(self) -> &'static str
        ensures { result.now ≡ look_name self }
    {
        match self {
            Look::ByteOrderMark => "a text with a byte order mark",
            Look::Utf16 => "a text in UTF-16",
            Look::Gzip => "compressed by gzip",
            Look::Fst => "a dump in the format FST",
            Look::Verilog => "Verilog",
            Look::Vhdl => "VHDL",
            Look::Dump => "a value change dump",
            Look::PortDump => "an extended value change dump, of ports",
            Look::Bench => "a bench",
            Look::Settings => "a settings text",
            Look::Other => "something else",
        }
    }

    /// What to do with such a text.
    pub(crate) fn advice(self) -> &'static str {
        match self {
            Look::ByteOrderMark =>
                "save it as UTF-8 without the mark, or drop its first three bytes: tail -c +4 FILE",
            Look::Utf16 => "turn it into UTF-8: iconv -f UTF-16 -t UTF-8 FILE",
            Look::Gzip => "unpack it first: gunzip -c FILE",
            Look::Fst => "turn it into a value change dump first: fst2vcd FILE",
            Look::Verilog => "make a bench of it first: examples/verilog_to_bench needs yosys",
            Look::Vhdl =>
                "make a bench of it first: GHDL and yosys make Verilog of it, and examples/verilog_to_bench a bench of that",
            Look::Dump => "a dump is the STIMULUS, which stands behind the BENCH",
            Look::PortDump =>
                "let the simulator write a dump of four values, by $dumpvars in place of $dumpports",
            Look::Bench => "a bench is the BENCH, which stands before the STIMULUS",
            Look::Settings => "settings are given as --settings FILE",
            Look::Other => "",
        }
    }
}

/// The first line that is neither blank nor a comment of a bench or of settings.
fn first_line(text: &[u8]) -> Word<'_> {
    let mut at = 0usize;
    for line in text.split_inclusive(|byte| *byte == b'\n') {
        match word_from(line, 0).text.first() {
            None | Some(b'#') => at = at.saturating_add(line.len()),
            Some(_) => break,
        }
    }
    line_around(text, at)
}

/// The line that an offset stands in.
fn line_around(text: &[u8], at: usize) -> Line<'_> {
    let before = text.get(..at).unwrap_or(text);
    let start = match before.iter().rposition(|byte| *byte == b'\n') {
        Some(feed) => feed.saturating_add(1),
        None => 0,
    };
    let rest = text.get(start..).unwrap_or(&[]);
    let length = match rest.iter().position(|byte| *byte == b'\n') {
        Some(feed) => feed.saturating_add(1),
        None => rest.len(),
    };
    Word {
        at: start,
        text: without_end(rest.get(..length).unwrap_or(rest)),
    }
}

/// The words that begin lines of each Verilog text.
const VERILOG: [&str; 5] = ["module", "endmodule", "package", "interface", "primitive"];

/// The words that begin lines of each VHDL text.
const VHDL: [&str; 5] = ["library", "use", "entity", "architecture", "package"];

/// Whether a line begins with one of these words, in any letter case.
fn has_unit(text: &[u8], words: &[&str]) -> bool {
    for line in text.split(|byte| *byte == b'\n') {
        let first = word_from(line, 0);
        if words.iter().any(|word| first.is_like(word)) {
            return true;
        }
    }
    false
}

/// Whether at least half of the lines that say something have the form of a bench's lines.
fn is_mostly_bench(alloc: Global, text: &[u8]) -> Result<bool, AllocError> {
    let mut like = 0u64;
    let mut unlike = 0u64;
    for line in text.split_inclusive(|byte| *byte == b'\n') {
        let content = Word {
            at: 0,
            text: without_end(line),
        };
        let pieces = pieces(alloc, &content)?;
        match break_of(pieces.as_slice()) {
            (None, State::End) => like = like.saturating_add(1),
            (None, State::Nothing) => {}
            _ => unlike = unlike.saturating_add(1),
        }
    }
    Ok(unlike <= like)
}

/// The commands that stand at the beginning of dumps.
const BEGINNINGS: [&str; 7] = [
    "date",
    "version",
    "comment",
    "timescale",
    "scope",
    "var",
    "enddefinitions",
];

/// Whether a command of this name stands at the beginning of dumps.
fn begins_dump(command: &[u8]) -> bool {
    for word in BEGINNINGS {
        if command == word.as_bytes() {
            return true;
        }
    }
    false
}

fn dump_of(text: &[u8]) -> Look {
    if has_ports(text) {
        Look::PortDump
    } else {
        Look::Dump
    }
}

/// Whether a dump declares a variable of the type `port`.
fn has_ports(text: &[u8]) -> bool {
    let mut is_behind_var = false;
    for word in text.split(|byte| is_space(*byte)) {
        if is_behind_var && word == b"port".as_slice() {
            return true;
        }
        if !word.is_empty() {
            is_behind_var = word == b"$var".as_slice();
        }
    }
    false
}
