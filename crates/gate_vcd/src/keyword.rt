ghost use Rattle.std.specs.Prelude.{◌≡◌};
ghost use Rattle.std.specs.Str.{bytes_eq};
ghost use Rattle.gate_vcd.specs.Declarations.{keyword_of, unit_of, scaled, timescale_of, opens_command};
ghost use Rattle.gate_vcd.specs.Tokens.{is_end};

use gate_stimulus::{Timescale, Unit};

/// What a command of the declarations is about.
#[derive(Clone, Copy, Debug, PartialEq, Eq)]
pub enum Keyword {
    Timescale,
    Scope,
    Upscope,
    Var,
    EndDefinitions,
    /// A command that is read over.
    Other,
}

/// Whether the text is this word.
pub fn is_word(text: &[u8], word: &[u8]) -> bool
    ensures { result ≡ bytes_eq text.now word.now }
{
    text == word
}

/// What the command of this first word is about.
pub fn keyword_of(text: &[u8]) -> Keyword
    ensures { result ≡ keyword_of text.now }
{
    if is_word(text, b"$timescale") {
        Keyword::Timescale
    } else if is_word(text, b"$scope") {
        Keyword::Scope
    } else if is_word(text, b"$upscope") {
        Keyword::Upscope
    } else if is_word(text, b"$var") {
        Keyword::Var
    } else if is_word(text, b"$enddefinitions") {
        Keyword::EndDefinitions
    } else {
        Keyword::Other
    }
}

/// Whether the word ends a command.
pub fn is_end(text: &[u8]) -> bool
    ensures { result ≡ is_end text.now }
{
    is_word(text, b"$end")
}

/// Whether the word opens a command.
pub fn opens_command(text: &[u8]) -> bool
    ensures { result ≡ opens_command text.now }
{
    text.starts_with(b"$") && !is_end(text)
}

fn unit_of(text: &[u8]) -> Option<Unit>
    ensures { result ≡ unit_of text.now }
{
    if is_word(text, b"s") {
        Some(Unit::S)
    } else if is_word(text, b"ms") {
        Some(Unit::Ms)
    } else if is_word(text, b"us") {
        Some(Unit::Us)
    } else if is_word(text, b"ns") {
        Some(Unit::Ns)
    } else if is_word(text, b"ps") {
        Some(Unit::Ps)
    } else if is_word(text, b"fs") {
        Some(Unit::Fs)
    } else {
        None
    }
}

fn scaled(number: u8, text: &[u8]) -> Option<Timescale>
    ensures { result ≡ scaled number text.now }
{
    match unit_of(text) {
        Some(unit) => Some(Timescale { number, unit }),
        None => None,
    }
}

/// The timescale that the text spells: 1, 10 or 100 and a unit.
#[tactic(auto, unfolding(crate::specs::Declarations::timescale_of))]
pub fn timescale_of(text: &[u8]) -> Option<Timescale>
    ensures { result ≡ timescale_of text.now }
{
    if text.starts_with(b"100") {
        scaled(100, &text[3..])
    } else if text.starts_with(b"10") {
        scaled(10, &text[2..])
    } else if text.starts_with(b"1") {
        scaled(1, &text[1..])
    } else {
        None
    }
}
