ghost use Rattle.std.specs.Prelude.{◌≡◌, ◌<◌, ◌∷◌, [], length, option_map, IfOk, IfSome};
ghost use Rattle.std.specs.Str.{str_eq_ignore_ascii_case};
ghost use Rattle.gate_netlist.specs.declared.fault.BenchCause.TheVariants as cause;
ghost use Rattle.gate_netlist.specs.Gives.{Gives};
ghost use Rattle.gate_netlist.specs.Statements.{gate_of, takes, named, arguments, marked, driven, statement_of, meaning_of};
ghost use Rattle.gate_netlist.specs.Inner.Meant.{meant, names_meant};
ghost use Rattle.gate_netlist.specs.Symbols.{Word, Open, Equals};
ghost use Rattle.gate_netlist.specs.Inner.Tokens.{symbols_of};
ghost use Rattle.gate_netlist.specs.Lines.{lines_of};
ghost use Rattle.gate_netlist.specs.Passes.{lines_after};
ghost use Rattle.gate_netlist.specs.Inner.FirstLine.{after_feed, first_line, IsFirstLine};

use crate::fault::BenchCause;
use crate::lines::next_line;
use crate::token::{
    Token, after_equals, after_open, allowed_code, closes, has_comma, has_end, tokenize, word_first,
};
use gate_values::Kind;
use std::alloc::{AllocError, Global};

/// What a line says.
#[derive(Clone, Copy)]
pub(crate) enum Statement<'a, 'b> {
    Nothing,
    Input(&'a str),
    Output(&'a str),
    Gate {
        name: &'a str,
        kind: Kind,
        inputs: &'b [&'a str],
    },
    Flop {
        name: &'a str,
        d: &'a str,
    },
}

/// The word of a flip-flop.
pub(crate) const FLOP_WORD: &str = "DFF";

/// What a gate word stands for.
#[derive(Clone, Copy)]
enum GateWord {
    Gate(Kind),
    Flop,
}

/// Whether a word has these letters, in any case. Words of another length are not compared.
fn says(word: &str, letters: &str) -> bool
    ensures { result ≡ str_eq_ignore_ascii_case word.now letters.now }
{
    word.len() == letters.len() && word.eq_ignore_ascii_case(letters)
}

#[tactic(auto, unfolding(crate::specs::Statements::gate_of))]
fn gate_of(word: &str) -> Option<GateWord>
    ensures { result ≡ gate_of word.now }
{
    if says(word, Kind::And.word()) {
        return Some(GateWord::Gate(Kind::And));
    }
    if says(word, Kind::Nand.word()) {
        return Some(GateWord::Gate(Kind::Nand));
    }
    if says(word, Kind::Or.word()) {
        return Some(GateWord::Gate(Kind::Or));
    }
    if says(word, Kind::Nor.word()) {
        return Some(GateWord::Gate(Kind::Nor));
    }
    if says(word, Kind::Xor.word()) {
        return Some(GateWord::Gate(Kind::Xor));
    }
    if says(word, Kind::Xnor.word()) {
        return Some(GateWord::Gate(Kind::Xnor));
    }
    if says(word, Kind::Not.word()) {
        return Some(GateWord::Gate(Kind::Not));
    }
    if says(word, Kind::Buff.word()) || says(word, "BUF") {
        return Some(GateWord::Gate(Kind::Buff));
    }
    if says(word, FLOP_WORD) {
        return Some(GateWord::Flop);
    }
    None
}

fn takes(kind: Kind, inputs: usize) -> bool
    ensures { result ≡ takes kind inputs }
{
    match kind {
        Kind::Not | Kind::Buff => inputs == 1,
        _ => inputs >= 1,
    }
}

fn marked<'a, 'b>(word: &str, name: &'a str) -> Result<Statement<'a, 'b>, BenchCause>
    ensures { Gives cause.Memory meant result (marked word.now name.now) }
{
    if says(word, "INPUT") {
        return Ok(Statement::Input(name));
    }
    if says(word, "OUTPUT") {
        return Ok(Statement::Output(name));
    }
    Err(BenchCause::BadLine)
}

fn driven<'a, 'b>(
    name: &'a str,
    word: &str,
    inputs: &'b [&'a str],
) -> Result<Statement<'a, 'b>, BenchCause>
    ensures { Gives cause.Memory meant result (driven name.now (gate_of word.now) (names_meant inputs.now)) }
{
    match gate_of(word) {
        None => Err(BenchCause::UnknownGate),
        Some(GateWord::Gate(kind)) => {
            if takes(kind, inputs.len()) {
                return Ok(Statement::Gate { name, kind, inputs });
            }
            Err(BenchCause::InputCount)
        }
        Some(GateWord::Flop) => match inputs {
            [d] => Ok(Statement::Flop { name, d: *d }),
            _ => Err(BenchCause::InputCount),
        },
    }
}

/// Puts the names up to the closing mark, which nothing follows, in place of what the buffer holds.
#[tactic(auto, using(crate::proofs::Splitting::arguments_reads))]
fn arguments<'a, 'b>(
    tokens: &[Token<'a>],
    names: &'b mut Vec<&'a str>,
) -> Result<Option<&'b [&'a str]>, AllocError>
    ensures { IfOk result (λ found. option_map (λ ns. names_meant ns.now) found ≡ arguments (symbols_of tokens.now)) }
{
    names.clear();
    if closes(tokens) {
        return Ok(Some(names.as_slice()));
    }
    named(tokens, names)
}

/// Puts one or more names parted by commas, up to the closing mark, into an empty buffer.
fn named<'a, 'b>(
    tokens: &[Token<'a>],
    names: &'b mut Vec<&'a str>,
) -> Result<Option<&'b [&'a str]>, AllocError>
    requires { names.now.items ≡ [] }
    ensures { IfOk result (λ found. option_map (λ ns. names_meant ns.now) found ≡ named (symbols_of tokens.now)) }
{
    let mut at = 0;
    while at < tokens.len() {
        let Some((name, after)) = word_first(&tokens[at..]) else {
            return Ok(None);
        };
        names.push(name)?;
        if closes(after) {
            return Ok(Some(names.as_slice()));
        }
        if !has_comma(after) {
            return Ok(None);
        }
        // A name and its comma.
        at += 2;
    }
    Ok(None)
}

/// `word ( name )`, from behind the opening mark.
#[tactic(auto, using(crate::proofs::Splitting::marking_reads))]
fn marking<'a, 'b>(word: &str, tokens: &[Token<'a>]) -> Result<Statement<'a, 'b>, BenchCause>
    ensures { Gives cause.Memory meant result (statement_of (Word word.now ∷ Open ∷ symbols_of tokens.now)) }
{
    match word_first(tokens) {
        Some((name, rest)) if closes(rest) => marked(word, name),
        _ => Err(BenchCause::BadLine),
    }
}

/// `name = word ( names )`, from behind the `=`.
#[tactic(auto, using(crate::proofs::Splitting::defining_reads))]
fn defining<'a, 'b>(
    inputs: &'b mut Vec<&'a str>,
    name: &'a str,
    tokens: &[Token<'a>],
) -> Result<Statement<'a, 'b>, BenchCause>
    ensures { Gives cause.Memory meant result (statement_of (Word name.now ∷ Equals ∷ symbols_of tokens.now)) }
{
    let Some((word, rest)) = word_first(tokens) else {
        return Err(BenchCause::BadLine);
    };
    let Some(rest) = after_open(rest) else {
        return Err(BenchCause::BadLine);
    };
    match arguments(rest, inputs)? {
        None => Err(BenchCause::BadLine),
        Some(inputs) => driven(name, word, inputs),
    }
}

/// What marks and words say.
#[tactic(auto, using(crate::proofs::Splitting::statement_reads))]
fn statement_of<'a, 'b>(
    inputs: &'b mut Vec<&'a str>,
    tokens: &[Token<'a>],
) -> Result<Statement<'a, 'b>, BenchCause>
    ensures { Gives cause.Memory meant result (statement_of (symbols_of tokens.now)) }
{
    if tokens.is_empty() {
        return Ok(Statement::Nothing);
    }
    let Some((word, rest)) = word_first(tokens) else {
        return Err(BenchCause::BadLine);
    };
    if let Some(rest) = after_open(rest) {
        return marking(word, rest);
    }
    if let Some(rest) = after_equals(rest) {
        return defining(inputs, word, rest);
    }
    Err(BenchCause::BadLine)
}

/// Lists that the lines of a text are read with, one after the other.
#[derive(Drop)]
pub(crate) struct Buffers<'a> {
    tokens: Vec<Token<'a>>,
    inputs: Vec<&'a str>,
}

impl<'a> Buffers<'a> {
    pub(crate) fn new(alloc: Global) -> Buffers<'a> {
        Buffers {
            tokens: Vec::new(alloc),
            inputs: Vec::new(alloc),
        }
    }
}

/// What follows an LF in front.
fn after_feed(text: &[u8]) -> Option<&[u8]>
    ensures { option_map (λ rest. rest.now) result ≡ after_feed text.now }
{
    match text.first() {
        Some(b'\n') => Some(&text[1..]),
        _ => None,
    }
}

/// Puts the marks and words of a text's first line in place of what the buffer holds, where each byte may stand there. Gives
/// whether that is so, and what follows the line.
fn read_line<'a>(
    text: &'a [u8],
    tokens: &mut Vec<Token<'a>>,
) -> Result<(bool, Option<&'a [u8]>), AllocError>
    ensures line { IfOk result (λ read. IsFirstLine text.now (symbols_of tokens.new.items) read.0 read.1) }
    ensures shorter { IfOk result (λ read. IfSome read.1 (λ rest. length rest.now < length text.now)) }
{
    // Most lines are code up to their LF. These are gone over once.
    let rest = tokenize(text, tokens)?;
    match after_feed(rest) {
        Some(after) => Ok((true, Some(after))),
        None => read_any_line(text, tokens),
    }
}

/// The same of a line that may have a comment, a CR or no end.
fn read_any_line<'a>(
    text: &'a [u8],
    tokens: &mut Vec<Token<'a>>,
) -> Result<(bool, Option<&'a [u8]>), AllocError>
    ensures line { IfOk result (λ read. IsFirstLine text.now (symbols_of tokens.new.items) read.0 read.1) }
    ensures shorter { IfOk result (λ read. IfSome read.1 (λ rest. length rest.now < length text.now)) }
{
    let (line, after) = next_line(text);
    let Some(code) = allowed_code(line) else {
        return Ok((false, after));
    };
    tokenize(code, tokens)?;
    Ok((true, after))
}

/// What the first line of a text says, and what follows the line.
pub(crate) fn meaning_of<'a, 'b>(
    buffers: &'b mut Buffers<'a>,
    text: &'a [u8],
) -> Result<(Statement<'a, 'b>, Option<&'a [u8]>), BenchCause>
    ensures gives { Gives cause.Memory (λ read. meant read.0) result (meaning_of (first_line text.now)) }
    ensures rest { IfOk result (λ read. lines_of text.now ≡ first_line text.now ∷ lines_after read.1) }
    ensures shorter { IfOk result (λ read. IfSome read.1 (λ rest. length rest.now < length text.now)) }
{
    let (is_allowed, after) = read_line(text, &mut buffers.tokens)?;
    if !is_allowed {
        return Err(BenchCause::BadName);
    }
    if has_end(&buffers.tokens) {
        return Err(BenchCause::BadName);
    }
    match statement_of(&mut buffers.inputs, &buffers.tokens) {
        Ok(statement) => Ok((statement, after)),
        Err(cause) => Err(cause),
    }
}
