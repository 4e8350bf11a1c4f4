ghost use Rattle.std.specs.Prelude.{◌≡◌, ◌<◌, ◌∷◌, ◌++◌, length, option_map, option_to_list, OnOk, IfOk, true};
ghost use Rattle.std.specs.List.{list_any, prefix_len};
ghost use Rattle.gate_netlist.specs.Symbols.{Word, mark_of, is_letter, begins_with_letter, is_allowed, is_end, symbols};
ghost use Rattle.gate_netlist.specs.Inner.Splits.{word_first, after_open, has_comma, after_equals, closes};
ghost use Rattle.gate_netlist.specs.Inner.Tokens.{symbol_of, symbols_of, code_of, after_code, begins_with_code, allowed_code};

use std::alloc::AllocError;

/// A mark or a word of a line.
#[derive(Clone, Copy)]
pub(crate) enum Token<'a> {
    Open,
    Close,
    Comma,
    Equals,
    Word(&'a str),
}

fn mark_of(byte: u8) -> Option<Token<'static>>
    ensures { option_map symbol_of result ≡ mark_of byte }
{
    match byte {
        b'(' => Some(Token::Open),
        b')' => Some(Token::Close),
        b',' => Some(Token::Comma),
        b'=' => Some(Token::Equals),
        _ => None,
    }
}

// Each byte that a word may have stands at its own place, and a `#` at every other place.
static LETTERS: [u8; 256] = *b"\
    ################################\
    #!\"#$%&'##*+#-./0123456789:;<#>?\
    @ABCDEFGHIJKLMNOPQRSTUVWXYZ[\\]^_\
    `abcdefghijklmnopqrstuvwxyz{|}~#\
    ################################\
    ################################\
    ################################\
    ################################";

/// Whether a word may have this byte.
pub(crate) fn is_letter(byte: u8) -> bool
    ensures { result ≡ is_letter byte }
{
    LETTERS[byte as usize] != b'#'
}

// Each byte that may stand outside a comment stands at its own place, and a `#` at every other place.
static ALLOWED: [u8; 256] = *b"\
    #########\t######################\
    \x20!\"#$%&'()*+,-./0123456789:;<=>?\
    @ABCDEFGHIJKLMNOPQRSTUVWXYZ[\\]^_\
    `abcdefghijklmnopqrstuvwxyz{|}~#\
    ################################\
    ################################\
    ################################\
    ################################";

/// Whether this byte may stand outside a comment.
fn may_stand(byte: u8) -> bool
    ensures { result ≡ is_allowed byte }
{
    ALLOWED[byte as usize] != b'#'
}

/// How many bytes in front may stand outside a comment.
fn allowed_len(line: &[u8]) -> usize
    ensures { result ≡ prefix_len is_allowed line.now }
{
    line.iter().take_while(|byte| may_stand(**byte)).count()
}

/// What stands before the comment of a line, where each byte of it may stand there.
pub(crate) fn allowed_code(line: &[u8]) -> Option<&[u8]>
    ensures { option_map (λ code. code.now) result ≡ allowed_code line.now }
{
    let (code, rest) = line.split_at(allowed_len(line));
    match rest.first() {
        None => Some(code),
        Some(b'#') => Some(code),
        Some(_) => None,
    }
}

/// Whether one of the words is `$end`, which is no name.
pub(crate) fn has_end(tokens: &[Token]) -> bool
    ensures { result ≡ list_any (λ t. is_end (symbol_of t)) tokens.now }
{
    tokens.iter().any(|token| is_end(token))
}

fn is_end(token: &Token) -> bool
    ensures { result ≡ is_end (symbol_of token.now) }
{
    match token {
        Token::Word(word) => *word == "$end",
        _ => false,
    }
}

/// How many letters stand in front.
fn word_len(code: &[u8]) -> usize
    ensures { result ≡ prefix_len is_letter code.now }
{
    code.iter().take_while(|byte| is_letter(**byte)).count()
}

/// Whether a byte stands in front that may stand outside a comment.
fn begins_with_code(text: &[u8]) -> bool
    ensures { result ≡ begins_with_code text.now }
{
    match text {
        [byte, ..] => may_stand(*byte),
        [] => false,
    }
}

/// The word in front, and what follows it.
fn split_word(code: &[u8]) -> (&str, &[u8])
    requires { begins_with_letter code.now ≡ true }
    ensures word { symbols (code_of code.now) ≡ Word result.0.now ∷ symbols (code_of result.1.now) }
    ensures rest { after_code result.1.now ≡ after_code code.now }
    ensures shorter { length result.1.now < length code.now }
{
    let (word, rest) = code.split_at(word_len(code));
    // Letters are ASCII.
    (unsafe { str::from_utf8_unchecked(word) }, rest)
}

/// The token in front, if one is there, and what follows it.
fn next_token(code: &[u8]) -> (Option<Token<'_>>, &[u8])
    requires { begins_with_code code.now ≡ true }
    ensures token { symbols (code_of code.now) ≡ option_to_list (option_map symbol_of result.0) ++ symbols (code_of result.1.now) }
    ensures rest { after_code result.1.now ≡ after_code code.now }
    ensures shorter { length result.1.now < length code.now }
{
    let byte = code[0];
    if is_letter(byte) {
        let (word, rest) = split_word(code);
        return (Some(Token::Word(word)), rest);
    }
    (mark_of(byte), &code[1..])
}

/// Puts the marks and words in front, up to the first byte that may not stand outside a comment, in place of what the buffer
/// holds. Gives what is left.
pub(crate) fn tokenize<'a>(
    text: &'a [u8],
    tokens: &mut Vec<Token<'a>>,
) -> Result<&'a [u8], AllocError>
    ensures symbols { OnOk result (symbols_of tokens.new.items ≡ symbols (code_of text.now)) }
    ensures rest { IfOk result (λ rest. rest.now ≡ after_code text.now) }
{
    tokens.clear();
    let mut rest = text;
    while begins_with_code(rest) {
        let (token, after) = next_token(rest);
        if let Some(token) = token {
            tokens.push(token)?;
        }
        rest = after;
    }
    Ok(rest)
}

/// The word in front, and what follows it.
pub(crate) fn word_first<'t, 'a>(tokens: &'t [Token<'a>]) -> Option<(&'a str, &'t [Token<'a>])>
    ensures { option_map (λ found. (found.0.now, symbols_of found.1.now)) result ≡ word_first (symbols_of tokens.now) }
{
    match tokens {
        [Token::Word(word), rest @ ..] => Some((*word, rest)),
        _ => None,
    }
}

/// What follows a `(` in front.
pub(crate) fn after_open<'t, 'a>(tokens: &'t [Token<'a>]) -> Option<&'t [Token<'a>]>
    ensures { option_map (λ rest. symbols_of rest.now) result ≡ after_open (symbols_of tokens.now) }
{
    match tokens {
        [Token::Open, rest @ ..] => Some(rest),
        _ => None,
    }
}

/// Whether a `,` stands in front.
pub(crate) fn has_comma(tokens: &[Token]) -> bool
    ensures { result ≡ has_comma (symbols_of tokens.now) }
{
    match tokens {
        [Token::Comma, ..] => true,
        _ => false,
    }
}

/// What follows a `=` in front.
pub(crate) fn after_equals<'t, 'a>(tokens: &'t [Token<'a>]) -> Option<&'t [Token<'a>]>
    ensures { option_map (λ rest. symbols_of rest.now) result ≡ after_equals (symbols_of tokens.now) }
{
    match tokens {
        [Token::Equals, rest @ ..] => Some(rest),
        _ => None,
    }
}

/// Whether a `)` stands there and no more.
pub(crate) fn closes(tokens: &[Token]) -> bool
    ensures { result ≡ closes (symbols_of tokens.now) }
{
    match tokens {
        [Token::Close] => true,
        _ => false,
    }
}
