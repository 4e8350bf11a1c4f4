//! What is wrong with a dump: a stimulus, or one that is compared.
ghost use Rattle.std.specs.Prelude.{◌≡◌, length, IfOk};
ghost use Rattle.finding_words.specs.Sentences.{meant};
ghost use Rattle.dump_findings.specs.Places.{IsOfWordAt};

use crate::stamps::{is_behind_declarations, last_stamp};
use Piece::{Number, Quoted, Text};
use finding_words::{Kind, Look, Piece, Said, Word, mistaken, word_at, word_behind};
use gate_vcd::StimCause;
use std::alloc::{AllocError, Global};
use text_numbers::is_numeral;
use text_places::Source;

/// What a fault of a dump is about that has a place in the text.
pub fn of_dump(
    alloc: Global,
    source: Source<'_>,
    kind: Kind,
    cause: StimCause,
    at: usize,
) -> Result<Said, AllocError>
    ensures { IfOk result (IsOfWordAt at source.entry.text.now) }
{
    let look = Look::of(alloc, source.text)?;
    if !matches!(look, Look::Dump | Look::Other) {
        return mistaken(alloc, look, kind);
    }
    of_word(alloc, source, cause, &word_at(source.text, at))
}

/// What a fault of a dump is about that stands at a word.
fn of_word<'a>(
    alloc: Global,
    source: Source<'a>,
    cause: StimCause,
    word: &Word<'a>,
) -> Result<Said, AllocError>
    ensures { IfOk result (λ said. meant said ≡ length word.now.text.now) }
{
    match cause {
        StimCause::BadToken => bad_token(alloc, source, word),
        StimCause::BadVar => bad_var(alloc, source, word),
        StimCause::StampFalls => stamp_falls(alloc, source, word),
        StimCause::UnknownCode => unknown_code(alloc, source, word),
        _ => of_command(alloc, cause, word),
    }
}

fn said(
    alloc: Global,
    word: &Word<'_>,
    cause: &[Piece<'_>],
    advice: &'static str,
) -> Result<Said, AllocError>
    ensures { IfOk result (λ said. meant said ≡ length word.now.text.now) }
{
    Said::new(alloc, word.text.len(), cause, &[Text(advice)])
}

/// A fault that is told without a look around.
fn of_command(alloc: Global, cause: StimCause, word: &Word<'_>) -> Result<Said, AllocError>
    ensures { IfOk result (λ said. meant said ≡ length word.now.text.now) }
{
    let named = Quoted(word.text);
    match cause {
        StimCause::UnclosedCommand => said(
            alloc,
            word,
            &[Text("the command "), named, Text(" has no `$end`")],
            "a command goes up to the word $end, with white space around it; where there is none, the dump may be cut off",
        ),
        StimCause::BadTimescale => said(
            alloc,
            word,
            &[Text("a timescale is 1, 10 or 100, and s, ms, us, ns, ps or fs")],
            "",
        ),
        _ => said(
            alloc,
            word,
            &[Text("the stamp "), named, Text(" is above 10^18")],
            "a coarser $timescale makes stamps smaller",
        ),
    }
}

const CUT_OFF: &str = "the text ends there: the dump may be cut off";

/// Whether a text ends with this word, and not with a line's end.
fn is_cut_off(text: &[u8], word: &Word<'_>) -> bool {
    !text.ends_with(b"\n") && word_behind(text, word).text.is_empty()
}

/// Whether there is a digit in a word that std_logic has and a dump hasn't.
fn has_std_logic(word: &[u8]) -> bool {
    match word {
        [b'b' | b'B', digits @ ..] => digits.iter().any(|digit| is_std_logic(*digit)),
        [digit, ..] => is_std_logic(*digit),
        [] => false,
    }
}

fn is_std_logic(digit: u8) -> bool {
    matches!(
        digit,
        b'U' | b'W' | b'L' | b'H' | b'-' | b'u' | b'w' | b'l' | b'h'
    )
}

fn bad_token(alloc: Global, source: Source<'_>, word: &Word<'_>) -> Result<Said, AllocError>
    ensures { IfOk result (λ said. meant said ≡ length word.now.text.now) }
{
    let named = Quoted(word.text);
    if !is_behind_declarations(source.text, word.at) {
        let cause = [
            named,
            Text(" stands where a command is expected, as $var or $enddefinitions"),
        ];
        let advice = "values and stamps stand behind $enddefinitions $end";
        return said(alloc, word, &cause, advice);
    }
    let cause = [
        named,
        Text(" is neither a stamp, nor a change, nor a command"),
    ];
    said(alloc, word, &cause, token_advice(source.text, word))
}

/// What to do about a word behind the declarations that says nothing.
fn token_advice(text: &[u8], word: &Word<'_>) -> &'static str {
    if has_std_logic(word.text) {
        return "U, W, L, H and - are values of VHDL's std_logic: examples/std_logic_to_verilog turns them into those of a dump";
    }
    if is_cut_off(text, word) {
        return CUT_OFF;
    }
    match word.text {
        [b'#', ..] => "a stamp is # and decimal digits",
        [b'0' | b'1' | b'x' | b'X' | b'z' | b'Z'] =>
            "a value of one bit and its code are one word, as 1!",
        [b'b' | b'B' | b'r' | b'R' | b's' | b'S', ..] =>
            "behind the value stands a blank and the code, as b101 !",
        _ => "a change is a value and a code, as 1! or b101 !; a stamp is # and digits",
    }
}

/// The words of a command behind its first one: how many there are, and the second of them.
fn words_of<'a>(text: &'a [u8], command: &Word<'_>) -> (usize, Word<'a>) {
    let mut word = word_behind(text, command);
    let mut second = word;
    for count in 0..4usize {
        if count == 1 {
            second = word;
        }
        if word.is("$end") || word.text.is_empty() {
            return (count, second);
        }
        word = word_behind(text, &word);
    }
    (4, second)
}

fn bad_var(alloc: Global, source: Source<'_>, word: &Word<'_>) -> Result<Said, AllocError>
    ensures { IfOk result (λ said. meant said ≡ length word.now.text.now) }
{
    let (count, size) = words_of(source.text, word);
    if count < 4 {
        let cause = [
            Text("this variable has "),
            Number(count as u64),
            Text(" words, and type, size, code and name are four"),
        ];
        return said(alloc, word, &cause, "as $var wire 1 ! A $end");
    }
    if is_numeral(size.text) {
        let cause = [Text("the code of this variable has bytes outside 33 to 126")];
        return said(alloc, word, &cause, "");
    }
    let cause = [
        Text("the size "),
        Quoted(size.text),
        Text(" of this variable is no number"),
    ];
    said(alloc, word, &cause, "")
}

fn stamp_falls<'a>(alloc: Global, source: Source<'a>, word: &Word<'a>) -> Result<Said, AllocError>
    ensures { IfOk result (λ said. meant said ≡ length word.now.text.now) }
{
    let before = last_stamp(source.text, word.at);
    let cause = [
        Text("the stamp "),
        Quoted(word.text),
        Text(" comes after "),
        Quoted(before.text),
    ];
    let advice = if is_cut_off(source.text, word) {
        CUT_OFF
    } else {
        "time doesn't go back: join dumps by sorting their stamps"
    };
    said(alloc, word, &cause, advice)
}

fn unknown_code(alloc: Global, source: Source<'_>, word: &Word<'_>) -> Result<Said, AllocError>
    ensures { IfOk result (λ said. meant said ≡ length word.now.text.now) }
{
    let code = match word.text {
        [b'b' | b'B' | b'r' | b'R' | b's' | b'S', ..] => word_behind(source.text, word),
        _ => Word::of(
            source.text,
            word.at.saturating_add(1),
            word.text.len().saturating_sub(1),
        ),
    };
    let cause = [Text("no $var has the code "), Quoted(code.text)];
    let advice = if is_cut_off(source.text, &code) {
        CUT_OFF
    } else {
        "declare it, or drop its changes: each code of a change has to be declared before $enddefinitions"
    };
    said(alloc, word, &cause, advice)
}
