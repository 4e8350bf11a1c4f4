ghost use Rattle.std.specs.Prelude.{◌≡◌, ◌≤◌, ◌∷◌, [], None, get_or, length, option_map};
ghost use Rattle.std.specs.List.{concat};
ghost use Rattle.gate_vcd.specs.declared.fault.StimCause.TheVariants as causes;
ghost use Rattle.gate_vcd.specs.Shown.Commands.{IsBody, has_texts, rest_of_command, variables};
ghost use Rattle.gate_vcd.specs.Declarations.{Header, timescale_of, keyword_of, opens_command, declared as declared_by, declaring, no_header, ends_declarations};
ghost use Rattle.gate_vcd.specs.Inner.Headers.{GoesOn, AreRead};
ghost use Rattle.gate_vcd.specs.Shown.Headers.{IsHeader, Declares, asked_of};
ghost use Rattle.gate_vcd.specs.Reading.{or_fault};
ghost use Rattle.gate_vcd.specs.Inner.Reading.{Reads};
ghost use Rattle.gate_vcd.specs.Shown.Words.{texts, token_of};

use crate::fault::{StimCause, StimFault};
use crate::items::skip_command;
use crate::keyword::{Keyword, is_end, keyword_of, opens_command, timescale_of};
use crate::scopes::Scopes;
use crate::variable::{Variable, joined, variable_of};
use crate::words::{Word, Words};
use gate_stimulus::{Timescale, Unit};
use std::alloc::Global;

/// What the declarations of a stimulus said so far.
#[derive(Drop)]
pub struct Declared<'a, 's> {
    pub timescale: Timescale,
    pub scopes: Scopes<'s>,
    pub variables: Vec<Variable<'a>>,
}

/// The words of the command before its `$end`.
fn rest_of_command<'a>(
    alloc: Global,
    words: &mut Words<'a>,
    first: Word<'a>,
) -> Result<Vec<&'a [u8]>, StimFault>
    ensures body { Reads (λ body. (texts body.items, words.new)) result (rest_of_command (token_of first.entry) words.old) }
    ensures shorter { length words.new ≤ length words.old }
{
    let mut body = Vec::new(alloc);
    while let Some(word) = words.next() {
        if is_end(word.text) {
            return Ok(body);
        }
        body.push(word.text)?;
    }
    Err(first.fault(StimCause::UnclosedCommand))
}

fn has_texts(keyword: Keyword) -> bool
    ensures { result ≡ has_texts keyword }
{
    matches!(keyword, Keyword::Timescale | Keyword::Scope | Keyword::Var)
}

/// The rest of a command: its words, where it is about them, or none, so that a comment takes no memory.
pub fn body_of<'a>(
    alloc: Global,
    words: &mut Words<'a>,
    first: Word<'a>,
    keyword: Keyword,
) -> Result<Vec<&'a [u8]>, StimFault>
    ensures body { IsBody keyword (token_of first.entry) words.old words.new result }
    ensures shorter { length words.new ≤ length words.old }
{
    if has_texts(keyword) {
        return rest_of_command(alloc, words, first);
    }
    skip_command(words, first)?;
    Ok(Vec::new(alloc))
}

fn timescale_in<'a>(
    alloc: Global,
    first: Word<'a>,
    body: &[&'a [u8]],
) -> Result<Timescale, StimFault>
    ensures { Reads (λ timescale. timescale) result (or_fault (timescale_of (concat (texts body.now))) (token_of first.entry) causes.BadTimescale) }
{
    let text = joined(alloc, body)?;
    match timescale_of(text.as_slice()) {
        Some(timescale) => Ok(timescale),
        None => Err(first.fault(StimCause::BadTimescale)),
    }
}

/// The name that a `$scope` gives: its second word, and none where there is no second.
pub fn scope_name<'a>(body: &[&'a [u8]]) -> &'a [u8]
    ensures { result.now ≡ get_or (texts body.now) 1 [] }
{
    match body {
        [_, name, ..] => name,
        _ => &[],
    }
}

impl<'a, 's> Declared<'a, 's> {
    /// Nothing was declared yet.
    pub fn new(alloc: Global, asked: Option<&'s [u8]>) -> Declared<'a, 's>
        ensures header { IsHeader result no_header }
        ensures asked { result.scopes.asked ≡ asked.entry }
    {
        Declared {
            timescale: Timescale {
                number: 1,
                unit: Unit::Ns,
            },
            scopes: Scopes::new(alloc, asked),
            variables: Vec::new(alloc),
        }
    }
}

/// What a command makes of the declarations before it.
pub fn declare<'a, 's>(
    alloc: Global,
    declared: &mut Declared<'a, 's>,
    first: Word<'a>,
    body: &[&'a [u8]],
) -> Result<(), StimFault>
    ensures asked { declared.new.scopes.asked ≡ declared.old.scopes.asked }
    ensures header { (h : Header) → IsHeader declared.old h → Declares declared.new result (declared_by (asked_of declared.old) h (record { first = token_of first.entry; body = texts body.now }) (keyword_of first.entry.text.now)) }
{
    match keyword_of(first.text) {
        Keyword::Timescale => {
            declared.timescale = timescale_in(alloc, first, body)?;
            Ok(())
        }
        Keyword::Scope => {
            declared.scopes.open(scope_name(body))?;
            Ok(())
        }
        Keyword::Upscope => {
            declared.scopes.close();
            Ok(())
        }
        Keyword::Var => {
            let counted = declared.scopes.are_counted();
            let variable = variable_of(alloc, counted, first, body)?;
            declared.variables.push(variable)?;
            Ok(())
        }
        Keyword::EndDefinitions | Keyword::Other => Ok(()),
    }
}

/// Whether the command ends the declarations.
pub fn ends_declarations(keyword: Keyword) -> bool
    ensures { result ≡ ends_declarations keyword }
{
    matches!(keyword, Keyword::EndDefinitions)
}

/// Reads the command that a word opened, and answers whether it ends the declarations.
fn read_command<'a, 's>(
    alloc: Global,
    words: &mut Words<'a>,
    declared: &mut Declared<'a, 's>,
    first: Word<'a>,
) -> Result<bool, StimFault>
    ensures shorter { length words.new ≤ length words.old }
    ensures asked { declared.new.scopes.asked ≡ declared.old.scopes.asked }
    ensures header { (h : Header) → IsHeader declared.old h → GoesOn declared.new words.new result (asked_of declared.old) (declaring (asked_of declared.old) h None (token_of first.entry ∷ words.old)) }
{
    if !opens_command(first.text) {
        return Err(first.fault(StimCause::BadToken));
    }
    let keyword = keyword_of(first.text);
    let body = body_of(alloc, words, first, keyword)?;
    declare(alloc, declared, first, &body)?;
    Ok(ends_declarations(keyword))
}

/// Reads the declarations of a stimulus. Only variables in the scope that is asked for count.
pub fn read_declarations<'a, 's>(
    alloc: Global,
    words: &mut Words<'a>,
    asked: Option<&'s [u8]>,
) -> Result<Declared<'a, 's>, StimFault>
    ensures { AreRead words.new result (declaring (option_map (λ a. a.now) asked.entry) no_header None words.old) }
{
    let mut declared = Declared::new(alloc, asked);
    while let Some(first) = words.next() {
        let ended = read_command(alloc, words, &mut declared, first)?;
        if ended {
            return Ok(declared);
        }
    }
    Ok(declared)
}
