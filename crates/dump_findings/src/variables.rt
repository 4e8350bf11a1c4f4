//! The variables that a stimulus declares.
ghost use Rattle.std.specs.Prelude.{ℕ, length, All, IfOk, IfSome};
ghost use Rattle.finding_words.specs.Words.{IsWithin};

use finding_words::{Word, word_from};
use gate_vcd::{Keyword, Scopes, keyword_of};
use std::alloc::{AllocError, Global};
use text_numbers::number_up_to;

/// A variable, as its `$var` says.
#[derive(Drop)]
pub(crate) struct Variable<'a> {
    pub kind: Word<'a>,
    pub size: Word<'a>,
    /// The first word of its name.
    pub name: Word<'a>,
    /// All words of its name, joined, without a `\` in front.
    pub reference: Vec<u8>,
}

impl Variable<'_> {
    /// Whether its values are no bits.
    pub(crate) fn is_unvalued(&self) -> bool {
        self.kind.is("real") || self.kind.is("realtime") || self.kind.is("string")
    }

    pub(crate) fn has_one_bit(&self) -> bool {
        number_up_to(1, self.size.text) == Some(1)
    }

    pub(crate) fn reference(&self) -> &[u8] {
        self.reference.as_slice()
    }
}

/// Which variable is looked for.
#[derive(Clone, Copy)]
pub(crate) enum Wanted<'n> {
    /// One of this name, with a range or without.
    Named(&'n [u8]),
    /// One whose name has these letters, in any case.
    InAnyCase(&'n [u8]),
    /// One whose name begins with this word, with other words behind it.
    BeginsWith(&'n [u8]),
}

impl Wanted<'_> {
    fn is(&self, found: &Variable<'_>) -> bool {
        let reference = found.reference();
        match self {
            Wanted::Named(name) => matches!(
                reference.strip_prefix(*name),
                Some([]) | Some([b'[', ..])
            ),
            Wanted::InAnyCase(name) => reference.eq_ignore_ascii_case(*name),
            Wanted::BeginsWith(name) => bare(found.name.text) == *name && reference != *name,
        }
    }
}

/// The first variable that is wanted, in the order of the declarations, of those in a scope, where one is asked for.
pub(crate) fn find_variable<'a>(
    alloc: Global,
    text: &'a [u8],
    scope: Option<&[u8]>,
    wanted: Wanted<'_>,
) -> Result<Option<Variable<'a>>, AllocError>
    ensures { IfOk result (λ found. IfSome found (λ variable. IsWithin (length text.entry.now) variable.name)) }
{
    let mut scopes = Scopes::new(alloc, scope);
    let mut command = Vec::new(alloc);
    let mut at = 0usize;
    while at < text.len() {
        let word = word_from(text, at);
        if word.text.is_empty() {
            break;
        }
        at = word.at + word.text.len();
        if word.is("$end") {
            if let Some(variable) = declared(alloc, &mut scopes, command.as_slice())? {
                if wanted.is(&variable) {
                    return Ok(Some(variable));
                }
            }
            if ends_declarations(command.as_slice()) {
                return Ok(None);
            }
            command.clear();
        } else if is_kept(command.as_slice()) {
            command.push(word)?;
        }
    }
    Ok(None)
}

/// What the command of these words is about, the first of which opens it.
fn keyword(command: &[Word<'_>]) -> Option<Keyword> {
    match command {
        [first, ..] => Some(keyword_of(first.text)),
        [] => None,
    }
}

fn ends_declarations(command: &[Word<'_>]) -> bool {
    keyword(command) == Some(Keyword::EndDefinitions)
}

/// Whether the next word of a command is kept: its first one, and all of those that are about variables and scopes.
fn is_kept(command: &[Word<'_>]) -> bool {
    matches!(keyword(command), None | Some(Keyword::Var | Keyword::Scope))
}

/// The variable that a command declares in the scope that is asked for, or what the command makes of the scopes.
fn declared<'a>(
    alloc: Global,
    scopes: &mut Scopes<'_>,
    command: &[Word<'a>],
) -> Result<Option<Variable<'a>>, AllocError>
    ensures { (size : ℕ) → All (IsWithin size) command.now → IfOk result (λ found. IfSome found (λ variable. IsWithin size variable.name)) }
{
    match keyword(command) {
        Some(Keyword::Scope) => {
            scopes.open(scope_name(command)).map_err(|_| AllocError)?;
            Ok(None)
        }
        Some(Keyword::Upscope) => {
            scopes.close();
            Ok(None)
        }
        Some(Keyword::Var) if scopes.are_counted() => variable_of(alloc, command),
        _ => Ok(None),
    }
}

/// The name that a `$scope` gives, empty where it gives none.
fn scope_name<'a>(command: &[Word<'a>]) -> &'a [u8] {
    match command {
        [_, _, name, ..] => name.text,
        _ => &[],
    }
}

/// The variable of a `$var`, if it has enough words.
fn variable_of<'a>(alloc: Global, command: &[Word<'a>]) -> Result<Option<Variable<'a>>, AllocError>
    ensures { (size : ℕ) → All (IsWithin size) command.now → IfOk result (λ found. IfSome found (λ variable. IsWithin size variable.name)) }
{
    match command {
        [_, kind, size, _, name, rest @ ..] => {
            let mut reference = Vec::from_slice(alloc, bare(name.text))?;
            for word in rest {
                reference.extend_from_slice(word.text)?;
            }
            Ok(Some(Variable {
                kind: *kind,
                size: *size,
                name: *name,
                reference,
            }))
        }
        _ => Ok(None),
    }
}

/// A name without a `\` in front.
fn bare(name: &[u8]) -> &[u8] {
    name.strip_prefix(b"\\").unwrap_or(name)
}
