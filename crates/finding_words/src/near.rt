//! Names that are near to one that isn't known.
ghost use Rattle.std.specs.Prelude.{◌≡◌, IfOk, string_bytes, option_map};
ghost use Rattle.std.specs.List.{find};
ghost use Rattle.finding_words.specs.Names.{
  texts,
  is_behind_scope,
  leads_to,
  path_to,
  is_near,
  rule_of,
  text_of,
  near_by,
  nearest,
  question,
  IsQuestion,
};

use crate::sentences::quoted;
use std::alloc::{AllocError, Global};

/// How a known name is near.
#[derive(Clone, Copy)]
enum Near {
    /// It has the same letters, in any case.
    InAnyCase,
    /// It is the name without scopes in front.
    WithoutScope,
    /// It is the name with scopes in front.
    WithScope,
    /// It is a bit of the name.
    Bit,
}

impl Near {
    fn is(self, name: &[u8], known: &[u8]) -> bool
        ensures { result ≡ is_near self name.now known.now }
    {
        match self {
            Near::InAnyCase => known.eq_ignore_ascii_case(name),
            Near::WithoutScope => is_behind_scope(name, known),
            Near::WithScope => is_behind_scope(known, name),
            Near::Bit => known.starts_with(name) && known[name.len()..].starts_with(b"["),
        }
    }

    /// What is true of names, for one who wrote another.
    fn rule(self) -> &'static str
        ensures { result.now ≡ rule_of self }
    {
        match self {
            Near::InAnyCase => "names keep their letters' case",
            Near::WithoutScope => "no scope is named in front",
            Near::WithScope => "the scopes in between are named in front, with dots",
            Near::Bit => "each bit of a vector has a name",
        }
    }
}

/// Whether a path leads to a name, through scopes.
fn is_behind_scope(path: &[u8], name: &[u8]) -> bool
    ensures { result ≡ is_behind_scope path.now name.now }
{
    !name.is_empty() && path.ends_with(name) && path[..path.len() - name.len()].ends_with(b".")
}

/// Whether a path is a name, or leads to it.
fn leads_to(path: &[u8], name: &[u8]) -> bool
    ensures { result ≡ leads_to name.now path.now }
{
    path == name || is_behind_scope(path, name)
}

/// The first path that leads to a name, or is it.
pub fn path_to<'p>(paths: &[&'p [u8]], name: &[u8]) -> Option<&'p [u8]>
    ensures { option_map (λ path. path.now) result ≡ path_to (texts paths.now) name.now }
{
    for path in paths {
        if leads_to(*path, name) {
            return Some(*path);
        }
    }
    None
}

/// A known name that is near to another, and the rule that tells them apart.
#[derive(Clone, Copy)]
pub struct NearName<'k> {
    rule: &'static str,
    name: &'k [u8],
}

impl NearName<'_> {
    /// Asks whether it is meant.
    pub fn question(&self, alloc: Global) -> Result<String, AllocError>
        ensures { IfOk result (λ text. IsQuestion (text_of self.now) (string_bytes text)) }
    {
        let name = quoted(alloc, self.name)?;
        question(alloc, self.rule, name.as_str())
    }
}

fn question(alloc: Global, rule: &str, name: &str) -> Result<String, AllocError>
    ensures { IfOk result (λ text. string_bytes text ≡ question rule.now name.now) }
{
    format!(in alloc; "{rule}: is {name} meant?")
}

/// The first known name that is near in this way.
fn first_near<'k>(near: Near, known: &[&'k [u8]], name: &[u8]) -> Option<&'k [u8]>
    ensures { option_map (λ other. other.now) result ≡ find (is_near near name.now) (texts known.now) }
{
    for other in known {
        if near.is(name, *other) {
            return Some(*other);
        }
    }
    None
}

/// The same, and the rule that tells it apart.
fn near_by<'k>(near: Near, known: &[&'k [u8]], name: &[u8]) -> Option<NearName<'k>>
    ensures { option_map text_of result ≡ near_by near (texts known.now) name.now }
{
    match first_near(near, known, name) {
        Some(name) => Some(NearName {
            rule: near.rule(),
            name,
        }),
        None => None,
    }
}

/// The known name that is nearest to one, if one is near: one of the same letters, then the name without scopes, then the name
/// behind scopes, then a bit of it.
pub fn nearest<'k>(known: &[&'k [u8]], name: &[u8]) -> Option<NearName<'k>>
    ensures { option_map text_of result ≡ nearest (texts known.now) name.now }
{
    if let Some(near) = near_by(Near::InAnyCase, known, name) {
        return Some(near);
    }
    if let Some(near) = near_by(Near::WithoutScope, known, name) {
        return Some(near);
    }
    if let Some(near) = near_by(Near::WithScope, known, name) {
        return Some(near);
    }
    near_by(Near::Bit, known, name)
}
