ghost use Rattle.std.specs.Prelude.{◌≡◌, ◌≤◌, ◌-◌, ◌++◌, ◌∷◌, [], ℕ, List, length, take, option_map, slice_get, unwrap_or, IfErr, OnOk};
ghost use Rattle.gate_vcd.specs.Declarations.{inner_path, is_counted};
ghost use Rattle.gate_vcd.specs.Faults.{out_of_memory};
ghost use Rattle.gate_vcd.specs.Inner.Scopes.{end_in, next_end, is_asked};
ghost use Rattle.gate_vcd.specs.Shown.Scopes.{AreAlong};

use crate::fault::StimFault;
use std::alloc::Global;

/// The open scopes, compared with the scope that is asked for as they open: of each, where the text of
/// its path ends in the one asked for, if that begins with it.
#[derive(Drop)]
pub struct Scopes<'s> {
    pub asked: Option<&'s [u8]>,
    pub ends: Vec<Option<usize>>,
}

/// Where a name ends in the text from a place on, if it stands there.
fn end_in(asked: &[u8], from: usize, name: &[u8]) -> Option<usize>
    requires { from ≤ length asked.now }
    ensures { result ≡ end_in asked.now from name.now }
{
    if asked[from..].starts_with(name) {
        Some(from + name.len())
    } else {
        None
    }
}

/// Where the path of a new scope ends: in the scope with this end, or in none.
fn next_end(asked: &[u8], outer: Option<Option<usize>>, name: &[u8]) -> Option<usize>
    ensures { result ≡ next_end asked.now outer name.now }
{
    match outer {
        None => end_in(asked, 0, name),
        Some(None) => None,
        Some(Some(at)) => {
            if at < asked.len() && asked[at] == b'.' {
                end_in(asked, at + 1, name)
            } else {
                None
            }
        }
    }
}

/// Whether the innermost scope ends where the one that is asked for does.
fn is_asked(asked: &[u8], inner: Option<Option<usize>>) -> bool
    ensures { result ≡ is_asked asked.now inner }
{
    match inner {
        None => asked.is_empty(),
        Some(None) => false,
        Some(Some(at)) => at == asked.len(),
    }
}

impl<'s> Scopes<'s> {
    /// No scope is open yet.
    pub fn new(alloc: Global, asked: Option<&'s [u8]>) -> Scopes<'s>
        ensures asked { result.asked ≡ asked.entry }
        ensures ends { result.ends.items ≡ [] }
    {
        Scopes {
            asked,
            ends: Vec::new(alloc),
        }
    }

    fn asked_text(&self) -> &'s [u8]
        ensures { result.now ≡ unwrap_or (option_map (λ a. a.now) self.now.asked) [] }
    {
        match self.asked {
            Some(asked) => asked,
            None => &[],
        }
    }

    fn inner_end(&self) -> Option<Option<usize>>
        ensures { result ≡ slice_get self.now.ends.items (length self.now.ends.items - 1) }
    {
        self.ends.as_slice().last().copied()
    }

    /// Opens a scope in the innermost one.
    pub fn open(&mut self, name: &[u8]) -> Result<(), StimFault>
        ensures asked { self.new.asked ≡ self.old.asked }
        ensures ok { (scopes : List (List ℕ)) → AreAlong (option_map (λ a. a.now) self.old.asked) self.old.ends.items scopes → OnOk result (AreAlong (option_map (λ a. a.now) self.old.asked) self.new.ends.items (scopes ++ inner_path scopes name.now ∷ [])) }
        ensures err { IfErr result (λ e. e ≡ out_of_memory) }
    {
        let end = next_end(self.asked_text(), self.inner_end(), name);
        self.ends.push(end)?;
        Ok(())
    }

    /// Closes the innermost scope, if one is open.
    pub fn close(&mut self)
        ensures asked { self.new.asked ≡ self.old.asked }
        ensures ends { self.new.ends.items ≡ take (length self.old.ends.items - 1) self.old.ends.items }
    {
        self.ends.pop();
    }

    /// Whether a variable that stands in the innermost scope counts.
    pub fn are_counted(&self) -> bool
        ensures { (scopes : List (List ℕ)) → AreAlong (option_map (λ a. a.now) self.now.asked) self.now.ends.items scopes → result ≡ is_counted (option_map (λ a. a.now) self.now.asked) scopes }
    {
        match self.asked {
            Some(asked) => is_asked(asked, self.inner_end()),
            None => true,
        }
    }
}
