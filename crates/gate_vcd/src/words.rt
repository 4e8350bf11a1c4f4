ghost use Rattle.std.specs.Prelude.{◌≡◌, ◌≤◌, ℕ, take, [], ◌∷◌, length, not, position, MatchOption};
ghost use Rattle.std.specs.List.{prefix_len};
ghost use Rattle.gate_vcd.specs.Tokens.{tokens_of, is_space, fault_at};
ghost use Rattle.gate_vcd.specs.Shown.Words.{token_of};

use crate::fault::{StimCause, StimFault};
use std::marker::Model;

/// A word of a stimulus text, and the offset of its first byte.
#[derive(Clone, Copy, Debug)]
pub struct Word<'a> {
    pub at: usize,
    pub text: &'a [u8],
}

/// A stimulus text, read word by word. Contracts see the tokens that are left.
#[derive(Drop)]
pub struct Words<'a> {
    rest: &'a [u8],
    at: usize,
}

impl<'a> Model for Words<'a> {
    ghost use Rattle.std.specs.Prelude.{List};
    ghost use Rattle.gate_vcd.specs.Tokens.{Token};

    ghost Value = { List Token };

    ghost use Rattle.gate_vcd.specs.Inner.Words.{IsWithin};
    ghost use Rattle.gate_vcd.specs.Shown.Words.{tokens_left};

    ghost view = { tokens_left };

    ghost invariant = { IsWithin };
}

impl<'a> Word<'a> {
    /// A refusal at this word.
    pub fn fault(&self, cause: StimCause) -> StimFault
        ensures { result ≡ fault_at (token_of self.now) cause }
    {
        StimFault {
            at: self.at as u64,
            cause,
        }
    }
}

fn is_space(byte: u8) -> bool
    ensures { result ≡ is_space byte }
{
    matches!(byte, 9..=13 | 32)
}

/// Where the first byte stands that is no white space.
fn find_other(text: &[u8]) -> Option<usize>
    ensures { result ≡ position (λ b. not (is_space b)) text.now }
{
    text.iter().position(|byte| !is_space(*byte))
}

/// Where the first byte of white space stands.
fn find_space(text: &[u8]) -> Option<usize>
    ensures { result ≡ position is_space text.now }
{
    text.iter().position(|byte| is_space(*byte))
}

/// How many bytes of white space stand first.
fn space_len(text: &[u8]) -> usize
    ensures len { result ≡ prefix_len is_space text.now }
    ensures within { result ≤ length text.now }
{
    find_other(text).unwrap_or(text.len())
}

/// How many other bytes stand first.
fn word_len(text: &[u8]) -> usize
    ensures len { result ≡ prefix_len (λ b. not (is_space b)) text.now }
    ensures within { result ≤ length text.now }
{
    find_space(text).unwrap_or(text.len())
}

impl<'a> Words<'a> {
    /// All words of a text.
    pub fn new(text: &'a [u8]) -> Words<'a>
        ensures { result ≡ tokens_of text.now }
    {
        Words { rest: text, at: 0 }
    }

    /// The part of the text, from its beginning, that has been passed.
    pub fn passed(&self, text: &'a [u8]) -> &'a [u8]
        ensures { (len : ℕ) × (result.now ≡ take len text.now) }
    {
        if self.at < text.len() {
            &text[..self.at]
        } else {
            text
        }
    }

    /// The next word.
    pub fn next(&mut self) -> Option<Word<'a>>
        ensures { MatchOption result ((self.old ≡ []) × (self.new ≡ [])) (λ word. self.old ≡ token_of word ∷ self.new) }
    {
        let space = space_len(self.rest);
        let (_, rest) = self.rest.split_at(space);
        let len = word_len(rest);
        let (text, rest) = rest.split_at(len);
        let at = self.at + space;
        self.at = at + len;
        self.rest = rest;
        if len == 0 {
            return None;
        }
        Some(Word { at, text })
    }
}
