//! Lists of numbers that lie in one.
ghost use Rattle.std.specs.Prelude.{◌≡◌, ◌<◌, ◌≤◌, ◌++◌, ◌∷◌, [], OnOk, OnErr, length, get_or};
ghost use Rattle.std.specs.List.{between};
ghost use Rattle.number_groups.specs.Rows.{rows_from, AreEnds};
ghost use Rattle.number_groups.specs.Inner.Rows.{start_at};

use std::alloc::{AllocError, Global};
use std::marker::Model;

/// Lists of numbers, one after the other: eight bytes a list, and four a number.
#[derive(Debug, Drop)]
pub struct Rows {
    ends: Vec<usize>,
    numbers: Vec<u32>,
}

impl Model for Rows {
    ghost use Rattle.std.specs.Prelude.{ℕ, List, length};
    ghost use Rattle.number_groups.specs.Rows.{rows_from, AreEnds};

    ghost Value = { List (List ℕ) };

    ghost view = { λ rows. rows_from 0 rows.ends.items rows.numbers.items };

    ghost invariant = { λ rows. AreEnds 0 rows.ends.items (length rows.numbers.items) };
}

impl Rows {
    /// No list.
    pub fn new(alloc: Global) -> Rows
        ensures { result ≡ [] }
    {
        Rows {
            ends: Vec::new(alloc),
            numbers: Vec::new(alloc),
        }
    }

    /// How many lists there are.
    pub fn len(&self) -> usize
        ensures { result ≡ length self.now }
    {
        self.ends.len()
    }

    /// The list at a place.
    pub fn get(&self, place: usize) -> &[u32]
        requires { place < length self.now }
        ensures { result.now ≡ get_or self.now place [] }
    {
        row_in(&self.ends, &self.numbers, place)
    }

    /// One list more. An error is a refused growth; then all stays.
    pub fn push(&mut self, row: &[u32]) -> Result<(), AllocError>
        ensures ok { OnOk result (self.new ≡ self.old ++ row.now ∷ []) }
        ensures err { OnErr result (self.new ≡ self.old) }
    {
        self.ends.reserve(1)?;
        self.numbers.extend_from_slice(row)?;
        self.ends.push_reserved(self.numbers.len());
        Ok(())
    }
}

/// The list at a place.
fn row_in<'a>(ends: &[usize], numbers: &'a [u32], place: usize) -> &'a [u32]
    requires ends { AreEnds 0 ends.now (length numbers.now) }
    requires place { place < length ends.now }
    ensures { result.now ≡ get_or (rows_from 0 ends.now numbers.now) place [] }
{
    let start = start_of(ends, place);
    part(numbers, start, ends[place])
}

/// The numbers from one place up to another.
fn part(numbers: &[u32], from: usize, to: usize) -> &[u32]
    requires order { from ≤ to }
    requires within { to ≤ length numbers.now }
    ensures { result.now ≡ between from to numbers.now }
{
    &numbers[from..to]
}

/// Where the list at a place begins.
fn start_of(ends: &[usize], place: usize) -> usize
    requires { place < length ends.now }
    ensures { result ≡ start_at 0 ends.now place }
{
    if place == 0 { 0 } else { ends[place - 1] }
}
