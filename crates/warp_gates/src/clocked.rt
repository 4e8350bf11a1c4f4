//! Which flip-flops each place clocks.
ghost use Rattle.std.specs.Prelude.{◌≡◌, ℕ, ◌<◌, ◌≤◌, [], true, min, length, get_or};
ghost use Rattle.std.specs.List.{All};
ghost use Rattle.warp_gates.specs.Inner.Told.{all_edges};

use number_groups::Groups;
use std::marker::Model;
use warp_stores::Word;

/// For each place the flip-flops that it clocks. Few places clock any, so it is known between which they stand.
#[derive(Debug, Drop)]
pub(crate) struct Clocked {
    rows: Groups,
    from: u32,
    to: u32,
}

impl Model for Clocked {
    ghost use Rattle.std.specs.Prelude.{ℕ, List};
    ghost use Rattle.warp_gates.specs.Inner.Clocked.{AreBetween};

    ghost Value = { List (List ℕ) };

    ghost view = { λ clocked. clocked.rows };

    ghost invariant = { λ clocked. AreBetween clocked.from clocked.to clocked.rows };
}

impl Clocked {
    /// These rows, of so many places.
    pub(crate) fn of(rows: Groups, places: u32) -> Clocked
        requires { length rows ≡ places }
        ensures { result ≡ rows }
    {
        let from = first_of(&rows, places);
        let to = end_of(&rows, places);
        Clocked { rows, from, to }
    }

    /// The flip-flops that a place clocks.
    #[inline]
    pub(crate) fn get(&self, place: u32) -> &[u32]
        requires { place < length self.now }
        ensures { result.now ≡ get_or self.now place [] }
    {
        if place < self.from || place >= self.to {
            return &[];
        }
        self.rows.get(place)
    }

    /// Whether each word is of a place that doesn't stand between those that clock flip-flops. There is no branch, so that
    /// many words are looked at at once.
    pub(crate) fn passes(&self, words: &[Word]) -> bool
        requires { All (λ word. word.place < length self.now) words.now }
        ensures { result ≡ true → All (λ word. get_or self.now word.place [] ≡ []) words.now }
    {
        let mut passes = true;
        for word in words {
            let place = word.place();
            passes &= (place < self.from) | (place >= self.to);
        }
        passes
    }

    /// How many flip-flops the places of some words clock; the greatest number if they are more.
    pub(crate) fn room_for(&self, words: &[Word]) -> usize
        requires { All (λ word. word.place < length self.now) words.now }
        ensures { result ≡ min (length (all_edges self.now words.now)) usize.MAX }
    {
        if self.passes(words) {
            return 0;
        }
        let mut room: usize = 0;
        for word in words {
            room = room.saturating_add(self.get(word.place()).len());
        }
        room
    }
}

/// The first place that clocks a flip-flop; the end of all where none does.
fn first_of(rows: &Groups, places: u32) -> u32
    requires { length rows.now ≡ places }
    ensures { (place : ℕ) → place < result → get_or rows.now place [] ≡ [] }
{
    let mut first = 0;
    while first < places && rows.get(first).is_empty() {
        first += 1;
    }
    first
}

/// Where the last place that clocks a flip-flop ends; 0 where none does.
fn end_of(rows: &Groups, places: u32) -> u32
    requires { length rows.now ≡ places }
    ensures { (place : ℕ) → result ≤ place → get_or rows.now place [] ≡ [] }
{
    let mut end = places;
    while end > 0 && rows.get(end - 1).is_empty() {
        end -= 1;
    }
    end
}
