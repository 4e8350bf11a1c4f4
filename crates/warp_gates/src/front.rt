//! What is kept of each place at hand, and how a value is shown to those who read it.
ghost use Rattle.std.specs.Prelude.{◌≡◌, ℕ, ◌<◌, ◌≤◌, ◌+◌, ◌/◌, ◌++◌, ◌∷◌, [], if◌then◌else◌, List, length, vec_len, vec_capacity};
ghost use Rattle.std.specs.List.{All};
ghost use Rattle.warp_gates.specs.Cells.{Cell, moved, unmoved};
ghost use Rattle.warp_gates.specs.Inner.Fronts.{AreShown, IsShownAt, AreReaders, AreFronts, AreSettled, AreTouched, AreEdges};
ghost use Rattle.warp_gates.specs.Inner.Told.{AreListed, all_edges};

use crate::pins::{PINS, Pins};
use gate_values::{Kind, Logic};
use number_groups::Groups;
use std::mem::swap;
use warp_stores::Word;

/// How many edges a gate can have: one a pin, and one for all inputs of a gate that has more.
pub(crate) const EDGES: u32 = 8;

/// What a step looks at of a place, in eight bytes: the queue for its changes, the values at a gate's inputs if they are
/// at most four, the kind of gate, what it last put out, and whether an input has changed since.
#[derive(Clone, Copy, Debug)]
pub(crate) struct Front {
    pub(crate) queue: u32,
    pub(crate) pins: Pins,
    pub(crate) kind: Kind,
    pub(crate) output: Logic,
    pub(crate) is_stale: bool,
}

/// Shows a value along some edges.
pub(crate) fn show(fronts: &mut [Front], edges: &[u32], value: Logic)
    requires { All (λ edge. edge / EDGES < length fronts.old) edges.now }
    ensures { AreShown edges.now value fronts.old fronts.new }
{
    for edge in edges {
        show_at(&mut fronts[(*edge / EDGES) as usize], *edge % EDGES, value);
    }
}

/// Lists an edge, unless its place is stale, and so has one in the list. There is no branch, since whether it is can't be
/// foreseen.
#[inline]
fn list(edge: u32, front: Front, stale: &mut Vec<u32>)
    requires { vec_len stale.old < vec_capacity stale.old }
    ensures listed { stale.new.items ≡ (if front.is_stale then stale.old.items else stale.old.items ++ edge ∷ []) }
    ensures room { vec_len stale.new ≤ vec_len stale.old + 1 }
    ensures capacity { vec_capacity stale.new ≡ vec_capacity stale.old }
{
    let len = stale.len();
    stale.push_reserved(edge);
    stale.truncate(len + usize::from(!front.is_stale));
}

/// Shows a value along some edges, and lists one to each place that wasn't stale.
fn show_and_list(fronts: &mut [Front], edges: &[u32], value: Logic, stale: &mut Vec<u32>)
    requires within { All (λ edge. edge / EDGES < length fronts.old) edges.now }
    requires room { vec_len stale.old + length edges.now ≤ vec_capacity stale.old }
    ensures shown { AreShown edges.now value fronts.old fronts.new }
    ensures listed { (before : List ℕ) → AreListed before fronts.old stale.old.items → AreListed (before ++ edges.now) fronts.new stale.new.items }
    ensures room { vec_len stale.new ≤ vec_len stale.old + length edges.now }
    ensures capacity { vec_capacity stale.new ≡ vec_capacity stale.old }
{
    for edge in edges {
        let place = (*edge / EDGES) as usize;
        list(*edge, fronts[place], stale);
        show_at(&mut fronts[place], *edge % EDGES, value);
    }
}

/// Words change the values of their places, and are shown to who reads these. Of each place that is stale then an edge is
/// listed, in place of what was in the list.
pub(crate) fn show_all(
    fronts: &mut [Front],
    values: &mut [Logic],
    readers: &Groups,
    words: &[Word],
    stale: &mut Vec<u32>,
)
    requires edges { AreEdges (length fronts.old) readers.now }
    requires rows { length readers.now ≡ length values.old }
    requires words { All (λ word. word.place < length values.old) words.now }
    requires settled { AreSettled fronts.old }
    requires room { length (all_edges readers.now words.now) ≤ vec_capacity stale.old }
    ensures values { values.new ≡ moved words.now values.old }
    ensures fronts { (cells : List Cell) → AreReaders cells readers.now → AreFronts cells values.old fronts.old → AreFronts cells values.new fronts.new }
    ensures touched { AreTouched readers.now words.now fronts.old fronts.new }
    ensures listed { AreListed (all_edges readers.now words.now) fronts.new stale.new.items }
{
    // the list is the function's own meanwhile, so that its length can stay in a register
    let mut list = Vec::new(*stale.allocator());
    swap(&mut list, stale);
    list.clear();
    for word in words {
        let place = word.place();
        values[place as usize] = word.after();
        show_and_list(fronts, readers.get(place), word.after(), &mut list);
    }
    swap(&mut list, stale);
}

/// Words are taken back from the values of their places, the last of them first, and what is put back is shown to who
/// reads these.
pub(crate) fn unshow_all(
    fronts: &mut [Front],
    values: &mut [Logic],
    readers: &Groups,
    words: &[Word],
)
    requires edges { AreEdges (length fronts.old) readers.now }
    requires rows { length readers.now ≡ length values.old }
    requires words { All (λ word. word.place < length values.old) words.now }
    ensures values { values.new ≡ unmoved words.now values.old }
    ensures fronts { (cells : List Cell) → AreReaders cells readers.now → AreFronts cells values.old fronts.old → AreFronts cells values.new fronts.new }
    ensures touched { AreTouched readers.now words.now fronts.old fronts.new }
{
    let mut left = words.len();
    while left > 0 {
        left -= 1;
        let word = words[left];
        let place = word.place();
        values[place as usize] = word.before();
        show(fronts, readers.get(place), word.before());
    }
}

/// Shows a value to a place at an edge.
#[inline]
fn show_at(front: &mut Front, pin: u32, value: Logic)
    ensures { IsShownAt pin value front.old front.new }
{
    front.is_stale = true;
    if pin >= u32::from(PINS) {
        return;
    }
    front.pins = front.pins.with(pin as u8, value);
}
