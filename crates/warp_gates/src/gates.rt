//! The gates of a block.
ghost use Rattle.std.specs.Prelude.{◌≡◌, ℕ, ◌<◌, ◌≤◌, ◌+◌, min, IfOk, OnOk, OnErr, vec_len, vec_capacity, length, get_or, replicate};
ghost use Rattle.std.specs.List.{All};
ghost use Rattle.gate_values.specs.declared.logic.Logic.TheVariants.{X};
ghost use Rattle.warp_gates.specs.Cells.{AreApart, AreGates, IsCell, value_at, cell_at, first_output, ArePut, HaveNext, HaveSettled, HaveRestored, moved, unmoved};
ghost use Rattle.warp_gates.specs.Inner.Told.{AreTold, all_edges};
ghost use Rattle.warp_gates.specs.Inner.Fronts.{AreFronts, AreSettled, AreReaders};
ghost use Rattle.warp_gates.specs.Inner.Undoing.{AreFollowing};
ghost use Rattle.warp_gates.specs.Inner.Held.{AreHeld, ArePassedOn};

use crate::clocked::Clocked;
use crate::evaluate::evaluate;
use crate::first::fronts_of;
use crate::front::{Front, show_all, unshow_all};
use crate::load::load_all;
use crate::outputs::Outputs;
use crate::put::Put;
use crate::readers::{clocked_of, readers_of};
use crate::restore::restore_all;
use crate::settle::settle_all;
use crate::wiring::Wiring;
use gate_values::Logic;
use number_groups::Groups;
use std::alloc::{AllocError, Global};
use std::marker::Model;
use warp_stores::{PLACES, Word};

/// Gates and flip-flops over places: the value of each place, and what each puts out.
#[derive(Debug, Drop)]
pub struct Gates {
    wiring: Wiring,
    fronts: Vec<Front>,
    values: Vec<Logic>,
    readers: Groups,
    clocked: Clocked,
    outputs: Outputs,
    // an edge to each gate that the words of a step are shown to
    stale: Vec<u32>,
}

impl Model for Gates {
    ghost use Rattle.warp_gates.specs.Cells.{Gates};
    ghost use Rattle.warp_gates.specs.Inner.Held.{AreHeld};
    ghost use Rattle.warp_gates.specs.Shown.Held.{gates_of};

    ghost Value = { Gates };

    ghost view = { λ g. gates_of g.wiring g.fronts.items g.values.items };

    ghost invariant = { λ g. AreHeld g.wiring g.fronts.items g.values.items g.readers g.clocked };
}

impl Gates {
    /// Places of which nothing is known: each has the value X. A gate puts out X, and flip-flops and places outside what
    /// `contents` has. An error is a refused growth.
    pub fn new(
        alloc: Global,
        wiring: Wiring,
        queues: &[u32],
        contents: &[Logic],
    ) -> Result<Gates, AllocError>
        requires few { length wiring ≤ PLACES }
        requires cells { All (IsCell (length wiring)) wiring }
        requires queues { length queues.now ≡ length wiring }
        requires contents { length contents.now ≡ length wiring }
        ensures cells { IfOk result (λ gates. gates.cells ≡ wiring) }
        ensures queues { IfOk result (λ gates. gates.queues ≡ queues.now) }
        ensures values { IfOk result (λ gates. gates.values ≡ replicate (length wiring) X) }
        ensures outputs { IfOk result (λ gates. (place : ℕ) → value_at gates.outputs place ≡ first_output (cell_at wiring place) (value_at contents.now place)) }
    {
        let readers = readers_of(alloc, &wiring)?;
        let clocked = clocked_of(alloc, &wiring)?;
        let fronts = fronts_of(alloc, &wiring, queues, contents)?;
        let values = Vec::from_elem(alloc, Logic::X, wiring.len())?;
        let outputs = Outputs::new(alloc)?;
        let stale = Vec::new(alloc);
        Ok(Gates {
            wiring,
            fronts,
            values,
            readers,
            clocked,
            outputs,
            stale,
        })
    }

    /// How many places there are.
    pub fn len(&self) -> usize
        ensures { result ≡ length self.now.cells }
    {
        self.fronts.len()
    }

    /// The value of a place.
    #[inline]
    pub fn value(&self, place: u32) -> Logic
        requires { place < length self.now.cells }
        ensures { result ≡ value_at self.now.values place }
    {
        self.values[place as usize]
    }

    /// What a place puts out.
    #[inline]
    pub fn output(&self, place: u32) -> Logic
        requires { place < length self.now.cells }
        ensures { result ≡ value_at self.now.outputs place }
    {
        self.fronts[place as usize].output
    }

    /// The queue that a place puts its changes into.
    #[inline]
    pub fn queue(&self, place: u32) -> u32
        requires { place < length self.now.cells }
        ensures { result ≡ get_or self.now.queues place 0 }
    {
        self.fronts[place as usize].queue
    }

    /// What is true of all gates. It does nothing.
    pub fn law(&self)
        ensures gates { AreGates self.now }
        ensures few { length self.now.cells ≤ PLACES }
    {
        let _ = &self.values;
    }

    /// Words change the values of their places, and what places put out then follows: each change of an output is put
    /// behind `puts`, once. Each word is of another place.
    ///
    /// An error is a refused growth; then all stays.
    pub fn step(&mut self, words: &[Word], puts: &mut Vec<Put>) -> Result<(), AllocError>
        requires words { All (λ word. word.place < length self.old.cells) words.now }
        requires apart { AreApart words.now }
        ensures cells { self.new.cells ≡ self.old.cells }
        ensures queues { self.new.queues ≡ self.old.queues }
        ensures values { OnOk result (self.new.values ≡ moved words.now self.old.values) }
        ensures outputs { OnOk result (HaveNext self.old self.new) }
        ensures puts { OnOk result (ArePut self.old self.new puts.old.items puts.new.items) }
        ensures err { OnErr result (self.new ≡ self.old) }
        ensures unput { OnErr result (puts.new.items ≡ puts.old.items) }
    {
        let flops = self.clocked.room_for(words);
        let edges = room_for(&self.readers, words);
        self.stale.clear();
        self.stale.reserve(edges)?;
        puts.reserve(edges.saturating_add(flops))?;
        pass_on(
            &mut self.fronts,
            &mut self.values,
            &self.readers,
            &self.clocked,
            &self.outputs,
            &self.wiring,
            words,
            &mut self.stale,
            puts,
        );
        Ok(())
    }

    /// Words of steps are taken back from the values of their places, the last of them first, and gates put out what they
    /// make of the values then. What flip-flops and places outside put out stays, and nothing is put. It takes no memory.
    pub fn undo(&mut self, words: &[Word])
        requires { All (λ word. word.place < length self.old.cells) words.now }
        ensures cells { self.new.cells ≡ self.old.cells }
        ensures queues { self.new.queues ≡ self.old.queues }
        ensures values { self.new.values ≡ unmoved words.now self.old.values }
        ensures outputs { HaveSettled self.old self.new }
    {
        take_back(
            &mut self.fronts,
            &mut self.values,
            &self.readers,
            &self.outputs,
            &self.wiring,
            words,
        );
    }

    /// Words that were put are taken back, the last of them first: those of flip-flops give their contents back. What
    /// other places put out stays, and all values. It takes no memory.
    pub fn restore(&mut self, words: &[Word])
        requires { All (λ word. word.place < length self.old.cells) words.now }
        ensures cells { self.new.cells ≡ self.old.cells }
        ensures queues { self.new.queues ≡ self.old.queues }
        ensures values { self.new.values ≡ self.old.values }
        ensures outputs { HaveRestored words.now self.old self.new }
    {
        restore_all(&mut self.fronts, words, &self.wiring);
    }
}

/// Lets flip-flops load, shows the words to gates, and evaluates these.
fn pass_on(
    fronts: &mut [Front],
    values: &mut [Logic],
    readers: &Groups,
    clocked: &Clocked,
    outputs: &Outputs,
    wiring: &Wiring,
    words: &[Word],
    stale: &mut Vec<u32>,
    puts: &mut Vec<Put>,
)
    requires held { AreHeld wiring.now fronts.old values.old readers.now clocked.now }
    requires words { All (λ word. word.place < length wiring.now) words.now }
    requires apart { AreApart words.now }
    requires list { length (all_edges readers.now words.now) ≤ vec_capacity stale.old }
    requires room { vec_len puts.old + length (all_edges clocked.now words.now) + length (all_edges readers.now words.now) ≤ vec_capacity puts.old }
    ensures held { AreHeld wiring.now fronts.new values.new readers.now clocked.now }
    ensures values { values.new ≡ moved words.now values.old }
    ensures outputs { ArePassedOn wiring.now values.old values.new fronts.old fronts.new }
    ensures told { AreTold fronts.old fronts.new puts.old.items puts.new.items }
{
    load_all(fronts, clocked, words, values, wiring, puts);
    show_all(fronts, values, readers, words, stale);
    evaluate(fronts, stale.as_slice(), values, outputs, wiring, puts);
}

/// Puts values back, shows them to gates, and evaluates these.
fn take_back(
    fronts: &mut [Front],
    values: &mut [Logic],
    readers: &Groups,
    outputs: &Outputs,
    wiring: &Wiring,
    words: &[Word],
)
    requires cells { All (IsCell (length wiring.now)) wiring.now }
    requires values { length values.old ≡ length wiring.now }
    requires fronts { AreFronts wiring.now values.old fronts.old }
    requires settled { AreSettled fronts.old }
    requires readers { AreReaders wiring.now readers.now }
    requires words { All (λ word. word.place < length wiring.now) words.now }
    ensures values { values.new ≡ unmoved words.now values.old }
    ensures fronts { AreFronts wiring.now values.new fronts.new }
    ensures settled { AreSettled fronts.new }
    ensures following { AreFollowing wiring.now values.new fronts.old fronts.new }
{
    unshow_all(fronts, values, readers, words);
    settle_all(fronts, readers, words, values, outputs, wiring);
}

/// How many edges there are from the places of some words; the greatest number if they are more.
fn room_for(rows: &Groups, words: &[Word]) -> usize
    requires { All (λ word. word.place < length rows.now) words.now }
    ensures { result ≡ min (length (all_edges rows.now words.now)) usize.MAX }
{
    let mut room: usize = 0;
    for word in words {
        room = room.saturating_add(rows.get(word.place()).len());
    }
    room
}
