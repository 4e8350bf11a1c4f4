//! Flip-flops load at edges of their clocks.
ghost use Rattle.std.specs.Prelude.{◌≡◌, ◌≤◌, ◌<◌, ◌+◌, ◌++◌, ◌∷◌, [], true, false, List, vec_len, vec_capacity, length};
ghost use Rattle.std.specs.List.{All};
ghost use Rattle.gate_values.specs.declared.logic.Logic.{Logic};
ghost use Rattle.gate_values.specs.Tables.{flip_of};
ghost use Rattle.warp_gates.specs.declared.front.Front.{Front};
ghost use Rattle.warp_gates.specs.declared.put.Put.{Put};
ghost use Rattle.warp_gates.specs.Cells.{AreApart, IsCell, cell_at};
ghost use Rattle.warp_gates.specs.Inner.Fronts.{AreClocked, AreSettled};
ghost use Rattle.warp_gates.specs.Inner.Told.{AreTold, is_flop, all_edges};
ghost use Rattle.warp_gates.specs.Inner.Loading.{AreFlipped, AreLoaded, MayLoad, StillPutOut};

use crate::clocked::Clocked;
use crate::evaluate::put_out;
use crate::front::Front;
use crate::put::Put;
use crate::wiring::Wiring;
use gate_values::{Logic, flip};
use warp_stores::{PLACES, Word};

/// Whether a flip-flop may load when its clock goes from one value to another.
#[inline]
#[tactic(auto, unfolding(gate_values::specs::Tables::flip_of))]
fn is_edge(before: Logic, after: Logic) -> bool
    ensures { result ≡ false → (content input : Logic) → flip_of content before after input ≡ content }
{
    matches!(
        (before, after),
        (Logic::Zero, Logic::One | Logic::X | Logic::Z) | (Logic::X | Logic::Z, Logic::One)
    )
}

/// Lets a flip-flop load.
fn load_one(
    fronts: &mut [Front],
    flop: u32,
    before: Logic,
    after: Logic,
    values: &[Logic],
    wiring: &Wiring,
    puts: &mut Vec<Put>,
)
    requires flop { is_flop (cell_at wiring.now flop) ≡ true }
    requires within { flop < length wiring.now }
    requires few { length wiring.now ≤ PLACES }
    requires cells { All (IsCell (length values.now)) wiring.now }
    requires fronts { length fronts.old ≡ length wiring.now }
    requires room { vec_len puts.old < vec_capacity puts.old }
    ensures flipped { AreFlipped wiring.now (flop ∷ []) values.now before after fronts.old fronts.new }
    ensures told { (old : List Front) (first : List Put) → AreTold old fronts.old first puts.old.items → MayLoad wiring.now values.now before after flop old fronts.old → AreTold old fronts.new first puts.new.items }
    ensures room { vec_len puts.new ≤ vec_len puts.old + 1 }
    ensures capacity { vec_capacity puts.new ≡ vec_capacity puts.old }
{
    let data = wiring.data(flop as usize) as usize;
    let front = &mut fronts[flop as usize];
    let content = flip(front.output, before, after, values[data]);
    put_out(front, flop, content, puts);
}

/// Lets flip-flops load, whose clock goes from one value to another.
fn load(
    fronts: &mut [Front],
    flops: &[u32],
    before: Logic,
    after: Logic,
    values: &[Logic],
    wiring: &Wiring,
    puts: &mut Vec<Put>,
)
    requires flops { All (λ flop. is_flop (cell_at wiring.now flop) ≡ true) flops.now }
    requires within { All (λ flop. flop < length wiring.now) flops.now }
    requires few { length wiring.now ≤ PLACES }
    requires cells { All (IsCell (length values.now)) wiring.now }
    requires fronts { length fronts.old ≡ length wiring.now }
    requires room { vec_len puts.old + length flops.now ≤ vec_capacity puts.old }
    ensures flipped { AreFlipped wiring.now flops.now values.now before after fronts.old fronts.new }
    ensures told { (old : List Front) (first : List Put) → AreTold old fronts.old first puts.old.items → StillPutOut flops.now old fronts.old → AreTold old fronts.new first puts.new.items }
    ensures room { vec_len puts.new ≤ vec_len puts.old + length flops.now }
    ensures capacity { vec_capacity puts.new ≡ vec_capacity puts.old }
{
    if flops.is_empty() || !is_edge(before, after) {
        return;
    }
    for flop in flops {
        load_one(fronts, *flop, before, after, values, wiring, puts);
    }
}

/// Lets the flip-flops load whose clocks some words change. The values are those before.
pub(crate) fn load_all(
    fronts: &mut [Front],
    clocked: &Clocked,
    words: &[Word],
    values: &[Logic],
    wiring: &Wiring,
    puts: &mut Vec<Put>,
)
    requires clocked { AreClocked wiring.now clocked.now }
    requires words { All (λ word. word.place < length clocked.now) words.now }
    requires apart { AreApart words.now }
    requires few { length wiring.now ≤ PLACES }
    requires values { length values.now ≡ length wiring.now }
    requires cells { All (IsCell (length values.now)) wiring.now }
    requires fronts { length fronts.old ≡ length wiring.now }
    requires settled { AreSettled fronts.old }
    requires room { vec_len puts.old + length (all_edges clocked.now words.now) ≤ vec_capacity puts.old }
    ensures loaded { AreLoaded wiring.now values.now words.now fronts.old fronts.new }
    ensures told { AreTold fronts.old fronts.new puts.old.items puts.new.items }
    ensures room { vec_len puts.new ≤ vec_len puts.old + length (all_edges clocked.now words.now) }
    ensures capacity { vec_capacity puts.new ≡ vec_capacity puts.old }
{
    if clocked.passes(words) {
        return;
    }
    for word in words {
        let place = word.place();
        load(
            fronts,
            clocked.get(place),
            values[place as usize],
            word.after(),
            values,
            wiring,
            puts,
        );
    }
}
