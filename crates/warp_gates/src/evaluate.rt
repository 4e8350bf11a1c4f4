//! Gates whose inputs changed put out what they make of them.
ghost use Rattle.std.specs.Prelude.{◌≡◌, ◌≤◌, ◌<◌, ◌+◌, ◌/◌, ◌++◌, ◌∷◌, [], List, false, vec_len, vec_capacity, length};
ghost use Rattle.std.specs.List.{All};
ghost use Rattle.warp_gates.specs.Cells.{IsCell, cell_at, put_of};
ghost use Rattle.warp_gates.specs.Inner.Fronts.{IsShowing, AreFronts};
ghost use Rattle.warp_gates.specs.declared.front.Front.{Front};
ghost use Rattle.warp_gates.specs.declared.put.Put.{Put};
ghost use Rattle.warp_gates.specs.Inner.Told.{cell_output, IsEdge, AreEvaluating, AreRefreshed};

use crate::front::{EDGES, Front};
use crate::outputs::Outputs;
use crate::pins::PINS;
use crate::put::Put;
use crate::wide::wide_output;
use crate::wiring::Wiring;
use gate_values::Logic;
use std::mem::swap;
use warp_stores::{PLACES, Word};

/// Puts out a value: where it is another than the last one, the change goes to the place's queue. There is no branch, since
/// whether it is can't be foreseen.
#[inline]
pub(crate) fn put_out(front: &mut Front, place: u32, value: Logic, puts: &mut Vec<Put>)
    requires place { place < PLACES }
    requires room { vec_len puts.old < vec_capacity puts.old }
    ensures front { front.new ≡ record front.old { output = value; is_stale = false } }
    ensures puts { puts.new.items ≡ puts.old.items ++ put_of place front.old.queue front.old.output value }
    ensures room { vec_len puts.new ≤ vec_len puts.old + 1 }
    ensures capacity { vec_capacity puts.new ≡ vec_capacity puts.old }
{
    let len = puts.len();
    puts.push_reserved(Put {
        queue: front.queue,
        word: Word::new(place, front.output, value),
    });
    puts.truncate(len + usize::from(value != front.output));
    front.output = value;
    front.is_stale = false;
}

/// What the gate of an edge makes of the values.
#[inline(always)]
pub(crate) fn output_of(
    front: Front,
    edge: u32,
    values: &[Logic],
    outputs: &Outputs,
    wiring: &Wiring,
) -> Logic
    requires edge { IsEdge wiring.now edge }
    requires within { edge / EDGES < length wiring.now }
    requires cell { IsCell (length values.now) (cell_at wiring.now (edge / EDGES)) }
    requires showing { IsShowing values.now (cell_at wiring.now (edge / EDGES)) front }
    ensures { result ≡ cell_output values.now (cell_at wiring.now (edge / EDGES)) }
{
    if edge % EDGES < u32::from(PINS) {
        return outputs.of(front.kind, front.pins);
    }
    let inputs = wiring.inputs((edge / EDGES) as usize);
    wide_output(front.kind, inputs, values)
}

/// Evaluates the gate of an edge, if an input of it has changed since it last was.
#[inline]
fn evaluate_edge(
    fronts: &mut [Front],
    edge: u32,
    values: &[Logic],
    outputs: &Outputs,
    wiring: &Wiring,
    puts: &mut Vec<Put>,
)
    requires edge { IsEdge wiring.now edge }
    requires within { edge / EDGES < length wiring.now }
    requires few { length wiring.now ≤ PLACES }
    requires cells { All (IsCell (length values.now)) wiring.now }
    requires fronts { AreFronts wiring.now values.now fronts.old }
    requires room { vec_len puts.old < vec_capacity puts.old }
    ensures fronts { AreFronts wiring.now values.now fronts.new }
    ensures refreshed { AreRefreshed (edge ∷ []) fronts.old fronts.new }
    ensures evaluating { (old : List Front) (before : List Put) → AreEvaluating wiring.now values.now old fronts.old before puts.old.items → AreEvaluating wiring.now values.now old fronts.new before puts.new.items }
    ensures room { vec_len puts.new ≤ vec_len puts.old + 1 }
    ensures capacity { vec_capacity puts.new ≡ vec_capacity puts.old }
{
    let place = edge / EDGES;
    let front = &mut fronts[place as usize];
    if front.is_stale {
        let value = output_of(*front, edge, values, outputs, wiring);
        put_out(front, place, value, puts);
    }
}

/// Evaluates the gates of some edges.
pub(crate) fn evaluate(
    fronts: &mut [Front],
    edges: &[u32],
    values: &[Logic],
    outputs: &Outputs,
    wiring: &Wiring,
    puts: &mut Vec<Put>,
)
    requires edges { All (IsEdge wiring.now) edges.now }
    requires within { All (λ edge. edge / EDGES < length wiring.now) edges.now }
    requires few { length wiring.now ≤ PLACES }
    requires cells { All (IsCell (length values.now)) wiring.now }
    requires fronts { AreFronts wiring.now values.now fronts.old }
    requires room { vec_len puts.old + length edges.now ≤ vec_capacity puts.old }
    ensures fronts { AreFronts wiring.now values.now fronts.new }
    ensures refreshed { AreRefreshed edges.now fronts.old fronts.new }
    ensures evaluating { (old : List Front) (before : List Put) → AreEvaluating wiring.now values.now old fronts.old before puts.old.items → AreEvaluating wiring.now values.now old fronts.new before puts.new.items }
    ensures room { vec_len puts.new ≤ vec_len puts.old + length edges.now }
    ensures capacity { vec_capacity puts.new ≡ vec_capacity puts.old }
{
    // the list is the function's own meanwhile, so that its length can stay in a register
    let mut list = Vec::new(*puts.allocator());
    swap(&mut list, puts);
    for edge in edges {
        evaluate_edge(fronts, *edge, values, outputs, wiring, &mut list);
    }
    swap(&mut list, puts);
}
