//! Gates whose inputs were put back put out what they make of them, and nothing is put.
ghost use Rattle.std.specs.Prelude.{◌≡◌, ◌≤◌, ◌<◌, ◌/◌, ◌∷◌, [], length};
ghost use Rattle.std.specs.List.{All};
ghost use Rattle.warp_gates.specs.Cells.{IsCell};
ghost use Rattle.warp_gates.specs.Inner.Fronts.{AreFronts, AreReaders};
ghost use Rattle.warp_gates.specs.Inner.Told.{IsEdge, AreRefreshed, all_edges};
ghost use Rattle.warp_gates.specs.Inner.Undoing.{AreQueuesKept};

use crate::evaluate::output_of;
use crate::front::{EDGES, Front};
use crate::outputs::Outputs;
use crate::wiring::Wiring;
use gate_values::Logic;
use number_groups::Groups;
use warp_stores::Word;

/// Evaluates the gate of an edge, if an input of it has changed since it last was.
#[inline]
fn settle_edge(
    fronts: &mut [Front],
    edge: u32,
    values: &[Logic],
    outputs: &Outputs,
    wiring: &Wiring,
)
    requires edge { IsEdge wiring.now edge }
    requires within { edge / EDGES < length wiring.now }
    requires cells { All (IsCell (length values.now)) wiring.now }
    requires fronts { AreFronts wiring.now values.now fronts.old }
    ensures fronts { AreFronts wiring.now values.now fronts.new }
    ensures refreshed { AreRefreshed (edge ∷ []) fronts.old fronts.new }
    ensures queues { AreQueuesKept fronts.old fronts.new }
{
    let front = &mut fronts[(edge / EDGES) as usize];
    if front.is_stale {
        front.output = output_of(*front, edge, values, outputs, wiring);
        front.is_stale = false;
    }
}

/// Evaluates the gates of some edges.
fn settle(fronts: &mut [Front], edges: &[u32], values: &[Logic], outputs: &Outputs, wiring: &Wiring)
    requires edges { All (IsEdge wiring.now) edges.now }
    requires within { All (λ edge. edge / EDGES < length wiring.now) edges.now }
    requires cells { All (IsCell (length values.now)) wiring.now }
    requires fronts { AreFronts wiring.now values.now fronts.old }
    ensures fronts { AreFronts wiring.now values.now fronts.new }
    ensures refreshed { AreRefreshed edges.now fronts.old fronts.new }
    ensures queues { AreQueuesKept fronts.old fronts.new }
{
    for edge in edges {
        settle_edge(fronts, *edge, values, outputs, wiring);
    }
}

/// Evaluates the gates that read the places of some words.
pub(crate) fn settle_all(
    fronts: &mut [Front],
    readers: &Groups,
    words: &[Word],
    values: &[Logic],
    outputs: &Outputs,
    wiring: &Wiring,
)
    requires readers { AreReaders wiring.now readers.now }
    requires words { All (λ word. word.place < length readers.now) words.now }
    requires cells { All (IsCell (length values.now)) wiring.now }
    requires fronts { AreFronts wiring.now values.now fronts.old }
    ensures fronts { AreFronts wiring.now values.now fronts.new }
    ensures refreshed { AreRefreshed (all_edges readers.now words.now) fronts.old fronts.new }
    ensures queues { AreQueuesKept fronts.old fronts.new }
{
    for word in words {
        let edges = readers.get(word.place());
        settle(fronts, edges, values, outputs, wiring);
    }
}
