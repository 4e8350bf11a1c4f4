//! The least of some times.
ghost use Rattle.std.specs.Prelude.{◌≡◌, ◌≢◌, ◌<◌, ◌≤◌, ◌+◌, ◌*◌, ◌-◌, ◌/◌, ◌^◌, ℕ, IfOk, length, drop, slice_index, slice_set, replicate};
ghost use Rattle.warp_stores.specs.Least.{least_of};
ghost use Rattle.std.specs.Int.{IsPowerOfTwo};
ghost use Rattle.warp_stores.specs.Inner.Least.{IsTournament, IsSeat, AreLater, IsPart};

use std::alloc::{AllocError, Global};
use std::marker::Model;

/// No time.
pub const NEVER: u64 = u64::MAX;

/// Some times, each in a place, [`NEVER`] where there is none: a tournament, so that the least is at hand, and a time is
/// set, and the next one that is no later than another is found, in as many steps as the number of places has bits.
///
/// The times are the second half of the nodes, as far as there are places. Node `i` of the first half, but for the first,
/// has the lesser of nodes `2 * i` and `2 * i + 1`.
#[derive(Debug, Drop)]
pub struct Least {
    nodes: Vec<u64>,
    count: usize,
}

impl Model for Least {
    ghost use Rattle.std.specs.Prelude.{ℕ, List, take};

    ghost Value = { List ℕ };

    ghost use Rattle.warp_stores.specs.Inner.Least.{HasPlaces};
    ghost use Rattle.warp_stores.specs.Shown.Least.{leaves};

    ghost view = { λ least. take least.count (leaves least.nodes.items) };

    ghost invariant = { λ least. HasPlaces least.count least.nodes.items };
}

impl Least {
    /// So many places, none with a time.
    pub fn new(alloc: Global, count: u32) -> Result<Least, AllocError>
        ensures { IfOk result (λ least. least ≡ replicate count NEVER) }
    {
        let half = (count as usize).next_power_of_two();
        let mut nodes = Vec::new(alloc);
        nodes.resize(2 * half, NEVER)?;
        let count = count as usize;
        Ok(Least { nodes, count })
    }

    /// The least time.
    pub fn least(&self) -> u64
        ensures { result ≡ least_of self.now }
    {
        self.nodes[1]
    }

    /// The first place whose time is no later than a time, or how many places there are.
    pub fn first(&self, time: u64) -> usize
        ensures within { result ≤ length self.now }
        ensures passed { (k : ℕ) → k < result → time < slice_index self.now k }
        ensures found { result < length self.now → slice_index self.now result ≤ time }
    {
        let half = self.nodes.len() / 2;
        let leaf = first_of(self.nodes.as_slice(), time);
        (leaf - half).min(self.count)
    }

    /// Puts a time into a place.
    pub fn set(&mut self, place: usize, time: u64)
        requires { place < length self.old }
        ensures { self.new ≡ slice_set self.old place time }
    {
        let leaf = self.nodes.len() / 2 + place;
        put(self.nodes.as_mut_slice(), leaf, time);
    }
}

/// A node, and how many of the second half it stands for, from one of them on.
#[derive(Clone, Copy, Debug)]
struct Seat {
    node: usize,
    width: usize,
    leaf: usize,
}

/// The first node of the second half whose time is no later than a time, or how many nodes there are.
fn first_of(nodes: &[u64], time: u64) -> usize
    requires tournament { IsTournament nodes.now }
    requires power { IsPowerOfTwo (length nodes.now / 2) }
    ensures within { length nodes.now / 2 ≤ result × result ≤ length nodes.now }
    ensures passed { AreLater time nodes.now (length nodes.now / 2) result }
    ensures found { result < length nodes.now → slice_index nodes.now result ≤ time }
{
    if nodes[1] > time {
        return nodes.len();
    }
    let half = nodes.len() / 2;
    let root = Seat {
        node: 1,
        width: half,
        leaf: half,
    };
    descend(nodes, root, time)
}

/// The first node of the second half under a seat whose time is no later than a time. The node is told and not the leaf, which is the same, so
/// that no way down branches: which half it is can't be foreseen.
fn descend(nodes: &[u64], seat: Seat, time: u64) -> usize
    requires tournament { IsTournament nodes.now }
    requires seat { IsSeat nodes.now seat }
    requires found { slice_index nodes.now seat.node ≤ time }
    ensures within { seat.leaf ≤ result × result < seat.leaf + seat.width }
    ensures passed { AreLater time nodes.now seat.leaf result }
    ensures found { slice_index nodes.now result ≤ time }
{
    let mut below = seat;
    while below.width > 1 {
        below = part_by(nodes, below, time);
    }
    below.node
}

/// A half of a seat, or a quarter where there are quarters, in which the first time stands that is no later than a time.
fn part_by(nodes: &[u64], seat: Seat, time: u64) -> Seat
    requires tournament { IsTournament nodes.now }
    requires seat { IsSeat nodes.now seat }
    requires wide { 1 < seat.width }
    requires found { slice_index nodes.now seat.node ≤ time }
    ensures { IsPart time nodes.now seat result }
{
    if seat.width > 2 {
        return quarter_by(nodes, seat, time);
    }
    half_by(nodes, seat, time)
}

/// The quarter of a seat in which the first time stands that is no later than a time. Its node is sought among four that lie side by
/// side, of which none is waited for before the others are read.
fn quarter_by(nodes: &[u64], seat: Seat, time: u64) -> Seat
    requires tournament { IsTournament nodes.now }
    requires seat { IsSeat nodes.now seat }
    requires wide { 2 < seat.width }
    requires found { slice_index nodes.now seat.node ≤ time }
    ensures { IsPart time nodes.now seat result }
{
    let first = 4 * seat.node;
    let width = seat.width / 4;
    let passed = count_later(nodes, first, time);
    Seat {
        node: first + passed,
        width,
        leaf: seat.leaf + passed * width,
    }
}

/// How many of three nodes side by side are later than a time, up to the first that isn't. There is no branch.
#[inline(always)]
fn count_later(nodes: &[u64], node: usize, time: u64) -> usize
    requires { node + 2 < length nodes.now }
    ensures few { result ≤ 3 }
    ensures later { AreLater time nodes.now node (node + result) }
    ensures found { result < 3 → slice_index nodes.now (node + result) ≤ time }
{
    let first = nodes[node] > time;
    let second = first & (nodes[node + 1] > time);
    let third = second & (nodes[node + 2] > time);
    usize::from(first) + usize::from(second) + usize::from(third)
}

/// The half of a seat in which the first time stands that is no later than a time.
fn half_by(nodes: &[u64], seat: Seat, time: u64) -> Seat
    requires tournament { IsTournament nodes.now }
    requires seat { IsSeat nodes.now seat }
    requires wide { 1 < seat.width }
    requires found { slice_index nodes.now seat.node ≤ time }
    ensures { IsPart time nodes.now seat result }
{
    let node = 2 * seat.node;
    let width = seat.width / 2;
    if nodes[node] <= time {
        return Seat {
            node,
            width,
            leaf: seat.leaf,
        };
    }
    Seat {
        node: node + 1,
        width,
        leaf: seat.leaf + width,
    }
}

/// Puts a time into a node of the second half, and plays again what rests on it.
fn put(nodes: &mut [u64], leaf: usize, time: u64)
    requires tournament { IsTournament nodes.old }
    requires leaf { length nodes.old / 2 ≤ leaf }
    requires within { leaf < length nodes.old }
    ensures tournament { IsTournament nodes.new }
    ensures leaves { drop (length nodes.new / 2) nodes.new ≡ slice_set (drop (length nodes.old / 2) nodes.old) (leaf - length nodes.old / 2) time }
{
    nodes[leaf] = time;
    let mut node = leaf;
    let mut least = time;
    while node > 1 {
        least = least.min(nodes[beside(node)]);
        node /= 2;
        nodes[node] = least;
    }
}

/// The other of the two nodes that one of them plays with.
#[inline]
fn beside(node: usize) -> usize
    requires { 1 < node }
    ensures even { node ≡ 2 * (node / 2) → result ≡ 2 * (node / 2) + 1 }
    ensures odd { node ≡ 2 * (node / 2) + 1 → result ≡ 2 * (node / 2) }
{
    node ^ 1
}
