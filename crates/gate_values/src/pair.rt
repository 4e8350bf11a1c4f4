ghost use Rattle.std.specs.Prelude.{◌≡◌, ◌∷◌, []};
ghost use Rattle.gate_values.specs.Tables.{table_of};
ghost use Rattle.gate_values.specs.Inner.Pairs.{pairs};

use crate::gate::Kind;
use crate::logic::Logic::{self, One, X, Zero};

/// What each kind of gate puts out for two inputs, in the order of [`Kind`]. A row is for the first input, a
/// column for the second, in the order of [`Logic`].
static PAIRS: [[[Logic; 4]; 4]; 8] = [AND, NAND, OR, NOR, XOR, XNOR, NOT, BUFF];

const AND: [[Logic; 4]; 4] = [
    [Zero, Zero, Zero, Zero],
    [Zero, One, X, X],
    [Zero, X, X, X],
    [Zero, X, X, X],
];

const NAND: [[Logic; 4]; 4] = [
    [One, One, One, One],
    [One, Zero, X, X],
    [One, X, X, X],
    [One, X, X, X],
];

const OR: [[Logic; 4]; 4] = [
    [Zero, One, X, X],
    [One, One, One, One],
    [X, One, X, X],
    [X, One, X, X],
];

const NOR: [[Logic; 4]; 4] = [
    [One, Zero, X, X],
    [Zero, Zero, Zero, Zero],
    [X, Zero, X, X],
    [X, Zero, X, X],
];

const XOR: [[Logic; 4]; 4] = [[Zero, One, X, X], [One, Zero, X, X], [X; 4], [X; 4]];

const XNOR: [[Logic; 4]; 4] = [[One, Zero, X, X], [Zero, One, X, X], [X; 4], [X; 4]];

/// `Not` and `Buff` never have two inputs: their tables go by the first.
const NOT: [[Logic; 4]; 4] = [[One; 4], [Zero; 4], [X; 4], [X; 4]];

const BUFF: [[Logic; 4]; 4] = [[Zero; 4], [One; 4], [X; 4], [X; 4]];

/// What a gate puts out for two inputs: one lookup, since neither its kind nor its inputs can be foreseen.
#[inline(always)]
pub(crate) fn pair(kind: Kind, first: Logic, second: Logic) -> Logic
    ensures { result ≡ table_of kind (first ∷ second ∷ []) }
{
    pairs()[kind as usize][first as usize][second as usize]
}

/// That of each kind for each two inputs.
#[inline(always)]
#[tactic(auto, unfolding(crate::specs::Tables::table_of))]
fn pairs() -> &'static [[[Logic; 4]; 4]; 8]
    ensures { result.now ≡ pairs }
{
    &PAIRS
}
