use bit_compare::{Difference, Times, Tolerance};
use gate_stimulus::Timescale;

/// What is compared of two dumps, and how. Times are in units of the timescale of the dump that is expected.
#[derive(Clone, Copy, Debug)]
pub struct Options<'o> {
    /// The scope of each dump; where there is none that of its first variable.
    pub expected_scope: Option<&'o [u8]>,
    pub actual_scope: Option<&'o [u8]>,
    /// The first and the last compared time; where there is no last one the last stamp of the dump that is expected.
    pub from: u64,
    pub to: Option<u64>,
    /// How much later, or earlier, the other dump is looked at.
    pub later: u64,
    pub earlier: u64,
    /// How much earlier or later a value may stand.
    pub within: u64,
    /// The first compared time and the step to the others, where not all are compared.
    pub strobes: Option<(u64, u64)>,
    /// Where x is expected, any value serves.
    pub any_for_x: bool,
}

/// A bit that differs: its number among the pairs, its name, and where it first differs.
#[derive(Debug, Drop)]
pub struct Differing {
    pub pair: usize,
    pub name: Vec<u8>,
    pub difference: Difference,
}

/// What a comparison found.
#[derive(Debug, Drop)]
pub struct Report {
    pub pairs: usize,
    /// The bits that differ, in the order of pairs.
    pub differing: Vec<Differing>,
    /// The times that were compared, in the common unit.
    pub times: Times,
    pub unit: Timescale,
    /// How many names one dump alone has in its scope.
    pub only_expected: usize,
    pub only_actual: usize,
}
