//! What may be chosen for a run beside its texts.
ghost use Rattle.std.specs.Prelude.{◌≡◌, ◌≤◌, ◌↔◌, IsTrue, IsSome, IfSome};
ghost use Rattle.std.specs.Option.{ForSome};
ghost use Rattle.warp_text.specs.Options.{AreWithin};

use warp_block::MOST_HORIZON;

/// The most blocks that a circuit is cut into.
pub const MOST_BLOCKS: u32 = 1024;

/// The most workers of a run.
pub const MOST_WORKERS: u32 = 64;

/// The most event times that a block takes at one turn.
pub const MOST_WINDOW: u32 = 1_000_000;

/// Up to which time a run goes, and how it gets there, which changes nothing in its dump.
#[derive(Clone, Copy, Debug, PartialEq, Eq)]
pub struct Options {
    until: u64,
    blocks: Option<u32>,
    workers: u32,
    window: u32,
    ghost within: { AreWithin until blocks workers window },
}

fn fits(number: u32, most: u32) -> bool
    ensures { IsTrue result ↔ (1 ≤ number) × (number ≤ most) }
{
    1 <= number && number <= most
}

fn fit(number: Option<u32>, most: u32) -> bool
    ensures { IsTrue result ↔ ForSome number (λ n. (1 ≤ n) × (n ≤ most)) }
{
    match number {
        Some(number) => fits(number, most),
        None => true,
    }
}

impl Options {
    /// A run up to the time `until` (0 to 10^12, in units of the stimulus's timescale), by so many workers (1 to 64),
    /// with up to `window` event times (1 to 1,000,000) in a turn of a block. Where a number of blocks is given
    /// (1 to 1024), the circuit is cut evenly into as many, whatever cut its settings give. None outside these limits.
    pub fn new(until: u64, blocks: Option<u32>, workers: u32, window: u32) -> Option<Options>
        ensures within { IsSome result ↔ AreWithin until blocks workers window }
        ensures given { IfSome result (λ options.
            (options.until ≡ until) × (options.blocks ≡ blocks) × (options.workers ≡ workers) × (options.window ≡ window)) }
    {
        if until > MOST_HORIZON || !fit(blocks, MOST_BLOCKS) {
            return None;
        }
        if !fits(workers, MOST_WORKERS) || !fits(window, MOST_WINDOW) {
            return None;
        }
        Some(Options {
            until,
            blocks,
            workers,
            window,
        })
    }

    /// The time at which the dump ends, in units of the stimulus's timescale.
    pub fn until(&self) -> u64
        ensures { result ≡ self.now.until }
    {
        self.until
    }

    /// The number of blocks, where it is given.
    pub fn blocks(&self) -> Option<u32>
        ensures { result ≡ self.now.blocks }
    {
        self.blocks
    }

    /// The number of workers.
    pub fn workers(&self) -> u32
        ensures { result ≡ self.now.workers }
    {
        self.workers
    }

    /// The most event times in a turn of a block.
    pub fn window(&self) -> u32
        ensures { result ≡ self.now.window }
    {
        self.window
    }
}
