//! What is counted of a run, and its text.
ghost use Rattle.std.specs.Prelude.{◌≡◌, ◌++◌, ◌/◌, ◌%◌, IfOk, OnOk, codes, decimal, flat_map, map};
ghost use Rattle.warp_text.specs.StatLines.{sum_of, no_counts, both_counts, total_of, kept_of, stat_line, thousandths, thousandths_line, table_line, work_lines, counts_lines, block_lines, stats_lines};

use gate_netlist::Cut;
use net_waves::Waves;
use std::alloc::{AllocError, Global};
use warp_rounds::{Counts, RunCounts};

/// What is counted of a block.
#[derive(Clone, Copy, Debug)]
pub struct BlockStats {
    pub number: u32,
    /// How many nets it owns, and how many changes these have.
    pub nets: u64,
    pub changes: u64,
    /// What is counted of its turns.
    pub counts: Counts,
}

/// What is counted of a run.
#[derive(Debug, Drop)]
pub struct Stats {
    /// How many rounds were played.
    pub rounds: u64,
    /// How many changes all nets have, the inputs among them.
    pub changes: u64,
    /// What is counted of each block, in the order of their numbers.
    pub blocks: Vec<BlockStats>,
}

/// How many nets of a block there are, and how many changes they have.
#[derive(Clone, Copy)]
struct Share {
    nets: u64,
    changes: u64,
}

/// How many changes all nets have, and those of each of so many blocks.
#[derive(Drop)]
struct Shares {
    changes: u64,
    blocks: Vec<Share>,
}

fn shares_of(alloc: Global, cut: &Cut, waves: &Waves, blocks: usize) -> Result<Shares, AllocError> {
    let mut shares = Vec::new(alloc);
    shares.resize(
        blocks,
        Share {
            nets: 0,
            changes: 0,
        },
    )?;
    let mut changes: u64 = 0;
    for net in 0..waves.nets() {
        let count = waves.changes(net).len() as u64;
        changes = changes.saturating_add(count);
        if let Some(owner) = cut.owner(net) {
            add_net(shares.as_mut_slice(), owner as usize, count);
        }
    }
    Ok(Shares {
        changes,
        blocks: shares,
    })
}

/// One net more of a block, which has so many changes.
fn add_net(shares: &mut [Share], block: usize, changes: u64) {
    if let Some(share) = shares.get_mut(block) {
        share.nets = share.nets.saturating_add(1);
        share.changes = share.changes.saturating_add(changes);
    }
}

/// What is counted of a run over a cut circuit, which answered these waves.
pub(crate) fn stats_of(
    alloc: Global,
    cut: &Cut,
    waves: &Waves,
    counts: &RunCounts,
) -> Result<Stats, AllocError>
    ensures rounds { IfOk result (λ stats. stats.rounds ≡ counts.now.rounds) }
    ensures counts { IfOk result (λ stats. map (λ block. block.counts) stats.blocks.items ≡ counts.now.blocks.items) }
{
    let shares = shares_of(alloc, cut, waves, counts.blocks.len())?;
    let blocks = blocks_of(alloc, counts.blocks.as_slice(), shares.blocks.as_slice())?;
    Ok(Stats {
        rounds: counts.rounds,
        changes: shares.changes,
        blocks,
    })
}

/// What is counted of each block.
fn blocks_of(
    alloc: Global,
    counts: &[Counts],
    shares: &[Share],
) -> Result<Vec<BlockStats>, AllocError>
    ensures { IfOk result (λ blocks. map (λ block. block.counts) blocks.items ≡ counts.now) }
{
    let mut blocks = Vec::new(alloc);
    let mut number: u32 = 0;
    for one in counts {
        blocks.push(block_of(number, *one, shares))?;
        number = number.saturating_add(1);
    }
    Ok(blocks)
}

/// What is counted of the block of a number.
fn block_of(number: u32, counts: Counts, shares: &[Share]) -> BlockStats
    ensures { result.counts ≡ counts }
{
    let share = match shares.get(number as usize) {
        Some(share) => *share,
        None => Share {
            nets: 0,
            changes: 0,
        },
    };
    BlockStats {
        number,
        nets: share.nets,
        changes: share.changes,
        counts,
    }
}

/// What is counted of no block.
fn no_counts() -> Counts
    ensures { result ≡ no_counts }
{
    Counts {
        since: 0,
        turns: 0,
        steps: 0,
        undone: 0,
        rollbacks: 0,
        messages: 0,
        antimessages: 0,
    }
}

#[tactic(auto, unfolding(crate::specs::StatLines::both_counts))]
fn both_counts(counts: Counts, other: Counts) -> Counts
    ensures { result ≡ both_counts counts other }
{
    Counts {
        since: counts.since,
        turns: counts.turns.saturating_add(other.turns),
        steps: counts.steps.saturating_add(other.steps),
        undone: counts.undone.saturating_add(other.undone),
        rollbacks: counts.rollbacks.saturating_add(other.rollbacks),
        messages: counts.messages.saturating_add(other.messages),
        antimessages: counts.antimessages.saturating_add(other.antimessages),
    }
}

/// What is counted of all blocks.
fn total_of(blocks: &[BlockStats]) -> Counts
    ensures { result ≡ total_of blocks.now }
{
    let mut total = no_counts();
    for block in blocks {
        total = both_counts(total, block.counts);
    }
    total
}

/// How many of a thousand finished event times were kept.
#[tactic(auto, unfolding(crate::specs::StatLines::kept_of))]
fn kept_of(steps: u64, undone: u64) -> u128
    ensures { result ≡ kept_of steps undone }
{
    if steps == 0 {
        return 1000;
    }
    u128::from(steps.saturating_sub(undone)) * 1000 / u128::from(steps)
}

fn push_text(text: &mut Vec<u8>, more: &str) -> Result<(), AllocError>
    ensures { OnOk result (text.new.items ≡ text.old.items ++ more.now) }
{
    text.extend_from_slice(more.as_bytes())
}

fn push_number(alloc: Global, text: &mut Vec<u8>, number: u128) -> Result<(), AllocError>
    ensures { OnOk result (text.new.items ≡ text.old.items ++ decimal number) }
{
    let digits = number.to_string(alloc)?;
    push_text(text, digits.as_str())
}

/// Appends a word and a number.
#[tactic(auto, unfolding(crate::specs::StatLines::stat_line))]
fn push_stat(alloc: Global, text: &mut Vec<u8>, word: &str, number: u64) -> Result<(), AllocError>
    ensures { OnOk result (text.new.items ≡ text.old.items ++ stat_line word.now number) }
{
    push_text(text, word)?;
    push_text(text, " = ")?;
    push_number(alloc, text, u128::from(number))?;
    push_text(text, "\n")
}

/// Appends a number of thousandths, with a point.
#[tactic(auto, unfolding(crate::specs::StatLines::thousandths))]
fn push_thousandths(alloc: Global, text: &mut Vec<u8>, kept: u128) -> Result<(), AllocError>
    ensures { OnOk result (text.new.items ≡ text.old.items ++ thousandths kept) }
{
    push_number(alloc, text, kept / 1000)?;
    push_text(text, ".")?;
    push_number(alloc, text, kept / 100 % 10)?;
    push_number(alloc, text, kept / 10 % 10)?;
    push_number(alloc, text, kept % 10)
}

/// Appends a word and a number of thousandths.
#[tactic(auto, unfolding(crate::specs::StatLines::thousandths_line))]
fn push_thousandths_line(
    alloc: Global,
    text: &mut Vec<u8>,
    word: &str,
    kept: u128,
) -> Result<(), AllocError>
    ensures { OnOk result (text.new.items ≡ text.old.items ++ thousandths_line word.now kept) }
{
    push_text(text, word)?;
    push_text(text, " = ")?;
    push_thousandths(alloc, text, kept)?;
    push_text(text, "\n")
}

/// Appends the head of a table that is one of many.
#[tactic(auto, unfolding(crate::specs::StatLines::table_line))]
fn push_table_line(text: &mut Vec<u8>, word: &str) -> Result<(), AllocError>
    ensures { OnOk result (text.new.items ≡ text.old.items ++ table_line word.now) }
{
    push_text(text, "\n[[")?;
    push_text(text, word)?;
    push_text(text, "]]\n")
}

/// Appends what was done and taken back.
#[tactic(auto, unfolding(crate::specs::StatLines::work_lines))]
fn push_work(alloc: Global, text: &mut Vec<u8>, counts: &Counts) -> Result<(), AllocError>
    ensures { OnOk result (text.new.items ≡ text.old.items ++ work_lines counts.now) }
{
    push_stat(alloc, text, "turns", counts.turns)?;
    push_stat(alloc, text, "steps", counts.steps)?;
    push_stat(alloc, text, "undone", counts.undone)?;
    push_stat(alloc, text, "rollbacks", counts.rollbacks)
}

/// Appends what is counted, and so many changes.
#[tactic(auto, unfolding(crate::specs::StatLines::counts_lines))]
fn push_counts(
    alloc: Global,
    text: &mut Vec<u8>,
    counts: &Counts,
    changes: u64,
) -> Result<(), AllocError>
    ensures { OnOk result (text.new.items ≡ text.old.items ++ counts_lines counts.now changes) }
{
    push_work(alloc, text, counts)?;
    push_stat(alloc, text, "messages", counts.messages)?;
    push_stat(alloc, text, "antimessages", counts.antimessages)?;
    push_stat(alloc, text, "changes", changes)?;
    let kept = kept_of(counts.steps, counts.undone);
    push_thousandths_line(alloc, text, "efficiency", kept)
}

/// Appends the table of a block.
#[tactic(auto, unfolding(crate::specs::StatLines::block_lines))]
fn push_block(alloc: Global, text: &mut Vec<u8>, block: &BlockStats) -> Result<(), AllocError>
    ensures { OnOk result (text.new.items ≡ text.old.items ++ block_lines block.now) }
{
    push_table_line(text, "block")?;
    push_stat(alloc, text, "number", u64::from(block.number))?;
    push_stat(alloc, text, "nets", block.nets)?;
    push_counts(alloc, text, &block.counts, block.changes)
}

/// Appends the tables of blocks.
fn push_blocks(alloc: Global, text: &mut Vec<u8>, blocks: &[BlockStats]) -> Result<(), AllocError>
    ensures { OnOk result (text.new.items ≡ text.old.items ++ flat_map block_lines blocks.now) }
{
    for block in blocks {
        push_block(alloc, text, block)?;
    }
    Ok(())
}

/// What is counted of a run, as TOML: of the whole, then a table `block` for each.
pub fn stats_text(alloc: Global, stats: &Stats) -> Result<Vec<u8>, AllocError>
    ensures { IfOk result (λ text. text.items ≡ stats_lines stats.now) }
{
    let mut text = Vec::new(alloc);
    let blocks = stats.blocks.as_slice();
    push_stat(alloc, &mut text, "rounds", stats.rounds)?;
    push_counts(alloc, &mut text, &total_of(blocks), stats.changes)?;
    push_blocks(alloc, &mut text, blocks)?;
    Ok(text)
}
