//! Waves from the logs of blocks. Each log moves into its place; no change of it is copied. The histories of the blocks give the changes
//! by time, up to a horizon that isn't far; else they are put in order by who asks for the lists.

ghost use Rattle.std.specs.Prelude.{◌≡◌, ◌≢◌, ◌<◌, ◌≤◌, ◌+◌, ℕ, List, true, false, [], None, IsTrue, IfOk, IfSome, length, vec_len};
ghost use Rattle.std.specs.List.{All};
ghost use Rattle.gate_values.specs.declared.logic.Change.{Change};
ghost use Rattle.gate_values.specs.Changes.{before_time};
ghost use Rattle.gate_netlist.specs.Circuit.{nets_of, CutFits};
ghost use Rattle.gate_netlist.specs.Cut.{owner_of};
ghost use Rattle.gate_stimulus.specs.Given.{changes_of};
ghost use Rattle.net_waves.specs.Waves.{lists_in, wave_of, IsWave};
ghost use Rattle.net_waves.specs.Stops.{AreStopsOf};
ghost use Rattle.net_waves.specs.ByTime.{stops_in};
ghost use Rattle.warp_part.specs.Portion.{owns};
ghost use Rattle.warp_process.specs.Limits.{most_horizon};
ghost use Rattle.warp_core.specs.Matched.{IsBlockOf, EachBlock, told_of};
ghost use Rattle.warp_core.specs.Gather.{AreCounted};
ghost use Rattle.warp_process.specs.View.{log_of};
ghost use Rattle.warp_core.specs.Inner.Gather.{after_blocks, AreApart, AreTelling};
ghost use Rattle.warp_core.specs.OwnNets.{AreOwn};

use super::told::given_until;
use gate_netlist::{Circuit, Cut};
use gate_stimulus::Stimulus;
use gate_values::Change;
use history_waves::{FAR, Story, by_time_of_all};
use net_waves::{ByTime, Stop, stops_by_time};
use std::alloc::{AllocError, Global};
use warp_block::Block;
use warp_part::Part;

/// A list of changes for each net, and all those changes by time where a history tells them so.
#[derive(Drop)]
pub(super) struct Gathered {
    pub(super) lists: Vec<Vec<Change>>,
    pub(super) by_time: Option<ByTime>,
}

/// What the owners of all nets, and the stimulus, say of them.
pub(super) fn lists_of(
    alloc: Global,
    circuit: &Circuit,
    cut: &Cut,
    stimulus: &Stimulus,
    horizon: u64,
    blocks: Vec<Block>,
) -> Result<Gathered, AllocError>
    requires cut { CutFits circuit.now cut.now }
    requires count { AreCounted cut.now blocks.items }
    requires parts { EachBlock cut.now blocks.items (IsBlockOf circuit.now cut.now horizon) }
    requires horizon { horizon ≤ most_horizon }
    requires told { (n : ℕ) → IsWave (told_of cut.now stimulus.now horizon blocks.items n) }
    ensures nets { IfOk result (λ all. length (lists_in all.lists.items) ≡ nets_of circuit.now) }
    ensures few { IfOk result (λ all. vec_len all.lists ≤ 1000000) }
    ensures told { IfOk result (λ all. (n : ℕ) → n < nets_of circuit.now → wave_of (lists_in all.lists.items) n ≡ told_of cut.now stimulus.now horizon blocks.items n) }
    ensures waves { IfOk result (λ all. (n : ℕ) → IsWave (wave_of (lists_in all.lists.items) n)) }
    ensures by_time { IfOk result (λ all. IfSome all.by_time (λ by_time. AreStopsOf (lists_in all.lists.items) (stops_in by_time))) }
{
    let lists = given_lists(alloc, circuit.nets(), cut, stimulus, horizon)?;
    cut.law();
    let all = gather_logs(alloc, horizon, blocks, lists)?;
    Ok(all)
}

/// A list for each net of a cut circuit: of one without an owner, an input, the stimulus's changes up to the horizon, else none. An
/// error is a refused growth.
pub fn given_lists(
    alloc: Global,
    nets: u32,
    cut: &Cut,
    stimulus: &Stimulus,
    horizon: u64,
) -> Result<Vec<Vec<Change>>, AllocError>
    requires { horizon ≤ most_horizon }
    ensures nets { IfOk result (λ lists. vec_len lists ≡ nets) }
    ensures given { IfOk result (λ lists. (n : ℕ) → n < nets → owner_of cut.now n ≡ None → wave_of (lists_in lists.items) n ≡ before_time (horizon + 1) (changes_of stimulus.now n)) }
    ensures none { IfOk result (λ lists. (n : ℕ) → n < nets → owner_of cut.now n ≢ None → wave_of (lists_in lists.items) n ≡ []) }
    ensures waves { IfOk result (λ lists. (n : ℕ) → IsWave (wave_of (lists_in lists.items) n)) }
{
    let mut lists = Vec::with_capacity(alloc, nets as usize)?;
    for net in 0..nets {
        let list = given_list(alloc, cut, stimulus, horizon, net)?;
        lists.push(list)?;
    }
    Ok(lists)
}

/// The stimulus's changes of an input up to the horizon; none of a net that has an owner.
fn given_list(
    alloc: Global,
    cut: &Cut,
    stimulus: &Stimulus,
    horizon: u64,
    net: u32,
) -> Result<Vec<Change>, AllocError>
    requires { horizon ≤ most_horizon }
    ensures given { IfOk result (λ list. owner_of cut.now net ≡ None → list.items ≡ before_time (horizon + 1) (changes_of stimulus.now net)) }
    ensures none { IfOk result (λ list. owner_of cut.now net ≢ None → list.items ≡ []) }
    ensures wave { IfOk result (λ list. IsWave list.items) }
{
    match cut.owner(net) {
        None => Vec::from_slice(alloc, given_until(stimulus, horizon, net)),
        Some(_) => Ok(Vec::new(alloc)),
    }
}

/// What blocks and the lists say of all nets, where no list says anything of a net that a block owns, and no two blocks own a net.
fn gather_logs(
    alloc: Global,
    horizon: u64,
    blocks: Vec<Block>,
    lists: Vec<Vec<Change>>,
) -> Result<Gathered, AllocError>
    requires places { All (λ p. All (λ net. net < vec_len lists) p.seen.part.nets) blocks.items }
    requires few { vec_len lists ≤ 1000000 }
    requires waves { (n : ℕ) → IsWave (wave_of (lists_in lists.items) n) }
    requires none { All (λ p. (n : ℕ) → owns p.seen.part n ≡ true → wave_of (lists_in lists.items) n ≡ []) blocks.items }
    requires apart { AreApart blocks.items }
    ensures len { IfOk result (λ all. vec_len all.lists ≡ vec_len lists) }
    ensures given { IfOk result (λ all. (n : ℕ) → wave_of (lists_in all.lists.items) n ≡ after_blocks blocks.items (wave_of (lists_in lists.items)) n) }
    ensures by_time { IfOk result (λ all. IfSome all.by_time (λ by_time. AreStopsOf (lists_in all.lists.items) (stops_in by_time))) }
{
    if horizon < FAR {
        return tell_logs(alloc, horizon, blocks, lists);
    }
    let mut lists = lists;
    give_all(blocks, &mut lists);
    Ok(Gathered {
        lists,
        by_time: None,
    })
}

/// The same, where the histories of blocks tell their logs by time, if they do. An error is a refused growth.
fn tell_logs(
    alloc: Global,
    horizon: u64,
    blocks: Vec<Block>,
    lists: Vec<Vec<Change>>,
) -> Result<Gathered, AllocError>
    requires places { All (λ p. All (λ net. net < vec_len lists) p.seen.part.nets) blocks.items }
    requires few { vec_len lists ≤ 1000000 }
    requires waves { (n : ℕ) → IsWave (wave_of (lists_in lists.items) n) }
    requires none { All (λ p. (n : ℕ) → owns p.seen.part n ≡ true → wave_of (lists_in lists.items) n ≡ []) blocks.items }
    requires apart { AreApart blocks.items }
    ensures len { IfOk result (λ all. vec_len all.lists ≡ vec_len lists) }
    ensures given { IfOk result (λ all. (n : ℕ) → wave_of (lists_in all.lists.items) n ≡ after_blocks blocks.items (wave_of (lists_in lists.items)) n) }
    ensures by_time { IfOk result (λ all. IfSome all.by_time (λ by_time. AreStopsOf (lists_in all.lists.items) (stops_in by_time))) }
{
    let mut lists = lists;
    let given = stops_by_time(alloc, lists.as_slice())?;
    let stories = give_stories(alloc, blocks, &mut lists)?;
    let by_time = told_by(alloc, horizon, stories, given.as_slice())?;
    Ok(Gathered { lists, by_time })
}

/// The changes that are given, and those that stories tell, by time, if there are stories. An error is a refused growth.
fn told_by(
    alloc: Global,
    horizon: u64,
    stories: Option<Vec<Story>>,
    given: &[Stop],
) -> Result<Option<ByTime>, AllocError>
    ensures { (old new : List (List Change)) → AreStopsOf old given.now → IfSome stories (λ told. AreTelling told.items old new) → IfOk result (λ all. IfSome all (λ by_time. AreStopsOf new (stops_in by_time))) }
{
    match stories {
        Some(stories) => by_time_of_all(alloc, horizon, stories, given),
        None => Ok(None),
    }
}

/// Gives away the logs of blocks, in order, and answers their histories, if each has one that tells its logs. An error is a refused growth.
fn give_stories(
    alloc: Global,
    blocks: Vec<Block>,
    lists: &mut Vec<Vec<Change>>,
) -> Result<Option<Vec<Story>>, AllocError>
    requires places { All (λ p. All (λ net. net < vec_len lists.old) p.seen.part.nets) blocks.items }
    requires none { All (λ p. (n : ℕ) → owns p.seen.part n ≡ true → wave_of (lists_in lists.old.items) n ≡ []) blocks.items }
    requires apart { AreApart blocks.items }
    ensures len { IfOk result (λ _. vec_len lists.new ≡ vec_len lists.old) }
    ensures given { IfOk result (λ _. (n : ℕ) → wave_of (lists_in lists.new.items) n ≡ after_blocks blocks.items (wave_of (lists_in lists.old.items)) n) }
    ensures told { IfOk result (λ told. IfSome told (λ stories. AreTelling stories.items (lists_in lists.old.items) (lists_in lists.new.items))) }
{
    let mut stories = Vec::new(alloc);
    let mut tell_all = true;
    for block in blocks {
        if !give_story(alloc, block, lists, &mut stories)? {
            tell_all = false;
        }
    }
    if tell_all {
        return Ok(Some(stories));
    }
    Ok(None)
}

/// Gives away the logs of a block, puts its history behind others, and tells whether it has one that tells its logs. An error is a refused
/// growth.
fn give_story(
    alloc: Global,
    block: Block,
    lists: &mut Vec<Vec<Change>>,
    stories: &mut Vec<Story>,
) -> Result<bool, AllocError>
    requires places { All (λ net. net < vec_len lists.old) block.seen.part.nets }
    requires none { (n : ℕ) → owns block.seen.part n ≡ true → wave_of (lists_in lists.old.items) n ≡ [] }
    ensures len { IfOk result (λ _. vec_len lists.new ≡ vec_len lists.old) }
    ensures own { IfOk result (λ _. (n : ℕ) → IsTrue (owns block.seen.part n) → wave_of (lists_in lists.new.items) n ≡ log_of block.seen n) }
    ensures others { IfOk result (λ _. (n : ℕ) → owns block.seen.part n ≡ false → wave_of (lists_in lists.new.items) n ≡ wave_of (lists_in lists.old.items) n) }
    ensures told { IfOk result (λ told. told ≡ true → (first : _) → AreTelling stories.old.items first (lists_in lists.old.items) → AreTelling stories.new.items first (lists_in lists.new.items)) }
{
    block.law();
    let Some((part, history)) = block.give_history(lists) else {
        return Ok(false);
    };
    part.law();
    let own = own_nets(alloc, &part)?;
    stories.push(Story::new(own, history))?;
    Ok(true)
}

/// Of each place of a part its net, if the part owns it. An error is a refused growth.
pub fn own_nets(alloc: Global, part: &Part) -> Result<Vec<Option<u32>>, AllocError>
    ensures { IfOk result (λ own. AreOwn part.now own.items) }
{
    part.law();
    let mut own = Vec::with_capacity(alloc, part.len())?;
    for place in 0..part.len() {
        let net = if part.is_own(place) {
            Some(part.net(place))
        } else {
            None
        };
        own.push(net)?;
    }
    Ok(own)
}

/// Gives away the logs of blocks, in order.
fn give_all(blocks: Vec<Block>, lists: &mut Vec<Vec<Change>>)
    requires { All (λ p. All (λ net. net < vec_len lists.old) p.seen.part.nets) blocks.items }
    ensures len { vec_len lists.new ≡ vec_len lists.old }
    ensures given { (n : ℕ) → wave_of (lists_in lists.new.items) n ≡ after_blocks blocks.items (wave_of (lists_in lists.old.items)) n }
{
    for block in blocks {
        block.give_logs(lists);
    }
}
