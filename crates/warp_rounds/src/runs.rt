//! A run of the blocks of a circuit, round by round.
ghost use Rattle.std.specs.Prelude.{◌≡◌, ◌≤◌, ◌<◌, ◌^◌, ◌+◌, IfOk, OnOk, IfErr, IfSome, IfNone, All, length, vec_len};
ghost use Rattle.gate_netlist.specs.Circuit.{CutFits};
ghost use Rattle.gate_stimulus.specs.Given.{Fits};
ghost use Rattle.warp_process.specs.Limits.{most_horizon};
ghost use Rattle.warp_process.specs.Lawful.{IsLawfulProcess};
ghost use Rattle.warp_core.specs.Values.{AreCircuitWaves};
ghost use Rattle.warp_rounds.specs.declared.fault.RunFault.TheVariants as fault;
ghost use Rattle.warp_rounds.specs.Runs.{IsRunFault};
ghost use Rattle.warp_rounds.specs.Counts.{AreCounted, AccountsFor};
ghost use Rattle.warp_rounds.specs.Words.{never};
ghost use Rattle.warp_rounds.specs.Inner.Work.{AreThere, IsRoundFault, IsRoundsFault};
ghost use Rattle.warp_rounds.specs.Inner.Crew.{IsOfRun, MayEnd};

use crate::counts::{Counts, RunCounts};
use crate::crew::{Crew, Term};
use crate::desk::Desk;
use crate::drawn::Played;
use crate::fault::RunFault;
use crate::gate::Gate;
use crate::pace::{Lead, tellers_of};
use crate::play::Order;
use crate::site::Site;
use crate::watch::{NoWatch, Watch};
use crate::work::{draws_of, play_alone};
use gate_netlist::{Circuit, Cut};
use gate_stimulus::Stimulus;
use net_waves::Waves;
use std::alloc::{AllocError, Global};
use std::sync::Wait;
use std::thread;
use std::thread::{Promise, PromisedHandle, Threads};
use warp_block::{AllLogs, Block, Logs, Message, Part};
use warp_core::{gather_by, worthwhile};

/// The waves of a circuit under a stimulus, from time 0 to the horizon, which is at most 10^12. The blocks of the cut are
/// made by up to `workers` threads side by side, and run ahead on their own in rounds. In each, up to `workers` workers (1 to
/// 64) draw the blocks, each once or some times. For a draw a block takes a turn at the round's floor, of as many event times
/// as fit it and at most `window` (1 to 1,000,000), as [`Site::visit`] says: the first time it's the block that was drawn,
/// later on one that has something to do. Where the turn is a short one, blocks near by that have something to do take turns
/// too. One worker is the caller's thread, each other one has a thread of its own. The gate is lent each block before its
/// turn and after it.
///
/// The floor starts at 0, and each round's least time becomes the next one's. When it is past the horizon the blocks are
/// gathered, up to `workers` threads looking at them side by side. The answer of a run that ends without a fault is the
/// waves of the circuit's values, whatever the threads did; that a run ends, and without a fault, is not promised. Each fault tells
/// where it comes from: want of memory is in no other one, and a block's and a stall are those of a visit at a floor up to the horizon.
pub fn run<G: Gate<AllLogs> + Sync, R: Threads + Wait + Sync>(
    rt: &R,
    alloc: Global,
    circuit: &Circuit,
    cut: &Cut,
    stimulus: &Stimulus,
    horizon: u64,
    workers: u32,
    window: u32,
    gate: &G,
) -> Result<Waves, RunFault>
    requires cut { CutFits circuit.now cut.now }
    requires stimulus { Fits stimulus.now circuit.now }
    requires horizon { horizon ≤ most_horizon }
    requires workers { (1 ≤ workers) × (workers ≤ 64) }
    requires window { (1 ≤ window) × (window ≤ 1000000) }
    ensures waves { IfOk result (AreCircuitWaves circuit.now stimulus.now horizon) }
    ensures fault { IfErr result (IsRunFault circuit.now cut.now stimulus.now horizon workers window) }
{
    let watched = run_watched(
        rt,
        alloc,
        circuit,
        cut,
        stimulus,
        horizon,
        workers,
        window,
        gate,
        &mut NoWatch,
    )?;
    Ok(watched.waves)
}

/// What a run that is watched answers.
#[derive(Drop)]
pub struct Watched {
    /// The circuit's waves.
    pub waves: Waves,
    /// What is counted of the run.
    pub counts: RunCounts,
}

/// A run, as [`run`] plays it, that is watched: after each round it is told the floor that it led to, and what its blocks did is
/// counted. Of the event times of each block that its turns finished, those that weren't taken back are those of the block whose
/// log is that of the circuit's values.
pub fn run_watched<G: Gate<AllLogs> + Sync, W: Watch, R: Threads + Wait + Sync>(
    rt: &R,
    alloc: Global,
    circuit: &Circuit,
    cut: &Cut,
    stimulus: &Stimulus,
    horizon: u64,
    workers: u32,
    window: u32,
    gate: &G,
    watch: &mut W,
) -> Result<Watched, RunFault>
    requires cut { CutFits circuit.now cut.now }
    requires stimulus { Fits stimulus.now circuit.now }
    requires horizon { horizon ≤ most_horizon }
    requires workers { (1 ≤ workers) × (workers ≤ 64) }
    requires window { (1 ≤ window) × (window ≤ 1000000) }
    ensures waves { IfOk result (λ watched. AreCircuitWaves circuit.now stimulus.now horizon watched.waves) }
    ensures counts { IfOk result (λ watched. AccountsFor circuit.now cut.now stimulus.now horizon watched.counts.blocks.items) }
    ensures fault { IfErr result (IsRunFault circuit.now cut.now stimulus.now horizon workers window) }
{
    let sites = sites_of(rt, alloc, workers, circuit, cut, stimulus, horizon)?;
    let rounds = play_rounds(
        rt,
        alloc,
        sites.as_slice(),
        horizon,
        workers,
        window,
        gate,
        watch,
    )?;
    let taken = taken_out(alloc, sites)?;
    let blocks = taken.blocks;
    let gathered = gather_by(rt, alloc, workers, circuit, cut, stimulus, horizon, blocks);
    let waves = gathered?;
    Ok(Watched {
        waves,
        counts: RunCounts {
            rounds,
            blocks: taken.counts,
        },
    })
}

// A block behind its locks, and what it sends at the start.
#[derive(Drop)]
struct Made<L: Logs> {
    site: Site<L>,
    sent: Vec<Message>,
}

// The block of a number. What it sends is for blocks of the cut.
fn made_of<L: Logs>(
    alloc: Global,
    circuit: &Circuit,
    cut: &Cut,
    stimulus: &Stimulus,
    horizon: u64,
    number: u32,
) -> Result<Made<L>, AllocError>
    requires cut { CutFits circuit.now cut.now }
    requires horizon { horizon ≤ most_horizon }
    requires number { number < cut.now.blocks }
    ensures { IfOk result (λ made. AreThere cut.now.blocks made.sent.items) }
{
    let part = Part::of(alloc, circuit, cut, number)?;
    let tellers = tellers_of(alloc, circuit, cut, &part)?;
    let mut sent = Vec::new(alloc);
    let block = Block::<L>::open(alloc, part, stimulus, horizon, &mut sent)?;
    let site = Site::told_by(alloc, block, tellers, sent.len());
    Ok(Made { site, sent })
}

// The blocks of a cut, made by up to `workers` threads side by side, at least one, as far as they are worth while; none stands for a
// refused growth.
fn made_by<L: Logs + Send, R: Threads + Sync>(
    rt: &R,
    alloc: Global,
    workers: u32,
    circuit: &Circuit,
    cut: &Cut,
    stimulus: &Stimulus,
    horizon: u64,
) -> Result<Vec<Option<Made<L>>>, AllocError>
    requires workers { 1 ≤ workers }
    requires cut { CutFits circuit.now cut.now }
    requires horizon { horizon ≤ most_horizon }
    ensures count { IfOk result (λ made. vec_len made ≡ cut.now.blocks) }
    ensures few { IfOk result (λ made. vec_len made ≤ 1024) }
    ensures there { IfOk result (λ made. All (λ one. IfSome one (λ made. AreThere cut.now.blocks made.sent.items)) made.items) }
{
    let mut made = Vec::with_capacity(alloc, cut.blocks() as usize)?;
    for _ in 0..cut.blocks() {
        made.push(None)?;
    }
    thread::for_each_mut(
        rt,
        made.as_mut_slice(),
        worthwhile(workers, circuit.nets()) as usize,
        &|place: usize, made: &mut Option<Made<L>>|
            requires { (place < cut.now.blocks) × CutFits circuit.now cut.now × (horizon ≤ most_horizon) }
            ensures { IfSome made.exit.now (λ one. AreThere cut.entry.now.blocks one.sent.items) }
        {
            *made = match u32::try_from(place) {
                Ok(number) => made_of(alloc, circuit, cut, stimulus, horizon, number).ok(),
                Err(_) => None,
            };
        },
    );
    Ok(made)
}

// The blocks of a cut, each behind its locks; what they send at the start is in the inboxes.
pub(crate) fn sites_of<L: Logs + Send, R: Threads + Wait + Sync>(
    rt: &R,
    alloc: Global,
    workers: u32,
    circuit: &Circuit,
    cut: &Cut,
    stimulus: &Stimulus,
    horizon: u64,
) -> Result<Vec<Site<L>>, RunFault>
    requires workers { 1 ≤ workers }
    requires cut { CutFits circuit.now cut.now }
    requires horizon { horizon ≤ most_horizon }
    ensures count { IfOk result (λ sites. vec_len sites ≡ cut.now.blocks) }
    ensures few { IfOk result (λ sites. vec_len sites ≤ 1024) }
    ensures fault { IfErr result (λ f. f ≡ fault.Memory) }
{
    let mut sites = Vec::new(alloc);
    let mut desk = Desk::new(alloc);
    for made in made_by(rt, alloc, workers, circuit, cut, stimulus, horizon)? {
        let Some(Made { site, sent }) = made else {
            return Err(RunFault::Memory);
        };
        sites.push(site)?;
        desk.sent.extend_from_slice(sent.as_slice())?;
    }
    desk.deliver(rt, sites.as_slice())?;
    Ok(sites)
}

// Plays rounds until the floor is past the horizon, and answers how many. One worker plays all in the caller's thread; of more each other
// one has a thread of its own, which stays for all rounds.
pub(crate) fn play_rounds<L: Logs + Send, G: Gate<L> + Sync, W: Watch, R: Threads + Wait + Sync>(
    rt: &R,
    alloc: Global,
    sites: &[Site<L>],
    horizon: u64,
    workers: u32,
    window: u32,
    gate: &G,
    watch: &mut W,
) -> Result<u64, RunFault>
    requires blocks { length sites.now < 2 ^ 32 }
    requires horizon { horizon ≤ most_horizon }
    requires workers { 1 ≤ workers }
    ensures { IfErr result (IsRoundsFault (length sites.now) horizon workers window) }
{
    let term = Term {
        blocks: sites.len(),
        horizon,
        workers: workers.min(sites.len() as u32).max(1),
        window,
    };
    let crew = Crew::new();
    let shared = &crew;
    thread::scope(
        thread::scope_env(),
        rt,
        |scope| -> Result<u64, RunFault>
            requires { (term.blocks ≡ length sites.now) × (term.blocks < 2 ^ 32) × (term.horizon ≤ most_horizon) × (1 ≤ term.workers) }
            ensures { IfErr result (IsRoundsFault term.blocks term.horizon term.workers term.window) }
        {
            let mut handles = Vec::with_capacity(alloc, term.workers as usize)?;
            for place in 1..term.workers {
                let started = scope.spawn_with(
                    OfRun { term },
                    move || -> Result<(), RunFault>
                        requires { (term.blocks ≡ length sites.now) × (term.horizon ≤ most_horizon) }
                        ensures { IfErr result (IsRoundsFault term.blocks term.horizon term.workers term.window) }
                    { shared.stay(rt, alloc, place as usize, sites, term, gate) },
                );
                match started {
                    Ok(handle) => handles.push_reserved(handle),
                    Err(_) => {
                        shared.dismiss(rt);
                        return Err(RunFault::NoThread);
                    }
                }
            }
            let rounds = rounds_of(rt, alloc, shared, sites, term, gate, watch);
            shared.dismiss(rt);
            match rounds? {
                Some(rounds) => Ok(rounds),
                None => Err(fault_of(rt, handles, term)),
            }
        },
    )
}

// Plays rounds until the floor is past the horizon: by all workers, but by one alone where the round before had little work, or
// nearly all of it in one turn. The answer is how many; it is none where another worker met a fault, which that one hands back.
fn rounds_of<L: Logs, G: Gate<L> + Sync, W: Watch, R: Threads + Wait + Sync>(
    rt: &R,
    alloc: Global,
    crew: &Crew,
    sites: &[Site<L>],
    term: Term,
    gate: &G,
    watch: &mut W,
) -> Result<Option<u64>, RunFault>
    requires blocks { (term.blocks ≡ length sites.now) × (term.blocks < 2 ^ 32) }
    requires horizon { term.horizon ≤ most_horizon }
    requires workers { 1 ≤ term.workers }
    ensures several { IfOk result (λ rounds. IfNone rounds (1 < term.workers)) }
    ensures fault { IfErr result (IsRoundsFault term.blocks term.horizon term.workers term.window) }
{
    let mut desk = Desk::new(alloc);
    let mut floor = 0;
    let mut rounds: u64 = 0;
    let mut lead = Lead::first(sites.len(), term.workers);
    let mut is_alone = false;
    while floor <= term.horizon {
        let workers = if is_alone || sites.is_empty() {
            1
        } else {
            term.workers
        };
        let order = Order {
            floor,
            window: term.window,
            lead,
            workers,
            blocks: sites.len(),
        };
        let Some(played) = play_at(rt, alloc, crew, order, sites, &mut desk, gate)? else {
            return Ok(None);
        };
        floor = played.least;
        is_alone = played.tally.is_for_one(lead.laps_for(workers));
        lead = lead.after(played.tally, is_alone);
        rounds = rounds.saturating_add(1);
        watch.floor(floor);
    }
    Ok(Some(rounds))
}

// Plays a round: by one worker alone, or by the crew.
fn play_at<L: Logs, G: Gate<L> + Sync, R: Threads + Wait + Sync>(
    rt: &R,
    alloc: Global,
    crew: &Crew,
    order: Order,
    sites: &[Site<L>],
    desk: &mut Desk,
    gate: &G,
) -> Result<Option<Played>, RunFault>
    requires blocks { length sites.now < 2 ^ 32 }
    requires some { 1 < order.workers → 0 < length sites.now }
    requires workers { 1 ≤ order.workers }
    requires floor { order.floor < never }
    ensures later { IfOk result (λ told. IfSome told (λ played. order.floor < played.least)) }
    ensures several { IfOk result (λ told. IfNone told (1 < order.workers)) }
    ensures fault { IfErr result (IsRoundFault (length sites.now) order.workers order.floor order.window) }
{
    if order.workers == 1 {
        let played = play_alone(rt, alloc, sites, desk, order, gate)?;
        return Ok(Some(played));
    }
    let draws = draws_of(sites.len() as u32, order.lead.laps_for(order.workers));
    crew.play_round(rt, alloc, draws, order, sites, desk, gate)
}

// The fault of one of the workers, or that none hands one back.
fn fault_of<R: Threads>(
    rt: &R,
    handles: Vec<PromisedHandle<Result<(), RunFault>, OfRun>>,
    term: Term,
) -> RunFault
    requires workers { 1 < term.workers }
    requires promised { All (IsOfRun term) handles.items }
    ensures { IsRoundsFault term.blocks term.horizon term.workers term.window result }
{
    match thread::join_promised(rt, handles) {
        Ok(answers) => first_fault(answers.as_slice()),
        Err(_) => RunFault::Memory,
    }
}

// The first fault that is handed back, or that none is.
fn first_fault(answers: &[Result<(), RunFault>]) -> RunFault
    ensures { (blocks horizon workers window : _) → 1 < workers → All (MayEnd blocks horizon workers window) answers.now → IsRoundsFault blocks horizon workers window result }
{
    for answer in answers {
        if let Err(fault) = answer {
            return *fault;
        }
    }
    RunFault::NoThread
}

// A worker's promise that it hands back a fault of the run, if any.
#[derive(Clone, Copy)]
pub(crate) struct OfRun {
    term: Term,
}

impl Promise<Result<(), RunFault>> for OfRun {
    ghost use Rattle.warp_rounds.specs.Inner.Crew.{MayEnd};

    ghost kept_by = { λ promise answer. MayEnd promise.term.blocks promise.term.horizon promise.term.workers promise.term.window answer };
}

// Blocks, and what is counted of each.
#[derive(Drop)]
pub(crate) struct Parted<L: Logs> {
    pub(crate) blocks: Vec<Block<L>>,
    counts: Vec<Counts>,
}

// The blocks, taken out of their sites, and what is counted of each.
pub(crate) fn taken_out<L: Logs>(
    alloc: Global,
    sites: Vec<Site<L>>,
) -> Result<Parted<L>, AllocError>
    ensures count { IfOk result (λ parted. vec_len parted.blocks ≡ vec_len sites) }
    ensures lawful { IfOk result (λ parted. All IsLawfulProcess parted.blocks.items) }
    ensures counted { IfOk result (λ parted. AreCounted parted.blocks.items parted.counts.items) }
{
    let mut parted = Parted {
        blocks: Vec::new(alloc),
        counts: Vec::new(alloc),
    };
    for site in sites {
        take_out(site, &mut parted)?;
    }
    Ok(parted)
}

// Takes the block out of a site, and what is counted of it, behind those of others. An error is a refused growth.
fn take_out<L: Logs>(site: Site<L>, parted: &mut Parted<L>) -> Result<(), AllocError>
    requires lawful { All IsLawfulProcess parted.old.blocks.items }
    requires counted { AreCounted parted.old.blocks.items parted.old.counts.items }
    ensures count { OnOk result (vec_len parted.new.blocks ≡ vec_len parted.old.blocks + 1) }
    ensures lawful { OnOk result (All IsLawfulProcess parted.new.blocks.items) }
    ensures counted { OnOk result (AreCounted parted.new.blocks.items parted.new.counts.items) }
{
    let finished = site.finished();
    parted.blocks.push(finished.block)?;
    parted.counts.push(finished.counts)?;
    Ok(())
}
