//! From three texts to a dump.
ghost use Rattle.std.specs.Prelude.{◌≡◌, IfOk, IfErr, IfSome, codes};
ghost use Rattle.gate_netlist.specs.Circuit.{CutFits};
ghost use Rattle.gate_netlist.specs.Bench.{bench_of};
ghost use Rattle.gate_netlist.specs.Faults.{out_of_memory, MemoryHasNoLine};
ghost use Rattle.gate_netlist.specs.Gives.{Gives};
ghost use Rattle.gate_netlist.specs.Meaning.{IsRead};
ghost use Rattle.gate_stimulus.specs.Given.{Fits};
ghost use Rattle.vcd_dumps.specs.Dump.{vcd_text};
ghost use Rattle.warp_core.specs.Values.{value_under, AreCircuitWaves};
ghost use Rattle.warp_text.specs.Answer.{IsAnswer, IsCounted, IsListed};
ghost use Rattle.warp_text.specs.Stats.{dumped, Accounts, IsAccountOf, AreCountsOf};
ghost use Rattle.warp_text.specs.Inner.Answer.{IsCircuitAnswer, IsDumped};

use crate::cuts::{cut_of, made_cut};
use crate::dump::{alone_dump, dump_by, parted_dump};
use crate::fault::Fault;
use crate::nets::nets_text;
use crate::options::Options;
use crate::stats::{Stats, stats_of};
use gate_netlist::{Bench, BenchFault, Circuit, Counts, Cut, Document, SettingsFault, read_bench};
use gate_stimulus::Stimulus;
use gate_vcd::read_stimulus;
use net_waves::Waves;
use std::alloc::Global;
use std::sync::Wait;
use std::thread::{Threads, join};
use warp_block::AllLogs;
use warp_rounds::{Gate, NoGate, NoWatch, RunFault, Watch, run_watched};

/// A settings text of so many bytes is worth a thread beside the one that reads the bench.
const LONG: usize = 1 << 16;

/// What a run is answered: a dump, and what is counted of the run.
#[derive(Debug, Drop)]
pub struct Simulated {
    pub dump: Vec<u8>,
    pub stats: Stats,
}

/// The waves of a run, and what is counted of it.
#[derive(Drop)]
pub(crate) struct Ran {
    pub(crate) waves: Waves,
    pub(crate) stats: Stats,
}

/// The circuit of a bench text and a settings text.
pub(crate) fn circuit_of(alloc: Global, bench: &[u8], settings: &[u8]) -> Result<Circuit, Fault>
    ensures { IsCircuitAnswer bench.now settings.now result }
{
    let bench = read_bench(alloc, bench)?;
    Ok(Circuit::of(alloc, bench, settings)?)
}

/// The circuit of a bench text and a settings text, which are read side by side where the settings text is long.
pub(crate) fn circuit_by<R: Threads + Sync>(
    rt: &R,
    alloc: Global,
    bench: &[u8],
    settings: &[u8],
) -> Result<Circuit, Fault>
    ensures { IsCircuitAnswer bench.now settings.now result }
{
    if settings.len() < LONG {
        return circuit_of(alloc, bench, settings);
    }
    let (bench, document) = join(
        rt,
        || -> Result<Bench, BenchFault>
            ensures exact { Gives out_of_memory (λ bench. bench) result (bench_of bench.entry.now) }
            ensures memory { IfErr result MemoryHasNoLine }
        { read_bench(alloc, bench) },
        || -> Result<Document, SettingsFault>
            ensures { IsRead settings.entry.now result }
        { Document::read(alloc, settings) },
    );
    let bench = bench?;
    let document = document?;
    Ok(Circuit::with_by(rt, alloc, bench, &document)?)
}

/// Runs the blocks of a cut circuit.
fn run_cut<G: Gate<AllLogs> + Sync, W: Watch, R: Threads + Wait + Sync>(
    rt: &R,
    alloc: Global,
    circuit: &Circuit,
    cut: &Cut,
    stimulus: &Stimulus,
    options: &Options,
    gate: &G,
    watch: &mut W,
) -> Result<Ran, RunFault>
    requires cut { CutFits circuit.now cut.now }
    requires stimulus { Fits stimulus.now circuit.now }
    ensures waves { IfOk result (λ ran. AreCircuitWaves circuit.now stimulus.now options.now.until ran.waves) }
    ensures counts { IfOk result (λ ran. Accounts circuit.now stimulus.now options.now.until ran.stats) }
{
    let watched = run_watched(
        rt,
        alloc,
        circuit,
        cut,
        stimulus,
        options.until(),
        options.workers(),
        options.window(),
        gate,
        watch,
    )?;
    let stats = stats_of(alloc, cut, &watched.waves, &watched.counts)?;
    Ok(Ran {
        waves: watched.waves,
        stats,
    })
}

/// Runs the blocks of a circuit, which is cut evenly where the options give a number of blocks, else as its settings
/// say, else not at all.
pub(crate) fn run_blocks<G: Gate<AllLogs> + Sync, W: Watch, R: Threads + Wait + Sync>(
    rt: &R,
    alloc: Global,
    circuit: &Circuit,
    stimulus: &Stimulus,
    options: &Options,
    gate: &G,
    watch: &mut W,
) -> Result<Ran, RunFault>
    requires { Fits stimulus.now circuit.now }
    ensures waves { IfOk result (λ ran. AreCircuitWaves circuit.now stimulus.now options.now.until ran.waves) }
    ensures counts { IfOk result (λ ran. Accounts circuit.now stimulus.now options.now.until ran.stats) }
{
    let made = made_cut(alloc, circuit, options)?;
    let cut = cut_of(circuit, options, &made);
    run_cut(rt, alloc, circuit, cut, stimulus, options, gate, watch)
}

/// The dump of a circuit's nets under a stimulus text.
fn dump_under<G: Gate<AllLogs> + Sync, W: Watch, R: Threads + Wait + Sync>(
    rt: &R,
    alloc: Global,
    circuit: &Circuit,
    stimulus: &[u8],
    options: &Options,
    gate: &G,
    watch: &mut W,
) -> Result<Simulated, Fault>
    ensures dump { IsDumped circuit.now stimulus.now options.now.until (dumped result) }
    ensures counts { IfOk result (λ simulated. IsAccountOf circuit.now options.now.until simulated.stats) }
{
    let stimulus = read_stimulus(alloc, stimulus, circuit)?;
    let ran = run_blocks(rt, alloc, circuit, &stimulus, options, gate, watch)?;
    let dump = dump_by(
        rt,
        alloc,
        options.workers(),
        circuit,
        &stimulus,
        ran.waves,
        options.until(),
    )?;
    Ok(Simulated {
        dump,
        stats: ran.stats,
    })
}

/// The dump of every net of a circuit, from time 0 to the options' `until`, in units of the stimulus's timescale: of
/// the circuit of a bench text and a settings text, under a stimulus.
///
/// The texts are judged in this order, and the first that is refused is answered, with its fault; then the run's fault.
/// Want of memory in any part is `Fault::Memory`, and no other fault carries it. The gate is lent each block as its
/// turns begin and end.
pub fn simulate_text<G: Gate<AllLogs> + Sync, R: Threads + Wait + Sync>(
    rt: &R,
    alloc: Global,
    bench: &[u8],
    settings: &[u8],
    stimulus: &[u8],
    options: &Options,
    gate: &G,
) -> Result<Vec<u8>, Fault>
    ensures { IsAnswer bench.now settings.now stimulus.now options.now.until result }
{
    let answer = simulate_watched(
        rt,
        alloc,
        bench,
        settings,
        stimulus,
        options,
        gate,
        &mut NoWatch,
    );
    dump_alone(answer)
}

/// Answers what [`simulate_text`] does, where no gate is to see the blocks. A circuit in one block, asked for or not, is played alone, as a
/// whole, with no block's lists nor rollbacks, and the workers write its dump. The watch is told how far the run has come.
#[tactic(auto, unfolding(crate::specs::Answer::IsAnswer))]
pub fn simulate_plain<W: Watch, R: Threads + Wait + Sync>(
    rt: &R,
    alloc: Global,
    bench: &[u8],
    settings: &[u8],
    stimulus: &[u8],
    options: &Options,
    watch: &mut W,
) -> Result<Vec<u8>, Fault>
    ensures { IsAnswer bench.now settings.now stimulus.now options.now.until result }
{
    let circuit = circuit_by(rt, alloc, bench, settings)?;
    plain_dump(rt, alloc, &circuit, stimulus, options, watch)
}

/// The dump of a circuit's nets under a stimulus text, where no gate is to see the blocks.
fn plain_dump<W: Watch, R: Threads + Wait + Sync>(
    rt: &R,
    alloc: Global,
    circuit: &Circuit,
    stimulus: &[u8],
    options: &Options,
    watch: &mut W,
) -> Result<Vec<u8>, Fault>
    ensures { IsDumped circuit.now stimulus.now options.now.until result }
{
    let stimulus = read_stimulus(alloc, stimulus, circuit)?;
    if let Some(dump) = listless_dump(rt, alloc, circuit, &stimulus, options, watch)? {
        return Ok(dump);
    }
    let workers = options.workers();
    let until = options.until();
    let ran = run_blocks(rt, alloc, circuit, &stimulus, options, &NoGate, watch)?;
    Ok(dump_by(rt, alloc, workers, circuit, &stimulus, ran.waves, until)?)
}

/// The dump of a circuit that is played with no list of a net's changes but those that other blocks read; none where its changes can't be
/// had by time as they come.
fn listless_dump<W: Watch, R: Threads + Wait + Sync>(
    rt: &R,
    alloc: Global,
    circuit: &Circuit,
    stimulus: &Stimulus,
    options: &Options,
    watch: &mut W,
) -> Result<Option<Vec<u8>>, RunFault>
    requires { Fits stimulus.now circuit.now }
    ensures { IfOk result (λ dump. IfSome dump (λ dump. dump.items ≡ vcd_text (codes "top") circuit.now stimulus.now (value_under circuit.now stimulus.now) options.now.until)) }
{
    if is_whole(circuit, options) {
        let workers = options.workers();
        let until = options.until();
        let dump = alone_dump(rt, alloc, workers, circuit, stimulus, until, watch)?;
        return Ok(dump);
    }
    blocks_dump(rt, alloc, circuit, stimulus, options, watch)
}

/// The dump of a circuit that is played in blocks, cut as [`run_blocks`] cuts it, which keep no list of a net that no other block reads; none
/// where its changes can't be had by time as they come.
fn blocks_dump<W: Watch, R: Threads + Wait + Sync>(
    rt: &R,
    alloc: Global,
    circuit: &Circuit,
    stimulus: &Stimulus,
    options: &Options,
    watch: &mut W,
) -> Result<Option<Vec<u8>>, RunFault>
    requires { Fits stimulus.now circuit.now }
    ensures { IfOk result (λ dump. IfSome dump (λ dump. dump.items ≡ vcd_text (codes "top") circuit.now stimulus.now (value_under circuit.now stimulus.now) options.now.until)) }
{
    let until = options.until();
    let workers = options.workers();
    let window = options.window();
    let made = made_cut(alloc, circuit, options)?;
    let cut = cut_of(circuit, options, &made);
    parted_dump(
        rt, alloc, circuit, cut, stimulus, until, workers, window, watch,
    )
}

/// Whether a circuit is played in one block, asked for or not.
fn is_whole(circuit: &Circuit, options: &Options) -> bool {
    match (options.blocks(), circuit.cut()) {
        (Some(blocks), _) => blocks == 1,
        (None, Some(cut)) => cut.blocks() == 1,
        (None, None) => true,
    }
}

/// The dump of what is answered.
pub(crate) fn dump_alone(answer: Result<Simulated, Fault>) -> Result<Vec<u8>, Fault>
    ensures { result ≡ dumped answer }
{
    match answer {
        Ok(simulated) => Ok(simulated.dump),
        Err(fault) => Err(fault),
    }
}

/// As [`simulate_text`], with what is counted of the run: of the event times of each block that were finished, those that weren't
/// taken back are those of the block whose log is that of the circuit's values. The watch is told how far the run has come.
#[tactic(auto, unfolding(crate::specs::Answer::IsAnswer))]
pub fn simulate_watched<G: Gate<AllLogs> + Sync, W: Watch, R: Threads + Wait + Sync>(
    rt: &R,
    alloc: Global,
    bench: &[u8],
    settings: &[u8],
    stimulus: &[u8],
    options: &Options,
    gate: &G,
    watch: &mut W,
) -> Result<Simulated, Fault>
    ensures dump { IsAnswer bench.now settings.now stimulus.now options.now.until (dumped result) }
    ensures counts { IfOk result (λ simulated. AreCountsOf bench.now settings.now options.now.until simulated.stats) }
{
    let circuit = circuit_by(rt, alloc, bench, settings)?;
    dump_under(rt, alloc, &circuit, stimulus, options, gate, watch)
}

/// How many parts a circuit has.
#[tactic(auto, unfolding(crate::specs::Answer::IsCounted))]
pub fn counts_of_texts(alloc: Global, bench: &[u8], settings: &[u8]) -> Result<Counts, Fault>
    ensures { IsCounted bench.now settings.now result }
{
    let circuit = circuit_of(alloc, bench, settings)?;
    Ok(circuit.counts())
}

/// What each net of a circuit is, a line each.
#[tactic(auto, unfolding(crate::specs::Answer::IsListed))]
pub fn nets_of_texts(alloc: Global, bench: &[u8], settings: &[u8]) -> Result<Vec<u8>, Fault>
    ensures { IsListed bench.now settings.now result }
{
    let circuit = circuit_of(alloc, bench, settings)?;
    Ok(nets_text(alloc, &circuit)?)
}
