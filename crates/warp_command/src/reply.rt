//! What a request is answered.
ghost use Rattle.std.specs.Prelude.{◌≡◌, ◌≤◌, None, IfOk, IfErr, IsTrue, codes, true, false, option_map};
ghost use Rattle.warp_text.specs.Stats.{dumped, AreCountsOf};
ghost use Rattle.warp_text.specs.declared.fault.Fault.TheVariants as faults;
ghost use Rattle.warp_command.specs.declared.failure.Failure.TheVariants as failures;
ghost use Rattle.warp_command.specs.declared.request.Only.TheVariants as told;
ghost use Rattle.vcd_compare.specs.Times.{Moves};
ghost use Rattle.warp_command.specs.Replies.{
  Fetches,
  FetchesSettings,
  FetchesOnly,
  IsAnswerOf,
  IsKept,
  IsSimulated,
  shown,
  RunsJoined,
  RunsApart,
  RunsSources,
  Runs,
  IsReplayOf,
  IsReplayed,
  ReplaysBy,
  ReplaysOn,
  Replays,
  IsCountReply,
  Checks,
  IsNetsReply,
  Lists,
  IsCompared,
  ComparesWith,
  ComparesBy,
  Compares,
  Replies,
};

use crate::explained::{Given, at_end, nothing, refused, whole};
use crate::failure::Failure;
use crate::joined::split_joined;
use crate::progress::Progress;
use crate::request::{Check, Comparison, Listing, Only, Replay, Request, Run, Sources};
use crate::texts::{FetchFault, Texts};
use crate::uncompared::not_compared;
use compare_answer::compare_text;
use std::alloc::{AllocError, Global};
use std::sync::Wait;
use std::thread::Threads;
use text_places::Source;
use vcd_compare::Options as Comparing;
use warp_explain::Compared;
use warp_rounds::{NoGate, Watch};
use warp_text::{
    Fault, Options, Simulated, Stats, count_text, counts_of_texts, nets_of_texts, replay_text,
    replay_told, simulate_plain, simulate_told_watched, simulate_watched, stats_text,
};

/// What a request is answered: a text to show, and where there is one, a text to keep behind that.
#[derive(Debug, Drop)]
pub struct Answer<'a> {
    pub text: Vec<u8>,
    pub kept: Option<Kept<'a>>,
}

/// A text that is kept under a name.
#[derive(Debug, Drop)]
pub struct Kept<'a> {
    pub name: &'a str,
    pub text: Vec<u8>,
}

/// An answer that is shown alone.
fn alone<'a>(reply: Result<Vec<u8>, Failure<'a>>) -> Result<Answer<'a>, Failure<'a>>
    ensures shown { shown result ≡ reply.entry }
    ensures kept { IfOk result (λ answer. answer.kept ≡ None) }
{
    match reply {
        Ok(text) => Ok(Answer { text, kept: None }),
        Err(failure) => Err(failure),
    }
}

fn fetch<'a, T: Texts>(alloc: Global, name: &'a str, texts: &mut T) -> Result<Vec<u8>, Failure<'a>>
    ensures { Fetches T.gives name.entry.now texts.old result texts.new }
{
    match texts.fetch(alloc, name) {
        Ok(text) => Ok(text),
        Err(FetchFault::Unreadable) => Err(Failure::Unreadable(name)),
        Err(FetchFault::Memory) => Err(Failure::Fault(Fault::Memory)),
    }
}

fn fetch_settings<'a, T: Texts>(
    alloc: Global,
    name: Option<&'a str>,
    texts: &mut T,
) -> Result<Vec<u8>, Failure<'a>>
    ensures { FetchesSettings T.gives name.entry texts.old result texts.new }
{
    match name {
        Some(name) => fetch(alloc, name, texts),
        None => Ok(Vec::new(alloc)),
    }
}

/// The text that names the nets that are told, if one does.
fn fetch_only<'a, T: Texts>(
    alloc: Global,
    only: Only<'a>,
    texts: &mut T,
) -> Result<Vec<u8>, Failure<'a>>
    ensures { FetchesOnly T.gives only.entry texts.old result texts.new }
{
    match only {
        Only::Named(name) => fetch(alloc, name, texts),
        Only::All | Only::Outputs => Ok(Vec::new(alloc)),
    }
}

/// The name of that text.
fn only_name<'a>(only: Only<'a>) -> &'a str {
    match only {
        Only::Named(name) => name,
        Only::All | Only::Outputs => "",
    }
}

/// What is answered to the texts of a run.
fn answer_to<R: Threads + Wait + Sync, W: Watch>(
    rt: &R,
    alloc: Global,
    given: &Given<'_>,
    only: Only<'_>,
    options: &Options,
    watch: &mut W,
) -> Result<Simulated, Fault>
    ensures dump { IsAnswerOf only.entry given.now.only.text.now given.now.bench.text.now given.now.settings.text.now given.now.stimulus.text.now
        options.now.until (dumped result) }
    ensures counts { IfOk result (λ simulated. AreCountsOf given.now.bench.text.now given.now.settings.text.now options.now.until simulated.stats) }
{
    let bench = given.bench.text;
    let settings = given.settings.text;
    let stimulus = given.stimulus.text;
    match only {
        Only::All => simulate_watched(
            rt, alloc, bench, settings, stimulus, options, &NoGate, watch,
        ),
        Only::Outputs => simulate_told_watched(
            rt, alloc, bench, settings, None, stimulus, options, &NoGate, watch,
        ),
        Only::Named(_) => {
            let names = Some(given.only.text);
            simulate_told_watched(
                rt, alloc, bench, settings, names, stimulus, options, &NoGate, watch,
            )
        }
    }
}

/// What is told of a run to whom it is answered.
fn watched<R: Threads + Wait + Sync, T: Texts>(
    rt: &R,
    alloc: Global,
    given: &Given<'_>,
    run: &Run<'_>,
    texts: &T,
) -> Result<Simulated, Fault>
    ensures dump { IsAnswerOf run.now.only given.now.only.text.now given.now.bench.text.now given.now.settings.text.now given.now.stimulus.text.now
        run.now.options.until (dumped result) }
    ensures counts { IfOk result (λ simulated. AreCountsOf given.now.bench.text.now given.now.settings.text.now run.now.options.until simulated.stats) }
{
    let mut progress = Progress::new(texts, run.options.until(), run.progress);
    let answer = answer_to(rt, alloc, given, run.only, &run.options, &mut progress);
    progress.end();
    answer
}

/// What is counted of a run, to be kept under a name, where there is one.
fn kept_of<'a>(
    alloc: Global,
    name: Option<&'a str>,
    stats: &Stats,
) -> Result<Option<Kept<'a>>, AllocError>
    ensures { IfOk result (IsKept name.entry stats.now) }
{
    match name {
        None => Ok(None),
        Some(name) => Ok(Some(Kept {
            name,
            text: stats_text(alloc, stats)?,
        })),
    }
}

/// What a run is answered that went well.
fn answer_of<'a>(
    alloc: Global,
    name: Option<&'a str>,
    simulated: Simulated,
) -> Result<Answer<'a>, Failure<'a>>
    ensures text { IfOk result (λ answer. answer.text ≡ simulated.dump) }
    ensures kept { IfOk result (λ answer. IsKept name.entry simulated.stats answer.kept) }
    ensures fault { IfErr result (λ failure. failure ≡ failures.Fault faults.Memory) }
{
    let Simulated { dump, stats } = simulated;
    match kept_of(alloc, name, &stats) {
        Ok(kept) => Ok(Answer { text: dump, kept }),
        Err(_) => Err(Failure::Fault(Fault::Memory)),
    }
}

/// Whether all nets are told of a run, and nothing is counted.
fn is_plain(run: &Run<'_>) -> bool
    ensures { IsTrue result → (run.now.only ≡ told.All) × (run.now.stats ≡ None) }
{
    matches!(run.only, Only::All) && run.stats.is_none()
}

/// What is answered to a run of which all nets are told and nothing is kept.
#[tactic(auto, using(crate::proofs::Refused::refusal_of))]
fn plain<'a, R: Threads + Wait + Sync, T: Texts>(
    rt: &R,
    alloc: Global,
    given: &Given<'_>,
    run: &Run<'a>,
    texts: &T,
) -> Result<Answer<'a>, Failure<'a>>
    requires all { run.now.only ≡ told.All }
    requires kept { run.now.stats ≡ None }
    ensures { IsSimulated run.now given.now.only.text.now given.now.bench.text.now given.now.settings.text.now given.now.stimulus.text.now result }
{
    let bench = given.bench.text;
    let settings = given.settings.text;
    let stimulus = given.stimulus.text;
    let mut progress = Progress::new(texts, run.options.until(), run.progress);
    let answer = simulate_plain(
        rt,
        alloc,
        bench,
        settings,
        stimulus,
        &run.options,
        &mut progress,
    );
    progress.end();
    match answer {
        Ok(text) => Ok(Answer { text, kept: None }),
        Err(fault) => Err(refused(alloc, run.explains, given, fault)),
    }
}

fn simulated<'a, R: Threads + Wait + Sync, T: Texts>(
    rt: &R,
    alloc: Global,
    given: &Given<'_>,
    run: &Run<'a>,
    texts: &T,
) -> Result<Answer<'a>, Failure<'a>>
    ensures { IsSimulated run.now given.now.only.text.now given.now.bench.text.now given.now.settings.text.now given.now.stimulus.text.now result }
{
    if is_plain(run) {
        return plain(rt, alloc, given, run, texts);
    }
    match watched(rt, alloc, given, run, texts) {
        Ok(simulated) => answer_of(alloc, run.stats, simulated),
        Err(fault) => Err(refused(alloc, run.explains, given, fault)),
    }
}

fn run_joined<'a, R: Threads + Wait + Sync, T: Texts>(
    rt: &R,
    alloc: Global,
    settings: &Source<'_>,
    run: &Run<'a>,
    texts: &mut T,
) -> Result<Answer<'a>, Failure<'a>>
    ensures { RunsJoined T.gives run.now settings.now.text.now texts.old result texts.new }
{
    let joined = fetch(alloc, "-", texts)?;
    let names = fetch_only(alloc, run.only, texts)?;
    let (bench, stimulus) = split_joined(joined.as_slice());
    let given = Given {
        bench: whole("-", bench),
        settings: *settings,
        stimulus: at_end("-", stimulus, joined.as_slice()),
        schedule: nothing(),
        only: whole(only_name(run.only), names.as_slice()),
    };
    simulated(rt, alloc, &given, run, texts)
}

fn run_apart<'a, R: Threads + Wait + Sync, T: Texts>(
    rt: &R,
    alloc: Global,
    bench: &'a str,
    stimulus: &'a str,
    settings: &Source<'_>,
    run: &Run<'a>,
    texts: &mut T,
) -> Result<Answer<'a>, Failure<'a>>
    ensures { RunsApart T.gives run.now bench.entry.now stimulus.entry.now settings.now.text.now texts.old result texts.new }
{
    let bench_text = fetch(alloc, bench, texts)?;
    let stimulus_text = fetch(alloc, stimulus, texts)?;
    let names = fetch_only(alloc, run.only, texts)?;
    let given = Given {
        bench: whole(bench, bench_text.as_slice()),
        settings: *settings,
        stimulus: whole(stimulus, stimulus_text.as_slice()),
        schedule: nothing(),
        only: whole(only_name(run.only), names.as_slice()),
    };
    simulated(rt, alloc, &given, run, texts)
}

fn run_sources<'a, R: Threads + Wait + Sync, T: Texts>(
    rt: &R,
    alloc: Global,
    settings: &Source<'_>,
    run: &Run<'a>,
    texts: &mut T,
) -> Result<Answer<'a>, Failure<'a>>
    ensures { RunsSources T.gives run.now run.now.sources settings.now.text.now texts.old result texts.new }
{
    match run.sources {
        Sources::Joined => run_joined(rt, alloc, settings, run, texts),
        Sources::Apart { bench, stimulus } => {
            run_apart(rt, alloc, bench, stimulus, settings, run, texts)
        }
    }
}

/// The name of the settings' text, where the line gives one.
fn shown_name<'a>(name: Option<&'a str>) -> &'a str {
    name.unwrap_or("")
}

fn reply_to_run<'a, R: Threads + Wait + Sync, T: Texts>(
    rt: &R,
    alloc: Global,
    run: Run<'a>,
    texts: &mut T,
) -> Result<Answer<'a>, Failure<'a>>
    ensures { Runs T.gives run.entry texts.old result texts.new }
{
    let settings = fetch_settings(alloc, run.settings, texts)?;
    let settings = whole(shown_name(run.settings), settings.as_slice());
    run_sources(rt, alloc, &settings, &run, texts)
}

/// What is answered to the texts of a replay.
fn replay_of(
    alloc: Global,
    given: &Given<'_>,
    only: Only<'_>,
    options: &Options,
) -> Result<Vec<u8>, Fault>
    ensures { IsReplayOf only.entry given.now.only.text.now given.now.bench.text.now given.now.settings.text.now given.now.stimulus.text.now
        given.now.schedule.text.now options.now.blocks options.now.until result }
{
    let bench = given.bench.text;
    let settings = given.settings.text;
    let stimulus = given.stimulus.text;
    let schedule = given.schedule.text;
    match only {
        Only::All => replay_text(alloc, bench, settings, stimulus, schedule, options),
        Only::Outputs => replay_told(alloc, bench, settings, None, stimulus, schedule, options),
        Only::Named(_) => {
            let names = Some(given.only.text);
            replay_told(alloc, bench, settings, names, stimulus, schedule, options)
        }
    }
}

#[tactic(auto, using(crate::proofs::Refused::refusal_of))]
fn replayed<'a>(
    alloc: Global,
    given: &Given<'_>,
    replay: &Replay<'_>,
) -> Result<Vec<u8>, Failure<'a>>
    ensures { IsReplayed replay.now.explains replay.now.only given.now.only.text.now given.now.bench.text.now given.now.settings.text.now
        given.now.stimulus.text.now given.now.schedule.text.now replay.now.options.blocks replay.now.options.until result }
{
    match replay_of(alloc, given, replay.only, &replay.options) {
        Ok(dump) => Ok(dump),
        Err(fault) => Err(refused(alloc, replay.explains, given, fault)),
    }
}

/// What a replay is answered whose texts are had but for the names of nets.
fn replay_on<'a, T: Texts>(
    alloc: Global,
    others: &Given<'_>,
    replay: &Replay<'a>,
    texts: &mut T,
) -> Result<Vec<u8>, Failure<'a>>
    ensures { ReplaysOn T.gives replay.now others.now.bench.text.now others.now.settings.text.now others.now.stimulus.text.now
        others.now.schedule.text.now texts.old result texts.new }
{
    let names = fetch_only(alloc, replay.only, texts)?;
    let given = Given {
        bench: others.bench,
        settings: others.settings,
        stimulus: others.stimulus,
        schedule: others.schedule,
        only: whole(only_name(replay.only), names.as_slice()),
    };
    replayed(alloc, &given, replay)
}

/// What a replay is answered whose texts are had but for the schedule and the names of nets.
fn replay_by<'a, T: Texts>(
    alloc: Global,
    others: &Given<'_>,
    replay: &Replay<'a>,
    texts: &mut T,
) -> Result<Vec<u8>, Failure<'a>>
    ensures { ReplaysBy T.gives replay.now others.now.bench.text.now others.now.settings.text.now others.now.stimulus.text.now texts.old
        result texts.new }
{
    let schedule = fetch(alloc, replay.schedule, texts)?;
    let given = Given {
        bench: others.bench,
        settings: others.settings,
        stimulus: others.stimulus,
        schedule: whole(replay.schedule, schedule.as_slice()),
        only: nothing(),
    };
    replay_on(alloc, &given, replay, texts)
}

fn reply_to_replay<'a, T: Texts>(
    alloc: Global,
    replay: Replay<'a>,
    texts: &mut T,
) -> Result<Vec<u8>, Failure<'a>>
    ensures { Replays T.gives replay.entry texts.old result texts.new }
{
    let settings = fetch_settings(alloc, replay.settings, texts)?;
    let bench = fetch(alloc, replay.bench, texts)?;
    let stimulus = fetch(alloc, replay.stimulus, texts)?;
    let others = Given {
        bench: whole(replay.bench, bench.as_slice()),
        settings: whole(shown_name(replay.settings), settings.as_slice()),
        stimulus: whole(replay.stimulus, stimulus.as_slice()),
        schedule: nothing(),
        only: nothing(),
    };
    replay_by(alloc, &others, &replay, texts)
}

/// A bench and its settings, which a command reads alone.
fn circuit_texts<'a>(
    bench_name: &'a str,
    bench: &'a [u8],
    settings_name: Option<&'a str>,
    settings: &'a [u8],
) -> Given<'a>
    ensures bench { result.bench.text.now ≡ bench.entry.now }
    ensures settings { result.settings.text.now ≡ settings.entry.now }
{
    Given {
        bench: whole(bench_name, bench),
        settings: whole(shown_name(settings_name), settings),
        stimulus: nothing(),
        schedule: nothing(),
        only: nothing(),
    }
}

#[tactic(auto, using(crate::proofs::Refused::refusal_of, crate::proofs::Refused::uncounted_of))]
fn counted<'a>(alloc: Global, given: &Given<'_>, explains: bool) -> Result<Vec<u8>, Failure<'a>>
    ensures { IsCountReply explains given.now.bench.text.now given.now.settings.text.now result }
{
    match counts_of_texts(alloc, given.bench.text, given.settings.text) {
        Ok(counts) => {
            let text = count_text(alloc, counts)?;
            Ok(text.into_bytes())
        }
        Err(fault) => Err(refused(alloc, explains, given, fault)),
    }
}

fn reply_to_check<'a, T: Texts>(
    alloc: Global,
    check: Check<'a>,
    texts: &mut T,
) -> Result<Vec<u8>, Failure<'a>>
    ensures { Checks T.gives check.entry texts.old result texts.new }
{
    let settings = fetch_settings(alloc, check.settings, texts)?;
    let bench = fetch(alloc, check.bench, texts)?;
    let given = circuit_texts(
        check.bench,
        bench.as_slice(),
        check.settings,
        settings.as_slice(),
    );
    counted(alloc, &given, check.explains)
}

#[tactic(auto, using(crate::proofs::Refused::refusal_of))]
fn listed<'a>(alloc: Global, given: &Given<'_>, explains: bool) -> Result<Vec<u8>, Failure<'a>>
    ensures { IsNetsReply explains given.now.bench.text.now given.now.settings.text.now result }
{
    match nets_of_texts(alloc, given.bench.text, given.settings.text) {
        Ok(text) => Ok(text),
        Err(fault) => Err(refused(alloc, explains, given, fault)),
    }
}

fn reply_to_nets<'a, T: Texts>(
    alloc: Global,
    listing: Listing<'a>,
    texts: &mut T,
) -> Result<Vec<u8>, Failure<'a>>
    ensures { Lists T.gives listing.entry texts.old result texts.new }
{
    let settings = fetch_settings(alloc, listing.settings, texts)?;
    let bench = fetch(alloc, listing.bench, texts)?;
    let given = circuit_texts(
        listing.bench,
        bench.as_slice(),
        listing.settings,
        settings.as_slice(),
    );
    listed(alloc, &given, listing.explains)
}

/// Whether compared times go on.
fn moves(options: &Comparing<'_>) -> bool
    ensures on { result ≡ true → Moves options.now }
    ensures still { result ≡ false → ¬ Moves options.now }
{
    match options.strobes {
        Some((_, step)) => step > 0,
        None => true,
    }
}

#[tactic(auto, using(crate::proofs::Refused::compared_of))]
fn compared<'a>(
    alloc: Global,
    comparison: &Comparison<'_>,
    texts: &Compared<'_>,
    map: Option<&[u8]>,
) -> Result<Vec<u8>, Failure<'a>>
    ensures { IsCompared comparison.now.explains comparison.now.options comparison.now.most texts.now.expected.text.now texts.now.actual.text.now
        (option_map (λ m. m.now) map.entry) result }
{
    let options = &comparison.options;
    if !moves(options) {
        return Err(Failure::Incomplete);
    }
    let most = comparison.most as usize;
    let expected = texts.expected.text;
    let actual = texts.actual.text;
    match compare_text(alloc, options, most, expected, actual, map) {
        Ok(compared) => {
            if compared.agrees {
                Ok(compared.text)
            } else {
                Err(Failure::Differ(compared.text))
            }
        }
        Err(fault) => Err(not_compared(alloc, comparison.explains, options, texts, fault)),
    }
}

/// What a comparison is answered whose dumps are had, by the map of this name.
fn compared_with<'a, 't, T: Texts>(
    alloc: Global,
    name: &'a str,
    comparison: &Comparison<'_>,
    expected: &Source<'t>,
    actual: &Source<'t>,
    texts: &mut T,
) -> Result<Vec<u8>, Failure<'a>>
    ensures { ComparesWith T.gives name.entry.now comparison.now expected.now.text.now actual.now.text.now texts.old result texts.new }
{
    let map = fetch(alloc, name, texts)?;
    let given = Compared {
        expected: *expected,
        actual: *actual,
        map: Some(whole(name, map.as_slice())),
    };
    compared(alloc, comparison, &given, Some(map.as_slice()))
}

/// What a comparison is answered whose dumps are had, of the bits of one name.
fn compared_alone<'a, 't>(
    alloc: Global,
    comparison: &Comparison<'_>,
    expected: &Source<'t>,
    actual: &Source<'t>,
) -> Result<Vec<u8>, Failure<'a>>
    ensures { IsCompared comparison.now.explains comparison.now.options comparison.now.most expected.now.text.now actual.now.text.now None result }
{
    let given = Compared {
        expected: *expected,
        actual: *actual,
        map: None,
    };
    compared(alloc, comparison, &given, None)
}

/// What a comparison is answered whose dumps are had.
fn compared_by<'a, 't, T: Texts>(
    alloc: Global,
    comparison: &Comparison<'a>,
    expected: &Source<'t>,
    actual: &Source<'t>,
    texts: &mut T,
) -> Result<Vec<u8>, Failure<'a>>
    ensures { ComparesBy T.gives comparison.now.map comparison.now expected.now.text.now actual.now.text.now texts.old result texts.new }
{
    match comparison.map {
        None => compared_alone(alloc, comparison, expected, actual),
        Some(name) => compared_with(alloc, name, comparison, expected, actual, texts),
    }
}

fn reply_to_compare<'a, T: Texts>(
    alloc: Global,
    comparison: Comparison<'a>,
    texts: &mut T,
) -> Result<Vec<u8>, Failure<'a>>
    ensures { Compares T.gives comparison.entry texts.old result texts.new }
{
    let expected = fetch(alloc, comparison.expected, texts)?;
    let actual = fetch(alloc, comparison.actual, texts)?;
    let expected = whole(comparison.expected, expected.as_slice());
    let actual = whole(comparison.actual, actual.as_slice());
    compared_by(alloc, &comparison, &expected, &actual, texts)
}

/// What a request is answered: the text to show, and what is to be kept behind it, or why there is none. The texts that it names
/// are fetched first, the settings before the bench before the stimulus before the schedule before the names of nets;
/// of a comparison the dump that is expected before the other one before the map.
pub fn reply_to<'a, R: Threads + Wait + Sync, T: Texts>(
    rt: &R,
    alloc: Global,
    request: Request<'a>,
    texts: &mut T,
) -> Result<Answer<'a>, Failure<'a>>
    ensures { Replies T.gives request.entry texts.old result texts.new }
{
    match request {
        Request::Help(text) => alone(Ok(text.into_bytes())),
        Request::Run(run) => reply_to_run(rt, alloc, run, texts),
        Request::Replay(replay) => alone(reply_to_replay(alloc, replay, texts)),
        Request::Check(check) => alone(reply_to_check(alloc, check, texts)),
        Request::Nets(listing) => alone(reply_to_nets(alloc, listing, texts)),
        Request::Compare(comparison) => alone(reply_to_compare(alloc, comparison, texts)),
    }
}
