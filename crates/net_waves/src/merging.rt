//! The stops of several runs, in order.

ghost use Rattle.std.specs.Prelude.{◌≡◌, ◌<◌, ◌≤◌, ◌↔◌, ℕ, [], ◌∷◌, IfSome, IfNone, IsTrue, get_or, length};
ghost use Rattle.net_waves.specs.declared.timeline.Stop.{Stop};
ghost use Rattle.net_waves.specs.Timeline.{AtMost, InOrder};
ghost use Rattle.net_waves.specs.Merging.{lefts, IsChunk};
ghost use Rattle.net_waves.specs.Inner.Merging.{Leads, IsLeader};

use crate::timeline::Stop;

/// Whether a run has a first stop, and it stands at most at the first one of another.
fn leads(run: &[Stop], other: &[Stop]) -> bool
    ensures { IsTrue result ↔ Leads run.now other.now }
{
    match run {
        [] => false,
        [stop, ..] => match other {
            [] => true,
            [first, ..] => stop.is_at_most(*first),
        },
    }
}

/// Whether a run comes before the one that leads so far.
fn is_ahead(runs: &[&[Stop]], run: usize, leader: Option<usize>) -> bool
    requires known { run < length runs.now }
    requires leader { IfSome leader (λ i. i < length runs.now) }
    ensures some { IfSome leader (λ i. IsTrue result ↔ Leads (get_or (lefts runs.now) run []) (get_or (lefts runs.now) i [])) }
    ensures none { IfNone leader (IsTrue result ↔ (0 < length (get_or (lefts runs.now) run []))) }
{
    match leader {
        Some(first) => leads(runs[run], runs[first]),
        None => !runs[run].is_empty(),
    }
}

/// The run that leads all others, but for one that is passed over.
fn leader(runs: &[&[Stop]], over: usize) -> Option<usize>
    ensures { IsLeader (lefts runs.now) over (length runs.now) result }
{
    let mut leader: Option<usize> = None;
    for run in 0..runs.len() {
        if run == over {
            continue;
        }
        if is_ahead(runs, run, leader) {
            leader = Some(run);
        }
    }
    leader
}

/// How many stops of a run stand at most at the first one of another, which it leads.
fn count_ahead(run: &[Stop], other: &[Stop]) -> usize
    requires { Leads run.now other.now }
    ensures some { 0 < result }
    ensures within { result ≤ length run.now }
    ensures ahead { (k : ℕ) (d : Stop) → k < result → 0 < length other.now → AtMost (get_or run.now k d) (get_or other.now 0 d) }
{
    match other {
        [] => run.len(),
        [first, ..] => {
            for at in 1..run.len() {
                if !run[at].is_at_most(*first) {
                    return at;
                }
            }
            run.len()
        }
    }
}

/// A run, and how many stops at its front stand at most at each stop of the others; none where all are spent.
pub fn next_chunk(runs: &[&[Stop]]) -> Option<(usize, usize)>
    requires { (j : ℕ) → InOrder (get_or (lefts runs.now) j []) }
    ensures some { IfSome result (λ p. IsChunk (lefts runs.now) p.0 p.1) }
    ensures none { IfNone result ((j : ℕ) → get_or (lefts runs.now) j [] ≡ []) }
{
    let run = leader(runs, runs.len())?;
    let count = match leader(runs, run) {
        Some(other) => count_ahead(runs[run], runs[other]),
        None => runs[run].len(),
    };
    Some((run, count))
}
