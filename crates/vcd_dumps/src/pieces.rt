//! What changes after 0, cut into pieces, each made by itself, and the pieces joined.

ghost use Rattle.std.specs.Prelude.{◌≡◌, ℕ, ◌+◌, ◌-◌, ◌<◌, ◌≤◌, ◌++◌, List, [], false, length, IfOk};
ghost use Rattle.std.specs.List.{AllByRecursion};
ghost use Rattle.net_waves.specs.declared.timeline.Stop.{Stop};
ghost use Rattle.net_waves.specs.Packed.{told_below, all_told, times};
ghost use Rattle.net_waves.specs.Keys.{stops_of_keys};
ghost use Rattle.vcd_dumps.specs.Walk.{last_stop};
ghost use Rattle.vcd_dumps.specs.Inner.Walk.{GoesOn};
ghost use Rattle.vcd_dumps.specs.Inner.Pieces.{AreCuts, ArePieces, times_text, keys_text};

use crate::dump::{put_keys, put_times};
use byte_sinks::{Grow, Lot, Sink};
use net_waves::{Packed, stop_of};
use std::alloc::{AllocError, Global};
use std::thread;
use std::thread::Threads;

/// A piece of fewer changes is not worth the start of a thread.
const SHARE: usize = 65_536;

/// The line of a time has fewer bytes.
const LINE: usize = 32;

/// What has been put into a sink and a lot. An error is a refused growth.
pub(crate) fn taken(mut sink: Grow, lot: Lot) -> Result<Vec<u8>, AllocError>
    ensures { (first whole : List ℕ) → GoesOn (record { bytes = []; failed = false }) sink (record { waiting = []; written = 0 }) first whole lot →
        IfOk result (λ bytes. first ++ bytes.items ≡ whole) }
{
    lot.finish(&mut sink);
    if sink.failed() {
        return Err(AllocError);
    }
    Ok(sink.into_vec())
}

/// A text, and behind it what is written of all times, a piece between any two cuts.
pub(crate) fn with_times<R: Threads + Sync>(
    rt: &R,
    alloc: Global,
    front: Vec<u8>,
    packed: &Packed,
    cuts: &[usize],
) -> Result<Vec<u8>, AllocError>
    requires known { AllByRecursion (λ (s : Stop). s.net < 1000000) (all_told packed.now) }
    requires cuts { AreCuts cuts.now (times packed.now) }
    ensures { IfOk result (λ text. text.items ≡ front.items ++ times_text packed.now cuts.now (length cuts.now - 1)) }
{
    let pieces = thread::map_indices(
        rt,
        alloc,
        cuts.len() - 1,
        &|at| times_piece(alloc, packed, cuts, at),
    )?;
    joined(front, pieces.as_slice())
}

/// What is written of the times between a cut and the next one.
fn times_piece(
    alloc: Global,
    packed: &Packed,
    cuts: &[usize],
    at: usize,
) -> Result<Vec<u8>, AllocError>
    requires known { AllByRecursion (λ (s : Stop). s.net < 1000000) (all_told packed.now) }
    requires cuts { AreCuts cuts.now (times packed.now) }
    requires at { at + 1 < length cuts.now }
    ensures { IfOk result (λ piece. times_text packed.now cuts.now at ++ piece.items ≡ times_text packed.now cuts.now (at + 1)) }
{
    let from = cuts[at];
    let mut sink = Grow::new(alloc);
    let mut lot = Lot::new();
    let last = last_before(packed, from);
    put_times(&mut sink, &mut lot, last, packed, from, cuts[at + 1]);
    taken(sink, lot)
}

/// The last time before an end at which words tell a stop, or 0.
pub(crate) fn last_before(packed: &Packed, mut end: usize) -> u64
    requires { end ≤ times packed.now }
    ensures { result ≡ last_stop 0 (told_below packed.now end) }
{
    while end > 0 {
        end -= 1;
        if !packed.words(end).is_empty() {
            return end as u64;
        }
    }
    0
}

/// Where times are cut, so that about as many words lie between any two cuts, but not few, and there are no more pieces than workers.
pub(crate) fn times_cut(
    alloc: Global,
    packed: &Packed,
    workers: u32,
) -> Result<Vec<usize>, AllocError>
    requires { 1 ≤ workers }
    ensures { IfOk result (λ cuts. AreCuts cuts.items (times packed.now)) }
{
    let share = share_of(count_words(packed), workers);
    let mut cuts = Vec::new(alloc);
    cuts.push(0)?;
    let mut words: usize = 0;
    for time in 0..packed.times() {
        if words >= share && cuts.len() < workers as usize {
            cuts.push(time)?;
            words = 0;
        }
        words = words.saturating_add(packed.words(time).len());
    }
    cuts.push(packed.times())?;
    Ok(cuts)
}

/// How many words there are.
fn count_words(packed: &Packed) -> usize {
    let mut words: usize = 0;
    for time in 0..packed.times() {
        words = words.saturating_add(packed.words(time).len());
    }
    words
}

/// How many of so many changes a piece has.
fn share_of(changes: usize, workers: u32) -> usize
    requires { 1 ≤ workers }
    ensures { 1 ≤ result }
{
    changes.div_ceil(workers as usize).max(SHARE)
}

/// A text, and behind it what is written of all keys, a piece between any two cuts.
pub(crate) fn with_stops<R: Threads + Sync>(
    rt: &R,
    alloc: Global,
    front: Vec<u8>,
    keys: &[u64],
    cuts: &[usize],
) -> Result<Vec<u8>, AllocError>
    requires known { AllByRecursion (λ (s : Stop). s.net < 1000000) (stops_of_keys keys.now) }
    requires cuts { AreCuts cuts.now (length keys.now) }
    ensures { IfOk result (λ text. text.items ≡ front.items ++ keys_text keys.now cuts.now (length cuts.now - 1)) }
{
    let pieces = thread::map_indices(
        rt,
        alloc,
        cuts.len() - 1,
        &|at| keys_piece(alloc, keys, cuts, at),
    )?;
    joined(front, pieces.as_slice())
}

/// What is written of the keys between a cut and the next one.
fn keys_piece(alloc: Global, keys: &[u64], cuts: &[usize], at: usize) -> Result<Vec<u8>, AllocError>
    requires known { AllByRecursion (λ (s : Stop). s.net < 1000000) (stops_of_keys keys.now) }
    requires cuts { AreCuts cuts.now (length keys.now) }
    requires at { at + 1 < length cuts.now }
    ensures { IfOk result (λ piece. keys_text keys.now cuts.now at ++ piece.items ≡ keys_text keys.now cuts.now (at + 1)) }
{
    let (before, _) = keys.split_at(cuts[at + 1]);
    let (before, here) = before.split_at(cuts[at]);
    let mut sink = Grow::new(alloc);
    let mut lot = Lot::new();
    put_keys(&mut sink, &mut lot, last_of(before), here);
    taken(sink, lot)
}

/// The time of the last key, or 0.
pub(crate) fn last_of(keys: &[u64]) -> u64
    ensures { result ≡ last_stop 0 (stops_of_keys keys.now) }
{
    match keys {
        [] => 0,
        [.., last] => stop_of(*last).time,
    }
}

/// Where so many keys are cut, so that as many lie between any two cuts but the last ones, not few, and there are no more pieces than
/// workers.
pub(crate) fn keys_cut(alloc: Global, keys: usize, workers: u32) -> Result<Vec<usize>, AllocError>
    requires { 1 ≤ workers }
    ensures { IfOk result (λ cuts. AreCuts cuts.items keys) }
{
    let share = share_of(keys, workers);
    let mut cuts = Vec::new(alloc);
    cuts.push(0)?;
    let mut at = share;
    while at < keys {
        cuts.push(at)?;
        at = at.saturating_add(share);
    }
    cuts.push(keys)?;
    Ok(cuts)
}

/// A text, and pieces behind it, one after another, with room for a line more. An error is that of a piece, or a refused growth.
fn joined(mut text: Vec<u8>, pieces: &[Result<Vec<u8>, AllocError>]) -> Result<Vec<u8>, AllocError>
    ensures { (so_far : ℕ → List ℕ) → ArePieces so_far pieces.now → IfOk result (λ whole. whole.items ≡ text.items ++ so_far (length pieces.now)) }
{
    text.reserve(size_of(pieces).saturating_add(LINE))?;
    for piece in pieces {
        match piece {
            Ok(bytes) => text.extend_from_slice(bytes.as_slice())?,
            Err(_) => return Err(AllocError),
        }
    }
    Ok(text)
}

/// How many bytes pieces have.
fn size_of(pieces: &[Result<Vec<u8>, AllocError>]) -> usize {
    let mut size: usize = 0;
    for piece in pieces {
        if let Ok(bytes) = piece {
            size = size.saturating_add(bytes.len());
        }
    }
    size
}
