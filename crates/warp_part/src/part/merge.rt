ghost use Rattle.std.specs.Prelude.{◌≡◌, ◌<◌, ◌≤◌, ◌+◌, ◌++◌, ◌∷◌, ℕ, [], IsTrue, true, false, IfOk, OnOk, length, get_or};
ghost use Rattle.warp_part.specs.Inner.Uses.{noted, AreApart, AreMerged};

use std::alloc::{AllocError, Global};

/// How many of two lists have been put into one.
#[derive(Clone, Copy)]
struct Places {
    own: usize,
    other: usize,
}

/// Own nets, which have marks, and others, in one ascending list, each with whether it is used: marked, or another.
pub(super) fn merged(
    alloc: Global,
    own: &[u32],
    marks: &[bool],
    others: &[u32],
    used: &mut Vec<bool>,
) -> Result<Vec<u32>, AllocError>
    requires apart { AreApart own.now marks.now others.now }
    requires empty { used.old.items ≡ [] }
    ensures { IfOk result (λ nets. AreMerged own.now marks.now others.now (length own.now) (length others.now) nets.items used.new.items) }
{
    let mut nets = Vec::with_capacity(alloc, own.len() + others.len())?;
    let mut places = Places { own: 0, other: 0 };
    for _ in 0..own.len() + others.len() {
        places = put_next(own, marks, others, places, &mut nets, used)?;
    }
    Ok(nets)
}

/// Puts the lesser of the next two nets behind those that are there, with whether it is used.
fn put_next(
    own: &[u32],
    marks: &[bool],
    others: &[u32],
    places: Places,
    nets: &mut Vec<u32>,
    used: &mut Vec<bool>,
) -> Result<Places, AllocError>
    requires apart { AreApart own.now marks.now others.now }
    requires merged { AreMerged own.now marks.now others.now places.own places.other nets.old.items used.old.items }
    requires more { places.own + places.other < length own.now + length others.now }
    ensures merged { IfOk result (λ next. AreMerged own.now marks.now others.now next.own next.other nets.new.items used.new.items) }
    ensures one { IfOk result (λ next. next.own + next.other ≡ places.own + places.other + 1) }
{
    if comes_first(own, places.own, others, places.other) {
        put(own[places.own], marks[places.own], nets, used)?;
        return Ok(Places {
            own: places.own + 1,
            other: places.other,
        });
    }
    put(others[places.other], true, nets, used)?;
    Ok(Places {
        own: places.own,
        other: places.other + 1,
    })
}

/// Whether the next of some numbers comes before the next of others.
fn comes_first(first: &[u32], at: usize, second: &[u32], other: usize) -> bool
    requires within { at ≤ length first.now }
    requires within_second { other ≤ length second.now }
    requires more { at + other < length first.now + length second.now }
    ensures first { IsTrue result → (at < length first.now) × (other < length second.now → get_or first.now at 0 < get_or second.now other 0) }
    ensures second { result ≡ false → (other < length second.now) × (at < length first.now → get_or second.now other 0 ≤ get_or first.now at 0) }
{
    if other == second.len() {
        return true;
    }
    if at == first.len() {
        return false;
    }
    first[at] < second[other]
}

/// Puts a net behind others, with its mark.
fn put(net: u32, mark: bool, nets: &mut Vec<u32>, used: &mut Vec<bool>) -> Result<(), AllocError>
    ensures nets { OnOk result (nets.new.items ≡ nets.old.items ++ net ∷ []) }
    ensures used { OnOk result (used.new.items ≡ used.old.items ++ mark ∷ []) }
{
    nets.push(net)?;
    used.push(mark)?;
    Ok(())
}
