ghost use Rattle.std.specs.Prelude.{◌≡◌, ◌<◌, ℕ, IsTrue, is_some, length};
ghost use Rattle.std.specs.List.Sorted.{IsStrictlyIncreasing};
ghost use Rattle.warp_part.specs.Portion.{slot_of};
ghost use Rattle.warp_part.specs.Inner.Building.{has};
ghost use Rattle.warp_part.specs.Shown.Building.{place_of};

use crate::cell::Cell;
use std::alloc::{AllocError, Global};

/// Where a net stands among others if these are one stretch of numbers: the one in the middle says where it begins.
fn guess_of(nets: &[u32], net: u32) -> usize {
    let middle = nets.len() / 2;
    match nets.get(middle) {
        Some(there) => (middle + net as usize).saturating_sub(*there as usize),
        None => 0,
    }
}

/// The place of a net among others, which ascend.
pub(super) fn slot_in(nets: &[u32], net: u32) -> Option<usize>
    requires { IsStrictlyIncreasing nets.now }
    ensures { result ≡ slot_of nets.now net }
{
    let guess = guess_of(nets, net);
    if guess < nets.len() && nets[guess] == net {
        return Some(guess);
    }
    match nets.binary_search(&net) {
        Ok(slot) => Some(slot),
        Err(_) => None,
    }
}

/// Where nets of other blocks may stand among the nets of a block, by the last bits of their numbers: where two have the
/// same bits, the last one's place.
pub(super) fn index_of(
    alloc: Global,
    nets: &[u32],
    cells: &[Cell],
) -> Result<Vec<u32>, AllocError> {
    let mut index = Vec::from_elem(alloc, 0, index_len(cells))?;
    let last = index.len().saturating_sub(1);
    for (slot, (net, cell)) in nets.iter().zip(cells).enumerate() {
        if !matches!(cell, Cell::Foreign) {
            continue;
        }
        if let (Some(place), Ok(slot)) = (
            index.get_mut(*net as usize & last),
            u32::try_from(slot),
        ) {
            *place = slot;
        }
    }
    Ok(index)
}

/// The least power of two that is at least twice the number of nets of other blocks.
fn index_len(cells: &[Cell]) -> usize {
    let foreign = cells
        .iter()
        .filter(|cell| matches!(cell, Cell::Foreign))
        .count();
    foreign
        .saturating_mul(2)
        .checked_next_power_of_two()
        .unwrap_or(1)
}

/// Where a net of another block may stand, as an index says.
fn guess_through(index: &[u32], net: u32) -> usize {
    let last = index.len().saturating_sub(1);
    match index.get(net as usize & last) {
        Some(there) => *there as usize,
        None => 0,
    }
}

/// The place of a net among others, which ascend: where an index says that it may stand, or else by a search.
pub(super) fn slot_through(index: &[u32], nets: &[u32], net: u32) -> Option<usize>
    requires { IsStrictlyIncreasing nets.now }
    ensures { result ≡ slot_of nets.now net }
{
    let guess = guess_through(index, net);
    if guess < nets.len() && nets[guess] == net {
        return Some(guess);
    }
    slot_in(nets, net)
}

/// The place of a net that is among others.
pub(super) fn place_in(nets: &[u32], net: u32) -> u32
    requires up { IsStrictlyIncreasing nets.now }
    requires few { length nets.now < 4294967296 }
    requires there { IsTrue (is_some (slot_of nets.now net)) }
    ensures { result ≡ place_of nets.now net }
{
    match slot_in(nets, net) {
        Some(slot) => slot as u32,
        None => unreachable!(),
    }
}

/// Puts some numbers into ascending order, each once.
pub(super) fn settle(numbers: &mut Vec<u32>)
    ensures rising { IsStrictlyIncreasing numbers.new.items }
    ensures same { (n : ℕ) → has numbers.new.items n ≡ has numbers.old.items n }
{
    numbers.sort_unstable();
    numbers.dedup();
}
