ghost use Rattle.std.specs.Prelude.{◌≡◌, ◌<◌, ◌||◌, ◌==◌, ℕ, [], IsTrue, false, IfOk, OnOk, is_some, length, map, replicate};
ghost use Rattle.std.specs.List.Sorted.{IsStrictlyIncreasing};
ghost use Rattle.gate_netlist.specs.Circuit.{CutFits};
ghost use Rattle.gate_netlist.specs.Cut.{own_nets};
ghost use Rattle.warp_part.specs.Portion.{slot_of, of_net};
ghost use Rattle.warp_part.specs.PartOf.{is_used_by, part_nets};
ghost use Rattle.warp_part.specs.Inner.Building.{driver_uses, has};
ghost use Rattle.warp_part.specs.Inner.Uses.{noted, AreNotes};

use super::build::is_own;
use super::merge::merged;
use super::slots::{settle, slot_in};
use gate_netlist::{Circuit, Cut, Driver};
use std::alloc::{AllocError, Global};

/// The nets that the block owns and those that its gates use, in ascending order, and for each whether a gate uses it.
pub(super) fn nets_of(
    alloc: Global,
    circuit: &Circuit,
    cut: &Cut,
    block: u32,
    used: &mut Vec<bool>,
) -> Result<Vec<u32>, AllocError>
    requires fits { CutFits circuit.now cut.now }
    requires block { block < cut.now.blocks }
    requires empty { used.old.items ≡ [] }
    ensures nets { IfOk result (λ nets. nets.items ≡ part_nets circuit.now cut.now block) }
    ensures used { IfOk result (λ nets. used.new.items ≡ map (is_used_by circuit.now cut.now block) nets.items) }
{
    circuit.law();
    let own = cut.own_nets(block);
    let mut marks = vec![in alloc; false; own.len()]?;
    let others = uses_of(alloc, circuit, cut, block, own, &mut marks)?;
    let nets = merged(alloc, own, &marks, &others, used)?;
    Ok(nets)
}

/// Marks the own nets that gates of the block use, and lists the other nets that they use.
fn uses_of(
    alloc: Global,
    circuit: &Circuit,
    cut: &Cut,
    block: u32,
    own: &[u32],
    marks: &mut Vec<bool>,
) -> Result<Vec<u32>, AllocError>
    requires fits { CutFits circuit.now cut.now }
    requires own { own.now ≡ own_nets cut.now block }
    requires marks { marks.old.items ≡ replicate (length own.now) false }
    ensures rising { IfOk result (λ others. IsStrictlyIncreasing others.items) }
    ensures lawful { IfOk result (λ others. AreNotes cut.now block own.now marks.new.items others.items) }
    ensures noted { IfOk result (λ others. (n : ℕ) → noted own.now marks.new.items others.items n ≡ is_used_by circuit.now cut.now block n) }
{
    let mut others = Vec::new(alloc);
    for net in own {
        note_driver(cut, block, own, circuit.driver(*net), marks, &mut others)?;
    }
    settle(&mut others);
    Ok(others)
}

/// Notes the nets that a driver uses.
fn note_driver(
    cut: &Cut,
    block: u32,
    own: &[u32],
    driver: &Driver,
    marks: &mut Vec<bool>,
    others: &mut Vec<u32>,
) -> Result<(), AllocError>
    requires own { own.now ≡ own_nets cut.now block }
    requires lawful { AreNotes cut.now block own.now marks.old.items others.old.items }
    ensures lawful { OnOk result (AreNotes cut.now block own.now marks.new.items others.new.items) }
    ensures noted { OnOk result ((n : ℕ) → noted own.now marks.new.items others.new.items n ≡ (noted own.now marks.old.items others.old.items n || has (driver_uses driver.now) n)) }
{
    match driver {
        Driver::Input => note_all(cut, block, own, &[], marks, others),
        Driver::Gate { inputs, .. } => note_all(cut, block, own, inputs.as_slice(), marks, others),
        Driver::Flop { d, clock, .. } => note_all(cut, block, own, &[*d, *clock], marks, others),
    }
}

/// Notes some nets.
fn note_all(
    cut: &Cut,
    block: u32,
    own: &[u32],
    nets: &[u32],
    marks: &mut Vec<bool>,
    others: &mut Vec<u32>,
) -> Result<(), AllocError>
    requires own { own.now ≡ own_nets cut.now block }
    requires lawful { AreNotes cut.now block own.now marks.old.items others.old.items }
    ensures lawful { OnOk result (AreNotes cut.now block own.now marks.new.items others.new.items) }
    ensures noted { OnOk result ((n : ℕ) → noted own.now marks.new.items others.new.items n ≡ (noted own.now marks.old.items others.old.items n || has nets.now n)) }
{
    for net in nets {
        note(cut, block, own, *net, marks, others)?;
    }
    Ok(())
}

/// Notes a net: by a mark at its place among the own nets, or in the list of the others.
fn note(
    cut: &Cut,
    block: u32,
    own: &[u32],
    net: u32,
    marks: &mut Vec<bool>,
    others: &mut Vec<u32>,
) -> Result<(), AllocError>
    requires own { own.now ≡ own_nets cut.now block }
    requires lawful { AreNotes cut.now block own.now marks.old.items others.old.items }
    ensures lawful { OnOk result (AreNotes cut.now block own.now marks.new.items others.new.items) }
    ensures noted { OnOk result ((n : ℕ) → noted own.now marks.new.items others.new.items n ≡ (noted own.now marks.old.items others.old.items n || (net == n))) }
{
    if is_own(cut, block, net) {
        mark(own, net, marks);
        return Ok(());
    }
    others.push(net)?;
    Ok(())
}

/// Marks a net at its place among others.
fn mark(nets: &[u32], net: u32, marks: &mut Vec<bool>)
    requires up { IsStrictlyIncreasing nets.now }
    requires there { IsTrue (is_some (slot_of nets.now net)) }
    requires many { length marks.old.items ≡ length nets.now }
    ensures many { length marks.new.items ≡ length nets.now }
    ensures marked { (n : ℕ) → of_net nets.now marks.new.items false n ≡ (of_net nets.now marks.old.items false n || (net == n)) }
{
    let Some(place) = slot_in(nets, net) else {
        unreachable!();
    };
    marks[place] = true;
}
