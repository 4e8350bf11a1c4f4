ghost use Rattle.std.specs.Prelude.{◌≡◌, ◌<◌, ◌≤◌, ◌+◌, ◌++◌, ℕ, [], IfOk, OnOk, length, map};
ghost use Rattle.std.specs.List.{All};
ghost use Rattle.std.specs.List.Sorted.{IsStrictlyIncreasing};
ghost use Rattle.gate_netlist.specs.Circuit.{nets_of};
ghost use Rattle.warp_part.specs.PartOf.{part_nets, part_readers};
ghost use Rattle.warp_part.specs.Shown.Part.{stretch};
ghost use Rattle.warp_part.specs.Inner.Building.{has, is_other_owner};

use super::build::is_own;
use super::slots::settle;
use crate::cell::Span;
use gate_netlist::{Circuit, Cut};
use std::alloc::{AllocError, Global};

/// For each net the other blocks that read it, which only an own net has, as a stretch of one list.
pub(super) fn readers_of(
    alloc: Global,
    circuit: &Circuit,
    cut: &Cut,
    block: u32,
    nets: &[u32],
    all: &mut Vec<u32>,
) -> Result<Vec<Span>, AllocError>
    requires nets { nets.now ≡ part_nets circuit.now cut.now block }
    requires empty { all.old.items ≡ [] }
    ensures readers { IfOk result (λ spans. map (stretch all.new.items) spans.items ≡ map (part_readers circuit.now cut.now block) nets.now) }
    ensures within { IfOk result (λ spans. All (λ span. span.start + span.count ≤ length all.new.items) spans.items) }
{
    let mut spans = Vec::with_capacity(alloc, nets.len())?;
    let mut readers = Vec::new(alloc);
    for net in nets {
        find_readers(circuit, cut, block, *net, &mut readers)?;
        let span = put_behind(&readers, all)?;
        spans.push(span)?;
    }
    Ok(spans)
}

/// The other blocks that read a net, in place of those of another.
fn find_readers(
    circuit: &Circuit,
    cut: &Cut,
    block: u32,
    net: u32,
    readers: &mut Vec<u32>,
) -> Result<(), AllocError>
    requires { net < nets_of circuit.now }
    ensures { OnOk result (readers.new.items ≡ part_readers circuit.now cut.now block net) }
{
    cut.law();
    readers.clear();
    if is_own(cut, block, net) {
        add_owners(circuit.readers(net), cut, block, readers)?;
        return Ok(());
    }
    Ok(())
}

/// Puts the other blocks that own some gates into an empty list, in ascending order, each once.
fn add_owners(gates: &[u32], cut: &Cut, block: u32, list: &mut Vec<u32>) -> Result<(), AllocError>
    requires { list.old.items ≡ [] }
    ensures rising { OnOk result (IsStrictlyIncreasing list.new.items) }
    ensures owners { OnOk result ((c : ℕ) → has list.new.items c ≡ is_other_owner cut.now block gates.now c) }
{
    for gate in gates {
        let Some(reader) = cut.owner(*gate) else {
            continue;
        };
        if reader == block {
            continue;
        }
        list.push(reader)?;
    }
    settle(list);
    Ok(())
}

/// Puts a list behind others, and says where it stands.
fn put_behind(list: &[u32], all: &mut Vec<u32>) -> Result<Span, AllocError>
    ensures span { IfOk result (λ span. (span.start ≡ length all.old.items) × (span.count ≡ length list.now)) }
    ensures all { OnOk result (all.new.items ≡ all.old.items ++ list.now) }
{
    let span = Span::new(all.len(), list.len())?;
    all.extend_from_slice(list)?;
    Ok(span)
}
