ghost use Rattle.std.specs.Prelude.{◌≡◌, map, string_bytes, IfOk, unwrap_or};
ghost use Rattle.toml.specs.View.{table_view};
ghost use Rattle.gate_netlist.specs.Settings.{delay_at, default_delay, net_block, greatest_block};
ghost use Rattle.gate_netlist.specs.Inner.Kinds.{kind_delays, delay_of_kind, members_in, delay_among};
ghost use Rattle.gate_netlist.specs.Meaning.{delays_of, owners_of};

use super::values::{block_at, block_of, delay_at, table_at};
use crate::bench::Definition;
use crate::statement::FLOP_WORD;
use gate_values::Kind;
use std::alloc::{AllocError, Global};
use toml::Table;

/// The delay of each kind of net that isn't an input.
#[derive(Drop)]
pub(super) struct KindDelays {
    and: u32,
    nand: u32,
    or: u32,
    nor: u32,
    xor: u32,
    xnor: u32,
    not: u32,
    buff: u32,
    dff: u32,
}

/// The delays of the nets: that of the net's name, else that of its kind, else the default.
pub(crate) fn delays_of(
    alloc: Global,
    table: &Table,
    names: &[String],
    definitions: &[Definition],
) -> Result<Vec<u32>, AllocError>
    ensures { IfOk result (λ delays. delays.items ≡ delays_of (table_view table.now) (map string_bytes names.now) definitions.now) }
{
    let kinds = kind_delays(table);
    let nets = table_at(table, "net");
    names
        .iter()
        .zip(definitions)
        .map(|(name, definition)| net_delay(nets, &kinds, name.as_str(), definition))
        .collect(alloc)
}

/// The delay of a net; 0 of an input.
fn net_delay(nets: Option<&Table>, kinds: &KindDelays, name: &str, definition: &Definition) -> u32
    ensures { result ≡ delay_among (members_in nets.entry) kinds.now name.now definition.now }
{
    match definition {
        Definition::Input => 0,
        Definition::Gate { kind, .. } => own_delay(nets, name, delay_of_kind(kinds, *kind)),
        Definition::Flop { .. } => own_delay(nets, name, kinds.dff),
    }
}

/// The delay that stands under the net's name, else the other one.
fn own_delay(nets: Option<&Table>, name: &str, other: u32) -> u32
    ensures { result ≡ unwrap_or (delay_at name.now (members_in nets.entry)) other }
{
    match nets {
        Some(nets) => delay_at(nets, name).unwrap_or(other),
        None => other,
    }
}

fn delay_of_kind(kinds: &KindDelays, kind: Kind) -> u32
    ensures { result ≡ delay_of_kind kinds.now kind }
{
    match kind {
        Kind::And => kinds.and,
        Kind::Nand => kinds.nand,
        Kind::Or => kinds.or,
        Kind::Nor => kinds.nor,
        Kind::Xor => kinds.xor,
        Kind::Xnor => kinds.xnor,
        Kind::Not => kinds.not,
        Kind::Buff => kinds.buff,
    }
}

/// The delays of the kinds: each one's own, else the default.
fn kind_delays(table: &Table) -> KindDelays
    ensures { result ≡ kind_delays (table_view table.now) }
{
    let default = default_delay(table);
    let gates = table_at(table, "gate");
    KindDelays {
        and: own_delay(gates, Kind::And.word(), default),
        nand: own_delay(gates, Kind::Nand.word(), default),
        or: own_delay(gates, Kind::Or.word(), default),
        nor: own_delay(gates, Kind::Nor.word(), default),
        xor: own_delay(gates, Kind::Xor.word(), default),
        xnor: own_delay(gates, Kind::Xnor.word(), default),
        not: own_delay(gates, Kind::Not.word(), default),
        buff: own_delay(gates, Kind::Buff.word(), default),
        dff: own_delay(gates, FLOP_WORD, default),
    }
}

fn default_delay(table: &Table) -> u32
    ensures { result ≡ default_delay (table_view table.now) }
{
    delay_at(table, "default").unwrap_or(1)
}

/// The owners of the nets: the block of the net's name, else block 0.
pub(crate) fn owners_of(
    alloc: Global,
    blocks: &Table,
    names: &[String],
    definitions: &[Definition],
) -> Result<Vec<Option<u32>>, AllocError>
    ensures { IfOk result (λ owners. owners.items ≡ owners_of (table_view blocks.now) (map string_bytes names.now) definitions.now) }
{
    names
        .iter()
        .zip(definitions)
        .map(|(name, definition)| net_block(blocks, name.as_str(), definition))
        .collect(alloc)
}

/// The block of a net; none of an input.
fn net_block(blocks: &Table, name: &str, definition: &Definition) -> Option<u32>
    ensures { result ≡ net_block (table_view blocks.now) name.now definition.now }
{
    match definition {
        Definition::Input => None,
        _ => Some(block_at(blocks, name).unwrap_or(0)),
    }
}

/// The greatest block given, 0 where none is.
pub(crate) fn greatest_block(blocks: &Table) -> u32
    ensures { result ≡ greatest_block (table_view blocks.now) }
{
    blocks.values().fold(0, |greatest, value| {
        greatest.max(block_of(value).unwrap_or(0))
    })
}
