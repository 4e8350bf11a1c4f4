ghost use Rattle.std.specs.Prelude.{◌≡◌, ◌&&◌, codes, not, is_none};
ghost use Rattle.std.specs.Prelude.{false};
ghost use Rattle.std.specs.Option.{option_map_or};
ghost use Rattle.std.specs.List.{list_all};
ghost use Rattle.std.specs.Str.{bytes_eq};
ghost use Rattle.toml.specs.Data.{get_member, as_str};
ghost use Rattle.toml.specs.View.{view, table_view};
ghost use Rattle.gate_netlist.specs.Settings.{as_delay, table_at, clock_name};
ghost use Rattle.gate_netlist.specs.Netlist.{any_net};
ghost use Rattle.gate_netlist.specs.Symbols.{is_letter};
ghost use Rattle.gate_netlist.specs.Causes.{is_input_line, is_flop_line, is_driven_name, is_flop_name, any_member, is_unknown_top, is_gate_key, has_unknown_key, has_unknown_net, is_bad_delay, has_bad_delay, is_name, is_missing_clock, lacks_clock, has_bad_clock, has_bad_init, has_bad_block, cause_of};

use super::flops::clock_of_flop;
use super::members::{any_member, any_member_at, any_net};
use super::values::{block_of, clock_name, content_of, delay_of, value_at};
use crate::bench::{Bench, Definition};
use crate::fault::SettingsFault;
use crate::statement::FLOP_WORD;
use crate::token::is_letter;
use gate_values::Kind;
use toml::{Table, Value};

/// The least cause for which the document is refused.
#[tactic(auto, unfolding(crate::specs::Causes::cause_of))]
pub(crate) fn cause_of(bench: &Bench, table: &Table) -> Option<SettingsFault>
    ensures { result ≡ cause_of bench.now (table_view table.now) }
{
    if has_unknown_key(table) {
        Some(SettingsFault::UnknownKey)
    } else if has_unknown_net(bench, table) {
        Some(SettingsFault::UnknownNet)
    } else if has_bad_delay(table) {
        Some(SettingsFault::BadDelay)
    } else if has_bad_block(table) {
        Some(SettingsFault::BadCut)
    } else if has_bad_clock(bench, table) {
        Some(SettingsFault::BadClock)
    } else if has_bad_init(table) {
        Some(SettingsFault::BadInit)
    } else {
        None
    }
}

/// Whether a top key isn't listed or has a value of another type, or `gate` has a key that isn't listed.
fn has_unknown_key(table: &Table) -> bool
    ensures { result ≡ has_unknown_key (table_view table.now) }
{
    any_member(table, |key, value| is_unknown_top(key, value))
        || any_member_at(table, "gate", |key, _| !is_gate_key(key))
}

fn is_unknown_top(key: &str, value: &Value) -> bool
    ensures { result ≡ is_unknown_top key.now (view value.now) }
{
    match key {
        "default" => false,
        "clock" | "scope" => !value.is_str(),
        "gate" | "net" | "block" | "clocks" | "init" => !value.is_table(),
        _ => true,
    }
}

fn is_gate_key(key: &str) -> bool
    ensures { result ≡ is_gate_key key.now }
{
    key == Kind::And.word()
        || key == Kind::Nand.word()
        || key == Kind::Or.word()
        || key == Kind::Nor.word()
        || key == Kind::Xor.word()
        || key == Kind::Xnor.word()
        || key == Kind::Not.word()
        || key == Kind::Buff.word()
        || key == FLOP_WORD
}

/// Whether a key of `net` or `block` names no net, or an input, or one of `clocks` or `init` names no flip-flop.
fn has_unknown_net(bench: &Bench, table: &Table) -> bool
    ensures { result ≡ has_unknown_net bench.now (table_view table.now) }
{
    has_unknown_net_at(bench, table, "net")
        || has_unknown_net_at(bench, table, "block")
        || has_unknown_flop_at(bench, table, "clocks")
        || has_unknown_flop_at(bench, table, "init")
}

fn has_unknown_net_at(bench: &Bench, table: &Table, key: &str) -> bool
    ensures { result ≡ any_member (λ k d. not (is_driven_name bench.now k)) (table_at key.now (table_view table.now)) }
{
    any_member_at(table, key, |name, _| !is_driven(bench, name))
}

fn has_unknown_flop_at(bench: &Bench, table: &Table, key: &str) -> bool
    ensures { result ≡ any_member (λ k d. not (is_flop_name bench.now k)) (table_at key.now (table_view table.now)) }
{
    any_member_at(table, key, |name, _| !is_flop_name(bench, name))
}

/// Whether the name is that of a flip-flop.
fn is_flop_name(bench: &Bench, name: &str) -> bool
    ensures { result ≡ is_flop_name bench.now name.now }
{
    match bench.names.get_index_of(name) {
        Some(net) => is_flop_line(&bench.definitions[net]),
        None => false,
    }
}

fn is_flop_line(definition: &Definition) -> bool
    ensures { result ≡ is_flop_line definition.now }
{
    matches!(definition, Definition::Flop { .. })
}

/// Whether the name is that of a net that isn't an input.
fn is_driven(bench: &Bench, name: &str) -> bool
    ensures { result ≡ is_driven_name bench.now name.now }
{
    match bench.names.get_index_of(name) {
        Some(net) => !is_input_line(&bench.definitions[net]),
        None => false,
    }
}

fn is_input_line(definition: &Definition) -> bool
    ensures { result ≡ is_input_line definition.now }
{
    matches!(definition, Definition::Input)
}

/// Whether a delay of the document is none.
fn has_bad_delay(table: &Table) -> bool
    ensures { result ≡ has_bad_delay (table_view table.now) }
{
    has_bad_default(table) || has_bad_delay_at(table, "gate") || has_bad_delay_at(table, "net")
}

fn has_bad_default(table: &Table) -> bool
    ensures { result ≡ option_map_or (λ d. is_none (as_delay d)) (get_member (codes "default") (table_view table.now)) false }
{
    match value_at(table, "default") {
        Some(value) => delay_of(value).is_none(),
        None => false,
    }
}

fn has_bad_delay_at(table: &Table, key: &str) -> bool
    ensures { result ≡ any_member is_bad_delay (table_at key.now (table_view table.now)) }
{
    any_member_at(table, key, |_, value| delay_of(value).is_none())
}

/// Whether a value of `clocks` is no text, or a flip-flop's clock is missing.
fn has_bad_clock(bench: &Bench, table: &Table) -> bool
    ensures { result ≡ has_bad_clock bench.now (table_view table.now) }
{
    has_clock_without_text(table) || some_lacks_clock(bench, table)
}

fn has_clock_without_text(table: &Table) -> bool
    ensures { result ≡ any_member (λ k d. is_none (as_str d)) (table_at (codes "clocks") (table_view table.now)) }
{
    any_member_at(table, "clocks", |_, value| !value.is_str())
}

/// Whether the clock of some flip-flop is missing.
fn some_lacks_clock(bench: &Bench, table: &Table) -> bool
    ensures { result ≡ any_net (lacks_clock bench.now (table_view table.now)) bench.now.names bench.now.definitions }
{
    any_net(
        bench.names.as_slice(),
        bench.definitions.as_slice(),
        |name, definition| lacks_clock(bench, table, name, definition),
    )
}

fn lacks_clock(bench: &Bench, table: &Table, name: &str, definition: &Definition) -> bool
    ensures { result ≡ lacks_clock bench.now (table_view table.now) name.now definition.now }
{
    match definition {
        Definition::Flop { .. } => is_missing_clock(bench, table, clock_of_flop(table, name)),
        _ => false,
    }
}

/// Whether no net has a clock's name, and no input of it can be added.
fn is_missing_clock(bench: &Bench, table: &Table, name: &str) -> bool
    ensures { result ≡ is_missing_clock bench.now (table_view table.now) name.now }
{
    match bench.names.get_index_of(name) {
        Some(_) => false,
        None => !may_be_added(table, name),
    }
}

/// Whether an input of this name may be added: it is the one that `clock` gives, and a name.
fn may_be_added(table: &Table, name: &str) -> bool
    ensures { result ≡ (bytes_eq name.now (clock_name (table_view table.now)) && is_name name.now) }
{
    name == clock_name(table) && is_name(name.as_bytes())
}

/// Whether a value of `init` is no content.
fn has_bad_init(table: &Table) -> bool
    ensures { result ≡ has_bad_init (table_view table.now) }
{
    any_member_at(table, "init", |_, value| content_of(value).is_none())
}

/// Whether the bytes may name a net in a bench text.
fn is_name(bytes: &[u8]) -> bool
    ensures { result ≡ is_name bytes.now }
{
    !bytes.is_empty() && all_are_letters(bytes) && bytes != b"$end".as_slice()
}

fn all_are_letters(bytes: &[u8]) -> bool
    ensures { result ≡ list_all is_letter bytes.now }
{
    bytes.iter().all(|byte| is_letter(*byte))
}

/// Whether a block number of the document is none.
fn has_bad_block(table: &Table) -> bool
    ensures { result ≡ has_bad_block (table_view table.now) }
{
    any_member_at(table, "block", |_, value| block_of(value).is_none())
}
