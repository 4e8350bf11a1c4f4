//! What the settings say of flip-flops: the clock of each, and what it begins with.
ghost use Rattle.std.specs.Prelude.{◌≡◌, codes, map, option_map, string_bytes};
ghost use Rattle.toml.specs.View.{table_view};
ghost use Rattle.gate_netlist.specs.Netlist.{any_net};
ghost use Rattle.gate_netlist.specs.Settings.{table_at, text_at, clock_of_flop, takes_clock, initial_content};

use super::members::any_net;
use super::values::{clock_name, content_at, table_at, text_at};
use crate::bench::Definition;
use gate_values::Logic;
use toml::Table;

/// The name of a flip-flop's clock: its own, else the one that `clock` gives.
pub(crate) fn clock_of_flop<'a>(table: &'a Table, flop: &str) -> &'a str
    ensures { result.now ≡ clock_of_flop (table_view table.now) flop.now }
{
    match own_clock(table, flop) {
        Some(name) => name,
        None => clock_name(table),
    }
}

/// The name that stands under a flip-flop's in `clocks`.
fn own_clock<'a>(table: &'a Table, flop: &str) -> Option<&'a str>
    ensures { option_map (λ name. name.now) result ≡ text_at flop.now (table_at (codes "clocks") (table_view table.now)) }
{
    match table_at(table, "clocks") {
        Some(clocks) => text_at(clocks, flop),
        None => None,
    }
}

/// What a flip-flop begins with: its own content, else unknown.
pub(crate) fn initial_content(table: &Table, flop: &str) -> Logic
    ensures { result ≡ initial_content (table_view table.now) flop.now }
{
    match table_at(table, "init") {
        Some(contents) => content_at(contents, flop).unwrap_or(Logic::X),
        None => Logic::X,
    }
}

/// Whether some flip-flop takes the clock that `clock` names.
pub(crate) fn some_takes_clock(table: &Table, names: &[String], definitions: &[Definition]) -> bool
    ensures { result ≡ any_net (takes_clock (table_view table.now)) (map string_bytes names.now) definitions.now }
{
    any_net(
        names,
        definitions,
        |name, definition| takes_clock(table, name, definition),
    )
}

fn takes_clock(table: &Table, name: &str, definition: &Definition) -> bool
    ensures { result ≡ takes_clock (table_view table.now) name.now definition.now }
{
    match definition {
        Definition::Flop { .. } => clock_of_flop(table, name) == clock_name(table),
        _ => false,
    }
}
