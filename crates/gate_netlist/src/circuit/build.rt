ghost use Rattle.std.specs.Prelude.{◌≡◌, ◌<◌, ◌≤◌, ◌++◌, ◌∷◌, [], IfOk, None, length, map, string_bytes, codes, option_map, option_and_then};
ghost use Rattle.toml.specs.Data.{get_member, as_table};
ghost use Rattle.toml.specs.View.{table_view};
ghost use Rattle.gate_netlist.specs.Netlist.{place_of};
ghost use Rattle.gate_netlist.specs.Settings.{text_at};
ghost use Rattle.gate_netlist.specs.Causes.{cause_of};
ghost use Rattle.gate_netlist.specs.Inner.Clocked.{HasClocks};
ghost use Rattle.gate_netlist.specs.HeldParts.{parts_netlist};
ghost use Rattle.gate_netlist.specs.Meaning.{clock_among, delays_of, driver_by, drivers_of, cut_of, clocked_circuit, circuit_of};

use super::Circuit;
use super::readers::readers_of;
use crate::bench::{Bench, Definition, Names};
use crate::cut::Cut;
use crate::driver::Driver;
use crate::settings::{
    Parts, block_table, clock_name, clock_of_flop, delays_of, greatest_block, initial_content,
    owners_of, parts_of, some_takes_clock, text_at, with_clock,
};
use std::alloc::{AllocError, Global};
use toml::Table;

/// The delays of a bench's nets by a settings document.
pub(super) fn bench_delays(
    alloc: Global,
    bench: &Bench,
    table: &Table,
) -> Result<Vec<u32>, AllocError>
    ensures { IfOk result (λ delays. delays.items ≡ delays_of (table_view table.now) bench.now.names bench.now.definitions) }
{
    delays_of(
        alloc,
        table,
        bench.names.as_slice(),
        bench.definitions.as_slice(),
    )
}

/// The circuit of a bench and a settings document that no cause speaks against, and of the delays of the bench's nets.
#[tactic(auto, unfolding(crate::specs::Meaning::circuit_of))]
pub(super) fn build(
    alloc: Global,
    bench: Bench,
    table: &Table,
    delays: Vec<u32>,
) -> Result<Circuit, AllocError>
    requires cause { cause_of bench (table_view table.now) ≡ None }
    requires delays { delays.items ≡ delays_of (table_view table.now) bench.names bench.definitions }
    ensures { IfOk result (λ circuit. circuit ≡ circuit_of bench (table_view table.now)) }
{
    let parts = parts_of(bench);
    let clocked = with_clock(alloc, parts, table)?;
    let delays = with_last(delays, clocked.names.len())?;
    circuit_of_parts(alloc, clocked, table, delays)
}

/// The delays of so many nets, of which the last may be an input that has been added.
fn with_last(mut delays: Vec<u32>, nets: usize) -> Result<Vec<u32>, AllocError>
    ensures same { IfOk result (λ more. nets ≤ length delays.items → more.items ≡ delays.items) }
    ensures added { IfOk result (λ more. length delays.items < nets → more.items ≡ delays.items ++ 0 ∷ []) }
{
    if delays.len() < nets {
        delays.push(0)?;
    }
    Ok(delays)
}

/// The circuit of a netlist that has its flip-flops' clocks, and of its nets' delays.
fn circuit_of_parts(
    alloc: Global,
    parts: Parts,
    table: &Table,
    delays: Vec<u32>,
) -> Result<Circuit, AllocError>
    requires clocks { HasClocks (table_view table.now) (parts_netlist parts) }
    requires delays { delays.items ≡ delays_of (table_view table.now) (parts_netlist parts).names (parts_netlist parts).definitions }
    ensures { IfOk result (λ circuit. circuit ≡ clocked_circuit (table_view table.now) (parts_netlist parts)) }
{
    let Parts {
        names,
        definitions,
        outputs,
    } = parts;
    let cut = cut_of(alloc, table, names.as_slice(), definitions.as_slice())?;
    let scope = scope_of(alloc, table)?;
    let clock = clock_of(table, &names, definitions.as_slice());
    let drivers = drivers_of(alloc, table, &names, definitions)?;
    let readers = readers_of(alloc, drivers.as_slice())?;
    Ok(Circuit {
        names,
        drivers,
        delays,
        readers,
        outputs,
        clock,
        scope,
        cut,
    })
}

/// The net of a name.
fn net_named(names: &Names, name: &str) -> Option<u32>
    requires { length names.now.keys ≤ 1000000 }
    ensures { result ≡ place_of (map string_bytes names.now.keys) name.now }
{
    match names.get_index_of(name) {
        Some(net) => Some(net as u32),
        None => None,
    }
}

/// The clock that `clock` names, where some flip-flop takes it.
fn clock_of(table: &Table, names: &Names, definitions: &[Definition]) -> Option<u32>
    requires { length names.now.keys ≤ 1000000 }
    ensures { result ≡ clock_among (table_view table.now) (map string_bytes names.now.keys) definitions.now }
{
    if some_takes_clock(table, names.as_slice(), definitions) {
        net_named(names, clock_name(table))
    } else {
        None
    }
}

/// What sets each net, by its definition and the settings.
fn drivers_of(
    alloc: Global,
    table: &Table,
    names: &Names,
    definitions: Vec<Definition>,
) -> Result<Vec<Driver>, AllocError>
    requires { length names.now.keys ≤ 1000000 }
    ensures { IfOk result (λ drivers. drivers.items ≡ drivers_of (table_view table.now) (map string_bytes names.now.keys) definitions.items) }
{
    names
        .as_slice()
        .iter()
        .zip(definitions)
        .map(|(name, definition)| driver_by(table, names, name.as_str(), definition))
        .collect(alloc)
}

fn driver_by(table: &Table, names: &Names, name: &str, definition: Definition) -> Driver
    requires { length names.now.keys ≤ 1000000 }
    ensures { result ≡ driver_by (table_view table.now) (map string_bytes names.now.keys) name.now definition }
{
    match definition {
        Definition::Input => Driver::Input,
        Definition::Gate { kind, inputs } => Driver::Gate { kind, inputs },
        Definition::Flop { d } => Driver::Flop {
            d,
            clock: net_named(names, clock_of_flop(table, name)).unwrap_or(0),
            init: initial_content(table, name),
        },
    }
}

/// The scope that the document names.
fn scope_of(alloc: Global, table: &Table) -> Result<Option<String>, AllocError>
    ensures { IfOk result (λ scope. option_map string_bytes scope ≡ text_at (codes "scope") (table_view table.now)) }
{
    match text_at(table, "scope") {
        Some(scope) => Ok(Some(String::from_str(alloc, scope)?)),
        None => Ok(None),
    }
}

/// The cut that the document gives.
fn cut_of(
    alloc: Global,
    table: &Table,
    names: &[String],
    definitions: &[Definition],
) -> Result<Option<Cut>, AllocError>
    requires many { length definitions.now ≡ length names.now }
    requires within { length names.now ≤ 1000000 }
    ensures { IfOk result (λ cut. cut ≡ option_map (λ blocks. cut_of blocks (map string_bytes names.now) definitions.now) (option_and_then as_table (get_member (codes "block") (table_view table.now)))) }
{
    match block_table(table) {
        Some(given) => {
            let owners = owners_of(alloc, given, names, definitions)?;
            let cut = Cut::new(alloc, owners, greatest_block(given) + 1)?;
            Ok(Some(cut))
        }
        None => Ok(None),
    }
}
