ghost use Rattle.std.specs.Prelude.{◌≡◌, IfOk, false, string_bytes};
ghost use Rattle.std.specs.List.{list_any};
ghost use Rattle.std.specs.Str.{bytes_eq};
ghost use Rattle.toml.specs.View.{table_view};
ghost use Rattle.gate_netlist.specs.Inner.Netlist.{IsNetlist};
ghost use Rattle.gate_netlist.specs.HeldParts.{parts_netlist};
ghost use Rattle.gate_netlist.specs.Meaning.{with_input, with_clock};

use super::flops::some_takes_clock;
use super::values::clock_name;
use crate::bench::{Bench, Definition, Names};
use std::alloc::{AllocError, Global};
use toml::Table;

/// The parts of a bench, to which a clock may be added.
#[derive(Drop)]
pub(crate) struct Parts {
    pub(crate) names: Names,
    pub(crate) definitions: Vec<Definition>,
    pub(crate) outputs: Vec<u32>,
}

/// Takes a bench apart.
pub(crate) fn parts_of(bench: Bench) -> Parts
    ensures same { parts_netlist result ≡ bench }
    ensures law { IsNetlist bench }
{
    let Bench {
        names,
        definitions,
        outputs,
    } = bench;
    Parts {
        names,
        definitions,
        outputs,
    }
}

/// The parts with the clock that `clock` names among the nets: where a flip-flop takes it and no net has the name, an
/// input of that name is added as the last net.
pub(crate) fn with_clock(alloc: Global, parts: Parts, table: &Table) -> Result<Parts, AllocError>
    ensures { IfOk result (λ more. parts_netlist more ≡ with_clock (table_view table.now) (parts_netlist parts)) }
{
    if !some_takes_clock(table, parts.names.as_slice(), parts.definitions.as_slice()) {
        return Ok(parts);
    }
    let name = clock_name(table);
    match parts.names.get_index_of(name) {
        Some(_) => Ok(parts),
        None => add_input(alloc, parts, name),
    }
}

/// The parts with an input of a new name as the last net.
fn add_input(alloc: Global, parts: Parts, name: &str) -> Result<Parts, AllocError>
    requires { list_any (λ key. bytes_eq name.now (string_bytes key)) parts.names.keys ≡ false }
    ensures { IfOk result (λ more. parts_netlist more ≡ with_input name.now (parts_netlist parts)) }
{
    let Parts {
        mut names,
        mut definitions,
        outputs,
    } = parts;
    let key = String::from_str(alloc, name)?;
    names.insert(key)?;
    definitions.push(Definition::Input)?;
    Ok(Parts {
        names,
        definitions,
        outputs,
    })
}
