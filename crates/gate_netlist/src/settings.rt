//! Reads a settings text: what it says, and why it is refused.
ghost use Rattle.std.specs.Prelude.{◌≡◌, MatchResult};
ghost use Rattle.toml.specs.View.{table_view};
ghost use Rattle.gate_netlist.specs.Settings.{IsDocument};
ghost use Rattle.gate_netlist.specs.Inner.Meaning.{IsRefusal};

mod causes;
mod flops;
mod members;
mod nets;
mod parts;
mod values;

use crate::fault::SettingsFault;
pub(crate) use causes::cause_of;
pub(crate) use flops::{clock_of_flop, initial_content, some_takes_clock};
pub(crate) use nets::{delays_of, greatest_block, owners_of};
pub(crate) use parts::{Parts, parts_of, with_clock};
use std::alloc::Global;
use toml::Table;
pub(crate) use values::{block_table, clock_name, text_at};

/// Reads the text as a document.
pub(crate) fn document(alloc: Global, text: &[u8]) -> Result<Table, SettingsFault>
    ensures { MatchResult result (λ table. IsDocument text.now (table_view table)) (IsRefusal text.now) }
{
    match toml::table_from_slice(alloc, text) {
        Ok(table) => Ok(table),
        Err(error) if error.is_memory() => Err(SettingsFault::Memory),
        Err(_) => Err(SettingsFault::Toml),
    }
}
