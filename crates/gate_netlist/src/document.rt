ghost use Rattle.std.specs.Prelude.{◌≡◌};
ghost use Rattle.toml.specs.View.{table_view};
ghost use Rattle.gate_netlist.specs.Meaning.{members_of, IsRead};

use crate::fault::SettingsFault;
use crate::settings;
use std::alloc::Global;
use toml::Table;

/// A settings text that is a TOML document, before it is looked at beside a bench: it can be read while the bench is.
#[derive(Drop)]
pub struct Document {
    table: Table,
}

impl Document {
    /// Reads a settings text. It is refused where it is no document (`Toml`), or a growth was refused (`Memory`).
    pub fn read(alloc: Global, text: &[u8]) -> Result<Document, SettingsFault>
        ensures { IsRead text.now result }
    {
        match settings::document(alloc, text) {
            Ok(table) => Ok(Document { table }),
            Err(fault) => Err(fault),
        }
    }

    /// The document as a table.
    pub(crate) fn table(&self) -> &Table
        ensures { table_view result.now ≡ members_of self.now }
    {
        &self.table
    }
}
