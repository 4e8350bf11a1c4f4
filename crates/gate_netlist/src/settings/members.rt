//! Tests of each member of a table, and of each net.
ghost use Rattle.std.specs.Prelude.{map, string_bytes};
ghost use Rattle.toml.specs.View.{table_view};
ghost use Rattle.gate_netlist.specs.Settings.{table_at};
ghost use Rattle.gate_netlist.specs.Inner.Members.{IsAnyMember, IsAnyNet};

use super::values::table_at;
use crate::bench::Definition;
use toml::{Table, Value};

/// Whether some member passes the test.
pub(super) fn any_member<F: Fn(&str, &Value) -> bool>(table: &Table, test: F) -> bool
    requires { F.IsAlwaysCallable test }
    ensures { IsAnyMember (F.post test) (table_view table.now) result }
{
    table.iter().any(|(key, value)| test(key.as_str(), value))
}

/// Whether some member of the table at a key passes the test; none does where no table stands there.
pub(super) fn any_member_at<F: Fn(&str, &Value) -> bool>(table: &Table, key: &str, test: F) -> bool
    requires { F.IsAlwaysCallable test }
    ensures { IsAnyMember (F.post test) (table_at key.now (table_view table.now)) result }
{
    match table_at(table, key) {
        Some(inner) => any_member(inner, test),
        None => false,
    }
}

/// Whether some net passes the test, by its name and definition.
pub(super) fn any_net<F: Fn(&str, &Definition) -> bool>(
    names: &[String],
    definitions: &[Definition],
    test: F,
) -> bool
    requires { F.IsAlwaysCallable test }
    ensures { IsAnyNet (F.post test) (map string_bytes names.now) definitions.now result }
{
    names
        .iter()
        .zip(definitions)
        .any(|(name, definition)| test(name.as_str(), definition))
}
