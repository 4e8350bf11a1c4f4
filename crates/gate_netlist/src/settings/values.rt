ghost use Rattle.std.specs.Prelude.{◌≡◌, codes, option_map, option_and_then, option_copied, unwrap_or};
ghost use Rattle.std.specs.Option.{option_map_or};
ghost use Rattle.toml.specs.Data.{string, no_members, get_member, as_table};
ghost use Rattle.toml.specs.View.{view, table_view};
ghost use Rattle.gate_netlist.specs.Settings.{as_delay, as_block, as_content, delay_at, block_at, content_at, text_at, clock_name};

use gate_values::Logic;
use toml::{Table, Value};

/// A delay: a whole number from 1 to 1,000,000.
pub(super) fn delay_of(value: &Value) -> Option<u32>
    ensures { result ≡ as_delay (view value.now) }
{
    match value.as_integer() {
        Some(delay) if delay >= 1 && delay <= 1_000_000 => Some(delay as u32),
        _ => None,
    }
}

/// A block number: a whole number from 0 to 1023.
pub(super) fn block_of(value: &Value) -> Option<u32>
    ensures { result ≡ as_block (view value.now) }
{
    match value.as_integer() {
        Some(block) if block >= 0 && block <= 1023 => Some(block as u32),
        _ => None,
    }
}

/// A content: one of the texts `0`, `1` and `x`.
pub(super) fn content_of(value: &Value) -> Option<Logic>
    ensures { result ≡ as_content (view value.now) }
{
    match value.as_str() {
        Some(text) => content_named(text),
        None => None,
    }
}

fn content_named(text: &str) -> Option<Logic>
    ensures { result ≡ as_content (string text.now) }
{
    match text {
        "0" => Some(Logic::Zero),
        "1" => Some(Logic::One),
        "x" => Some(Logic::X),
        _ => None,
    }
}

/// The value at a key.
pub(super) fn value_at<'a>(table: &'a Table, key: &str) -> Option<&'a Value>
    ensures { option_map (λ value. view value.now) result ≡ get_member key.now (table_view table.now) }
{
    table.get(key)
}

/// The table at a key.
pub(super) fn table_at<'a>(table: &'a Table, key: &str) -> Option<&'a Table>
    ensures { option_map (λ inner. table_view inner.now) result ≡ option_and_then as_table (get_member key.now (table_view table.now)) }
{
    match value_at(table, key) {
        Some(value) => value.as_table(),
        None => None,
    }
}

/// The table of blocks.
pub(crate) fn block_table(table: &Table) -> Option<&Table>
    ensures { option_map (λ inner. table_view inner.now) result ≡ option_and_then as_table (get_member (codes "block") (table_view table.now)) }
{
    table_at(table, "block")
}

/// The delay at a key, where it is one.
pub(super) fn delay_at(table: &Table, key: &str) -> Option<u32>
    ensures { result ≡ delay_at key.now (table_view table.now) }
{
    match value_at(table, key) {
        Some(value) => delay_of(value),
        None => None,
    }
}

/// The block number at a key, where it is one.
pub(super) fn block_at(table: &Table, key: &str) -> Option<u32>
    ensures { result ≡ block_at key.now (table_view table.now) }
{
    match value_at(table, key) {
        Some(value) => block_of(value),
        None => None,
    }
}

/// The content at a key, where it is one.
pub(super) fn content_at(table: &Table, key: &str) -> Option<Logic>
    ensures { result ≡ content_at key.now (table_view table.now) }
{
    match value_at(table, key) {
        Some(value) => content_of(value),
        None => None,
    }
}

/// The text at a key, where it is one.
pub(crate) fn text_at<'a>(table: &'a Table, key: &str) -> Option<&'a str>
    ensures { option_map (λ text. text.now) result ≡ text_at key.now (table_view table.now) }
{
    match value_at(table, key) {
        Some(value) => value.as_str(),
        None => None,
    }
}

/// The name that `clock` gives.
pub(crate) fn clock_name(table: &Table) -> &str
    ensures { result.now ≡ clock_name (table_view table.now) }
{
    match text_at(table, "clock") {
        Some(name) => name,
        None => "CK",
    }
}
