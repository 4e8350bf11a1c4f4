//! What is wrong with settings.
ghost use Rattle.std.specs.Prelude.{◌≡◌, ◌≤◌, length, IfOk};

use crate::keys::{Key, behind_mark, key_at};
use Piece::{Quoted, Text};
use finding_words::{Finding, Kind, Look, Piece, Word, circuit_of, misplaced};
use gate_netlist::{Circuit, Driver, SettingsFault};
use std::alloc::{AllocError, Global};
use text_places::Source;
use toml::{Table, Value};

const TOP: [&str; 8] = [
    "default", "clock", "scope", "gate", "net", "block", "clocks", "init",
];

const KINDS: [&str; 9] = [
    "AND", "NAND", "OR", "NOR", "XOR", "XNOR", "NOT", "BUFF", "DFF",
];

const TABLES: [&str; 5] = ["gate", "net", "block", "clocks", "init"];

/// How many parts of a name are looked at, at most.
const MOST_PARTS: usize = 80;

/// What a fault of settings is about.
pub fn of_settings(
    alloc: Global,
    bench: Source<'_>,
    source: Source<'_>,
    fault: SettingsFault,
) -> Result<Finding, AllocError>
    ensures { IfOk result (λ finding. finding.at ≤ length source.entry.text.now) }
{
    let look = Look::of(alloc, behind_mark(source.text))?;
    if !matches!(look, Look::Settings | Look::Bench | Look::Other) {
        return misplaced(alloc, look, Kind::Settings);
    }
    let table = match toml::table_from_slice(alloc, source.text) {
        Ok(table) => table,
        Err(_) if look == Look::Bench => return misplaced(alloc, look, Kind::Settings),
        Err(error) => return no_toml(alloc, source, &error),
    };
    let circuit = circuit_of(alloc, bench.text, &[]);
    let key = key_of(&table, circuit.as_ref(), fault).unwrap_or(Key::at_top(""));
    told(alloc, source, &table, key, fault)
}

fn no_toml(
    alloc: Global,
    source: Source<'_>,
    error: &toml::de::Error,
) -> Result<Finding, AllocError>
    ensures { IfOk result (λ finding. finding.at ≤ length source.entry.text.now) }
{
    let word = match error.span() {
        Some(span) if span.start <= source.text.len() => {
            Word::of(source.text, span.start, span.end.saturating_sub(span.start))
        }
        _ => Word::of(source.text, 0, 0),
    };
    let cause = [Text("this is no TOML: "), Text(error.message())];
    Finding::at(alloc, &word, &cause, &[])
}

/// A cause in a sentence, at its key.
fn told(
    alloc: Global,
    source: Source<'_>,
    settings: &Table,
    key: Key<'_>,
    fault: SettingsFault,
) -> Result<Finding, AllocError>
    ensures { IfOk result (λ finding. finding.at ≤ length source.entry.text.now) }
{
    let word = key_at(alloc, source.text, key)?;
    if key.name.contains('\r') {
        return with_return(alloc, &word, key.name);
    }
    let value = value_of(settings, key);
    if matches!(fault, SettingsFault::BadClock) && !is_table(value) {
        return bad_clock(alloc, &word, key, value.and_then(Value::as_str));
    }
    let (before, behind) = cause_of(key.table, fault);
    let cause = [Text(before), Quoted(key.name.as_bytes()), Text(behind)];
    match whole_name(alloc, key, value)? {
        Some(name) => Finding::at(alloc, &word, &cause, &in_quotes(name.as_str())),
        None => Finding::at(alloc, &word, &cause, &[Text(advice_of(key.table, fault))]),
    }
}

fn value_of<'t>(settings: &'t Table, key: Key<'_>) -> Option<&'t Value> {
    match key.table {
        Some(table) => settings
            .get(table)
            .and_then(Value::as_table)
            .and_then(|members| members.get(key.name)),
        None => settings.get(key.name),
    }
}

fn is_table(value: Option<&Value>) -> bool {
    matches!(value, Some(Value::Table(_)))
}

/// The first member of a value that is a table.
fn first_member<'t>(value: &'t Value) -> Option<(&'t str, &'t Value)> {
    match value.as_table().and_then(|members| members.iter().next()) {
        Some((name, value)) => Some((name.as_str(), value)),
        None => None,
    }
}

/// The name of a net that is meant by a member whose value is a table, where its dots have parted the name.
fn whole_name(
    alloc: Global,
    key: Key<'_>,
    value: Option<&Value>,
) -> Result<Option<String>, AllocError> {
    let Some((part, mut value)) = value.and_then(first_member) else {
        return Ok(None);
    };
    if matches!(key.table, None | Some("gate")) {
        return Ok(None);
    }
    let mut name = String::from_str(alloc, key.name)?;
    push_part(&mut name, part)?;
    for _ in 0..MOST_PARTS {
        let Some((part, inner)) = first_member(value) else {
            return Ok(Some(name));
        };
        push_part(&mut name, part)?;
        value = inner;
    }
    Ok(Some(name))
}

fn push_part(name: &mut String, part: &str) -> Result<(), AllocError> {
    name.push_str(".")?;
    name.push_str(part)
}

/// What to do about a name with dots.
fn in_quotes<'a>(name: &'a str) -> [Piece<'a>; 3] {
    [
        Text("a name with a dot is written in quotes, as \""),
        Text(name),
        Text("\""),
    ]
}

/// A clock, or the key that gives it, that is no net.
fn bad_clock<'a>(
    alloc: Global,
    word: &Word<'_>,
    key: Key<'a>,
    clock: Option<&'a str>,
) -> Result<Finding, AllocError>
    ensures { IfOk result (λ finding. finding.at ≡ word.now.at) }
{
    let flop = Quoted(key.name.as_bytes());
    let advice = "[clocks] names nets of the bench, or the clock that the key `clock` gives";
    let Some(clock) = clock else {
        let cause = [Text("the clock of "), flop, Text(" is no text")];
        return Finding::at(
            alloc,
            word,
            &cause,
            &[Text("clocks are texts, between quotes")],
        );
    };
    let clock = Quoted(clock.as_bytes());
    match key.table {
        Some(_) => {
            let end = Text(" is no net, and none is added for it");
            let cause = [Text("the clock "), clock, Text(" of "), flop, end];
            Finding::at(alloc, word, &cause, &[Text(advice)])
        }
        None => {
            let end = Text(
                ", the clock of flip-flops, is no net, and no bench has a net of this name",
            );
            let advice =
                "a name is of the letters, digits and signs of ASCII, without blanks, # ( ) , and =";
            Finding::at(alloc, word, &[clock, end], &[Text(advice)])
        }
    }
}

fn names_flops(table: &str) -> bool {
    table == "clocks" || table == "init"
}

/// What stands before a key of a table and behind it in the sentence of a cause.
fn cause_of(table: Option<&str>, fault: SettingsFault) -> (&'static str, &'static str) {
    match (fault, table) {
        (SettingsFault::UnknownKey, Some(_)) => ("[gate] has no key ", ""),
        (SettingsFault::UnknownKey, None) => (
            "",
            " is no key of settings, or has a value of another type",
        ),
        (SettingsFault::UnknownNet, Some(table)) if names_flops(table) => (
            "the bench has no flip-flop ",
            "",
        ),
        (SettingsFault::UnknownNet, _) => ("the bench has no gate and no flip-flop ", ""),
        (SettingsFault::BadDelay, _) => (
            "the delay of ",
            " is no whole number from 1 to 1,000,000",
        ),
        (SettingsFault::BadCut, _) => ("the block of ", " is no whole number from 0 to 1023"),
        (SettingsFault::BadClock, _) => ("the clock of ", " is no text"),
        _ => ("the content of ", " is not \"0\", \"1\" or \"x\""),
    }
}

fn advice_of(table: Option<&str>, fault: SettingsFault) -> &'static str {
    match (fault, table) {
        (SettingsFault::UnknownKey, Some(_)) =>
            "the keys of [gate] are AND, NAND, OR, NOR, XOR, XNOR, NOT, BUFF and DFF, in these letters",
        (SettingsFault::UnknownKey, None) =>
            "the keys are default, clock, scope, and the tables gate, net, block, clocks and init",
        (SettingsFault::UnknownNet, Some(table)) if names_flops(table) =>
            "[clocks] and [init] name flip-flops by their nets",
        (SettingsFault::UnknownNet, _) =>
            "[net] and [block] name nets that gates and flip-flops set; an input has no delay and no block",
        (SettingsFault::BadInit, _) => "contents are texts, between quotes",
        _ => "",
    }
}

/// A key that holds a carriage return, which no name of a bench does.
fn with_return(alloc: Global, word: &Word<'_>, name: &str) -> Result<Finding, AllocError>
    ensures { IfOk result (λ finding. finding.at ≡ word.now.at) }
{
    let cause = [
        Text("the name "),
        Quoted(name.as_bytes()),
        Text(" holds a carriage return, which no name of a bench has"),
    ];
    let advice = "it may come from a list of names whose lines end by CRLF: tr -d '\\r' drops them";
    Finding::at(alloc, word, &cause, &[Text(advice)])
}

/// The first key, by table and name, to which a cause applies.
fn key_of<'t>(
    table: &'t Table,
    circuit: Option<&Circuit>,
    fault: SettingsFault,
) -> Option<Key<'t>> {
    match fault {
        SettingsFault::UnknownKey => unknown_at_top(table).or(first_meant(table, circuit, fault)),
        SettingsFault::BadDelay if has_bad_default(table) => Some(Key::at_top("default")),
        SettingsFault::BadClock => first_meant(table, circuit, fault).or(Some(Key::at_top(
            "clock",
        ))),
        _ => first_meant(table, circuit, fault),
    }
}

/// The first key at the top that settings don't have, or whose value has another type.
fn unknown_at_top(table: &Table) -> Option<Key<'_>> {
    for (key, value) in table.iter() {
        let name = key.as_str();
        if !TOP.contains(&name) || !has_type(name, value) {
            return Some(Key::at_top(name));
        }
    }
    None
}

fn has_bad_default(table: &Table) -> bool {
    match table.get("default") {
        Some(value) => !is_delay(value),
        None => false,
    }
}

/// The first member of the tables that a cause is about to which it applies.
fn first_meant<'t>(
    table: &'t Table,
    circuit: Option<&Circuit>,
    fault: SettingsFault,
) -> Option<Key<'t>> {
    for name in tables_of(fault) {
        if let Some(Value::Table(members)) = table.get(*name) {
            for (key, value) in members.iter() {
                if is_meant(table, circuit, fault, *name, key.as_str(), value) {
                    return Some(Key::in_table(*name, key.as_str()));
                }
            }
        }
    }
    None
}

/// The tables that a cause is about, in the order in which they are read.
fn tables_of(fault: SettingsFault) -> &'static [&'static str] {
    match fault {
        SettingsFault::UnknownKey => &["gate"],
        SettingsFault::UnknownNet => &["net", "block", "clocks", "init"],
        SettingsFault::BadDelay => &["gate", "net"],
        SettingsFault::BadCut => &["block"],
        SettingsFault::BadClock => &["clocks"],
        SettingsFault::BadInit => &["init"],
        SettingsFault::Toml | SettingsFault::Memory => &[],
    }
}

/// Whether a cause applies to a member of a table.
fn is_meant(
    settings: &Table,
    circuit: Option<&Circuit>,
    fault: SettingsFault,
    table: &str,
    name: &str,
    value: &Value,
) -> bool {
    match fault {
        SettingsFault::UnknownKey => !KINDS.contains(&name),
        SettingsFault::UnknownNet => is_unknown(circuit, table, name),
        SettingsFault::BadDelay => !is_delay(value),
        SettingsFault::BadCut => !is_within(value, 0, 1023),
        SettingsFault::BadClock => !is_clock(settings, circuit, value),
        SettingsFault::BadInit => !matches!(value.as_str(), Some("0" | "1" | "x")),
        SettingsFault::Toml | SettingsFault::Memory => false,
    }
}

/// Whether a value has the type that its key asks for.
fn has_type(name: &str, value: &Value) -> bool {
    if TABLES.contains(&name) {
        return value.as_table().is_some();
    }
    name == "default" || value.as_str().is_some()
}

fn is_delay(value: &Value) -> bool {
    is_within(value, 1, 1_000_000)
}

fn is_within(value: &Value, least: i64, most: i64) -> bool {
    match value.as_integer() {
        Some(number) => least <= number && number <= most,
        None => false,
    }
}

/// Whether the circuit has no such net as a table names.
fn is_unknown(circuit: Option<&Circuit>, table: &str, name: &str) -> bool {
    let Some(circuit) = circuit else {
        return false;
    };
    let wants_flop = names_flops(table);
    match circuit.find(name) {
        Some(net) if net < circuit.nets() => match circuit.driver(net) {
            Driver::Input => true,
            Driver::Gate { .. } => wants_flop,
            Driver::Flop { .. } => false,
        },
        _ => true,
    }
}

/// Whether a value of `[clocks]` names a net, or the clock that is added.
fn is_clock(table: &Table, circuit: Option<&Circuit>, value: &Value) -> bool {
    let Some(name) = value.as_str() else {
        return false;
    };
    let added = table.get("clock").and_then(Value::as_str).unwrap_or("CK");
    name == added || circuit.is_some_and(|circuit| circuit.find(name).is_some())
}
