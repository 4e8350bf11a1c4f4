//! Rows of tests, and what they say of a stimulus text.

use gate_netlist::{Circuit, read_bench};
use gate_stimulus::Stimulus;
use gate_values::{Change, Logic};
use gate_vcd::read_stimulus;
use std::alloc::Global;
use std::process::Abort;
use std::test::Fail;

/// What a stimulus text gives the first nets of a bench: of each net the times of its changes, each with its value.
#[derive(Clone, Copy)]
pub struct Row {
    pub bench: &'static str,
    pub settings: &'static str,
    pub text: &'static str,
    pub nets: &'static [&'static str],
}

/// The circuit of a bench and a settings text.
pub fn circuit(alloc: Global, bench: &str, settings: &str) -> Result<Circuit, Fail> {
    let bench = read_bench(alloc, bench.as_bytes())?;
    Ok(Circuit::of(alloc, bench, settings.as_bytes())?)
}

/// The stimulus of a text.
pub fn stimulus(alloc: Global, bench: &str, settings: &str, text: &str) -> Result<Stimulus, Fail> {
    let circuit = circuit(alloc, bench, settings)?;
    let stimulus = read_stimulus(alloc, text.as_bytes(), &circuit);
    drop(circuit);
    Ok(stimulus?)
}

fn letter(value: Logic) -> char {
    match value {
        Logic::Zero => '0',
        Logic::One => '1',
        Logic::X => 'x',
        Logic::Z => 'z',
    }
}

fn push_change(alloc: Global, text: &mut String, change: &Change) -> Result<(), Fail> {
    let next = format!(in alloc; "{}{} ", change.time, letter(change.value))?;
    text.push_str(next.as_str())?;
    Ok(())
}

/// The times of changes, each with its value.
fn shown(alloc: Global, changes: &[Change]) -> Result<String, Fail> {
    let mut text = String::new(alloc);
    for change in changes {
        push_change(alloc, &mut text, change)?;
    }
    Ok(text)
}

fn assert_net(
    rt: &impl Abort,
    alloc: Global,
    stimulus: &Stimulus,
    net: u32,
    line: &str,
) -> Result<(), Fail> {
    let shown = shown(alloc, stimulus.changes(net))?;
    assert_eq!(rt; shown.as_str(), line, "net {net}");
    Ok(())
}

/// The first nets have these changes.
pub fn assert_changes(
    rt: &impl Abort,
    alloc: Global,
    stimulus: &Stimulus,
    nets: &[&str],
) -> Result<(), Fail> {
    for (net, line) in (0..u32::MAX).zip(nets) {
        assert_net(rt, alloc, stimulus, net, line)?;
    }
    Ok(())
}

/// Each text gives what its row says.
pub fn assert_rows(rt: &impl Abort, alloc: Global, rows: &[Row]) -> Result<(), Fail> {
    for row in rows {
        let stimulus = stimulus(alloc, row.bench, row.settings, row.text)?;
        let told = assert_changes(rt, alloc, &stimulus, row.nets);
        drop(stimulus);
        told?;
    }
    Ok(())
}
