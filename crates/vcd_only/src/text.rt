//! The dump of the nets that are told, as one text.

ghost use Rattle.std.specs.Prelude.{◌≡◌, ℕ, ◌<◌, ◌≤◌, ◌++◌, length, get_or, [], IfOk, OnOk};
ghost use Rattle.std.specs.List.{AllByRecursion};
ghost use Rattle.gate_netlist.specs.Circuit.{nets_of};
ghost use Rattle.net_waves.specs.declared.timeline.Stop.{Stop};
ghost use Rattle.vcd_dumps.specs.Dump.{var_line, value_line};
ghost use Rattle.vcd_dumps.specs.Walk.{stop_lines, walked, last_stop};
ghost use Rattle.vcd_dumps.specs.Inner.Walk.{tail_line};
ghost use Rattle.net_waves.specs.Waves.{wave_of, wave_value, IsUntil};
ghost use Rattle.vcd_only.specs.Inner.Stops.{stops_in};
ghost use Rattle.vcd_only.specs.Told.{if_told, told_vars, told_header, told_first, told_text};

use crate::lines::{push_scope, push_stamp, push_text, push_timescale, push_value, push_var};
use crate::stops::{Told, is_told, stops_of};
use gate_netlist::Circuit;
use gate_stimulus::Timescale;
use net_waves::Waves;
use std::alloc::{AllocError, Global};
use vcd_dumps::first_value;

/// The dump of a circuit's waves up to the horizon in which the nets alone are told that `told` marks, in units of
/// the timescale, in the scope `top`: the whole dump's text without the lines of other nets, and without the times at
/// which none of these nets changes, but 0 and the horizon. The codes of nets are those of the whole dump. An error is a
/// refused growth.
///
/// The work grows with the nets, the text, and the order of its changes.
pub fn told_text(
    alloc: Global,
    top: &str,
    circuit: &Circuit,
    scale: Timescale,
    waves: &Waves,
    told: &[bool],
    horizon: u64,
) -> Result<Vec<u8>, AllocError>
    requires nets { length waves.now ≡ nets_of circuit.now }
    requires until { (n : ℕ) → IsUntil horizon (wave_of waves.now n) }
    ensures { IfOk result (λ text. text.items ≡ told_text told.now top.now circuit.now.names scale (wave_value waves.now) horizon) }
{
    waves.law();
    let stops = stops_of(alloc, waves, told)?;
    let mut text = Vec::new(alloc);
    push_header(&mut text, top, circuit, scale, told)?;
    push_first_values(&mut text, waves, told, circuit.nets())?;
    push_text(&mut text, "$end\n")?;
    push_moments(&mut text, stops.as_slice(), horizon)?;
    Ok(text)
}

/// Puts the lines above the first value at the end.
fn push_header(
    text: &mut Vec<u8>,
    top: &str,
    circuit: &Circuit,
    scale: Timescale,
    told: &[bool],
) -> Result<(), AllocError>
    ensures { OnOk result (text.new.items ≡ text.old.items ++ told_header told.now top.now circuit.now.names scale) }
{
    push_timescale(text, scale)?;
    push_scope(text, top)?;
    push_vars(text, circuit, told)?;
    push_text(text, "$upscope $end\n$enddefinitions $end\n#0\n$dumpvars\n")?;
    Ok(())
}

/// Puts the code and name of a net at the end, where it is told.
fn push_told_var(
    text: &mut Vec<u8>,
    circuit: &Circuit,
    told: &[bool],
    net: u32,
) -> Result<(), AllocError>
    requires { net < nets_of circuit.now }
    ensures { OnOk result (text.new.items ≡ text.old.items ++ if_told told.now net (var_line net (get_or circuit.now.names net []))) }
{
    circuit.law();
    if is_told(told, net) {
        return push_var(text, net, circuit.name(net));
    }
    Ok(())
}

/// Puts the code and name of each net that is told at the end.
fn push_vars(text: &mut Vec<u8>, circuit: &Circuit, told: &[bool]) -> Result<(), AllocError>
    ensures { OnOk result (text.new.items ≡ text.old.items ++ told_vars told.now circuit.now.names (nets_of circuit.now)) }
{
    for net in 0..circuit.nets() {
        push_told_var(text, circuit, told, net)?;
    }
    Ok(())
}

/// Puts the value of a net at 0 at the end, where it is told.
fn push_told_first(
    text: &mut Vec<u8>,
    waves: &Waves,
    told: &[bool],
    net: u32,
) -> Result<(), AllocError>
    requires known { net < length waves.now }
    requires few { net < 1000000 }
    ensures { OnOk result (text.new.items ≡ text.old.items ++ if_told told.now net (value_line (wave_value waves.now net 0) net)) }
{
    waves.law();
    if !is_told(told, net) {
        return Ok(());
    }
    push_value(text, first_value(waves.changes(net)), net)
}

/// Puts the value at 0 of each net that is told at the end.
fn push_first_values(
    text: &mut Vec<u8>,
    waves: &Waves,
    told: &[bool],
    nets: u32,
) -> Result<(), AllocError>
    requires all { length waves.now ≡ nets }
    requires few { nets ≤ 1000000 }
    ensures { OnOk result (text.new.items ≡ text.old.items ++ told_first told.now (wave_value waves.now) nets) }
{
    for net in 0..nets {
        push_told_first(text, waves, told, net)?;
    }
    Ok(())
}

/// Puts a change after one at the time `last` at the end.
fn push_stop(text: &mut Vec<u8>, last: u64, stop: Told) -> Result<(), AllocError>
    requires { stop.net < 1000000 }
    ensures { OnOk result (text.new.items ≡ text.old.items ++ stop_lines last stop.time stop.net stop.value) }
{
    if stop.time == 0 {
        return Ok(());
    }
    if stop.time != last {
        push_stamp(text, stop.time)?;
    }
    push_value(text, stop.value, stop.net)
}

/// Puts changes at the end. Returns the last time, which is 0 where there is none.
fn push_stops(text: &mut Vec<u8>, stops: &[Told]) -> Result<u64, AllocError>
    requires { AllByRecursion (λ (s : Stop). s.net < 1000000) (stops_in stops.now) }
    ensures text { OnOk result (text.new.items ≡ text.old.items ++ walked 0 (stops_in stops.now)) }
    ensures last { IfOk result (λ last. last ≡ last_stop 0 (stops_in stops.now)) }
{
    let mut last = 0;
    for stop in stops {
        push_stop(text, last, *stop)?;
        last = stop.time;
    }
    Ok(last)
}

/// Puts the time of the horizon at the end, where it is later than the last change.
fn push_tail(text: &mut Vec<u8>, last: u64, horizon: u64) -> Result<(), AllocError>
    ensures { OnOk result (text.new.items ≡ text.old.items ++ tail_line last horizon) }
{
    if last < horizon {
        return push_stamp(text, horizon);
    }
    Ok(())
}

/// Puts what changes after 0, and the horizon, at the end.
fn push_moments(text: &mut Vec<u8>, stops: &[Told], horizon: u64) -> Result<(), AllocError>
    requires { AllByRecursion (λ (s : Stop). s.net < 1000000) (stops_in stops.now) }
    ensures { let all = stops_in stops.now in
        OnOk result (text.new.items ≡ text.old.items ++ (walked 0 all ++ tail_line (last_stop 0 all) horizon)) }
{
    let last = push_stops(text, stops)?;
    push_tail(text, last, horizon)
}
