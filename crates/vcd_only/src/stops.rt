//! The changes of the nets that are told, by time.

ghost use Rattle.std.specs.Prelude.{◌≡◌, ℕ, ◌<◌, ◌≤◌, ◌++◌, get_or, false, length, if◌then◌else◌, IfOk, OnOk, []};
ghost use Rattle.net_waves.specs.declared.timeline.Stop.{Stop};
ghost use Rattle.net_waves.specs.Waves.{wave_of, wave_value, IsUntil};
ghost use Rattle.net_waves.specs.Timeline.{InOrder, count};
ghost use Rattle.net_waves.specs.Inner.Stops.{stops_of, stops_below};
ghost use Rattle.vcd_only.specs.Told.{is_told};
ghost use Rattle.vcd_only.specs.Inner.Stops.{stops_in, shown_wave, shown};

use gate_values::{Change, Logic};
use net_waves::Waves;
use std::alloc::{AllocError, Global};

/// A net that is told takes a value at a time.
#[derive(Clone, Copy, Debug)]
pub struct Told {
    pub time: u64,
    pub net: u32,
    pub value: Logic,
}

/// Whether a net is told.
pub fn is_told(told: &[bool], net: u32) -> bool
    ensures { result ≡ is_told told.now net }
{
    match told.get(net as usize) {
        Some(told) => *told,
        None => false,
    }
}

/// Appends the changes of a net. An error is a refused growth.
fn add_changes(stops: &mut Vec<Told>, net: u32, changes: &[Change]) -> Result<(), AllocError>
    ensures { OnOk result (stops_in stops.new.items ≡ stops_in stops.old.items ++ stops_of net changes.now) }
{
    for change in changes {
        stops.push(Told {
            time: change.time,
            net,
            value: change.value,
        })?;
    }
    Ok(())
}

/// Appends the changes of a net, where it is told.
fn add_net(stops: &mut Vec<Told>, waves: &Waves, told: &[bool], net: u32) -> Result<(), AllocError>
    requires { net < length waves.now }
    ensures { OnOk result (stops_in stops.new.items ≡ stops_in stops.old.items ++ stops_of net (shown_wave told.now waves.now net)) }
{
    if is_told(told, net) {
        return add_changes(stops, net, waves.changes(net));
    }
    Ok(())
}

/// The changes of the nets that are told, net by net.
fn stops_by_net(alloc: Global, waves: &Waves, told: &[bool]) -> Result<Vec<Told>, AllocError>
    ensures { IfOk result (λ stops. stops_in stops.items ≡ stops_below (shown told.now waves.now) (length waves.now)) }
{
    let mut stops = Vec::new(alloc);
    for net in 0..waves.nets() {
        add_net(&mut stops, waves, told, net)?;
    }
    Ok(stops)
}

/// Puts changes into order.
fn sort(stops: &mut [Told])
    ensures same { (s : Stop) → count s (stops_in stops.new) ≡ count s (stops_in stops.old) }
    ensures sorted { InOrder (stops_in stops.new) }
{
    stops.sort_unstable_by_key(|told| (told.time, told.net));
}

/// The changes of the nets that are told, by time, and at one time by net.
pub fn stops_of(alloc: Global, waves: &Waves, told: &[bool]) -> Result<Vec<Told>, AllocError>
    ensures same { (s : Stop) → IfOk result (λ stops. count s (stops_in stops.items) ≡ count s (stops_below (shown told.now waves.now) (length waves.now))) }
    ensures sorted { IfOk result (λ stops. InOrder (stops_in stops.items)) }
{
    let mut stops = stops_by_net(alloc, waves, told)?;
    sort(stops.as_mut_slice());
    Ok(stops)
}
