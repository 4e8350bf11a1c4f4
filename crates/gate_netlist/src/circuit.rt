ghost use Rattle.std.specs.Prelude.{◌≡◌, ◌<◌, ◌≤◌, None, IfOk, length, option_map, option_copied, count_by};
ghost use Rattle.gate_netlist.specs.Circuit.{nets_of, driver_of, name_of, net_of, delay_of, readers_of, is_input, is_gate, is_flop, IsCircuit};
ghost use Rattle.gate_netlist.specs.Counts.{counts_of};
ghost use Rattle.gate_netlist.specs.Even.{driven_count};
ghost use Rattle.toml.specs.View.{table_view};
ghost use Rattle.gate_netlist.specs.Causes.{cause_of};
ghost use Rattle.gate_netlist.specs.Meaning.{delays_of, members_of, IsSettled, IsSettledBy};

mod build;
mod readers;

use crate::bench::{Bench, Names};
use crate::counts::Counts;
use crate::cut::Cut;
use crate::document::Document;
use crate::driver::Driver;
use crate::fault::SettingsFault;
use crate::settings;
use number_groups::Groups;
use std::alloc::{AllocError, Global};
use std::marker::Model;
use std::thread::{Threads, join};
use toml::Table;

/// A circuit: its nets in the order of their defining lines, and what sets each of them.
#[derive(Drop)]
pub struct Circuit {
    names: Names,
    drivers: Vec<Driver>,
    delays: Vec<u32>,
    readers: Groups,
    outputs: Vec<u32>,
    clock: Option<u32>,
    scope: Option<String>,
    cut: Option<Cut>,
}

impl Model for Circuit {
    ghost use Rattle.gate_netlist.specs.Circuit.{Design};

    ghost Value = { Design };

    ghost use Rattle.gate_netlist.specs.Held.{design_of, IsHeld};

    ghost view = { design_of };

    ghost invariant = { IsHeld };
}

/// The circuit of a bench and a settings document that no cause speaks against, once its nets' delays have been looked up.
fn settled(
    alloc: Global,
    bench: Bench,
    table: &Table,
    delays: Result<Vec<u32>, AllocError>,
) -> Result<Circuit, SettingsFault>
    requires cause { cause_of bench (table_view table.now) ≡ None }
    requires delays { IfOk delays (λ delays. delays.items ≡ delays_of (table_view table.now) bench.names bench.definitions) }
    ensures { IsSettledBy bench (table_view table.now) result }
{
    let Ok(delays) = delays else {
        return Err(SettingsFault::Memory);
    };
    match build::build(alloc, bench, table, delays) {
        Ok(circuit) => Ok(circuit),
        Err(_) => Err(SettingsFault::Memory),
    }
}

impl Circuit {
    /// The circuit of a bench and a settings text: each net's delay is that of its name, else that of its kind,
    /// else the default. A flip-flop's clock is the net of the name that its own key gives, else of the one that
    /// `clock` gives; where no net has this one, an input of that name is added as the last net. It begins with
    /// the content that its key gives, else unknown. A text is refused for the least cause that applies to it.
    ///
    /// The bench is consumed, also where the text is refused. Memory is answered wherever a growth is refused.
    pub fn of(alloc: Global, bench: Bench, settings: &[u8]) -> Result<Circuit, SettingsFault>
        ensures { IsSettled bench settings.now result }
    {
        match Document::read(alloc, settings) {
            Ok(document) => Circuit::with(alloc, bench, &document),
            Err(fault) => Err(fault),
        }
    }

    /// The circuit of a bench and a settings text that has been read, as [`Circuit::of`] gives it.
    pub fn with(alloc: Global, bench: Bench, document: &Document) -> Result<Circuit, SettingsFault>
        ensures { IsSettledBy bench (members_of document.now) result }
    {
        let table = document.table();
        match settings::cause_of(&bench, table) {
            Some(fault) => Err(fault),
            None => {
                let delays = build::bench_delays(alloc, &bench, table);
                settled(alloc, bench, table, delays)
            }
        }
    }

    /// The circuit that [`Circuit::with`] gives. Whether the text is refused is found out while the nets' delays are looked up.
    pub fn with_by<R: Threads + Sync>(
        rt: &R,
        alloc: Global,
        bench: Bench,
        document: &Document,
    ) -> Result<Circuit, SettingsFault>
        ensures { IsSettledBy bench (members_of document.now) result }
    {
        let table = document.table();
        let shared = &bench;
        let (cause, delays) = join(
            rt,
            || -> Option<SettingsFault>
                ensures { result ≡ cause_of shared.entry.now (table_view table.entry.now) }
            { settings::cause_of(shared, table) },
            || -> Result<Vec<u32>, AllocError>
                ensures { IfOk result (λ delays. delays.items ≡ delays_of (table_view table.entry.now) shared.entry.now.names shared.entry.now.definitions) }
            { build::bench_delays(alloc, shared, table) },
        );
        match cause {
            Some(fault) => Err(fault),
            None => settled(alloc, bench, table, delays),
        }
    }

    /// What is true of every circuit.
    pub fn law(&self)
        ensures { IsCircuit self.now }
    {
        let _ = &self.names;
    }

    /// The number of nets, at most 1,000,000.
    pub fn nets(&self) -> u32
        ensures count { result ≡ nets_of self.now }
        ensures within { result ≤ 1000000 }
    {
        self.names.len() as u32
    }

    /// The name of a net.
    pub fn name(&self, net: u32) -> &str
        requires { net < nets_of self.now }
        ensures { result.now ≡ name_of self.now net }
    {
        match self.names.get_index(net as usize) {
            Some(name) => name.as_str(),
            None => unreachable!(),
        }
    }

    /// The net of a name.
    pub fn find(&self, name: &str) -> Option<u32>
        ensures { result ≡ net_of self.now name.now }
    {
        match self.names.get_index_of(name) {
            Some(net) => Some(net as u32),
            None => None,
        }
    }

    /// What sets a net.
    pub fn driver(&self, net: u32) -> &Driver
        requires { net < nets_of self.now }
        ensures { result.now ≡ driver_of self.now net }
    {
        &self.drivers[net as usize]
    }

    /// The delay of a net, in units of the stimulus's timescale: from 1 to 1,000,000, and none for an input.
    pub fn delay(&self, net: u32) -> Option<u32>
        requires { net < nets_of self.now }
        ensures { result ≡ delay_of self.now net }
    {
        match self.drivers[net as usize] {
            Driver::Input => None,
            _ => Some(self.delays[net as usize]),
        }
    }

    /// The nets whose gate or flip-flop uses a net, as input, data or clock: ascending, each once.
    pub fn readers(&self, net: u32) -> &[u32]
        requires { net < nets_of self.now }
        ensures { result.now ≡ readers_of self.now net }
    {
        self.readers.get(net)
    }

    /// The net that `clock` names; none where no flip-flop takes it.
    pub fn clock(&self) -> Option<u32>
        ensures { result ≡ self.now.clock }
    {
        self.clock
    }

    /// The nets that are marked as outputs, by the first line that marks each.
    pub fn outputs(&self) -> &[u32]
        ensures { result.now ≡ self.now.outputs }
    {
        self.outputs.as_slice()
    }

    /// The scope that the settings name; none where any scope will do.
    pub fn scope(&self) -> Option<&str>
        ensures { option_map (λ s. s.now) result ≡ self.now.scope }
    {
        match &self.scope {
            Some(scope) => Some(scope.as_str()),
            None => None,
        }
    }

    /// The cut that the settings give.
    pub fn cut(&self) -> Option<&Cut>
        ensures { option_map (λ cut. cut.now) result ≡ self.now.cut }
    {
        self.cut.as_ref()
    }

    /// How many nets, inputs, gates, flip-flops, outputs and blocks there are.
    pub fn counts(&self) -> Counts
        ensures { result ≡ counts_of self.now }
    {
        let blocks = match &self.cut {
            Some(cut) => cut.blocks(),
            None => 1,
        };
        Counts {
            nets: self.nets(),
            inputs: inputs_among(self.drivers.as_slice()) as u32,
            gates: gates_among(self.drivers.as_slice()) as u32,
            flops: flops_among(self.drivers.as_slice()) as u32,
            outputs: self.outputs.len() as u32,
            blocks,
        }
    }

    /// How many nets aren't inputs.
    pub(crate) fn driven_count(&self) -> u32
        ensures count { result ≡ driven_count self.now.drivers }
        ensures within { result ≤ 1000000 }
    {
        driven_among(self.drivers.as_slice()) as u32
    }

    /// Whether a net is an input.
    pub(crate) fn is_input(&self, net: u32) -> bool
        requires { net < nets_of self.now }
        ensures { result ≡ is_input (driver_of self.now net) }
    {
        matches!(self.driver(net), Driver::Input)
    }
}

fn inputs_among(drivers: &[Driver]) -> usize
    ensures { result ≡ count_by is_input drivers.now }
{
    drivers
        .iter()
        .filter(|driver| matches!(driver, Driver::Input))
        .count()
}

fn driven_among(drivers: &[Driver]) -> usize
    ensures { result ≡ driven_count drivers.now }
{
    drivers
        .iter()
        .filter(|driver| !matches!(driver, Driver::Input))
        .count()
}

fn gates_among(drivers: &[Driver]) -> usize
    ensures { result ≡ count_by is_gate drivers.now }
{
    drivers
        .iter()
        .filter(|driver| matches!(driver, Driver::Gate { .. }))
        .count()
}

fn flops_among(drivers: &[Driver]) -> usize
    ensures { result ≡ count_by is_flop drivers.now }
{
    drivers
        .iter()
        .filter(|driver| matches!(driver, Driver::Flop { .. }))
        .count()
}
