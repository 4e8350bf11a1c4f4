ghost use Rattle.std.specs.Prelude.{◌≡◌, ◌<◌, ◌≤◌, ◌↔◌, ℕ, IsTrue, true, false, is_some, length, map, nat_le};
ghost use Rattle.std.specs.List.Sorted.{IsPartitionPoint};
ghost use Rattle.gate_netlist.specs.Circuit.{nets_of, driver_of, is_input};
ghost use Rattle.gate_stimulus.specs.Given.{AreItsChanges, changes_of, value_at, Fits};
ghost use Rattle.net_waves.specs.Inner.Lists.{IsRising};

use crate::timescale::Timescale;
use gate_netlist::{Circuit, Driver};
use gate_values::{Change, Logic};
use std::marker::Model;

/// What a stimulus gives the inputs of a circuit.
#[derive(Drop)]
pub struct Stimulus {
    lists: Vec<Vec<Change>>,
    list_of: Vec<Option<usize>>,
    timescale: Timescale,
}

impl Model for Stimulus {
    ghost use Rattle.gate_stimulus.specs.Given.{Given};

    ghost Value = { Given };

    ghost use Rattle.gate_stimulus.specs.Inner.Held.{IsLaidOut};
    ghost use Rattle.gate_stimulus.specs.Shown.Held.{given_of};

    ghost view = { given_of };

    ghost invariant = { IsLaidOut };
}

impl Stimulus {
    ghost use Rattle.gate_stimulus.specs.Shown.Held.{AreLaidOut};
    ghost use Rattle.gate_stimulus.specs.Shown.Held.{given_by};

    /// A stimulus of lists of changes and of which of them each net has: an input the place of one, any other net none.
    ///
    /// Each place is below the number of lists. A list has changes at rising times up to 10^18, each to another value than the
    /// one before it, [`Logic::X`] at first: `is_wave` of `net_waves` tests that, but for the last time. Whether just the inputs
    /// of a circuit have a list, [`Stimulus::fits`] tells then.
    pub fn new(
        timescale: Timescale,
        lists: Vec<Vec<Change>>,
        list_of: Vec<Option<usize>>,
    ) -> Stimulus
        requires { AreLaidOut lists.items list_of.items }
        ensures { result ≡ given_by timescale lists.items list_of.items }
    {
        Stimulus {
            lists,
            list_of,
            timescale,
        }
    }

    /// What is true of every stimulus: its changes are those of its values.
    pub fn law(&self)
        ensures { (n : ℕ) → AreItsChanges (changes_of self.now n) }
    {
        let _ = &self.lists;
    }

    /// The unit of its times.
    pub fn timescale(&self) -> Timescale
        ensures { result ≡ self.now.timescale }
    {
        self.timescale
    }

    /// The changes of an input, at rising times, each to another value than the one before, `X` at first; none
    /// for a number that is no input. Times are in units of the timescale.
    pub fn changes(&self, net: u32) -> &[Change]
        ensures { result.now ≡ changes_of self.now net }
    {
        match self.list_of.get(net as usize) {
            Some(Some(list)) => self.lists[*list].as_slice(),
            _ => &[],
        }
    }

    /// The value of an input at a time, in units of the timescale; `X` for a number that is no input.
    pub fn at(&self, net: u32, time: u64) -> Logic
        ensures { result ≡ value_at self.now net time }
    {
        self.law();
        let changes = self.changes(net);
        let count = count_until(changes, time);
        if count == 0 {
            Logic::X
        } else {
            changes[count - 1].value
        }
    }

    /// Whether the stimulus is for circuits with these nets and inputs.
    pub fn fits(&self, circuit: &Circuit) -> bool
        ensures { IsTrue result ↔ Fits self.now circuit.now }
    {
        fit(self.list_of.as_slice(), circuit)
    }
}

/// How many of the changes aren't later than a time.
fn count_until(changes: &[Change], time: u64) -> usize
    requires { IsRising changes.now }
    ensures within { result ≤ length changes.now }
    ensures until { IsPartitionPoint (λ c. nat_le c.time time ≡ true) (λ c. nat_le c.time time ≡ false) changes.now result }
{
    changes.partition_point(|change| change.time <= time)
}

/// Whether just the inputs of the circuit have a list.
fn fit(list_of: &[Option<usize>], circuit: &Circuit) -> bool
    ensures { IsTrue result ↔ (map is_some list_of.now ≡ map is_input circuit.now.drivers) }
{
    circuit.law();
    if list_of.len() != circuit.nets() as usize {
        return false;
    }
    for (net, list) in list_of.iter().enumerate() {
        if list.is_some() != is_input(circuit, net as u32) {
            return false;
        }
    }
    true
}

/// Whether a net of the circuit is an input.
pub fn is_input(circuit: &Circuit, net: u32) -> bool
    requires { net < nets_of circuit.now }
    ensures { result ≡ is_input (driver_of circuit.now net) }
{
    matches!(circuit.driver(net), Driver::Input)
}
