//! Lists of changes that are filled in the order of time, a change here and a change there. A change waits with those of
//! the lists beside its own, and a bundle of lists takes in all that waits for it at once: so few lists stay at hand, and
//! of each is known how much room it needs.

ghost use Rattle.std.specs.Prelude.{◌≡◌, ◌<◌, ◌≤◌, ◌-◌, ◌/◌, [], get_or, length, replicate, set, slice_get, IfErr, IfOk, OnOk};
ghost use Rattle.gate_vcd.specs.Faults.{out_of_memory};
ghost use Rattle.gate_vcd.specs.Inner.Bundles.{waiting_in, with_change, with_stop, with_stops};
ghost use Rattle.gate_vcd.specs.Inner.Settled.{ends_at, settled, undone, value_after};
ghost use Rattle.net_waves.specs.Waves.{lists_in};

use crate::fault::StimFault;
use gate_values::{Change, Logic};
use net_waves::Stop;
use std::alloc::Global;
use std::marker::Model;

/// How many lists a bundle has.
const LISTS: usize = 256;

/// A bundle takes in what waits for it once there is so much.
const MOST: usize = 65_536;

/// Lists of changes, and of each bundle of them the changes that wait, each for the list of a number.
#[derive(Drop)]
pub struct Bundles {
    lists: Vec<Vec<Change>>,
    waiting: Vec<Vec<Stop>>,
}

impl Model for Bundles {
    ghost use Rattle.std.specs.Prelude.{List};
    ghost use Rattle.gate_values.specs.declared.logic.Change.{Change as Moment};
    ghost use Rattle.gate_vcd.specs.Inner.Bundles.{lists_by, AreBundled};

    ghost Value = { List (List Moment) };

    ghost view = { lists_by };

    ghost invariant = { AreBundled };
}

/// The value that changes leave.
fn value_after(list: &[Change]) -> Logic
    ensures { result ≡ value_after list.now }
{
    match list.last() {
        Some(change) => change.value,
        None => Logic::X,
    }
}

fn ends_at(time: u64, list: &[Change]) -> bool
    ensures { result ≡ ends_at time (slice_get list.now (length list.now - 1)) }
{
    match list.last() {
        Some(change) => change.time == time,
        None => false,
    }
}

/// Takes the change at this time back, the last one if there is one.
fn undo(list: &mut Vec<Change>, time: u64)
    ensures { list.new.items ≡ undone time list.old.items }
{
    if ends_at(time, list.as_slice()) {
        list.pop();
    }
}

/// Takes in a change after others that aren't later: the last one at a time counts, where it changes the
/// value.
fn settle(list: &mut Vec<Change>, change: Change) -> Result<(), StimFault>
    ensures ok { OnOk result (list.new.items ≡ settled list.old.items change) }
    ensures err { IfErr result (λ e. e ≡ out_of_memory) }
{
    undo(list, change.time);
    if change.value != value_after(list.as_slice()) {
        list.push(change)?;
    }
    Ok(())
}

/// So many lists of no change.
fn empty_lists(alloc: Global, count: usize) -> Result<Vec<Vec<Change>>, StimFault>
    ensures ok { IfOk result (λ lists. lists_in lists.items ≡ replicate count []) }
    ensures err { IfErr result (λ e. e ≡ out_of_memory) }
{
    let mut lists = Vec::with_capacity(alloc, count)?;
    for _ in 0..count {
        lists.push(Vec::new(alloc))?;
    }
    Ok(lists)
}

/// So many times no change that waits.
fn none_waiting(alloc: Global, count: usize) -> Result<Vec<Vec<Stop>>, StimFault>
    ensures ok { IfOk result (λ waiting. waiting_in waiting.items ≡ replicate count []) }
    ensures err { IfErr result (λ e. e ≡ out_of_memory) }
{
    let mut waiting = Vec::with_capacity(alloc, count)?;
    for _ in 0..count {
        waiting.push(Vec::new(alloc))?;
    }
    Ok(waiting)
}

/// Appends a change to those that wait for the list of a number.
fn wait(waiting: &mut Vec<Vec<Stop>>, number: usize, change: Change) -> Result<(), StimFault>
    requires within { number / 256 < length waiting.old.items }
    requires small { number < 4294967296 }
    ensures length { length waiting.new.items ≡ length waiting.old.items }
    ensures ok { OnOk result (waiting_in waiting.new.items ≡ with_change number change (waiting_in waiting.old.items)) }
    ensures err { IfErr result (λ e. e ≡ out_of_memory) }
{
    waiting[number / LISTS].push(Stop {
        time: change.time,
        net: number as u32,
        value: change.value,
    })?;
    Ok(())
}

/// How many changes wait for each list of a bundle.
fn counts_of(waiting: &[Stop]) -> [usize; 256] {
    let mut counts = [0_usize; LISTS];
    for stop in waiting {
        let place = stop.net as usize % LISTS;
        counts[place] = counts[place].wrapping_add(1);
    }
    counts
}

/// Makes room for so many changes more in the list of a number.
fn make_room_at(lists: &mut Vec<Vec<Change>>, number: usize, count: usize) -> Result<(), StimFault>
    ensures length { length lists.new.items ≡ length lists.old.items }
    ensures ok { OnOk result (lists_in lists.new.items ≡ lists_in lists.old.items) }
    ensures err { IfErr result (λ e. e ≡ out_of_memory) }
{
    match lists.get_mut(number) {
        Some(list) => {
            list.reserve(count)?;
            Ok(())
        }
        None => Ok(()),
    }
}

/// Makes room in the lists of a bundle for what waits for them.
fn make_room(lists: &mut Vec<Vec<Change>>, bundle: usize, waiting: &[Stop]) -> Result<(), StimFault>
    ensures length { length lists.new.items ≡ length lists.old.items }
    ensures ok { OnOk result (lists_in lists.new.items ≡ lists_in lists.old.items) }
    ensures err { IfErr result (λ e. e ≡ out_of_memory) }
{
    let counts = counts_of(waiting);
    let first = bundle.wrapping_mul(LISTS);
    for place in 0..LISTS {
        make_room_at(lists, first.wrapping_add(place), counts[place])?;
    }
    Ok(())
}

/// Takes in a change of a bundle.
fn settle_stop(lists: &mut Vec<Vec<Change>>, bundle: usize, stop: Stop) -> Result<(), StimFault>
    ensures length { length lists.new.items ≡ length lists.old.items }
    ensures ok { OnOk result (lists_in lists.new.items ≡ with_stop bundle stop (lists_in lists.old.items)) }
    ensures err { IfErr result (λ e. e ≡ out_of_memory) }
{
    let number = stop.net as usize;
    if number / LISTS != bundle {
        return Ok(());
    }
    match lists.get_mut(number) {
        Some(list) => settle(
            list,
            Change {
                time: stop.time,
                value: stop.value,
            },
        ),
        None => Ok(()),
    }
}

/// Takes in what waits for a bundle.
fn settle_stops(
    lists: &mut Vec<Vec<Change>>,
    bundle: usize,
    waiting: &[Stop],
) -> Result<(), StimFault>
    ensures length { length lists.new.items ≡ length lists.old.items }
    ensures ok { OnOk result (lists_in lists.new.items ≡ with_stops bundle waiting.now (lists_in lists.old.items)) }
    ensures err { IfErr result (λ e. e ≡ out_of_memory) }
{
    make_room(lists, bundle, waiting)?;
    for stop in waiting {
        settle_stop(lists, bundle, *stop)?;
    }
    Ok(())
}

impl Bundles {
    /// So many lists of no change, which a number of 32 bits counts.
    pub fn new(alloc: Global, count: usize) -> Result<Bundles, StimFault>
        ensures ok { IfOk result (λ lists. lists ≡ replicate count []) }
        ensures err { IfErr result (λ e. e ≡ out_of_memory) }
    {
        if count > u32::MAX as usize {
            return Err(StimFault::MEMORY);
        }
        Ok(Bundles {
            lists: empty_lists(alloc, count)?,
            waiting: none_waiting(alloc, count.div_ceil(LISTS))?,
        })
    }

    /// Takes in a change behind others of the list of a number, which aren't later: the last one at a time counts,
    /// where it changes the value.
    pub fn settle(&mut self, number: usize, change: Change) -> Result<(), StimFault>
        requires { number < length self.old }
        ensures ok { OnOk result (self.new ≡ set self.old number (settled (get_or self.old number []) change)) }
        ensures err { IfErr result (λ e. e ≡ out_of_memory) }
    {
        let bundle = number / LISTS;
        wait(&mut self.waiting, number, change)?;
        if self.waiting[bundle].len() < MOST {
            return Ok(());
        }
        settle_stops(&mut self.lists, bundle, self.waiting[bundle].as_slice())?;
        self.waiting[bundle].clear();
        Ok(())
    }

    /// The lists.
    pub fn into_lists(self) -> Result<Vec<Vec<Change>>, StimFault>
        ensures ok { IfOk result (λ lists. lists_in lists.items ≡ self) }
        ensures err { IfErr result (λ e. e ≡ out_of_memory) }
    {
        let Bundles {
            mut lists,
            mut waiting,
        } = self;
        while let Some(stops) = waiting.pop() {
            settle_stops(&mut lists, waiting.len(), stops.as_slice())?;
        }
        Ok(lists)
    }
}
