//! Which queue each place of a part puts out into: one for each delay, those of places that gates read first.
ghost use Rattle.std.specs.Prelude.{◌≡◌, ◌<◌, ◌≤◌, true, false, IfOk, length};
ghost use Rattle.std.specs.List.Sorted.{IsStrictlyIncreasing};
ghost use Rattle.warp_part.specs.Shown.Building.{place_of};
ghost use Rattle.part_engine.specs.Inner.Queues.{puts_out, number_at, HasDelays, AreNumbers, AreQueues};

use std::alloc::{AllocError, Global};
use warp_part::Part;

/// For each place the number of its queue, and the delays of the queues: of places that gates read, and of the others.
#[derive(Debug, Drop)]
pub(crate) struct Queued {
    numbers: Vec<u32>,
    read: Vec<u32>,
    unread: Vec<u32>,
}

impl Queued {
    /// Those of a part. An error is a refused growth.
    pub(crate) fn of(alloc: Global, part: &Part) -> Result<Queued, AllocError>
        ensures { IfOk result (λ queued. AreQueues part.now queued.numbers.items queued.read.items queued.unread.items) }
    {
        let read = delays_of(alloc, part, true)?;
        let unread = delays_of(alloc, part, false)?;
        let numbers = numbers_of(alloc, part, read.as_slice(), unread.as_slice())?;
        Ok(Queued {
            numbers,
            read,
            unread,
        })
    }

    /// The number of each place's queue.
    pub(crate) fn numbers(&self) -> &[u32]
        ensures { result.now ≡ self.now.numbers.items }
    {
        self.numbers.as_slice()
    }

    /// The delays of the queues of places that gates read.
    pub(crate) fn read(&self) -> &[u32]
        ensures { result.now ≡ self.now.read.items }
    {
        self.read.as_slice()
    }

    /// The delays of the other queues.
    pub(crate) fn unread(&self) -> &[u32]
        ensures { result.now ≡ self.now.unread.items }
    {
        self.unread.as_slice()
    }
}

/// The delays of the own nets that gates read, or of those that none reads: ascending, each once.
fn delays_of(alloc: Global, part: &Part, used: bool) -> Result<Vec<u32>, AllocError>
    ensures { IfOk result (λ delays. HasDelays part.now used delays.items) }
{
    let mut delays = Vec::new(alloc);
    for slot in 0..part.len() {
        if is_put_out(part, slot, used) {
            delays.push(part.delay(slot) as u32)?;
        }
    }
    delays.sort_unstable();
    delays.dedup();
    Ok(delays)
}

/// Whether a place is of an own net that gates read, or that none reads.
fn is_put_out(part: &Part, slot: usize, used: bool) -> bool
    requires { slot < length part.now.nets }
    ensures { result ≡ puts_out part.now used slot }
{
    part.is_own(slot) && part.is_used(slot) == used
}

/// For each place the number of its queue; 0 for a place that puts out nothing.
fn numbers_of(
    alloc: Global,
    part: &Part,
    read: &[u32],
    unread: &[u32],
) -> Result<Vec<u32>, AllocError>
    requires read { HasDelays part.now true read.now }
    requires unread { HasDelays part.now false unread.now }
    ensures { IfOk result (λ numbers. AreNumbers part.now read.now unread.now (length part.now.nets) numbers.items) }
{
    let mut numbers = Vec::with_capacity(alloc, part.len())?;
    for slot in 0..part.len() {
        numbers.push(number_of(part, slot, read, unread))?;
    }
    Ok(numbers)
}

/// The number of a place's queue; 0 where it puts out nothing.
fn number_of(part: &Part, slot: usize, read: &[u32], unread: &[u32]) -> u32
    requires slot { slot < length part.now.nets }
    requires read { HasDelays part.now true read.now }
    requires unread { HasDelays part.now false unread.now }
    ensures { result ≡ number_at part.now read.now unread.now slot }
{
    if !part.is_own(slot) {
        return 0;
    }
    let delay = part.delay(slot) as u32;
    if part.is_used(slot) {
        place_in(read, delay)
    } else {
        read.len() as u32 + place_in(unread, delay)
    }
}

/// The place of a number among others, which ascend; 0 where it isn't there.
fn place_in(numbers: &[u32], number: u32) -> u32
    requires rising { IsStrictlyIncreasing numbers.now }
    requires few { length numbers.now ≤ 1000000 }
    ensures place { result ≡ place_of numbers.now number }
    ensures few { result ≤ 1000000 }
{
    match numbers.binary_search(&number) {
        Ok(place) => place as u32,
        Err(_) => 0,
    }
}
