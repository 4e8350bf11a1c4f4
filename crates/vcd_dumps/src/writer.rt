//! A dump that is written as its changes come.

ghost use Rattle.std.specs.Prelude.{◌≡◌, ◌<◌, ◌≤◌, ℕ, ◌++◌, List, [], true, map, length, IfOk, IfSome, codes, get_or};
ghost use Rattle.std.specs.List.{AllByRecursion};
ghost use Rattle.std.proofs.Common.{sym, subst, append-nil, append_assoc};
ghost use Rattle.gate_values.specs.declared.logic.Change.{Change};
ghost use Rattle.gate_values.specs.declared.logic.Logic.TheVariants.{X};
ghost use Rattle.byte_sinks.specs.Lots.{Passes};
ghost use Rattle.gate_netlist.specs.Circuit.{nets_of};
ghost use Rattle.net_waves.specs.declared.timeline.Stop.{Stop};
ghost use Rattle.net_waves.specs.First.{first_from};
ghost use Rattle.net_waves.specs.Timeline.{stop_by};
ghost use Rattle.net_waves.specs.Stops.{AreStopsOf};
ghost use Rattle.net_waves.specs.Waves.{wave_of, wave_value, IsWave, IsUntil};
ghost use Rattle.vcd_dumps.specs.Dump.{header, first_lines, moments};
ghost use Rattle.vcd_dumps.specs.Walk.{walked, last_stop};
ghost use Rattle.vcd_dumps.specs.Shown.Written.{Rises, HasTaken, Took};

use crate::dump::{put_header, put_stop, put_tail, put_values};
use crate::pieces::taken;
use byte_sinks::{Grow, Lot, Sink};
use gate_netlist::Circuit;
use gate_stimulus::Timescale;
use gate_values::Logic;
use net_waves::{NetMove, Stop, Taker, take_first};
use std::alloc::{AllocError, Global};

/// So many nets a dump may have; each change has a place, so many a time.
const NETS: u32 = 1_000_000;

/// No change is written at this time, or later.
const TIMES: u64 = 1_099_511_627_776;

/// The text of a dump up to some change, behind which later ones may be written. The values at time 0 are written before the first
/// later change.
#[derive(Drop)]
pub struct Writer {
    sink: Grow,
    lot: Lot,
    /// The value of each net at time 0.
    firsts: Vec<Logic>,
    /// Whether these are written.
    begun: bool,
    /// The time of the last change.
    last: u64,
    /// From which place on changes may come.
    place: u64,
}

/// The place behind those of moves of a time, if each has one and they rise, from a place on.
fn place_behind(place: u64, time: u64, moves: &[NetMove]) -> Option<u64>
    requires { time < TIMES }
    ensures { IfSome result (Rises place (map (stop_by time) moves.now)) }
{
    let base = time * u64::from(NETS);
    let mut next = place;
    for one in moves {
        let here = base + u64::from(one.net);
        if one.net >= NETS || here < next {
            return None;
        }
        next = here + 1;
    }
    Some(next)
}

/// Takes the values of nets at time 0.
fn take_firsts(firsts: &mut [Logic], moves: &[NetMove])
    ensures length { length firsts.new ≡ length firsts.old }
    ensures each { (n : ℕ) → n < length firsts.old → get_or firsts.new n X ≡ first_from (get_or firsts.old n X) (map (stop_by 0) moves.now) n }
{
    for one in moves {
        take_first(
            firsts,
            Stop {
                time: 0,
                net: one.net,
                value: one.value,
            },
        );
    }
}

/// Puts the changes of a time, which follow one at the time `last`. Returns the last time.
fn put_moves<S: Sink>(
    sink: &mut S,
    lot: &mut Lot,
    mut last: u64,
    time: u64,
    moves: &[NetMove],
) -> u64
    requires { AllByRecursion (λ (s : Stop). s.net < 1000000) (map (stop_by time) moves.now) }
    ensures text { Passes (S.held sink.old) (S.held sink.new) lot.old (walked last (map (stop_by time) moves.now)) lot.new }
    ensures last { result ≡ last_stop last (map (stop_by time) moves.now) }
{
    for one in moves {
        let stop = Stop {
            time,
            net: one.net,
            value: one.value,
        };
        put_stop(sink, lot, last, stop);
        last = time;
    }
    last
}

impl Writer {
    /// A writer of the dump of a circuit's nets, in the scope `top`, that has taken no change. An error is a refused growth.
    pub fn new(alloc: Global, circuit: &Circuit, scale: Timescale) -> Result<Writer, AllocError>
        ensures { IfOk result (λ writer. HasTaken (header (codes "top") circuit.now.names scale) (nets_of circuit.now) [] writer) }
    {
        let firsts = vec![in alloc; Logic::X; circuit.nets() as usize]?;
        let mut sink = Grow::new(alloc);
        let mut lot = Lot::new();
        put_header(&mut sink, &mut lot, "top", circuit, scale);
        Ok(Writer {
            sink,
            lot,
            firsts,
            begun: false,
            last: 0,
            place: 0,
        })
    }

    /// Puts the values at time 0, if they aren't put, and there are no more than a dump may have.
    fn begin(&mut self)
        ensures taken { (head : List ℕ) (nets : ℕ) (stops : List Stop) → HasTaken head nets stops self.old → HasTaken head nets stops self.new }
        ensures begun { length self.old.firsts.items ≤ 1000000 → self.new.begun ≡ true }
    {
        if self.begun || self.firsts.len() > NETS as usize {
            return;
        }
        put_values(&mut self.sink, &mut self.lot, self.firsts.as_slice());
        self.lot.put_text(&mut self.sink, "$end\n");
        self.begun = true;
    }

    /// Takes the changes of time 0, if it can.
    fn take_now(&mut self, moves: &[NetMove]) -> bool
        ensures { result ≡ true → Took self.old self.new (map (stop_by 0) moves.now) }
    {
        let Some(place) = place_behind(self.place, 0, moves) else {
            return false;
        };
        if self.begun {
            return false;
        }
        take_firsts(self.firsts.as_mut_slice(), moves);
        self.place = place;
        true
    }

    /// Takes the changes of a later time, if it can.
    fn take_later(&mut self, time: u64, moves: &[NetMove]) -> bool
        requires later { 0 < time }
        requires soon { time < TIMES }
        requires begun { self.old.begun ≡ true }
        ensures { result ≡ true → Took self.old self.new (map (stop_by time) moves.now) }
    {
        let Some(place) = place_behind(self.place, time, moves) else {
            return false;
        };
        self.last = put_moves(&mut self.sink, &mut self.lot, self.last, time, moves);
        self.place = place;
        true
    }

    /// The whole text, with the line of the horizon where that is later than the last change. An error is a refused growth.
    pub fn finish(self, horizon: u64) -> Result<Vec<u8>, AllocError>
        ensures { (head : List ℕ) (stops : List Stop) (lists : List (List Change)) → HasTaken head (length lists) stops self → AreStopsOf lists stops → ((n : ℕ) → IsWave (wave_of lists n)) → ((n : ℕ) → IsUntil horizon (wave_of lists n)) →
            IfOk result (λ text. text.items ≡ head ++ (first_lines (wave_value lists) (length lists) ++ (codes "$end\n" ++ moments (wave_value lists) (length lists) horizon horizon))) }
    {
        let mut writer = self;
        writer.begin();
        let Writer {
            mut sink,
            mut lot,
            last,
            ..
        } = writer;
        put_tail(&mut sink, &mut lot, last, horizon);
        taken(sink, lot)
    }
}

impl Taker for Writer {
    ghost took = { Took };

    ghost nothing = { λ x head nets stops taken. subst (λ (all : List Stop). HasTaken head nets all x) (sym (append-nil stops)) taken };

    ghost together = { λ x y z some others first then head nets stops taken. subst (λ (all : List Stop). HasTaken head nets all z) (append_assoc stops some others) (then head nets (stops ++ some) (first head nets stops taken)) };

    fn take_all(&mut self, time: u64, moves: &[NetMove]) -> Result<bool, AllocError> {
        if time >= TIMES || self.firsts.len() > NETS as usize {
            return Ok(false);
        }
        if time == 0 {
            return Ok(self.take_now(moves));
        }
        self.begin();
        let done = self.take_later(time, moves);
        if self.sink.failed() {
            return Err(AllocError);
        }
        Ok(done)
    }
}
