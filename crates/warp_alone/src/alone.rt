//! The changes of a circuit's nets by time.
ghost use Rattle.std.specs.Prelude.{◌≡◌, ◌≤◌, ◌+◌, true, List, IfOk, IfSome};
ghost use Rattle.gate_stimulus.specs.Given.{Fits};
ghost use Rattle.net_waves.specs.declared.timeline.Stop.{Stop};
ghost use Rattle.net_waves.specs.ByTime.{stops_in};
ghost use Rattle.net_waves.specs.Stops.{AreStopsOf};
ghost use Rattle.warp_process.specs.Heard.{IsReceived};
ghost use Rattle.warp_process.specs.Limits.{most_horizon};
ghost use Rattle.warp_process.specs.Opening.{silent_view};
ghost use Rattle.warp_process.specs.Played.{played_view};
ghost use Rattle.part_engine.specs.Histories.{TellLogs};
ghost use Rattle.warp_core.specs.OwnNets.{AreOwn};
ghost use Rattle.warp_core.specs.Values.{circuit_waves};

use crate::playing::history_of;
use gate_netlist::{Circuit, Cut};
use gate_stimulus::Stimulus;
use history_waves::{no_changes, tell_history};
use net_waves::{ByTime, Taker, stops_by_time};
use std::alloc::{AllocError, Global};
use warp_core::{given_lists, own_nets};
use warp_part::Part;
use warp_rounds::Watch;
use warp_stores::{Steps, Word};

/// Gives a taker all changes of the values of a circuit's nets under a stimulus, by time, up to a horizon. The stimulus fits the circuit;
/// the horizon is at most [`MOST_HORIZON`](warp_process::MOST_HORIZON). Tells whether it took all: not where it can't take one, or they
/// don't come one behind the other. The watch is told now and then how far the run has come. An error is a refused growth.
pub fn tell_alone<W: Watch, T: Taker>(
    alloc: Global,
    circuit: &Circuit,
    stimulus: &Stimulus,
    horizon: u64,
    watch: &mut W,
    taker: &mut T,
) -> Result<bool, AllocError>
    requires stimulus { Fits stimulus.now circuit.now }
    requires horizon { horizon ≤ most_horizon }
    ensures { IfOk result (λ done. done ≡ true → ((all : List Stop) × T.took taker.old taker.new all × AreStopsOf (circuit_waves circuit.now stimulus.now horizon) all)) }
{
    let cut = Cut::even(alloc, circuit, 1)?;
    cut.law();
    stimulus.law();
    let part = Part::of(alloc, circuit, &cut, 0)?;
    part.law();
    let played = play_part(alloc, part, stimulus, horizon, watch)?;
    let Played { own, history } = played;
    let lists = given_lists(alloc, circuit.nets(), &cut, stimulus, horizon)?;
    let given = stops_by_time(alloc, lists.as_slice())?;
    let done = tell_history(alloc, own.as_slice(), &history, given.as_slice(), taker)?;
    Ok(done)
}

/// All changes of the values of a circuit's nets under a stimulus, by time, up to a horizon, as [`tell_alone`] gives them. There is no
/// answer where they have no form in which they can be had by time as they come.
pub fn changes_alone<W: Watch>(
    alloc: Global,
    circuit: &Circuit,
    stimulus: &Stimulus,
    horizon: u64,
    watch: &mut W,
) -> Result<Option<ByTime>, AllocError>
    requires stimulus { Fits stimulus.now circuit.now }
    requires horizon { horizon ≤ most_horizon }
    ensures { IfOk result (λ all. IfSome all (λ by_time. AreStopsOf (circuit_waves circuit.now stimulus.now horizon) (stops_in by_time))) }
{
    let mut by_time = no_changes(alloc, horizon);
    if tell_alone(alloc, circuit, stimulus, horizon, watch, &mut by_time)? {
        return Ok(Some(by_time));
    }
    Ok(None)
}

// All that comes true in a part, and which net each of its own places is.
#[derive(Drop)]
struct Played {
    own: Vec<Option<u32>>,
    history: Steps<Word>,
}

// A part that is played up to a horizon, where nothing is received but the stimulus.
fn play_part<W: Watch>(
    alloc: Global,
    part: Part,
    stimulus: &Stimulus,
    horizon: u64,
    watch: &mut W,
) -> Result<Played, AllocError>
    requires { horizon ≤ most_horizon }
    ensures own { IfOk result (λ played. AreOwn part played.own.items) }
    ensures received { IfOk result (λ _. IsReceived (silent_view part stimulus.now horizon)) }
    ensures told { IfOk result (λ played. TellLogs (played_view (silent_view part stimulus.now horizon) (horizon + 1)) played.history) }
{
    let own = own_nets(alloc, &part)?;
    let history = history_of(alloc, part, stimulus, horizon, watch)?;
    Ok(Played { own, history })
}
