//! New calls of a train.

ghost use Rattle.std.specs.Prelude.{◌≡◌, length};
ghost use Rattle.delay_model.specs.Changes.{is_stop};
ghost use Rattle.delay_model.specs.Refusals.{are_at_stops, calls_short};
ghost use Rattle.graph_edit.specs.Values.{Gives};

use delay_model::messages::{Refusal, Short};
use edge_rules::Graph;
use mt_base::new_calls::NewCall;
use mt_base::numbers::StopNo;

/// Whether each of the calls is at a stop, where trains call.
pub(crate) fn are_at_stops(g: &Graph, calls: &[NewCall]) -> bool
    ensures { result ≡ are_at_stops g.now.network calls.now }
{
    for call in calls {
        if !is_stop(g, call.stop) {
            return false;
        }
    }
    true
}

/// Whether the location is there and is a stop.
fn is_stop(g: &Graph, stop: StopNo) -> bool
    ensures { result ≡ is_stop g.now.network.stops stop }
{
    match g.changes().kind(stop) {
        Some(kind) => kind.is_platform(),
        None => false,
    }
}

/// Whether so many calls are spare.
pub(crate) fn check_spare_calls(g: &Graph, calls: &[NewCall]) -> Result<(), Refusal>
    ensures { Gives result (calls_short g.now.state (length calls.now)) }
{
    if (g.trains().spare_calls() as usize) < calls.len() {
        Err(Refusal::Full { what: Short::Calls })
    } else {
        Ok(())
    }
}
