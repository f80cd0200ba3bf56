//! Extra trains.

ghost use Rattle.std.specs.Prelude.{◌≡◌, ℕ, ◌<◌, ◌≤◌, ◌^◌, length, nat_eq};
ghost use Rattle.std.specs.Option.{option_or};
ghost use Rattle.delay_model.specs.declared.messages.Message.TheVariants.{Extra};
ghost use Rattle.delay_model.specs.declared.messages.Refusal.TheVariants.{Full};
ghost use Rattle.delay_model.specs.declared.messages.Short.TheVariants.{Trains};
ghost use Rattle.delay_model.specs.Edges.{edges_along};
ghost use Rattle.delay_model.specs.Effect.{begin_run, effect, end_run, new_calls};
ghost use Rattle.delay_model.specs.Events.{events_at, train_events};
ghost use Rattle.delay_model.specs.Refusals.{calls_short, first_against_rank, refusal, refused_if};
ghost use Rattle.graph_edit.specs.Values.{Gives};

use crate::new_calls::{are_at_stops, check_spare_calls};
use crate::rank::RankCheck;
use delay_model::messages::{Refusal, Short};
use edge_rules::Graph;
use mt_base::new_calls::NewCall;
use mt_base::numbers::{Label, RouteNo, TrainNo};
use train_nodes::calls::new_call;

/// Whether an extra train is accepted, or why it is refused.
#[tactic(auto, unfolding(delay_model::specs::Refusals::refusal), using(crate::proofs::ExtraLemmas::refusal_of_extra))]
pub(crate) fn check_extra(
    g: &Graph,
    train: TrainNo,
    route: RouteNo,
    calls: &[NewCall],
) -> Result<(), Refusal>
    requires two { 2 ≤ length calls.now }
    requires few { length calls.now < 2 ^ 31 }
    ensures { (day : ℕ) → Gives result (refusal g.now.network g.now.state
        (Extra train day route calls.now)) }
{
    let trains = g.trains();
    if train.get() > trains.count() || !are_at_stops(g, calls) {
        return Err(Refusal::Unknown);
    }
    if train.get() < trains.count() {
        return Err(Refusal::Known);
    }
    check_run(g, train, route, calls)?;
    check_room(g, calls)
}

/// Whether a train is spare, and so many calls.
fn check_room(g: &Graph, calls: &[NewCall]) -> Result<(), Refusal>
    ensures { Gives result (option_or (refused_if (nat_eq g.now.state.spare_trains 0)
        (Full Trains)) (calls_short g.now.state (length calls.now))) }
{
    if g.trains().spare_trains() == 0 {
        return Err(Refusal::Full {
            what: Short::Trains,
        });
    }
    check_spare_calls(g, calls)
}

/// Whether no edge along a new train is against rank. The arrival of its first call and the
/// departure of its last do not take place.
fn check_run(g: &Graph, train: TrainNo, route: RouteNo, calls: &[NewCall]) -> Result<(), Refusal>
    requires two { 2 ≤ length calls.now }
    requires few { length calls.now < 2 ^ 31 }
    ensures { Gives result (first_against_rank (edges_along g.now.network.opts
        (events_at train route (begin_run (end_run (new_calls 0 calls.now)))))) }
{
    let [first, between @ .., last] = calls else {
        return Ok(());
    };
    let mut check = RankCheck { last: None };
    let mut first = new_call(Label::new(0), first);
    first.arrival.live = false;
    check.next_call(g, train, route, &first)?;
    check.next_calls(g, train, route, 1, between)?;
    let mut last = new_call(Label::new(calls.len() as u32 - 1), last);
    last.departure.live = false;
    check.next_call(g, train, route, &last)
}
