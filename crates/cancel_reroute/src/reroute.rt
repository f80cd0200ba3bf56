//! Reroutings.

ghost use Rattle.std.specs.Prelude.{◌≡◌, ◌+◌, ◌<◌, ◌^◌, IsTrue, false, true, OnOk, length};
ghost use Rattle.delay_model.specs.declared.messages.Message.TheVariants.{Reroute};
ghost use Rattle.delay_model.specs.declared.messages.Refusal.TheVariants.{Unknown};
ghost use Rattle.delay_model.specs.Cuts as Cuts;
ghost use Rattle.delay_model.specs.Cuts.{after, up_to};
ghost use Rattle.delay_model.specs.Edges.{edges_along};
ghost use Rattle.delay_model.specs.Effect.{effect, node_at};
ghost use Rattle.delay_model.specs.Events.{calls_of, is_event, is_live, train_events};
ghost use Rattle.delay_model.specs.Refusals.{any_reported, first_against_rank, is_unknown};
ghost use Rattle.delay_model.specs.Refusals.{refusal, refused_if, stands_before};
ghost use Rattle.delay_model.specs.Touched.{new_events};
ghost use Rattle.delay_model.specs.Valid.{IsValid};
ghost use Rattle.graph_edit.specs.Values.{Gives};
ghost use Rattle.cancel_reroute.specs.Ranks.{rank_along, last_of};

use crate::new_calls::{are_at_stops, check_spare_calls};
use crate::rank::RankCheck;
use delay_model::messages::Refusal;
use edge_rules::Graph;
use graph_edit::checks::check_unreported;
use mt_base::keys::Node;
use mt_base::new_calls::NewCall;
use mt_base::numbers::{Label, TrainNo};

/// Whether a rerouting is accepted, or why it is refused.
#[tactic(auto, unfolding(delay_model::specs::Refusals::refusal))]
pub(crate) fn check_reroute(
    g: &Graph,
    train: TrainNo,
    from: Label,
    to: Label,
    via: &[NewCall],
) -> Result<(), Refusal>
    requires few { length via.now < 2 ^ 31 }
    ensures { Gives result (refusal g.now.network g.now.state (Reroute train from to via.now)) }
{
    check_known(g, train, from, to, via)?;
    check_behind(g, &Node::departure(train, from))?;
    check_rerouted(g, train, from, to, via)?;
    check_spare_calls(g, via)
}

/// The same in a valid state, where of the edges along the train only those at the new calls can be
/// against rank.
#[tactic(auto, unfolding(delay_model::specs::Refusals::refusal))]
pub(crate) fn check_reroute_of_valid(
    g: &Graph,
    train: TrainNo,
    from: Label,
    to: Label,
    via: &[NewCall],
) -> Result<(), Refusal>
    requires valid { IsValid g.now.network g.now.state }
    requires few { length via.now < 2 ^ 31 }
    ensures { Gives result (refusal g.now.network g.now.state (Reroute train from to via.now)) }
{
    check_known(g, train, from, to, via)?;
    check_behind(g, &Node::departure(train, from))?;
    check_joined(g, train, from, to, via)?;
    check_spare_calls(g, via)
}

/// Whether the two calls and the stops of the new ones are there, the departure and the arrival are
/// live, and the one call stands before the other.
fn check_known(
    g: &Graph,
    train: TrainNo,
    from: Label,
    to: Label,
    via: &[NewCall],
) -> Result<(), Refusal>
    ensures known { Gives result (refused_if (is_unknown g.now.network g.now.state
        (Reroute train from to via.now)) Unknown) }
    ensures stand { OnOk result (stands_before from to (calls_of g.now.state train) ≡ true) }
    ensures departs { OnOk result (IsTrue (is_live g.now.state (node_at train from true))) }
    ensures arrives { OnOk result (IsTrue (is_live g.now.state (node_at train to false))) }
{
    let trains = g.trains();
    if !trains.stands_before(train, from, to) {
        return Err(Refusal::Unknown);
    }
    let departs = trains.live(Node::departure(train, from));
    let arrives = trains.live(Node::arrival(train, to));
    if departs && arrives && are_at_stops(g, via) {
        Ok(())
    } else {
        Err(Refusal::Unknown)
    }
}

/// Whether no live event of the train behind this one is reported. The first that is, in the
/// train's order, is shown.
fn check_behind(g: &Graph, n: &Node) -> Result<(), Refusal>
    requires { IsTrue (is_live g.now.state n.now) }
    ensures { Gives result
        (any_reported (after (is_event n.now) (train_events g.now.state n.now.train))) }
{
    let trains = g.trains();
    if trains.next_report(*n).is_none() {
        return Ok(());
    }
    let mut passed = false;
    for event in trains.events_from(n.train, n.label) {
        if passed {
            check_unreported(&event)?;
        }
        passed = passed || event.key.node().is_same(n);
    }
    Ok(())
}

/// Whether no edge along the train, as it is after the rerouting of a valid state, is against rank:
/// none up to the departure of the one call, nor from the arrival of the other on.
#[tactic(auto, using(crate::proofs::RerouteLemmas::train_there))]
fn check_joined(
    g: &Graph,
    train: TrainNo,
    from: Label,
    to: Label,
    via: &[NewCall],
) -> Result<(), Refusal>
    requires valid { IsValid g.now.network g.now.state }
    requires stand { stands_before from to (calls_of g.now.state train) ≡ true }
    requires departs { IsTrue (is_live g.now.state (node_at train from true)) }
    requires arrives { IsTrue (is_live g.now.state (node_at train to false)) }
    requires few { length via.now < 2 ^ 31 }
    ensures { Gives result (first_against_rank (edges_along g.now.network.opts
        (train_events (effect g.now.state (Reroute train from to via.now)) train))) }
{
    let trains = g.trains();
    let departure = trains.event(Node::departure(train, from));
    let arrival = trains.event(Node::arrival(train, to));
    let mut check = RankCheck {
        last: Some(departure),
    };
    check_new(g, &mut check, train, via)?;
    check.next(g, &arrival)
}

/// Whether no edge along the train, as it is after the rerouting, is against rank.
#[tactic(auto, using(crate::proofs::RerouteLemmas::rerouted_rank, crate::proofs::RerouteLemmas::train_there))]
fn check_rerouted(
    g: &Graph,
    train: TrainNo,
    from: Label,
    to: Label,
    via: &[NewCall],
) -> Result<(), Refusal>
    requires stand { stands_before from to (calls_of g.now.state train) ≡ true }
    requires few { length via.now < 2 ^ 31 }
    ensures { Gives result (first_against_rank (edges_along g.now.network.opts
        (train_events (effect g.now.state (Reroute train from to via.now)) train))) }
{
    let mut check = RankCheck { last: None };
    check_front(g, &mut check, &Node::departure(train, from))?;
    check_new(g, &mut check, train, via)?;
    check_back(g, &mut check, &Node::arrival(train, to))
}

/// Goes on through the events of the train up to a departure.
fn check_front(g: &Graph, check: &mut RankCheck, departure: &Node) -> Result<(), Refusal>
    ensures answer { Gives result (rank_along g.now.network.opts check.old.last
        (up_to (is_event departure.now) (train_events g.now.state departure.now.train))) }
    ensures last { OnOk result (check.new.last ≡ last_of check.old.last
        (up_to (is_event departure.now) (train_events g.now.state departure.now.train))) }
{
    for event in g.trains().events(departure.train) {
        check.next(g, &event)?;
        if event.key.node().is_same(departure) {
            break;
        }
    }
    Ok(())
}

/// Goes on through the events of new calls of the train.
fn check_new(
    g: &Graph,
    check: &mut RankCheck,
    train: TrainNo,
    via: &[NewCall],
) -> Result<(), Refusal>
    requires there { train < length g.now.state.trains }
    requires few { length via.now < 2 ^ 31 }
    ensures answer { Gives result (rank_along g.now.network.opts check.old.last
        (new_events g.now.state train via.now)) }
    ensures last { OnOk result (check.new.last ≡ last_of check.old.last
        (new_events g.now.state train via.now)) }
{
    let route = g.trains().route(train);
    let label = g.trains().next_label(train);
    check.next_calls(g, train, route, label.get(), via)
}

/// Goes on through the events of the train from an arrival on.
fn check_back(g: &Graph, check: &mut RankCheck, arrival: &Node) -> Result<(), Refusal>
    ensures { Gives result (rank_along g.now.network.opts check.old.last
        (Cuts.from (is_event arrival.now) (train_events g.now.state arrival.now.train))) }
{
    let mut arrived = false;
    for event in g.trains().events_from(arrival.train, arrival.label) {
        arrived = arrived || event.key.node().is_same(arrival);
        if arrived {
            check.next(g, &event)?;
        }
    }
    Ok(())
}
