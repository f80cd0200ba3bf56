//! Reports and forecasts: those that are given, and those that are corrected or taken back.

ghost use Rattle.std.specs.Prelude.{◌≡◌, [], ◌∷◌, None, IsTrue, OnOk, is_none, nat_lt, not, true};
ghost use Rattle.std.specs.Option.{option_and_then, option_or};
ghost use Rattle.delay_model.specs.declared.messages.Message.{Message as AMessage};
ghost use Rattle.delay_model.specs.declared.messages.Refusal.TheVariants.{Nothing, Unknown};
ghost use Rattle.delay_model.specs.Cuts.{before};
ghost use Rattle.delay_model.specs.Effect.{effect};
ghost use Rattle.delay_model.specs.Events.{is_event, is_live, train_events};
ghost use Rattle.delay_model.specs.Refusals.{refusal, refused_if, first_reported, contradicted_at, has_nothing};
ghost use Rattle.delay_model.specs.Valid.{IsValid};
ghost use Rattle.train_nodes.specs.Calls.{has_event};
ghost use Rattle.train_nodes.specs.Kinds.{message_of_value};
ghost use Rattle.edge_rules.specs.Neighbours.{previous_of};
ghost use Rattle.graph_edit.specs.Values.{Gives, contradicts};

use delay_model::messages::Refusal;
use delay_model::state::Event;
use edge_rules::Graph;
use mt_base::keys::Node;
use mt_base::numbers::Time;
use std::cmp::Ordering;
use train_nodes::Trains;
use train_nodes::kinds::{Value, ValueKind};

/// Whether a message about the report or the forecast of an event is accepted in a valid state, or
/// why it is refused.
#[tactic(auto, using(crate::proofs::ValueLemmas::refused_event, crate::proofs::ValueLemmas::refused_correction, crate::proofs::ValueLemmas::refused_withdrawal))]
pub fn check_value_of_valid(g: &Graph, v: &Value) -> Result<(), Refusal>
    requires valid { IsValid g.now.network g.now.state }
    ensures { Gives result (refusal g.now.network g.now.state (message_of_value v.now)) }
{
    check_live(g, &v.node())?;
    match v {
        Value::Event { node, time, .. } => check_time_of_valid(g, node, *time, false),
        Value::Correct { node, time } => check_correction(g, node, *time),
        Value::Withdraw { node } => check_withdrawal(g, node),
    }
}

/// Changes the graph as an accepted message about the report or the forecast of an event says.
#[tactic(auto, unfolding(delay_model::specs::Effect::effect), using(crate::proofs::ValueLemmas::value_live))]
pub fn apply_value(g: &mut Graph, v: &Value)
    requires accepted { refusal g.old.network g.old.state (message_of_value v.now) ≡ None }
    ensures effect { g.new ≡ record g.old { state = effect g.old.state (message_of_value v.now) } }
{
    match *v {
        Value::Event { kind, node, time } => match kind {
            ValueKind::Report => g.set_report(node, time),
            ValueKind::Forecast => g.set_forecast(node, time),
        },
        Value::Correct { node, time } => match time {
            Some(time) => g.set_report(node, time),
            None => g.clear_report(node),
        },
        Value::Withdraw { node } => g.clear_forecast(node),
    }
}

/// Whether an event is live.
fn check_live(g: &Graph, n: &Node) -> Result<(), Refusal>
    ensures refused { Gives result (refused_if (not (is_live g.now.state n.now)) Unknown) }
    ensures live { OnOk result (IsTrue (is_live g.now.state n.now)) }
{
    if g.trains().live(*n) {
        Ok(())
    } else {
        Err(Refusal::Unknown)
    }
}

/// Whether the report of a live event may be corrected so: no other report of its train contradicts
/// the new time, and there is a report.
fn check_correction(g: &Graph, n: &Node, time: Option<Time>) -> Result<(), Refusal>
    requires valid { IsValid g.now.network g.now.state }
    requires live { IsTrue (is_live g.now.state n.now) }
    ensures { Gives result (option_or (option_and_then
        (λ t. contradicted_at true t n.now (train_events g.now.state n.now.train)) time)
        (refused_if (has_nothing g.now.state (AMessage.Correct n.now time)) Nothing)) }
{
    if let Some(t) = time {
        check_time_of_valid(g, n, t, true)?;
    }
    check_value_there(g.trains().report(*n))
}

/// Whether the forecast of a live event may be taken back: there is one.
fn check_withdrawal(g: &Graph, n: &Node) -> Result<(), Refusal>
    requires live { IsTrue (is_live g.now.state n.now) }
    ensures { Gives result
        (refused_if (has_nothing g.now.state (AMessage.Withdraw n.now)) Nothing) }
{
    check_value_there(g.trains().forecast(*n))
}

/// Whether there is a report to correct or a forecast to withdraw.
fn check_value_there(value: Option<Time>) -> Result<(), Refusal>
    ensures { Gives result (refused_if (is_none value) Nothing) }
{
    match value {
        Some(_) => Ok(()),
        None => Err(Refusal::Nothing),
    }
}

/// Whether a live event may have this time: no report of its train contradicts it, where its own
/// report counts unless it is replaced. Where the reports beside the event leave room for the time,
/// the events of the train are not gone through.
fn check_time_of_valid(g: &Graph, n: &Node, t: Time, replaces: bool) -> Result<(), Refusal>
    requires valid { IsValid g.now.network g.now.state }
    requires live { IsTrue (is_live g.now.state n.now) }
    ensures { Gives result
        (contradicted_at replaces t n.now (train_events g.now.state n.now.train)) }
{
    if leaves_room(g, n, t, replaces) {
        Ok(())
    } else {
        check_time(g, n, t, replaces)
    }
}

/// Whether the reports beside a live event leave room for this time, so that none of its train
/// contradicts it: its own unless it is replaced, the next one and the last one. Along a train the
/// reports do not fall.
fn leaves_room(g: &Graph, n: &Node, t: Time, replaces: bool) -> bool
    requires valid { IsValid g.now.network g.now.state }
    requires live { IsTrue (is_live g.now.state n.now) }
    ensures { result ≡ true
        → contradicted_at replaces t n.now (train_events g.now.state n.now.train) ≡ None }
{
    let trains = g.trains();
    let own = trains.report(*n).unwrap_or(t);
    let next = trains.next_report(*n).unwrap_or(t);
    (replaces || own == t) && t <= next && is_behind_reports(g, n, t)
}

/// Whether the last report before an event of a train is not after this time, and so none before
/// the event is.
fn is_behind_reports(g: &Graph, n: &Node, t: Time) -> bool
    requires valid { IsValid g.now.network g.now.state }
    requires there { IsTrue (has_event g.now.state n.now) }
    ensures { result ≡ true → first_reported (λ r. nat_lt t r)
        (before (is_event n.now) (train_events g.now.state n.now.train)) ≡ None }
{
    let trains = g.trains();
    let mut next = previous(trains, n);
    while let Some(earlier) = next {
        if let Some(reported) = trains.report(earlier) {
            return reported <= t;
        }
        next = previous(trains, &earlier);
    }
    true
}

/// The event before this one on its train. None exactly at the arrival of the first call.
fn previous(trains: &Trains, n: &Node) -> Option<Node>
    requires { IsTrue (has_event trains.now n.now) }
    ensures { result ≡ previous_of trains.now n.now }
{
    if n.dep {
        return Some(Node::arrival(n.train, n.label));
    }
    let before = trains.prev_call(n.train, n.label)?;
    Some(Node::departure(n.train, before))
}

/// Whether an event may have this time: no report of its train contradicts it, where its own
/// report counts unless it is replaced. The first that does, in the train's order, is shown.
fn check_time(g: &Graph, n: &Node, t: Time, replaces: bool) -> Result<(), Refusal>
    ensures { Gives result
        (contradicted_at replaces t n.now (train_events g.now.state n.now.train)) }
{
    let mut passed = false;
    for event in g.trains().events(n.train) {
        let place = if passed {
            Ordering::Greater
        } else if event.key.node().is_same(n) {
            Ordering::Equal
        } else {
            Ordering::Less
        };
        check_report(&event, place, t, replaces)?;
        passed = place.is_ge();
    }
    Ok(())
}

/// Whether the report of an event, if it is live and has one, leaves room for this time of an event
/// of the same train. `place` says where the reported event stands: before that one, at it, or
/// behind it. At it the report counts unless it is replaced.
fn check_report(event: &Event, place: Ordering, t: Time, replaces: bool) -> Result<(), Refusal>
    ensures { Gives result (first_reported (contradicts replaces place t) (event.now ∷ [])) }
{
    let Some(reported) = event.report else {
        return Ok(());
    };
    let contradicted = match place {
        Ordering::Less => t < reported,
        Ordering::Equal => !replaces && reported != t,
        Ordering::Greater => reported < t,
    };
    if !event.live || !contradicted {
        return Ok(());
    }
    Err(Refusal::Contradiction {
        event: event.key.node(),
        reported,
    })
}
