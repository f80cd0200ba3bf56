//! The messages that change which calls a train makes, or which of its events take place.

ghost use Rattle.std.specs.Prelude.{◌≡◌, None};
ghost use Rattle.delay_model.specs.Effect.{effect};
ghost use Rattle.delay_model.specs.Messages.{IsWellFormed};
ghost use Rattle.delay_model.specs.Refusals.{refusal};
ghost use Rattle.delay_model.specs.Valid.{IsValid};
ghost use Rattle.graph_edit.specs.Values.{Gives};
ghost use Rattle.train_nodes.specs.Kinds.{HasFewCalls, message_of_shape};

use crate::cancel::check_cancel;
use crate::extra::check_extra;
use crate::reroute::{check_reroute, check_reroute_of_valid};
use delay_model::messages::Refusal;
use edge_rules::Graph;
use train_nodes::kinds::Shape;

/// Whether a cancellation, a rerouting or an extra train is accepted, or why it is refused.
pub fn check_shape(g: &Graph, s: &Shape<'_>) -> Result<(), Refusal>
    requires well_formed { IsWellFormed (message_of_shape s.now) }
    requires few { HasFewCalls (message_of_shape s.now) }
    ensures { Gives result (refusal g.now.network g.now.state (message_of_shape s.now)) }
{
    match s {
        Shape::Cancel { train, from, to } => check_cancel(g, *train, *from, *to),
        Shape::Reroute {
            train,
            from,
            to,
            via,
        } => check_reroute(g, *train, *from, *to, via),
        Shape::Extra {
            train,
            route,
            calls,
            ..
        } => check_extra(g, *train, *route, calls),
    }
}

/// The same in a valid state: of a rerouted train then only the calls between the two are looked
/// at, and the new ones, where no event behind them is reported.
pub fn check_shape_of_valid(g: &Graph, s: &Shape<'_>) -> Result<(), Refusal>
    requires valid { IsValid g.now.network g.now.state }
    requires well_formed { IsWellFormed (message_of_shape s.now) }
    requires few { HasFewCalls (message_of_shape s.now) }
    ensures { Gives result (refusal g.now.network g.now.state (message_of_shape s.now)) }
{
    match s {
        Shape::Reroute {
            train,
            from,
            to,
            via,
        } => check_reroute_of_valid(g, *train, *from, *to, via),
        Shape::Cancel { .. } | Shape::Extra { .. } => check_shape(g, s),
    }
}

/// Changes the graph as an accepted cancellation, rerouting or extra train says. It takes no
/// memory.
#[tactic(auto, unfolding(delay_model::specs::Effect::effect, delay_model::specs::Refusals::refusal))]
pub fn apply_shape(g: &mut Graph, s: &Shape<'_>)
    requires well_formed { IsWellFormed (message_of_shape s.now) }
    requires accepted { refusal g.old.network g.old.state (message_of_shape s.now) ≡ None }
    ensures { g.new ≡ record g.old { state = effect g.old.state (message_of_shape s.now) } }
{
    match s {
        Shape::Cancel { train, from, to } => g.cancel(*train, *from, *to),
        Shape::Reroute {
            train,
            from,
            to,
            via,
        } => g.reroute(*train, *from, *to, via),
        Shape::Extra {
            day,
            route,
            calls,
            ..
        } => {
            g.add_train(*day, *route, calls);
        }
    }
}
