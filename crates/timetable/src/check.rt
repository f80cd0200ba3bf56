//! Which messages are refused.

ghost use Rattle.delay_model.specs.Refusals.{refusal};
ghost use Rattle.delay_model.specs.Valid.{IsValid};
ghost use Rattle.graph_edit.specs.Values.{Gives};

use cancel_reroute::check_shape_of_valid;
use delay_model::messages::Refusal;
use edge_rules::Graph;
use graph_edit::{check_choice, check_value_of_valid};
use train_nodes::Msg;
use train_nodes::kinds::Kind;

/// Whether a message is accepted in a valid state, or why it is refused.
pub(crate) fn check(g: &Graph, m: &Msg) -> Result<(), Refusal>
    requires { IsValid g.now.network g.now.state }
    ensures { Gives result (refusal g.now.network g.now.state m.now) }
{
    match m.kind() {
        Kind::Value(value) => check_value_of_valid(g, &value),
        Kind::Choice(choice) => check_choice(g, &choice),
        Kind::Shape(shape) => check_shape_of_valid(g, &shape),
    }
}
