//! Cancellations.

ghost use Rattle.std.specs.Prelude.{◌≡◌, not};
ghost use Rattle.delay_model.specs.declared.messages.Message.TheVariants.{Cancel};
ghost use Rattle.delay_model.specs.declared.messages.Refusal.TheVariants.{Unknown};
ghost use Rattle.delay_model.specs.Cuts as Cuts;
ghost use Rattle.delay_model.specs.Cuts.{up_to};
ghost use Rattle.delay_model.specs.Events.{calls_of, is_event, train_events};
ghost use Rattle.delay_model.specs.Refusals.{any_reported, refusal, refused_if, stands_before};
ghost use Rattle.graph_edit.specs.Values.{Gives};

use delay_model::messages::Refusal;
use edge_rules::Graph;
use graph_edit::checks::check_unreported;
use mt_base::keys::Node;
use mt_base::numbers::{Label, TrainNo};

/// Whether a cancellation is accepted, or why it is refused.
#[tactic(auto, unfolding(delay_model::specs::Refusals::refusal))]
pub(crate) fn check_cancel(g: &Graph, train: TrainNo, from: Label, to: Label) -> Result<(), Refusal>
    ensures { Gives result (refusal g.now.network g.now.state (Cancel train from to)) }
{
    if !g.trains().stands_before(train, from, to) {
        return Err(Refusal::Unknown);
    }
    let departure = Node::departure(train, from);
    let arrival = Node::arrival(train, to);
    check_stretch(g, &departure, &arrival)
}

/// Whether no live event of the train from the departure to the arrival is reported. The first that
/// is, in the train's order, is shown.
fn check_stretch(g: &Graph, departure: &Node, arrival: &Node) -> Result<(), Refusal>
    ensures { Gives result
        (any_reported (up_to (is_event arrival.now)
        (Cuts.from (is_event departure.now) (train_events g.now.state departure.now.train)))) }
{
    let mut departed = false;
    for event in g.trains().events_from(departure.train, departure.label) {
        let node = event.key.node();
        departed = departed || node.is_same(departure);
        if departed {
            check_unreported(&event)?;
        }
        if departed && node.is_same(arrival) {
            break;
        }
    }
    Ok(())
}
