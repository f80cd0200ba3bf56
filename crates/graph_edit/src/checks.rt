//! Tests of one event or one edge, from which the checks of messages are made.

ghost use Rattle.std.specs.Prelude.{[], ◌∷◌};
ghost use Rattle.delay_model.specs.Refusals.{any_reported, first_against_rank};
ghost use Rattle.graph_edit.specs.Values.{Gives};

use delay_model::messages::Refusal;
use delay_model::state::{Edge, Event};

/// Whether an event is not reported, where it is live; if it is, `Contradiction`.
pub fn check_unreported(event: &Event) -> Result<(), Refusal>
    ensures { Gives result (any_reported (event.now ∷ [])) }
{
    match event.report {
        Some(reported) if event.live => Err(Refusal::Contradiction {
            event: event.key.node(),
            reported,
        }),
        _ => Ok(()),
    }
}

/// Whether the edge leads to an event that is later by key, and the schedule leaves time enough for
/// it; if not, `AgainstRank`.
pub fn check_rank(edge: &Edge) -> Result<(), Refusal>
    ensures { Gives result (first_against_rank (edge.now ∷ [])) }
{
    let earliest = u64::from(edge.from.time.seconds()) + u64::from(edge.weight);
    if edge.from.is_before(&edge.to) && earliest <= u64::from(edge.to.time.seconds()) {
        Ok(())
    } else {
        Err(Refusal::AgainstRank {
            from: edge.from.node(),
            to: edge.to.node(),
        })
    }
}
