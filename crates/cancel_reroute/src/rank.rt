//! The order of keys along a train, event by event.

ghost use Rattle.std.specs.Prelude.{◌≡◌, ◌+◌, ◌<◌, ◌^◌, [], ◌∷◌, Some, OnOk, length};
ghost use Rattle.delay_model.specs.Effect.{new_calls};
ghost use Rattle.delay_model.specs.Events.{events_at};
ghost use Rattle.graph_edit.specs.Values.{Gives};
ghost use Rattle.cancel_reroute.specs.Ranks.{rank_to, rank_along, last_of};

use delay_model::messages::Refusal;
use delay_model::state::{Call, Event};
use edge_rules::Graph;
use graph_edit::checks::check_rank;
use mt_base::new_calls::NewCall;
use mt_base::numbers::{Label, RouteNo, TrainNo};
use train_nodes::calls::new_call;
use train_nodes::events::event_of;

/// Goes through the events of a train in its order, to find the first edge along it that is against
/// rank.
#[derive(Clone, Copy)]
pub(crate) struct RankCheck {
    /// The last event so far.
    pub(crate) last: Option<Event>,
}

impl RankCheck {
    /// Goes on to the next event.
    pub(crate) fn next(&mut self, g: &Graph, event: &Event) -> Result<(), Refusal>
        ensures answer { Gives result (rank_to g.now.network.opts self.old.last event.now) }
        ensures last { OnOk result (self.new.last ≡ Some event.now) }
    {
        check_edge(g, &self.last, event)?;
        self.last = Some(*event);
        Ok(())
    }

    /// Goes on through the events of a call of the train that has this number and route.
    pub(crate) fn next_call(
        &mut self,
        g: &Graph,
        train: TrainNo,
        route: RouteNo,
        call: &Call,
    ) -> Result<(), Refusal>
        ensures answer { Gives result (rank_along g.now.network.opts self.old.last
            (events_at train route (call.now ∷ []))) }
        ensures last { OnOk result (self.new.last ≡ last_of self.old.last
            (events_at train route (call.now ∷ []))) }
    {
        self.next(g, &event_of(train, route, call, false))?;
        self.next(g, &event_of(train, route, call, true))
    }

    /// Goes on through new calls of the train, which are labelled from `label` on.
    pub(crate) fn next_calls(
        &mut self,
        g: &Graph,
        train: TrainNo,
        route: RouteNo,
        label: u32,
        calls: &[NewCall],
    ) -> Result<(), Refusal>
        requires labels { label + length calls.now < 2 ^ 32 }
        ensures answer { Gives result (rank_along g.now.network.opts self.old.last
            (events_at train route (new_calls label calls.now))) }
        ensures last { OnOk result (self.new.last ≡ last_of self.old.last
            (events_at train route (new_calls label calls.now))) }
    {
        let mut label = label;
        for call in calls {
            self.next_call(g, train, route, &new_call(Label::new(label), call))?;
            label += 1;
        }
        Ok(())
    }
}

/// Whether the edge from the last event, if there is one, to the next one of the train leads to a
/// later key, in time enough.
fn check_edge(g: &Graph, last: &Option<Event>, event: &Event) -> Result<(), Refusal>
    ensures { Gives result (rank_to g.now.network.opts last.now event.now) }
{
    let Some(last) = last else {
        return Ok(());
    };
    match g.edge_along(last, event) {
        None => Ok(()),
        Some(edge) => check_rank(&edge),
    }
}
