//! The event of an entry of the index.

ghost use Rattle.std.specs.Prelude.{◌≡◌, Some};
ghost use Rattle.std.specs.Option.{option_map};
ghost use Rattle.delay_model.specs.Events.{event_named};
ghost use Rattle.edge_rules.specs.Found.{HasLiveEvent, unreported};

use crate::graph::Graph;
use delay_model::state::Event;
use mt_base::index_entries::Entry;
use mt_base::keys::{Key, Node};

/// The event of an entry as far as planned edges need it: without what was reported of it, which
/// stands with its call. The entry and the route of the train tell the rest, and the call, which
/// lies far from others of the stop, is not read.
#[inline(always)]
#[tactic(auto, using(crate::proofs::Unreported::told))]
pub(crate) fn event_of(graph: &Graph, entry: &Entry) -> Event
    requires { HasLiveEvent graph.now.state entry.now }
    ensures { option_map unreported (event_named graph.now.state entry.now.node) ≡ Some result }
{
    let Node { train, label, dep } = entry.node;
    Event {
        key: Key {
            time: entry.time,
            train,
            label,
            dep,
        },
        stop: entry.stop,
        route: graph.trains().route(train),
        live: true,
        forecast: None,
        report: None,
    }
}
