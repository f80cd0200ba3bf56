//! What the edges between trains ask for that lead to an event, by stored times.

ghost use Rattle.std.specs.Prelude.{◌≡◌, ◌<◌, ◌^◌, true, All};
ghost use Rattle.edge_rules.specs.Asking.{IsLater, IsReady};
ghost use Rattle.edge_rules.specs.Found.{HaveLiveEvents, kept_at, planned_at, waits_at};
ghost use Rattle.edge_rules.specs.Wanted.{Into};

use crate::graph::Graph;
use crate::kept::kept_edges;
use crate::planned_into::{NearFeeders, feeding_stops, near_feeders};
use crate::rule::later_by;
use delay_model::state::Event;
use station_index::StationIndex;
use std::sync::ledger::Ledger;
use train_nodes::{NodeTimes, Steps};

/// The latest of a time and of what the planned edges ask for that lead to an event. To read the
/// stored time for each of these takes a step.
#[tactic(auto, using(crate::proofs::NoneFound::none_found, crate::proofs::SoFar::so_far))]
pub(crate) fn later_by_planned<L: Ledger>(
    graph: &Graph,
    index: &StationIndex,
    at: &Event,
    so_far: u32,
    times: &NodeTimes,
    steps: &mut Steps<L>,
) -> u32
    requires entries { HaveLiveEvents graph.now.state index.now.entries }
    requires ready { All (IsReady times.now)
        (planned_at graph.now index.now.entries (Into (waits_at graph.now at.now)) at.now) }
    requires small { so_far < 2 ^ 25 }
    ensures { IsLater times.now so_far steps.old
        (planned_at graph.now index.now.entries (Into (waits_at graph.now at.now)) at.now)
        result steps.new }
{
    if !at.key.dep {
        return so_far;
    }
    let Some(waits) = graph.class(at) else {
        return so_far;
    };
    let mut time = so_far;
    let changes = feeding_stops(graph, at.stop);
    for change in changes {
        let near = near_feeders(graph, index, &waits, at, change);
        time = later_by_near(near, time, times, steps);
    }
    time
}

/// The latest of a time and of what the planned edges ask for that lead to a departure by one
/// change.
#[inline(always)]
#[tactic(auto, using(crate::proofs::SoFar::so_far))]
fn later_by_near<L: Ledger>(
    edges: NearFeeders<'_>,
    so_far: u32,
    times: &NodeTimes,
    steps: &mut Steps<L>,
) -> u32
    requires ready { All (IsReady times.now) edges }
    requires small { so_far < 2 ^ 25 }
    ensures { IsLater times.now so_far steps.old edges.entry result steps.new }
{
    let mut time = so_far;
    for edge in edges {
        time = later_by(&edge, time, times, steps);
    }
    time
}

/// The latest of a time and of what the kept edges ask for that lead to an event. To read the
/// stored time for each of these takes a step.
#[tactic(auto, using(crate::proofs::NoneFound::none_found, crate::proofs::SoFar::so_far))]
pub(crate) fn later_by_kept<L: Ledger>(
    graph: &Graph,
    at: &Event,
    so_far: u32,
    times: &NodeTimes,
    steps: &mut Steps<L>,
) -> u32
    requires ready { All (IsReady times.now) (kept_at graph.now true at.now) }
    requires small { so_far < 2 ^ 25 }
    ensures { IsLater times.now so_far steps.old (kept_at graph.now true at.now) result steps.new }
{
    let Some(edges) = kept_edges(graph, true, at) else {
        return so_far;
    };
    let mut time = so_far;
    for edge in edges {
        time = later_by(&edge, time, times, steps);
    }
    time
}
