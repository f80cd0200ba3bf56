//! The planned edges that lead to a departure, found in the index of events.

ghost use Rattle.std.specs.Prelude.{◌≡◌, ◌-◌, [], true, false, flat_map, unwrap_or};
ghost use Rattle.std.specs.Option.{option_to_list};
ghost use Rattle.std.specs.Iterator.{YieldsFirst, item_count};
ghost use Rattle.change_times.specs.Reach.{reached_back};
ghost use Rattle.station_index.specs.Indexed.{entries_in};
ghost use Rattle.edge_rules.specs.Found.{HasLiveEvent, HaveLiveEvents, of_entry, planned_at};
ghost use Rattle.edge_rules.specs.Found.{planned_by, planned_with, tables_in, waits_at};
ghost use Rattle.edge_rules.specs.Wanted.{Into};

use crate::entry_events::event_of;
use crate::graph::Graph;
use change_times::Change;
use delay_model::state::{Edge, Event};
use mt_base::index_entries::Entry;
use mt_base::numbers::StopNo;
use station_index::{Range, StationIndex};
use std::marker::Model;
use waiting_rules::WaitClass;

/// The planned edges that lead to a departure by one change. It is seen as the list of those that
/// are still to come.
#[derive(Drop)]
pub(crate) struct NearFeeders<'a> {
    graph: &'a Graph,
    /// How long the train of the departure waits.
    waits: &'a WaitClass<'a>,
    at: &'a Event,
    /// How long the change takes, in seconds.
    seconds: u32,
    /// The entries of the arrivals that are still to come.
    entries: Range<'a>,
}

impl<'a> Model for NearFeeders<'a> {
    ghost use Rattle.std.specs.Prelude.{List, flat_map};
    ghost use Rattle.delay_model.specs.declared.state.Edge.{Edge};
    ghost use Rattle.edge_rules.specs.Found.{of_entry, planned_with};
    ghost use Rattle.edge_rules.specs.Wanted.{Into};

    ghost Value = { List Edge };

    ghost view = { λ a. flat_map (of_entry a.graph.now.state
        (planned_with a.graph.now (Into a.waits.now) a.at.now a.seconds)) a.entries };

    ghost use Rattle.edge_rules.specs.InsidePlanned.{AreFeedersNear};

    ghost invariant = { AreFeedersNear };
}

impl<'a> Iterator for NearFeeders<'a> {
    type Item = Edge;

    ghost next_gives = { YieldsFirst (λ s. s) };

    ghost remaining = { item_count (λ s. s) };

    fn next(&mut self) -> Option<Edge> {
        next_near(
            self.graph,
            self.waits,
            self.at,
            self.seconds,
            &mut self.entries,
        )
    }
}

/// The planned edges that lead to a departure, stop by stop. It is seen as the list of those that
/// are still to come.
#[derive(Drop)]
pub(crate) struct PlannedInto<'a> {
    graph: &'a Graph,
    index: &'a StationIndex,
    /// How long the train of the departure waits.
    waits: WaitClass<'a>,
    at: Event,
    /// The stops at the other end that are still to come.
    changes: &'a [Change],
    /// How long the change takes that joins the stop that is looked at, in seconds.
    seconds: u32,
    /// The entries of that stop that are still to come, if a stop is looked at.
    near: Option<Range<'a>>,
}

impl<'a> Model for PlannedInto<'a> {
    ghost use Rattle.std.specs.Prelude.{List, [], ◌++◌, flat_map, unwrap_or};
    ghost use Rattle.delay_model.specs.declared.state.Edge.{Edge};
    ghost use Rattle.edge_rules.specs.Found.{of_entry, planned_by, planned_with};
    ghost use Rattle.edge_rules.specs.Wanted.{Into};

    ghost Value = { List Edge };

    ghost view = { λ a. flat_map (of_entry a.graph.now.state
        (planned_with a.graph.now (Into a.waits) a.at a.seconds)) (unwrap_or a.near [])
        ++ flat_map (planned_by a.graph.now a.index.now.entries (Into a.waits) a.at)
        a.changes.now };

    ghost use Rattle.edge_rules.specs.InsidePlanned.{IsConsistentInto};

    ghost invariant = { IsConsistentInto };
}

impl<'a> Iterator for PlannedInto<'a> {
    type Item = Edge;

    ghost next_gives = { YieldsFirst (λ s. s) };

    ghost remaining = { item_count (λ s. s) };

    fn next(&mut self) -> Option<Edge> {
        let mut edge = next_into(
            self.graph,
            &self.waits,
            &self.at,
            self.seconds,
            &mut self.near,
        );
        while edge.is_none() && !self.changes.is_empty() {
            let change = self.changes[0];
            self.changes = &self.changes[1..];
            self.seconds = change.seconds;
            self.near = Some(arrivals_near(self.graph, self.index, &self.at, &change));
            edge = next_into(
                self.graph,
                &self.waits,
                &self.at,
                self.seconds,
                &mut self.near,
            );
        }
        edge
    }
}

/// The planned edges that lead to an event, if there can be any: only if its train waits there.
#[tactic(auto, using(crate::proofs::NoneFound::none_found))]
pub(crate) fn planned_into<'a>(
    graph: &'a Graph,
    index: &'a StationIndex,
    at: &Event,
) -> Option<PlannedInto<'a>>
    requires { HaveLiveEvents graph.now.state index.now.entries }
    ensures { unwrap_or result []
        ≡ planned_at graph.now index.now.entries (Into (waits_at graph.now at.now)) at.now }
{
    if !at.key.dep {
        return None;
    }
    match graph.class(at) {
        None => None,
        Some(waits) => Some(PlannedInto {
            graph,
            index,
            waits,
            at: *at,
            changes: feeding_stops(graph, at.stop),
            seconds: 0,
            near: None,
        }),
    }
}

/// The planned edges that lead to a departure by one change.
#[inline(always)]
pub(crate) fn near_feeders<'a>(
    graph: &'a Graph,
    index: &'a StationIndex,
    waits: &'a WaitClass<'a>,
    at: &'a Event,
    change: &Change,
) -> NearFeeders<'a>
    requires waits { waits.now ≡ waits_at graph.now at.now }
    requires entries { HaveLiveEvents graph.now.state index.now.entries }
    ensures { result
        ≡ planned_by graph.now index.now.entries (Into waits.now) at.now change.now }
{
    NearFeeders {
        graph,
        waits,
        at,
        seconds: change.seconds,
        entries: arrivals_near(graph, index, at, change),
    }
}

/// The stops from which one can change to a stop.
#[inline(always)]
pub(crate) fn feeding_stops(graph: &Graph, stop: StopNo) -> &[Change]
    ensures { result.now ≡ reached_back (tables_in graph.now.network) stop }
{
    graph.changes().reach_back(stop)
}

/// The entries of the arrivals at the stop of a change that are in time for a departure, and from
/// which it is within the window.
#[inline(always)]
#[tactic(auto, using(crate::proofs::NoneFound::none_found))]
fn arrivals_near<'a>(
    graph: &Graph,
    index: &'a StationIndex,
    at: &Event,
    change: &Change,
) -> Range<'a>
    requires { HaveLiveEvents graph.now.state index.now.entries }
    ensures near { result ≡ entries_in change.now.stop false
        (at.now.key.time - change.now.seconds - graph.now.network.opts.window)
        (at.now.key.time - change.now.seconds) index.now.entries }
    ensures there { HaveLiveEvents graph.now.state result }
{
    let time = u64::from(at.key.time.seconds());
    let last = time.saturating_sub(u64::from(change.seconds));
    let first = last.saturating_sub(u64::from(graph.window()));
    index.range(change.stop, false, first, last)
}

/// The first planned edge to a departure from the events of these entries, if a stop is looked at.
/// It takes the entries up to that one.
fn next_into(
    graph: &Graph,
    waits: &WaitClass<'_>,
    at: &Event,
    seconds: u32,
    near: &mut Option<Range<'_>>,
) -> Option<Edge>
    requires waits { waits.now ≡ waits_at graph.now at.now }
    requires there { HaveLiveEvents graph.now.state (unwrap_or near.old []) }
    ensures first { YieldsFirst (flat_map (of_entry graph.now.state
        (planned_with graph.now (Into waits.now) at.now seconds)))
        (unwrap_or near.old []) result (unwrap_or near.new []) }
    ensures left { HaveLiveEvents graph.now.state (unwrap_or near.new []) }
{
    match near {
        None => None,
        Some(entries) => next_near(graph, waits, at, seconds, entries),
    }
}

/// The first planned edge to a departure from the events of these entries. It takes the entries up
/// to that one.
#[inline(always)]
fn next_near(
    graph: &Graph,
    waits: &WaitClass<'_>,
    at: &Event,
    seconds: u32,
    entries: &mut Range<'_>,
) -> Option<Edge>
    requires waits { waits.now ≡ waits_at graph.now at.now }
    requires there { HaveLiveEvents graph.now.state entries.old }
    ensures first { YieldsFirst (flat_map (of_entry graph.now.state
        (planned_with graph.now (Into waits.now) at.now seconds))) entries.old result entries.new }
    ensures left { HaveLiveEvents graph.now.state entries.new }
{
    while let Some(entry) = entries.next() {
        if let Some(edge) = edge_from(graph, waits, at, seconds, &entry) {
            return Some(edge);
        }
    }
    None
}

/// The planned edge from the event of an entry to a departure, if there is one.
#[inline(always)]
fn edge_from(
    graph: &Graph,
    waits: &WaitClass<'_>,
    at: &Event,
    seconds: u32,
    entry: &Entry,
) -> Option<Edge>
    requires waits { waits.now ≡ waits_at graph.now at.now }
    requires there { HasLiveEvent graph.now.state entry.now }
    ensures { option_to_list result ≡ of_entry graph.now.state
        (planned_with graph.now (Into waits.now) at.now seconds) entry.now }
{
    let feeder = event_of(graph, entry);
    graph.planned_to(waits, seconds, &feeder, at)
}
