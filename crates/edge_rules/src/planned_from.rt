//! The planned edges that leave an arrival, found in the index of events.

ghost use Rattle.std.specs.Prelude.{◌≡◌, [], flat_map, unwrap_or};
ghost use Rattle.std.specs.Option.{option_to_list};
ghost use Rattle.std.specs.Iterator.{YieldsFirst, item_count};
ghost use Rattle.change_times.specs.Reach.{reached};
ghost use Rattle.edge_rules.specs.Found.{HasLiveEvent, HaveLiveEvents, can_be_at, first_near};
ghost use Rattle.edge_rules.specs.Found.{last_near, of_entry, planned_at, planned_by, planned_with};
ghost use Rattle.edge_rules.specs.Found.{tables_in};
ghost use Rattle.edge_rules.specs.Wanted.{leaving};

use crate::entry_events::event_of;
use crate::graph::Graph;
use crate::shift::Shift;
use change_times::Change;
use delay_model::state::{Edge, Event};
use mt_base::index_entries::Entry;
use mt_base::numbers::{StopNo, Time};
use station_index::{Range, StationIndex};
use std::marker::Model;

/// The planned edges that leave an arrival, stop by stop: all, or where its time changes those that
/// may change the time of the event to which they lead. It is seen as the list of those that are
/// still to come.
#[derive(Drop)]
pub(crate) struct PlannedFrom<'a> {
    graph: &'a Graph,
    index: &'a StationIndex,
    /// How the time of the arrival changes.
    shift: Option<Shift>,
    at: Event,
    /// The stops at the other end that are still to come.
    changes: &'a [Change],
    /// How long the change takes that joins the stop that is looked at, in seconds.
    seconds: u32,
    /// The entries of that stop that are still to come, if a stop is looked at.
    near: Option<Range<'a>>,
}

impl<'a> Model for PlannedFrom<'a> {
    ghost use Rattle.std.specs.Prelude.{List, [], ◌++◌, flat_map, unwrap_or};
    ghost use Rattle.delay_model.specs.declared.state.Edge.{Edge};
    ghost use Rattle.edge_rules.specs.Found.{of_entry, planned_by, planned_with};
    ghost use Rattle.edge_rules.specs.Wanted.{leaving};

    ghost Value = { List Edge };

    ghost view = { λ a. flat_map (of_entry a.graph.now.state
        (planned_with a.graph.now (leaving a.shift) a.at a.seconds)) (unwrap_or a.near [])
        ++ flat_map (planned_by a.graph.now a.index.now.entries (leaving a.shift) a.at)
        a.changes.now };

    ghost use Rattle.edge_rules.specs.InsidePlanned.{IsConsistentFrom};

    ghost invariant = { IsConsistentFrom };
}

impl<'a> Iterator for PlannedFrom<'a> {
    type Item = Edge;

    ghost next_gives = { YieldsFirst (λ s. s) };

    ghost remaining = { item_count (λ s. s) };

    fn next(&mut self) -> Option<Edge> {
        let mut edge = next_from(
            self.graph,
            &self.shift,
            &self.at,
            self.seconds,
            &mut self.near,
        );
        while edge.is_none() && !self.changes.is_empty() {
            let change = self.changes[0];
            self.changes = &self.changes[1..];
            self.seconds = change.seconds;
            self.near = departures_near(self.graph, self.index, &self.shift, &self.at, &change);
            edge = next_from(
                self.graph,
                &self.shift,
                &self.at,
                self.seconds,
                &mut self.near,
            );
        }
        edge
    }
}

/// The planned edges that leave an event, if there can be any: all, or where its time changes those
/// that may change another.
#[inline(always)]
#[tactic(auto, using(crate::proofs::NoneFound::none_found))]
pub(crate) fn planned_from<'a>(
    graph: &'a Graph,
    index: &'a StationIndex,
    shift: Option<Shift>,
    at: &Event,
) -> Option<PlannedFrom<'a>>
    requires { HaveLiveEvents graph.now.state index.now.entries }
    ensures { unwrap_or result []
        ≡ planned_at graph.now index.now.entries (leaving shift) at.now }
{
    if !can_leave(&shift, at) || graph.has_no_rules() {
        return None;
    }
    let changes = fed_stops(graph, at.stop);
    Some(PlannedFrom {
        graph,
        index,
        shift,
        at: *at,
        changes,
        seconds: 0,
        near: None,
    })
}

/// Whether there can be planned edges that leave an event and are wanted: they leave arrivals, and
/// one that asks for no more than the schedules changes nothing.
fn can_leave(shift: &Option<Shift>, at: &Event) -> bool
    ensures { result ≡ can_be_at (leaving shift.now) at.now }
{
    match shift {
        None => !at.key.dep,
        Some(shift) => !at.key.dep && at.key.time.seconds() < shift.later(),
    }
}

/// The stops to which one can change from a stop.
fn fed_stops(graph: &Graph, stop: StopNo) -> &[Change]
    ensures { result.now ≡ reached (tables_in graph.now.network) stop }
{
    graph.changes().reach(stop)
}

/// The entries of the departures at the stop of a change that are planned to be reached from an
/// arrival, as far as they are wanted. None only if there are no such edges.
#[tactic(auto, using(crate::proofs::NoneFound::none_found))]
fn departures_near<'a>(
    graph: &Graph,
    index: &'a StationIndex,
    shift: &Option<Shift>,
    at: &Event,
    change: &Change,
) -> Option<Range<'a>>
    requires { HaveLiveEvents graph.now.state index.now.entries }
    ensures edges { flat_map (of_entry graph.now.state (planned_with graph.now (leaving shift.now)
        at.now change.now.seconds)) (unwrap_or result [])
        ≡ planned_by graph.now index.now.entries (leaving shift.now) at.now change.now }
    ensures there { HaveLiveEvents graph.now.state (unwrap_or result []) }
{
    let (first, last) = times_near(graph.window(), shift, at.key.time, change.seconds);
    if first > last || !graph.may_wait_at(change.stop) {
        return None;
    }
    Some(index.range(change.stop, true, first, last))
}

/// From when to when the departures are scheduled, both times included, that are looked for from an
/// arrival at a time by a change of so many seconds.
fn times_near(window: u32, shift: &Option<Shift>, time: Time, seconds: u32) -> (u64, u64)
    ensures first { result.0 ≡ first_near window (leaving shift.now) time seconds }
    ensures last { result.1 ≡ last_near window (leaving shift.now) time seconds }
{
    let seconds = u64::from(seconds);
    let first = u64::from(time.seconds()) + seconds;
    let last = first + u64::from(window);
    match shift {
        None => (first, last),
        Some(shift) => {
            let earlier = u64::from(shift.earlier()) + seconds;
            let later = u64::from(shift.later()) + seconds;
            let least = earlier.saturating_sub(u64::from(shift.longest_wait));
            (least.max(first), later.saturating_sub(1).min(last))
        }
    }
}

/// The first planned edge from an arrival to the events of these entries, if a stop is looked at.
/// It takes the entries up to that one.
fn next_from(
    graph: &Graph,
    shift: &Option<Shift>,
    at: &Event,
    seconds: u32,
    near: &mut Option<Range<'_>>,
) -> Option<Edge>
    requires there { HaveLiveEvents graph.now.state (unwrap_or near.old []) }
    ensures first { YieldsFirst (flat_map (of_entry graph.now.state
        (planned_with graph.now (leaving shift.now) at.now seconds)))
        (unwrap_or near.old []) result (unwrap_or near.new []) }
    ensures left { HaveLiveEvents graph.now.state (unwrap_or near.new []) }
{
    let Some(entries) = near else {
        return None;
    };
    while let Some(entry) = entries.next() {
        if let Some(edge) = edge_to(graph, shift, at, seconds, &entry) {
            return Some(edge);
        }
    }
    None
}

/// The planned edge from an arrival to the event of an entry, if there is one and it is wanted.
#[inline(always)]
fn edge_to(
    graph: &Graph,
    shift: &Option<Shift>,
    at: &Event,
    seconds: u32,
    entry: &Entry,
) -> Option<Edge>
    requires there { HasLiveEvent graph.now.state entry.now }
    ensures { option_to_list result ≡ of_entry graph.now.state
        (planned_with graph.now (leaving shift.now) at.now seconds) entry.now }
{
    let departure = event_of(graph, entry);
    let edge = graph.planned_from(seconds, at, &departure);
    match shift {
        None => edge,
        Some(shift) => shift.changing(edge),
    }
}
