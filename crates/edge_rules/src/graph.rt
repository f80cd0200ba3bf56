//! The graph over the trains.

ghost use Rattle.std.specs.Prelude.{◌≡◌, ◌+◌, ◌++◌, [], ◌<◌, ◌≤◌, ◌^◌, true};
ghost use Rattle.std.specs.Prelude.{IsTrue, Some, All, IfOk, filter, map, length, unwrap_or};
ghost use Rattle.std.specs.Option.{option_to_list};
ghost use Rattle.std.specs.List.{AllPairs};
ghost use Rattle.std.specs.List.Sorted.{IsPermutation};
ghost use Rattle.mt_base.specs.Options.{IsInRange};
ghost use Rattle.mt_base.specs.Order.{node_of};
ghost use Rattle.mt_base.specs.declared.keys.Node.{Node as ANode};
ghost use Rattle.delay_model.specs.Edges.{DifferInEnds};
ghost use Rattle.delay_model.specs.Effect.{effect};
ghost use Rattle.delay_model.specs.Events.{calls_of, event_named, events, is_live};
ghost use Rattle.delay_model.specs.Refusals.{are_at_stops, stands_before};
ghost use Rattle.delay_model.specs.Timing.{cap, capped};
ghost use Rattle.delay_model.specs.declared.messages.Message.TheVariants as messages;
ghost use Rattle.train_nodes.specs.Times.{has_time};
ghost use Rattle.waiting_rules.specs.WaitTable.{parent_station};
ghost use Rattle.edge_rules.specs.Asking.{IsLater, IsReady};
ghost use Rattle.edge_rules.specs.AtEvent.{along_from, along_to, edges_to, edges_from};
ghost use Rattle.edge_rules.specs.AtEvent.{stored_time, local_at};
ghost use Rattle.edge_rules.specs.AtStops.{AreAtStops};
ghost use Rattle.edge_rules.specs.Deciding.{may_change};
ghost use Rattle.edge_rules.specs.Inside.{network_of, HasOwnLabels};
ghost use Rattle.edge_rules.specs.Found.{wait_of};
ghost use Rattle.edge_rules.specs.GraphState.{with_state};
ghost use Rattle.edge_rules.specs.Transfers.{transfers_to};

use crate::along::{edge_into, edge_out};
use crate::asking::{later_by_kept, later_by_planned};
use crate::copies::{copy_events, copy_rules};
use crate::edges::{ChangingEdges, Edges};
use crate::indexing::{index_of, insert_calls, insert_train, remove_between, remove_stretch};
use crate::kept::kept_edges;
use crate::planned_from::planned_from;
use crate::planned_into::planned_into;
use crate::rule::{by_reports, floor, later_by};
use crate::shift::Shift;
use change_times::Changes;
use delay_model::state::{Edge, Event};
use mt_base::keys::Node;
use mt_base::memory::OutOfMemory;
use mt_base::new_calls::NewCall;
use mt_base::numbers::{Day, Label, RouteNo, Time, TrainNo};
use mt_base::options::Opts;
use station_index::StationIndex;
use std::alloc::Global;
use std::marker::Model;
use std::sync::ledger::Ledger;
use train_nodes::{NodeTimes, Steps, Trains};
use waiting_rules::Waits;

/// The trains, with the index of their live events, the change times, the waiting rules and the
/// options, from which the edges at an event are found.
#[derive(Drop)]
pub struct Graph {
    pub(crate) trains: Trains,
    index: StationIndex,
    pub(crate) changes: Changes,
    pub(crate) waits: Waits,
    pub(crate) opts: Opts,
}

impl Model for Graph {
    ghost use Rattle.edge_rules.specs.GraphState.{GraphState, graph_state_code};

    ghost Value = { GraphState };

    ghost coded = { graph_state_code };

    ghost use Rattle.edge_rules.specs.AtStops.{AreAtStops};
    ghost use Rattle.edge_rules.specs.Inside.{seen, IsConsistent};

    ghost view = { seen };

    ghost invariant = { IsConsistent };
}

#[tactic(auto, using(crate::proofs::GraphLemmas::graphs))]
impl Graph {
    /// The graph over these trains, by these change times, waiting rules and options. The index of
    /// live events takes its memory here. `OutOfMemory` where there is no memory, and where more
    /// than 2^32 - 1 events are live or can be added.
    pub fn build(
        alloc: Global,
        trains: Trains,
        changes: Changes,
        waits: Waits,
        opts: Opts,
    ) -> Result<Graph, OutOfMemory>
        requires options { IsInRange opts }
        requires default { changes.default ≡ opts.change }
        requires parents { waits.parents ≡ map parent_station changes.stops }
        requires labels { All HasOwnLabels trains.trains }
        requires at_stops { AreAtStops changes.stops trains }
        ensures { IfOk result (λ graph.
            graph ≡ record { network = network_of changes waits opts; state = trains }) }
    {
        let index = index_of(alloc, &trains)?;
        Ok(Graph {
            trains,
            index,
            changes,
            waits,
            opts,
        })
    }

    /// The same graph once more. `OutOfMemory` where there is no memory.
    pub fn copy(&self, alloc: Global) -> Result<Graph, OutOfMemory>
        ensures { IfOk result (λ copy. copy ≡ self.now) }
    {
        let rules = copy_rules(&self.waits, &self.changes)?;
        let (index, trains) = copy_events(&self.index, &self.trains, alloc)?;
        let (waits, changes) = rules;
        Ok(Graph {
            trains,
            index,
            changes,
            waits,
            opts: self.opts,
        })
    }

    /// The trains. No two calls of one of them have one label.
    pub fn trains(&self) -> &Trains
        ensures trains { result.now ≡ self.now.state }
        ensures labels { All HasOwnLabels self.now.state.trains }
    {
        &self.trains
    }

    /// A law: every call of every train is at a stop or platform.
    pub fn calls_are_at_stops(&self)
        ensures { AreAtStops self.now.network.stops self.now.state }
    {
        let _ = &self.trains;
    }

    /// A law: no edge waits longer than 86,400 seconds.
    pub fn waits_are_short(&self)
        ensures incoming { (n : ANode) → All (λ e. wait_of e.kind ≤ 86400) (edges_to self.now n) }
        ensures outgoing { (n : ANode) → All (λ e. wait_of e.kind ≤ 86400) (edges_from self.now n) }
    {
        self.waits.waits_are_short();
    }

    /// The change times.
    pub fn changes(&self) -> &Changes
        ensures stops { result.now.stops ≡ self.now.network.stops }
        ensures transfers { result.now.transfers ≡ self.now.network.transfers }
        ensures default { result.now.default ≡ self.now.network.opts.change }
    {
        &self.changes
    }

    /// A live event by its name.
    #[inline(always)]
    pub fn live_event(&self, n: &Node) -> Event
        requires { IsTrue (is_live self.now.state n.now) }
        ensures named { node_of result.key ≡ n.now }
        ensures there { event_named self.now.state (node_of result.key) ≡ Some result }
    {
        self.trains.event(*n)
    }

    /// The edges that lead to an event, each once, in no order that is promised.
    pub fn incoming(&self, n: Node) -> Edges<'_>
        requires { IsTrue (is_live self.now.state n) }
        ensures edges { IsPermutation result (edges_to self.now n) }
        ensures once { AllPairs DifferInEnds result }
    {
        let at = self.live_event(&n);
        Edges {
            along: edge_into(&self.trains, &self.opts, &at),
            planned_into: planned_into(self, &self.index, &at),
            planned_from: None,
            kept: kept_edges(self, true, &at),
        }
    }

    /// The edges that leave an event, each once, in no order that is promised.
    pub fn outgoing(&self, n: Node) -> Edges<'_>
        requires { IsTrue (is_live self.now.state n) }
        ensures edges { IsPermutation result (edges_from self.now n) }
        ensures once { AllPairs DifferInEnds result }
    {
        let at = self.live_event(&n);
        Edges {
            along: edge_out(&self.trains, &self.opts, &at),
            planned_into: None,
            planned_from: planned_from(self, &self.index, None, &at),
            kept: kept_edges(self, false, &at),
        }
    }

    /// The edge along its train that leaves an event, if there is one.
    pub fn along_from(&self, at: &Event) -> Option<Edge>
        requires there { event_named self.now.state (node_of at.now.key) ≡ Some at.now }
        ensures { option_to_list result
            ≡ along_from self.now.network.opts self.now.state (node_of at.now.key) }
    {
        edge_out(&self.trains, &self.opts, at)
    }

    /// The edges between trains that leave an event and may change the time of the event to which
    /// they lead, where this one gets the time `is` in place of `was`; each once, in no order that
    /// is promised. With the edge along its train, which always may, these are all that may.
    #[inline(always)]
    pub fn transfers_changing(&self, at: &Event, was: Time, is: Time) -> ChangingEdges<'_>
        requires there { event_named self.now.state (node_of at.now.key) ≡ Some at.now }
        ensures edges { IsPermutation
            (along_from self.now.network.opts self.now.state (node_of at.now.key) ++ result)
            (filter (may_change was is) (edges_from self.now (node_of at.now.key))) }
        ensures once { AllPairs DifferInEnds result }
    {
        let shift = Shift {
            was,
            is,
            longest_wait: self.waits.longest_wait(),
        };
        ChangingEdges {
            planned: planned_from(self, &self.index, Some(shift), at),
            kept: kept_edges(self, false, at),
        }
    }

    /// The time of an event by the rule, in seconds from the base of day 0, from the stored times
    /// of the events that feed it. For each edge to it one of these is read, which takes a step,
    /// and nothing else takes one.
    pub fn local_at<L: Ledger>(&self, at: &Event, times: &NodeTimes, steps: &mut Steps<L>) -> Time
        requires there { event_named self.now.state (node_of at.now.key) ≡ Some at.now }
        requires held { All (λ e. IsTrue (has_time times.now (node_of e.from)))
            (edges_to self.now (node_of at.now.key)) }
        requires fits { All (λ e. stored_time times.now e.from + e.weight < 2 ^ 25)
            (edges_to self.now (node_of at.now.key)) }
        ensures rule { local_at self.now times.now (node_of at.now.key) ≡ Some result }
        ensures cost { steps.new ≡ steps.old + length (edges_to self.now (node_of at.now.key)) }
    {
        let trains = self.trains();
        let along = self.later_along(at, floor(at), times, steps);
        let time = self.later_by_transfers(at, along, times, steps);
        by_reports(trains, at, time)
    }

    /// The time of an event for which this is the latest of its floor and of what the edges to it
    /// ask for, in seconds from the base of day 0: its report, or else that, but no later than the
    /// next report of its train.
    pub fn reported(&self, at: &Event, asked: u32) -> Time
        requires there { event_named self.now.state (node_of at.now.key) ≡ Some at.now }
        requires small { asked < 2 ^ 25 }
        ensures { result ≡ unwrap_or at.now.report
            (capped (cap (events self.now.state) at.now) asked) }
    {
        let trains = self.trains();
        by_reports(trains, at, asked)
    }

    /// A train does not run from the departure of one call to the arrival of a later one, and what
    /// was chosen for connections that name one of these events goes.
    pub fn cancel(&mut self, t: TrainNo, from: Label, to: Label)
        requires { stands_before from to (calls_of self.old.state t) ≡ true }
        ensures { self.new ≡ with_state
            (effect self.old.state (messages.Cancel t from to)) self.old }
    {
        remove_stretch(&mut self.index, &self.trains, t, from, to);
        self.trains.cancel(t, from, to);
        self.trains.labels_are_distinct();
    }

    /// Between two of its calls a train makes these calls, and not those that it made so far, for
    /// which what was chosen goes with them. It takes no memory.
    pub fn reroute(&mut self, t: TrainNo, from: Label, to: Label, via: &[NewCall])
        requires stand { stands_before from to (calls_of self.old.state t) ≡ true }
        requires spare { length via.now ≤ self.old.state.spare_calls }
        requires stops { are_at_stops self.old.network via.now ≡ true }
        ensures { self.new ≡ with_state
            (effect self.old.state (messages.Reroute t from to via.now)) self.old }
    {
        remove_between(&mut self.index, &self.trains, t, from, to);
        self.trains.reroute(t, from, to, via);
        self.trains.labels_are_distinct();
        let first = self.trains.next_label(t).get() - via.len() as u32;
        insert_calls(&mut self.index, t, first, via);
    }

    /// One more train runs. It gets the next number, which is given back. It takes no memory.
    pub fn add_train(&mut self, day: Day, route: RouteNo, calls: &[NewCall]) -> TrainNo
        requires train_spare { 0 < self.old.state.spare_trains }
        requires calls_spare { length calls.now ≤ self.old.state.spare_calls }
        requires two_calls { 2 ≤ length calls.now }
        requires stops { are_at_stops self.old.network calls.now ≡ true }
        ensures number { result ≡ length self.old.state.trains }
        ensures train { self.new ≡ with_state (effect self.old.state
            (messages.Extra (length self.old.state.trains) day route calls.now)) self.old }
    {
        let number = self.trains.add_train(day, route, calls);
        self.trains.labels_are_distinct();
        insert_train(&mut self.index, &self.trains, number);
        number
    }

    /// The later of a time and of what the edge along its train asks for that leads to an event.
    #[inline(always)]
    fn later_along<L: Ledger>(
        &self,
        at: &Event,
        so_far: u32,
        times: &NodeTimes,
        steps: &mut Steps<L>,
    ) -> u32
        requires there { event_named self.now.state (node_of at.now.key) ≡ Some at.now }
        requires ready { All (IsReady times.now)
            (along_to self.now.network.opts self.now.state (node_of at.now.key)) }
        requires small { so_far < 2 ^ 25 }
        ensures { IsLater times.now so_far steps.old
            (along_to self.now.network.opts self.now.state (node_of at.now.key)) result steps.new }
    {
        match edge_into(&self.trains, &self.opts, at) {
            None => so_far,
            Some(edge) => later_by(&edge, so_far, times, steps),
        }
    }

    /// The latest of a time and of what the edges from other trains ask for that lead to an event.
    #[inline(always)]
    fn later_by_transfers<L: Ledger>(
        &self,
        at: &Event,
        so_far: u32,
        times: &NodeTimes,
        steps: &mut Steps<L>,
    ) -> u32
        requires there { event_named self.now.state (node_of at.now.key) ≡ Some at.now }
        requires ready { All (IsReady times.now) (transfers_to self.now at.now) }
        requires small { so_far < 2 ^ 25 }
        ensures { IsLater times.now so_far steps.old (transfers_to self.now at.now) result
            steps.new }
    {
        let planned = later_by_planned(self, &self.index, at, so_far, times, steps);
        later_by_kept(self, at, planned, times, steps)
    }
}
